// The piles in use: a bench of any cost kind on rows and on masks, each with and
// without the signature layer. The callers that make their own shelf have no premise
// left in their contracts; and what lies in memory once a case is opened is told word
// by word.

#![tactic(auto)]

pub mod cases;
pub mod mask_memory;
pub mod row_memory;

pub use crate::cases::one_clause_on_rows;
pub use crate::row_memory::{open_rows, reopen_rows};
