// Shelves: where a case's clauses stand. The trait says what every shelf
// means and answers; what is done with whole places is proved once over any
// shelf.

#![tactic(auto)]

pub mod literal;
pub mod memory;
pub mod places;
mod printing;
pub mod refusal;
pub mod store;
