// What the steps ask and do, over a shelf and a ledger that are lent, with no bench
// yet. Each step has two parts: the first puts its questions from 9 on, in their
// order, and changes nothing; the second does the step, and is exact where the
// first granted it.
//
// Shelf and ledger stay two parameters of both parts. The questions of a split and of a
// define read the shelf alone, those of the other steps read both, and each `make` changes
// both: a struct of the two loans would be made anew for each call, and its clauses would
// speak of `self.shelf` and `self.cells` at two moments.

#![tactic(auto)]

pub mod defining;
pub mod hardening;
pub mod joining;
pub mod resolution;
pub mod resolving;
mod settling;
pub mod splitting;
