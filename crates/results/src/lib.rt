// What a step makes of clauses on a shelf: the results counted, then placed.
// Questions are answered by a count of the results, with nothing altered; what
// may be placed is then placed. The resolving of two places, the defining of a
// variable and the splitting of a place are offered to other crates.

#![tactic(auto)]

mod codes;
pub mod defining;
mod definition;
mod listed;
mod parents;
mod placing;
pub mod resolving;
pub mod splitting;
pub mod tallies;
