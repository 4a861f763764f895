// Clauses as they are given, and plans beside them: whether a clause's
// variables rise, whether two clauses are equal, whether a strip is a plan, and
// whether a plan meets a clause.

#![tactic(auto)]

pub mod given;
pub mod pairs;
pub mod plans;
