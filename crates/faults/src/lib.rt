// Why the bench refuses a call, by the question that was denied.

#![tactic(auto)]

pub mod fault;
