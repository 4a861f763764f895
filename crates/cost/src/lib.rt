// Cost kinds: what an amount is, how amounts are summed and compared, and
// how one is kept as a plain row. Exact figures and their laws know nothing of
// reach; a kind adds how far each tier may go.

#![tactic(auto)]

pub mod amounts;
pub mod kind;
pub mod laws;
pub mod misfit;
#[cfg(test)]
mod tests;
pub mod tier;
