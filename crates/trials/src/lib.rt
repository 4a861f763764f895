// Trials of the bench on a row shelf, with both cost kinds and edge values; and of what it never
// asks for: a definition that it refuses, and results on a shelf that is not in order.

#![tactic(auto)]

#[cfg(test)]
mod tests;
