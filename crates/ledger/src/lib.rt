// The ledger: a cell for each place, generic over the cost kind. Amounts lie
// in cells as plain rows, and are read back as amounts.

#![tactic(auto)]

pub mod amounts;
pub mod bills;
pub mod cell;
pub mod cells;
pub mod dues;
pub mod weighed;
