// The bench: one case held as weighted clauses, generic over the cost kind and
// the shelf. Shelf and ledger are passed to each call, and stay two parameters: one call may
// change both, another the ledger alone, a third neither, and each is lent as it may be changed.

#![tactic(auto)]

pub mod case;

pub use faults::fault;
