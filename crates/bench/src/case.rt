// The case that a bench holds. The calls are in the modules below, which alone
// see the private fields.
use cost::kind::CostKind;

mod accepted;
mod asking;
pub mod claiming;
pub mod filling;
pub mod showing;
pub mod stepping;

// Where a case is.
#[derive(Clone, Copy, PartialEq, Eq, Debug)]
pub enum Phase {
    // No case yet.
    Idle,
    // Clauses are being given.
    Filling,
    // All clauses are given, and no step has been made.
    Sealed,
    // A step has been made.
    Working,
    // A claim has been granted.
    Closed,
}

// A bench: the number of variables that open named, the current number with the
// defined ones, the total of soft amounts given, the proved cost, the impossible
// mark, and the shown plan's cost.
#[derive(Drop)]
pub struct Bench<K: CostKind> {
    phase: Phase,
    n: u16,
    current: u16,
    total: K::Amount,
    proved: K::Amount,
    impossible: bool,
    shown: Option<K::Amount>,
}
