// A resolve weighed, before anything is changed.
use crate::cell::Cell;

// The cell of the results, what is left of each parent, and the proved cost.
#[derive(Clone, Copy)]
pub struct Weighed<A> {
    pub common: Cell<A>,
    pub left_i: Cell<A>,
    pub left_j: Cell<A>,
    pub proved: A,
}
