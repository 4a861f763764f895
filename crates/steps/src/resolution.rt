// What a resolve comes to, once all its questions are asked.
use ledger::weighed::Weighed;

// Whether a result is empty, whose compensations there are, and the amounts.
#[derive(Clone, Copy)]
pub struct Resolution<A> {
    pub empty: bool,
    pub with_i: bool,
    pub with_j: bool,
    pub weighed: Weighed<A>,
}
