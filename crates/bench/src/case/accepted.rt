// What a soft clause comes to, once all its questions are asked.

// Its amount, the total with it, and the proved cost.
#[derive(Clone, Copy)]
pub(crate) struct Accepted<A> {
    pub amount: A,
    pub total: A,
    pub proved: A,
}
