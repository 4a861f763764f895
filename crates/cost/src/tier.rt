// The tier that a refusal names, counted from 1.
#[derive(Clone, Copy, PartialEq, Eq, Debug)]
pub struct Tier {
    pub number: u8,
}
