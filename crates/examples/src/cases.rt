// The eight marked examples, with some refusals on the way, and a few more: for split,
// join and define, for the reach of slots, and refusals of every call. Calls and places
// of the marked ones are those of the rules' own list.
use crate::trial::{Call, Example, Grant, Place, Refused, Step};
use ledger::cell::Cell;
use shelf::literal::Literal;

const X1: Literal = Literal { code: 2 };

const NOT1: Literal = Literal { code: 3 };

const X2: Literal = Literal { code: 4 };

const NOT2: Literal = Literal { code: 5 };

const X3: Literal = Literal { code: 6 };

const NOT3: Literal = Literal { code: 7 };

const FREE: Place<'static> = Place(&[], Cell::Soft((0, 0)));

// Max-RES with one compensation: {1, 2} with 3 and {-1, 2, 3} with 4.
pub const ONE_COMPENSATION: Example<'static> = Example {
    steps: &[
        Step(Call::Open(3), Ok(Grant::Done)),
        Step(Call::Soft(0, &[3], &[X1, X2]), Ok(Grant::Done)),
        Step(Call::Soft(1, &[4], &[NOT1, X2, X3]), Ok(Grant::Done)),
        Step(Call::Seal, Ok(Grant::Done)),
        Step(Call::Resolve(0, 1, 1, 2), Ok(Grant::Done)),
    ],
    places: &[
        FREE,
        Place(&[3, 4, 6], Cell::Soft((0, 1))),
        Place(&[4, 6], Cell::Soft((0, 3))),
        Place(&[2, 4, 7], Cell::Soft((0, 3))),
        FREE,
    ],
    proved: (0, 0),
};

// A whole case: hard {-2, 3}; soft {1} with 2, {-1, 2} with 1, {-3} with 2.
pub const WHOLE_CASE: Example<'static> = Example {
    steps: &[
        Step(Call::Open(3), Ok(Grant::Done)),
        Step(Call::Hard(0, &[NOT2, X3]), Ok(Grant::Done)),
        Step(Call::Soft(1, &[2], &[X1]), Ok(Grant::Done)),
        Step(Call::Soft(2, &[1], &[NOT1, X2]), Ok(Grant::Done)),
        Step(Call::Soft(3, &[2], &[NOT3]), Ok(Grant::Done)),
        Step(Call::Seal, Ok(Grant::Done)),
        Step(Call::Show(&[1, 0, 0]), Ok(Grant::Shown((0, 1), 1))),
        Step(Call::Resolve(1, 2, 1, 4), Ok(Grant::Done)),
        Step(Call::Resolve(4, 0, 2, 6), Ok(Grant::Done)),
        Step(Call::Resolve(6, 3, 3, 2), Ok(Grant::Done)),
        Step(Call::Cheapest, Ok(Grant::Cheapest((0, 1)))),
    ],
    places: &[
        Place(&[5, 6], Cell::Hard),
        Place(&[2], Cell::Soft((0, 1))),
        FREE,
        Place(&[7], Cell::Soft((0, 1))),
        FREE,
        Place(&[2, 5], Cell::Soft((0, 1))),
        FREE,
        Place(&[4, 7], Cell::Soft((0, 1))),
    ],
    proved: (0, 1),
};

// Parents that are used up: {1, 2} and {-1, 2} with 1 each leave {2} with 1, and every
// further step on either parent is refused with 9.
pub const USED_UP: Example<'static> = Example {
    steps: &[
        Step(Call::Open(2), Ok(Grant::Done)),
        Step(Call::Soft(0, &[1], &[X1, X2]), Ok(Grant::Done)),
        Step(Call::Soft(1, &[1], &[NOT1, X2]), Ok(Grant::Done)),
        Step(Call::Seal, Ok(Grant::Done)),
        Step(Call::Resolve(0, 1, 2, 2), Err(Refused(10, 0))),
        Step(Call::Resolve(0, 1, 1, 1), Err(Refused(12, 0))),
        Step(Call::Resolve(0, 1, 1, 2), Ok(Grant::Done)),
        Step(Call::Resolve(0, 2, 1, 3), Err(Refused(9, 0))),
        Step(Call::Resolve(2, 1, 2, 3), Err(Refused(9, 0))),
        Step(Call::Split(0, 1, 3), Err(Refused(9, 0))),
        Step(Call::Join(2, 1), Err(Refused(9, 0))),
        Step(Call::Join(0, 2), Err(Refused(9, 0))),
        Step(Call::Harden(1), Err(Refused(9, 0))),
    ],
    places: &[FREE, FREE, Place(&[4], Cell::Soft((0, 1))), FREE],
    proved: (0, 0),
};

// Two tiers: {1} with (2, 10) and {-1} with (1, 25) prove (1, 25) and leave (1, -15).
pub const TWO_TIERS: Example<'static> = Example {
    steps: &[
        Step(Call::Open(1), Ok(Grant::Done)),
        Step(Call::Soft(0, &[2, 10], &[X1]), Ok(Grant::Done)),
        Step(Call::Soft(1, &[1, 25], &[NOT1]), Ok(Grant::Done)),
        Step(Call::Seal, Ok(Grant::Done)),
        Step(Call::Resolve(0, 1, 1, 2), Ok(Grant::Done)),
    ],
    places: &[Place(&[2], Cell::Soft((1, -15))), FREE, FREE],
    proved: (1, 25),
};

// The full reach of minutes is granted, and a further 1 is refused with 6.
pub const FULL_REACH: Example<'static> = Example {
    steps: &[
        Step(Call::Open(1), Ok(Grant::Done)),
        Step(Call::Soft(0, &[1000000000000], &[X1]), Ok(Grant::Done)),
        Step(Call::Soft(1, &[1], &[NOT1]), Err(Refused(6, 0))),
    ],
    places: &[Place(&[2], Cell::Soft((0, 1000000000000))), FREE],
    proved: (0, 0),
};

// Hard {1} and hard {-1} leave no plan: the claim of impossible is granted.
pub const NO_PLAN: Example<'static> = Example {
    steps: &[
        Step(Call::Open(1), Ok(Grant::Done)),
        Step(Call::Hard(0, &[X1]), Ok(Grant::Done)),
        Step(Call::Hard(1, &[NOT1]), Ok(Grant::Done)),
        Step(Call::Seal, Ok(Grant::Done)),
        Step(Call::Impossible, Err(Refused(17, 0))),
        Step(Call::Resolve(0, 1, 1, 2), Ok(Grant::Done)),
        Step(Call::Impossible, Ok(Grant::Done)),
    ],
    places: &[Place(&[2], Cell::Hard), Place(&[3], Cell::Hard), FREE],
    proved: (0, 0),
};

// No variables: an empty soft clause with 5 is what the empty plan costs.
pub const NO_VARIABLES: Example<'static> = Example {
    steps: &[
        Step(Call::Open(0), Ok(Grant::Done)),
        Step(Call::Soft(0, &[5], &[]), Ok(Grant::Done)),
        Step(Call::Seal, Ok(Grant::Done)),
        Step(Call::Show(&[]), Ok(Grant::Shown((0, 5), 0))),
        Step(Call::Cheapest, Ok(Grant::Cheapest((0, 5)))),
    ],
    places: &[FREE],
    proved: (0, 5),
};

// Hardening: with {1} at 2, {2} at 3 and the plan 0 1, which costs 2, the first may not
// be made hard, since the plan itself leaves it unmet; the second may.
pub const HARDENING: Example<'static> = Example {
    steps: &[
        Step(Call::Open(2), Ok(Grant::Done)),
        Step(Call::Soft(0, &[2], &[X1]), Ok(Grant::Done)),
        Step(Call::Soft(1, &[3], &[X2]), Ok(Grant::Done)),
        Step(Call::Seal, Ok(Grant::Done)),
        Step(Call::Show(&[0, 1]), Ok(Grant::Shown((0, 2), 1))),
        Step(Call::Harden(0), Err(Refused(15, 0))),
        Step(Call::Harden(1), Ok(Grant::Done)),
        Step(Call::Harden(1), Err(Refused(10, 0))),
    ],
    places: &[
        Place(&[2], Cell::Soft((0, 2))),
        Place(&[4], Cell::Hard),
        FREE,
    ],
    proved: (0, 0),
};

// Split {2} with 5 on variable 1, and join what comes with {1, 2} at 4.
pub const SPLITTING: Example<'static> = Example {
    steps: &[
        Step(Call::Open(2), Ok(Grant::Done)),
        Step(Call::Soft(0, &[5], &[X2]), Ok(Grant::Done)),
        Step(Call::Soft(1, &[4], &[X1, X2]), Ok(Grant::Done)),
        Step(Call::Seal, Ok(Grant::Done)),
        Step(Call::Split(0, 2, 2), Err(Refused(10, 0))),
        Step(Call::Split(0, 1, 1), Err(Refused(12, 0))),
        Step(Call::Split(0, 1, 2), Ok(Grant::Done)),
        Step(Call::Join(0, 2), Err(Refused(10, 0))),
        Step(Call::Join(0, 0), Err(Refused(10, 0))),
        Step(Call::Join(0, 1), Ok(Grant::Done)),
    ],
    places: &[
        Place(&[2, 4], Cell::Soft((0, 9))),
        FREE,
        Place(&[3, 4], Cell::Soft((0, 5))),
        FREE,
    ],
    proved: (0, 0),
};

// Define variable 3 as 1 or -2.
pub const A_DEFINITION: Example<'static> = Example {
    steps: &[
        Step(Call::Open(2), Ok(Grant::Done)),
        Step(Call::Seal, Ok(Grant::Done)),
        Step(Call::Define(0, &[]), Err(Refused(10, 0))),
        Step(Call::Define(0, &[X1, NOT3]), Err(Refused(10, 0))),
        Step(Call::Define(6, &[X1, NOT2]), Err(Refused(12, 0))),
        Step(Call::Define(0, &[X1, NOT2]), Ok(Grant::Done)),
    ],
    places: &[
        Place(&[2, 5, 7], Cell::Hard),
        Place(&[3, 6], Cell::Hard),
        Place(&[4, 6], Cell::Hard),
        FREE,
    ],
    proved: (0, 0),
};

// The full reach of slots, in its last tier.
pub const FULL_SLOTS: Example<'static> = Example {
    steps: &[
        Step(Call::Open(1), Ok(Grant::Done)),
        Step(Call::Soft(0, &[1000000000], &[X1]), Ok(Grant::Done)),
        Step(Call::Soft(1, &[1], &[NOT1]), Err(Refused(6, 0))),
        Step(Call::Soft(1, &[1, 1, 1], &[NOT1]), Err(Refused(6, 0))),
        Step(Call::Soft(1, &[1, 0], &[NOT1]), Ok(Grant::Done)),
    ],
    places: &[
        Place(&[2], Cell::Soft((0, 1000000000))),
        Place(&[3], Cell::Soft((1, 0))),
        FREE,
    ],
    proved: (0, 0),
};

// Refusals on the way of a small case, on a shelf with the highest variable 3, clauses
// of up to 3 literals and 8 places.
pub const REFUSALS: Example<'static> = Example {
    steps: &[
        Step(Call::Seal, Err(Refused(2, 0))),
        Step(Call::Open(4), Err(Refused(3, 0))),
        Step(Call::Open(1), Ok(Grant::Done)),
        Step(Call::Show(&[1]), Err(Refused(2, 0))),
        Step(Call::Resolve(0, 1, 1, 2), Err(Refused(2, 0))),
        Step(Call::Soft(0, &[1], &[X2]), Err(Refused(4, 0))),
        Step(Call::Soft(0, &[1], &[X1, NOT1]), Err(Refused(4, 0))),
        Step(Call::Soft(8, &[1], &[X1]), Err(Refused(5, 0))),
        Step(Call::Soft(0, &[0], &[X1]), Err(Refused(6, 0))),
        Step(Call::Soft(0, &[-1], &[X1]), Err(Refused(6, 0))),
        Step(Call::Soft(0, &[1000000000001], &[X1]), Err(Refused(6, 0))),
        Step(Call::Soft(0, &[1, 1, 1], &[X1]), Err(Refused(6, 0))),
        Step(Call::Soft(0, &[7], &[X1]), Ok(Grant::Done)),
        Step(Call::Hard(0, &[NOT1]), Err(Refused(5, 0))),
        Step(Call::Hard(7, &[NOT1]), Ok(Grant::Done)),
        Step(Call::Seal, Ok(Grant::Done)),
        Step(Call::Hard(1, &[X1]), Err(Refused(2, 0))),
        Step(Call::Show(&[]), Err(Refused(7, 0))),
        Step(Call::Show(&[2]), Err(Refused(7, 0))),
        Step(Call::Show(&[1]), Err(Refused(8, 0))),
        Step(Call::Cheapest, Err(Refused(14, 0))),
        Step(Call::Harden(0), Err(Refused(14, 0))),
        Step(Call::Harden(7), Err(Refused(10, 0))),
        Step(Call::Impossible, Err(Refused(17, 0))),
        Step(Call::Show(&[0]), Ok(Grant::Shown((0, 7), 1))),
        Step(Call::Cheapest, Err(Refused(16, 0))),
        Step(Call::Harden(0), Err(Refused(15, 0))),
        Step(Call::Resolve(0, 7, 1, 0), Ok(Grant::Done)),
        Step(Call::Show(&[0]), Err(Refused(2, 0))),
        Step(Call::Cheapest, Ok(Grant::Cheapest((0, 7)))),
        Step(Call::Cheapest, Err(Refused(2, 0))),
    ],
    places: &[
        FREE,
        FREE,
        FREE,
        FREE,
        FREE,
        FREE,
        FREE,
        Place(&[3], Cell::Hard),
    ],
    proved: (0, 7),
};

// A ledger with fewer cells than places: every call is refused with 1.
pub const SHORT_LEDGER: Example<'static> = Example {
    steps: &[
        Step(Call::Open(1), Err(Refused(1, 0))),
        Step(Call::Seal, Err(Refused(1, 0))),
        Step(Call::Join(0, 1), Err(Refused(1, 0))),
        Step(Call::Impossible, Err(Refused(1, 0))),
    ],
    places: &[],
    proved: (0, 0),
};

// Those that fit both kinds.
pub const EXAMPLES: [Example<'static>; 8] = [
    ONE_COMPENSATION,
    WHOLE_CASE,
    USED_UP,
    NO_PLAN,
    NO_VARIABLES,
    HARDENING,
    SPLITTING,
    A_DEFINITION,
];
