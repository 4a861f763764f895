// Amounts that keep their reach, and the plain rows that they are kept as.
// The kinds are in the modules below, which alone see the private fields.
// Two types and no generic one: the amount of two tiers is to be a struct of two named
// figures whose type keeps each in reach.
ghost use Rattle.cost.specs.Reach.{Near};

pub mod by_minutes;
pub mod by_slots;
#[cfg(test)]
mod foreign;
mod printing;

// Minutes late, from −10^12 to 10^12.
#[derive(Clone, Copy, PartialEq, Eq, PartialOrd, Ord)]
pub struct Minutes {
    minutes: i64,
    ghost ok: { Near 1000000000000 minutes },
}

// Minutes as they lie in a slice: any number.
#[derive(Clone, Copy, PartialEq, Eq, PartialOrd, Ord)]
pub struct MinutesRow {
    minutes: i64,
}

// Lost dock slots, then minutes late, each from −10^9 to 10^9.
#[derive(Clone, Copy, PartialEq, Eq, PartialOrd, Ord)]
pub struct Slots {
    slots: i64,
    minutes: i64,
    ghost ok: { Near 1000000000 slots × Near 1000000000 minutes },
}

// Slots and minutes as they lie in a slice: any two numbers.
#[derive(Clone, Copy, PartialEq, Eq, PartialOrd, Ord)]
pub struct SlotsRow {
    slots: i64,
    minutes: i64,
}
