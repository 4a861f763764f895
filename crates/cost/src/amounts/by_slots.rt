// The kind of two tiers: lost dock slots, then minutes late, each within 10^9.
ghost use Rattle.std.specs.Prelude.{◌≡◌, [], ◌∷◌, ◌+ℤ◌, ◌-ℤ◌};
ghost use Rattle.cost.specs.Kinds.{meant};
ghost use Rattle.cost.specs.Models.{slots_kind};
ghost use Rattle.cost.specs.Reach.{reached};
ghost use Rattle.cost.specs.KindLemmas.{slots_lawful};

use crate::amounts::{Slots, SlotsRow};
use crate::kind::CostKind;
use crate::misfit::Misfit;
use crate::tier::Tier;
use std::cmp::Ordering;
use std::ops::{Add, Sub};

// How many figures an amount has.
const TIERS: usize = 2;

// How far each figure may go, up and down.
const REACH: i64 = 1_000_000_000;

impl CostKind for Slots {
    type Amount = Slots;

    type Row = SlotsRow;

    ghost kind = { slots_kind };

    ghost lawful = { slots_lawful };

    fn tiers() -> usize {
        TIERS
    }

    fn nothing() -> Slots {
        Slots {
            slots: 0,
            minutes: 0,
        }
    }

    fn make(figures: &[i64]) -> Result<Slots, Misfit> {
        let &[slots, minutes] = figures else {
            return Err(Misfit::WrongLength);
        };
        Ok(Slots::try_from(SlotsRow { slots, minutes })?)
    }

    fn figure(a: Slots, tier: usize) -> i64 {
        match tier {
            1 => a.slots,
            2 => a.minutes,
            _ => 0,
        }
    }

    fn compare(a: Slots, b: Slots) -> Ordering {
        a.cmp(&b)
    }

    fn sum(a: Slots, b: Slots) -> Result<Slots, Tier> {
        Slots::try_from(a + b)
    }

    fn difference(a: Slots, b: Slots) -> Result<Slots, Tier> {
        Slots::try_from(a - b)
    }

    fn exceeds(a: Slots, b: Slots, c: Slots) -> bool {
        a + b > SlotsRow::from(c)
    }

    fn row(a: Slots) -> SlotsRow {
        SlotsRow::from(a)
    }

    fn read(row: SlotsRow) -> Slots {
        Slots::try_from(row).unwrap_or(Self::nothing())
    }
}

// The exact sum, in reach or not.
impl Add for Slots {
    type Output = SlotsRow;

    ghost add_gives = { λ a b w. (w.slots ≡ a.slots +ℤ b.slots) × (w.minutes ≡ a.minutes +ℤ b.minutes) };

    fn add(self, other: Slots) -> SlotsRow {
        SlotsRow {
            slots: self.slots + other.slots,
            minutes: self.minutes + other.minutes,
        }
    }
}

// The exact difference, in reach or not.
impl Sub for Slots {
    type Output = SlotsRow;

    ghost sub_gives = { λ a b w. (w.slots ≡ a.slots -ℤ b.slots) × (w.minutes ≡ a.minutes -ℤ b.minutes) };

    fn sub(self, other: Slots) -> SlotsRow {
        SlotsRow {
            slots: self.slots - other.slots,
            minutes: self.minutes - other.minutes,
        }
    }
}

// The amount as it is kept.
impl From<Slots> for SlotsRow {
    ghost from_gives = { λ a w. w ≡ slots_kind.row a };

    fn from(a: Slots) -> SlotsRow {
        SlotsRow {
            slots: a.slots,
            minutes: a.minutes,
        }
    }
}

// The amount of any two numbers, or a refusal that names the first out of reach.
impl TryFrom<SlotsRow> for Slots {
    type Error = Tier;

    ghost try_from_gives = { λ w r. meant slots_kind.figures r ≡ reached slots_kind.scale (w.slots ∷ w.minutes ∷ []) };

    fn try_from(row: SlotsRow) -> Result<Slots, Tier> {
        let SlotsRow { slots, minutes } = row;
        let reach = -REACH..=REACH;
        if !reach.contains(&slots) {
            return Err(Tier { number: 1 });
        }
        if !reach.contains(&minutes) {
            return Err(Tier { number: 2 });
        }
        Ok(Slots { slots, minutes })
    }
}
