// The kind of one tier: minutes late, within 10^12.
ghost use Rattle.std.specs.Prelude.{◌≡◌, [], ◌∷◌, ◌+ℤ◌, ◌-ℤ◌};
ghost use Rattle.cost.specs.Kinds.{meant};
ghost use Rattle.cost.specs.Models.{minutes_kind};
ghost use Rattle.cost.specs.Reach.{reached};
ghost use Rattle.cost.specs.KindLemmas.{minutes_lawful};

use crate::amounts::{Minutes, MinutesRow};
use crate::kind::CostKind;
use crate::misfit::Misfit;
use crate::tier::Tier;
use std::cmp::Ordering;
use std::ops::{Add, Sub};

// How many figures an amount has.
const TIERS: usize = 1;

// How far each figure may go, up and down.
const REACH: i64 = 1_000_000_000_000;

impl CostKind for Minutes {
    type Amount = Minutes;

    type Row = MinutesRow;

    ghost kind = { minutes_kind };

    ghost lawful = { minutes_lawful };

    fn tiers() -> usize {
        TIERS
    }

    fn nothing() -> Minutes {
        Minutes { minutes: 0 }
    }

    fn make(figures: &[i64]) -> Result<Minutes, Misfit> {
        let &[minutes] = figures else {
            return Err(Misfit::WrongLength);
        };
        Ok(Minutes::try_from(MinutesRow { minutes })?)
    }

    fn figure(a: Minutes, tier: usize) -> i64 {
        if tier == 1 { a.minutes } else { 0 }
    }

    fn compare(a: Minutes, b: Minutes) -> Ordering {
        a.cmp(&b)
    }

    fn sum(a: Minutes, b: Minutes) -> Result<Minutes, Tier> {
        Minutes::try_from(a + b)
    }

    fn difference(a: Minutes, b: Minutes) -> Result<Minutes, Tier> {
        Minutes::try_from(a - b)
    }

    fn exceeds(a: Minutes, b: Minutes, c: Minutes) -> bool {
        a + b > MinutesRow::from(c)
    }

    fn row(a: Minutes) -> MinutesRow {
        MinutesRow::from(a)
    }

    fn read(row: MinutesRow) -> Minutes {
        Minutes::try_from(row).unwrap_or(Self::nothing())
    }
}

// The exact sum, in reach or not.
impl Add for Minutes {
    type Output = MinutesRow;

    ghost add_gives = { λ a b w. w.minutes ≡ a.minutes +ℤ b.minutes };

    fn add(self, other: Minutes) -> MinutesRow {
        MinutesRow {
            minutes: self.minutes + other.minutes,
        }
    }
}

// The exact difference, in reach or not.
impl Sub for Minutes {
    type Output = MinutesRow;

    ghost sub_gives = { λ a b w. w.minutes ≡ a.minutes -ℤ b.minutes };

    fn sub(self, other: Minutes) -> MinutesRow {
        MinutesRow {
            minutes: self.minutes - other.minutes,
        }
    }
}

// The amount as it is kept.
impl From<Minutes> for MinutesRow {
    ghost from_gives = { λ a w. w ≡ minutes_kind.row a };

    fn from(a: Minutes) -> MinutesRow {
        MinutesRow { minutes: a.minutes }
    }
}

// The amount of any number, or a refusal where it is out of reach.
impl TryFrom<MinutesRow> for Minutes {
    type Error = Tier;

    ghost try_from_gives = { λ w r. meant minutes_kind.figures r ≡ reached minutes_kind.scale (w.minutes ∷ []) };

    fn try_from(row: MinutesRow) -> Result<Minutes, Tier> {
        let minutes = row.minutes;
        if (-REACH..=REACH).contains(&minutes) {
            Ok(Minutes { minutes })
        } else {
            Err(Tier { number: 1 })
        }
    }
}
