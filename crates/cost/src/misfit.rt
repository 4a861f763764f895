// Why a list of figures is no amount.
ghost use Rattle.std.specs.Prelude.{◌≡◌};
ghost use Rattle.cost.specs.Misfits.{tier_told};
ghost use Rattle.cost.specs.declared.misfit.Misfit.TheVariants.{OutOfReach};

use crate::tier::Tier;

#[derive(Clone, Copy, PartialEq, Eq, Debug)]
pub enum Misfit {
    // The list has not one figure for each tier.
    WrongLength,
    // A figure is out of reach, first at this tier.
    OutOfReach(Tier),
}

impl Misfit {
    // The number that the refusal is told by: 0 for the wrong length, else the tier.
    pub fn tier(self) -> u8
        ensures { result ≡ tier_told self }
    {
        match self {
            Misfit::WrongLength => 0,
            Misfit::OutOfReach(tier) => tier.number,
        }
    }
}

// A figure out of reach goes up by `?`, with its tier.
impl From<Tier> for Misfit {
    ghost from_gives = { λ t m. m ≡ OutOfReach t };

    fn from(t: Tier) -> Misfit {
        Misfit::OutOfReach(t)
    }
}
