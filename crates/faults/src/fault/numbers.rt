// The number that a fault is told by, and the tier that it carries. By name and no `From`: a
// fault has two numbers, and a `u8::from` would not say which.
ghost use Rattle.std.specs.Prelude.{◌≡◌};
ghost use Rattle.faults.specs.Faults.{number_of, tier_of};
ghost use Rattle.faults.specs.declared.fault.Fault.TheVariants.{OutOfReach};

use crate::fault::Fault;
use cost::tier::Tier;

impl Fault {
    // The number of the question that was denied.
    pub fn number(self) -> u8
        ensures { result ≡ number_of self }
    {
        match self {
            Fault::LedgerTooShort => 1,
            Fault::WrongPhase => 2,
            Fault::TooManyVariables => 3,
            Fault::ClauseUnfit => 4,
            Fault::PlaceUnfit => 5,
            Fault::AmountUnfit => 6,
            Fault::StripUnfit => 7,
            Fault::HardClauseUnmet => 8,
            Fault::SourceUnfit => 9,
            Fault::LiteralMissing
            | Fault::VariableUnfit
            | Fault::ClausesDiffer
            | Fault::DefinitionUnfit
            | Fault::AlreadyHard => 10,
            Fault::ResultTooLong => 11,
            Fault::NoRoom => 12,
            Fault::OutOfReach(_) => 13,
            Fault::NoPlanShown => 14,
            Fault::NotDearer => 15,
            Fault::CostsDiffer => 16,
            Fault::NotMarked => 17,
        }
    }

    // The tier of an amount out of reach, counted from 1; 0 for any other fault, as it is told.
    pub fn tier(self) -> u8
        ensures { result ≡ tier_of self }
    {
        match self {
            Fault::OutOfReach(t) => t.number,
            _ => 0,
        }
    }
}

// A cost kind's refusal goes up by `?` with its tier.
impl From<Tier> for Fault {
    ghost from_gives = { λ t r. r ≡ OutOfReach t };

    fn from(t: Tier) -> Fault {
        Fault::OutOfReach(t)
    }
}
