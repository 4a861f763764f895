// Why the bench refuses a call: a case for each question, and for question 10 one for
// each step that is put it.
use cost::tier::Tier;

pub mod numbers;

#[derive(Clone, Copy, PartialEq, Eq, Debug)]
pub enum Fault {
    // The ledger has not a cell for each place.
    LedgerTooShort,
    // The state does not fit the call.
    WrongPhase,
    // More variables than the shelf's highest.
    TooManyVariables,
    // The clause's variables do not rise, or are not 1 to n, or are too many.
    ClauseUnfit,
    // The place is not there, or not free.
    PlaceUnfit,
    // The figures are not one for each tier from 0 to the reach, or all 0, or take
    // the total out of reach.
    AmountUnfit,
    // The strip has not exactly n bytes, each 0 or 1.
    StripUnfit,
    // The plan leaves a hard clause unmet, or the impossible mark is set.
    HardClauseUnmet,
    // A source place is not there, or free.
    SourceUnfit,
    // Of a resolve: place i has not the variable, or place j not its opposite.
    LiteralMissing,
    // Of a split: the variable is not 1 to the current number, or stands there.
    VariableUnfit,
    // Of a join: the places are one, or their clauses differ.
    ClausesDiffer,
    // Of a define: no literal, or the variables do not rise up to the current number,
    // or there is no next variable.
    DefinitionUnfit,
    // Of a harden: the clause is hard already.
    AlreadyHard,
    // A result has more literals than a place may have.
    ResultTooLong,
    // A place that a result would take is not there, or not free.
    NoRoom,
    // A new amount is out of reach, first at this tier, as the cost kind told it.
    OutOfReach(Tier),
    // No plan has been shown.
    NoPlanShown,
    // The clause does not cost more than the shown plan.
    NotDearer,
    // The proved cost is not the shown plan's.
    CostsDiffer,
    // The impossible mark is not set.
    NotMarked,
}
