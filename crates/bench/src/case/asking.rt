// Questions that several calls are put.
ghost use Rattle.std.specs.Prelude.{◌≡◌, [], ◌∷◌, length, nat_le};
ghost use Rattle.clauses.specs.Codes.{codes as codes_of};
ghost use Rattle.faults.specs.Faults.{verdict_told};
ghost use Rattle.ledger.specs.Meaning.{cells_of};
ghost use Rattle.rules.specs.Case.{at_filling};
ghost use Rattle.rules.specs.Filling.{clause_fits};
ghost use Rattle.rules.specs.Questions.{asks, first_no};
ghost use Rattle.bench.specs.Meaning.{phase_of};

use crate::case::Phase;
use clauses::given::{known_variables, rises};
use cost::kind::CostKind;
use faults::fault::Fault;
use ledger::cell::Cell;
use shelf::literal::Literal;
use shelf::store::Shelf;

// Question 1: whether the ledger has a cell for each place.
pub(crate) fn ledger_is_long_enough<K: CostKind, S: Shelf>(
    shelf: &S,
    ledger: &[Cell<K::Row>],
) -> bool
    ensures { S.fine shelf.now → result ≡ nat_le (S.view shelf.now).places (length (cells_of K.kind ledger.now)) }
{
    shelf.place_count() <= ledger.len()
}

// Questions 1 and 2 of a call that the state fits or does not.
pub(crate) fn ask_state<K: CostKind, S: Shelf>(
    shelf: &S,
    ledger: &[Cell<K::Row>],
    fits: bool,
) -> Result<(), Fault>
    ensures { S.fine shelf.now → verdict_told result ≡ first_no (asks 1 (nat_le (S.view shelf.now).places (length (cells_of K.kind ledger.now))) ∷ asks 2 fits ∷ []) }
{
    if !ledger_is_long_enough::<K, S>(shelf, ledger) {
        return Err(Fault::LedgerTooShort);
    }
    if !fits {
        return Err(Fault::WrongPhase);
    }
    Ok(())
}

// Question 2, for hard, soft and seal.
pub(crate) fn is_filling(phase: Phase) -> bool
    ensures { result ≡ at_filling (phase_of phase) }
{
    phase == Phase::Filling
}

// Question 4: whether the variables of a clause rise, each from 1 to n, and are not too many
// for a place. Its codes are copied once it is granted, where it is written.
pub(crate) fn takes_clause<S: Shelf>(shelf: &S, n: u16, clause: &[Literal]) -> bool
    ensures { S.fine shelf.now → result ≡ clause_fits n (S.view shelf.now) (codes_of clause.now) }
{
    clause.len() <= shelf.longest_clause() && rises(clause, known_variables(shelf, n))
}
