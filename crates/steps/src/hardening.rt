// The harden step: a soft clause becomes hard where leaving it unmet would cost more
// than the shown plan.
ghost use Rattle.std.specs.Prelude.{◌≡◌};
ghost use Rattle.cost.specs.Kinds.{Kind};
ghost use Rattle.faults.specs.Faults.{verdict_told};
ghost use Rattle.ledger.specs.Bills.{amount_told};
ghost use Rattle.rules.specs.Questions.{first_no};
ghost use Rattle.steps.specs.Asks.{harden_asks};
ghost use Rattle.steps.specs.Asked.{cell_here};

use cost::kind::CostKind;
use faults::fault::Fault;
use ledger::cell::Cell;
use ledger::cells::read_cell;
use shelf::places::is_filled;
use shelf::store::Shelf;

// What a harden is asked: the place holds a soft clause, a plan has been shown, and the
// proved cost with the clause's amount is more than its cost.
pub fn ask_harden<K: CostKind, S: Shelf>(
    shelf: &S,
    ledger: &[Cell<K::Row>],
    proved: K::Amount,
    shown: Option<K::Amount>,
    i: usize,
) -> Result<(), Fault>
    ensures { S.fine shelf.now → verdict_told result ≡ first_no (harden_asks (S.view shelf.now) (cell_here K.kind ledger.now i) (K.kind.figures proved) (amount_told K.kind.figures shown) i) }
{
    if !is_filled(shelf, i) {
        return Err(Fault::SourceUnfit);
    }
    let Cell::Soft(amount) = read_cell::<K>(ledger, i) else {
        return Err(Fault::AlreadyHard);
    };
    let cost = shown.ok_or(Fault::NoPlanShown)?;
    if !K::exceeds(proved, amount, cost) {
        return Err(Fault::NotDearer);
    }
    Ok(())
}
