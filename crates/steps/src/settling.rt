// What is left of a source of a step.
ghost use Rattle.std.specs.Prelude.{slice_set};
ghost use Rattle.cost.specs.Kinds.{Kind};
ghost use Rattle.ledger.specs.Meaning.{cell_of, cells_of};
ghost use Rattle.results.specs.Placing.{Laid};
ghost use Rattle.rules.specs.Cells.{amounts_to_nothing as nothing_left};
ghost use Rattle.rules.specs.Steps.{freed_if};

use cost::kind::CostKind;
use ledger::cell::Cell;
use ledger::cells::{is_nothing, write_cell};
use shelf::store::Shelf;

// Writes back what is left at a place; with nothing left the place is freed.
pub(crate) fn settle<K: CostKind, S: Shelf>(
    shelf: &mut S,
    ledger: &mut [Cell<K::Row>],
    place: usize,
    left: Cell<K::Amount>,
)
    ensures { S.fine shelf.old → Laid (S.fine shelf.new) (S.view shelf.new) (freed_if (nothing_left K.kind.scale.tiers (cell_of K.kind.figures left)) (S.view shelf.old) place) (cells_of K.kind ledger.new) (slice_set (cells_of K.kind ledger.old) place (cell_of K.kind.figures left)) }
{
    write_cell::<K>(ledger, place, left);
    if is_nothing::<K>(left) {
        let _ = shelf.wipe(place);
    }
}
