// What lies in memory once a case is opened on a mask shelf that any earlier cases
// have used.
ghost use Rattle.std.specs.Prelude.{◌≡◌, length, replicate, OnErr, OnOk};
ghost use Rattle.bench.specs.Meaning.{granted_told, state_of, Done};
ghost use Rattle.cost.specs.Figures.{zeros};
ghost use Rattle.cost.specs.Kinds.{Kind};
ghost use Rattle.ledger.specs.declared.cell.Cell.TheVariants.{Soft as SoftCell};
ghost use Rattle.masks.specs.Shelves.{in_order, meaning, words_of};
ghost use Rattle.piles.specs.Memory.{BlankMasks};
ghost use Rattle.rules.specs.Filling.{open_does};

use bench::case::Bench;
use cost::kind::CostKind;
use faults::fault::Fault;
use ledger::cell::Cell;
use masks::MaskShelf;

// Opens a case, on masks; `reopen_rows` says why there are two. Once it is granted every word of
// every place is 0 and every cell, spare
// ones too, is the row of nothing: nothing of an earlier case is left.
pub fn reopen_masks<K: CostKind>(
    bench: &mut Bench<K>,
    shelf: &mut MaskShelf,
    ledger: &mut [Cell<K::Row>],
    n: u16,
) -> Result<(), Fault>
    ensures did { in_order shelf.old → Done (in_order shelf.new) (granted_told result) (state_of K.kind bench.new (meaning shelf.new) ledger.new) (open_does K.kind.scale (state_of K.kind bench.old (meaning shelf.old) ledger.old) n) }
    ensures words { in_order shelf.old → BlankMasks result (words_of shelf.new) shelf.new.places }
    ensures refused { OnErr result ((bench.new ≡ bench.old) × (shelf.new ≡ shelf.old) × (ledger.new ≡ ledger.old)) }
    ensures cells { OnOk result ((a : K.Amount) → K.kind.figures a ≡ zeros K.kind.scale.tiers → ledger.new ≡ replicate (length ledger.old) (SoftCell (K.kind.row a))) }
{
    bench.open(shelf, ledger, n)
}
