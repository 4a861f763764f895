// What lies in memory once a case is opened on a row shelf that any earlier cases have
// used.
ghost use Rattle.std.specs.Prelude.{◌≡◌, length, replicate, OnErr, OnOk};
ghost use Rattle.bench.specs.Meaning.{granted_told, state_of, Done};
ghost use Rattle.cost.specs.Figures.{zeros};
ghost use Rattle.cost.specs.Kinds.{Kind};
ghost use Rattle.ledger.specs.Meaning.{cells_of};
ghost use Rattle.ledger.specs.declared.cell.Cell.TheVariants.{Soft as SoftCell};
ghost use Rattle.piles.specs.Memory.{Blank};
ghost use Rattle.rows.specs.Made.{made_view};
ghost use Rattle.rows.specs.Shelves.{in_order, meaning, words_of};
ghost use Rattle.rules.specs.Filling.{open_does};
ghost use Rattle.rules.specs.Machine.{new as new_state};

use bench::case::Bench;
use cost::kind::CostKind;
use faults::fault::Fault;
use ledger::cell::Cell;
use rows::RowShelf;

// Opens a case, on rows. Not one function with that on masks, over a trait whose law is that a
// free shelf's words are 0: a law is proved in specs/, where the proofs of both shelves would then
// stand among what a reader must believe, and a method that said it would do nothing. Once open is
// granted every word of every place is 0 and every cell, spare ones too, is the row of nothing:
// nothing of an earlier case is left.
pub fn reopen_rows<K: CostKind>(
    bench: &mut Bench<K>,
    shelf: &mut RowShelf,
    ledger: &mut [Cell<K::Row>],
    n: u16,
) -> Result<(), Fault>
    ensures did { in_order shelf.old → Done (in_order shelf.new) (granted_told result) (state_of K.kind bench.new (meaning shelf.new) ledger.new) (open_does K.kind.scale (state_of K.kind bench.old (meaning shelf.old) ledger.old) n) }
    ensures words { in_order shelf.old → Blank result (words_of shelf.new) shelf.new.places shelf.new.longest }
    ensures refused { OnErr result ((bench.new ≡ bench.old) × (shelf.new ≡ shelf.old) × (ledger.new ≡ ledger.old)) }
    ensures cells { OnOk result ((a : K.Amount) → K.kind.figures a ≡ zeros K.kind.scale.tiers → ledger.new ≡ replicate (length ledger.old) (SoftCell (K.kind.row a))) }
{
    bench.open(shelf, ledger, n)
}

// Makes a row shelf over the words and a bench, and opens a case: no premise is left.
pub fn open_rows<K: CostKind>(
    words: &mut [u32],
    highest: usize,
    longest: usize,
    ledger: &mut [Cell<K::Row>],
    n: u16,
) -> Result<(), Fault>
    ensures answer { granted_told result ≡ (open_does K.kind.scale (new_state K.kind.scale (made_view (length words.old) highest longest) (cells_of K.kind ledger.old)) n).answer }
    ensures ledger { cells_of K.kind ledger.new ≡ (open_does K.kind.scale (new_state K.kind.scale (made_view (length words.old) highest longest) (cells_of K.kind ledger.old)) n).after.ledger }
{
    let mut shelf = RowShelf::new(words, highest, longest);
    let mut bench = Bench::<K>::new();
    reopen_rows::<K>(&mut bench, &mut shelf, ledger, n)
}
