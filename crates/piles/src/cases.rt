// A whole case on each pile, with no premise left: one variable, the soft clause {1}
// with some figures at place 0, a plan that meets it, and the claim. A caller for each pile, each
// of one line over the generic one: it makes its own shelf, so that its contract has no premise.
ghost use Rattle.std.specs.Prelude.{◌≡◌, length};
ghost use Rattle.bench.specs.Meaning.{cheapest_told};
ghost use Rattle.cost.specs.Kinds.{Kind};
ghost use Rattle.masks.specs.Made.{made_view as made_masks};
ghost use Rattle.piles.specs.Sequence.{one_clause_case, one_clause_on};
ghost use Rattle.ledger.specs.Meaning.{cells_of};
ghost use Rattle.rules.specs.Machine.{new as new_state};
ghost use Rattle.rows.specs.Made.{made_view as made_rows};
ghost use Rattle.shelf.specs.View.{emptied};
ghost use Rattle.signatures.specs.Layers.{layered};

use bench::case::Bench;
use cost::kind::CostKind;
use faults::fault::Fault;
use ledger::cell::Cell;
use masks::MaskShelf;
use rows::RowShelf;
use shelf::literal::Literal;
use shelf::store::Shelf;
use signatures::SignatureLayer;

// The case on any shelf: the first refusal, or the cost of the claim.
pub fn one_clause<K: CostKind, S: Shelf>(
    shelf: &mut S,
    ledger: &mut [Cell<K::Row>],
    figures: &[i64],
) -> Result<K::Amount, Fault>
    ensures { S.fine shelf.old → cheapest_told K.kind.figures result ≡ one_clause_on K.kind (S.view shelf.old) ledger.old figures.now }
{
    let mut bench = Bench::<K>::new();
    bench.open(shelf, ledger, 1)?;
    bench.soft(shelf, ledger, 0, figures, &[Literal::of(1)])?;
    bench.seal(shelf, ledger)?;
    bench.show(shelf, ledger, &[1])?;
    bench.cheapest(shelf, ledger)
}

// The case on a new row shelf.
pub fn one_clause_on_rows<K: CostKind>(
    words: &mut [u32],
    highest: usize,
    longest: usize,
    ledger: &mut [Cell<K::Row>],
    figures: &[i64],
) -> Result<K::Amount, Fault>
    ensures { cheapest_told K.kind.figures result ≡ one_clause_case K.kind.scale (new_state K.kind.scale (made_rows (length words.old) highest longest) (cells_of K.kind ledger.old)) figures.now }
{
    let mut shelf = RowShelf::new(words, highest, longest);
    one_clause::<K, _>(&mut shelf, ledger, figures)
}

// The case on a new mask shelf.
pub fn one_clause_on_masks<K: CostKind>(
    words: &mut [u64],
    ledger: &mut [Cell<K::Row>],
    figures: &[i64],
) -> Result<K::Amount, Fault>
    ensures { cheapest_told K.kind.figures result ≡ one_clause_on K.kind (made_masks (length words.old)) ledger.old figures.now }
{
    let mut shelf = MaskShelf::new(words);
    one_clause::<K, _>(&mut shelf, ledger, figures)
}

// The case on a new row shelf under the signature layer.
pub fn one_clause_on_signed_rows<K: CostKind>(
    words: &mut [u32],
    highest: usize,
    longest: usize,
    ledger: &mut [Cell<K::Row>],
    figures: &[i64],
) -> Result<K::Amount, Fault>
    ensures { cheapest_told K.kind.figures result ≡ one_clause_on K.kind (emptied (layered (made_rows (length words.old) highest longest))) ledger.old figures.now }
{
    let mut shelf = SignatureLayer::new(RowShelf::new(words, highest, longest));
    one_clause::<K, _>(&mut shelf, ledger, figures)
}

// The case on a new mask shelf under the signature layer.
pub fn one_clause_on_signed_masks<K: CostKind>(
    words: &mut [u64],
    ledger: &mut [Cell<K::Row>],
    figures: &[i64],
) -> Result<K::Amount, Fault>
    ensures { cheapest_told K.kind.figures result ≡ one_clause_on K.kind (emptied (layered (made_masks (length words.old)))) ledger.old figures.now }
{
    let mut shelf = SignatureLayer::new(MaskShelf::new(words));
    one_clause::<K, _>(&mut shelf, ledger, figures)
}
