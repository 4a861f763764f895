// Layers over rows, with no premise left: how many places a stack has, and what
// one literal at place 0 answers through one layer and through a layer over a
// layer.
ghost use Rattle.std.specs.Prelude.{◌≡◌, min, length};
ghost use Rattle.rows.specs.Made.{made_places, made_view};
ghost use Rattle.shelf.specs.Telling.{size_then, told};
ghost use Rattle.shelf.specs.View.{emptied};
ghost use Rattle.signatures.specs.Layers.{layered};

use crate::SignatureLayer;
use rows::RowShelf;
use shelf::literal::Literal;
use shelf::places::lone_literal;
use shelf::refusal::Refusal;
use shelf::store::Shelf;

// How many places a layer over rows has.
pub fn place_count_on_rows(words: &mut [u32], highest: usize, longest: usize) -> usize
    ensures { result ≡ min 4096 (made_places (length words.old) highest longest) }
{
    let layer = SignatureLayer::new(RowShelf::new(words, highest, longest));
    layer.place_count()
}

// Adds one literal at place 0 of a layer over rows, and tells the size there.
pub fn lone_literal_on_rows(
    words: &mut [u32],
    highest: usize,
    longest: usize,
    literal: Literal,
) -> Result<usize, Refusal>
    ensures { told result ≡ size_then (emptied (layered (made_view (length words.old) highest longest))) literal.code }
{
    let mut layer = SignatureLayer::new(RowShelf::new(words, highest, longest));
    lone_literal(&mut layer, literal)
}

// The same through a layer over a layer over rows. Two callers of one line, each there for a
// contract with no premise at its own type.
pub fn lone_literal_on_layers(
    words: &mut [u32],
    highest: usize,
    longest: usize,
    literal: Literal,
) -> Result<usize, Refusal>
    ensures { told result ≡ size_then (emptied (layered (emptied (layered (made_view (length words.old) highest longest))))) literal.code }
{
    let layer = SignatureLayer::new(RowShelf::new(words, highest, longest));
    let mut upper = SignatureLayer::new(layer);
    lone_literal(&mut upper, literal)
}
