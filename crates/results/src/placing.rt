// Results put into places, each with a cell beside it. A result that vanishes or
// is empty takes no place.
ghost use Rattle.std.specs.Prelude.{◌≡◌, ◌+◌, [], ◌∷◌, length};
ghost use Rattle.rules.specs.Results.{kept};
ghost use Rattle.results.specs.Placing.{Framed, Placeable, Placed};
ghost use Rattle.results.specs.Spread.{AllSpread, Spread};

use crate::codes::{ResultCodes, clashes};
use crate::listed::Listed;
use ledger::cells::put_cell;
use shelf::places::write_codes;
use shelf::store::Shelf;

// Puts one result into the place, if it takes one, with the cell m; the place for
// the next.
fn place_one<S: Shelf, C: Copy>(
    shelf: &mut S,
    cells: &mut [C],
    codes: &[u32],
    place: usize,
    m: C,
) -> usize
    ensures next { S.fine shelf.old → Spread (S.view shelf.old).highest 2 codes.now → Placeable (S.view shelf.old) place (codes.now ∷ []) → result ≡ place + length (kept (codes.now ∷ [])) }
    ensures did { S.fine shelf.old → Spread (S.view shelf.old).highest 2 codes.now → Placed (S.fine shelf.new) (S.view shelf.old) (S.view shelf.new) place (codes.now ∷ []) m cells.old cells.new }
    ensures framed { S.fine shelf.old → Framed (S.fine shelf.new) (S.view shelf.old) (S.view shelf.new) }
{
    if codes.is_empty() || clashes(codes) || place >= shelf.place_count() {
        return place;
    }
    write_codes(shelf, place, codes);
    put_cell(cells, place, m);
    place + 1
}

// Puts the results into places from `to` on, each with the cell m. The shelf and the
// cells stay two parameters: a struct of two `&mut` would be made anew for each call of
// `place_one`, and its clauses would speak of `self.shelf` and `self.cells` at two moments.
pub(crate) fn place_all<S: Shelf, C: Copy, R: Listed>(
    shelf: &mut S,
    cells: &mut [C],
    rs: &R,
    to: usize,
    m: C,
)
    ensures did { S.fine shelf.old → AllSpread (S.view shelf.old).highest (R.listed rs.now) → Placed (S.fine shelf.new) (S.view shelf.old) (S.view shelf.new) to (R.listed rs.now) m cells.old cells.new }
    ensures framed { S.fine shelf.old → Framed (S.fine shelf.new) (S.view shelf.old) (S.view shelf.new) }
{
    let mut place = to;
    let mut codes = ResultCodes::new();
    for t in 0..rs.count() {
        rs.result(t, &mut codes);
        place = place_one(shelf, cells, &codes, place, m);
    }
}
