// The splitting of a place on a variable: its clause with the variable stays there,
// and its clause with the opposite goes to another place.
ghost use Rattle.std.specs.Prelude.{◌≡◌};
ghost use Rattle.results.specs.Placing.{Framed};
ghost use Rattle.results.specs.Splitting.{split_view, Splittable};

use shelf::literal::Literal;
use shelf::places::{ClauseCodes, read_codes, write_codes};
use shelf::store::Shelf;

// Splits the clause at a place on a variable. Where it may not be split the shelf
// is still in order after, and nothing but what is held may have changed.
pub fn split_place<S: Shelf>(shelf: &mut S, place: usize, variable: u16, to: usize)
    ensures did { S.fine shelf.old → Splittable (S.view shelf.old) place variable to → S.view shelf.new ≡ split_view (S.view shelf.old) place variable to }
    ensures framed { S.fine shelf.old → Framed (S.fine shelf.new) (S.view shelf.old) (S.view shelf.new) }
{
    let mut codes = ClauseCodes::new();
    read_codes(shelf, place, &mut codes);
    let _ = shelf.add(place, Literal::of(variable));
    write_codes(shelf, to, &codes);
    let _ = shelf.add(to, Literal::not(variable));
}
