// What is done with whole places, proved once over any shelf. A clause in
// scratch memory is a vector of rising literal codes.
ghost use Rattle.std.specs.Prelude.{◌≡◌, List, length, slice_set};
ghost use Rattle.shelf.specs.Answers.{Became, after_adds};
ghost use Rattle.shelf.specs.Room.{filled, vacant, roomy, Writable};
ghost use Rattle.shelf.specs.Telling.{size_then, told};
ghost use Rattle.shelf.specs.View.{View, clause, with_held, emptied, emptied_below};

use crate::literal::Literal;
use crate::refusal::Refusal;
use crate::store::Shelf;
use arrayvec::ArrayVec;

// The codes of a clause in scratch memory: at most 255, as on any shelf. Codes and not
// literals, since what a shelf means is lists of codes.
pub type ClauseCodes = ArrayVec<u32, 255>;

// Frees the places below a number.
pub fn wipe_below<S: Shelf>(shelf: &mut S, end: usize)
    ensures { S.fine shelf.old → Became (S.fine shelf.new) (S.view shelf.new) (emptied_below end (S.view shelf.old)) }
{
    for place in 0..shelf.place_count().min(end) {
        let _ = shelf.wipe(place);
    }
}

// Frees every place.
pub fn wipe_all<S: Shelf>(shelf: &mut S)
    ensures { S.fine shelf.old → Became (S.fine shelf.new) (S.view shelf.new) (emptied (S.view shelf.old)) }
{
    let count = shelf.place_count();
    wipe_below(shelf, count);
}

// Whether a place is there and holds a clause.
pub fn is_filled<S: Shelf>(shelf: &S, place: usize) -> bool
    ensures { S.fine shelf.now → result ≡ filled (S.view shelf.now) place }
{
    shelf.size(place) != 0
}

// Whether a place is there and free.
pub fn is_vacant<S: Shelf>(shelf: &S, place: usize) -> bool
    ensures { S.fine shelf.now → result ≡ vacant (S.view shelf.now) place }
{
    place < shelf.place_count() && shelf.size(place) == 0
}

// Whether the n places from `to` on are there and free.
pub fn has_room<S: Shelf>(shelf: &S, to: usize, n: usize) -> bool
    ensures { S.fine shelf.now → result ≡ roomy (S.view shelf.now) to n }
{
    if n == 0 {
        return true;
    }
    let count = shelf.place_count();
    if to >= count || n > count - to {
        return false;
    }
    (to..to + n).all(|place| shelf.size(place) == 0)
}

// Puts the codes of a place into a vector, in the place of what it had. It is lent, here and
// wherever codes are made: one that is returned is filled with zeros and moved each time.
pub fn read_codes<S: Shelf>(shelf: &S, place: usize, codes: &mut ClauseCodes)
    ensures { S.fine shelf.now → codes.new.items ≡ clause (S.view shelf.now) place }
{
    codes.clear();
    for k in 0..shelf.size(place) {
        codes.push(shelf.literal(place, k).code);
    }
}

// Adds the codes to a place, one after another; a code that is refused is passed over.
// A free place then holds a clause that fits.
pub fn write_codes<S: Shelf>(shelf: &mut S, place: usize, codes: &[u32])
    ensures did { S.fine shelf.old → Became (S.fine shelf.new) (S.view shelf.new) (after_adds (S.view shelf.old) place codes.now) }
    ensures whole { S.fine shelf.old → Writable (S.view shelf.old) place codes.now → S.view shelf.new ≡ with_held (S.view shelf.old) (slice_set (S.view shelf.old).held place codes.now) }
{
    for c in codes {
        let _ = shelf.add(place, Literal { code: *c });
    }
}

// Adds one literal at place 0, and tells the size there.
pub fn lone_literal<S: Shelf>(shelf: &mut S, literal: Literal) -> Result<usize, Refusal>
    ensures { S.fine shelf.old → told result ≡ size_then (S.view shelf.old) literal.code }
{
    shelf.add(0, literal)?;
    Ok(shelf.size(0))
}
