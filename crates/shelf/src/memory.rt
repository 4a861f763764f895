// Where places lie in lent words: one after another, each with the same number of them.
ghost use Rattle.std.specs.Prelude.{MatchOption};
ghost use Rattle.shelf.specs.Memory.{Starts, StartsNowhere};

// The first of the words of a place, unless there is no such place or its words pass the
// end. Any width may be asked for, and so each sum is checked: inlined where the width is known
// to be small, neither can pass the range, and one product and one comparison are left.
#[inline]
pub fn place_start(place: usize, places: u16, width: usize, words: usize) -> Option<usize>
    ensures { MatchOption result (StartsNowhere places width words place) (λ at. Starts places width words place at) }
{
    if place >= usize::from(places) {
        return None;
    }
    let at = place.checked_mul(width)?;
    if at.checked_add(width)? > words {
        return None;
    }
    Some(at)
}
