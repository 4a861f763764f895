// The signatures of up to 4,096 places, 64 bits for each. The bit of a literal is
// the remainder of its code by 64, so literals whose codes have one remainder
// share a bit: a set bit says that a literal may stand there, and a bit that is
// not set says that it does not.
ghost use Rattle.std.specs.Prelude.{◌≡◌, ◌%◌, ◌<◌, ◌≤◌, true, slice_index};
ghost use Rattle.signatures.specs.Signing.{Blanked, Marked, blank, has_bit};

use shelf::literal::Literal;

// How many places have a signature.
pub(crate) const COVERED: usize = 4096;

// One word for each of those places: inside and not lent, since a layer is made over a shelf
// alone.
#[derive(Drop)]
pub(crate) struct Signatures {
    bits: [u64; 4096],
}

impl Signatures {
    // Signatures with no bit set.
    pub(crate) fn new() -> Signatures
        ensures { result.bits ≡ blank }
    {
        Signatures { bits: [0; 4096] }
    }

    // Whether the bit of a literal is set at a place. Where there is no signature none is.
    pub(crate) fn may_hold(&self, place: usize, literal: Literal) -> bool
        ensures is { result ≡ has_bit (literal.code % 64) (slice_index self.now.bits place) }
        ensures covered { result ≡ true → place < COVERED }
    {
        self.bits
            .get(place)
            .is_some_and(|word| (*word >> (literal.code % 64)) % 2 == 1)
    }

    // Sets the bit of a literal at a place, if there is a signature. By a test and an
    // index, here and in `clear`: a proof knows no word of an array after `get_mut`.
    pub(crate) fn mark(&mut self, place: usize, literal: Literal)
        ensures covered { place < COVERED → Marked self.old.bits self.new.bits place literal.code }
        ensures past { COVERED ≤ place → self.new ≡ self.old }
    {
        if place < COVERED {
            self.bits[place] |= 1u64 << (literal.code % 64);
        }
    }

    // Leaves no bit set at a place, if there is a signature.
    pub(crate) fn clear(&mut self, place: usize)
        ensures covered { place < COVERED → Blanked self.old.bits self.new.bits place }
        ensures past { COVERED ≤ place → self.new ≡ self.old }
    {
        if place < COVERED {
            self.bits[place] = 0;
        }
    }
}
