// What every shelf offers.
ghost use Rattle.std.specs.Prelude.{◌≡◌, ℕ, ◌≤◌, List, length, OnErr, slice_index};
ghost use Rattle.shelf.specs.Answers.{Did, numbered, added, after_add, wiped, after_wipe};
ghost use Rattle.shelf.specs.Literals.{among};
ghost use Rattle.shelf.specs.View.{View, Sound, clause};

use crate::literal::Literal;
use crate::refusal::Refusal;

// A store of clauses at numbered places. A shelf that is in order, `fine`, means
// its `view`, and every call on it is exact and keeps it in order; every maker of
// a shelf yields one in order. On any other value a call still ends and is safe.
// Questions alter nothing, and a refused call leaves the shelf equal to what it
// was, contents included.
pub trait Shelf {
    // A premise of the clauses and not part of the type, since a layer over any shelf could not
    // keep it in its own: a ghost field cannot cite a bound's members.
    ghost fine: { Self → Type 0 };

    ghost view: { Self → View };

    ghost sound: { (s : Self) → fine s → Sound (view s) };

    // How many places there are, numbered from 0.
    fn place_count(&self) -> usize
        ensures low { result ≤ 65535 }
        ensures is { fine self.now → result ≡ (view self.now).places };

    // The highest variable that a literal may have.
    fn highest_variable(&self) -> usize
        ensures low { result ≤ 65535 }
        ensures is { fine self.now → result ≡ (view self.now).highest };

    // How many literals a place may have.
    fn longest_clause(&self) -> usize
        ensures low { result ≤ 255 }
        ensures is { fine self.now → result ≡ (view self.now).longest };

    // How many literals a place has; 0 past the last place.
    fn size(&self, place: usize) -> usize
        ensures low { result ≤ 255 }
        ensures is { fine self.now → result ≡ length (clause (view self.now) place) };

    // The k-th literal of a place, from 0, by rising code; code 0 past the size, which is
    // what the rules have a shelf answer there, and so no Option.
    fn literal(&self, place: usize, k: usize) -> Literal
        ensures { fine self.now → result.code ≡ slice_index (clause (view self.now) place) k };

    // Whether a literal stands at a place.
    fn holds(&self, place: usize, literal: Literal) -> bool
        ensures { fine self.now → result ≡ among literal.code (clause (view self.now) place) };

    // Puts a literal to a place.
    fn add(&mut self, place: usize, literal: Literal) -> Result<(), Refusal>
        ensures did { fine self.old → Did (fine self.new) (numbered result) (added (view self.old) place literal.code) (view self.new) (after_add (view self.old) place literal.code) }
        ensures refused { OnErr result (self.new ≡ self.old) };

    // Frees a place.
    fn wipe(&mut self, place: usize) -> Result<(), Refusal>
        ensures did { fine self.old → Did (fine self.new) (numbered result) (wiped (view self.old) place) (view self.new) (after_wipe (view self.old) place) }
        ensures refused { OnErr result (self.new ≡ self.old) };
}
