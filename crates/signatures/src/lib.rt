// A layer that stands over any shelf and is one. It keeps a signature for each of
// the first 4,096 places below, and where the signature says that a literal does
// not stand at a place, `holds` answers without asking the shelf below.

#![tactic(auto)]

ghost use Rattle.std.specs.Prelude.{◌≡◌, ◌%◌, false, slice_index};
ghost use Rattle.shelf.specs.Answers.{Became};
ghost use Rattle.shelf.specs.Literals.{among};
ghost use Rattle.shelf.specs.View.{clause, emptied};
ghost use Rattle.signatures.specs.Laws.{BitTellsRemainder, OneSignature, FreeIsZero};
ghost use Rattle.signatures.specs.Layers.{InOrder, layered, meaning, sound_layered};
ghost use Rattle.signatures.specs.Signing.{has_bit};

use crate::bits::{COVERED, Signatures};
use shelf::literal::Literal;
use shelf::places::wipe_below;
use shelf::refusal::Refusal;
use shelf::store::Shelf;

mod bits;
pub mod stacks;
#[cfg(test)]
mod tests;

// The shelf below, and the signatures of its first places. What else stands below,
// past 4,096 places, is never altered through the layer.
#[derive(Drop)]
pub struct SignatureLayer<S> {
    below: S,
    signatures: Signatures,
}

impl<S: Shelf> SignatureLayer<S> {
    // The layer over a shelf, with every place of the layer freed.
    pub fn new(mut below: S) -> SignatureLayer<S>
        ensures { S.Shelf.fine below → Became (InOrder S.Shelf.fine S.Shelf.view result) (meaning S.Shelf.view result) (emptied (layered (S.Shelf.view below))) }
    {
        wipe_below(&mut below, COVERED);
        SignatureLayer {
            below,
            signatures: Signatures::new(),
        }
    }

    // The shelf below, as it stands.
    pub fn into_below(self) -> S
        ensures { result ≡ self.below }
    {
        let SignatureLayer { below, .. } = self;
        below
    }
}

#[tactic(auto, using(crate::specs::Layers::layered_at))]
impl<S: Shelf> Shelf for SignatureLayer<S> {
    ghost fine = { λ s. InOrder S.Shelf.fine S.Shelf.view s };

    ghost view = { λ s. meaning S.Shelf.view s };

    ghost sound = { λ s f. sound_layered (S.Shelf.view s.below) (S.Shelf.sound s.below f.below) };

    // The places below, at most 4,096.
    fn place_count(&self) -> usize {
        self.below.place_count().min(COVERED)
    }

    // The highest variable below.
    fn highest_variable(&self) -> usize {
        self.below.highest_variable()
    }

    // The longest clause below.
    fn longest_clause(&self) -> usize {
        self.below.longest_clause()
    }

    // The size below, or 0 past 4,096 places.
    fn size(&self, place: usize) -> usize {
        if place < COVERED {
            self.below.size(place)
        } else {
            0
        }
    }

    // The literal below, or code 0 past 4,096 places.
    fn literal(&self, place: usize, k: usize) -> Literal {
        if place < COVERED {
            self.below.literal(place, k)
        } else {
            Literal { code: 0 }
        }
    }

    // Asks the shelf below only where the literal's bit is set.
    fn holds(&self, place: usize, literal: Literal) -> bool
        ensures is { InOrder S.Shelf.fine S.Shelf.view self.now → result ≡ among literal.code (clause (meaning S.Shelf.view self.now) place) }
        ensures by_bit { has_bit (literal.code % 64) (slice_index self.now.signatures.bits place) ≡ false → result ≡ false }
    {
        self.signatures.may_hold(place, literal) && self.below.holds(place, literal)
    }

    // Sets the literal's bit once the shelf below has granted it. This and `wipe` are the trait's
    // two calls: one function of both would take what each does below and above as closures.
    fn add(&mut self, place: usize, literal: Literal) -> Result<(), Refusal> {
        if place >= COVERED {
            return Err(Refusal::NoSuchPlace);
        }
        self.below.add(place, literal)?;
        self.signatures.mark(place, literal);
        Ok(())
    }

    // Frees the place below, and leaves no bit set.
    fn wipe(&mut self, place: usize) -> Result<(), Refusal> {
        if place >= COVERED {
            return Err(Refusal::NoSuchPlace);
        }
        self.below.wipe(place)?;
        self.signatures.clear(place);
        Ok(())
    }
}

// What a signature tells of a clause.
pub fn signatures_stand()
    ensures tells { BitTellsRemainder }
    ensures one { OneSignature }
    ensures free { FreeIsZero }
{}
