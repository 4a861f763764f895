// A shelf over lent words of 64 bits, two words for each place: the bits of the
// first say which literals stand there, those of the second which opposites do.
// So a clause has variables up to 64, and a question is answered by operations on
// whole words. Every call asks all its questions before it writes, and tests a
// place's words before it reads them. `wipe` reads as the row shelf's, and `start` and `clear`
// nearly so: each is a few lines, and its clauses speak of this shelf's own words.

#![tactic(auto)]

ghost use Rattle.std.specs.Prelude.{◌≡◌, length, IfOk, MatchOption, Ok, Err, OnErr, OnOk};
ghost use Rattle.shelf.specs.Answers.{Became, Did, numbered, added, after_add, wiped, after_wipe};
ghost use Rattle.masks.specs.Finding.{Blank};
ghost use Rattle.masks.specs.Laws.{FreeIsZero, OneWriting};
ghost use Rattle.masks.specs.Made.{made_places, made_view};
ghost use Rattle.shelf.specs.Telling.{granted, lone_answer, told};
ghost use Rattle.masks.specs.Shelves.{Fresh, Misses, Reads, SlotAt, StartsAt, in_order, meaning, spare, words_of};
ghost use Rattle.masks.specs.Soundness.{sound_masks};

use pair::{HIGHEST, Pair};
use shelf::literal::Literal;
use shelf::memory::place_start;
use shelf::refusal::Refusal;
use shelf::store::Shelf;

mod pair;
#[cfg(test)]
mod tests;

// The most literals at a place: one for each variable.
const LONGEST: u32 = HIGHEST;

// The words and the number of places. The rest of the words, past the last
// place's, is spare.
#[derive(Drop)]
pub struct MaskShelf<'a> {
    // Lent, so that the caller decides about memory and the bench allocates nothing.
    words: &'a mut [u64],
    places: u16,
}

impl<'a> MaskShelf<'a> {
    // A shelf with every place free: as many places as there is room for, up to
    // 65,535.
    pub fn new(words: &'a mut [u64]) -> MaskShelf<'a>
        ensures { Fresh result words.old }
    {
        let places = (words.len() / 2).min(65535);
        MaskShelf::cleared(words, places as u16)
    }

    // A shelf of so many places, all that there is room for, every one free.
    fn cleared(words: &'a mut [u64], places: u16) -> MaskShelf<'a>
        requires { places ≡ made_places (length words.old) }
        ensures { Fresh result words.old }
    {
        words[..2 * usize::from(places)].fill(0);
        MaskShelf { words, places }
    }
}

impl MaskShelf<'_> {
    // The first of the two words of a place, unless there is no such place.
    fn start(&self, place: usize) -> Option<usize>
        ensures { MatchOption result (in_order self.now → Misses self.now place) (λ at. StartsAt self.now place at) }
    {
        place_start(place, self.places, 2, self.words.len())
    }

    // The masks of a place; two that are empty where there is no such place.
    #[tactic(auto, using(crate::proofs::Steps::shows_none))]
    fn masks(&self, place: usize) -> Pair
        ensures { in_order self.now → Reads self.now place result }
    {
        let Some(at) = self.start(place) else {
            return Pair::default();
        };
        Pair {
            literals: self.words[at],
            opposites: self.words[at + 1],
        }
    }

    // The word in which a literal's bit may be set: all that adding it asks. No
    // place is ever full, since a clause that lacks a variable has room for it.
    fn slot(&self, place: usize, literal: Literal) -> Result<usize, Refusal>
        ensures answer { in_order self.now → granted result ≡ added (meaning self.now) place literal.code }
        ensures slot { IfOk result (λ i. SlotAt self.now place literal.code i) }
    {
        let at = self.start(place).ok_or(Refusal::NoSuchPlace)?;
        let variable = literal.variable();
        if !(1..=HIGHEST).contains(&variable) {
            return Err(Refusal::NoSuchVariable);
        }
        if self.masks(place).has_variable(variable) {
            return Err(Refusal::VariableStands);
        }
        Ok(at + (literal.code % 2) as usize)
    }

    // Sets a literal's bit in its word.
    fn mark(&mut self, place: usize, i: usize, literal: Literal)
        requires { SlotAt self.old place literal.code i }
        ensures became { in_order self.old → Ok tt ≡ added (meaning self.old) place literal.code → Became (in_order self.new) (meaning self.new) (after_add (meaning self.old) place literal.code) }
        ensures spare { spare self.new ≡ spare self.old }
    {
        self.words[i] |= 1 << (literal.variable() - 1);
    }

    // Zeroes the two words of a place, which begin at a word.
    fn clear(&mut self, place: usize, at: usize)
        requires { StartsAt self.old place at }
        ensures became { in_order self.old → Became (in_order self.new) (meaning self.new) (after_wipe (meaning self.old) place) }
        ensures spare { spare self.new ≡ spare self.old }
        ensures zero { Blank (words_of self.new) place }
    {
        self.words[at..at + 2].fill(0);
    }
}

impl<'a> Shelf for MaskShelf<'a> {
    ghost fine = { in_order };

    ghost view = { meaning };

    ghost sound = { λ s f. sound_masks s.places (words_of s) f };

    // The number of places.
    fn place_count(&self) -> usize {
        usize::from(self.places)
    }

    // The highest variable.
    fn highest_variable(&self) -> usize {
        HIGHEST as usize
    }

    // The most literals at a place.
    fn longest_clause(&self) -> usize {
        LONGEST as usize
    }

    // The number of bits that are set.
    fn size(&self, place: usize) -> usize {
        self.masks(place).size()
    }

    // The k-th bit that is set in either mask.
    fn literal(&self, place: usize, k: usize) -> Literal {
        self.masks(place).literal(k)
    }

    // The bit of the literal in the mask of its sign.
    fn holds(&self, place: usize, literal: Literal) -> bool {
        self.masks(place).has(literal)
    }

    // Asks all, and only then sets the bit.
    fn add(&mut self, place: usize, literal: Literal) -> Result<(), Refusal>
        ensures did { in_order self.old → Did (in_order self.new) (numbered result) (added (meaning self.old) place literal.code) (meaning self.new) (after_add (meaning self.old) place literal.code) }
        ensures refused { OnErr result (self.new ≡ self.old) }
        ensures spare { spare self.new ≡ spare self.old }
    {
        let i = self.slot(place, literal)?;
        self.mark(place, i, literal);
        Ok(())
    }

    // Zeroes both words.
    fn wipe(&mut self, place: usize) -> Result<(), Refusal>
        ensures did { in_order self.old → Did (in_order self.new) (numbered result) (wiped (meaning self.old) place) (meaning self.new) (after_wipe (meaning self.old) place) }
        ensures refused { OnErr result (self.new ≡ self.old) }
        ensures spare { spare self.new ≡ spare self.old }
        ensures zero { OnOk result (Blank (words_of self.new) place) }
    {
        let at = self.start(place).ok_or(Refusal::NoSuchPlace)?;
        self.clear(place, at);
        Ok(())
    }
}

// Masks in order leave nothing in memory but what they mean.
#[tactic(auto, using(crate::proofs::Writings::free_is_zero, crate::proofs::Writings::one_writing))]
pub fn masks_stand()
    ensures free { FreeIsZero }
    ensures same { OneWriting }
{}

// Makes a shelf over the words, adds one literal at place 0, and tells its size.
pub fn lone_literal(words: &mut [u64], literal: Literal) -> Result<usize, Refusal>
    ensures { told result ≡ lone_answer (made_view (length words.old)) literal.code }
{
    let mut shelf = MaskShelf::new(words);
    shelf::places::lone_literal(&mut shelf, literal)
}
