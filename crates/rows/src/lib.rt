// A shelf over lent words of 32 bits, L + 1 words for each place. Every call asks
// all its questions before it writes, and tests a place's words before it reads
// them, so it is safe on every value and a refused call leaves the shelf equal.
// `wipe` reads as the mask shelf's, and `start` and `clear` nearly so: each is a few
// lines, and its clauses speak of this shelf's own words.

#![tactic(auto)]

ghost use Rattle.std.specs.Prelude.{◌≡◌, ◌+◌, ◌≤◌, length, replicate, IfOk, MatchOption, Ok, Err, OnErr, OnOk};
ghost use Rattle.shelf.specs.Telling.{granted, lone_answer, told};
ghost use Rattle.shelf.specs.Answers.{Became, Did, numbered, added, after_add, wiped, after_wipe};
ghost use Rattle.rows.specs.Laws.{FreeIsZero, OneWriting};
ghost use Rattle.rows.specs.Made.{made_view};
ghost use Rattle.rows.specs.Finding.{Gap};
ghost use Rattle.rows.specs.Shelves.{Finds, Fresh, Misses, StartsAt, in_order, meaning, row_of, spare, words_of};
ghost use Rattle.rows.specs.Soundness.{sound_rows};

use row::Row;
use shelf::literal::Literal;
use shelf::memory::place_start;
use shelf::refusal::Refusal;
use shelf::store::Shelf;

mod row;
#[cfg(test)]
mod tests;

// The words and the measures: P places, variables up to the highest, clauses up
// to the longest. The rest of the words, past the last place's, is spare.
#[derive(Drop)]
pub struct RowShelf<'a> {
    // Lent, so that the caller decides about memory and the bench allocates nothing.
    words: &'a mut [u32],
    places: u16,
    highest: u16,
    longest: u8,
}

impl<'a> RowShelf<'a> {
    // A shelf with every place free; where a limit is not kept, one with no place. Words and
    // limits are three parameters here and in what calls this: the shelf is the struct that
    // they are put together in, and one of the two limits alone would be made to be taken apart.
    pub fn new(words: &'a mut [u32], highest: usize, longest: usize) -> RowShelf<'a>
        ensures { Fresh result words.old highest longest }
    {
        if !(1..=65535).contains(&highest) || !(1..=255).contains(&longest) {
            return RowShelf {
                words,
                places: 0,
                highest: 1,
                longest: 1,
            };
        }
        // no `try_from`: after a match on two of them the proof has no name for what they gave
        RowShelf::cleared(words, highest as u16, longest as u8)
    }

    // A shelf with every place free.
    fn cleared(words: &'a mut [u32], highest: u16, longest: u8) -> RowShelf<'a>
        requires highest { 1 ≤ highest }
        requires longest { 1 ≤ longest }
        ensures { Fresh result words.old highest longest }
    {
        let width = usize::from(longest) + 1;
        let places = (words.len() / width).min(65535);
        words[..places * width].fill(0);
        RowShelf {
            words,
            places: places as u16,
            highest,
            longest,
        }
    }
}

impl RowShelf<'_> {
    // How many words each place has.
    fn width(&self) -> usize
        ensures { result ≡ self.now.longest + 1 }
    {
        1 + usize::from(self.longest)
    }

    // Where the row of a place begins, unless there is no such row.
    fn start(&self, place: usize) -> Option<usize>
        ensures { MatchOption result (in_order self.now → Misses self.now place) (λ at. StartsAt self.now place at) }
    {
        place_start(place, self.places, self.width(), self.words.len())
    }

    // The row of a place, unless there is none or its count passes its end.
    fn row(&self, place: usize) -> Option<Row<'_>>
        ensures { MatchOption result (in_order self.now → Misses self.now place) (λ row. Finds self.now place row.words.now) }
    {
        let at = self.start(place)?;
        Row::over(&self.words[at..at + self.width()])
    }

    // Where among a place's codes a literal may go in: all that adding it asks. That it may is
    // a clause and no type: it is so of these words, and no longer once it is put in.
    fn gap(&self, place: usize, literal: Literal) -> Result<usize, Refusal>
        ensures answer { in_order self.now → granted result ≡ added (meaning self.now) place literal.code }
        ensures gap { IfOk result (λ k. Finds self.now place (row_of self.now place) × Gap (row_of self.now place) literal.code k) }
    {
        let row = self.row(place).ok_or(Refusal::NoSuchPlace)?;
        if !(1..=u32::from(self.highest)).contains(&literal.variable()) {
            return Err(Refusal::NoSuchVariable);
        }
        row.gap(literal)
    }

    // Puts a literal in at a gap of the row of a place.
    fn insert(&mut self, place: usize, k: usize, literal: Literal)
        requires row { Finds self.old place (row_of self.old place) }
        requires gap { Gap (row_of self.old place) literal.code k }
        ensures became { in_order self.old → Ok tt ≡ added (meaning self.old) place literal.code → Became (in_order self.new) (meaning self.new) (after_add (meaning self.old) place literal.code) }
        ensures spare { spare self.new ≡ spare self.old }
    {
        let width = self.width();
        let at = place * width;
        row::slip(&mut self.words[at..at + width], k, literal);
    }

    // Zeroes every word of the row of a place, which begins at a word.
    fn clear(&mut self, place: usize, at: usize)
        requires { StartsAt self.old place at }
        ensures became { in_order self.old → Became (in_order self.new) (meaning self.new) (after_wipe (meaning self.old) place) }
        ensures spare { spare self.new ≡ spare self.old }
        ensures zero { row_of self.new place ≡ replicate (self.new.longest + 1) 0 }
    {
        let end = at + self.width();
        self.words[at..end].fill(0);
    }
}

impl<'a> Shelf for RowShelf<'a> {
    ghost fine = { in_order };

    ghost view = { meaning };

    ghost sound = { λ s f. sound_rows s.places s.highest s.longest (words_of s) f };

    // The number of places.
    fn place_count(&self) -> usize {
        usize::from(self.places)
    }

    // The highest variable.
    fn highest_variable(&self) -> usize {
        usize::from(self.highest)
    }

    // The most literals at a place.
    fn longest_clause(&self) -> usize {
        usize::from(self.longest)
    }

    // The count of the row, or 0 where there is none.
    fn size(&self, place: usize) -> usize {
        self.row(place).map_or(0, |row| row.codes().len())
    }

    // The k-th code of the row, or 0 past the count.
    fn literal(&self, place: usize, k: usize) -> Literal {
        let code = self.row(place).and_then(|row| row.codes().get(k).copied());
        Literal {
            code: code.unwrap_or(0),
        }
    }

    // Whether the literal is in the row.
    #[tactic(auto, unfolding(shelf::specs::Literals::among))]
    fn holds(&self, place: usize, literal: Literal) -> bool {
        self.row(place).is_some_and(|row| row.has(literal))
    }

    // Asks all, and only then writes the row.
    fn add(&mut self, place: usize, literal: Literal) -> Result<(), Refusal>
        ensures did { in_order self.old → Did (in_order self.new) (numbered result) (added (meaning self.old) place literal.code) (meaning self.new) (after_add (meaning self.old) place literal.code) }
        ensures refused { OnErr result (self.new ≡ self.old) }
        ensures spare { spare self.new ≡ spare self.old }
    {
        let k = self.gap(place, literal)?;
        self.insert(place, k, literal);
        Ok(())
    }

    // Zeroes every word of the row.
    fn wipe(&mut self, place: usize) -> Result<(), Refusal>
        ensures did { in_order self.old → Did (in_order self.new) (numbered result) (wiped (meaning self.old) place) (meaning self.new) (after_wipe (meaning self.old) place) }
        ensures refused { OnErr result (self.new ≡ self.old) }
        ensures spare { spare self.new ≡ spare self.old }
        ensures zero { OnOk result (row_of self.new place ≡ replicate (self.new.longest + 1) 0) }
    {
        let at = self.start(place).ok_or(Refusal::NoSuchPlace)?;
        self.clear(place, at);
        Ok(())
    }
}

// Rows in order leave nothing in memory but what they mean.
pub fn rows_stand()
    ensures free { FreeIsZero }
    ensures same { OneWriting }
{}

// Makes a shelf over the words, adds one literal at place 0, and tells its size.
pub fn lone_literal(
    words: &mut [u32],
    highest: usize,
    longest: usize,
    literal: Literal,
) -> Result<usize, Refusal>
    ensures { told result ≡ lone_answer (made_view (length words.old) highest longest) literal.code }
{
    let mut shelf = RowShelf::new(words, highest, longest);
    shelf::places::lone_literal(&mut shelf, literal)
}
