// What is counted of the results before any is placed. The questions of a step
// are answered from it, with nothing altered.
ghost use Rattle.std.specs.Prelude.{◌≡◌, ℕ, ◌+◌, ◌<◌, ◌≤◌};
ghost use Rattle.results.specs.Counting.{tally_of, tally_one};
ghost use Rattle.results.specs.Spread.{AllSpread, Spread};

use crate::codes::{ResultCodes, clashes};
use crate::listed::Listed;

// How many results take places, whether one is empty, and whether each that does
// not vanish is short enough.
#[derive(Clone, Copy)]
pub struct Tally {
    pub kept: usize,
    pub empty: bool,
    pub short: bool,
}

impl Tally {
    // Counts one result more.
    fn note(&mut self, codes: &[u32], longest: usize)
        requires { self.old.kept < usize.MAX }
        ensures low { self.new.kept ≤ self.old.kept + 1 }
        ensures is { (top : ℕ) → Spread top 2 codes.now → self.new ≡ tally_one longest codes.now self.old }
    {
        if clashes(codes) {
            return;
        }
        if codes.is_empty() {
            self.empty = true;
        } else {
            self.kept += 1;
            self.short = self.short && codes.len() <= longest;
        }
    }
}

// Counts the results.
pub(crate) fn survey<R: Listed>(rs: &R, longest: usize) -> Tally
    ensures low { result.kept ≤ 511 }
    ensures is { (top : ℕ) → AllSpread top (R.listed rs.now) → result ≡ tally_of longest (R.listed rs.now) }
{
    let mut tally = Tally {
        kept: 0,
        empty: false,
        short: true,
    };
    let mut codes = ResultCodes::new();
    for t in 0..rs.count() {
        rs.result(t, &mut codes);
        tally.note(&codes, longest);
    }
    tally
}
