// Results made one by one. A result is made when it is asked for, and no list of
// them is kept. By number and no Iterator: they are gone through twice, to be counted and to be
// placed, and a clause names the t-th of them.
ghost use Rattle.std.specs.Prelude.{◌≡◌, ℕ, ◌≤◌, List, [], length, slice_index_or};

use crate::codes::ResultCodes;

// What makes the results of a step: `listed` is the list of them, in order.
pub(crate) trait Listed {
    ghost listed: { Self → List (List ℕ) };

    // How many results there are.
    fn count(&self) -> usize
        ensures low { result ≤ 511 }
        ensures is { result ≡ length (listed self.now) };

    // Puts the t-th result, from 0, into a vector, in the place of what it had; empty past the
    // last.
    fn result(&self, t: usize, codes: &mut ResultCodes)
        ensures { codes.new.items ≡ slice_index_or (listed self.now) t [] };
}
