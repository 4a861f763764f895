// The results of resolving two clauses: the union of what is left of both, then
// the compensations of the first clause and of the second, where they are wanted.
ghost use Rattle.std.specs.Prelude.{◌≡◌, ◌<◌, ◌≤◌, length, drop, if◌then◌else◌};
ghost use Rattle.rules.specs.Clauses.{merge as union};
ghost use Rattle.results.specs.Turned.{turned};
ghost use Rattle.results.specs.Parents.{results_of};

use crate::codes::{ResultCodes, merge, turned_from};
use crate::listed::Listed;
use shelf::places::ClauseCodes;

// A clause that is resolved.
#[derive(Drop)]
pub(crate) struct Parent {
    pub clause: ClauseCodes,
    // What is left of it without the variable that it is resolved on.
    pub rest: ClauseCodes,
    // Whether its compensations are wanted.
    pub wanted: bool,
}

impl Parent {
    // No clause yet.
    fn new() -> Parent {
        Parent {
            clause: ClauseCodes::new(),
            rest: ClauseCodes::new(),
            wanted: false,
        }
    }

    // How many compensations of this clause are wanted: one for each literal that is
    // left of the other, or none.
    fn compensation_count(&self, other: &Parent) -> usize
        ensures low { result ≤ 255 }
        ensures is { result ≡ (if self.now.wanted then length other.now.rest.items else 0) }
    {
        if self.wanted { other.rest.len() } else { 0 }
    }

    // One compensation of this clause: the clause with what is left of the other from
    // the k-th literal on, that one turned into its opposite.
    fn compensation(&self, other: &Parent, k: usize, codes: &mut ResultCodes)
        requires { k < length other.now.rest.items }
        ensures { codes.new.items ≡ union self.now.clause.items (turned (drop k other.now.rest.items)) }
    {
        let mut later = ClauseCodes::new();
        turned_from(&other.rest, k, &mut later);
        merge(&self.clause, &later, codes);
    }
}

// Two clauses that are resolved with one another.
#[derive(Drop)]
pub(crate) struct Parents {
    pub first: Parent,
    pub second: Parent,
}

impl Parents {
    // No clauses yet.
    pub(crate) fn new() -> Parents {
        Parents {
            first: Parent::new(),
            second: Parent::new(),
        }
    }
}

impl Listed for Parents {
    ghost listed = { results_of };

    // The union, and the compensations that are wanted.
    fn count(&self) -> usize {
        1 + self.first.compensation_count(&self.second)
            + self.second.compensation_count(&self.first)
    }

    // The union first, then the compensations of the first clause, then the second's.
    fn result(&self, t: usize, codes: &mut ResultCodes) {
        let Some(k) = t.checked_sub(1) else {
            return merge(&self.first.rest, &self.second.rest, codes);
        };
        let firsts = self.first.compensation_count(&self.second);
        if k < firsts {
            return self.first.compensation(&self.second, k, codes);
        }
        let k = k - firsts;
        if k < self.second.compensation_count(&self.first) {
            return self.second.compensation(&self.first, k, codes);
        }
        codes.clear();
    }
}
