// The resolving of two places of a shelf: its results counted, or placed. Both
// read the clauses first, so that nothing that is placed alters a parent.
ghost use Rattle.std.specs.Prelude.{◌≡◌, ◌≤◌};
ghost use Rattle.rules.specs.Clauses.{without as left_without};
ghost use Rattle.shelf.specs.View.{clause};
ghost use Rattle.results.specs.Counting.{tally_of};
ghost use Rattle.results.specs.Parents.{results_of};
ghost use Rattle.results.specs.Placing.{Framed, Placed};
ghost use Rattle.results.specs.Resolving.{resolvents_at};
ghost use Rattle.results.specs.Spread.{AllSpread};

use crate::codes::without;
use crate::parents::{Parent, Parents};
use crate::placing::place_all;
use crate::tallies::{Tally, survey};
use shelf::literal::Literal;
use shelf::places::read_codes;
use shelf::store::Shelf;

// Two places that are resolved on a variable.
#[derive(Clone, Copy)]
pub struct Pairing {
    // The place whose clause has the variable.
    pub i: usize,
    // The place whose clause has its opposite.
    pub j: usize,
    pub variable: u16,
    // Whether the compensations of i are wanted.
    pub with_i: bool,
    // Whether those of j are.
    pub with_j: bool,
}

// Reads the clause at a place, and what is left of it without a literal.
fn read_parent<S: Shelf>(shelf: &S, place: usize, literal: Literal, parent: &mut Parent)
    ensures whole { S.fine shelf.now → parent.new.clause.items ≡ clause (S.view shelf.now) place }
    ensures rest { parent.new.rest.items ≡ left_without literal.code parent.new.clause.items }
    ensures wanted { parent.new.wanted ≡ parent.old.wanted }
{
    read_codes(shelf, place, &mut parent.clause);
    without(&parent.clause, literal.code, &mut parent.rest);
}

impl Pairing {
    // Reads the clauses at both places.
    fn read_parents<S: Shelf>(self, shelf: &S, parents: &mut Parents)
        ensures is { S.fine shelf.now → results_of parents.new ≡ resolvents_at (S.view shelf.now) self.i self.j self.variable self.with_i self.with_j }
        ensures spread { S.fine shelf.now → AllSpread (S.view shelf.now).highest (results_of parents.new) }
    {
        parents.first.wanted = self.with_i;
        parents.second.wanted = self.with_j;
        read_parent(
            shelf,
            self.i,
            Literal::of(self.variable),
            &mut parents.first,
        );
        read_parent(
            shelf,
            self.j,
            Literal::not(self.variable),
            &mut parents.second,
        );
    }

    // Counts the results of resolving the places on the variable, with the
    // compensations that are wanted.
    pub fn survey_resolve<S: Shelf>(self, shelf: &S) -> Tally
        ensures low { result.kept ≤ 511 }
        ensures is { S.fine shelf.now → result ≡ tally_of (S.view shelf.now).longest (resolvents_at (S.view shelf.now) self.i self.j self.variable self.with_i self.with_j) }
    {
        let mut parents = Parents::new();
        self.read_parents(shelf, &mut parents);
        survey(&parents, shelf.longest_clause())
    }

    // Places those results from `to` on, each with the cell m. Where they are not
    // placeable the shelf is still in order after, and nothing but what is held and the
    // cells may have changed.
    pub fn place_resolve<S: Shelf, C: Copy>(self, shelf: &mut S, cells: &mut [C], to: usize, m: C)
        ensures did { S.fine shelf.old → Placed (S.fine shelf.new) (S.view shelf.old) (S.view shelf.new) to (resolvents_at (S.view shelf.old) self.i self.j self.variable self.with_i self.with_j) m cells.old cells.new }
        ensures framed { S.fine shelf.old → Framed (S.fine shelf.new) (S.view shelf.old) (S.view shelf.new) }
    {
        let mut parents = Parents::new();
        self.read_parents(shelf, &mut parents);
        place_all(shelf, cells, &parents, to, m);
    }
}
