// The resolve step: the results of two places are placed, and what is left of the
// parents is written back.
ghost use Rattle.std.specs.Prelude.{◌≡◌, not, ◌&&◌, ◌||◌};
ghost use Rattle.cost.specs.Kinds.{Kind};
ghost use Rattle.faults.specs.Faults.{verdict_told};
ghost use Rattle.ledger.specs.Meaning.{cell_of};
ghost use Rattle.results.specs.Placing.{Placeable};
ghost use Rattle.rules.specs.Cells.{is_hard};
ghost use Rattle.rules.specs.Questions.{first_no};
ghost use Rattle.rules.specs.Results.{has_empty};
ghost use Rattle.rules.specs.Steps.{source_questions, result_questions};
ghost use Rattle.results.specs.Resolving.{resolvents_at};
ghost use Rattle.steps.specs.Asks.{resolve_asks};
ghost use Rattle.steps.specs.Asked.{Carried, Empties, Resolves, cell_here, results_of};

use crate::resolution::Resolution;
use crate::settling::settle;
use cost::kind::CostKind;
use faults::fault::Fault;
use ledger::cell::Cell;
use ledger::cells::{is_hard_cell, read_cell, row_cell};
use ledger::dues::weigh;
use results::resolving::Pairing;
use shelf::literal::Literal;
use shelf::places::{has_room, is_filled};
use shelf::store::Shelf;

// The places of the parents, the variable that i has and j has the opposite of, and
// where the results go from.
#[derive(Clone, Copy)]
pub struct Resolve {
    pub i: usize,
    pub j: usize,
    pub variable: u16,
    pub to: usize,
}

impl Resolve {
    // Questions 9 and 10: both places hold a clause, i one with the variable and j one
    // with its opposite.
    fn ask_sources<S: Shelf>(self, shelf: &S) -> Result<(), Fault>
        ensures { S.fine shelf.now → verdict_told result ≡ first_no (source_questions (S.view shelf.now) self.i self.j self.variable) }
    {
        if !is_filled(shelf, self.i) {
            return Err(Fault::SourceUnfit);
        }
        if !is_filled(shelf, self.j) {
            return Err(Fault::SourceUnfit);
        }
        if !shelf.holds(self.i, Literal::of(self.variable)) {
            return Err(Fault::LiteralMissing);
        }
        if !shelf.holds(self.j, Literal::not(self.variable)) {
            return Err(Fault::LiteralMissing);
        }
        Ok(())
    }

    // The two places and the variable, with the compensations that are wanted.
    fn pairing(self, with_i: bool, with_j: bool) -> Pairing
        ensures { result ≡ record { i = self.i; j = self.j; variable = self.variable; with_i = with_i; with_j = with_j } }
    {
        Pairing {
            i: self.i,
            j: self.j,
            variable: self.variable,
            with_i,
            with_j,
        }
    }

    // Questions 11 and 12: the results are short enough and have room from `to` on; whether
    // one is empty.
    fn ask_results<S: Shelf>(self, shelf: &S, with_i: bool, with_j: bool) -> Result<bool, Fault>
        ensures is { S.fine shelf.now → verdict_told result ≡ first_no (result_questions (S.view shelf.now) self.to (resolvents_at (S.view shelf.now) self.i self.j self.variable with_i with_j)) }
        ensures empty { S.fine shelf.now → Empties (has_empty (resolvents_at (S.view shelf.now) self.i self.j self.variable with_i with_j)) result }
    {
        let tally = self.pairing(with_i, with_j).survey_resolve(shelf);
        if !tally.short {
            return Err(Fault::ResultTooLong);
        }
        if !has_room(shelf, self.to, tally.kept) {
            return Err(Fault::NoRoom);
        }
        Ok(tally.empty)
    }

    // What a resolve is asked: its sources, its results, and the new amounts; and what it
    // then comes to.
    pub fn ask<K: CostKind, S: Shelf>(
        self,
        shelf: &S,
        ledger: &[Cell<K::Row>],
        proved: K::Amount,
    ) -> Result<Resolution<K::Amount>, Fault>
        ensures is { S.fine shelf.now → verdict_told result ≡ first_no (resolve_asks K.kind.scale (S.view shelf.now) (cell_here K.kind ledger.now self.i) (cell_here K.kind ledger.now self.j) (K.kind.figures proved) self.i self.j self.variable self.to) }
        ensures resolution { S.fine shelf.now → Resolves K.kind.figures (cell_here K.kind ledger.now self.i) (cell_here K.kind ledger.now self.j) (has_empty (resolvents_at (S.view shelf.now) self.i self.j self.variable (not (is_hard (cell_here K.kind ledger.now self.i))) (not (is_hard (cell_here K.kind ledger.now self.j))))) (K.kind.figures proved) result }
    {
        self.ask_sources(shelf)?;
        let a = read_cell::<K>(ledger, self.i);
        let b = read_cell::<K>(ledger, self.j);
        let with_i = !is_hard_cell::<K>(a);
        let with_j = !is_hard_cell::<K>(b);
        let empty = self.ask_results(shelf, with_i, with_j)?;
        let weighed = weigh::<K>(empty, a, b, proved)?;
        Ok(Resolution {
            empty,
            with_i,
            with_j,
            weighed,
        })
    }

    // Places the results from `to` on, then settles both parents.
    pub fn make<K: CostKind, S: Shelf>(
        self,
        shelf: &mut S,
        ledger: &mut [Cell<K::Row>],
        r: Resolution<K::Amount>,
    )
        ensures { S.fine shelf.old → Placeable (S.view shelf.old) self.to (results_of (S.view shelf.old) self.i self.j self.variable r) → Carried K.kind (S.fine shelf.new) (S.view shelf.old) (S.view shelf.new) ledger.old ledger.new self.i self.j self.variable self.to r }
    {
        let pairing = self.pairing(r.with_i, r.with_j);
        pairing.place_resolve(shelf, ledger, self.to, row_cell::<K>(r.weighed.common));
        settle::<K, S>(shelf, ledger, self.i, r.weighed.left_i);
        settle::<K, S>(shelf, ledger, self.j, r.weighed.left_j);
    }
}

// The impossible mark once a result, empty or not, with this cell has been taken in.
pub fn mark_after<K: CostKind>(mark: bool, empty: bool, cell: Cell<K::Amount>) -> bool
    ensures { result ≡ (mark || (empty && is_hard (cell_of K.kind.figures cell))) }
{
    mark || empty && is_hard_cell::<K>(cell)
}
