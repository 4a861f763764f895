// The split step: a clause becomes one with a variable, at its place, and one with
// the opposite, at another; both have its cell.
ghost use Rattle.std.specs.Prelude.{◌≡◌, ℕ, not, ◌&&◌, nat_le, slice_set};
ghost use Rattle.cost.specs.Kinds.{Kind};
ghost use Rattle.faults.specs.Faults.{verdict_told};
ghost use Rattle.ledger.specs.Meaning.{cells_of};
ghost use Rattle.results.specs.Placing.{Laid};
ghost use Rattle.rules.specs.Case.{known};
ghost use Rattle.rules.specs.Questions.{first_no, passes};
ghost use Rattle.results.specs.Splitting.{split_view};
ghost use Rattle.steps.specs.Asks.{split_asks};
ghost use Rattle.shelf.specs.Literals.{stands};
ghost use Rattle.shelf.specs.View.{clause};
ghost use Rattle.steps.specs.Asked.{cell_here};

use clauses::given::known_variables;
use cost::kind::CostKind;
use faults::fault::Fault;
use ledger::cell::Cell;
use ledger::cells::{read_cell, write_cell};
use results::splitting::split_place;
use shelf::literal::Literal;
use shelf::places::{is_filled, is_vacant};
use shelf::store::Shelf;

// The place of the clause, the variable that it is split on, and where its half with
// the opposite goes.
#[derive(Clone, Copy)]
pub struct Split {
    pub place: usize,
    pub variable: u16,
    pub to: usize,
}

impl Split {
    // Question 10: the variable is 1 to the current number, and stands at the place in
    // neither sign.
    fn has_new_variable<S: Shelf>(self, shelf: &S, current: u16) -> bool
        ensures { S.fine shelf.now → result ≡ (nat_le 1 self.variable && (nat_le self.variable (known current (S.view shelf.now)) && not (stands self.variable (clause (S.view shelf.now) self.place)))) }
    {
        if self.variable < 1 {
            return false;
        }
        if usize::from(self.variable) > known_variables(shelf, current) {
            return false;
        }
        if shelf.holds(self.place, Literal::of(self.variable)) {
            return false;
        }
        !shelf.holds(self.place, Literal::not(self.variable))
    }

    // What a split is asked: the place holds a clause, the variable is new to it, there is
    // room for it, and the other place is free.
    pub fn ask<S: Shelf>(self, shelf: &S, current: u16) -> Result<(), Fault>
        ensures { S.fine shelf.now → verdict_told result ≡ first_no (split_asks (S.view shelf.now) current self.place self.variable self.to) }
    {
        if !is_filled(shelf, self.place) {
            return Err(Fault::SourceUnfit);
        }
        if !self.has_new_variable(shelf, current) {
            return Err(Fault::VariableUnfit);
        }
        if shelf.size(self.place) >= shelf.longest_clause() {
            return Err(Fault::ResultTooLong);
        }
        if !is_vacant(shelf, self.to) {
            return Err(Fault::NoRoom);
        }
        Ok(())
    }

    // Splits the clause, as was granted.
    pub fn make<K: CostKind, S: Shelf>(self, shelf: &mut S, ledger: &mut [Cell<K::Row>])
        ensures { S.fine shelf.old → (n : ℕ) → passes ≡ first_no (split_asks (S.view shelf.old) n self.place self.variable self.to) → Laid (S.fine shelf.new) (S.view shelf.new) (split_view (S.view shelf.old) self.place self.variable self.to) (cells_of K.kind ledger.new) (slice_set (cells_of K.kind ledger.old) self.to (cell_here K.kind ledger.old self.place)) }
    {
        split_place(shelf, self.place, self.variable, self.to);
        let cell = read_cell::<K>(ledger, self.place);
        write_cell::<K>(ledger, self.to, cell);
    }
}
