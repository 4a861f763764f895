// The define step: the next variable is true exactly where some literal is, by hard
// clauses.
ghost use Rattle.std.specs.Prelude.{◌≡◌, ℕ, ◌+◌, IfOk};
ghost use Rattle.clauses.specs.Codes.{codes as codes_of};
ghost use Rattle.cost.specs.Kinds.{Kind};
ghost use Rattle.faults.specs.Faults.{verdict_told};
ghost use Rattle.ledger.specs.Meaning.{cells_of};
ghost use Rattle.results.specs.Placing.{Laid, after_placing};
ghost use Rattle.rules.specs.Cells.{hard};
ghost use Rattle.rules.specs.Questions.{first_no, passes};
ghost use Rattle.rules.specs.Results.{alike, defining, kept, laid};
ghost use Rattle.steps.specs.Asks.{define_asks};

use clauses::given::{known_variables, rises};
use cost::kind::CostKind;
use faults::fault::Fault;
use ledger::cell::Cell;
use results::defining::place_define;
use shelf::literal::Literal;
use shelf::places::has_room;
use shelf::store::Shelf;

// Where the clauses go from, and the literals of which one must be true for the next
// variable to be.
#[derive(Clone, Copy)]
pub struct Define<'a> {
    pub to: usize,
    pub literals: &'a [Literal],
}

impl Define<'_> {
    // What a define is asked: there is a literal, the variables rise up to the current
    // number, there is a next variable, and its clauses are short enough and have room;
    // the next variable.
    pub fn ask<S: Shelf>(&self, shelf: &S, current: u16) -> Result<u16, Fault>
        ensures is { S.fine shelf.now → verdict_told result ≡ first_no (define_asks (S.view shelf.now) current self.now.to (codes_of self.now.literals.now)) }
        ensures next { IfOk result (λ d. d ≡ current + 1) }
    {
        if self.literals.is_empty() {
            return Err(Fault::DefinitionUnfit);
        }
        if !rises(self.literals, known_variables(shelf, current)) {
            return Err(Fault::DefinitionUnfit);
        }
        if usize::from(current) >= shelf.highest_variable() {
            return Err(Fault::DefinitionUnfit);
        }
        if self.literals.len() >= shelf.longest_clause() {
            return Err(Fault::ResultTooLong);
        }
        if !has_room(shelf, self.to, self.literals.len() + 1) {
            return Err(Fault::NoRoom);
        }
        Ok(current + 1)
    }

    // Places the clauses that define the variable, as was granted.
    pub fn make<K: CostKind, S: Shelf>(
        &self,
        shelf: &mut S,
        ledger: &mut [Cell<K::Row>],
        variable: u16,
    )
        ensures { S.fine shelf.old → (n : ℕ) → variable ≡ n + 1 → passes ≡ first_no (define_asks (S.view shelf.old) n self.now.to (codes_of self.now.literals.now)) → Laid (S.fine shelf.new) (S.view shelf.new) (after_placing (S.view shelf.old) self.now.to (defining (n + 1) (codes_of self.now.literals.now))) (cells_of K.kind ledger.new) (laid self.now.to (alike hard (kept (defining (n + 1) (codes_of self.now.literals.now)))) (cells_of K.kind ledger.old)) }
    {
        place_define(shelf, ledger, variable, self.literals, self.to, Cell::Hard);
    }
}
