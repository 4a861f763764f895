// Filling a case: open, hard, soft and seal.
ghost use Rattle.std.specs.Prelude.{◌≡◌, length, replicate, slice_set, OnErr, OnOk};
ghost use Rattle.clauses.specs.Codes.{codes as codes_of};
ghost use Rattle.cost.specs.Figures.{zeros};
ghost use Rattle.cost.specs.Kinds.{Kind};
ghost use Rattle.ledger.specs.Meaning.{cell_of, cells_of};
ghost use Rattle.ledger.specs.declared.cell.Cell.TheVariants.{Soft as SoftCell};
ghost use Rattle.results.specs.Placing.{Laid};
ghost use Rattle.rules.specs.Case.{idle_case};
ghost use Rattle.rules.specs.Filling.{open_questions, open_does, clause_questions, hard_does, soft_questions, soft_does, seal_does};
ghost use Rattle.rules.specs.Questions.{first_no};
ghost use Rattle.shelf.specs.Room.{Writable};
ghost use Rattle.shelf.specs.View.{with_held};
ghost use Rattle.bench.specs.Asked.{Accepts};
ghost use Rattle.faults.specs.Faults.{verdict_told};
ghost use Rattle.bench.specs.Meaning.{case_of, state_at, granted_told, Done};

use crate::case::accepted::Accepted;
use crate::case::asking::{ask_state, is_filling, ledger_is_long_enough, takes_clause};
use crate::case::{Bench, Phase};
use clauses::given::copy_codes;
use cost::kind::CostKind;
use faults::fault::Fault;
use ledger::amounts::take_amount;
use ledger::cell::Cell;
use ledger::cells::{clear, write_cell};
use ledger::dues::paid;
use shelf::literal::Literal;
use shelf::places::{ClauseCodes, is_vacant, wipe_all, write_codes};
use shelf::store::Shelf;

// Writes a clause to a free place, and its cell.
fn put_clause<K: CostKind, S: Shelf>(
    shelf: &mut S,
    ledger: &mut [Cell<K::Row>],
    place: usize,
    clause: &[Literal],
    cell: Cell<K::Amount>,
)
    ensures { S.fine shelf.old → Writable (S.view shelf.old) place (codes_of clause.now) → Laid (S.fine shelf.new) (S.view shelf.new) (with_held (S.view shelf.old) (slice_set (S.view shelf.old).held place (codes_of clause.now))) (cells_of K.kind ledger.new) (slice_set (cells_of K.kind ledger.old) place (cell_of K.kind.figures cell)) }
{
    let mut codes = ClauseCodes::new();
    copy_codes(clause, &mut codes);
    write_codes(shelf, place, &codes);
    write_cell::<K>(ledger, place, cell);
}

impl<K: CostKind> Bench<K> {
    // A bench with no case yet, whatever shelf and ledger hold.
    pub fn new() -> Bench<K>
        ensures { case_of K.kind result ≡ idle_case K.kind.scale.tiers }
    {
        let nothing = K::nothing();
        Bench {
            phase: Phase::Idle,
            n: 0,
            current: 0,
            total: nothing,
            proved: nothing,
            impossible: false,
            shown: None,
        }
    }

    fn ask_open<S: Shelf>(&self, shelf: &S, ledger: &[Cell<K::Row>], n: u16) -> Result<(), Fault>
        ensures { S.fine shelf.now → verdict_told result ≡ first_no (open_questions (state_at K.kind S.view self.now shelf.now ledger.now) n) }
    {
        if !ledger_is_long_enough::<K, S>(shelf, ledger) {
            return Err(Fault::LedgerTooShort);
        }
        if usize::from(n) > shelf.highest_variable() {
            return Err(Fault::TooManyVariables);
        }
        Ok(())
    }

    // Drops any earlier case, wipes every place and every cell, and begins a case of n
    // variables. That a refused call leaves all three is written out, here and below:
    // a word for it would take six arguments, old and new of each, and hide which is which.
    pub fn open<S: Shelf>(
        &mut self,
        shelf: &mut S,
        ledger: &mut [Cell<K::Row>],
        n: u16,
    ) -> Result<(), Fault>
        ensures did { S.fine shelf.old → Done (S.fine shelf.new) (granted_told result) (state_at K.kind S.view self.new shelf.new ledger.new) (open_does K.kind.scale (state_at K.kind S.view self.old shelf.old ledger.old) n) }
        ensures refused { OnErr result ((self.new ≡ self.old) × (shelf.new ≡ shelf.old) × (ledger.new ≡ ledger.old)) }
        ensures cleared { OnOk result ((a : K.Amount) → K.kind.figures a ≡ zeros K.kind.scale.tiers → ledger.new ≡ replicate (length ledger.old) (SoftCell (K.kind.row a))) }
    {
        self.ask_open(shelf, ledger, n)?;
        wipe_all(shelf);
        clear::<K>(ledger);
        let nothing = K::nothing();
        self.phase = Phase::Filling;
        self.n = n;
        self.current = n;
        self.total = nothing;
        self.proved = nothing;
        self.impossible = false;
        self.shown = None;
        Ok(())
    }

    // What hard and soft are both asked.
    fn ask_clause<S: Shelf>(
        &self,
        shelf: &S,
        ledger: &[Cell<K::Row>],
        place: usize,
        clause: &[Literal],
    ) -> Result<(), Fault>
        ensures { S.fine shelf.now → verdict_told result ≡ first_no (clause_questions (state_at K.kind S.view self.now shelf.now ledger.now) place (codes_of clause.now)) }
    {
        ask_state::<K, S>(shelf, ledger, is_filling(self.phase))?;
        if !takes_clause(shelf, self.n, clause) {
            return Err(Fault::ClauseUnfit);
        }
        if !clause.is_empty() && !is_vacant(shelf, place) {
            return Err(Fault::PlaceUnfit);
        }
        Ok(())
    }

    // Gives a clause that must be met. An empty one sets the impossible mark and uses
    // no place.
    pub fn hard<S: Shelf>(
        &mut self,
        shelf: &mut S,
        ledger: &mut [Cell<K::Row>],
        place: usize,
        clause: &[Literal],
    ) -> Result<(), Fault>
        ensures did { S.fine shelf.old → Done (S.fine shelf.new) (granted_told result) (state_at K.kind S.view self.new shelf.new ledger.new) (hard_does K.kind.scale (state_at K.kind S.view self.old shelf.old ledger.old) place (codes_of clause.now)) }
        ensures refused { OnErr result ((self.new ≡ self.old) × (shelf.new ≡ shelf.old) × (ledger.new ≡ ledger.old)) }
    {
        self.ask_clause(shelf, ledger, place, clause)?;
        if clause.is_empty() {
            self.impossible = true;
        } else {
            put_clause::<K, S>(shelf, ledger, place, clause, Cell::Hard);
        }
        Ok(())
    }

    fn ask_soft<S: Shelf>(
        &self,
        shelf: &S,
        ledger: &[Cell<K::Row>],
        place: usize,
        figures: &[i64],
        clause: &[Literal],
    ) -> Result<Accepted<K::Amount>, Fault>
        ensures is { S.fine shelf.now → verdict_told result ≡ first_no (soft_questions K.kind.scale (state_at K.kind S.view self.now shelf.now ledger.now) place figures.now (codes_of clause.now)) }
        ensures accepted { S.fine shelf.now → Accepts K.kind.figures (codes_of clause.now) figures.now (K.kind.figures self.now.total) (K.kind.figures self.now.proved) result }
    {
        self.ask_clause(shelf, ledger, place, clause)?;
        let (amount, total) = take_amount::<K>(figures, self.total).ok_or(Fault::AmountUnfit)?;
        let proved = paid::<K>(self.proved, clause.is_empty(), Cell::Soft(amount))?;
        Ok(Accepted {
            amount,
            total,
            proved,
        })
    }

    // Gives a clause with an amount, by its figures. An empty one adds its amount to
    // the proved cost and uses no place.
    pub fn soft<S: Shelf>(
        &mut self,
        shelf: &mut S,
        ledger: &mut [Cell<K::Row>],
        place: usize,
        figures: &[i64],
        clause: &[Literal],
    ) -> Result<(), Fault>
        ensures did { S.fine shelf.old → Done (S.fine shelf.new) (granted_told result) (state_at K.kind S.view self.new shelf.new ledger.new) (soft_does K.kind.scale (state_at K.kind S.view self.old shelf.old ledger.old) place figures.now (codes_of clause.now)) }
        ensures refused { OnErr result ((self.new ≡ self.old) × (shelf.new ≡ shelf.old) × (ledger.new ≡ ledger.old)) }
    {
        let accepted = self.ask_soft(shelf, ledger, place, figures, clause)?;
        self.total = accepted.total;
        self.proved = accepted.proved;
        if !clause.is_empty() {
            put_clause::<K, S>(shelf, ledger, place, clause, Cell::Soft(accepted.amount));
        }
        Ok(())
    }

    // Ends filling.
    pub fn seal<S: Shelf>(&mut self, shelf: &S, ledger: &[Cell<K::Row>]) -> Result<(), Fault>
        ensures did { S.fine shelf.now → Done (S.fine shelf.now) (granted_told result) (state_at K.kind S.view self.new shelf.now ledger.now) (seal_does (state_at K.kind S.view self.old shelf.now ledger.now)) }
        ensures refused { OnErr result (self.new ≡ self.old) }
    {
        ask_state::<K, S>(shelf, ledger, is_filling(self.phase))?;
        self.phase = Phase::Sealed;
        Ok(())
    }
}
