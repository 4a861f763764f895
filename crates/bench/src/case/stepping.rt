// The steps of a log: split, join, resolve, define and harden. Each asks all its
// questions first, without change, and only then writes; a granted step makes the
// case working.
ghost use Rattle.std.specs.Prelude.{◌≡◌, OnErr};
ghost use Rattle.clauses.specs.Codes.{codes as codes_of};
ghost use Rattle.cost.specs.Kinds.{Kind};
ghost use Rattle.faults.specs.Faults.{verdict_told};
ghost use Rattle.rules.specs.Questions.{first_no};
ghost use Rattle.rules.specs.Steps.{step_fits, split_does, join_does, resolve_does, define_does, harden_does};
ghost use Rattle.bench.specs.Meaning.{state_at, granted_told, Done};

use crate::case::asking::ask_state;
use crate::case::{Bench, Phase};
use cost::kind::CostKind;
use faults::fault::Fault;
use ledger::cell::Cell;
use ledger::cells::write_cell;
use shelf::literal::Literal;
use shelf::store::Shelf;
use steps::defining::Define;
use steps::hardening::ask_harden;
use steps::joining::Join;
use steps::resolving::{Resolve, mark_after};
use steps::splitting::Split;

impl<K: CostKind> Bench<K> {
    // What every step and claim is asked first.
    pub(crate) fn ask_step<S: Shelf>(&self, shelf: &S, ledger: &[Cell<K::Row>]) -> Result<(), Fault>
        ensures { S.fine shelf.now → verdict_told result ≡ first_no (step_fits (state_at K.kind S.view self.now shelf.now ledger.now)) }
    {
        let takes_steps = matches!(self.phase, Phase::Sealed | Phase::Working);
        ask_state::<K, S>(shelf, ledger, takes_steps)
    }

    // Splits the clause at a place on a variable: with the variable it stays there, and
    // with the opposite it goes to the place `to`; both have its cell.
    pub fn split<S: Shelf>(
        &mut self,
        shelf: &mut S,
        ledger: &mut [Cell<K::Row>],
        place: usize,
        variable: u16,
        to: usize,
    ) -> Result<(), Fault>
        ensures did { S.fine shelf.old → Done (S.fine shelf.new) (granted_told result) (state_at K.kind S.view self.new shelf.new ledger.new) (split_does K.kind.scale (state_at K.kind S.view self.old shelf.old ledger.old) place variable to) }
        ensures refused { OnErr result ((self.new ≡ self.old) × (shelf.new ≡ shelf.old) × (ledger.new ≡ ledger.old)) }
    {
        self.ask_step(shelf, ledger)?;
        let step = Split {
            place,
            variable,
            to,
        };
        step.ask(shelf, self.current)?;
        step.make::<K, S>(shelf, ledger);
        self.phase = Phase::Working;
        Ok(())
    }

    // Joins two places with equal clauses: place i becomes hard if either is, else it
    // gets the sum of both amounts, and place j is freed.
    pub fn join<S: Shelf>(
        &mut self,
        shelf: &mut S,
        ledger: &mut [Cell<K::Row>],
        i: usize,
        j: usize,
    ) -> Result<(), Fault>
        ensures did { S.fine shelf.old → Done (S.fine shelf.new) (granted_told result) (state_at K.kind S.view self.new shelf.new ledger.new) (join_does K.kind.scale (state_at K.kind S.view self.old shelf.old ledger.old) i j) }
        ensures refused { OnErr result ((self.new ≡ self.old) × (shelf.new ≡ shelf.old) × (ledger.new ≡ ledger.old)) }
    {
        self.ask_step(shelf, ledger)?;
        let step = Join { i, j };
        let sum = step.ask::<K, S>(shelf, ledger)?;
        step.make::<K, S>(shelf, ledger, sum);
        self.phase = Phase::Working;
        Ok(())
    }

    // Resolves the places i and j on a variable, with the results from `to` on.
    pub fn resolve<S: Shelf>(
        &mut self,
        shelf: &mut S,
        ledger: &mut [Cell<K::Row>],
        i: usize,
        j: usize,
        variable: u16,
        to: usize,
    ) -> Result<(), Fault>
        ensures did { S.fine shelf.old → Done (S.fine shelf.new) (granted_told result) (state_at K.kind S.view self.new shelf.new ledger.new) (resolve_does K.kind.scale (state_at K.kind S.view self.old shelf.old ledger.old) i j variable to) }
        ensures refused { OnErr result ((self.new ≡ self.old) × (shelf.new ≡ shelf.old) × (ledger.new ≡ ledger.old)) }
    {
        self.ask_step(shelf, ledger)?;
        let step = Resolve { i, j, variable, to };
        let r = step.ask::<K, S>(shelf, ledger, self.proved)?;
        let weighed = r.weighed;
        let mark = mark_after::<K>(self.impossible, r.empty, weighed.common);
        step.make::<K, S>(shelf, ledger, r);
        self.proved = weighed.proved;
        self.impossible = mark;
        self.phase = Phase::Working;
        Ok(())
    }

    // Defines the next variable as true exactly where some literal is, by hard clauses
    // from `to` on.
    pub fn define<S: Shelf>(
        &mut self,
        shelf: &mut S,
        ledger: &mut [Cell<K::Row>],
        to: usize,
        literals: &[Literal],
    ) -> Result<(), Fault>
        ensures did { S.fine shelf.old → Done (S.fine shelf.new) (granted_told result) (state_at K.kind S.view self.new shelf.new ledger.new) (define_does K.kind.scale (state_at K.kind S.view self.old shelf.old ledger.old) to (codes_of literals.now)) }
        ensures refused { OnErr result ((self.new ≡ self.old) × (shelf.new ≡ shelf.old) × (ledger.new ≡ ledger.old)) }
    {
        self.ask_step(shelf, ledger)?;
        let step = Define { to, literals };
        let next = step.ask(shelf, self.current)?;
        step.make::<K, S>(shelf, ledger, next);
        self.current = next;
        self.phase = Phase::Working;
        Ok(())
    }

    // Makes the soft clause at a place hard, where leaving it unmet would cost more than
    // the shown plan.
    pub fn harden<S: Shelf>(
        &mut self,
        shelf: &S,
        ledger: &mut [Cell<K::Row>],
        i: usize,
    ) -> Result<(), Fault>
        ensures did { S.fine shelf.now → Done (S.fine shelf.now) (granted_told result) (state_at K.kind S.view self.new shelf.now ledger.new) (harden_does K.kind.scale (state_at K.kind S.view self.old shelf.now ledger.old) i) }
        ensures refused { OnErr result ((self.new ≡ self.old) × (ledger.new ≡ ledger.old)) }
    {
        self.ask_step(shelf, ledger)?;
        ask_harden::<K, S>(shelf, ledger, self.proved, self.shown, i)?;
        write_cell::<K>(ledger, i, Cell::Hard);
        self.phase = Phase::Working;
        Ok(())
    }
}
