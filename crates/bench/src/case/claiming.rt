// Claims, and what a bench tells of its case.
ghost use Rattle.std.specs.Prelude.{◌≡◌, OnErr};
ghost use Rattle.cost.specs.Kinds.{Kind};
ghost use Rattle.rules.specs.Claims.{cheapest_questions, cheapest_does, impossible_questions, impossible_does};
ghost use Rattle.rules.specs.Questions.{first_no};
ghost use Rattle.faults.specs.Faults.{verdict_told};
ghost use Rattle.bench.specs.Meaning.{case_of, phase_of, state_at, cheapest_told, granted_told, Done};

use crate::case::{Bench, Phase};
use cost::kind::CostKind;
use faults::fault::Fault;
use ledger::cell::Cell;
use shelf::store::Shelf;

impl<K: CostKind> Bench<K> {
    // Where the case is.
    pub fn phase(&self) -> Phase
        ensures { phase_of result ≡ (case_of K.kind self.now).phase }
    {
        self.phase
    }

    // The proved cost so far.
    pub fn proved(&self) -> K::Amount
        ensures { K.kind.figures result ≡ (case_of K.kind self.now).proved }
    {
        self.proved
    }

    fn ask_cheapest<S: Shelf>(&self, shelf: &S, ledger: &[Cell<K::Row>]) -> Result<(), Fault>
        ensures { S.fine shelf.now → verdict_told result ≡ first_no (cheapest_questions (state_at K.kind S.view self.now shelf.now ledger.now)) }
    {
        self.ask_step(shelf, ledger)?;
        let cost = self.shown.ok_or(Fault::NoPlanShown)?;
        if !K::compare(self.proved, cost).is_eq() {
            return Err(Fault::CostsDiffer);
        }
        Ok(())
    }

    // Claims that the shown plan is cheapest: its cost. A granted claim closes the case.
    pub fn cheapest<S: Shelf>(
        &mut self,
        shelf: &S,
        ledger: &[Cell<K::Row>],
    ) -> Result<K::Amount, Fault>
        ensures did { S.fine shelf.now → Done (S.fine shelf.now) (cheapest_told K.kind.figures result) (state_at K.kind S.view self.new shelf.now ledger.now) (cheapest_does (state_at K.kind S.view self.old shelf.now ledger.now)) }
        ensures refused { OnErr result (self.new ≡ self.old) }
    {
        self.ask_cheapest(shelf, ledger)?;
        self.phase = Phase::Closed;
        Ok(self.proved)
    }

    fn ask_impossible<S: Shelf>(&self, shelf: &S, ledger: &[Cell<K::Row>]) -> Result<(), Fault>
        ensures { S.fine shelf.now → verdict_told result ≡ first_no (impossible_questions (state_at K.kind S.view self.now shelf.now ledger.now)) }
    {
        self.ask_step(shelf, ledger)?;
        if !self.impossible {
            return Err(Fault::NotMarked);
        }
        Ok(())
    }

    // Claims that no plan meets every hard clause. A granted claim closes the case.
    pub fn impossible<S: Shelf>(&mut self, shelf: &S, ledger: &[Cell<K::Row>]) -> Result<(), Fault>
        ensures did { S.fine shelf.now → Done (S.fine shelf.now) (granted_told result) (state_at K.kind S.view self.new shelf.now ledger.now) (impossible_does (state_at K.kind S.view self.old shelf.now ledger.now)) }
        ensures refused { OnErr result (self.new ≡ self.old) }
    {
        self.ask_impossible(shelf, ledger)?;
        self.phase = Phase::Closed;
        Ok(())
    }
}
