// Showing a plan.
ghost use Rattle.std.specs.Prelude.{◌≡◌, OnErr};
ghost use Rattle.cost.specs.Kinds.{Kind};
ghost use Rattle.ledger.specs.Meaning.{cells_of};
ghost use Rattle.rules.specs.Questions.{first_no};
ghost use Rattle.rules.specs.Showing.{owed, show_questions, show_does};
ghost use Rattle.bench.specs.Asked.{Bills};
ghost use Rattle.faults.specs.Faults.{verdict_told};
ghost use Rattle.bench.specs.Meaning.{state_at, shown_told, Done};

use crate::case::asking::ask_state;
use crate::case::{Bench, Phase};
use clauses::plans::is_plan;
use cost::kind::CostKind;
use faults::fault::Fault;
use ledger::bills::{bill, meets_hard};
use ledger::cell::Cell;
use shelf::store::Shelf;

impl<K: CostKind> Bench<K> {
    fn ask_show<S: Shelf>(
        &self,
        shelf: &S,
        ledger: &[Cell<K::Row>],
        strip: &[u8],
    ) -> Result<(K::Amount, usize), Fault>
        ensures is { S.fine shelf.now → verdict_told result ≡ first_no (show_questions K.kind.scale (state_at K.kind S.view self.now shelf.now ledger.now) strip.now) }
        ensures bill { S.fine shelf.now → Bills K.kind.figures (K.kind.figures self.now.proved) (owed strip.now (S.view shelf.now).held (cells_of K.kind ledger.now)) result }
    {
        ask_state::<K, S>(shelf, ledger, self.phase == Phase::Sealed)?;
        if !is_plan(strip, usize::from(self.n)) {
            return Err(Fault::StripUnfit);
        }
        if !meets_hard::<K, S>(shelf, ledger, strip) {
            return Err(Fault::HardClauseUnmet);
        }
        if self.impossible {
            return Err(Fault::HardClauseUnmet);
        }
        Ok(bill::<K, S>(shelf, ledger, strip, self.proved)?)
    }

    // Shows a plan: its cost, and how many soft clauses on the shelf it leaves unmet.
    pub fn show<S: Shelf>(
        &mut self,
        shelf: &S,
        ledger: &[Cell<K::Row>],
        strip: &[u8],
    ) -> Result<(K::Amount, usize), Fault>
        ensures did { S.fine shelf.now → Done (S.fine shelf.now) (shown_told K.kind.figures result) (state_at K.kind S.view self.new shelf.now ledger.now) (show_does K.kind.scale (state_at K.kind S.view self.old shelf.now ledger.now) strip.now) }
        ensures refused { OnErr result (self.new ≡ self.old) }
    {
        let (cost, unmet) = self.ask_show(shelf, ledger, strip)?;
        self.shown = Some(cost);
        Ok((cost, unmet))
    }
}
