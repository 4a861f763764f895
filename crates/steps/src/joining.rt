// The join step: two places with equal clauses become one.
ghost use Rattle.std.specs.Prelude.{◌≡◌};
ghost use Rattle.cost.specs.Figures.{zeros};
ghost use Rattle.cost.specs.Kinds.{Kind};
ghost use Rattle.faults.specs.Faults.{verdict_told};
ghost use Rattle.ledger.specs.Meaning.{cell_of, cells_of};
ghost use Rattle.results.specs.Placing.{Laid};
ghost use Rattle.rules.specs.Cells.{soft};
ghost use Rattle.rules.specs.Questions.{first_no};
ghost use Rattle.steps.specs.Asks.{join_asks};
ghost use Rattle.steps.specs.Asked.{Joins, cell_here, left_cells, left_view};

use crate::settling::settle;
use clauses::pairs::same_clause;
use cost::kind::CostKind;
use faults::fault::Fault;
use ledger::cell::Cell;
use ledger::cells::read_cell;
use ledger::dues::joined;
use shelf::places::is_filled;
use shelf::store::Shelf;

// The place that stays, and the place that is freed.
#[derive(Clone, Copy)]
pub struct Join {
    pub i: usize,
    pub j: usize,
}

impl Join {
    // What a join is asked: both places hold a clause, they differ and the clauses do not,
    // and the sum, if both are soft, is in reach; the cell of both together.
    pub fn ask<K: CostKind, S: Shelf>(
        self,
        shelf: &S,
        ledger: &[Cell<K::Row>],
    ) -> Result<Cell<K::Amount>, Fault>
        ensures is { S.fine shelf.now → verdict_told result ≡ first_no (join_asks K.kind.scale (S.view shelf.now) (cell_here K.kind ledger.now self.i) (cell_here K.kind ledger.now self.j) self.i self.j) }
        ensures sum { Joins K.kind.figures (cell_here K.kind ledger.now self.i) (cell_here K.kind ledger.now self.j) result }
    {
        if !is_filled(shelf, self.i) {
            return Err(Fault::SourceUnfit);
        }
        if !is_filled(shelf, self.j) {
            return Err(Fault::SourceUnfit);
        }
        if self.i == self.j {
            return Err(Fault::ClausesDiffer);
        }
        if !same_clause(shelf, self.i, self.j) {
            return Err(Fault::ClausesDiffer);
        }
        let a = read_cell::<K>(ledger, self.i);
        let b = read_cell::<K>(ledger, self.j);
        Ok(joined::<K>(a, b)?)
    }

    // Gives place i the cell of both, and frees place j.
    pub fn make<K: CostKind, S: Shelf>(
        self,
        shelf: &mut S,
        ledger: &mut [Cell<K::Row>],
        sum: Cell<K::Amount>,
    )
        ensures { S.fine shelf.old → Laid (S.fine shelf.new) (S.view shelf.new) (left_view K.kind.scale.tiers (S.view shelf.old) self.i self.j (cell_of K.kind.figures sum) (soft (zeros K.kind.scale.tiers))) (cells_of K.kind ledger.new) (left_cells (cells_of K.kind ledger.old) self.i self.j (cell_of K.kind.figures sum) (soft (zeros K.kind.scale.tiers))) }
    {
        settle::<K, S>(shelf, ledger, self.i, sum);
        settle::<K, S>(shelf, ledger, self.j, Cell::Soft(K::nothing()));
    }
}
