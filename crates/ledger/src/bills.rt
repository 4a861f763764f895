// A plan against the clauses on the shelf: whether it meets every hard one, and
// what the soft ones cost that it leaves unmet.
ghost use Rattle.std.specs.Prelude.{◌≡◌, ◌+◌, ◌<◌, ◌≤◌, length, min, IfOk};
ghost use Rattle.std.specs.Option.{option_to_list};
ghost use Rattle.cost.specs.Kinds.{Kind};
ghost use Rattle.rules.specs.Case.{cell_at};
ghost use Rattle.rules.specs.Showing.{hard_met, met_at, owed};
ghost use Rattle.shelf.specs.View.{clause};
ghost use Rattle.ledger.specs.Bills.{vacant_or_met, owing, amount_told, billed, bill_told};
ghost use Rattle.ledger.specs.Meaning.{cell_of, cells_of};

use crate::cell::Cell;
use crate::cells::{is_hard_cell, read_cell};
use clauses::plans::meets_place;
use cost::kind::CostKind;
use cost::tier::Tier;
use shelf::store::Shelf;

// A plan shown: its strip, with the shelf and the ledger that it is held against. The public
// functions take the three one by one, as the caller lends them to each call.
#[derive(Drop)]
struct Shown<'a, K: CostKind, S: Shelf> {
    shelf: &'a S,
    ledger: &'a [Cell<K::Row>],
    strip: &'a [u8],
}

impl<'a, K: CostKind, S: Shelf> Shown<'a, K, S> {
    // Whether a place is free or the plan meets its clause.
    fn free_or_met(&self, place: usize) -> bool
        ensures { S.fine self.now.shelf.now → result ≡ vacant_or_met self.now.strip.now (clause (S.view self.now.shelf.now) place) }
    {
        self.shelf.size(place) == 0 || meets_place(self.shelf, place, self.strip)
    }

    // Whether the plan meets the clause at a place if it is hard.
    fn met_if_hard(&self, place: usize) -> bool
        ensures { S.fine self.now.shelf.now → result ≡ met_at self.now.strip.now (clause (S.view self.now.shelf.now) place) (cell_at K.kind.scale.tiers (cells_of K.kind self.now.ledger.now) place) }
    {
        !is_hard_cell::<K>(read_cell::<K>(self.ledger, place)) || self.free_or_met(place)
    }

    // What a place adds to the plan's cost, if anything.
    fn amount_owed(&self, place: usize) -> Option<K::Amount>
        ensures { S.fine self.now.shelf.now → amount_told K.kind.figures result ≡ owing self.now.strip.now (clause (S.view self.now.shelf.now) place) (cell_at K.kind.scale.tiers (cells_of K.kind self.now.ledger.now) place) }
    {
        match read_cell::<K>(self.ledger, place) {
            Cell::Soft(a) if !self.free_or_met(place) => Some(a),
            _ => None,
        }
    }

    // A bill, the cost and how many unmet clauses made it up, with what a place adds to it.
    fn with_owed(&self, place: usize, bill: (K::Amount, usize)) -> Result<(K::Amount, usize), Tier>
        requires { bill.1 < 65535 }
        ensures one_more { IfOk result (λ b. b.1 ≤ bill.1 + 1) }
        ensures is { S.fine self.now.shelf.now → bill_told K.kind.figures result ≡ billed K.kind.scale (K.kind.figures bill.0) (option_to_list (owing self.now.strip.now (clause (S.view self.now.shelf.now) place) (cell_at K.kind.scale.tiers (cells_of K.kind self.now.ledger.now) place))) bill.1 }
    {
        let (cost, unmet) = bill;
        match self.amount_owed(place) {
            Some(a) => Ok((K::sum(cost, a)?, unmet + 1)),
            None => Ok(bill),
        }
    }

    // How many places have a cell.
    fn covered(&self) -> usize
        ensures low { result ≤ 65535 }
        ensures is { S.fine self.now.shelf.now → result ≡ min (S.view self.now.shelf.now).places (length self.now.ledger.now) }
    {
        self.shelf.place_count().min(self.ledger.len())
    }
}

// Whether the plan meets every hard clause on the shelf, as far as there are cells.
pub fn meets_hard<K: CostKind, S: Shelf>(shelf: &S, ledger: &[Cell<K::Row>], strip: &[u8]) -> bool
    ensures { S.fine shelf.now → result ≡ hard_met strip.now (S.view shelf.now).held (cells_of K.kind ledger.now) }
{
    let shown = Shown::<K, S> {
        shelf,
        ledger,
        strip,
    };
    (0..shown.covered()).all(|p| shown.met_if_hard(p))
}

// The proved cost with the amounts of the soft clauses that the plan leaves unmet,
// and how many they are, as far as there are cells. By a loop: `try_fold` takes a fifth more
// time, or half as much again.
pub fn bill<K: CostKind, S: Shelf>(
    shelf: &S,
    ledger: &[Cell<K::Row>],
    strip: &[u8],
    proved: K::Amount,
) -> Result<(K::Amount, usize), Tier>
    ensures { S.fine shelf.now → bill_told K.kind.figures result ≡ billed K.kind.scale (K.kind.figures proved) (owed strip.now (S.view shelf.now).held (cells_of K.kind ledger.now)) 0 }
{
    let shown = Shown::<K, S> {
        shelf,
        ledger,
        strip,
    };
    let mut bill = (proved, 0);
    for p in 0..shown.covered() {
        bill = shown.with_owed(p, bill)?;
    }
    Ok(bill)
}
