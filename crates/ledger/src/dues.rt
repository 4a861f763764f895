// The amounts of a join and of a resolve. A fault of the cost kind is handed on as
// it was told.
ghost use Rattle.std.specs.Prelude.{◌≡◌};
ghost use Rattle.cost.specs.Kinds.{Kind, meant};
ghost use Rattle.rules.specs.Cells.{joined as joined_of, less as less_of, paid as paid_of, paid_news};
ghost use Rattle.rules.specs.Questions.{reach_reply};
ghost use Rattle.rules.specs.Steps.{remainders, resolve_news, sum_news};
ghost use Rattle.ledger.specs.Dues.{told_by, dues, cell_told, dues_told};
ghost use Rattle.ledger.specs.Meaning.{cell_of};

use crate::cell::Cell;
use crate::cells::smaller;
use crate::weighed::Weighed;
use cost::kind::CostKind;
use cost::tier::Tier;

// The cell of two equal clauses: hard if either is, else with the sum of both. Not one function
// with `less` over an operation: a hard cell makes this one hard, and leaves that one as it was.
pub fn joined<K: CostKind>(a: Cell<K::Amount>, b: Cell<K::Amount>) -> Result<Cell<K::Amount>, Tier>
    ensures { cell_told K.kind.figures result ≡ told_by (reach_reply K.kind.scale (sum_news (cell_of K.kind.figures a) (cell_of K.kind.figures b))) (joined_of (cell_of K.kind.figures a) (cell_of K.kind.figures b)) }
{
    match (a, b) {
        (Cell::Soft(x), Cell::Soft(y)) => Ok(Cell::Soft(K::sum(x, y)?)),
        _ => Ok(Cell::Hard),
    }
}

// What is left of a parent once m is taken from it; a hard one stays.
fn less<K: CostKind>(a: Cell<K::Amount>, m: Cell<K::Amount>) -> Result<Cell<K::Amount>, Tier>
    ensures { cell_told K.kind.figures result ≡ told_by (reach_reply K.kind.scale (remainders (cell_of K.kind.figures a) (cell_of K.kind.figures m))) (less_of (cell_of K.kind.figures a) (cell_of K.kind.figures m)) }
{
    match (a, m) {
        (Cell::Soft(x), Cell::Soft(y)) => Ok(Cell::Soft(K::difference(x, y)?)),
        _ => Ok(a),
    }
}

// The proved cost with m, where there is an empty clause with the cell m.
pub fn paid<K: CostKind>(
    proved: K::Amount,
    empty: bool,
    m: Cell<K::Amount>,
) -> Result<K::Amount, Tier>
    ensures { meant K.kind.figures result ≡ told_by (reach_reply K.kind.scale (paid_news empty (cell_of K.kind.figures m) (K.kind.figures proved))) (paid_of empty (cell_of K.kind.figures m) (K.kind.figures proved)) }
{
    match m {
        Cell::Soft(a) if empty => K::sum(proved, a),
        _ => Ok(proved),
    }
}

// The amounts after a resolve of places with the cells a and b: what is left at i,
// at j, then the proved cost, where `empty` says that a result is empty.
pub fn weigh<K: CostKind>(
    empty: bool,
    a: Cell<K::Amount>,
    b: Cell<K::Amount>,
    proved: K::Amount,
) -> Result<Weighed<K::Amount>, Tier>
    ensures { dues_told K.kind.figures result ≡ told_by (reach_reply K.kind.scale (resolve_news empty (cell_of K.kind.figures a) (cell_of K.kind.figures b) (K.kind.figures proved))) (dues empty (cell_of K.kind.figures a) (cell_of K.kind.figures b) (K.kind.figures proved)) }
{
    let common = smaller::<K>(a, b);
    let left_i = less::<K>(a, common)?;
    let left_j = less::<K>(b, common)?;
    let proved = paid::<K>(proved, empty, common)?;
    Ok(Weighed {
        common,
        left_i,
        left_j,
        proved,
    })
}
