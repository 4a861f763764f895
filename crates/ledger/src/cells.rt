// Single cells, and the whole ledger cleared. The cells are lent, so that the caller decides
// about memory: nothing here allocates.
ghost use Rattle.std.specs.Prelude.{◌≡◌, length, replicate, slice_set};
ghost use Rattle.cost.specs.Figures.{zeros};
ghost use Rattle.cost.specs.Kinds.{Kind};
ghost use Rattle.rules.specs.Case.{cell_at};
ghost use Rattle.rules.specs.Cells.{is_hard, amounts_to_nothing as nothing_left, smaller as smaller_of};
ghost use Rattle.ledger.specs.Meaning.{cell_of, cells_of, written};
ghost use Rattle.ledger.specs.declared.cell.Cell.TheVariants.{Soft};

use crate::amounts::is_zero;
use crate::cell::Cell;
use cost::kind::CostKind;

// Whether a cell is hard.
pub fn is_hard_cell<K: CostKind>(cell: Cell<K::Amount>) -> bool
    ensures { result ≡ is_hard (cell_of K.kind.figures cell) }
{
    matches!(cell, Cell::Hard)
}

// Whether a cell is soft and nothing is left of it.
pub fn is_nothing<K: CostKind>(cell: Cell<K::Amount>) -> bool
    ensures { result ≡ nothing_left K.kind.scale.tiers (cell_of K.kind.figures cell) }
{
    matches!(cell, Cell::Soft(a) if is_zero::<K>(a))
}

// The smaller of two cells, hard counting as greater than all. By a match of its own: the
// closure of `std::cmp::min_by` would match the same cases, only to name an `Ordering` for each.
pub(crate) fn smaller<K: CostKind>(a: Cell<K::Amount>, b: Cell<K::Amount>) -> Cell<K::Amount>
    ensures { cell_of K.kind.figures result ≡ smaller_of (cell_of K.kind.figures a) (cell_of K.kind.figures b) }
{
    match (a, b) {
        (Cell::Hard, _) => b,
        (Cell::Soft(x), Cell::Soft(y)) if K::compare(x, y).is_gt() => b,
        _ => a,
    }
}

// The cell of a place; soft with nothing past the ledger's end.
pub fn read_cell<K: CostKind>(ledger: &[Cell<K::Row>], place: usize) -> Cell<K::Amount>
    ensures { cell_of K.kind.figures result ≡ cell_at K.kind.scale.tiers (cells_of K.kind ledger.now) place }
{
    let nothing = Cell::Soft(K::nothing());
    // closures, here and in `row_cell`: a trait's method passed by its name gets no proof yet
    ledger
        .get(place)
        .map_or(nothing, |cell| cell.map(|row| K::read(row)))
}

// A cell with its amount as a row.
pub fn row_cell<K: CostKind>(cell: Cell<K::Amount>) -> Cell<K::Row>
    ensures is { result ≡ written K.kind.row cell }
    ensures means { cell_of K.kind.back result ≡ cell_of K.kind.figures cell }
{
    cell.map(|a| K::row(a))
}

// Puts a cell, whatever it is, at a place; past the end nothing is put. By a test and an
// index: what `get_mut` of a slice wrote is not known after it.
pub fn put_cell<C: Copy>(cells: &mut [C], place: usize, cell: C)
    ensures { cells.new ≡ slice_set cells.old place cell }
{
    if place < cells.len() {
        cells[place] = cell;
    }
}

// Writes the cell of a place; past the ledger's end nothing is written.
pub fn write_cell<K: CostKind>(ledger: &mut [Cell<K::Row>], place: usize, cell: Cell<K::Amount>)
    ensures is { ledger.new ≡ slice_set ledger.old place (written K.kind.row cell) }
    ensures means { cells_of K.kind ledger.new ≡ slice_set (cells_of K.kind ledger.old) place (cell_of K.kind.figures cell) }
{
    put_cell(ledger, place, row_cell::<K>(cell));
}

// Makes every cell soft with nothing, spare ones too: each is then the row of the
// one amount that means nothing.
pub fn clear<K: CostKind>(ledger: &mut [Cell<K::Row>])
    ensures is { (a : K.Amount) → K.kind.figures a ≡ zeros K.kind.scale.tiers → ledger.new ≡ replicate (length ledger.old) (Soft (K.kind.row a)) }
    ensures means { cells_of K.kind ledger.new ≡ replicate (length (cells_of K.kind ledger.old)) (cell_of (λ z. z) (Soft (zeros K.kind.scale.tiers))) }
{
    let nothing = K::row(K::nothing());
    // `fill` would ask that cloning a row cannot fail, which a kind does not say, and
    // `fill_with` tells what it wrote only by the calls that it made
    for cell in ledger.iter_mut() {
        *cell = Cell::Soft(nothing);
    }
}
