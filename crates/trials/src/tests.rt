// Each trial makes a shelf and a ledger, most of them a bench too, and compares answers. Shelf and
// ledger are passed to each call, as a caller of the bench passes them.
ghost use Rattle.rows.specs.Shelves.{meaning};

use bench::case::Bench;
use cost::amounts::{Minutes, MinutesRow, Slots, SlotsRow};
use cost::kind::CostKind;
use faults::fault::Fault;
use ledger::cell::Cell;
use ledger::cells::row_cell;
use results::defining::place_define;
use results::resolving::Pairing;
use rows::RowShelf;
use shelf::literal::Literal;
use shelf::refusal::Refusal;
use shelf::store::Shelf;
use std::test::Fail;

// An answer, with a refusal by its number, as the rules name it. A function, since a call with
// a `map_err` of its own would take five lines, 24 times.
fn told<T>(answer: Result<T, Fault>) -> Result<T, u8> {
    answer.map_err(Fault::number)
}

// The minutes of a claim, with a refusal by its number.
fn claimed(answer: Result<Minutes, Fault>) -> Result<i64, u8> {
    told(answer.map(|cost| Minutes::figure(cost, 1)))
}

// The figures of an amount in slots.
fn figures(amount: Slots) -> (i64, i64) {
    (Slots::figure(amount, 1), Slots::figure(amount, 2))
}

#[test]
fn reach(rt: HostRuntime) {
    let mut words = [0u32; 6];
    let mut ledger = [row_cell::<Minutes>(Cell::Hard); 3];
    let mut shelf = RowShelf::new(&mut words, 1, 1);
    let mut bench = Bench::<Minutes>::new();
    assert_eq!(rt; told(bench.open(&mut shelf, &mut ledger, 2)), Err(3));
    assert_eq!(rt; told(bench.open(&mut shelf, &mut ledger, 1)), Ok(()));
    for (place, minutes, literal, answer) in [
        (0, 1_000_000_000_001, Literal::of(1), Err(6)),
        (0, 1_000_000_000_000, Literal::of(1), Ok(())),
        (1, 1, Literal::not(1), Err(6)),
        (0, 1, Literal::not(1), Err(5)),
        (1, 1, Literal::of(2), Err(4)),
    ] {
        let answered = told(bench.soft(&mut shelf, &mut ledger, place, &[minutes], &[literal]));
        assert_eq!(rt; answered, answer, "{literal:?} with {minutes} at {place}");
    }
}

#[test]
fn no_variables(rt: HostRuntime) -> Result<(), Fail> {
    let mut words = [7u32; 2];
    let mut ledger = [row_cell::<Minutes>(Cell::Hard); 1];
    let mut shelf = RowShelf::new(&mut words, 1, 1);
    let mut bench = Bench::<Minutes>::new();
    assert_eq!(rt; told(bench.open(&mut shelf, &mut ledger, 0)), Ok(()));
    assert_eq!(rt;
        told(bench.soft(&mut shelf, &mut ledger, 9, &[5], &[])),
        Ok(())
    );
    assert_eq!(rt; told(bench.seal(&shelf, &ledger)), Ok(()));
    assert_eq!(rt; claimed(bench.cheapest(&shelf, &ledger)), Err(14));
    let (cost, unmet) = bench.show(&shelf, &ledger, &[])?;
    assert_eq!(rt; (Minutes::figure(cost, 1), unmet), (5, 0));
    assert_eq!(rt; claimed(bench.cheapest(&shelf, &ledger)), Ok(5));
    assert_eq!(rt; told(bench.seal(&shelf, &ledger)), Err(2));
    Ok(())
}

#[test]
fn used_up(rt: HostRuntime) {
    let mut words = [0u32; 16];
    let mut ledger = [row_cell::<Minutes>(Cell::Hard); 4];
    let mut shelf = RowShelf::new(&mut words, 2, 3);
    let mut bench = Bench::<Minutes>::new();
    assert_eq!(rt; told(bench.open(&mut shelf, &mut ledger, 2)), Ok(()));
    assert_eq!(rt;
        told(bench.soft(
            &mut shelf,
            &mut ledger,
            0,
            &[1],
            &[Literal::of(1), Literal::of(2)],
        )),
        Ok(())
    );
    assert_eq!(rt;
        told(bench.soft(
            &mut shelf,
            &mut ledger,
            1,
            &[1],
            &[Literal::not(1), Literal::of(2)],
        )),
        Ok(())
    );
    assert_eq!(rt; told(bench.seal(&shelf, &ledger)), Ok(()));
    assert_eq!(rt;
        told(bench.resolve(&mut shelf, &mut ledger, 0, 1, 2, 2)),
        Err(10)
    );
    assert_eq!(rt;
        told(bench.resolve(&mut shelf, &mut ledger, 0, 1, 1, 1)),
        Err(12)
    );
    assert_eq!(rt;
        told(bench.resolve(&mut shelf, &mut ledger, 0, 1, 1, 2)),
        Ok(())
    );
    assert_eq!(rt; (shelf.size(0), shelf.size(1), shelf.size(2)), (0, 0, 1));
    assert_eq!(rt; shelf.literal(2, 0).code, 4);
    assert_eq!(rt;
        told(bench.resolve(&mut shelf, &mut ledger, 0, 2, 1, 3)),
        Err(9)
    );
}

#[test]
fn two_tiers(rt: HostRuntime) -> Result<(), Fail> {
    let mut words = [0u32; 6];
    let mut ledger = [row_cell::<Slots>(Cell::Hard); 3];
    let mut shelf = RowShelf::new(&mut words, 1, 1);
    let mut bench = Bench::<Slots>::new();
    assert_eq!(rt; told(bench.open(&mut shelf, &mut ledger, 1)), Ok(()));
    assert_eq!(rt;
        told(bench.soft(&mut shelf, &mut ledger, 0, &[2, 10], &[Literal::of(1)])),
        Ok(())
    );
    assert_eq!(rt;
        told(bench.soft(&mut shelf, &mut ledger, 1, &[1, 25], &[Literal::not(1)])),
        Ok(())
    );
    assert_eq!(rt;
        told(bench.soft(&mut shelf, &mut ledger, 2, &[1], &[Literal::of(1)])),
        Err(6)
    );
    assert_eq!(rt; told(bench.seal(&shelf, &ledger)), Ok(()));
    assert_eq!(rt;
        told(bench.resolve(&mut shelf, &mut ledger, 0, 1, 1, 2)),
        Ok(())
    );
    assert_eq!(rt; figures(bench.proved()), (1, 25));
    let Cell::Soft(row) = ledger[0] else {
        return Err(Fail::new("the cell of place 0 is hard"));
    };
    assert_eq!(rt; figures(Slots::read(row)), (1, -15));
    Ok(())
}

#[test]
fn short_ledger(rt: HostRuntime) {
    let mut words = [0u32; 6];
    let mut ledger = [row_cell::<Slots>(Cell::Hard); 2];
    let mut shelf = RowShelf::new(&mut words, 1, 1);
    let mut bench = Bench::<Slots>::new();
    assert_eq!(rt; told(bench.open(&mut shelf, &mut ledger, 1)), Err(1));
    assert_eq!(rt; told(bench.seal(&shelf, &ledger)), Err(1));
}

// The bench refuses to define by a literal that stands twice. Placed all the same, the clause of
// all literals has it once, and the clause of each stands twice.
#[test]
fn a_literal_twice(rt: HostRuntime) {
    let mut words = [0u32; 9];
    let mut cells = [0u8; 3];
    let mut shelf = RowShelf::new(&mut words, 2, 2);
    place_define(&mut shelf, &mut cells, 2, &[Literal::of(1); 2], 0, 7);
    for (place, low, high) in [
        (0, Literal::of(1), Literal::not(2)),
        (1, Literal::not(1), Literal::of(2)),
        (2, Literal::not(1), Literal::of(2)),
    ] {
        let held = (shelf.literal(place, 0), shelf.literal(place, 1));
        assert_eq!(rt;
            (shelf.size(place), held),
            (2, (low, high)),
            "at place {place}"
        );
    }
    assert_eq!(rt; cells, [7, 7, 7]);
}

// A shelf that tells each literal twice, and so is never in order.
#[derive(Drop)]
struct Doubled<'a> {
    rows: RowShelf<'a>,
}

impl<'a> Shelf for Doubled<'a> {
    ghost fine = { λ s. ⊥ };

    ghost view = { λ s. meaning s.rows };

    ghost sound = { λ s f. absurd f };

    fn place_count(&self) -> usize {
        self.rows.place_count()
    }

    fn highest_variable(&self) -> usize {
        self.rows.highest_variable()
    }

    fn longest_clause(&self) -> usize {
        self.rows.longest_clause()
    }

    fn size(&self, place: usize) -> usize {
        (self.rows.size(place) * 2).min(255)
    }

    fn literal(&self, place: usize, k: usize) -> Literal {
        self.rows.literal(place, k / 2)
    }

    fn holds(&self, place: usize, literal: Literal) -> bool {
        self.rows.holds(place, literal)
    }

    fn add(&mut self, place: usize, literal: Literal) -> Result<(), Refusal> {
        self.rows.add(place, literal)
    }

    fn wipe(&mut self, place: usize) -> Result<(), Refusal> {
        self.rows.wipe(place)
    }
}

// Of clauses that are told with each literal twice, a result that has one twice is counted and
// placed, and one that has a literal and its opposite is not.
#[test]
fn a_shelf_out_of_order(rt: HostRuntime) -> Result<(), Fail> {
    let mut words = [0u32; 20];
    let mut cells = [0u8; 5];
    let mut shelf = Doubled {
        rows: RowShelf::new(&mut words, 2, 3),
    };
    shelf.add(0, Literal::of(1))?;
    shelf.add(0, Literal::of(2))?;
    shelf.add(1, Literal::not(1))?;
    let pairing = Pairing {
        i: 0,
        j: 1,
        variable: 1,
        with_i: true,
        with_j: true,
    };
    let tally = pairing.survey_resolve(&shelf);
    assert_eq!(rt; (tally.kept, tally.empty), (2, false));
    pairing.place_resolve(&mut shelf, &mut cells, 2, 7);
    assert_eq!(rt;
        (shelf.rows.size(2), shelf.rows.size(3), shelf.rows.size(4)),
        (1, 2, 0)
    );
    assert_eq!(rt; cells, [0, 0, 7, 7, 0]);
    Ok(())
}
