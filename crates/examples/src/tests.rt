// The examples on each pile, at each kind. Every ledger has a spare cell, every slice of
// words a spare word, and all of them begin with something else than a case just opened. A
// test for each pile, since a test has no type parameter.
use crate::cases::{EXAMPLES, FULL_REACH, FULL_SLOTS, REFUSALS, SHORT_LEDGER, TWO_TIERS};
use crate::trial::{Example, Trial};
use cost::amounts::{Minutes, Slots};
use cost::kind::CostKind;
use ledger::cell::Cell;
use ledger::cells::row_cell;
use masks::MaskShelf;
use rows::RowShelf;
use shelf::store::Shelf;
use signatures::SignatureLayer;
use std::process::Abort;

// What fits both kinds, and then what fits this one alone.
fn at_kind<K: CostKind, S: Shelf>(
    rt: &impl Abort,
    shelf: &mut S,
    ledger: &mut [Cell<K::Row>],
    alone: &[Example<'_>],
) {
    let mut trial = Trial::<K, S>::new(shelf, ledger);
    trial.run_all(rt, &EXAMPLES);
    trial.run_all(rt, alone);
}

// All examples, at each kind that they fit.
fn at_both_kinds<S: Shelf>(rt: &impl Abort, shelf: &mut S) {
    let mut ledger = [row_cell::<Minutes>(Cell::Hard); 9];
    at_kind::<Minutes, S>(rt, shelf, &mut ledger, &[FULL_REACH]);
    let mut ledger = [row_cell::<Slots>(Cell::Hard); 9];
    at_kind::<Slots, S>(rt, shelf, &mut ledger, &[FULL_SLOTS, TWO_TIERS]);
}

#[test]
fn on_rows(rt: HostRuntime) {
    let mut words = [7u32; 33];
    let mut shelf = RowShelf::new(&mut words, 3, 3);
    at_both_kinds(&rt, &mut shelf);
}

#[test]
fn on_masks(rt: HostRuntime) {
    let mut words = [7u64; 17];
    let mut shelf = MaskShelf::new(&mut words);
    at_both_kinds(&rt, &mut shelf);
}

#[test]
fn on_rows_under_signatures(rt: HostRuntime) {
    let mut words = [7u32; 33];
    let mut shelf = SignatureLayer::new(RowShelf::new(&mut words, 3, 3));
    at_both_kinds(&rt, &mut shelf);
}

#[test]
fn on_masks_under_signatures(rt: HostRuntime) {
    let mut words = [7u64; 17];
    let mut shelf = SignatureLayer::new(MaskShelf::new(&mut words));
    at_both_kinds(&rt, &mut shelf);
}

#[test]
fn refusals_in_order(rt: HostRuntime) {
    let mut words = [7u32; 33];
    let mut shelf = RowShelf::new(&mut words, 3, 3);
    let mut ledger = [row_cell::<Minutes>(Cell::Hard); 8];
    Trial::<Minutes, RowShelf>::new(&mut shelf, &mut ledger).run(&rt, &REFUSALS);
}

#[test]
fn a_ledger_too_short(rt: HostRuntime) {
    let mut words = [7u64; 17];
    let mut shelf = MaskShelf::new(&mut words);
    let mut ledger = [row_cell::<Slots>(Cell::Hard); 7];
    Trial::<Slots, MaskShelf>::new(&mut shelf, &mut ledger).run(&rt, &SHORT_LEDGER);
}
