// Walks a courier's case with every kind of step from its opening to its claim, with
// masks under signatures for a shelf, and prints it as `walk` does.
//
// Docks 1, 2 and 3 can be used. A load goes over the wide dock 3, or half of it over
// dock 1 and half over dock 2. The parcels go over dock 1 or dock 2, else a slot and 5
// minutes are lost. The post goes over dock 1, else it is 10 minutes late. Each dock in
// use loses a slot and 5 minutes. Docks 1 and 2 together cost 2 slots and 10 minutes.
// Dock 3 alone, without parcels and post, would cost 2 slots and 20 minutes.

#![tactic(auto)]

use cost::amounts::Slots;
use ledger::cell::Cell;
use ledger::cells::row_cell;
use masks::MaskShelf;
use shelf::literal::Literal;
use shelf::store::Shelf;
use signatures::SignatureLayer;
use std::io;
use telling::desk::Desk;

// Opens the case and says what is wanted.
fn fill_wishes<S: Shelf>(desk: &mut Desk<'_, S>) -> io::Result<()> {
    desk.open(3)?;
    desk.hard(
        0,
        &[Literal::of(1), Literal::of(3)],
        "half the load, over dock 1 or 3",
    )?;
    desk.hard(
        1,
        &[Literal::of(2), Literal::of(3)],
        "the other half, over dock 2 or 3",
    )?;
    desk.soft(2, &[1, 5], &[Literal::of(1), Literal::of(2)], "the parcels")?;
    desk.soft(3, &[0, 10], &[Literal::of(1)], "the post")
}

// Says what each dock costs, and seals the case.
fn fill_docks<S: Shelf>(desk: &mut Desk<'_, S>) -> io::Result<()> {
    desk.soft(4, &[1, 5], &[Literal::not(1)], "dock 1 rests")?;
    desk.soft(5, &[1, 5], &[Literal::not(2)], "dock 2 rests")?;
    desk.soft(6, &[1, 5], &[Literal::not(3)], "dock 3 rests")?;
    desk.seal()
}

// Half the load takes dock 1 or dock 3: the cost of one dock is proved. What is left
// of the two docks' clauses, -1 -3 at place 8, charges for using both.
fn prove_one_dock<S: Shelf>(desk: &mut Desk<'_, S>) -> io::Result<()> {
    desk.resolve(0, 4, 1, 7, "3; -1 -3")?;
    desk.resolve(7, 6, 3, 9, "the empty clause")
}

// The parcels must be taken. Losing them would bring the cost just up to the shown
// plan's, but without docks 1 and 2 the post is late as well: its clause is split on
// dock 2, and the half that says 1 2 is joined to the parcels' clause.
fn harden_parcels<S: Shelf>(desk: &mut Desk<'_, S>) -> io::Result<()> {
    desk.harden(2, "the parcels alone")?;
    desk.split(3, 2, 4, "the post")?;
    desk.join(2, 3, "the parcels, and the post with them")?;
    desk.harden(2, "the parcels and the post")
}

// That dock 1 or dock 3 rests gets a name, variable 4: what is left of their clauses
// becomes the one literal 4, at place 14.
fn name_the_rest<S: Shelf>(desk: &mut Desk<'_, S>) -> io::Result<()> {
    desk.define(
        4,
        9,
        &[Literal::not(1), Literal::not(3)],
        "dock 1 or dock 3 rests",
    )?;
    desk.resolve(10, 8, 1, 12, "-3 4; -1 -3 -4")?;
    desk.resolve(11, 12, 3, 14, "4")
}

// Where dock 1 or dock 3 rests, dock 2 is used, by the parcels or by the load: hard
// 2 -4 at place 3. So a second dock is used either way, and its cost is proved.
fn prove_second_dock<S: Shelf>(desk: &mut Desk<'_, S>) -> io::Result<()> {
    desk.resolve(2, 9, 1, 15, "hard 2 -3 -4")?;
    desk.resolve(1, 15, 3, 3, "hard 2 -4")?;
    desk.resolve(3, 5, 2, 6, "-4; -2 4")?;
    desk.resolve(14, 6, 4, 8, "the empty clause")
}

// Sixteen places, and a cell for each.
fn main(rt: HostRuntime) -> io::Result<()> {
    let mut words = [0u64; 32];
    let mut ledger = [row_cell::<Slots>(Cell::Hard); 16];
    let shelf = SignatureLayer::new(MaskShelf::new(&mut words));
    let mut desk = Desk::new(&rt, shelf, &mut ledger);
    fill_wishes(&mut desk)?;
    fill_docks(&mut desk)?;
    desk.show(&[1, 1, 0], "docks 1 and 2 are used")?;
    prove_one_dock(&mut desk)?;
    harden_parcels(&mut desk)?;
    name_the_rest(&mut desk)?;
    prove_second_dock(&mut desk)?;
    desk.cheapest("")
}
