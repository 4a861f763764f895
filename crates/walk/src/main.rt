// Walks one courier's case from its opening to its claim, and prints for each
// call what was asked, what was answered, and the proved cost so far.
//
// An early van can run (1), a second parcel can ride with it (2), and dock 3 can
// be kept for it (3). A parcel that rides along needs the dock. Without the van a
// delivery is 30 minutes late; a van that leaves the parcel behind costs 20
// minutes; keeping the dock loses a slot. A lost slot outweighs any minutes.

#![tactic(auto)]

use cost::amounts::Slots;
use ledger::cell::Cell;
use ledger::cells::row_cell;
use rows::RowShelf;
use shelf::literal::Literal;
use shelf::store::Shelf;
use std::io;
use telling::desk::Desk;

// Opens the case and gives its clauses.
fn fill<S: Shelf>(desk: &mut Desk<'_, S>) -> io::Result<()> {
    desk.open(3)?;
    desk.hard(
        0,
        &[Literal::not(2), Literal::of(3)],
        "a parcel that rides along needs the dock",
    )?;
    desk.soft(1, &[0, 30], &[Literal::of(1)], "the van runs")?;
    desk.soft(
        2,
        &[0, 20],
        &[Literal::not(1), Literal::of(2)],
        "the van takes the parcel",
    )?;
    desk.soft(3, &[1, 0], &[Literal::not(3)], "the dock stays free")?;
    desk.seal()
}

// Makes the steps of the log, each a resolve.
fn resolve_all<S: Shelf>(desk: &mut Desk<'_, S>) -> io::Result<()> {
    desk.resolve(1, 2, 1, 4, "")?;
    desk.resolve(4, 0, 2, 6, "")?;
    desk.resolve(6, 3, 3, 2, "")
}

// Eight places of up to three literals over three variables, and a cell for each.
fn main(rt: HostRuntime) -> io::Result<()> {
    let mut words = [0u32; 32];
    let mut ledger = [row_cell::<Slots>(Cell::Hard); 8];
    let mut desk = Desk::new(&rt, RowShelf::new(&mut words, 3, 3), &mut ledger);
    fill(&mut desk)?;
    desk.show(&[1, 0, 0], "the van runs without the parcel")?;
    desk.cheapest("before the log has proved it")?;
    resolve_all(&mut desk)?;
    desk.cheapest("")
}
