// Calls of a bench that are told: what was asked, what was answered, and the proved cost so
// far. A desk makes them, and the functions here print them. They take a bench and no desk, for
// a caller that holds a bench alone.

#![tactic(auto)]

use crate::wording::{AtCost, Bill};
use bench::case::Bench;
use cost::amounts::Slots;
use faults::fault::Fault;
use std::fmt::Display;
use std::io;

pub mod desk;
mod wording;

// Prints a call by what was asked, and what was granted, or which question refused it. A match,
// since each arm prints in words of its own.
fn tell_answer<A: Display + Drop, G: Display + Drop>(
    rt: &HostRuntime,
    asked: A,
    answer: Result<G, Fault>,
    bench: &Bench<Slots>,
) -> io::Result<()> {
    println!(rt; "{asked}")?;
    match answer {
        Ok(granted) => println!(rt; "    {granted}")?,
        Err(fault) => println!(rt; "    refused by question {}: {fault:?}", fault.number())?,
    }
    println!(rt; "    proved so far: {}", bench.proved())
}

// Prints a call that answers only that it is granted.
pub fn tell<A: Display + Drop>(
    rt: &HostRuntime,
    asked: A,
    answer: Result<(), Fault>,
    bench: &Bench<Slots>,
) -> io::Result<()> {
    tell_answer(rt, asked, answer.map(|_| "granted"), bench)
}

// Prints what a show answered.
pub fn tell_shown<A: Display + Drop>(
    rt: &HostRuntime,
    asked: A,
    answer: Result<(Slots, usize), Fault>,
    bench: &Bench<Slots>,
) -> io::Result<()> {
    tell_answer(
        rt,
        asked,
        answer.map(|(cost, unmet)| Bill { cost, unmet }),
        bench,
    )
}

// Prints what a claim of cheapest answered.
pub fn tell_claim<A: Display + Drop>(
    rt: &HostRuntime,
    asked: A,
    answer: Result<Slots, Fault>,
    bench: &Bench<Slots>,
) -> io::Result<()> {
    tell_answer(rt, asked, answer.map(AtCost), bench)
}
