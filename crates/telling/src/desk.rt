// A desk: a bench with the shelf and the ledger of its case, and where its calls are told.
// Each method makes a call of the bench, and prints what was asked and answered. A call that
// only reads the ledger is lent it as `&mut *`: there is no proof rule for `&*` in its place.
ghost use Rattle.std.specs.Prelude.{◌≡◌};
ghost use Rattle.clauses.specs.Codes.{codes as codes_of};
ghost use Rattle.rules.specs.Machine.{opens, gives_hard, gives_soft, seals, shows, splits, joins, resolves, defines, hardens, claims_cheapest, claims_impossible};
ghost use Rattle.telling.specs.Desks.{Made, Does};

use crate::wording::{Figures, Remark, Spaced};
use crate::{tell, tell_claim, tell_shown};
use bench::case::Bench;
use cost::amounts::{Slots, SlotsRow};
use faults::fault::Fault;
use ledger::cell::Cell;
use shelf::literal::Literal;
use shelf::store::Shelf;
use std::fmt::Display;
use std::io;

// Amounts are slots. The desk has the shelf, and is lent the ledger. A remark that is empty
// is not printed. The trials of the examples have a struct of their own, which prints nothing and
// hands the answer on.
#[derive(Drop)]
pub struct Desk<'a, S> {
    rt: &'a HostRuntime,
    bench: Bench<Slots>,
    shelf: S,
    ledger: &'a mut [Cell<SlotsRow>],
}

impl<'a, S: Shelf> Desk<'a, S> {
    // A desk with no case yet.
    pub fn new(rt: &'a HostRuntime, shelf: S, ledger: &'a mut [Cell<SlotsRow>]) -> Desk<'a, S>
        ensures { Made S.view result shelf ledger.old }
    {
        Desk {
            rt,
            bench: Bench::<Slots>::new(),
            shelf,
            ledger,
        }
    }

    // Prints a call that answers only that it is granted.
    fn tell<A: Display + Drop>(&self, asked: A, answer: Result<(), Fault>) -> io::Result<()> {
        tell(self.rt, asked, answer, &self.bench)
    }

    // Opens a case of n variables.
    pub fn open(&mut self, n: u16) -> io::Result<()>
        ensures { Does S.fine S.view self.old self.new (opens n) }
    {
        let answer = self.bench.open(&mut self.shelf, self.ledger, n);
        self.tell(format_args!("open a case of {n} variables"), answer)
    }

    // Gives a hard clause.
    pub fn hard(&mut self, place: usize, clause: &[Literal], remark: &str) -> io::Result<()>
        ensures { Does S.fine S.view self.old self.new (gives_hard place (codes_of clause.now)) }
    {
        let answer = self.bench.hard(&mut self.shelf, self.ledger, place, clause);
        self.tell(
            format_args!(
                "hard at place {place}:{}{}",
                Spaced(clause),
                Remark::InBrackets(remark)
            ),
            answer,
        )
    }

    // Gives a soft clause, with the figures of its amount.
    pub fn soft(
        &mut self,
        place: usize,
        figures: &[i64],
        clause: &[Literal],
        remark: &str,
    ) -> io::Result<()>
        ensures { Does S.fine S.view self.old self.new (gives_soft place figures.now (codes_of clause.now)) }
    {
        let answer = self
            .bench
            .soft(&mut self.shelf, self.ledger, place, figures, clause);
        self.tell(
            format_args!(
                "soft at place {place}:{}, else {}{}",
                Spaced(clause),
                Figures(figures),
                Remark::InBrackets(remark),
            ),
            answer,
        )
    }

    // Ends filling.
    pub fn seal(&mut self) -> io::Result<()>
        ensures { Does S.fine S.view self.old self.new seals }
    {
        let answer = self.bench.seal(&self.shelf, &mut *self.ledger);
        self.tell("seal", answer)
    }

    // Shows a plan, the value of variable 1 first.
    pub fn show(&mut self, plan: &[u8], remark: &str) -> io::Result<()>
        ensures { Does S.fine S.view self.old self.new (shows plan.now) }
    {
        let answer = self.bench.show(&self.shelf, &mut *self.ledger, plan);
        tell_shown(
            self.rt,
            format_args!(
                "show the plan{}{}",
                Spaced(plan),
                Remark::InBrackets(remark)
            ),
            answer,
            &self.bench,
        )
    }

    // Splits the clause at a place on a variable.
    pub fn split(&mut self, place: usize, variable: u16, to: usize, remark: &str) -> io::Result<()>
        ensures { Does S.fine S.view self.old self.new (splits place variable to) }
    {
        let answer = self
            .bench
            .split(&mut self.shelf, self.ledger, place, variable, to);
        self.tell(
            format_args!(
                "split place {place} on variable {variable}, with -{variable} to place {to}{}",
                Remark::InBrackets(remark),
            ),
            answer,
        )
    }

    // Joins two places.
    pub fn join(&mut self, i: usize, j: usize, remark: &str) -> io::Result<()>
        ensures { Does S.fine S.view self.old self.new (joins i j) }
    {
        let answer = self.bench.join(&mut self.shelf, self.ledger, i, j);
        self.tell(
            format_args!("join places {i} and {j}{}", Remark::InBrackets(remark)),
            answer,
        )
    }

    // Resolves two places on a variable.
    pub fn resolve(
        &mut self,
        i: usize,
        j: usize,
        variable: u16,
        to: usize,
        remark: &str,
    ) -> io::Result<()>
        ensures { Does S.fine S.view self.old self.new (resolves i j variable to) }
    {
        let answer = self
            .bench
            .resolve(&mut self.shelf, self.ledger, i, j, variable, to);
        self.tell(
            format_args!(
                "resolve places {i} and {j} on variable {variable}, results from place {to}{}",
                Remark::InBrackets(remark),
            ),
            answer,
        )
    }

    // Defines the next variable, whose number the caller tells.
    pub fn define(
        &mut self,
        variable: u16,
        to: usize,
        literals: &[Literal],
        remark: &str,
    ) -> io::Result<()>
        ensures { Does S.fine S.view self.old self.new (defines to (codes_of literals.now)) }
    {
        let answer = self
            .bench
            .define(&mut self.shelf, self.ledger, to, literals);
        self.tell(
            format_args!(
                "define variable {variable} from place {to}:{}{}",
                Spaced(literals),
                Remark::InBrackets(remark),
            ),
            answer,
        )
    }

    // Makes the soft clause at a place hard.
    pub fn harden(&mut self, place: usize, remark: &str) -> io::Result<()>
        ensures { Does S.fine S.view self.old self.new (hardens place) }
    {
        let answer = self.bench.harden(&self.shelf, self.ledger, place);
        self.tell(
            format_args!("harden place {place}{}", Remark::InBrackets(remark)),
            answer,
        )
    }

    // Claims that the shown plan is cheapest.
    pub fn cheapest(&mut self, remark: &str) -> io::Result<()>
        ensures { Does S.fine S.view self.old self.new claims_cheapest }
    {
        let answer = self.bench.cheapest(&self.shelf, &mut *self.ledger);
        tell_claim(
            self.rt,
            format_args!("claim cheapest{}", Remark::AfterComma(remark)),
            answer,
            &self.bench,
        )
    }

    // Claims that no plan meets every hard clause.
    pub fn impossible(&mut self, remark: &str) -> io::Result<()>
        ensures { Does S.fine S.view self.old self.new claims_impossible }
    {
        let answer = self.bench.impossible(&self.shelf, &mut *self.ledger);
        self.tell(
            format_args!("claim impossible{}", Remark::AfterComma(remark)),
            answer,
        )
    }
}
