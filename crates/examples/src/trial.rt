// One example on one pile: every call with the answer that it must get, and then what
// must stand at each place.
use bench::case::Bench;
use cost::kind::CostKind;
use faults::fault::Fault;
use ledger::cell::Cell;
use ledger::cells::read_cell;
use shelf::literal::Literal;
use shelf::store::Shelf;
use std::process::Abort;

// A call. Figures are those of the last tiers: a kind with more tiers has 0 before.
// No closure: a pointer to one that is generic over the kind and the shelf gets no proof.
#[derive(Clone, Copy)]
pub enum Call<'a> {
    Open(u16),
    Hard(usize, &'a [Literal]),
    Soft(usize, &'a [i64], &'a [Literal]),
    Seal,
    Show(&'a [u8]),
    Split(usize, u16, usize),
    Join(usize, usize),
    Resolve(usize, usize, u16, usize),
    Define(usize, &'a [Literal]),
    Harden(usize),
    Cheapest,
    Impossible,
}

// What a call is granted. A cost is told by its last two tiers, 0 where there is only one.
#[derive(Clone, Copy, PartialEq, Eq, Debug)]
pub enum Grant {
    Done,
    Shown((i64, i64), usize),
    Cheapest((i64, i64)),
}

// A refusal, by its number and its tier, as the rules tell their examples.
#[derive(Clone, Copy, PartialEq, Eq, Debug)]
pub struct Refused(pub u8, pub u8);

// A bench's fault goes up by `?` as its number and its tier.
impl From<Fault> for Refused {
    fn from(fault: Fault) -> Refused {
        Refused(fault.number(), fault.tier())
    }
}

// A call and the answer that it must get.
#[derive(Clone, Copy)]
pub struct Step<'a>(pub Call<'a>, pub Result<Grant, Refused>);

// The codes that must stand at a place, and its cell, with an amount told as a cost is.
#[derive(Clone, Copy)]
pub struct Place<'a>(pub &'a [u32], pub Cell<(i64, i64)>);

// The calls, the places from 0 on after them, and the proved cost then.
#[derive(Clone, Copy)]
pub struct Example<'a> {
    pub steps: &'a [Step<'a>],
    pub places: &'a [Place<'a>],
    pub proved: (i64, i64),
}

// The figures of the last two tiers.
fn figures<K: CostKind>(amount: K::Amount) -> (i64, i64) {
    let last = K::tiers();
    (K::figure(amount, last - 1), K::figure(amount, last))
}

// A bench on trial, with its shelf and its ledger. A call that only reads one of them is
// lent it as `&mut *`: there is no proof rule for `&*` in its place.
#[derive(Drop)]
pub struct Trial<'a, K: CostKind, S> {
    bench: Bench<K>,
    shelf: &'a mut S,
    ledger: &'a mut [Cell<K::Row>],
}

impl<'a, K: CostKind, S: Shelf> Trial<'a, K, S> {
    // A trial with no case yet.
    pub fn new(shelf: &'a mut S, ledger: &'a mut [Cell<K::Row>]) -> Trial<'a, K, S> {
        Trial {
            bench: Bench::<K>::new(),
            shelf,
            ledger,
        }
    }

    // Gives a soft clause, with zeros for the tiers before its figures.
    fn soft(&mut self, place: usize, last: &[i64], clause: &[Literal]) -> Result<(), Fault> {
        // 14 tiers are the most that a kind may have; an array, since the zeros come first and a
        // part is lent, which a vector would need a loop for
        let mut figures = [0i64; 14];
        let tiers = K::tiers();
        if last.len() >= tiers {
            return self
                .bench
                .soft(self.shelf, self.ledger, place, last, clause);
        }
        figures[tiers - last.len()..tiers].copy_from_slice(last);
        self.bench
            .soft(self.shelf, self.ledger, place, &figures[..tiers], clause)
    }

    // Makes one call.
    fn make(&mut self, call: Call<'_>) -> Result<Grant, Refused> {
        match call {
            Call::Open(n) => self.bench.open(self.shelf, self.ledger, n)?,
            Call::Hard(place, clause) => self.bench.hard(self.shelf, self.ledger, place, clause)?,
            Call::Soft(place, last, clause) => self.soft(place, last, clause)?,
            Call::Seal => self.bench.seal(&mut *self.shelf, &mut *self.ledger)?,
            Call::Show(strip) => {
                let (cost, unmet) = self.bench.show(&mut *self.shelf, &mut *self.ledger, strip)?;
                return Ok(Grant::Shown(figures::<K>(cost), unmet));
            }
            Call::Split(place, v, to) => self.bench.split(self.shelf, self.ledger, place, v, to)?,
            Call::Join(i, j) => self.bench.join(self.shelf, self.ledger, i, j)?,
            Call::Resolve(i, j, v, to) => self.bench.resolve(self.shelf, self.ledger, i, j, v, to)?,
            Call::Define(to, literals) => self.bench.define(self.shelf, self.ledger, to, literals)?,
            Call::Harden(place) => self.bench.harden(&mut *self.shelf, self.ledger, place)?,
            Call::Cheapest => {
                let cost = self.bench.cheapest(&mut *self.shelf, &mut *self.ledger)?;
                return Ok(Grant::Cheapest(figures::<K>(cost)));
            }
            Call::Impossible => self.bench.impossible(&mut *self.shelf, &mut *self.ledger)?,
        }
        Ok(Grant::Done)
    }

    // Whether a place holds exactly these codes.
    fn holds_codes(&self, place: usize, codes: &[u32]) -> bool {
        if self.shelf.size(place) != codes.len() {
            return false;
        }
        codes.iter().enumerate().all(|(k, code)| {
            let literal = Literal { code: *code };
            self.shelf.literal(place, k) == literal && self.shelf.holds(place, literal)
        })
    }

    // The cell of a place, with an amount told as a cost is.
    fn told_cell(&self, place: usize) -> Cell<(i64, i64)> {
        match read_cell::<K>(self.ledger, place) {
            Cell::Hard => Cell::Hard,
            Cell::Soft(amount) => Cell::Soft(figures::<K>(amount)),
        }
    }

    // A new bench gets every call of an example, and each answer and every place is
    // compared.
    pub fn run(&mut self, rt: &impl Abort, example: &Example<'_>) {
        self.bench = Bench::<K>::new();
        for (k, Step(call, answer)) in example.steps.iter().enumerate() {
            assert_eq!(rt; self.make(*call), *answer, "at step {k}");
        }
        for (p, Place(codes, cell)) in example.places.iter().enumerate() {
            assert!(rt; self.holds_codes(p, codes), "the codes at {p}");
            assert_eq!(rt; self.told_cell(p), *cell, "the cell at {p}");
        }
        assert_eq!(rt; figures::<K>(self.bench.proved()), example.proved);
    }

    // All examples of a list, one after another on one pile.
    pub fn run_all(&mut self, rt: &impl Abort, examples: &[Example<'_>]) {
        for example in examples {
            self.run(rt, example);
        }
    }
}
