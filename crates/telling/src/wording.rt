// What is printed, in words.
use cost::amounts::Slots;
use cost::kind::CostKind;
use std::fmt;

// A shown plan's cost, and how many soft clauses it leaves unmet.
#[derive(Clone, Copy)]
pub(crate) struct Bill {
    pub cost: Slots,
    pub unmet: usize,
}

impl fmt::Display for Bill {
    fn fmt<W: fmt::Write>(&self, f: &mut fmt::Formatter<W>) -> fmt::Result {
        let cost = self.cost;
        let unmet = self.unmet;
        write!(f, "costs {cost}, soft clauses unmet: {unmet}")
    }
}

// A granted claim, by the cost that it is granted at.
#[derive(Clone, Copy)]
pub(crate) struct AtCost(pub Slots);

impl fmt::Display for AtCost {
    fn fmt<W: fmt::Write>(&self, f: &mut fmt::Formatter<W>) -> fmt::Result {
        let cost = self.0;
        write!(f, "granted: the shown plan is cheapest, at {cost}")
    }
}

// Literals or values, each after a space.
#[derive(Clone, Copy)]
pub(crate) struct Spaced<'a, T>(pub &'a [T]);

impl<T: fmt::Display + Drop> fmt::Display for Spaced<'_, T> {
    fn fmt<W: fmt::Write>(&self, f: &mut fmt::Formatter<W>) -> fmt::Result {
        for item in self.0 {
            write!(f, " {item}")?;
        }
        Ok(())
    }
}

// The amount of some figures; the figures themselves where they make none.
#[derive(Clone, Copy)]
pub(crate) struct Figures<'a>(pub &'a [i64]);

impl fmt::Display for Figures<'_> {
    fn fmt<W: fmt::Write>(&self, f: &mut fmt::Formatter<W>) -> fmt::Result {
        let figures = self.0;
        match Slots::make(figures) {
            Ok(amount) => write!(f, "{amount}"),
            Err(_) => write!(f, "{figures:?}"),
        }
    }
}

// A remark on what is asked; nothing where it is empty. A text and no Option, so that a call
// is written with its remark alone.
#[derive(Clone, Copy)]
pub(crate) enum Remark<'a> {
    InBrackets(&'a str),
    AfterComma(&'a str),
}

impl fmt::Display for Remark<'_> {
    fn fmt<W: fmt::Write>(&self, f: &mut fmt::Formatter<W>) -> fmt::Result {
        match *self {
            Remark::InBrackets(text) | Remark::AfterComma(text) if text.is_empty() => Ok(()),
            Remark::InBrackets(text) => write!(f, " ({text})"),
            Remark::AfterComma(text) => write!(f, ", {text}"),
        }
    }
}
