// How amounts print.
ghost use Rattle.std.specs.Prelude.{Some};
ghost use Rattle.cost.specs.Printed.{minutes_text, slots_text};

use crate::amounts::{Minutes, Slots};
use std::fmt;

// As "20 minutes".
impl fmt::Display for Minutes {
    ghost output = { λ a. Some (minutes_text a.minutes) };

    fn fmt<W: fmt::Write>(&self, f: &mut fmt::Formatter<W>) -> fmt::Result {
        let minutes = self.minutes;
        write!(f, "{minutes} minutes")
    }
}

// As "1 slot 5 minutes" and "2 slots 10 minutes".
impl fmt::Display for Slots {
    ghost output = { λ a. Some (slots_text a.slots a.minutes) };

    fn fmt<W: fmt::Write>(&self, f: &mut fmt::Formatter<W>) -> fmt::Result {
        let (slots, minutes) = (self.slots, self.minutes);
        let unit = if slots == 1 { "slot" } else { "slots" };
        write!(f, "{slots} {unit} {minutes} minutes")
    }
}
