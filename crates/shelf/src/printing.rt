// How a literal prints.
ghost use Rattle.std.specs.Prelude.{Some};
ghost use Rattle.shelf.specs.Printed.{literal_text};

use crate::literal::Literal;
use std::fmt;

// As "3", and as "-3" where it is the opposite.
impl fmt::Display for Literal {
    ghost output = { λ l. Some (literal_text l.code) };

    fn fmt<W: fmt::Write>(&self, f: &mut fmt::Formatter<W>) -> fmt::Result {
        let sign = if self.code % 2 == 0 { "" } else { "-" };
        let variable = self.variable();
        write!(f, "{sign}{variable}")
    }
}
