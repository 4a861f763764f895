// A literal: a variable, or its opposite.
ghost use Rattle.std.specs.Prelude.{◌≡◌, ◌+◌, ◌*◌};
ghost use Rattle.shelf.specs.Literals.{variable as variable_of, opposite as opposite_of};

// The literal of the variable v, from 1 on, has the code 2 · v, and its opposite
// 2 · v + 1. The codes 0 and 1 are of no variable: 0 stands for no literal.
#[derive(Clone, Copy, PartialEq, Eq, Debug)]
pub struct Literal {
    pub code: u32,
}

impl Literal {
    // The literal that is true where the variable is.
    pub fn of(variable: u16) -> Literal
        ensures { result.code ≡ 2 * variable }
    {
        Literal {
            code: 2 * u32::from(variable),
        }
    }

    // The literal that is true where the variable is not.
    pub fn not(variable: u16) -> Literal
        ensures { result.code ≡ 2 * variable + 1 }
    {
        Literal {
            code: 2 * u32::from(variable) + 1,
        }
    }

    pub fn variable(self) -> u32
        ensures { result ≡ variable_of self.code }
    {
        self.code / 2
    }

    pub fn opposite(self) -> Literal
        ensures { result.code ≡ opposite_of self.code }
    {
        if self.code % 2 == 0 {
            Literal {
                code: self.code + 1,
            }
        } else {
            Literal {
                code: self.code - 1,
            }
        }
    }
}
