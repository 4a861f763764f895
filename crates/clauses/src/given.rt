// A clause as it is given: a slice of literals. It is asked whether its variables
// rise, and its codes are copied to scratch memory.
ghost use Rattle.std.specs.Prelude.{◌≡◌, ℕ, map, take};
ghost use Rattle.clauses.specs.Codes.{codes as codes_of};
ghost use Rattle.rules.specs.Case.{known};
ghost use Rattle.rules.specs.Clauses.{rises as rises_to};

use shelf::literal::Literal;
use shelf::places::ClauseCodes;
use shelf::store::Shelf;

// What has the code of a literal: a literal, or in scratch memory the code alone.
pub trait Coded {
    ghost code_of: { Self → ℕ };

    fn code(&self) -> u32
        ensures { result ≡ code_of self.now };
}

impl Coded for Literal {
    ghost code_of = { λ l. l.code };

    // Its code.
    fn code(&self) -> u32 {
        self.code
    }
}

impl Coded for u32 {
    ghost code_of = { λ c. c };

    // The code itself.
    fn code(&self) -> u32 {
        *self
    }
}

// Puts the codes of a clause into a vector, in the place of what it had; of a clause with more
// than 255 literals those of the first 255.
pub fn copy_codes(clause: &[Literal], codes: &mut ClauseCodes)
    ensures { codes.new.items ≡ take 255 (codes_of clause.now) }
{
    codes.clear();
    for literal in &clause[..clause.len().min(255)] {
        codes.push(literal.code);
    }
}

// The highest variable that a literal may have: at most n, and at most the shelf's.
pub fn known_variables<S: Shelf>(shelf: &S, n: u16) -> usize
    ensures { S.fine shelf.now → result ≡ known n (S.view shelf.now) }
{
    usize::from(n).min(shelf.highest_variable())
}

// Whether the variables rise strictly, each from 1 to the highest.
pub fn rises<C: Coded>(clause: &[C], highest: usize) -> bool
    ensures { result ≡ rises_to highest 0 (map C.code_of clause.now) }
{
    let mut last: usize = 0;
    for c in clause {
        let variable = c.code() as usize / 2;
        if variable <= last || variable > highest {
            return false;
        }
        last = variable;
    }
    true
}
