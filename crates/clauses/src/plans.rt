// Plans as strips of bytes, the value of variable 1 first. Bytes and no `bool`: a strip is taken
// as it comes, and one with another byte has a refusal of its own.
ghost use Rattle.std.specs.Prelude.{◌≡◌};
ghost use Rattle.rules.specs.Plans.{value, makes_true, meets, is_whole_plan as is_plan_of};
ghost use Rattle.shelf.specs.View.{clause};

use shelf::literal::Literal;
use shelf::store::Shelf;

// Whether the strip has exactly n bytes, each 0 or 1.
pub fn is_plan(strip: &[u8], n: usize) -> bool
    ensures { result ≡ is_plan_of n strip.now }
{
    strip.len() == n && strip.iter().all(|b| *b <= 1)
}

// The value of a variable, counted from 1; 0 past the strip's end, and for 0, which
// is no variable.
fn value_of(strip: &[u8], variable: usize) -> u8
    ensures { result ≡ value strip.now variable }
{
    if variable == 0 {
        return 0;
    }
    strip.get(variable - 1).copied().unwrap_or(0)
}

// Whether the plan makes the literal true; a variable past the strip has the value 0.
fn makes_literal_true(strip: &[u8], literal: Literal) -> bool
    ensures { result ≡ makes_true strip.now literal.code }
{
    let is_one = value_of(strip, literal.variable() as usize) == 1;
    if literal.code % 2 == 0 {
        is_one
    } else {
        !is_one
    }
}

// Whether the plan makes some literal at the place true.
pub fn meets_place<S: Shelf>(shelf: &S, place: usize, strip: &[u8]) -> bool
    ensures { S.fine shelf.now → result ≡ meets strip.now (clause (S.view shelf.now) place) }
{
    (0..shelf.size(place)).any(|k| makes_literal_true(strip, shelf.literal(place, k)))
}
