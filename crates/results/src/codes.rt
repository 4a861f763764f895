// Clauses in scratch memory, as vectors of literal codes that rise, and what is
// made of them. What is made goes into a vector that is lent, in the place of what it had.
ghost use Rattle.std.specs.Prelude.{◌≡◌, ◌==◌, ℕ, ◌<◌, ◌≤◌, length, drop};
ghost use Rattle.rules.specs.Clauses.{merge as union, vanishes, without as left_without};
ghost use Rattle.results.specs.Turned.{turned};
ghost use Rattle.shelf.specs.Literals.{opposite as opposite_of, put as put_in};
ghost use Rattle.results.specs.Spread.{Spread};

use arrayvec::ArrayVec;
use shelf::literal::Literal;
use shelf::places::ClauseCodes;

// The codes of a result: at most those of two clauses.
pub(crate) type ResultCodes = ArrayVec<u32, 510>;

// The codes but for one.
pub(crate) fn without(codes: &ClauseCodes, code: u32, rest: &mut ClauseCodes)
    ensures { rest.new.items ≡ left_without code codes.now.items }
{
    rest.clear();
    for c in codes.iter() {
        if code != *c {
            rest.push(*c);
        }
    }
}

// The codes with one more, put in before the first greater one.
pub(crate) fn put(codes: &[u32], code: u32, more: &mut ResultCodes)
    requires { length codes.now < 510 }
    ensures { more.new.items ≡ put_in code codes.now }
{
    let at = codes.iter().position(|c| code < *c).unwrap_or(codes.len());
    more.clear();
    let _ = more.try_extend_from_slice(codes);
    more.insert(at, code);
}

// The union of two rising lists. By two indices: to take the fronts of two slices apart takes
// twice the time where clauses are long.
pub(crate) fn merge(x: &ClauseCodes, y: &ClauseCodes, both: &mut ResultCodes)
    ensures { both.new.items ≡ union x.now.items y.now.items }
{
    both.clear();
    let xs = x.as_slice();
    let ys = y.as_slice();
    let mut i: usize = 0;
    let mut j: usize = 0;
    while i < xs.len() && j < ys.len() {
        let a = xs[i];
        let b = ys[j];
        if a < b {
            both.push(a);
            i += 1;
        } else if a == b {
            both.push(a);
            i += 1;
            j += 1;
        } else {
            both.push(b);
            j += 1;
        }
    }
    let _ = both.try_extend_from_slice(&xs[i..]);
    let _ = both.try_extend_from_slice(&ys[j..]);
}

// The codes from the k-th on, the first of them turned into its opposite.
pub(crate) fn turned_from(codes: &ClauseCodes, k: usize, later: &mut ClauseCodes)
    requires { k < length codes.now.items }
    ensures { later.new.items ≡ turned (drop k codes.now.items) }
{
    later.clear();
    if let [first, others @ ..] = &codes[k..] {
        later.push(Literal { code: *first }.opposite().code);
        let _ = later.try_extend_from_slice(others);
    }
}

// Whether one code is the opposite of the other: they differ in the lowest bit alone.
fn opposed(a: u32, b: u32) -> bool
    ensures { result ≡ (b == opposite_of a) }
{
    a ^ b == 1
}

// Whether a literal stands beside its opposite. That the codes rise, here and where results are
// placed, is a premise and no type: they do up to the shelf's highest variable, and a vector of
// codes does not know the shelf.
pub(crate) fn clashes(codes: &[u32]) -> bool
    ensures { (top : ℕ) → Spread top 2 codes.now → result ≡ vanishes codes.now }
{
    codes
        .windows(2)
        .any(|pair| matches!(pair, [a, b] if opposed(*a, *b)))
}
