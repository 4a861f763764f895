// The two masks of one place. What is asked of a clause is asked here of words:
// a count of bits for its size, one bit for a literal, and the bits in turn,
// lowest first, for its literals by rising code.
ghost use Rattle.std.specs.Prelude.{◌≡◌, ◌<◌, ◌≤◌, length, drop, ◌==◌, bit_and, slice_index};
ghost use Rattle.shelf.specs.Literals.{among, stands};
ghost use Rattle.masks.specs.Digits.{bit as digit, variables};
ghost use Rattle.masks.specs.Masks.{codes_of};

use shelf::literal::Literal;

// The highest variable: a mask has a bit for each.
pub(crate) const HIGHEST: u32 = 64;

// The bit v - 1 is set among the literals where that of the variable v stands, and
// among the opposites where its opposite does.
#[derive(Clone, Copy, Default)]
pub(crate) struct Pair {
    pub(crate) literals: u64,
    pub(crate) opposites: u64,
}

impl Pair {
    // How many literals stand.
    #[tactic(auto, using(crate::proofs::Codes::size_ones))]
    pub(crate) fn size(self) -> usize
        ensures low { result ≤ 128 }
        ensures is { result ≡ length (codes_of self.literals self.opposites) }
    {
        (self.literals.count_ones() + self.opposites.count_ones()) as usize
    }

    // Whether a literal stands.
    #[tactic(auto, using(crate::proofs::Codes::among_bit, crate::proofs::Codes::among_none))]
    pub(crate) fn has(self, literal: Literal) -> bool
        ensures { result ≡ among literal.code (codes_of self.literals self.opposites) }
    {
        let variable = literal.variable();
        if !(1..=HIGHEST).contains(&variable) {
            return false;
        }
        if literal.code % 2 == 0 {
            bit(self.literals, variable - 1)
        } else {
            bit(self.opposites, variable - 1)
        }
    }

    // Whether a variable stands, in either sign.
    #[tactic(auto, using(crate::proofs::Codes::stands_bit))]
    pub(crate) fn has_variable(self, variable: u32) -> bool
        requires low { 1 ≤ variable }
        requires high { variable ≤ 64 }
        ensures { result ≡ stands variable (codes_of self.literals self.opposites) }
    {
        bit(self.literals | self.opposites, variable - 1)
    }

    // The k-th literal, from 0, by rising code; code 0 past the size.
    #[tactic(auto, using(crate::proofs::Listing::code_past, crate::proofs::Listing::code_literal, crate::proofs::Listing::code_opposite))]
    pub(crate) fn literal(self, k: usize) -> Literal
        ensures { bit_and self.literals self.opposites ≡ 0 → result.code ≡ slice_index (codes_of self.literals self.opposites) k }
    {
        let left = without_lowest(self.literals | self.opposites, k);
        if left == 0 {
            return Literal { code: 0 };
        }
        let lowest = left.trailing_zeros();
        let variable = lowest as u16 + 1;
        if bit(self.literals, lowest) {
            Literal::of(variable)
        } else {
            Literal::not(variable)
        }
    }
}

// Whether a bit of a mask is set.
fn bit(mask: u64, k: u32) -> bool
    requires { k < 64 }
    ensures { result ≡ (digit k mask == 1) }
{
    (mask >> k) % 2 == 1
}

// A mask without the lowest k of its bits that are set. A loop, since it ends where no
// bit is left, which a fold over 0..k does not.
#[tactic(auto, using(crate::proofs::Listing::lowest_cleared, crate::proofs::Listing::none_left, std::proofs::lemmas::Nat::and_le_l))]
fn without_lowest(mask: u64, k: usize) -> u64
    ensures { variables 64 1 result ≡ drop k (variables 64 1 mask) }
{
    let mut left = mask;
    for _ in 0..k {
        if left == 0 {
            return 0;
        }
        left &= left - 1;
    }
    left
}
