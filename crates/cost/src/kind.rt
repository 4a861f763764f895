// What a cost kind offers. Every step, question and answer of the bench is
// written once over this trait. It has no bodies of its own: each is a line over the kind's own
// operators, and would here need a law for each operator.
ghost use Rattle.std.specs.Prelude.{◌≡◌, length, not, ◌==◌, IfErr};
ghost use Rattle.cost.specs.Figures.{zeros, plus, minus, order, figure_at};
ghost use Rattle.cost.specs.Kinds.{Kind, Lawful, meant, meant_made};
ghost use Rattle.cost.specs.Misfits.{is_wrong_length};
ghost use Rattle.cost.specs.Reach.{reached, made_of};
ghost use Rattle.std.specs.Ordering.{is_gt};

use crate::misfit::Misfit;
use crate::tier::Tier;
use std::cmp::Ordering;

pub trait CostKind {
    // An amount; its type keeps every figure in reach.
    type Amount: Copy;

    // An amount as it lies in a slice; its type keeps nothing.
    type Row: Copy;

    ghost kind: { Kind Self.Amount Self.Row };

    // How many tiers an amount has, 1 to 14.
    fn tiers() -> usize
        ensures { result ≡ kind.scale.tiers };

    // The amount of which every figure is 0.
    fn nothing() -> Self::Amount
        ensures { kind.figures result ≡ zeros kind.scale.tiers };

    // The amount of these figures. A list of the wrong length is refused first, and told by 0.
    fn make(figures: &[i64]) -> Result<Self::Amount, Misfit>
        ensures made { meant_made kind.figures result ≡ made_of kind.scale figures.now }
        ensures misfit { IfErr result (λ m. is_wrong_length m ≡ not (length figures.now == kind.scale.tiers)) };

    // The figure of a tier, counted from 1; 0 where there is no such tier, as the rules have it.
    fn figure(a: Self::Amount, tier: usize) -> i64
        ensures { result ≡ figure_at (kind.figures a) tier };

    // How a compares with b: the first tier that differs decides.
    fn compare(a: Self::Amount, b: Self::Amount) -> Ordering
        ensures { result ≡ order (kind.figures a) (kind.figures b) };

    fn sum(a: Self::Amount, b: Self::Amount) -> Result<Self::Amount, Tier>
        ensures { meant kind.figures result ≡ reached kind.scale (plus (kind.figures a) (kind.figures b)) };

    fn difference(a: Self::Amount, b: Self::Amount) -> Result<Self::Amount, Tier>
        ensures { meant kind.figures result ≡ reached kind.scale (minus (kind.figures a) (kind.figures b)) };

    // Whether the exact sum of a and b, in reach or not, is greater than c.
    fn exceeds(a: Self::Amount, b: Self::Amount, c: Self::Amount) -> bool
        ensures { result ≡ is_gt (order (plus (kind.figures a) (kind.figures b)) (kind.figures c)) };

    // The amount as a row.
    fn row(a: Self::Amount) -> Self::Row
        ensures { result ≡ kind.row a };

    // The amount whose row this is; nothing where it is no amount's row.
    fn read(row: Self::Row) -> Self::Amount
        ensures { kind.figures result ≡ kind.back row };

    ghost lawful: { Lawful kind };
}
