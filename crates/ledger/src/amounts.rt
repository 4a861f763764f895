// An amount as it is given: figures, of which the bench asks whether they fit.
ghost use Rattle.std.specs.Prelude.{◌≡◌};
ghost use Rattle.std.specs.Ordering.{is_eq};
ghost use Rattle.cost.specs.Figures.{zeros, order};
ghost use Rattle.cost.specs.Kinds.{Kind};
ghost use Rattle.rules.specs.Filling.{none_negative};
ghost use Rattle.ledger.specs.Given.{taken_in, taken_told};

use cost::kind::CostKind;

// Whether an amount is nothing.
pub(crate) fn is_zero<K: CostKind>(amount: K::Amount) -> bool
    ensures { result ≡ is_eq (order (K.kind.figures amount) (zeros K.kind.scale.tiers)) }
{
    K::compare(amount, K::nothing()).is_eq()
}

// Whether no figure is below 0.
fn no_negative(figures: &[i64]) -> bool
    ensures { result ≡ none_negative figures.now }
{
    figures.iter().all(|x| *x >= 0)
}

// The amount of the figures, and the total with it, where there are as many figures
// as tiers, each from 0 to the reach, not all 0, and the total stays in reach.
pub fn take_amount<K: CostKind>(figures: &[i64], total: K::Amount) -> Option<(K::Amount, K::Amount)>
    ensures { taken_told K.kind.figures result ≡ taken_in K.kind.scale (K.kind.figures total) figures.now }
{
    let amount = K::make(figures).ok()?;
    if !no_negative(figures) {
        return None;
    }
    if is_zero::<K>(amount) {
        return None;
    }
    let sum = K::sum(total, amount).ok()?;
    Some((amount, sum))
}
