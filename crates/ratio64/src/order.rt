//! The order of fractions.

use crate::Ratio;
use crate::reduction::product;
use std::cmp::Ordering;

/// Fractions compare as numbers. `Ratio::zero().max(Ratio::one())` is `Ratio::one()`.
impl Ord for Ratio {
    ghost use Rattle.std.specs.Prelude.{refl};
    ghost use Rattle.ratio64.specs.Fraction.{fraction_cmp};
    ghost use Rattle.ratio64.specs.FractionOrder.{order_is_total, ties_of_reduced};
    ghost use Rattle.ratio64.specs.Ratio.{num_of, den_of};

    ghost cmp = { λ x y. fraction_cmp (num_of x) (den_of x) (num_of y) (den_of y) };

    ghost total = { order_is_total _ num_of den_of (λ x. x.reduced.positive) };

    ghost matches_partial_cmp = { λ x y. refl };

    ghost matches_eq = { λ x y. ties_of_reduced x.reduced y.reduced };

    #[tactic(auto, using(crate::proofs::WideSums::numbers_read))]
    fn cmp(&self, other: &Self) -> Ordering {
        product(self.num(), other.den()).cmp(&product(other.num(), self.den()))
    }
}

impl PartialOrd for Ratio {
    ghost use Rattle.std.specs.Prelude.{refl};
    ghost use Rattle.std.specs.Cmp.{partial_order_from_agreeing_total};
    ghost use Rattle.std.specs.Ordering.{as_partial_cmp};
    ghost use Rattle.ratio64.specs.Fraction.{fraction_cmp};
    ghost use Rattle.ratio64.specs.FractionOrder.{order_is_total, ties_of_reduced};
    ghost use Rattle.ratio64.specs.Ratio.{num_of, den_of};

    ghost partial_cmp = { as_partial_cmp
        (λ x y. fraction_cmp (num_of x) (den_of x) (num_of y) (den_of y)) };

    ghost laws = { partial_order_from_agreeing_total
        (λ x y. fraction_cmp (num_of x) (den_of x) (num_of y) (den_of y))
        (order_is_total _ num_of den_of (λ x. x.reduced.positive))
        (λ x y. refl)
        (λ x y. ties_of_reduced x.reduced y.reduced) };

    fn partial_cmp(&self, other: &Self) -> Option<Ordering> {
        Some(self.cmp(other))
    }
}
