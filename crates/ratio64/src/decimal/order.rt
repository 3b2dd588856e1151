//! The order of decimal numbers, whatever their places.

ghost use Rattle.std.specs.Prelude.{◌≡◌, ◌^◌, ◌≤ℤ◌, ◌<ℤ◌, ◌+ℤ◌, ◌*ℤ◌, pos, refl};
ghost use Rattle.std.specs.Cmp.{int_cmp_total, int_eq_equiv, on_equiv, on_per, on_po, on_total, partial_equiv_from_equiv, signed_Decides, signed_po};
ghost use Rattle.std.specs.Int.{int_wrap, w128};
ghost use Rattle.std.specs.Ordering.{as_partial_cmp, int_cmp, int_eq};
ghost use Rattle.ratio64.specs.Decimal.{quintillionths_of};

use crate::Decimal;
use num_integer::div_mod_floor;
use std::cmp::Ordering;
use std::hash::{Hash, Hasher};

impl Decimal {
    /// Returns the number rounded down, and the rest in quintillionths.
    fn whole_and_rest(&self) -> (i128, i128)
        ensures number { quintillionths_of self.now ≡ result.0 *ℤ pos (10 ^ 18) +ℤ result.1 }
        ensures rest { (pos 0 ≤ℤ result.1) × (result.1 <ℤ pos (10 ^ 18)) }
    {
        let (whole, rest) = div_mod_floor(self.units, 10_i128.pow(self.places));
        (whole, rest * 10_i128.pow(18 - self.places))
    }
}

/// Numbers are equal, whatever their places. `Decimal::new(5, 1) == Decimal::new(50, 2)` is `true`.
impl PartialEq for Decimal {
    ghost eq = { λ x y. int_eq (quintillionths_of x) (quintillionths_of y) };

    ghost laws = { on_per quintillionths_of (partial_equiv_from_equiv int_eq_equiv) };

    fn eq(&self, other: &Self) -> bool {
        self.cmp(other).is_eq()
    }
}

impl Eq for Decimal {
    ghost laws = { on_equiv quintillionths_of int_eq_equiv };
}

/// Equal numbers have one hash, whatever their places.
impl Hash for Decimal {
    ghost use Rattle.std.specs.Hash as fed;
    ghost use Rattle.std.proofs.Common.{ap};

    ghost hash_input = { λ x. fed.i128 (int_wrap w128 (quintillionths_of x)) };

    ghost respects_eq = { λ x y same. ap (λ z. fed.i128 (int_wrap w128 z))
        ((signed_Decides (quintillionths_of x) (quintillionths_of y)).0 same) };

    fn hash<H: Hasher>(&self, state: &mut H) {
        self.units
            .wrapping_mul(10_i128.pow(18 - self.places))
            .hash(state);
    }
}

/// Decimal numbers compare as numbers. `Decimal::new(5, 1).max(Decimal::new(49, 2))` is `Decimal::new(50, 2)`.
impl Ord for Decimal {
    ghost cmp = { λ x y. int_cmp (quintillionths_of x) (quintillionths_of y) };

    ghost total = { on_total quintillionths_of int_cmp_total };

    ghost matches_partial_cmp = { λ x y. refl };

    ghost matches_eq = { λ x y. refl };

    fn cmp(&self, other: &Self) -> Ordering {
        if self.places == other.places {
            return self.units.cmp(&other.units);
        }
        self.whole_and_rest().cmp(&other.whole_and_rest())
    }
}

impl PartialOrd for Decimal {
    ghost partial_cmp = { as_partial_cmp (λ x y. int_cmp (quintillionths_of x) (quintillionths_of y)) };

    ghost laws = { on_po quintillionths_of signed_po };

    fn partial_cmp(&self, other: &Self) -> Option<Ordering> {
        Some(self.cmp(other))
    }
}
