//! Tests whether a call may be made with its arguments.

ghost use Rattle.std.specs.Prelude.{◌≡◌, ◌≢◌, ◌↔◌, ◌≤ℤ◌, ◌<ℤ◌, ◌+ℤ◌, ◌-ℤ◌, ◌*ℤ◌, pos, unsigned_abs, map, IsTrue, All};
ghost use Rattle.integer_core.specs.Bezout.{HasPair};
ghost use Rattle.integer_core.specs.Division.{EachKind, IsCeiled, IsFloored, IsMultiple, IsQuotient};
ghost use Rattle.integer_core.specs.Divisors.{IsGreatestCommonDivisor, IsLeastCommonMultiple};
ghost use Rattle.integer_core.specs.Range.{EachFits};
ghost use Rattle.num_integer.specs.Coefficient.{coefficient_of};
ghost use Rattle.num_integer.specs.Multinomial.{IsMultinomial};

use crate::checked;
use crate::sign_magnitude::{product_is_within, sum_is_within};
use integer_core::operators::{difference, is_minus_one, is_negative, is_zero};
use integer_core::{Integer, Magnitudes, NativeInteger, lcm_of_magnitudes};

/// Tests whether a call may be made with its arguments. `7.quotient_fits(&0)` is `false`, so `7.div_rem(&0)`
/// may not be called. Your own type implements `parts` and `ends`.
pub trait Fits: Integer + Copy {
    /// Returns whether the number is negative, and its magnitude. `(-5).parts()` is `(true, 5)`.
    fn parts(&self) -> (bool, u128)
        requires { Self.fits (Self.value self.now) }
        ensures negative { IsTrue result.0 ↔ (Self.value self.now <ℤ pos 0) }
        ensures magnitude { result.1 ≡ unsigned_abs (Self.value self.now) };

    /// Returns the magnitude of the smallest number of the type, and its largest number. `i8::ends()`
    /// is `(128, 127)`.
    fn ends() -> (u128, u128)
        ensures low { result.0 ≡ unsigned_abs Self.low }
        ensures high { pos result.1 ≡ Self.high };

    /// Returns `true` if the sum fits. `200u8.sum_fits(&55)` is `true`, and `200u8.sum_fits(&56)` is
    /// `false`. [`checked::sum`](crate::checked::sum) tests and adds.
    #[tactic(auto, using(crate::proofs::FittingAnswers::parts_inside))]
    fn sum_fits(&self, other: &Self) -> bool
        requires in_range { Self.fits (Self.value self.now) × Self.fits (Self.value other.now) }
        ensures { IsTrue result ↔ Self.fits (Self.value self.now +ℤ Self.value other.now) }
    {
        sum_is_within(self.parts(), other.parts(), Self::ends())
    }

    /// Returns `true` if the difference fits. `3u8.difference_fits(&3)` is `true`, and
    /// `2u8.difference_fits(&3)` is `false`. [`checked::difference`](crate::checked::difference)
    /// tests and subtracts.
    #[tactic(auto, using(crate::proofs::FittingAnswers::parts_inside))]
    fn difference_fits(&self, other: &Self) -> bool
        requires in_range { Self.fits (Self.value self.now) × Self.fits (Self.value other.now) }
        ensures { IsTrue result ↔ Self.fits (Self.value self.now -ℤ Self.value other.now) }
    {
        let (negative, magnitude) = other.parts();
        sum_is_within(self.parts(), (!negative, magnitude), Self::ends())
    }

    /// Returns `true` if the product fits. `15u8.product_fits(&17)` is `true`, and
    /// `16u8.product_fits(&16)` is `false`. [`checked::product`](crate::checked::product) tests and
    /// multiplies.
    fn product_fits(&self, other: &Self) -> bool
        requires in_range { Self.fits (Self.value self.now) × Self.fits (Self.value other.now) }
        ensures { IsTrue result ↔ Self.fits (Self.value self.now *ℤ Self.value other.now) }
    {
        product_is_within(self.parts(), other.parts(), Self::ends())
    }

    /// Returns `true` if the precondition of `div_rem`, `div_floor`, `div_mod_floor` and `div_ceil`
    /// holds: `other` is not 0, and the quotient fits. `i8::MIN.quotient_fits(&2)` is `true`, and
    /// `i8::MIN.quotient_fits(&-1)` is `false`. The only quotient that may not fit is that of the
    /// smallest number by -1.
    ///
    /// [`checked::div_rem`](crate::checked::div_rem) and the others of these names test and divide.
    fn quotient_fits(&self, other: &Self) -> bool
        requires self_in_range { Self.fits (Self.value self.now) }
        requires other_in_range { Self.fits (Self.value other.now) }
        ensures domain { EachKind (λ Kind. IsTrue result ↔ ((Self.value other.now ≢ pos 0)
            × EachFits Self.fits
            (IsQuotient Kind (Self.value self.now) (Self.value other.now)))) }
        ensures positive { pos 0 <ℤ Self.value other.now → IsTrue result }
    {
        if is_zero(*other) {
            false
        } else if is_minus_one(*other) {
            self.parts().1 <= Self::ends().1
        } else {
            true
        }
    }

    /// Returns `true` if the precondition of `next_multiple_of` holds: `other` is not 0, and the
    /// multiple fits. `250u8.next_multiple_fits(&5)` is `true`, and `251u8.next_multiple_fits(&8)`
    /// is `false`. [`checked::next_multiple_of`](crate::checked::next_multiple_of) tests and
    /// returns the multiple.
    fn next_multiple_fits(&self, other: &Self) -> bool
        requires self_in_range { Self.fits (Self.value self.now) }
        requires other_in_range { Self.fits (Self.value other.now) }
        ensures { IsTrue result ↔ ((Self.value other.now ≢ pos 0)
            × EachFits Self.fits (IsMultiple IsCeiled (Self.value self.now) (Self.value other.now))) }
    {
        if is_zero(*other) {
            return false;
        }
        let remainder = self.mod_floor(other);
        is_zero(remainder) || self.sum_fits(&difference(*other, remainder))
    }

    /// Returns `true` if the precondition of `prev_multiple_of` holds: `other` is not 0, and the
    /// multiple fits. `(-120i8).prev_multiple_fits(&8)` is `true`, and
    /// `(-125i8).prev_multiple_fits(&10)` is `false`.
    /// [`checked::prev_multiple_of`](crate::checked::prev_multiple_of) tests and returns the
    /// multiple.
    fn prev_multiple_fits(&self, other: &Self) -> bool
        requires self_in_range { Self.fits (Self.value self.now) }
        requires other_in_range { Self.fits (Self.value other.now) }
        ensures { IsTrue result ↔ ((Self.value other.now ≢ pos 0)
            × EachFits Self.fits (IsMultiple IsFloored (Self.value self.now) (Self.value other.now))) }
    {
        !is_zero(*other) && self.difference_fits(&self.mod_floor(other))
    }

    /// Returns `true` if the precondition of `gcd` holds: the result fits. `i8::MIN.gcd_fits(&64)`
    /// is `true`, and `i8::MIN.gcd_fits(&0)` is `false`. The only gcd that may not fit is that of
    /// the smallest number and itself or 0.
    ///
    /// [`checked::gcd`](crate::checked::gcd) tests and computes the gcd.
    fn gcd_fits(&self, other: &Self) -> bool
        requires self_in_range { Self.fits (Self.value self.now) }
        requires other_in_range { Self.fits (Self.value other.now) }
        ensures domain { IsTrue result ↔ EachFits Self.fits
            (IsGreatestCommonDivisor (Self.value self.now) (Self.value other.now)) }
        ensures positive { pos 0 <ℤ Self.value other.now → IsTrue result }
    {
        let (_, high) = Self::ends();
        let (_, a) = self.parts();
        let (_, b) = other.parts();
        if a == 0 || b == 0 {
            a.max(b) <= high
        } else {
            a.min(b) <= high
        }
    }

    /// Returns `true` if the precondition of `lcm` holds: the result fits. `15u8.lcm_fits(&17)` is
    /// `true`, and `16u8.lcm_fits(&17)` is `false`. [`checked::lcm`](crate::checked::lcm) tests and
    /// computes the lcm, with one gcd for both.
    fn lcm_fits(&self, other: &Self) -> bool
        requires self_in_range { Self.fits (Self.value self.now) }
        requires other_in_range { Self.fits (Self.value other.now) }
        ensures { IsTrue result ↔ EachFits Self.fits
            (IsLeastCommonMultiple (Self.value self.now) (Self.value other.now)) }
    {
        let (_, high) = Self::ends();
        let (_, m) = self.parts();
        let (_, n) = other.parts();
        match lcm_of_magnitudes(m, n) {
            Some(multiple) => multiple <= high,
            None => false,
        }
    }

    /// Returns `true` if Bezout's coefficients of the two numbers fit: always in a type with
    /// negative numbers, and in an unsigned type if one of the two divides the other.
    /// `12u8.pair_fits(&4)` is `true`, and `10u8.pair_fits(&4)` is `false`. The precondition of
    /// `extended_gcd` holds if this and [`Fits::gcd_fits`] return true.
    /// [`checked::extended_gcd`](crate::checked::extended_gcd) tests both.
    final fn pair_fits(&self, other: &Self) -> bool
        requires in_range { Self.fits (Self.value self.now) × Self.fits (Self.value other.now) }
        ensures { IsTrue result ↔ HasPair Self.fits (Self.value self.now) (Self.value other.now) }
    {
        Self::ends().0 != 0 || self.is_multiple_of(other) || other.is_multiple_of(self)
    }

    /// Returns `true` if the precondition of `binomial(self, k)` holds: neither number is negative,
    /// and the coefficient fits. `11u8.binomial_fits(&3)` is `true`, and `11u8.binomial_fits(&4)`
    /// is `false`. The loop stops at the first coefficient that does not fit.
    /// [`checked::binomial`](crate::checked::binomial) returns the coefficient.
    final fn binomial_fits(&self, k: &Self) -> bool
        requires self_in_range { Self.fits (Self.value self.now) }
        requires k_in_range { Self.fits (Self.value k.now) }
        ensures { IsTrue result ↔ ((pos 0 ≤ℤ Self.value self.now) × (pos 0 ≤ℤ Self.value k.now)
            × Self.fits (coefficient_of (Self.value self.now) (Self.value k.now))) }
    {
        checked::binomial(*self, *k).is_some()
    }

    /// Returns `true` if the precondition of `multinomial(counts)` holds: no count is negative, and
    /// the multinomial fits. `u8::multinomial_fits(&[254, 1])` is `true`, and
    /// `u8::multinomial_fits(&[255, 1])` is `false`. The loops stop at the first multinomial that
    /// does not fit. [`checked::multinomial`](crate::checked::multinomial) returns the multinomial.
    final fn multinomial_fits(counts: &[Self]) -> bool
        requires in_range { All (λ x. Self.fits (Self.value x)) counts.now }
        ensures { IsTrue result ↔ (All (λ x. pos 0 ≤ℤ Self.value x) counts.now
            × EachFits Self.fits (IsMultinomial (map Self.value counts.now))) }
    {
        checked::multinomial(counts).is_some()
    }
}

impl<T: NativeInteger> Fits for T {
    fn parts(&self) -> (bool, u128) {
        (is_negative(*self), self.wide_magnitude())
    }

    fn ends() -> (u128, u128) {
        (
            T::min_value().wide_magnitude(),
            T::max_value().wide_magnitude(),
        )
    }

    fn sum_fits(&self, other: &T) -> bool {
        self.checked_add(other).is_some()
    }

    fn difference_fits(&self, other: &T) -> bool {
        self.checked_sub(other).is_some()
    }

    fn product_fits(&self, other: &T) -> bool {
        self.checked_mul(other).is_some()
    }
}
