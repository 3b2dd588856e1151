//! Checked common divisors and multiples.

ghost use Rattle.std.specs.Prelude.{◌≢◌, ◌<ℤ◌, pos, IsSome};
ghost use Rattle.integer_core.specs.Bezout.{HasPair, IsBezoutAnswer};
ghost use Rattle.integer_core.specs.Divisors.{GcdFits, IsGreatestCommonDivisor, IsLeastCommonMultiple};
ghost use Rattle.integer_core.specs.Range.{EachFits};
ghost use Rattle.num_integer.specs.Answers.{AnswersFitting};
ghost use Rattle.num_integer.specs.Checked.{AnswersWhere, FitsWith};

use crate::checked::operators::{negated, product};
use crate::coefficients::positive_quotient;
use crate::fits_trait::Fits;
use integer_core::ExtendedGcd;
use integer_core::operators::{is_negative, is_zero, zero};
use num_traits::Signed;

/// Returns [`Integer::gcd`], the greatest common divisor, or `None` if it does not fit. `gcd(56, 42)` is
/// `Some(14)`, and `gcd(i8::MIN, 0)` is `None`. The only gcd that may not fit is that of the smallest
/// number and itself or 0.
pub fn gcd<T: Fits>(x: T, y: T) -> Option<T>
    requires x_in_range { T.fits (T.value x) }
    requires y_in_range { T.fits (T.value y) }
    ensures answer { AnswersWhere
        (GcdFits T.fits (T.value x) (T.value y))
        (FitsWith T.fits T.value (IsGreatestCommonDivisor (T.value x) (T.value y)))
        result }
    ensures positive { pos 0 <ℤ T.value y → IsSome result }
{
    if x.gcd_fits(&y) {
        Some(x.gcd(&y))
    } else {
        None
    }
}

/// Returns [`Integer::lcm`], the least common multiple, or `None` if it does not fit. `lcm(7, 3)` is
/// `Some(21)`, and `lcm(16u8, 17)` is `None`.
pub fn lcm<T: Fits>(x: T, y: T) -> Option<T>
    requires x_in_range { T.fits (T.value x) }
    requires y_in_range { T.fits (T.value y) }
    ensures { AnswersFitting T.fits T.value (IsLeastCommonMultiple (T.value x) (T.value y)) result }
{
    if is_zero(x) || is_zero(y) {
        return Some(zero());
    }
    nonzero_lcm(x, y, gcd(x, y)?)
}

/// Returns [`Integer::gcd_lcm`], the greatest common divisor and the least common multiple, or `None` if
/// one of them does not fit. `gcd_lcm(10, 4)` is `Some((2, 20))`, and `gcd_lcm(16u8, 17)` is `None`.
pub fn gcd_lcm<T: Fits>(x: T, y: T) -> Option<(T, T)>
    requires x_in_range { T.fits (T.value x) }
    requires y_in_range { T.fits (T.value y) }
    ensures { AnswersWhere
        (GcdFits T.fits (T.value x) (T.value y)
        × EachFits T.fits (IsLeastCommonMultiple (T.value x) (T.value y)))
        (λ r. T.fits (T.value r.0) × T.fits (T.value r.1)
        × IsGreatestCommonDivisor (T.value x) (T.value y) (T.value r.0)
        × IsLeastCommonMultiple (T.value x) (T.value y) (T.value r.1))
        result }
{
    let g = gcd(x, y)?;
    Some((g, lcm_with_gcd(x, y, g)?))
}

/// Returns [`Integer::extended_gcd`], the greatest common divisor and Bezout's coefficients, or `None` if
/// the divisor does not fit. In an unsigned type it is also `None` if neither number divides the other.
/// `extended_gcd(240, 46)` is `Some(ExtendedGcd { gcd: 2, x: -9, y: 47 })`, and
/// `extended_gcd(10u8, 4)` is `None`.
pub fn extended_gcd<T: Fits>(x: T, y: T) -> Option<ExtendedGcd<T>>
    requires x_in_range { T.fits (T.value x) }
    requires y_in_range { T.fits (T.value y) }
    ensures { AnswersWhere
        (GcdFits T.fits (T.value x) (T.value y) × HasPair T.fits (T.value x) (T.value y))
        (λ e. T.fits (T.value e.gcd) × T.fits (T.value e.x) × T.fits (T.value e.y)
        × IsBezoutAnswer (T.value x) (T.value y) (T.value e.gcd) (T.value e.x) (T.value e.y))
        result }
{
    if x.gcd_fits(&y) && x.pair_fits(&y) {
        Some(x.extended_gcd(&y))
    } else {
        None
    }
}

/// Returns [`Integer::extended_gcd_lcm`], the results of [`extended_gcd`] and [`lcm`], or `None` if one
/// of the two is `None`. `extended_gcd_lcm(10, 4)` is
/// `Some((ExtendedGcd { gcd: 2, x: 1, y: -2 }, 20))`, and `extended_gcd_lcm(99i8, 100)` is `None`.
pub fn extended_gcd_lcm<T: Fits + Signed>(x: T, y: T) -> Option<(ExtendedGcd<T>, T)>
    requires x_in_range { T.fits (T.value x) }
    requires y_in_range { T.fits (T.value y) }
    ensures { AnswersWhere
        (GcdFits T.fits (T.value x) (T.value y) × HasPair T.fits (T.value x) (T.value y)
        × EachFits T.fits (IsLeastCommonMultiple (T.value x) (T.value y)))
        (λ r. T.fits (T.value r.0.gcd) × T.fits (T.value r.0.x) × T.fits (T.value r.0.y)
        × T.fits (T.value r.1)
        × IsBezoutAnswer (T.value x) (T.value y) (T.value r.0.gcd) (T.value r.0.x) (T.value r.0.y)
        × IsLeastCommonMultiple (T.value x) (T.value y) (T.value r.1))
        result }
{
    let e = extended_gcd(x, y)?;
    Some((e, lcm_with_gcd(x, y, e.gcd)?))
}

/// Returns the least common multiple of `x` and `y`, or `None` if it does not fit. `g` is their greatest
/// common divisor.
fn lcm_with_gcd<T: Fits>(x: T, y: T, g: T) -> Option<T>
    requires in_range { T.fits (T.value x) × T.fits (T.value y) × T.fits (T.value g) }
    requires greatest { IsGreatestCommonDivisor (T.value x) (T.value y) (T.value g) }
    ensures { AnswersFitting T.fits T.value (IsLeastCommonMultiple (T.value x) (T.value y)) result }
{
    if is_zero(y) {
        Some(zero())
    } else {
        nonzero_lcm(x, y, g)
    }
}

/// Returns [`lcm_with_gcd`] for a `y` that is not 0: the magnitude of `x * (y / g)`.
fn nonzero_lcm<T: Fits>(x: T, y: T, g: T) -> Option<T>
    requires in_range { T.fits (T.value x) × T.fits (T.value y) × T.fits (T.value g) }
    requires nonzero { T.value y ≢ pos 0 }
    requires greatest { IsGreatestCommonDivisor (T.value x) (T.value y) (T.value g) }
    ensures { AnswersFitting T.fits T.value (IsLeastCommonMultiple (T.value x) (T.value y)) result }
{
    let product = product(x, positive_quotient(y, g))?;
    if is_negative(product) {
        negated(product)
    } else {
        Some(product)
    }
}
