//! Parts of fractions in `i128`: products, and lowest terms.

ghost use Rattle.std.specs.Prelude.{◌≡◌, ◌<◌, ◌≤◌, ◌^◌, ◌<ℤ◌, ◌+ℤ◌, ◌-ℤ◌, ◌*ℤ◌, ℤ, pos, unsigned_abs, MatchResult};
ghost use Rattle.ratio64.specs.Fraction.{AreEqual, FitsUpTo, IsFraction, IsExact, IsOutsideI64};

use crate::RatioError;
use num_integer::narrowing::narrowed;
use num_integer::operators::{is_below, is_equal, is_negative, is_zero, negated, one, quotient};
use num_integer::{Integer, gcd};

/// Returns the product of two parts.
pub(crate) fn product(a: i64, b: i64) -> i128
    ensures value { result ≡ a *ℤ b }
    ensures below { unsigned_abs result < 2 ^ 127 }
    ensures below_of_positive { pos 0 <ℤ b → unsigned_abs result < 2 ^ 126 }
{
    i128::from(a) * i128::from(b)
}

/// Returns the numerator of the sum of `a / b` and `c / d` over the product of their denominators.
pub(crate) fn numerator_of_sum(a: i64, b: i64, c: i64, d: i64) -> i128
    requires b_positive { pos 0 <ℤ b }
    requires d_positive { pos 0 <ℤ d }
    ensures value { result ≡ a *ℤ d +ℤ c *ℤ b }
    ensures below { unsigned_abs result < 2 ^ 127 }
{
    product(a, d) + product(c, b)
}

/// Returns the numerator of the difference of `a / b` and `c / d` over the product of their
/// denominators.
pub(crate) fn numerator_of_difference(a: i64, b: i64, c: i64, d: i64) -> i128
    requires b_positive { pos 0 <ℤ b }
    requires d_positive { pos 0 <ℤ d }
    ensures value { result ≡ a *ℤ d -ℤ c *ℤ b }
    ensures below { unsigned_abs result < 2 ^ 127 }
{
    product(a, d) - product(c, b)
}

/// Returns the lowest terms of `num / den`, or `NotFitting` if they do not fit. Parts that have 64 bits
/// are divided in 64 bits.
#[tactic(auto, using(crate::proofs::WideSums::wide_by_size))]
pub(crate) fn lowest_terms(num: i128, den: i128) -> Result<(i64, i64), RatioError>
    requires num_below { unsigned_abs num < 2 ^ 127 }
    requires den_below { unsigned_abs den < 2 ^ 127 }
    requires fraction { IsFraction num den }
    ensures { MatchResult result (λ (n, d). IsExact num den n d)
        (λ e. (e ≡ RatioError.NotFitting) × IsOutsideI64 num den) }
{
    match (narrowed::<i64>(num), narrowed::<i64>(den)) {
        (Some(num), Some(den)) if num != i64::MIN && den != i64::MIN => Ok(reduced_terms(num, den)),
        _ => {
            let (num, den) = reduced_terms(num, den);
            let num = narrowed(num).ok_or(RatioError::NotFitting)?;
            let den = narrowed(den).ok_or(RatioError::NotFitting)?;
            Ok((num, den))
        }
    }
}

/// Returns both parts divided by their greatest common divisor, with a positive denominator. Two
/// fractions need no divisor: 0 over any number is 0/1, and a number over itself is 1/1.
///
/// Each number of at most the magnitude of a part must fit.
#[tactic(auto, using(crate::proofs::ExactResults::quotient_steps))]
fn reduced_terms<T: Integer + Copy>(num: T, den: T) -> (T, T)
    requires sizes { FitsUpTo T.fits (T.value num) × FitsUpTo T.fits (T.value den) }
    requires fraction { IsFraction (T.value num) (T.value den) }
    ensures in_range { T.fits (T.value result.0) × T.fits (T.value result.1) }
    ensures exact { IsExact (T.value num) (T.value den) (T.value result.0) (T.value result.1) }
{
    if is_zero(num) {
        return (num, one());
    }
    if is_equal(num, den) {
        return (one(), one());
    }
    let (num, den) = with_positive_denominator(num, den);
    let common = gcd(num, den);
    if is_below(one(), common) {
        (quotient(num, common), quotient(den, common))
    } else {
        (num, den)
    }
}

/// Returns both parts, negated if the denominator is negative.
///
/// The precondition is that of [`reduced_terms`].
#[tactic(auto, using(num_integer::proofs::ForCallers::sizes))]
fn with_positive_denominator<T: Integer + Copy>(num: T, den: T) -> (T, T)
    requires sizes { FitsUpTo T.fits (T.value num) × FitsUpTo T.fits (T.value den) }
    requires fraction { IsFraction (T.value num) (T.value den) }
    ensures in_range { T.fits (T.value result.0) × T.fits (T.value result.1) }
    ensures sizes { FitsUpTo T.fits (T.value result.0) × FitsUpTo T.fits (T.value result.1) }
    ensures positive { pos 0 <ℤ T.value result.1 }
    ensures equal { AreEqual (T.value result.0) (T.value result.1) (T.value num) (T.value den) }
{
    if is_negative(den) {
        (negated(num), negated(den))
    } else {
        (num, den)
    }
}
