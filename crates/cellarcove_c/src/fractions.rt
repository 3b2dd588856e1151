//! Exact fractions. A fraction that is passed is reduced first, and a part of it that does not fit
//! then is rejected. If both fractions are rejected, the status is that of the first.

ghost use Rattle.std.specs.Prelude.{◌≡◌, ◌<ℤ◌, ◌≤ℤ◌, ◌*ℤ◌, pos, Err, MatchResult, Ok, Result};
ghost use Rattle.ratio64.specs.Fraction.{fraction_cmp};
ghost use Rattle.ratio64.specs.Limiting.{IsNearestWithin};
ghost use Rattle.ratio64.specs.Ratio.{AnswersFraction, den_of, num_of};
ghost use Rattle.ratio64.specs.RatioError.{number_of};
ghost use Rattle.ratio64.specs.declared.error.RatioError.{RatioError};
ghost use Rattle.ratio64.specs.declared.fraction.Ratio.{Ratio};
ghost use Rattle.cellarcove_c.specs.Fractions.{AnswersOfOne, AnswersOfTwo, IsDifferenceOf, IsMagnitude, IsNegation, IsPower, IsProductOf, IsQuotientOf, IsReciprocal, IsSumOf, IsTimes, OnBothFractions, OnOne, Represents, order_number};
ghost use Rattle.cellarcove_c.specs.Statuses.{outside};

use crate::answers::{ANSWER, OUTSIDE};
use ratio64::{Ratio, RatioError};
use std::cmp::Ordering;

/// The parts of a fraction. As an argument it need not be reduced; as a result it is, and `den` is
/// positive.
#[repr(C)]
#[derive(Clone, Copy)]
pub struct Fraction {
    pub num: i64,
    pub den: i64,
}

/// A status, and a fraction, which is reduced.
#[repr(C)]
#[derive(Clone, Copy)]
pub struct FractionAnswer {
    pub status: u32,
    pub value: Fraction,
}

/// A status, and an order: -1, 0 or 1.
#[repr(C)]
#[derive(Clone, Copy)]
pub struct OrderAnswer {
    pub status: u32,
    pub order: i32,
}

/// Returns the fraction `num / den`, reduced. That of 6 and -4 is -3/2.
///
/// `ZERO_DENOMINATOR` if `den` is 0. `NOT_FITTING` if a part of the reduced fraction does not fit.
#[unsafe(no_mangle)]
pub extern "C" fn cellarcove_fraction_new(num: i64, den: i64) -> FractionAnswer
    ensures { (r : Result Ratio RatioError) × AnswersFraction num den r
        × Represents r result.status result.value.num result.value.den }
{
    FractionAnswer::of(Ratio::new(num, den))
}

/// Returns the sum. That of 1/2 and 1/3 is 5/6.
///
/// `ZERO_DENOMINATOR` if a denominator is 0. `NOT_FITTING` if a part of an argument, reduced, does not
/// fit, or a part of the result.
#[unsafe(no_mangle)]
pub extern "C" fn cellarcove_fraction_add(a: Fraction, b: Fraction) -> FractionAnswer
    ensures { AnswersOfTwo IsSumOf a b result }
{
    FractionAnswer::of(sum(a.reduced(), b.reduced()))
}

/// Returns the difference. That of 1/2 and 1/3 is 1/6.
///
/// `ZERO_DENOMINATOR` if a denominator is 0. `NOT_FITTING` if a part of an argument, reduced, does not
/// fit, or a part of the result.
#[unsafe(no_mangle)]
pub extern "C" fn cellarcove_fraction_sub(a: Fraction, b: Fraction) -> FractionAnswer
    ensures { AnswersOfTwo IsDifferenceOf a b result }
{
    FractionAnswer::of(difference(a.reduced(), b.reduced()))
}

/// Returns the product. That of 2/3 and 3/4 is 1/2.
///
/// `ZERO_DENOMINATOR` if a denominator is 0. `NOT_FITTING` if a part of an argument, reduced, does not
/// fit, or a part of the result.
#[unsafe(no_mangle)]
pub extern "C" fn cellarcove_fraction_mul(a: Fraction, b: Fraction) -> FractionAnswer
    ensures { AnswersOfTwo IsProductOf a b result }
{
    FractionAnswer::of(product(a.reduced(), b.reduced()))
}

/// Returns the quotient. That of -1/2 and -3/4 is 2/3.
///
/// `ZERO_DENOMINATOR` if a denominator is 0, and if `b` is 0. `NOT_FITTING` if a part of an argument,
/// reduced, does not fit, or a part of the result.
#[unsafe(no_mangle)]
pub extern "C" fn cellarcove_fraction_div(a: Fraction, b: Fraction) -> FractionAnswer
    ensures { AnswersOfTwo IsQuotientOf a b result }
{
    FractionAnswer::of(quotient(a.reduced(), b.reduced()))
}

/// Returns the reciprocal. That of -2/3 is -3/2.
///
/// `ZERO_DENOMINATOR` if the denominator is 0, and if `a` is 0. `NOT_FITTING` if a part of the argument,
/// reduced, does not fit, or a part of the result.
#[unsafe(no_mangle)]
pub extern "C" fn cellarcove_fraction_recip(a: Fraction) -> FractionAnswer
    ensures { AnswersOfOne IsReciprocal a result }
{
    FractionAnswer::of(a.reduced().and_then(|x| x.checked_recip()))
}

/// Returns the negation. That of -3/2 is 3/2.
///
/// `ZERO_DENOMINATOR` if the denominator is 0. `NOT_FITTING` if a part of the argument, reduced, does not
/// fit, or a part of the result.
#[unsafe(no_mangle)]
pub extern "C" fn cellarcove_fraction_neg(a: Fraction) -> FractionAnswer
    ensures { AnswersOfOne IsNegation a result }
{
    FractionAnswer::of(a.reduced().and_then(|x| x.checked_neg()))
}

/// Returns the magnitude. That of -3/2 is 3/2.
///
/// `ZERO_DENOMINATOR` if the denominator is 0. `NOT_FITTING` if a part of the argument, reduced, does not
/// fit, or a part of the result.
#[unsafe(no_mangle)]
pub extern "C" fn cellarcove_fraction_abs(a: Fraction) -> FractionAnswer
    ensures { AnswersOfOne IsMagnitude a result }
{
    FractionAnswer::of(a.reduced().and_then(|x| x.checked_abs()))
}

/// Returns the power, which for a negative exponent is that of the reciprocal. That of 2/3 and -2 is 9/4.
///
/// `ZERO_DENOMINATOR` if the denominator is 0, and if `a` is 0 and the exponent is negative.
/// `NOT_FITTING` if a part of the argument, reduced, does not fit, or a part of the result.
#[unsafe(no_mangle)]
pub extern "C" fn cellarcove_fraction_pow(a: Fraction, exponent: i32) -> FractionAnswer
    ensures { AnswersOfOne (IsPower exponent) a result }
{
    FractionAnswer::of(power(a.reduced(), exponent))
}

/// Returns the fraction times `n / d`. That of 2/3, 9 and 4 is 3/2.
///
/// `ZERO_DENOMINATOR` if the denominator is 0, and if `d` is 0 and the argument, reduced, fits.
/// `NOT_FITTING` if a part of the argument, reduced, does not fit, or a part of the result.
#[unsafe(no_mangle)]
pub extern "C" fn cellarcove_fraction_times(a: Fraction, n: i64, d: i64) -> FractionAnswer
    ensures { AnswersOfOne (IsTimes n d) a result }
{
    FractionAnswer::of(a.reduced().and_then(|x| x.checked_times(n, d)))
}

/// Returns -1, 0 or 1 if `a` is less than, equal to or greater than `b`. For 1/2 and 1/3 it is 1.
///
/// `ZERO_DENOMINATOR` if a denominator is 0. `NOT_FITTING` if a part of an argument, reduced, does not
/// fit.
#[unsafe(no_mangle)]
pub extern "C" fn cellarcove_fraction_cmp(a: Fraction, b: Fraction) -> OrderAnswer
    ensures { (p q : Result Ratio RatioError) × AnswersFraction a.num a.den p
        × AnswersFraction b.num b.den q
        × OnBothFractions p q
        (λ x y. (result.status ≡ 0) × (result.order
        ≡ order_number (fraction_cmp (num_of x) (den_of x) (num_of y) (den_of y))))
        (λ e. (result.status ≡ number_of e) × (result.order ≡ pos 0)) }
{
    if a.den > 0 && b.den > 0 {
        return OrderAnswer::of(order_by_products(a, b));
    }
    match order(a.reduced(), b.reduced()) {
        Ok(order) => OrderAnswer::of(order),
        Err(error) => OrderAnswer {
            status: error.number(),
            order: 0,
        },
    }
}

/// Returns the nearest fraction whose denominator is at most `max`, of those equally near the one with the
/// smallest denominator, and of two integers the smaller. That of 3/10 and 5 is 1/3, that of 5/12 and 4 is 1/2,
/// and that of 3/2 and 1 is 1.
///
/// `OUTSIDE` if `max` is not positive, whatever `a` is. `ZERO_DENOMINATOR` if the denominator is 0.
/// `NOT_FITTING` if a part of the reduced fraction does not fit.
#[unsafe(no_mangle)]
pub extern "C" fn cellarcove_fraction_limit_denominator(a: Fraction, max: i64) -> FractionAnswer
    ensures outside { max ≤ℤ pos 0
        → result ≡ record { status = outside; value = record { num = pos 0; den = pos 0 } } }
    ensures nearest { (pos 0 <ℤ max) → (p : Result Ratio RatioError) × AnswersFraction a.num a.den p
        × MatchResult p
        (λ x. (result.status ≡ 0)
        × IsNearestWithin (num_of x) (den_of x) max result.value.num result.value.den)
        (λ e. result ≡ record { status = number_of e; value = record { num = pos 0; den = pos 0 } }) }
{
    if max <= 0 {
        return FractionAnswer::none(OUTSIDE);
    }
    FractionAnswer::of(a.reduced().map(|x| x.limit_denominator(max)))
}

impl Fraction {
    /// Returns the reduced fraction.
    pub(crate) fn reduced(self) -> Result<Ratio, RatioError>
        ensures { AnswersFraction self.num self.den result }
    {
        Ratio::new(self.num, self.den)
    }
}

impl FractionAnswer {
    /// Returns a result of `ratio64`.
    pub(crate) fn of(answered: Result<Ratio, RatioError>) -> FractionAnswer
        ensures { Represents answered result.status result.value.num result.value.den }
    {
        match answered {
            Ok(ratio) => FractionAnswer::some(&ratio),
            Err(error) => FractionAnswer::none(error.number()),
        }
    }

    /// Returns a result.
    pub(crate) fn some(ratio: &Ratio) -> FractionAnswer
        ensures { result ≡ record {
          status = 0;
          value = record { num = num_of ratio.now; den = den_of ratio.now };
        } }
    {
        FractionAnswer {
            status: ANSWER,
            value: Fraction {
                num: ratio.num(),
                den: ratio.den(),
            },
        }
    }

    /// Returns a rejection.
    pub(crate) fn none(status: u32) -> FractionAnswer
        ensures { result ≡ record { status = status; value = record { num = pos 0; den = pos 0 } } }
    {
        FractionAnswer {
            status,
            value: Fraction { num: 0, den: 0 },
        }
    }
}

impl OrderAnswer {
    /// Returns an order.
    fn of(order: Ordering) -> OrderAnswer
        ensures { result ≡ record { status = 0; order = order_number order } }
    {
        OrderAnswer {
            status: ANSWER,
            order: number_of_order(order),
        }
    }
}

/// Returns the sum of two fractions, or the first error.
fn sum(a: Result<Ratio, RatioError>, b: Result<Ratio, RatioError>) -> Result<Ratio, RatioError>
    ensures { IsSumOf a b result }
{
    a?.checked_add(&b?)
}

/// Returns the difference of two fractions, or the first error.
fn difference(
    a: Result<Ratio, RatioError>,
    b: Result<Ratio, RatioError>,
) -> Result<Ratio, RatioError>
    ensures { IsDifferenceOf a b result }
{
    a?.checked_sub(&b?)
}

/// Returns the product of two fractions, or the first error.
fn product(a: Result<Ratio, RatioError>, b: Result<Ratio, RatioError>) -> Result<Ratio, RatioError>
    ensures { IsProductOf a b result }
{
    a?.checked_mul(&b?)
}

/// Returns the quotient of two fractions, or the first error.
fn quotient(a: Result<Ratio, RatioError>, b: Result<Ratio, RatioError>) -> Result<Ratio, RatioError>
    ensures { IsQuotientOf a b result }
{
    a?.checked_div(&b?)
}

/// Returns the power of a fraction, or its error.
fn power(a: Result<Ratio, RatioError>, exponent: i32) -> Result<Ratio, RatioError>
    ensures { OnOne (IsPower exponent) a result }
{
    a?.checked_pow(exponent)
}

/// Returns the order of two fractions, or the first error.
fn order(a: Result<Ratio, RatioError>, b: Result<Ratio, RatioError>) -> Result<Ordering, RatioError>
    ensures { OnBothFractions a b
        (λ x y. result ≡ Ok (fraction_cmp (num_of x) (den_of x) (num_of y) (den_of y)))
        (λ e. result ≡ Err e) }
{
    Ok(a?.cmp(&b?))
}

/// Returns the order of two fractions whose denominators are positive. They need not be reduced.
fn order_by_products(a: Fraction, b: Fraction) -> Ordering
    ensures { result ≡ fraction_cmp a.num a.den b.num b.den }
{
    wide_product(a.num, b.den).cmp(&wide_product(b.num, a.den))
}

/// Returns the product, which has 128 bits.
fn wide_product(a: i64, b: i64) -> i128
    ensures { result ≡ a *ℤ b }
{
    i128::from(a) * i128::from(b)
}

/// Returns the number of an order.
fn number_of_order(order: Ordering) -> i32
    ensures { result ≡ order_number order }
{
    match order {
        Ordering::Less => -1,
        Ordering::Equal => 0,
        Ordering::Greater => 1,
    }
}
