//! Fractions rounded to integers and to parts. A fraction that is passed is reduced first.

ghost use Rattle.std.specs.Prelude.{◌≡◌, ◌<ℤ◌, ◌≤ℤ◌, pos};
ghost use Rattle.num_integer.specs.Division.{IsCeiled, IsFloored, IsQuotient, IsTruncated};
ghost use Rattle.ratio64.specs.Rounding.{IsRounded};
ghost use Rattle.cellarcove_c.specs.Fractions.{AnswersFract, AnswersOfOne, AnswersRounded, AnswersRoundedTimes, IsInParts};
ghost use Rattle.cellarcove_c.specs.Statuses.{outside};

use crate::answers::{I64Answer, NOT_FITTING, OUTSIDE};
use crate::fractions::{Fraction, FractionAnswer};

/// Returns the fraction rounded down. That of -3/2 is -2.
///
/// `ZERO_DENOMINATOR` if the denominator is 0. `NOT_FITTING` if a part of the reduced fraction does not
/// fit.
#[unsafe(no_mangle)]
pub extern "C" fn cellarcove_fraction_floor(a: Fraction) -> I64Answer
    ensures { AnswersRounded (IsQuotient IsFloored) a result }
{
    match a.reduced() {
        Ok(x) => I64Answer::some(x.floor()),
        Err(error) => I64Answer::none(error.number()),
    }
}

/// Returns the fraction rounded up. That of -3/2 is -1.
///
/// `ZERO_DENOMINATOR` if the denominator is 0. `NOT_FITTING` if a part of the reduced fraction does not
/// fit.
#[unsafe(no_mangle)]
pub extern "C" fn cellarcove_fraction_ceil(a: Fraction) -> I64Answer
    ensures { AnswersRounded (IsQuotient IsCeiled) a result }
{
    match a.reduced() {
        Ok(x) => I64Answer::some(x.ceil()),
        Err(error) => I64Answer::none(error.number()),
    }
}

/// Returns the fraction rounded toward 0. That of -3/2 is -1.
///
/// `ZERO_DENOMINATOR` if the denominator is 0. `NOT_FITTING` if a part of the reduced fraction does not
/// fit.
#[unsafe(no_mangle)]
pub extern "C" fn cellarcove_fraction_trunc(a: Fraction) -> I64Answer
    ensures { AnswersRounded (IsQuotient IsTruncated) a result }
{
    match a.reduced() {
        Ok(x) => I64Answer::some(x.trunc()),
        Err(error) => I64Answer::none(error.number()),
    }
}

/// Returns the fraction minus itself rounded toward 0. That of -3/2 is -1/2.
///
/// `ZERO_DENOMINATOR` if the denominator is 0. `NOT_FITTING` if a part of the reduced fraction does not
/// fit.
#[unsafe(no_mangle)]
pub extern "C" fn cellarcove_fraction_fract(a: Fraction) -> FractionAnswer
    ensures { AnswersFract a result }
{
    FractionAnswer::of(a.reduced().map(|x| x.fract()))
}

/// Returns the nearest integer, and of two that are equally near the one farther from 0. That of -3/2
/// is -2.
///
/// `ZERO_DENOMINATOR` if the denominator is 0. `NOT_FITTING` if a part of the reduced fraction does not
/// fit.
#[unsafe(no_mangle)]
pub extern "C" fn cellarcove_fraction_round(a: Fraction) -> I64Answer
    ensures { AnswersRounded IsRounded a result }
{
    match a.reduced() {
        Ok(x) => I64Answer::some(x.round()),
        Err(error) => I64Answer::none(error.number()),
    }
}

/// Returns the fraction times `n`, rounded down. That of 2/3 and 100 is 66.
///
/// `ZERO_DENOMINATOR` if the denominator is 0. `NOT_FITTING` if a part of the reduced fraction does not
/// fit, or the result.
#[unsafe(no_mangle)]
pub extern "C" fn cellarcove_fraction_floor_times(a: Fraction, n: i64) -> I64Answer
    ensures { AnswersRoundedTimes (IsQuotient IsFloored) a n result }
{
    match a.reduced() {
        Ok(x) => I64Answer::of(x.floor_times(n), NOT_FITTING),
        Err(error) => I64Answer::none(error.number()),
    }
}

/// Returns the fraction times `n`, rounded up. That of 2/3 and 100 is 67.
///
/// `ZERO_DENOMINATOR` if the denominator is 0. `NOT_FITTING` if a part of the reduced fraction does not
/// fit, or the result.
#[unsafe(no_mangle)]
pub extern "C" fn cellarcove_fraction_ceil_times(a: Fraction, n: i64) -> I64Answer
    ensures { AnswersRoundedTimes (IsQuotient IsCeiled) a n result }
{
    match a.reduced() {
        Ok(x) => I64Answer::of(x.ceil_times(n), NOT_FITTING),
        Err(error) => I64Answer::none(error.number()),
    }
}

/// Returns the integer nearest to the fraction times `n`, and of two that are equally near the one
/// farther from 0. That of 1/2 and -3 is -2.
///
/// `ZERO_DENOMINATOR` if the denominator is 0. `NOT_FITTING` if a part of the reduced fraction does not
/// fit, or the result.
#[unsafe(no_mangle)]
pub extern "C" fn cellarcove_fraction_round_times(a: Fraction, n: i64) -> I64Answer
    ensures { AnswersRoundedTimes IsRounded a n result }
{
    match a.reduced() {
        Ok(x) => I64Answer::of(x.round_times(n), NOT_FITTING),
        Err(error) => I64Answer::none(error.number()),
    }
}

/// Returns the largest multiple of `1 / parts` that is at most the fraction. That of 5/3 and 4 is 3/2.
///
/// `OUTSIDE` if `parts` is not positive, whatever `a` is. `ZERO_DENOMINATOR` if the denominator is 0.
/// `NOT_FITTING` if a part of the reduced fraction does not fit, or a part of the result.
#[unsafe(no_mangle)]
pub extern "C" fn cellarcove_fraction_floor_to(a: Fraction, parts: i64) -> FractionAnswer
    ensures outside { parts ≤ℤ pos 0
        → result ≡ record { status = outside; value = record { num = pos 0; den = pos 0 } } }
    ensures in_parts { (pos 0 <ℤ parts) → AnswersOfOne (IsInParts (IsQuotient IsFloored) parts) a result }
{
    if parts <= 0 {
        return FractionAnswer::none(OUTSIDE);
    }
    FractionAnswer::of(a.reduced().and_then(|x| x.floor_to(parts)))
}

/// Returns the smallest multiple of `1 / parts` that is at least the fraction. That of 5/3 and 4 is 7/4.
///
/// `OUTSIDE` if `parts` is not positive, whatever `a` is. `ZERO_DENOMINATOR` if the denominator is 0.
/// `NOT_FITTING` if a part of the reduced fraction does not fit, or a part of the result.
#[unsafe(no_mangle)]
pub extern "C" fn cellarcove_fraction_ceil_to(a: Fraction, parts: i64) -> FractionAnswer
    ensures outside { parts ≤ℤ pos 0
        → result ≡ record { status = outside; value = record { num = pos 0; den = pos 0 } } }
    ensures in_parts { (pos 0 <ℤ parts) → AnswersOfOne (IsInParts (IsQuotient IsCeiled) parts) a result }
{
    if parts <= 0 {
        return FractionAnswer::none(OUTSIDE);
    }
    FractionAnswer::of(a.reduced().and_then(|x| x.ceil_to(parts)))
}

/// Returns the nearest multiple of `1 / parts`, and of two that are equally near the one farther from 0.
/// That of 5/3 and 100 is 167/100, that of 1/8 and 100 is 13/100, and that of -1/8 and 100 is -13/100.
///
/// `OUTSIDE` if `parts` is not positive, whatever `a` is. `ZERO_DENOMINATOR` if the denominator is 0.
/// `NOT_FITTING` if a part of the reduced fraction does not fit, or a part of the result.
#[unsafe(no_mangle)]
pub extern "C" fn cellarcove_fraction_round_to(a: Fraction, parts: i64) -> FractionAnswer
    ensures outside { parts ≤ℤ pos 0
        → result ≡ record { status = outside; value = record { num = pos 0; den = pos 0 } } }
    ensures in_parts { (pos 0 <ℤ parts) → AnswersOfOne (IsInParts IsRounded parts) a result }
{
    if parts <= 0 {
        return FractionAnswer::none(OUTSIDE);
    }
    FractionAnswer::of(a.reduced().and_then(|x| x.round_to(parts)))
}
