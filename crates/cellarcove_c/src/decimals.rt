//! Fractions rounded half to even, and their decimal digits. A fraction that is passed is reduced first.

ghost use Rattle.std.specs.Prelude.{◌≡◌, ◌↔◌, ◌<◌, ◌≤◌, ◌/◌, ◌%◌, ◌^◌, ◌<ℤ◌, ◌≤ℤ◌, pos, false, unsigned_abs, IsTrue};
ghost use Rattle.ratio64.specs.Decimal.{places_of, units_of};
ghost use Rattle.ratio64.specs.Rounding.{IsRoundedEven};
ghost use Rattle.cellarcove_c.specs.Decimals.{AnswersDecimal};
ghost use Rattle.cellarcove_c.specs.Fractions.{AnswersOfOne, AnswersRoundedTimes, IsInParts};
ghost use Rattle.cellarcove_c.specs.Statuses.{outside};

use crate::answers::{ANSWER, I64Answer, NOT_FITTING, OUTSIDE};
use crate::fractions::{Fraction, FractionAnswer};
use ratio64::Decimal;

/// A status, and a decimal number: its sign, its integer part, and the number that its digits after the
/// point write. Those of -2.05 are `true`, 2 and 5: a text of it needs a zero before the 5.
#[repr(C)]
#[derive(Clone, Copy)]
pub struct DecimalAnswer {
    pub status: u32,
    pub is_negative: bool,
    pub whole: u64,
    pub part: u64,
}

/// Returns the integer nearest to the fraction times `n`, and of two that are equally near the even one.
/// That of 1/2 and -3 is -2.
///
/// `ZERO_DENOMINATOR` if the denominator is 0. `NOT_FITTING` if a part of the reduced fraction does not
/// fit, or the result.
#[unsafe(no_mangle)]
pub extern "C" fn cellarcove_fraction_round_even_times(a: Fraction, n: i64) -> I64Answer
    ensures { AnswersRoundedTimes IsRoundedEven a n result }
{
    match a.reduced() {
        Ok(x) => I64Answer::of(x.round_even_times(n), NOT_FITTING),
        Err(error) => I64Answer::none(error.number()),
    }
}

/// Returns the nearest multiple of `1 / parts`, and of two that are equally near the one that is an even
/// number of parts. That of 1/8 and 100 is 3/25.
///
/// `OUTSIDE` if `parts` is not positive, whatever `a` is. `ZERO_DENOMINATOR` if the denominator is 0.
/// `NOT_FITTING` if a part of the reduced fraction does not fit, or a part of the result.
#[unsafe(no_mangle)]
pub extern "C" fn cellarcove_fraction_round_even_to(a: Fraction, parts: i64) -> FractionAnswer
    ensures outside { parts ≤ℤ pos 0
        → result ≡ record { status = outside; value = record { num = pos 0; den = pos 0 } } }
    ensures in_parts { (pos 0 <ℤ parts) → AnswersOfOne (IsInParts IsRoundedEven parts) a result }
{
    if parts <= 0 {
        return FractionAnswer::none(OUTSIDE);
    }
    FractionAnswer::of(a.reduced().and_then(|x| x.round_even_to(parts)))
}

/// Returns the nearest decimal number with so many digits after the point, and of two that are equally
/// near the one whose last digit is even. That of 1234/5 and 2 is 246.80, and that of 1/8 and 2 is 0.12. Its
/// text is a minus if `is_negative`, then `whole`, and, if there are places, a point and `part` with zeros in
/// front, as many digits as places. That of -1/20 and 2 is -0.05, so `part` needs a zero in front.
///
/// `ZERO_DENOMINATOR` if the denominator is 0. `NOT_FITTING` if a part of the reduced fraction does not
/// fit. `OUTSIDE` if there are more than 18 places and neither holds.
#[unsafe(no_mangle)]
pub extern "C" fn cellarcove_fraction_to_decimal(a: Fraction, places: u32) -> DecimalAnswer
    ensures { AnswersDecimal a places result }
{
    match a.reduced() {
        Ok(x) => match x.to_decimal(places) {
            Some(decimal) => DecimalAnswer::some(&decimal),
            None => DecimalAnswer::none(OUTSIDE),
        },
        Err(error) => DecimalAnswer::none(error.number()),
    }
}

impl DecimalAnswer {
    /// Returns a result.
    #[tactic(auto, using(ratio64::proofs::DecimalTexts::ten_up, crate::proofs::DecimalDigits::part_fits))]
    fn some(decimal: &Decimal) -> DecimalAnswer
        requires { unsigned_abs (units_of decimal.now) / 10 ^ places_of decimal.now < 2 ^ 64 }
        ensures status { result.status ≡ 0 }
        ensures sign { IsTrue result.is_negative ↔ (units_of decimal.now <ℤ pos 0) }
        ensures whole { result.whole ≡ unsigned_abs (units_of decimal.now) / 10 ^ places_of decimal.now }
        ensures part { result.part ≡ unsigned_abs (units_of decimal.now) % 10 ^ places_of decimal.now }
    {
        let size = decimal.units().unsigned_abs();
        let scale = 10_u128.pow(decimal.places());
        DecimalAnswer {
            status: ANSWER,
            is_negative: decimal.units() < 0,
            whole: (size / scale) as u64,
            part: (size % scale) as u64,
        }
    }

    /// Returns a rejection.
    fn none(status: u32) -> DecimalAnswer
        ensures { result ≡ record { status = status; is_negative = false; whole = 0; part = 0 } }
    {
        DecimalAnswer {
            status,
            is_negative: false,
            whole: 0,
            part: 0,
        }
    }
}
