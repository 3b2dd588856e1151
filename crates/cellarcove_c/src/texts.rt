//! Fractions that are read from a text. The text is its bytes, with no zero at the end.

ghost use Rattle.std.specs.Prelude.{◌≡◌, pos, IsUtf8, Result};
ghost use Rattle.ratio64.specs.DecimalText.{ReadsDecimal};
ghost use Rattle.ratio64.specs.RatioText.{ReadsFraction};
ghost use Rattle.ratio64.specs.declared.decimal.Decimal.{Decimal};
ghost use Rattle.ratio64.specs.declared.decimal.reading.ParseDecimalError.{ParseDecimalError};
ghost use Rattle.ratio64.specs.declared.fraction.Ratio.{Ratio};
ghost use Rattle.ratio64.specs.declared.parse.ParseRatioError.{ParseRatioError};
ghost use Rattle.cellarcove_c.specs.Statuses.{outside};
ghost use Rattle.cellarcove_c.specs.Texts.{StandsForDecimal, StandsForRead, status_of, status_of_decimal};

use crate::answers::{NOT_FITTING, OUTSIDE, ZERO_DENOMINATOR};
use crate::fractions::FractionAnswer;
use ratio64::{Decimal, ParseDecimalError, ParseRatioError, Ratio};
use std::str;

/// Returns the fraction of a text, which is an integer or two integers with a slash between. That of
/// `6/-4` is -3/2.
///
/// `OUTSIDE` if the text is none of a fraction, or an integer of it has more than 38 digits, leading zeros
/// aside. `ZERO_DENOMINATOR` if the denominator is 0. `NOT_FITTING` if a part of the reduced fraction does
/// not fit.
#[unsafe(no_mangle)]
pub extern "C" fn cellarcove_fraction_from_text(text: &[u8]) -> FractionAnswer
    ensures read { IsUtf8 text.now → (r : Result Ratio ParseRatioError) × ReadsFraction text.now r
        × StandsForRead r result.status result.value.num result.value.den }
    ensures no_text { ¬ (IsUtf8 text.now)
        → result ≡ record { status = outside; value = record { num = pos 0; den = pos 0 } } }
{
    match str::from_utf8(text) {
        Ok(text) => fraction_of(text),
        Err(_) => FractionAnswer::none(OUTSIDE),
    }
}

/// Returns the fraction that a decimal text is, exactly. That of `-0.05` is -1/20.
///
/// `OUTSIDE` if the text is not an optional `-`, then digits, and perhaps a point with digits after it, or
/// if a digit after the 18th place is not 0. `NOT_FITTING` if a part of the reduced fraction does not fit.
#[unsafe(no_mangle)]
pub extern "C" fn cellarcove_fraction_from_decimal(text: &[u8]) -> FractionAnswer
    ensures read { IsUtf8 text.now → (r : Result Decimal ParseDecimalError) × ReadsDecimal text.now r
        × StandsForDecimal r result.status result.value.num result.value.den }
    ensures no_text { ¬ (IsUtf8 text.now)
        → result ≡ record { status = outside; value = record { num = pos 0; den = pos 0 } } }
{
    match str::from_utf8(text) {
        Ok(text) => fraction_of_decimal(text),
        Err(_) => FractionAnswer::none(OUTSIDE),
    }
}

/// Returns the result of reading a fraction.
fn fraction_of(text: &str) -> FractionAnswer
    ensures { (r : Result Ratio ParseRatioError) × ReadsFraction text.now r
        × StandsForRead r result.status result.value.num result.value.den }
{
    match text.parse::<Ratio>() {
        Ok(ratio) => FractionAnswer::some(&ratio),
        Err(error) => FractionAnswer::none(status_of(error)),
    }
}

/// Returns the status of an error of reading a fraction.
fn status_of(error: ParseRatioError) -> u32
    ensures { result ≡ status_of error }
{
    match error {
        ParseRatioError::NotAFraction | ParseRatioError::TooLong => OUTSIDE,
        ParseRatioError::ZeroDenominator => ZERO_DENOMINATOR,
        ParseRatioError::NotFitting => NOT_FITTING,
    }
}

/// Returns the result of reading a decimal number.
fn fraction_of_decimal(text: &str) -> FractionAnswer
    ensures { (r : Result Decimal ParseDecimalError) × ReadsDecimal text.now r
        × StandsForDecimal r result.status result.value.num result.value.den }
{
    match text.parse::<Decimal>() {
        Ok(decimal) => FractionAnswer::of(decimal.to_ratio()),
        Err(error) => FractionAnswer::none(status_of_decimal(error)),
    }
}

/// Returns the status of an error of reading a decimal number.
fn status_of_decimal(error: ParseDecimalError) -> u32
    ensures { result ≡ status_of_decimal error }
{
    match error {
        ParseDecimalError::NotADecimal | ParseDecimalError::TooManyPlaces => OUTSIDE,
        ParseDecimalError::NotFitting => NOT_FITTING,
    }
}
