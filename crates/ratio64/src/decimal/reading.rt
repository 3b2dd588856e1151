//! Reads a decimal number from a string.

ghost use Rattle.std.specs.Prelude.{◌≡◌, ◌≢◌, ◌≤◌, ◌<◌, ◌^◌, ◌+◌, ◌*◌, ◌++◌, ◌↔◌, ℕ, ℤ, Err, IsTrue, MatchOption, drop, length, neg_ℤ, pos, take, unsigned_abs, if◌then◌else◌};
ghost use Rattle.std.specs.Str.Parse.{AllDigits, IsNumeral, digits_value, starts_with_minus};
ghost use Rattle.ratio64.specs.Decimal.{SpellsDecimal};
ghost use Rattle.ratio64.specs.DecimalText.{AnswersDecimal, AreParts};
ghost use Rattle.ratio64.specs.IntegerWords.{unsigned_part, whole_of};

use crate::Decimal;
use crate::integer_words::is_integer;
use std::error::Error;
use std::fmt;
use std::str::FromStr;

/// Why a string is not a decimal number. `"1,5".parse::<Decimal>()` is `Err(ParseDecimalError::NotADecimal)`.
#[derive(Debug, Clone, Copy, PartialEq, Eq, Hash)]
pub enum ParseDecimalError {
    /// The string is not an optional `-`, then digits, and perhaps a point with digits after it. So group separators,
    /// decimal commas, currencies, exponents, `+` and spaces are errors.
    NotADecimal,
    /// A digit after the 18th place is not 0.
    TooManyPlaces,
    /// Without the point, and without the zeros after the 18th place, the number is 2^127 or greater, or -2^127 or less.
    NotFitting,
}

/// `ParseDecimalError::NotADecimal.to_string()` is `"the text is not a decimal number"`.
impl fmt::Display for ParseDecimalError {
    ghost use Rattle.std.specs.Prelude.{Some};
    ghost use Rattle.std.specs.Fmt.{padded};
    ghost use Rattle.ratio64.specs.DecimalText.{parse_error_text};

    ghost output = { λ e. Some (parse_error_text e) };

    ghost styled_output = { λ e spec. Some (padded spec (parse_error_text e)) };

    fn fmt<W: fmt::Write>(&self, f: &mut fmt::Formatter<W>) -> fmt::Result {
        match self {
            Self::NotADecimal => f.pad("the text is not a decimal number"),
            Self::TooManyPlaces => f.pad("a digit after the 18th place is not 0"),
            Self::NotFitting => f.pad("the decimal number does not fit in 128 bits"),
        }
    }
}

impl Error for ParseDecimalError {}

/// Reads an optional `-`, digits, and perhaps a point with digits after it, as `Display` prints them. The places are
/// those of the string, but zeros after the 18th are dropped. `"-0.05".parse::<Decimal>().ok()` is `Decimal::new(-5, 2)`,
/// and `"1,234.50".parse::<Decimal>()`, `"1e3".parse::<Decimal>()` and `".5".parse::<Decimal>()` are
/// `Err(ParseDecimalError::NotADecimal)`.
///
/// # Errors
///
/// - [`ParseDecimalError::NotADecimal`] if the string is anything else;
/// - [`ParseDecimalError::TooManyPlaces`] if a digit after the 18th place is not 0;
/// - [`ParseDecimalError::NotFitting`] if the number does not fit 128 bits, without its point and the zeros that are
///   dropped.
impl FromStr for Decimal {
    type Err = ParseDecimalError;

    ghost use Rattle.ratio64.specs.DecimalText.{ReadsDecimal};

    ghost from_str_gives = { ReadsDecimal };

    fn from_str(text: &str) -> Result<Self, ParseDecimalError> {
        match split(text) {
            Some((whole, part)) => number(whole, part),
            None => Err(ParseDecimalError::NotADecimal),
        }
    }
}

/// Returns what stands before the point and after it, or `None` if the string is no decimal number.
fn split(text: &str) -> Option<(&str, &str)>
    ensures { MatchOption result ((units : ℤ) (places : ℕ) → ¬ (SpellsDecimal text.now units places))
        (λ parts. AreParts text.now parts.0.now parts.1.now) }
{
    match text.split_once('.') {
        None => {
            if !is_integer(text) {
                return None;
            }
            Some((text, ""))
        }
        Some((whole, part)) => {
            if !is_integer(whole) || !is_numeral(part) {
                return None;
            }
            Some((whole, part))
        }
    }
}

/// Returns `true` if the text is one or more digits.
#[tactic(auto, using(crate::proofs::ReadDecimals::tells_numeral))]
fn is_numeral(text: &str) -> bool
    ensures { IsTrue result ↔ IsNumeral 10 text.now }
{
    match text.as_bytes() {
        [b'-', ..] => false,
        _ => is_integer(text),
    }
}

/// Returns the number, of which these digits stand before the point and after it.
fn number(whole: &str, part: &str) -> Result<Decimal, ParseDecimalError>
    requires whole { IsNumeral 10 (unsigned_part whole.now) }
    requires part { AllDigits 10 part.now }
    ensures number { AnswersDecimal (whole_of (whole.now ++ part.now)) (length part.now) result }
    ensures spelled { result ≢ Err ParseDecimalError.NotADecimal }
{
    let Some(part) = kept(part) else {
        return Err(ParseDecimalError::TooManyPlaces);
    };
    let Some(magnitude) = magnitude(whole, part) else {
        return Err(ParseDecimalError::NotFitting);
    };
    Ok(Decimal {
        units: with_magnitude(whole, magnitude),
        places: part.len() as u32,
    })
}

/// Returns the first 18 digits, or `None` if a later one is not 0.
fn kept(part: &str) -> Option<&str>
    requires { AllDigits 10 part.now }
    ensures { MatchOption result (0 < digits_value 10 (drop 18 part.now))
        (λ kept. (kept.now ≡ take 18 part.now) × (digits_value 10 (drop 18 part.now) ≡ 0)) }
{
    if part.len() <= 18 {
        return Some(part);
    }
    let (kept, rest) = part.split_at(18);
    if !is_zero(rest) {
        return None;
    }
    Some(kept)
}

/// Returns `true` if each of the digits is 0.
fn is_zero(digits: &str) -> bool
    requires { IsNumeral 10 digits.now }
    ensures { IsTrue result ↔ (digits_value 10 digits.now ≡ 0) }
{
    digits.parse::<u64>().unwrap_or(1) == 0
}

/// Returns the number that the digits of both write, or `None` if it is not below 2^127.
fn magnitude(whole: &str, part: &str) -> Option<i128>
    requires whole { IsNumeral 10 (unsigned_part whole.now) }
    requires part { AllDigits 10 part.now }
    requires few { length part.now ≤ 18 }
    ensures { MatchOption result (2 ^ 127 ≤ digits_value 10 (unsigned_part whole.now ++ part.now))
        (λ magnitude. (magnitude ≡ pos (digits_value 10 (unsigned_part whole.now ++ part.now)))
        × (digits_value 10 (unsigned_part whole.now ++ part.now) < 2 ^ 127)) }
{
    let scale = 10_u128.pow(part.len() as u32);
    joined(whole_magnitude(whole)?, scale, part_magnitude(part))
}

/// Returns the magnitude of the integer, or `None` if it is above 2^127.
fn whole_magnitude(whole: &str) -> Option<u128>
    requires { IsNumeral 10 (unsigned_part whole.now) }
    ensures { MatchOption result (2 ^ 127 ≤ unsigned_abs (whole_of whole.now))
        (λ magnitude. magnitude ≡ unsigned_abs (whole_of whole.now)) }
{
    match whole.parse::<i128>() {
        Ok(number) => Some(number.unsigned_abs()),
        Err(_) => None,
    }
}

/// Returns the number that at most 18 digits write.
#[tactic(auto, using(crate::proofs::ReadDecimals::few_digits))]
fn part_magnitude(part: &str) -> u128
    requires digits { AllDigits 10 part.now }
    requires few { length part.now ≤ 18 }
    ensures { result ≡ digits_value 10 part.now }
{
    u128::from(part.parse::<u64>().unwrap_or(0))
}

/// Returns `whole * scale + part`, or `None` if it is not below 2^127.
fn joined(whole: u128, scale: u128, part: u128) -> Option<i128>
    ensures { MatchOption result (2 ^ 127 ≤ whole * scale + part)
        (λ magnitude. (magnitude ≡ pos (whole * scale + part)) × (whole * scale + part < 2 ^ 127)) }
{
    i128::try_from(whole.checked_mul(scale)?.checked_add(part)?).ok()
}

/// Returns the number with this magnitude and the sign of the text.
fn with_magnitude(text: &str, magnitude: i128) -> i128
    requires { unsigned_abs magnitude < 2 ^ 127 }
    ensures { result ≡ (if starts_with_minus text.now then neg_ℤ magnitude else magnitude) }
{
    match text.as_bytes() {
        [b'-', ..] => -magnitude,
        _ => magnitude,
    }
}
