//! Reads a fraction from a string.

ghost use Rattle.std.specs.Prelude.{◌≡◌, ◌≢◌, ◌≤◌, ◌<◌, ◌^◌, MatchResult, Err, unsigned_abs};
ghost use Rattle.std.specs.Str.Parse.{IsNumeral};
ghost use Rattle.ratio64.specs.IntegerWords.{unsigned_part, whole_of};
ghost use Rattle.ratio64.specs.RatioText.{AnswersSpelled};

use crate::integer_words::is_integer;
use crate::{Ratio, RatioError};
use std::error::Error;
use std::fmt;
use std::str::FromStr;

/// Why a string is not a fraction. `"1/".parse::<Ratio>()` is `Err(ParseRatioError::NotAFraction)`.
#[derive(Debug, Clone, Copy, PartialEq, Eq, Hash)]
pub enum ParseRatioError {
    /// The string is neither an integer nor two integers with a slash between them.
    NotAFraction,
    /// A part has more than 38 digits, leading zeros aside.
    TooLong,
    /// The denominator is 0.
    ZeroDenominator,
    /// In lowest terms, the numerator or the denominator does not fit in `i64`.
    NotFitting,
}

/// The same error: `ParseRatioError::from(RatioError::ZeroDenominator)` is
/// `ParseRatioError::ZeroDenominator`.
impl From<RatioError> for ParseRatioError {
    ghost use Rattle.ratio64.specs.RatioText.{answer_read};

    ghost from_gives = { λ refusal error. Err error ≡ answer_read (Err refusal) };

    fn from(error: RatioError) -> Self {
        match error {
            RatioError::ZeroDenominator => Self::ZeroDenominator,
            RatioError::NotFitting => Self::NotFitting,
        }
    }
}

/// `ParseRatioError::NotAFraction.to_string()` is `"the text is not a fraction"`.
impl fmt::Display for ParseRatioError {
    ghost use Rattle.std.specs.Prelude.{Some};
    ghost use Rattle.std.specs.Fmt.{padded};
    ghost use Rattle.ratio64.specs.RatioText.{parse_error_text};

    ghost output = { λ e. Some (parse_error_text e) };

    ghost styled_output = { λ e spec. Some (padded spec (parse_error_text e)) };

    fn fmt<W: fmt::Write>(&self, f: &mut fmt::Formatter<W>) -> fmt::Result {
        match self {
            Self::NotAFraction => f.pad("the text is not a fraction"),
            Self::TooLong => f.pad("a part has more than 38 digits, leading zeros aside"),
            Self::ZeroDenominator => RatioError::ZeroDenominator.fmt(f),
            Self::NotFitting => RatioError::NotFitting.fmt(f),
        }
    }
}

impl Error for ParseRatioError {}

/// Reads `num/den`, or only `num`, as `Display` prints it. Each part is an optional `-`, then digits.
/// `"6/-4".parse().ok()` is `Ratio::new(-3, 2).ok()`, and `"+1".parse::<Ratio>()` is
/// `Err(ParseRatioError::NotAFraction)`. Of parts of at most 38 digits only those in lowest terms have to fit:
/// `"18446744073709551614/2".parse()` is `Ok(Ratio::from(i64::MAX))`.
///
/// # Errors
///
/// - [`ParseRatioError::NotAFraction`] if the string is neither a whole number nor two of them with a
///   slash between;
/// - [`ParseRatioError::TooLong`] if a part has more than 38 digits, without its leading zeros, even if the
///   denominator is 0;
/// - [`ParseRatioError::ZeroDenominator`] if the denominator is 0;
/// - [`ParseRatioError::NotFitting`] if a part of the reduced fraction does not fit an `i64`.
impl FromStr for Ratio {
    type Err = ParseRatioError;

    ghost use Rattle.ratio64.specs.RatioText.{ReadsFraction};

    ghost from_str_gives = { ReadsFraction };

    fn from_str(text: &str) -> Result<Self, ParseRatioError> {
        let (num, den) = text.split_once('/').unwrap_or((text, "1"));
        if !is_integer(num) || !is_integer(den) {
            return Err(ParseRatioError::NotAFraction);
        }
        fraction_of(num, den)
    }
}

/// Returns the fraction of two integers.
#[tactic(auto, using(crate::proofs::WideSums::read))]
fn fraction_of(num: &str, den: &str) -> Result<Ratio, ParseRatioError>
    requires num { IsNumeral 10 (unsigned_part num.now) }
    requires den { IsNumeral 10 (unsigned_part den.now) }
    ensures fraction { AnswersSpelled (whole_of num.now) (whole_of den.now) result }
    ensures spelled { result ≢ Err ParseRatioError.NotAFraction }
{
    Ok(Ratio::reduced(integer(num)?, integer(den)?)?)
}

/// 10^38, the smallest number of 39 digits.
const LEAST_TOO_LONG: u128 = 100_000_000_000_000_000_000_000_000_000_000_000_000;

/// Returns the integer, or `TooLong` if it has more than 38 digits, leading zeros aside.
fn integer(text: &str) -> Result<i128, ParseRatioError>
    requires { IsNumeral 10 (unsigned_part text.now) }
    ensures { MatchResult result
        (λ number. (number ≡ whole_of text.now) × (unsigned_abs number < 10 ^ 38))
        (λ e. (e ≡ ParseRatioError.TooLong) × (10 ^ 38 ≤ unsigned_abs (whole_of text.now))) }
{
    match text.parse::<i128>() {
        Ok(number) if number.unsigned_abs() < LEAST_TOO_LONG => Ok(number),
        _ => Err(ParseRatioError::TooLong),
    }
}
