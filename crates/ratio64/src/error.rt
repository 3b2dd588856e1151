//! The error of the calls that make a fraction.

ghost use Rattle.std.specs.Prelude.{◌≡◌, Some};
ghost use Rattle.std.specs.Fmt.{padded};
ghost use Rattle.ratio64.specs.RatioError.{error_text, number_of};

use std::error::Error;
use std::fmt;

/// Why a call returns no fraction. `Ratio::new(1, 0)` is `Err(RatioError::ZeroDenominator)`.
#[derive(Debug, Clone, Copy, PartialEq, Eq, Hash)]
pub enum RatioError {
    /// The denominator is 0.
    ZeroDenominator,
    /// In lowest terms, the numerator or the denominator does not fit in `i64`.
    NotFitting,
}

impl RatioError {
    /// Returns the number of the error, which no version changes.
    /// `RatioError::ZeroDenominator.number()` is `1`, and `RatioError::NotFitting.number()` is `2`.
    pub const fn number(&self) -> u32
        ensures { result ≡ number_of self.now }
    {
        match self {
            Self::ZeroDenominator => 1,
            Self::NotFitting => 2,
        }
    }
}

/// `RatioError::ZeroDenominator.to_string()` is `"the denominator is 0"`.
impl fmt::Display for RatioError {
    ghost output = { λ e. Some (error_text e) };

    ghost styled_output = { λ e spec. Some (padded spec (error_text e)) };

    fn fmt<W: fmt::Write>(&self, f: &mut fmt::Formatter<W>) -> fmt::Result {
        match self {
            Self::ZeroDenominator => f.pad("the denominator is 0"),
            Self::NotFitting => f.pad("a part of the reduced fraction does not fit in 64 bits"),
        }
    }
}

impl Error for RatioError {}
