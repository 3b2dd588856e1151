//! The error of the calls that divide an amount.

ghost use Rattle.std.specs.Prelude.{Some};
ghost use Rattle.applied.specs.SharesError.{error_text};

use std::error::Error;
use std::fmt;

/// Why an amount has no shares. `shares(100, &[0, 0], &mut [7, 7])` is `Err(SharesError::ZeroWeights)`.
#[derive(Debug, Clone, Copy, PartialEq, Eq, Hash)]
pub enum SharesError {
    /// There is not one share for each weight.
    DifferentLengths,
    /// The weights are all 0, or there are none.
    ZeroWeights,
}

/// `SharesError::ZeroWeights.to_string()` is `"the weights are all 0"`.
impl fmt::Display for SharesError {
    ghost output = { λ e. Some (error_text e) };

    fn fmt<W: fmt::Write>(&self, f: &mut fmt::Formatter<W>) -> fmt::Result {
        match self {
            Self::DifferentLengths => f.pad("there is not one share for each weight"),
            Self::ZeroWeights => f.pad("the weights are all 0"),
        }
    }
}

impl Error for SharesError {}
