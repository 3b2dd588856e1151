//! The error of a number that is out of range.

use std::error::Error;
use std::fmt;

/// A number that is out of range, or a string that is no integer. `Percent::try_from(-1)` is `Err(BoundedError)`.
#[derive(Debug, Clone, Copy, PartialEq, Eq, Hash)]
pub struct BoundedError;

/// `BoundedError.to_string()` is `"not an integer of the range"`.
impl fmt::Display for BoundedError {
    ghost use Rattle.std.specs.Prelude.{Some, codes};
    ghost use Rattle.std.specs.Fmt.{padded};

    ghost output = { λ _. Some (codes "not an integer of the range") };

    ghost styled_output = { λ _ spec. Some (padded spec (codes "not an integer of the range")) };

    fn fmt<W: fmt::Write>(&self, f: &mut fmt::Formatter<W>) -> fmt::Result {
        f.pad("not an integer of the range")
    }
}

impl Error for BoundedError {}
