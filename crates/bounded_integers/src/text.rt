//! Prints an integer of a range, and reads one.

ghost use Rattle.std.specs.Prelude.{Some};
ghost use Rattle.std.specs.Fmt.{signed_decimal, styled_signed_decimal};
ghost use Rattle.bounded_integers.specs.Texts.{ReadsBounded};

use crate::{BoundedError, Own, Range, Ranged};
use std::fmt;
use std::str::FromStr;

/// Prints the number, under each format as an `i64` is printed. `Percent::new(7).to_string()` is `"7"`.
impl<R: Range> fmt::Display for Own<Ranged<R>> {
    ghost output = { λ x. Some (signed_decimal x.form.number) };

    ghost styled_output = { λ x spec. Some (styled_signed_decimal spec x.form.number) };

    fn fmt<W: fmt::Write>(&self, f: &mut fmt::Formatter<W>) -> fmt::Result {
        self.form.number.fmt(f)
    }
}

/// Parses a number as an `i64` is parsed. `"7".parse::<Percent>()` is `Ok(Percent::new(7))`, and
/// `"101".parse::<Percent>()` is `Err(BoundedError)`.
///
/// # Errors
///
/// - [`BoundedError`] if the string is not an integer of the range.
impl<R: Range> FromStr for Own<Ranged<R>> {
    type Err = BoundedError;

    ghost from_str_gives = { λ text result. ReadsBounded R.LOW R.HIGH (λ x. x.form.number) text result };

    fn from_str(text: &str) -> Result<Self, BoundedError> {
        let number = text.parse::<i64>().map_err(|_| BoundedError)?;
        Self::try_from(number)
    }
}
