//! Decimal numbers of so many places: fractions rounded, and their strings.

ghost use Rattle.std.specs.Prelude.{◌≡◌, ◌≢◌, ◌<◌, ◌≤◌, ◌^◌, ◌*ℤ◌, Err, Some, pos, unsigned_abs};
ghost use Rattle.num_integer.specs.Checked.{AnswersWhere};

mod order;
mod reading;

use crate::reduction::product;
use crate::{Ratio, RatioError};
use num_integer::padded::Text;
use num_integer::{Integer, div_floor};
pub use reading::ParseDecimalError;
use std::fmt;

/// A decimal number with at most 18 places: an amount of money, say.
/// `Ratio::new(1234, 5).unwrap().to_decimal(2).unwrap().to_string()` is `"246.80"`, and `"246.80".parse::<Decimal>().ok()`
/// is `Decimal::new(24680, 2)`. Decimals compare as numbers, whatever their places, so 0.5 equals 0.50:
/// `Decimal::new(5, 1) == Decimal::new(50, 2)` is `true`.
#[derive(Debug, Clone, Copy)]
pub struct Decimal {
    units: i128,
    places: u32,
    pub ghost few: { places ≤ 18 },
    pub ghost below: { unsigned_abs units < 2 ^ 127 },
}

impl Decimal {
    ghost use Rattle.ratio64.specs.Decimal.{places_of, units_of};
    ghost use Rattle.ratio64.specs.Ratio.{AnswersFraction};

    /// Returns `units` divided by 10 to the power of `places`, or `None` if there are more than 18 places or the units are
    /// -2^127. `Decimal::new(-5, 2).unwrap().to_string()` is `"-0.05"`, and `Decimal::new(1, 19)` is `None`.
    pub const fn new(units: i128, places: u32) -> Option<Self>
        ensures { AnswersWhere ((places ≤ 18) × (unsigned_abs units < 2 ^ 127))
            (λ x. (units_of x ≡ units) × (places_of x ≡ places)) result }
    {
        if places > 18 || units == i128::MIN {
            return None;
        }
        Some(Self { units, places })
    }

    /// Returns the integer with no places. `Decimal::from_integer(7).to_string()` is `"7"`.
    pub const fn from_integer(number: i64) -> Self
        ensures units { units_of result ≡ number }
        ensures places { places_of result ≡ 0 }
    {
        Self {
            units: number as i128,
            places: 0,
        }
    }

    /// Returns the number times 10 to the power of its places.
    /// `Ratio::new(1234, 5).unwrap().to_decimal(2).unwrap().units()` is `24680`.
    pub const fn units(&self) -> i128
        ensures { result ≡ units_of self.now }
    {
        self.units
    }

    /// Returns how many digits it has after the point, which is at most 18.
    /// `Ratio::new(1234, 5).unwrap().to_decimal(2).unwrap().places()` is `2`.
    pub const fn places(&self) -> u32
        ensures { result ≡ places_of self.now }
    {
        self.places
    }

    /// Returns the fraction that is the same number. `Decimal::new(-5, 2).unwrap().to_ratio()` is `Ratio::new(-1, 20)`.
    ///
    /// # Errors
    ///
    /// - [`RatioError::NotFitting`] if a part of the reduced fraction does not fit an `i64`.
    pub fn to_ratio(&self) -> Result<Ratio, RatioError>
        ensures fraction { AnswersFraction (units_of self.now) (pos (10 ^ places_of self.now)) result }
        ensures never_zero { result ≢ Err RatioError.ZeroDenominator }
    {
        Ratio::reduced(self.units, 10_i128.pow(self.places))
    }
}

impl Ratio {
    ghost use Rattle.num_integer.specs.Divisors.{Divides};
    ghost use Rattle.ratio64.specs.Decimal.{IsDecimalOf, places_of, units_of};
    ghost use Rattle.ratio64.specs.Ratio.{den_of, num_of};

    /// Returns the nearest decimal number with so many places, and of two equally near the one whose last
    /// digit is even, or `None` if there are more than 18 places.
    /// `Ratio::new(1234, 5).unwrap().to_decimal(2).unwrap().to_string()` is `"246.80"`,
    /// `Ratio::new(1, 8).unwrap().to_decimal(2).unwrap().to_string()` is `"0.12"`, and
    /// `Ratio::new(1, 2).unwrap().to_decimal(19)` is `None`.
    pub fn to_decimal(&self, places: u32) -> Option<Decimal>
        ensures { AnswersWhere (places ≤ 18) (IsDecimalOf (num_of self.now) (den_of self.now) places)
            result }
    {
        let scale = 10_i64.checked_pow(places)?;
        Some(Decimal {
            units: self.wide_round_even_times(scale),
            places,
        })
    }

    /// Returns this fraction as a decimal number with so many places, if that is exact, and otherwise `None`. It is `None`
    /// too if there are more than 18 places. `Ratio::new(1, 8).unwrap().to_decimal_exactly(3).unwrap().to_string()` is `"0.125"`, and
    /// `Ratio::new(1, 8).unwrap().to_decimal_exactly(2)` is `None`.
    pub fn to_decimal_exactly(&self, places: u32) -> Option<Decimal>
        ensures { AnswersWhere
            ((places ≤ 18) × Divides (den_of self.now) (num_of self.now *ℤ pos (10 ^ places)))
            (λ x. (places_of x ≡ places)
            × (units_of x *ℤ den_of self.now ≡ num_of self.now *ℤ pos (10 ^ places))) result }
    {
        let scale = 10_i64.checked_pow(places)?;
        if !scale.is_multiple_of(&self.den()) {
            return None;
        }
        let units = product(self.num(), div_floor(scale, self.den()));
        Some(Decimal { units, places })
    }
}

/// Prints the digits, with a point before those of its places.
/// `Ratio::new(-1, 20).unwrap().to_decimal(2).unwrap().to_string()` is `"-0.05"`.
impl fmt::Display for Decimal {
    ghost use Rattle.num_integer.specs.Padded.{padded_number};
    ghost use Rattle.ratio64.specs.Decimal.{decimal_text, places_of, units_of};

    ghost output = { λ x. Some (decimal_text (units_of x) (places_of x)) };

    ghost styled_output = { λ x spec. Some (padded_number spec (decimal_text (units_of x) (places_of x))) };

    fn fmt<W: fmt::Write>(&self, f: &mut fmt::Formatter<W>) -> fmt::Result {
        self.pad_number(f)
    }
}

impl Text for Decimal {
    ghost use Rattle.ratio64.specs.Decimal.{decimal_text, places_of, units_of};

    ghost text = { λ x. decimal_text (units_of x) (places_of x) };

    #[tactic(auto, using(crate::proofs::WideSums::numbers_read, crate::proofs::DecimalTexts::decimal_steps))]
    fn write_to<W: fmt::Write>(&self, f: &mut W) -> fmt::Result {
        let size = self.units.unsigned_abs();
        let scale = 10_u128.pow(self.places);
        let sign = if self.units < 0 { "-" } else { "" };
        let (whole, part, places) = (size / scale, size % scale, self.places as usize);
        if places == 0 {
            write!(f, "{sign}{whole}")
        } else {
            write!(f, "{sign}{whole}.{part:0places$}")
        }
    }
}
