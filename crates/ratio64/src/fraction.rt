//! The type of fractions, its arithmetic, and its string.

ghost use Rattle.std.specs.Prelude.{◌≡◌, ◌≢◌, ◌⊎◌, ◌↔◌, ◌<◌, ◌^◌, ◌<ℤ◌, ◌≤ℤ◌, ◌+ℤ◌, ◌-ℤ◌, ◌*ℤ◌, pos, neg_ℤ, unsigned_abs, Err, IfErr, IfOk};
ghost use Rattle.num_integer.specs.Division.{IsCeiled, IsFloored, IsQuotient};
ghost use Rattle.ratio64.specs.Fraction.{IsReduced};
ghost use Rattle.ratio64.specs.ReducedPairs.{IsReduced_prop};

mod limit;
mod places;
mod powers;
mod rounding;
mod sign;
mod times;

use crate::RatioError;
use crate::reduction::{lowest_terms, numerator_of_difference, numerator_of_sum, product};
use num_integer::padded::Text;
use num_integer::{div_ceil, div_floor};
use std::fmt;

/// A fraction in lowest terms: its denominator is positive, and the greatest common divisor of its
/// parts is 1. So fractions of the same number are the same value: `Ratio::new(2, 4)` is
/// `Ratio::new(1, 2)`.
#[derive(Debug, Clone, Copy, PartialEq, Eq, Hash)]
pub struct Ratio {
    num: i64,
    den: i64,
    pub ghost reduced: { IsReduced num den } by { IsReduced_prop num den },
}

impl Ratio {
    ghost use Rattle.ratio64.specs.Ratio.{AnswersFraction, num_of, den_of};

    /// Returns `num / den` in lowest terms. With a positive denominator there is no error.
    /// `Ratio::new(6, -4)` is `Ratio::new(-3, 2)`, `Ratio::new(i64::MIN, 1).is_ok()` is `true`,
    /// `Ratio::new(i64::MIN, -1)` is `Err(RatioError::NotFitting)`, and `Ratio::new(1, 0)` is
    /// `Err(RatioError::ZeroDenominator)`.
    ///
    /// # Errors
    ///
    /// - [`RatioError::ZeroDenominator`] if `den` is 0;
    /// - [`RatioError::NotFitting`] if a part of the reduced fraction does not fit an `i64`.
    #[tactic(auto, using(crate::proofs::FittingParts::positive_is_answered))]
    pub fn new(num: i64, den: i64) -> Result<Self, RatioError>
        ensures fraction { AnswersFraction num den result }
        ensures refused { IfErr result (λ _. den ≤ℤ pos 0) }
        ensures positive { IfOk result (λ x. pos 0 <ℤ den_of x) }
    {
        Self::reduced(i128::from(num), i128::from(den))
    }

    /// Returns the integer as a fraction over 1, which a constant can do too.
    /// `Ok(Ratio::from_integer(5))` is `Ratio::new(5, 1)`.
    #[tactic(auto, using(crate::proofs::ExactResults::whole_is_exact))]
    pub const fn from_integer(num: i64) -> Self
        ensures num { num_of result ≡ num }
        ensures den { den_of result ≡ pos 1 }
    {
        Self { num, den: 1 }
    }

    /// Returns 0. `Ok(Ratio::zero())` is `Ratio::new(0, 1)`.
    pub const fn zero() -> Self
        ensures num { num_of result ≡ pos 0 }
        ensures den { den_of result ≡ pos 1 }
    {
        Self::from_integer(0)
    }

    /// Returns 1. `Ok(Ratio::one())` is `Ratio::new(1, 1)`.
    pub const fn one() -> Self
        ensures num { num_of result ≡ pos 1 }
        ensures den { den_of result ≡ pos 1 }
    {
        Self::from_integer(1)
    }

    /// Returns the numerator. `Ratio::new(6, -4).unwrap().num()` is `-3`.
    pub const fn num(&self) -> i64
        ensures { result ≡ num_of self.now }
    {
        self.num
    }

    /// Returns the denominator, which is positive. `Ratio::new(6, -4).unwrap().den()` is `2`.
    pub const fn den(&self) -> i64
        ensures { result ≡ den_of self.now }
    {
        self.den
    }

    /// Returns the fraction rounded down. `Ratio::new(-3, 2).unwrap().floor()` is `-2`.
    pub fn floor(&self) -> i64
        ensures { IsQuotient IsFloored (num_of self.now) (den_of self.now) result }
    {
        div_floor(self.num, self.den)
    }

    /// Returns the fraction rounded up. `Ratio::new(-3, 2).unwrap().ceil()` is `-1`.
    pub fn ceil(&self) -> i64
        ensures { IsQuotient IsCeiled (num_of self.now) (den_of self.now) result }
    {
        div_ceil(self.num, self.den)
    }

    /// Returns the sum. `Ratio::from(2).checked_add(&Ratio::new(1, 3).unwrap())` is
    /// `Ratio::new(7, 3)`.
    ///
    /// # Errors
    ///
    /// - [`RatioError::NotFitting`] if a part of the sum does not fit an `i64`.
    pub fn checked_add(&self, other: &Self) -> Result<Self, RatioError>
        ensures sum { AnswersFraction
            (num_of self.now *ℤ den_of other.now +ℤ num_of other.now *ℤ den_of self.now)
            (den_of self.now *ℤ den_of other.now) result }
        ensures never_zero { result ≢ Err RatioError.ZeroDenominator }
    {
        let num = numerator_of_sum(self.num, self.den, other.num, other.den);
        self.over_product_of_denominators(other, num)
    }

    /// Returns the difference. `Ratio::from(2).checked_sub(&Ratio::new(1, 3).unwrap())` is
    /// `Ratio::new(5, 3)`.
    ///
    /// # Errors
    ///
    /// - [`RatioError::NotFitting`] if a part of the difference does not fit an `i64`.
    pub fn checked_sub(&self, other: &Self) -> Result<Self, RatioError>
        ensures difference { AnswersFraction
            (num_of self.now *ℤ den_of other.now -ℤ num_of other.now *ℤ den_of self.now)
            (den_of self.now *ℤ den_of other.now) result }
        ensures never_zero { result ≢ Err RatioError.ZeroDenominator }
    {
        let num = numerator_of_difference(self.num, self.den, other.num, other.den);
        self.over_product_of_denominators(other, num)
    }

    /// Returns the product. `Ratio::from(2).checked_mul(&Ratio::new(3, 4).unwrap())` is
    /// `Ratio::new(3, 2)`.
    ///
    /// # Errors
    ///
    /// - [`RatioError::NotFitting`] if a part of the product does not fit an `i64`.
    #[tactic(auto, using(crate::proofs::WideSums::numbers_read))]
    pub fn checked_mul(&self, other: &Self) -> Result<Self, RatioError>
        ensures product { AnswersFraction (num_of self.now *ℤ num_of other.now)
            (den_of self.now *ℤ den_of other.now) result }
        ensures never_zero { result ≢ Err RatioError.ZeroDenominator }
    {
        self.over_product_of_denominators(other, product(self.num, other.num))
    }

    /// Returns the quotient. `Ratio::from(2).checked_div(&Ratio::new(-3, 4).unwrap())` is
    /// `Ratio::new(-8, 3)`.
    ///
    /// # Errors
    ///
    /// - [`RatioError::ZeroDenominator`] if `other` is 0;
    /// - [`RatioError::NotFitting`] if a part of the quotient does not fit an `i64`.
    #[tactic(auto, using(crate::proofs::WideSums::numbers_read))]
    pub fn checked_div(&self, other: &Self) -> Result<Self, RatioError>
        ensures quotient { AnswersFraction (num_of self.now *ℤ den_of other.now)
            (num_of other.now *ℤ den_of self.now) result }
        ensures zero_divisor { (result ≡ Err RatioError.ZeroDenominator)
            ↔ (num_of other.now ≡ pos 0) }
    {
        Self::reduced(product(self.num, other.den), product(other.num, self.den))
    }

    /// Returns the reciprocal `den / num`. `Ratio::new(-2, 3).unwrap().checked_recip()` is
    /// `Ratio::new(-3, 2)`.
    ///
    /// # Errors
    ///
    /// - [`RatioError::ZeroDenominator`] if the fraction is 0;
    /// - [`RatioError::NotFitting`] if the numerator is `i64::MIN`.
    #[tactic(auto, using(crate::proofs::FittingParts::positive_over_other))]
    pub fn checked_recip(&self) -> Result<Self, RatioError>
        ensures reciprocal { AnswersFraction (den_of self.now) (num_of self.now) result }
        ensures refused { IfErr result
            (λ _. (num_of self.now ≡ pos 0) ⊎ (num_of self.now ≡ neg_ℤ (pos (2 ^ 63)))) }
    {
        Self::new(self.den, self.num)
    }

    /// Returns `num` over the product of the two denominators.
    fn over_product_of_denominators(&self, other: &Self, num: i128) -> Result<Self, RatioError>
        requires { unsigned_abs num < 2 ^ 127 }
        ensures fraction { AnswersFraction num (den_of self.now *ℤ den_of other.now) result }
        ensures never_zero { result ≢ Err RatioError.ZeroDenominator }
    {
        Self::reduced(num, product(self.den, other.den))
    }

    /// Returns `num / den` in lowest terms.
    pub(crate) fn reduced(num: i128, den: i128) -> Result<Self, RatioError>
        requires num_below { unsigned_abs num < 2 ^ 127 }
        requires den_below { unsigned_abs den < 2 ^ 127 }
        ensures { AnswersFraction num den result }
    {
        if den == 0 {
            return Err(RatioError::ZeroDenominator);
        }
        let (num, den) = lowest_terms(num, den)?;
        Ok(Self { num, den })
    }
}

/// An integer as a fraction over 1, which never gives an error. `Ok(Ratio::from(5))` is
/// `Ratio::new(5, 1)`.
impl From<i64> for Ratio {
    ghost use Rattle.ratio64.specs.Ratio.{num_of, den_of};

    ghost from_gives = { λ number x. (num_of x ≡ number) × (den_of x ≡ pos 1) };

    fn from(num: i64) -> Self {
        Self::from_integer(num)
    }
}

/// The default is 0: `Ratio::default()` is `Ratio::zero()`.
impl Default for Ratio {
    ghost use Rattle.ratio64.specs.Ratio.{num_of, den_of};

    ghost is_default = { λ x. (num_of x ≡ pos 0) × (den_of x ≡ pos 1) };

    fn default() -> Self {
        Self::zero()
    }
}

/// Prints `num/den`, and only `num` if the denominator is 1.
/// `Ratio::new(6, -4).unwrap().to_string()` is `"-3/2"`.
///
/// A precision prints the nearest decimal number with so many places, and of two equally near the one whose last digit
/// is even, `+` and `0` do what they do for integers, and a width puts the number on the right.
/// `format!("{:.2}", Ratio::new(1234, 5).unwrap())` is `"246.80"`,
/// `format!("{:.20}", Ratio::new(2, 3).unwrap())` is `"0.66666666666666666667"`,
/// `format!("{:+}", Ratio::new(1, 2).unwrap())` is `"+1/2"`,
/// `format!("{:05}", Ratio::new(1, 2).unwrap())` is `"001/2"`, and
/// `format!("{:5}", Ratio::new(1, 2).unwrap())` is `"  1/2"`.
impl fmt::Display for Ratio {
    ghost use Rattle.std.specs.Prelude.{Some};
    ghost use Rattle.ratio64.specs.Decimal.{styled_text_of};
    ghost use Rattle.ratio64.specs.Ratio.{text_of};

    ghost output = { λ x. Some (text_of x) };

    ghost styled_output = { λ x spec. Some (styled_text_of spec x) };

    fn fmt<W: fmt::Write>(&self, f: &mut fmt::Formatter<W>) -> fmt::Result {
        match f.precision() {
            Some(places) => self.pad_with_places(places, f),
            None => self.pad_number(f),
        }
    }
}

impl Text for Ratio {
    ghost use Rattle.ratio64.specs.Ratio.{text_of};

    ghost text = { text_of };

    fn write_to<W: fmt::Write>(&self, f: &mut W) -> fmt::Result {
        let (num, den) = (self.num(), self.den());
        if den == 1 {
            write!(f, "{num}")
        } else {
            write!(f, "{num}/{den}")
        }
    }
}
