//! The sign of a fraction, and its magnitude.

ghost use Rattle.std.specs.Prelude.{◌≡◌, ◌≢◌, ◌↔◌, ◌^◌, ◌<ℤ◌, pos, neg_ℤ, unsigned_abs, Err, IfErr, IsTrue};
ghost use Rattle.std.specs.Int.{int_signum};
ghost use Rattle.ratio64.specs.Ratio.{AnswersFraction, num_of, den_of};

use crate::{Ratio, RatioError};

impl Ratio {
    /// Returns whether the fraction is 0. `Ratio::zero().is_zero()` is `true`.
    pub const fn is_zero(&self) -> bool
        ensures { IsTrue result ↔ (num_of self.now ≡ pos 0) }
    {
        self.num == 0
    }

    /// Returns whether the fraction is positive. `Ratio::one().is_positive()` is `true`, and
    /// `Ratio::zero().is_positive()` is `false`.
    pub const fn is_positive(&self) -> bool
        ensures { IsTrue result ↔ (pos 0 <ℤ num_of self.now) }
    {
        self.num > 0
    }

    /// Returns whether the fraction is negative. `Ratio::from(-1).is_negative()` is `true`, and
    /// `Ratio::zero().is_negative()` is `false`.
    pub const fn is_negative(&self) -> bool
        ensures { IsTrue result ↔ (num_of self.now <ℤ pos 0) }
    {
        self.num < 0
    }

    /// Returns the sign: -1, 0 or 1. `Ratio::new(-3, 2).unwrap().signum()` is `Ratio::from(-1)`.
    pub fn signum(&self) -> Self
        ensures num { num_of result ≡ int_signum (num_of self.now) }
        ensures den { den_of result ≡ pos 1 }
    {
        Self::from(self.num.signum())
    }

    /// Returns the negation. `Ratio::new(-3, 2).unwrap().checked_neg()` is `Ratio::new(3, 2)`.
    ///
    /// # Errors
    ///
    /// - [`RatioError::NotFitting`] if the numerator is `i64::MIN`.
    pub fn checked_neg(&self) -> Result<Self, RatioError>
        ensures negation { AnswersFraction (neg_ℤ (num_of self.now)) (den_of self.now) result }
        ensures never_zero { result ≢ Err RatioError.ZeroDenominator }
        ensures least { IfErr result (λ _. num_of self.now ≡ neg_ℤ (pos (2 ^ 63))) }
    {
        match self.num.checked_neg() {
            Some(num) => Ok(Self { num, den: self.den }),
            None => Err(RatioError::NotFitting),
        }
    }

    /// Returns the magnitude. `Ratio::new(-3, 2).unwrap().checked_abs()` is `Ratio::new(3, 2)`.
    ///
    /// # Errors
    ///
    /// - [`RatioError::NotFitting`] if the numerator is `i64::MIN`.
    pub fn checked_abs(&self) -> Result<Self, RatioError>
        ensures magnitude { AnswersFraction (pos (unsigned_abs (num_of self.now)))
            (den_of self.now) result }
        ensures never_zero { result ≢ Err RatioError.ZeroDenominator }
        ensures least { IfErr result (λ _. num_of self.now ≡ neg_ℤ (pos (2 ^ 63))) }
    {
        match self.num.checked_abs() {
            Some(num) => Ok(Self { num, den: self.den }),
            None => Err(RatioError::NotFitting),
        }
    }
}
