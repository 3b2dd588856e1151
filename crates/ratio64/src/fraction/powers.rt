//! Powers of fractions.

ghost use Rattle.std.specs.Prelude.{◌<ℤ◌, ◌≤ℤ◌, pos, unsigned_abs};
ghost use Rattle.std.specs.Int.{int_pow};
ghost use Rattle.ratio64.specs.Ratio.{AnswersFraction, num_of, den_of};

use crate::{Ratio, RatioError};

impl Ratio {
    /// Returns the power, which for a negative exponent is that of the reciprocal.
    /// `Ratio::new(2, 3).unwrap().checked_pow(2)` is `Ratio::new(4, 9)`,
    /// `Ratio::new(2, 3).unwrap().checked_pow(-1)` is `Ratio::new(3, 2)`, and
    /// `Ratio::zero().checked_pow(0)` is `Ok(Ratio::one())`.
    ///
    /// # Errors
    ///
    /// - [`RatioError::ZeroDenominator`] if the fraction is 0 and the exponent is negative;
    /// - [`RatioError::NotFitting`] if a part of the power does not fit an `i64`.
    pub fn checked_pow(&self, exponent: i32) -> Result<Self, RatioError>
        ensures from_zero { pos 0 ≤ℤ exponent → AnswersFraction
            (int_pow (num_of self.now) (unsigned_abs exponent))
            (int_pow (den_of self.now) (unsigned_abs exponent)) result }
        ensures below_zero { exponent <ℤ pos 0 → AnswersFraction
            (int_pow (den_of self.now) (unsigned_abs exponent))
            (int_pow (num_of self.now) (unsigned_abs exponent)) result }
    {
        if exponent < 0 {
            self.checked_recip()?.power(exponent.unsigned_abs())
        } else {
            self.power(exponent.unsigned_abs())
        }
    }

    /// Returns the power of a degree that is not negative. The powers of two coprime parts are coprime.
    fn power(&self, degree: u32) -> Result<Self, RatioError>
        ensures { AnswersFraction (int_pow (num_of self.now) degree)
            (int_pow (den_of self.now) degree) result }
    {
        let num = self.num.checked_pow(degree).ok_or(RatioError::NotFitting)?;
        let den = self.den.checked_pow(degree).ok_or(RatioError::NotFitting)?;
        Ok(Self { num, den })
    }
}
