//! A fraction times an integer or another fraction, and a fraction rounded to a number of parts.

ghost use Rattle.std.specs.Prelude.{◌≡◌, ◌≢◌, ◌↔◌, ◌<◌, ◌^◌, ◌<ℤ◌, ◌*ℤ◌, pos, unsigned_abs, Err, FitsSigned};
ghost use Rattle.std.specs.Int.{w64};
ghost use Rattle.num_integer.specs.Checked.{AnswersWhere};
ghost use Rattle.num_integer.specs.Division.{IsCeiled, IsFloored, IsQuotient};
ghost use Rattle.num_integer.specs.Range.{EachFits};
ghost use Rattle.num_integer.specs.Rounding.{IsNearest, IsNearestEven};
ghost use Rattle.ratio64.specs.Ratio.{AnswersFraction, num_of, den_of};
ghost use Rattle.ratio64.specs.Rounding.{AnswersInParts, IsRounded, IsRoundedEven};
ghost use Rattle.ratio64.specs.Times.{AreTimes, IsWideQuotient};

use crate::reduction::product;
use crate::{Ratio, RatioError};
use num_integer::guards::check;
use num_integer::narrowing::narrowed;
use num_integer::{div_ceil, div_floor, div_round, div_round_even};

impl Ratio {
    /// Returns the fraction times `n`, rounded down, or `None` if that number does not fit.
    /// `Ratio::new(2, 3).unwrap().floor_times(100)` is `Some(66)`. The exact product need not fit:
    /// `Ratio::new(2, 3).unwrap().floor_times(i64::MAX)` is `Some(6148914691236517204)`.
    pub fn floor_times(&self, n: i64) -> Option<i64>
        ensures { AnswersWhere
            (EachFits (FitsSigned w64) (IsQuotient IsFloored (num_of self.now *ℤ n) (den_of self.now)))
            (IsQuotient IsFloored (num_of self.now *ℤ n) (den_of self.now)) result }
    {
        narrowed(self.wide_floor_times(n))
    }

    /// Returns the fraction times `n`, rounded up, or `None` if that number does not fit.
    /// `Ratio::new(2, 3).unwrap().ceil_times(100)` is `Some(67)`.
    pub fn ceil_times(&self, n: i64) -> Option<i64>
        ensures { AnswersWhere
            (EachFits (FitsSigned w64) (IsQuotient IsCeiled (num_of self.now *ℤ n) (den_of self.now)))
            (IsQuotient IsCeiled (num_of self.now *ℤ n) (den_of self.now)) result }
    {
        narrowed(self.wide_ceil_times(n))
    }

    /// Returns the fraction times `n`, rounded to the nearest integer and a half away from 0, or `None`
    /// if that integer does not fit. `Ratio::new(2, 3).unwrap().round_times(100)` is `Some(67)`, and
    /// `Ratio::new(1, 2).unwrap().round_times(-3)` is `Some(-2)`.
    pub fn round_times(&self, n: i64) -> Option<i64>
        ensures { AnswersWhere
            (EachFits (FitsSigned w64) (IsRounded (num_of self.now *ℤ n) (den_of self.now)))
            (IsRounded (num_of self.now *ℤ n) (den_of self.now)) result }
    {
        narrowed(self.wide_round_times(n))
    }

    /// Returns the fraction times `n`, rounded to the nearest integer and a half to the even one, or `None`
    /// if that integer does not fit. `Ratio::new(1, 2).unwrap().round_even_times(5)` is `Some(2)`, and
    /// `Ratio::new(1, 2).unwrap().round_even_times(-3)` is `Some(-2)`.
    pub fn round_even_times(&self, n: i64) -> Option<i64>
        ensures { AnswersWhere
            (EachFits (FitsSigned w64) (IsRoundedEven (num_of self.now *ℤ n) (den_of self.now)))
            (IsRoundedEven (num_of self.now *ℤ n) (den_of self.now)) result }
    {
        narrowed(self.wide_round_even_times(n))
    }

    /// Returns the fraction times `n / d`. `Ratio::new(2, 3).unwrap().checked_times(9, 4)` is
    /// `Ratio::new(3, 2)`.
    ///
    /// # Errors
    ///
    /// - [`RatioError::ZeroDenominator`] if `d` is 0;
    /// - [`RatioError::NotFitting`] if a part of the product does not fit an `i64`.
    pub fn checked_times(&self, n: i64, d: i64) -> Result<Self, RatioError>
        ensures product { AnswersFraction (num_of self.now *ℤ n) (d *ℤ den_of self.now) result }
        ensures zero_denominator { (result ≡ Err RatioError.ZeroDenominator) ↔ (d ≡ pos 0) }
    {
        Self::reduced(product(self.num, n), product(d, self.den))
    }

    /// Returns the largest multiple of `1 / parts` that is at most the fraction. In quarters,
    /// `Ratio::new(5, 3).unwrap().floor_to(4)` is `Ratio::new(3, 2)`.
    ///
    /// # Panics
    ///
    /// In plain Rust, if the number of parts is not positive.
    ///
    /// # Errors
    ///
    /// - [`RatioError::NotFitting`] if a part of the result does not fit an `i64`.
    pub fn floor_to(&self, parts: i64) -> Result<Self, RatioError>
        requires { pos 0 <ℤ parts }
        ensures floored { AnswersInParts
            (IsQuotient IsFloored (num_of self.now *ℤ parts) (den_of self.now)) parts result }
        ensures never_zero { result ≢ Err RatioError.ZeroDenominator }
    {
        in_parts(self.wide_floor_times(parts), parts)
    }

    /// Returns the smallest multiple of `1 / parts` that is at least the fraction. In quarters,
    /// `Ratio::new(5, 3).unwrap().ceil_to(4)` is `Ratio::new(7, 4)`.
    ///
    /// # Panics
    ///
    /// In plain Rust, if the number of parts is not positive.
    ///
    /// # Errors
    ///
    /// - [`RatioError::NotFitting`] if a part of the result does not fit an `i64`.
    pub fn ceil_to(&self, parts: i64) -> Result<Self, RatioError>
        requires { pos 0 <ℤ parts }
        ensures ceiled { AnswersInParts
            (IsQuotient IsCeiled (num_of self.now *ℤ parts) (den_of self.now)) parts result }
        ensures never_zero { result ≢ Err RatioError.ZeroDenominator }
    {
        in_parts(self.wide_ceil_times(parts), parts)
    }

    /// Returns the nearest multiple of `1 / parts`, and of two equally near the one farther from 0. In
    /// hundredths, `Ratio::new(5, 3).unwrap().round_to(100)` is `Ratio::new(167, 100)`, and
    /// `Ratio::new(1, 8).unwrap().round_to(100)` is `Ratio::new(13, 100)`.
    ///
    /// # Panics
    ///
    /// In plain Rust, if the number of parts is not positive.
    ///
    /// # Errors
    ///
    /// - [`RatioError::NotFitting`] if a part of the result does not fit an `i64`.
    pub fn round_to(&self, parts: i64) -> Result<Self, RatioError>
        requires { pos 0 <ℤ parts }
        ensures rounded { AnswersInParts
            (IsRounded (num_of self.now *ℤ parts) (den_of self.now)) parts result }
        ensures never_zero { result ≢ Err RatioError.ZeroDenominator }
    {
        in_parts(self.wide_round_times(parts), parts)
    }

    /// Returns the nearest multiple of `1 / parts`, and of two equally near the one that is an even number
    /// of parts. In hundredths, `Ratio::new(1, 8).unwrap().round_even_to(100)` is `Ratio::new(3, 25)`,
    /// which is 12 of them.
    ///
    /// # Panics
    ///
    /// In plain Rust, if the number of parts is not positive.
    ///
    /// # Errors
    ///
    /// - [`RatioError::NotFitting`] if a part of the result does not fit an `i64`.
    pub fn round_even_to(&self, parts: i64) -> Result<Self, RatioError>
        requires { pos 0 <ℤ parts }
        ensures rounded { AnswersInParts
            (IsRoundedEven (num_of self.now *ℤ parts) (den_of self.now)) parts result }
        ensures never_zero { result ≢ Err RatioError.ZeroDenominator }
    {
        in_parts(self.wide_round_even_times(parts), parts)
    }

    /// Returns the fraction times `n`, rounded down, which may not fit an `i64`.
    #[tactic(auto, using(crate::proofs::RoundedProducts::of_times))]
    fn wide_floor_times(&self, n: i64) -> i128
        ensures { IsWideQuotient IsFloored (num_of self.now *ℤ n) (den_of self.now) result }
    {
        let (num, den) = self.times(n);
        div_floor(num, den)
    }

    /// Returns the fraction times `n`, rounded up, which may not fit an `i64`.
    #[tactic(auto, using(crate::proofs::RoundedProducts::of_times))]
    fn wide_ceil_times(&self, n: i64) -> i128
        ensures { IsWideQuotient IsCeiled (num_of self.now *ℤ n) (den_of self.now) result }
    {
        let (num, den) = self.times(n);
        div_ceil(num, den)
    }

    /// Returns the fraction times `n`, rounded to the nearest integer and a half away from 0, which may not
    /// fit an `i64`.
    #[tactic(auto, using(crate::proofs::RoundedProducts::of_times))]
    fn wide_round_times(&self, n: i64) -> i128
        ensures { IsWideQuotient IsNearest (num_of self.now *ℤ n) (den_of self.now) result }
    {
        let (num, den) = self.times(n);
        div_round(num, den)
    }

    /// Returns the fraction times `n`, rounded to the nearest integer and a half to the even one, which may
    /// not fit an `i64`.
    #[tactic(auto, using(crate::proofs::RoundedProducts::of_times))]
    pub(crate) fn wide_round_even_times(&self, n: i64) -> i128
        ensures { IsWideQuotient IsNearestEven (num_of self.now *ℤ n) (den_of self.now) result }
    {
        let (num, den) = self.times(n);
        div_round_even(num, den)
    }

    /// Returns the parts of the fraction times `n`, which are not in lowest terms.
    fn times(&self, n: i64) -> (i128, i128)
        ensures { AreTimes (num_of self.now) (den_of self.now) n result.0 result.1 }
    {
        (product(self.num, n), i128::from(self.den))
    }
}

/// Returns `number / parts`.
fn in_parts(number: i128, parts: i64) -> Result<Ratio, RatioError>
    requires below { unsigned_abs number < 2 ^ 127 }
    requires positive { pos 0 <ℤ parts }
    ensures fraction { AnswersFraction number parts result }
    ensures never_zero { result ≢ Err RatioError.ZeroDenominator }
{
    check(parts > 0, "the number of parts is not positive");
    Ratio::reduced(number, i128::from(parts))
}
