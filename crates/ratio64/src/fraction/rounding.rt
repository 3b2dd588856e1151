//! Rounding to integers.

ghost use Rattle.std.specs.Prelude.{◌≡◌, ◌↔◌, pos, IsTrue};
ghost use Rattle.num_integer.specs.Division.{IsQuotient, IsRemainder, IsTruncated};
ghost use Rattle.ratio64.specs.Ratio.{num_of, den_of};
ghost use Rattle.ratio64.specs.Rounding.{IsRounded, IsRoundedEven};

use crate::Ratio;
use num_integer::{div_rem, div_round, div_round_even};

impl Ratio {
    /// Returns whether the fraction is an integer. `Ratio::new(6, 3).unwrap().is_integer()` is `true`,
    /// and `Ratio::new(1, 2).unwrap().is_integer()` is `false`.
    pub const fn is_integer(&self) -> bool
        ensures { IsTrue result ↔ (den_of self.now ≡ pos 1) }
    {
        self.den == 1
    }

    /// Returns the fraction rounded toward 0. `Ratio::new(-3, 2).unwrap().trunc()` is `-1`.
    pub fn trunc(&self) -> i64
        ensures { IsQuotient IsTruncated (num_of self.now) (den_of self.now) result }
    {
        let (whole, _) = div_rem(self.num, self.den);
        whole
    }

    /// Returns the nearest integer, and of two equally near the one farther from 0.
    /// `Ratio::new(5, 2).unwrap().round()` is `3`, and `Ratio::new(-3, 2).unwrap().round()` is `-2`.
    pub fn round(&self) -> i64
        ensures { IsRounded (num_of self.now) (den_of self.now) result }
    {
        div_round(self.num, self.den)
    }

    /// Returns the nearest integer, and of two equally near the even one.
    /// `Ratio::new(5, 2).unwrap().round_even()` is `2`, `Ratio::new(7, 2).unwrap().round_even()` is `4`, and
    /// `Ratio::new(-3, 2).unwrap().round_even()` is `-2`.
    pub fn round_even(&self) -> i64
        ensures { IsRoundedEven (num_of self.now) (den_of self.now) result }
    {
        div_round_even(self.num, self.den)
    }

    /// Returns the fraction minus [`Ratio::trunc`]. `Ok(Ratio::new(-3, 2).unwrap().fract())` is
    /// `Ratio::new(-1, 2)`.
    pub fn fract(&self) -> Self
        ensures num { IsRemainder IsTruncated (num_of self.now) (den_of self.now)
            (num_of result) }
        ensures den { den_of result ≡ den_of self.now }
    {
        let (_, rest) = div_rem(self.num, self.den);
        Self {
            num: rest,
            den: self.den,
        }
    }
}
