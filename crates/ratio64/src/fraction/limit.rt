//! The nearest fraction with a small denominator, and with two small parts.

ghost use Rattle.std.specs.Int.{w64};
ghost use Rattle.std.specs.Prelude.{◌≡◌, ◌^◌, ◌<◌, ◌<ℤ◌, ◌+ℤ◌, ◌*ℤ◌, pos, FitsSigned};
ghost use Rattle.ratio64.specs.Limiting.{AreNearestParts, IsNearestWithin};
ghost use Rattle.ratio64.specs.Ratio.{num_of, den_of};

use crate::Ratio;
use crate::neighbours::{Neighbour, nearer, nearest_parts, neighbours};
use crate::reduction::product;
use num_integer::guards::check;
use num_integer::{Magnitudes, div_mod_floor};

impl Ratio {
    /// Returns the nearest fraction whose denominator is at most `max`. Of those equally near it
    /// returns the one with the smallest denominator, and of two integers the smaller.
    /// `Ok(Ratio::new(3, 10).unwrap().limit_denominator(5))` is `Ratio::new(1, 3)`,
    /// `Ok(Ratio::new(5, 12).unwrap().limit_denominator(4))` is `Ratio::new(1, 2)`, and
    /// `Ratio::new(3, 2).unwrap().limit_denominator(1)` is `Ratio::from(1)`.
    ///
    /// # Panics
    ///
    /// In plain Rust, if the limit is not positive.
    pub fn limit_denominator(&self, max: i64) -> Self
        requires { pos 0 <ℤ max }
        ensures { IsNearestWithin (num_of self.now) (den_of self.now) max (num_of result)
            (den_of result) }
    {
        check(max > 0, "the limit is not positive");
        if self.den <= max {
            return *self;
        }
        let (whole, part) = div_mod_floor(self.num, self.den);
        let (part, den, limit) = (
            part.unsigned_abs(),
            self.den.unsigned_abs(),
            max.unsigned_abs(),
        );
        let (below, above) = neighbours(part, den, limit);
        let nearest = nearer(below, above);
        Self {
            num: numerator(whole, nearest),
            den: nearest.den as i64,
        }
    }

    /// Returns the nearest fraction whose denominator and numerator are both at most `max`, apart from the
    /// sign: a pair of gears, say. Of those equally near it returns the one with the smallest
    /// denominator, and of two integers the one nearer to 0.
    /// `Ok(Ratio::new(314_159, 100_000).unwrap().limit_parts(120))` is `Ratio::new(22, 7)`, and
    /// `Ok(Ratio::new(-3, 2).unwrap().limit_parts(2))` is `Ratio::new(-1, 1)`.
    ///
    /// # Panics
    ///
    /// In plain Rust, if the limit is not positive.
    pub fn limit_parts(&self, max: i64) -> Self
        requires { pos 0 <ℤ max }
        ensures { AreNearestParts (num_of self.now) (den_of self.now) max (num_of result)
            (den_of result) }
    {
        check(max > 0, "the limit is not positive");
        let (num, den, limit) = (
            self.num.unsigned_abs(),
            self.den.unsigned_abs(),
            max.unsigned_abs(),
        );
        if num.max(den) <= limit {
            return *self;
        }
        let nearest = nearest_parts(num, den, limit);
        Self {
            num: self.num.with_magnitude(nearest.num),
            den: nearest.den as i64,
        }
    }
}

/// Returns the numerator of the sum of an integer and a fraction, over the denominator of the fraction.
fn numerator(whole: i64, part: Neighbour) -> i64
    requires den { part.den < 2 ^ 63 }
    requires fits { FitsSigned w64 (whole *ℤ pos part.den +ℤ pos part.num) }
    ensures { result ≡ whole *ℤ pos part.den +ℤ pos part.num }
{
    let num = product(whole, part.den as i64) + i128::from(part.num);
    num as i64
}
