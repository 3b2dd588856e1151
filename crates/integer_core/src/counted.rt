//! Calls that also return the number of iterations of their loop.

ghost use Rattle.std.specs.Prelude.{◌+◌, ◌≤◌, ℕ};
ghost use Rattle.integer_core.specs.Divisors.{GcdFits, IsGreatestCommonDivisor};
ghost use Rattle.integer_core.specs.GcdRuns.{AreGcdIterations, IsBitLength};

use crate::Integer;
pub use crate::bezout::extended_gcd_counted;

/// The greatest common divisor by Stein's binary method, with the number of iterations of its loop.
/// `5i64.gcd_counted(&3)` is `(1, 2)`.
pub trait GcdCounted: Integer {
    /// Returns [`Integer::gcd`] and the number of iterations. `56i64.gcd_counted(&42)` is `(14, 1)`. The
    /// number is at most the sum of both bit lengths, and 0 if an operand is 0 or the smallest number of
    /// its type.
    ///
    /// [`Fits::gcd_fits`] tests the precondition.
    ///
    /// # Panics
    ///
    /// In plain Rust, if the greatest common divisor does not fit.
    fn gcd_counted(&self, other: &Self) -> (Self, u32)
        requires self_in_range { Self.fits (Self.value self.now) }
        requires other_in_range { Self.fits (Self.value other.now) }
        requires gcd_fits { GcdFits Self.fits (Self.value self.now) (Self.value other.now) }
        ensures in_range { Self.fits (Self.value result.0) }
        ensures greatest { IsGreatestCommonDivisor (Self.value self.now) (Self.value other.now)
            (Self.value result.0) }
        ensures iterations { AreGcdIterations Self.low (Self.value self.now) (Self.value other.now)
            result.1 }
        ensures bound { (k l : ℕ) → IsBitLength (Self.value self.now) k
            → IsBitLength (Self.value other.now) l → result.1 ≤ k + l };
}
