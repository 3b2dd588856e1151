//! Square roots that also return the number of iterations of their loops.

ghost use Rattle.std.specs.Prelude.{◌≤◌, ◌≤ℤ◌, pos};
ghost use Rattle.integer_roots.specs.RootOf.{IsRoot};
ghost use Rattle.integer_roots.specs.SquareRuns.{AreSquareRootIterations};

use crate::root::Roots;

/// The square root by Newton's method, with the number of iterations of its two loops.
/// `16i64.sqrt_counted()` is `(4, 0)`.
pub trait SqrtCounted: Roots {
    /// Returns the square root and the number of iterations, which is at most five. `99.sqrt_counted()` is
    /// `(9, 2)`: the guesses are 8, 10 and 9.
    ///
    /// # Panics
    ///
    /// In plain Rust, if the number is negative.
    fn sqrt_counted(&self) -> (Self, u32)
        requires in_range { Self.fits (Self.value self.now) }
        requires from_zero { pos 0 ≤ℤ Self.value self.now }
        ensures in_range { Self.fits (Self.value result.0) }
        ensures root { IsRoot (Self.value self.now) 2 (Self.value result.0) }
        ensures iterations { AreSquareRootIterations (Self.value self.now) result.1 }
        ensures bound { result.1 ≤ 5 };
}
