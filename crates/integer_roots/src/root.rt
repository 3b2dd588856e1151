//! The trait of roots, its free functions, and its implementation for the native types of at most 64 bits.

ghost use Rattle.std.specs.Prelude.{◌≡◌, ◌≢◌, ◌%◌, ◌≤ℤ◌, pos};
ghost use Rattle.integer_roots.specs.RootOf.{IsRoot, IsWithin64Bits};
ghost use Rattle.integer_roots.specs.NativeWidth.{within_64_bits};

use crate::counted::SqrtCounted;
use crate::magnitude_roots::{cube_root_by_magnitude, root_by_magnitude, square_root_by_magnitude};
use integer_core::guards::check;
use integer_core::operators::zero;
use integer_core::{Integer, NativeInteger};

/// Roots of an integer of at most 64 bits, rounded toward zero. `27.cbrt()` is `3`.
pub trait Roots: Integer {
    /// Returns the root of degree `n`, rounded toward zero. `12345.nth_root(4)` is `10`.
    ///
    /// [`checked::nth_root`] returns `None` if the precondition does not hold.
    ///
    /// # Panics
    ///
    /// In plain Rust, if `n` is 0, or if `n` is even and the number is negative.
    fn nth_root(&self, n: u32) -> Self
        requires in_range { Self.fits (Self.value self.now) }
        requires degree { n ≢ 0 }
        requires from_zero_where_even { n % 2 ≡ 0 → pos 0 ≤ℤ Self.value self.now }
        ensures in_range { Self.fits (Self.value result) }
        ensures root { IsRoot (Self.value self.now) n (Self.value result) };

    /// Returns the square root, rounded down. `99.sqrt()` is `9`.
    ///
    /// [`checked::sqrt`] returns `None` if the precondition does not hold.
    ///
    /// # Panics
    ///
    /// In plain Rust, if the number is negative.
    fn sqrt(&self) -> Self
        requires in_range { Self.fits (Self.value self.now) }
        requires from_zero { pos 0 ≤ℤ Self.value self.now }
        ensures in_range { Self.fits (Self.value result) }
        ensures root { IsRoot (Self.value self.now) 2 (Self.value result) }
    {
        check(
            *self >= zero(),
            "attempt to take the square root of a negative number",
        );
        self.nth_root(2)
    }

    /// Returns the cube root, rounded toward zero. `(-9).cbrt()` is `-2`.
    fn cbrt(&self) -> Self
        requires in_range { Self.fits (Self.value self.now) }
        ensures in_range { Self.fits (Self.value result) }
        ensures root { IsRoot (Self.value self.now) 3 (Self.value result) }
    {
        self.nth_root(3)
    }

    // The type has at most 64 bits.
    ghost width_law: { IsWithin64Bits Self.low Self.high };
}

/// Returns the root of degree `n`, rounded toward zero. `nth_root(12345, 4)` is `10`.
///
/// [`checked::nth_root`] returns `None` if the precondition does not hold.
///
/// # Panics
///
/// In plain Rust, if `n` is 0, or if `n` is even and the number is negative.
pub fn nth_root<T: Roots>(x: T, n: u32) -> T
    requires x_in_range { T.fits (T.value x) }
    requires degree { n ≢ 0 }
    requires from_zero_where_even { n % 2 ≡ 0 → pos 0 ≤ℤ T.value x }
    ensures in_range { T.fits (T.value result) }
    ensures root { IsRoot (T.value x) n (T.value result) }
{
    x.nth_root(n)
}

/// Returns the square root, rounded down. `sqrt(99)` is `9`.
///
/// [`checked::sqrt`] returns `None` if the precondition does not hold.
///
/// # Panics
///
/// In plain Rust, if the number is negative.
pub fn sqrt<T: Roots>(x: T) -> T
    requires x_in_range { T.fits (T.value x) }
    requires from_zero { pos 0 ≤ℤ T.value x }
    ensures in_range { T.fits (T.value result) }
    ensures root { IsRoot (T.value x) 2 (T.value result) }
{
    x.sqrt()
}

/// Returns the cube root, rounded toward zero, as [`Roots::cbrt`]. `cbrt(-9)` is `-2`.
pub fn cbrt<T: Roots>(x: T) -> T
    requires x_in_range { T.fits (T.value x) }
    ensures in_range { T.fits (T.value result) }
    ensures root { IsRoot (T.value x) 3 (T.value result) }
{
    x.cbrt()
}

impl<T: Integer + NativeInteger<Magnitude = u64>> Roots for T {
    ghost width_law = { within_64_bits T.range_law T.native_law };

    fn nth_root(&self, n: u32) -> T {
        check(n != 0, "attempt to take a root of degree 0");
        check(
            n % 2 != 0 || *self >= zero(),
            "attempt to take an even root of a negative number",
        );
        root_by_magnitude(*self, n)
    }

    fn sqrt(&self) -> T {
        check(
            *self >= zero(),
            "attempt to take the square root of a negative number",
        );
        square_root_by_magnitude(*self).0
    }

    fn cbrt(&self) -> T {
        cube_root_by_magnitude(*self)
    }
}

impl<T: NativeInteger<Magnitude = u64>> SqrtCounted for T {
    fn sqrt_counted(&self) -> (T, u32) {
        check(
            *self >= zero(),
            "attempt to take the square root of a negative number",
        );
        square_root_by_magnitude(*self)
    }
}
