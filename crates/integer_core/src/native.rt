//! The sealed trait of the native integer types: their range and their magnitudes.

ghost use Rattle.std.specs.Prelude.{◌≡◌, ◌≤ℤ◌, ◌<ℤ◌, neg_ℤ, pos, unsigned_abs};
ghost use Rattle.std.specs.Int.{w8, w16, w32, w64, w128};
ghost use Rattle.std.proofs.Common.{lit≤};
ghost use Rattle.integer_core.specs.NativeRanges.{IsNative, signed_native, unsigned_native};

use crate::fitting::{difference, negated, successor};
use crate::operators::{is_negative, zero};
use crate::stein::Magnitude;
use num_traits::{AsPrimitive, Bounded, CheckedAdd, CheckedMul, CheckedSub, FixedWidth, Num};

/// A native integer type. No other crate can name this trait.
pub trait Native: Copy
    + Num
    + CheckedAdd
    + CheckedSub
    + CheckedMul
    + Ord
    + Bounded
    + FixedWidth
    + AsPrimitive<Self::Magnitude> {
    /// The type of the magnitudes.
    type Magnitude: Magnitude + AsPrimitive<Self>;

    ghost native_law: { IsNative Self.width (λ n. Self.value (Self.of_bits n)) Self.fits Self.low
        Self.high Self.Magnitude.fits };
}

/// The absolute value of a number of a native type, and back. In plain Rust, no other crate can name this trait.
pub trait Magnitudes: Native {
    /// Returns the absolute value.
    final fn magnitude(self) -> Self::Magnitude
        requires { Self.fits (Self.value self) }
        ensures in_range { Self.Magnitude.fits (Self.Magnitude.value result) }
        ensures value { Self.Magnitude.value result ≡ pos (unsigned_abs (Self.value self)) }
    {
        if is_negative(self) {
            difference(zero(), successor(self)).as_().successor()
        } else {
            self.as_()
        }
    }

    /// Returns the absolute value in 128 bits.
    final fn wide_magnitude(self) -> u128
        requires { Self.fits (Self.value self) }
        ensures { result ≡ unsigned_abs (Self.value self) }
    {
        self.magnitude().to_128_bits()
    }

    /// Returns the non-negative number with this magnitude.
    final fn from_magnitude(magnitude: Self::Magnitude) -> Self
        requires { Self.fits (Self.Magnitude.value magnitude) }
        ensures in_range { Self.fits (Self.value result) }
        ensures value { Self.value result ≡ Self.Magnitude.value magnitude }
    {
        magnitude.as_()
    }

    /// Returns the number with this magnitude and the sign of `self`. `(-5i8).with_magnitude(128)` is `-128`.
    final fn with_magnitude(self, magnitude: Self::Magnitude) -> Self
        requires in_range { Self.fits (Self.value self) }
        requires from_zero_fits { pos 0 ≤ℤ Self.value self
            → Self.fits (Self.Magnitude.value magnitude) }
        requires below_zero_fits { Self.value self <ℤ pos 0
            → Self.fits (neg_ℤ (Self.Magnitude.value magnitude)) }
        ensures in_range { Self.fits (Self.value result) }
        ensures from_zero { pos 0 ≤ℤ Self.value self
            → Self.value result ≡ Self.Magnitude.value magnitude }
        ensures below_zero { Self.value self <ℤ pos 0
            → Self.value result ≡ neg_ℤ (Self.Magnitude.value magnitude) }
    {
        let low = Self::min_value();
        if !is_negative(self) {
            Self::from_magnitude(magnitude)
        } else if magnitude == low.magnitude() {
            low
        } else {
            negated(Self::from_magnitude(magnitude))
        }
    }
}

impl<T: Native> Magnitudes for T {}

impl Native for i8 {
    type Magnitude = u64;

    ghost native_law = { signed_native w8 64 (lit≤ tt) };
}

impl Native for i16 {
    type Magnitude = u64;

    ghost native_law = { signed_native w16 64 (lit≤ tt) };
}

impl Native for i32 {
    type Magnitude = u64;

    ghost native_law = { signed_native w32 64 (lit≤ tt) };
}

impl Native for i64 {
    type Magnitude = u64;

    ghost native_law = { signed_native w64 64 (lit≤ tt) };
}

impl Native for i128 {
    type Magnitude = u128;

    ghost native_law = { signed_native w128 128 (lit≤ tt) };
}

impl Native for isize {
    type Magnitude = u64;

    ghost native_law = { signed_native w64 64 (lit≤ tt) };
}

impl Native for u8 {
    type Magnitude = u64;

    ghost native_law = { unsigned_native w8 64 (lit≤ tt) };
}

impl Native for u16 {
    type Magnitude = u64;

    ghost native_law = { unsigned_native w16 64 (lit≤ tt) };
}

impl Native for u32 {
    type Magnitude = u64;

    ghost native_law = { unsigned_native w32 64 (lit≤ tt) };
}

impl Native for u64 {
    type Magnitude = Self;

    ghost native_law = { unsigned_native w64 64 (lit≤ tt) };
}

impl Native for u128 {
    type Magnitude = Self;

    ghost native_law = { unsigned_native w128 128 (lit≤ tt) };
}

impl Native for usize {
    type Magnitude = u64;

    ghost native_law = { unsigned_native w64 64 (lit≤ tt) };
}
