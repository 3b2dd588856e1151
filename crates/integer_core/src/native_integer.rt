//! `Integer` and `GcdCounted` for the native types.

use crate::counted::GcdCounted;
use crate::guards::{number_or, some};
use crate::native::{Magnitudes, Native};
use crate::operators::{is_minus_one, zero};
use crate::stein::{binary_gcd, gcd_lcm_of_magnitudes};
use crate::{Integer, division, divisors};
use num_traits::PrimInt;

/// A native integer type: `i8` to `i128`, `u8` to `u128`, `isize` or `usize`. The trait is sealed: no other
/// crate can implement it.
///
/// # Examples
///
/// ```
/// fn is_power_of_two<T: NativeInteger>(x: T) -> bool {
///     x > T::zero() && x.count_ones() == 1
/// }
///
/// assert!(is_power_of_two(64u8) && !is_power_of_two(i8::MIN));
/// ```
pub trait NativeInteger: Integer + Native + PrimInt {}

impl<T: Native + PrimInt> NativeInteger for T {}

impl<T: Native> Integer for T {
    ghost low = { T.Bounded.low };

    ghost high = { T.Bounded.high };

    ghost exact_law = { T.Integral.exact_law };

    ghost range_law = { T.Native.native_law.range };

    fn div_rem(&self, other: &T) -> (T, T) {
        division::div_rem(*self, *other)
    }

    fn div_floor(&self, other: &T) -> T {
        division::div_mod_floor(*self, *other).0
    }

    fn mod_floor(&self, other: &T) -> T {
        if is_minus_one(*other) {
            zero()
        } else {
            division::div_mod_floor(*self, *other).1
        }
    }

    fn div_mod_floor(&self, other: &T) -> (T, T) {
        division::div_mod_floor(*self, *other)
    }

    fn is_multiple_of(&self, other: &T) -> bool {
        divisors::is_multiple_of(*self, *other)
    }

    fn is_even(&self) -> bool {
        divisors::is_even(*self)
    }

    fn is_odd(&self) -> bool {
        !divisors::is_even(*self)
    }

    fn gcd(&self, other: &T) -> T {
        binary_gcd(*self, *other).0
    }

    fn lcm(&self, other: &T) -> T {
        let reason = "the least common multiple does not fit";
        let lcm = gcd_lcm_of_magnitudes(self.magnitude(), other.magnitude()).1;
        number_or(some(lcm, reason), reason)
    }

    fn gcd_lcm(&self, other: &T) -> (T, T) {
        let reason = "the least common multiple does not fit";
        let (gcd, lcm) = gcd_lcm_of_magnitudes(self.magnitude(), other.magnitude());
        let gcd = number_or(gcd, "the greatest common divisor does not fit");
        let lcm = number_or(some(lcm, reason), reason);
        (gcd, lcm)
    }
}

impl<T: Native> GcdCounted for T {
    fn gcd_counted(&self, other: &T) -> (T, u32) {
        binary_gcd(*self, *other)
    }
}
