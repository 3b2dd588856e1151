//! Squares and other powers of integers: tests of them, the root with what is left, and the integer logarithm.

ghost use Rattle.std.specs.Prelude.{◌≡◌, ◌≢◌, ◌↔◌, ◌<◌, ◌≤◌, ◌≤ℤ◌, ◌<ℤ◌, ◌+ℤ◌, ◌*ℤ◌, ℕ, ℤ, pos, IsTrue};
ghost use Rattle.std.specs.Int.{int_pow};
ghost use Rattle.num_integer.specs.RootOf.{IsRoot};
ghost use Rattle.applied.specs.Powers.{IsLogarithm};

pub mod checked;

use num_integer::guards::check;
use num_integer::operators::{
    difference, is_below, is_equal, is_negative, one, product, quotient, zero,
};
use num_integer::{Integer, Roots, nth_root, sqrt};
use num_traits::Pow;

/// Returns `true` if the number is the square of an integer. `is_square(144)` is `true`, `is_square(145)` is
/// `false`, and `is_square(-144)` is `false`.
pub fn is_square<T: Roots + Copy>(n: T) -> bool
    requires in_range { T.fits (T.value n) }
    ensures { IsTrue result ↔ ((k : ℤ) × (k *ℤ k ≡ T.value n)) }
{
    if is_negative(n) {
        return false;
    }
    let root = sqrt(n);
    is_equal(product(root, root), n)
}

/// Returns `true` if some integer to the power of `degree` is the number. `is_power(-243, 5)` is `true`, and
/// `is_power(244, 5)` is `false`.
///
/// # Panics
///
/// In plain Rust, if `degree` is 0.
pub fn is_power<T: Roots + Copy + Pow<u32, Output = T>>(n: T, degree: u32) -> bool
    requires in_range { T.fits (T.value n) }
    requires degree { degree ≢ 0 }
    ensures { IsTrue result ↔ ((k : ℤ) × (int_pow k degree ≡ T.value n)) }
{
    check(degree != 0, "attempt to take a root of degree 0");
    if degree % 2 == 0 && is_negative(n) {
        return false;
    }
    is_equal(nth_root(n, degree).pow(degree), n)
}

/// Returns `true` if the number is a square, a cube or a higher power of an integer.
/// `is_perfect_power(128)` is `true`, and `is_perfect_power(72)` is `false`.
pub fn is_perfect_power(n: u64) -> bool
    ensures { IsTrue result
        ↔ ((k : ℤ) × ((degree : ℕ) × (2 ≤ degree) × (int_pow k degree ≡ pos n))) }
{
    for degree in 2..64 {
        if is_power(n, degree) {
            return true;
        }
    }
    false
}

/// Returns the square root, rounded down, and what is left: the number minus the square of the root.
/// `sqrt_rem(99)` is `(9, 18)`, and `sqrt_rem(81)` is `(9, 0)`.
///
/// [`checked::sqrt_rem`] returns `None` if the precondition does not hold.
///
/// # Panics
///
/// In plain Rust, if `n` is negative.
pub fn sqrt_rem<T: Roots + Copy>(n: T) -> (T, T)
    requires in_range { T.fits (T.value n) }
    requires from_zero { pos 0 ≤ℤ T.value n }
    ensures in_range { T.fits (T.value result.0) × T.fits (T.value result.1) }
    ensures root { IsRoot (T.value n) 2 (T.value result.0) }
    ensures sum { T.value n ≡ T.value result.0 *ℤ T.value result.0 +ℤ T.value result.1 }
    ensures rest_from_zero { pos 0 ≤ℤ T.value result.1 }
    ensures rest_at_most { T.value result.1 ≤ℤ (T.value result.0 +ℤ T.value result.0) }
{
    check(!is_negative(n), "`n` is negative");
    let root = sqrt(n);
    (root, difference(n, product(root, root)))
}

/// Returns the integer logarithm of `number` to the base: the largest degree of a power of the base that is at
/// most the number. `ilog(1000, 10)` is `3`, `ilog(999, 10)` is `2`, and `ilog(255u8, 2)` is `7`.
///
/// [`checked::ilog`] returns `None` if the precondition does not hold.
///
/// # Panics
///
/// In plain Rust, if the number is not positive, or if `base` is below 2.
pub fn ilog<T: Integer + Copy>(number: T, base: T) -> u32
    requires in_range { T.fits (T.value number) × T.fits (T.value base) }
    requires positive { pos 0 <ℤ T.value number }
    requires base { pos 1 <ℤ T.value base }
    ensures logarithm { IsLogarithm (T.value base) (T.value number) result }
    ensures few { result < 128 }
{
    check(number > zero(), "the number is not positive");
    check(is_below(one(), base), "the base is below 2");
    let mut rest = number;
    let mut degree = 0;
    while !is_below(rest, base) {
        rest = quotient(rest, base);
        degree += 1;
    }
    degree
}
