//! The greatest common divisor and the least common multiple of a list of integers.

ghost use Rattle.std.specs.Prelude.{map};
ghost use Rattle.std.specs.List.{All};
ghost use Rattle.num_integer.specs.Range.{EachFits};
ghost use Rattle.applied.specs.Lists.{GcdOfFits, IsGreatestCommonDivisorOf, IsLeastCommonMultipleOf};

pub mod checked;
mod total;

use num_integer::Fits;
use num_integer::guards::some;

/// Returns the greatest common divisor of the numbers, the largest that divides each of them.
/// `gcd_of(&[12, 18, 8])` is `2`, `gcd_of(&[-4, 0])` is `4`, and `gcd_of::<i64>(&[])` is `0`.
///
/// [`checked::gcd_of`](crate::lists::checked::gcd_of) returns `None` if the result does not fit. In an unsigned
/// type it fits: `gcd_of(&[u8::MAX, 0])` is `255`.
///
/// # Panics
///
/// In plain Rust, if the greatest common divisor does not fit.
pub fn gcd_of<T: Fits>(numbers: &[T]) -> T
    requires in_range { All (λ x. T.fits (T.value x)) numbers.now }
    requires gcd_fits { GcdOfFits T.fits (map T.value numbers.now) }
    ensures in_range { T.fits (T.value result) }
    ensures greatest { IsGreatestCommonDivisorOf (map T.value numbers.now) (T.value result) }
{
    some(
        checked::gcd_of(numbers),
        "the greatest common divisor does not fit",
    )
}

/// Returns the least common multiple of the numbers, the smallest positive number that each of them divides, or
/// 0 if one of them is 0. `lcm_of(&[4, 6, 10])` is `60`, `lcm_of(&[-4, 0])` is `0`, and `lcm_of::<i64>(&[])` is
/// `1`.
///
/// [`checked::lcm_of`](crate::lists::checked::lcm_of) returns `None` if the result does not fit.
///
/// # Panics
///
/// In plain Rust, if the least common multiple does not fit.
pub fn lcm_of<T: Fits>(numbers: &[T]) -> T
    requires in_range { All (λ x. T.fits (T.value x)) numbers.now }
    requires lcm_fits { EachFits T.fits (IsLeastCommonMultipleOf (map T.value numbers.now)) }
    ensures in_range { T.fits (T.value result) }
    ensures least { IsLeastCommonMultipleOf (map T.value numbers.now) (T.value result) }
{
    some(
        checked::lcm_of(numbers),
        "the least common multiple does not fit",
    )
}
