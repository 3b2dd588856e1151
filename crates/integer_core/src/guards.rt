//! Conditions that plain Rust tests, each with the reason that it panics with. In Rattle a caller has proved them, so none of these
//! functions tests anything. Those of plain Rust are written by hand, in `rust/by_hand/src/integer_core/guards.rs`.

ghost use Rattle.std.specs.Prelude.{◌≡◌, ◌+ℤ◌, ◌*ℤ◌, ◌≤ℤ◌, pos, All, IsTrue, IsSome, IfSome};
ghost use Rattle.integer_core.specs.Bezout.{HasPair};
ghost use Rattle.integer_core.specs.Divisors.{GcdFits, IsLeastCommonMultiple};
ghost use Rattle.integer_core.specs.Range.{EachFits};

use crate::native::{Magnitudes, Native};
use crate::{Integer, fitting};
use num_traits::Num;

/// Says that the condition holds. In plain Rust it panics with the reason if it does not.
pub const fn check(condition: bool, reason: &str)
    requires { IsTrue condition }
{}

/// Returns the value. In plain Rust it panics with the reason if there is none.
pub fn some<A>(value: Option<A>, reason: &str) -> A
    requires { IsSome value }
    ensures { IfSome value (λ v. v ≡ result) }
{
    value.unwrap()
}

/// Returns `a + b`. In plain Rust it panics with the reason if the sum does not fit.
pub fn sum_or<T: Num>(a: T, b: T, reason: &str) -> T
    requires exact { T.exact }
    requires sum_fits { T.fits (T.value a +ℤ T.value b) }
    ensures in_range { T.fits (T.value result) }
    ensures value { T.value result ≡ T.value a +ℤ T.value b }
{
    fitting::sum(a, b)
}

/// Returns `a * b`. In plain Rust it panics with the reason if the product does not fit.
pub fn product_or<T: Num>(a: T, b: T, reason: &str) -> T
    requires exact { T.exact }
    requires product_fits { T.fits (T.value a *ℤ T.value b) }
    ensures in_range { T.fits (T.value result) }
    ensures value { T.value result ≡ T.value a *ℤ T.value b }
{
    fitting::product(a, b)
}

/// Returns the non-negative number with this magnitude. In plain Rust it panics with the reason if the number does not fit.
pub(crate) fn number_or<T: Native>(magnitude: T::Magnitude, reason: &str) -> T
    requires number_fits { T.fits (T.Magnitude.value magnitude) }
    ensures in_range { T.fits (T.value result) }
    ensures value { T.value result ≡ T.Magnitude.value magnitude }
{
    T::from_magnitude(magnitude)
}

/// Says that the greatest common divisor and a pair of coefficients fit. In plain Rust it panics at a built-in type if they do not.
pub fn check_pair<T: Integer>(a: &T, b: &T, reason: &str)
    requires gcd_fits { GcdFits T.fits (T.value a.now) (T.value b.now) }
    requires has_pair { HasPair T.fits (T.value a.now) (T.value b.now) }
{}

/// Says that the least common multiple fits. In plain Rust it panics at a built-in type if it does not.
pub fn check_lcm<T: Integer>(m: &T, n: &T, reason: &str)
    requires { EachFits T.fits (IsLeastCommonMultiple (T.value m.now) (T.value n.now)) }
{}

/// Says that no number is negative. In plain Rust it panics with the reason if one is.
pub fn check_none_negative<T: Integer>(numbers: &[T], reason: &str)
    requires { All (λ x. pos 0 ≤ℤ T.value x) numbers.now }
{}
