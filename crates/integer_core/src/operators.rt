//! Zero, one, the operators and six tests, specified on integers. Every integer type is `exact`, so
//! callers never have to prove it. In plain Rust the operators that add, subtract and multiply are written by hand: they panic if the
//! result does not fit. Those of `fitting` do not test.

ghost use Rattle.std.specs.Prelude.{◌≡◌, ◌≢◌, ◌↔◌, ◌<ℤ◌, ◌+ℤ◌, ◌-ℤ◌, ◌*ℤ◌, pos, negsuc, neg_ℤ, int_rem, int_div, IsTrue};

use crate::fitting;
use num_traits::Num;

/// Returns 0. `zero::<i64>()` is `0`.
pub fn zero<T: Num>() -> T
    requires { T.exact }
    ensures in_range { T.fits (T.value result) }
    ensures value { T.value result ≡ pos 0 }
{
    T::zero()
}

/// Returns 1. `one::<i64>()` is `1`.
pub fn one<T: Num>() -> T
    requires { T.exact }
    ensures in_range { T.fits (T.value result) }
    ensures value { T.value result ≡ pos 1 }
{
    T::one()
}

/// Returns `true` if `a` is 0. `is_zero(7)` is `false`.
pub fn is_zero<T: Num>(a: T) -> bool
    requires { T.exact }
    ensures { IsTrue result ↔ (T.value a ≡ pos 0) }
{
    a.is_zero()
}

/// Returns `true` if `a` is 1. `is_one(7)` is `false`.
pub fn is_one<T: Num>(a: T) -> bool
    requires { T.exact }
    ensures { IsTrue result ↔ (T.value a ≡ pos 1) }
{
    a.is_one()
}

/// Returns `true` if `a` equals `b`. `is_equal(3, 3)` is `true`, and `is_equal(2, 3)` is `false`.
pub fn is_equal<T: Num>(a: T, b: T) -> bool
    requires { T.exact }
    ensures { IsTrue result ↔ (T.value a ≡ T.value b) }
{
    a == b
}

/// Returns `true` if `a` is below `b`. `is_below(2, 3)` is `true`, and `is_below(3, 3)` is `false`.
pub fn is_below<T: Num + PartialOrd>(a: T, b: T) -> bool
    requires { T.exact }
    ensures { IsTrue result ↔ (T.value a <ℤ T.value b) }
{
    a < b
}

/// Returns `true` if `a` is negative. `is_negative(-1)` is `true`, and `is_negative(0)` is `false`.
pub fn is_negative<T: Num + PartialOrd>(a: T) -> bool
    requires { T.exact }
    ensures { IsTrue result ↔ (T.value a <ℤ pos 0) }
{
    is_below(a, zero())
}

/// Returns `true` if `a` is -1, the only divisor whose quotient may not fit. `is_minus_one(-1)` is
/// `true`.
pub fn is_minus_one<T: Num + PartialOrd>(a: T) -> bool
    requires exact { T.exact }
    requires in_range { T.fits (T.value a) }
    ensures { IsTrue result ↔ (T.value a ≡ negsuc 0) }
{
    a < zero() && is_zero(fitting::successor(a))
}

/// Returns `a + b`. `sum(2, 3)` is `5`.
///
/// # Panics
///
/// In plain Rust, if the result does not fit.
pub fn sum<T: Num>(a: T, b: T) -> T
    requires exact { T.exact }
    requires sum_fits { T.fits (T.value a +ℤ T.value b) }
    ensures in_range { T.fits (T.value result) }
    ensures value { T.value result ≡ T.value a +ℤ T.value b }
{
    fitting::sum(a, b)
}

/// Returns `a - b`. `difference(2, 3)` is `-1`.
///
/// # Panics
///
/// In plain Rust, if the result does not fit.
pub fn difference<T: Num>(a: T, b: T) -> T
    requires exact { T.exact }
    requires difference_fits { T.fits (T.value a -ℤ T.value b) }
    ensures in_range { T.fits (T.value result) }
    ensures value { T.value result ≡ T.value a -ℤ T.value b }
{
    fitting::difference(a, b)
}

/// Returns `a * b`. `product(2, 3)` is `6`.
///
/// # Panics
///
/// In plain Rust, if the result does not fit.
pub fn product<T: Num>(a: T, b: T) -> T
    requires exact { T.exact }
    requires product_fits { T.fits (T.value a *ℤ T.value b) }
    ensures in_range { T.fits (T.value result) }
    ensures value { T.value result ≡ T.value a *ℤ T.value b }
{
    fitting::product(a, b)
}

/// Returns `a / b`, rounded toward zero. `quotient(-8, 3)` is `-2`.
///
/// # Panics
///
/// In plain Rust, if `b` is 0, or if the quotient does not fit.
#[inline]
pub fn quotient<T: Num>(a: T, b: T) -> T
    requires exact { T.exact }
    requires nonzero { T.value b ≢ pos 0 }
    requires b_in_range { T.fits (T.value b) }
    requires quotient_fits { T.fits (int_div (T.value a) (T.value b)) }
    ensures in_range { T.fits (T.value result) }
    ensures value { T.value result ≡ int_div (T.value a) (T.value b) }
{
    a / b
}

/// Returns `a % b`, the remainder of [`quotient`]. `remainder(-8, 3)` is `-2`.
///
/// # Panics
///
/// In plain Rust, if `b` is 0, or if the quotient does not fit.
#[inline]
pub fn remainder<T: Num>(a: T, b: T) -> T
    requires exact { T.exact }
    requires nonzero { T.value b ≢ pos 0 }
    requires b_in_range { T.fits (T.value b) }
    requires quotient_fits { T.fits (int_div (T.value a) (T.value b)) }
    ensures in_range { T.fits (T.value a) → T.fits (T.value result) }
    ensures value { T.value result ≡ int_rem (T.value a) (T.value b) }
{
    a % b
}

/// Returns `a + 1`. `successor(41)` is `42`.
///
/// # Panics
///
/// In plain Rust, if the result does not fit.
pub fn successor<T: Num>(a: T) -> T
    requires exact { T.exact }
    requires sum_fits { T.fits (T.value a +ℤ pos 1) }
    ensures in_range { T.fits (T.value result) }
    ensures value { T.value result ≡ T.value a +ℤ pos 1 }
{
    fitting::successor(a)
}

/// Returns `a - 1`. `predecessor(43)` is `42`.
///
/// # Panics
///
/// In plain Rust, if the result does not fit.
pub fn predecessor<T: Num>(a: T) -> T
    requires exact { T.exact }
    requires difference_fits { T.fits (T.value a -ℤ pos 1) }
    ensures in_range { T.fits (T.value result) }
    ensures value { T.value result ≡ T.value a -ℤ pos 1 }
{
    fitting::predecessor(a)
}

/// Returns `-a`. `negated(7)` is `-7`.
///
/// # Panics
///
/// In plain Rust, if the result does not fit.
pub fn negated<T: Num>(a: T) -> T
    requires exact { T.exact }
    requires negation_fits { T.fits (neg_ℤ (T.value a)) }
    ensures in_range { T.fits (T.value result) }
    ensures value { T.value result ≡ neg_ℤ (T.value a) }
{
    fitting::negated(a)
}
