//! The operators of [`crate::operators`] that add, subtract and multiply, for results that fit in every run. In plain Rust these have
//! no test, and those of `operators` panic if the result does not fit.

ghost use Rattle.std.specs.Prelude.{◌≡◌, ◌+ℤ◌, ◌-ℤ◌, ◌*ℤ◌, pos, neg_ℤ};

use crate::operators::{one, zero};
use num_traits::Num;

/// Returns `a + b`. `sum(2, 3)` is `5`.
pub fn sum<T: Num>(a: T, b: T) -> T
    requires exact { T.exact }
    requires sum_fits { T.fits (T.value a +ℤ T.value b) }
    ensures in_range { T.fits (T.value result) }
    ensures value { T.value result ≡ T.value a +ℤ T.value b }
{
    a + b
}

/// Returns `a - b`. `difference(2, 3)` is `-1`.
pub fn difference<T: Num>(a: T, b: T) -> T
    requires exact { T.exact }
    requires difference_fits { T.fits (T.value a -ℤ T.value b) }
    ensures in_range { T.fits (T.value result) }
    ensures value { T.value result ≡ T.value a -ℤ T.value b }
{
    a - b
}

/// Returns `a * b`. `product(2, 3)` is `6`.
pub fn product<T: Num>(a: T, b: T) -> T
    requires exact { T.exact }
    requires product_fits { T.fits (T.value a *ℤ T.value b) }
    ensures in_range { T.fits (T.value result) }
    ensures value { T.value result ≡ T.value a *ℤ T.value b }
{
    a * b
}

/// Returns `a + 1`. `successor(41)` is `42`.
pub fn successor<T: Num>(a: T) -> T
    requires exact { T.exact }
    requires sum_fits { T.fits (T.value a +ℤ pos 1) }
    ensures in_range { T.fits (T.value result) }
    ensures value { T.value result ≡ T.value a +ℤ pos 1 }
{
    sum(a, one())
}

/// Returns `a - 1`. `predecessor(43)` is `42`.
pub fn predecessor<T: Num>(a: T) -> T
    requires exact { T.exact }
    requires difference_fits { T.fits (T.value a -ℤ pos 1) }
    ensures in_range { T.fits (T.value result) }
    ensures value { T.value result ≡ T.value a -ℤ pos 1 }
{
    difference(a, one())
}

/// Returns `-a`. `negated(7)` is `-7`.
pub fn negated<T: Num>(a: T) -> T
    requires exact { T.exact }
    requires negation_fits { T.fits (neg_ℤ (T.value a)) }
    ensures in_range { T.fits (T.value result) }
    ensures value { T.value result ≡ neg_ℤ (T.value a) }
{
    difference(zero(), a)
}
