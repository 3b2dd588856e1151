//! Checked sums, differences and products. At a native type each is the checked operator of the type.

ghost use Rattle.std.specs.Prelude.{◌+ℤ◌, ◌-ℤ◌, ◌*ℤ◌, pos, neg_ℤ};
ghost use Rattle.num_integer.specs.Answers.{AnswersNumber};

use crate::fits_trait::Fits;
use integer_core::fitting;
use integer_core::operators::{one, zero};

/// Returns `a + b`, or `None` if it does not fit. `sum(200u8, 55)` is `Some(255)`, and
/// `sum(200u8, 56)` is `None`.
pub fn sum<T: Fits>(a: T, b: T) -> Option<T>
    requires a_in_range { T.fits (T.value a) }
    requires b_in_range { T.fits (T.value b) }
    ensures { AnswersNumber T.fits T.value (T.value a +ℤ T.value b) result }
{
    if a.sum_fits(&b) {
        Some(fitting::sum(a, b))
    } else {
        None
    }
}

/// Returns `a - b`, or `None` if it does not fit. `difference(2, 3)` is `Some(-1)`, and
/// `difference(2u8, 3)` is `None`.
pub fn difference<T: Fits>(a: T, b: T) -> Option<T>
    requires a_in_range { T.fits (T.value a) }
    requires b_in_range { T.fits (T.value b) }
    ensures { AnswersNumber T.fits T.value (T.value a -ℤ T.value b) result }
{
    if a.difference_fits(&b) {
        Some(fitting::difference(a, b))
    } else {
        None
    }
}

/// Returns `a * b`, or `None` if it does not fit. `product(15u8, 17)` is `Some(255)`, and
/// `product(16u8, 16)` is `None`.
pub fn product<T: Fits>(a: T, b: T) -> Option<T>
    requires a_in_range { T.fits (T.value a) }
    requires b_in_range { T.fits (T.value b) }
    ensures { AnswersNumber T.fits T.value (T.value a *ℤ T.value b) result }
{
    if a.product_fits(&b) {
        Some(fitting::product(a, b))
    } else {
        None
    }
}

/// Returns `-a`, or `None` if it does not fit. `negated(7)` is `Some(-7)`, and `negated(7u8)` is
/// `None`.
#[tactic(auto, using(integer_core::proofs::Whole::linear))]
pub fn negated<T: Fits>(a: T) -> Option<T>
    requires { T.fits (T.value a) }
    ensures { AnswersNumber T.fits T.value (neg_ℤ (T.value a)) result }
{
    difference(zero(), a)
}

/// Returns `x + 1`, which [`Integer::inc`] stores, or `None` for the largest number of the type.
/// `inc(41)` is `Some(42)`, and `inc(u8::MAX)` is `None`.
pub fn inc<T: Fits>(x: T) -> Option<T>
    requires { T.fits (T.value x) }
    ensures { AnswersNumber T.fits T.value (T.value x +ℤ pos 1) result }
{
    sum(x, one())
}

/// Returns `x - 1`, which [`Integer::dec`] stores, or `None` for the smallest number of the type.
/// `dec(43)` is `Some(42)`, and `dec(0u8)` is `None`.
pub fn dec<T: Fits>(x: T) -> Option<T>
    requires { T.fits (T.value x) }
    ensures { AnswersNumber T.fits T.value (T.value x -ℤ pos 1) result }
{
    difference(x, one())
}
