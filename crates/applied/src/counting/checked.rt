//! The calls of this module for any numbers. Each is `None` if a number is negative or the result does not fit.

ghost use Rattle.std.specs.Prelude.{◌≡◌, ◌≤ℤ◌, ◌-ℤ◌, pos};
ghost use Rattle.num_integer.specs.Checked.{AnswersWhere, FitsWith};
ghost use Rattle.applied.specs.Counting.{factorial_of, falling_of};

use num_integer::Fits;
use num_integer::checked::product;
use num_integer::operators::{difference, is_below, is_negative, one, successor, zero};

/// Returns [`factorial`](crate::counting::factorial), the product of the numbers from 1 to `n`, or `None` if `n`
/// is negative or the factorial does not fit. `factorial(5u8)` is `Some(120)`, and `factorial(6u8)` is `None`.
#[tactic(auto, using(num_integer::proofs::ForCallers::linear))]
pub fn factorial<T: Fits>(n: T) -> Option<T>
    requires { T.fits (T.value n) }
    ensures { AnswersWhere
        ((pos 0 ≤ℤ T.value n) × T.fits (factorial_of (T.value n)))
        (FitsWith T.fits T.value (λ z. z ≡ factorial_of (T.value n))) result }
{
    if is_negative(n) {
        None
    } else {
        product_above(zero(), n)
    }
}

/// Returns [`falling`](crate::counting::falling), the product `n * (n - 1) * ..` of `k` factors, or `None` if a
/// number is negative or the product does not fit. `falling(8u16, 3)` is `Some(336)`, and `falling(8u8, 3)` is
/// `None`.
#[tactic(auto, using(num_integer::proofs::ForCallers::linear))]
pub fn falling<T: Fits>(n: T, k: T) -> Option<T>
    requires in_range { T.fits (T.value n) × T.fits (T.value k) }
    ensures { AnswersWhere
        ((pos 0 ≤ℤ T.value n) × (pos 0 ≤ℤ T.value k) × T.fits (falling_of (T.value n) (T.value k)))
        (FitsWith T.fits T.value (λ z. z ≡ falling_of (T.value n) (T.value k))) result }
{
    if is_negative(n) || is_negative(k) {
        return None;
    }
    if is_below(n, k) {
        return Some(zero());
    }
    product_above(difference(n, k), n)
}

/// Returns the product of the numbers above `low` up to `high`, or `None` if it does not fit. The loop stops at
/// the first product that does not.
#[tactic(auto, using(crate::proofs::FallingFactorials::product_first, crate::proofs::FallingFactorials::product_next))]
fn product_above<T: Fits>(low: T, high: T) -> Option<T>
    requires in_range { T.fits (T.value low) × T.fits (T.value high) }
    requires from_zero { pos 0 ≤ℤ T.value low }
    requires ordered { T.value low ≤ℤ T.value high }
    ensures { AnswersWhere
        (T.fits (falling_of (T.value high) (T.value high -ℤ T.value low)))
        (FitsWith T.fits T.value
        (λ z. z ≡ falling_of (T.value high) (T.value high -ℤ T.value low))) result }
{
    let mut ways = one();
    let mut factor = low;
    while is_below(factor, high) {
        factor = successor(factor);
        ways = product(ways, factor)?;
    }
    Some(ways)
}
