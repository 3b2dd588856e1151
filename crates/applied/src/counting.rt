//! Factorials, and falling factorials: in how many ways some things stand in a row.

ghost use Rattle.std.specs.Prelude.{◌≡◌, ◌≤ℤ◌, ◌-ℤ◌, pos};
ghost use Rattle.applied.specs.Counting.{factorial_of, falling_of};

pub mod checked;

use num_integer::Integer;
use num_integer::guards::{check, product_or};
use num_integer::operators::{difference, is_below, is_negative, one, successor, zero};

/// Returns the factorial of `n`, the product of the numbers from 1 to `n`: in how many ways `n` things stand in
/// a row. `factorial(5)` is `120`, and `factorial(0)` is `1`.
///
/// [`checked::factorial`] returns `None` if the precondition does not hold.
///
/// # Panics
///
/// In plain Rust, if `n` is negative, or if the factorial does not fit.
#[tactic(auto, using(num_integer::proofs::ForCallers::linear, crate::proofs::FallingFactorials::factorial_is))]
pub fn factorial<T: Integer + Copy>(n: T) -> T
    requires in_range { T.fits (T.value n) }
    requires from_zero { pos 0 ≤ℤ T.value n }
    requires factorial_fits { T.fits (factorial_of (T.value n)) }
    ensures in_range { T.fits (T.value result) }
    ensures factorial { T.value result ≡ factorial_of (T.value n) }
{
    check(!is_negative(n), "`n` is negative");
    product_above(zero(), n, "the factorial does not fit")
}

/// Returns the falling factorial of `n` and `k`, the product `n * (n - 1) * ..` of `k` factors: in how many ways
/// `k` of `n` things stand in a row. `falling(8, 3)` is `336`, and `falling(2, 3)` is `0`.
///
/// [`checked::falling`] returns `None` if the precondition does not hold.
///
/// # Panics
///
/// In plain Rust, if `n` or `k` is negative, or if the falling factorial does not fit.
#[tactic(auto, using(num_integer::proofs::ForCallers::linear, crate::proofs::FallingFactorials::falling_is, crate::proofs::FallingFactorials::falling_of_none, crate::proofs::FallingFactorials::others_fit))]
pub fn falling<T: Integer + Copy>(n: T, k: T) -> T
    requires in_range { T.fits (T.value n) × T.fits (T.value k) }
    requires n_from_zero { pos 0 ≤ℤ T.value n }
    requires k_from_zero { pos 0 ≤ℤ T.value k }
    requires falling_fits { T.fits (falling_of (T.value n) (T.value k)) }
    ensures in_range { T.fits (T.value result) }
    ensures falling { T.value result ≡ falling_of (T.value n) (T.value k) }
{
    check(!is_negative(n), "`n` is negative");
    check(!is_negative(k), "`k` is negative");
    if is_below(n, k) {
        zero()
    } else {
        product_above(difference(n, k), n, "the falling factorial does not fit")
    }
}

/// Returns the product of the numbers above `low` up to `high`. In plain Rust it panics with the reason if the product
/// does not fit.
#[tactic(auto, using(crate::proofs::FallingFactorials::product_first, crate::proofs::FallingFactorials::product_next))]
fn product_above<T: Integer + Copy>(low: T, high: T, reason: &'static str) -> T
    requires in_range { T.fits (T.value low) × T.fits (T.value high) }
    requires from_zero { pos 0 ≤ℤ T.value low }
    requires ordered { T.value low ≤ℤ T.value high }
    requires product_fits { T.fits (falling_of (T.value high) (T.value high -ℤ T.value low)) }
    ensures in_range { T.fits (T.value result) }
    ensures product { T.value result ≡ falling_of (T.value high) (T.value high -ℤ T.value low) }
{
    let mut ways = one();
    let mut factor = low;
    while is_below(factor, high) {
        factor = successor(factor);
        ways = product_or(ways, factor, reason);
    }
    ways
}
