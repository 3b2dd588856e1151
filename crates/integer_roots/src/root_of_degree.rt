//! Roots of degree 3 or more by Newton's method, and powers by squaring, of numbers of 64 bits.

ghost use Rattle.std.specs.Prelude.{◌≡◌, ◌/◌, ◌^◌, ◌≤◌, ◌<◌, pos, ◌*◌};
ghost use Rattle.integer_roots.specs.RootOf.{IsFloorRoot};
ghost use Rattle.integer_roots.specs.NewtonRuns.{newton_step};
ghost use Rattle.std.specs.Option.{SomeIff};

use crate::newton::root_by_newton;

/// Returns the root of `a` of degree `n`.
#[tactic(auto, using(crate::proofs::RootGuesses::root_step_fits))]
pub(crate) fn root_of_degree(a: u64, n: u32) -> u64
    requires degree { 3 ≤ n }
    ensures root { IsFloorRoot (pos a) n (pos result) }
{
    if a == 0 {
        return 0;
    }
    let top = a.ilog2();
    if top < n {
        return 1;
    }
    let step = move |x: u64| -> u64
        requires degree { 3 ≤ n }
        requires degree_small { n < 64 }
        requires above_one { 2 ≤ x }
        requires small { x ≤ 2 ^ 24 }
        ensures { result ≡ newton_step a n x }
    { (quotient_by_power(a, x, n - 1) + u64::from(n - 1) * x) / u64::from(n) };
    root_by_newton(a, n, step)
}

/// Returns the quotient of `a` by the power of `x` of degree `k`, or 0 if the power does not fit. If
/// `x` is a power of two, it shifts.
fn quotient_by_power(a: u64, x: u64, k: u32) -> u64
    requires positive { 0 < x }
    requires degree { 0 < k }
    requires degree_small { k < 64 }
    ensures { result ≡ a / x ^ k }
{
    let top = x.ilog2();
    if top * k >= u64::BITS {
        0
    } else if x == 1 << top {
        a >> (top * k)
    } else {
        match checked_power(x, k) {
            Some(power) => a / power,
            None => 0,
        }
    }
}

/// Returns the power of `x` of degree `k`, or `None` if it does not fit. Each bit of `k` after the highest
/// squares the power.
fn checked_power(x: u64, k: u32) -> Option<u64>
    requires positive { 0 < x }
    requires degree { 0 < k }
    ensures { SomeIff result (x ^ k < 2 ^ 64) (x ^ k) }
{
    let mut power = x;
    for place in (0..k.ilog2()).rev() {
        power = checked_product(power, power)?;
        if (k >> place) % 2 == 1 {
            power = checked_product(power, x)?;
        }
    }
    Some(power)
}

/// Returns the product, or `None` if it does not fit.
fn checked_product(a: u64, b: u64) -> Option<u64>
    ensures { SomeIff result (a * b < 2 ^ 64) (a * b) }
{
    u64::try_from(u128::from(a) * u128::from(b)).ok()
}
