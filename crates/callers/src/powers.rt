//! Powers modulo a number, as natural numbers, and sums of exponents.

ghost use Rattle.std.specs.Prelude.{◌≡◌, ◌<◌, ◌^◌, ◌%◌, IsTrue};

use modular::{power_modulo, product_modulo};

/// Returns `m` to the power `e` modulo `n`.
pub fn power_remainder(m: u64, e: u128, n: u64) -> u64
    requires { 0 < n }
    ensures { result ≡ m ^ e % n }
{
    power_modulo(m, e, n)
}

/// Returns `true`: a power whose exponent is a sum is the product of two powers, modulo each number.
pub fn exponents_add(m: u64, a: u64, b: u64, n: u64) -> bool
    requires { 0 < n }
    ensures { IsTrue result }
{
    let whole = power_modulo(m, u128::from(a) + u128::from(b), n);
    let first = power_modulo(m, u128::from(a), n);
    let second = power_modulo(m, u128::from(b), n);
    whole == product_modulo(first, second, n)
}
