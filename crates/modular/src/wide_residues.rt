//! Products and powers of residues of up to 128 bits. A product of more bits is divided by long division in digits of
//! 64 bits.

ghost use Rattle.std.specs.Prelude.{◌≡◌, ◌+◌, ◌*◌, ◌^◌, ◌<◌, ◌≤◌, ◌*ℤ◌, pos};
ghost use Rattle.std.specs.Int.{int_pow};
ghost use Rattle.modular.specs.Congruences.{IsResidue};
ghost use Rattle.modular.specs.Below.{IsNaturalRemainder, LiesBelow};
ghost use Rattle.modular.specs.Powers.{IsIterationCount};

use crate::exponentiation::{Residues, power_counted};
use crate::word_residues::power_of_word;

/// How many values a `u64` has. It is the base of the digits of a long division.
pub(crate) const U64_VALUES: u128 = 18446744073709551616;

/// Returns the power of a residue, and the number of iterations of its loop. An exponent up to 3 needs too few products
/// to make up for the conversions of [`power_of_word`].
pub(crate) fn power_of_wide(x: u128, exponent: u128, m: u128) -> (u128, u32)
    requires { LiesBelow (pos m) (pos x) }
    ensures residue { IsResidue (pos m) (int_pow (pos x) exponent) (pos result.0) }
    ensures iterations { IsIterationCount exponent result.1 }
{
    if m < U64_VALUES && exponent > 3 {
        let (power, iterations) = power_of_word(x as u64, exponent, m as u64);
        return (u128::from(power), iterations);
    }
    let product = move |x: u128, y: u128| -> u128
        requires { 0 < m }
        ensures { IsResidue (pos m) (pos x *ℤ pos y) (pos result) }
    { product_of_wide(x, y, m) };
    let residues = Residues {
        modulus: m,
        product,
    };
    power_counted(&residues, 1 % m, x, exponent)
}

/// Returns the product of two numbers modulo `m`. If both have at most 64 bits, `x * y` does not overflow.
#[inline]
pub(crate) fn product_of_wide(x: u128, y: u128, m: u128) -> u128
    requires { 0 < m }
    ensures { IsResidue (pos m) (pos x *ℤ pos y) (pos result) }
{
    if x < U64_VALUES && y < U64_VALUES {
        x * y % m
    } else {
        product_by_residues(x, y, m)
    }
}

/// Returns the product of two numbers modulo `m`: it multiplies their residues.
#[inline(never)]
fn product_by_residues(x: u128, y: u128, m: u128) -> u128
    requires { 0 < m }
    ensures { IsResidue (pos m) (pos x *ℤ pos y) (pos result) }
{
    product_of_residues(x % m, y % m, m)
}

/// Returns the product of two residues modulo `m`. If `m` is at most 2^64, `x * y` does not overflow.
#[tactic(auto, using(crate::proofs::LongDivision::natural_remainder_is_residue))]
fn product_of_residues(x: u128, y: u128, m: u128) -> u128
    requires x_below { LiesBelow (pos m) (pos x) }
    requires y_below { LiesBelow (pos m) (pos y) }
    ensures { IsResidue (pos m) (pos x *ℤ pos y) (pos result) }
{
    if m <= U64_VALUES {
        x * y % m
    } else {
        long_product(x, y, m)
    }
}

// ---- long division

/// Returns the product of two residues modulo `m`. It first shifts the modulus left until its highest bit is set:
/// each guess of a digit of the quotient is then at most 2 too large.
#[tactic(auto, using(crate::proofs::LongDivision::shifted_left, std::proofs::lemmas::Nat::pow_pos))]
fn long_product(x: u128, y: u128, m: u128) -> u128
    requires long { 2 ^ 64 ≤ m }
    requires below { x < m }
    ensures { IsNaturalRemainder (x * y) m result }
{
    let places = m.leading_zeros();
    normalized_product(x << places, y, m << places) >> places
}

/// Returns the product of two numbers modulo `m`. The first is smaller than `m`.
#[tactic(auto, using(crate::proofs::LongDivision::remainder_of_digits))]
fn normalized_product(x: u128, y: u128, m: u128) -> u128
    requires long { 2 ^ 64 ≤ m }
    requires below { x < m }
    ensures { IsNaturalRemainder (x * y) m result }
{
    let (high, low) = full_product(x, y);
    let remainder = next_remainder(high, low / U64_VALUES, m);
    next_remainder(remainder, low % U64_VALUES, m)
}

/// Returns the product of two numbers in 256 bits, as its high 128 bits and its low 128 bits.
fn full_product(x: u128, y: u128) -> (u128, u128)
    ensures { x * y ≡ result.0 * 2 ^ 128 + result.1 }
{
    let (a, b) = (x / U64_VALUES, x % U64_VALUES);
    let (c, d) = (y / U64_VALUES, y % U64_VALUES);
    let low = b * d;
    let middle = a * d + low / U64_VALUES;
    let other = b * c + middle % U64_VALUES;
    (
        a * c + middle / U64_VALUES + other / U64_VALUES,
        other % U64_VALUES * U64_VALUES + low % U64_VALUES,
    )
}

/// Returns the remainder by `m` of the number that is `remainder` followed by one more digit.
fn next_remainder(remainder: u128, digit: u128, m: u128) -> u128
    requires long { 2 ^ 64 ≤ m }
    requires below { remainder < m }
    requires is_digit { digit < 2 ^ 64 }
    ensures { IsNaturalRemainder (remainder * 2 ^ 64 + digit) m result }
{
    let low = m % U64_VALUES;
    let (quotient, over) = quotient_digit(remainder, digit, m / U64_VALUES, low);
    let product = quotient * low;
    if product % U64_VALUES <= digit {
        (over - product / U64_VALUES) * U64_VALUES + (digit - product % U64_VALUES)
    } else {
        (over - product / U64_VALUES - 1) * U64_VALUES + (U64_VALUES + digit - product % U64_VALUES)
    }
}

/// Returns the next digit of a quotient by the number with the digits `high` and `low`, and `remainder` minus the
/// product of this digit and `high`.
fn quotient_digit(remainder: u128, digit: u128, high: u128, low: u128) -> (u128, u128)
    requires high_positive { 0 < high }
    requires high_digit { high < 2 ^ 64 }
    requires low_digit { low < 2 ^ 64 }
    requires is_digit { digit < 2 ^ 64 }
    requires below { remainder < high * 2 ^ 64 + low }
    ensures quotient_digit { result.0 < 2 ^ 64 }
    ensures over { result.1 + result.0 * high ≡ remainder }
    ensures at_most { result.0 * low ≤ result.1 * 2 ^ 64 + digit }
    ensures next { result.1 * 2 ^ 64 + digit < result.0 * low + (high * 2 ^ 64 + low) }
{
    let mut quotient = (remainder / high).min(U64_VALUES - 1);
    let mut over = remainder - quotient * high;
    'guesses: while over < U64_VALUES && over * U64_VALUES + digit < quotient * low {
        quotient -= 1;
        over += high;
    }
    (quotient, over)
}
