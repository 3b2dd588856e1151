//! Coprime numbers, and pairs divided by their greatest common divisor.

ghost use Rattle.std.specs.Prelude.{◌↔◌, pos, IsTrue};
ghost use Rattle.applied.specs.ReducedPairs.{IsReducedPair};
ghost use Rattle.num_integer.specs.Divisors.{IsGreatestCommonDivisor};

use applied::coprime::{is_coprime, reduced};

/// Two numbers.
#[repr(C)]
#[derive(Clone, Copy)]
pub struct I64Pair {
    pub first: i64,
    pub second: i64,
}

/// Two numbers.
#[repr(C)]
#[derive(Clone, Copy)]
pub struct U64Pair {
    pub first: u64,
    pub second: u64,
}

/// Returns `true` if the greatest common divisor of the numbers is 1. For 8 and 15 it is `true`, and for 8
/// and 6 it is `false`.
#[unsafe(no_mangle)]
pub extern "C" fn cellarcove_is_coprime_i64(x: i64, y: i64) -> bool
    ensures { IsTrue result ↔ IsGreatestCommonDivisor x y (pos 1) }
{
    is_coprime(x, y)
}

/// Returns `true` if the greatest common divisor of the numbers is 1. For 8 and 15 it is `true`, and for 8
/// and 6 it is `false`.
#[unsafe(no_mangle)]
pub extern "C" fn cellarcove_is_coprime_u64(x: u64, y: u64) -> bool
    ensures { IsTrue result ↔ IsGreatestCommonDivisor (pos x) (pos y) (pos 1) }
{
    is_coprime(x, y)
}

/// Returns both numbers divided by their greatest common divisor, with their signs. Those of -6 and 4 are
/// -3 and 2.
#[unsafe(no_mangle)]
pub extern "C" fn cellarcove_reduced_i64(x: i64, y: i64) -> I64Pair
    ensures { IsReducedPair x y result.first result.second }
{
    let (first, second) = reduced(x, y);
    I64Pair { first, second }
}

/// Returns both numbers divided by their greatest common divisor. Those of 1920 and 1080 are 16 and 9.
#[unsafe(no_mangle)]
pub extern "C" fn cellarcove_reduced_u64(x: u64, y: u64) -> U64Pair
    ensures { IsReducedPair (pos x) (pos y) (pos result.first) (pos result.second) }
{
    let (first, second) = reduced(x, y);
    U64Pair { first, second }
}
