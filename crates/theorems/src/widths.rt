//! Results do not depend on the type: two calls with the same numbers, at two types, return the same number, and it is the number of
//! the definition.
//!
//! A `usize` has 64 bits in Rattle. In Rust it can have 32 bits, and then it runs the code of `u32`. No theorem says this: it is seen by
//! reading, since the instances of the traits for `u32` and `usize` are the same text.

ghost use Rattle.std.specs.Prelude.{◌≡◌, ◌≢◌, ◌%◌, ◌≤ℤ◌, pos};
ghost use Rattle.num_integer.specs.Averages.{IsAverageCeil, IsAverageFloor};
ghost use Rattle.num_integer.specs.Coefficient.{coefficient_of};
ghost use Rattle.num_integer.specs.Division.{IsCeiled, IsFloored, IsMultiple, IsQuotient, IsTruncated};
ghost use Rattle.num_integer.specs.Divisors.{GcdFits, IsGreatestCommonDivisor, IsLeastCommonMultiple};
ghost use Rattle.num_integer.specs.Range.{EachFits};
ghost use Rattle.num_integer.specs.RootOf.{IsRoot};

use num_integer::{Average, Integer, Roots, binomial, div_ceil, div_mod_floor, div_rem, gcd, lcm};

/// Returns the quotient rounded down and its remainder, at two types.
pub fn div_mod_floor_at_two_types<S: Integer, T: Integer>(
    n: S,
    d: S,
    m: T,
    e: T,
) -> ((S, S), (T, T))
    requires first_in_range { S.fits (S.value n) × S.fits (S.value d) }
    requires second_in_range { T.fits (T.value m) × T.fits (T.value e) }
    requires same_number { S.value n ≡ T.value m }
    requires same_divisor { S.value d ≡ T.value e }
    requires nonzero { T.value e ≢ pos 0 }
    requires first_fits { EachFits S.fits (IsQuotient IsFloored (S.value n) (S.value d)) }
    requires second_fits { EachFits T.fits (IsQuotient IsFloored (T.value m) (T.value e)) }
    ensures defined { IsFloored (S.value n) (S.value d) (S.value result.0.0) (S.value result.0.1) }
    ensures same_quotient { S.value result.0.0 ≡ T.value result.1.0 }
    ensures same_remainder { S.value result.0.1 ≡ T.value result.1.1 }
{
    (div_mod_floor(n, d), div_mod_floor(m, e))
}

/// Returns the quotient rounded toward 0 and its remainder, at two types.
pub fn div_rem_at_two_types<S: Integer, T: Integer>(n: S, d: S, m: T, e: T) -> ((S, S), (T, T))
    requires first_in_range { S.fits (S.value n) × S.fits (S.value d) }
    requires second_in_range { T.fits (T.value m) × T.fits (T.value e) }
    requires same_number { S.value n ≡ T.value m }
    requires same_divisor { S.value d ≡ T.value e }
    requires nonzero { T.value e ≢ pos 0 }
    requires first_fits { EachFits S.fits (IsQuotient IsTruncated (S.value n) (S.value d)) }
    requires second_fits { EachFits T.fits (IsQuotient IsTruncated (T.value m) (T.value e)) }
    ensures defined { IsTruncated (S.value n) (S.value d) (S.value result.0.0) (S.value result.0.1) }
    ensures same_quotient { S.value result.0.0 ≡ T.value result.1.0 }
    ensures same_remainder { S.value result.0.1 ≡ T.value result.1.1 }
{
    (div_rem(n, d), div_rem(m, e))
}

/// Returns the quotient rounded up, at two types.
pub fn div_ceil_at_two_types<S: Integer, T: Integer>(n: S, d: S, m: T, e: T) -> (S, T)
    requires first_in_range { S.fits (S.value n) × S.fits (S.value d) }
    requires second_in_range { T.fits (T.value m) × T.fits (T.value e) }
    requires same_number { S.value n ≡ T.value m }
    requires same_divisor { S.value d ≡ T.value e }
    requires nonzero { T.value e ≢ pos 0 }
    requires first_fits { EachFits S.fits (IsQuotient IsCeiled (S.value n) (S.value d)) }
    requires second_fits { EachFits T.fits (IsQuotient IsCeiled (T.value m) (T.value e)) }
    ensures defined { IsQuotient IsCeiled (S.value n) (S.value d) (S.value result.0) }
    ensures same { S.value result.0 ≡ T.value result.1 }
{
    (div_ceil(n, d), div_ceil(m, e))
}

/// Returns the next multiple, at two types.
pub fn next_multiple_of_at_two_types<S: Integer, T: Integer>(n: S, d: S, m: T, e: T) -> (S, T)
    requires first_in_range { S.fits (S.value n) × S.fits (S.value d) }
    requires second_in_range { T.fits (T.value m) × T.fits (T.value e) }
    requires same_number { S.value n ≡ T.value m }
    requires same_divisor { S.value d ≡ T.value e }
    requires nonzero { T.value e ≢ pos 0 }
    requires first_fits { EachFits S.fits (IsMultiple IsCeiled (S.value n) (S.value d)) }
    requires second_fits { EachFits T.fits (IsMultiple IsCeiled (T.value m) (T.value e)) }
    ensures defined { IsMultiple IsCeiled (S.value n) (S.value d) (S.value result.0) }
    ensures same { S.value result.0 ≡ T.value result.1 }
{
    (n.next_multiple_of(&d), m.next_multiple_of(&e))
}

/// Returns the previous multiple, at two types.
pub fn prev_multiple_of_at_two_types<S: Integer, T: Integer>(n: S, d: S, m: T, e: T) -> (S, T)
    requires first_in_range { S.fits (S.value n) × S.fits (S.value d) }
    requires second_in_range { T.fits (T.value m) × T.fits (T.value e) }
    requires same_number { S.value n ≡ T.value m }
    requires same_divisor { S.value d ≡ T.value e }
    requires nonzero { T.value e ≢ pos 0 }
    requires first_fits { EachFits S.fits (IsMultiple IsFloored (S.value n) (S.value d)) }
    requires second_fits { EachFits T.fits (IsMultiple IsFloored (T.value m) (T.value e)) }
    ensures defined { IsMultiple IsFloored (S.value n) (S.value d) (S.value result.0) }
    ensures same { S.value result.0 ≡ T.value result.1 }
{
    (n.prev_multiple_of(&d), m.prev_multiple_of(&e))
}

/// Returns the greatest common divisor, at two types.
pub fn gcd_at_two_types<S: Integer, T: Integer>(a: S, b: S, m: T, n: T) -> (S, T)
    requires first_in_range { S.fits (S.value a) × S.fits (S.value b) }
    requires second_in_range { T.fits (T.value m) × T.fits (T.value n) }
    requires same_first { S.value a ≡ T.value m }
    requires same_second { S.value b ≡ T.value n }
    requires first_fits { GcdFits S.fits (S.value a) (S.value b) }
    requires second_fits { GcdFits T.fits (T.value m) (T.value n) }
    ensures defined { IsGreatestCommonDivisor (S.value a) (S.value b) (S.value result.0) }
    ensures same { S.value result.0 ≡ T.value result.1 }
{
    (gcd(a, b), gcd(m, n))
}

/// Returns the least common multiple, at two types.
pub fn lcm_at_two_types<S: Integer, T: Integer>(a: S, b: S, m: T, n: T) -> (S, T)
    requires first_in_range { S.fits (S.value a) × S.fits (S.value b) }
    requires second_in_range { T.fits (T.value m) × T.fits (T.value n) }
    requires same_first { S.value a ≡ T.value m }
    requires same_second { S.value b ≡ T.value n }
    requires first_fits { EachFits S.fits (IsLeastCommonMultiple (S.value a) (S.value b)) }
    requires second_fits { EachFits T.fits (IsLeastCommonMultiple (T.value m) (T.value n)) }
    ensures defined { IsLeastCommonMultiple (S.value a) (S.value b) (S.value result.0) }
    ensures same { S.value result.0 ≡ T.value result.1 }
{
    (lcm(a, b), lcm(m, n))
}

/// Returns the averages rounded down and up, at two types.
pub fn averages_at_two_types<S: Average, T: Average>(a: S, b: S, m: T, n: T) -> ((S, S), (T, T))
    requires first_in_range { S.fits (S.value a) × S.fits (S.value b) }
    requires second_in_range { T.fits (T.value m) × T.fits (T.value n) }
    requires same_first { S.value a ≡ T.value m }
    requires same_second { S.value b ≡ T.value n }
    ensures defined_floor { IsAverageFloor (S.value a) (S.value b) (S.value result.0.0) }
    ensures defined_ceil { IsAverageCeil (S.value a) (S.value b) (S.value result.0.1) }
    ensures floor { S.value result.0.0 ≡ T.value result.1.0 }
    ensures ceil { S.value result.0.1 ≡ T.value result.1.1 }
{
    (
        (a.average_floor(&b), a.average_ceil(&b)),
        (m.average_floor(&n), m.average_ceil(&n)),
    )
}

/// Returns the root of degree `degree`, at two types.
pub fn nth_root_at_two_types<S: Roots, T: Roots>(x: S, y: T, degree: u32) -> (S, T)
    requires in_range { S.fits (S.value x) × T.fits (T.value y) }
    requires same_number { S.value x ≡ T.value y }
    requires degree { degree ≢ 0 }
    requires from_zero_where_even { degree % 2 ≡ 0 → pos 0 ≤ℤ T.value y }
    ensures defined { IsRoot (S.value x) degree (S.value result.0) }
    ensures same { S.value result.0 ≡ T.value result.1 }
{
    (x.nth_root(degree), y.nth_root(degree))
}

/// Returns the binomial coefficient, at two types.
pub fn binomial_at_two_types<S: Integer + Copy, T: Integer + Copy>(n: S, k: S, m: T, l: T) -> (S, T)
    requires first_in_range { S.fits (S.value n) × S.fits (S.value k) }
    requires second_in_range { T.fits (T.value m) × T.fits (T.value l) }
    requires same_number { S.value n ≡ T.value m }
    requires same_choice { S.value k ≡ T.value l }
    requires from_zero { (pos 0 ≤ℤ T.value m) × (pos 0 ≤ℤ T.value l) }
    requires fits { S.fits (coefficient_of (S.value n) (S.value k)) × T.fits (coefficient_of (T.value m) (T.value l)) }
    ensures defined { S.value result.0 ≡ coefficient_of (S.value n) (S.value k) }
    ensures same { S.value result.0 ≡ T.value result.1 }
{
    (binomial(n, k), binomial(m, l))
}

/// Returns the greatest common divisor at `u32`, whose code a `usize` of 32 bits runs in Rust, and at a `usize` of 64 bits.
pub fn gcd_at_both_widths_of_usize(a: u32, b: u32) -> (u32, usize)
    ensures defined { IsGreatestCommonDivisor (pos a) (pos b) (pos result.0) }
    ensures same { result.0 ≡ result.1 }
{
    (gcd(a, b), gcd(a as usize, b as usize))
}
