//! Greatest common divisors and least common multiples.

use super::calls::Call;
use super::calls::Call::{BezoutAndMultiple, Gcd, GcdLcm, Lcm};
use super::ends::largest;
use super::results::{Numbers, one, result, two};
use super::rows::{holds_at, returns, returns_of_two};
use num_integer::Fits;
use own_types::signed_magnitude::{SignedMagnitude, signed_magnitude_of, to_i128};
use own_types::types::{SIGNED, Type, UNSIGNED};
use std::alloc::Global;
use std::mem;
use std::process::Abort;

/// The greatest common divisor of two magnitudes, by remainders.
fn euclidean_gcd(mut m: u128, mut n: u128) -> u128 {
    while m != 0 {
        mem::swap(&mut m, &mut n);
        m %= n;
    }
    n
}

/// Checks each pair of the numbers from the lower to the higher against `euclidean_gcd`.
fn check_by_euclid(rt: &impl Abort, alloc: Global, it: Type, (low, high): (i128, i128)) {
    for a in low..=high {
        for b in low..=high {
            let (a, b) = (signed_magnitude_of(a), signed_magnitude_of(b));
            let gcd = euclidean_gcd(a.1, b.1);
            returns(rt, alloc, (it, Gcd), &[a, b], Some(one((false, gcd))));
        }
    }
}

#[test]
fn test_gcd_cmp_with_euclidean(rt: HostRuntime) {
    for &it in &SIGNED {
        check_by_euclid(&rt, rt.alloc(), it, (-127, 127));
    }
}

#[test]
fn test_gcd_cmp_with_euclidean_unsigned(rt: HostRuntime) {
    for &it in &UNSIGNED {
        check_by_euclid(&rt, rt.alloc(), it, (0, 255));
    }
}

/// The divisor of the smallest number with the largest, with a power of 2, and with 42.
#[test]
fn test_gcd_min_val(rt: HostRuntime) {
    for &it in &SIGNED {
        let largest = largest(&rt, rt.alloc(), it);
        let (smallest, power) = (-largest - 1, largest / 2 + 1);
        for (number, gcd) in [(largest, 1), (power, power), (42, 2)] {
            let gcd = one(signed_magnitude_of(gcd));
            returns_of_two(&rt, rt.alloc(), (it, Gcd), (smallest, number), gcd);
            returns_of_two(&rt, rt.alloc(), (it, Gcd), (number, smallest), gcd);
        }
    }
}

#[test]
fn gcd_fits_for_each_pair_of_bytes(rt: HostRuntime) {
    for a in 0..=255u8 {
        for b in 0..=255u8 {
            holds_at(&rt, a.gcd_fits(&b), &("gcd_fits", a, b));
        }
    }
}

/// The result of a call at `i32`.
fn at_32_bits(rt: &impl Abort, alloc: Global, call: Call, operands: &[SignedMagnitude]) -> Numbers {
    result(alloc, Type::I32, call, operands).expect(rt, "the result fits")
}

/// What `gcd` and `lcm` return.
fn each(rt: &impl Abort, alloc: Global, operands: &[SignedMagnitude]) -> Numbers {
    let [gcd, ..] = at_32_bits(rt, alloc, Gcd, operands);
    let [lcm, ..] = at_32_bits(rt, alloc, Lcm, operands);
    two(gcd, lcm)
}

#[test]
fn test_gcd_lcm(rt: HostRuntime) {
    for a in -128..=255i32 {
        for b in -128..=255i32 {
            let operands = [signed_magnitude_of(a.into()), signed_magnitude_of(b.into())];
            let both = at_32_bits(&rt, rt.alloc(), GcdLcm, &operands);
            let same = both == each(&rt, rt.alloc(), &operands);
            holds_at(&rt, same, &("gcd_lcm", a, b));
        }
    }
}

/// The first operand times `x` and the second times `y`, added up in `i32`.
fn combined_in_32_bits(a: i32, b: i32, x: SignedMagnitude, y: SignedMagnitude) -> Option<i32> {
    let x = i32::try_from(to_i128(x)?).ok()?;
    let y = i32::try_from(to_i128(y)?).ok()?;
    a.checked_mul(x)?.checked_add(b.checked_mul(y)?)
}

#[test]
fn test_extended_gcd_lcm(rt: HostRuntime) {
    for a in -128..=127i32 {
        for b in -128..=127i32 {
            let operands = [signed_magnitude_of(a.into()), signed_magnitude_of(b.into())];
            let [gcd, x, y, lcm] = at_32_bits(&rt, rt.alloc(), BezoutAndMultiple, &operands);
            let same = two(gcd, lcm) == each(&rt, rt.alloc(), &operands);
            let combined = combined_in_32_bits(a, b, x, y).expect(&rt, "the sum fits");
            let is_pair = signed_magnitude_of(combined.into()) == gcd;
            holds_at(&rt, same && is_pair, &("extended_gcd_lcm", a, b));
        }
    }
}
