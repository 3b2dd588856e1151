//! Roots.

use super::calls::Call::{Cbrt, Root, Sqrt};
use super::ends::largest;
use super::results::{one, result};
use super::rows::{holds_at, returns};
use own_types::signed_magnitude::{SignedMagnitude, signed_magnitude_of};
use own_types::types::Type;
use own_types::types::Type::{I8, I16, I32, I64, Isize, U8, U16, U32, U64, Usize};
use std::alloc::Global;
use std::process::Abort;

/// The signed types of at most 64 bits, and the bits beside the sign.
static SIGNED_BITS: [(Type, u32); 5] = [(I8, 7), (I16, 15), (I32, 31), (I64, 63), (Isize, 63)];

/// The unsigned types of at most 64 bits, and their bits.
static UNSIGNED_BITS: [(Type, u32); 5] = [(U8, 8), (U16, 16), (U32, 32), (U64, 64), (Usize, 64)];

/// Checks the root by each of the calls.
fn has_root(
    rt: &impl Abort,
    alloc: Global,
    it: Type,
    x: SignedMagnitude,
    degree: u32,
    root: SignedMagnitude,
) {
    let operands = [x, (false, u128::from(degree))];
    returns(rt, alloc, (it, Root), &operands, Some(one(root)));
    match degree {
        2 => returns(rt, alloc, (it, Sqrt), &[x], Some(one(root))),
        3 => returns(rt, alloc, (it, Cbrt), &[x], Some(one(root))),
        _ => {}
    }
}

/// Checks the root of a number, of a degree.
fn check_number(rt: &impl Abort, alloc: Global, (it, x, degree, root): (Type, i128, u32, i128)) {
    let (x, root) = (signed_magnitude_of(x), signed_magnitude_of(root));
    has_root(rt, alloc, it, x, degree, root);
}

/// Checks that the root has the sign of the number, and the largest magnitude whose power is at most the number's.
pub(super) fn check_root(rt: &impl Abort, alloc: Global, it: Type, x: i128, n: u32) {
    let operand = signed_magnitude_of(x);
    let root = result(alloc, it, Root, &[operand, (false, u128::from(n))]);
    let [(negative, magnitude), ..] = root.expect(rt, "the number has a root");
    has_root(rt, alloc, it, operand, n, (negative, magnitude));
    let power = magnitude
        .checked_pow(n)
        .expect(rt, "the power is at most the number");
    let next = magnitude
        .saturating_add(1)
        .checked_pow(n)
        .unwrap_or(u128::MAX);
    let is_root = negative == (x < 0) && power <= x.unsigned_abs() && x.unsigned_abs() < next;
    holds_at(rt, is_root, &("nth_root", x, n));
}

/// Checks that the precondition of a root of this degree does not hold.
pub(super) fn has_no_root(
    rt: &impl Abort,
    alloc: Global,
    it: Type,
    x: SignedMagnitude,
    degree: u32,
) {
    let operands = [x, (false, u128::from(degree))];
    returns(rt, alloc, (it, Root), &operands, None);
    if degree == 2 {
        returns(rt, alloc, (it, Sqrt), &[x], None);
    }
}

/// Checks the roots of small numbers, of numbers near the largest one, and of the largest one shifted either way.
fn check_roots_from_zero(rt: &impl Abort, alloc: Global, (it, bits): (Type, u32), n: u32) {
    let largest = largest(rt, alloc, it);
    for step in 0..128u8 {
        check_root(rt, alloc, it, i128::from(step), n);
        check_root(rt, alloc, it, largest - i128::from(step), n);
    }
    for shift in 0..=64u32 {
        if shift <= bits {
            check_root(rt, alloc, it, (largest << shift) & largest, n);
            check_root(rt, alloc, it, largest >> shift, n);
        }
    }
}

/// Degrees up to the bits of a type, and far above.
static DEGREES: [u32; 12] = [0, 1, 2, 3, 4, 5, 31, 32, 63, 64, 4294967294, 4294967295];

/// Checks the root of each of the degrees.
fn check_degrees(rt: &impl Abort, alloc: Global, it: Type, x: i128) {
    for &degree in &DEGREES {
        if degree == 0 || x < 0 && degree % 2 == 0 {
            has_no_root(rt, alloc, it, signed_magnitude_of(x), degree);
        } else {
            check_root(rt, alloc, it, x, degree);
        }
    }
}

#[test]
fn roots_at_the_ends(rt: HostRuntime) {
    for &(it, _) in &SIGNED_BITS {
        let largest = largest(&rt, rt.alloc(), it);
        for x in [-largest - 1, -1, 0, 1, largest] {
            check_degrees(&rt, rt.alloc(), it, x);
        }
    }
    for &(it, _) in &UNSIGNED_BITS {
        for x in [0, 1, largest(&rt, rt.alloc(), it)] {
            check_degrees(&rt, rt.alloc(), it, x);
        }
    }
}

/// Checks the same of negative numbers, if the degree is odd.
fn check_roots_below_zero(rt: &impl Abort, alloc: Global, (it, bits): (Type, u32), n: u32) {
    if n.is_multiple_of(2) {
        return;
    }
    let smallest = -largest(rt, alloc, it) - 1;
    for step in 0..128u8 {
        check_root(rt, alloc, it, -i128::from(step), n);
        check_root(rt, alloc, it, smallest + i128::from(step), n);
    }
    check_root(rt, alloc, it, smallest + 128, n);
    for shift in 0..=64u32 {
        if shift <= bits {
            check_root(rt, alloc, it, -1 << shift, n);
            check_root(rt, alloc, it, smallest >> shift, n);
        }
    }
}

/// Checks the roots of a degree of numbers that are not negative, at each type.
fn check_each(rt: &impl Abort, alloc: Global, n: u32) {
    for &typed in &SIGNED_BITS {
        check_roots_from_zero(rt, alloc, typed, n);
    }
    for &typed in &UNSIGNED_BITS {
        check_roots_from_zero(rt, alloc, typed, n);
    }
}

#[test]
fn sqrt(rt: HostRuntime) {
    check_each(&rt, rt.alloc(), 2);
}

#[test]
fn cbrt(rt: HostRuntime) {
    check_each(&rt, rt.alloc(), 3);
}

#[test]
fn cbrt_neg(rt: HostRuntime) {
    for &typed in &SIGNED_BITS {
        check_roots_below_zero(&rt, rt.alloc(), typed, 3);
    }
}

#[test]
fn nth_root(rt: HostRuntime) {
    for &typed in &SIGNED_BITS {
        for n in 4..typed.1 {
            check_roots_from_zero(&rt, rt.alloc(), typed, n);
        }
    }
}

#[test]
fn nth_root_neg(rt: HostRuntime) {
    for &typed in &SIGNED_BITS {
        for n in 5..typed.1 {
            check_roots_below_zero(&rt, rt.alloc(), typed, n);
        }
    }
}

/// Checks that the root of degree `n` of the largest number of `n` bits is 1, and of degree `n - 1` it is 2.
fn has_bits(rt: &impl Abort, alloc: Global, it: Type, n: u32) {
    let number = largest(rt, alloc, it);
    check_number(rt, alloc, (it, number, n.saturating_sub(1), 2));
    check_number(rt, alloc, (it, number, n, 1));
}

#[test]
fn bit_size(rt: HostRuntime) {
    for &(it, bits) in &SIGNED_BITS {
        has_bits(&rt, rt.alloc(), it, bits);
        let largest = largest(&rt, rt.alloc(), it);
        check_number(&rt, rt.alloc(), (it, -largest - 1, bits, -2));
        check_number(&rt, rt.alloc(), (it, -largest, bits, -1));
    }
    for &(it, bits) in &UNSIGNED_BITS {
        has_bits(&rt, rt.alloc(), it, bits);
    }
}
