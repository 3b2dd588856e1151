//! Arithmetic on the numbers of an own type, against computation in 128 bits and by trial.

use crate::tests::rows::holds_at;
use modular::{difference_modulo, inverse_modulo, power_modulo, product_modulo, sum_modulo};
use num_integer::operators::{is_below, zero};
use own_types::Marked;
use own_types::signed_magnitude::signed_magnitude_of;
use own_types::types::Tested;
use std::process::Abort;

/// The number as a value of the type.
fn value<T: Tested>(rt: &impl Abort, number: i64) -> T
    ensures { T.fits (T.value result) }
{
    let number = signed_magnitude_of(number.into());
    T::from_signed_magnitude(number).expect(rt, "the type has the number")
}

/// The residue of a number by a positive modulus.
fn residue_of(z: i128, m: i64) -> i128 {
    z.checked_rem_euclid(m.into()).unwrap_or(-1)
}

/// Checks the sum, the difference and the product of two numbers.
fn check_operations(rt: &impl Abort, a: i64, b: i64, m: i64) {
    let (x, y, n): (Marked, Marked, Marked) = (value(rt, a), value(rt, b), value(rt, m));
    if is_below(zero(), n) {
        for (found, expected) in [
            (sum_modulo(x, y, n), a.wrapping_add(b)),
            (difference_modulo(x, y, n), a.wrapping_sub(b)),
            (product_modulo(x, y, n), a.wrapping_mul(b)),
        ] {
            let same = i128::from(found.number()) == residue_of(expected.into(), m);
            holds_at(rt, same, &(a, b, m));
        }
    }
}

/// The only number `x` from 0 to below `m` for which `a` times `x` is 1 modulo `m`, found by trial.
fn only_inverse(a: i64, m: i64) -> Option<i64> {
    let mut found = None;
    let rest = residue_of(1, m);
    for x in 0..m {
        if residue_of(a.wrapping_mul(x).into(), m) == rest {
            if found.is_some() {
                return None;
            }
            found = Some(x);
        }
    }
    found
}

/// Checks the powers and the inverse of a number.
fn check_powers(rt: &impl Abort, a: i64, m: i64) {
    let (x, n): (Marked, Marked) = (value(rt, a), value(rt, m));
    if is_below(zero(), n) {
        for degree in [0, 1, 2, 13, 18] {
            let power = i128::from(power_modulo(x, degree.into(), n).number());
            let expected = residue_of(i128::from(a).wrapping_pow(degree), m);
            holds_at(rt, power == expected, &(a, degree, m));
        }
        let inverse = match inverse_modulo(x, n) {
            Some(inverse) => Some(inverse.number()),
            None => None,
        };
        holds_at(rt, inverse == only_inverse(a, m), &(a, m));
    }
}

/// Moduli: the ends and their neighbours, a prime, products of primes and a power of two.
static MODULI: [i64; 10] = [1, 2, 10, 49, 64, 77, 97, 98, 99, 100];

#[test]
fn residues_of_own_numbers(rt: HostRuntime) {
    for &m in &MODULI {
        for a in -100..=100 {
            check_powers(&rt, a, m);
            for b in [-100, -99, -50, -1, 0, 1, 2, 64, 97, 100] {
                check_operations(&rt, a, b, m);
            }
        }
    }
}
