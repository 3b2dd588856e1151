//! Values of the own types, and the bytes that count the operations of a call.

use super::rows::holds_at;
use num_integer::counted::{binomial_counted, extended_gcd_counted};
use num_integer::{ExtendedGcd, Fits, Integer, binomial, checked};
use num_traits::{Num, Signed};
use own_types::forms::{mark_of, with_mark};
use own_types::{Marked, Negated, Percent, Small, Tokens};

#[test]
fn texts(rt: HostRuntime) {
    assert!(rt; Percent::from_str_radix("7", 10).is_err());
    assert!(rt; Small::from_str_radix("7", 10).is_err());
}

#[test]
fn signs_of_small_numbers(rt: HostRuntime) {
    let (smallest, seven) = (Small::new(-7), Small::new(7));
    assert!(rt; smallest.abs() == seven && smallest.abs() == -smallest);
    assert!(rt; smallest.signum().number() == -1 && smallest.is_negative() && seven.is_positive());
    assert!(rt; seven.abs_sub(&Small::new(3)).number() == 4);
}

/// The stored numbers of `Negated` are in reverse order.
#[test]
fn numbers_stored_negated(rt: HostRuntime) {
    let (smallest, largest) = (Negated::new(-7), Negated::new(7));
    assert!(rt; smallest < largest && smallest.abs() == largest);
}

/// Two values of one number are equal, whatever their bytes are.
#[test]
fn numbers_beside_a_byte(rt: HostRuntime) {
    let (plain, marked) = (Marked::new(5), with_mark(Marked::new(5), 9));
    assert!(rt; mark_of(plain) == 0 && mark_of(marked) == 9);
    assert!(rt; plain == marked && !(plain < marked) && !(marked < plain));
    assert!(rt; plain.is_multiple_of(&marked) && marked.is_multiple_of(&plain));
    assert!(rt; mark_of(plain + marked) == 10);
    let common = checked::gcd(marked, plain).expect(&rt, "the divisor fits");
    assert!(rt; common == plain && mark_of(common) == 10);
}

/// Numbers of more than 64 bits, without negative ones.
#[test]
fn numbers_of_a_hundred_bits(rt: HostRuntime) {
    let all = Tokens::new(1_000_000_000_000_000_000_000_000_000_000);
    let some = Tokens::new(600_000_000_000_000_000_000_000_000_000);
    let common = checked::gcd(all, some).expect(&rt, "the divisor fits");
    assert!(rt; common.number() == 200_000_000_000_000_000_000_000_000_000);
    assert!(rt; checked::sum(all, common).is_none() && checked::lcm(all, some).is_none());
    assert!(rt; checked::difference(some, all).is_none());
}

/// The results of the three calls for a Bezout pair, and the iterations.
fn pairs<T: Fits>(a: T, b: T) -> Option<([ExtendedGcd<T>; 3], u32)>
    requires a_in_range { T.fits (T.value a) }
    requires b_in_range { T.fits (T.value b) }
{
    let pair = checked::extended_gcd(a, b)?;
    let (counted, iterations) = extended_gcd_counted(a, b);
    Some(([pair, a.extended_gcd(&b), counted], iterations))
}

/// The results of the three calls for a coefficient, and the iterations.
fn coefficients<T: Fits>(n: T, k: T) -> Option<([T; 3], u32)>
    requires n_in_range { T.fits (T.value n) }
    requires k_in_range { T.fits (T.value k) }
{
    let coefficient = checked::binomial(n, k)?;
    let (counted, iterations) = binomial_counted(n, k);
    Some(([coefficient, binomial(n, k), counted], iterations))
}

/// An implementation that makes more iterations than it counts, or that subtracts in place of a division, leaves a larger byte.
#[test]
fn bytes_tell_the_work(rt: HostRuntime) {
    let found = pairs(Marked::new(99), Marked::new(2));
    let (pairs, iterations) = found.expect(&rt, "the pair fits");
    holds_at(&rt, iterations == 1, &iterations);
    for ExtendedGcd { gcd, x, y } in pairs {
        let numbers = (gcd.number(), x.number(), y.number());
        let mark = mark_of(gcd).max(mark_of(x)).max(mark_of(y));
        holds_at(&rt, numbers == (1, 1, -49) && mark <= 16, &(numbers, mark));
    }
    let found = coefficients(Marked::new(100), Marked::new(99));
    let (coefficients, iterations) = found.expect(&rt, "the coefficient fits");
    holds_at(&rt, iterations == 1, &iterations);
    for it in coefficients {
        let (number, mark) = (it.number(), mark_of(it));
        holds_at(&rt, number == 100 && mark <= 16, &(number, mark));
    }
}
