//! Each call on pairs of numbers of each own type, compared with the same call at `i64`. If each number of that result is in
//! range, the call returns the same; otherwise the operands do not meet its precondition.

use super::calls::Call;
use super::ends::Ends;
use super::results::{Numbers, result};
use super::roots::{check_root, has_no_root};
use super::rows::returns_as_tested;
use own_types::signed_magnitude::{SignedMagnitude, signed_magnitude_of};
use own_types::types::Type;
use own_types::types::Type::{I64, Marked, OneBit, Percent, Small, TwoBits};
use std::alloc::Global;
use std::process::Abort;

/// The calls on one number and on two.
const CALLS: &str =
    "parts is_even is_odd inc dec negated sum difference product average_floor average_ceil mod_floor div_rem operators \
    div_mod_floor div_floor div_ceil next_multiple_of prev_multiple_of is_multiple_of divides gcd lcm gcd_lcm binomial \
    binomial_counted multinomial extended_gcd_counted";

impl Ends {
    /// The numbers, if each lies between the ends.
    fn all(self, [a, b, c, d]: Numbers) -> Option<Numbers> {
        if self.has(a) && self.has(b) && self.has(c) && self.has(d) {
            Some([a, b, c, d])
        } else {
            None
        }
    }

    /// The result of the call at the type with these ends.
    fn expected(self, alloc: Global, call: Call, operands: &[SignedMagnitude]) -> Option<Numbers> {
        self.all(result(alloc, I64, call, operands)?)
    }
}

/// Checks each of the calls on two numbers of a type.
fn check_calls(
    rt: &impl Abort,
    alloc: Global,
    calls: &str,
    (it, ends): (Type, Ends),
    operands: &[SignedMagnitude],
) {
    for name in calls.split(' ') {
        let call = Call::named(name).expect(rt, "the call has this name");
        let expected = ends.expected(alloc, call, operands);
        returns_as_tested(rt, alloc, (it, call), operands, expected);
    }
}

/// A type, the magnitude of its smallest number, and its largest number.
type Ranged = (Type, u8, u8);

/// Checks the calls on the pairs of a first number and each number from the lower to the higher end.
fn check_pairs(rt: &impl Abort, alloc: Global, calls: &str, (it, low, high): Ranged, a: i128) {
    let ends = Ends(u128::from(low), u128::from(high));
    let a = signed_magnitude_of(a);
    for b in -i128::from(low)..=i128::from(high) {
        check_calls(rt, alloc, calls, (it, ends), &[a, signed_magnitude_of(b)]);
    }
}

static SMALL_TYPES: [Ranged; 5] = [
    (Percent, 0, 100),
    (Small, 7, 7),
    (Type::Negated, 7, 7),
    (OneBit, 0, 1),
    (TwoBits, 0, 3),
];

#[test]
fn pairs_of_small_types(rt: HostRuntime) {
    for &(it, low, high) in &SMALL_TYPES {
        for a in -i128::from(low)..=i128::from(high) {
            check_pairs(&rt, rt.alloc(), CALLS, (it, low, high), a);
        }
    }
}

/// Ends of the type beside a byte, their neighbours, and numbers between.
static FIRST_NUMBERS: [i128; 15] = [-100, -99, -60, -50, -7, -2, -1, 0, 1, 2, 3, 10, 50, 99, 100];

#[test]
fn pairs_beside_a_byte(rt: HostRuntime) {
    for &a in &FIRST_NUMBERS {
        check_pairs(&rt, rt.alloc(), CALLS, (Marked, 100, 100), a);
    }
}

#[test]
fn pairs_with_a_multiple(rt: HostRuntime) {
    for (it, high) in [(Small, 7u8), (Type::Negated, 7), (Marked, 100)] {
        for a in -i128::from(high)..=i128::from(high) {
            check_pairs(&rt, rt.alloc(), "extended_gcd_lcm", (it, high, high), a);
        }
    }
}

#[test]
fn roots_of_each_percent(rt: HostRuntime) {
    for x in 0..=100u8 {
        let number = signed_magnitude_of(i128::from(x));
        has_no_root(&rt, rt.alloc(), Percent, number, 0);
        for degree in 1..=8 {
            check_root(&rt, rt.alloc(), Percent, i128::from(x), degree);
        }
    }
}
