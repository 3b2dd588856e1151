//! The calls on the smallest and the largest number of each type, with each other and with 0, 1 and -1.
//!
//! The tables are those of a signed type of 101 bits, computed with Python's integers. A number near an end of it, or near
//! half of its largest number, is at another type the number as near to the end of that type, or to half of it.

use super::calls::Call;
use super::ends::{Ends, ends_of};
use super::results::{Numbers, one};
use super::rows::returns_as_tested;
use own_types::signed_magnitude::{SignedMagnitude, signed_magnitude};
use own_types::types::{NATIVE, SIGNED, Type};
use std::alloc::Global;
use std::process::Abort;

const MIN: i128 = -(1 << 100);

const MAX: i128 = (1 << 100) - 1;

const HALF: i128 = (1 << 99) - 1;

/// As many as `MAX` has bits, but one.
const ITERATIONS: i128 = 1 << 97;

/// The precondition does not hold, or the result is out of range.
const OUT: i128 = i128::MAX;

/// Calls, and the places in a row of the numbers of the result of each.
macro_rules! calls {
    ($($call:ident $($place:literal)+),+) => {
        [$((Call::$call, &[$($place),+])),+]
    };
}

/// A number and 0; the number, one more, one less, the other sign, 1 if it is even, and 1 if it is odd.
static NUMBERS: [([i128; 2], [i128; 6]); 5] = [
    ([MIN, 0], [MIN, MIN + 1, OUT, OUT, 1, 0]),
    ([-1, 0], [-1, 0, -2, 1, 0, 1]),
    ([0, 0], [0, 1, -1, 0, 1, 0]),
    ([1, 0], [1, 2, 0, -1, 0, 1]),
    ([MAX, 0], [MAX, OUT, MAX - 1, MIN + 1, 0, 1]),
];

/// The calls on a number.
static NUMBER_CALLS: [(Call, &[usize]); 6] =
    calls![Parts 0, Inc 1, Dec 2, Negated 3, IsEven 4, IsOdd 5];

/// Two numbers, their sum, difference and product, and their averages.
static SUMS: [([i128; 2], [i128; 5]); 20] = [
    ([MIN, 0], [MIN, MIN, 0, -HALF - 1, -HALF - 1]),
    ([MIN, 1], [MIN + 1, OUT, MIN, -HALF - 1, -HALF]),
    ([MIN, -1], [OUT, MIN + 1, OUT, -HALF - 2, -HALF - 1]),
    ([MIN, MIN], [OUT, 0, OUT, MIN, MIN]),
    ([MIN, MAX], [-1, OUT, OUT, -1, 0]),
    ([MAX, MIN], [-1, OUT, OUT, -1, 0]),
    ([MAX, -1], [MAX - 1, OUT, MIN + 1, HALF, HALF]),
    ([0, MIN], [MIN, OUT, 0, -HALF - 1, -HALF - 1]),
    ([-1, MIN], [OUT, MAX, OUT, -HALF - 2, -HALF - 1]),
    ([MAX, 0], [MAX, MAX, 0, HALF, HALF + 1]),
    ([MAX, 1], [OUT, MAX - 1, MAX, HALF + 1, HALF + 1]),
    ([MAX, 2], [OUT, MAX - 2, OUT, HALF + 1, HALF + 2]),
    ([MAX, MAX], [OUT, 0, OUT, MAX, MAX]),
    ([MAX, MAX - 1], [OUT, 1, OUT, MAX - 1, MAX]),
    ([MAX - 3, MAX - 1], [OUT, -2, OUT, MAX - 2, MAX - 2]),
    ([MAX - 3, MAX - 2], [OUT, -1, OUT, MAX - 3, MAX - 2]),
    ([0, MAX], [MAX, MIN + 1, 0, HALF, HALF + 1]),
    ([0, 0], [0, 0, 0, 0, 0]),
    ([0, 1], [1, -1, 0, 0, 1]),
    ([1, 0], [1, 1, 0, 0, 1]),
];

static SUM_CALLS: [(Call, &[usize]); 5] = calls![
    Sum 0, Difference 1, Product 2, AverageFloor 3, AverageCeil 4
];

/// Two numbers, the quotient and the remainder by `/` and `%`, those rounded down, the quotient rounded up, the next and the
/// previous multiple, and 1 if the first number is a multiple of the second.
static DIVISIONS: [([i128; 2], [i128; 8]); 21] = [
    ([MIN, 0], [OUT, OUT, OUT, OUT, OUT, OUT, OUT, 0]),
    ([MIN, 1], [MIN, 0, MIN, 0, MIN, MIN, MIN, 1]),
    ([MIN, -1], [OUT, OUT, OUT, 0, OUT, MIN, MIN, 1]),
    ([MIN, MIN], [1, 0, 1, 0, 1, MIN, MIN, 1]),
    ([MIN, MAX], [-1, -1, -2, MAX - 1, -1, MIN + 1, OUT, 0]),
    ([MAX, MIN], [0, MAX, -1, -1, 0, 0, OUT, 0]),
    ([MAX, -1], [MIN + 1, 0, MIN + 1, 0, MIN + 1, MAX, MAX, 1]),
    ([0, MIN], [0, 0, 0, 0, 0, 0, 0, 1]),
    ([1, MIN], [0, 1, -1, MIN + 1, 0, 0, OUT, 0]),
    ([-1, MIN], [0, -1, 0, -1, 1, MIN, 0, 0]),
    ([-1, MAX], [0, -1, -1, MAX - 1, 0, 0, MIN + 1, 0]),
    ([MAX, 0], [OUT, OUT, OUT, OUT, OUT, OUT, OUT, 0]),
    ([MAX, 1], [MAX, 0, MAX, 0, MAX, MAX, MAX, 1]),
    ([MAX, 2], [HALF, 1, HALF, 1, HALF + 1, OUT, MAX - 1, 0]),
    ([MAX, MAX], [1, 0, 1, 0, 1, MAX, MAX, 1]),
    ([MAX, MAX - 1], [1, 1, 1, 1, 2, OUT, MAX - 1, 0]),
    ([0, MAX], [0, 0, 0, 0, 0, 0, 0, 1]),
    ([1, MAX], [0, 1, 0, 1, 1, MAX, 0, 0]),
    ([0, 0], [OUT, OUT, OUT, OUT, OUT, OUT, OUT, 1]),
    ([0, 1], [0, 0, 0, 0, 0, 0, 0, 1]),
    ([1, 0], [OUT, OUT, OUT, OUT, OUT, OUT, OUT, 0]),
];

static DIVISION_CALLS: [(Call, &[usize]); 10] = calls![
    DivRem 0 1, Operators 0 1, DivFloor 2, ModFloor 3, DivModFloor 2 3, DivCeil 4, NextMultipleOf 5,
    PrevMultipleOf 6, IsMultipleOf 7, Divides 7
];

/// Two numbers, the gcd, the lcm, the iterations of Stein's loop, the Bezout pair and its iterations, the coefficient and its iterations, and
/// the multinomial.
static DIVISORS: [([i128; 2], [i128; 9]); 21] = [
    ([MIN, 0], [OUT, 0, 0, OUT, OUT, OUT, OUT, OUT, OUT]),
    ([MIN, 1], [1, OUT, 0, 0, 1, 0, OUT, OUT, OUT]),
    ([MIN, -1], [1, OUT, 0, 0, -1, 0, OUT, OUT, OUT]),
    ([MIN, MIN], [OUT, OUT, 0, OUT, OUT, OUT, OUT, OUT, OUT]),
    ([MIN, MAX], [1, OUT, 0, -1, -1, 1, OUT, OUT, OUT]),
    ([MAX, MIN], [1, OUT, 0, -1, -1, 2, OUT, OUT, OUT]),
    ([MAX, -1], [1, MAX, ITERATIONS, 0, -1, 0, OUT, OUT, OUT]),
    ([0, MIN], [OUT, 0, 0, OUT, OUT, OUT, OUT, OUT, OUT]),
    ([1, MIN], [1, OUT, 0, 1, 0, 1, OUT, OUT, OUT]),
    ([-1, MIN], [1, OUT, 0, -1, 0, 1, OUT, OUT, OUT]),
    ([-1, MAX], [1, MAX, ITERATIONS, -1, 0, 1, OUT, OUT, OUT]),
    ([MAX, 0], [MAX, 0, 0, 1, 0, 0, 1, 0, 1]),
    ([MAX, 1], [1, MAX, ITERATIONS, 0, 1, 0, MAX, 1, OUT]),
    ([MAX, 2], [1, OUT, ITERATIONS, 1, -HALF, 1, OUT, OUT, OUT]),
    ([MAX, MAX], [MAX, MAX, 0, 0, 1, 0, 1, 0, OUT]),
    ([MAX, MAX - 1], [1, OUT, ITERATIONS, 1, -1, 1, MAX, 1, OUT]),
    ([0, MAX], [MAX, 0, 0, 0, 1, 0, 0, 0, 1]),
    ([1, MAX], [1, MAX, ITERATIONS, 1, 0, 1, 0, 0, OUT]),
    ([0, 0], [0, 0, 0, 1, 0, 0, 1, 0, 1]),
    ([0, 1], [1, 0, 0, 0, 1, 0, 0, 0, 1]),
    ([1, 0], [1, 0, 0, 1, 0, 0, 1, 0, 1]),
];

static DIVISOR_CALLS: [(Call, &[usize]); 8] = calls![
    Gcd 0, Lcm 1, GcdLcm 0 1, CountedGcd 0 2, CountedBezout 0 3 4 5, Binomial 6, CountedBinomial 6 7,
    Multinomial 8
];

/// The call that only types with a sign have.
static SIGNED_CALLS: [(Call, &[usize]); 1] = calls![BezoutAndMultiple 0 3 4 1];

impl Ends {
    /// The number that is `n` in the tables, if the type has it.
    fn at(self, n: i128) -> Option<SignedMagnitude> {
        let (in_tables, here) = match n.unsigned_abs() >> 97 {
            0 => (0, 0),
            1 => (
                ITERATIONS,
                u128::from(self.1.count_ones()).saturating_sub(1),
            ),
            3 | 4 => (HALF, self.1 / 2),
            7 | 8 => (MAX, self.1),
            _ => return None,
        };
        let magnitude = here.checked_add_signed(n.wrapping_abs().wrapping_sub(in_tables))?;
        let number = signed_magnitude(n < 0, magnitude);
        if self.has(number) { Some(number) } else { None }
    }

    /// The numbers of a result, which the row has at these places, if the type has each of them.
    fn all_at(self, row: &[i128], places: &[usize]) -> Option<Numbers> {
        let mut numbers = one((false, 0));
        for part in 0..places.len().min(4) {
            numbers[part] = self.at(*row.get(places[part])?)?;
        }
        Some(numbers)
    }
}

/// Checks the results of the calls on each two numbers of the table that the type has.
fn check_table<const N: usize>(
    rt: &impl Abort,
    alloc: Global,
    it: Type,
    table: &[([i128; 2], [i128; N])],
    calls: &[(Call, &[usize])],
) {
    let ends = ends_of(rt, alloc, it);
    for ([a, b], row) in table {
        if let (Some(a), Some(b)) = (ends.at(*a), ends.at(*b)) {
            for &(call, places) in calls {
                let expected = ends.all_at(row, places);
                returns_as_tested(rt, alloc, (it, call), &[a, b], expected);
            }
        }
    }
}

#[test]
fn ends_of_each_type(rt: HostRuntime) {
    for &it in &NATIVE {
        check_table(&rt, rt.alloc(), it, &NUMBERS, &NUMBER_CALLS);
        check_table(&rt, rt.alloc(), it, &SUMS, &SUM_CALLS);
        check_table(&rt, rt.alloc(), it, &DIVISIONS, &DIVISION_CALLS);
        check_table(&rt, rt.alloc(), it, &DIVISORS, &DIVISOR_CALLS);
    }
    for &it in &SIGNED {
        check_table(&rt, rt.alloc(), it, &DIVISORS, &SIGNED_CALLS);
    }
}
