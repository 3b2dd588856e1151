//! The calls of `ratio64` on fractions of few numbers.

use super::checksum::Checksum;
use super::lines::CallAt;
use super::spread::spread_of_bits;
use super::walks::Answered;
use ratio64::RatioError::{NotFitting, ZeroDenominator};
use ratio64::{Ratio, RatioError};
use std::alloc::Global;
use std::cmp::Ordering;
use std::process::Abort;

/// A call.
#[derive(Clone, Copy, Debug)]
pub(crate) enum Fractions {
    /// `floor`, `ceil`, `trunc` and `round`.
    Rounded,
    Fract,
    Sign,
    Negation,
    Magnitude,
    Reciprocal,
    Power,
    /// A number times a fraction, rounded.
    FloorTimes,
    CeilTimes,
    RoundTimes,
    Limited,
    Sum,
    Difference,
    Product,
    Quotient,
    Order,
}

/// How many indices give the parts of a fraction that a call takes alone or with a number.
const FOR_ONE: u32 = 52;

/// How many indices give the parts of a fraction that a call takes with another.
const FOR_TWO: u32 = 16;

/// The fractions of each two of the numbers, if there is one.
fn fractions_of(rt: &impl Abort, alloc: Global, numbers: &[i64]) -> Vec<Ratio> {
    let mut fractions = Vec::new(alloc);
    for num in numbers {
        for den in numbers {
            if let Ok(x) = Ratio::new(*num, *den) {
                fractions.push(x).expect(rt, "memory is left");
            }
        }
    }
    fractions
}

/// The checksum with the parts of the fraction.
fn with_fraction(sum: Checksum, x: &Ratio) -> Checksum {
    sum.with_number(x.num()).with_number(x.den())
}

/// The checksum with the fraction or the error, which is counted as a negative number that no part is.
fn with_answer(sum: Checksum, answer: Result<Ratio, RatioError>) -> Checksum {
    match answer {
        Ok(x) => with_fraction(sum, &x),
        Err(ZeroDenominator) => sum.with((true, 0)),
        Err(NotFitting) => sum.with((true, u128::MAX)),
    }
}

/// The checksum with what a call makes of a fraction.
fn of_fraction(call: Fractions, sum: Checksum, x: &Ratio) -> Checksum {
    match call {
        Fractions::Rounded => sum
            .with_number(x.floor())
            .with_number(x.ceil())
            .with_number(x.trunc())
            .with_number(x.round()),
        Fractions::Fract => with_fraction(sum, &x.fract()),
        Fractions::Sign => with_fraction(sum, &x.signum()),
        Fractions::Negation => with_answer(sum, x.checked_neg()),
        Fractions::Magnitude => with_answer(sum, x.checked_abs()),
        _ => with_answer(sum, x.checked_recip()),
    }
}

/// The checksum with what a call makes of a fraction and a number, or `None` if the call is not made or the
/// number does not fit.
fn of_fraction_and_number(call: Fractions, sum: Checksum, x: &Ratio, n: i64) -> Option<Checksum> {
    match call {
        Fractions::FloorTimes => Some(sum.with_number(x.floor_times(n)?)),
        Fractions::CeilTimes => Some(sum.with_number(x.ceil_times(n)?)),
        Fractions::RoundTimes => Some(sum.with_number(x.round_times(n)?)),
        Fractions::Limited if n > 0 => Some(with_fraction(sum, &x.limit_denominator(n))),
        Fractions::Power => match i32::try_from(n) {
            Ok(exponent) => Some(with_answer(sum, x.checked_pow(exponent))),
            Err(_) => None,
        },
        _ => None,
    }
}

/// The checksum with what a call makes of two fractions.
fn of_two_fractions(call: Fractions, sum: Checksum, x: &Ratio, y: &Ratio) -> Checksum {
    match call {
        Fractions::Sum => with_answer(sum, x.checked_add(y)),
        Fractions::Difference => with_answer(sum, x.checked_sub(y)),
        Fractions::Product => with_answer(sum, x.checked_mul(y)),
        Fractions::Quotient => with_answer(sum, x.checked_div(y)),
        _ => sum.with_number(match x.cmp(y) {
            Ordering::Less => -1,
            Ordering::Equal => 0,
            Ordering::Greater => 1,
        }),
    }
}

/// What the call makes of each fraction.
fn each(call: Fractions, fractions: &[Ratio]) -> Answered {
    let mut answered = Answered::none();
    for x in fractions {
        let sum = with_fraction(answered.1, x);
        answered = answered.and(Some(of_fraction(call, sum, x)));
    }
    answered
}

/// What the call makes of each fraction and each number.
fn each_with_numbers(call: Fractions, fractions: &[Ratio], numbers: &[i64]) -> Answered {
    let mut answered = Answered::none();
    for x in fractions {
        for n in numbers {
            let sum = with_fraction(answered.1, x).with_number(*n);
            answered = answered.and(of_fraction_and_number(call, sum, x, *n));
        }
    }
    answered
}

/// What the call makes of each two fractions.
fn each_pair(call: Fractions, fractions: &[Ratio]) -> Answered {
    let mut answered = Answered::none();
    for x in fractions {
        for y in fractions {
            let sum = with_fraction(with_fraction(answered.1, x), y);
            answered = answered.and(Some(of_two_fractions(call, sum, x, y)));
        }
    }
    answered
}

/// Each part has at most this many bits.
impl CallAt<u32> for Fractions {
    fn results<R: Abort>(&self, rt: &R, alloc: Global, bits: u32) -> Answered {
        let numbers = spread_of_bits(rt, alloc, bits, FOR_ONE);
        let few = spread_of_bits(rt, alloc, bits, FOR_TWO);
        match self {
            Fractions::Rounded
            | Fractions::Fract
            | Fractions::Sign
            | Fractions::Negation
            | Fractions::Magnitude
            | Fractions::Reciprocal => each(*self, &fractions_of(rt, alloc, &numbers)),
            Fractions::Power
            | Fractions::FloorTimes
            | Fractions::CeilTimes
            | Fractions::RoundTimes
            | Fractions::Limited => {
                each_with_numbers(*self, &fractions_of(rt, alloc, &few), &numbers)
            }
            _ => each_pair(*self, &fractions_of(rt, alloc, &few)),
        }
    }
}
