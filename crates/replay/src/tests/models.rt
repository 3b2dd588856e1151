//! The calls of `applied` on few numbers of a type, and all choices of few numbers.

use super::calls::{with_value, with_values};
use super::checksum::Checksum;
use super::lines::CallAt;
use super::spread::{OfThree, each_three};
use super::walks::Answered;
use applied::halving::midpoint;
use applied::layout::{align_up, padding};
use applied::paging::{pages, place_of, range_of_page, range_of_part};
use applied::ranking::{choice_of_rank, rank};
use num_integer::operators::{is_below, is_negative};
use num_integer::{Fits, binomial};
use own_types::types::{Tested, Type};
use std::alloc::Global;
use std::process::Abort;

/// A call. Each takes a positive number last: the size of a page, a number of parts or an alignment.
#[derive(Clone, Copy, Debug)]
pub(crate) enum Models {
    Pages,
    PlaceOf,
    RangeOfPage,
    RangeOfPart,
    AlignUp,
    Padding,
    Midpoint,
}

/// All choices of the numbers below this are ranked, and of those below each smaller number.
const CHOSEN_BELOW: u64 = 14;

/// The result is `None` if the call may not be made, or if its result does not fit.
impl<T: Tested> OfThree<T> for Models {
    fn with_result(&self, sum: Checksum, a: T, b: T, m: T) -> Option<Checksum> {
        match self {
            Models::Pages => Some(with_value(sum, pages(a, m))),
            Models::PlaceOf => Some(with_values(sum, place_of(a, m))),
            Models::RangeOfPage if !is_negative(b) => Some(with_values(
                sum,
                range_of_page(a, m, b),
            )),
            Models::RangeOfPart if !is_negative(a) && is_below(a, m) && !is_negative(b) => {
                Some(with_values(sum, range_of_part(a, m, b)))
            }
            Models::AlignUp => Some(with_value(sum, align_up(a, m)?)),
            Models::Padding => Some(with_value(sum, padding(a, m))),
            Models::Midpoint => Some(with_value(sum, midpoint(a, b))),
            _ => None,
        }
    }
}

impl CallAt<Type> for Models {
    fn results<R: Abort>(&self, rt: &R, alloc: Global, it: Type) -> Answered {
        match it {
            Type::I64 => each_three::<i64, Models>(rt, alloc, self),
            _ => each_three::<u64, Models>(rt, alloc, self),
        }
    }
}

/// The checksum with the numbers of the choice of a rank, and the rank of that choice.
fn with_choice(
    rt: &impl Abort,
    sum: Checksum,
    wanted: u64,
    n: u64,
    choice: &mut [u64],
) -> Checksum {
    let k = choice.len() as u64;
    assert!(rt; n.binomial_fits(&k) && wanted < binomial(n, k));
    choice_of_rank(wanted, n, choice);
    let mut sum = sum.with((false, u128::from(rank(choice, n))));
    for number in choice {
        sum = sum.with((false, u128::from(*number)));
    }
    sum
}

/// How many choices there are of as many numbers as the slice has, or 0 if that does not fit.
fn choices_of(n: u64, choice: &[u64]) -> u64 {
    let k = choice.len() as u64;
    if n.binomial_fits(&k) {
        binomial(n, k)
    } else {
        0
    }
}

/// All choices of so many of the numbers below `n`, in the order of their ranks.
fn all_choices(rt: &impl Abort, so_far: Answered, n: u64, choice: &mut [u64]) -> Answered {
    let mut answered = so_far;
    for wanted in 0..choices_of(n, choice) {
        let sum = with_choice(rt, answered.1, wanted, n, choice);
        answered = answered.and(Some(sum));
    }
    answered
}

/// All choices of the numbers below each number up to the largest.
pub(crate) fn ranked_choices(rt: &impl Abort) -> Answered {
    let mut numbers = [0; CHOSEN_BELOW as usize];
    let mut answered = Answered::none();
    for n in 0..=CHOSEN_BELOW {
        for k in 0..=n.min(CHOSEN_BELOW) as usize {
            answered = all_choices(rt, answered, n, &mut numbers[..k]);
        }
    }
    answered
}
