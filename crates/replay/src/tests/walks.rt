//! The walks over the inputs of a call at a type.

ghost use Rattle.std.specs.Prelude.{IfSome};
ghost use Rattle.std.specs.List.{All};

use super::calls::{
    BezoutAndMultiple, Call, OfPair, with_multinomial, with_root, with_row, with_value, with_values,
};
use super::checksum::Checksum;
use crate::inputs::{DEGREES, LISTS, ROOTED, ROWS, Shape, counts, degree};
use num_integer::{Fits, IterBinomial, Roots, checked};
use num_traits::Signed;
use own_types::signed_magnitude::SignedMagnitude;
use own_types::types::Tested;
use std::alloc::Global;
use std::process::Abort;

/// How many inputs of a line that have a result are taken: all. To find the input at which a line fails, leave
/// only that line in the list and lower this. As long as that input is not taken, the test prints on its left
/// what `cargo run -- inputs I64 Gcd`, in `compare/`, prints at that count.
const TAKEN: u32 = u32::MAX;

/// How many inputs have a result, and the checksum over them and their results.
#[derive(Clone, Copy, Debug, PartialEq, Eq)]
pub(crate) struct Answered(pub(crate) u32, pub(crate) Checksum);

impl Answered {
    pub(crate) fn none() -> Answered {
        Answered(0, Checksum(0))
    }

    /// One more, if the checksum with it is given.
    pub(crate) fn and(self, sum: Option<Checksum>) -> Answered {
        match sum {
            Some(sum) if self.0 < TAKEN => Answered(self.0 + 1, sum),
            _ => self,
        }
    }
}

/// The bits and the ends of a type.
pub(crate) fn shape_of<T: Fits>() -> Shape {
    let (low, high) = T::ends();
    Shape::between(low, high)
}

/// The numbers at the first indices.
fn numbers(rt: &impl Abort, alloc: Global, shape: Shape, count: u32) -> Vec<SignedMagnitude> {
    let mut numbers = Vec::new(alloc);
    for index in 0..count {
        if let Some(n) = shape.number(index) {
            numbers.push(n).expect(rt, "memory is left");
        }
    }
    numbers
}

/// Those of the numbers that the type has.
pub(crate) fn values<T: Tested>(
    rt: &impl Abort,
    alloc: Global,
    numbers: &[SignedMagnitude],
) -> Vec<T>
    ensures { All (λ x. T.fits (T.value x)) result.items }
{
    let mut values = Vec::new(alloc);
    for n in numbers {
        if let Some(x) = T::from_signed_magnitude(*n) {
            values.push(x).expect(rt, "memory is left");
        }
    }
    values
}

/// The numbers of the type at the first indices.
fn values_at<T: Tested>(rt: &impl Abort, alloc: Global, count: u32) -> Vec<T>
    ensures { All (λ x. T.fits (T.value x)) result.items }
{
    let numbers = numbers(rt, alloc, shape_of::<T>(), count);
    values(rt, alloc, &numbers)
}

/// What the call returns of each two of the numbers.
fn pairs<T: Tested, C: OfPair<T>>(rt: &impl Abort, alloc: Global, call: &C) -> Answered {
    let numbers = values_at::<T>(rt, alloc, shape_of::<T>().paired());
    let mut answered = Answered::none();
    for x in &numbers {
        for y in &numbers {
            let sum = with_values(answered.1, (*x, *y));
            answered = answered.and(call.with_answer(sum, *x, *y));
        }
    }
    answered
}

/// The roots of each number. A call that takes no degree is made once.
fn roots<T: Roots + Tested>(rt: &impl Abort, alloc: Global, call: Call) -> Answered {
    let degrees = match call {
        Call::NthRoot => DEGREES,
        _ => 1,
    };
    let mut answered = Answered::none();
    for x in &values_at::<T>(rt, alloc, ROOTED) {
        for index in 0..degrees {
            let sum = with_value(answered.1, *x);
            answered = answered.and(with_root(call, sum, *x, degree(index)));
        }
    }
    answered
}

/// The multinomials of lists of three counts.
fn multinomials<T: Tested>(rt: &impl Abort, alloc: Global) -> Answered {
    let shape = shape_of::<T>();
    let mut answered = Answered::none();
    for first in &numbers(rt, alloc, shape, shape.paired()) {
        for index in 0..LISTS {
            let counts = values::<T>(rt, alloc, &counts(*first, index));
            answered = answered.and(with_multinomial(answered.1, &counts));
        }
    }
    answered
}

/// The rows of Pascal's triangle.
fn rows<T: Tested>() -> Answered {
    let mut answered = Answered::none();
    for n in 0..ROWS {
        let number = (false, u128::from(n));
        if let Some(row) = row_of::<T>(number) {
            let sum = answered.1.with(number);
            answered = answered.and(Some(with_row(sum, row)));
        }
    }
    answered
}

/// The row of a number, if the type has both.
fn row_of<T: Tested>(n: SignedMagnitude) -> Option<IterBinomial<T>>
    ensures { IfSome result (λ items. All T.fits items) }
{
    checked::row(T::from_signed_magnitude(n)?)
}

/// What a call that each type has returns.
pub(crate) fn answers<T: Tested>(rt: &impl Abort, alloc: Global, call: Call) -> Answered {
    match call {
        Call::Multinomial => multinomials::<T>(rt, alloc),
        Call::IterBinomial => rows::<T>(),
        _ => pairs::<T, Call>(rt, alloc, &call),
    }
}

/// What a call returns at a type with roots.
pub(crate) fn rooted_answers<T: Roots + Tested>(
    rt: &impl Abort,
    alloc: Global,
    call: Call,
) -> Answered {
    match call {
        Call::Sqrt | Call::Cbrt | Call::NthRoot => roots::<T>(rt, alloc, call),
        _ => answers::<T>(rt, alloc, call),
    }
}

/// What a call returns at a type with a sign.
pub(crate) fn signed_answers<T: Signed + Tested>(
    rt: &impl Abort,
    alloc: Global,
    call: Call,
) -> Answered {
    match call {
        Call::ExtendedGcdLcm => pairs::<T, BezoutAndMultiple>(rt, alloc, &BezoutAndMultiple),
        _ => answers::<T>(rt, alloc, call),
    }
}

/// What a call returns at a type with a sign and roots.
pub(crate) fn signed_rooted_answers<T: Signed + Roots + Tested>(
    rt: &impl Abort,
    alloc: Global,
    call: Call,
) -> Answered {
    match call {
        Call::ExtendedGcdLcm => signed_answers::<T>(rt, alloc, call),
        _ => rooted_answers::<T>(rt, alloc, call),
    }
}
