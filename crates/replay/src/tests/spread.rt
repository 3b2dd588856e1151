//! Few numbers of a type, spread over those at the indices of its shape, and the calls of three of them.

ghost use Rattle.std.specs.Prelude.{◌<ℤ◌, pos};

use super::calls::{with_value, with_values};
use super::checksum::Checksum;
use super::walks::{Answered, shape_of, values};
use crate::inputs::Shape;
use num_integer::operators::{is_below, zero};
use own_types::signed_magnitude::{SignedMagnitude, to_i128};
use own_types::types::Tested;
use std::alloc::Global;
use std::process::Abort;

/// The indices go up by this, so that a few of them give ends, powers of two, Fibonacci numbers and random
/// numbers.
const STEP: u32 = 7;

/// The numbers at the first indices that the step divides.
pub(crate) fn spread(
    rt: &impl Abort,
    alloc: Global,
    shape: Shape,
    count: u32,
) -> Vec<SignedMagnitude> {
    let mut numbers = Vec::new(alloc);
    for place in 0..count {
        if let Some(n) = shape.number(place.wrapping_mul(STEP)) {
            numbers.push(n).expect(rt, "memory is left");
        }
    }
    numbers
}

/// Those of a type.
pub(crate) fn spread_of<T: Tested>(
    rt: &impl Abort,
    alloc: Global,
    count: u32,
) -> Vec<SignedMagnitude> {
    spread(rt, alloc, shape_of::<T>(), count)
}

/// The number, if `i64` has it.
fn number_of(n: SignedMagnitude) -> Option<i64> {
    i64::try_from(to_i128(n)?).ok()
}

/// The signed numbers of so many bits, of at most 64, as numbers of `i64`.
pub(crate) fn spread_of_bits(rt: &impl Abort, alloc: Global, bits: u32, count: u32) -> Vec<i64> {
    let low = 1u128.wrapping_shl(bits.wrapping_sub(1));
    let shape = Shape {
        width: bits,
        low,
        high: low.wrapping_sub(1),
    };
    let mut numbers = Vec::new(alloc);
    for n in &spread(rt, alloc, shape, count) {
        if let Some(number) = number_of(*n) {
            numbers.push(number).expect(rt, "memory is left");
        }
    }
    numbers
}

/// A call of two numbers and a positive one at a type.
pub(crate) trait OfThree<T: Tested> {
    /// The checksum with the result, or `None` if the call has no result.
    fn with_result(&self, sum: Checksum, a: T, b: T, m: T) -> Option<Checksum>
        requires numbers_in_range { T.fits (T.value a) × T.fits (T.value b) }
        requires m_in_range { T.fits (T.value m) }
        requires positive { pos 0 <ℤ T.value m };
}

/// How many indices give the numbers of such a call.
const NUMBERS: u32 = 36;

/// What the call makes of each two of the numbers and each positive one among them.
pub(crate) fn each_three<T: Tested, C: OfThree<T>>(
    rt: &impl Abort,
    alloc: Global,
    call: &C,
) -> Answered {
    let numbers = values::<T>(rt, alloc, &spread_of::<T>(rt, alloc, NUMBERS));
    let mut answered = Answered::none();
    for a in &numbers {
        for b in &numbers {
            for m in &numbers {
                if is_below(zero(), *m) {
                    let sum = with_value(with_values(answered.1, (*a, *b)), *m);
                    answered = answered.and(call.with_result(sum, *a, *b, *m));
                }
            }
        }
    }
    answered
}
