//! The lines of the lists, and how each is computed again.

use super::calls::Call;
use super::checksum::Checksum;
use super::walks::{Answered, answers, rooted_answers, signed_answers, signed_rooted_answers};
use own_types::types::Type;
use std::alloc::Global;
use std::fmt::Debug;
use std::process::Abort;

/// A call, and for each type or number of bits how many inputs have a result, how many more have one at `i128` alone, and the
/// checksum over all of these inputs and results.
pub(crate) type Line<C, const N: usize> = (C, [(u32, u32, u64); N]);

/// A call at a type, or of operands of so many bits at most.
pub(crate) trait CallAt<K> {
    /// How many inputs have a result, and the checksum over them.
    fn results<R: Abort>(&self, rt: &R, alloc: Global, at: K) -> Answered;
}

/// Asserts that the results are the expected ones, with a message that shows the line. A message in each loop would
/// cost seconds of proof.
pub(crate) fn check(rt: &impl Abort, answered: Answered, expected: Answered, line: &impl Debug) {
    assert_eq!(rt; answered, expected, "at {line:?}");
}

/// Computes the lines again at types or numbers of bits, each with the place of its results in a line.
pub(crate) fn replay<K: Copy + Debug, C: Copy + Debug + CallAt<K>, const N: usize>(
    rt: &impl Abort,
    alloc: Global,
    places: &[(K, usize)],
    lines: &[Line<C, N>],
) {
    for (call, results) in lines {
        for (at, place) in places {
            let (count, more, checksum) = *results.get(*place).expect(rt, "the line has it");
            let expected = Answered(count.wrapping_add(more), Checksum(checksum));
            let answered = call.results(rt, alloc, *at);
            check(rt, answered, expected, &(*at, *call));
        }
    }
}

impl CallAt<Type> for Call {
    fn results<R: Abort>(&self, rt: &R, alloc: Global, it: Type) -> Answered {
        let call = *self;
        match it {
            Type::I8 => signed_rooted_answers::<i8>(rt, alloc, call),
            Type::I16 => signed_rooted_answers::<i16>(rt, alloc, call),
            Type::I32 => signed_rooted_answers::<i32>(rt, alloc, call),
            Type::I64 => signed_rooted_answers::<i64>(rt, alloc, call),
            Type::Isize => signed_rooted_answers::<isize>(rt, alloc, call),
            Type::I128 => signed_answers::<i128>(rt, alloc, call),
            Type::U8 => rooted_answers::<u8>(rt, alloc, call),
            Type::U16 => rooted_answers::<u16>(rt, alloc, call),
            Type::U32 => rooted_answers::<u32>(rt, alloc, call),
            Type::U64 => rooted_answers::<u64>(rt, alloc, call),
            Type::Usize => rooted_answers::<usize>(rt, alloc, call),
            _ => answers::<u128>(rt, alloc, call),
        }
    }
}
