//! The ends of the types, as they say them.

ghost use Rattle.std.specs.Prelude.{◌≤ℤ◌, pos};

use super::calls::Call;
use super::results::result;
use own_types::signed_magnitude::SignedMagnitude;
use own_types::types::Type;
use std::alloc::Global;
use std::process::Abort;

/// The magnitude of the smallest number of a type, and its largest number.
#[derive(Clone, Copy)]
pub(super) struct Ends(pub(super) u128, pub(super) u128);

impl Ends {
    /// Whether the number lies between the ends.
    pub(super) fn has(self, (negative, magnitude): SignedMagnitude) -> bool {
        magnitude <= if negative { self.0 } else { self.1 }
    }
}

/// The ends of the type.
pub(super) fn ends_of(rt: &impl Abort, alloc: Global, it: Type) -> Ends {
    match result(alloc, it, Call::Ends, &[]) {
        Some(numbers) => Ends(numbers[0].1, numbers[1].1),
        None => panic!(rt; "a type has ends"),
    }
}

/// The largest number of a type whose numbers `i128` has.
pub(super) fn largest(rt: &impl Abort, alloc: Global, it: Type) -> i128
    ensures { pos 0 ≤ℤ result }
{
    let Ends(_, high) = ends_of(rt, alloc, it);
    i128::try_from(high).expect(rt, "the type has no larger number")
}
