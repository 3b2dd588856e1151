//! Offsets and addresses on an alignment.

ghost use Rattle.std.specs.Prelude.{◌≤ℤ◌, ◌<ℤ◌, ◌+ℤ◌, ℤ, pos, MatchOption};
ghost use Rattle.num_integer.specs.Divisors.{Divides};
ghost use Rattle.applied.specs.Layout.{IsAlignedUp};

use num_integer::guards::check;
use num_integer::operators::{difference, is_zero, zero};
use num_integer::{Fits, Integer, mod_floor};

/// Returns the offset rounded up to a multiple of the alignment, or `None` if that does not fit.
/// `align_up(13, 8)` is `Some(16)`, `align_up(-13, 8)` is `Some(-8)`, and `align_up(250u8, 8)` is `None`.
///
/// # Panics
///
/// In plain Rust, if the alignment is not positive.
pub fn align_up<T: Fits>(offset: T, alignment: T) -> Option<T>
    requires in_range { T.fits (T.value offset) × T.fits (T.value alignment) }
    requires positive { pos 0 <ℤ T.value alignment }
    ensures { MatchOption result
        ((aligned : ℤ) → IsAlignedUp (T.value offset) (T.value alignment) aligned
        → ¬ (T.fits aligned))
        (λ aligned. T.fits (T.value aligned)
        × IsAlignedUp (T.value offset) (T.value alignment) (T.value aligned)) }
{
    check(alignment > zero(), "the alignment is not positive");
    if offset.next_multiple_fits(&alignment) {
        Some(offset.next_multiple_of(&alignment))
    } else {
        None
    }
}

/// Returns how many bytes to add to the offset to align it. `padding(13, 8)` is `3`, and `padding(-13, 8)` is
/// `5`.
///
/// # Panics
///
/// In plain Rust, if the alignment is not positive.
#[tactic(auto, using(num_integer::proofs::ForCallers::rest_leads_to_multiple))]
pub fn padding<T: Integer + Copy>(offset: T, alignment: T) -> T
    requires in_range { T.fits (T.value offset) × T.fits (T.value alignment) }
    requires positive { pos 0 <ℤ T.value alignment }
    ensures in_range { T.fits (T.value result) }
    ensures from_zero { pos 0 ≤ℤ T.value result }
    ensures below { T.value result <ℤ T.value alignment }
    ensures aligned { Divides (T.value alignment) (T.value offset +ℤ T.value result) }
{
    check(alignment > zero(), "the alignment is not positive");
    let over = mod_floor(offset, alignment);
    if is_zero(over) {
        over
    } else {
        difference(alignment, over)
    }
}
