//! Offsets on an alignment.

ghost use Rattle.std.specs.Prelude.{◌≡◌, ◌↔◌, ◌≤ℤ◌, ◌<ℤ◌, pos, FitsSigned, MatchOption};
ghost use Rattle.std.specs.Int.{FitsUnsignedBits, w64};
ghost use Rattle.applied.specs.Layout.{IsAlignedUp};
ghost use Rattle.cellarcove_c.specs.Answers.{I64Answers, Refuses, U64Answers};
ghost use Rattle.cellarcove_c.specs.Paging.{IsPadding, NoneFits};
ghost use Rattle.cellarcove_c.specs.Statuses.{StatusIsOneOf, StatusIs, answer_of, not_fitting, outside};

use crate::answers::{I64Answer, NOT_FITTING, OUTSIDE, U64Answer};
use applied::layout::{align_up, padding};

/// Returns the offset rounded up to a multiple of the alignment. For 13 and 8 it is 16.
///
/// `OUTSIDE` if `alignment` is not positive. `NOT_FITTING` if the multiple does not fit.
#[unsafe(no_mangle)]
#[tactic(auto, using(crate::proofs::NumbersReadBack::read_back))]
pub extern "C" fn cellarcove_align_up_i64(offset: i64, alignment: i64) -> I64Answer
    ensures answer { (pos 0 <ℤ alignment) → MatchOption (answer_of result.status result.value)
        (NoneFits (FitsSigned w64) (IsAlignedUp offset alignment)) (IsAlignedUp offset alignment) }
    ensures outside { (result.status ≡ outside) ↔ (alignment ≤ℤ pos 0) }
    ensures refusal { Refuses (StatusIsOneOf outside not_fitting) (pos 0) result.status result.value }
{
    if alignment <= 0 {
        return I64Answer::none(OUTSIDE);
    }
    I64Answer::of(align_up(offset, alignment), NOT_FITTING)
}

/// Returns the offset rounded up to a multiple of the alignment. For 13 and 8 it is 16.
///
/// `OUTSIDE` if `alignment` is 0. `NOT_FITTING` if the multiple does not fit.
#[unsafe(no_mangle)]
#[tactic(auto, using(crate::proofs::NumbersReadBack::read_back))]
pub extern "C" fn cellarcove_align_up_u64(offset: u64, alignment: u64) -> U64Answer
    ensures answer { (pos 0 <ℤ pos alignment) → MatchOption (answer_of result.status result.value)
        (NoneFits (FitsUnsignedBits 64) (IsAlignedUp (pos offset) (pos alignment)))
        (λ aligned. IsAlignedUp (pos offset) (pos alignment) (pos aligned)) }
    ensures outside { (result.status ≡ outside) ↔ (pos alignment ≤ℤ pos 0) }
    ensures refusal { Refuses (StatusIsOneOf outside not_fitting) 0 result.status result.value }
{
    if alignment == 0 {
        return U64Answer::none(OUTSIDE);
    }
    U64Answer::of(align_up(offset, alignment), NOT_FITTING)
}

/// Returns how many bytes to add to the offset to align it. For 13 and 8 it is 3.
///
/// `OUTSIDE` if `alignment` is not positive.
#[unsafe(no_mangle)]
pub extern "C" fn cellarcove_padding_i64(offset: i64, alignment: i64) -> I64Answer
    ensures { I64Answers (pos 0 <ℤ alignment) (IsPadding offset alignment) (StatusIs outside) result }
{
    if alignment > 0 {
        I64Answer::some(padding(offset, alignment))
    } else {
        I64Answer::none(OUTSIDE)
    }
}

/// Returns how many bytes to add to the offset to align it. For 13 and 8 it is 3.
///
/// `OUTSIDE` if `alignment` is 0.
#[unsafe(no_mangle)]
pub extern "C" fn cellarcove_padding_u64(offset: u64, alignment: u64) -> U64Answer
    ensures { U64Answers (pos 0 <ℤ pos alignment) (IsPadding (pos offset) (pos alignment)) (StatusIs outside) result }
{
    if alignment > 0 {
        U64Answer::some(padding(offset, alignment))
    } else {
        U64Answer::none(OUTSIDE)
    }
}
