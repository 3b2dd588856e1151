//! Factorials and falling factorials: in how many ways some things stand in a row.

ghost use Rattle.std.specs.Prelude.{◌≡◌, ◌≢◌, ◌⊎◌, ◌<ℤ◌, ◌≤ℤ◌, pos, FitsSigned};
ghost use Rattle.std.specs.Int.{FitsUnsignedBits, w64};
ghost use Rattle.applied.specs.Counting.{factorial_of, falling_of};
ghost use Rattle.cellarcove_c.specs.Answers.{I64Answers, U64Answers};
ghost use Rattle.cellarcove_c.specs.Statuses.{IsReason, StatusIs, not_fitting};

use crate::answers::{I64Answer, NOT_FITTING, OUTSIDE, U64Answer};
use crate::coefficients::reason_for_counts;
use applied::counting::checked;

/// Returns the factorial of `n`, the product of the numbers from 1 to `n`. That of 5 is 120.
///
/// `OUTSIDE` if `n` is negative. `NOT_FITTING` if the factorial does not fit.
#[unsafe(no_mangle)]
pub extern "C" fn cellarcove_factorial_i64(n: i64) -> I64Answer
    ensures { I64Answers ((pos 0 ≤ℤ n) × FitsSigned w64 (factorial_of n))
        (λ ways. ways ≡ factorial_of n) (IsReason (n <ℤ pos 0)) result }
{
    I64Answer::of(checked::factorial(n), reason_for_count(n))
}

/// Returns the factorial of `n`, the product of the numbers from 1 to `n`. That of 5 is 120.
///
/// `NOT_FITTING` if the factorial does not fit.
#[unsafe(no_mangle)]
pub extern "C" fn cellarcove_factorial_u64(n: u64) -> U64Answer
    ensures { U64Answers ((pos 0 ≤ℤ pos n) × FitsUnsignedBits 64 (factorial_of (pos n)))
        (λ ways. ways ≡ factorial_of (pos n)) (StatusIs not_fitting) result }
{
    U64Answer::of(checked::factorial(n), NOT_FITTING)
}

/// Returns the falling factorial, the product of `k` factors, of which the first is `n` and each is 1
/// less than the one before. That of 8 and 3 is 336, and that of 2 and 3 is 0.
///
/// `OUTSIDE` if a number is negative. `NOT_FITTING` if the product does not fit.
#[unsafe(no_mangle)]
pub extern "C" fn cellarcove_falling_i64(n: i64, k: i64) -> I64Answer
    ensures { I64Answers ((pos 0 ≤ℤ n) × (pos 0 ≤ℤ k) × FitsSigned w64 (falling_of n k))
        (λ ways. ways ≡ falling_of n k) (IsReason ((n <ℤ pos 0) ⊎ (k <ℤ pos 0))) result }
{
    I64Answer::of(checked::falling(n, k), reason_for_counts(n, k))
}

/// Returns the falling factorial, the product of `k` factors, of which the first is `n` and each is 1
/// less than the one before. That of 8 and 3 is 336, and that of 2 and 3 is 0.
///
/// `NOT_FITTING` if the product does not fit.
#[unsafe(no_mangle)]
pub extern "C" fn cellarcove_falling_u64(n: u64, k: u64) -> U64Answer
    ensures { U64Answers ((pos 0 ≤ℤ pos n) × (pos 0 ≤ℤ pos k)
        × FitsUnsignedBits 64 (falling_of (pos n) (pos k)))
        (λ ways. ways ≡ falling_of (pos n) (pos k)) (StatusIs not_fitting) result }
{
    U64Answer::of(checked::falling(n, k), NOT_FITTING)
}

/// Returns why there is no factorial of a number.
fn reason_for_count(n: i64) -> u32
    ensures reason { IsReason (n <ℤ pos 0) result }
    ensures refused { result ≢ 0 }
{
    if n < 0 { OUTSIDE } else { NOT_FITTING }
}
