//! Binomial and multinomial coefficients.

ghost use Rattle.std.specs.Prelude.{◌≡◌, ◌≢◌, ◌⊎◌, ◌<ℤ◌, ◌≤ℤ◌, pos, map, FitsSigned};
ghost use Rattle.std.specs.Int.{FitsUnsignedBits, w64};
ghost use Rattle.num_integer.specs.Coefficient.{coefficient_of};
ghost use Rattle.num_integer.specs.Multinomial.{IsMultinomial};
ghost use Rattle.cellarcove_c.specs.Answers.{I64Answers, U64Answers, U64Fitting};
ghost use Rattle.cellarcove_c.specs.Statuses.{IsReason, StatusIs, not_fitting};

use crate::answers::{I64Answer, NOT_FITTING, OUTSIDE, U64Answer};
use crate::binomials::{binomial, signed_binomial};
use num_integer::checked;

/// Returns how many ways there are to choose `k` of `n`, the binomial coefficient. That of 11 and 3 is
/// 165, and that of 3 and 11 is 0.
///
/// `OUTSIDE` if a number is negative. `NOT_FITTING` if the coefficient does not fit.
#[unsafe(no_mangle)]
#[tactic(auto, using(crate::proofs::NumbersReadBack::read_back))]
pub extern "C" fn cellarcove_binomial_i64(n: i64, k: i64) -> I64Answer
    ensures { I64Answers
        ((pos 0 ≤ℤ n) × (pos 0 ≤ℤ k) × FitsSigned w64 (coefficient_of n k))
        (λ c. c ≡ coefficient_of n k) (IsReason ((n <ℤ pos 0) ⊎ (k <ℤ pos 0))) result }
{
    I64Answer::of(signed_binomial(n, k), reason_for_counts(n, k))
}

/// Returns how many ways there are to choose `k` of `n`, the binomial coefficient. That of 11 and 3 is
/// 165, and that of 3 and 11 is 0.
///
/// `NOT_FITTING` if the coefficient does not fit.
#[unsafe(no_mangle)]
pub extern "C" fn cellarcove_binomial_u64(n: u64, k: u64) -> U64Answer
    ensures { U64Answers
        ((pos 0 ≤ℤ pos n) × (pos 0 ≤ℤ pos k) × FitsUnsignedBits 64 (coefficient_of (pos n) (pos k)))
        (λ c. c ≡ coefficient_of (pos n) (pos k)) (StatusIs not_fitting) result }
{
    U64Answer::of(binomial(n, k), NOT_FITTING)
}

/// Returns how many ways there are to order things of several kinds, the multinomial of their counts.
/// That of 2, 1 and 2 is 30, and that of no counts is 1.
///
/// `NOT_FITTING` if the coefficient does not fit.
#[unsafe(no_mangle)]
pub extern "C" fn cellarcove_multinomial_u64(counts: &[u64]) -> U64Answer
    ensures { U64Fitting (IsMultinomial (map (λ x. pos x) counts.now)) result }
{
    U64Answer::of(checked::multinomial(counts), NOT_FITTING)
}

/// Returns why there is no result of two counts.
pub(crate) fn reason_for_counts(n: i64, k: i64) -> u32
    ensures reason { IsReason ((n <ℤ pos 0) ⊎ (k <ℤ pos 0)) result }
    ensures refused { result ≢ 0 }
{
    if n < 0 || k < 0 { OUTSIDE } else { NOT_FITTING }
}
