//! Times that recur after a period.

ghost use Rattle.std.specs.Prelude.{◌≡◌, ◌⊎◌, ◌↔◌, ◌<ℤ◌, ◌≤ℤ◌, pos, FitsSigned};
ghost use Rattle.std.specs.Int.{FitsUnsignedBits, w64};
ghost use Rattle.applied.specs.Schedules.{IsCountOfTimes, IsMeeting};
ghost use Rattle.modular.specs.CommonSolutions.{MatchCommonSolution};
ghost use Rattle.num_integer.specs.Least.{IsLeastFrom};
ghost use Rattle.cellarcove_c.specs.Answers.{Refuses};
ghost use Rattle.cellarcove_c.specs.Congruences.{I64Congruent, IsBeyond, IsNever, IsReasonOfCongruences, U64Congruent};
ghost use Rattle.cellarcove_c.specs.Statuses.{bad_modulus, common_solution_of};

use crate::answers::{BAD_MODULUS, I64Answer, NOT_FITTING, U64Answer, common_with_status};
use applied::schedules::{Schedule, count, next_meeting};

/// Returns the first time, not before `now`, that is in two schedules. One has the times `a`, `a + p`,
/// `a + 2 * p` and so on, and the other those of `b` and `q`. For 10, 1, 4, 3 and 6 it is 21, and for 0, 13,
/// 4, 3 and 6 it is 21.
///
/// `BAD_MODULUS` if `p` or `q` is not positive. `NO_SOLUTION` if there is no such time. `NOT_FITTING` if it does
/// not fit.
#[unsafe(no_mangle)]
#[tactic(auto, using(crate::proofs::NumbersReadBack::read_back))]
pub extern "C" fn cellarcove_next_meeting_i64(now: i64, a: i64, p: i64, b: i64, q: i64) -> I64Answer
    ensures answer { (pos 0 <ℤ p) → (pos 0 <ℤ q)
        → MatchCommonSolution (common_solution_of result.status result.value)
        (IsNever (IsMeeting a p b q))
        (IsBeyond (FitsSigned w64) (IsLeastFrom now (IsMeeting a p b q)))
        (IsLeastFrom now (IsMeeting a p b q)) }
    ensures bad_modulus { (result.status ≡ bad_modulus) ↔ ((p ≤ℤ pos 0) ⊎ (q ≤ℤ pos 0)) }
    ensures refusal { Refuses IsReasonOfCongruences (pos 0) result.status result.value }
{
    if p <= 0 || q <= 0 {
        return I64Answer::none(BAD_MODULUS);
    }
    let found = next_meeting(now, (a, p).into(), (b, q).into());
    let (status, value) = common_with_status(found, 0);
    I64Answer { status, value }
}

/// Returns the first time, not before `now`, that is in two schedules. One has the times `a`, `a + p`,
/// `a + 2 * p` and so on, and the other those of `b` and `q`. For 10, 1, 4, 3 and 6 it is 21, and for 0, 13,
/// 4, 3 and 6 it is 21.
///
/// `BAD_MODULUS` if `p` or `q` is 0. `NO_SOLUTION` if there is no such time. `NOT_FITTING` if it does
/// not fit.
#[unsafe(no_mangle)]
pub extern "C" fn cellarcove_next_meeting_u64(now: u64, a: u64, p: u64, b: u64, q: u64) -> U64Answer
    ensures answer { (pos 0 <ℤ pos p) → (pos 0 <ℤ pos q)
        → MatchCommonSolution (common_solution_of result.status result.value)
        (IsNever (IsMeeting (pos a) (pos p) (pos b) (pos q)))
        (IsBeyond (FitsUnsignedBits 64) (IsLeastFrom (pos now) (IsMeeting (pos a) (pos p) (pos b) (pos q))))
        (λ t. IsLeastFrom (pos now)
        (IsMeeting (pos a) (pos p) (pos b) (pos q)) (pos t)) }
    ensures bad_modulus { (result.status ≡ bad_modulus) ↔ ((pos p ≤ℤ pos 0) ⊎ (pos q ≤ℤ pos 0)) }
    ensures refusal { Refuses IsReasonOfCongruences 0 result.status result.value }
{
    if p == 0 || q == 0 {
        return U64Answer::none(BAD_MODULUS);
    }
    let found = next_meeting(now, (a, p).into(), (b, q).into());
    let (status, value) = common_with_status(found, 0);
    U64Answer { status, value }
}

/// Returns how many times of a schedule are in the range of numbers between `from` and `to`, and at them.
/// The schedule has the times `first`, `first + period` and so on. For 4, 15, 3 and 6 it is 2, and for -9, 15,
/// 3 and 6 it is 3.
///
/// `BAD_MODULUS` if `period` is not positive. `NOT_FITTING` if the count does not fit.
#[unsafe(no_mangle)]
pub extern "C" fn cellarcove_count_times_i64(
    from: i64,
    to: i64,
    first: i64,
    period: i64,
) -> I64Answer
    ensures { I64Congruent period
        (IsCountOfTimes from to first period) result }
{
    if period <= 0 {
        return I64Answer::none(BAD_MODULUS);
    }
    I64Answer::of(count(from, to, Schedule { first, period }), NOT_FITTING)
}

/// Returns how many times of a schedule are in the range of numbers between `from` and `to`, and at them.
/// The schedule has the times `first`, `first + period` and so on. For 4, 15, 3 and 6 it is 2.
///
/// `BAD_MODULUS` if `period` is 0. `NOT_FITTING` if the count does not fit.
#[unsafe(no_mangle)]
pub extern "C" fn cellarcove_count_times_u64(
    from: u64,
    to: u64,
    first: u64,
    period: u64,
) -> U64Answer
    ensures { U64Congruent (pos period)
        (IsCountOfTimes (pos from) (pos to) (pos first) (pos period)) result }
{
    if period == 0 {
        return U64Answer::none(BAD_MODULUS);
    }
    U64Answer::of(count(from, to, Schedule { first, period }), NOT_FITTING)
}
