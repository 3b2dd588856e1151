//! Division, rounded toward 0, down, up or to the nearest integer.

ghost use Rattle.std.specs.Prelude.{◌≡◌, ◌≢◌, ◌↔◌, ◌*ℤ◌, ℕ, ℤ, pos, IsTrue};
ghost use Rattle.num_integer.specs.Division.{IsCeiled, IsFloored, IsMultiple, IsQuotient, IsRemainder, IsTruncated};
ghost use Rattle.num_integer.specs.Divisors.{Divides};
ghost use Rattle.applied.specs.Rounding.{IsNearest, IsNearestEven};
ghost use Rattle.cellarcove_c.specs.Answers.{I64Answers, Refuses, U64Answers};
ghost use Rattle.cellarcove_c.specs.Quotients.{I64Quotient, I64Quotients, U64Quotient, U64Quotients};
ghost use Rattle.cellarcove_c.specs.Statuses.{IsReason, StatusIs, answer_of, outside};

use crate::answers::{I64Answer, NOT_FITTING, OUTSIDE, U64Answer, with_status};
use applied::rounding::checked as rounding;
use num_integer::{Integer, checked};

/// A status, and a quotient with its remainder.
#[repr(C)]
#[derive(Clone, Copy)]
pub struct I64Division {
    pub status: u32,
    pub quotient: i64,
    pub remainder: i64,
}

/// A status, and a quotient with its remainder.
#[repr(C)]
#[derive(Clone, Copy)]
pub struct U64Division {
    pub status: u32,
    pub quotient: u64,
    pub remainder: u64,
}

/// Returns the quotient rounded toward 0, and its remainder, as `/` and `%` of C. Those of -8 by 3 are
/// -2 and -2.
///
/// `OUTSIDE` if `y` is 0. `NOT_FITTING` if the quotient does not fit.
#[unsafe(no_mangle)]
#[tactic(auto, using(crate::proofs::NumbersReadBack::quotients))]
pub extern "C" fn cellarcove_div_rem_i64(x: i64, y: i64) -> I64Division
    ensures { I64Quotients IsTruncated x y result }
{
    I64Division::of(checked::div_rem(x, y), reason_for_divisor(y))
}

/// Returns the quotient rounded toward 0, and its remainder. Those of 8 by 3 are 2 and 2.
///
/// `OUTSIDE` if `y` is 0.
#[unsafe(no_mangle)]
pub extern "C" fn cellarcove_div_rem_u64(x: u64, y: u64) -> U64Division
    ensures { U64Quotients IsTruncated (pos x) (pos y) (StatusIs outside) result }
{
    U64Division::of(checked::div_rem(x, y), OUTSIDE)
}

/// Returns the quotient rounded down. That of -8 by 3 is -3.
///
/// `OUTSIDE` if `y` is 0. `NOT_FITTING` if the quotient does not fit.
#[unsafe(no_mangle)]
#[tactic(auto, using(crate::proofs::NumbersReadBack::quotients))]
pub extern "C" fn cellarcove_div_floor_i64(x: i64, y: i64) -> I64Answer
    ensures { I64Quotient y (IsQuotient IsFloored x y) result }
{
    I64Answer::of(checked::div_floor(x, y), reason_for_divisor(y))
}

/// Returns the quotient rounded down. That of 8 by 3 is 2.
///
/// `OUTSIDE` if `y` is 0.
#[unsafe(no_mangle)]
pub extern "C" fn cellarcove_div_floor_u64(x: u64, y: u64) -> U64Answer
    ensures { U64Quotient (pos y) (IsQuotient IsFloored (pos x) (pos y)) (StatusIs outside) result }
{
    U64Answer::of(checked::div_floor(x, y), OUTSIDE)
}

/// Returns the quotient rounded up. That of 8 by 3 is 3.
///
/// `OUTSIDE` if `y` is 0. `NOT_FITTING` if the quotient does not fit.
#[unsafe(no_mangle)]
#[tactic(auto, using(crate::proofs::NumbersReadBack::quotients))]
pub extern "C" fn cellarcove_div_ceil_i64(x: i64, y: i64) -> I64Answer
    ensures { I64Quotient y (IsQuotient IsCeiled x y) result }
{
    I64Answer::of(checked::div_ceil(x, y), reason_for_divisor(y))
}

/// Returns the quotient rounded up. That of 8 by 3 is 3.
///
/// `OUTSIDE` if `y` is 0.
#[unsafe(no_mangle)]
pub extern "C" fn cellarcove_div_ceil_u64(x: u64, y: u64) -> U64Answer
    ensures { U64Quotient (pos y) (IsQuotient IsCeiled (pos x) (pos y)) (StatusIs outside) result }
{
    U64Answer::of(checked::div_ceil(x, y), OUTSIDE)
}

/// Returns the quotient rounded to the nearest integer, and a half away from 0. That of -5 by 2 is -3.
///
/// `OUTSIDE` if `y` is 0. `NOT_FITTING` if the quotient does not fit.
#[unsafe(no_mangle)]
#[tactic(auto, using(crate::proofs::NumbersReadBack::quotients))]
pub extern "C" fn cellarcove_div_round_i64(x: i64, y: i64) -> I64Answer
    ensures { I64Quotient y (IsQuotient IsNearest x y) result }
{
    I64Answer::of(rounding::div_round(x, y), reason_for_divisor(y))
}

/// Returns the quotient rounded to the nearest integer, and a half up. That of 5 by 2 is 3.
///
/// `OUTSIDE` if `y` is 0.
#[unsafe(no_mangle)]
pub extern "C" fn cellarcove_div_round_u64(x: u64, y: u64) -> U64Answer
    ensures { U64Quotient (pos y) (IsQuotient IsNearest (pos x) (pos y)) (StatusIs outside) result }
{
    U64Answer::of(rounding::div_round(x, y), OUTSIDE)
}

/// Returns the quotient rounded to the nearest integer, and a half to the even one. That of -5 by 2 is
/// -2.
///
/// `OUTSIDE` if `y` is 0. `NOT_FITTING` if the quotient does not fit.
#[unsafe(no_mangle)]
#[tactic(auto, using(crate::proofs::NumbersReadBack::quotients))]
pub extern "C" fn cellarcove_div_round_even_i64(x: i64, y: i64) -> I64Answer
    ensures { I64Quotient y (IsQuotient IsNearestEven x y) result }
{
    I64Answer::of(rounding::div_round_even(x, y), reason_for_divisor(y))
}

/// Returns the quotient rounded to the nearest integer, and a half to the even one. That of 5 by 2 is 2.
///
/// `OUTSIDE` if `y` is 0.
#[unsafe(no_mangle)]
pub extern "C" fn cellarcove_div_round_even_u64(x: u64, y: u64) -> U64Answer
    ensures { U64Quotient (pos y) (IsQuotient IsNearestEven (pos x) (pos y)) (StatusIs outside) result }
{
    U64Answer::of(rounding::div_round_even(x, y), OUTSIDE)
}

/// Returns the remainder of the quotient rounded down, which is 0 or has the sign of `y`. That of -8 by
/// 3 is 1, and that of -2^63 by -1 is 0.
///
/// `OUTSIDE` if `y` is 0.
#[unsafe(no_mangle)]
pub extern "C" fn cellarcove_mod_floor_i64(x: i64, y: i64) -> I64Answer
    ensures { I64Answers (y ≢ pos 0) (IsRemainder IsFloored x y) (StatusIs outside) result }
{
    I64Answer::of(checked::mod_floor(x, y), OUTSIDE)
}

/// Returns the remainder of the quotient rounded down. That of 8 by 3 is 2.
///
/// `OUTSIDE` if `y` is 0.
#[unsafe(no_mangle)]
pub extern "C" fn cellarcove_mod_floor_u64(x: u64, y: u64) -> U64Answer
    ensures { U64Answers (pos y ≢ pos 0) (IsRemainder IsFloored (pos x) (pos y)) (StatusIs outside)
        result }
{
    U64Answer::of(checked::mod_floor(x, y), OUTSIDE)
}

/// Returns the quotient rounded down, and its remainder. Those of -8 by 3 are -3 and 1.
///
/// `OUTSIDE` if `y` is 0. `NOT_FITTING` if the quotient does not fit.
#[unsafe(no_mangle)]
#[tactic(auto, using(crate::proofs::NumbersReadBack::quotients))]
pub extern "C" fn cellarcove_div_mod_floor_i64(x: i64, y: i64) -> I64Division
    ensures { I64Quotients IsFloored x y result }
{
    I64Division::of(checked::div_mod_floor(x, y), reason_for_divisor(y))
}

/// Returns the quotient rounded down, and its remainder. Those of 8 by 3 are 2 and 2.
///
/// `OUTSIDE` if `y` is 0.
#[unsafe(no_mangle)]
pub extern "C" fn cellarcove_div_mod_floor_u64(x: u64, y: u64) -> U64Division
    ensures { U64Quotients IsFloored (pos x) (pos y) (StatusIs outside) result }
{
    U64Division::of(checked::div_mod_floor(x, y), OUTSIDE)
}

/// Returns the quotient of `a * b` by `d`, rounded down, and its remainder. The product need not fit.
/// For -7, 3 and 2 they are -11 and 1.
///
/// `OUTSIDE` if `d` is 0. `NOT_FITTING` if the quotient does not fit.
#[unsafe(no_mangle)]
pub extern "C" fn cellarcove_product_div_mod_floor_i64(a: i64, b: i64, d: i64) -> I64Division
    ensures { I64Quotients IsFloored (a *ℤ b) d result }
{
    I64Division::of(
        checked::product_div_mod_floor(a, b, d),
        reason_for_divisor(d),
    )
}

/// Returns the quotient of `a * b` by `d`, rounded down, and its remainder. The product need not fit.
/// For 7, 3 and 2 they are 10 and 1.
///
/// `OUTSIDE` if `d` is 0. `NOT_FITTING` if the quotient does not fit.
#[unsafe(no_mangle)]
pub extern "C" fn cellarcove_product_div_mod_floor_u64(a: u64, b: u64, d: u64) -> U64Division
    ensures { U64Quotients IsFloored (pos a *ℤ pos b) (pos d) (IsReason (pos d ≡ pos 0)) result }
{
    let reason = if d == 0 { OUTSIDE } else { NOT_FITTING };
    U64Division::of(checked::product_div_mod_floor(a, b, d), reason)
}

/// Returns the quotient rounded up, times `y`: if `y` is positive, the smallest multiple of it that is
/// at least `x`. For 23 and 8 it is 24.
///
/// `OUTSIDE` if `y` is 0. `NOT_FITTING` if the multiple does not fit.
#[unsafe(no_mangle)]
#[tactic(auto, using(crate::proofs::NumbersReadBack::quotients))]
pub extern "C" fn cellarcove_next_multiple_of_i64(x: i64, y: i64) -> I64Answer
    ensures { I64Quotient y (IsMultiple IsCeiled x y) result }
{
    I64Answer::of(checked::next_multiple_of(x, y), reason_for_divisor(y))
}

/// Returns the smallest multiple of `y` that is at least `x`. For 23 and 8 it is 24.
///
/// `OUTSIDE` if `y` is 0. `NOT_FITTING` if the multiple does not fit.
#[unsafe(no_mangle)]
pub extern "C" fn cellarcove_next_multiple_of_u64(x: u64, y: u64) -> U64Answer
    ensures { U64Quotient (pos y) (IsMultiple IsCeiled (pos x) (pos y)) (IsReason (pos y ≡ pos 0))
        result }
{
    let reason = if y == 0 { OUTSIDE } else { NOT_FITTING };
    U64Answer::of(checked::next_multiple_of(x, y), reason)
}

/// Returns the quotient rounded down, times `y`: if `y` is positive, the largest multiple of it that is
/// at most `x`. For 23 and 8 it is 16.
///
/// `OUTSIDE` if `y` is 0. `NOT_FITTING` if the multiple does not fit.
#[unsafe(no_mangle)]
#[tactic(auto, using(crate::proofs::NumbersReadBack::quotients))]
pub extern "C" fn cellarcove_prev_multiple_of_i64(x: i64, y: i64) -> I64Answer
    ensures { I64Quotient y (IsMultiple IsFloored x y) result }
{
    I64Answer::of(checked::prev_multiple_of(x, y), reason_for_divisor(y))
}

/// Returns the largest multiple of `y` that is at most `x`. For 23 and 8 it is 16.
///
/// `OUTSIDE` if `y` is 0.
#[unsafe(no_mangle)]
pub extern "C" fn cellarcove_prev_multiple_of_u64(x: u64, y: u64) -> U64Answer
    ensures { U64Quotient (pos y) (IsMultiple IsFloored (pos x) (pos y)) (StatusIs outside) result }
{
    U64Answer::of(checked::prev_multiple_of(x, y), OUTSIDE)
}

/// Returns `true` if `x` is a multiple of `y`. For 6 and 3 it is `true`, for 0 and 0 it is `true`, and for 6
/// and 0 it is `false`.
#[unsafe(no_mangle)]
pub extern "C" fn cellarcove_is_multiple_of_i64(x: i64, y: i64) -> bool
    ensures { IsTrue result ↔ Divides y x }
{
    Integer::is_multiple_of(&x, &y)
}

/// Returns `true` if `x` is a multiple of `y`. For 6 and 3 it is `true`, for 0 and 0 it is `true`, and for 6
/// and 0 it is `false`.
#[unsafe(no_mangle)]
pub extern "C" fn cellarcove_is_multiple_of_u64(x: u64, y: u64) -> bool
    ensures { IsTrue result ↔ Divides (pos y) (pos x) }
{
    Integer::is_multiple_of(&x, &y)
}

impl I64Division {
    /// Returns the result of a call of `num_integer::checked`, or a rejection for a reason.
    fn of(option: Option<(i64, i64)>, reason: u32) -> I64Division
        requires { reason ≢ 0 }
        ensures answer { answer_of result.status (result.quotient, result.remainder) ≡ option }
        ensures refusal { Refuses {A = ℤ × ℤ} (StatusIs reason) (pos 0, pos 0)
            result.status (result.quotient, result.remainder) }
    {
        let (status, (quotient, remainder)) = with_status(option, (0, 0), reason);
        I64Division {
            status,
            quotient,
            remainder,
        }
    }
}

impl U64Division {
    /// Returns the result of a call of `num_integer::checked`, or a rejection for a reason.
    fn of(option: Option<(u64, u64)>, reason: u32) -> U64Division
        requires { reason ≢ 0 }
        ensures answer { answer_of result.status (result.quotient, result.remainder) ≡ option }
        ensures refusal { Refuses {A = ℕ × ℕ} (StatusIs reason) (0, 0) result.status
            (result.quotient, result.remainder) }
    {
        let (status, (quotient, remainder)) = with_status(option, (0, 0), reason);
        U64Division {
            status,
            quotient,
            remainder,
        }
    }
}

/// Returns why a number has no quotient or multiple by a divisor.
pub(crate) fn reason_for_divisor(divisor: i64) -> u32
    ensures reason { IsReason (divisor ≡ pos 0) result }
    ensures refused { result ≢ 0 }
{
    if divisor == 0 { OUTSIDE } else { NOT_FITTING }
}
