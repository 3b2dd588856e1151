//! Tests of squares and of other powers of integers, square roots with what is left, and logarithms.

ghost use Rattle.std.specs.Prelude.{◌≡◌, ◌≢◌, ◌↔◌, ◌<◌, ◌≤◌, ◌<ℤ◌, ◌≤ℤ◌, ◌*ℤ◌, ◌^◌, ℕ, ℤ, pos, IsTrue};
ghost use Rattle.std.specs.Int.{int_pow};
ghost use Rattle.applied.specs.Powers.{IsLogarithm};
ghost use Rattle.cellarcove_c.specs.Answers.{Answers, Refuses};
ghost use Rattle.cellarcove_c.specs.Roots.{IsRootWithRest};
ghost use Rattle.cellarcove_c.specs.Statuses.{StatusIs, answer_of, outside};

use crate::answers::{ANSWER, OUTSIDE, U64Answer};
use crate::square_roots::floor_square_root;
use applied::powers::{checked, is_perfect_power, is_power, is_square};

/// A status, and a square root with what is left.
#[repr(C)]
#[derive(Clone, Copy)]
pub struct I64Root {
    pub status: u32,
    pub root: i64,
    pub rest: i64,
}

/// A status, and a square root with what is left.
#[repr(C)]
#[derive(Clone, Copy)]
pub struct U64Root {
    pub status: u32,
    pub root: u64,
    pub rest: u64,
}

/// Returns `true` if `x` is the square of an integer. For 144 it is `true`, and for -144 it is `false`.
#[unsafe(no_mangle)]
pub extern "C" fn cellarcove_is_square_i64(x: i64) -> bool
    ensures { IsTrue result ↔ ((k : ℤ) × (k *ℤ k ≡ x)) }
{
    is_square(x)
}

/// Returns `true` if `x` is the square of an integer. For 144 it is `true`, and for 145 it is `false`.
#[unsafe(no_mangle)]
pub extern "C" fn cellarcove_is_square_u64(x: u64) -> bool
    ensures { IsTrue result ↔ ((k : ℤ) × (k *ℤ k ≡ pos x)) }
{
    is_square(x)
}

/// Returns `true` if `x` is an integer to the power `degree`. For -243 and 5 it is `true`, for 244 and 5 it is
/// `false`, for 1 and 0 it is `true`, and for 2 and 0 it is `false`.
#[unsafe(no_mangle)]
pub extern "C" fn cellarcove_is_power_i64(x: i64, degree: u32) -> bool
    ensures { IsTrue result ↔ ((k : ℤ) × (int_pow k degree ≡ x)) }
{
    if degree == 0 {
        x == 1
    } else {
        is_power(x, degree)
    }
}

/// Returns `true` if `x` is an integer to the power `degree`. For 243 and 5 it is `true`, for 244 and 5 it is
/// `false`, for 1 and 0 it is `true`, and for 2 and 0 it is `false`.
#[unsafe(no_mangle)]
pub extern "C" fn cellarcove_is_power_u64(x: u64, degree: u32) -> bool
    ensures { IsTrue result ↔ ((k : ℤ) × (int_pow k degree ≡ pos x)) }
{
    if degree == 0 {
        x == 1
    } else {
        is_power(x, degree)
    }
}

/// Returns `true` if `x` is a square, a cube or a higher power of an integer. For 128 it is `true`, and for 72
/// it is `false`.
#[unsafe(no_mangle)]
pub extern "C" fn cellarcove_is_perfect_power_u64(x: u64) -> bool
    ensures { IsTrue result
        ↔ ((k : ℤ) × ((degree : ℕ) × (2 ≤ degree) × (int_pow k degree ≡ pos x))) }
{
    is_perfect_power(x)
}

/// Returns the square root rounded down, and what is left: `x` minus the square of the root. Those of 99
/// are 9 and 18.
///
/// `OUTSIDE` if `x` is negative.
#[unsafe(no_mangle)]
pub extern "C" fn cellarcove_sqrt_rem_i64(x: i64) -> I64Root
    ensures { Answers {A = ℤ × ℤ} (pos 0 ≤ℤ x) (λ (root, rest). IsRootWithRest x root rest)
        (StatusIs outside) (pos 0, pos 0) result.status (result.root, result.rest) }
{
    let (status, (root, rest)) = if x < 0 {
        (OUTSIDE, (0, 0))
    } else {
        (ANSWER, root_with_rest(x as u64))
    };
    I64Root {
        status,
        root: root as i64,
        rest: rest as i64,
    }
}

/// Returns the square root rounded down, and what is left: `x` minus the square of the root. Those of 99 are 9
/// and 18, and those of 2^64 - 1 are 4294967295 and 8589934590.
#[unsafe(no_mangle)]
pub extern "C" fn cellarcove_sqrt_rem_u64(x: u64) -> U64Root
    ensures answer { Answers {A = ℕ × ℕ} (pos 0 ≤ℤ pos x)
        (λ (root, rest). IsRootWithRest (pos x) (pos root) (pos rest))
        (StatusIs outside) (0, 0) result.status (result.root, result.rest) }
    ensures always { result.status ≡ 0 }
{
    let (root, rest) = root_with_rest(x);
    U64Root {
        status: ANSWER,
        root,
        rest,
    }
}

/// Returns the logarithm rounded down: the largest degree of a power of `base` that is at most `x`. For
/// 1000 and 10 it is 3.
///
/// `OUTSIDE` if `x` is not positive or `base` is below 2.
#[unsafe(no_mangle)]
pub extern "C" fn cellarcove_ilog_i64(x: i64, base: i64) -> U64Answer
    ensures { Answers ((pos 0 <ℤ x) × (pos 1 <ℤ base)) (IsLogarithm base x)
        (StatusIs outside) 0 result.status result.value }
{
    logarithm(checked::ilog(x, base))
}

/// Returns the logarithm rounded down: the largest degree of a power of `base` that is at most `x`. For
/// 1000 and 10 it is 3.
///
/// `OUTSIDE` if `x` is 0 or `base` is below 2.
#[unsafe(no_mangle)]
pub extern "C" fn cellarcove_ilog_u64(x: u64, base: u64) -> U64Answer
    ensures { Answers ((pos 0 <ℤ pos x) × (pos 1 <ℤ pos base)) (IsLogarithm (pos base) (pos x))
        (StatusIs outside) 0 result.status result.value }
{
    logarithm(checked::ilog(x, base))
}

/// Returns the square root rounded down, and what is left. Those of 99 are 9 and 18.
fn root_with_rest(x: u64) -> (u64, u64)
    ensures parts { IsRootWithRest (pos x) (pos result.0) (pos result.1) }
    ensures small { result.0 < 2 ^ 32 }
{
    let root = floor_square_root(x);
    (root, x - root * root)
}

/// Returns the result of a logarithm.
fn logarithm(option: Option<u32>) -> U64Answer
    ensures answer { answer_of result.status result.value ≡ option }
    ensures refusal { Refuses (StatusIs outside) 0 result.status result.value }
{
    match option {
        Some(degree) => U64Answer::some(u64::from(degree)),
        None => U64Answer::none(OUTSIDE),
    }
}
