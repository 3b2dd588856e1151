//! Arithmetic modulo a number.

ghost use Rattle.std.specs.Prelude.{◌≡◌, ◌≢◌, ◌<ℤ◌, ◌+ℤ◌, ◌-ℤ◌, ◌*ℤ◌, neg_ℤ, pos, MatchBool};
ghost use Rattle.std.specs.Int.{int_pow};
ghost use Rattle.modular.specs.Congruences.{IsInverse, IsQuotientModulo, IsResidue};
ghost use Rattle.num_integer.specs.Only.{IsOnly};
ghost use Rattle.cellarcove_c.specs.Answers.{I64Answers, U64Answers};
ghost use Rattle.cellarcove_c.specs.Congruences.{I64Solution, IsNever, U64Solution};
ghost use Rattle.cellarcove_c.specs.Statuses.{StatusIs, bad_modulus};

use crate::answers::{BAD_MODULUS, I64Answer, NO_SOLUTION, U64Answer};
use modular::checked;

/// Returns the residue of `a` modulo `m`, from 0 to `m` - 1. For -3 and 7 it is 4.
///
/// `BAD_MODULUS` if `m` is not positive.
#[unsafe(no_mangle)]
pub extern "C" fn cellarcove_residue_i64(a: i64, m: i64) -> I64Answer
    ensures { I64Answers (pos 0 <ℤ m) (IsResidue m a) (StatusIs bad_modulus) result }
{
    I64Answer::of(checked::residue(a, m), BAD_MODULUS)
}

/// Returns the residue of `a` modulo `m`, from 0 to `m` - 1. For 10 and 7 it is 3.
///
/// `BAD_MODULUS` if `m` is 0.
#[unsafe(no_mangle)]
pub extern "C" fn cellarcove_residue_u64(a: u64, m: u64) -> U64Answer
    ensures { U64Answers (pos 0 <ℤ pos m) (IsResidue (pos m) (pos a)) (StatusIs bad_modulus) result }
{
    U64Answer::of(checked::residue(a, m), BAD_MODULUS)
}

/// Returns `-a` modulo `m`, from 0 to `m` - 1. For 3 and 7 it is 4.
///
/// `BAD_MODULUS` if `m` is not positive.
#[unsafe(no_mangle)]
pub extern "C" fn cellarcove_negation_modulo_i64(a: i64, m: i64) -> I64Answer
    ensures { I64Answers (pos 0 <ℤ m) (IsResidue m (neg_ℤ a)) (StatusIs bad_modulus) result }
{
    I64Answer::of(checked::negation_modulo(a, m), BAD_MODULUS)
}

/// Returns `-a` modulo `m`, from 0 to `m` - 1. For 3 and 7 it is 4.
///
/// `BAD_MODULUS` if `m` is 0.
#[unsafe(no_mangle)]
pub extern "C" fn cellarcove_negation_modulo_u64(a: u64, m: u64) -> U64Answer
    ensures { U64Answers (pos 0 <ℤ pos m) (IsResidue (pos m) (neg_ℤ (pos a))) (StatusIs bad_modulus)
        result }
{
    U64Answer::of(checked::negation_modulo(a, m), BAD_MODULUS)
}

/// Returns `a + b` modulo `m`, from 0 to `m` - 1. For 5, 4 and 7 it is 2.
///
/// `BAD_MODULUS` if `m` is not positive.
#[unsafe(no_mangle)]
pub extern "C" fn cellarcove_sum_modulo_i64(a: i64, b: i64, m: i64) -> I64Answer
    ensures { I64Answers (pos 0 <ℤ m) (IsResidue m (a +ℤ b)) (StatusIs bad_modulus) result }
{
    I64Answer::of(checked::sum_modulo(a, b, m), BAD_MODULUS)
}

/// Returns `a + b` modulo `m`, from 0 to `m` - 1. For 5, 4 and 7 it is 2.
///
/// `BAD_MODULUS` if `m` is 0.
#[unsafe(no_mangle)]
pub extern "C" fn cellarcove_sum_modulo_u64(a: u64, b: u64, m: u64) -> U64Answer
    ensures { U64Answers (pos 0 <ℤ pos m) (IsResidue (pos m) (pos a +ℤ pos b)) (StatusIs bad_modulus)
        result }
{
    U64Answer::of(checked::sum_modulo(a, b, m), BAD_MODULUS)
}

/// Returns `a - b` modulo `m`, from 0 to `m` - 1. For 2, 5 and 7 it is 4.
///
/// `BAD_MODULUS` if `m` is not positive.
#[unsafe(no_mangle)]
pub extern "C" fn cellarcove_difference_modulo_i64(a: i64, b: i64, m: i64) -> I64Answer
    ensures { I64Answers (pos 0 <ℤ m) (IsResidue m (a -ℤ b)) (StatusIs bad_modulus) result }
{
    I64Answer::of(checked::difference_modulo(a, b, m), BAD_MODULUS)
}

/// Returns `a - b` modulo `m`, from 0 to `m` - 1. For 2, 5 and 7 it is 4.
///
/// `BAD_MODULUS` if `m` is 0.
#[unsafe(no_mangle)]
pub extern "C" fn cellarcove_difference_modulo_u64(a: u64, b: u64, m: u64) -> U64Answer
    ensures { U64Answers (pos 0 <ℤ pos m) (IsResidue (pos m) (pos a -ℤ pos b)) (StatusIs bad_modulus)
        result }
{
    U64Answer::of(checked::difference_modulo(a, b, m), BAD_MODULUS)
}

/// Returns `a * b` modulo `m`, from 0 to `m` - 1. For 4, 5 and 7 it is 6.
///
/// `BAD_MODULUS` if `m` is not positive.
#[unsafe(no_mangle)]
pub extern "C" fn cellarcove_product_modulo_i64(a: i64, b: i64, m: i64) -> I64Answer
    ensures { I64Answers (pos 0 <ℤ m) (IsResidue m (a *ℤ b)) (StatusIs bad_modulus) result }
{
    I64Answer::of(checked::product_modulo(a, b, m), BAD_MODULUS)
}

/// Returns `a * b` modulo `m`, from 0 to `m` - 1. For 4, 5 and 7 it is 6.
///
/// `BAD_MODULUS` if `m` is 0.
#[unsafe(no_mangle)]
pub extern "C" fn cellarcove_product_modulo_u64(a: u64, b: u64, m: u64) -> U64Answer
    ensures { U64Answers (pos 0 <ℤ pos m) (IsResidue (pos m) (pos a *ℤ pos b)) (StatusIs bad_modulus)
        result }
{
    U64Answer::of(checked::product_modulo(a, b, m), BAD_MODULUS)
}

/// Returns `a` to the power `exponent` modulo `m`, from 0 to `m` - 1. For 3, 4 and 7 it is 4.
///
/// `BAD_MODULUS` if `m` is not positive.
#[unsafe(no_mangle)]
pub extern "C" fn cellarcove_power_modulo_i64(a: i64, exponent: u64, m: i64) -> I64Answer
    ensures { I64Answers (pos 0 <ℤ m) (IsResidue m (int_pow a exponent)) (StatusIs bad_modulus) result }
{
    I64Answer::of(
        checked::power_modulo(a, u128::from(exponent), m),
        BAD_MODULUS,
    )
}

/// Returns `a` to the power `exponent` modulo `m`, from 0 to `m` - 1. For 3, 4 and 7 it is 4.
///
/// `BAD_MODULUS` if `m` is 0.
#[unsafe(no_mangle)]
pub extern "C" fn cellarcove_power_modulo_u64(a: u64, exponent: u64, m: u64) -> U64Answer
    ensures { U64Answers (pos 0 <ℤ pos m) (IsResidue (pos m) (int_pow (pos a) exponent))
        (StatusIs bad_modulus) result }
{
    U64Answer::of(
        checked::power_modulo(a, u128::from(exponent), m),
        BAD_MODULUS,
    )
}

/// Returns the number that times `a` is 1 modulo `m`, from 0 to `m` - 1. For 3 and 7 it is 5.
///
/// `BAD_MODULUS` if `m` is not positive. `NO_SOLUTION` if there is no inverse.
#[unsafe(no_mangle)]
pub extern "C" fn cellarcove_inverse_modulo_i64(a: i64, m: i64) -> I64Answer
    ensures { I64Solution m (IsNever (IsInverse a m)) (IsInverse a m) result }
{
    I64Answer::of(
        checked::inverse_modulo(a, m),
        reason_for_modulus(m > 0, NO_SOLUTION),
    )
}

/// Returns the number that times `a` is 1 modulo `m`, from 0 to `m` - 1. For 3 and 7 it is 5.
///
/// `BAD_MODULUS` if `m` is 0. `NO_SOLUTION` if there is no inverse.
#[unsafe(no_mangle)]
pub extern "C" fn cellarcove_inverse_modulo_u64(a: u64, m: u64) -> U64Answer
    ensures { U64Solution (pos m) (IsNever (IsInverse (pos a) (pos m))) (IsInverse (pos a) (pos m))
        result }
{
    U64Answer::of(
        checked::inverse_modulo(a, m),
        reason_for_modulus(m > 0, NO_SOLUTION),
    )
}

/// Returns the number that times `b` is `a` modulo `m`, from 0 to `m` - 1. For 2, 3 and 7 it is 3.
///
/// `BAD_MODULUS` if `m` is not positive. `NO_SOLUTION` if `b` has no inverse modulo `m`.
#[unsafe(no_mangle)]
pub extern "C" fn cellarcove_quotient_modulo_i64(a: i64, b: i64, m: i64) -> I64Answer
    ensures answer { I64Solution m (IsNever (IsInverse b m)) (IsQuotientModulo a b m) result }
    ensures only { result.status ≡ 0 → IsOnly (IsQuotientModulo a b m) result.value }
{
    I64Answer::of(
        checked::quotient_modulo(a, b, m),
        reason_for_modulus(m > 0, NO_SOLUTION),
    )
}

/// Returns the number that times `b` is `a` modulo `m`, from 0 to `m` - 1. For 2, 3 and 7 it is 3.
///
/// `BAD_MODULUS` if `m` is 0. `NO_SOLUTION` if `b` has no inverse modulo `m`.
#[unsafe(no_mangle)]
pub extern "C" fn cellarcove_quotient_modulo_u64(a: u64, b: u64, m: u64) -> U64Answer
    ensures answer { U64Solution (pos m) (IsNever (IsInverse (pos b) (pos m)))
        (IsQuotientModulo (pos a) (pos b) (pos m)) result }
    ensures only { result.status ≡ 0
        → IsOnly (IsQuotientModulo (pos a) (pos b) (pos m)) (pos result.value) }
{
    U64Answer::of(
        checked::quotient_modulo(a, b, m),
        reason_for_modulus(m > 0, NO_SOLUTION),
    )
}

/// Returns why a call modulo a number has no result: `reason` if the number is positive, and else
/// `BAD_MODULUS`. That of `true` and 4 is 4.
pub(crate) fn reason_for_modulus(is_positive: bool, reason: u32) -> u32
    requires { reason ≢ 0 }
    ensures reason { MatchBool is_positive (result ≡ reason) (result ≡ bad_modulus) }
    ensures refused { result ≢ 0 }
{
    if is_positive { reason } else { BAD_MODULUS }
}
