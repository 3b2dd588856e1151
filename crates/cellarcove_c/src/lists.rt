//! Common divisors, common multiples and sums of lists.

ghost use Rattle.std.specs.Prelude.{◌≡◌, pos, map, FitsSigned};
ghost use Rattle.std.specs.Int.{w64};
ghost use Rattle.std.specs.List.{All};
ghost use Rattle.applied.specs.Lists.{IsGreatestCommonDivisorOf, IsLeastCommonMultipleOf};
ghost use Rattle.applied.specs.Shares.{signed_sum};
ghost use Rattle.cellarcove_c.specs.Answers.{I64Fitting, I64Number, U64Fitting, U64Number};

use crate::answers::{I64Answer, NOT_FITTING, U64Answer};
use applied::lists::{checked, gcd_of};

/// Returns the greatest common divisor of the numbers, which is not negative. That of -12, 18 and 8 is 2,
/// that of -2^63, 0 and 6 is 2, and that of no numbers is 0.
///
/// `NOT_FITTING` if the result is 2^63, as for -2^63 and 0.
#[unsafe(no_mangle)]
pub extern "C" fn cellarcove_gcd_of_i64(numbers: &[i64]) -> I64Answer
    ensures { I64Fitting (IsGreatestCommonDivisorOf numbers.now) result }
{
    read_each(numbers);
    I64Answer::of(checked::gcd_of(numbers), NOT_FITTING)
}

/// Returns the greatest common divisor of the numbers. That of 12, 18 and 8 is 2, and that of no numbers
/// is 0.
#[unsafe(no_mangle)]
pub extern "C" fn cellarcove_gcd_of_u64(numbers: &[u64]) -> U64Answer
    ensures status { result.status ≡ 0 }
    ensures divisor { IsGreatestCommonDivisorOf (map (λ x. pos x) numbers.now) (pos result.value) }
{
    U64Answer::some(gcd_of(numbers))
}

/// Returns the least common multiple of the numbers, which is not negative. That of -4, 6 and 10 is 60,
/// that of -4, 6 and 0 is 0, and that of no numbers is 1.
///
/// `NOT_FITTING` if the multiple does not fit.
#[unsafe(no_mangle)]
pub extern "C" fn cellarcove_lcm_of_i64(numbers: &[i64]) -> I64Answer
    ensures { I64Fitting (IsLeastCommonMultipleOf numbers.now) result }
{
    read_each(numbers);
    I64Answer::of(checked::lcm_of(numbers), NOT_FITTING)
}

/// Returns the least common multiple of the numbers. That of 4, 6 and 10 is 60, that of 4, 6 and 0 is 0,
/// and that of no numbers is 1.
///
/// `NOT_FITTING` if the multiple does not fit.
#[unsafe(no_mangle)]
pub extern "C" fn cellarcove_lcm_of_u64(numbers: &[u64]) -> U64Answer
    ensures { U64Fitting (IsLeastCommonMultipleOf (map (λ x. pos x) numbers.now)) result }
{
    U64Answer::of(checked::lcm_of(numbers), NOT_FITTING)
}

/// Returns the sum of the numbers. The sum of the first of them need not fit. That of
/// 9223372036854775807, 1 and -8 is 9223372036854775800, and that of no numbers is 0.
///
/// `NOT_FITTING` if the sum does not fit.
#[unsafe(no_mangle)]
#[tactic(auto, using(crate::proofs::NumbersReadBack::read_back))]
pub extern "C" fn cellarcove_sum_of_i64(numbers: &[i64]) -> I64Answer
    ensures { I64Number (signed_sum numbers.now) result }
{
    read_each(numbers);
    I64Answer::of(checked::sum_of(numbers), NOT_FITTING)
}

/// Returns the sum of the numbers. That of 12, 18 and 8 is 38, and that of no numbers is 0.
///
/// `NOT_FITTING` if the sum does not fit.
#[unsafe(no_mangle)]
pub extern "C" fn cellarcove_sum_of_u64(numbers: &[u64]) -> U64Answer
    ensures { U64Number (signed_sum (map (λ x. pos x) numbers.now)) result }
{
    U64Answer::of(checked::sum_of(numbers), NOT_FITTING)
}

/// Reads each number. The proof knows of a signed number that it fits once it is read.
pub(crate) fn read_each(numbers: &[i64])
    ensures { All (FitsSigned w64) numbers.now }
{
    for number in numbers {
        let _read = *number;
    }
}
