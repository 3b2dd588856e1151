//! Sums, differences and products that do not overflow.

ghost use Rattle.std.specs.Prelude.{◌+ℤ◌, ◌-ℤ◌, ◌*ℤ◌, pos};
ghost use Rattle.cellarcove_c.specs.Answers.{I64Number, U64Number};

use crate::answers::{I64Answer, NOT_FITTING, U64Answer};
use num_integer::checked;

/// Returns `a + b`. For 2 and 3 it is 5.
///
/// `NOT_FITTING` if the sum does not fit.
#[unsafe(no_mangle)]
pub extern "C" fn cellarcove_checked_sum_i64(a: i64, b: i64) -> I64Answer
    ensures { I64Number (a +ℤ b) result }
{
    I64Answer::of(checked::sum(a, b), NOT_FITTING)
}

/// Returns `a + b`. For 2 and 3 it is 5.
///
/// `NOT_FITTING` if the sum does not fit.
#[unsafe(no_mangle)]
pub extern "C" fn cellarcove_checked_sum_u64(a: u64, b: u64) -> U64Answer
    ensures { U64Number (pos a +ℤ pos b) result }
{
    U64Answer::of(checked::sum(a, b), NOT_FITTING)
}

/// Returns `a - b`. For 2 and 3 it is -1.
///
/// `NOT_FITTING` if the difference does not fit.
#[unsafe(no_mangle)]
pub extern "C" fn cellarcove_checked_difference_i64(a: i64, b: i64) -> I64Answer
    ensures { I64Number (a -ℤ b) result }
{
    I64Answer::of(checked::difference(a, b), NOT_FITTING)
}

/// Returns `a - b`. For 3 and 2 it is 1.
///
/// `NOT_FITTING` if the difference is negative.
#[unsafe(no_mangle)]
pub extern "C" fn cellarcove_checked_difference_u64(a: u64, b: u64) -> U64Answer
    ensures { U64Number (pos a -ℤ pos b) result }
{
    U64Answer::of(checked::difference(a, b), NOT_FITTING)
}

/// Returns `a * b`. For 2 and 3 it is 6.
///
/// `NOT_FITTING` if the product does not fit.
#[unsafe(no_mangle)]
pub extern "C" fn cellarcove_checked_product_i64(a: i64, b: i64) -> I64Answer
    ensures { I64Number (a *ℤ b) result }
{
    I64Answer::of(checked::product(a, b), NOT_FITTING)
}

/// Returns `a * b`. For 2 and 3 it is 6.
///
/// `NOT_FITTING` if the product does not fit.
#[unsafe(no_mangle)]
pub extern "C" fn cellarcove_checked_product_u64(a: u64, b: u64) -> U64Answer
    ensures { U64Number (pos a *ℤ pos b) result }
{
    U64Answer::of(checked::product(a, b), NOT_FITTING)
}
