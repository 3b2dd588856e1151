//! Products divided by a number, rounded to the nearest integer.

ghost use Rattle.std.specs.Prelude.{◌≡◌, ◌*ℤ◌, pos};
ghost use Rattle.num_integer.specs.Division.{IsQuotient};
ghost use Rattle.applied.specs.Rounding.{IsNearest, IsNearestEven};
ghost use Rattle.cellarcove_c.specs.Quotients.{I64Quotient, U64Quotient};
ghost use Rattle.cellarcove_c.specs.Statuses.{IsReason};

use crate::answers::{I64Answer, NOT_FITTING, OUTSIDE, U64Answer};
use crate::division::reason_for_divisor;
use applied::rounding::checked::{product_div_round, product_div_round_even};

/// Returns the quotient of `a * b` by `d`, rounded to the nearest integer, and a half away from 0. The
/// product need not fit. For -1999, 19 and 100 it is -380, for 5, 1 and 2 it is 3, and for -5, 1 and 2 it is
/// -3.
///
/// `OUTSIDE` if `d` is 0. `NOT_FITTING` if the quotient does not fit.
#[unsafe(no_mangle)]
pub extern "C" fn cellarcove_product_div_round_i64(a: i64, b: i64, d: i64) -> I64Answer
    ensures { I64Quotient d (IsQuotient IsNearest (a *ℤ b) d) result }
{
    I64Answer::of(product_div_round(a, b, d), reason_for_divisor(d))
}

/// Returns the quotient of `a * b` by `d`, rounded to the nearest integer, and a half up. The product
/// need not fit. For 1999, 19 and 100 it is 380, and for 5, 1 and 2 it is 3.
///
/// `OUTSIDE` if `d` is 0. `NOT_FITTING` if the quotient does not fit.
#[unsafe(no_mangle)]
pub extern "C" fn cellarcove_product_div_round_u64(a: u64, b: u64, d: u64) -> U64Answer
    ensures { U64Quotient (pos d) (IsQuotient IsNearest (pos a *ℤ pos b) (pos d)) (IsReason (pos d ≡ pos 0))
        result }
{
    let reason = if d == 0 { OUTSIDE } else { NOT_FITTING };
    U64Answer::of(product_div_round(a, b, d), reason)
}

/// Returns the quotient of `a * b` by `d`, rounded to the nearest integer, and a half to the even one.
/// The product need not fit. For -5, 3 and 6 it is -2, and for -7, 3 and 6 it is -4.
///
/// `OUTSIDE` if `d` is 0. `NOT_FITTING` if the quotient does not fit.
#[unsafe(no_mangle)]
pub extern "C" fn cellarcove_product_div_round_even_i64(a: i64, b: i64, d: i64) -> I64Answer
    ensures { I64Quotient d (IsQuotient IsNearestEven (a *ℤ b) d) result }
{
    I64Answer::of(product_div_round_even(a, b, d), reason_for_divisor(d))
}

/// Returns the quotient of `a * b` by `d`, rounded to the nearest integer, and a half to the even one.
/// The product need not fit. For 5, 3 and 6 it is 2, and for 7, 3 and 6 it is 4.
///
/// `OUTSIDE` if `d` is 0. `NOT_FITTING` if the quotient does not fit.
#[unsafe(no_mangle)]
pub extern "C" fn cellarcove_product_div_round_even_u64(a: u64, b: u64, d: u64) -> U64Answer
    ensures { U64Quotient (pos d) (IsQuotient IsNearestEven (pos a *ℤ pos b) (pos d)) (IsReason (pos d ≡ pos 0))
        result }
{
    let reason = if d == 0 { OUTSIDE } else { NOT_FITTING };
    U64Answer::of(product_div_round_even(a, b, d), reason)
}
