//! Quotients rounded to the nearest integer.

ghost use Rattle.std.specs.Prelude.{◌≢◌, ◌⊎◌, ◌↔◌, ◌<◌, ◌≤ℤ◌, ℤ, pos, unsigned_abs, IsTrue};
ghost use Rattle.integer_core.specs.Division.{IsFloored, IsQuotient};
ghost use Rattle.integer_core.specs.Range.{EachFits};
ghost use Rattle.num_integer.specs.Rounding.{IsDown, IsNearer, IsNearest, IsNearestEven, LiesWithin};

use integer_core::operators::{difference, is_below, is_negative, successor};
use integer_core::{Integer, div_mod_floor};

/// Returns the quotient rounded to the nearest integer, and a half away from zero. `div_round(8, 3)` is `3`,
/// `div_round(5, 2)` is `3`, and `div_round(-5, 2)` is `-3`.
///
/// [`Fits::quotient_fits`] tests the precondition, and [`checked::div_round`] returns `None` if it
/// does not hold.
///
/// # Panics
///
/// In plain Rust, if `y` is 0, or if the quotient does not fit.
pub fn div_round<T: Integer + Copy>(x: T, y: T) -> T
    requires in_range { T.fits (T.value x) × T.fits (T.value y) }
    requires nonzero { T.value y ≢ pos 0 }
    requires quotient_fits { EachFits T.fits (IsQuotient IsFloored (T.value x) (T.value y)) }
    ensures in_range { T.fits (T.value result) }
    ensures nearest { IsQuotient IsNearest (T.value x) (T.value y) (T.value result) }
{
    let (below, rest) = div_mod_floor(x, y);
    nearer(below, rest, y, is_negative(below))
}

/// Returns the quotient rounded to the nearest integer, and a half to the even one. `div_round_even(8, 3)` is
/// `3`, `div_round_even(5, 2)` is `2`, `div_round_even(7, 2)` is `4`, and `div_round_even(-5, 2)` is `-2`.
///
/// [`Fits::quotient_fits`] tests the precondition, and [`checked::div_round_even`] returns `None`
/// if it does not hold.
///
/// # Panics
///
/// In plain Rust, if `y` is 0, or if the quotient does not fit.
pub fn div_round_even<T: Integer + Copy>(x: T, y: T) -> T
    requires in_range { T.fits (T.value x) × T.fits (T.value y) }
    requires nonzero { T.value y ≢ pos 0 }
    requires quotient_fits { EachFits T.fits (IsQuotient IsFloored (T.value x) (T.value y)) }
    ensures in_range { T.fits (T.value result) }
    ensures nearest { IsQuotient IsNearestEven (T.value x) (T.value y) (T.value result) }
{
    let (below, rest) = div_mod_floor(x, y);
    nearer(below, rest, y, below.is_even())
}

/// Returns the quotient rounded down, or the next number if the remainder is more than half of the divisor. If it
/// is half of the divisor, returns the quotient rounded down if `half_down` is `true`.
fn nearer<T: Integer + Copy>(below: T, rest: T, divisor: T, half_down: bool) -> T
    requires in_range { T.fits (T.value below) × T.fits (T.value rest) × T.fits (T.value divisor) }
    requires floored { (n : ℤ) × T.fits n
        × IsFloored n (T.value divisor) (T.value below) (T.value rest) }
    ensures in_range { T.fits (T.value result) }
    ensures nearer { IsNearer (IsTrue half_down) (T.value divisor) (T.value below) (T.value rest)
        (T.value result) }
{
    if rounds_down(rest, divisor, half_down) {
        below
    } else {
        successor(below)
    }
}

/// Returns `true` if the remainder of a quotient rounded down is less than half of the divisor, or half of it
/// and `half_down` is `true`.
fn rounds_down<T: Integer + Copy>(rest: T, divisor: T, half_down: bool) -> bool
    requires in_range { T.fits (T.value rest) × T.fits (T.value divisor) }
    requires within { LiesWithin (T.value divisor) (T.value rest) }
    ensures { IsTrue result ↔ IsDown (IsTrue half_down) (T.value divisor) (T.value rest) }
{
    // What is missing to the divisor always fits. Twice the remainder may not.
    let missing = difference(divisor, rest);
    if half_down {
        !is_smaller(missing, rest)
    } else {
        is_smaller(rest, missing)
    }
}

/// Returns `true` if the magnitude of `a` is below that of `b`. Neither is negative, or neither is positive.
fn is_smaller<T: Integer + Copy>(a: T, b: T) -> bool
    requires same_side { ((pos 0 ≤ℤ T.value a) × (pos 0 ≤ℤ T.value b))
        ⊎ ((T.value a ≤ℤ pos 0) × (T.value b ≤ℤ pos 0)) }
    ensures { IsTrue result ↔ (unsigned_abs (T.value a) < unsigned_abs (T.value b)) }
{
    if is_negative(a) || is_negative(b) {
        is_below(b, a)
    } else {
        is_below(a, b)
    }
}
