//! Checked division.

ghost use Rattle.std.specs.Prelude.{◌≢◌, ◌<ℤ◌, pos, IsSome};
ghost use Rattle.integer_core.specs.Division.{IsCeiled, IsFloored, IsRemainder, IsTruncated};
ghost use Rattle.num_integer.specs.Answers.{AnswersDivision, AnswersMultiple};
ghost use Rattle.num_integer.specs.Checked.{AnswersWhere, FitsWith};
ghost use Rattle.num_integer.specs.Rounding.{AnswersQuotient};

use crate::fits_trait::Fits;
use integer_core::operators::is_zero;

/// Returns [`Integer::div_rem`], the quotient rounded toward zero and its remainder, or `None` if `y` is 0
/// or the quotient does not fit. `div_rem(-8, 3)` is `Some((-2, -2))`, and `div_rem(i8::MIN, -1)` is
/// `None`. The only quotient that may not fit is that of the smallest number by -1.
pub fn div_rem<T: Fits>(x: T, y: T) -> Option<(T, T)>
    requires x_in_range { T.fits (T.value x) }
    requires y_in_range { T.fits (T.value y) }
    ensures answer { AnswersDivision IsTruncated T.fits T.value (T.value x) (T.value y) result }
    ensures positive { pos 0 <ℤ T.value y → IsSome result }
{
    if x.quotient_fits(&y) {
        Some(x.div_rem(&y))
    } else {
        None
    }
}

/// Returns [`Integer::div_floor`], the quotient rounded down, or `None` if [`div_rem`] does.
/// `div_floor(-8, 3)` is `Some(-3)`, and `div_floor(i8::MIN, -1)` is `None`.
pub fn div_floor<T: Fits>(x: T, y: T) -> Option<T>
    requires x_in_range { T.fits (T.value x) }
    requires y_in_range { T.fits (T.value y) }
    ensures answer { AnswersQuotient IsFloored T.fits T.value (T.value x) (T.value y) result }
    ensures positive { pos 0 <ℤ T.value y → IsSome result }
{
    if x.quotient_fits(&y) {
        Some(x.div_floor(&y))
    } else {
        None
    }
}

/// Returns [`Integer::mod_floor`], the remainder of the quotient rounded down, or `None` if `y` is 0.
/// `mod_floor(-8, 3)` is `Some(1)`, and `mod_floor(8, 0)` is `None`.
pub fn mod_floor<T: Fits>(x: T, y: T) -> Option<T>
    requires x_in_range { T.fits (T.value x) }
    requires y_in_range { T.fits (T.value y) }
    ensures { AnswersWhere
        (T.value y ≢ pos 0)
        (FitsWith T.fits T.value (IsRemainder IsFloored (T.value x) (T.value y)))
        result }
{
    if is_zero(y) {
        None
    } else {
        Some(x.mod_floor(&y))
    }
}

/// Returns [`Integer::div_mod_floor`], the quotient rounded down and its remainder, or `None` if
/// [`div_rem`] does. `div_mod_floor(-8, 3)` is `Some((-3, 1))`, and `div_mod_floor(i8::MIN, -1)` is
/// `None`.
pub fn div_mod_floor<T: Fits>(x: T, y: T) -> Option<(T, T)>
    requires x_in_range { T.fits (T.value x) }
    requires y_in_range { T.fits (T.value y) }
    ensures answer { AnswersDivision IsFloored T.fits T.value (T.value x) (T.value y) result }
    ensures positive { pos 0 <ℤ T.value y → IsSome result }
{
    if x.quotient_fits(&y) {
        Some(x.div_mod_floor(&y))
    } else {
        None
    }
}

/// Returns [`Integer::div_ceil`], the quotient rounded up, or `None` if [`div_rem`] does. `div_ceil(8, 3)`
/// is `Some(3)`, and `div_ceil(8, 0)` is `None`.
pub fn div_ceil<T: Fits>(x: T, y: T) -> Option<T>
    requires x_in_range { T.fits (T.value x) }
    requires y_in_range { T.fits (T.value y) }
    ensures answer { AnswersQuotient IsCeiled T.fits T.value (T.value x) (T.value y) result }
    ensures positive { pos 0 <ℤ T.value y → IsSome result }
{
    if x.quotient_fits(&y) {
        Some(x.div_ceil(&y))
    } else {
        None
    }
}

/// Returns [`Integer::next_multiple_of`], the quotient rounded up, times `y`, or `None` if `y` is 0 or the
/// multiple does not fit. `next_multiple_of(23, 8)` is `Some(24)`, and `next_multiple_of(251u8, 8)` is
/// `None`.
pub fn next_multiple_of<T: Fits>(x: T, y: T) -> Option<T>
    requires x_in_range { T.fits (T.value x) }
    requires y_in_range { T.fits (T.value y) }
    ensures { AnswersMultiple IsCeiled T.fits T.value (T.value x) (T.value y) result }
{
    if x.next_multiple_fits(&y) {
        Some(x.next_multiple_of(&y))
    } else {
        None
    }
}

/// Returns [`Integer::prev_multiple_of`], the quotient rounded down, times `y`, or `None` if `y` is 0 or
/// the multiple does not fit. `prev_multiple_of(23, 8)` is `Some(16)`, and `prev_multiple_of(-125i8, 10)`
/// is `None`.
pub fn prev_multiple_of<T: Fits>(x: T, y: T) -> Option<T>
    requires x_in_range { T.fits (T.value x) }
    requires y_in_range { T.fits (T.value y) }
    ensures { AnswersMultiple IsFloored T.fits T.value (T.value x) (T.value y) result }
{
    if x.prev_multiple_fits(&y) {
        Some(x.prev_multiple_of(&y))
    } else {
        None
    }
}
