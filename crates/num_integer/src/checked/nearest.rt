//! Checked quotients rounded to the nearest integer.

ghost use Rattle.std.specs.Prelude.{◌<ℤ◌, pos};
ghost use Rattle.std.specs.Option.{IsSome};
ghost use Rattle.num_integer.specs.Rounding.{AnswersQuotient, IsNearest, IsNearestEven};

use crate::fits_trait::Fits;

/// Returns [`div_round`](crate::div_round), the nearest integer and a half away from zero, or `None`
/// if `y` is 0 or the quotient does not fit. `div_round(5, 2)` is `Some(3)`, and `div_round(i8::MIN, -1)` is
/// `None`.
pub fn div_round<T: Fits>(x: T, y: T) -> Option<T>
    requires in_range { T.fits (T.value x) × T.fits (T.value y) }
    ensures answer { AnswersQuotient IsNearest T.fits T.value (T.value x) (T.value y) result }
    ensures positive { pos 0 <ℤ T.value y → IsSome result }
{
    if x.quotient_fits(&y) {
        Some(crate::div_round(x, y))
    } else {
        None
    }
}

/// Returns [`div_round_even`](crate::div_round_even), the nearest integer and a half to the even one,
/// or `None` if [`div_round`] does. `div_round_even(5, 2)` is `Some(2)`, and `div_round_even(5, 0)` is `None`.
pub fn div_round_even<T: Fits>(x: T, y: T) -> Option<T>
    requires in_range { T.fits (T.value x) × T.fits (T.value y) }
    ensures answer { AnswersQuotient IsNearestEven T.fits T.value (T.value x) (T.value y) result }
    ensures positive { pos 0 <ℤ T.value y → IsSome result }
{
    if x.quotient_fits(&y) {
        Some(crate::div_round_even(x, y))
    } else {
        None
    }
}
