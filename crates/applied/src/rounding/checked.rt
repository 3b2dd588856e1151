//! The calls of this module for any two numbers, and those of a product. Each is `None` if the divisor is 0 or the quotient does not
//! fit.

ghost use Rattle.std.specs.Prelude.{◌≢◌, ◌*ℤ◌, pos};
ghost use Rattle.num_integer.specs.Division.{IsFloored, IsQuotient};
ghost use Rattle.num_integer.specs.Range.{EachFits};
ghost use Rattle.applied.specs.Halves.{AnswersParts, NearestBy};
ghost use Rattle.applied.specs.Rounding.{AnswersQuotient, IsNearest, IsNearestEven};

pub use num_integer::checked::{div_round, div_round_even};
use num_integer::operators::{is_minus_one, is_zero};
use num_integer::sign_magnitude::{number_of, parts_of, parts_of_product};
use num_integer::{Integer, NativeInteger};

/// To which integer a half is rounded.
#[derive(Clone, Copy)]
enum Half {
    AwayFromZero,
    ToEven,
}

/// Returns the quotient of `a * b` by `d`, rounded to the nearest integer, and a half away from zero, for a built-in type of at most 64
/// bits, or `None` if `d` is 0 or the quotient does not fit. `product_div_round(1999, 19, 100)` is `Some(380)`,
/// `product_div_round(5, 1, 2)` is `Some(3)`, `product_div_round(-5, 1, 2)` is `Some(-3)`, and
/// `product_div_round(i64::MAX, 3, 2)` is `None`.
///
/// The product need not fit: then it is computed in 128 bits. No wider type has the products of `i128`, `u128` or a type of your
/// own, so there call [`checked::product`](num_integer::checked::product) and then [`div_round`], if the product fits.
///
/// A part of a number is never `None`: if `a` and `b` are at least 0, and `b` is at most `d`, which is positive, the quotient is at
/// most `a`.
pub fn product_div_round<T: NativeInteger<Magnitude = u64>>(a: T, b: T, d: T) -> Option<T>
    requires in_range { T.fits (T.value a) × T.fits (T.value b) × T.fits (T.value d) }
    ensures answer { AnswersQuotient IsNearest T.fits T.value (T.value a *ℤ T.value b) (T.value d) result }
    ensures within { AnswersParts (T.value a) (T.value b) (T.value d) result }
{
    product_quotient(a, b, d, Half::AwayFromZero)
}

/// Returns the quotient of `a * b` by `d`, rounded to the nearest integer, and a half to the even one, or `None` if
/// [`product_div_round`] does. `product_div_round_even(250, 1, 100)` is `Some(2)`, and `product_div_round_even(350, 1, 100)` is `Some(4)`.
///
/// As there, the product need not fit, and a part of a number is never `None`.
pub fn product_div_round_even<T: NativeInteger<Magnitude = u64>>(a: T, b: T, d: T) -> Option<T>
    requires in_range { T.fits (T.value a) × T.fits (T.value b) × T.fits (T.value d) }
    ensures answer { AnswersQuotient IsNearestEven T.fits T.value (T.value a *ℤ T.value b) (T.value d) result }
    ensures within { AnswersParts (T.value a) (T.value b) (T.value d) result }
{
    product_quotient(a, b, d, Half::ToEven)
}

/// Returns the quotient of `a * b` by `d`, rounded to the nearest integer, or `None` as [`product_div_round`] does.
#[inline]
fn product_quotient<T: NativeInteger<Magnitude = u64>>(a: T, b: T, d: T, half: Half) -> Option<T>
    requires in_range { T.fits (T.value a) × T.fits (T.value b) × T.fits (T.value d) }
    ensures answer { AnswersQuotient (NearestBy half) T.fits T.value (T.value a *ℤ T.value b) (T.value d) result }
    ensures within { AnswersParts (T.value a) (T.value b) (T.value d) result }
{
    if is_zero(d) {
        return None;
    }
    match a.checked_mul(&b) {
        Some(product) if !is_minus_one(d) => Some(nearest(product, d, half)),
        _ => wide_product_quotient(a, b, d, half),
    }
}

/// Returns the quotient of [`product_quotient`], computed in 128 bits, or `None` if it does not fit. That of the magnitudes has the
/// magnitude of that of the numbers.
#[tactic(auto, using(num_integer::proofs::NearestQuotients::magnitude_nonzero))]
fn wide_product_quotient<T: NativeInteger<Magnitude = u64>>(
    a: T,
    b: T,
    d: T,
    half: Half,
) -> Option<T>
    requires in_range { T.fits (T.value a) × T.fits (T.value b) × T.fits (T.value d) }
    requires nonzero { T.value d ≢ pos 0 }
    ensures { AnswersQuotient (NearestBy half) T.fits T.value (T.value a *ℤ T.value b) (T.value d) result }
{
    let (product, divisor) = (parts_of_product(a, b), parts_of(d));
    let magnitude = nearest(product.1, u128::from(divisor.1), half);
    number_of((product.0 != divisor.0, magnitude))
}

/// Returns the quotient of `x` by `y`, rounded to the nearest integer.
fn nearest<T: Integer + Copy>(x: T, y: T, half: Half) -> T
    requires in_range { T.fits (T.value x) × T.fits (T.value y) }
    requires nonzero { T.value y ≢ pos 0 }
    requires quotient_fits { EachFits T.fits (IsQuotient IsFloored (T.value x) (T.value y)) }
    ensures in_range { T.fits (T.value result) }
    ensures nearest { IsQuotient (NearestBy half) (T.value x) (T.value y) (T.value result) }
{
    match half {
        Half::AwayFromZero => crate::rounding::div_round(x, y),
        Half::ToEven => crate::rounding::div_round_even(x, y),
    }
}
