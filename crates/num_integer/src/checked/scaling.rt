//! The checked quotient of a product.

ghost use Rattle.std.specs.Prelude.{◌≡◌, ◌≢◌, ◌<◌, ◌<ℤ◌, ◌≤ℤ◌, ◌*ℤ◌, pos, IsSome};
ghost use Rattle.integer_core.specs.Division.{IsFloored, IsQuotient};
ghost use Rattle.integer_core.specs.Range.{EachFits};
ghost use Rattle.num_integer.specs.Answers.{AnswersDivision};
ghost use Rattle.num_integer.specs.Checked.{AnswersWhere};
ghost use Rattle.num_integer.specs.Parts.{signed};

use crate::sign_magnitude::{number_of, parts_of, parts_of_product};
use integer_core::NativeInteger;
use integer_core::operators::{is_minus_one, is_zero};

/// Returns the quotient of `a * b` by `d`, rounded down, and its remainder, for a built-in type of at most 64
/// bits, or `None` if `d` is 0 or the quotient does not fit. `product_div_mod_floor(i64::MAX, 2, 3)` is
/// `Some((6148914691236517204, 2))`, and `product_div_mod_floor(i64::MAX, 3, 2)` is `None`.
///
/// The product need not fit: then it is computed in 128 bits. No wider type has the products of `i128`, `u128` or a type
/// of your own, so there call [`checked::product`](crate::checked::product) and then
/// [`checked::div_mod_floor`](crate::checked::div_mod_floor), if the product fits.
///
/// A part of a number is never `None`: if `a` and `b` are at least 0, and `b` is at most `d`, which is positive,
/// the quotient is at most `a`.
pub fn product_div_mod_floor<T: NativeInteger<Magnitude = u64>>(a: T, b: T, d: T) -> Option<(T, T)>
    requires a_in_range { T.fits (T.value a) }
    requires b_in_range { T.fits (T.value b) }
    requires d_in_range { T.fits (T.value d) }
    ensures answer { AnswersDivision IsFloored T.fits T.value (T.value a *ℤ T.value b) (T.value d) result }
    ensures within { pos 0 ≤ℤ T.value a → pos 0 ≤ℤ T.value b → T.value b ≤ℤ T.value d
        → pos 0 <ℤ T.value d → IsSome result }
{
    if is_zero(d) {
        return None;
    }
    match a.checked_mul(&b) {
        Some(product) if !is_minus_one(d) => Some(product.div_mod_floor(&d)),
        _ => wide_product_div_mod_floor(a, b, d),
    }
}

/// Returns the quotient of `a * b` by `d`, rounded down, and its remainder, computed in 128 bits, or `None` if the
/// quotient does not fit.
fn wide_product_div_mod_floor<T: NativeInteger<Magnitude = u64>>(a: T, b: T, d: T) -> Option<(T, T)>
    requires in_range { T.fits (T.value a) × T.fits (T.value b) × T.fits (T.value d) }
    requires nonzero { T.value d ≢ pos 0 }
    ensures { AnswersWhere
        (EachFits T.fits (IsQuotient IsFloored (T.value a *ℤ T.value b) (T.value d)))
        (λ r. T.fits (T.value r.0) × T.fits (T.value r.1)
        × IsFloored (T.value a *ℤ T.value b) (T.value d) (T.value r.0) (T.value r.1))
        result }
{
    let (product, divisor) = (parts_of_product(a, b), parts_of(d));
    let negative = product.0 != divisor.0;
    let (quotient, rest) = floored(negative, product.1, u128::from(divisor.1));
    let quotient = number_of((negative, quotient))?;
    let rest = number_of((divisor.0, rest))?;
    Some((quotient, rest))
}

/// Returns the magnitudes of the quotient by `d`, rounded down, and of its remainder, of the number with
/// this sign and this magnitude. The quotient has the same sign.
#[tactic(auto, using(crate::proofs::FlooredProducts::exact_floored, integer_core::proofs::NaturalDivision::natural_division))]
fn floored(negative: bool, magnitude: u128, d: u128) -> (u128, u128)
    requires { 0 < d }
    ensures { IsFloored (signed negative magnitude) (pos d) (signed negative result.0) (pos result.1) }
{
    let (quotient, rest) = (magnitude / d, magnitude % d);
    if negative && rest != 0 {
        (quotient + 1, d - rest)
    } else {
        (quotient, rest)
    }
}
