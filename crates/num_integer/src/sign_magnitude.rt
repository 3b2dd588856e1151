//! Numbers as their sign and their magnitude: -5 is `(true, 5)`. The ends of a range are the magnitudes of its smallest and of its
//! largest number: those of `i8` are `(128, 127)`.

ghost use Rattle.std.specs.Prelude.{◌≡◌, ◌↔◌, ◌+◌, ◌<◌, ◌^◌, ◌+ℤ◌, ◌-ℤ◌, ◌*ℤ◌, pos, not, IsTrue};
ghost use Rattle.num_integer.specs.Answers.{AnswersNumber};
ghost use Rattle.num_integer.specs.Parts.{IsWithin, signed};

use integer_core::operators::is_negative;
use integer_core::{Magnitudes, NativeInteger};
use num_traits::cast;

/// Returns the sign and the magnitude of a number of a built-in type of at most 64 bits. `parts_of(-5)` is `(true, 5)`.
#[tactic(auto, using(crate::proofs::FittingAnswers::signed_is))]
pub fn parts_of<T: NativeInteger<Magnitude = u64>>(number: T) -> (bool, u64)
    requires { T.fits (T.value number) }
    ensures { signed result.0 result.1 ≡ T.value number }
{
    (is_negative(number), number.magnitude())
}

/// Returns the sign and the magnitude of `a * b`, which need not fit. `parts_of_product(-100i8, 100)` is `(true, 10000)`.
#[tactic(auto, using(crate::proofs::FlooredProducts::signed_product))]
pub fn parts_of_product<T: NativeInteger<Magnitude = u64>>(a: T, b: T) -> (bool, u128)
    requires { T.fits (T.value a) × T.fits (T.value b) }
    ensures { signed result.0 result.1 ≡ T.value a *ℤ T.value b }
{
    let (a, b) = (parts_of(a), parts_of(b));
    (a.0 != b.0, u128::from(a.1) * u128::from(b.1))
}

/// Returns the number with this sign and this magnitude, or `None` if it does not fit. `number_of::<i8>((true, 128))` is
/// `Some(-128)`.
pub fn number_of<T: NativeInteger<Magnitude = u64>>(number: (bool, u128)) -> Option<T>
    ensures { AnswersNumber T.fits T.value (signed number.0 number.1) result }
{
    let magnitude = i128::try_from(number.1).ok()?;
    cast::<i128, T>(if number.0 { -magnitude } else { magnitude })
}

/// Returns `true` if `a + b` lies in a range that contains `a`.
pub(crate) fn sum_is_within(a: (bool, u128), b: (bool, u128), ends: (u128, u128)) -> bool
    requires width { ends.0 + ends.1 < 2 ^ 128 }
    requires within { IsWithin ends.0 ends.1 (signed a.0 a.1) }
    ensures { IsTrue result ↔ IsWithin ends.0 ends.1 (signed a.0 a.1 +ℤ signed b.0 b.1) }
{
    b.1 <= distance_to_end(a, b.0, ends)
}

/// Returns the distance of `a` from an end of its range: from the lower end if `down`, and else from the
/// upper one.
fn distance_to_end(a: (bool, u128), down: bool, ends: (u128, u128)) -> u128
    requires width { ends.0 + ends.1 < 2 ^ 128 }
    requires within { IsWithin ends.0 ends.1 (signed a.0 a.1) }
    ensures down { IsTrue down → pos result ≡ pos ends.0 +ℤ signed a.0 a.1 }
    ensures up { IsTrue (not down) → pos result ≡ pos ends.1 -ℤ signed a.0 a.1 }
{
    let end = if down { ends.0 } else { ends.1 };
    if a.0 == down { end - a.1 } else { end + a.1 }
}

/// Returns `true` if `a * b` lies in the range.
pub(crate) fn product_is_within(a: (bool, u128), b: (bool, u128), ends: (u128, u128)) -> bool
    ensures { IsTrue result ↔ IsWithin ends.0 ends.1 (signed a.0 a.1 *ℤ signed b.0 b.1) }
{
    let end = if a.0 == b.0 { ends.1 } else { ends.0 };
    match a.1.checked_mul(b.1) {
        Some(magnitude) => magnitude <= end,
        None => false,
    }
}
