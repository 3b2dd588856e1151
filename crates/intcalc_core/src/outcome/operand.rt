//! Operands at the type of a kind, and answers of their numbers.

ghost use Rattle.std.specs.Prelude.{◌≡◌, ◌↔◌, ◌≤ℤ◌, pos, IsTrue, MatchResult};
ghost use Rattle.intcalc_core.specs.declared.calls.Answer.TheVariants as answers;
ghost use Rattle.intcalc_core.specs.declared.calls.Refusal.TheVariants as refusals;
ghost use Rattle.num_integer.specs.RootOf.{IsWithin64Bits};
ghost use Rattle.num_integer.specs.Narrowing.{Narrows};

use crate::calls::{Answer, Refusal};
use num_integer::narrowing::narrowed;
use num_integer::{Fits, Integer, Roots};
use num_traits::AsPrimitive;
use std::num::TryFromIntError;

/// The type of a kind. Its numbers have at most 64 bits, so that `i128` has each of them.
pub(crate) trait Operand: Fits + AsPrimitive<i128> {
    ghost within_law: { IsWithin64Bits Self.low Self.high };
}

impl<T: Roots + Fits + AsPrimitive<i128>> Operand for T {
    ghost within_law = { T.Roots.width_law };
}

/// Returns the value of the type that means `n`, or `OutOfType` if it has no such value.
pub(crate) fn narrow<T: Integer + TryFrom<i128, Error = TryFromIntError>>(
    n: i128,
) -> Result<T, Refusal>
    requires { Narrows T.value T.fits T.try_from_gives }
    ensures { MatchResult result (λ x. (T.value x ≡ n) × T.fits n)
        (λ refusal. (refusal ≡ refusals.OutOfType) × ¬ (T.fits n)) }
{
    narrowed(n).ok_or(Refusal::OutOfType)
}

/// Returns the values that mean `a` and `b`, or `OutOfType` if the type has no such value of one of them.
pub(crate) fn narrow_both<T: Integer + TryFrom<i128, Error = TryFromIntError>>(
    a: i128,
    b: i128,
) -> Result<(T, T), Refusal>
    requires { Narrows T.value T.fits T.try_from_gives }
    ensures { MatchResult result
        (λ pair. ((T.value pair.0 ≡ a) × T.fits a) × ((T.value pair.1 ≡ b) × T.fits b))
        (λ refusal. (refusal ≡ refusals.OutOfType) × ¬ (T.fits a × T.fits b)) }
{
    Ok((narrow(a)?, narrow(b)?))
}

/// Returns the number that `x` means.
pub(crate) fn widen<T: Operand>(x: T) -> i128
    requires { T.fits (T.value x) }
    ensures { result ≡ T.value x }
{
    x.as_()
}

/// Returns the answer of two numbers.
pub(crate) fn two<T: Operand>(pair: (T, T)) -> Answer
    requires first_in_range { T.fits (T.value pair.0) }
    requires second_in_range { T.fits (T.value pair.1) }
    ensures { result ≡ answers.Two (T.value pair.0) (T.value pair.1) }
{
    Answer::Two(widen(pair.0), widen(pair.1))
}

/// Returns the answer of three numbers.
pub(crate) fn three<T: Operand>(x: T, y: T, z: T) -> Answer
    requires x_in_range { T.fits (T.value x) }
    requires y_in_range { T.fits (T.value y) }
    requires z_in_range { T.fits (T.value z) }
    ensures { result ≡ answers.Three (T.value x) (T.value y) (T.value z) }
{
    Answer::Three(widen(x), widen(y), widen(z))
}

/// Returns whether the number is not negative.
pub(crate) fn is_from_zero<T: Fits>(x: T) -> bool
    requires in_range { T.fits (T.value x) }
    ensures { IsTrue result ↔ (pos 0 ≤ℤ T.value x) }
{
    !x.parts().0
}
