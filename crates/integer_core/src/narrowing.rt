//! The narrowing of an `i128` to a narrower type.

ghost use Rattle.std.specs.Prelude.{◌≡◌, MatchOption};
ghost use Rattle.integer_core.specs.Narrowing.{Narrows};

use num_traits::Num;
use std::num::TryFromIntError;

/// Returns the number in a narrower type, or `None` if it does not fit. `narrowed::<i8>(127)` is
/// `Some(127)`, and `narrowed::<i8>(128)` is `None`.
#[inline]
pub fn narrowed<T: Num + TryFrom<i128, Error = TryFromIntError>>(number: i128) -> Option<T>
    requires { Narrows T.value T.fits T.try_from_gives }
    ensures { MatchOption result (¬ (T.fits number)) (λ x. T.fits number × (T.value x ≡ number)) }
{
    T::try_from(number).ok()
}
