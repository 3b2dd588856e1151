//! Divisors and multiples of the native types.

ghost use Rattle.std.specs.Prelude.{◌↔◌, IsTrue};
ghost use Rattle.integer_core.specs.Divisors.{Divides, IsEven};

use crate::fitting::sum;
use crate::native::Native;
use crate::operators::{is_minus_one, is_zero, one, remainder};

/// Returns `true` if `d` divides `n`.
pub(crate) fn is_multiple_of<T: Native>(n: T, d: T) -> bool
    requires in_range { T.fits (T.value n) × T.fits (T.value d) }
    ensures { IsTrue result ↔ Divides (T.value d) (T.value n) }
{
    if is_zero(d) {
        is_zero(n)
    } else if is_minus_one(d) {
        true
    } else {
        is_zero(remainder(n, d))
    }
}

/// Returns `true` if `n` is even.
pub(crate) fn is_even<T: Native>(n: T) -> bool
    requires { T.fits (T.value n) }
    ensures { IsTrue result ↔ IsEven (T.value n) }
{
    is_multiple_of(n, sum(one(), one()))
}
