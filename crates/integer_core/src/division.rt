//! Division of the native types.

ghost use Rattle.std.specs.Prelude.{◌≢◌, ◌↔◌, ◌⊎◌, ◌≤ℤ◌, ◌<ℤ◌, pos, IsTrue};
ghost use Rattle.integer_core.specs.Division.{IsFloored, IsQuotient, IsTruncated};
ghost use Rattle.integer_core.specs.Range.{EachFits};

use crate::fitting::{predecessor, sum};
use crate::native::Native;
use crate::operators::{is_negative, is_zero, quotient, remainder};
use num_traits::Num;

/// Returns the quotient rounded toward zero, and its remainder.
#[inline]
pub(crate) fn div_rem<T: Copy + Num>(n: T, d: T) -> (T, T)
    requires exact { T.exact }
    requires in_range { T.fits (T.value n) × T.fits (T.value d) }
    requires nonzero { T.value d ≢ pos 0 }
    requires quotient_fits { EachFits T.fits (IsQuotient IsTruncated (T.value n) (T.value d)) }
    ensures in_range { T.fits (T.value result.0) × T.fits (T.value result.1) }
    ensures truncated { IsTruncated (T.value n) (T.value d) (T.value result.0) (T.value result.1) }
{
    (quotient(n, d), remainder(n, d))
}

/// Returns the quotient rounded down, and its remainder.
pub(crate) fn div_mod_floor<T: Native>(n: T, d: T) -> (T, T)
    requires in_range { T.fits (T.value n) × T.fits (T.value d) }
    requires nonzero { T.value d ≢ pos 0 }
    requires quotient_fits { EachFits T.fits (IsQuotient IsFloored (T.value n) (T.value d)) }
    ensures in_range { T.fits (T.value result.0) × T.fits (T.value result.1) }
    ensures floored { IsFloored (T.value n) (T.value d) (T.value result.0) (T.value result.1) }
{
    let (q, r) = div_rem(n, d);
    if is_rounded_up(r, d) {
        (predecessor(q), sum(r, d))
    } else {
        (q, r)
    }
}

/// Returns `true` if rounding toward zero, which leaves the remainder `r` by `d`, rounds the quotient up.
/// `&` evaluates both tests, so there is no branch.
fn is_rounded_up<T: Copy + Num + PartialOrd>(r: T, d: T) -> bool
    requires { T.exact }
    ensures { IsTrue result ↔ ((T.value r ≢ pos 0)
        × (((T.value r <ℤ pos 0) × (pos 0 ≤ℤ T.value d)) ⊎ ((pos 0 ≤ℤ T.value r) × (T.value d <ℤ pos 0)))) }
{
    !is_zero(r) & (is_negative(r) != is_negative(d))
}
