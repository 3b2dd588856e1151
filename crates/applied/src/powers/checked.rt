//! The calls of this module that have a condition, without it. Each is `None` if the plain call may not be made.

ghost use Rattle.std.specs.Prelude.{◌≡◌, ◌<◌, ◌≤ℤ◌, ◌<ℤ◌, ◌+ℤ◌, ◌*ℤ◌, pos, IfSome};
ghost use Rattle.num_integer.specs.Checked.{AnswersWhere};
ghost use Rattle.num_integer.specs.RootOf.{IsRoot};
ghost use Rattle.applied.specs.Powers.{IsLogarithm};

use num_integer::operators::{is_below, is_negative, one, zero};
use num_integer::{Integer, Roots};

/// Returns [`sqrt_rem`](crate::powers::sqrt_rem), the square root and what is left, or `None` if `n` is
/// negative. `sqrt_rem(99)` is `Some((9, 18))`, and `sqrt_rem(-99)` is `None`.
pub fn sqrt_rem<T: Roots + Copy>(n: T) -> Option<(T, T)>
    requires { T.fits (T.value n) }
    ensures { AnswersWhere
        (pos 0 ≤ℤ T.value n)
        (λ r. T.fits (T.value r.0) × T.fits (T.value r.1)
        × IsRoot (T.value n) 2 (T.value r.0)
        × (T.value n ≡ T.value r.0 *ℤ T.value r.0 +ℤ T.value r.1)
        × (pos 0 ≤ℤ T.value r.1) × (T.value r.1 ≤ℤ (T.value r.0 +ℤ T.value r.0)))
        result }
{
    if is_negative(n) {
        None
    } else {
        Some(crate::powers::sqrt_rem(n))
    }
}

/// Returns [`ilog`](crate::powers::ilog), the integer logarithm, or `None` if `number` is below 1 or `base`
/// below 2. `ilog(1000, 10)` is `Some(3)`, `ilog(0, 10)` is `None`, and `ilog(1000, 1)` is `None`.
pub fn ilog<T: Integer + Copy>(number: T, base: T) -> Option<u32>
    requires in_range { T.fits (T.value number) × T.fits (T.value base) }
    ensures answer { AnswersWhere
        ((pos 0 <ℤ T.value number) × (pos 1 <ℤ T.value base))
        (λ k. IsLogarithm (T.value base) (T.value number) k)
        result }
    ensures few { IfSome result (λ k. k < 128) }
{
    if is_below(zero(), number) && is_below(one(), base) {
        Some(crate::powers::ilog(number, base))
    } else {
        None
    }
}
