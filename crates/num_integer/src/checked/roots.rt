//! Checked roots.

ghost use Rattle.std.specs.Prelude.{◌≢◌, ◌≡◌, ◌%◌, ◌≤ℤ◌, pos};
ghost use Rattle.integer_roots.specs.RootOf.{IsRoot};
ghost use Rattle.num_integer.specs.Checked.{AnswersWhere};

use integer_core::operators::is_negative;
use integer_roots::Roots;

/// Returns [`Roots::nth_root`], the root of degree `n` rounded toward zero, or `None` if `n` is 0, or if
/// `n` is even and `x` is negative. `nth_root(-9, 3)` is `Some(-2)`, and `nth_root(-9, 2)` is `None`.
pub fn nth_root<T: Roots + Copy>(x: T, n: u32) -> Option<T>
    requires { T.fits (T.value x) }
    ensures { AnswersWhere
        ((n ≢ 0) × (n % 2 ≡ 0 → pos 0 ≤ℤ T.value x))
        (λ r. T.fits (T.value r) × IsRoot (T.value x) n (T.value r))
        result }
{
    if n != 0 && (n % 2 != 0 || !is_negative(x)) {
        Some(x.nth_root(n))
    } else {
        None
    }
}

/// Returns [`Roots::sqrt`], the square root rounded down, or `None` if `x` is negative. `sqrt(99)` is
/// `Some(9)`, and `sqrt(-1)` is `None`.
pub fn sqrt<T: Roots + Copy>(x: T) -> Option<T>
    requires { T.fits (T.value x) }
    ensures { AnswersWhere
        (pos 0 ≤ℤ T.value x)
        (λ r. T.fits (T.value r) × IsRoot (T.value x) 2 (T.value r))
        result }
{
    if is_negative(x) { None } else { Some(x.sqrt()) }
}
