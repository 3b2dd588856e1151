//! Square roots by Newton's method, at 64 bits.

ghost use Rattle.std.specs.Prelude.{◌≡◌, ◌≤◌, ◌^◌, pos};
ghost use Rattle.integer_roots.specs.SquareRuns.{AreSquareRootIterations, square_step};
ghost use Rattle.integer_roots.specs.RootOf.{IsFloorRoot};

use crate::newton::newton;

/// Returns the square root of `a`, and the number of iterations of the two loops. The first guess is a
/// power of two near the root. If it is below the root, the first loop steps up; the second steps down.
#[allow(clippy::manual_div_ceil)] // as it was proved
pub(crate) fn square_root_counted(a: u64) -> (u64, u32)
    ensures root { IsFloorRoot (pos a) 2 (pos result.0) }
    ensures iterations { AreSquareRootIterations (pos a) result.1 }
    ensures bound { result.1 ≤ 5 }
{
    if a < 4 {
        return (u64::from(a > 0), 0);
    }
    let step = move |x: u64| -> u64
        requires above_one { 2 ≤ x }
        requires small { x ≤ 2 ^ 34 }
        ensures { result ≡ square_step a x }
    { (a / x + x) / 2 };
    newton(1 << ((a.ilog2() + 1) / 2), step)
}
