//! The roots of the native types, computed from the roots of their magnitudes.

ghost use Rattle.std.specs.Prelude.{◌≡◌, ◌≢◌, ◌%◌, ◌≤◌, ◌≤ℤ◌, pos};
ghost use Rattle.num_traits.specs.Laws.{bit_len};
ghost use Rattle.integer_roots.specs.RootOf.{IsRoot};
ghost use Rattle.integer_roots.specs.SquareRuns.{AreSquareRootIterations};

use crate::cube_root::cube_root;
use crate::root_of_degree::root_of_degree;
use crate::square_root::square_root_counted;
use integer_core::operators::zero;
use integer_core::{Magnitudes, NativeInteger};
use num_traits::PrimInt;

/// Returns the square root, and the number of iterations of its loops.
pub(crate) fn square_root_by_magnitude<T: NativeInteger<Magnitude = u64>>(x: T) -> (T, u32)
    requires in_range { T.fits (T.value x) }
    requires from_zero { pos 0 ≤ℤ T.value x }
    ensures in_range { T.fits (T.value result.0) }
    ensures root { IsRoot (T.value x) 2 (T.value result.0) }
    ensures iterations { AreSquareRootIterations (T.value x) result.1 }
    ensures bound { result.1 ≤ 5 }
{
    let (root, iterations) = square_root_counted(x.magnitude());
    (T::from_magnitude(root), iterations)
}

/// Returns the cube root.
pub(crate) fn cube_root_by_magnitude<T: NativeInteger<Magnitude = u64>>(x: T) -> T
    requires in_range { T.fits (T.value x) }
    ensures in_range { T.fits (T.value result) }
    ensures root { IsRoot (T.value x) 3 (T.value result) }
{
    x.with_magnitude(cube_root(x.magnitude(), bits::<T>()))
}

/// Returns the number of bits of the type.
fn bits<T: PrimInt>() -> u32
    ensures { result ≡ bit_len T.width }
{
    zero::<T>().leading_zeros()
}

/// Returns the root of degree `n`.
pub(crate) fn root_by_magnitude<T: NativeInteger<Magnitude = u64>>(x: T, n: u32) -> T
    requires in_range { T.fits (T.value x) }
    requires degree { n ≢ 0 }
    requires from_zero_where_even { n % 2 ≡ 0 → pos 0 ≤ℤ T.value x }
    ensures in_range { T.fits (T.value result) }
    ensures root { IsRoot (T.value x) n (T.value result) }
{
    match n {
        1 => x,
        2 => square_root_by_magnitude(x).0,
        3 => cube_root_by_magnitude(x),
        _ => x.with_magnitude(root_of_degree(x.magnitude(), n)),
    }
}
