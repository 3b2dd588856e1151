//! Arrays added number by number.

ghost use Rattle.std.specs.Prelude.{◌≡◌, ◌↔◌, ◌+ℤ◌, pos, length, map, FitsSigned, IsTrue};
ghost use Rattle.std.specs.Int.{FitsUnsignedBits, w64};
ghost use Rattle.std.specs.List.{All};
ghost use Rattle.cellarcove_c.specs.ArraySums.{AreSums, SumsFit, WritesSums};

use crate::answers::{ANSWER, NOT_FITTING, OUTSIDE};
use crate::lists::read_each;
use num_integer::Fits;

/// Writes the sums of the numbers in the same places of `a` and `b`, and returns the status. Those of 2, -8 and 7
/// and of 3, 5 and -7 are 5, -3 and 0. If the status is not 0, `sums` stays as it is.
///
/// `OUTSIDE` if the three do not have the same length. `NOT_FITTING` if a sum does not fit.
#[unsafe(no_mangle)]
pub extern "C" fn cellarcove_checked_sum_each_i64(a: &[i64], b: &[i64], sums: &mut [i64]) -> u32
    ensures { WritesSums (FitsSigned w64) (λ x. x) a.now b.now sums.old result sums.new }
{
    read_each(a);
    read_each(b);
    write_sums(a, b, sums)
}

/// Writes the sums of the numbers in the same places of `a` and `b`, and returns the status. Those of 2, 8 and 7
/// and of 3, 5 and 0 are 5, 13 and 7. If the status is not 0, `sums` stays as it is.
///
/// `OUTSIDE` if the three do not have the same length. `NOT_FITTING` if a sum does not fit.
#[unsafe(no_mangle)]
pub extern "C" fn cellarcove_checked_sum_each_u64(a: &[u64], b: &[u64], sums: &mut [u64]) -> u32
    ensures { WritesSums (FitsUnsignedBits 64) (λ x. pos x) a.now b.now sums.old result sums.new }
{
    write_sums(a, b, sums)
}

/// Writes the sums, and returns the status.
fn write_sums<T: Fits>(a: &[T], b: &[T], sums: &mut [T]) -> u32
    requires a_in_range { All (λ x. T.fits (T.value x)) a.now }
    requires b_in_range { All (λ x. T.fits (T.value x)) b.now }
    ensures { WritesSums T.fits T.value a.now b.now sums.old result sums.new }
{
    if a.len() != b.len() || a.len() != sums.len() {
        return OUTSIDE;
    }
    if !each_sum_fits(a, b) {
        return NOT_FITTING;
    }
    add_each(a, b, sums);
    ANSWER
}

/// Returns whether each sum fits. The loop has no branch.
fn each_sum_fits<T: Fits>(a: &[T], b: &[T]) -> bool
    requires a_in_range { All (λ x. T.fits (T.value x)) a.now }
    requires b_in_range { All (λ x. T.fits (T.value x)) b.now }
    requires same { length b.now ≡ length a.now }
    ensures { IsTrue result ↔ SumsFit T.fits (map T.value a.now) (map T.value b.now) }
{
    let mut fit = true;
    for (i, x) in a.iter().enumerate() {
        fit &= x.sum_fits(&b[i]);
    }
    fit
}

/// Writes the sums, each of which fits.
fn add_each<T: Fits>(a: &[T], b: &[T], sums: &mut [T])
    requires same_b { length b.now ≡ length a.now }
    requires same { length sums.old ≡ length a.now }
    requires fit { SumsFit T.fits (map T.value a.now) (map T.value b.now) }
    ensures { AreSums (map T.value a.now) (map T.value b.now) (map T.value sums.new) }
{
    for (i, x) in a.iter().enumerate() {
        sums[i] = sum(*x, b[i]);
    }
}

/// Returns the sum, which fits.
fn sum<T: Fits>(x: T, y: T) -> T
    requires { T.fits (T.value x +ℤ T.value y) }
    ensures { T.value result ≡ T.value x +ℤ T.value y }
{
    x + y
}
