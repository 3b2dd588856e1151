//! Averages. Those of the native types are computed from the bits of both numbers.

ghost use Rattle.integer_roots.specs.Averages.{IsAverageCeil, IsAverageFloor};

use integer_core::{Integer, NativeInteger};

/// Averages of two integers. They never overflow: `i64::MAX.average_ceil(&i64::MAX)` is `i64::MAX`.
pub trait Average: Integer {
    /// Returns the average rounded down. `(-2).average_floor(&-5)` is `-4`, and `3.average_floor(&10)` is `6`.
    fn average_floor(&self, other: &Self) -> Self
        requires self_in_range { Self.fits (Self.value self.now) }
        requires other_in_range { Self.fits (Self.value other.now) }
        ensures in_range { Self.fits (Self.value result) }
        ensures floor { IsAverageFloor (Self.value self.now) (Self.value other.now)
            (Self.value result) };

    /// Returns the average rounded up. `(-2).average_ceil(&-5)` is `-3`.
    fn average_ceil(&self, other: &Self) -> Self
        requires self_in_range { Self.fits (Self.value self.now) }
        requires other_in_range { Self.fits (Self.value other.now) }
        ensures in_range { Self.fits (Self.value result) }
        ensures ceil { IsAverageCeil (Self.value self.now) (Self.value other.now)
            (Self.value result) };
}

/// Returns the average rounded down, as [`Average::average_floor`]. `average_floor(3, 10)` is `6`.
pub fn average_floor<T: Average>(x: T, y: T) -> T
    requires x_in_range { T.fits (T.value x) }
    requires y_in_range { T.fits (T.value y) }
    ensures in_range { T.fits (T.value result) }
    ensures floor { IsAverageFloor (T.value x) (T.value y) (T.value result) }
{
    x.average_floor(&y)
}

/// Returns the average rounded up, as [`Average::average_ceil`]. `average_ceil(3, 10)` is `7`.
pub fn average_ceil<T: Average>(x: T, y: T) -> T
    requires x_in_range { T.fits (T.value x) }
    requires y_in_range { T.fits (T.value y) }
    ensures in_range { T.fits (T.value result) }
    ensures ceil { IsAverageCeil (T.value x) (T.value y) (T.value result) }
{
    x.average_ceil(&y)
}

impl<T: NativeInteger> Average for T {
    fn average_floor(&self, other: &T) -> T {
        both_averages(*self, *other).0
    }

    fn average_ceil(&self, other: &T) -> T {
        both_averages(*self, *other).1
    }
}

/// Returns the averages rounded down and up. The first is the sum of the bits that both numbers have and
/// half of those that only one has; the second is the bits that either has, minus that half.
fn both_averages<T: NativeInteger>(a: T, b: T) -> (T, T)
    requires in_range { T.fits (T.value a) × T.fits (T.value b) }
    ensures in_range { T.fits (T.value result.0) × T.fits (T.value result.1) }
    ensures floor { IsAverageFloor (T.value a) (T.value b) (T.value result.0) }
    ensures ceil { IsAverageCeil (T.value a) (T.value b) (T.value result.1) }
{
    let both = a & b;
    let either = a | b;
    let half = (a ^ b) >> 1;
    (both + half, either - half)
}
