//! The midpoint of two numbers, and binary search.

ghost use Rattle.std.specs.Prelude.{◌≤◌, ◌≤ℤ◌, ◌<ℤ◌, ◌+ℤ◌, ◌-ℤ◌, pos, length, IsSortedByKey};
ghost use Rattle.std.specs.List.{AllWithin};
ghost use Rattle.std.specs.Ordering.{int_cmp};

use num_integer::operators::is_below;
use num_integer::{Average, Integer, average_floor};

/// Returns the midpoint of two numbers in either order, rounded down. Their sum need not fit.
/// `midpoint(2, 5)` is `3`, `midpoint(-2, -5)` is `-4`, and `midpoint(100i8, 120)` is `110`.
pub fn midpoint<T: Average>(a: T, b: T) -> T
    requires in_range { T.fits (T.value a) × T.fits (T.value b) }
    ensures in_range { T.fits (T.value result) }
    ensures no_farther { (T.value result -ℤ T.value a) ≤ℤ (T.value b -ℤ T.value result) }
    ensures one_nearer_at_most { (T.value b -ℤ T.value result)
        ≤ℤ (T.value result -ℤ T.value a +ℤ pos 1) }
{
    average_floor(a, b)
}

/// Returns the index of the first item of a sorted slice that is not less than `least`, or the length of the
/// slice if there is no such item. `lower_bound(&[1, 3, 3, 5], 3)` is `1`, and `lower_bound(&[1, 3], 4)` is `2`.
///
/// The items have to be sorted. In plain Rust, if they are not, the result is some place, as that of
/// `binary_search` of a slice is.
pub fn lower_bound<T: Integer + Copy>(items: &[T], least: T) -> usize
    requires sorted { IsSortedByKey T.value int_cmp items.now }
    ensures to_length { result ≤ length items.now }
    ensures below_before { AllWithin (λ x. T.value x <ℤ T.value least) items.now 0 result }
    ensures least_from { AllWithin (λ x. T.value least ≤ℤ T.value x) items.now result
        (length items.now) }
{
    let mut low = 0;
    let mut high = items.len();
    while low < high {
        let middle = midpoint(low, high);
        if is_below(items[middle], least) {
            low = middle + 1;
        } else {
            high = middle;
        }
    }
    low
}
