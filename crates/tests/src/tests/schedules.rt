//! The times of a schedule, against counts by Python's integers.

use super::rows::holds_at;
use applied::schedules::{Schedule, count};

const MIN: i64 = i64::MIN;

const MAX: i64 = i64::MAX;

/// The first and the last time of a range, the first time and the period of a schedule, and how many of its times are in
/// the range, or `None` if the type cannot hold that number.
type Range<T> = (T, T, (T, T), Option<T>);

static RANGES: [Range<i64>; 22] = [
    (4, 15, (3, 6), Some(2)),
    (-9, 15, (3, 6), Some(3)),
    (-9, 2, (3, 6), Some(0)),
    (3, 3, (3, 6), Some(1)),
    (4, 8, (3, 6), Some(0)),
    (15, 4, (3, 6), Some(0)),
    (-20, 20, (-7, 5), Some(6)),
    (0, 20000, (11, 7), Some(2856)),
    (MIN, MAX, (MIN, 1), None),
    (MIN, MAX, (MIN, 2), None),
    (MIN, MAX, (MIN, 3), Some(6148914691236517206)),
    (MIN, MAX, (MIN, MAX), Some(3)),
    (MIN, MAX, (0, 1), None),
    (MIN, MAX, (1, 1), Some(MAX)),
    (MIN, -1, (MIN, 1), None),
    (MIN, -2, (MIN, 1), Some(MAX)),
    (MIN, MIN, (MIN, MAX), Some(1)),
    (MAX, MIN, (MIN, 1), Some(0)),
    (MAX, MAX, (MAX, 1), Some(1)),
    (MAX, MAX, (MIN, MAX), Some(0)),
    (MAX - 1, MAX, (MIN, 2), Some(1)),
    (0, MAX, (MAX, MAX), Some(1)),
];

static SMALL_RANGES: [Range<i8>; 7] = [
    (-128, 127, (-128, 1), None),
    (-128, 127, (-128, 2), None),
    (-128, 127, (-128, 3), Some(86)),
    (-128, 127, (0, 1), None),
    (-128, 127, (1, 1), Some(127)),
    (100, 127, (-128, 9), Some(3)),
    (0, 127, (-128, 127), Some(1)),
];

#[test]
fn times_in_a_range(rt: HostRuntime) {
    for row in &RANGES {
        let &(from, to, (first, period), expected) = row;
        let schedule = Schedule { first, period };
        holds_at(&rt, period > 0, row);
        holds_at(&rt, count(from, to, schedule) == expected, row);
    }
    for row in &SMALL_RANGES {
        let &(from, to, (first, period), expected) = row;
        let schedule = Schedule { first, period };
        holds_at(&rt, period > 0, row);
        holds_at(&rt, count(from, to, schedule) == expected, row);
    }
}
