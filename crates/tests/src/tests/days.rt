//! The iterator over dates from both ends, empty ranges, and the ends of `i64`. Its other methods and more ranges are in
//! `rust/tests/days.rs`.

use super::rows::holds_at;
use calendar::{Date, Days};
use std::alloc::Global;
use std::process::Abort;

/// The dates from a first one to the day before an end. `"2024-02-28 2024-03-01: 2024-02-28 2024-02-29"` has two.
static RANGES: &[&str] = &[
    "2024-02-27 2024-03-02: 2024-02-27 2024-02-28 2024-02-29 2024-03-01",
    "1900-02-27 1900-03-02: 1900-02-27 1900-02-28 1900-03-01",
    "-0001-12-30 0000-01-02: -0001-12-30 -0001-12-31 0000-01-01",
    "-9223372036854775808-01-01 -9223372036854775808-01-03: -9223372036854775808-01-01 -9223372036854775808-01-02",
    "+9223372036854775807-12-29 +9223372036854775807-12-31: +9223372036854775807-12-29 +9223372036854775807-12-30",
    "2024-03-01 2024-03-01: []",
    "2024-03-01 2024-02-29: []",
    "-9223372036854775808-01-01 -9223372036854775808-01-01: []",
    "+9223372036854775807-12-31 +9223372036854775807-12-31: []",
    "+9223372036854775807-12-31 -9223372036854775808-01-01: []",
];

fn date(rt: &impl Abort, text: &str) -> Date {
    text.parse().expect(rt, "it is the text of a date")
}

/// The dates from the first of the two to the day before the second.
fn days_of(rt: &impl Abort, range: &str) -> Days {
    let (from, end) = range.split_once(' ').expect(rt, "the range has an end");
    date(rt, from).days_until(date(rt, end))
}

/// The dates of a text, with a space between each two, and none for `[]`.
fn dates_of(rt: &impl Abort, alloc: Global, text: &str) -> Vec<Date> {
    let mut dates = Vec::new(alloc);
    if text != "[]" {
        for text in text.split(' ') {
            dates.push(date(rt, text)).expect(rt, "memory is left");
        }
    }
    dates
}

/// Returns `true` if `days` yields exactly these dates: of each two, the first `backs` from the back and the others from the front.
fn yields(mut days: Days, dates: &[Date], backs: usize) -> bool {
    let (mut first, mut same) = (0usize, true);
    for taken in 0..dates.len() {
        let left = dates.len().wrapping_sub(taken);
        same &= days.len() == Some(left) && !days.is_empty();
        if taken % 2 < backs {
            let last = first.wrapping_add(left).wrapping_sub(1);
            same &= days.next_back() == dates.get(last).copied();
        } else {
            same &= days.next() == dates.get(first).copied();
            first = first.wrapping_add(1);
        }
    }
    same && days.is_empty() && days.next().is_none() && days.next_back().is_none()
}

#[test]
fn dates_of_ranges(rt: HostRuntime) {
    for row in RANGES {
        let (range, dates) = row.split_once(": ").expect(&rt, "the row has dates");
        let dates = dates_of(&rt, rt.alloc(), dates);
        for backs in 0..=2 {
            let same = yields(days_of(&rt, range), &dates, backs);
            holds_at(&rt, same, &(row, backs));
        }
    }
}

/// Ranges, and how many dates there are, or `beyond` if `usize` lacks that number.
static LENGTHS: &[&str] = &[
    "1970-01-01 2370-01-01: 146097",
    "-9223372036854775808-01-01 -9172866566999242699-02-21: 18446744073709551615",
    "-9223372036854775808-01-01 -9172866566999242699-02-22: beyond",
    "+9172866566999242698-11-09 +9223372036854775807-12-31: 18446744073709551615",
    "-9223372036854775808-01-01 +9223372036854775807-12-31: beyond",
];

#[test]
fn lengths_of_ranges(rt: HostRuntime) {
    for row in LENGTHS {
        let (range, length) = row.split_once(": ").expect(&rt, "the row has a length");
        let (days, length) = (days_of(&rt, range), length.parse::<usize>().ok());
        let found = (days.len(), days.size_hint().1);
        holds_at(&rt, found == (length, length), row);
    }
}
