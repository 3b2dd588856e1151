//! The strings of dates: known ones, the ends of `i64`, and strings that no date has.

ghost use Rattle.std.specs.Prelude.{IfErr, Some};
ghost use Rattle.anyhow.specs.Error.{HasMessage};
ghost use Rattle.calendar.specs.Text.{error_text};

use crate::tests::rows::{holds_at, is_written};
use anyhow::Result;
use calendar::{Date, DateError};
use std::process::Abort;

/// A year, a month and a day of the month.
pub(super) type Parts = (i64, u8, u8);

/// The date of a year, a month and a day of the month.
pub(super) fn date(rt: &impl Abort, (year, month, day_of_month): Parts) -> Date {
    Date::new(year, month, day_of_month).expect(rt, "there is such a date")
}

/// The parts of a date, and its string.
static TEXTS: [(Parts, &str); 12] = [
    ((2026, 11, 23), "2026-11-23"),
    ((1970, 1, 1), "1970-01-01"),
    ((9999, 12, 31), "9999-12-31"),
    ((10000, 1, 1), "+10000-01-01"),
    ((123456, 2, 3), "+123456-02-03"),
    ((7, 10, 9), "0007-10-09"),
    ((0, 2, 29), "0000-02-29"),
    ((-1, 12, 31), "-0001-12-31"),
    ((-9999, 1, 1), "-9999-01-01"),
    ((-10000, 1, 1), "-10000-01-01"),
    ((i64::MAX, 12, 31), "+9223372036854775807-12-31"),
    ((i64::MIN, 1, 1), "-9223372036854775808-01-01"),
];

/// Strings that no date has, with a `|` between each two.
static NO_TEXTS: &str =
    "|-|11-23|2026|2026-11|2026-11-2|2026-1-23|2026-11-23 | 2026-11-23|2026/11/23|20261123|2026-11-31|\
    1900-02-29|2026-00-01|2026-13-01|226-11-23|02026-11-23|+2026-11-23|10000-01-01|-0000-01-01|-1-12-31|\
    +9223372036854775808-12-31|2026-1é-3|２026-11-23";

#[test]
fn texts_of_dates(rt: HostRuntime) {
    for &(parts, text) in &TEXTS {
        let date = date(&rt, parts);
        is_written(&rt, rt.alloc(), &date, text);
        holds_at(&rt, text.parse() == Ok(date), &("parse", text));
    }
}

#[test]
fn texts_of_no_date(rt: HostRuntime) {
    for text in NO_TEXTS.split('|') {
        holds_at(&rt, text.parse::<Date>().is_err(), &("parse", text));
    }
}

/// The year of a date in a string, as a program reads it: the error is any error.
fn year_of_text(text: &str) -> Result<i64>
    ensures { IfErr result (λ error. HasMessage (Some error_text) error) }
{
    let date: Date = text.parse()?;
    Ok(date.year)
}

#[test]
fn text_of_the_error(rt: HostRuntime) {
    is_written(&rt, rt.alloc(), &DateError, "not the text of a date");
}

#[test]
fn years_of_texts(rt: HostRuntime) {
    for (text, year) in [("2026-11-23", Some(2026)), ("2026-11-31", None)] {
        let found = year_of_text(text).ok();
        holds_at(&rt, found == year, &("year_of_text", text));
    }
}
