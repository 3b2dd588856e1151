//! Years, their months and weeks, and their days.

ghost use Rattle.std.specs.Prelude.{◌≡◌, ◌+◌, ◌≤◌};
ghost use Rattle.calendar.specs.IsoWeeks.{HasIsoWeeks};
ghost use Rattle.calendar.specs.LeapYears.{is_leap_year};
ghost use Rattle.calendar.specs.Months.{days_before_month, days_in_month};
ghost use Rattle.calendar.specs.Years.{days_in_year};
ghost use Rattle.cellarcove_c.specs.Answers.{Answers};
ghost use Rattle.cellarcove_c.specs.Dates.{Exists};
ghost use Rattle.cellarcove_c.specs.Statuses.{StatusIs, no_date};

use crate::answers::{NO_DATE, U64Answer};
use crate::dates::Date;
use calendar::{days_in_month, days_in_year, is_leap_year, weeks_in_year};

/// Returns `true` if the year has a 29 February. For 2000 it is `true`, for 1900 it is `false`, for 0 it is
/// `true`, and for -1 it is `false`.
#[unsafe(no_mangle)]
pub extern "C" fn cellarcove_is_leap_year(year: i64) -> bool
    ensures { result ≡ is_leap_year year }
{
    is_leap_year(year)
}

/// Returns how many days the year has: 365 or 366. For 1900 it is 365, and for 2000 it is 366.
#[unsafe(no_mangle)]
pub extern "C" fn cellarcove_days_in_year(year: i64) -> u16
    ensures { result ≡ days_in_year year }
{
    days_in_year(year)
}

/// Returns how many weeks of ISO 8601 the year has: 52 or 53. For 2020 it is 53, and for 2021 it is 52.
#[unsafe(no_mangle)]
pub extern "C" fn cellarcove_weeks_in_year(year: i64) -> u8
    ensures { HasIsoWeeks year result }
{
    weeks_in_year(year)
}

/// Returns how many days the month has; January is 1. For 1900 and 2 it is 28, and for 2000 and 2 it is 29.
///
/// `NO_DATE` if `month` is not from 1 to 12.
#[unsafe(no_mangle)]
pub extern "C" fn cellarcove_days_in_month(year: i64, month: u8) -> U64Answer
    ensures { Answers ((1 ≤ month) × (month ≤ 12)) (λ days. days ≡ days_in_month year month)
        (StatusIs no_date) 0 result.status result.value }
{
    if (1..=12).contains(&month) {
        U64Answer::some(u64::from(days_in_month(year, month)))
    } else {
        U64Answer::none(NO_DATE)
    }
}

/// Returns the day of the year of a date; 1 January is 1. That of 2000-12-31 is 366.
///
/// `NO_DATE` if there is no such date.
#[unsafe(no_mangle)]
pub extern "C" fn cellarcove_day_of_year(date: Date) -> U64Answer
    ensures { Answers (Exists date)
        (λ day. day ≡ days_before_month date.year date.month + date.day_of_month)
        (StatusIs no_date) 0 result.status result.value }
{
    match date.found() {
        Some(found) => U64Answer::some(u64::from(found.day_of_year())),
        None => U64Answer::none(NO_DATE),
    }
}
