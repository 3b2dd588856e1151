//! The lengths of the months, and the days of the year at which they begin.

ghost use Rattle.std.specs.Prelude.{◌≡◌, ◌+◌, ◌<◌, ◌≤◌};
ghost use Rattle.calendar.specs.Months.{IsDate, days_before_month, days_in_month};
ghost use Rattle.calendar.specs.Years.{days_in_year};

use crate::eras::{DAYS_FROM_MARCH, days_from_march, from_march_on, month_and_day};
use crate::{days_in_year, is_leap_year};
use integer_core::guards::check;

/// Returns how many days the month has. `days_in_month(1900, 2)` is `28`.
///
/// Month 1 is January.
///
/// # Panics
///
/// In plain Rust, if `month` is 0 or above 12.
pub const fn days_in_month(year: i64, month: u8) -> u8
    requires from_one { 1 ≤ month }
    requires to_twelve { month ≤ 12 }
    ensures days { result ≡ days_in_month year month }
    ensures from_28 { 28 ≤ result }
    ensures to_31 { result ≤ 31 }
{
    check(month >= 1, "no month has the number 0");
    check(month <= 12, "no month has a number above 12");
    length_of_month(year, month)
}

/// Returns how many days the month has.
#[inline]
pub(crate) const fn length_of_month(year: i64, month: u8) -> u8
    requires from_one { 1 ≤ month }
    requires to_twelve { month ≤ 12 }
    ensures days { result ≡ days_in_month year month }
    ensures from_28 { 28 ≤ result }
    ensures to_31 { result ≤ 31 }
{
    if month == 2 {
        if is_leap_year(year) { 29 } else { 28 }
    } else {
        // Up to July the odd months have 31 days, and from August on the even ones.
        30 + (month + month / 8) % 2
    }
}

/// Returns how many days of the year come before the month.
#[tactic(auto, using(crate::proofs::MarchYears::month_steps))]
#[inline]
pub(crate) const fn days_before_month(year: i64, month: u8) -> u16
    requires from_one { 1 ≤ month }
    requires to_twelve { month ≤ 12 }
    ensures { result ≡ days_before_month year month }
{
    days_from_march(month) + from_march_on(month) * days_in_year(year) - DAYS_FROM_MARCH as u16
}

/// Returns the month and the day of the month `days` days after 1 January of `year`.
#[tactic(auto, using(crate::proofs::MarchYears::month_steps))]
#[inline]
pub(crate) const fn month_and_day_in_year(year: i64, days: u16) -> (u8, u8)
    requires { days < days_in_year year }
    ensures date { IsDate year result.0 result.1 }
    ensures day { days_before_month year result.0 + result.1 ≡ days + 1 }
{
    let march = days_before_month(year, 3);
    let from_march = if days < march {
        days + DAYS_FROM_MARCH as u16
    } else {
        days - march
    };
    month_and_day(from_march as u32)
}
