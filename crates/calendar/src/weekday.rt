//! The days of the week, their numbers and their names.

ghost use Rattle.std.specs.Prelude.{◌≡◌, ◌≢◌, ◌+◌, ◌%◌, ◌<◌, ◌≤◌, ◌+ℤ◌, pos, IfErr, IfOk, MatchOption, Some};
ghost use Rattle.std.specs.Fmt.{padded};
ghost use Rattle.integer_core.specs.Division.{IsFloored, IsRemainder};
ghost use Rattle.calendar.specs.Dates.{number_of};
ghost use Rattle.calendar.specs.Weekday.{iso_number, weekday_error_text, weekday_name, weekday_number};
ghost use Rattle.calendar.specs.Weeks.{HasWeekday, IsWeekdayAfter};

use crate::Date;
use integer_core::mod_floor;
use std::error::Error;
use std::fmt;
use std::str::FromStr;

/// A day of the week. It has no order, since weeks begin on different days in different places.
///
/// `Date::from_day_number(0).weekday()` is `Weekday::Thursday`.
#[derive(Debug, Clone, Copy, PartialEq, Eq, Hash)]
pub enum Weekday {
    /// Day 7 of a week of ISO 8601.
    Sunday,
    /// Day 1 of a week of ISO 8601.
    Monday,
    /// Day 2 of a week of ISO 8601.
    Tuesday,
    /// Day 3 of a week of ISO 8601.
    Wednesday,
    /// Day 4 of a week of ISO 8601.
    Thursday,
    /// Day 5 of a week of ISO 8601.
    Friday,
    /// Day 6 of a week of ISO 8601.
    Saturday,
}

impl Weekday {
    /// Returns the number of the day of the week in ISO 8601, from 1 for Monday to 7 for Sunday.
    /// `Weekday::Sunday.iso_number()` is `7`.
    pub const fn iso_number(self) -> u8
        ensures number { result ≡ iso_number self }
        ensures from_one { 1 ≤ result }
        ensures to_seven { result ≤ 7 }
    {
        (self.days_after_sunday() + 6) % 7 + 1
    }

    /// Returns the day of the week by its number in ISO 8601, or `None` if the number is not from 1 to 7.
    /// `Weekday::from_iso_number(7)` is `Some(Weekday::Sunday)`.
    pub const fn from_iso_number(number: u8) -> Option<Self>
        ensures { MatchOption result (¬ ((1 ≤ number) × (number ≤ 7)))
            (λ weekday. iso_number weekday ≡ number) }
    {
        match number {
            1..=7 => Some(weekday_after_sunday(number as u32)),
            _ => None,
        }
    }

    /// Returns the day of the week `days` days after this one, or before it if `days` is negative.
    /// `Weekday::Monday.plus_days(10)` is `Weekday::Thursday`, and `Weekday::Monday.plus_days(-1)` is
    /// `Weekday::Sunday`.
    pub fn plus_days(self, days: i64) -> Self
        ensures { IsWeekdayAfter self days result }
    {
        weekday_after_sunday(u32::from(self.days_after_sunday()) + mod_floor(days, 7) as u32)
    }

    /// Returns the English name.
    fn name(self) -> &'static str
        ensures { result.now ≡ weekday_name self }
    {
        match self {
            Self::Sunday => "Sunday",
            Self::Monday => "Monday",
            Self::Tuesday => "Tuesday",
            Self::Wednesday => "Wednesday",
            Self::Thursday => "Thursday",
            Self::Friday => "Friday",
            Self::Saturday => "Saturday",
        }
    }

    /// Returns the number of days from a Sunday to this day of the week.
    #[inline]
    pub(crate) const fn days_after_sunday(self) -> u8
        ensures value { result ≡ weekday_number self }
        ensures small { result < 7 }
    {
        self as u8
    }

    /// Returns the number of days from this day of the week to the next `other`, which is 0 if they are the
    /// same.
    pub(crate) fn days_until(self, other: Self) -> u8
        ensures value { weekday_number other ≡ (weekday_number self + result) % 7 }
        ensures small { result < 7 }
    {
        (other.days_after_sunday() + 7 - self.days_after_sunday()) % 7
    }
}

/// The error of a string that is not the name of a day of the week. `"Mon".parse::<Weekday>()` is
/// `Err(WeekdayError)`.
#[derive(Debug, Clone, Copy, PartialEq, Eq, Hash)]
pub struct WeekdayError;

impl fmt::Display for WeekdayError {
    ghost output = { λ _. Some weekday_error_text };

    ghost styled_output = { λ _ spec. Some (padded spec weekday_error_text) };

    fn fmt<W: fmt::Write>(&self, f: &mut fmt::Formatter<W>) -> fmt::Result {
        f.pad("not the name of a day of the week")
    }
}

impl Error for WeekdayError {}

/// Prints the English name. `Weekday::Monday.to_string()` is `"Monday"`.
impl fmt::Display for Weekday {
    ghost output = { λ weekday. Some (weekday_name weekday) };

    ghost styled_output = { λ weekday spec. Some (padded spec (weekday_name weekday)) };

    fn fmt<W: fmt::Write>(&self, f: &mut fmt::Formatter<W>) -> fmt::Result {
        f.pad(self.name())
    }
}

/// Parses exactly the names that `Display` prints. `"Monday".parse::<Weekday>()` is
/// `Ok(Weekday::Monday)`.
///
/// # Errors
///
/// - [`WeekdayError`] if the string is not the English name of a day of the week.
impl FromStr for Weekday {
    type Err = WeekdayError;

    ghost from_str_gives = { λ text result. IfOk result (λ weekday. text ≡ weekday_name weekday) × IfErr result (λ _. (weekday : _) → text ≢ weekday_name weekday) };

    fn from_str(text: &str) -> Result<Self, WeekdayError> {
        match text {
            "Sunday" => Ok(Self::Sunday),
            "Monday" => Ok(Self::Monday),
            "Tuesday" => Ok(Self::Tuesday),
            "Wednesday" => Ok(Self::Wednesday),
            "Thursday" => Ok(Self::Thursday),
            "Friday" => Ok(Self::Friday),
            "Saturday" => Ok(Self::Saturday),
            _ => Err(WeekdayError),
        }
    }
}

impl Date {
    /// Returns the day of the week. `Date::new(2000, 2, 29).unwrap().weekday()` is `Weekday::Tuesday`.
    #[tactic(auto, using(crate::proofs::WeekdayPlaces::weekday_in_era))]
    #[inline]
    pub const fn weekday(&self) -> Weekday
        ensures { HasWeekday (number_of self.now) result }
    {
        // An era is a whole number of weeks, and its day 0 is a Tuesday.
        let (_, day) = self.day_of_era();
        weekday_after_sunday(day + 2)
    }
}

/// Returns the day of the week of a day, counted from 1970-01-01, which is a Thursday.
/// `weekday_of(-1)` is `Weekday::Wednesday`.
#[inline]
pub fn weekday_of(day: i64) -> Weekday
    ensures { IsRemainder IsFloored (day +ℤ pos 4) (pos 7) (pos (weekday_number result)) }
{
    weekday_after_sunday(mod_floor(day, 7) as u32 + 4)
}

/// Returns the day of the week `days` days after a Sunday.
#[inline]
const fn weekday_after_sunday(days: u32) -> Weekday
    ensures { weekday_number result ≡ days % 7 }
{
    match days % 7 {
        0 => Weekday::Sunday,
        1 => Weekday::Monday,
        2 => Weekday::Tuesday,
        3 => Weekday::Wednesday,
        4 => Weekday::Thursday,
        5 => Weekday::Friday,
        _ => Weekday::Saturday,
    }
}
