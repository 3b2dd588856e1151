//! Dates of the proleptic Gregorian calendar, and days counted from 1970-01-01, which is day 0.

ghost use Rattle.std.specs.Prelude.{◌≡◌, ◌⊎◌, ◌↔◌, ◌+◌, ◌≤◌, ◌+ℤ◌, ◌-ℤ◌, ℕ, ℤ, pos, FitsSigned, MatchOption};
ghost use Rattle.std.specs.Int.{w64};
ghost use Rattle.calendar.specs.Dates.{HasParts, number_of};
ghost use Rattle.calendar.specs.Easter.{IsEaster};
ghost use Rattle.calendar.specs.IsoWeeks.{HasIsoWeek, IsDayOfIsoWeek, IsInIsoWeek};
ghost use Rattle.calendar.specs.Months.{IsDate, days_before_month};
ghost use Rattle.calendar.specs.Weekday.{iso_number};
ghost use Rattle.calendar.specs.Years.{day_number, days_in_year};
ghost use Rattle.calendar.specs.declared.weekday.Weekday.{Weekday};
ghost use Rattle.num_integer.specs.Checked.{AnswersWhere};
ghost use Rattle.cellarcove_c.specs.Answers.{Answers, Refuses};
ghost use Rattle.cellarcove_c.specs.Dates.{Exists, IsDayBeyond, IsMonthsLater, MatchMonthsBetween, MatchYearsBetween, day_of, zero_date};
ghost use Rattle.cellarcove_c.specs.Statuses.{StatusIsOneOf, StatusIs, answer_of, no_date, not_fitting, outside};

use crate::answers::{ANSWER, I64Answer, NO_DATE, NOT_FITTING, OUTSIDE};
use calendar::{Weekday, days_between, easter, months_between, weeks_in_year, years_between};

/// A year, a month and a day of the month. The year before year 1 is year 0. January is month 1.
#[repr(C)]
#[derive(Clone, Copy)]
pub struct Date {
    pub year: i64,
    pub month: u8,
    pub day_of_month: u8,
}

/// A status, and a date.
#[repr(C)]
#[derive(Clone, Copy)]
pub struct DateAnswer {
    pub status: u32,
    pub date: Date,
}

/// A status, and a week of ISO 8601 with its year, which is that of its Thursday.
#[repr(C)]
#[derive(Clone, Copy)]
pub struct IsoWeekAnswer {
    pub status: u32,
    pub week: u8,
    pub year: i64,
}

/// Returns the date of a day, counted from 1970-01-01, which is day 0. That of -1 is 1969-12-31.
#[unsafe(no_mangle)]
pub extern "C" fn cellarcove_date_from_day(day: i64) -> Date
    ensures date { Exists result }
    ensures day { day_of result ≡ day }
{
    Date::of(&calendar::Date::from_day_number(day))
}

/// Returns the day of a date, counted from 1970-01-01, which is day 0. That of 1969-12-31 is -1.
///
/// `NO_DATE` if there is no such date. `NOT_FITTING` if its day does not fit.
#[unsafe(no_mangle)]
pub extern "C" fn cellarcove_day_from_date(date: Date) -> I64Answer
    ensures answer { AnswersWhere (Exists date × FitsSigned w64 (day_of date))
        (λ day. day ≡ day_of date) (answer_of result.status result.value) }
    ensures no_date { (result.status ≡ no_date) ↔ (¬ (Exists date)) }
    ensures refusal { Refuses (StatusIsOneOf no_date not_fitting) (pos 0) result.status result.value }
{
    match date.found() {
        Some(found) => I64Answer::of(found.day_number(), NOT_FITTING),
        None => I64Answer::none(NO_DATE),
    }
}

/// Returns the date `days` days after a date, or before it if `days` is negative. That of 2000-03-01
/// and -1 is 2000-02-29.
///
/// `NO_DATE` if there is no such date. `NOT_FITTING` if the year of the result does not fit.
#[unsafe(no_mangle)]
#[tactic(auto, using(crate::proofs::NumbersReadBack::read_back))]
pub extern "C" fn cellarcove_plus_days(date: Date, days: i64) -> DateAnswer
    ensures answer { result.status ≡ 0
        → Exists result.date × (day_of result.date ≡ day_of date +ℤ days) }
    ensures no_date { (result.status ≡ no_date) ↔ (¬ (Exists date)) }
    ensures not_fitting { result.status ≡ not_fitting → (year : ℤ) (month day : ℕ)
        → IsDate year month day → day_number year month day ≡ day_of date +ℤ days
        → ¬ (FitsSigned w64 year) }
    ensures refusal { Refuses (StatusIsOneOf no_date not_fitting) zero_date result.status result.date }
{
    match date.found() {
        Some(found) => match found.plus_days(days) {
            Some(later) => DateAnswer::some(&later),
            None => DateAnswer::none(NOT_FITTING),
        },
        None => DateAnswer::none(NO_DATE),
    }
}

/// Returns the date `days` days before a date, or after it if `days` is negative. That of 2000-03-01
/// and 1 is 2000-02-29.
///
/// `NO_DATE` if there is no such date. `NOT_FITTING` if the year of the result does not fit.
#[unsafe(no_mangle)]
#[tactic(auto, using(crate::proofs::NumbersReadBack::read_back))]
pub extern "C" fn cellarcove_minus_days(date: Date, days: i64) -> DateAnswer
    ensures answer { result.status ≡ 0
        → Exists result.date × (day_of result.date ≡ day_of date -ℤ days) }
    ensures no_date { (result.status ≡ no_date) ↔ (¬ (Exists date)) }
    ensures not_fitting { result.status ≡ not_fitting → (year : ℤ) (month day : ℕ)
        → IsDate year month day → day_number year month day ≡ day_of date -ℤ days
        → ¬ (FitsSigned w64 year) }
    ensures refusal { Refuses (StatusIsOneOf no_date not_fitting) zero_date result.status result.date }
{
    match date.found() {
        Some(found) => match found.minus_days(days) {
            Some(earlier) => DateAnswer::some(&earlier),
            None => DateAnswer::none(NOT_FITTING),
        },
        None => DateAnswer::none(NO_DATE),
    }
}

/// Returns the number of days from one date to another, negative if the other is earlier. For 2000-03-01 and
/// 2000-02-28 it is -2.
///
/// `NO_DATE` if there is no such date. `NOT_FITTING` if the number does not fit.
#[unsafe(no_mangle)]
#[tactic(auto, using(crate::proofs::NumbersReadBack::read_back))]
pub extern "C" fn cellarcove_days_between(from: Date, to: Date) -> I64Answer
    ensures answer { Exists from → Exists to
        → AnswersWhere (FitsSigned w64 (day_of to -ℤ day_of from))
        (λ days. days ≡ day_of to -ℤ day_of from) (answer_of result.status result.value) }
    ensures no_date { (result.status ≡ no_date) ↔ ((¬ (Exists from)) ⊎ (¬ (Exists to))) }
    ensures refusal { Refuses (StatusIsOneOf no_date not_fitting) (pos 0) result.status result.value }
{
    match from.found() {
        Some(first) => match to.found() {
            Some(last) => I64Answer::of(days_between(&first, &last), NOT_FITTING),
            None => I64Answer::none(NO_DATE),
        },
        None => I64Answer::none(NO_DATE),
    }
}

/// Returns the date `months` months after a date, or before it if `months` is negative. Its day of the
/// month is the same, or the last one if its month is shorter. That of 2000-01-31 and 1 is 2000-02-29.
///
/// `NO_DATE` if there is no such date. `NOT_FITTING` if the year of the result does not fit.
#[unsafe(no_mangle)]
pub extern "C" fn cellarcove_plus_months(date: Date, months: i64) -> DateAnswer
    ensures answer { result.status ≡ 0 → Exists result.date
        × IsMonthsLater date.year date.month date.day_of_month months result.date.year
        result.date.month result.date.day_of_month }
    ensures no_date { (result.status ≡ no_date) ↔ (¬ (Exists date)) }
    ensures not_fitting { result.status ≡ not_fitting
        → (year : ℤ) (month day : ℕ) → IsDate year month day
        → IsMonthsLater date.year date.month date.day_of_month months year month day
        → ¬ (FitsSigned w64 year) }
    ensures refusal { Refuses (StatusIsOneOf no_date not_fitting) zero_date result.status result.date }
{
    match date.found() {
        Some(found) => match found.plus_months(months) {
            Some(later) => DateAnswer::some(&later),
            None => DateAnswer::none(NOT_FITTING),
        },
        None => DateAnswer::none(NO_DATE),
    }
}

/// Returns the largest number of months that leads from one date to a date not after another, negative
/// if the other is earlier. For 2000-01-31 and 2000-02-29 it is 1, and for 2000-03-31 and 2000-03-30 it is -1.
///
/// `NO_DATE` if a date does not exist. `NOT_FITTING` if the number does not fit.
#[unsafe(no_mangle)]
pub extern "C" fn cellarcove_months_between(from: Date, to: Date) -> I64Answer
    ensures answer { Exists from → Exists to
        → MatchMonthsBetween from.year from.month from.day_of_month to.year to.month to.day_of_month
        (answer_of result.status result.value) }
    ensures no_date { (result.status ≡ no_date) ↔ ((¬ (Exists from)) ⊎ (¬ (Exists to))) }
    ensures refusal { Refuses (StatusIsOneOf no_date not_fitting) (pos 0) result.status result.value }
{
    match from.found() {
        Some(first) => match to.found() {
            Some(last) => I64Answer::of(months_between(&first, &last), NOT_FITTING),
            None => I64Answer::none(NO_DATE),
        },
        None => I64Answer::none(NO_DATE),
    }
}

/// Returns the largest number of years that leads from one date to a date not after another, negative if
/// the other is earlier. For 2000-02-29 and 2025-02-28 it is 25, and for 2000-03-31 and 2000-03-30 it is -1.
///
/// `NO_DATE` if a date does not exist. `NOT_FITTING` if the number does not fit.
#[unsafe(no_mangle)]
pub extern "C" fn cellarcove_years_between(from: Date, to: Date) -> I64Answer
    ensures answer { Exists from → Exists to
        → MatchYearsBetween from.year from.month from.day_of_month to.year to.month to.day_of_month
        (answer_of result.status result.value) }
    ensures no_date { (result.status ≡ no_date) ↔ ((¬ (Exists from)) ⊎ (¬ (Exists to))) }
    ensures refusal { Refuses (StatusIsOneOf no_date not_fitting) (pos 0) result.status result.value }
{
    match from.found() {
        Some(first) => match to.found() {
            Some(last) => I64Answer::of(years_between(&first, &last), NOT_FITTING),
            None => I64Answer::none(NO_DATE),
        },
        None => I64Answer::none(NO_DATE),
    }
}

/// Returns the date of a day of a year; 1 January is day 1. That of 2000 and 60 is 2000-02-29.
///
/// `NO_DATE` if the year has no such day.
#[unsafe(no_mangle)]
pub extern "C" fn cellarcove_date_from_year_day(year: i64, day: u16) -> DateAnswer
    ensures { Answers ((1 ≤ day) × (day ≤ days_in_year year))
        (λ date. Exists date × (date.year ≡ year)
        × (days_before_month date.year date.month + date.day_of_month ≡ day))
        (StatusIs no_date) zero_date result.status result.date }
{
    match calendar::Date::from_year_day(year, day) {
        Some(found) => DateAnswer::some(&found),
        None => DateAnswer::none(NO_DATE),
    }
}

/// Returns the week of ISO 8601 that has a date, and its year. That of 2005-01-01 is week 53 of 2004.
///
/// `NO_DATE` if there is no such date. `NOT_FITTING` if the year of the week does not fit.
#[unsafe(no_mangle)]
pub extern "C" fn cellarcove_iso_week(date: Date) -> IsoWeekAnswer
    ensures answer { result.status ≡ 0 → IsInIsoWeek (day_of date) result.year result.week }
    ensures no_date { (result.status ≡ no_date) ↔ (¬ (Exists date)) }
    ensures not_fitting { result.status ≡ not_fitting → (year : ℤ) (week : ℕ)
        → IsInIsoWeek (day_of date) year week → ¬ (FitsSigned w64 year) }
    ensures refusal { Refuses {A = ℤ × ℕ} (StatusIsOneOf no_date not_fitting) (pos 0, 0)
        result.status (result.year, result.week) }
{
    match date.found() {
        Some(found) => match found.iso_week() {
            Some(week) => IsoWeekAnswer {
                status: ANSWER,
                week: week.week(),
                year: week.year(),
            },
            None => IsoWeekAnswer::none(NOT_FITTING),
        },
        None => IsoWeekAnswer::none(NO_DATE),
    }
}

/// Returns the date of a day of a week of ISO 8601. The days of the week are from 1 for Monday to 7 for
/// Sunday. That of 2009, 53 and 7 is 2010-01-03.
///
/// `OUTSIDE` if `weekday` is not from 1 to 7, whatever the week. `NO_DATE` if the year has no such
/// week. `NOT_FITTING` if the year of the date does not fit.
#[unsafe(no_mangle)]
#[tactic(auto, using(crate::proofs::NumbersReadBack::read_back))]
pub extern "C" fn cellarcove_date_from_iso_week(year: i64, week: u8, weekday: u8) -> DateAnswer
    ensures answer { result.status ≡ 0 → Exists result.date × ((w : Weekday)
        × (iso_number w ≡ weekday) × IsDayOfIsoWeek (day_of result.date) year week w) }
    ensures outside { (result.status ≡ outside) ↔ (¬ ((1 ≤ weekday) × (weekday ≤ 7))) }
    ensures no_date { (result.status ≡ no_date)
        ↔ (((1 ≤ weekday) × (weekday ≤ 7)) × (¬ (HasIsoWeek year week))) }
    ensures not_fitting { (result.status ≡ not_fitting) ↔ IsDayBeyond year week weekday }
    ensures refusal { Refuses (λ s. (s ≡ outside) ⊎ StatusIsOneOf no_date not_fitting s) zero_date
        result.status result.date }
{
    match Weekday::from_iso_number(weekday) {
        Some(weekday) => match calendar::Date::from_iso_week(year, week, weekday) {
            Some(found) => DateAnswer::some(&found),
            None => DateAnswer::none(reason_for_week(year, week)),
        },
        None => DateAnswer::none(OUTSIDE),
    }
}

/// Returns the date of Easter Sunday of a year, by the rules of today. That of 2024 is 2024-03-31.
#[unsafe(no_mangle)]
#[tactic(auto, using(crate::proofs::NumbersReadBack::read_integers))]
pub extern "C" fn cellarcove_easter(year: i64) -> Date
    ensures year { result.year ≡ year }
    ensures date { Exists result }
    ensures easter { IsEaster year (day_of result) }
{
    Date::of(&easter(year))
}

impl Date {
    /// Returns the date of a date of the calendar.
    fn of(date: &calendar::Date) -> Date
        ensures parts { HasParts date.now result.year result.month result.day_of_month }
        ensures date { Exists result }
        ensures number { day_of result ≡ number_of date.now }
    {
        Date {
            year: date.year(),
            month: date.month(),
            day_of_month: date.day_of_month(),
        }
    }

    /// Returns the date of the calendar, or `None` if there is no such date.
    pub(crate) fn found(self) -> Option<calendar::Date>
        ensures { MatchOption result (¬ (Exists self)) (λ date. Exists self
            × HasParts date self.year self.month self.day_of_month
            × (number_of date ≡ day_of self)) }
    {
        calendar::Date::new(self.year, self.month, self.day_of_month)
    }
}

impl DateAnswer {
    /// Returns a result.
    pub(crate) fn some(date: &calendar::Date) -> DateAnswer
        ensures status { result.status ≡ 0 }
        ensures parts { HasParts date.now result.date.year result.date.month result.date.day_of_month }
        ensures date { Exists result.date }
        ensures number { day_of result.date ≡ number_of date.now }
    {
        DateAnswer {
            status: ANSWER,
            date: Date::of(date),
        }
    }

    /// Returns a rejection.
    pub(crate) fn none(status: u32) -> DateAnswer
        ensures { result ≡ record { status = status; date = zero_date } }
    {
        DateAnswer {
            status,
            date: Date {
                year: 0,
                month: 0,
                day_of_month: 0,
            },
        }
    }
}

impl IsoWeekAnswer {
    /// Returns a rejection.
    fn none(status: u32) -> IsoWeekAnswer
        ensures { result ≡ record { status = status; week = 0; year = pos 0 } }
    {
        IsoWeekAnswer {
            status,
            week: 0,
            year: 0,
        }
    }
}

/// Returns why there is no date of a day of a week: the year has no such week, or the day is in a year
/// that does not fit.
fn reason_for_week(year: i64, week: u8) -> u32
    ensures no_date { (result ≡ no_date) ↔ (¬ (HasIsoWeek year week)) }
    ensures not_fitting { (result ≡ not_fitting) ↔ HasIsoWeek year week }
    ensures refusal { StatusIsOneOf no_date not_fitting result }
{
    if (1..=weeks_in_year(year)).contains(&week) {
        NOT_FITTING
    } else {
        NO_DATE
    }
}
