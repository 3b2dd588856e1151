//! The calls of `calendar` on days, dates and years.

use super::checksum::Checksum;
use super::lines::CallAt;
use super::spread::spread_of_bits;
use super::walks::Answered;
use calendar::{
    Date, Weekday, days_between, days_in_month, days_in_year, easter, first_weekday_on_or_after,
    is_leap_year, last_weekday_of_month, last_weekday_on_or_before, months_between,
    nth_weekday_of_month, weekday_of, weeks_in_year, years_between,
};
use std::alloc::Global;
use std::process::Abort;

/// A call, or several.
#[derive(Clone, Copy, Debug)]
pub(crate) enum Dates {
    /// The date of a day, its day of the year, its day of the week and its week.
    Day,
    /// Whether a year is a leap year, its days, its weeks and Easter.
    Year,
    Months,
    WeekdaysOfMonth,
    NearestWeekdays,
    PlusDays,
    PlusMonths,
    DaysBetween,
    MonthsBetween,
    YearsBetween,
}

/// How many indices give the numbers that a call takes alone.
const FOR_ONE: u32 = 2048;

/// How many indices give the numbers that a call takes two by two.
const FOR_TWO: u32 = 128;

/// 1 January of year 1.
const FIRST_DAY: i64 = -719162;

/// 31 December of year 9999.
const LAST_DAY: i64 = 2932896;

/// The checksum with the parts of the date.
fn with_date(sum: Checksum, date: &Date) -> Checksum {
    sum.with_number(date.year)
        .with_number(i64::from(date.month))
        .with_number(i64::from(date.day_of_month))
}

/// The checksum with the number of the day of the week.
fn with_weekday(sum: Checksum, weekday: Weekday) -> Checksum {
    sum.with_number(i64::from(weekday.iso_number()))
}

/// The checksum with the date of a day, its place in the year and in the week, and its day, or `None` if a call
/// returns `None`.
fn with_day(sum: Checksum, day: i64) -> Option<Checksum> {
    let date = Date::from_day_number(day);
    let week = date.iso_week()?;
    let of_week = Date::from_iso_week(week.year, week.week, weekday_of(day))?;
    let of_year = Date::from_year_day(date.year, date.day_of_year())?;
    let sum = with_date(sum.with_number(day), &date)
        .with_number(i64::from(date.day_of_year()))
        .with_number(week.year)
        .with_number(i64::from(week.week))
        .with_number(date.day_number()?);
    Some(with_date(
        with_date(with_weekday(sum, date.weekday()), &of_week),
        &of_year,
    ))
}

/// The checksum with what is asked of a year.
fn with_year(sum: Checksum, year: i64) -> Checksum {
    let sum = sum
        .with_number(year)
        .with_number(i64::from(is_leap_year(year)))
        .with_number(i64::from(days_in_year(year)))
        .with_number(i64::from(weeks_in_year(year)));
    with_date(sum, &easter(year))
}

/// The checksum with the lengths of the months of a year.
fn with_months(sum: Checksum, year: i64) -> Checksum {
    let mut sum = sum.with_number(year);
    for month in 1..=12u8 {
        sum = sum.with_number(i64::from(days_in_month(year, month)));
    }
    sum
}

/// The checksum with the day of the month, or 0.
fn with_day_of_month(sum: Checksum, date: Option<Date>) -> Checksum {
    match date {
        Some(date) => sum.with_number(i64::from(date.day_of_month)),
        None => sum.with_number(0),
    }
}

/// The checksum with the last place of a day of the week in a month of the year, and its five places.
fn with_places(sum: Checksum, year: i64, month: u8, weekday: Weekday) -> Checksum {
    let mut sum = with_day_of_month(sum, last_weekday_of_month(year, month, weekday));
    for place in 1..=5u8 {
        let date = nth_weekday_of_month(year, month, weekday, place);
        sum = with_day_of_month(sum, date);
    }
    sum
}

/// The checksum with the places of the days of the week in the months of a year. The number of a month picks the
/// day of the week.
fn with_weekdays_of_months(sum: Checksum, year: i64) -> Checksum {
    let mut sum = sum.with_number(year);
    for month in 1..=12u8 {
        if let Some(weekday) = Weekday::from_iso_number(month % 7 + 1) {
            sum = with_places(sum, year, month, weekday);
        }
    }
    sum
}

/// The checksum with the days nearest to a day that have each day of the week, or `None` if one does not fit.
fn with_nearest(sum: Checksum, day: i64) -> Option<Checksum> {
    let mut sum = sum.with_number(day);
    for number in 1..=7u8 {
        let weekday = Weekday::from_iso_number(number)?;
        sum = sum
            .with_number(first_weekday_on_or_after(day, weekday)?)
            .with_number(last_weekday_on_or_before(day, weekday)?);
    }
    Some(sum)
}

/// The checksum with what a call makes of a number.
fn of_number(call: Dates, sum: Checksum, n: i64) -> Option<Checksum> {
    match call {
        Dates::Day => with_day(sum, n),
        Dates::Year => Some(with_year(sum, n)),
        Dates::Months => Some(with_months(sum, n)),
        Dates::WeekdaysOfMonth => Some(with_weekdays_of_months(sum, n)),
        _ => with_nearest(sum, n),
    }
}

/// The checksum with what a call makes of the date of a day and of a number, which is the day of another date if
/// the call asks two.
fn of_two_numbers(call: Dates, sum: Checksum, day: i64, n: i64) -> Option<Checksum> {
    let (date, other) = (Date::from_day_number(day), Date::from_day_number(n));
    let sum = sum.with_number(day).with_number(n);
    Some(match call {
        Dates::PlusDays => with_date(sum, &date.plus_days(n)?),
        Dates::PlusMonths => with_date(sum, &date.plus_months(n)?),
        Dates::DaysBetween => sum.with_number(days_between(&date, &other)?),
        Dates::MonthsBetween => sum.with_number(months_between(&date, &other)?),
        _ => sum.with_number(years_between(&date, &other)?),
    })
}

/// Each eleventh day from year 1 to year 9999.
pub(crate) fn each_eleventh_day() -> Answered {
    let mut answered = Answered::none();
    for place in 0..(LAST_DAY - FIRST_DAY) / 11 + 1 {
        let day = FIRST_DAY.wrapping_add(place.wrapping_mul(11));
        answered = answered.and(with_day(answered.1, day));
    }
    answered
}

fn each(rt: &impl Abort, alloc: Global, bits: u32, call: Dates) -> Answered {
    let mut answered = Answered::none();
    for n in &spread_of_bits(rt, alloc, bits, FOR_ONE) {
        answered = answered.and(of_number(call, answered.1, *n));
    }
    answered
}

fn each_pair(rt: &impl Abort, alloc: Global, bits: u32, call: Dates) -> Answered {
    let numbers = spread_of_bits(rt, alloc, bits, FOR_TWO);
    let mut answered = Answered::none();
    for day in &numbers {
        for n in &numbers {
            answered = answered.and(of_two_numbers(call, answered.1, *day, *n));
        }
    }
    answered
}

/// Each number has at most this many bits.
impl CallAt<u32> for Dates {
    fn results<R: Abort>(&self, rt: &R, alloc: Global, bits: u32) -> Answered {
        match self {
            Dates::PlusDays
            | Dates::PlusMonths
            | Dates::DaysBetween
            | Dates::MonthsBetween
            | Dates::YearsBetween => { each_pair(rt, alloc, bits, *self) }
            _ => each(rt, alloc, bits, *self),
        }
    }
}
