//! Days of the week, which have the numbers of ISO 8601, from 1 for Monday to 7 for Sunday.

ghost use Rattle.std.specs.Prelude.{◌≡◌, ◌↔◌, ◌≤◌, ℕ, ℤ, pos, FitsSigned};
ghost use Rattle.std.specs.Int.{w64};
ghost use Rattle.calendar.specs.Weekday.{iso_number};
ghost use Rattle.calendar.specs.Weeks.{HasWeekday, IsFirstWeekday, IsLastWeekday};
ghost use Rattle.calendar.specs.declared.weekday.Weekday.{Weekday};
ghost use Rattle.cellarcove_c.specs.Answers.{Answers, Refuses};
ghost use Rattle.cellarcove_c.specs.Dates.{Exists, IsDayOfIsoNumber, IsLastOfIsoNumber, IsNthOfIsoNumber, day_of, zero_date};
ghost use Rattle.cellarcove_c.specs.Statuses.{StatusIsOneOf, StatusIs, no_date, not_fitting, outside};

use crate::answers::{I64Answer, NO_DATE, NOT_FITTING, OUTSIDE, U64Answer};
use crate::dates::{Date, DateAnswer};
use calendar::{
    Weekday, first_weekday_on_or_after, last_weekday_of_month, last_weekday_on_or_before,
    nth_weekday_of_month, weekday_of,
};

/// Returns the day of the week of a day, from 1 for Monday to 7 for Sunday. That of 0 is 4.
#[unsafe(no_mangle)]
pub extern "C" fn cellarcove_weekday(day: i64) -> u8
    ensures weekday { (weekday : Weekday) × (iso_number weekday ≡ result) × HasWeekday day weekday }
    ensures from_one { 1 ≤ result }
    ensures to_seven { result ≤ 7 }
{
    weekday_of(day).iso_number()
}

/// Returns the day of the week of a date, from 1 for Monday to 7 for Sunday. That of 2000-02-29 is 2.
///
/// `NO_DATE` if there is no such date.
#[unsafe(no_mangle)]
pub extern "C" fn cellarcove_weekday_of_date(date: Date) -> U64Answer
    ensures { Answers (Exists date)
        (λ number. IsDayOfIsoNumber number (λ w day. HasWeekday day w) (day_of date))
        (StatusIs no_date) 0 result.status result.value }
{
    match date.found() {
        Some(found) => U64Answer::some(u64::from(found.weekday().iso_number())),
        None => U64Answer::none(NO_DATE),
    }
}

/// Returns the first day that is this day of the week, from 1 for Monday to 7 for Sunday, and is not
/// before `day`. For 0 and 7 it is 3, and for 3 and 7 it is 3.
///
/// `OUTSIDE` if `weekday` is not from 1 to 7. `NOT_FITTING` if the day does not fit.
#[unsafe(no_mangle)]
pub extern "C" fn cellarcove_first_weekday_on_or_after(day: i64, weekday: u8) -> I64Answer
    ensures answer { result.status ≡ 0
        → IsDayOfIsoNumber weekday (λ w first. IsFirstWeekday day w first) result.value }
    ensures outside { (result.status ≡ outside) ↔ (¬ ((1 ≤ weekday) × (weekday ≤ 7))) }
    ensures not_fitting { result.status ≡ not_fitting → (first : ℤ)
        → IsDayOfIsoNumber weekday (λ w first. IsFirstWeekday day w first) first
        → ¬ (FitsSigned w64 first) }
    ensures refusal { Refuses (StatusIsOneOf outside not_fitting) (pos 0) result.status result.value }
{
    match Weekday::from_iso_number(weekday) {
        Some(weekday) => I64Answer::of(first_weekday_on_or_after(day, weekday), NOT_FITTING),
        None => I64Answer::none(OUTSIDE),
    }
}

/// Returns the last day that is this day of the week, from 1 for Monday to 7 for Sunday, and is not after
/// `day`. For 4 and 7 it is 3, and for 3 and 7 it is 3.
///
/// `OUTSIDE` if `weekday` is not from 1 to 7. `NOT_FITTING` if the day does not fit.
#[unsafe(no_mangle)]
pub extern "C" fn cellarcove_last_weekday_on_or_before(day: i64, weekday: u8) -> I64Answer
    ensures answer { result.status ≡ 0
        → IsDayOfIsoNumber weekday (λ w last. IsLastWeekday day w last) result.value }
    ensures outside { (result.status ≡ outside) ↔ (¬ ((1 ≤ weekday) × (weekday ≤ 7))) }
    ensures not_fitting { result.status ≡ not_fitting → (last : ℤ)
        → IsDayOfIsoNumber weekday (λ w last. IsLastWeekday day w last) last
        → ¬ (FitsSigned w64 last) }
    ensures refusal { Refuses (StatusIsOneOf outside not_fitting) (pos 0) result.status result.value }
{
    match Weekday::from_iso_number(weekday) {
        Some(weekday) => I64Answer::of(last_weekday_on_or_before(day, weekday), NOT_FITTING),
        None => I64Answer::none(OUTSIDE),
    }
}

/// Returns the date of the `n`-th day of a month that is this day of the week, from 1 for Monday to 7
/// for Sunday. The first one has `n` 1. That of 2026, 11, 4 and 4 is 2026-11-26.
///
/// `OUTSIDE` if `weekday` is not from 1 to 7, whatever the month. `NO_DATE` if there is no such date.
#[unsafe(no_mangle)]
pub extern "C" fn cellarcove_nth_weekday_of_month(
    year: i64,
    month: u8,
    weekday: u8,
    n: u8,
) -> DateAnswer
    ensures answer { result.status ≡ 0 → IsNthOfIsoNumber year month weekday n
        result.date.year result.date.month result.date.day_of_month }
    ensures outside { (result.status ≡ outside) ↔ (¬ ((1 ≤ weekday) × (weekday ≤ 7))) }
    ensures no_date { result.status ≡ no_date → (y : ℤ) (m d : ℕ)
        → ¬ (IsNthOfIsoNumber year month weekday n y m d) }
    ensures refusal { Refuses (StatusIsOneOf outside no_date) zero_date result.status result.date }
{
    match Weekday::from_iso_number(weekday) {
        Some(weekday) => match nth_weekday_of_month(year, month, weekday, n) {
            Some(date) => DateAnswer::some(&date),
            None => DateAnswer::none(NO_DATE),
        },
        None => DateAnswer::none(OUTSIDE),
    }
}

/// Returns the date of the last day of a month that is this day of the week, from 1 for Monday to 7 for
/// Sunday. That of 2026, 10 and 5 is 2026-10-30.
///
/// `OUTSIDE` if `weekday` is not from 1 to 7, whatever the month. `NO_DATE` if `month` is not from 1 to
/// 12.
#[unsafe(no_mangle)]
pub extern "C" fn cellarcove_last_weekday_of_month(year: i64, month: u8, weekday: u8) -> DateAnswer
    ensures answer { result.status ≡ 0 → IsLastOfIsoNumber year month weekday
        result.date.year result.date.month result.date.day_of_month }
    ensures outside { (result.status ≡ outside) ↔ (¬ ((1 ≤ weekday) × (weekday ≤ 7))) }
    ensures no_date { (result.status ≡ no_date)
        ↔ (((1 ≤ weekday) × (weekday ≤ 7)) × (¬ ((1 ≤ month) × (month ≤ 12)))) }
    ensures refusal { Refuses (StatusIsOneOf outside no_date) zero_date result.status result.date }
{
    match Weekday::from_iso_number(weekday) {
        Some(weekday) => match last_weekday_of_month(year, month, weekday) {
            Some(date) => DateAnswer::some(&date),
            None => DateAnswer::none(NO_DATE),
        },
        None => DateAnswer::none(OUTSIDE),
    }
}
