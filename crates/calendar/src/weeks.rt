//! The first or last day with a given day of the week, near another day or in a month.

ghost use Rattle.std.specs.Prelude.{◌≡◌, ◌↔◌, ◌≤◌, ℤ, FitsSigned, IsSome, MatchOption};
ghost use Rattle.std.specs.Int.{w64};
ghost use Rattle.calendar.specs.Dates.{HasFifthWeekday, IsLastWeekdayOfMonth, IsNextLastWeekday, IsNthWeekday};
ghost use Rattle.calendar.specs.Weeks.{IsFirstWeekday, IsLastWeekday};
ghost use Rattle.calendar.specs.declared.date.Date.{Date};

use crate::months::length_of_month;
use crate::{Date, Weekday, weekday_of};

/// Returns the first `weekday` that is not before `day`, or `None` if it does not fit an `i64`. Days are
/// counted from 1970-01-01, which is a Thursday. `first_weekday_on_or_after(0, Weekday::Sunday)` is
/// `Some(3)`, and `first_weekday_on_or_after(3, Weekday::Sunday)` is `Some(3)`.
pub fn first_weekday_on_or_after(day: i64, weekday: Weekday) -> Option<i64>
    ensures { MatchOption result
        ((first : ℤ) → IsFirstWeekday day weekday first → ¬ (FitsSigned w64 first))
        (λ first. IsFirstWeekday day weekday first) }
{
    day.checked_add(i64::from(weekday_of(day).days_until(weekday)))
}

/// Returns the last `weekday` that is not after `day`, or `None` if it does not fit an `i64`. Days are
/// counted from 1970-01-01, which is a Thursday. `last_weekday_on_or_before(4, Weekday::Sunday)` is
/// `Some(3)`, and `last_weekday_on_or_before(3, Weekday::Sunday)` is `Some(3)`.
pub fn last_weekday_on_or_before(day: i64, weekday: Weekday) -> Option<i64>
    ensures { MatchOption result
        ((last : ℤ) → IsLastWeekday day weekday last → ¬ (FitsSigned w64 last))
        (λ last. IsLastWeekday day weekday last) }
{
    day.checked_sub(i64::from(weekday.days_until(weekday_of(day))))
}

/// Returns the date of the `n`-th `weekday` of the month, counted from 1, or `None` if there is no such
/// day. Each month has four, and some have five. `nth_weekday_of_month(2026, 11, Weekday::Thursday, 4)` is
/// `Date::new(2026, 11, 26)`, `nth_weekday_of_month(2026, 11, Weekday::Thursday, 5)` is `None`, and
/// `nth_weekday_of_month(2026, 11, Weekday::Monday, 5)` is `Date::new(2026, 11, 30)`.
pub fn nth_weekday_of_month(year: i64, month: u8, weekday: Weekday, n: u8) -> Option<Date>
    ensures answer { MatchOption result
        ((date : Date) → ¬ (IsNthWeekday year month weekday n date))
        (λ date. IsNthWeekday year month weekday n date) }
    ensures exists { 1 ≤ month → month ≤ 12 → 1 ≤ n → n ≤ 4 → IsSome result }
    ensures fifth { 1 ≤ month → month ≤ 12 → n ≡ 5 → IsSome result ↔ HasFifthWeekday year month weekday }
{
    let first = Date::new(year, month, 1)?;
    if !matches!(n, 1..=5) {
        return None;
    }
    let days = 7 * (n - 1) + first.weekday().days_until(weekday);
    Date::new(year, month, days + 1)
}

/// Returns the date of the last `weekday` of the month, or `None` if `month` is not from 1 to 12.
/// `last_weekday_of_month(2026, 10, Weekday::Friday)` is `Date::new(2026, 10, 30)`.
pub fn last_weekday_of_month(year: i64, month: u8, weekday: Weekday) -> Option<Date>
    ensures { MatchOption result (¬ ((1 ≤ month) × (month ≤ 12)))
        (λ date. IsLastWeekdayOfMonth year month weekday date) }
{
    match month {
        1..=12 => Some(last_weekday(year, month, weekday)),
        _ => None,
    }
}

impl Date {
    /// Returns the first date after this one that is the last `weekday` of its month, or `None` if its year
    /// does not fit an `i64`.
    /// `Date::new(2026, 10, 30).unwrap().next_last_weekday(Weekday::Friday)` is `Date::new(2026, 11, 27)`.
    pub fn next_last_weekday(&self, weekday: Weekday) -> Option<Self>
        ensures { MatchOption result
            ((date : Date) → IsNextLastWeekday self.now weekday date → ¬ (FitsSigned w64 date.year))
            (λ date. IsNextLastWeekday self.now weekday date) }
    {
        let of_this_month = last_weekday(self.year, self.month, weekday);
        if self.day_of_month < of_this_month.day_of_month {
            return Some(of_this_month);
        }
        let next_month = self.plus_months(1)?;
        Some(last_weekday(next_month.year, next_month.month, weekday))
    }
}

/// Returns the first date after another that is the last `weekday` of its month, or `None` if its year does
/// not fit an `i64`.
/// `next_last_weekday(&Date::new(2026, 10, 30).unwrap(), Weekday::Friday)` is `Date::new(2026, 11, 27)`.
pub fn next_last_weekday(after: &Date, weekday: Weekday) -> Option<Date>
    ensures { MatchOption result
        ((date : Date) → IsNextLastWeekday after.now weekday date → ¬ (FitsSigned w64 date.year))
        (λ date. IsNextLastWeekday after.now weekday date) }
{
    after.next_last_weekday(weekday)
}

/// Returns the date of the last `weekday` of the month.
fn last_weekday(year: i64, month: u8, weekday: Weekday) -> Date
    requires month { (1 ≤ month) × (month ≤ 12) }
    ensures { IsLastWeekdayOfMonth year month weekday result }
{
    let last = Date {
        year,
        month,
        day_of_month: length_of_month(year, month),
    };
    Date {
        year,
        month,
        day_of_month: last.day_of_month - weekday.days_until(last.weekday()),
    }
}
