//! The date some months after another, and the days and months from one date to another.

ghost use Rattle.std.specs.Prelude.{◌≡◌, ◌↔◌, ◌<◌, ◌≤◌, ◌^◌, ◌-ℤ◌, ℕ, ℤ, min, unsigned_abs, FitsSigned, IsTrue, MatchOption};
ghost use Rattle.std.specs.Int.{w64};
ghost use Rattle.std.specs.Option.{SomeIff};
ghost use Rattle.calendar.specs.Dates.{IsMonthsAfter, IsMonthsBetween, IsYearsBetween, number_of};
ghost use Rattle.calendar.specs.Months.{days_in_month, month_number};
ghost use Rattle.calendar.specs.declared.date.Date.{Date};

use crate::Date;
use crate::eras::days_of_eras;
use crate::months::length_of_month;
use integer_core::narrowing::narrowed;
use integer_core::{div_floor, div_mod_floor};

impl Date {
    /// Returns the date `months` months after this one, or before it if `months` is negative, or `None` if
    /// its year does not fit an `i64`. The day of the month stays, or becomes the last day if the month is
    /// shorter. `Date::new(2000, 1, 31).unwrap().plus_months(1)` is `Date::new(2000, 2, 29)`, and
    /// `Date::new(2000, 2, 29).unwrap().plus_months(1)` is `Date::new(2000, 3, 29)`.
    #[tactic(auto, using(crate::proofs::YearLengths::year_steps))]
    pub fn plus_months(&self, months: i64) -> Option<Self>
        ensures { MatchOption result
            ((date : Date) → IsMonthsAfter self.now months date → ¬ (FitsSigned w64 date.year))
            (λ date. IsMonthsAfter self.now months date) }
    {
        let (year, month) = month_of(self.month_number() + i128::from(months))?;
        Some(Self {
            year,
            month,
            day_of_month: self.day_of_month.min(length_of_month(year, month)),
        })
    }

    /// Returns the number of days from this date to `to`, which is negative if `to` is earlier, or `None` if
    /// it does not fit. `Date::from_day_number(5).days_between(&Date::from_day_number(3))` is `Some(-2)`.
    #[inline]
    pub fn days_between(&self, to: &Self) -> Option<i64>
        ensures { SomeIff result (FitsSigned w64 (number_of to.now -ℤ number_of self.now))
            (number_of to.now -ℤ number_of self.now) }
    {
        let (from_era, from_day) = self.day_of_era();
        let (era, day) = to.day_of_era();
        days_of_eras(era - from_era, i64::from(day) - i64::from(from_day))
    }

    /// Returns the number of whole months from this date to `to`, which is negative if `to` is earlier, or
    /// `None` if it does not fit. It is the largest number of months after which this date has become one that
    /// is not later than `to`.
    /// `Date::new(2000, 1, 31).unwrap().months_between(&Date::new(2000, 2, 29).unwrap())` is `Some(1)`, and
    /// `Date::new(2000, 3, 31).unwrap().months_between(&Date::new(2000, 3, 30).unwrap())` is `Some(-1)`.
    pub fn months_between(&self, to: &Self) -> Option<i64>
        ensures { MatchOption result
            ((months : ℤ) × IsMonthsBetween self.now to.now months × ¬ (FitsSigned w64 months))
            (λ months. IsMonthsBetween self.now to.now months) }
    {
        narrowed(whole_months(self, to))
    }

    /// Returns the number of whole years from this date to `to`, which is negative if `to` is earlier, or
    /// `None` if it does not fit. It is the largest number of years after which this date has become one that
    /// is not later than `to`. In a common year 29 February becomes 28 February.
    /// `Date::new(2000, 2, 29).unwrap().years_between(&Date::new(2025, 2, 28).unwrap())` is `Some(25)`, and
    /// `Date::new(2000, 3, 31).unwrap().years_between(&Date::new(2000, 3, 30).unwrap())` is `Some(-1)`.
    pub fn years_between(&self, to: &Self) -> Option<i64>
        ensures { MatchOption result
            ((years : ℤ) × IsYearsBetween self.now to.now years × ¬ (FitsSigned w64 years))
            (λ years. IsYearsBetween self.now to.now years) }
    {
        narrowed(div_floor(whole_months(self, to), 12))
    }

    /// Returns the number of the month, counted from January of year 0.
    fn month_number(&self) -> i128
        ensures value { result ≡ month_number self.now.year self.now.month }
        ensures small { unsigned_abs result < 2 ^ 68 }
    {
        12 * i128::from(self.year) + i128::from(self.month - 1)
    }
}

/// Returns the number of days from `from` to `to`, which is negative if `to` is earlier, or `None` if it
/// does not fit. `days_between(&Date::from_day_number(5), &Date::from_day_number(3))` is `Some(-2)`.
pub fn days_between(from: &Date, to: &Date) -> Option<i64>
    ensures { SomeIff result (FitsSigned w64 (number_of to.now -ℤ number_of from.now))
        (number_of to.now -ℤ number_of from.now) }
{
    from.days_between(to)
}

/// Returns the number of whole months from `from` to `to`, which is negative if `to` is earlier, or `None`
/// if it does not fit. It is the largest number of months after which `from` has become a date not later
/// than `to`.
/// `months_between(&Date::new(2000, 1, 31).unwrap(), &Date::new(2000, 2, 29).unwrap())` is `Some(1)`, and
/// `months_between(&Date::new(2000, 3, 31).unwrap(), &Date::new(2000, 3, 30).unwrap())` is `Some(-1)`.
pub fn months_between(from: &Date, to: &Date) -> Option<i64>
    ensures { MatchOption result
        ((months : ℤ) × IsMonthsBetween from.now to.now months × ¬ (FitsSigned w64 months))
        (λ months. IsMonthsBetween from.now to.now months) }
{
    from.months_between(to)
}

/// Returns the number of whole years from `from` to `to`, which is negative if `to` is earlier, or `None`
/// if it does not fit. It is the largest number of years after which `from` has become a date not later
/// than `to`. In a common year 29 February becomes 28 February.
/// `years_between(&Date::new(2000, 2, 29).unwrap(), &Date::new(2025, 2, 28).unwrap())` is `Some(25)`, and
/// `years_between(&Date::new(2000, 3, 31).unwrap(), &Date::new(2000, 3, 30).unwrap())` is `Some(-1)`.
pub fn years_between(from: &Date, to: &Date) -> Option<i64>
    ensures { MatchOption result
        ((years : ℤ) × IsYearsBetween from.now to.now years × ¬ (FitsSigned w64 years))
        (λ years. IsYearsBetween from.now to.now years) }
{
    from.years_between(to)
}

/// Returns the number of whole months from `from` to `to`, which may not fit an `i64`.
fn whole_months(from: &Date, to: &Date) -> i128
    ensures { IsMonthsBetween from.now to.now result }
{
    let months = to.month_number() - from.month_number();
    if ends_in_part_of_month(from, to) {
        months - 1
    } else {
        months
    }
}

/// Returns `true` if the day of the month of `from` comes after that of `to`. If the month of `to` is too
/// short for the day of `from`, the last day of that month counts instead.
#[tactic(auto, using(crate::proofs::YearLengths::year_steps))]
fn ends_in_part_of_month(from: &Date, to: &Date) -> bool
    ensures { IsTrue result
        ↔ (to.now.day_of_month < min from.now.day_of_month (days_in_month to.now.year to.now.month)) }
{
    to.day_of_month < from.day_of_month.min(length_of_month(to.year, to.month))
}

/// Returns the year and the month of a month that is counted from January of year 0, or `None` if the
/// year does not fit.
fn month_of(number: i128) -> Option<(i64, u8)>
    ensures { MatchOption result
        ((year : ℤ) (month : ℕ) → 1 ≤ month → month ≤ 12 → month_number year month ≡ number → ¬ (FitsSigned w64 year))
        (λ found. (1 ≤ found.1) × (found.1 ≤ 12) × (month_number found.0 found.1 ≡ number)) }
{
    let (year, month) = div_mod_floor(number, 12);
    Some((narrowed(year)?, month as u8 + 1))
}
