//! Dates and the numbers of their days.
//!
//! Other methods of `Date` are in the files of their subjects: `weekday` in `weekday.rt`, `iso_week` and
//! `from_iso_week` in `iso_weeks.rt`, `plus_months` in `distances.rt`. `text.rt` prints and parses a date.

ghost use Rattle.calendar.specs.Months.{IsDate};

use crate::days_in_year;
use crate::eras::{
    DAYS_PER_ERA, MARCH_BEFORE_ERA_0, YEARS_PER_ERA, days_to_month, era_before_year,
    groups_and_rest, march_year_of_day, near_year, parts_from_march, wide_sum,
};
use crate::months::{days_before_month, length_of_month, month_and_day_in_year};
use crate::years::nearby_year;
use integer_core::narrowing::narrowed;

/// The day of era 0 that is 1970-01-01, as [`Date::day_of_era`] counts days.
const EPOCH_IN_ERA_0: i64 = MARCH_BEFORE_ERA_0 + 1;

/// A date of the proleptic Gregorian calendar, in any year of `i64`. The year before year 1 is year 0.
/// An earlier date is less than a later one.
///
/// `Date::new(2000, 2, 29) < Date::new(2000, 3, 1)` is `true`.
#[derive(Debug, Clone, Copy, PartialEq, Eq, PartialOrd, Ord, Hash)]
pub struct Date {
    pub year: i64,
    pub month: u8,
    pub day_of_month: u8,
    pub ghost valid: { IsDate year month day_of_month },
}

impl Date {
    ghost use Rattle.std.specs.Prelude.{◌≡◌, ◌↔◌, ◌+◌, ◌<◌, ◌≤◌, ◌^◌, ◌≤ℤ◌, ◌<ℤ◌, ◌+ℤ◌, ◌-ℤ◌, ◌*ℤ◌, ℤ, pos, unsigned_abs, FitsSigned, IsTrue, MatchOption};
    ghost use Rattle.std.specs.Int.{w64};
    ghost use Rattle.std.specs.Option.{SomeIff};
    ghost use Rattle.integer_core.specs.Only.{IsOnly};
    ghost use Rattle.calendar.specs.Dates.{HasParts, IsLastOfMonth, number_of, year_day_of};
    ghost use Rattle.calendar.specs.Months.{days_in_month};
    ghost use Rattle.calendar.specs.Years.{HasDay, days_in_year, first_day};
    ghost use Rattle.calendar.specs.declared.date.Date.{Date};

    /// Returns the year. `Date::new(2024, 2, 29).unwrap().year()` is `2024`.
    pub const fn year(&self) -> i64
        ensures { result ≡ self.now.year }
    {
        self.year
    }

    /// Returns the month, from 1 for January to 12. `Date::new(2024, 2, 29).unwrap().month()` is `2`.
    pub const fn month(&self) -> u8
        ensures { result ≡ self.now.month }
    {
        self.month
    }

    /// Returns the day of the month. `Date::new(2024, 2, 29).unwrap().day_of_month()` is `29`.
    pub const fn day_of_month(&self) -> u8
        ensures { result ≡ self.now.day_of_month }
    {
        self.day_of_month
    }

    /// Returns the date of a year, a month and a day of the month, or `None` if there is no such date.
    /// `Date::new(1900, 2, 29)` is `None`.
    #[inline]
    pub const fn new(year: i64, month: u8, day_of_month: u8) -> Option<Self>
        ensures { MatchOption result (¬ (IsDate year month day_of_month))
            (λ date. HasParts date year month day_of_month) }
    {
        if matches!(month, 1..=12)
            && 0 < day_of_month
            && day_of_month <= length_of_month(year, month)
        {
            Some(Self {
                year,
                month,
                day_of_month,
            })
        } else {
            None
        }
    }

    /// Returns the date of a day, counted from 1970-01-01, which is day 0.
    /// `Some(Date::from_day_number(-1))` is `Date::new(1969, 12, 31)`.
    #[inline]
    pub const fn from_day_number(day: i64) -> Self
        ensures number { number_of result ≡ day }
        ensures only { IsOnly (λ date. number_of date ≡ day) result }
    {
        let (march_year, days) = march_year_of_day(day);
        let (year, month, day_of_month) = parts_from_march(march_year, days);
        Self {
            year,
            month,
            day_of_month,
        }
    }

    /// Returns the number of days from 1970-01-01 to the date, which is negative for an earlier date,
    /// or `None` if it does not fit an `i64`. `Date::new(1969, 12, 31).unwrap().day_number()` is `Some(-1)`, and
    /// `Date::new(i64::MAX, 1, 1).unwrap().day_number()` is `None`.
    #[inline]
    pub fn day_number(&self) -> Option<i64>
        ensures { SomeIff result (FitsSigned w64 (number_of self.now)) (number_of self.now) }
    {
        match near_year(self.year) {
            Some(year) => {
                let day = days_to_month(year, self.month) + u32::from(self.day_of_month);
                Some(i64::from(day) - EPOCH_IN_ERA_0)
            }
            None => self.far_day_number(),
        }
    }

    /// Returns what `day_number` returns.
    #[cold]
    #[inline(never)]
    fn far_day_number(&self) -> Option<i64>
        ensures { SomeIff result (FitsSigned w64 (number_of self.now)) (number_of self.now) }
    {
        narrowed(self.wide_day_number())
    }

    /// Returns the next date, or `None` if it is in the year after `i64::MAX`.
    /// `Date::new(2000, 2, 28).unwrap().next()` is `Date::new(2000, 2, 29)`, and
    /// `Date::new(i64::MAX, 12, 31).unwrap().next()` is `None`.
    #[tactic(auto, using(crate::proofs::DateOrder::month_ends))]
    #[inline]
    pub fn next(&self) -> Option<Self>
        ensures { MatchOption result
            ((self.now.year ≡ i64.MAX) × (self.now.month ≡ 12) × (self.now.day_of_month ≡ 31))
            (λ date. number_of date ≡ number_of self.now +ℤ pos 1) }
    {
        let year = self.year;
        let month = self.month;
        if !self.ends_month() {
            Some(Self {
                year,
                month,
                day_of_month: self.day_of_month + 1,
            })
        } else if month < 12 {
            Some(Self {
                year,
                month: month + 1,
                day_of_month: 1,
            })
        } else {
            Some(Self {
                year: year.checked_add(1)?,
                month: 1,
                day_of_month: 1,
            })
        }
    }

    /// Returns the last date of the same month.
    /// `Date::new(2000, 2, 1).unwrap().last_of_month()` is `Date::new(2000, 2, 29).unwrap()`.
    #[inline]
    pub const fn last_of_month(&self) -> Self
        ensures last { IsLastOfMonth self.now.year self.now.month result }
        ensures day { result.day_of_month ≡ days_in_month self.now.year self.now.month }
    {
        Self {
            year: self.year,
            month: self.month,
            day_of_month: length_of_month(self.year, self.month),
        }
    }

    /// Returns `true` if the date is the last of its month.
    #[inline]
    const fn ends_month(&self) -> bool
        ensures { IsTrue result ↔ (days_in_month self.now.year self.now.month ≤ self.now.day_of_month) }
    {
        28 <= self.day_of_month && length_of_month(self.year, self.month) <= self.day_of_month
    }

    /// Returns the previous date, or `None` if it is in the year before `i64::MIN`.
    /// `Date::new(1900, 3, 1).unwrap().previous()` is `Date::new(1900, 2, 28)`, and
    /// `Date::new(i64::MIN, 1, 1).unwrap().previous()` is `None`.
    #[inline]
    pub fn previous(&self) -> Option<Self>
        ensures { MatchOption result
            ((self.now.year ≡ i64.MIN) × (self.now.month ≡ 1) × (self.now.day_of_month ≡ 1))
            (λ date. number_of date ≡ number_of self.now -ℤ pos 1) }
    {
        let year = self.year;
        let month = self.month;
        if self.day_of_month > 1 {
            Some(Self {
                year,
                month,
                day_of_month: self.day_of_month - 1,
            })
        } else if month > 1 {
            Some(Self {
                year,
                month: month - 1,
                day_of_month: length_of_month(year, month - 1),
            })
        } else {
            Some(Self {
                year: year.checked_sub(1)?,
                month: 12,
                day_of_month: 31,
            })
        }
    }

    /// Returns the day of the year, which is 1 on 1 January.
    /// `Date::new(2000, 12, 31).unwrap().day_of_year()` is `366`.
    #[tactic(auto, using(crate::proofs::YearLengths::year_steps), unfolding(crate::specs::Years::days_in_year))]
    #[inline]
    pub const fn day_of_year(&self) -> u16
        ensures day { result ≡ year_day_of self.now }
        ensures from_one { 1 ≤ result }
        ensures to_last { result ≤ days_in_year self.now.year }
    {
        days_before_month(self.year, self.month) + self.day_of_month as u16
    }

    /// Returns the date of a day of a year, counted from 1 January, which is day 1, or `None` if the year has
    /// no such day. `Date::from_year_day(2000, 60)` is `Date::new(2000, 2, 29)`, and
    /// `Date::from_year_day(1900, 366)` is `None`.
    pub const fn from_year_day(year: i64, day_of_year: u16) -> Option<Self>
        ensures { MatchOption result (¬ ((1 ≤ day_of_year) × (day_of_year ≤ days_in_year year)))
            (λ date. (date.year ≡ year) × (year_day_of date ≡ day_of_year)) }
    {
        if 0 < day_of_year && day_of_year <= days_in_year(year) {
            Some(Self::in_year(year, day_of_year - 1))
        } else {
            None
        }
    }

    /// Returns the date `days` days after this one, or before it if `days` is negative, or `None` if its
    /// year does not fit an `i64`. `Date::new(2000, 3, 1).unwrap().plus_days(-1)` is
    /// `Date::new(2000, 2, 29)`, and `Date::new(i64::MAX, 12, 31).unwrap().plus_days(1)` is `None`.
    #[tactic(auto, using(crate::proofs::YearLengths::year_steps))]
    #[inline]
    pub fn plus_days(&self, days: i64) -> Option<Self>
        ensures { MatchOption result
            ((date : Date) → number_of date ≡ number_of self.now +ℤ days → ¬ (FitsSigned w64 date.year))
            (λ date. number_of date ≡ number_of self.now +ℤ days) }
    {
        match self.day_later(days) {
            Some(day) => Some(Self::from_day_number(day)),
            None => self.far_plus_days(days),
        }
    }

    /// Returns the day `days` days after this one, or `None` if one of the two does not fit.
    #[inline]
    fn day_later(&self, days: i64) -> Option<i64>
        ensures { SomeIff result
            (FitsSigned w64 (number_of self.now) × FitsSigned w64 (number_of self.now +ℤ days))
            (number_of self.now +ℤ days) }
    {
        self.day_number()?.checked_add(days)
    }

    /// Returns what `plus_days` returns.
    fn far_plus_days(&self, days: i64) -> Option<Self>
        ensures { MatchOption result
            ((date : Date) → number_of date ≡ number_of self.now +ℤ days → ¬ (FitsSigned w64 date.year))
            (λ date. number_of date ≡ number_of self.now +ℤ days) }
    {
        let (era, day) = self.day_of_era();
        let (eras, rest) = groups_and_rest(days, DAYS_PER_ERA);
        Self::from_day_of_era(era + eras, i64::from(day + rest))
    }

    /// Returns the date `days` days before this one, or after it if `days` is negative, or `None` if its
    /// year does not fit an `i64`. `Date::new(2000, 3, 1).unwrap().minus_days(1)` is
    /// `Date::new(2000, 2, 29)`, and `Date::new(i64::MIN, 1, 1).unwrap().minus_days(1)` is `None`.
    pub fn minus_days(&self, days: i64) -> Option<Self>
        ensures { MatchOption result
            ((date : Date) → number_of date ≡ number_of self.now -ℤ days → ¬ (FitsSigned w64 date.year))
            (λ date. number_of date ≡ number_of self.now -ℤ days) }
    {
        let (era, day) = self.day_of_era();
        let (before, rest) = groups_and_rest(days, DAYS_PER_ERA);
        Self::from_day_of_era(era - before, i64::from(day) - i64::from(rest))
    }

    /// Returns the date of a day that is counted as by [`Date::day_of_era`], or `None` if its year does not
    /// fit. The day may be outside the era.
    pub(crate) fn from_day_of_era(era: i64, day: i64) -> Option<Self>
        requires { unsigned_abs day < 2 ^ 32 }
        ensures { MatchOption result
            ((date : Date) → number_of date ≡ pos 146097 *ℤ era +ℤ day -ℤ pos 865566 → ¬ (FitsSigned w64 date.year))
            (λ date. number_of date ≡ pos 146097 *ℤ era +ℤ day -ℤ pos 865566) }
    {
        Self::from_day_number(day - EPOCH_IN_ERA_0).eras_later(era)
    }

    /// Returns the date `eras` times 400 years after this one, or `None` if its year does not fit.
    fn eras_later(&self, eras: i64) -> Option<Self>
        ensures { MatchOption result (¬ (FitsSigned w64 (self.now.year +ℤ pos 400 *ℤ eras)))
            (λ date. HasParts date (self.now.year +ℤ pos 400 *ℤ eras) self.now.month self.now.day_of_month) }
    {
        Some(Self {
            year: narrowed(wide_sum(YEARS_PER_ERA, eras, self.year))?,
            month: self.month,
            day_of_month: self.day_of_month,
        })
    }

    /// Returns the number of the day, which may not fit an `i64`.
    pub(crate) fn wide_day_number(&self) -> i128
        ensures value { result ≡ number_of self.now }
        ensures small { unsigned_abs result < 2 ^ 73 }
    {
        let (era, day) = self.day_of_era();
        wide_sum(DAYS_PER_ERA, era, i64::from(day) - EPOCH_IN_ERA_0)
    }

    /// Returns the era of the year, and the day of that era: day 1 is 1 March, 400 years before the era
    /// begins.
    #[inline]
    pub(crate) const fn day_of_era(&self) -> (i64, u32)
        ensures number { number_of self.now ≡ pos 146097 *ℤ result.0 +ℤ pos result.1 -ℤ pos 865566 }
        ensures small { unsigned_abs result.0 < 2 ^ 55 }
        ensures below { result.1 < 2 ^ 30 }
    {
        let (era, year) = era_before_year(self.year);
        let month = days_to_month(year, self.month);
        (era, month + self.day_of_month as u32)
    }

    /// Returns the date `days` days after 1 January of the same year.
    #[inline]
    pub(crate) const fn in_year(year: i64, days: u16) -> Self
        requires { days < days_in_year year }
        ensures year { result.year ≡ year }
        ensures day { year_day_of result ≡ days + 1 }
    {
        let (month, day_of_month) = month_and_day_in_year(year, days);
        Self {
            year,
            month,
            day_of_month,
        }
    }

    /// Returns the date `days` days after 1 January of a year, or `None` if its year does not fit an `i64`.
    /// The date is in that year, the year before or the year after.
    pub(crate) fn in_nearby_year(year: i64, days: i64) -> Option<Self>
        requires from { pos 0 ≤ℤ (days +ℤ pos 6) }
        requires below { days <ℤ pos 372 }
        ensures { MatchOption result
            ((y : ℤ) → HasDay y (first_day year +ℤ days) → ¬ (FitsSigned w64 y))
            (λ date. number_of date ≡ first_day year +ℤ days) }
    {
        let (year, days) = nearby_year(year, days)?;
        Some(Self::in_year(year, days))
    }
}
