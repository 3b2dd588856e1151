//! ISO 8601 weeks, which begin on Monday.

ghost use Rattle.std.specs.Prelude.{◌≡◌, ◌↔◌, ◌+◌, ◌%◌, ◌<◌, ◌≤◌, ◌+ℤ◌, ◌-ℤ◌, ◌*ℤ◌, ◌<ℤ◌, ◌≤ℤ◌, ℕ, ℤ, pos, FitsSigned, IfSome, IsTrue, MatchOption};
ghost use Rattle.std.specs.Int.{w64};
ghost use Rattle.integer_core.specs.Division.{IsFloored, IsRemainder};
ghost use Rattle.calendar.specs.Dates.{number_of};
ghost use Rattle.calendar.specs.IsoWeeks.{HasIsoWeek, HasIsoWeeks, IsDayOfIsoWeek, IsInIsoWeek, IsThursdayOfWeek, IsWeeksAfter};
ghost use Rattle.calendar.specs.Years.{HasDay, days_in_year, first_day};
ghost use Rattle.calendar.specs.Weekday.{weekday_number};
ghost use Rattle.calendar.specs.Weeks.{HasWeekday};
ghost use Rattle.calendar.specs.declared.weekday.Weekday.TheVariants.{Thursday};

use crate::eras::{WEEKS_PER_ERA, days_to_month, era_before_year, groups_and_rest};
use crate::years::{is_longer_than, nearby_year};
use crate::{Date, Weekday};
use integer_core::div_floor;
use integer_core::narrowing::narrowed;

/// An ISO 8601 week, from Monday to Sunday. Its year is the year of its Thursday. Week 1 contains the first
/// Thursday of the year. An earlier week is less than a later one.
///
/// `Date::from_day_number(4).iso_week()` is `IsoWeek::new(1970, 2)`.
#[derive(Debug, Clone, Copy, PartialEq, Eq, PartialOrd, Ord, Hash)]
pub struct IsoWeek {
    pub year: i64,
    pub week: u8,
    pub ghost valid: { ∥ HasIsoWeek year week ∥₁ },
}

impl IsoWeek {
    /// Returns the year of the Thursday of the week. `IsoWeek::new(2004, 53).unwrap().year()` is `2004`.
    pub const fn year(&self) -> i64
        ensures { result ≡ self.now.year }
    {
        self.year
    }

    /// Returns the number of the week in its year, from 1 to 52 or 53.
    /// `IsoWeek::new(2004, 53).unwrap().week()` is `53`.
    #[tactic(auto, using(crate::proofs::IsoWeeks::number_range))]
    pub const fn week(&self) -> u8
        ensures week { result ≡ self.now.week }
        ensures from_one { 1 ≤ result }
        ensures to_53 { result ≤ 53 }
    {
        self.week
    }

    /// Returns a week of a year, or `None` if the year has no such week.
    /// `IsoWeek::new(2004, 53).unwrap().week()` is `53`, and `IsoWeek::new(2005, 53)` is `None`.
    #[tactic(auto, using(crate::proofs::YearLengths::year_steps))]
    pub const fn new(year: i64, week: u8) -> Option<Self>
        ensures { MatchOption result (¬ (HasIsoWeek year week))
            (λ found. HasIsoWeek year week × (found.year ≡ year) × (found.week ≡ week)) }
    {
        match days_to_thursday_of_week(year, week) {
            Some(_) => Some(Self { year, week }),
            None => None,
        }
    }

    /// Returns the date of `weekday` in this week, or `None` if the year of the date does not fit in `i64`.
    /// `IsoWeek::new(2009, 53).unwrap().date_on(Weekday::Sunday)` is `Date::new(2010, 1, 3)`.
    #[tactic(auto, using(crate::proofs::YearLengths::year_steps))]
    pub fn date_on(&self, weekday: Weekday) -> Option<Date>
        ensures { MatchOption result
            ((day y : ℤ) → IsDayOfIsoWeek day self.now.year self.now.week weekday → HasDay y day
            → ¬ (FitsSigned w64 y))
            (λ date. IsDayOfIsoWeek (number_of date) self.now.year self.now.week weekday) }
    {
        Date::from_iso_week(self.year, self.week, weekday)
    }

    /// Returns the week `weeks` weeks after this one, or before it if `weeks` is negative, or `None` if its
    /// year does not fit an `i64`. `IsoWeek::new(2004, 53).unwrap().plus_weeks(1)` is `IsoWeek::new(2005, 1)`,
    /// and `IsoWeek::new(i64::MAX, 53).unwrap().plus_weeks(1)` is `None`.
    pub fn plus_weeks(&self, weeks: i64) -> Option<Self>
        ensures { MatchOption result
            ((year : ℤ) (week : ℕ) → IsWeeksAfter self.now.year self.now.week weeks year week
            → ¬ (FitsSigned w64 year))
            (λ later. IsWeeksAfter self.now.year self.now.week weeks later.year later.week) }
    {
        let (era, day) = self.thursday().day_of_era();
        let (eras, rest) = groups_and_rest(weeks, WEEKS_PER_ERA);
        Date::from_day_of_era(era + eras, i64::from(day + 7 * rest))?.iso_week()
    }

    /// Returns the number of weeks from this one to `to`, which is negative if `to` is earlier, or `None` if
    /// it does not fit.
    /// `IsoWeek::new(2004, 53).unwrap().weeks_between(&IsoWeek::new(2005, 2).unwrap())` is `Some(2)`.
    pub fn weeks_between(&self, to: &Self) -> Option<i64>
        ensures { MatchOption result
            ((weeks : ℤ) × IsWeeksAfter self.now.year self.now.week weeks to.now.year to.now.week
            × ¬ (FitsSigned w64 weeks))
            (λ weeks. IsWeeksAfter self.now.year self.now.week weeks to.now.year to.now.week) }
    {
        let days = to.thursday().wide_day_number() - self.thursday().wide_day_number();
        narrowed(div_floor(days, 7))
    }

    /// Returns the date of the Thursday of the week.
    #[tactic(auto, using(crate::proofs::IsoWeeks::number_range))]
    fn thursday(&self) -> Date
        ensures { IsDayOfIsoWeek (number_of result) self.now.year self.now.week Thursday }
    {
        let days = days_to_first_thursday(self.year) + 7 * (u16::from(self.week) - 1);
        Date::in_year(self.year, days)
    }
}

impl Date {
    /// Returns the ISO 8601 week of the date, or `None` if the year of the week does not fit in `i64`.
    /// `Date::new(2005, 1, 1).unwrap().iso_week()` is `IsoWeek::new(2004, 53)`.
    #[tactic(auto, using(crate::proofs::YearLengths::year_steps))]
    #[inline]
    pub fn iso_week(&self) -> Option<IsoWeek>
        ensures week { MatchOption result
            ((year : ℤ) (week : ℕ) → IsInIsoWeek (number_of self.now) year week → ¬ (FitsSigned w64 year))
            (λ found. IsInIsoWeek (number_of self.now) found.year found.week) }
        ensures from_one { IfSome result (λ found. 1 ≤ found.week) }
        ensures to_53 { IfSome result (λ found. found.week ≤ 53) }
    {
        let (year, days) = nearby_year(self.year, days_to_thursday_of_date(self))?;
        Some(IsoWeek {
            year,
            week: (days / 7 + 1) as u8,
        })
    }

    /// Returns the date of `weekday` in an ISO 8601 week. Returns `None` if the year has no such week, or if
    /// the year of the date does not fit in `i64`.
    /// `Date::from_iso_week(2009, 53, Weekday::Sunday)` is `Date::new(2010, 1, 3)`.
    #[tactic(auto, using(crate::proofs::YearLengths::year_steps))]
    pub fn from_iso_week(year: i64, week: u8, weekday: Weekday) -> Option<Self>
        ensures { MatchOption result
            ((day y : ℤ) → IsDayOfIsoWeek day year week weekday → HasDay y day → ¬ (FitsSigned w64 y))
            (λ date. IsDayOfIsoWeek (number_of date) year week weekday) }
    {
        let thursday = days_to_thursday_of_week(year, week)?;
        Self::in_nearby_year(year, days_to_weekday(thursday, weekday))
    }
}

/// Returns the number of ISO 8601 weeks in the year: 52 or 53. `weeks_in_year(2004)` is `53`.
pub fn weeks_in_year(year: i64) -> u8
    ensures weeks { HasIsoWeeks year result }
    ensures from_52 { 52 ≤ result }
    ensures to_53 { result ≤ 53 }
{
    match days_to_thursday_of_week(year, 53) {
        Some(_) => 53,
        None => 52,
    }
}

/// Returns the number of days from 1 January of the date's year to the Thursday of the date's week. The number
/// is negative if that Thursday is in the year before.
#[inline]
fn days_to_thursday_of_date(date: &Date) -> i64
    ensures of_week { IsThursdayOfWeek (number_of date.now) (first_day date.now.year +ℤ result) }
    ensures from { pos 0 ≤ℤ (result +ℤ pos 6) }
    ensures below { result <ℤ pos 372 }
{
    // 1 March of the first year of an era is a Wednesday.
    let (_, year_of_era) = era_before_year(date.year);
    let day = days_to_month(year_of_era, date.month) + u32::from(date.day_of_month);
    let thursday = day + 2 - (day + 1) % 7;
    i64::from(thursday) - i64::from(days_to_month(year_of_era, 1))
}

/// Returns the number of days from 1 January to the Thursday of the week, or `None` if the year has no such
/// week.
#[tactic(auto, using(crate::proofs::YearLengths::year_steps))]
const fn days_to_thursday_of_week(year: i64, week: u8) -> Option<u16>
    ensures week { MatchOption result (¬ (HasIsoWeek year week))
        (λ days. IsDayOfIsoWeek (first_day year +ℤ pos days) year week Thursday) }
    ensures below { IfSome result (λ days. days < 366) }
{
    if week == 0 {
        return None;
    }
    let days = days_to_first_thursday(year) + 7 * (week as u16 - 1);
    if is_longer_than(year, days) {
        Some(days)
    } else {
        None
    }
}

/// Returns the number of days from 1 January to the first Thursday of the year.
///
/// In Rattle, the contract counts from 1970-01-01, day 0, which is a Thursday.
const fn days_to_first_thursday(year: i64) -> u16
    ensures value { IsRemainder IsFloored (pos 0 -ℤ first_day year) (pos 7) (pos result) }
    ensures small { result < 7 }
{
    // 1 March of the first year of an era is a Wednesday.
    let (_, year_of_era) = era_before_year(year);
    let days_to_january = days_to_month(year_of_era, 1);
    6 - ((days_to_january + 5) % 7) as u16
}

/// Returns the number of days from a Monday to `weekday` of the same week.
fn days_after_monday(weekday: Weekday) -> i64
    ensures { result ≡ pos ((weekday_number weekday + 6) % 7) }
{
    i64::from((weekday.days_after_sunday() + 6) % 7)
}

/// Returns the number of days from 1 January to `weekday` in the week whose Thursday is `thursday` days after
/// 1 January.
fn days_to_weekday(thursday: u16, weekday: Weekday) -> i64
    requires { thursday < 366 }
    ensures value { result ≡ pos thursday -ℤ pos 3 +ℤ pos ((weekday_number weekday + 6) % 7) }
    ensures from { pos 0 ≤ℤ (result +ℤ pos 6) }
    ensures below { result <ℤ pos 372 }
{
    i64::from(thursday) - 3 + days_after_monday(weekday)
}
