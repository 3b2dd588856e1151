//! What is proved of `calendar` beside the main theorems.

ghost use Rattle.std.specs.Prelude.{◌≡◌, ◌≢◌, ◌⊎◌, ◌↔◌, ◌<◌, ◌<ℤ◌, FitsSigned, IsTrue, MatchOption, Some, if◌then◌else◌, pos, ℤ};
ghost use Rattle.std.specs.Int.{w64};
ghost use Rattle.std.specs.Option.{SomeIff};
ghost use Rattle.calendar.specs.Dates.{IsEarlier, number_of};
ghost use Rattle.calendar.specs.Easter.{IsEaster};
ghost use Rattle.calendar.specs.LeapYears.{is_leap_year};
ghost use Rattle.calendar.specs.declared.date.Date.{Date};
ghost use Rattle.num_integer.specs.Divisors.{Divides};
ghost use Rattle.num_integer.specs.Only.{IsOnly};

use calendar::{Date, days_between, easter, is_leap_year};

/// Returns `date`, which is the date of its day number, or `None` if the day number does not fit.
pub fn date_of_its_day_number(date: &Date) -> Option<Date>
    ensures { SomeIff result (FitsSigned w64 (number_of date.now)) date.now }
{
    Some(Date::from_day_number(date.day_number()?))
}

/// Returns `day`, which is the day number of its date. The contract also holds of a body that makes no call. The theorem is
/// that these calls meet it.
pub fn day_number_of_its_date(day: i64) -> Option<i64>
    ensures { result ≡ Some day }
{
    Date::from_day_number(day).day_number()
}

/// Returns `true` if the first date is earlier. Dates are in the order of their years, months and days of the month.
pub fn is_earlier(first: &Date, second: &Date) -> bool
    ensures { IsTrue result ↔ IsEarlier first.now second.now }
{
    first < second
}

/// Returns `true` if the day number of the first date is smaller. A law says that this is the order of dates.
#[tactic(auto, using(calendar::proofs::Laws::order_of_dates))]
pub fn is_before(first: &Date, second: &Date) -> bool
    ensures { IsTrue result ↔ (number_of first.now <ℤ number_of second.now) }
{
    is_earlier(first, second)
}

/// Returns `true` if the dates are equal. They are equal exactly if their day numbers are.
pub fn are_equal(first: &Date, second: &Date) -> bool
    ensures { IsTrue result ↔ (number_of first.now ≡ number_of second.now) }
{
    first == second
}

/// Returns `true` if the year is a leap year. The contract states the leap rule by divisibility.
pub fn has_leap_day(year: i64) -> bool
    ensures { IsTrue result
        ↔ (Divides (pos 4) year × ((¬ (Divides (pos 100) year)) ⊎ Divides (pos 400) year)) }
{
    is_leap_year(year)
}

/// Returns the number of days from the first of the year to the first of the next one, or `None` for the year
/// `i64::MAX`.
pub fn length_of_year(year: i64) -> Option<i64>
    ensures { MatchOption result (year ≡ i64.MAX)
        (λ days. (year ≢ i64.MAX) × (days ≡ pos (if is_leap_year year then 366 else 365))) }
{
    let first = Date {
        year,
        month: 1,
        day_of_month: 1,
    };
    let next = Date {
        year: year.checked_add(1)?,
        month: 1,
        day_of_month: 1,
    };
    days_between(&first, &next)
}

/// Returns the number of days from 1970-01-01 to the date, which is the day number of the date, or `None` if it does
/// not fit.
pub fn days_from_1970(date: &Date) -> Option<i64>
    ensures { SomeIff result (FitsSigned w64 (number_of date.now)) (number_of date.now) }
{
    let first = Date {
        year: 1970,
        month: 1,
        day_of_month: 1,
    };
    days_between(&first, date)
}

/// Returns the date of Easter. No other day is Easter of that year.
pub fn easter_is_unique(year: i64) -> Date
    ensures easter { IsEaster year (number_of result) }
    ensures only { IsOnly (IsEaster year) (number_of result) }
    ensures year { result.year ≡ year }
{
    easter(year)
}
