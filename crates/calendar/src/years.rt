//! Leap years, the lengths of years, and the year of a day.

ghost use Rattle.std.specs.Prelude.{◌≡◌, ◌↔◌, ◌<◌, ◌≤◌, ◌≤ℤ◌, ◌<ℤ◌, ◌+ℤ◌, ℤ, pos, FitsSigned, IsTrue, MatchOption};
ghost use Rattle.std.specs.Int.{w64};
ghost use Rattle.calendar.specs.LeapYears.{is_leap_year, is_multiple};
ghost use Rattle.calendar.specs.Years.{HasDay, days_in_year, first_day};

/// Returns `true` if the year has a 29 February. `is_leap_year(2000)` is `true`, `is_leap_year(1900)` is
/// `false`, and `is_leap_year(0)` is `true`.
#[tactic(auto, using(crate::proofs::YearLengths::multiples), unfolding(crate::specs::LeapYears::is_leap_year, crate::specs::LeapYears::is_multiple))]
#[inline]
pub const fn is_leap_year(year: i64) -> bool
    ensures { result ≡ is_leap_year year }
{
    // A multiple of 4 is a multiple of 100 if 25 divides it, and a multiple of 100 one of 400 if 16 does.
    if is_multiple(year, 25) {
        is_multiple(year, 16)
    } else {
        is_multiple(year, 4)
    }
}

/// Returns `true` if the year is a multiple of `number`.
#[tactic(auto, using(crate::proofs::YearLengths::multiples), unfolding(crate::specs::LeapYears::is_multiple))]
#[inline]
const fn is_multiple(year: i64, number: u16) -> bool
    requires { 0 < number }
    ensures { result ≡ is_multiple year number }
{
    year % number as i64 == 0
}

/// Returns how many days the year has. `days_in_year(1900)` is `365`.
#[tactic(auto, unfolding(crate::specs::Years::days_in_year))]
#[inline]
pub const fn days_in_year(year: i64) -> u16
    ensures days { result ≡ days_in_year year }
    ensures from_365 { 365 ≤ result }
    ensures to_366 { result ≤ 366 }
{
    if is_leap_year(year) { 366 } else { 365 }
}

/// Returns how many days the year has, as an `i64`.
#[tactic(auto, using(crate::proofs::YearLengths::length_range))]
#[inline]
const fn length_of(year: i64) -> i64
    ensures value { result ≡ pos (days_in_year year) }
    ensures from { pos 365 ≤ℤ result }
    ensures to { result ≤ℤ pos 366 }
{
    days_in_year(year) as i64
}

/// Returns `true` if the year has more than `days` days.
#[tactic(auto, using(crate::proofs::YearLengths::year_steps))]
#[inline]
pub(crate) const fn is_longer_than(year: i64, days: u16) -> bool
    ensures { IsTrue result ↔ (days < days_in_year year) }
{
    days < 365 || days < days_in_year(year)
}

/// Returns the year of the day `days` days after 1 January of a year, and the days from its 1 January to
/// that day, or `None` if that year does not fit an `i64`.
#[inline]
pub(crate) fn nearby_year(year: i64, days: i64) -> Option<(i64, u16)>
    requires from { pos 0 ≤ℤ (days +ℤ pos 6) }
    requires below { days <ℤ pos 372 }
    ensures { MatchOption result
        ((y : ℤ) → HasDay y (first_day year +ℤ days) → ¬ (FitsSigned w64 y))
        (λ found. (found.1 < days_in_year found.0)
        × (first_day found.0 +ℤ pos found.1 ≡ first_day year +ℤ days)) }
{
    if days < 0 {
        let before = year.checked_sub(1)?;
        Some((before, (days + length_of(before)) as u16))
    } else if is_longer_than(year, days as u16) {
        Some((year, days as u16))
    } else {
        let after = year.checked_add(1)?;
        Some((after, (days - length_of(year)) as u16))
    }
}
