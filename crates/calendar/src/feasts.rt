//! The date of Easter.

ghost use Rattle.std.specs.Prelude.{◌≡◌, ◌⊎◌, ◌+◌, ◌<◌, ◌≤◌, ◌^◌, ◌+ℤ◌, ◌-ℤ◌, ◌*ℤ◌, pos, unsigned_abs};
ghost use Rattle.calendar.specs.Dates.{number_of};
ghost use Rattle.calendar.specs.Years.{day_number};
ghost use Rattle.calendar.specs.Easter.{IsCentury, IsEaster, IsEpact, IsGolden, IsLunarCorrection, IsPaschalFullMoon, IsSolarCorrection, days_to_full_moon};
ghost use Rattle.calendar.specs.Weeks.{IsFirstWeekday};
ghost use Rattle.calendar.specs.declared.weekday.Weekday.TheVariants.{Sunday};

use crate::Date;
use integer_core::{div_floor, mod_floor};

/// Returns the date of Easter Sunday: the first Sunday after the Paschal full moon, by the tables of Clavius
/// for the Gregorian calendar. `Some(easter(2024))` is `Date::new(2024, 3, 31)`.
#[tactic(auto, using(crate::proofs::EasterSundays::easter_steps))]
pub fn easter(year: i64) -> Date
    ensures year { result.year ≡ year }
    ensures easter { IsEaster year (number_of result) }
    ensures season { ((result.month ≡ 3) × (22 ≤ result.day_of_month))
        ⊎ ((result.month ≡ 4) × (result.day_of_month ≤ 25)) }
{
    let full_moon = paschal_full_moon(year);
    let days = days_to_next_sunday(&day_from_march(year, full_moon));
    day_from_march(year, full_moon + days)
}

/// Returns the date of a day that is counted from 1 March, which is day 1. Day 32 is 1 April.
fn day_from_march(year: i64, day: u8) -> Date
    requires from { 1 ≤ day }
    requires to { day ≤ 61 }
    ensures year { result.year ≡ year }
    ensures number { number_of result ≡ day_number year 3 day }
    ensures month { ((result.month ≡ 3) × (result.day_of_month ≡ day))
        ⊎ ((result.month ≡ 4) × (result.day_of_month + 31 ≡ day)) }
{
    if day <= 31 {
        Date {
            year,
            month: 3,
            day_of_month: day,
        }
    } else {
        Date {
            year,
            month: 4,
            day_of_month: day - 31,
        }
    }
}

/// Returns the number of days from the date to the next Sunday, which is 7 on a Sunday.
fn days_to_next_sunday(date: &Date) -> u8
    ensures sunday { IsFirstWeekday (number_of date.now +ℤ pos 1) Sunday (number_of date.now +ℤ pos result) }
    ensures from { 1 ≤ result }
    ensures to { result ≤ 7 }
{
    7 - date.weekday().days_after_sunday()
}

/// Returns the day of the Paschal full moon, counted from 1 March, which is day 1.
#[tactic(auto, using(crate::proofs::EasterSundays::easter_steps))]
fn paschal_full_moon(year: i64) -> u8
    ensures full_moon { IsPaschalFullMoon year (day_number year 3 result) }
    ensures from { 21 ≤ result }
    ensures to { result ≤ 49 }
{
    let golden = golden_of(year);
    21 + days_to_full_moon(epact_of(century_of(year), golden), golden)
}

/// Returns the number of days from 21 March to the Paschal full moon.
fn days_to_full_moon(epact: u8, golden: u8) -> u8
    requires { epact < 30 }
    ensures value { result ≡ days_to_full_moon epact golden }
    ensures small { result ≤ 28 }
{
    let days = (53 - epact) % 30;
    if epact == 24 || (epact == 25 && 10 < golden) {
        days - 1
    } else {
        days
    }
}

/// Returns the epact, the age of the moon on 1 January, in years of this century and golden number.
#[tactic(auto, using(crate::proofs::EasterSundays::easter_steps))]
fn epact_of(century: i64, golden: u8) -> u8
    requires { unsigned_abs century < 2 ^ 57 }
    ensures value { IsEpact century golden result }
    ensures small { result < 30 }
{
    let sum = epact_sum(golden, solar_correction(century), lunar_correction(century));
    mod_floor(sum, 30) as u8
}

/// Returns the number that leaves the epact as its remainder by 30.
fn epact_sum(golden: u8, solar: i64, lunar: i64) -> i64
    requires solar { unsigned_abs solar < 2 ^ 58 }
    requires lunar { unsigned_abs lunar < 2 ^ 58 }
    ensures value { result ≡ pos 11 *ℤ pos golden +ℤ pos 8 -ℤ solar +ℤ lunar }
    ensures small { unsigned_abs result < 2 ^ 60 }
{
    11 * i64::from(golden) + 8 - solar + lunar
}

/// Returns how many leap days the calendar has dropped in multiples of 100.
#[tactic(auto, using(crate::proofs::EasterSundays::easter_steps))]
fn solar_correction(century: i64) -> i64
    requires { unsigned_abs century < 2 ^ 57 }
    ensures value { IsSolarCorrection century result }
    ensures small { unsigned_abs result < 2 ^ 58 }
{
    century - div_floor(century, 4)
}

/// Returns how many days the moon has gained on its cycle of 19 years.
fn lunar_correction(century: i64) -> i64
    requires { unsigned_abs century < 2 ^ 57 }
    ensures value { IsLunarCorrection century result }
    ensures small { unsigned_abs result < 2 ^ 58 }
{
    div_floor(8 * century + 13, 25)
}

/// Returns the century of a year. The years 0 to 99 are in century 0.
fn century_of(year: i64) -> i64
    ensures value { IsCentury year result }
    ensures small { unsigned_abs result < 2 ^ 57 }
{
    div_floor(year, 100)
}

/// Returns the golden number of a year minus 1.
fn golden_of(year: i64) -> u8
    ensures { IsGolden year result }
{
    mod_floor(year, 19) as u8
}
