//! Eras of 400 years, after which the calendar repeats. An era has 146097 days. The years of this file
//! begin on 1 March, so a leap day is the last day of its year.
//!
//! The formulas are those of C. Neri and L. Schneider, "Euclidean affine functions and their application to
//! calendar algorithms" (2022), with a table for the days of the months.

ghost use Rattle.std.specs.Prelude.{◌≡◌, ◌+◌, ◌-◌, ◌<◌, ◌≤◌, ◌*◌, ◌^◌, ◌≤ℤ◌, ◌<ℤ◌, ◌+ℤ◌, ◌-ℤ◌, ◌*ℤ◌, ℤ, pos, unsigned_abs, FitsSigned, MatchOption};
ghost use Rattle.std.specs.Int.{w64};
ghost use Rattle.std.specs.Option.{SomeIff};
ghost use Rattle.calendar.specs.Months.{IsDate, days_before_month};
ghost use Rattle.calendar.specs.Years.{day_number, days_in_year};
ghost use Rattle.calendar.specs.declared.eras.TheConstants.{DAYS_FROM_MARCH, DAYS_PER_ERA, DAYS_TO_EPOCH, MARCH_BEFORE_ERA_0, MARCH_OF_ERA_0, NEAR_YEARS, YEARS_PER_ERA};

use integer_core::narrowing::narrowed;

/// The years of an era.
pub(crate) const YEARS_PER_ERA: i64 = 400;

/// The days of an era.
pub(crate) const DAYS_PER_ERA: i64 = 146097;

/// The weeks of an era.
pub(crate) const WEEKS_PER_ERA: i64 = 20871;

/// The quarters of a day in a century, on average.
const QUARTERS_PER_CENTURY: u32 = 146097;

/// The quarters of a day in a year of a century, on average.
const QUARTERS_PER_YEAR: u32 = 1461;

/// The days from 1 March to the end of the year.
pub(crate) const DAYS_FROM_MARCH: u32 = 306;

/// The 1 March from which the days since 1970-01-01 are counted: the last one that begins an era and is
/// not after 1970-01-01.
const MARCH_YEAR_BEFORE_EPOCH: i64 = 1600;

/// The days from that 1 March to 1970-01-01.
const DAYS_TO_EPOCH: u32 = (MARCH_OF_ERA_0 - 4 * DAYS_PER_ERA) as u32;

/// The days from 1 March of year 0 to 1970-01-01.
const MARCH_OF_ERA_0: i64 = 719468;

/// The days from 1 March of year -400 to 1970-01-01.
pub(crate) const MARCH_BEFORE_ERA_0: i64 = 865565;

/// The years from year 0 on that are not divided into eras, since the days of so many fit a `u32` four times.
const NEAR_YEARS: u32 = 2800000;

/// The days from a 1 March to the first of each month, from January of the next year on. No month has the
/// number 0.
const DAYS_FROM_MARCH_TO_MONTH: [u16; 13] = [
    0, 306, 337, 0, 31, 61, 92, 122, 153, 184, 214, 245, 275,
];

/// Returns the year as a `u32`, or `None` if it is not from 0 on and below `NEAR_YEARS`.
#[inline]
pub(crate) const fn near_year(year: i64) -> Option<u32>
    ensures { MatchOption result (¬ ((pos 0 ≤ℤ year) × (year <ℤ pos NEAR_YEARS)))
        (λ years. (pos years ≡ year) × (years < NEAR_YEARS)) }
{
    if 0 <= year && year < NEAR_YEARS as i64 {
        Some(year as u32)
    } else {
        None
    }
}

/// Returns an era that is not after a year, and how many years from its beginning on come before the year.
#[inline]
pub(crate) const fn era_before_year(year: i64) -> (i64, u32)
    ensures place { year ≡ YEARS_PER_ERA *ℤ result.0 +ℤ pos result.1 }
    ensures below { result.1 < NEAR_YEARS }
{
    match near_year(year) {
        Some(years) => (0, years),
        None => groups_and_rest(year, YEARS_PER_ERA),
    }
}

/// Returns the quotient of `n` by `size`, rounded down, and the remainder.
#[tactic(auto, using(crate::proofs::Remainders::division_steps))]
#[inline]
pub(crate) const fn groups_and_rest(n: i64, size: i64) -> (i64, u32)
    requires from { pos 0 <ℤ size }
    requires below { size <ℤ pos (2 ^ 32) }
    ensures place { n ≡ size *ℤ result.0 +ℤ pos result.1 }
    ensures below { pos result.1 <ℤ size }
{
    (n.div_euclid(size), n.rem_euclid(size) as u32)
}

/// Returns the number of days in `eras` eras and `days` days more, or `None` if it does not fit.
#[tactic(auto, using(std::proofs::lemmas::Int::wraps))]
#[inline]
pub(crate) fn days_of_eras(eras: i64, days: i64) -> Option<i64>
    requires eras_small { unsigned_abs eras < 2 ^ 57 }
    requires days_small { unsigned_abs days < 2 ^ 32 }
    ensures { SomeIff result (FitsSigned w64 (DAYS_PER_ERA *ℤ eras +ℤ days)) (DAYS_PER_ERA *ℤ eras +ℤ days) }
{
    match DAYS_PER_ERA.checked_mul(eras) {
        Some(whole) => whole.checked_add(days),
        None => narrowed(wide_sum(DAYS_PER_ERA, eras, days)),
    }
}

/// Returns `size` times `count` plus `more`.
#[inline]
pub(crate) fn wide_sum(size: i64, count: i64, more: i64) -> i128
    requires { unsigned_abs size < 2 ^ 18 }
    ensures { result ≡ size *ℤ count +ℤ more }
{
    i128::from(size) * i128::from(count) + i128::from(more)
}

/// Returns the days from 1 March, 400 years before the era begins, to the first of `month`, `year` years after
/// the era begins.
#[inline]
pub(crate) const fn days_to_month(year: u32, month: u8) -> u32
    requires near { year < NEAR_YEARS }
    requires from_one { 1 ≤ month }
    requires to_twelve { month ≤ 12 }
    ensures day { (era : ℤ) → day_number (YEARS_PER_ERA *ℤ era +ℤ pos year) month 1
        ≡ DAYS_PER_ERA *ℤ era +ℤ pos result -ℤ MARCH_BEFORE_ERA_0 }
    ensures small { result < 2 ^ 30 - 2 ^ 9 }
{
    days_of_years(year + 399 + from_march_on(month) as u32) + days_from_march(month) as u32
}

/// Returns 0 in January and February, and else 1.
#[inline]
pub(crate) const fn from_march_on(month: u8) -> u16
    ensures before { month ≤ 2 → result ≡ 0 }
    ensures after { 2 < month → result ≡ 1 }
{
    (2 < month) as u16
}

/// Returns the days from 1 March of the first year of an era to 1 March, `years` years later.
#[tactic(auto, using(crate::proofs::MarchYears::march_steps))]
#[inline]
const fn days_of_years(years: u32) -> u32
    requires { pos years <ℤ (pos NEAR_YEARS +ℤ YEARS_PER_ERA) }
    ensures day { (era : ℤ) → day_number (YEARS_PER_ERA *ℤ era +ℤ pos years) 3 1
        ≡ DAYS_PER_ERA *ℤ era +ℤ pos result -ℤ MARCH_OF_ERA_0 }
    ensures small { result < 2 ^ 30 - 2 ^ 10 }
{
    let centuries = years / 100;
    QUARTERS_PER_YEAR * years / 4 - 3 * (centuries + 1) / 4
}

/// Returns the days from the last 1 March to the first of `month`.
#[inline]
pub(crate) const fn days_from_march(month: u8) -> u16
    requires from_one { 1 ≤ month }
    requires to_twelve { month ≤ 12 }
    ensures early { month ≤ 2 → (year : ℤ) → result ≡ days_before_month year month + DAYS_FROM_MARCH }
    ensures from_january { month ≤ 2 → DAYS_FROM_MARCH ≤ result }
    ensures late { 2 < month → (year : ℤ) → days_before_month year month ≡ days_before_month year 3 + result }
    ensures small { result ≤ 337 }
{
    DAYS_FROM_MARCH_TO_MONTH[month as usize]
}

/// Returns the month and the day of the month `days` days after 1 March.
#[tactic(auto, using(crate::proofs::MarchYears::month_steps))]
#[inline]
pub(crate) const fn month_and_day(days: u32) -> (u8, u8)
    requires { days < 366 }
    ensures from_march { (year : ℤ) → days < DAYS_FROM_MARCH → IsDate year result.0 result.1
        × (days_before_month year result.0 + result.1 ≡ days_before_month year 3 + days + 1) }
    ensures next_year { (year : ℤ) → DAYS_FROM_MARCH ≤ days → days < days_before_month year 3 + DAYS_FROM_MARCH
        → IsDate year result.0 result.1 × (days_before_month year result.0 + result.1 + 305 ≡ days) }
{
    // 65536 / 2141 is also close to 153 / 5.
    let scaled = 2141 * days + 197913;
    let month = (scaled / 65536) as u8;
    (
        if month <= 12 { month } else { month - 12 },
        (scaled % 65536 / 2141 + 1) as u8,
    )
}

/// Returns the year, the month and the day of the month `days` days after 1 March of `year`.
#[tactic(auto, using(crate::proofs::MarchYears::march_parts))]
#[inline]
pub(crate) const fn parts_from_march(year: i64, days: u32) -> (i64, u8, u8)
    requires within { days < days_in_year (year +ℤ pos 1) }
    requires next_fits { FitsSigned w64 (year +ℤ pos 1) }
    ensures date { IsDate result.0 result.1 result.2 }
    ensures day { day_number result.0 result.1 result.2 ≡ day_number year 3 1 +ℤ pos days }
{
    let (month, day_of_month) = month_and_day(days);
    (
        if days < DAYS_FROM_MARCH {
            year
        } else {
            year + 1
        },
        month,
        day_of_month,
    )
}

/// Returns the year whose 1 March is the last one that is not after the day, and the days from there.
#[tactic(auto, using(crate::proofs::YearLengths::year_steps))]
#[inline]
pub(crate) const fn march_year_of_day(day: i64) -> (i64, u32)
    ensures day { day_number result.0 3 1 +ℤ pos result.1 ≡ day }
    ensures within { result.1 < days_in_year (result.0 +ℤ pos 1) }
    ensures next_fits { FitsSigned w64 (result.0 +ℤ pos 1) }
{
    let (era, days) = groups_and_rest(day, DAYS_PER_ERA);
    let (years, rest) = march_year(days + DAYS_TO_EPOCH);
    (
        YEARS_PER_ERA * era + (years as i64 + MARCH_YEAR_BEFORE_EPOCH),
        rest,
    )
}

/// Returns how many whole years there are in the `days` days from 1 March of the first year of an era, and
/// the days that are left.
#[inline]
const fn march_year(days: u32) -> (u32, u32)
    requires { pos days <ℤ (DAYS_PER_ERA +ℤ pos DAYS_TO_EPOCH) }
    ensures day { (era : ℤ) → day_number (YEARS_PER_ERA *ℤ era +ℤ pos result.0) 3 1 +ℤ pos result.1
        ≡ DAYS_PER_ERA *ℤ era +ℤ pos days -ℤ MARCH_OF_ERA_0 }
    ensures within { (era : ℤ) → result.1 < days_in_year (YEARS_PER_ERA *ℤ era +ℤ pos result.0 +ℤ pos 1) }
    ensures small { result.0 < 900 }
{
    let quarters = 4 * days + 3;
    let of_century = quarters % QUARTERS_PER_CENTURY / 4 * 4 + 3;
    (
        100 * (quarters / QUARTERS_PER_CENTURY) + of_century / QUARTERS_PER_YEAR,
        of_century % QUARTERS_PER_YEAR / 4,
    )
}
