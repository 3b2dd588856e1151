//! Functions that call `calendar`.

ghost use Rattle.std.specs.Prelude.{[], ◌∷◌, ◌++◌, ◌^◌, List, length, ◌≡◌, ◌⊎◌, ◌↔◌, ◌+◌, ◌-◌, ◌<◌, ◌≤◌, ◌<ℤ◌, ◌+ℤ◌, ◌-ℤ◌, FitsSigned, IfOk, IfSome, IsTrue, MatchOption, Ok, map, pos, slice_index, ℕ, ℤ};
ghost use Rattle.std.specs.Int.{w64};
ghost use Rattle.std.specs.Option.{SomeIff};
ghost use Rattle.calendar.specs.Dates.{HasFifthWeekday, HasMonths, IsEarlier, IsLastOfMonth, IsLastWeekdayOfMonth, IsMonthsAfter, IsMonthsBetween, IsNextLastWeekday, IsNthWeekday, IsYearsBetween, day_numbers, number_of, year_day_of};
ghost use Rattle.calendar.specs.IsoWeeks.{HasIsoWeek, HasIsoWeeks, IsDayOfIsoWeek, IsInIsoWeek, IsWeeksAfter};
ghost use Rattle.calendar.specs.Months.{IsDate, days_in_month, month_number};
ghost use Rattle.calendar.specs.Weekday.{iso_number};
ghost use Rattle.calendar.specs.Weeks.{HasWeekday, IsFirstWeekday, IsLastWeekday, IsWeekdayAfter};
ghost use Rattle.calendar.specs.Years.{HasDay, days_in_year};
ghost use Rattle.calendar.specs.declared.date.Date.{Date};
ghost use Rattle.calendar.specs.declared.weekday.Weekday.{Weekday};
ghost use Rattle.calendar.specs.declared.weekday.Weekday.TheVariants.{Friday};

use calendar::{
    Date, DateError, IsoWeek, Weekday, days_between, days_in_month, days_in_year,
    first_weekday_on_or_after, last_weekday_of_month, last_weekday_on_or_before, months_between,
    next_last_weekday, nth_weekday_of_month, weekday_of, weeks_in_year, years_between,
};
use std::alloc::{AllocError, Global};

// ---- what a caller can prove from the contracts

/// Returns the number of working days in the week of the date, or `None` if the year of the week does not fit. A table
/// has that number for each of the 53 weeks of a year.
pub fn working_days(date: &Date, table: &[u8; 53]) -> Option<u8>
    ensures { MatchOption result
        ((year : ℤ) (week : ℕ) → IsInIsoWeek (number_of date.now) year week → ¬ (FitsSigned w64 year))
        (λ days. (year : ℤ) × (place : ℕ) × IsInIsoWeek (number_of date.now) year (place + 1)
        × (days ≡ slice_index table.now place)) }
{
    let week = date.iso_week()?;
    Some(table[usize::from(week.week) - 1])
}

/// Returns `week`, which is from 1 to 53, or `None` if the year has no such week. The Thursday of the week is in `year`.
pub fn week_of_year(year: i64, week: u8) -> Option<u8>
    ensures { MatchOption result (¬ (HasIsoWeek year week))
        (λ found. HasIsoWeek year week × (found ≡ week) × (1 ≤ found) × (found ≤ 53)) }
{
    let _thursday = Date::from_iso_week(year, week, Weekday::Thursday)?;
    Some(week)
}

/// Returns `true` if the week of the first date is earlier. Then the first date is earlier too. Returns `None` if the
/// year of a week does not fit.
pub fn is_in_earlier_week(first: &Date, second: &Date) -> Option<bool>
    ensures { MatchOption result
        (((year : ℤ) (week : ℕ) → IsInIsoWeek (number_of first.now) year week → ¬ (FitsSigned w64 year))
        ⊎ ((year : ℤ) (week : ℕ) → IsInIsoWeek (number_of second.now) year week
        → ¬ (FitsSigned w64 year)))
        (λ earlier. (year : ℤ) × (week : ℕ) × (other : ℤ) × (number : ℕ)
        × IsInIsoWeek (number_of first.now) year week × IsInIsoWeek (number_of second.now) other number
        × (IsTrue earlier ↔ ((year <ℤ other) ⊎ ((year ≡ other) × (week < number))))
        × (IsTrue earlier → number_of first.now <ℤ number_of second.now)) }
{
    let week = first.iso_week()?;
    let other = second.iso_week()?;
    Some(is_earlier_week(&week, &other))
}

/// Adds the lengths of the months. The loop invariant says that each has from 28 to 31 days, so the sum is from 336 to
/// 372.
pub fn days_of_months(year: i64) -> u16
    ensures { (336 ≤ result) × (result ≤ 372) }
{
    let mut days = 0;
    for month in 1..=12 {
        days += u16::from(days_in_month(year, month));
    }
    days
}

/// Returns the day of the week of the date, which is that of the date a week later, or `None` if the year of that
/// date does not fit.
#[tactic(auto, using(calendar::proofs::ForCallers::week_later))]
pub fn weekday_in_a_week(date: &Date) -> Option<Weekday>
    ensures { MatchOption result
        ((later : Date) → number_of later ≡ number_of date.now +ℤ pos 7 → ¬ (FitsSigned w64 later.year))
        (λ weekday. HasWeekday (number_of date.now +ℤ pos 7) weekday) }
{
    date.plus_days(7)?;
    Some(date.weekday())
}

/// Returns `true` if `date` is later than `first`. It is so if its month is later.
#[tactic(auto, using(calendar::proofs::ForCallers::later_month))]
pub fn is_after_month(date: &Date, first: &Date) -> bool
    ensures later { IsTrue result ↔ (number_of first.now <ℤ number_of date.now) }
    ensures month { month_number first.now.year first.now.month
        <ℤ month_number date.now.year date.now.month → IsTrue result }
{
    is_before(first, date)
}

/// Returns `true` if the first date is earlier.
fn is_earlier(first: &Date, second: &Date) -> bool
    ensures { IsTrue result ↔ IsEarlier first.now second.now }
{
    first < second
}

/// Returns `true` if the day number of the first date is smaller.
#[tactic(auto, using(calendar::proofs::Laws::order_of_dates))]
fn is_before(first: &Date, second: &Date) -> bool
    ensures { IsTrue result ↔ (number_of first.now <ℤ number_of second.now) }
{
    is_earlier(first, second)
}

/// Returns `true` if the first week is earlier.
#[tactic(auto, using(std::proofs::lemmas::Int::ints, std::proofs::lemmas::Bool::Decides::nat_tests))]
fn is_earlier_week(first: &IsoWeek, second: &IsoWeek) -> bool
    ensures { IsTrue result ↔ ((first.now.year <ℤ second.now.year)
        ⊎ ((first.now.year ≡ second.now.year) × (first.now.week < second.now.week))) }
{
    first < second
}

/// Returns `true` if the date a month later has a year that does not fit.
pub fn has_no_date_a_month_later(date: &Date) -> bool
    ensures { IsTrue result
        ↔ ((later : Date) × IsMonthsAfter date.now (pos 1) later × ¬ (FitsSigned w64 later.year)) }
{
    match date.plus_months(1) {
        Some(_) => false,
        None => true,
    }
}

// ---- results as a caller uses them

/// Returns `true` if there is a date with these parts.
pub fn is_date(year: i64, month: u8, day: u8) -> bool
    ensures { IsTrue result ↔ IsDate year month day }
{
    match Date::new(year, month, day) {
        Some(_) => true,
        None => false,
    }
}

/// Returns the day number of the date, or `i64::MAX` if it does not fit.
pub fn day_number_or_max(date: &Date) -> i64
    ensures number { FitsSigned w64 (number_of date.now) → result ≡ number_of date.now }
    ensures max { ¬ (FitsSigned w64 (number_of date.now)) → result ≡ i64.MAX }
{
    match date.day_number() {
        Some(day) => day,
        None => i64::MAX,
    }
}

/// Returns the date of a day of the year, or another date of that year if the year has no such day.
pub fn day_of_year_or_first(year: i64, day_of_year: u16) -> Date
    ensures year { result.year ≡ year }
    ensures day { 1 ≤ day_of_year → day_of_year ≤ days_in_year year → year_day_of result ≡ day_of_year }
{
    match Date::from_year_day(year, day_of_year) {
        Some(date) => date,
        None => Date {
            year,
            month: 1,
            day_of_month: 1,
        },
    }
}

/// Returns the next date, or `date` itself if the year of the next one does not fit.
pub fn tomorrow(date: &Date) -> Date
    ensures { (number_of result ≡ number_of date.now +ℤ pos 1)
        ⊎ ((result ≡ date.now)
        × (date.now.year ≡ i64.MAX) × (date.now.month ≡ 12) × (date.now.day_of_month ≡ 31)) }
{
    match date.next() {
        Some(next) => next,
        None => *date,
    }
}

/// Returns the previous date, or `None` if its year does not fit.
pub fn yesterday(date: &Date) -> Option<Date>
    ensures { MatchOption result
        ((date.now.year ≡ i64.MIN) × (date.now.month ≡ 1) × (date.now.day_of_month ≡ 1))
        (λ d. number_of d ≡ number_of date.now -ℤ pos 1) }
{
    if let Some(previous) = date.previous() {
        Some(previous)
    } else {
        None
    }
}

/// Returns the date a week later, or `None` if its year does not fit.
pub fn week_later(date: &Date) -> Option<Date>
    ensures { MatchOption result
        ((later : Date) → number_of later ≡ number_of date.now +ℤ pos 7 → ¬ (FitsSigned w64 later.year))
        (λ later. number_of later ≡ number_of date.now +ℤ pos 7) }
{
    match date.plus_days(7) {
        Some(later) => Some(later),
        None => None,
    }
}

/// Returns the date a month later, or `None` if its year does not fit.
pub fn month_later(date: &Date) -> Option<Date>
    ensures { MatchOption result
        ((later : Date) → IsMonthsAfter date.now (pos 1) later → ¬ (FitsSigned w64 later.year))
        (λ later. IsMonthsAfter date.now (pos 1) later) }
{
    match date.plus_months(1) {
        Some(later) => Some(later),
        None => None,
    }
}

/// Returns the number of days from `from` to `to`, or 0 if it does not fit.
pub fn nights(from: &Date, to: &Date) -> i64
    ensures days { FitsSigned w64 (number_of to.now -ℤ number_of from.now)
        → result ≡ number_of to.now -ℤ number_of from.now }
    ensures none { ¬ (FitsSigned w64 (number_of to.now -ℤ number_of from.now)) → result ≡ pos 0 }
{
    match days_between(from, to) {
        Some(days) => days,
        None => 0,
    }
}

/// Returns the first Monday from `day` on, or `day` itself if that Monday does not fit.
pub fn monday_on_or_after(day: i64) -> i64
    ensures { IsFirstWeekday day Weekday.Monday result
        ⊎ ((result ≡ day)
        × ((first : ℤ) → IsFirstWeekday day Weekday.Monday first → ¬ (FitsSigned w64 first))) }
{
    first_weekday_on_or_after(day, Weekday::Monday).unwrap_or(day)
}

/// Returns the first Monday of September, or `None` if no date is the first Monday of September.
pub fn labor_day(year: i64) -> Option<Date>
    ensures { MatchOption result
        ((date : Date) → ¬ (IsNthWeekday year 9 Weekday.Monday 1 date))
        (λ date. IsNthWeekday year 9 Weekday.Monday 1 date) }
{
    match nth_weekday_of_month(year, 9, Weekday::Monday, 1) {
        Some(date) => Some(date),
        None => None,
    }
}

/// Returns the year and the number of the week of the date, or `None` if that year does not fit.
pub fn week_of(date: &Date) -> Option<(i64, u8)>
    ensures { MatchOption result
        ((year : ℤ) (week : ℕ) → IsInIsoWeek (number_of date.now) year week → ¬ (FitsSigned w64 year))
        (λ r. IsInIsoWeek (number_of date.now) r.0 r.1) }
{
    let IsoWeek { year, week, .. } = date.iso_week()?;
    Some((year, week))
}

/// Returns the Monday of the week, or `None` if its year does not fit.
pub fn monday_of(week: IsoWeek) -> Option<Date>
    ensures { MatchOption result
        ((day y : ℤ) → IsDayOfIsoWeek day week.year week.week Weekday.Monday → HasDay y day
        → ¬ (FitsSigned w64 y))
        (λ date. IsDayOfIsoWeek (number_of date) week.year week.week Weekday.Monday) }
{
    match Date::from_iso_week(week.year, week.week, Weekday::Monday) {
        Some(date) => Some(date),
        None => None,
    }
}

/// Returns `true` if the day is a Saturday or a Sunday.
pub fn is_at_weekend(day: i64) -> bool
    ensures { IsTrue result ↔ (HasWeekday day Weekday.Saturday ⊎ HasWeekday day Weekday.Sunday) }
{
    match weekday_of(day) {
        Weekday::Saturday | Weekday::Sunday => true,
        Weekday::Monday
        | Weekday::Tuesday
        | Weekday::Wednesday
        | Weekday::Thursday
        | Weekday::Friday => false,
    }
}

/// Returns the last day of the month after that of the date, or `None` if the year of that month does not fit.
pub fn end_of_next_month(date: &Date) -> Option<Date>
    ensures { MatchOption result
        ((later : Date) → IsMonthsAfter date.now (pos 1) later → ¬ (FitsSigned w64 later.year))
        (λ end. (month_number end.year end.month
        ≡ month_number date.now.year date.now.month +ℤ pos 1)
        × (end.day_of_month ≡ days_in_month end.year end.month)) }
{
    let Date { year, month, .. } = date.plus_months(1)?;
    Some(Date {
        year,
        month,
        day_of_month: days_in_month(year, month),
    })
}

/// Returns the last day of the month.
pub fn last_day_of_month(year: i64, month: u8) -> Date
    requires from_one { 1 ≤ month }
    requires to_twelve { month ≤ 12 }
    ensures year { result.year ≡ year }
    ensures month { result.month ≡ month }
    ensures last { result.day_of_month ≡ days_in_month year month }
{
    Date {
        year,
        month,
        day_of_month: days_in_month(year, month),
    }
}

/// Returns the number of days in a year and the next one, or `None` for the year `i64::MAX`.
pub fn days_of_two_years(year: i64) -> Option<u16>
    ensures { MatchOption result (year ≡ i64.MAX)
        (λ days. days ≡ days_in_year year + days_in_year (year +ℤ pos 1)) }
{
    let next = year.checked_add(1)?;
    Some(days_in_year(year) + days_in_year(next))
}

/// Returns the age in months, or `None` if it does not fit.
pub fn age_in_months(birth: &Date, today: &Date) -> Option<i64>
    ensures { MatchOption result
        ((months : ℤ) × IsMonthsBetween birth.now today.now months × ¬ (FitsSigned w64 months))
        (λ months. IsMonthsBetween birth.now today.now months) }
{
    match months_between(birth, today) {
        Some(months) => Some(months),
        None => None,
    }
}

/// Returns the same number of months. The date one month more after `birth` is later than `today`.
pub fn whole_months_old(birth: &Date, today: &Date) -> Option<i64>
    ensures { MatchOption result
        ((months : ℤ) × IsMonthsBetween birth.now today.now months × ¬ (FitsSigned w64 months))
        (λ months. HasMonths birth.now today.now months
        × ((date : Date) → IsMonthsAfter birth.now (months +ℤ pos 1) date
        → number_of today.now <ℤ number_of date)) }
{
    Some(months_between(birth, today)?)
}

/// Returns the age in years, or `None` if it does not fit.
pub fn age_in_years(birth: &Date, today: &Date) -> Option<i64>
    ensures { MatchOption result
        ((years : ℤ) × IsYearsBetween birth.now today.now years × ¬ (FitsSigned w64 years))
        (λ years. IsYearsBetween birth.now today.now years) }
{
    years_between(birth, today)
}

/// Returns the last Friday of a month. Each month has one.
pub fn pay_day_of_month(year: i64, month: u8) -> Date
    requires from_one { 1 ≤ month }
    requires to_twelve { month ≤ 12 }
    ensures { IsLastWeekdayOfMonth year month Friday result }
{
    last_weekday_of_month(year, month, Weekday::Friday).unwrap()
}

/// Returns the first pay day after the date, or the date itself if the year of that pay day does not fit. Pay day is the
/// last Friday of each month.
pub fn pay_day_or_same(date: &Date) -> Date
    ensures { IsNextLastWeekday date.now Friday result
        ⊎ ((result ≡ date.now)
        × ((next : Date) → IsNextLastWeekday date.now Friday next → ¬ (FitsSigned w64 next.year))) }
{
    match next_last_weekday(date, Weekday::Friday) {
        Some(next) => next,
        None => *date,
    }
}

/// Returns the n-th day of the week in two months of a year: the second Tuesdays, say. Each month has the first four. As this
/// is so for each two months, the twelve of a year are in order.
#[tactic(auto, using(calendar::proofs::ForCallers::later_month))]
pub fn in_two_months(year: i64, first: u8, second: u8, weekday: Weekday, n: u8) -> (Date, Date)
    requires months { (1 ≤ first) × (first < second) × (second ≤ 12) }
    requires within { (1 ≤ n) × (n ≤ 4) }
    ensures earlier { IsNthWeekday year first weekday n result.0 }
    ensures later { IsNthWeekday year second weekday n result.1 }
    ensures in_order { number_of result.0 <ℤ number_of result.1 }
{
    let earlier = nth_weekday_of_month(year, first, weekday, n).unwrap();
    let later = nth_weekday_of_month(year, second, weekday, n).unwrap();
    (earlier, later)
}

/// Returns the second Tuesday of a month, or `None` if `month` is not from 1 to 12.
pub fn second_tuesday(year: i64, month: u8) -> Option<Date>
    ensures { MatchOption result (¬ ((1 ≤ month) × (month ≤ 12)))
        (λ date. IsNthWeekday year month Weekday.Tuesday 2 date) }
{
    match month {
        1..=12 => Some(nth_weekday_of_month(year, month, Weekday::Tuesday, 2).unwrap()),
        _ => None,
    }
}

/// Returns `true` if there are five Sundays in the month.
pub fn has_five_sundays(year: i64, month: u8) -> bool
    requires from_one { 1 ≤ month }
    requires to_twelve { month ≤ 12 }
    ensures { IsTrue result ↔ HasFifthWeekday year month Weekday.Sunday }
{
    match nth_weekday_of_month(year, month, Weekday::Sunday, 5) {
        Some(_) => true,
        None => false,
    }
}

/// Returns the last Friday of a month, or `None` if there is no such month.
pub fn last_friday(year: i64, month: u8) -> Option<Date>
    ensures { MatchOption result (¬ ((1 ≤ month) × (month ≤ 12)))
        (λ date. IsLastWeekdayOfMonth year month Weekday.Friday date) }
{
    match last_weekday_of_month(year, month, Weekday::Friday) {
        Some(date) => Some(date),
        None => None,
    }
}

/// Returns the last Sunday up to `day`, or `day` itself if that Sunday does not fit.
pub fn sunday_on_or_before(day: i64) -> i64
    ensures { IsLastWeekday day Weekday.Sunday result
        ⊎ ((result ≡ day)
        × ((last : ℤ) → IsLastWeekday day Weekday.Sunday last → ¬ (FitsSigned w64 last))) }
{
    last_weekday_on_or_before(day, Weekday::Sunday).unwrap_or(day)
}

/// Returns the day of the week with this ISO number, or Monday if no day has it.
pub fn weekday_or_monday(number: u8) -> Weekday
    ensures weekday { 1 ≤ number → number ≤ 7 → iso_number result ≡ number }
    ensures monday { ¬ ((1 ≤ number) × (number ≤ 7)) → result ≡ Weekday.Monday }
{
    match Weekday::from_iso_number(number) {
        Some(weekday) => weekday,
        None => Weekday::Monday,
    }
}

/// Returns the number of weeks in the year after the week.
pub fn weeks_left(week: &IsoWeek) -> u8
    ensures { (weeks : ℕ) × HasIsoWeeks week.now.year weeks × (result ≡ weeks - week.now.week) }
{
    weeks_in_year(week.year).saturating_sub(week.week)
}

/// Returns the number of days in the year after the date.
pub fn days_left(date: &Date) -> u16
    ensures { result + year_day_of date.now ≡ days_in_year date.now.year }
{
    days_in_year(date.year) - date.day_of_year()
}

/// Returns the ISO number of the day of the week of the date, which is 1 on Monday.
pub fn weekday_number_of(date: &Date) -> u8
    ensures { (weekday : Weekday) × HasWeekday (number_of date.now) weekday
        × (result ≡ iso_number weekday) }
{
    date.weekday().iso_number()
}

/// Returns the Friday of the week, or `None` if its year does not fit.
pub fn friday_of(week: &IsoWeek) -> Option<Date>
    ensures { MatchOption result
        ((day y : ℤ) → IsDayOfIsoWeek day week.now.year week.now.week Weekday.Friday → HasDay y day
        → ¬ (FitsSigned w64 y))
        (λ date. IsDayOfIsoWeek (number_of date) week.now.year week.now.week Weekday.Friday) }
{
    match week.date_on(Weekday::Friday) {
        Some(friday) => Some(friday),
        None => None,
    }
}

/// Returns `week`, which is the week of the date of each of its days, or `None`. The contract does not say when it is
/// `None`.
pub fn week_of_its_date(week: &IsoWeek, weekday: Weekday) -> Option<IsoWeek>
    ensures { IfSome result (λ again. again ≡ week.now) }
{
    Date::from_iso_week(week.year, week.week, weekday)?.iso_week()
}

/// Returns `date`, which is the date of its week and its day of the week, or `None`. The contract does not say when it
/// is `None`.
pub fn date_of_its_week(date: &Date) -> Option<Date>
    ensures { IfSome result (λ again. again ≡ date.now) }
{
    let week = date.iso_week()?;
    Date::from_iso_week(week.year, week.week, date.weekday())
}

/// Returns the day of the week `days` days after the date, or `None` if the year of that day does not fit.
pub fn weekday_later(date: &Date, days: i64) -> Option<Weekday>
    ensures { MatchOption result
        ((later : Date) → number_of later ≡ number_of date.now +ℤ days → ¬ (FitsSigned w64 later.year))
        (λ weekday. HasWeekday (number_of date.now +ℤ days) weekday) }
{
    Some(date.plus_days(days)?.weekday())
}

/// Returns the result of parsing the string of the date, or an error, of which the contract says nothing. The parsed
/// date is the date.
pub fn print_and_parse(alloc: Global, date: Date) -> Result<Result<Date, DateError>, AllocError>
    ensures { IfOk result (λ read. read ≡ Ok date) }
{
    let text = date.to_string(alloc)?;
    Ok(text.as_str().parse())
}

/// Collects the dates from `from` on that are before `end`. The contract says nothing of an error.
pub fn dates_until(alloc: Global, from: Date, end: Date) -> Result<Vec<Date>, AllocError>
    ensures { IfOk result (λ v. map number_of v.items ≡ day_numbers (number_of from) (number_of end)) }
{
    from.days_until(end).collect(alloc)
}

// ---- methods, operators and ranges of dates

/// Returns the next date, whose year fits.
pub fn day_after(date: Date) -> Date
    requires { (next : Date) → number_of next ≡ number_of date +ℤ pos 1 → FitsSigned w64 next.year }
    ensures { number_of result ≡ number_of date +ℤ pos 1 }
{
    date + 1
}

/// Returns the date a week earlier, whose year fits.
pub fn a_week_earlier(date: Date) -> Date
    requires { (earlier : Date) → number_of earlier ≡ number_of date -ℤ pos 7 → FitsSigned w64 earlier.year }
    ensures { number_of result ≡ number_of date -ℤ pos 7 }
{
    date - 7
}

/// Moves the date a number of days on. The year of that date fits.
pub fn postpone(due: &mut Date, days: i64)
    requires { (later : Date) → number_of later ≡ number_of due.old +ℤ days → FitsSigned w64 later.year }
    ensures { number_of due.new ≡ number_of due.old +ℤ days }
{
    *due += days;
}

/// Returns the days from the first date to the second, which fit.
pub fn exact_nights(arrival: Date, departure: Date) -> i64
    requires { FitsSigned w64 (number_of departure -ℤ number_of arrival) }
    ensures { result ≡ number_of departure -ℤ number_of arrival }
{
    departure - arrival
}

/// Returns the days from the first date to the second, or `None` if they do not fit.
pub fn checked_nights(arrival: &Date, departure: &Date) -> Option<i64>
    ensures { SomeIff result (FitsSigned w64 (number_of departure.now -ℤ number_of arrival.now))
        (number_of departure.now -ℤ number_of arrival.now) }
{
    arrival.days_between(departure)
}

/// Returns the whole months from the first date to the second, or `None` if they do not fit. That many months after the
/// first date is a date not later than the second, and one month more leads beyond it.
pub fn whole_months(from: &Date, to: &Date) -> Option<i64>
    ensures { MatchOption result
        ((months : ℤ) × IsMonthsBetween from.now to.now months × ¬ (FitsSigned w64 months))
        (λ months. IsMonthsBetween from.now to.now months) }
{
    match from.months_between(to) {
        Some(months) => Some(months),
        None => None,
    }
}

/// Returns the age in whole years, or `None` if it does not fit.
pub fn whole_years(born: &Date, today: &Date) -> Option<i64>
    ensures { MatchOption result
        ((years : ℤ) × IsYearsBetween born.now today.now years × ¬ (FitsSigned w64 years))
        (λ years. IsYearsBetween born.now today.now years) }
{
    born.years_between(today)
}

/// Returns the date `days` days earlier, or `None` if its year does not fit.
pub fn days_earlier(date: &Date, days: i64) -> Option<Date>
    ensures { MatchOption result
        ((earlier : Date) → number_of earlier ≡ number_of date.now -ℤ days → ¬ (FitsSigned w64 earlier.year))
        (λ earlier. number_of earlier ≡ number_of date.now -ℤ days) }
{
    match date.minus_days(days) {
        Some(earlier) => Some(earlier),
        None => None,
    }
}

/// Returns the next date that is the last Friday of its month, or `None` if its year does not fit.
pub fn next_payday(today: &Date) -> Option<Date>
    ensures { MatchOption result
        ((date : Date) → IsNextLastWeekday today.now Weekday.Friday date → ¬ (FitsSigned w64 date.year))
        (λ date. IsNextLastWeekday today.now Weekday.Friday date) }
{
    today.next_last_weekday(Weekday::Friday)
}

/// Returns the last date that is not before `from` and is before `end`, or `None` if no date is.
pub fn last_date(from: Date, end: Date) -> Option<Date>
    ensures { MatchOption result (day_numbers (number_of from) (number_of end) ≡ [])
        (λ last. (others : List ℤ) × (day_numbers (number_of from) (number_of end) ≡ others ++ number_of last ∷ [])) }
{
    from.days_until(end).next_back()
}

/// Returns how many dates there are from `from` on that are before `end`, or `None` if the number does not fit.
pub fn number_of_dates(from: Date, end: Date) -> Option<usize>
    ensures { SomeIff result (length (day_numbers (number_of from) (number_of end)) < 2 ^ 64)
        (length (day_numbers (number_of from) (number_of end))) }
{
    from.days_until(end).len()
}

/// Returns `true` if no date from `from` on is before `end`.
pub fn has_no_dates(from: Date, end: Date) -> bool
    ensures { IsTrue result ↔ (day_numbers (number_of from) (number_of end) ≡ []) }
{
    from.days_until(end).is_empty()
}

/// Returns `true` if the year has the week.
pub fn has_week(year: i64, week: u8) -> bool
    ensures { IsTrue result ↔ HasIsoWeek year week }
{
    match IsoWeek::new(year, week) {
        Some(_) => true,
        None => false,
    }
}

/// Returns the item of the week in a table of the 53 weeks of a year.
pub fn of_week(week: &IsoWeek, table: &[u8; 53]) -> u8
    ensures { result ≡ slice_index table.now (week.now.week - 1) }
{
    table[usize::from(week.week()) - 1]
}

/// Returns the date on which the rent is due: the last date of the month.
pub fn rent_is_due(date: &Date) -> Date
    ensures { IsLastOfMonth date.now.year date.now.month result }
{
    date.last_of_month()
}

/// Returns how many days of the month are left after the date.
pub fn days_left_in_month(date: &Date) -> u8
    ensures { result ≡ days_in_month date.now.year date.now.month - date.now.day_of_month }
{
    date.last_of_month().day_of_month - date.day_of_month
}

/// Returns the week of the next issue of a paper that comes every second week, or `None` if its year does not fit.
pub fn week_of_next_issue(week: &IsoWeek) -> Option<IsoWeek>
    ensures { MatchOption result
        ((y : ℤ) (w : ℕ) → IsWeeksAfter week.now.year week.now.week (pos 2) y w → ¬ (FitsSigned w64 y))
        (λ next. IsWeeksAfter week.now.year week.now.week (pos 2) next.year next.week) }
{
    match week.plus_weeks(2) {
        Some(next) => Some(next),
        None => None,
    }
}

/// Returns the week so many weeks after another, or `None` if its year does not fit.
#[tactic(auto, using(calendar::proofs::ForCallers::weeks_passed_on))]
pub fn weeks_later(week: &IsoWeek, weeks: i64) -> Option<IsoWeek>
    ensures { MatchOption result
        ((y : ℤ) (w : ℕ) → IsWeeksAfter week.now.year week.now.week weeks y w → ¬ (FitsSigned w64 y))
        (λ later. IsWeeksAfter week.now.year week.now.week weeks later.year later.week) }
{
    let later = week.plus_weeks(weeks)?;
    Some(later)
}

/// Returns the week so many weeks after another, or `None` if its year does not fit.
pub fn weeks_later_by_match(week: &IsoWeek, weeks: i64) -> Option<IsoWeek>
    ensures { MatchOption result
        ((y : ℤ) (w : ℕ) → IsWeeksAfter week.now.year week.now.week weeks y w → ¬ (FitsSigned w64 y))
        (λ later. IsWeeksAfter week.now.year week.now.week weeks later.year later.week) }
{
    match week.plus_weeks(weeks) {
        Some(later) => Some(later),
        None => None,
    }
}

/// Returns the Friday of the week so many weeks after another, or `None`. The contract does not say when it is `None`.
#[tactic(auto, using(calendar::proofs::ForCallers::weeks_passed_on))]
pub fn friday_of_week_later(week: &IsoWeek, weeks: i64) -> Option<Date>
    ensures { IfSome result (λ friday. (year : ℤ) × (w : ℕ)
        × IsWeeksAfter week.now.year week.now.week weeks year w
        × IsDayOfIsoWeek (number_of friday) year w Weekday.Friday) }
{
    week.plus_weeks(weeks)?.date_on(Weekday::Friday)
}

/// Returns the date so many days after another, or `None` if its year does not fit.
pub fn days_later(date: &Date, days: i64) -> Option<Date>
    ensures { MatchOption result
        ((later : Date) → number_of later ≡ number_of date.now +ℤ days → ¬ (FitsSigned w64 later.year))
        (λ later. number_of later ≡ number_of date.now +ℤ days) }
{
    let later = date.plus_days(days)?;
    Some(later)
}

/// Returns the date so many days after another, or that date itself if the year does not fit.
pub fn days_later_or_same(date: Date, days: i64) -> Date
    ensures { (number_of result ≡ number_of date +ℤ days)
        ⊎ ((result ≡ date)
        × ((later : Date) → number_of later ≡ number_of date +ℤ days → ¬ (FitsSigned w64 later.year))) }
{
    match date.plus_days(days) {
        Some(later) => later,
        None => date,
    }
}

/// Returns how many weeks a course takes, or `None` if it does not fit.
pub fn weeks_of_course(first: &IsoWeek, after: &IsoWeek) -> Option<i64>
    ensures { MatchOption result
        ((weeks : ℤ) × IsWeeksAfter first.now.year first.now.week weeks after.now.year after.now.week
        × ¬ (FitsSigned w64 weeks))
        (λ weeks. IsWeeksAfter first.now.year first.now.week weeks after.now.year after.now.week) }
{
    match first.weeks_between(after) {
        Some(weeks) => Some(weeks),
        None => None,
    }
}

/// Returns the day of the week on which a parcel comes.
pub fn day_of_delivery(ordered: Weekday) -> Weekday
    ensures { IsWeekdayAfter ordered (pos 10) result }
{
    ordered.plus_days(10)
}

/// Returns the day of the week `days` days after the date. If a date is that many days later, it has this day.
pub fn weekday_in_days(date: &Date, days: i64) -> Weekday
    ensures { HasWeekday (number_of date.now +ℤ days) result }
{
    date.weekday().plus_days(days)
}
