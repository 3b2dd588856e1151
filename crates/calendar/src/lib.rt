//! The proleptic Gregorian calendar: dates, and days counted from 1970-01-01, which is day 0.
#![tactic(auto)]

mod date;
mod days;
mod distances;
mod eras;
mod feasts;
mod iso_weeks;
mod months;
mod operators;
mod text;
mod weekday;
mod weeks;
mod years;

pub use date::Date;
pub use days::Days;
pub use distances::{days_between, months_between, years_between};
pub use feasts::easter;
pub use iso_weeks::{IsoWeek, weeks_in_year};
pub use months::days_in_month;
pub use text::DateError;
pub use weekday::{Weekday, WeekdayError, weekday_of};
pub use weeks::{
    first_weekday_on_or_after, last_weekday_of_month, last_weekday_on_or_before, next_last_weekday,
    nth_weekday_of_month,
};
pub use years::{days_in_year, is_leap_year};
