//! The operators of dates and numbers of days.

ghost use Rattle.std.specs.Prelude.{◌≡◌, ◌+ℤ◌, ◌-ℤ◌, FitsSigned};
ghost use Rattle.std.specs.Int.{w64};
ghost use Rattle.calendar.specs.Dates.{number_of};
ghost use Rattle.calendar.specs.declared.date.Date.{Date};

use crate::Date;
use integer_core::guards::some;
use std::ops::{Add, AddAssign, Sub, SubAssign};

/// Returns the number of days from the second date to the first, which is negative if the first is earlier.
/// `Date::from_day_number(3) - Date::from_day_number(5)` is `-2`.
impl Sub for Date {
    type Output = i64;

    ghost can_sub = { λ to from. FitsSigned w64 (number_of to -ℤ number_of from) };

    ghost sub_gives = { λ to from days. days ≡ number_of to -ℤ number_of from };

    /// # Panics
    ///
    /// In plain Rust, if the number does not fit in `i64`. [`Date::days_between`] returns `None` then.
    fn sub(self, from: Self) -> i64 {
        some(from.days_between(&self), "the number of days does not fit")
    }
}

/// Returns the date that number of days later, or earlier if it is negative.
/// `Date::from_day_number(3) + 2` is `Date::from_day_number(5)`.
impl Add<i64> for Date {
    type Output = Self;

    ghost can_add = { λ date days. (later : Date) → number_of later ≡ number_of date +ℤ days → FitsSigned w64 later.year };

    ghost add_gives = { λ date days later. number_of later ≡ number_of date +ℤ days };

    /// # Panics
    ///
    /// In plain Rust, if the year of the date does not fit in `i64`. [`Date::plus_days`] returns `None` then.
    fn add(self, days: i64) -> Self {
        some(self.plus_days(days), "the year of the date does not fit")
    }
}

/// Returns the date that number of days earlier, or later if it is negative.
/// `Date::from_day_number(3) - 5` is `Date::from_day_number(-2)`.
impl Sub<i64> for Date {
    type Output = Self;

    ghost can_sub = { λ date days. (earlier : Date) → number_of earlier ≡ number_of date -ℤ days → FitsSigned w64 earlier.year };

    ghost sub_gives = { λ date days earlier. number_of earlier ≡ number_of date -ℤ days };

    /// # Panics
    ///
    /// In plain Rust, if the year of the date does not fit in `i64`. [`Date::minus_days`] returns `None` then.
    fn sub(self, days: i64) -> Self {
        some(self.minus_days(days), "the year of the date does not fit")
    }
}

/// Replaces the date by the one that number of days later.
impl AddAssign<i64> for Date {
    ghost can_add_assign = { λ date days. (later : Date) → number_of later ≡ number_of date +ℤ days → FitsSigned w64 later.year };

    ghost add_assign_gives = { λ date days later. number_of later ≡ number_of date +ℤ days };

    /// # Panics
    ///
    /// In plain Rust, if the year of the date does not fit in `i64`.
    fn add_assign(&mut self, days: i64) {
        *self = self.add(days);
    }
}

/// Replaces the date by the one that number of days earlier.
impl SubAssign<i64> for Date {
    ghost can_sub_assign = { λ date days. (earlier : Date) → number_of earlier ≡ number_of date -ℤ days → FitsSigned w64 earlier.year };

    ghost sub_assign_gives = { λ date days earlier. number_of earlier ≡ number_of date -ℤ days };

    /// # Panics
    ///
    /// In plain Rust, if the year of the date does not fit in `i64`.
    fn sub_assign(&mut self, days: i64) {
        *self = self.sub(days);
    }
}
