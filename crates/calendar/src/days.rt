//! The days from one date to another.

ghost use Rattle.std.specs.Prelude.{◌≡◌, ◌↔◌, ◌^◌, ◌<◌, ◌<ℤ◌, ◌-ℤ◌, ℤ, pos, unsigned_abs, List, [], length, FitsSigned, IfSome, IsTrue};
ghost use Rattle.std.specs.Int.{int_max, w64};
ghost use Rattle.std.specs.Iterator.{UpTo, YieldsFirstBy, YieldsLastBy, at_most, item_count};
ghost use Rattle.std.specs.Iterator.SizeHint.{IsExactHint, IsWithinCount};
ghost use Rattle.std.specs.Option.{SomeIff};
ghost use Rattle.calendar.specs.Dates.{day_numbers, number_of};

use crate::Date;
use std::marker::Model;

/// An iterator over the dates from a first one to the day before an end. [`Date::days_until`] makes it.
/// `Date::from_day_number(0).days_until(Date::from_day_number(3)).count()` is `3`.
#[derive(Drop)]
pub struct Days {
    next: Date,
    end: Date,
}

impl Model for Days {
    ghost Value = { List ℤ };

    ghost view = { λ s. day_numbers (number_of s.next) (number_of s.end) };

    ghost invariant = { λ s. FitsSigned w64 s.end.year };
}

impl Date {
    /// Returns an iterator over the dates from this one to the day before `end`. It is empty if `end` is not
    /// later than this date. `Date::from_day_number(-1).days_until(Date::from_day_number(2)).last()` is
    /// `Some(Date::from_day_number(1))`.
    pub fn days_until(self, end: Self) -> Days
        ensures { result ≡ day_numbers (number_of self) (number_of end) }
    {
        Days { next: self, end }
    }
}

impl Days {
    /// Returns how many dates are left, or `None` if that number does not fit in `usize`.
    /// `Date::from_day_number(0).days_until(Date::from_day_number(3)).len()` is `Some(3)`.
    #[tactic(auto, using(crate::proofs::DayRanges::days_from_first, crate::proofs::FoundOrBeyond::some_from_ok))]
    pub fn len(&self) -> Option<usize>
        ensures { SomeIff result (length self.now < 2 ^ 64) (length self.now) }
    {
        usize::try_from(days_left(&self.next, &self.end)).ok()
    }

    /// Returns `true` if no date is left.
    /// `Date::from_day_number(3).days_until(Date::from_day_number(0)).is_empty()` is `true`.
    #[tactic(auto, using(crate::proofs::DayRanges::is_none))]
    pub fn is_empty(&self) -> bool
        ensures { IsTrue result ↔ (self.now ≡ []) }
    {
        !is_earlier(&self.next, &self.end)
    }
}

impl Iterator for Days {
    type Item = Date;

    ghost next_gives = { YieldsFirstBy number_of (λ s. s) };

    ghost remaining = { item_count (λ s. s) };

    fn next(&mut self) -> Option<Date> {
        let date = self.next;
        if !is_earlier(&date, &self.end) {
            return None;
        }
        self.next = date.next()?;
        Some(date)
    }

    fn size_hint(&self) -> (usize, Option<usize>)
        ensures lower { IsWithinCount result.0 (at_most (length self.now)) }
        ensures upper { IfSome result.1 (UpTo (at_most (length self.now))) }
        ensures exact { IsExactHint result (length self.now) }
    {
        let length = self.len();
        (length.unwrap_or(usize::MAX), length)
    }
}

impl DoubleEndedIterator for Days {
    ghost next_back_gives = { YieldsLastBy number_of (λ s. s) };

    fn next_back(&mut self) -> Option<Date> {
        if !is_earlier(&self.next, &self.end) {
            return None;
        }
        let last = self.end.previous()?;
        self.end = last;
        Some(last)
    }
}

/// Returns how many days there are from the first date to the second, or 0 if the second is not later.
fn days_left(first: &Date, end: &Date) -> u128
    ensures { result ≡ unsigned_abs (int_max (pos 0) (number_of end.now -ℤ number_of first.now)) }
{
    u128::try_from(end.wide_day_number() - first.wide_day_number()).unwrap_or(0)
}

/// Returns `true` if the first date is earlier than the second.
fn is_earlier(first: &Date, second: &Date) -> bool
    ensures { IsTrue result ↔ (number_of first.now <ℤ number_of second.now) }
{
    first < second
}
