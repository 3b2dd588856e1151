//! Prints and parses dates, and prints weeks, in the formats of ISO 8601.

ghost use Rattle.std.specs.Prelude.{◌≡◌, ◌≢◌, ◌↔◌, ◌<◌, ◌≤◌, ℕ, ℤ, List, FitsSigned, IfSome, IsTrue, MatchOption, OnOk, Some, Ok};
ghost use Rattle.std.specs.Fmt.{WritesInCalls};
ghost use Rattle.std.specs.Fmt.{padded as padded_string};
ghost use Rattle.std.specs.Int.{w64};
ghost use Rattle.calendar.specs.Text.{IsShortest, error_text, padded, text_of, week_text, with_number, year_text};
ghost use Rattle.integer_core.specs.Padded.{padded_text};
ghost use Rattle.calendar.specs.declared.date.Date.{Date};

use crate::{Date, IsoWeek};
use integer_core::padded::Text;
use std::error::Error;
use std::str::FromStr;
use std::{fmt, str};

/// The error that parsing returns for a string that is not a date. `"1900-02-29".parse::<Date>()` is `Err(DateError)`.
#[derive(Debug, Clone, Copy, PartialEq, Eq, Hash)]
pub struct DateError;

impl fmt::Display for DateError {
    ghost output = { λ _. Some error_text };

    ghost styled_output = { λ _ spec. Some (padded_string spec error_text) };

    fn fmt<W: fmt::Write>(&self, f: &mut fmt::Formatter<W>) -> fmt::Result {
        f.pad("not the text of a date")
    }
}

impl Error for DateError {}

/// Prints the date in the format of ISO 8601. A year outside 0 to 9999 has a sign.
/// `Date::new(2026, 11, 23).unwrap().to_string()` is `"2026-11-23"`,
/// `Date::new(10000, 1, 1).unwrap().to_string()` is `"+10000-01-01"`, and
/// `Date::new(-1, 1, 1).unwrap().to_string()` is `"-0001-01-01"`.
impl fmt::Display for Date {
    ghost output = { λ date. Some (text_of date) };

    ghost styled_output = { λ date spec. Some (padded_text spec (text_of date)) };

    fn fmt<W: fmt::Write>(&self, f: &mut fmt::Formatter<W>) -> fmt::Result {
        self.pad(f)
    }
}

impl Text for Date {
    ghost text = { text_of };

    #[tactic(auto, using(crate::proofs::DateTexts::small_parts))]
    fn write_to<W: fmt::Write>(&self, f: &mut W) -> fmt::Result {
        if matches!(self.year, 0..=9999) {
            let text = ten_bytes(self.year as u16, self.month, self.day_of_month);
            return write_ascii(&text, f);
        }
        write_year(self.year, f)?;
        write!(f, "-{:02}-{:02}", self.month, self.day_of_month)
    }
}

/// Returns the text of a date in a year of four digits.
#[tactic(auto, using(crate::proofs::PaddedNumbers::four_places, crate::proofs::PaddedNumbers::two_places))]
#[inline]
fn ten_bytes(year: u16, month: u8, day_of_month: u8) -> [u8; 10]
    requires year { year < 10000 }
    requires month { month < 100 }
    requires day { day_of_month < 100 }
    ensures { result ≡ with_number (with_number (padded 4 year) month) day_of_month }
{
    let [thousands, hundreds] = two_digits((year / 100) as u8);
    let [tens, ones] = two_digits((year % 100) as u8);
    let [month_tens, month_ones] = two_digits(month);
    let [day_tens, day_ones] = two_digits(day_of_month);
    [
        thousands, hundreds, tens, ones, b'-', month_tens, month_ones, b'-', day_tens, day_ones,
    ]
}

/// Returns the two digits of a number below 100.
#[tactic(auto, using(crate::proofs::PaddedNumbers::two_places))]
#[inline]
fn two_digits(number: u8) -> [u8; 2]
    requires { number < 100 }
    ensures { result ≡ padded 2 number }
{
    [b'0' + number / 10, b'0' + number % 10]
}

/// Writes a text in ASCII by one call.
fn write_ascii<W: fmt::Write>(text: &[u8], f: &mut W) -> fmt::Result
    ensures { OnOk result (WritesInCalls W.write_str_gives f.old text.now f.new) }
{
    f.write_str(str::from_utf8(text).map_err(|_| fmt::Error)?)
}

/// Prints the week in the format of ISO 8601. `IsoWeek::new(2004, 53).unwrap().to_string()` is
/// `"2004-W53"`.
impl fmt::Display for IsoWeek {
    ghost output = { λ week. Some (week_text week) };

    ghost styled_output = { λ week spec. Some (padded_text spec (week_text week)) };

    fn fmt<W: fmt::Write>(&self, f: &mut fmt::Formatter<W>) -> fmt::Result {
        self.pad(f)
    }
}

impl Text for IsoWeek {
    ghost text = { week_text };

    fn write_to<W: fmt::Write>(&self, f: &mut W) -> fmt::Result {
        write_year(self.year, f)?;
        write!(f, "-W{:02}", self.week)
    }
}

/// Prints the year with at least four digits. A year outside 0 to 9999 has a sign.
#[tactic(auto, using(crate::proofs::DateTexts::plain_year, crate::proofs::DateTexts::signed_year))]
fn write_year<W: fmt::Write>(year: i64, f: &mut W) -> fmt::Result
    ensures { OnOk result (WritesInCalls W.write_str_gives f.old (year_text year) f.new) }
{
    match year {
        0..=9999 => write!(f, "{year:04}"),
        _ => write!(f, "{year:+05}"),
    }
}

/// Parses exactly what `Display` prints. `"2026-11-23".parse::<Date>().ok()` is `Date::new(2026, 11, 23)`, and
/// `"2026-1-1".parse::<Date>()` is `Err(DateError)`.
///
/// # Errors
///
/// - [`DateError`] if the string is not the one that `Display` writes of a date.
impl FromStr for Date {
    type Err = DateError;

    ghost from_str_gives = { λ text result. (date : Date) → FitsSigned w64 date.year → (result ≡ Ok date) ↔ (text ≡ text_of date) };

    fn from_str(text: &str) -> Result<Self, DateError> {
        parse_date(text).ok_or(DateError)
    }
}

/// Returns the date that prints as the string, or `None` if no date does.
fn parse_date(text: &str) -> Option<Date>
    ensures { (date : Date) → FitsSigned w64 date.year → (result ≡ Some date) ↔ (text.now ≡ text_of date) }
{
    let (front, day) = split_last_two_digits(text)?;
    let (year, month) = split_last_two_digits(front)?;
    Date::new(parse_year(year)?, month, day)
}

/// Splits a hyphen and two digits off the end of the string. Returns the rest and the number, or `None` if the
/// string does not end so.
fn split_last_two_digits(text: &str) -> Option<(&str, u8)>
    ensures { MatchOption result ((front : List ℕ) (n : ℕ) → n < 100 → text.now ≢ with_number front n)
        (λ parts. (parts.1 < 100) × (text.now ≡ with_number parts.0.now parts.1)) }
{
    let place = text.len().saturating_sub(3);
    if !text.is_char_boundary(place) {
        return None;
    }
    let (front, last) = text.split_at(place);
    let [b'-', tens @ b'0'..=b'9', ones @ b'0'..=b'9'] = last.as_bytes() else {
        return None;
    };
    Some((front, 10 * (*tens - b'0') + (*ones - b'0')))
}

/// Returns the year that prints as the string, or `None` if no year does.
fn parse_year(text: &str) -> Option<i64>
    ensures { (year : ℤ) → FitsSigned w64 year → (result ≡ Some year) ↔ (text.now ≡ year_text year) }
{
    if let Some(digits) = text.strip_prefix('-') {
        Some(-1 - (parse_number(digits, 1, 1 << 63)? - 1) as i64)
    } else if let Some(digits) = text.strip_prefix('+') {
        Some(parse_number(digits, 10000, (1 << 63) - 1)? as i64)
    } else {
        Some(parse_number(text, 0, 9999)? as i64)
    }
}

/// Parses a number from `smallest` to `largest` that is padded with zeros to four digits. Returns `None` for any other
/// string.
fn parse_number(digits: &str, smallest: u64, largest: u64) -> Option<u64>
    ensures range { IfSome result (λ n. (smallest ≤ n) × (n ≤ largest)) }
    ensures number { (n : ℕ) → (result ≡ Some n) ↔ ((smallest ≤ n) × (n ≤ largest) × (digits.now ≡ padded 4 n)) }
{
    if !has_minimal_padding(digits.as_bytes()) {
        return None;
    }
    let Ok(number) = digits.parse::<u64>() else {
        return None;
    };
    if (smallest..=largest).contains(&number) {
        Some(number)
    } else {
        None
    }
}

/// Returns `true` if the first byte is a digit and the string has four bytes. A longer string must not begin with 0.
fn has_minimal_padding(digits: &[u8]) -> bool
    ensures { IsTrue result ↔ IsShortest digits.now }
{
    matches!(
        digits,
        [b'0'..=b'9', _, _, _] | [b'1'..=b'9', _, _, _, _, ..]
    )
}
