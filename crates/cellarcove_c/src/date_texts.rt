//! Dates that are read from a text. The text is its bytes, with no zero at the end.

ghost use Rattle.cellarcove_c.specs.DateTexts.{ReadsDate};

use crate::answers::NO_DATE;
use crate::dates::DateAnswer;
use std::str;

/// Returns the date of a text of ISO 8601: a year of at least four digits, a month and a day of two digits,
/// with hyphens between them. A year below 0 has a minus, and one above 9999 has a plus. That of `2026-11-28`
/// is 2026-11-28, and that of `+12000-04-02` is 12000-04-02.
///
/// `NO_DATE` if it is the text of no date whose year fits.
#[unsafe(no_mangle)]
#[tactic(auto, using(crate::proofs::AsciiDates::date_is_utf8))]
pub extern "C" fn cellarcove_date_from_text(text: &[u8]) -> DateAnswer
    ensures { ReadsDate text.now result }
{
    match str::from_utf8(text) {
        Ok(text) => date_of(text),
        Err(_) => DateAnswer::none(NO_DATE),
    }
}

/// Returns the result of reading a date.
fn date_of(text: &str) -> DateAnswer
    ensures { ReadsDate text.now result }
{
    match text.parse::<calendar::Date>() {
        Ok(date) => DateAnswer::some(&date),
        Err(_) => DateAnswer::none(NO_DATE),
    }
}
