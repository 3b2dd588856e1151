//! A fraction printed with so many places, of which there may be any number.

ghost use Rattle.std.specs.Prelude.{◌≡◌, ◌<◌, ◌≤◌, ◌-◌, ◌^◌, ◌*◌, IfOk, Some, unwrap_or};
ghost use Rattle.std.specs.Fmt.{WritesStyledOnOk, fill_text, formatter_spec, sign_text_with};
ghost use Rattle.std.specs.List.{repeat};
ghost use Rattle.num_integer.specs.Padded.{padded_number};
ghost use Rattle.ratio64.specs.Decimal.{ArePadding, last_digits, shown_text};
ghost use Rattle.ratio64.specs.Rounding.{half_even};

use crate::Ratio;
use num_integer::div_round_even;
use num_integer::padded::Text;
use num_integer::text::Buffer;
use std::fmt::{Alignment, Write};
use std::{fmt, str};

/// How many of the last places are computed at once. Rounding them carries nothing into the places before, since no
/// denominator is as large as 10^19.
const LAST: usize = 19;

/// 10 to the power of the last places.
const SCALE: u128 = 10_000_000_000_000_000_000;

impl Ratio {
    /// Writes the nearest decimal number with so many places, and of two equally near the one whose last digit is even,
    /// as integers are written.
    pub(crate) fn pad_with_places<W: fmt::Write>(
        &self,
        places: usize,
        f: &mut fmt::Formatter<W>,
    ) -> fmt::Result
        ensures { WritesStyledOnOk W.write_str_gives f.old result
            (padded_number (formatter_spec f.old) (shown_text (Some places) self.now)) f.new }
    {
        if places >= LAST {
            return self.pad_with_many_places(places, f);
        }
        let rounded = self.to_decimal(places as u32).ok_or(fmt::Error)?;
        rounded.pad_number(f)
    }

    /// Writes the nearest decimal number with 19 places or more.
    fn pad_with_many_places<W: fmt::Write>(
        &self,
        places: usize,
        f: &mut fmt::Formatter<W>,
    ) -> fmt::Result
        requires { 19 ≤ places }
        ensures { WritesStyledOnOk W.write_str_gives f.old result
            (padded_number (formatter_spec f.old) (shown_text (Some places) self.now)) f.new }
    {
        let (num, den) = (
            u128::from(self.num().unsigned_abs()),
            u128::from(self.den().unsigned_abs()),
        );
        let sign = sign_of(self.num() < 0, f.sign_plus());
        let mut whole = Buffer::new();
        write!(whole, "{}.", num / den)?;
        let whole = text_of(&whole)?;
        let padding = missing(f.width(), sign.len() + whole.len(), places);
        let (before, zeros, after) = padding_around(f, padding);
        fill(f, before)?;
        f.write_str(sign)?;
        write_repeated(f, "0", zeros)?;
        f.write_str(whole)?;
        write_places(f, num, den, places)?;
        fill(f, after)
    }
}

/// Returns the sign of a number.
fn sign_of(is_negative: bool, plus: bool) -> &'static str
    ensures { result.now ≡ sign_text_with plus is_negative }
{
    match (is_negative, plus) {
        (true, _) => "-",
        (false, true) => "+",
        (false, false) => "",
    }
}

/// Returns how many characters a number is shorter than the width.
fn missing(width: Option<usize>, front: usize, places: usize) -> usize
    ensures { result ≡ unwrap_or width 0 - front - places }
{
    width
        .unwrap_or(0)
        .saturating_sub(front)
        .saturating_sub(places)
}

/// Returns how much of the padding stands before the sign, after it as zeros, and after the number.
fn padding_around<W: fmt::Write>(f: &fmt::Formatter<W>, padding: usize) -> (usize, usize, usize)
    ensures { ArePadding (formatter_spec f.now) padding result.0 result.1 result.2 }
{
    if f.sign_aware_zero_pad() {
        return (0, padding, 0);
    }
    let before = match f.align() {
        Some(Alignment::Left) => 0,
        Some(Alignment::Center) => padding / 2,
        _ => padding,
    };
    (before, 0, padding - before)
}

/// Writes the fill of the format a number of times.
fn fill<W: fmt::Write>(f: &mut fmt::Formatter<W>, count: usize) -> fmt::Result
    ensures { WritesStyledOnOk W.write_str_gives f.old result
        (fill_text (formatter_spec f.old) count) f.new }
{
    let mut bytes = [0; 4];
    let fill = f.fill().encode_utf8(&mut bytes);
    write_repeated(f, fill, count)
}

/// Writes the text a number of times.
fn write_repeated<W: fmt::Write>(f: &mut fmt::Formatter<W>, text: &str, count: usize) -> fmt::Result
    ensures { WritesStyledOnOk W.write_str_gives f.old result (repeat count text.now) f.new }
{
    for _ in 0..count {
        f.write_str(text)?;
    }
    Ok(())
}

/// Writes the places of `num / den`, which are 19 or more, as long division gives them. The last 19 are rounded.
fn write_places<W: fmt::Write>(
    f: &mut fmt::Formatter<W>,
    num: u128,
    den: u128,
    places: usize,
) -> fmt::Result
    requires num { num < 2 ^ 64 }
    requires den { (0 < den) × (den < 2 ^ 63) }
    requires many { 19 ≤ places }
    ensures { WritesStyledOnOk W.write_str_gives f.old result
        (last_digits places (half_even (num * 10 ^ places) den)) f.new }
{
    let mut rest = num % den;
    for _ in 0..places - LAST {
        let next = rest * 10;
        f.write_char(char::from(b'0' + (next / den) as u8))?;
        rest = next % den;
    }
    write_last_places(f, div_round_even(rest * SCALE, den))
}

/// Writes the last 19 places.
fn write_last_places<W: fmt::Write>(f: &mut fmt::Formatter<W>, digits: u128) -> fmt::Result
    requires { digits < 10 ^ 19 }
    ensures { WritesStyledOnOk W.write_str_gives f.old result (last_digits 19 digits) f.new }
{
    let mut last = Buffer::new();
    write!(last, "{digits:019}")?;
    f.write_str(text_of(&last)?)
}

/// Returns what the buffer holds as a text, or an error if that is not UTF-8.
fn text_of(buffer: &Buffer) -> Result<&str, fmt::Error>
    ensures { IfOk result (λ text. text.now ≡ buffer.now) }
{
    str::from_utf8(buffer.as_bytes()).map_err(|_| fmt::Error)
}
