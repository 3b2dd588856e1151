//! Texts of more than one part, which keep the width and the fill of a format.

ghost use Rattle.std.specs.Prelude.{◌≡◌, ◌≤◌, ℕ, List, OnOk};
ghost use Rattle.std.specs.Fmt.{WritesInCalls, WritesOnOk, WritesStyledOnOk, fill_text, formatter_spec, spec_align};
ghost use Rattle.integer_core.specs.Padded.{fill_before, padded_number, padded_text};

use crate::text::Buffer;
use std::fmt;
use std::fmt::Alignment;

/// A value that has a text of more than one part. A width counts the bytes of the text, as if each were
/// a character.
pub trait Text {
    // In a contract `text x` has the bytes of the text of `x`.
    ghost text: { Self → List ℕ };

    /// Writes the text as it is, without the options of a format.
    fn write_to<W: fmt::Write>(&self, f: &mut W) -> fmt::Result
        ensures { OnOk result (WritesInCalls W.write_str_gives f.old (text self.now) f.new) };

    /// Writes the text with the width and the fill of the format, on the left if it names no side. A
    /// precision cuts nothing off. A text of more than 128 bytes is a `fmt::Error`.
    final fn pad<W: fmt::Write>(&self, f: &mut fmt::Formatter<W>) -> fmt::Result
        ensures plain { WritesOnOk W.write_str_gives f.old result (text self.now) f.new }
        ensures styled { WritesStyledOnOk W.write_str_gives f.old result
            (padded_text (formatter_spec f.old) (text self.now)) f.new }
    {
        let mut buffer = Buffer::new();
        self.write_to(&mut buffer)?;
        write_filled(f, buffer.as_str()?)
    }

    /// Writes the text of a number as integers are written: with a `+` and zeros in front if the format
    /// has them, and on the right if it names no side. It has no use for a precision. A text of more
    /// than 128 bytes is a `fmt::Error`.
    final fn pad_number<W: fmt::Write>(&self, f: &mut fmt::Formatter<W>) -> fmt::Result
        ensures plain { WritesOnOk W.write_str_gives f.old result (text self.now) f.new }
        ensures styled { WritesStyledOnOk W.write_str_gives f.old result
            (padded_number (formatter_spec f.old) (text self.now)) f.new }
    {
        let mut buffer = Buffer::new();
        self.write_to(&mut buffer)?;
        write_number(f, buffer.as_str()?)
    }
}

/// Writes the text of a number, which may begin with `-`, as integers are written.
fn write_number<W: fmt::Write>(f: &mut fmt::Formatter<W>, text: &str) -> fmt::Result
    ensures { WritesStyledOnOk W.write_str_gives f.old result
        (padded_number (formatter_spec f.old) text.now) f.new }
{
    match text.strip_prefix('-') {
        Some(digits) => f.pad_integral(false, "", digits),
        None => f.pad_integral(true, "", text),
    }
}

/// Writes the text, and the fill of the format on its sides.
fn write_filled<W: fmt::Write>(f: &mut fmt::Formatter<W>, text: &str) -> fmt::Result
    ensures { WritesStyledOnOk W.write_str_gives f.old result
        (padded_text (formatter_spec f.old) text.now) f.new }
{
    let padding = f.width().unwrap_or(0).saturating_sub(text.len());
    let before = padding_before(f.align(), padding);
    fill(f, before)?;
    f.write_str(text)?;
    fill(f, padding - before)
}

/// Returns how much of the padding stands before a text.
fn padding_before(side: Option<Alignment>, padding: usize) -> usize
    ensures part { result ≡ fill_before side padding }
    ensures at_most { result ≤ padding }
{
    match side {
        Some(Alignment::Right) => padding,
        Some(Alignment::Center) => padding / 2,
        _ => 0,
    }
}

/// Writes the fill of the format a number of times.
fn fill<W: fmt::Write>(f: &mut fmt::Formatter<W>, count: usize) -> fmt::Result
    ensures { WritesStyledOnOk W.write_str_gives f.old result
        (fill_text (formatter_spec f.old) count) f.new }
{
    let mut bytes = [0; 4];
    let fill = f.fill().encode_utf8(&mut bytes);
    for _ in 0..count {
        f.write_str(fill)?;
    }
    Ok(())
}
