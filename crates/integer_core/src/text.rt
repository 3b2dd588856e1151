//! Texts without allocation: a buffer, and which texts are integers.

ghost use Rattle.std.specs.Prelude.{◌≡◌, ◌≤◌, ◌+◌, ◌++◌, ◌↔◌, ℕ, List, IfOk, IsOk, IsTrue, [], length, take};
ghost use Rattle.std.specs.Char.{is_ascii_digit};
ghost use Rattle.std.specs.List.{list_all};
ghost use Rattle.std.specs.Str.{IsUtf8};
ghost use Rattle.std.specs.Str.Parse.{IsNumeral};
ghost use Rattle.integer_core.specs.declared.text.TheConstants.{CAPACITY};
ghost use Rattle.integer_core.specs.IntegerWords.{is_integer_word, unsigned_part};

use std::marker::Model;
use std::{fmt, str};

/// The largest number of bytes of a buffer: more than any text of a fraction or a date, or any line of `intcalc`, has.
pub const CAPACITY: usize = 128;

/// Up to 128 bytes. `{ let mut text = Buffer::new(); text.push(b"2/3"); text.as_bytes().to_vec() }` is `b"2/3".to_vec()`.
#[derive(Drop)]
pub struct Buffer {
    bytes: [u8; CAPACITY],
    len: usize,
}

impl Model for Buffer {
    ghost Value = { List ℕ };

    ghost view = { λ buffer. take buffer.len buffer.bytes };

    ghost invariant = { λ buffer. buffer.len ≤ CAPACITY };
}

impl Buffer {
    /// Returns an empty buffer.
    pub fn new() -> Self
        ensures { result ≡ [] }
    {
        Self {
            bytes: [0; CAPACITY],
            len: 0,
        }
    }

    /// Returns the bytes.
    pub fn as_bytes(&self) -> &[u8]
        ensures { result.now ≡ self.now }
    {
        &self.bytes[..self.len]
    }

    /// Returns the bytes as a text, or an error if they are not UTF-8.
    pub(crate) fn as_str(&self) -> Result<&str, fmt::Error>
        ensures text { IfOk result (λ text. text.now ≡ self.now) }
        ensures valid { IsUtf8 self.now → IsOk result }
    {
        str::from_utf8(self.as_bytes()).map_err(|_| fmt::Error)
    }

    /// Adds the bytes.
    pub fn push(&mut self, bytes: &[u8])
        requires { length self.old + length bytes.now ≤ CAPACITY }
        ensures { self.new ≡ self.old ++ bytes.now }
    {
        let end = self.len + bytes.len();
        self.bytes[self.len..end].copy_from_slice(bytes);
        self.len = end;
    }
}

impl fmt::Write for Buffer {
    ghost write_str_gives = { λ before text after. after ≡ before ++ text };

    fn write_str(&mut self, text: &str) -> fmt::Result
        ensures ok { IsOk result → self.new ≡ self.old ++ text.now }
        ensures room { IsOk result ↔ (length self.old + length text.now ≤ CAPACITY) }
    {
        if text.len() > CAPACITY - self.len {
            return Err(fmt::Error);
        }
        self.push(text.as_bytes());
        Ok(())
    }
}

/// Returns `true` if the text is an optional `-`, then one or more digits, and nothing else.
/// `is_integer("-007")` is `true`, and `is_integer("+7")` is `false`.
#[tactic(auto, using(crate::proofs::IntegerTexts::tells_numeral))]
pub fn is_integer(text: &str) -> bool
    ensures word { result ≡ is_integer_word text.now }
    ensures numeral { IsTrue result ↔ IsNumeral 10 (unsigned_part text.now) }
{
    let digits = without_minus(text.as_bytes());
    !digits.is_empty() && has_only_digits(digits)
}

fn without_minus(text: &[u8]) -> &[u8]
    ensures { result.now ≡ unsigned_part text.now }
{
    match text {
        [b'-', digits @ ..] => digits,
        _ => text,
    }
}

fn has_only_digits(text: &[u8]) -> bool
    ensures { result ≡ list_all is_ascii_digit text.now }
{
    text.iter().all(u8::is_ascii_digit)
}
