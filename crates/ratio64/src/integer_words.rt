//! The words that are integers.

ghost use Rattle.std.specs.Prelude.{◌≡◌, ◌↔◌, IsTrue};
ghost use Rattle.std.specs.Str.Parse.{IsNumeral};
ghost use Rattle.ratio64.specs.IntegerWords.{is_integer_word, unsigned_part};

use num_integer::text;

/// Returns `true` if the text is an optional `-`, then one or more digits, and nothing else.
/// `is_integer("-007")` is `true`, and `is_integer("+7")` is `false`.
pub fn is_integer(text: &str) -> bool
    ensures word { result ≡ is_integer_word text.now }
    ensures numeral { IsTrue result ↔ IsNumeral 10 (unsigned_part text.now) }
{
    text::is_integer(text)
}
