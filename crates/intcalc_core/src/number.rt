//! Number words.

ghost use Rattle.std.specs.Prelude.{◌≡◌};
ghost use Rattle.intcalc_core.specs.Number.{spelled_number};

use num_integer::text::is_integer;

/// Returns the number of a word, or `None` if the word is not an integer. `read_number("-007")` is
/// `Some(-7)`, and `read_number("+7")` is `None`. A number outside `i128` gives the nearer end of
/// `i128`, which lies outside every kind.
pub fn read_number(word: &str) -> Option<i128>
    ensures { result ≡ spelled_number word.now }
{
    if !is_integer(word) {
        return None;
    }
    match word.parse::<i128>() {
        Ok(n) => Some(n),
        Err(_) if matches!(word.as_bytes(), [b'-', ..]) => Some(i128::MIN),
        Err(_) => Some(i128::MAX),
    }
}
