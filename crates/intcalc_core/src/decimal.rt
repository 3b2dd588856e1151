//! Decimal digits, without allocation.

ghost use Rattle.std.specs.Prelude.{◌≡◌, ◌+◌, ◌<◌, ◌≤◌, drop};
ghost use Rattle.std.specs.Fmt.{decimal};

/// The number of digits of the largest `u128`.
pub const WIDTH: usize = 39;

/// Returns the ASCII digit of a number below 10.
fn digit(n: u128) -> u8
    requires { n < 10 }
    ensures { result ≡ 48 + n }
{
    b'0' + n as u8
}

/// Writes the digits of `n` at the end of `text`, and returns the index of the first one. For 7 it
/// writes `7` and returns 38.
pub fn write_digits(n: u128, text: &mut [u8; WIDTH]) -> usize
    ensures start { result ≤ WIDTH }
    ensures digits { drop result text.new ≡ decimal n }
{
    let mut start = WIDTH;
    let mut rest = n;
    while rest >= 10 {
        start -= 1;
        text[start] = digit(rest % 10);
        rest /= 10;
    }
    start -= 1;
    text[start] = digit(rest);
    start
}
