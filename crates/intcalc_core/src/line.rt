//! What a line says, in a buffer.

ghost use Rattle.std.specs.Prelude.{◌≡◌, ◌+◌, ◌≤◌, ◌<◌, ◌++◌, [], length};
ghost use Rattle.std.specs.Fmt.{decimal, signed_decimal};
ghost use Rattle.intcalc_core.specs.declared.line.TheConstants.{CAPACITY};
ghost use Rattle.intcalc_core.specs.Line.{next_number, text_of_answer, text_of_refusal};

use crate::calls::{Answer, Refusal};
use crate::decimal::{WIDTH, write_digits};
use num_integer::text::{self, Buffer};

/// The largest number of bytes of a line.
pub const CAPACITY: usize = text::CAPACITY;

/// Adds the number in decimal.
fn push_unsigned(line: &mut Buffer, n: u128)
    requires { length line.old + WIDTH ≤ CAPACITY }
    ensures text { line.new ≡ line.old ++ decimal n }
    ensures len { length line.new ≤ length line.old + WIDTH }
{
    let mut digits = [0; WIDTH];
    let start = write_digits(n, &mut digits);
    line.push(&digits[start..]);
}

/// Adds the number in decimal, after a `-` if it is negative.
fn push_number(line: &mut Buffer, n: i128)
    requires { length line.old + WIDTH + 1 ≤ CAPACITY }
    ensures text { line.new ≡ line.old ++ signed_decimal n }
    ensures len { length line.new ≤ length line.old + WIDTH + 1 }
{
    if n < 0 {
        line.push(b"-");
    }
    push_unsigned(line, n.unsigned_abs());
}

/// Adds a space and the number.
fn push_next(line: &mut Buffer, n: i128)
    requires { length line.old + WIDTH + 2 ≤ CAPACITY }
    ensures text { line.new ≡ line.old ++ next_number n }
    ensures len { length line.new ≤ length line.old + WIDTH + 2 }
{
    line.push(b" ");
    push_number(line, n);
}

/// Adds the numbers of the answer, or `true` or `false`, to an empty line. Of `Answer::Two(-3, 1)` it adds `-3 1`.
pub fn push_answer(line: &mut Buffer, answer: Answer)
    requires { line.old ≡ [] }
    ensures text { line.new ≡ text_of_answer answer }
    ensures len { length line.new < CAPACITY }
{
    match answer {
        Answer::One(a) => push_number(line, a),
        Answer::Two(a, b) => {
            push_number(line, a);
            push_next(line, b);
        }
        Answer::Three(a, b, c) => {
            push_number(line, a);
            push_next(line, b);
            push_next(line, c);
        }
        Answer::Truth(true) => line.push(b"true"),
        Answer::Truth(false) => line.push(b"false"),
    }
}

/// Adds `refused`, the number and the name to an empty line, as `refused 2 ZeroDivisor`.
pub fn push_refusal(line: &mut Buffer, refusal: Refusal)
    requires { line.old ≡ [] }
    ensures text { line.new ≡ text_of_refusal refusal }
    ensures len { length line.new < CAPACITY }
{
    line.push(b"refused ");
    push_unsigned(line, u128::from(refusal.number()));
    line.push(b" ");
    line.push(refusal.name().as_bytes());
}
