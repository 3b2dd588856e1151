//! The lines of the program, its outcomes, and the words that are numbers or that ask for calls.

mod failing_writers;
mod outcomes;
mod requests;
mod tape;

use super::rows::holds_at;
use intcalc_core::number::read_number;
use intcalc_core::run::{line_for, run};
use intcalc_core::sink::{Console, Sink};
use intcalc_core::words::read_words;
use std::alloc::{AllocError, Global};
use std::process::Abort;
use tape::Tape;

/// The status of a line.
fn status_of(line: &str) -> u8 {
    if line == "usage" {
        2
    } else if line.starts_with("refused") {
        1
    } else {
        0
    }
}

/// Returns `true` if the words give this line and its status, written at once, in two parts and byte by byte, the
/// sink has not failed, and the line is `usage` exactly if the words ask for no call.
pub(super) fn prints(alloc: Global, words: &[&str], line: &str) -> bool {
    if read_words(words).is_none() != (line == "usage") {
        return false;
    }
    for most in [usize::MAX, line.len().div_ceil(2), 1] {
        let mut out = Console::new(Tape {
            text: Vec::new(alloc),
            most,
            fault: None,
        });
        let status = run(words, &mut out);
        let is_well = out.finish() && out.put(b"") == Some(0);
        let tape = out.into_inner();
        if status != status_of(line) || !is_well || !is_line(&tape.text, line) {
            return false;
        }
    }
    true
}

fn is_line(bytes: &[u8], line: &str) -> bool {
    match bytes {
        [text @ .., b'\n'] => text == line.as_bytes(),
        _ => false,
    }
}

const NINES: &str = "99999999999999999999999999999999999999999999999999\
    99999999999999999999999999999999999999999999999999";

const NEGATIVE_NINES: &str = "-99999999999999999999999999999999999999999999999999\
    99999999999999999999999999999999999999999999999999";

/// Words that ask for no call: none, an empty word, and a word with a space.
const NO_CALLS: [&[&str]; 4] = [
    &[],
    &["", "div_rem", "1", "2"],
    &["i64", "div_rem", "1", ""],
    &["i64", "div_rem", "1", "2 "],
];

/// Words that ask for no call, with a space between each two.
static USAGE: &[&str] = &[
    "i64, i64 sqrt, i64 div_rem, i64 gcd 1, i64 div_rem 1, i64 nth_root 5, i64 binomial 5",
    "i64 sqrt 1 2, i64 gcd 1 2 3, i64 div_rem 1 2 3, i64 gcd 1 2 1 3, i64 multinomial 1 2",
    "i64 gcd +1 2, i64 div_rem +1 2, i64 div_rem - 2, i64 cbrt -, i64 div_rem 1 ٣, i64 gcd  2, i64  1 2",
    "i64 divides 1 2, i64 is_even 1, i64 extended_gcd_lcm 1 2, i64 div-rem 1 2, div_rem i64 1 2",
    "i16 gcd 1 2, U8 gcd 1 2, I64 gcd 1 2, i16 div_rem 1 2, I64 div_rem 1 2, i32 sqrt 4",
    "i64 ratio_add 1 2 1, i64 ratio_mul 1 2 1, i64 ratio_add 1 2 1 3 4, i64 ratio_add 1 2 +1 3",
    "i64 ratio_sub 1 2 1 3, i64 ratio_div 1 2 1 3",
];

/// The words, which have a space between each two.
pub(super) fn words_of(alloc: Global, text: &str) -> Result<Vec<&str>, AllocError> {
    let mut words = Vec::new(alloc);
    for word in text.split(' ') {
        words.push(word)?;
    }
    Ok(words)
}

/// Checks that the words ask for no call.
fn check_usage(rt: &impl Abort, alloc: Global, text: &str) {
    let words = words_of(alloc, text).expect(rt, "memory is left");
    holds_at(rt, prints(alloc, &words, "usage"), &text);
}

#[test]
fn usage(rt: HostRuntime) {
    for row in USAGE {
        for text in row.split(", ") {
            check_usage(&rt, rt.alloc(), text);
        }
    }
}

#[test]
fn lines(rt: HostRuntime) {
    for &words in &NO_CALLS {
        holds_at(&rt, prints(rt.alloc(), words, "usage"), &words);
    }
    for kind in ["i8", "u8", "i64", "u64"] {
        for words in [[kind, "gcd", "1", NINES], [kind, "div_rem", NINES, "1"]] {
            let printed = prints(rt.alloc(), &words, "refused 1 OutOfType");
            holds_at(&rt, printed, &words);
        }
    }
    let (line, status) = line_for(&["i64", "div_mod_floor", "-8", "3"]);
    let found = (line.as_bytes(), status);
    holds_at(&rt, found == (b"-3 1\n".as_slice(), 0), &"line_for");
}

const NUMBERS: [(&str, Option<i128>); 22] = [
    ("0", Some(0)),
    ("-0", Some(0)),
    ("007", Some(7)),
    ("-007", Some(-7)),
    ("170141183460469231731687303715884105727", Some(i128::MAX)),
    ("170141183460469231731687303715884105728", Some(i128::MAX)),
    ("-170141183460469231731687303715884105728", Some(i128::MIN)),
    ("-170141183460469231731687303715884105729", Some(i128::MIN)),
    ("", None),
    ("-", None),
    ("--1", None),
    ("+1", None),
    ("1-", None),
    (" 1", None),
    ("1 ", None),
    ("1_000", None),
    ("1.0", None),
    ("0x10", None),
    ("-٣", None),
    ("３", None),
    (NINES, Some(i128::MAX)),
    (NEGATIVE_NINES, Some(i128::MIN)),
];

#[test]
fn number_words(rt: HostRuntime) {
    holds_at(&rt, NINES.len() == 100, &NINES);
    for &(word, number) in &NUMBERS {
        holds_at(&rt, read_number(word) == number, &word);
    }
}
