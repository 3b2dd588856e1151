//! Rows: a call at some types, its operands and its results, as text.
//!
//! `"i8/u8 gcd: 12 8 or 8 12 = 4, 0 0 = 0"` has three cases at two types. A case holds if the call returns the result, or has no
//! result where the row says `refused`, and if `run` prints it as the line, where the program has the type and the call.

ghost use Rattle.std.specs.Prelude.{IsTrue};

use super::calls::Call;
use super::program::{prints, words_of};
use super::results::{Numbers, operand, result, truth};
use own_types::signed_magnitude::{SignedMagnitude, signed_magnitude_of};
use own_types::types::{NATIVE, SIGNED, Type, UNSIGNED};
use std::alloc::Global;
use std::fmt::{Debug, Display};
use std::hash::{DefaultHasher, Hash, Hasher};
use std::process::Abort;

/// Asserts that the check holds, with a message that shows the row: the call and its operands. A message of
/// its own would cost each function seconds of proof.
pub(crate) fn holds_at(rt: &impl Abort, holds: bool, row: &impl Debug)
    ensures { IsTrue holds }
{
    assert!(rt; holds, "at {row:?}");
}

/// Asserts that the value is written so.
pub(crate) fn is_written(rt: &impl Abort, alloc: Global, value: &impl Display, text: &str) {
    let written = value.to_string(alloc).expect(rt, "memory is left");
    let written = written.as_str();
    holds_at(rt, written == text, &(written, text));
}

/// Returns the hash of a value.
pub(crate) fn hash_of(x: &impl Hash) -> u64 {
    let mut state = DefaultHasher::new();
    x.hash(&mut state);
    state.finish()
}

/// Asserts that the call returns these numbers at the type, or that the operands do not meet its precondition.
pub(crate) fn returns(
    rt: &impl Abort,
    alloc: Global,
    (it, call): (Type, Call),
    operands: &[SignedMagnitude],
    expected: Option<Numbers>,
) {
    let same = result(alloc, it, call, operands) == expected;
    holds_at(rt, same, &(it, call, operands, expected));
}

/// Checks what the call returns, and what the test of its precondition returns.
pub(crate) fn returns_as_tested(
    rt: &impl Abort,
    alloc: Global,
    (it, call): (Type, Call),
    operands: &[SignedMagnitude],
    expected: Option<Numbers>,
) {
    returns(rt, alloc, (it, call), operands, expected);
    if let Some(test) = call.test() {
        let fits = Some(truth(expected.is_some()));
        returns(rt, alloc, (it, test), operands, fits);
    }
}

/// Checks the result of a call of two numbers.
pub(crate) fn returns_of_two(
    rt: &impl Abort,
    alloc: Global,
    (it, call): (Type, Call),
    (a, b): (i128, i128),
    expected: Numbers,
) {
    let operands = [signed_magnitude_of(a), signed_magnitude_of(b)];
    returns(rt, alloc, (it, call), &operands, Some(expected));
}

/// The types that have this name, or none.
fn types_named(name: &str) -> &'static [Type] {
    match name {
        "native" => &NATIVE,
        "signed" => &SIGNED,
        "unsigned" => &UNSIGNED,
        "i8" => &[Type::I8],
        "i16" => &[Type::I16],
        "i32" => &[Type::I32],
        "i64" => &[Type::I64],
        "i128" => &[Type::I128],
        "isize" => &[Type::Isize],
        "u8" => &[Type::U8],
        "u16" => &[Type::U16],
        "u32" => &[Type::U32],
        "u64" => &[Type::U64],
        "u128" => &[Type::U128],
        "usize" => &[Type::Usize],
        "percent" => &[Type::Percent],
        "small" => &[Type::Small],
        "negated" => &[Type::Negated],
        "marked" => &[Type::Marked],
        "one_bit" => &[Type::OneBit],
        "two_bits" => &[Type::TwoBits],
        _ => &[],
    }
}

/// The word that the program has for the type.
fn kind_of(it: Type) -> Option<&'static str> {
    match it {
        Type::I8 => Some("i8"),
        Type::U8 => Some("u8"),
        Type::I64 => Some("i64"),
        Type::U64 => Some("u64"),
        _ => None,
    }
}

/// The number of a word.
fn number_of(word: &str) -> Option<SignedMagnitude> {
    match word.strip_prefix('-') {
        Some(digits) => {
            let magnitude = digits.parse::<u128>().ok()?;
            Some((magnitude != 0, magnitude))
        }
        None => Some((false, word.parse::<u128>().ok()?)),
    }
}

/// The numbers of words with a space between each two, or no numbers if the text is `[]`.
fn numbers_of(alloc: Global, text: &str) -> Option<Vec<SignedMagnitude>> {
    let mut numbers = Vec::new(alloc);
    if text != "[]" {
        for word in text.split(' ') {
            numbers.push(number_of(word)?).ok()?;
        }
    }
    Some(numbers)
}

/// The numbers of a result, or `None` if it is not one.
fn expected_of(alloc: Global, text: &str) -> Option<Option<Numbers>> {
    Some(match text {
        "true" => Some(truth(true)),
        "false" => Some(truth(false)),
        _ if text.starts_with("refused") => None,
        _ => {
            let numbers = numbers_of(alloc, text)?;
            Some([
                operand(&numbers, 0),
                operand(&numbers, 1),
                operand(&numbers, 2),
                operand(&numbers, 3),
            ])
        }
    })
}

/// A call, its operands and its result.
type Case<'a> = (&'a str, &'a str, &'a str);

/// Returns whether the call returns the result, or `None` if no call or type has these words.
fn is_returned(alloc: Global, it: Type, (call, operands, text): Case) -> Option<bool> {
    if text == "refused 1 OutOfType" {
        return None;
    }
    let operands = numbers_of(alloc, operands)?;
    let expected = expected_of(alloc, text)?;
    Some(result(alloc, it, Call::named(call)?, &operands) == expected)
}

/// Returns whether `run` prints the result, or `None` if the program lacks the type or the call.
fn is_printed(alloc: Global, it: Type, (call, operands, text): Case) -> Option<bool> {
    if Call::of_library(call).is_some() {
        return None;
    }
    let kind = kind_of(it)?;
    let line = format!(in alloc; "{kind} {call} {operands}").ok()?;
    let words = words_of(alloc, line.as_str()).ok()?;
    Some(prints(alloc, &words, text))
}

/// Returns whether the case holds: the call or the program has it, and neither has another result.
fn holds(alloc: Global, it: Type, case: Case) -> bool {
    let (returned, printed) = (is_returned(alloc, it, case), is_printed(alloc, it, case));
    (returned.is_some() || printed.is_some()) && returned != Some(false) && printed != Some(false)
}

/// Checks the case at each of the types, whose names have a `/` between each two.
fn check_at_types(rt: &impl Abort, alloc: Global, types: &str, case: Case) {
    for name in types.split('/') {
        let types = types_named(name);
        holds_at(rt, !types.is_empty(), &name);
        for &it in types {
            holds_at(rt, holds(alloc, it, case), &(it, case));
        }
    }
}

/// Checks the cases of one result.
fn check_result(rt: &impl Abort, alloc: Global, (types, call): (&str, &str), cases: &str) {
    let (operands, result) = cases.split_once(" = ").expect(rt, "the row has a result");
    for operands in operands.split(" or ") {
        check_at_types(rt, alloc, types, (call, operands, result));
    }
}

/// Checks each case of the rows.
pub(crate) fn check_rows(rt: &impl Abort, alloc: Global, rows: &[&str]) {
    for row in rows {
        let (asked, cases) = row.split_once(": ").expect(rt, "the row has cases");
        let asked = asked.split_once(' ').expect(rt, "the row has a call");
        for cases in cases.split(", ") {
            check_result(rt, alloc, asked, cases);
        }
    }
}
