//! Fractions: worked values, the ends of `i64`, and strings. More of them are in `rust/tests`.

ghost use Rattle.std.specs.Prelude.{IfOk};
ghost use Rattle.ratio64.specs.Fraction.{IsExact};
ghost use Rattle.ratio64.specs.Ratio.{num_of, den_of};

use super::rows::{hash_of, holds_at, is_written};
use ratio64::RatioError::{NotFitting, ZeroDenominator};
use ratio64::{ParseRatioError, Ratio, RatioError};
use std::process::Abort;

const MIN: i64 = i64::MIN;

const MAX: i64 = i64::MAX;

const HALF: i64 = 4611686018427387904;

/// The numerator and the denominator of a fraction.
type Parts = (i64, i64);

/// The parts of a fraction as given, and those of the reduced one.
static REDUCED: [(Parts, Result<Parts, RatioError>); 18] = [
    ((6, -4), Ok((-3, 2))),
    ((0, -9), Ok((0, 1))),
    ((2, 4), Ok((1, 2))),
    ((-1, -2), Ok((1, 2))),
    ((MIN, 2), Ok((-HALF, 1))),
    ((2, MIN), Ok((-1, HALF))),
    ((MIN, 6), Ok((-HALF, 3))),
    ((3, MIN), Err(NotFitting)),
    ((1, MIN), Err(NotFitting)),
    ((MIN, -1), Err(NotFitting)),
    ((MIN, MIN), Ok((1, 1))),
    ((MIN, MAX), Ok((MIN, MAX))),
    ((MAX, MIN), Err(NotFitting)),
    ((MAX, -1), Ok((-MAX, 1))),
    ((0, MIN), Ok((0, 1))),
    ((1, 0), Err(ZeroDenominator)),
    ((0, 0), Err(ZeroDenominator)),
    ((MIN, 0), Err(ZeroDenominator)),
];

/// The parts of a fraction, and what it is rounded to down and up.
static ROUNDED: [(Parts, (i64, i64)); 5] = [
    ((6, -4), (-2, -1)),
    ((0, -9), (0, 0)),
    ((2, MIN), (-1, 0)),
    ((MIN, 1), (MIN, MIN)),
    ((MAX, 2), (HALF - 1, HALF)),
];

/// Fractions, each less than all that come after it.
static ASCENDING: [Parts; 11] = [
    (MIN, 1),
    (-MAX, 1),
    (MIN, MAX),
    (-1, 1),
    (-1, MAX),
    (0, 1),
    (1, MAX),
    (1, 3),
    (1, 2),
    (MAX - 1, MAX),
    (MAX, 1),
];

/// The sign of an operation, the parts of its operands, and those of its result.
static ANSWERS: [(char, Parts, Parts, Result<Parts, RatioError>); 16] = [
    ('+', (1, 6), (1, 3), Ok((1, 2))),
    ('+', (MAX, 1), (1, 1), Err(NotFitting)),
    ('+', (MAX, 1), (MIN, 1), Ok((-1, 1))),
    ('+', (1, HALF), (1, HALF), Ok((1, HALF / 2))),
    ('+', (1, MAX), (-1, MAX), Ok((0, 1))),
    ('-', (1, 2), (1, 3), Ok((1, 6))),
    ('-', (MIN, 1), (1, 1), Err(NotFitting)),
    ('-', (MIN, 1), (MIN, 1), Ok((0, 1))),
    ('*', (MAX, 2), (2, MAX), Ok((1, 1))),
    ('*', (MIN, 1), (MIN, 1), Err(NotFitting)),
    ('*', (MIN, MAX), (MAX, 1), Ok((MIN, 1))),
    ('/', (-1, 2), (-3, 4), Ok((2, 3))),
    ('/', (1, 2), (0, 1), Err(ZeroDenominator)),
    ('/', (MIN, 1), (-1, 1), Err(NotFitting)),
    ('/', (MIN, 1), (MIN, 1), Ok((1, 1))),
    ('/', (1, 1), (MIN, 1), Err(NotFitting)),
];

/// The fraction of two numbers.
fn ratio(rt: &impl Abort, (num, den): Parts) -> Ratio {
    Ratio::new(num, den).expect(rt, "the reduced parts fit")
}

/// The parts of a result.
fn parts(answer: Result<Ratio, RatioError>) -> Result<Parts, RatioError> {
    let x = answer?;
    Ok((x.num(), x.den()))
}

#[test]
fn reduced_parts(rt: HostRuntime) {
    for &((num, den), expected) in &REDUCED {
        let found = parts(Ratio::new(num, den));
        holds_at(&rt, found == expected, &("new", num, den));
    }
    for &(given, expected) in &ROUNDED {
        let x = ratio(&rt, given);
        holds_at(&rt, (x.floor(), x.ceil()) == expected, &("floor", given));
    }
}

#[test]
fn ascending(rt: HostRuntime) {
    for (i, &first) in ASCENDING.iter().enumerate() {
        for (j, &second) in ASCENDING.iter().enumerate() {
            let (x, y) = (ratio(&rt, first), ratio(&rt, second));
            let found = (x.cmp(&y), x < y);
            holds_at(&rt, found == (i.cmp(&j), i < j), &("cmp", first, second));
        }
    }
}

#[test]
fn equal_fractions(rt: HostRuntime) {
    let (first, second) = (ratio(&rt, (2, 4)), ratio(&rt, (-1, -2)));
    assert!(rt; first == second && hash_of(&first) == hash_of(&second));
    for other in [(1, 3), (1, 1), (-1, 2), (2, 1), (0, 1)] {
        let hash = hash_of(&ratio(&rt, other));
        holds_at(&rt, hash != hash_of(&first), &("hash_of", other));
    }
}

/// The result of the operation of a sign.
fn answer(sign: char, x: &Ratio, y: &Ratio) -> Result<Ratio, RatioError> {
    match sign {
        '+' => x.checked_add(y),
        '-' => x.checked_sub(y),
        '*' => x.checked_mul(y),
        _ => x.checked_div(y),
    }
}

#[test]
fn answers_of_operations(rt: HostRuntime) {
    for &(sign, first, second, expected) in &ANSWERS {
        let (x, y) = (ratio(&rt, first), ratio(&rt, second));
        let found = parts(answer(sign, &x, &y));
        holds_at(&rt, found == expected, &(first, sign, second));
    }
}

/// The parts of a fraction, and its string.
static TEXTS: [(Parts, &str); 5] = [
    ((6, -4), "-3/2"),
    ((12, 4), "3"),
    ((0, -9), "0"),
    ((MIN, MAX), "-9223372036854775808/9223372036854775807"),
    ((MIN, 1), "-9223372036854775808"),
];

#[test]
fn texts(rt: HostRuntime) {
    for &(given, text) in &TEXTS {
        let x = ratio(&rt, given);
        is_written(&rt, rt.alloc(), &x, text);
        holds_at(&rt, text.parse() == Ok(x), &text);
    }
}

/// An error, its number, and its string.
static REFUSALS: [(RatioError, u32, &str); 2] = [
    (ZeroDenominator, 1, "the denominator is 0"),
    (
        NotFitting,
        2,
        "a part of the reduced fraction does not fit in 64 bits",
    ),
];

/// The errors of a string alone.
static PARSE_TEXTS: [(ParseRatioError, &str); 2] = [
    (ParseRatioError::NotAFraction, "the text is not a fraction"),
    (
        ParseRatioError::TooLong,
        "a part has more than 38 digits, leading zeros aside",
    ),
];

#[test]
fn texts_of_errors(rt: HostRuntime) {
    for &(error, number, text) in &REFUSALS {
        holds_at(&rt, error.number() == number, &("number", error));
        is_written(&rt, rt.alloc(), &error, text);
        is_written(&rt, rt.alloc(), &ParseRatioError::from(error), text);
    }
    for &(error, text) in &PARSE_TEXTS {
        is_written(&rt, rt.alloc(), &error, text);
    }
}

/// The fraction of two numbers, as a program makes it: the error is any error.
fn fraction_of(num: i64, den: i64) -> anyhow::Result<Ratio>
    ensures { IfOk result (λ x. IsExact num den (num_of x) (den_of x)) }
{
    let fraction = Ratio::new(num, den)?;
    Ok(fraction)
}

/// The quotient of the fractions in two strings.
fn quotient_of_texts(num: &str, den: &str) -> anyhow::Result<Ratio> {
    let (num, den) = (num.parse::<Ratio>()?, den.parse::<Ratio>()?);
    Ok(num.checked_div(&den)?)
}

#[test]
fn errors_of_callers(rt: HostRuntime) {
    let are_fractions = fraction_of(6, -4).is_ok() && quotient_of_texts("6/-4", "3/2").is_ok();
    holds_at(&rt, are_fractions, &"fraction_of");
    for (num, den, text) in [
        ("1/2", "0", "the denominator is 0"),
        ("1/2", "one", "the text is not a fraction"),
    ] {
        let error = quotient_of_texts(num, den).err();
        let error = error.expect(&rt, "the quotient is refused");
        is_written(&rt, rt.alloc(), &error, text);
    }
}
