//! Decimal numbers: strings that are read, the order, and fractions. More of them are in `rust/tests`.

use super::rows::{hash_of, holds_at, is_written};
use ratio64::ParseDecimalError::{NotADecimal, NotFitting, TooManyPlaces};
use ratio64::{Decimal, ParseDecimalError, Ratio, RatioError};
use std::process::Abort;

/// The units and the places of a decimal number.
type Parts = (i128, u32);

/// A string, and what it is read as, by Python's `decimal`.
static READ: [(&str, Result<Parts, ParseDecimalError>); 30] = [
    ("12.34", Ok((1234, 2))),
    ("-0.05", Ok((-5, 2))),
    ("-00.50", Ok((-50, 2))),
    ("-0", Ok((0, 0))),
    ("007", Ok((7, 0))),
    ("1.0000000000000000000000000", Ok((1000000000000000000, 18))),
    ("0.000000000000000001", Ok((1, 18))),
    ("0.0000000000000000010", Ok((1, 18))),
    ("0.0000000000000000001", Err(TooManyPlaces)),
    ("-7.0000000000000000000000001", Err(TooManyPlaces)),
    (
        "170141183460469231731687303715884105727",
        Ok((i128::MAX, 0)),
    ),
    (
        "-170141183460469231731687303715884105727",
        Ok((-i128::MAX, 0)),
    ),
    ("-170141183460469231731687303715884105728", Err(NotFitting)),
    ("1701411834604692317316873037158841057.28", Err(NotFitting)),
    (
        "1701411834604692317316873037158841057.27",
        Ok((i128::MAX, 2)),
    ),
    (
        "999999999999999999999999999999999999999999",
        Err(NotFitting),
    ),
    ("", Err(NotADecimal)),
    ("-", Err(NotADecimal)),
    (".", Err(NotADecimal)),
    ("5.", Err(NotADecimal)),
    (".5", Err(NotADecimal)),
    ("+5", Err(NotADecimal)),
    (" 5", Err(NotADecimal)),
    ("1,5", Err(NotADecimal)),
    ("1,234.50", Err(NotADecimal)),
    ("1_000", Err(NotADecimal)),
    ("1e3", Err(NotADecimal)),
    ("$5", Err(NotADecimal)),
    ("1.2.3", Err(NotADecimal)),
    ("1.-2", Err(NotADecimal)),
];

/// Numbers, each less than all that come after it, in two forms.
static ASCENDING: [(Parts, Parts); 6] = [
    ((-i128::MAX, 0), (-i128::MAX, 0)),
    ((-5, 1), (-50, 2)),
    ((0, 0), (0, 18)),
    ((1, 18), (1, 18)),
    ((12, 0), (1200, 2)),
    ((i128::MAX, 1), (i128::MAX, 1)),
];

/// A decimal number, and the parts of its fraction.
static FRACTIONS: [(Parts, Result<(i64, i64), RatioError>); 4] = [
    ((-5, 2), Ok((-1, 20))),
    ((1250, 3), Ok((5, 4))),
    ((i128::MAX, 0), Err(RatioError::NotFitting)),
    ((1, 18), Ok((1, 1000000000000000000))),
];

/// The parts of a fraction, a number of places, and the exact decimal number.
static EXACT: [((i64, i64), u32, Option<Parts>); 5] = [
    ((1, 8), 3, Some((125, 3))),
    ((1, 8), 2, None),
    ((1, 3), 18, None),
    ((7, 1), 19, None),
    ((i64::MIN, 1), 1, Some((-92233720368547758080, 1))),
];

/// The number of so many units and places.
fn decimal(rt: &impl Abort, (units, places): Parts) -> Decimal {
    Decimal::new(units, places).expect(rt, "the units and the places fit")
}

fn parts(x: &Decimal) -> Parts {
    (x.units(), x.places())
}

#[test]
fn strings(rt: HostRuntime) {
    for &(text, expected) in &READ {
        let found = match text.parse::<Decimal>() {
            Ok(x) => Ok(parts(&x)),
            Err(error) => Err(error),
        };
        holds_at(&rt, found == expected, &text);
    }
}

#[test]
fn order(rt: HostRuntime) {
    for (i, &(first, _)) in ASCENDING.iter().enumerate() {
        for (j, &(_, second)) in ASCENDING.iter().enumerate() {
            let (x, y) = (decimal(&rt, first), decimal(&rt, second));
            let same = hash_of(&x) == hash_of(&y);
            let found = (x.cmp(&y), x == y, same);
            holds_at(&rt, found == (i.cmp(&j), i == j, i == j), &(first, second));
        }
    }
}

#[test]
fn fractions(rt: HostRuntime) {
    for &(given, expected) in &FRACTIONS {
        let found = match decimal(&rt, given).to_ratio() {
            Ok(x) => Ok((x.num(), x.den())),
            Err(error) => Err(error),
        };
        holds_at(&rt, found == expected, &given);
    }
    for &((num, den), places, expected) in &EXACT {
        let x = Ratio::new(num, den).expect(&rt, "the reduced parts fit");
        let found = match x.to_decimal_exactly(places) {
            Some(decimal) => Some(parts(&decimal)),
            None => None,
        };
        holds_at(&rt, found == expected, &(num, den, places));
    }
}

#[test]
fn ends_of_decimals(rt: HostRuntime) {
    holds_at(&rt, Decimal::new(0, 19).is_none(), &19);
    holds_at(&rt, Decimal::new(i128::MIN, 0).is_none(), &i128::MIN);
    is_written(&rt, rt.alloc(), &Decimal::from_integer(-7), "-7");
    is_written(&rt, rt.alloc(), &decimal(&rt, (-5, 2)), "-0.05");
}

/// An error, and its string.
static ERRORS: [(ParseDecimalError, &str); 3] = [
    (NotADecimal, "the text is not a decimal number"),
    (TooManyPlaces, "a digit after the 18th place is not 0"),
    (NotFitting, "the decimal number does not fit in 128 bits"),
];

#[test]
fn texts_of_errors(rt: HostRuntime) {
    for &(error, text) in &ERRORS {
        is_written(&rt, rt.alloc(), &error, text);
    }
}
