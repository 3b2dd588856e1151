//! Shares by largest remainders, against fractions of Python.

use super::rows::holds_at;
use applied::shares::{
    SharesError, instalments, shares_by_largest_remainder, signed_shares_by_largest_remainder,
};

const MAX: u64 = u64::MAX;

const HALF: u64 = 1 << 63;

/// An amount, weights, and their shares.
static SHARES: [(u64, &[u64], &[u64]); 18] = [
    (1, &[1, 1000000], &[0, 1]),
    (2, &[1, 1, 98], &[0, 0, 2]),
    (100, &[1, 1, 1], &[34, 33, 33]),
    (100, &[1, 2], &[33, 67]),
    (299, &[5, 3, 2], &[149, 90, 60]),
    (10, &[1, 1, 1, 1, 1, 1, 1], &[2, 2, 2, 1, 1, 1, 1]),
    (
        100,
        &[47000, 16000, 15900, 12000, 6000, 3100],
        &[47, 16, 16, 12, 6, 3],
    ),
    (0, &[3, 0, 5], &[0, 0, 0]),
    (7, &[0, 0, 2], &[0, 0, 7]),
    (5, &[2, 0, 2, 2], &[2, 0, 2, 1]),
    (1000, &[333, 333, 334], &[333, 333, 334]),
    (MAX, &[MAX], &[MAX]),
    (MAX, &[MAX, 1], &[MAX - 1, 1]),
    (MAX, &[1, MAX], &[1, MAX - 1]),
    (MAX, &[HALF, HALF + 1, 5], &[HALF - 3, HALF - 3, 5]),
    (MAX, &[MAX, MAX, MAX], &[MAX / 3, MAX / 3, MAX / 3]),
    (3, &[MAX, MAX - 1, MAX - 2, MAX - 1], &[1, 1, 0, 1]),
    (1, &[MAX, MAX, MAX], &[1, 0, 0]),
];

/// Checks that the call writes the shares of each row.
macro_rules! check_shares {
    ($rt:ident, $rows:ident, $call:ident) => {
        for row in &$rows {
            let &(amount, weights, expected) = row;
            let mut parts = [0; 7];
            holds_at(&$rt, weights.len() <= parts.len(), row);
            let length = weights.len();
            let shared = $call(amount, weights, &mut parts[..length]);
            holds_at(&$rt, shared.is_ok() && &parts[..length] == expected, row);
        }
    };
}

#[test]
fn largest_remainders(rt: HostRuntime) {
    check_shares!(rt, SHARES, shares_by_largest_remainder);
}

/// A signed amount, weights, and their shares.
static SIGNED_SHARES: [(i64, &[u64], &[i64]); 7] = [
    (-1002, &[1, 1, 1, 1], &[-251, -251, -250, -250]),
    (-2, &[1, 1, 98], &[0, 0, -2]),
    (-100, &[1, 2], &[-33, -67]),
    (100, &[1, 2], &[33, 67]),
    (0, &[3, 5], &[0, 0]),
    (i64::MIN, &[MAX], &[i64::MIN]),
    (
        i64::MIN,
        &[1, 2],
        &[-3_074_457_345_618_258_603, -6_148_914_691_236_517_205],
    ),
];

#[test]
fn signed_largest_remainders(rt: HostRuntime) {
    check_shares!(rt, SIGNED_SHARES, signed_shares_by_largest_remainder);
}

/// Weights, how many shares there are, and why the call writes none.
static WRONG_WEIGHTS: [(&[u64], usize, SharesError); 7] = [
    (&[], 0, SharesError::ZeroWeights),
    (&[0], 1, SharesError::ZeroWeights),
    (&[0, 0, 0], 3, SharesError::ZeroWeights),
    (&[], 1, SharesError::DifferentLengths),
    (&[0, 0], 1, SharesError::DifferentLengths),
    (&[1, 2], 1, SharesError::DifferentLengths),
    (&[1, 2], 3, SharesError::DifferentLengths),
];

/// The error, and that the call writes nothing.
#[test]
fn largest_remainders_of_wrong_weights(rt: HostRuntime) {
    for row in &WRONG_WEIGHTS {
        let (weights, length, ref error) = *row;
        let mut parts = [9, 8, 7];
        holds_at(&rt, length <= parts.len(), row);
        let shared = shares_by_largest_remainder(100, weights, &mut parts[..length]);
        holds_at(&rt, shared == Err(*error) && parts == [9, 8, 7], row);
    }
}

/// An amount, a number of instalments, and the first three of them, or fewer, from divisions by hand.
static INSTALMENTS: [(i64, i64, &[i64]); 7] = [
    (100, 3, &[34, 33, 33]),
    (-100, 3, &[-34, -33, -33]),
    (99999, 12, &[8336, 8333, 8333]),
    (2, 3, &[2, 0, 0]),
    (5, 1, &[5]),
    (i64::MIN, 1, &[i64::MIN]),
    (i64::MIN, 2, &[i64::MIN / 2, i64::MIN / 2]),
];

#[test]
fn instalments_of_amounts(rt: HostRuntime) {
    for row in &INSTALMENTS {
        let &(amount, count, first) = row;
        let mut found = instalments(amount, count);
        for item in first {
            holds_at(&rt, found.next() == Some(*item), row);
        }
        holds_at(&rt, found.next().is_none() == (count <= 3), row);
    }
}
