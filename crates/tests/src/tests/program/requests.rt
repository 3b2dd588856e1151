//! The calls for which words ask. `USAGE` has words that ask for none.

use super::{NINES, words_of};
use crate::tests::rows::holds_at;
use intcalc_core::Kind::{I8, I64, U8, U64};
use intcalc_core::words::read_words;
use intcalc_core::{Call, Kind};

/// The smallest number of `i64`.
const MIN: i128 = -9223372036854775808;

/// Words, and the kind and the call for which they ask.
const REQUESTS: [(&str, Kind, Call); 7] = [
    ("i64 div_mod_floor -8 3", I64, Call::DivModFloor(-8, 3)),
    ("i64 gcd 007 -0", I64, Call::Gcd(7, 0)),
    ("u8 div_floor 256 0", U8, Call::DivFloor(256, 0)),
    ("i64 cbrt -9223372036854775808", I64, Call::Cbrt(MIN)),
    ("i8 nth_root 127 200", I8, Call::NthRoot(127, 200)),
    ("u64 binomial 67 33", U64, Call::Binomial(67, 33)),
    ("u8 ratio_add 1 2 1 3", U8, Call::RatioAdd(1, 2, 1, 3)),
];

#[test]
fn requests(rt: HostRuntime) {
    for &(text, kind, call) in &REQUESTS {
        let words = words_of(rt.alloc(), text).expect(&rt, "memory is left");
        holds_at(&rt, read_words(&words) == Some((kind, call)), &text);
    }
    let request = read_words(&["i64", "gcd", "1", NINES]);
    let expected = Some((I64, Call::Gcd(1, i128::MAX)));
    holds_at(&rt, request == expected, &NINES);
}
