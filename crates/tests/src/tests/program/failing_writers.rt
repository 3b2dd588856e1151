//! Over a writer that fails, the status is 4, and the sink has failed for good.

use super::tape::{Fault, Tape};
use crate::tests::rows::holds_at;
use intcalc_core::run::run;
use intcalc_core::sink::{Console, Sink};
use std::alloc::Global;
use std::io::ErrorKind::{Interrupted, Other};

/// Words and a line.
type Row = (&'static [&'static str], &'static str);

/// A result, a refusal, and words that are no call.
const ROWS: [Row; 3] = [
    (&["i64", "div_mod_floor", "-8", "3"], "-3 1\n"),
    (&["i64", "div_floor", "1", "0"], "refused 2 ZeroDivisor\n"),
    (&["i64", "gcd", "+1", "2"], "usage\n"),
];

/// Returns `true` if the status is 4 at the fault, the writer has the first `len` bytes of the line, and nothing is
/// written or flushed from then on.
fn fails(alloc: Global, (words, line): Row, most: usize, fault: Fault, len: usize) -> bool {
    let mut out = Console::new(Tape {
        text: Vec::new(alloc),
        most,
        fault: Some(fault),
    });
    let status = run(words, &mut out);
    let has_failed = out.put(b"").is_none() && out.put(b"more").is_none() && !out.finish();
    let tape = out.into_inner();
    status == 4 && has_failed && Some(tape.text.as_slice()) == line.as_bytes().get(..len)
}

/// Returns `true` if it fails at each write. An interrupted write is a fault like any other, although the next write
/// would succeed.
fn fails_at_writes(alloc: Global, row: Row, most: usize) -> bool {
    for len in 0..row.1.len() {
        if len.checked_rem(most) == Some(0) {
            for kind in [Some(Other), Some(Interrupted), None] {
                if !fails(alloc, row, most, Fault::Write(len, kind), len) {
                    return false;
                }
            }
        }
    }
    true
}

/// By a writer that takes the line at once, in two parts, and byte by byte.
#[test]
fn failing_writers(rt: HostRuntime) {
    for &row in &ROWS {
        let len = row.1.len();
        for most in [len, len.div_ceil(2), 1] {
            holds_at(&rt, fails_at_writes(rt.alloc(), row, most), &(row.1, most));
            for kind in [Other, Interrupted] {
                let fails = fails(rt.alloc(), row, most, Fault::Flush(kind), len);
                holds_at(&rt, fails, &("flush", row.1, most));
            }
        }
    }
}
