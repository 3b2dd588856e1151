//! The largest rows of each type.

use super::calls::Call::{Binomial, Row as RowOf};
use super::results::{result, truth};
use super::rows::returns;
use own_types::types::Type;
use own_types::types::Type::{I8, I16, I32, I64, U8, U16, U32, U64};
use std::alloc::Global;
use std::process::Abort;

/// The row of the number has its coefficients, and the next row has one that does not fit.
fn check_largest_row(rt: &impl Abort, alloc: Global, it: Type, n: u128) {
    let mut row = Vec::new(alloc);
    row.push((false, n)).expect(rt, "memory is left");
    for k in 0..=n {
        match result(alloc, it, Binomial, &[(false, n), (false, k)]) {
            Some(numbers) => row.push(numbers[0]).expect(rt, "memory is left"),
            None => panic!(rt; "the coefficient fits"),
        }
    }
    returns(rt, alloc, (it, RowOf), &row, Some(truth(true)));
    let above = (false, n.saturating_add(1));
    returns(rt, alloc, (it, RowOf), &[above], None);
}

/// The largest number whose row fits, at each of the types.
static LARGEST_ROWS: [(Type, u128); 8] = [
    (U8, 10),
    (I8, 9),
    (U16, 18),
    (I16, 17),
    (U32, 34),
    (I32, 33),
    (U64, 67),
    (I64, 66),
];

#[test]
fn test_iter_binomial(rt: HostRuntime) {
    for (it, n) in &LARGEST_ROWS {
        check_largest_row(&rt, rt.alloc(), *it, *n);
    }
}
