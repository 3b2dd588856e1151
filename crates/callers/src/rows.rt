//! Binomial coefficients, and rows of Pascal's triangle.

ghost use Rattle.std.specs.Prelude.{◌≡◌, ◌<◌, IfSome, pos, FitsSigned, IfOk, None, map};
ghost use Rattle.std.specs.Int.{FitsUnsignedBits, w8};
ghost use Rattle.num_integer.specs.Row.{row_of, RowFits};

use num_integer::{Integer, IterBinomial, binomial};
use std::alloc::{AllocError, Global};

/// Collects the row of `n`. If the result is `Ok`, its items are the coefficients of `n` and 0, 1 and so on to `n`.
pub fn row<T: Integer>(alloc: Global, n: T) -> Result<Vec<T>, AllocError>
    requires in_range { T.fits (T.value n) }
    requires row_fits { RowFits T.fits (T.value n) }
    ensures items { IfOk result (λ v. map T.value v.items ≡ row_of (T.value n)) }
{
    IterBinomial::new(n).collect(alloc)
}

/// Collects the row of `n` at `u64`. The contract is about `Ok` alone.
pub fn row_of_u64(alloc: Global, n: u64) -> Result<Vec<u64>, AllocError>
    requires row_fits { RowFits (FitsUnsignedBits 64) (pos n) }
    ensures items { IfOk result (λ v. map (λ item. pos item) v.items ≡ row_of (pos n)) }
{
    IterBinomial::new(n).collect(alloc)
}

/// Collects a whole row by a loop that pushes each item. The contract is about `Ok` alone.
pub fn row_by_a_loop<T: Integer>(alloc: Global, n: T) -> Result<Vec<T>, AllocError>
    requires in_range { T.fits (T.value n) }
    requires row_fits { RowFits T.fits (T.value n) }
    ensures { IfOk result (λ v. map T.value v.items ≡ row_of (T.value n)) }
{
    let mut all = Vec::new(alloc);
    for item in IterBinomial::new(n) {
        all.push(item)?;
    }
    Ok(all)
}

/// Collects the row of a signed byte by a generic call. The contract is about `Ok` alone.
pub fn signed_row(alloc: Global, n: i8) -> Result<Vec<i8>, AllocError>
    requires { RowFits (FitsSigned w8) n }
    ensures { IfOk result (λ v. map (λ x. x) v.items ≡ row_of n) }
{
    row(alloc, n)
}

/// Searches a row for an item that is greater than `limit`. The contract says only that what it finds is greater.
pub fn first_above(n: u8, limit: u8) -> Option<u8>
    requires { RowFits (FitsUnsignedBits 8) (pos n) }
    ensures { IfSome result (λ item. limit < item) }
{
    let mut row = IterBinomial::new(n);
    while let Some(item) = row.next() {
        if limit < item {
            return Some(item);
        }
    }
    None
}

/// Calls `max` on a row. The contract says only that the item fits.
pub fn largest_item<T: Integer>(n: T) -> Option<T>
    requires in_range { T.fits (T.value n) }
    requires row_fits { RowFits T.fits (T.value n) }
    ensures { IfSome result (λ item. T.fits (T.value item)) }
{
    IterBinomial::new(n).max()
}

/// Returns the number of ways to choose 4 of 9 things. It is a binomial coefficient of literals.
#[tactic(auto, unfolding(num_integer::specs::Coefficient::coefficient))]
pub fn choices_of_4_out_of_9() -> u8
    ensures { result ≡ 126 }
{
    binomial(9, 4)
}

/// Returns the row of Pascal's triangle of a literal.
#[tactic(auto, unfolding(num_integer::specs::Coefficient::coefficient))]
pub fn row_of_three() -> IterBinomial<u8>
    ensures { result ≡ row_of (pos 3) }
{
    IterBinomial::new(3)
}
