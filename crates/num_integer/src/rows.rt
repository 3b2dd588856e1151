//! Rows of Pascal's triangle.

ghost use Rattle.std.specs.Prelude.{◌≡◌, ◌≤ℤ◌, ◌<ℤ◌, ◌-ℤ◌, List, ℤ, pos, unsigned_abs, drop, All};
ghost use Rattle.std.specs.Iterator.{YieldsFirstBy, item_count};
ghost use Rattle.num_integer.specs.Coefficient.{coefficient_of};
ghost use Rattle.num_integer.specs.Row.{IsPlaceInRow, RowFits, row_of};

use crate::coefficients::next_coefficient;
use integer_core::Integer;
use integer_core::operators::{is_below, is_zero, one, predecessor, successor, zero};
use std::marker::Model;

/// An iterator over a row of Pascal's triangle: the coefficients of `n` and each number from `0` to
/// `n`, in order. The row of a negative `n` is empty.
///
/// The items of `IterBinomial::new(3u8)` are `1`, `3`, `3` and `1`:
/// `IterBinomial::new(3u8).nth(1)` is `Some(3)`, and `IterBinomial::new(3u8).count()` is `4`.
///
/// The largest `n` whose row fits is 10 for `u8`, 9 for `i8`, 18 for `u16`, 17 for `i16`, 34 for
/// `u32`, 33 for `i32`, 67 for `u64` and 66 for `i64`.
#[derive(Drop)]
pub struct IterBinomial<T: Integer> {
    n: T,
    k: T,
    item: T,
}

impl<T: Integer> Model for IterBinomial<T> {
    ghost Value = { List ℤ };

    ghost view = { λ s. drop (unsigned_abs (T.value s.k)) (row_of (T.value s.n)) };

    ghost invariant = { λ s. IsPlaceInRow T.fits (T.value s.n) (T.value s.k) (T.value s.item) };
}

impl<T: Integer> IterBinomial<T> {
    /// Returns the row of `n`. `IterBinomial::new(3u8)` gives `1`, `3`, `3`, `1`, and then `None`, so
    /// `IterBinomial::new(3u8).last()` is `Some(1)`.
    ///
    /// [`checked::row`](crate::checked::row) returns `None` if an item does not fit.
    ///
    /// # Panics
    ///
    /// In plain Rust, if an item does not fit: not this call, but the one that asks for the item.
    pub fn new(n: T) -> Self
        requires in_range { T.fits (T.value n) }
        requires row_fits { RowFits T.fits (T.value n) }
        ensures row { result ≡ row_of (T.value n) }
        ensures items_in_range { All T.fits result }
    {
        Self {
            n,
            k: zero(),
            item: one(),
        }
    }
}

/// Returns the `k`-th item of the row of `n`, counted from 0. `previous` is the item before it.
#[tactic(auto, using(crate::proofs::RowSteps::item_steps))]
fn item_at<T: Integer + Copy>(n: T, k: T, previous: T) -> T
    requires in_range { T.fits (T.value n) × T.fits (T.value k) × T.fits (T.value previous) }
    requires k_from_zero { pos 0 ≤ℤ T.value k }
    requires k_within { T.value k ≤ℤ T.value n }
    requires previous_is { pos 0 <ℤ T.value k
        → T.value previous ≡ coefficient_of (T.value n) (T.value k -ℤ pos 1) }
    requires item_fits { T.fits (coefficient_of (T.value n) (T.value k)) }
    ensures in_range { T.fits (T.value result) }
    ensures item { T.value result ≡ coefficient_of (T.value n) (T.value k) }
{
    if is_zero(k) {
        one()
    } else {
        next_coefficient(
            previous,
            n,
            predecessor(k),
            "the binomial coefficient does not fit",
        )
    }
}

impl<T: Integer + Copy> Iterator for IterBinomial<T> {
    type Item = T;

    ghost next_gives = { YieldsFirstBy T.value (λ s. s) };

    ghost remaining = { item_count (λ s. s) };

    /// # Panics
    ///
    /// In plain Rust, if the item does not fit.
    #[tactic(auto, using(crate::proofs::RowSteps::rest_none))]
    fn next(&mut self) -> Option<T> {
        if is_below(self.n, self.k) {
            return None;
        }
        self.item = item_at(self.n, self.k, self.item);
        self.k = successor(self.k);
        Some(self.item)
    }
}
