//! An amount in equal instalments, the first of which has the rest too.

ghost use Rattle.std.specs.Prelude.{◌≡◌, ◌<ℤ◌, List, ℤ, pos, unsigned_abs, All};
ghost use Rattle.std.specs.Iterator.{YieldsFirstBy, item_count};
ghost use Rattle.num_integer.specs.Only.{IsOnly};
ghost use Rattle.applied.specs.Instalments.{AreInstalments, CanGoOn, instalments_left};
ghost use Rattle.applied.specs.Shares.{signed_sum};

use num_integer::Integer;
use num_integer::guards::check;
use num_integer::operators::{is_zero, predecessor, sum, zero};
use std::marker::Model;

/// An iterator over instalments. [`instalments`] makes it. `instalments(100, 3).count()` is `3`.
#[derive(Drop)]
pub struct IterInstalments<T: Integer> {
    next: T,
    other: T,
    count: T,
}

impl<T: Integer> Model for IterInstalments<T> {
    ghost Value = { List ℤ };

    ghost view = { λ s. instalments_left (unsigned_abs (T.value s.count)) (T.value s.next) (T.value s.other) };

    ghost invariant = { λ s. CanGoOn T.fits (T.value s.next) (T.value s.other) (T.value s.count) };
}

/// Returns the instalments in which an amount is paid: `count` numbers, all equal but the first, which has the rest
/// too. Their sum is the amount.
///
/// The items of `instalments(100, 3)` are `34`, `33` and `33`: `instalments(100, 3).next()` is `Some(34)`, and
/// `instalments(100, 3).last()` is `Some(33)`. Those of a negative amount are the same with the other sign:
/// `instalments(-100, 3).next()` is `Some(-34)`.
///
/// # Panics
///
/// In plain Rust, if the number of instalments is not positive.
pub fn instalments<T: Integer + Copy>(amount: T, count: T) -> IterInstalments<T>
    requires in_range { T.fits (T.value amount) × T.fits (T.value count) }
    requires positive { pos 0 <ℤ T.value count }
    ensures instalments { AreInstalments (T.value amount) (T.value count) result }
    ensures only { IsOnly (AreInstalments (T.value amount) (T.value count)) result }
    ensures whole { signed_sum result ≡ T.value amount }
    ensures items_in_range { All T.fits result }
{
    check(count > zero(), "the number of instalments is not positive");
    let (other, rest) = amount.div_rem(&count);
    IterInstalments {
        next: sum(other, rest),
        other,
        count,
    }
}

impl<T: Integer + Copy> Iterator for IterInstalments<T> {
    type Item = T;

    ghost next_gives = { YieldsFirstBy T.value (λ s. s) };

    ghost remaining = { item_count (λ s. s) };

    fn next(&mut self) -> Option<T> {
        if is_zero(self.count) {
            return None;
        }
        let instalment = self.next;
        self.next = self.other;
        self.count = predecessor(self.count);
        Some(instalment)
    }
}
