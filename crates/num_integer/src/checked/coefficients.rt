//! Checked coefficients.

ghost use Rattle.std.specs.Prelude.{◌≡◌, ◌↔◌, ◌/◌, ◌≤ℤ◌, pos, unsigned_abs, map, IsTrue, All};
ghost use Rattle.integer_core.specs.Range.{EachFits};
ghost use Rattle.num_integer.specs.Checked.{AnswersWhere};
ghost use Rattle.num_integer.specs.Coefficient.{coefficient_of};
ghost use Rattle.num_integer.specs.Multinomial.{IsMultinomial};
ghost use Rattle.num_integer.specs.Row.{RowFits, row_of};

use crate::checked::operators::{inc, product, sum};
use crate::coefficients::{nearer_end, next_factors, positive_quotient};
use crate::fits_trait::Fits;
use crate::rows::IterBinomial;
use integer_core::operators::{is_below, is_negative, one, successor, zero};

/// Returns [`binomial`](crate::binomial), the binomial coefficient of `n` and `k`, or `None` if a number
/// is negative or the coefficient does not fit. `binomial(11u8, 3)` is `Some(165)`, and
/// `binomial(11u8, 4)` is `None`.
pub fn binomial<T: Fits>(n: T, k: T) -> Option<T>
    requires n_in_range { T.fits (T.value n) }
    requires k_in_range { T.fits (T.value k) }
    ensures { AnswersWhere
        ((pos 0 ≤ℤ T.value n) × (pos 0 ≤ℤ T.value k)
        × T.fits (coefficient_of (T.value n) (T.value k)))
        (λ c. T.fits (T.value c) × (T.value c ≡ coefficient_of (T.value n) (T.value k)))
        result }
{
    if is_negative(n) || is_negative(k) {
        return None;
    }
    if is_below(n, k) {
        return Some(zero());
    }
    let last = nearer_end(n, k);
    let mut coefficient = one();
    let mut place = zero();
    while is_below(place, last) {
        let (x, y) = next_factors(coefficient, n, place);
        coefficient = product(x, y)?;
        place = successor(place);
    }
    Some(coefficient)
}

/// Returns [`multinomial`](crate::multinomial), the multinomial coefficient of the counts, or `None` if a
/// count is negative or the multinomial does not fit. `multinomial(&[2, 1, 2])` is `Some(30)`, and
/// `multinomial(&[255u8, 1])` is `None`.
#[tactic(auto, using(crate::proofs::Multinomials::multinomial_first))]
pub fn multinomial<T: Fits>(k: &[T]) -> Option<T>
    requires counts_in_range { All (λ x. T.fits (T.value x)) k.now }
    ensures { AnswersWhere
        (All (λ x. pos 0 ≤ℤ T.value x) k.now
        × EachFits T.fits (IsMultinomial (map T.value k.now)))
        (λ m. T.fits (T.value m) × IsMultinomial (map T.value k.now) (T.value m))
        result }
{
    let mut multinomial = one();
    let mut total = zero();
    for count in k {
        if is_negative(*count) {
            return None;
        }
        total = sum(total, *count)?;
        multinomial = product(multinomial, binomial(total, *count)?)?;
    }
    Some(multinomial)
}

/// Returns [`IterBinomial::new`], the row of `n` in Pascal's triangle, or `None` if an item or the number
/// of the items does not fit. The row of a negative `n` is empty. `row(10u8).is_some()` is `true`, and
/// `row(11u8).is_some()` is `false`.
pub fn row<T: Fits>(n: T) -> Option<IterBinomial<T>>
    requires { T.fits (T.value n) }
    ensures { AnswersWhere
        (RowFits T.fits (T.value n))
        (λ items. (items ≡ row_of (T.value n)) × All T.fits items)
        result }
{
    if row_fits(n) {
        Some(IterBinomial::new(n))
    } else {
        None
    }
}

/// Returns `true` if the number of the items of the row of `n` fits, and its largest item, the one in the
/// middle.
fn row_fits<T: Fits>(n: T) -> bool
    requires { T.fits (T.value n) }
    ensures { IsTrue result ↔ RowFits T.fits (T.value n) }
{
    is_negative(n) || inc(n).is_some() && binomial(n, half(n)).is_some()
}

/// Returns `n / 2`. A type that does not have the number 2 has no number above 1, so it never divides.
fn half<T: Fits>(n: T) -> T
    requires in_range { T.fits (T.value n) }
    requires from_zero { pos 0 ≤ℤ T.value n }
    ensures in_range { T.fits (T.value result) }
    ensures value { T.value result ≡ pos (unsigned_abs (T.value n) / 2) }
{
    if is_below(one(), n) {
        positive_quotient(n, successor(one()))
    } else {
        zero()
    }
}
