//! Binomial and multinomial coefficients.

ghost use Rattle.std.specs.Prelude.{◌≡◌, ◌-◌, ◌^◌, ◌≤◌, ◌≤ℤ◌, ◌<ℤ◌, ◌+ℤ◌, ◌*ℤ◌, pos, unsigned_abs, int_div, min, map, All};
ghost use Rattle.integer_core.specs.Divisors.{Divides};
ghost use Rattle.integer_core.specs.Range.{EachFits};
ghost use Rattle.num_integer.specs.Coefficient.{coefficient, coefficient_of};
ghost use Rattle.num_integer.specs.Multinomial.{IsMultinomial};

use integer_core::Integer;
use integer_core::fitting::{difference, successor};
use integer_core::guards::{check, check_none_negative, product_or, sum_or};
use integer_core::operators::{is_below, is_negative, one, quotient, remainder, zero};

/// Returns `a / b`. The quotient by a positive number always fits.
#[tactic(auto, using(integer_core::proofs::FlooredByPositive::operator_quotient_fits))]
pub(crate) fn positive_quotient<T: Integer>(a: T, b: T) -> T
    requires in_range { T.fits (T.value a) × T.fits (T.value b) }
    requires positive { pos 0 <ℤ T.value b }
    ensures in_range { T.fits (T.value result) }
    ensures value { T.value result ≡ int_div (T.value a) (T.value b) }
{
    quotient(a, b)
}

/// Splits `r * a / b`, which is an integer, into the factors `r / g` and `a / (b / g)`. `g` is the
/// gcd of `r` and `b`, computed as that of `r % b` and `b`. If `g` is `b` or 1, one division gives
/// both factors. After <https://blog.plover.com/math/choose-2.html>.
#[tactic(auto, using(crate::proofs::RowSteps::factor_steps))]
fn factors<T: Integer + Copy>(r: T, a: T, b: T) -> (T, T)
    requires in_range { T.fits (T.value r) × T.fits (T.value a) × T.fits (T.value b) }
    requires a_from_zero { pos 0 ≤ℤ T.value a }
    requires b_positive { pos 0 <ℤ T.value b }
    requires whole { Divides (T.value b) (T.value r *ℤ T.value a) }
    ensures in_range { T.fits (T.value result.0) × T.fits (T.value result.1) }
    ensures product { T.value result.0 *ℤ T.value result.1 *ℤ T.value b
        ≡ T.value r *ℤ T.value a }
{
    let g = remainder(r, b).gcd(&b);
    if !is_below(g, b) {
        (positive_quotient(r, b), a)
    } else if is_below(one(), g) {
        (
            positive_quotient(r, g),
            positive_quotient(a, positive_quotient(b, g)),
        )
    } else {
        (r, positive_quotient(a, b))
    }
}

/// Returns two factors of the coefficient of `n` and `k + 1`, which is `c * (n - k) / (k + 1)`. `c`
/// is the coefficient of `n` and `k`.
pub(crate) fn next_factors<T: Integer + Copy>(c: T, n: T, k: T) -> (T, T)
    requires in_range { T.fits (T.value c) × T.fits (T.value n) × T.fits (T.value k) }
    requires k_from_zero { pos 0 ≤ℤ T.value k }
    requires k_below { T.value k <ℤ T.value n }
    requires current { T.value c ≡ coefficient_of (T.value n) (T.value k) }
    ensures in_range { T.fits (T.value result.0) × T.fits (T.value result.1) }
    ensures product { T.value result.0 *ℤ T.value result.1
        ≡ coefficient_of (T.value n) (T.value k +ℤ pos 1) }
{
    factors(c, difference(n, k), successor(k))
}

/// Returns the coefficient of `n` and `k + 1`. `c` is that of `n` and `k`. No intermediate value
/// exceeds the result. `reason` is that of a result which does not fit.
pub(crate) fn next_coefficient<T: Integer + Copy>(c: T, n: T, k: T, reason: &'static str) -> T
    requires in_range { T.fits (T.value c) × T.fits (T.value n) × T.fits (T.value k) }
    requires k_from_zero { pos 0 ≤ℤ T.value k }
    requires k_below { T.value k <ℤ T.value n }
    requires current { T.value c ≡ coefficient_of (T.value n) (T.value k) }
    requires next_fits { T.fits (coefficient_of (T.value n) (T.value k +ℤ pos 1)) }
    ensures in_range { T.fits (T.value result) }
    ensures next { T.value result ≡ coefficient_of (T.value n) (T.value k +ℤ pos 1) }
{
    let (x, y) = next_factors(c, n, k);
    product_or(x, y, reason)
}

/// Returns the smaller of `k` and `n - k`.
pub(crate) fn nearer_end<T: Integer + Copy>(n: T, k: T) -> T
    requires in_range { T.fits (T.value n) × T.fits (T.value k) }
    requires k_from_zero { pos 0 ≤ℤ T.value k }
    requires k_within { T.value k ≤ℤ T.value n }
    ensures in_range { T.fits (T.value result) }
    ensures lesser { T.value result
        ≡ pos (min (unsigned_abs (T.value k)) (unsigned_abs (T.value n) - unsigned_abs (T.value k))) }
{
    let rest = difference(n, k);
    if is_below(rest, k) { rest } else { k }
}

/// Returns [`binomial_counted`] of numbers that are not negative. `reason` is that of a coefficient
/// which does not fit.
fn coefficient_counted<T: Integer + Copy>(n: T, k: T, reason: &'static str) -> (T, u32)
    requires n_in_range { T.fits (T.value n) }
    requires k_in_range { T.fits (T.value k) }
    requires n_from_zero { pos 0 ≤ℤ T.value n }
    requires k_from_zero { pos 0 ≤ℤ T.value k }
    requires coefficient_fits { T.fits (coefficient_of (T.value n) (T.value k)) }
    ensures in_range { T.fits (T.value result.0) }
    ensures coefficient { T.value result.0 ≡ coefficient_of (T.value n) (T.value k) }
    ensures iterations { result.1
        ≡ min (unsigned_abs (T.value k)) (unsigned_abs (T.value n) - unsigned_abs (T.value k)) }
    ensures bound { T.value k ≤ℤ T.value n
        → 2 ^ result.1 ≤ coefficient (unsigned_abs (T.value n)) (unsigned_abs (T.value k)) }
{
    if is_below(n, k) {
        return (zero(), 0);
    }
    let last = nearer_end(n, k);
    let mut coefficient = one();
    let mut place = zero();
    let mut iterations = 0;
    while is_below(place, last) {
        coefficient = next_coefficient(coefficient, n, place, reason);
        place = successor(place);
        iterations += 1;
    }
    (coefficient, iterations)
}

/// Returns [`binomial`] and the number of iterations of its loop. `binomial_counted(9, 4)` is `(126, 4)`,
/// and `binomial_counted(200, 199)` is `(200, 1)`.
///
/// # Panics
///
/// In plain Rust, if `n` or `k` is negative, or if the binomial coefficient does not fit.
pub fn binomial_counted<T: Integer + Copy>(n: T, k: T) -> (T, u32)
    requires n_in_range { T.fits (T.value n) }
    requires k_in_range { T.fits (T.value k) }
    requires n_from_zero { pos 0 ≤ℤ T.value n }
    requires k_from_zero { pos 0 ≤ℤ T.value k }
    requires coefficient_fits { T.fits (coefficient_of (T.value n) (T.value k)) }
    ensures in_range { T.fits (T.value result.0) }
    ensures coefficient { T.value result.0 ≡ coefficient_of (T.value n) (T.value k) }
    ensures iterations { result.1
        ≡ min (unsigned_abs (T.value k)) (unsigned_abs (T.value n) - unsigned_abs (T.value k)) }
    ensures bound { T.value k ≤ℤ T.value n
        → 2 ^ result.1 ≤ coefficient (unsigned_abs (T.value n)) (unsigned_abs (T.value k)) }
{
    check(!is_negative(n), "`n` is negative");
    check(!is_negative(k), "`k` is negative");
    coefficient_counted(n, k, "the binomial coefficient does not fit")
}

/// Returns the binomial coefficient of `n` and `k`, the number of ways to choose `k` of `n` things.
/// `binomial(9, 4)` is `126`, and `binomial(2, 3)` is `0`.
///
/// [`Fits::binomial_fits`] tests the precondition, and
/// [`checked::binomial`](crate::checked::binomial) returns `None` if it does not hold.
///
/// This is the largest `n` of which every coefficient fits. For a larger `n`, those near the middle
/// overflow:
///
/// | `u8` | `i8` | `u16` | `i16` | `u32` | `i32` | `u64` | `i64` |
/// |---|---|---|---|---|---|---|---|
/// | 10 | 9 | 18 | 17 | 34 | 33 | 67 | 66 |
///
/// # Panics
///
/// In plain Rust, if `n` or `k` is negative, or if the binomial coefficient does not fit.
pub fn binomial<T: Integer + Copy>(n: T, k: T) -> T
    requires n_in_range { T.fits (T.value n) }
    requires k_in_range { T.fits (T.value k) }
    requires n_from_zero { pos 0 ≤ℤ T.value n }
    requires k_from_zero { pos 0 ≤ℤ T.value k }
    requires coefficient_fits { T.fits (coefficient_of (T.value n) (T.value k)) }
    ensures in_range { T.fits (T.value result) }
    ensures coefficient { T.value result ≡ coefficient_of (T.value n) (T.value k) }
{
    binomial_counted(n, k).0
}

/// Returns the multinomial coefficient of the counts `k`, the number of ways to divide their sum into
/// parts of these sizes. `multinomial(&[2, 1, 2])` is `30`, and `multinomial::<u8>(&[])` is `1`.
///
/// [`Fits::multinomial_fits`] tests the precondition, and
/// [`checked::multinomial`](crate::checked::multinomial) returns `None` if it does not hold.
///
/// # Panics
///
/// In plain Rust, if a count is negative, or if the multinomial coefficient does not fit.
#[tactic(auto, using(crate::proofs::Multinomials::multinomial_first))]
pub fn multinomial<T: Integer + Copy>(k: &[T]) -> T
    requires counts_in_range { All (λ x. T.fits (T.value x)) k.now }
    requires counts_from_zero { All (λ x. pos 0 ≤ℤ T.value x) k.now }
    requires multinomial_fits { EachFits T.fits (IsMultinomial (map T.value k.now)) }
    ensures in_range { T.fits (T.value result) }
    ensures multinomial { IsMultinomial (map T.value k.now) (T.value result) }
{
    check_none_negative(k, "a count is negative");
    let reason = "the multinomial coefficient does not fit";
    let mut multinomial = one();
    let mut total = zero();
    for count in k {
        total = sum_or(total, *count, reason);
        let ways = coefficient_counted(total, *count, reason).0;
        multinomial = product_or(multinomial, ways, reason);
    }
    multinomial
}
