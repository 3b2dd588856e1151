//! Functions that call `applied` for nearest quotients, roots with their remainder, powers, logarithms, midpoints, the
//! places of sorted items, and factorials.

ghost use Rattle.std.specs.Prelude.{◌≡◌, ◌≢◌, ◌↔◌, ◌<◌, ◌≤◌, ◌+◌, ◌*◌, ◌^◌, ◌≤ℤ◌, ◌<ℤ◌, ◌+ℤ◌, ◌-ℤ◌, ◌*ℤ◌, FitsSigned, IsTrue, MatchOption, length, pos, ℕ, ℤ};
ghost use Rattle.std.specs.Int.{int_pow, w64};
ghost use Rattle.std.specs.List.{AllWithin};
ghost use Rattle.std.specs.List.Sorted.{IsSortedByKey};
ghost use Rattle.std.specs.Ordering.{int_cmp};
ghost use Rattle.num_integer.specs.Coefficient.{factorial};
ghost use Rattle.num_integer.specs.Division.{IsFloored, IsQuotient};
ghost use Rattle.num_integer.specs.Range.{EachFits};
ghost use Rattle.applied.specs.Counting.{falling};
ghost use Rattle.applied.specs.Powers.{IsLogarithm};
ghost use Rattle.applied.specs.Rounding.{IsNearest, IsNearestEven};

use applied::counting::{self, falling};
use applied::halving::{lower_bound, midpoint};
use applied::powers::{self, ilog, is_perfect_power, is_power, is_square, sqrt_rem};
use applied::rounding::{self, div_round, div_round_even};
use num_integer::Fits;

// ---- nearest quotients

/// Returns the price of one piece in whole cents. `cents` is the price of all pieces.
pub fn price_of_piece(cents: i64, pieces: i64) -> i64
    requires { pos 0 <ℤ pieces }
    ensures { IsQuotient IsNearest cents pieces result }
{
    div_round(cents, pieces)
}

/// Rounds an amount in thousandths to hundredths.
pub fn rounded_to_hundredths(thousandths: i64) -> i64
    ensures { IsQuotient IsNearest thousandths (pos 10) result }
{
    div_round(thousandths, 10)
}

/// Returns the mean of values with this sum, rounded to the nearest integer. A half is rounded to the even integer,
/// so about as many halves are rounded up as down.
pub fn mean(total: i64, count: i64) -> i64
    requires { pos 0 <ℤ count }
    ensures { IsQuotient IsNearestEven total count result }
{
    div_round_even(total, count)
}

/// Returns the mean of natural numbers, rounded in the same way.
pub fn natural_mean(total: u64, count: u64) -> u64
    requires { count ≢ 0 }
    ensures { IsQuotient IsNearestEven (pos total) (pos count) (pos result) }
{
    div_round_even(total, count)
}

/// Returns the nearest quotient, or `None`, but not if the divisor is positive. An `if` tests the
/// precondition.
pub fn nearest_or_none(total: i64, count: i64) -> Option<i64>
    ensures { MatchOption result
        (count ≤ℤ pos 0) (λ q. IsQuotient IsNearest total count q) }
{
    if total.quotient_fits(&count) {
        Some(div_round(total, count))
    } else {
        None
    }
}

/// Returns the nearest quotient, or `None` if the divisor is 0 or the quotient does not fit. The
/// call tests the precondition.
pub fn nearest_checked(total: i64, count: i64) -> Option<i64>
    ensures { MatchOption result
        (¬ ((count ≢ pos 0) × EachFits (FitsSigned w64) (IsQuotient IsNearest total count)))
        (λ q. (count ≢ pos 0) × IsQuotient IsNearest total count q) }
{
    let Some(quotient) = rounding::checked::div_round(total, count) else {
        return None;
    };
    Some(quotient)
}

// ---- nearest quotients of products

/// `tax_of(1999, 19)` is `Some(380)`. Returns the tax of so many percent on an amount. A half is rounded away from zero. The product need
/// not fit.
pub fn tax_of(amount: i64, percent: i64) -> Option<i64>
    ensures { MatchOption result
        (¬ EachFits (FitsSigned w64) (IsQuotient IsNearest (amount *ℤ percent) (pos 100)))
        (λ tax. IsQuotient IsNearest (amount *ℤ percent) (pos 100) tax) }
{
    match rounding::checked::product_div_round(amount, percent, 100) {
        Some(tax) => Some(tax),
        None => None,
    }
}

/// `net_of_gross(11900, 119)` is `Some(10000)`. Returns the amount that is the gross amount with a tax. `percent` is what the gross amount
/// is of it, such as 119 with a tax of 19 percent. A half is rounded to the even number.
pub fn net_of_gross(gross: i64, percent: i64) -> Option<i64>
    ensures { MatchOption result
        (¬ ((percent ≢ pos 0) × EachFits (FitsSigned w64) (IsQuotient IsNearestEven (gross *ℤ pos 100) percent)))
        (λ net. IsQuotient IsNearestEven (gross *ℤ pos 100) percent net) }
{
    match rounding::checked::product_div_round_even(gross, 100, percent) {
        Some(net) => Some(net),
        None => None,
    }
}

/// Returns the part of an amount, rounded to the nearest integer. It always fits.
pub fn nearest_part_of(amount: u64, part: u64, whole: u64) -> u64
    requires within { part ≤ whole }
    requires positive { 0 < whole }
    ensures { IsQuotient IsNearest (pos (amount * part)) (pos whole) (pos result) }
{
    rounding::checked::product_div_round(amount, part, whole).unwrap()
}

// ---- roots and logarithms

/// Returns the side of the largest square of tiles, and the number of tiles that are left.
pub fn square_of_tiles(tiles: u64) -> (u64, u64)
    ensures all { result.0 * result.0 + result.1 ≡ tiles }
    ensures largest { result.1 ≤ 2 * result.0 }
{
    sqrt_rem(tiles)
}

/// Returns the number of decimal digits of a positive number.
pub fn digits(number: u64) -> u32
    requires { 0 < number }
    ensures { (k : ℕ) × IsLogarithm (pos 10) (pos number) k × (result ≡ k + 1) }
{
    ilog(number, 10) + 1
}

/// Returns the number of levels of a binary tree with this many nodes, or 0 if there is no node.
pub fn levels(nodes: u64) -> u32
    ensures levels { 0 < nodes → ((k : ℕ) × IsLogarithm (pos 2) (pos nodes) k × (result ≡ k + 1)) }
    ensures none { nodes ≡ 0 → result ≡ 0 }
{
    match powers::checked::ilog(nodes, 2) {
        Some(degree) => degree + 1,
        None => 0,
    }
}

/// Returns `true` if the number is the square of an integer.
pub fn is_square_number(n: u64) -> bool
    ensures { IsTrue result ↔ ((k : ℤ) × (k *ℤ k ≡ pos n)) }
{
    is_square(n)
}

/// Returns `true` if the number is the cube of an integer, which may be negative.
pub fn is_cube(n: i64) -> bool
    ensures { IsTrue result ↔ ((k : ℤ) × (int_pow k 3 ≡ n)) }
{
    is_power(n, 3)
}

/// Returns `true` if the number is a square, a cube or a higher power of an integer.
pub fn is_higher_power(n: u64) -> bool
    ensures { IsTrue result
        ↔ ((k : ℤ) × ((degree : ℕ) × (2 ≤ degree) × (int_pow k degree ≡ pos n))) }
{
    is_perfect_power(n)
}

// ---- halves

/// Returns the number in the middle between two numbers, rounded down.
pub fn middle(a: i64, b: i64) -> i64
    ensures no_farther { (result -ℤ a) ≤ℤ (b -ℤ result) }
    ensures one_nearer_at_most { (b -ℤ result) ≤ℤ (result -ℤ a +ℤ pos 1) }
{
    midpoint(a, b)
}

/// Returns the number of the sorted times that are before `now`.
pub fn times_before(times: &[u64], now: u64) -> usize
    requires { IsSortedByKey (λ time. pos time) int_cmp times.now }
    ensures within { result ≤ length times.now }
    ensures before { AllWithin (λ time. time < now) times.now 0 result }
    ensures from { AllWithin (λ time. now ≤ time) times.now result (length times.now) }
{
    lower_bound(times, now)
}

// ---- permutations

/// Returns the number of ways in which three of eight runners can win the medals.
#[tactic(auto, unfolding(applied::specs::Counting::falling))]
pub fn podiums_of_eight() -> u64
    ensures { result ≡ 336 }
{
    falling(8, 3)
}

/// Returns the number of orders of the books on a shelf, or `None` if it does not fit in a `u64`.
pub fn orders_of_books(books: u64) -> Option<u64>
    ensures { MatchOption result (2 ^ 64 ≤ factorial books) (λ ways. ways ≡ factorial books) }
{
    counting::checked::factorial(books)
}
