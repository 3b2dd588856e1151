//! The greatest common divisor, the least common multiple and the sums of a list, or `None` if it does not fit.

ghost use Rattle.std.specs.Prelude.{◌≡◌, ◌≢◌, ◌<◌, ◌≤ℤ◌, ◌*ℤ◌, ℕ, pos, unsigned_abs, length, map, IsFalse, IsTrue};
ghost use Rattle.std.specs.List.{All, HoldsAt};
ghost use Rattle.num_integer.specs.Checked.{AnswersWhere, FitsWith};
ghost use Rattle.num_integer.specs.Divisors.{IsGreatestCommonDivisor, IsLeastCommonMultiple};
ghost use Rattle.num_integer.specs.Range.{EachFits};
ghost use Rattle.applied.specs.Lists.{GcdOfFits, IsGreatestCommonDivisorOf, IsLeastCommonMultipleOf};
ghost use Rattle.applied.specs.Shares.{signed_sum};

use super::total::Total;
use crate::coprime::signed_gcd;
use num_integer::operators::{is_negative, is_one, is_zero, one, zero};
use num_integer::sign_magnitude::{number_of, parts_of, parts_of_product};
use num_integer::{Fits, NativeInteger, checked};

/// Returns [`gcd_of`](crate::lists::gcd_of), the greatest common divisor of the numbers, or `None` if it does
/// not fit, as 128 in an `i8`. `gcd_of(&[12, 18, 8])` is `Some(2)`, `gcd_of(&[i8::MIN, 2])` is `Some(2)`, and
/// `gcd_of(&[i8::MIN, 0])` is `None`.
pub fn gcd_of<T: Fits>(numbers: &[T]) -> Option<T>
    requires in_range { All (λ x. T.fits (T.value x)) numbers.now }
    ensures { AnswersWhere
        (GcdOfFits T.fits (map T.value numbers.now))
        (λ g. T.fits (T.value g) × IsGreatestCommonDivisorOf (map T.value numbers.now) (T.value g))
        result }
{
    let divisor = signed_gcd_of(numbers);
    if is_negative(divisor) {
        checked::negated(divisor)
    } else {
        Some(divisor)
    }
}

/// Returns a number whose magnitude is the greatest common divisor. The gcd of a prefix may not fit even if the
/// gcd of the list does, so the loop keeps it up to its sign. It ends if the divisor is 1.
#[tactic(auto, using(crate::proofs::ListDivisors::gcd_of_none))]
fn signed_gcd_of<T: Fits>(numbers: &[T]) -> T
    requires { All (λ x. T.fits (T.value x)) numbers.now }
    ensures in_range { T.fits (T.value result) }
    ensures magnitude { IsGreatestCommonDivisorOf (map T.value numbers.now)
        (pos (unsigned_abs (T.value result))) }
{
    let mut divisor = zero();
    for number in numbers {
        divisor = divisor_of_both(divisor, *number);
        if is_one(divisor) {
            return divisor;
        }
    }
    divisor
}

/// Returns a number whose magnitude is the greatest common divisor of the divisor so far and of a number. Most numbers of
/// a list are multiples of the divisor so far, which one division shows.
#[tactic(auto, using(crate::proofs::ListDivisors::gcd_of_multiple))]
fn divisor_of_both<T: Fits>(divisor: T, number: T) -> T
    requires in_range { T.fits (T.value divisor) × T.fits (T.value number) }
    ensures in_range { T.fits (T.value result) }
    ensures magnitude { IsGreatestCommonDivisor (T.value divisor) (T.value number)
        (pos (unsigned_abs (T.value result))) }
{
    if number.is_multiple_of(&divisor) {
        divisor
    } else {
        signed_gcd(divisor, number)
    }
}

/// Returns [`lcm_of`](crate::lists::lcm_of), the least common multiple of the numbers, or `None` if it does not
/// fit. `lcm_of(&[4, 6, 10])` is `Some(60)`, `lcm_of(&[16u8, 17])` is `None`, and `lcm_of(&[16u8, 17, 0])` is
/// `Some(0)`.
#[tactic(auto, using(crate::proofs::ListDivisors::lcm_of_none))]
pub fn lcm_of<T: Fits>(numbers: &[T]) -> Option<T>
    requires in_range { All (λ x. T.fits (T.value x)) numbers.now }
    ensures { AnswersWhere
        (EachFits T.fits (IsLeastCommonMultipleOf (map T.value numbers.now)))
        (λ l. T.fits (T.value l) × IsLeastCommonMultipleOf (map T.value numbers.now) (T.value l))
        result }
{
    if has_zero(numbers) {
        return Some(zero());
    }
    // Each multiple on the way divides the last one, which is not 0. So it fits if the last one does.
    let mut multiple = one();
    for number in numbers {
        multiple = multiple_of_both(multiple, *number)?;
    }
    Some(multiple)
}

/// Returns the least common multiple of the multiple so far and of a number. Many numbers of a list divide the
/// multiple so far, which one division shows.
fn multiple_of_both<T: Fits>(multiple: T, number: T) -> Option<T>
    requires in_range { T.fits (T.value multiple) × T.fits (T.value number) }
    requires from_zero { pos 0 ≤ℤ T.value multiple }
    ensures { AnswersWhere
        (EachFits T.fits (IsLeastCommonMultiple (T.value multiple) (T.value number)))
        (λ l. T.fits (T.value l)
        × IsLeastCommonMultiple (T.value multiple) (T.value number) (T.value l))
        result }
{
    if multiple.is_multiple_of(&number) {
        Some(multiple)
    } else {
        checked::lcm(multiple, number)
    }
}

/// Returns `true` if one of the numbers is 0.
fn has_zero<T: Fits>(numbers: &[T]) -> bool
    ensures zero { IsTrue result
        → (k : ℕ) × (k < length numbers.now) × HoldsAt (λ x. T.value x ≡ pos 0) numbers.now k }
    ensures none { IsFalse result → All (λ x. T.value x ≢ pos 0) numbers.now }
{
    for number in numbers {
        if is_zero(*number) {
            return true;
        }
    }
    false
}

/// Returns the sum of the numbers of a built-in type of at most 64 bits, or `None` if it does not fit. The sum of the first numbers need
/// not fit. `sum_of(&[100i8, 100, -100])` is `Some(100)`, `sum_of(&[100i8, 100])` is `None`, and `sum_of::<i64>(&[])` is `Some(0)`.
pub fn sum_of<T: NativeInteger<Magnitude = u64>>(numbers: &[T]) -> Option<T>
    requires in_range { All (λ x. T.fits (T.value x)) numbers.now }
    ensures { AnswersWhere
        (T.fits (signed_sum (map T.value numbers.now)))
        (FitsWith T.fits T.value (λ s. s ≡ signed_sum (map T.value numbers.now)))
        result }
{
    let mut total = Total::zero();
    for number in numbers {
        let (negative, magnitude) = parts_of(*number);
        total = total.plus((negative, u128::from(magnitude)));
    }
    number_of(total.parts()?)
}

/// Returns the sum of the products of the pairs, numbers of a built-in type of at most 64 bits, or `None` if it does not fit. The products
/// and the sum of the first of them need not fit. `dot_product(&[(2, 1999), (1, 501)])` is `Some(4499)`, and
/// `dot_product(&[(100i8, 100), (-100, 99)])` is `Some(100)`.
#[tactic(auto, using(crate::proofs::SignedSums::total_more))]
pub fn dot_product<T: NativeInteger<Magnitude = u64>>(pairs: &[(T, T)]) -> Option<T>
    requires in_range { All (λ p. T.fits (T.value p.0) × T.fits (T.value p.1)) pairs.now }
    ensures { AnswersWhere
        (T.fits (signed_sum (map (λ p. T.value p.0 *ℤ T.value p.1) pairs.now)))
        (FitsWith T.fits T.value (λ s. s ≡ signed_sum (map (λ p. T.value p.0 *ℤ T.value p.1) pairs.now)))
        result }
{
    let mut total = Total::zero();
    for (a, b) in pairs {
        total = total.plus(parts_of_product(*a, *b));
    }
    number_of(total.parts()?)
}
