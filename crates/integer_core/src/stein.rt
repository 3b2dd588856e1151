//! The greatest common divisor by Stein's binary method (Knuth, The Art of Computer Programming,
//! volume 2, section 4.5.2, algorithm B).

ghost use Rattle.std.specs.Prelude.{ℕ, ℤ, ◌≡◌, ◌≢◌, ◌↔◌, ◌⊎◌, ◌-◌, ◌*◌, ◌%◌, ◌^◌, ◌<◌, ◌≤◌, ◌≤ℤ◌, ◌+ℤ◌, ◌*ℤ◌, int_div, pos, unsigned_abs, IsTrue};
ghost use Rattle.std.specs.Int.{FitsUnsignedBits, IsGcd, IsPowerOfTwo};
ghost use Rattle.std.specs.Option.{MatchOption};
ghost use Rattle.std.proofs.Common.{lit<, lit≤};
ghost use Rattle.integer_core.specs.Divisors.{GcdFits, IsGreatestCommonDivisor, IsLeastCommonMultiple};
ghost use Rattle.integer_core.specs.GcdRuns.{AreGcdIterations, ArePositive, AreWithinBits, IsCountedGcd, IsOddGcd, IsOddPart, IsOrderedIteration, IsPositiveGcd, MakesGcdRun};
ghost use Rattle.integer_core.specs.NativeRanges.{within_128_bits};
ghost use Rattle.integer_core.specs.Range.{EachFits};
ghost use Rattle.num_traits.specs.Ints.{unsigned-low};

use crate::guards::number_or;
use crate::native::{Magnitudes, Native};
use num_traits::{Bounded, Integral};

/// A type of magnitudes, `u64` or `u128`, with the operations on bits that Stein's method needs.
pub trait Magnitude: Copy + PartialOrd + Integral {
    /// Returns `true` if the number is 0. `7.is_zero()` is `false`.
    fn is_zero(self) -> bool
        ensures { IsTrue result ↔ (Self.value self ≡ pos 0) };

    /// Returns the number plus 1. `41.successor()` is `42`.
    fn successor(self) -> Self
        requires sum_fits { Self.fits (Self.value self +ℤ pos 1) }
        ensures in_range { Self.fits (Self.value result) }
        ensures value { Self.value result ≡ Self.value self +ℤ pos 1 };

    /// Returns the number times the quotient of two others, or `None` if the product does not fit.
    /// `4.times_quotient(6, 2)` is `Some(12)`.
    fn times_quotient(self, dividend: Self, divisor: Self) -> Option<Self>
        requires { Self.value divisor ≢ pos 0 }
        ensures { MatchOption result
            (¬ (Self.fits (Self.value self *ℤ int_div (Self.value dividend) (Self.value divisor))))
            (λ x. Self.fits (Self.value x)
            × (Self.value x ≡ Self.value self *ℤ int_div (Self.value dividend) (Self.value divisor))) };

    /// Returns the number without its factors 2, and how many they are. `12.odd_part()` is `(3, 2)`.
    fn odd_part(self) -> (Self, u32)
        requires in_range { Self.fits (Self.value self) }
        requires positive { 0 < unsigned_abs (Self.value self) }
        ensures in_range { Self.fits (Self.value result.0) }
        ensures odd { unsigned_abs (Self.value result.0) % 2 ≡ 1 }
        ensures product { unsigned_abs (Self.value self) ≡ unsigned_abs (Self.value result.0) * 2 ^ result.1 };

    /// Returns the number times 2 to the power `twos`. `3.times_power_of_two(2)` is `12`.
    fn times_power_of_two(self, twos: u32) -> Self
        requires positive { 0 < unsigned_abs (Self.value self) }
        requires product_fits { Self.fits (pos (unsigned_abs (Self.value self) * 2 ^ twos)) }
        ensures in_range { Self.fits (Self.value result) }
        ensures value { Self.value result ≡ pos (unsigned_abs (Self.value self) * 2 ^ twos) };

    /// Returns the difference of the number and a smaller one, without its factors 2. The factors are
    /// counted in the bits that differ, so that the count does not wait for the subtraction.
    /// `21.odd_difference(9)` is `3`.
    fn odd_difference(self, smaller: Self) -> Self
        requires in_range { Self.fits (Self.value self) × Self.fits (Self.value smaller) }
        requires below { unsigned_abs (Self.value smaller) < unsigned_abs (Self.value self) }
        ensures in_range { Self.fits (Self.value result) }
        ensures odd_part { IsOddPart (unsigned_abs (Self.value self) - unsigned_abs (Self.value smaller))
            (unsigned_abs (Self.value result)) };

    /// Returns the number as a `u64`, or `None` if it does not fit.
    fn to_64_bits(self) -> Option<u64>
        ensures { MatchOption result (2 ^ 64 ≤ unsigned_abs (Self.value self))
            (λ x. x ≡ unsigned_abs (Self.value self)) };

    /// Returns the number as a `u128`.
    fn to_128_bits(self) -> u128
        ensures { result ≡ unsigned_abs (Self.value self) };

    /// Returns a `u64` as a number of this type.
    fn from_64_bits(x: u64) -> Self
        ensures in_range { Self.fits (Self.value result) }
        ensures value { Self.value result ≡ pos x };

    // A magnitude is not negative, 0 is one, and each has at most 128 bits.
    ghost unsigned_law: { (x : Self) → pos 0 ≤ℤ Self.value x };

    ghost zero_fits_law: { Self.fits (pos 0) };

    ghost bits_law: { (z : ℤ) → Self.fits z → unsigned_abs z < 2 ^ 128 };
}

impl Magnitude for u64 {
    ghost unsigned_law = { unsigned-low };

    ghost zero_fits_law = { lit< tt };

    ghost bits_law = { within_128_bits 64 (lit≤ tt) };

    fn is_zero(self) -> bool {
        self == 0
    }

    fn successor(self) -> Self {
        self + 1
    }

    #[inline]
    fn times_quotient(self, dividend: Self, divisor: Self) -> Option<Self> {
        self.checked_mul(dividend / divisor)
    }

    fn odd_part(self) -> (Self, u32) {
        let twos = self.trailing_zeros();
        (self >> twos, twos)
    }

    fn times_power_of_two(self, twos: u32) -> Self {
        self << twos
    }

    fn odd_difference(self, smaller: Self) -> Self {
        (self - smaller) >> (self ^ smaller).trailing_zeros()
    }

    fn to_64_bits(self) -> Option<Self> {
        Some(self)
    }

    fn to_128_bits(self) -> u128 {
        u128::from(self)
    }

    fn from_64_bits(x: Self) -> Self {
        x
    }
}

impl Magnitude for u128 {
    ghost unsigned_law = { unsigned-low };

    ghost zero_fits_law = { lit< tt };

    ghost bits_law = { within_128_bits 128 (lit≤ tt) };

    fn is_zero(self) -> bool {
        self == 0
    }

    fn successor(self) -> Self {
        self + 1
    }

    #[inline]
    fn times_quotient(self, dividend: Self, divisor: Self) -> Option<Self> {
        self.checked_mul(dividend / divisor)
    }

    fn odd_part(self) -> (Self, u32) {
        let twos = self.trailing_zeros();
        (self >> twos, twos)
    }

    fn times_power_of_two(self, twos: u32) -> Self {
        self << twos
    }

    fn odd_difference(self, smaller: Self) -> Self {
        (self - smaller) >> (self ^ smaller).trailing_zeros()
    }

    fn to_64_bits(self) -> Option<u64> {
        u64::try_from(self).ok()
    }

    fn to_128_bits(self) -> Self {
        self
    }

    fn from_64_bits(x: u64) -> Self {
        Self::from(x)
    }
}

/// Returns the odd parts of both numbers, and the number of factors 2 that they share.
fn odd_parts<M: Magnitude>(a: M, b: M) -> (M, M, u32)
    requires operands { ArePositive M.fits (M.value a) (M.value b) }
    ensures in_range { M.fits (M.value result.0) × M.fits (M.value result.1) }
    ensures left { IsOddPart (unsigned_abs (M.value a)) (unsigned_abs (M.value result.0)) }
    ensures right { IsOddPart (unsigned_abs (M.value b)) (unsigned_abs (M.value result.1)) }
    ensures gcd { (odd : ℕ)
        → IsGcd (unsigned_abs (M.value result.0)) (unsigned_abs (M.value result.1)) odd
        → IsGreatestCommonDivisor (M.value a) (M.value b) (pos (odd * 2 ^ result.2))
        × M.fits (pos (odd * 2 ^ result.2)) }
{
    let (m, twos_of_a) = a.odd_part();
    let (n, twos_of_b) = b.odd_part();
    (m, n, twos_of_a.min(twos_of_b))
}

/// Returns the pair after an iteration of the loop. The smaller number comes second, whichever place it
/// had, so both arms are the same computation.
fn next_pair<M: Magnitude>(m: M, n: M) -> (M, M)
    requires in_range { M.fits (M.value m) × M.fits (M.value n) }
    requires goes_on { unsigned_abs (M.value m) ≢ unsigned_abs (M.value n) }
    ensures in_range { M.fits (M.value result.0) × M.fits (M.value result.1) }
    ensures iteration { IsOrderedIteration
        (record { m = unsigned_abs (M.value m); n = unsigned_abs (M.value n) })
        (record { m = unsigned_abs (M.value result.0); n = unsigned_abs (M.value result.1) }) }
{
    if n < m {
        (m.odd_difference(n), n)
    } else {
        (n.odd_difference(m), m)
    }
}

/// Returns the greatest common divisor of two odd numbers, and the number of iterations.
fn odd_gcd(a: u64, b: u64) -> (u64, u32)
    requires a_odd { a % 2 ≡ 1 }
    requires b_odd { b % 2 ≡ 1 }
    ensures { IsOddGcd a b result.0 result.1 }
{
    let (mut m, mut n) = (a, b);
    let mut iterations = 0;
    'iterations: while m != n {
        (m, n) = next_pair(m, n);
        iterations += 1;
    }
    (m, iterations)
}

/// Returns both numbers as `u64`, or `None` if one of them does not fit.
fn both_in_64_bits<M: Magnitude>(m: M, n: M) -> Option<(u64, u64)>
    ensures { MatchOption result
        (2 ^ 64 ≤ unsigned_abs (M.value m) ⊎ 2 ^ 64 ≤ unsigned_abs (M.value n))
        (λ pair. (pair.0 ≡ unsigned_abs (M.value m)) × (pair.1 ≡ unsigned_abs (M.value n))) }
{
    Some((m.to_64_bits()?, n.to_64_bits()?))
}

/// Returns `true` if the numbers differ and one of them has more than 64 bits.
fn differ_beyond_64_bits<M: Magnitude>(m: M, n: M) -> bool
    ensures { IsTrue result ↔ ((unsigned_abs (M.value m) ≢ unsigned_abs (M.value n))
        × (2 ^ 64 ≤ unsigned_abs (M.value m) ⊎ 2 ^ 64 ≤ unsigned_abs (M.value n))) }
{
    m != n && both_in_64_bits(m, n).is_none()
}

/// Returns the greatest common divisor of two odd numbers, and the number of iterations. The loop goes
/// on in `u64` as soon as both numbers fit.
fn narrowing_gcd<M: Magnitude>(a: M, b: M) -> (M, u32)
    requires in_range { M.fits (M.value a) × M.fits (M.value b) }
    requires a_odd { unsigned_abs (M.value a) % 2 ≡ 1 }
    requires b_odd { unsigned_abs (M.value b) % 2 ≡ 1 }
    ensures in_range { M.fits (M.value result.0) }
    ensures odd_gcd { IsOddGcd (unsigned_abs (M.value a)) (unsigned_abs (M.value b))
        (unsigned_abs (M.value result.0)) result.1 }
{
    let (mut m, mut n) = (a, b);
    let mut iterations = 0;
    'iterations: while differ_beyond_64_bits(m, n) {
        (m, n) = next_pair(m, n);
        iterations += 1;
    }
    match both_in_64_bits(m, n) {
        Some((x, y)) => {
            let (gcd, rest) = odd_gcd(x, y);
            (M::from_64_bits(gcd), iterations + rest)
        }
        None => (m, iterations),
    }
}

/// Returns the greatest common divisor of two positive numbers, and the number of iterations.
fn positive_gcd<M: Magnitude>(a: M, b: M) -> (M, u32)
    requires operands { ArePositive M.fits (M.value a) (M.value b) }
    ensures in_range { M.fits (M.value result.0) }
    ensures gcd { IsPositiveGcd (M.value a) (M.value b) (M.value result.0) result.1 }
{
    let (m, n, twos) = odd_parts(a, b);
    let (odd, iterations) = narrowing_gcd(m, n);
    (odd.times_power_of_two(twos), iterations)
}

/// Returns the greatest common divisor of two positive numbers, one of which is a power of two: the
/// power of two that both share.
fn shared_power_of_two<M: Magnitude>(a: M, b: M) -> M
    requires operands { ArePositive M.fits (M.value a) (M.value b) }
    requires power { IsPowerOfTwo (unsigned_abs (M.value a))
        ⊎ IsPowerOfTwo (unsigned_abs (M.value b)) }
    ensures in_range { M.fits (M.value result) }
    ensures greatest { IsGreatestCommonDivisor (M.value a) (M.value b) (M.value result) }
{
    M::from_64_bits(1).times_power_of_two(odd_parts(a, b).2)
}

/// Returns the greatest common divisor and the least common multiple of two magnitudes, `None` if the
/// multiple does not fit. `gcd_lcm_of_magnitudes(0u64, 6)` is `(6, Some(0))`.
pub(crate) fn gcd_lcm_of_magnitudes<M: Magnitude>(m: M, n: M) -> (M, Option<M>)
    requires { M.fits (M.value m) × M.fits (M.value n) }
    ensures in_range { M.fits (M.value result.0) }
    ensures greatest { IsGreatestCommonDivisor (M.value m) (M.value n) (M.value result.0) }
    ensures least { MatchOption result.1
        (¬ (EachFits M.fits (IsLeastCommonMultiple (M.value m) (M.value n))))
        (λ l. M.fits (M.value l) × IsLeastCommonMultiple (M.value m) (M.value n) (M.value l)) }
{
    if m.is_zero() {
        (n, Some(m))
    } else if n.is_zero() {
        (m, Some(n))
    } else {
        let gcd = positive_gcd(m, n).0;
        (gcd, m.times_quotient(n, gcd))
    }
}

/// Returns the least common multiple of two magnitudes, or `None` if it does not fit in 128 bits.
/// `lcm_of_magnitudes(4, 6)` is `Some(12)`.
pub fn lcm_of_magnitudes(m: u128, n: u128) -> Option<u128>
    ensures { MatchOption result
        (¬ (EachFits (FitsUnsignedBits 128) (IsLeastCommonMultiple (pos m) (pos n))))
        (λ l. FitsUnsignedBits 128 (pos l) × IsLeastCommonMultiple (pos m) (pos n) (pos l)) }
{
    gcd_lcm_of_magnitudes(m, n).1
}

/// Returns the greatest common divisor of two magnitudes, and the number of iterations. The loop is not
/// entered if one of them is 0, nor if `has_power` says that one is a power of two.
fn gcd_of_magnitudes<M: Magnitude>(m: M, n: M, has_power: bool) -> (M, u32)
    requires in_range { M.fits (M.value m) × M.fits (M.value n) }
    requires power { IsTrue has_power → M.value m ≢ pos 0 → M.value n ≢ pos 0
        → IsPowerOfTwo (unsigned_abs (M.value m)) ⊎ IsPowerOfTwo (unsigned_abs (M.value n)) }
    ensures in_range { M.fits (M.value result.0) }
    ensures greatest { IsGreatestCommonDivisor (M.value m) (M.value n) (M.value result.0) }
    ensures at_once { IsTrue has_power ⊎ (M.value m ≡ pos 0 ⊎ M.value n ≡ pos 0) → result.1 ≡ 0 }
    ensures by_iterations { ¬ (IsTrue has_power) → M.value m ≢ pos 0 → M.value n ≢ pos 0
        → MakesGcdRun (unsigned_abs (M.value m)) (unsigned_abs (M.value n)) result.1 }
    ensures bound { AreWithinBits (M.value m) (M.value n) result.1 }
{
    if m.is_zero() {
        (n, 0)
    } else if n.is_zero() {
        (m, 0)
    } else if has_power {
        (shared_power_of_two(m, n), 0)
    } else {
        positive_gcd(m, n)
    }
}

/// Returns the greatest common divisor, and the number of iterations of its loop. The magnitude of the
/// smallest number of a type with negatives is a power of two, and that of a type without them is 0.
pub(crate) fn binary_gcd<T: Native>(a: T, b: T) -> (T, u32)
    requires in_range { T.fits (T.value a) × T.fits (T.value b) }
    requires gcd_fits { GcdFits T.fits (T.value a) (T.value b) }
    ensures in_range { T.fits (T.value result.0) }
    ensures gcd { IsCountedGcd T.Bounded.low (T.value a) (T.value b) (T.value result.0) result.1 }
{
    let (gcd, iterations) = gcd_of_magnitudes(a.magnitude(), b.magnitude(), has_smallest(a, b));
    let gcd = number_or(gcd, "the greatest common divisor does not fit");
    (gcd, iterations)
}

/// Returns `true` if one of the numbers is the smallest of its type.
fn has_smallest<T: Copy + PartialEq + Bounded + Integral>(a: T, b: T) -> bool
    ensures { IsTrue result ↔ (T.value a ≡ T.low ⊎ T.value b ≡ T.low) }
{
    a == T::min_value() || b == T::min_value()
}
