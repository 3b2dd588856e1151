//! Integer division for every lawful integer type, after the Rust crate `num-integer`.
#![tactic(auto)]

ghost use Rattle.std.specs.Prelude.{◌≡◌, ◌≢◌, ◌↔◌, ◌+ℤ◌, ◌-ℤ◌, ℤ, pos, IsTrue};
ghost use Rattle.integer_core.specs.Bezout.{HasPair, IsBezoutAnswer};
ghost use Rattle.integer_core.specs.Division.{IsCeiled, IsFloored, IsMultiple, IsQuotient, IsRemainder, IsTruncated};
ghost use Rattle.integer_core.specs.Divisors.{Divides, GcdFits, IsEven, IsGreatestCommonDivisor, IsLeastCommonMultiple};
ghost use Rattle.integer_core.specs.Range.{IsRange, EachFits};

mod bezout;
pub mod counted;
mod division;
mod divisors;
pub mod fitting;
pub mod guards;
pub mod narrowing;
mod native;
mod native_integer;
#[doc(hidden)]
pub mod operators;
pub mod padded;
mod stein;
#[doc(hidden)]
pub mod text;

pub use bezout::ExtendedGcd;
use bezout::extended_gcd_counted;
pub use native::Magnitudes;
pub use native_integer::NativeInteger;
use num_traits::{Num, Signed};
use operators::{difference, is_zero, predecessor, successor, sum};
#[doc(hidden)]
pub use stein::lcm_of_magnitudes;

/// A type of integers, with division, divisors and multiples specified on the integers that its values
/// mean. `12.gcd(&18)` is `6`.
pub trait Integer: Copy + Num + PartialOrd + Ord + Eq {
    // In a contract `value x` is the integer that `x` means, and `fits z` says that the type has the
    // integer `z`. These are the smallest and the largest integer of the type.
    ghost low: { ℤ };

    ghost high: { ℤ };

    /// Returns the quotient rounded toward zero, and its remainder. `(-8).div_rem(&3)` is
    /// `(-2, -2)`.
    ///
    /// [`Fits::quotient_fits`] tests the precondition, and [`checked::div_rem`] returns `None` if
    /// it does not hold.
    ///
    /// # Panics
    ///
    /// In plain Rust, if `other` is 0, or if the quotient does not fit.
    fn div_rem(&self, other: &Self) -> (Self, Self)
        requires self_in_range { Self.fits (Self.value self.now) }
        requires other_in_range { Self.fits (Self.value other.now) }
        requires nonzero { Self.value other.now ≢ pos 0 }
        requires quotient_fits { EachFits Self.fits
            (IsQuotient IsTruncated (Self.value self.now) (Self.value other.now)) }
        ensures in_range { Self.fits (Self.value result.0) × Self.fits (Self.value result.1) }
        ensures truncated { IsTruncated (Self.value self.now) (Self.value other.now)
            (Self.value result.0) (Self.value result.1) };

    /// Returns the quotient rounded down. `(-8).div_floor(&3)` is `-3`.
    ///
    /// [`Fits::quotient_fits`] tests the precondition, and [`checked::div_floor`] returns `None` if
    /// it does not hold.
    ///
    /// # Panics
    ///
    /// In plain Rust, if `other` is 0, or if the quotient does not fit.
    fn div_floor(&self, other: &Self) -> Self
        requires self_in_range { Self.fits (Self.value self.now) }
        requires other_in_range { Self.fits (Self.value other.now) }
        requires nonzero { Self.value other.now ≢ pos 0 }
        requires quotient_fits { EachFits Self.fits
            (IsQuotient IsFloored (Self.value self.now) (Self.value other.now)) }
        ensures in_range { Self.fits (Self.value result) }
        ensures floored { IsQuotient IsFloored (Self.value self.now) (Self.value other.now)
            (Self.value result) };

    /// Returns the remainder of the quotient rounded down, which is 0 or has the sign of `other`.
    /// `(-8).mod_floor(&3)` is `1`.
    ///
    /// [`checked::mod_floor`] returns `None` if the precondition does not hold.
    ///
    /// # Panics
    ///
    /// In plain Rust, if `other` is 0.
    fn mod_floor(&self, other: &Self) -> Self
        requires self_in_range { Self.fits (Self.value self.now) }
        requires other_in_range { Self.fits (Self.value other.now) }
        requires nonzero { Self.value other.now ≢ pos 0 }
        ensures in_range { Self.fits (Self.value result) }
        ensures floored { IsRemainder IsFloored (Self.value self.now) (Self.value other.now)
            (Self.value result) };

    /// Returns the quotient rounded down, and its remainder. `(-8).div_mod_floor(&3)` is `(-3, 1)`.
    ///
    /// [`Fits::quotient_fits`] tests the precondition, and [`checked::div_mod_floor`] returns
    /// `None` if it does not hold.
    ///
    /// # Panics
    ///
    /// In plain Rust, if `other` is 0, or if the quotient does not fit.
    fn div_mod_floor(&self, other: &Self) -> (Self, Self)
        requires self_in_range { Self.fits (Self.value self.now) }
        requires other_in_range { Self.fits (Self.value other.now) }
        requires nonzero { Self.value other.now ≢ pos 0 }
        requires quotient_fits { EachFits Self.fits
            (IsQuotient IsFloored (Self.value self.now) (Self.value other.now)) }
        ensures in_range { Self.fits (Self.value result.0) × Self.fits (Self.value result.1) }
        ensures floored { IsFloored (Self.value self.now) (Self.value other.now)
            (Self.value result.0) (Self.value result.1) }
    {
        (self.div_floor(other), self.mod_floor(other))
    }

    /// Returns the quotient rounded up. `8.div_ceil(&3)` is `3`.
    ///
    /// [`Fits::quotient_fits`] tests the precondition, and [`checked::div_ceil`] returns `None` if
    /// it does not hold.
    ///
    /// # Panics
    ///
    /// In plain Rust, if `other` is 0, or if the quotient does not fit.
    fn div_ceil(&self, other: &Self) -> Self
        requires self_in_range { Self.fits (Self.value self.now) }
        requires other_in_range { Self.fits (Self.value other.now) }
        requires nonzero { Self.value other.now ≢ pos 0 }
        requires quotient_fits { EachFits Self.fits
            (IsQuotient IsCeiled (Self.value self.now) (Self.value other.now)) }
        ensures in_range { Self.fits (Self.value result) }
        ensures ceiled { IsQuotient IsCeiled (Self.value self.now) (Self.value other.now)
            (Self.value result) }
    {
        let (q, r) = self.div_mod_floor(other);
        if is_zero(r) { q } else { successor(q) }
    }

    /// Returns the quotient rounded up, times `other`. `23.next_multiple_of(&8)` is `24`, and
    /// `23.next_multiple_of(&-8)` is `16`.
    ///
    /// [`Fits::next_multiple_fits`] tests the precondition, and [`checked::next_multiple_of`]
    /// returns `None` if it does not hold.
    ///
    /// # Panics
    ///
    /// In plain Rust, if `other` is 0, or if the multiple does not fit.
    fn next_multiple_of(&self, other: &Self) -> Self
        requires self_in_range { Self.fits (Self.value self.now) }
        requires other_in_range { Self.fits (Self.value other.now) }
        requires nonzero { Self.value other.now ≢ pos 0 }
        requires multiple_fits { EachFits Self.fits
            (IsMultiple IsCeiled (Self.value self.now) (Self.value other.now)) }
        ensures in_range { Self.fits (Self.value result) }
        ensures multiple { IsMultiple IsCeiled (Self.value self.now) (Self.value other.now)
            (Self.value result) }
    {
        let m = self.mod_floor(other);
        if is_zero(*&m) {
            *self
        } else {
            sum(*self, difference(*other, m))
        }
    }

    /// Returns the quotient rounded down, times `other`. `23.prev_multiple_of(&8)` is `16`, and
    /// `23.prev_multiple_of(&-8)` is `24`.
    ///
    /// [`Fits::prev_multiple_fits`] tests the precondition, and [`checked::prev_multiple_of`]
    /// returns `None` if it does not hold.
    ///
    /// # Panics
    ///
    /// In plain Rust, if `other` is 0, or if the multiple does not fit.
    #[tactic(auto, using(crate::proofs::Quotients::previous))]
    fn prev_multiple_of(&self, other: &Self) -> Self
        requires self_in_range { Self.fits (Self.value self.now) }
        requires other_in_range { Self.fits (Self.value other.now) }
        requires nonzero { Self.value other.now ≢ pos 0 }
        requires multiple_fits { EachFits Self.fits
            (IsMultiple IsFloored (Self.value self.now) (Self.value other.now)) }
        ensures in_range { Self.fits (Self.value result) }
        ensures multiple { IsMultiple IsFloored (Self.value self.now) (Self.value other.now)
            (Self.value result) }
    {
        difference(*self, self.mod_floor(other))
    }

    /// Returns `true` if `other` divides `self`. `9.is_multiple_of(&3)` is `true`. Only 0
    /// is a multiple of 0.
    fn is_multiple_of(&self, other: &Self) -> bool
        requires self_in_range { Self.fits (Self.value self.now) }
        requires other_in_range { Self.fits (Self.value other.now) }
        ensures { IsTrue result ↔ Divides (Self.value other.now) (Self.value self.now) };

    /// Deprecated: use [`Integer::is_multiple_of`], which returns the same. `9.divides(&3)` is
    /// `true`.
    fn divides(&self, other: &Self) -> bool
        requires self_in_range { Self.fits (Self.value self.now) }
        requires other_in_range { Self.fits (Self.value other.now) }
        ensures { IsTrue result ↔ Divides (Self.value other.now) (Self.value self.now) }
    {
        self.is_multiple_of(other)
    }

    /// Returns `true` if the number is even. `4.is_even()` is `true`.
    fn is_even(&self) -> bool
        requires { Self.fits (Self.value self.now) }
        ensures { IsTrue result ↔ IsEven (Self.value self.now) };

    /// Returns `true` if the number is odd. `3.is_odd()` is `true`.
    fn is_odd(&self) -> bool
        requires { Self.fits (Self.value self.now) }
        ensures { IsTrue result ↔ ¬ (IsEven (Self.value self.now)) };

    /// Adds one.
    ///
    /// [`checked::inc`] returns `None` if the precondition does not hold.
    ///
    /// # Examples
    ///
    /// ```
    /// let mut x = 41;
    /// x.inc();
    /// assert_eq!(x, 42);
    /// ```
    ///
    /// # Panics
    ///
    /// In plain Rust, if the result does not fit.
    fn inc(&mut self)
        requires in_range { Self.fits (Self.value self.old) }
        requires sum_fits { Self.fits (Self.value self.old +ℤ pos 1) }
        ensures in_range { Self.fits (Self.value self.new) }
        ensures one_more { Self.value self.new ≡ Self.value self.old +ℤ pos 1 }
    {
        *self = successor(*self);
    }

    /// Subtracts one.
    ///
    /// [`checked::dec`] returns `None` if the precondition does not hold.
    ///
    /// # Examples
    ///
    /// ```
    /// let mut x = 43;
    /// x.dec();
    /// assert_eq!(x, 42);
    /// ```
    ///
    /// # Panics
    ///
    /// In plain Rust, if the result does not fit.
    fn dec(&mut self)
        requires in_range { Self.fits (Self.value self.old) }
        requires difference_fits { Self.fits (Self.value self.old -ℤ pos 1) }
        ensures in_range { Self.fits (Self.value self.new) }
        ensures one_less { Self.value self.new ≡ Self.value self.old -ℤ pos 1 }
    {
        *self = predecessor(*self);
    }

    /// Returns the greatest common divisor, which is never negative. `56.gcd(&42)` is `14`, and
    /// `0.gcd(&0)` is `0`.
    ///
    /// [`Fits::gcd_fits`] tests the precondition, and [`checked::gcd`] returns `None` if it does
    /// not hold.
    ///
    /// # Panics
    ///
    /// In plain Rust, if the greatest common divisor does not fit.
    fn gcd(&self, other: &Self) -> Self
        requires self_in_range { Self.fits (Self.value self.now) }
        requires other_in_range { Self.fits (Self.value other.now) }
        requires gcd_fits { GcdFits Self.fits (Self.value self.now) (Self.value other.now) }
        ensures in_range { Self.fits (Self.value result) }
        ensures greatest { IsGreatestCommonDivisor (Self.value self.now) (Self.value other.now)
            (Self.value result) };

    /// Returns the least common multiple, which is never negative. `7.lcm(&3)` is `21`, and
    /// `7.lcm(&0)` is `0`.
    ///
    /// [`Fits::lcm_fits`] tests the precondition, and [`checked::lcm`] returns `None` if it does
    /// not hold.
    ///
    /// # Panics
    ///
    /// In plain Rust, if the least common multiple does not fit.
    fn lcm(&self, other: &Self) -> Self
        requires self_in_range { Self.fits (Self.value self.now) }
        requires other_in_range { Self.fits (Self.value other.now) }
        requires lcm_fits { EachFits Self.fits
            (IsLeastCommonMultiple (Self.value self.now) (Self.value other.now)) }
        ensures in_range { Self.fits (Self.value result) }
        ensures least { IsLeastCommonMultiple (Self.value self.now) (Self.value other.now)
            (Self.value result) };

    /// Returns the greatest common divisor and the least common multiple. `10.gcd_lcm(&4)` is
    /// `(2, 20)`.
    ///
    /// [`Fits::gcd_fits`] and [`Fits::lcm_fits`] test the precondition, and [`checked::gcd_lcm`]
    /// returns `None` if it does not hold.
    ///
    /// # Panics
    ///
    /// In plain Rust, if the greatest common divisor or the least common multiple does not fit.
    fn gcd_lcm(&self, other: &Self) -> (Self, Self)
        requires self_in_range { Self.fits (Self.value self.now) }
        requires other_in_range { Self.fits (Self.value other.now) }
        requires gcd_fits { GcdFits Self.fits (Self.value self.now) (Self.value other.now) }
        requires lcm_fits { EachFits Self.fits
            (IsLeastCommonMultiple (Self.value self.now) (Self.value other.now)) }
        ensures in_range { Self.fits (Self.value result.0) × Self.fits (Self.value result.1) }
        ensures greatest { IsGreatestCommonDivisor (Self.value self.now) (Self.value other.now)
            (Self.value result.0) }
        ensures least { IsLeastCommonMultiple (Self.value self.now) (Self.value other.now)
            (Self.value result.1) }
    {
        (self.gcd(other), self.lcm(other))
    }

    /// Returns the greatest common divisor `gcd` and Bezout's coefficients `x` and `y`:
    /// computed without overflow, `self * x + other * y` equals `gcd`. `240.extended_gcd(&46)`
    /// is `ExtendedGcd { gcd: 2, x: -9, y: 47 }`, and `5.extended_gcd(&0)` is
    /// `ExtendedGcd { gcd: 5, x: 1, y: 0 }`.
    ///
    /// At a signed type [`Fits::gcd_fits`] tests the precondition; [`checked::extended_gcd`]
    /// returns `None` if it does not hold.
    ///
    /// # Panics
    ///
    /// In plain Rust, if the greatest common divisor does not fit, or if the type is unsigned and
    /// neither number divides the other.
    final fn extended_gcd(&self, other: &Self) -> ExtendedGcd<Self>
        requires self_in_range { Self.fits (Self.value self.now) }
        requires other_in_range { Self.fits (Self.value other.now) }
        requires gcd_fits { GcdFits Self.fits (Self.value self.now) (Self.value other.now) }
        requires has_pair { HasPair Self.fits (Self.value self.now) (Self.value other.now) }
        ensures in_range { Self.fits (Self.value result.gcd) × Self.fits (Self.value result.x)
            × Self.fits (Self.value result.y) }
        ensures answer { IsBezoutAnswer (Self.value self.now) (Self.value other.now)
            (Self.value result.gcd) (Self.value result.x) (Self.value result.y) }
    {
        extended_gcd_counted(*self, *other).0
    }

    /// Returns [`Integer::extended_gcd`] and [`Integer::lcm`]. `10.extended_gcd_lcm(&4)` is
    /// `(ExtendedGcd { gcd: 2, x: 1, y: -2 }, 20)`.
    ///
    /// [`Fits::gcd_fits`] and [`Fits::lcm_fits`] test the precondition, and
    /// [`checked::extended_gcd_lcm`] returns `None` if it does not hold.
    ///
    /// # Panics
    ///
    /// In plain Rust, if the greatest common divisor or the least common multiple does not fit.
    final fn extended_gcd_lcm(&self, other: &Self) -> (ExtendedGcd<Self>, Self)
    where
        Self: Signed,
        requires self_in_range { Self.fits (Self.value self.now) }
        requires other_in_range { Self.fits (Self.value other.now) }
        requires gcd_fits { GcdFits Self.fits (Self.value self.now) (Self.value other.now) }
        requires has_pair { HasPair Self.fits (Self.value self.now) (Self.value other.now) }
        requires lcm_fits { EachFits Self.fits
            (IsLeastCommonMultiple (Self.value self.now) (Self.value other.now)) }
        ensures in_range { Self.fits (Self.value result.0.gcd) × Self.fits (Self.value result.0.x)
            × Self.fits (Self.value result.0.y) × Self.fits (Self.value result.1) }
        ensures answer { IsBezoutAnswer (Self.value self.now) (Self.value other.now)
            (Self.value result.0.gcd) (Self.value result.0.x) (Self.value result.0.y) }
        ensures least { IsLeastCommonMultiple (Self.value self.now) (Self.value other.now)
            (Self.value result.1) }
    {
        (self.extended_gcd(other), self.lcm(other))
    }

    // Each operator is exact if its result fits.
    ghost exact_law: { Self.exact };

    // The integers of the type are those from `low` to `high`.
    ghost range_law: { IsRange Self.fits low high };
}

/// Returns the quotient rounded toward zero, and its remainder. `div_rem(-8, 3)` is `(-2, -2)`.
///
/// [`checked::div_rem`] returns `None` if the precondition does not hold.
///
/// # Panics
///
/// In plain Rust, if `y` is 0, or if the quotient does not fit.
pub fn div_rem<T: Integer>(x: T, y: T) -> (T, T)
    requires x_in_range { T.fits (T.value x) }
    requires y_in_range { T.fits (T.value y) }
    requires nonzero { T.value y ≢ pos 0 }
    requires quotient_fits { EachFits T.fits (IsQuotient IsTruncated (T.value x) (T.value y)) }
    ensures in_range { T.fits (T.value result.0) × T.fits (T.value result.1) }
    ensures truncated { IsTruncated (T.value x) (T.value y) (T.value result.0) (T.value result.1) }
{
    x.div_rem(&y)
}

/// Returns the quotient rounded down. `div_floor(-8, 3)` is `-3`.
///
/// [`checked::div_floor`] returns `None` if the precondition does not hold.
///
/// # Panics
///
/// In plain Rust, if `y` is 0, or if the quotient does not fit.
pub fn div_floor<T: Integer>(x: T, y: T) -> T
    requires x_in_range { T.fits (T.value x) }
    requires y_in_range { T.fits (T.value y) }
    requires nonzero { T.value y ≢ pos 0 }
    requires quotient_fits { EachFits T.fits (IsQuotient IsFloored (T.value x) (T.value y)) }
    ensures in_range { T.fits (T.value result) }
    ensures floored { IsQuotient IsFloored (T.value x) (T.value y) (T.value result) }
{
    x.div_floor(&y)
}

/// Returns the remainder of the quotient rounded down. `mod_floor(-8, 3)` is `1`.
///
/// [`checked::mod_floor`] returns `None` if the precondition does not hold.
///
/// # Panics
///
/// In plain Rust, if `y` is 0.
pub fn mod_floor<T: Integer>(x: T, y: T) -> T
    requires x_in_range { T.fits (T.value x) }
    requires y_in_range { T.fits (T.value y) }
    requires nonzero { T.value y ≢ pos 0 }
    ensures in_range { T.fits (T.value result) }
    ensures floored { IsRemainder IsFloored (T.value x) (T.value y) (T.value result) }
{
    x.mod_floor(&y)
}

/// Returns the quotient rounded down, and its remainder. `div_mod_floor(-8, 3)` is `(-3, 1)`.
///
/// [`checked::div_mod_floor`] returns `None` if the precondition does not hold.
///
/// # Panics
///
/// In plain Rust, if `y` is 0, or if the quotient does not fit.
pub fn div_mod_floor<T: Integer>(x: T, y: T) -> (T, T)
    requires x_in_range { T.fits (T.value x) }
    requires y_in_range { T.fits (T.value y) }
    requires nonzero { T.value y ≢ pos 0 }
    requires quotient_fits { EachFits T.fits (IsQuotient IsFloored (T.value x) (T.value y)) }
    ensures in_range { T.fits (T.value result.0) × T.fits (T.value result.1) }
    ensures floored { IsFloored (T.value x) (T.value y) (T.value result.0) (T.value result.1) }
{
    x.div_mod_floor(&y)
}

/// Returns the quotient rounded up. `div_ceil(8, 3)` is `3`.
///
/// [`checked::div_ceil`] returns `None` if the precondition does not hold.
///
/// # Panics
///
/// In plain Rust, if `y` is 0, or if the quotient does not fit.
pub fn div_ceil<T: Integer>(x: T, y: T) -> T
    requires x_in_range { T.fits (T.value x) }
    requires y_in_range { T.fits (T.value y) }
    requires nonzero { T.value y ≢ pos 0 }
    requires quotient_fits { EachFits T.fits (IsQuotient IsCeiled (T.value x) (T.value y)) }
    ensures in_range { T.fits (T.value result) }
    ensures ceiled { IsQuotient IsCeiled (T.value x) (T.value y) (T.value result) }
{
    x.div_ceil(&y)
}

/// Returns the greatest common divisor. `gcd(56, 42)` is `14`.
///
/// [`checked::gcd`] returns `None` if the precondition does not hold.
///
/// # Panics
///
/// In plain Rust, if the greatest common divisor does not fit.
pub fn gcd<T: Integer>(x: T, y: T) -> T
    requires x_in_range { T.fits (T.value x) }
    requires y_in_range { T.fits (T.value y) }
    requires gcd_fits { GcdFits T.fits (T.value x) (T.value y) }
    ensures in_range { T.fits (T.value result) }
    ensures greatest { IsGreatestCommonDivisor (T.value x) (T.value y) (T.value result) }
{
    x.gcd(&y)
}

/// Returns the least common multiple. `lcm(7, 3)` is `21`.
///
/// [`checked::lcm`] returns `None` if the precondition does not hold.
///
/// # Panics
///
/// In plain Rust, if the least common multiple does not fit.
pub fn lcm<T: Integer>(x: T, y: T) -> T
    requires x_in_range { T.fits (T.value x) }
    requires y_in_range { T.fits (T.value y) }
    requires lcm_fits { EachFits T.fits (IsLeastCommonMultiple (T.value x) (T.value y)) }
    ensures in_range { T.fits (T.value result) }
    ensures least { IsLeastCommonMultiple (T.value x) (T.value y) (T.value result) }
{
    x.lcm(&y)
}

/// Returns the greatest common divisor and the least common multiple. `gcd_lcm(10, 4)` is
/// `(2, 20)`.
///
/// [`checked::gcd_lcm`] returns `None` if the precondition does not hold.
///
/// # Panics
///
/// In plain Rust, if the greatest common divisor or the least common multiple does not fit.
pub fn gcd_lcm<T: Integer>(x: T, y: T) -> (T, T)
    requires x_in_range { T.fits (T.value x) }
    requires y_in_range { T.fits (T.value y) }
    requires gcd_fits { GcdFits T.fits (T.value x) (T.value y) }
    requires lcm_fits { EachFits T.fits (IsLeastCommonMultiple (T.value x) (T.value y)) }
    ensures in_range { T.fits (T.value result.0) × T.fits (T.value result.1) }
    ensures greatest { IsGreatestCommonDivisor (T.value x) (T.value y) (T.value result.0) }
    ensures least { IsLeastCommonMultiple (T.value x) (T.value y) (T.value result.1) }
{
    x.gcd_lcm(&y)
}
