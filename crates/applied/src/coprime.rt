//! Coprime numbers, and pairs divided by their greatest common divisor.

ghost use Rattle.std.specs.Prelude.{◌≡◌, ◌≢◌, ◌↔◌, ◌*ℤ◌, pos, negsuc, unsigned_abs, IsTrue};
ghost use Rattle.num_integer.specs.Divisors.{Divides, IsGreatestCommonDivisor};
ghost use Rattle.applied.specs.ReducedPairs.{IsReducedPair};

use num_integer::Fits;
use num_integer::operators::{is_negative, is_one, is_zero, negated, quotient};

/// Returns `true` if the greatest common divisor of the numbers is 1. `is_coprime(8, 15)` is `true`,
/// `is_coprime(8, 6)` is `false`, and `is_coprime(i8::MIN, 0)` is `false`.
pub fn is_coprime<T: Fits>(a: T, b: T) -> bool
    requires in_range { T.fits (T.value a) × T.fits (T.value b) }
    ensures { IsTrue result ↔ IsGreatestCommonDivisor (T.value a) (T.value b) (pos 1) }
{
    is_one(signed_gcd(a, b))
}

/// Returns both numbers divided by their greatest common divisor, with their signs. `reduced(1920, 1080)` is
/// `(16, 9)`, `reduced(-6, 4)` is `(-3, 2)`, `reduced(0, -5)` is `(0, -1)`, and `reduced(0, 0)` is `(0, 0)`.
pub fn reduced<T: Fits>(a: T, b: T) -> (T, T)
    requires in_range { T.fits (T.value a) × T.fits (T.value b) }
    ensures in_range { T.fits (T.value result.0) × T.fits (T.value result.1) }
    ensures reduced { IsReducedPair (T.value a) (T.value b) (T.value result.0) (T.value result.1) }
{
    let divisor = signed_gcd(a, b);
    if is_zero(divisor) {
        (a, b)
    } else {
        (
            divided_by_magnitude(a, divisor),
            divided_by_magnitude(b, divisor),
        )
    }
}

/// `signed_gcd(i8::MIN, 0)` is `i8::MIN`. Returns the greatest common divisor, or `MIN` if it does not fit. The
/// magnitude of `MIN` is then the divisor.
pub(crate) fn signed_gcd<T: Fits>(a: T, b: T) -> T
    requires in_range { T.fits (T.value a) × T.fits (T.value b) }
    ensures in_range { T.fits (T.value result) }
    ensures magnitude { IsGreatestCommonDivisor (T.value a) (T.value b)
        (pos (unsigned_abs (T.value result))) }
    ensures not_minus_one { T.value result ≢ negsuc 0 }
{
    if a.gcd_fits(&b) {
        a.gcd(&b)
    } else if is_zero(a) {
        b
    } else {
        a
    }
}

/// Returns `n` divided by the magnitude of `d`, which divides it.
fn divided_by_magnitude<T: Fits>(n: T, d: T) -> T
    requires in_range { T.fits (T.value n) × T.fits (T.value d) }
    requires nonzero { T.value d ≢ pos 0 }
    requires not_minus_one { T.value d ≢ negsuc 0 }
    requires divides { Divides (pos (unsigned_abs (T.value d))) (T.value n) }
    ensures in_range { T.fits (T.value result) }
    ensures product { T.value n ≡ pos (unsigned_abs (T.value d)) *ℤ T.value result }
{
    let signed_quotient = quotient(n, d);
    if is_negative(d) {
        negated(signed_quotient)
    } else {
        signed_quotient
    }
}
