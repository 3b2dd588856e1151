//! Products and powers modulo a positive number. No product has to fit the type.

ghost use Rattle.std.specs.Prelude.{◌≡◌, ◌≢◌, ◌+◌, ◌^◌, ◌<◌, ◌≤◌, ◌<ℤ◌, ◌*ℤ◌, pos};
ghost use Rattle.std.specs.Int.{int_pow};
ghost use Rattle.modular.specs.Congruences.{IsResidue};
ghost use Rattle.modular.specs.Below.{LiesBelow};

use crate::exponentiation::{Residues, power_counted};
use crate::residues::{residue, sum_of_residues};
use num_integer::Integer;
use num_integer::guards::check;
use num_integer::operators::{is_below, is_zero, one, successor, zero};

/// Products and powers modulo a positive number. The native types have it. Your own type gets it by
/// `impl Modular for Mine {}`: the default product doubles and adds, and the default power squares and multiplies.
/// `4.product_modulo(&5, &7)` is `6`.
pub trait Modular: Integer + Copy {
    /// Returns `self * other` modulo `modulus`. The product need not fit the type.
    /// `4.product_modulo(&5, &7)` is `6`.
    ///
    /// # Panics
    ///
    /// In plain Rust, if the modulus is not positive.
    fn product_modulo(&self, other: &Self, modulus: &Self) -> Self
        requires in_range { Self.fits (Self.value self.now) × Self.fits (Self.value other.now)
            × Self.fits (Self.value modulus.now) }
        requires positive { pos 0 <ℤ Self.value modulus.now }
        ensures in_range { Self.fits (Self.value result) }
        ensures residue { IsResidue (Self.value modulus.now)
            (Self.value self.now *ℤ Self.value other.now) (Self.value result) }
    {
        product_by_doubling(
            residue(*self, *modulus),
            residue(*other, *modulus),
            *modulus,
        )
    }

    /// Returns `self` to the power `exponent` modulo `modulus`, and the number of iterations of its loop. If the exponent is
    /// positive, the iterations are its binary logarithm, rounded down.
    /// `3.power_modulo_counted(4, &7)` is `(4, 2)`, and `3.power_modulo_counted(0, &7)` is `(1, 0)`.
    ///
    /// # Panics
    ///
    /// In plain Rust, if the modulus is not positive.
    fn power_modulo_counted(&self, exponent: u128, modulus: &Self) -> (Self, u32)
        requires in_range { Self.fits (Self.value self.now) × Self.fits (Self.value modulus.now) }
        requires positive { pos 0 <ℤ Self.value modulus.now }
        ensures in_range { Self.fits (Self.value result.0) }
        ensures residue { IsResidue (Self.value modulus.now)
            (int_pow (Self.value self.now) exponent) (Self.value result.0) }
        ensures no_iteration { exponent ≡ 0 → result.1 ≡ 0 }
        ensures iterations { exponent ≢ 0
            → (2 ^ result.1 ≤ exponent) × (exponent < 2 ^ (result.1 + 1)) }
    {
        let m = *modulus;
        let product = move |x: Self, y: Self| -> Self
            requires in_range { Self.fits (Self.value m) }
            requires x_below { LiesBelow (Self.value m) (Self.value x) }
            requires y_below { LiesBelow (Self.value m) (Self.value y) }
            ensures { IsResidue (Self.value m) (Self.value x *ℤ Self.value y) (Self.value result) }
        { x.product_modulo(&y, &m) };
        let residues = Residues {
            modulus: m,
            product,
        };
        power_counted(&residues, residue(one(), m), residue(*self, m), exponent)
    }
}

/// Returns `a * b` modulo `m`, by [`Modular::product_modulo`]. The product need not fit the type.
/// `product_modulo(4, 5, 7)` is `6`, and `product_modulo(200u8, 200, 201)` is `1`.
///
/// [`checked::product_modulo`] returns `None` if the precondition does not hold.
///
/// # Panics
///
/// In plain Rust, if the modulus is not positive.
pub fn product_modulo<T: Modular>(a: T, b: T, m: T) -> T
    requires in_range { T.fits (T.value a) × T.fits (T.value b) × T.fits (T.value m) }
    requires positive { pos 0 <ℤ T.value m }
    ensures in_range { T.fits (T.value result) }
    ensures residue { IsResidue (T.value m) (T.value a *ℤ T.value b) (T.value result) }
{
    a.product_modulo(&b, &m)
}

/// Returns `a` to the power `exponent` modulo `m`, by squaring. `power_modulo(3, 4, 7)` is `4`,
/// `power_modulo(3, 0, 7)` is `1`, and `power_modulo(3, 0, 1)` is `0`.
///
/// [`checked::power_modulo`] returns `None` if the precondition does not hold.
///
/// # Panics
///
/// In plain Rust, if the modulus is not positive.
pub fn power_modulo<T: Modular>(a: T, exponent: u128, m: T) -> T
    requires in_range { T.fits (T.value a) × T.fits (T.value m) }
    requires positive { pos 0 <ℤ T.value m }
    ensures in_range { T.fits (T.value result) }
    ensures residue { IsResidue (T.value m) (int_pow (T.value a) exponent) (T.value result) }
{
    power_modulo_counted(a, exponent, m).0
}

/// Returns [`power_modulo`] and the number of iterations of its loop, by [`Modular::power_modulo_counted`].
/// `power_modulo_counted(3, 4, 7)` is `(4, 2)`, and `power_modulo_counted(3, 0, 7)` is `(1, 0)`.
///
/// # Panics
///
/// In plain Rust, if the modulus is not positive.
pub fn power_modulo_counted<T: Modular>(a: T, exponent: u128, m: T) -> (T, u32)
    requires in_range { T.fits (T.value a) × T.fits (T.value m) }
    requires positive { pos 0 <ℤ T.value m }
    ensures in_range { T.fits (T.value result.0) }
    ensures residue { IsResidue (T.value m) (int_pow (T.value a) exponent) (T.value result.0) }
    ensures no_iteration { exponent ≡ 0 → result.1 ≡ 0 }
    ensures iterations { exponent ≢ 0 → (2 ^ result.1 ≤ exponent) × (exponent < 2 ^ (result.1 + 1)) }
{
    check(m > zero(), "the modulus is not positive");
    a.power_modulo_counted(exponent, &m)
}

/// Returns the product of two residues: it doubles `x` along the binary digits of `y`, and adds at each digit 1.
fn product_by_doubling<T: Integer + Copy>(x: T, y: T, m: T) -> T
    requires in_range { T.fits (T.value y) × T.fits (T.value m) }
    requires x_below { LiesBelow (T.value m) (T.value x) }
    requires y_below { LiesBelow (T.value m) (T.value y) }
    ensures in_range { T.fits (T.value result) }
    ensures residue { IsResidue (T.value m) (T.value x *ℤ T.value y) (T.value result) }
{
    let mut total = zero();
    let mut addend = x;
    let mut rest = y;
    'iterations: while is_below(one(), rest) {
        let (half, digit) = rest.div_rem(&successor(one()));
        if !is_zero(digit) {
            total = sum_of_residues(total, addend, m);
        }
        addend = sum_of_residues(addend, addend, m);
        rest = half;
    }
    if is_zero(rest) {
        total
    } else {
        sum_of_residues(total, addend, m)
    }
}
