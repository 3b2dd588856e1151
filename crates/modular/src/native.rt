//! `Modular` for the twelve native types.

ghost use Rattle.std.specs.Prelude.{◌≡◌, ◌<ℤ◌, ◌*ℤ◌, pos};
ghost use Rattle.std.specs.Int.{int_pow};
ghost use Rattle.modular.specs.Congruences.{IsResidue};
ghost use Rattle.modular.specs.Powers.{IsIterationCount};

use crate::products::Modular;
use crate::residues::{negation_of_residue, residue};
use crate::wide_residues::{power_of_wide, product_of_wide};
use num_integer::guards::check;
use num_integer::operators::zero;
use num_integer::{Fits, NativeInteger};
use num_traits::{NumCast, cast};

impl<T: NativeInteger> Modular for T {
    fn product_modulo(&self, other: &T, modulus: &T) -> T {
        check(*modulus > zero(), "the modulus is not positive");
        of_magnitude(product_as_magnitude(*self, *other, *modulus))
    }

    fn power_modulo_counted(&self, exponent: u128, modulus: &T) -> (T, u32) {
        let (power, iterations) = power_as_magnitude(*self, exponent, *modulus);
        (of_magnitude(power), iterations)
    }
}

/// Returns `a * b` modulo `m` as a magnitude.
fn product_as_magnitude<T: Fits>(a: T, b: T, m: T) -> u128
    requires in_range { T.fits (T.value a) × T.fits (T.value b) × T.fits (T.value m) }
    requires positive { pos 0 <ℤ T.value m }
    ensures in_range { T.fits (pos result) }
    ensures residue { IsResidue (T.value m) (T.value a *ℤ T.value b) (pos result) }
{
    let (a_negative, x) = a.parts();
    let (b_negative, y) = b.parts();
    let modulus = m.parts().1;
    let rest = product_of_wide(x, y, modulus);
    if a_negative != b_negative {
        negation_of_residue(rest, modulus)
    } else {
        rest
    }
}

/// Returns `a` to the power `exponent` modulo `m` as a magnitude, and the number of iterations of the loop.
fn power_as_magnitude<T: Fits>(a: T, exponent: u128, m: T) -> (u128, u32)
    requires in_range { T.fits (T.value a) × T.fits (T.value m) }
    requires positive { pos 0 <ℤ T.value m }
    ensures in_range { T.fits (pos result.0) }
    ensures residue { IsResidue (T.value m) (int_pow (T.value a) exponent) (pos result.0) }
    ensures iterations { IsIterationCount exponent result.1 }
{
    power_of_wide(residue(a, m).parts().1, exponent, m.parts().1)
}

/// Converts a magnitude to the type.
fn of_magnitude<T: NumCast>(x: u128) -> T
    requires exact { T.exact }
    requires fits { T.fits (pos x) }
    ensures in_range { T.fits (T.value result) }
    ensures value { T.value result ≡ pos x }
{
    cast::<u128, T>(x).unwrap()
}
