//! Powers modulo a number of 64 bits: modulo its odd factor in Montgomery form, and modulo its power of two by the low
//! bits.

ghost use Rattle.std.specs.Prelude.{◌≡◌, ◌*◌, ◌^◌, ◌<◌, pos};
ghost use Rattle.std.specs.Int.{int_pow};
ghost use Rattle.modular.specs.Congruences.{AreCongruent, IsResidue};
ghost use Rattle.modular.specs.Powers.{IsIterationCount};
ghost use Rattle.modular.specs.MontgomeryForms.{joined};

use crate::exponentiation::{ResidueForm, power_counted};
use crate::montgomery::Montgomery;

/// Returns the power of a number modulo `m`, and the number of iterations of its loop.
pub(crate) fn power_of_word(x: u64, exponent: u128, m: u64) -> (u64, u32)
    requires { 0 < m }
    ensures residue { IsResidue (pos m) (int_pow (pos x) exponent) (pos result.0) }
    ensures iterations { IsIterationCount exponent result.1 }
{
    let modulus = SplitModulus::new(m);
    let base = modulus.form_of(x);
    let (power, iterations) = power_counted(&modulus, modulus.one(), base, exponent);
    (modulus.residue_of(power), iterations)
}

/// A modulus split into an odd factor and a power of two. A residue is a pair: its Montgomery form modulo the odd
/// factor, and its low bits.
#[derive(Clone, Copy)]
struct SplitModulus {
    odd: Montgomery,
    twos: u32,
    ghost fits: { odd.modulus * 2 ^ twos < 2 ^ 64 },
}

impl SplitModulus {
    /// Splits a modulus.
    #[tactic(auto, using(crate::proofs::SplitModuli::parts_product, crate::proofs::SplitModuli::odd_part))]
    fn new(m: u64) -> Self
        requires { 0 < m }
        ensures { result.odd.modulus * 2 ^ result.twos ≡ m }
    {
        let twos = m.trailing_zeros();
        Self {
            odd: Montgomery::new(m >> twos),
            twos,
        }
    }

    /// Returns the pair of 1.
    fn one(&self) -> (u64, u64)
        ensures below { result.0 < self.now.odd.modulus }
        ensures congruent { AreCongruent (pos (self.now.odd.modulus * 2 ^ 64)) (pos 1)
            (joined self.now.odd.modulus self.now.odd.inverse result.0 result.1) }
    {
        (self.odd.one(), 1)
    }

    /// Returns the pair of `x`.
    fn form_of(&self, x: u64) -> (u64, u64)
        ensures below { result.0 < self.now.odd.modulus }
        ensures congruent { AreCongruent (pos (self.now.odd.modulus * 2 ^ 64)) (pos x)
            (joined self.now.odd.modulus self.now.odd.inverse result.0 result.1) }
    {
        (self.odd.to_montgomery(x), x)
    }

    /// Returns the residue of a pair, by the Chinese remainder theorem.
    fn residue_of(&self, x: (u64, u64)) -> u64
        requires { x.0 < self.now.odd.modulus }
        ensures { IsResidue (pos (self.now.odd.modulus * 2 ^ self.now.twos))
            (joined self.now.odd.modulus self.now.odd.inverse x.0 x.1) (pos result) }
    {
        let rest = self.odd.residue_of(x.0);
        let quotient = x.1.wrapping_sub(rest).wrapping_mul(self.odd.inverse) % (1 << self.twos);
        rest + self.odd.modulus * quotient
    }
}

impl ResidueForm for SplitModulus {
    type Number = (u64, u64);

    ghost modulus = { λ s. pos (s.odd.modulus * 2 ^ 64) };

    ghost is_valid = { λ s x. x.0 < s.odd.modulus };

    ghost meaning = { λ s x. joined s.odd.modulus s.odd.inverse x.0 x.1 };

    fn product(&self, x: (u64, u64), y: (u64, u64)) -> (u64, u64) {
        (self.odd.product(x.0, y.0), x.1.wrapping_mul(y.1))
    }

    /// Always multiplies, and keeps the product only if the digit is 1.
    fn product_if(&self, digit: u128, x: (u64, u64), y: (u64, u64)) -> (u64, u64) {
        let product = self.product(x, y);
        if digit == 1 { product } else { x }
    }
}
