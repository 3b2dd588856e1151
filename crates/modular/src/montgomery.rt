//! Montgomery multiplication modulo an odd number of 64 bits: no product needs a division. The Montgomery form of a
//! residue is the residue times 2^64.

ghost use Rattle.std.specs.Prelude.{◌≡◌, ◌+◌, ◌*◌, ◌%◌, ◌^◌, ◌<◌, ◌≤◌, ◌*ℤ◌, ℕ, pos};
ghost use Rattle.modular.specs.Congruences.{AreCongruent, IsResidue};
ghost use Rattle.modular.specs.MontgomeryForms.{represented};

use crate::wide_residues::U64_VALUES;

/// An odd modulus, and its inverse modulo 2^64.
#[derive(Clone, Copy)]
pub(crate) struct Montgomery {
    pub modulus: u64,
    pub inverse: u64,
    ghost positive: { 0 < modulus },
    ghost inverts: { modulus * inverse % 2 ^ 64 ≡ 1 },
}

impl Montgomery {
    /// Returns the modulus with its inverse.
    pub(crate) fn new(m: u64) -> Self
        requires odd { m % 2 ≡ 1 }
        ensures { result.modulus ≡ m }
    {
        Self {
            modulus: m,
            inverse: inverse_of_odd(m),
        }
    }

    /// Returns the Montgomery form of 1, which is 2^64 modulo the modulus.
    #[tactic(auto, using(crate::proofs::MontgomeryProducts::one_form))]
    pub(crate) fn one(&self) -> u64
        ensures below { result < self.now.modulus }
        ensures one { AreCongruent (pos self.now.modulus) (pos 1)
            (represented self.now.modulus self.now.inverse result) }
    {
        self.modulus.wrapping_neg() % self.modulus
    }

    /// Returns the Montgomery form of `x`.
    #[tactic(auto, using(crate::proofs::MontgomeryProducts::montgomery_form))]
    pub(crate) fn to_montgomery(self, x: u64) -> u64
        ensures below { result < self.modulus }
        ensures congruent { AreCongruent (pos self.modulus) (pos x)
            (represented self.modulus self.inverse result) }
    {
        (u128::from(x) * U64_VALUES % u128::from(self.modulus)) as u64
    }

    /// Returns the residue that has the Montgomery form `x`.
    #[tactic(auto, using(crate::proofs::MontgomeryProducts::montgomery_residue))]
    pub(crate) fn residue_of(&self, x: u64) -> u64
        requires { x < self.now.modulus }
        ensures { IsResidue (pos self.now.modulus)
            (represented self.now.modulus self.now.inverse x) (pos result) }
    {
        self.montgomery_product(x, 1)
    }

    /// Multiplies two residues in Montgomery form.
    pub(crate) fn product(&self, x: u64, y: u64) -> u64
        requires { x < self.now.modulus }
        ensures below { result < self.now.modulus }
        ensures congruent { AreCongruent (pos self.now.modulus)
            (represented self.now.modulus self.now.inverse x
            *ℤ represented self.now.modulus self.now.inverse y)
            (represented self.now.modulus self.now.inverse result) }
    {
        self.montgomery_product(x, y)
    }

    /// Returns the Montgomery product of `x` and `y`: the residue that times 2^64 is `x * y`. It subtracts from
    /// `x * y` the multiple of the modulus that has the same low 64 bits.
    fn montgomery_product(&self, x: u64, y: u64) -> u64
        requires { x < self.now.modulus }
        ensures below { result < self.now.modulus }
        ensures congruent { AreCongruent (pos self.now.modulus) (pos x *ℤ pos y)
            (pos result *ℤ pos (2 ^ 64)) }
    {
        let product = u128::from(x) * u128::from(y);
        let quotient = ((product % U64_VALUES) as u64).wrapping_mul(self.inverse);
        let multiple = u128::from(quotient) * u128::from(self.modulus);
        let high = (product / U64_VALUES) as u64;
        let subtracted = (multiple / U64_VALUES) as u64;
        if high < subtracted {
            high + (self.modulus - subtracted)
        } else {
            high - subtracted
        }
    }
}

/// Returns the inverse of an odd number modulo 2^64, by Newton's method. The number is its own inverse modulo 8, and
/// each step doubles the number of correct bits.
fn inverse_of_odd(m: u64) -> u64
    requires { m % 2 ≡ 1 }
    ensures { m * result % 2 ^ 64 ≡ 1 }
{
    let first = next_inverse(m, m);
    let second = next_inverse(m, first);
    let third = next_inverse(m, second);
    let fourth = next_inverse(m, third);
    next_inverse(m, fourth)
}

/// Makes one step of Newton's method: if `x` is the inverse of `m` modulo 2^k, the result is the inverse modulo
/// 2^(2k).
#[tactic(auto, using(crate::proofs::MontgomeryInverses::inverse_doubled))]
fn next_inverse(m: u64, x: u64) -> u64
    ensures { (k : ℕ) → k ≤ 32 → AreCongruent (pos (2 ^ k)) (pos m *ℤ pos x) (pos 1)
        → AreCongruent (pos (2 ^ (k + k))) (pos m *ℤ pos result) (pos 1) }
{
    x.wrapping_mul(2u64.wrapping_sub(m.wrapping_mul(x)))
}
