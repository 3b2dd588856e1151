//! The rolling hash of the Rabin-Karp search: the hash of a window that slides over bytes.

ghost use Rattle.std.specs.Prelude.{◌≡◌, ◌<◌, ◌+◌, ◌-◌, ◌%◌, ◌^◌, ◌∷◌, ◌++◌, ℕ, List, [], length, pos};
ghost use Rattle.modular.specs.Congruences.{IsResidue};
ghost use Rattle.applied.specs.Hashes.{weighted_sum};

use modular::{difference_modulo, power_modulo, product_modulo, sum_modulo};
use num_integer::guards::check;

/// A polynomial hash of windows of one length, modulo `modulus`.
///
/// `RollingHash::new(10, 97, 3).hash(&[1, 2, 3])` is `26`.
#[derive(Debug, Clone, Copy)]
pub struct RollingHash {
    pub base: u64,
    pub modulus: u64,
    /// How many bytes a window has.
    pub length: u64,
    /// What the first byte of a window is multiplied by: `base` to the power of `length - 1`, modulo `modulus`.
    pub weight: u64,
    pub ghost positive: { 0 < modulus },
    pub ghost some: { 0 < length },
    pub ghost weighted: { weight ≡ base ^ (length - 1) % modulus },
}

impl RollingHash {
    /// Returns the hash function of windows of `length` bytes. `RollingHash::new(10, 97, 2).hash(&[4, 2])` is `42`.
    ///
    /// # Panics
    ///
    /// In plain Rust, if the modulus is not positive, or if the length is 0.
    pub fn new(base: u64, modulus: u64, length: u64) -> Self
        requires positive { 0 < modulus }
        requires some { 0 < length }
        ensures base { result.base ≡ base }
        ensures modulus { result.modulus ≡ modulus }
        ensures length { result.length ≡ length }
    {
        check(modulus > 0, "the modulus is not positive");
        check(length > 0, "the window has no byte");
        let weight = power_modulo(base, u128::from(length - 1), modulus);
        Self {
            base,
            modulus,
            length,
            weight,
        }
    }

    /// Returns the `base`. `RollingHash::new(10, 97, 3).base()` is `10`.
    pub const fn base(&self) -> u64
        ensures { result ≡ self.now.base }
    {
        self.base
    }

    /// Returns the `modulus`. `RollingHash::new(10, 97, 3).modulus()` is `97`.
    pub const fn modulus(&self) -> u64
        ensures { result ≡ self.now.modulus }
    {
        self.modulus
    }

    /// How many bytes a window has. `RollingHash::new(10, 97, 3).length()` is `3`.
    pub const fn length(&self) -> u64
        ensures { result ≡ self.now.length }
    {
        self.length
    }

    /// Returns the hash of the window: the sum of its bytes, each times `base` to the power of the number of
    /// bytes after it, modulo `modulus`. `RollingHash::new(10, 97, 3).hash(&[1, 2, 3])` is `26`.
    ///
    /// # Panics
    ///
    /// In plain Rust, if the window has another length than the hash function is for.
    pub fn hash(&self, window: &[u8]) -> u64
        requires { length window.now ≡ self.now.length }
        ensures { IsResidue (pos self.now.modulus)
            (weighted_sum (pos self.now.base) window.now) (pos result) }
    {
        check(
            window.len() as u64 == self.length,
            "the window has another length",
        );
        let mut hash = 0;
        for byte in window {
            let shifted = product_modulo(hash, self.base, self.modulus);
            hash = sum_modulo(shifted, u64::from(*byte), self.modulus);
        }
        hash
    }

    /// Returns the hash of the window one byte further on. `hash` is that of the window before, which begins
    /// with `leaving`, and the window ends with `entering`. `RollingHash::new(10, 97, 3).slide(26, 1, 4)` is `40`.
    pub fn slide(&self, hash: u64, leaving: u8, entering: u8) -> u64
        ensures { (kept : List ℕ) → length kept + 1 ≡ self.now.length
            → IsResidue (pos self.now.modulus) (weighted_sum (pos self.now.base) (leaving ∷ kept)) (pos hash)
            → IsResidue (pos self.now.modulus)
            (weighted_sum (pos self.now.base) (kept ++ entering ∷ [])) (pos result) }
    {
        let first = product_modulo(u64::from(leaving), self.weight, self.modulus);
        let rest = difference_modulo(hash, first, self.modulus);
        let shifted = product_modulo(rest, self.base, self.modulus);
        sum_modulo(shifted, u64::from(entering), self.modulus)
    }
}
