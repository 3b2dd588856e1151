//! The operators. Each result is the integer that the operator gives on integers.

ghost use Rattle.std.specs.Prelude.{◌≡◌, ◌≢◌, ◌+ℤ◌, ◌-ℤ◌, ◌*ℤ◌, ⊤, pos, neg_ℤ, int_div, int_rem};
ghost use Rattle.num_integer.specs.Between.{Between};

use crate::{Form, Own, SignedForm};
use num_integer::operators::{difference, negated, product, quotient, remainder, sum};
use std::ops::{Add, Div, Mul, Neg, Rem, Sub};

/// Returns the sum. `Percent::new(40) + Percent::new(60)` is `Percent::new(100)`.
impl<F: Form> Add for Own<F> {
    type Output = Own<F>;

    ghost can_add = { λ a b. Between F.low F.high (F.meaning a.form +ℤ F.meaning b.form) };

    ghost add_gives = { λ a b r. F.meaning r.form ≡ F.meaning a.form +ℤ F.meaning b.form };

    /// # Panics
    ///
    /// In plain Rust, if the sum is out of range.
    fn add(self, other: Own<F>) -> Own<F> {
        self.answer(&other, sum(self.number(), other.number()))
    }
}

/// Returns the difference. `Percent::new(60) - Percent::new(40)` is `Percent::new(20)`.
impl<F: Form> Sub for Own<F> {
    type Output = Own<F>;

    ghost can_sub = { λ a b. Between F.low F.high (F.meaning a.form -ℤ F.meaning b.form) };

    ghost sub_gives = { λ a b r. F.meaning r.form ≡ F.meaning a.form -ℤ F.meaning b.form };

    /// # Panics
    ///
    /// In plain Rust, if the difference is out of range.
    fn sub(self, other: Own<F>) -> Own<F> {
        self.answer(&other, difference(self.number(), other.number()))
    }
}

/// Returns the product. `Percent::new(4) * Percent::new(25)` is `Percent::new(100)`.
impl<F: Form> Mul for Own<F> {
    type Output = Own<F>;

    ghost can_mul = { λ a b. Between F.low F.high (F.meaning a.form *ℤ F.meaning b.form) };

    ghost mul_gives = { λ a b r. F.meaning r.form ≡ F.meaning a.form *ℤ F.meaning b.form };

    /// # Panics
    ///
    /// In plain Rust, if the product is out of range.
    fn mul(self, other: Own<F>) -> Own<F> {
        self.answer(&other, product(self.number(), other.number()))
    }
}

/// Returns the quotient, rounded toward zero. `Percent::new(100) / Percent::new(3)` is `Percent::new(33)`.
impl<F: Form> Div for Own<F> {
    type Output = Own<F>;

    ghost can_div = { λ a b. (F.meaning b.form ≢ pos 0)
        × Between F.low F.high (int_div (F.meaning a.form) (F.meaning b.form)) };

    ghost div_gives = { λ a b r. F.meaning r.form ≡ int_div (F.meaning a.form) (F.meaning b.form) };

    /// # Panics
    ///
    /// In plain Rust, if `other` is 0, or if the quotient is out of range.
    fn div(self, other: Own<F>) -> Own<F> {
        self.answer(&other, quotient(self.number(), other.number()))
    }
}

/// Returns the remainder of `/`. `Percent::new(100) % Percent::new(3)` is `Percent::new(1)`.
impl<F: Form> Rem for Own<F> {
    type Output = Own<F>;

    ghost can_rem = { λ a b. F.meaning b.form ≢ pos 0 };

    ghost rem_gives = { λ a b r. F.meaning r.form ≡ int_rem (F.meaning a.form) (F.meaning b.form) };

    /// # Panics
    ///
    /// In plain Rust, if `other` is 0.
    fn rem(self, other: Own<F>) -> Own<F> {
        self.answer(&other, remainder(self.number(), other.number()))
    }
}

impl<F: SignedForm> Neg for Own<F> {
    type Output = Own<F>;

    ghost can_neg = { λ a. ⊤ };

    ghost neg_gives = { λ a r. F.meaning r.form ≡ neg_ℤ (F.meaning a.form) };

    fn neg(self) -> Own<F> {
        self.answer(&self, negated(self.number()))
    }
}
