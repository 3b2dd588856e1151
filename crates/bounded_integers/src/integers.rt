//! The traits of `num_integer` and `modular`.

ghost use Rattle.bounded_integers.specs.Ranges.{within_width};

use crate::{Form, Own};
use modular::Modular;
use num_integer::{Average, Fits, Integer, Roots};

impl<F: Form> Integer for Own<F> {
    ghost low = { F.low };

    ghost high = { F.high };

    ghost exact_law = { tt };

    ghost range_law = { F.form_law };

    fn div_rem(&self, other: &Own<F>) -> (Own<F>, Own<F>) {
        let (q, r) = self.number().div_rem(&other.number());
        (self.answer(other, q), self.answer(other, r))
    }

    fn div_floor(&self, other: &Own<F>) -> Own<F> {
        self.answer(other, Integer::div_floor(&self.number(), &other.number()))
    }

    fn mod_floor(&self, other: &Own<F>) -> Own<F> {
        self.answer(other, self.number().mod_floor(&other.number()))
    }

    fn is_multiple_of(&self, other: &Own<F>) -> bool {
        Integer::is_multiple_of(&self.number(), &other.number())
    }

    fn is_even(&self) -> bool {
        self.number().is_even()
    }

    fn is_odd(&self) -> bool {
        self.number().is_odd()
    }

    fn gcd(&self, other: &Own<F>) -> Own<F> {
        self.answer(other, self.number().gcd(&other.number()))
    }

    fn lcm(&self, other: &Own<F>) -> Own<F> {
        self.answer(other, self.number().lcm(&other.number()))
    }
}

impl<F: Form> Average for Own<F> {
    fn average_floor(&self, other: &Own<F>) -> Own<F> {
        self.answer(other, self.number().average_floor(&other.number()))
    }

    fn average_ceil(&self, other: &Own<F>) -> Own<F> {
        self.answer(other, self.number().average_ceil(&other.number()))
    }
}

impl<F: Form> Fits for Own<F> {
    fn parts(&self) -> (bool, u128) {
        self.number().parts()
    }

    fn ends() -> (u128, u128) {
        let (low, high) = F::bounds();
        (low.parts().1, high.parts().1)
    }
}

impl<F: Form> Roots for Own<F>
where
    F::Number: Roots,
{
    fn nth_root(&self, n: u32) -> Own<F> {
        self.answer(self, self.number().nth_root(n))
    }

    ghost width_law = { within_width F.Number.range_law F.ends_law F.Number.width_law };
}

impl<F: Form> Modular for Own<F> {
    fn product_modulo(&self, other: &Own<F>, modulus: &Own<F>) -> Own<F> {
        self.answer(
            other,
            self.number()
                .product_modulo(&other.number(), &modulus.number()),
        )
    }

    fn power_modulo_counted(&self, exponent: u128, modulus: &Own<F>) -> (Own<F>, u32) {
        let (power, iterations) = self
            .number()
            .power_modulo_counted(exponent, &modulus.number());
        (self.answer(modulus, power), iterations)
    }
}
