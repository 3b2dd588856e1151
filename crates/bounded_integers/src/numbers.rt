//! The traits of `num_traits`.

ghost use Rattle.std.specs.Prelude.{◌≢◌, ⊤, pos, refl, IsErr};
ghost use Rattle.std.proofs.Common.{rules};
ghost use Rattle.num_integer.proofs.ForCallers.{zero_fits};
ghost use Rattle.num_integer.specs.Between.{Between, between_law, positive_divisor_law, sub_fits_law};

use crate::{Form, Own, SignedForm};
use num_traits::{Num, Number, One, Signed, Zero};

impl<F: Form> Number for Own<F> {
    ghost exact = { ⊤ };

    ghost value = { λ x. F.meaning x.form };

    ghost fits = { Between F.low F.high };

    ghost nonzero = { λ z. z ≢ pos 0 };

    ghost wrap = { λ z. z };

    ghost eq_law = { Prim.search rules };

    ghost order_law = { λ a b _. refl };

    ghost between_law = { λ x y z _. between_law F.low F.high x y z };

    ghost nonzero_law = { λ x _ f. (λ h. h, λ h. h) };
}

impl<F: Form> Zero for Own<F> {
    ghost zero = { record { form = F.zero } };

    fn zero() -> Own<F> {
        Own {
            form: F::stored_zero(),
        }
    }

    fn is_zero(&self) -> bool {
        *self == Own::zero()
    }

    ghost zero_law = { λ _. F.zero_law };

    ghost zero_fits_law = { Prim.search rules };

    ghost can_add_law = { λ a b h. h tt };

    ghost add_law = { λ a b r h _ _. h };
}

impl<F: Form> One for Own<F> {
    ghost one = { record { form = F.one } };

    fn one() -> Own<F> {
        Own {
            form: F::stored_one(),
        }
    }

    ghost one_law = { λ _. F.one_law };

    ghost one_fits_law = { Prim.search rules };

    ghost can_mul_law = { λ a b h. h tt };

    ghost mul_law = { λ a b r h _ _. h };
}

/// `from_str_radix` returns an error for every string. `FromStr` parses strings.
impl<F: Form> Num for Own<F> {
    type FromStrRadixErr = ();

    ghost from_str_radix_gives = { λ _ _ r. IsErr r };

    fn from_str_radix(_text: &str, _radix: u32) -> Result<Own<F>, ()> {
        Err(())
    }

    ghost can_sub_law = { λ a b h. h tt };

    ghost sub_law = { λ a b r h _ _. h };

    ghost sub_fits_law = { λ x y _. sub_fits_law F.low F.high x y (zero_fits F.form_law).0 };

    ghost can_div_law = { λ a b h. h tt };

    ghost div_law = { λ a b r h _. h };

    ghost positive_divisor_law = { λ x y _.
        positive_divisor_law F.low F.high x y (zero_fits F.form_law).0 (zero_fits F.form_law).1 };

    ghost can_rem_law = { λ a b h. (h tt).0 };

    ghost rem_law = { λ a b r h _. h };
}

impl<F: SignedForm> Signed for Own<F>
where
    F::Number: Signed,
{
    fn abs(&self) -> Own<F> {
        self.answer(self, self.number().abs())
    }

    fn abs_sub(&self, other: &Own<F>) -> Own<F> {
        self.answer(other, self.number().abs_sub(&other.number()))
    }

    fn signum(&self) -> Own<F> {
        self.answer(self, self.number().signum())
    }

    fn is_positive(&self) -> bool {
        self.number().is_positive()
    }

    fn is_negative(&self) -> bool {
        self.number().is_negative()
    }

    ghost can_neg_law = { λ a h. tt };

    ghost neg_law = { λ a r h _ _. h };
}
