//! How three types store their numbers: one negated, one beside a byte, and one in 128 bits.

ghost use Rattle.std.specs.Prelude.{◌≡◌, pos, negsuc, neg_ℤ, refl};
ghost use Rattle.std.proofs.Common.{rules, inl, inr};
ghost use Rattle.num_integer.specs.Between.{Between, between_range};

use crate::Marked;
use bounded_integers::{Form, Own, SignedForm};

/// From -7 to 7, stored negated.
#[derive(Clone, Copy)]
pub struct NegatedForm {
    negation: i8,
    ghost in_range: { Between (negsuc 6) (pos 7) negation },
}

impl Form for NegatedForm {
    type Number = i64;

    ghost low = { negsuc 6 };

    ghost high = { pos 7 };

    ghost meaning = { λ x. neg_ℤ x.negation };

    ghost zero = { record { negation = pos 0; in_range = (record { le = tt }, record { le = tt }) } };

    ghost one = { record { negation = negsuc 0; in_range = (record { le = tt }, record { le = tt }) } };

    fn stored_zero() -> NegatedForm {
        NegatedForm { negation: 0 }
    }

    fn stored_one() -> NegatedForm {
        NegatedForm { negation: -1 }
    }

    fn to_number(&self) -> i64 {
        -i64::from(self.negation)
    }

    fn store(number: i64) -> NegatedForm {
        NegatedForm {
            negation: -number as i8,
        }
    }

    fn bounds() -> (i64, i64) {
        (-7, 7)
    }

    ghost zero_law = { refl };

    ghost one_law = { refl };

    ghost number_law = { Prim.search rules };

    ghost form_law = { between_range (negsuc 6) (pos 7) (inr (inl refl)) (record { le = tt })
        (record { lt = tt }) (inr (record { lt = tt })) };

    ghost ends_law = { Prim.search rules };
}

impl SignedForm for NegatedForm {
    ghost sign_law = { refl };
}

/// From -100 to 100, with a byte that no number depends on. The byte of a result is 1 more than the larger byte
/// of the operands, and at most 255.
#[derive(Clone, Copy)]
pub struct MarkedForm {
    number: i8,
    mark: u8,
    ghost in_range: { Between (negsuc 99) (pos 100) number },
}

/// The same number with this byte.
pub fn with_mark(x: Marked, mark: u8) -> Marked
    ensures { result.form.number ≡ x.form.number }
{
    Own {
        form: MarkedForm {
            number: x.form.number,
            mark,
        },
    }
}

/// The byte of a number.
pub fn mark_of(x: Marked) -> u8 {
    x.form.mark
}

impl Form for MarkedForm {
    type Number = i64;

    ghost low = { negsuc 99 };

    ghost high = { pos 100 };

    ghost meaning = { λ x. x.number };

    ghost zero = { record { number = pos 0; mark = 0; in_range = (record { le = tt }, record { le = tt }) } };

    ghost one = { record { number = pos 1; mark = 0; in_range = (record { le = tt }, record { le = tt }) } };

    fn stored_zero() -> MarkedForm {
        MarkedForm { number: 0, mark: 0 }
    }

    fn stored_one() -> MarkedForm {
        MarkedForm { number: 1, mark: 0 }
    }

    fn to_number(&self) -> i64 {
        i64::from(self.number)
    }

    fn store(number: i64) -> MarkedForm {
        MarkedForm {
            number: number as i8,
            mark: 0,
        }
    }

    fn store_answer(&self, other: &MarkedForm, number: i64) -> MarkedForm {
        MarkedForm {
            number: number as i8,
            mark: self.mark.max(other.mark).saturating_add(1),
        }
    }

    fn bounds() -> (i64, i64) {
        (-100, 100)
    }

    ghost zero_law = { refl };

    ghost one_law = { refl };

    ghost number_law = { Prim.search rules };

    ghost form_law = { between_range (negsuc 99) (pos 100) (inr (inl refl)) (record { le = tt })
        (record { lt = tt }) (inr (record { lt = tt })) };

    ghost ends_law = { Prim.search rules };
}

impl SignedForm for MarkedForm {
    ghost sign_law = { refl };
}

/// From 0 to 10^30, which is more than 64 bits hold.
#[derive(Clone, Copy)]
pub struct TokensForm {
    number: u128,
    ghost in_range: { Between (pos 0) (pos 1000000000000000000000000000000) (pos number) },
}

impl Form for TokensForm {
    type Number = u128;

    ghost low = { pos 0 };

    ghost high = { pos 1000000000000000000000000000000 };

    ghost meaning = { λ x. pos x.number };

    ghost zero = { record { number = 0; in_range = (record { le = tt }, record { le = tt }) } };

    ghost one = { record { number = 1; in_range = (record { le = tt }, record { le = tt }) } };

    fn stored_zero() -> TokensForm {
        TokensForm { number: 0 }
    }

    fn stored_one() -> TokensForm {
        TokensForm { number: 1 }
    }

    fn to_number(&self) -> u128 {
        self.number
    }

    fn store(number: u128) -> TokensForm {
        TokensForm { number }
    }

    fn bounds() -> (u128, u128) {
        (0, 1_000_000_000_000_000_000_000_000_000_000)
    }

    ghost zero_law = { refl };

    ghost one_law = { refl };

    ghost number_law = { Prim.search rules };

    ghost form_law = { between_range (pos 0) (pos 1000000000000000000000000000000) (inl refl) (record { le = tt })
        (record { lt = tt }) (inl (record { le = tt })) };

    ghost ends_law = { Prim.search rules };
}
