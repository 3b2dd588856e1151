//! A form in which a type stores its integers, and the type.

ghost use Rattle.std.specs.Prelude.{◌≡◌, ◌↔◌, ℤ, pos, neg_ℤ, IsTrue, MatchResult};
ghost use Rattle.std.specs.Cmp.{partial_order_from_own_ties};
ghost use Rattle.std.specs.Cmp.Rules.{comparing};
ghost use Rattle.std.specs.Ordering.{int_cmp, int_eq, on, as_partial_cmp};
ghost use Rattle.std.proofs.Common.{rules};
ghost use Rattle.num_integer.specs.Between.{Between};
ghost use Rattle.num_integer.specs.Range.{IsRange};

use crate::BoundedError;
use modular::Modular;
use num_integer::guards::check;
use num_integer::operators::is_below;
use num_integer::{Average, Fits};
use std::cmp::Ordering;

/// How a type stores its integers, which are those from a smallest to a largest one, and the built-in type that computes. The range
/// has one of the three shapes of [`Range`](crate::Range), and at most 128 bits. `<Ranged<PercentRange> as Form>::bounds()` is `(0, 100)`.
///
/// In plain Rust, the type of a form is this. Nothing tests the shape of the range:
///
/// ```
/// use cellarcove::bounded_integers::{Form, Own};
/// use cellarcove::checked;
/// /// From 0 to 10^30, which is more than 64 bits hold.
/// #[derive(Clone, Copy)]
/// struct TokensForm(u128);
/// impl Form for TokensForm {
///     type Number = u128;
///     fn stored_zero() -> Self {
///         TokensForm(0)
///     }
///     fn stored_one() -> Self {
///         TokensForm(1)
///     }
///     fn to_number(&self) -> u128 {
///         self.0
///     }
///     fn store(number: u128) -> Self {
///         TokensForm(number)
///     }
///     fn bounds() -> (u128, u128) {
///         (0, 1_000_000_000_000_000_000_000_000_000_000)
///     }
/// }
/// type Tokens = Own<TokensForm>;
/// let all = Tokens::new(1_000_000_000_000_000_000_000_000_000_000);
/// assert_eq!(checked::sum(all, Tokens::new(1)), None);
/// ```
pub trait Form: Copy {
    /// The built-in type that computes. It has each integer, and the smallest one with the other sign.
    type Number: Average + Fits + Modular;

    ghost low: { ℤ };

    ghost high: { ℤ };

    // The integer that is stored.
    ghost meaning: { Self → ℤ };

    ghost zero: { Self };

    ghost one: { Self };

    /// Returns 0, stored. `Ranged::<PercentRange>::stored_zero().to_number()` is `0`.
    fn stored_zero() -> Self
        ensures { result ≡ Self.zero };

    /// Returns 1, stored. `Ranged::<PercentRange>::stored_one().to_number()` is `1`.
    fn stored_one() -> Self
        ensures { result ≡ Self.one };

    /// Returns the integer. `Percent::new(7).form.to_number()` is `7`.
    fn to_number(&self) -> Self::Number
        ensures { Self.Number.value result ≡ Self.meaning self.now };

    /// Returns an integer of the range, stored. `Ranged::<PercentRange>::store(7).to_number()` is `7`.
    /// In plain Rust [`Own`] tests before that the number is in range.
    fn store(number: Self::Number) -> Self
        requires { Between Self.low Self.high (Self.Number.value number) }
        ensures { Self.meaning result ≡ Self.Number.value number };

    /// Returns an integer of the range that was computed from `self` and `other`, stored.
    /// `Percent::new(3).form.store_answer(&Percent::new(4).form, 7).to_number()` is `7`.
    fn store_answer(&self, _other: &Self, number: Self::Number) -> Self
        requires { Between Self.low Self.high (Self.Number.value number) }
        ensures { Self.meaning result ≡ Self.Number.value number }
    {
        Self::store(number)
    }

    /// Returns the smallest and the largest integer. `<Ranged<PercentRange> as Form>::bounds()` is `(0, 100)`.
    fn bounds() -> (Self::Number, Self::Number)
        ensures low { Self.Number.value result.0 ≡ Self.low }
        ensures high { Self.Number.value result.1 ≡ Self.high };

    ghost zero_law: { Self.meaning Self.zero ≡ pos 0 };

    ghost one_law: { Self.meaning Self.one ≡ pos 1 };

    ghost number_law: { (x : Self) → Between Self.low Self.high (Self.meaning x) };

    ghost form_law: { IsRange (Between Self.low Self.high) Self.low Self.high };

    // `Number` has the ends, and `-low`.
    ghost ends_law: { Self.Number.fits Self.low × Self.Number.fits Self.high × Self.Number.fits (neg_ℤ Self.low) };
}

/// A form of the integers from `-high` to `high`. Its type also has the operator `-` of one number, and `Signed`.
///
/// # Examples
///
/// ```
/// struct SmallRange;
///
/// impl Range for SmallRange {
///     const LOW: i64 = -7;
///     const HIGH: i64 = 7;
/// }
///
/// impl SignedRange for SmallRange {}
///
/// fn opposite<F: SignedForm>(x: Own<F>) -> Own<F> {
///     -x
/// }
///
/// assert_eq!(opposite(Bounded::<SmallRange>::new(7)), Bounded::new(-7));
/// ```
pub trait SignedForm: Form {
    ghost sign_law: { Self.low ≡ neg_ℤ Self.high };
}

/// An integer that is stored in the form `F`. An operator gives the integer that it gives on integers, and requires that it is in
/// range. Two are compared as integers, whatever else is stored. `Percent::new(100) - Percent::new(1)` is `Percent::new(99)`.
#[derive(Clone, Copy)]
pub struct Own<F: Form> {
    /// What is stored.
    pub form: F,
}

impl<F: Form> Own<F> {
    /// Returns the integer. [`Own::try_new`] tests it. `Percent::new(7).to_string()` is `"7"`.
    ///
    /// # Panics
    ///
    /// In plain Rust, if the number is out of range.
    pub fn new(number: F::Number) -> Own<F>
        requires in_range { Between F.low F.high (F.Number.value number) }
        ensures { F.meaning result.form ≡ F.Number.value number }
    {
        check(Own::<F>::has(number), "the number is out of range");
        Own {
            form: F::store(number),
        }
    }

    /// Returns the integer. `Percent::try_new(100)` is `Ok(Percent::new(100))`.
    ///
    /// # Errors
    ///
    /// - [`BoundedError`] if the number is out of range.
    pub fn try_new(number: F::Number) -> Result<Own<F>, BoundedError>
        ensures { MatchResult result (λ x. F.meaning x.form ≡ F.Number.value number)
            (λ _. ¬ (Between F.low F.high (F.Number.value number))) }
    {
        if Own::<F>::has(number) {
            Ok(Own {
                form: F::store(number),
            })
        } else {
            Err(BoundedError)
        }
    }

    /// Returns the number. `Percent::new(7).number()` is `7`.
    pub fn number(&self) -> F::Number
        ensures value { F.Number.value result ≡ F.meaning self.now.form }
        ensures in_range { Between F.low F.high (F.Number.value result) }
        ensures fits { F.Number.fits (F.Number.value result) }
    {
        self.form.to_number()
    }

    /// Returns whether the number is in the range.
    fn has(number: F::Number) -> bool
        ensures { IsTrue result ↔ Between F.low F.high (F.Number.value number) }
    {
        let (low, high) = F::bounds();
        !is_below(number, low) && !is_below(high, number)
    }

    /// Returns the result of a call on the two.
    ///
    /// # Panics
    ///
    /// In plain Rust, if the result is out of range.
    pub(crate) fn answer(&self, other: &Own<F>, number: F::Number) -> Own<F>
        requires { Between F.low F.high (F.Number.value number) }
        ensures value { F.meaning result.form ≡ F.Number.value number }
        ensures in_range { Between F.low F.high (F.meaning result.form) }
    {
        check(Own::<F>::has(number), "the number is out of range");
        Own {
            form: self.form.store_answer(&other.form, number),
        }
    }
}

impl<F: Form> PartialEq for Own<F> {
    ghost eq = { on (λ x. F.meaning x.form) int_eq };

    ghost laws = { Prim.search (comparing, rules) };

    fn eq(&self, other: &Own<F>) -> bool {
        self.number() == other.number()
    }
}

impl<F: Form> Eq for Own<F> {
    ghost laws = { Prim.search (comparing, rules) };
}

impl<F: Form> Ord for Own<F> {
    ghost cmp = { on (λ x. F.meaning x.form) int_cmp };

    ghost total = { Prim.search (comparing, rules) };

    ghost matches_partial_cmp = { Prim.search (comparing, rules) };

    ghost matches_eq = { Prim.search (comparing, rules) };

    fn cmp(&self, other: &Own<F>) -> Ordering {
        self.number().cmp(&other.number())
    }
}

impl<F: Form> PartialOrd for Own<F> {
    ghost partial_cmp = { as_partial_cmp (on (λ x. F.meaning x.form) int_cmp) };

    ghost laws = { partial_order_from_own_ties (Prim.search (comparing, rules)) (Prim.search (comparing, rules)) };

    fn partial_cmp(&self, other: &Own<F>) -> Option<Ordering> {
        Some(self.cmp(other))
    }
}
