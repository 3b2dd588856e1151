//! A range, and the form of its integers.

ghost use Rattle.std.specs.Prelude.{◌≡◌, ℤ, neg_ℤ, pos, refl, MatchResult};
ghost use Rattle.std.proofs.Common.{rules};
ghost use Rattle.num_integer.specs.Between.{Between};
ghost use Rattle.bounded_integers.specs.Ranges.{IsBoundedRange, ends_fit, one_inside, range_of, zero_inside};

use crate::{BoundedError, Form, Own, SignedForm};
use std::marker::PhantomData;

/// The range of a type of [`Bounded`]: its smallest and its largest number. There are three shapes: from 0 to `HIGH`, from `-HIGH`
/// to `HIGH`, and from `-HIGH - 1` to `HIGH`. `HIGH` has to be positive, and `LOW` above `i64::MIN`.
/// `<PercentRange as Range>::HIGH` is `100`.
///
/// In plain Rust, a type is a range and a name:
///
/// ```
/// use cellarcove::bounded_integers::{Bounded, Range};
/// struct MinutesRange;
/// impl Range for MinutesRange {
///     const LOW: i64 = 0;
///     const HIGH: i64 = 1439;
/// }
/// type Minutes = Bounded<MinutesRange>;
/// assert_eq!(Minutes::new(90).to_string(), "90");
/// ```
///
/// No program with an integer of a range of another shape compiles. This range has no 0:
///
/// ```compile_fail
/// use cellarcove::bounded_integers::{Bounded, Range};
/// struct DaysRange;
/// impl Range for DaysRange {
///     const LOW: i64 = 1;
///     const HIGH: i64 = 31;
/// }
/// Bounded::<DaysRange>::new(7);
/// ```
pub trait Range {
    /// The smallest number. `<PercentRange as Range>::LOW` is `0`.
    const LOW: i64;

    ghost LOW: { ℤ };

    /// The largest number. `<PercentRange as Range>::HIGH` is `100`.
    const HIGH: i64;

    ghost HIGH: { ℤ };

    ghost range_law: { IsBoundedRange LOW HIGH };
}

/// A range from `-HIGH` to `HIGH`. Its type also has the operator `-` of one number, and `Signed`.
///
/// # Examples
///
/// ```
/// struct SmallRange;
///
/// impl Range for SmallRange {
///     const LOW: i64 = -7;
///     const HIGH: i64 = 7;
/// }
///
/// impl SignedRange for SmallRange {}
///
/// assert_eq!(-Bounded::<SmallRange>::new(7), Bounded::new(-7));
/// ```
pub trait SignedRange: Range {
    ghost sign_law: { Self.LOW ≡ neg_ℤ Self.HIGH };
}

/// An integer of the range `R`, stored as an `i64`: the form of [`Bounded`]. `<Ranged<PercentRange> as Form>::bounds()` is `(0, 100)`.
pub struct Ranged<R: Range> {
    pub number: i64,
    range: PhantomData<R>,
    ghost in_range: { Between R.LOW R.HIGH number },
}

/// An integer of the range `R`, which the type has by its name. An operator gives the integer that it gives on integers, and
/// requires that it is in range. `Percent::new(100) - Percent::new(1)` is `Percent::new(99)`.
pub type Bounded<R> = Own<Ranged<R>>;

/// Marks an integer with its range, which has one of the three shapes by its law. In plain Rust, it doesn't compile at a range of
/// another shape.
fn lawful<R: Range>() -> PhantomData<R> {
    PhantomData
}

impl<R: Range> Clone for Ranged<R> {
    fn clone(&self) -> Result<Self, std::alloc::AllocError> {
        Ok(*self)
    }
}

impl<R: Range> Copy for Ranged<R> {}

impl<R: Range> Form for Ranged<R> {
    type Number = i64;

    ghost low = { R.LOW };

    ghost high = { R.HIGH };

    ghost meaning = { λ x. x.number };

    ghost zero = { record { number = pos 0; range = record {}; in_range = zero_inside R.range_law } };

    ghost one = { record { number = pos 1; range = record {}; in_range = one_inside R.range_law } };

    fn stored_zero() -> Ranged<R> {
        Ranged {
            number: 0,
            range: lawful(),
        }
    }

    fn stored_one() -> Ranged<R> {
        Ranged {
            number: 1,
            range: lawful(),
        }
    }

    fn to_number(&self) -> i64 {
        self.number
    }

    fn store(number: i64) -> Ranged<R> {
        Ranged {
            number,
            range: lawful(),
        }
    }

    fn bounds() -> (i64, i64) {
        (R::LOW, R::HIGH)
    }

    ghost zero_law = { refl };

    ghost one_law = { refl };

    ghost number_law = { Prim.search rules };

    ghost form_law = { range_of R.range_law };

    ghost ends_law = { ends_fit R.range_law };
}

impl<R: SignedRange> SignedForm for Ranged<R> {
    ghost sign_law = { R.sign_law };
}

/// `Percent::try_from(7)` is `Ok(Percent::new(7))`, and `Percent::try_from(101)` is `Err(BoundedError)`.
impl<R: Range> TryFrom<i64> for Own<Ranged<R>> {
    type Error = BoundedError;

    ghost try_from_gives = { λ number result.
        MatchResult result (λ x. x.form.number ≡ number) (λ _. ¬ (Between R.LOW R.HIGH number)) };

    fn try_from(number: i64) -> Result<Self, BoundedError> {
        Own::try_new(number)
    }
}
