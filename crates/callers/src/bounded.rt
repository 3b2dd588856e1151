//! Types of `bounded_integers`: minutes of a day, and amounts in cents.

ghost use Rattle.std.specs.Prelude.{◌≡◌, ◌≢◌, ◌+ℤ◌, ◌-ℤ◌, ◌*ℤ◌, ◌<ℤ◌, MatchOption, negsuc, neg_ℤ, pos, refl};
ghost use Rattle.std.proofs.Common.{lit≤};
ghost use Rattle.num_integer.specs.Averages.{IsAverageFloor};
ghost use Rattle.num_integer.specs.Between.{Between};
ghost use Rattle.num_integer.specs.Division.{IsCeiled, IsFloored, IsMultiple, IsQuotient};
ghost use Rattle.num_integer.specs.Divisors.{IsGreatestCommonDivisor, IsLeastCommonMultiple};
ghost use Rattle.num_integer.specs.Range.{EachFits};
ghost use Rattle.bounded_integers.specs.Ranges.{natural_range, signed_range};

use bounded_integers::{Bounded, Range, SignedRange};
use num_integer::{Average, Integer, checked};

/// The range of the minutes of a day.
pub struct MinutesRange;

impl Range for MinutesRange {
    const LOW: i64 = 0;

    ghost LOW = { pos 0 };

    const HIGH: i64 = 1439;

    ghost HIGH = { pos 1439 };

    ghost range_law = { natural_range 1439 (lit≤ tt) (lit≤ tt) };
}

/// A minute of a day, or a number of minutes that is less than a day.
pub type Minutes = Bounded<MinutesRange>;

/// The range of amounts, in cents.
pub struct CentsRange;

impl Range for CentsRange {
    const LOW: i64 = -1_000_000_000_000;

    ghost LOW = { negsuc 999999999999 };

    const HIGH: i64 = 1_000_000_000_000;

    ghost HIGH = { pos 1000000000000 };

    ghost range_law = { signed_range 1000000000000 (lit≤ tt) (lit≤ tt) };
}

impl SignedRange for CentsRange {
    ghost sign_law = { refl };
}

/// An amount of at most ten thousand million, in cents.
pub type Cents = Bounded<CentsRange>;

/// Returns the first departure at or after a minute. Returns `None` if there are no more departures on that day, or if
/// the interval is 0. The first one is at midnight, and the next ones are an interval apart.
pub fn next_departure(from: Minutes, interval: Minutes) -> Option<Minutes>
    ensures { MatchOption result
        (¬ ((interval.form.number ≢ pos 0) × EachFits (Between (pos 0) (pos 1439)) (IsMultiple IsCeiled from.form.number interval.form.number)))
        (λ minute. IsMultiple IsCeiled from.form.number interval.form.number minute.form.number) }
{
    checked::next_multiple_of(from, interval)
}

/// Returns the number of minutes after which two lines leave together again, or `None` if that is a day or more. It is 0 if
/// an interval is 0.
pub fn minutes_to_meeting(a: Minutes, b: Minutes) -> Option<Minutes>
    ensures { MatchOption result
        (¬ (EachFits (Between (pos 0) (pos 1439)) (IsLeastCommonMultiple a.form.number b.form.number)))
        (λ minutes. IsLeastCommonMultiple a.form.number b.form.number minutes.form.number) }
{
    checked::lcm(a, b)
}

/// Returns the largest step of which both are multiples.
pub fn common_step_of(a: Minutes, b: Minutes) -> Minutes
    ensures { IsGreatestCommonDivisor a.form.number b.form.number result.form.number }
{
    a.gcd(&b)
}

/// Returns the minute in the middle, rounded down.
pub fn middle(from: Minutes, end: Minutes) -> Minutes
    ensures { IsAverageFloor from.form.number end.form.number result.form.number }
{
    from.average_floor(&end)
}

/// Reads a minute that a user has written.
pub fn minute_of(number: i64) -> Option<Minutes>
    ensures { MatchOption result (¬ (Between (pos 0) (pos 1439) number)) (λ minute. minute.form.number ≡ number) }
{
    Minutes::try_from(number).ok()
}

/// Returns the balance after a payment, or `None` if it is out of range.
pub fn balance_after(balance: Cents, payment: Cents) -> Option<Cents>
    ensures { MatchOption result
        (¬ (Between (negsuc 999999999999) (pos 1000000000000) (balance.form.number -ℤ payment.form.number)))
        (λ after. after.form.number ≡ balance.form.number -ℤ payment.form.number) }
{
    checked::difference(balance, payment)
}

/// Returns the amount of money that is owed after a credit. It is the amount with the other sign.
pub fn owed(credit: Cents) -> Cents
    ensures { result.form.number ≡ neg_ℤ credit.form.number }
{
    -credit
}

/// Returns the price of an item and of its delivery. Each is at most a million, so the sum is in range.
pub fn with_delivery(price: Cents, delivery: Cents) -> Cents
    requires price { Between (pos 0) (pos 100000000) price.form.number }
    requires delivery { Between (pos 0) (pos 100000000) delivery.form.number }
    ensures { result.form.number ≡ price.form.number +ℤ delivery.form.number }
{
    price + delivery
}

/// Splits an amount into equal parts, rounded down, and what is left.
pub fn equal_parts(amount: Cents, people: Cents) -> (Cents, Cents)
    requires { pos 0 <ℤ people.form.number }
    ensures parts { IsQuotient IsFloored amount.form.number people.form.number result.0.form.number }
    ensures whole { amount.form.number ≡ (result.0.form.number *ℤ people.form.number) +ℤ result.1.form.number }
{
    amount.div_mod_floor(&people)
}
