//! Functions that round fractions half to even, also to decimal numbers, and read decimal numbers.

ghost use Rattle.std.specs.Prelude.{◌≡◌, ◌≤◌, ◌^◌, ◌*ℤ◌, FitsSigned, IfOk, MatchOption, pos, string_bytes};
ghost use Rattle.std.specs.Int.{w64};
ghost use Rattle.std.specs.Fmt.{format_spec};
ghost use Rattle.num_integer.specs.Padded.{padded_number};
ghost use Rattle.num_integer.specs.Checked.{AnswersWhere};
ghost use Rattle.num_integer.specs.Range.{EachFits};
ghost use Rattle.num_integer.specs.Divisors.{Divides};
ghost use Rattle.std.specs.Ordering.{int_cmp};
ghost use Rattle.ratio64.specs.Decimal.{IsDecimalOf, decimal_text, places_of, quintillionths_of, units_of};
ghost use Rattle.ratio64.specs.DecimalText.{ReadsDecimal};
ghost use Rattle.ratio64.specs.Ratio.{AnswersFraction, den_of, num_of};
ghost use Rattle.ratio64.specs.Rounding.{AnswersInParts, IsRoundedEven, rounded_even};

use ratio64::{Decimal, ParseDecimalError, Ratio, RatioError};
use std::alloc::{AllocError, Global};
use std::cmp::Ordering;

/// Returns the price in whole units.
pub fn whole_price(price: &Ratio) -> i64
    ensures { IsRoundedEven (num_of price.now) (den_of price.now) result }
{
    price.round_even()
}

/// Returns the fraction in hundredths, or `None` if their number does not fit.
pub fn hundredths(x: &Ratio) -> Option<i64>
    ensures { MatchOption result
        (¬ (EachFits (FitsSigned w64) (IsRoundedEven (num_of x.now *ℤ pos 100) (den_of x.now))))
        (IsRoundedEven (num_of x.now *ℤ pos 100) (den_of x.now)) }
{
    x.round_even_times(100)
}

/// Returns the price of an amount of units, of which each has this price, or `None` if it does not fit.
#[tactic(auto, using(ratio64::proofs::ForCallers::times_passed_on))]
pub fn price_of_units(unit_price: &Ratio, units: i64) -> Option<i64>
    ensures { AnswersWhere
        (EachFits (FitsSigned w64) (IsRoundedEven (num_of unit_price.now *ℤ units) (den_of unit_price.now)))
        (IsRoundedEven (num_of unit_price.now *ℤ units) (den_of unit_price.now)) result }
{
    let price = unit_price.round_even_times(units)?;
    Some(price)
}

/// Returns the price in whole cents, or an error if its parts do not fit.
pub fn nearest_cents(price: &Ratio) -> Result<Ratio, RatioError>
    ensures { AnswersInParts (IsRoundedEven (num_of price.now *ℤ pos 100) (den_of price.now)) (pos 100) result }
{
    price.round_even_to(100)
}

/// Returns the units and the places of a fraction with so many places, or `None` if these are more than 18.
pub fn units_and_places(x: &Ratio, places: u32) -> Option<(i128, u32)>
    ensures { AnswersWhere (places ≤ 18)
        (λ p. IsRoundedEven (num_of x.now *ℤ pos (10 ^ places)) (den_of x.now) p.0 × (p.1 ≡ places)) result }
{
    let decimal = x.to_decimal(places)?;
    Some((decimal.units(), decimal.places()))
}

/// Returns an amount of money, which has two places.
pub fn amount(x: &Ratio) -> Decimal
    ensures { IsDecimalOf (num_of x.now) (den_of x.now) 2 result }
{
    match x.to_decimal(2) {
        Some(amount) => amount,
        None => unreachable!("2 places are at most 18"),
    }
}

/// Returns the amount that a customer typed.
pub fn typed_amount(text: &str) -> Result<Decimal, ParseDecimalError>
    ensures { ReadsDecimal text.now result }
{
    let amount = text.parse::<Decimal>()?;
    Ok(amount)
}

/// Returns an amount of so many cents.
pub fn amount_of_cents(cents: i64) -> Decimal
    ensures units { units_of result ≡ cents }
    ensures places { places_of result ≡ 2 }
{
    match Decimal::new(i128::from(cents), 2) {
        Some(amount) => amount,
        None => unreachable!("64 bits fit"),
    }
}

/// Returns the fraction that is the amount.
pub fn fraction_of_amount(amount: &Decimal) -> Result<Ratio, RatioError>
    ensures { AnswersFraction (units_of amount.now) (pos (10 ^ places_of amount.now)) result }
{
    let fraction = amount.to_ratio()?;
    Ok(fraction)
}

/// Returns the price in whole cents if it has no smaller part.
pub fn exact_cents(price: &Ratio) -> Option<Decimal>
    ensures { AnswersWhere ((2 ≤ 18) × Divides (den_of price.now) (num_of price.now *ℤ pos (10 ^ 2)))
        (λ x. (places_of x ≡ 2) × (units_of x *ℤ den_of price.now ≡ num_of price.now *ℤ pos (10 ^ 2))) result }
{
    let cents = price.to_decimal_exactly(2)?;
    Some(cents)
}

/// Compares an amount with a limit.
pub fn against_limit(amount: &Decimal, limit: &Decimal) -> Ordering
    ensures { result ≡ int_cmp (quintillionths_of amount.now) (quintillionths_of limit.now) }
{
    amount.cmp(limit)
}

/// Returns the price with two decimals as a string of at least 9 characters, or an error, of which the contract says nothing.
pub fn price_tag(alloc: Global, price: &Ratio) -> Result<String<Global>, AllocError>
    ensures { IfOk result (λ tag. string_bytes tag ≡ padded_number (format_spec 32 0 0 9 2)
        (decimal_text (rounded_even (num_of price.now *ℤ pos 100) (den_of price.now)) 2)) }
{
    format!(in alloc; "{price:9.2}")
}

/// Returns the share with 20 decimals as a string on 30 characters, or an error, of which the contract says nothing.
pub fn long_share(alloc: Global, share: &Ratio) -> Result<String<Global>, AllocError>
    ensures { IfOk result (λ text. string_bytes text ≡ padded_number (format_spec 32 0 0 30 20)
        (decimal_text (rounded_even (num_of share.now *ℤ pos (10 ^ 20)) (den_of share.now)) 20)) }
{
    format!(in alloc; "{share:30.20}")
}
