//! Functions that call `ratio64`.

ghost use Rattle.std.specs.Prelude.{◌≡◌, ◌≢◌, ◌↔◌, ◌⊎◌, ◌<◌, ◌≤◌, ◌<ℤ◌, ◌≤ℤ◌, ◌+ℤ◌, ◌*ℤ◌, ◌^◌, Err, FitsSigned, IfErr, IfOk, IsOk, MatchOption, Ok, neg_ℤ, pos, take, unsigned_abs, ℕ, ℤ};
ghost use Rattle.std.specs.Int.{int_signum, w64};
ghost use Rattle.num_integer.specs.Division.{IsCeiled, IsFloored, IsQuotient, IsRemainder, IsTruncated};
ghost use Rattle.num_integer.specs.Divisors.{IsGreatestCommonDivisor};
ghost use Rattle.num_integer.specs.Range.{EachFits};
ghost use Rattle.num_integer.specs.Rounding.{IsNearest, IsNearestEven};
ghost use Rattle.ratio64.specs.Fraction.{IsExact, IsFraction, IsOutsideI64, IsReduced};
ghost use Rattle.ratio64.specs.Limiting.{AreNearestParts, IsNearestWithin};
ghost use Rattle.ratio64.specs.Ratio.{AnswersFraction, den_of, num_of};
ghost use Rattle.ratio64.specs.Rounding.{AnswersInParts, IsRounded, IsRoundedEven};
ghost use Rattle.ratio64.specs.declared.fraction.Ratio.{Ratio};
ghost use Rattle.callers.specs.Sums.{sum_of};

use num_integer::{div_round, div_round_even};
use ratio64::{ParseRatioError, Ratio, RatioError};
use std::alloc::{AllocError, Global};

/// The result of parsing a fraction.
type ParseResult = Result<Ratio, ParseRatioError>;

// ---- what a caller can prove from the contracts

/// Returns the fraction 1 / `parts`, which always fits.
pub fn unit_fraction(parts: u32) -> Ratio
    requires { parts ≢ 0 }
    ensures { IsExact (pos 1) (pos parts) (num_of result) (den_of result) }
{
    Ratio::new(1, i64::from(parts)).unwrap()
}

/// `gear_pair(314159, 100000, 120)` is `(355, 113)`. Returns the nearest pair to `num / den` in lowest terms, with at most
/// `max_teeth` teeth on the second gear.
pub fn gear_pair(num: i64, den: i64, max_teeth: i64) -> (i64, i64)
    requires den { pos 0 <ℤ den }
    requires teeth { pos 0 <ℤ max_teeth }
    ensures reduced { IsReduced result.0 result.1 }
    ensures nearest { IsNearestWithin num den max_teeth result.0 result.1 }
{
    let ratio = Ratio::new(num, den).unwrap().limit_denominator(max_teeth);
    (ratio.num(), ratio.den())
}

/// `gears(314159, 100000, 120)` is `(22, 7)`. Returns the nearest pair to `num / den` in lowest terms, with at most `max_teeth`
/// teeth on each gear.
pub fn gears(num: i64, den: i64, max_teeth: i64) -> (i64, i64)
    requires den { pos 0 <ℤ den }
    requires teeth { pos 0 <ℤ max_teeth }
    ensures reduced { IsReduced result.0 result.1 }
    ensures nearest { AreNearestParts num den max_teeth result.0 result.1 }
{
    gears_of(&Ratio::new(num, den).unwrap(), max_teeth)
}

// ---- results as a caller uses them, with no proof file

/// Returns the nearest pair of gears to a ratio, with at most `max_teeth` teeth on each.
pub fn gears_of(ratio: &Ratio, max_teeth: i64) -> (i64, i64)
    requires { pos 0 <ℤ max_teeth }
    ensures reduced { IsReduced result.0 result.1 }
    ensures nearest { AreNearestParts (num_of ratio.now) (den_of ratio.now) max_teeth result.0 result.1 }
    ensures first { result.0 ≤ℤ max_teeth }
    ensures second { result.1 ≤ℤ max_teeth }
{
    let nearest = ratio.limit_parts(max_teeth);
    (nearest.num(), nearest.den())
}

/// Returns the parts, the floor and the ceiling of 6 / -4: `Ok((-3, 2, -2, -1))`.
pub fn parts_floor_and_ceil_of_minus_three_halves() -> Result<(i64, i64, i64, i64), RatioError>
    ensures parts { IfOk result (λ r. IsExact (pos 6) (neg_ℤ (pos 4)) r.0 r.1) }
    ensures floor { IfOk result (λ r. IsQuotient IsFloored r.0 r.1 r.2) }
    ensures ceil { IfOk result (λ r. IsQuotient IsCeiled r.0 r.1 r.3) }
    ensures outside { IfErr result (λ _. IsOutsideI64 (pos 6) (neg_ℤ (pos 4))) }
{
    let x = Ratio::new(6, -4)?; // -3/2
    Ok((x.num(), x.den(), x.floor(), x.ceil())) // (-3, 2, -2, -1)
}

/// Adds three fractions. `?` passes each error on, which is never `ZeroDenominator`. It is `NotFitting` if a part of the
/// sum of the first two does not fit, or of the sum of all three.
pub fn sum_of_three(x: &Ratio, y: &Ratio, z: &Ratio) -> Result<Ratio, RatioError>
    ensures outside { IsOutsideI64 (num_of x.now *ℤ den_of y.now +ℤ num_of y.now *ℤ den_of x.now)
        (den_of x.now *ℤ den_of y.now) → result ≡ Err RatioError.NotFitting }
    ensures inside { ¬ (IsOutsideI64 (num_of x.now *ℤ den_of y.now +ℤ num_of y.now *ℤ den_of x.now)
        (den_of x.now *ℤ den_of y.now)) → AnswersFraction
        ((num_of x.now *ℤ den_of y.now +ℤ num_of y.now *ℤ den_of x.now) *ℤ den_of z.now
        +ℤ num_of z.now *ℤ (den_of x.now *ℤ den_of y.now))
        (den_of x.now *ℤ den_of y.now *ℤ den_of z.now) result }
    ensures error { result ≢ Err RatioError.ZeroDenominator }
{
    x.checked_add(y)?.checked_add(z)
}

/// Returns 1 if the denominator is 0, 2 if a part of the exact result does not fit, and 0 if there is no error.
pub fn error_number(num: i64, den: i64) -> u32
    ensures zero { (result ≡ 1) ↔ (den ≡ pos 0) }
    ensures outside { (result ≡ 2) ↔ IsOutsideI64 num den }
    ensures at_most { result ≤ 2 }
{
    match Ratio::new(num, den) {
        Ok(_) => 0,
        Err(RatioError::ZeroDenominator) => 1,
        Err(RatioError::NotFitting) => 2,
    }
}

/// Returns the quotient, or 0 if the divisor is 0. Returns an error if the quotient does not fit.
pub fn quotient_or_zero(x: &Ratio, y: &Ratio) -> Result<Ratio, RatioError>
    ensures quotient { num_of y.now ≢ pos 0 → AnswersFraction (num_of x.now *ℤ den_of y.now)
        (num_of y.now *ℤ den_of x.now) result }
    ensures zero { num_of y.now ≡ pos 0
        → ((zero : Ratio) × (result ≡ Ok zero) × (num_of zero ≡ pos 0)) }
    ensures error { result ≢ Err RatioError.ZeroDenominator }
{
    match x.checked_div(y) {
        Err(RatioError::ZeroDenominator) => Ok(Ratio::zero()),
        other => other,
    }
}

/// Adds the fractions one after the other. `?` passes each error on, which is never `ZeroDenominator`. It is an error only if
/// a part of the sum of the first `k` fractions does not fit, for some `k`.
pub fn total(fractions: &[Ratio]) -> Result<Ratio, RatioError>
    ensures sum { IfOk result (λ total. IsExact (sum_of fractions.now).0 (sum_of fractions.now).1
        (num_of total) (den_of total)) }
    ensures outside { IfErr result (λ _. (k : ℕ)
        × IsOutsideI64 (sum_of (take k fractions.now)).0 (sum_of (take k fractions.now)).1) }
    ensures error { result ≢ Err RatioError.ZeroDenominator }
{
    let mut total = Ratio::zero();
    for fraction in fractions {
        total = total.checked_add(fraction)?;
    }
    Ok(total)
}

/// Parses the string, and returns 0 in place of the error `NotAFraction`. The contract says only that it never returns
/// that error.
pub fn parse_or_zero(text: &str) -> Result<Ratio, ParseRatioError>
    ensures { result ≢ Err ParseRatioError.NotAFraction }
{
    match text.parse::<Ratio>() {
        Err(ParseRatioError::NotAFraction) => Ok(Ratio::zero()),
        parsed => parsed,
    }
}

// ---- calls of which some error cannot occur

/// Returns the negation of a fraction whose numerator is greater than `i64::MIN`.
pub fn negation_above_min(x: &Ratio) -> Ratio
    requires { neg_ℤ (pos (2 ^ 63)) <ℤ num_of x.now }
    ensures { IsExact (neg_ℤ (num_of x.now)) (den_of x.now) (num_of result) (den_of result) }
{
    match x.checked_neg() {
        Ok(negation) => negation,
        Err(_) => unreachable!("the numerator is greater than MIN"),
    }
}

/// Returns the magnitude of a fraction whose numerator is greater than `i64::MIN`. It is not an error.
pub fn magnitude_above_min(x: &Ratio) -> Result<Ratio, RatioError>
    requires { neg_ℤ (pos (2 ^ 63)) <ℤ num_of x.now }
    ensures ok { IsOk result }
    ensures magnitude { AnswersFraction (pos (unsigned_abs (num_of x.now))) (den_of x.now) result }
{
    let magnitude = x.checked_abs()?;
    Ok(magnitude)
}

/// Returns the reciprocal of the fraction, or 0 if the fraction is not positive.
pub fn reciprocal_or_zero(x: &Ratio) -> Ratio
    ensures reciprocal { pos 0 <ℤ num_of x.now
        → IsExact (den_of x.now) (num_of x.now) (num_of result) (den_of result) }
    ensures zero { ¬ (pos 0 <ℤ num_of x.now) → num_of result ≡ pos 0 }
{
    if !x.is_positive() {
        return Ratio::zero();
    }
    match x.checked_recip() {
        Ok(reciprocal) => reciprocal,
        Err(_) => unreachable!("the numerator is positive"),
    }
}

/// Returns the fraction `hundredths` / 100.
pub fn percent(hundredths: i64) -> Ratio
    ensures { IsExact hundredths (pos 100) (num_of result) (den_of result) }
{
    match Ratio::new(hundredths, 100) {
        Ok(percent) => percent,
        Err(_) => unreachable!("the denominator is positive"),
    }
}

/// Scales an amount of a recipe for `servings` persons to `persons`. Returns an error if the exact result does not
/// fit.
pub fn scale(amount: Ratio, persons: i64, servings: i64) -> Result<Ratio, RatioError>
    requires { pos 0 <ℤ servings }
    ensures { AnswersFraction (num_of amount *ℤ persons) (den_of amount *ℤ servings) result }
{
    let share = Ratio::new(persons, servings).unwrap();
    amount.checked_mul(&share)
}

/// Returns the aspect ratio of a screen in lowest terms.
pub fn aspect_ratio(width: u32, height: u32) -> Ratio
    requires { 0 < height }
    ensures same_ratio { num_of result *ℤ pos height ≡ pos width *ℤ den_of result }
    ensures lowest { IsGreatestCommonDivisor (num_of result) (den_of result) (pos 1) }
{
    Ratio::new(i64::from(width), i64::from(height)).unwrap()
}

// ---- integers times a fraction

/// Returns the share of an amount, rounded down and rounded up, or `None` if one of the two does not fit.
pub fn share_rounded_both_ways(share: &Ratio, amount: i64) -> Option<(i64, i64)>
    ensures { MatchOption result
        (¬ (EachFits (FitsSigned w64) (IsQuotient IsFloored (num_of share.now *ℤ amount) (den_of share.now))
        × EachFits (FitsSigned w64) (IsQuotient IsCeiled (num_of share.now *ℤ amount) (den_of share.now))))
        (λ p. IsQuotient IsFloored (num_of share.now *ℤ amount) (den_of share.now) p.0
        × IsQuotient IsCeiled (num_of share.now *ℤ amount) (den_of share.now) p.1) }
{
    match (share.floor_times(amount), share.ceil_times(amount)) {
        (Some(rounded_down), Some(rounded_up)) => Some((rounded_down, rounded_up)),
        _ => None,
    }
}

/// Returns a price with its tax, which is rounded, or `None` if the tax or the sum does not fit. The tax is the price
/// times the rate.
#[tactic(auto, using(ratio64::proofs::ForCallers::first_does_not_fit))]
pub fn with_tax(price: i64, rate: &Ratio) -> Option<i64>
    ensures { MatchOption result
        ((¬ (EachFits (FitsSigned w64) (IsRounded (num_of rate.now *ℤ price) (den_of rate.now))))
        ⊎ ((tax : ℤ) × IsRounded (num_of rate.now *ℤ price) (den_of rate.now) tax
        × ¬ (FitsSigned w64 (price +ℤ tax))))
        (λ total. (tax : ℤ) × IsRounded (num_of rate.now *ℤ price) (den_of rate.now) tax
        × (total ≡ price +ℤ tax)) }
{
    let tax = rate.round_times(price)?;
    price.checked_add(tax)
}

// ---- fractions, rounded

/// Returns the whole part of a fraction, which is rounded toward 0, and the rest.
pub fn whole_and_rest(x: &Ratio) -> (i64, Ratio)
    ensures whole { IsQuotient IsTruncated (num_of x.now) (den_of x.now) result.0 }
    ensures num { IsRemainder IsTruncated (num_of x.now) (den_of x.now) (num_of result.1) }
    ensures den { den_of result.1 ≡ den_of x.now }
{
    (x.trunc(), x.fract())
}

/// Returns the nearest integer and the sign of a fraction.
pub fn nearest_and_sign(x: &Ratio) -> (i64, i64)
    ensures nearest { IsRounded (num_of x.now) (den_of x.now) result.0 }
    ensures sign { result.1 ≡ int_signum (num_of x.now) }
{
    (x.round(), x.signum().num())
}

/// Returns the nearest integers, with a half away from 0 and with a half to the even one, in the words of `div_round` and
/// `div_round_even`: these are the roundings of the parts.
pub fn nearest_quotients(x: &Ratio) -> (i64, i64)
    ensures nearest { IsQuotient IsNearest (num_of x.now) (den_of x.now) result.0 }
    ensures nearest_even { IsQuotient IsNearestEven (num_of x.now) (den_of x.now) result.1 }
{
    (x.round(), x.round_even())
}

/// Returns the nearest integers to the fraction `num / den`, in the words of `Ratio::round` and `Ratio::round_even`.
pub fn rounded_parts(num: i64, den: i64) -> (i64, i64)
    requires { pos 0 <ℤ den }
    ensures rounded { IsRounded num den result.0 }
    ensures rounded_even { IsRoundedEven num den result.1 }
{
    (div_round(num, den), rounded_even(num, den))
}

/// Returns the nearest integer to the fraction `num / den`, and of two equally near the even one.
pub fn rounded_even(num: i64, den: i64) -> i64
    requires { pos 0 <ℤ den }
    ensures { IsRoundedEven num den result }
{
    div_round_even(num, den)
}

/// Returns a price in whole cents: the fraction rounded down to hundredths. Returns an error if its parts do not fit.
pub fn whole_cents(price: &Ratio) -> Result<Ratio, RatioError>
    ensures { AnswersInParts (IsQuotient IsFloored (num_of price.now *ℤ pos 100) (den_of price.now))
        (pos 100) result }
{
    price.floor_to(100)
}

/// Returns the nearest number of tenths. Returns an error if its parts do not fit.
pub fn nearest_tenths(x: &Ratio) -> Result<Ratio, RatioError>
    ensures { AnswersInParts (IsRounded (num_of x.now *ℤ pos 10) (den_of x.now)) (pos 10) result }
{
    x.round_to(10)
}

/// Returns the sum of `a / b` and `c / d`, or an error. The contract does not say when it is an error.
pub fn sum_of_new(a: i64, b: i64, c: i64, d: i64) -> Result<Ratio, RatioError>
    requires first { IsFraction a b }
    requires second { IsFraction c d }
    ensures { IfOk result (λ x. IsExact (a *ℤ d +ℤ c *ℤ b) (b *ℤ d) (num_of x) (den_of x)) }
{
    Ratio::new(a, b)?.checked_add(&Ratio::new(c, d)?)
}

/// Returns the product of `a / b` and `c / d`, or an error. The contract does not say when it is an error.
pub fn product_of_new(a: i64, b: i64, c: i64, d: i64) -> Result<Ratio, RatioError>
    requires first { IsFraction a b }
    requires second { IsFraction c d }
    ensures { IfOk result (λ x. IsExact (a *ℤ c) (b *ℤ d) (num_of x) (den_of x)) }
{
    Ratio::new(a, b)?.checked_mul(&Ratio::new(c, d)?)
}

/// Returns the parts of the fraction and the result of parsing its string. The contract says only that a parsed
/// fraction is the fraction.
pub fn print_and_parse(alloc: Global, x: &Ratio) -> Result<(i64, i64, ParseResult), AllocError>
    ensures { IfOk result (λ r. r.2 ≡ Ok x.now) }
{
    let (num, den) = (x.num(), x.den());
    let text = x.to_string(alloc)?;
    Ok((num, den, text.as_str().parse()))
}
