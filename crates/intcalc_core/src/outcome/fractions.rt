//! Sums and products of fractions.

ghost use Rattle.std.specs.Prelude.{◌≡◌, Ok, Err, MatchResult};
ghost use Rattle.ratio64.specs.Fraction.{IsFraction, IsOutsideI64};
ghost use Rattle.ratio64.specs.Ratio.{num_of, den_of};
ghost use Rattle.intcalc_core.specs.declared.calls.Answer.TheVariants as answers;
ghost use Rattle.intcalc_core.specs.declared.calls.Call.TheVariants as calls;
ghost use Rattle.intcalc_core.specs.declared.calls.Refusal.TheVariants as refusals;
ghost use Rattle.intcalc_core.specs.Fractions.{IsRatioOf};
ghost use Rattle.intcalc_core.specs.Outcome.{NeedsFractions, NeedsParts, OutcomeIn, PartsFit};

use crate::calls::{Answer, Refusal};
use crate::outcome::operand::narrow_both;
use num_integer::Integer;
use ratio64::{Ratio, RatioError};

/// Returns the numerator and the denominator of `a / b + c / d`, which are `i64` at each type `T`.
pub(crate) fn ratio_add<T: Integer>(a: i128, b: i128, c: i128, d: i128) -> Result<Answer, Refusal>
    ensures { OutcomeIn T.fits (calls.RatioAdd a b c d) result }
{
    let (x, y) = operands(a, b, c, d)?;
    parts(x.checked_add(&y))
}

/// Returns the numerator and the denominator of `a / b * c / d`, which are `i64` at each type `T`.
pub(crate) fn ratio_mul<T: Integer>(a: i128, b: i128, c: i128, d: i128) -> Result<Answer, Refusal>
    ensures { OutcomeIn T.fits (calls.RatioMul a b c d) result }
{
    let (x, y) = operands(a, b, c, d)?;
    parts(x.checked_mul(&y))
}

/// Returns the fractions `a / b` and `c / d`, or `OutOfType` if a part does not fit in `i64`.
fn operands(a: i128, b: i128, c: i128, d: i128) -> Result<(Ratio, Ratio), Refusal>
    ensures { MatchResult result (λ (x, y). PartsFit a b c d × IsRatioOf a b x × IsRatioOf c d y)
        (λ refusal. NeedsParts a b c d (λ _. ⊥) (Err refusal)) }
{
    let (a, b) = narrow_both(a, b)?;
    let (c, d) = narrow_both(c, d)?;
    fractions(a, b, c, d)
}

/// Returns the fractions `a / b` and `c / d`, or `ZeroDivisor`, or `NotFitting`.
fn fractions(a: i64, b: i64, c: i64, d: i64) -> Result<(Ratio, Ratio), Refusal>
    ensures { MatchResult result (λ (x, y). IsRatioOf a b x × IsRatioOf c d y)
        (λ refusal. NeedsFractions a b c d (λ _. ⊥) (Err refusal)) }
{
    if b == 0 || d == 0 {
        return Err(Refusal::ZeroDivisor);
    }
    Ok((fraction(a, b)?, fraction(c, d)?))
}

/// Returns the fraction `num / den`, or `NotFitting` if its lowest terms do not fit.
fn fraction(num: i64, den: i64) -> Result<Ratio, Refusal>
    requires { IsFraction num den }
    ensures { MatchResult result (IsRatioOf num den)
        (λ refusal. (refusal ≡ refusals.NotFitting) × IsOutsideI64 num den) }
{
    Ratio::new(num, den).or(Err(Refusal::NotFitting))
}

/// Returns the two parts of a fraction, or `NotFitting`.
fn parts(answer: Result<Ratio, RatioError>) -> Result<Answer, Refusal>
    ensures { MatchResult answer (λ x. result ≡ Ok (answers.Two (num_of x) (den_of x)))
        (λ _. result ≡ Err refusals.NotFitting) }
{
    match answer {
        Ok(x) => Ok(Answer::Two(i128::from(x.num()), i128::from(x.den()))),
        Err(_) => Err(Refusal::NotFitting),
    }
}
