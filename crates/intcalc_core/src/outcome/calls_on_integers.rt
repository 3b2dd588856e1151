//! One function for each call on integers, as the table `OutcomeOfFitting` lists them: it tests what the call
//! needs, in the order of the table, and then makes the call of the library.
#![tactic(auto, unfolding(crate::specs::Outcome::OutcomeOfFitting))]

ghost use Rattle.std.specs.Prelude.{◌≡◌, ◌≢◌, pos, MatchResult};
ghost use Rattle.intcalc_core.specs.declared.calls.Call.TheVariants as calls;
ghost use Rattle.intcalc_core.specs.declared.calls.Refusal.TheVariants as refusals;
ghost use Rattle.intcalc_core.specs.Outcome.{OutcomeOfFitting};

use crate::calls::{Answer, Refusal};
use crate::outcome::operand::{Operand, is_from_zero, three, two, widen};
use num_integer::operators::is_zero;
use num_integer::{Average, Integer, Roots};

pub(crate) fn div_rem<T: Operand>(pair: (T, T)) -> Result<Answer, Refusal>
    requires { T.fits (T.value pair.0) × T.fits (T.value pair.1) }
    ensures { OutcomeOfFitting T.fits (calls.DivRem (T.value pair.0) (T.value pair.1)) result }
{
    let (n, d) = pair;
    check_divisor(d)?;
    if !n.quotient_fits(&d) {
        return Err(Refusal::NotFitting);
    }
    Ok(two(n.div_rem(&d)))
}

pub(crate) fn div_mod_floor<T: Operand>(pair: (T, T)) -> Result<Answer, Refusal>
    requires { T.fits (T.value pair.0) × T.fits (T.value pair.1) }
    ensures { OutcomeOfFitting T.fits (calls.DivModFloor (T.value pair.0) (T.value pair.1)) result }
{
    let (n, d) = pair;
    check_divisor(d)?;
    if !n.quotient_fits(&d) {
        return Err(Refusal::NotFitting);
    }
    Ok(two(n.div_mod_floor(&d)))
}

pub(crate) fn div_floor<T: Operand>(pair: (T, T)) -> Result<Answer, Refusal>
    requires { T.fits (T.value pair.0) × T.fits (T.value pair.1) }
    ensures { OutcomeOfFitting T.fits (calls.DivFloor (T.value pair.0) (T.value pair.1)) result }
{
    let (n, d) = pair;
    check_divisor(d)?;
    if !n.quotient_fits(&d) {
        return Err(Refusal::NotFitting);
    }
    Ok(Answer::One(widen(n.div_floor(&d))))
}

pub(crate) fn div_ceil<T: Operand>(pair: (T, T)) -> Result<Answer, Refusal>
    requires { T.fits (T.value pair.0) × T.fits (T.value pair.1) }
    ensures { OutcomeOfFitting T.fits (calls.DivCeil (T.value pair.0) (T.value pair.1)) result }
{
    let (n, d) = pair;
    check_divisor(d)?;
    if !n.quotient_fits(&d) {
        return Err(Refusal::NotFitting);
    }
    Ok(Answer::One(widen(n.div_ceil(&d))))
}

pub(crate) fn mod_floor<T: Operand>(pair: (T, T)) -> Result<Answer, Refusal>
    requires { T.fits (T.value pair.0) × T.fits (T.value pair.1) }
    ensures { OutcomeOfFitting T.fits (calls.ModFloor (T.value pair.0) (T.value pair.1)) result }
{
    let (n, d) = pair;
    check_divisor(d)?;
    Ok(Answer::One(widen(n.mod_floor(&d))))
}

pub(crate) fn next_multiple_of<T: Operand>(pair: (T, T)) -> Result<Answer, Refusal>
    requires { T.fits (T.value pair.0) × T.fits (T.value pair.1) }
    ensures { OutcomeOfFitting T.fits (calls.NextMultipleOf (T.value pair.0) (T.value pair.1)) result }
{
    let (n, d) = pair;
    check_divisor(d)?;
    if !n.next_multiple_fits(&d) {
        return Err(Refusal::NotFitting);
    }
    Ok(Answer::One(widen(n.next_multiple_of(&d))))
}

pub(crate) fn prev_multiple_of<T: Operand>(pair: (T, T)) -> Result<Answer, Refusal>
    requires { T.fits (T.value pair.0) × T.fits (T.value pair.1) }
    ensures { OutcomeOfFitting T.fits (calls.PrevMultipleOf (T.value pair.0) (T.value pair.1)) result }
{
    let (n, d) = pair;
    check_divisor(d)?;
    if !n.prev_multiple_fits(&d) {
        return Err(Refusal::NotFitting);
    }
    Ok(Answer::One(widen(n.prev_multiple_of(&d))))
}

pub(crate) fn is_multiple_of<T: Integer>(pair: (T, T)) -> Result<Answer, Refusal>
    requires { T.fits (T.value pair.0) × T.fits (T.value pair.1) }
    ensures { OutcomeOfFitting T.fits (calls.IsMultipleOf (T.value pair.0) (T.value pair.1)) result }
{
    let (n, d) = pair;
    Ok(Answer::Truth(n.is_multiple_of(&d)))
}

pub(crate) fn gcd<T: Operand>(pair: (T, T)) -> Result<Answer, Refusal>
    requires { T.fits (T.value pair.0) × T.fits (T.value pair.1) }
    ensures { OutcomeOfFitting T.fits (calls.Gcd (T.value pair.0) (T.value pair.1)) result }
{
    let (a, b) = pair;
    if !a.gcd_fits(&b) {
        return Err(Refusal::NotFitting);
    }
    Ok(Answer::One(widen(a.gcd(&b))))
}

pub(crate) fn lcm<T: Operand>(pair: (T, T)) -> Result<Answer, Refusal>
    requires { T.fits (T.value pair.0) × T.fits (T.value pair.1) }
    ensures { OutcomeOfFitting T.fits (calls.Lcm (T.value pair.0) (T.value pair.1)) result }
{
    let (a, b) = pair;
    if !a.lcm_fits(&b) {
        return Err(Refusal::NotFitting);
    }
    Ok(Answer::One(widen(a.lcm(&b))))
}

pub(crate) fn gcd_lcm<T: Operand>(pair: (T, T)) -> Result<Answer, Refusal>
    requires { T.fits (T.value pair.0) × T.fits (T.value pair.1) }
    ensures { OutcomeOfFitting T.fits (calls.GcdLcm (T.value pair.0) (T.value pair.1)) result }
{
    let (a, b) = pair;
    if !a.gcd_fits(&b) {
        return Err(Refusal::NotFitting);
    }
    if !a.lcm_fits(&b) {
        return Err(Refusal::NotFitting);
    }
    Ok(two(a.gcd_lcm(&b)))
}

pub(crate) fn extended_gcd<T: Operand>(pair: (T, T)) -> Result<Answer, Refusal>
    requires { T.fits (T.value pair.0) × T.fits (T.value pair.1) }
    ensures { OutcomeOfFitting T.fits (calls.ExtendedGcd (T.value pair.0) (T.value pair.1)) result }
{
    let (a, b) = pair;
    if !a.gcd_fits(&b) {
        return Err(Refusal::NotFitting);
    }
    if !a.pair_fits(&b) {
        return Err(Refusal::NoPair);
    }
    let bezout = a.extended_gcd(&b);
    Ok(three(bezout.gcd, bezout.x, bezout.y))
}

pub(crate) fn average_floor<T: Average + Operand>(pair: (T, T)) -> Result<Answer, Refusal>
    requires { T.fits (T.value pair.0) × T.fits (T.value pair.1) }
    ensures { OutcomeOfFitting T.fits (calls.AverageFloor (T.value pair.0) (T.value pair.1)) result }
{
    let (a, b) = pair;
    Ok(Answer::One(widen(a.average_floor(&b))))
}

pub(crate) fn average_ceil<T: Average + Operand>(pair: (T, T)) -> Result<Answer, Refusal>
    requires { T.fits (T.value pair.0) × T.fits (T.value pair.1) }
    ensures { OutcomeOfFitting T.fits (calls.AverageCeil (T.value pair.0) (T.value pair.1)) result }
{
    let (a, b) = pair;
    Ok(Answer::One(widen(a.average_ceil(&b))))
}

pub(crate) fn sqrt<T: Roots + Operand>(x: T) -> Result<Answer, Refusal>
    requires in_range { T.fits (T.value x) }
    ensures { OutcomeOfFitting T.fits (calls.Sqrt (T.value x)) result }
{
    if !is_from_zero(x) {
        return Err(Refusal::NegativeRoot);
    }
    Ok(Answer::One(widen(x.sqrt())))
}

pub(crate) fn cbrt<T: Roots + Operand>(x: T) -> Result<Answer, Refusal>
    requires in_range { T.fits (T.value x) }
    ensures { OutcomeOfFitting T.fits (calls.Cbrt (T.value x)) result }
{
    Ok(Answer::One(widen(x.cbrt())))
}

pub(crate) fn nth_root<T: Roots + Operand>(x: T, n: u32) -> Result<Answer, Refusal>
    requires in_range { T.fits (T.value x) }
    ensures { OutcomeOfFitting T.fits (calls.NthRoot (T.value x) (pos n)) result }
{
    if n == 0 {
        return Err(Refusal::ZeroDegree);
    }
    if n % 2 == 0 && !is_from_zero(x) {
        return Err(Refusal::NegativeRoot);
    }
    Ok(Answer::One(widen(x.nth_root(n))))
}

pub(crate) fn binomial<T: Operand>(pair: (T, T)) -> Result<Answer, Refusal>
    requires { T.fits (T.value pair.0) × T.fits (T.value pair.1) }
    ensures { OutcomeOfFitting T.fits (calls.Binomial (T.value pair.0) (T.value pair.1)) result }
{
    let (n, k) = pair;
    if !is_from_zero(n) || !is_from_zero(k) {
        return Err(Refusal::NegativeCount);
    }
    if !n.binomial_fits(&k) {
        return Err(Refusal::NotFitting);
    }
    Ok(Answer::One(widen(num_integer::binomial(n, k))))
}

/// Returns `ZeroDivisor` if the divisor is 0.
fn check_divisor<T: Integer>(d: T) -> Result<(), Refusal>
    requires { T.fits (T.value d) }
    ensures { MatchResult result (λ _. T.value d ≢ pos 0) (λ refusal. (refusal ≡ refusals.ZeroDivisor) × (T.value d ≡ pos 0)) }
{
    if is_zero(d) {
        Err(Refusal::ZeroDivisor)
    } else {
        Ok(())
    }
}
