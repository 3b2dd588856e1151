//! The outcome of a call at a kind.

ghost use Rattle.std.specs.Prelude.{◌↔◌, IsTrue};
ghost use Rattle.num_integer.specs.Narrowing.{Narrows};
ghost use Rattle.intcalc_core.specs.Outcome.{IsMadeAt, Outcome, OutcomeIn};

mod calls_on_integers;
mod fractions;
mod operand;

use crate::calls::{Answer, Call, Kind, Refusal};
use num_integer::{Average, Roots};
use operand::{Operand, narrow, narrow_both};
use std::num::TryFromIntError;

/// Returns the answer of the call at the kind, or the reason why it has no answer.
/// `evaluate(Kind::I64, Call::DivModFloor(-8, 3))` is `Ok(Answer::Two(-3, 1))`, and
/// `evaluate(Kind::U8, Call::Gcd(256, 0))` is `Err(Refusal::OutOfType)`.
pub fn evaluate(kind: Kind, call: Call) -> Result<Answer, Refusal>
    ensures { Outcome kind call result }
{
    if !is_made_at(kind, &call) {
        return Err(Refusal::OutOfType);
    }
    match kind {
        Kind::I8 => evaluate_at::<i8>(call),
        Kind::U8 => evaluate_at::<u8>(call),
        Kind::I64 => evaluate_at::<i64>(call),
        Kind::U64 => evaluate_at::<u64>(call),
    }
}

/// Returns whether the call exists at the kind: a call on fractions exists only at `i64`.
fn is_made_at(kind: Kind, call: &Call) -> bool
    ensures { IsTrue result ↔ IsMadeAt kind call.now }
{
    match call {
        Call::RatioAdd(..) | Call::RatioMul(..) => matches!(kind, Kind::I64),
        _ => true,
    }
}

/// Returns the answer of a call at the type of a kind. The parts of fractions are `i64` at every kind.
fn evaluate_at<T: Average + Roots + Operand + TryFrom<i128, Error = TryFromIntError>>(
    call: Call,
) -> Result<Answer, Refusal>
    requires { Narrows T.value T.fits T.try_from_gives }
    ensures { OutcomeIn T.fits call result }
{
    match call {
        Call::DivRem(n, d) => calls_on_integers::div_rem::<T>(narrow_both(n, d)?),
        Call::DivModFloor(n, d) => calls_on_integers::div_mod_floor::<T>(narrow_both(n, d)?),
        Call::DivFloor(n, d) => calls_on_integers::div_floor::<T>(narrow_both(n, d)?),
        Call::DivCeil(n, d) => calls_on_integers::div_ceil::<T>(narrow_both(n, d)?),
        Call::ModFloor(n, d) => calls_on_integers::mod_floor::<T>(narrow_both(n, d)?),
        Call::NextMultipleOf(n, d) => calls_on_integers::next_multiple_of::<T>(narrow_both(n, d)?),
        Call::PrevMultipleOf(n, d) => calls_on_integers::prev_multiple_of::<T>(narrow_both(n, d)?),
        Call::IsMultipleOf(n, d) => calls_on_integers::is_multiple_of::<T>(narrow_both(n, d)?),
        Call::Gcd(a, b) => calls_on_integers::gcd::<T>(narrow_both(a, b)?),
        Call::Lcm(a, b) => calls_on_integers::lcm::<T>(narrow_both(a, b)?),
        Call::GcdLcm(a, b) => calls_on_integers::gcd_lcm::<T>(narrow_both(a, b)?),
        Call::ExtendedGcd(a, b) => calls_on_integers::extended_gcd::<T>(narrow_both(a, b)?),
        Call::AverageFloor(a, b) => calls_on_integers::average_floor::<T>(narrow_both(a, b)?),
        Call::AverageCeil(a, b) => calls_on_integers::average_ceil::<T>(narrow_both(a, b)?),
        Call::Sqrt(x) => calls_on_integers::sqrt::<T>(narrow(x)?),
        Call::Cbrt(x) => calls_on_integers::cbrt::<T>(narrow(x)?),
        Call::NthRoot(x, n) => calls_on_integers::nth_root::<T>(narrow(x)?, narrow(n)?),
        Call::Binomial(n, k) => calls_on_integers::binomial::<T>(narrow_both(n, k)?),
        Call::RatioAdd(a, b, c, d) => fractions::ratio_add::<T>(a, b, c, d),
        Call::RatioMul(a, b, c, d) => fractions::ratio_mul::<T>(a, b, c, d),
    }
}
