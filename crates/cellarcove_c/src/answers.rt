//! Results with a status.

ghost use Rattle.std.specs.Prelude.{◌≡◌, ◌≢◌, pos};
ghost use Rattle.cellarcove_c.specs.Answers.{Refuses};
ghost use Rattle.cellarcove_c.specs.Statuses.{StatusIsOneOf, StatusIs, answer_of, common_solution_of, no_solution, not_fitting};

use modular::CommonSolution;

/// There is a result.
pub const ANSWER: u32 = 0;

/// The denominator of a fraction is 0, or a divisor of fractions is.
pub const ZERO_DENOMINATOR: u32 = 1;

/// The result does not fit its type, or a part of a fraction, once reduced, does not.
pub const NOT_FITTING: u32 = 2;

/// Nothing is defined for the arguments, such as a quotient by 0.
pub const OUTSIDE: u32 = 3;

/// No number solves the congruences.
pub const NO_SOLUTION: u32 = 4;

/// A modulus is not positive.
pub const BAD_MODULUS: u32 = 5;

/// There is no such date.
pub const NO_DATE: u32 = 6;

/// A status, and a number.
#[repr(C)]
#[derive(Clone, Copy)]
pub struct I64Answer {
    pub status: u32,
    pub value: i64,
}

/// A status, and a number.
#[repr(C)]
#[derive(Clone, Copy)]
pub struct U64Answer {
    pub status: u32,
    pub value: u64,
}

/// Returns the status and the value of a result: 0 and its value, or the reason and `zeros` if there is no
/// result. Those of `Some(14)` are 0 and 14.
pub(crate) fn with_status<T: Copy>(option: Option<T>, zeros: T, reason: u32) -> (u32, T)
    requires { reason ≢ 0 }
    ensures answer { answer_of result.0 result.1 ≡ option }
    ensures refusal { Refuses (StatusIs reason) zeros result.0 result.1 }
{
    match option {
        Some(value) => (ANSWER, value),
        None => (reason, zeros),
    }
}

/// Returns the status and the value of a common solution: 0 and the solution, or the reason and `zero` if
/// no number solves the congruences or the solution does not fit. Those of `Never` are 4 and `zero`.
pub(crate) fn common_with_status<T: Copy>(found: CommonSolution<T>, zero: T) -> (u32, T)
    ensures answer { common_solution_of result.0 result.1 ≡ found }
    ensures refusal { Refuses (StatusIsOneOf not_fitting no_solution) zero result.0 result.1 }
{
    match found {
        CommonSolution::At(solution) => (ANSWER, solution),
        CommonSolution::Beyond => (NOT_FITTING, zero),
        CommonSolution::Never => (NO_SOLUTION, zero),
    }
}

impl I64Answer {
    /// Returns the result of a call of `num_integer::checked`, or a rejection for a reason.
    pub(crate) fn of(option: Option<i64>, reason: u32) -> I64Answer
        requires { reason ≢ 0 }
        ensures answer { answer_of result.status result.value ≡ option }
        ensures refusal { Refuses (StatusIs reason) (pos 0) result.status result.value }
    {
        let (status, value) = with_status(option, 0, reason);
        I64Answer { status, value }
    }

    /// Returns a result.
    pub(crate) fn some(value: i64) -> I64Answer
        ensures { result ≡ record { status = 0; value = value } }
    {
        I64Answer {
            status: ANSWER,
            value,
        }
    }

    /// Returns a rejection.
    pub(crate) fn none(status: u32) -> I64Answer
        ensures { result ≡ record { status = status; value = pos 0 } }
    {
        I64Answer { status, value: 0 }
    }
}

impl U64Answer {
    /// Returns the result of a call of `num_integer::checked`, or a rejection for a reason.
    pub(crate) fn of(option: Option<u64>, reason: u32) -> U64Answer
        requires { reason ≢ 0 }
        ensures answer { answer_of result.status result.value ≡ option }
        ensures refusal { Refuses (StatusIs reason) 0 result.status result.value }
    {
        let (status, value) = with_status(option, 0, reason);
        U64Answer { status, value }
    }

    /// Returns a result.
    pub(crate) fn some(value: u64) -> U64Answer
        ensures { result ≡ record { status = 0; value = value } }
    {
        U64Answer {
            status: ANSWER,
            value,
        }
    }

    /// Returns a rejection.
    pub(crate) fn none(status: u32) -> U64Answer
        ensures { result ≡ record { status = status; value = 0 } }
    {
        U64Answer { status, value: 0 }
    }
}
