//! Numbers that solve one or two congruences, and congruent numbers from one on, up to another or
//! between two.

ghost use Rattle.std.specs.Prelude.{◌≡◌, ◌⊎◌, ◌↔◌, ◌<ℤ◌, ◌≤ℤ◌, ℕ, ℤ, pos, FitsSigned, IsTrue, MatchOption};
ghost use Rattle.std.specs.Int.{FitsUnsignedBits, w64};
ghost use Rattle.modular.specs.CommonSolutions.{MatchCommonSolution};
ghost use Rattle.modular.specs.Congruences.{IsCountOfCongruent, IsNextCommonSolution, IsNextCongruent, IsPreviousCongruent, IsReducedModulus, IsResidueClass, Solves, SolvesBothCongruences};
ghost use Rattle.num_integer.specs.Divisors.{IsLeastCommonMultiple};
ghost use Rattle.num_integer.specs.Range.{EachFits};
ghost use Rattle.cellarcove_c.specs.Answers.{Refuses};
ghost use Rattle.cellarcove_c.specs.Congruences.{AnswersModulo, I64Congruent, IsBeyond, IsClassOfBoth, IsNever, IsReasonOfCongruences, U64Congruent};
ghost use Rattle.cellarcove_c.specs.Statuses.{StatusIsOneOf, answer_of, bad_modulus, common_solution_of, no_solution, not_fitting};

use crate::answers::{
    BAD_MODULUS, I64Answer, NO_SOLUTION, NOT_FITTING, U64Answer, common_with_status, with_status,
};
use crate::modulo::reason_for_modulus;
use modular::{
    CommonSolution, Congruence, Modular, checked, chinese_remainder, next_common_solution,
    solutions,
};
use num_integer::operators::{is_below, zero};
use num_integer::{Fits, Integer};

/// A status, and solutions: the first that is not negative, and the step from each to the next.
#[repr(C)]
#[derive(Clone, Copy)]
pub struct I64Solutions {
    pub status: u32,
    pub first: i64,
    pub step: i64,
}

/// A status, and solutions: the first that is not negative, and the step from each to the next.
#[repr(C)]
#[derive(Clone, Copy)]
pub struct U64Solutions {
    pub status: u32,
    pub first: u64,
    pub step: u64,
}

/// Returns the numbers that times `a` are `b` modulo `m`. For 6, 4 and 10 they are 4 and those in steps
/// of 5 from it.
///
/// `BAD_MODULUS` if `m` is not positive. `NO_SOLUTION` if there is no such number.
#[unsafe(no_mangle)]
pub extern "C" fn cellarcove_solutions_i64(a: i64, b: i64, m: i64) -> I64Solutions
    ensures { AnswersModulo {A = ℤ × ℤ} m no_solution (IsNever (Solves a b m))
        (λ (first, step). IsResidueClass (Solves a b m) first step × IsReducedModulus a m step)
        (pos 0, pos 0) result.status (result.first, result.step) }
{
    let (status, (first, step)) = if m <= 0 {
        (BAD_MODULUS, (0, 0))
    } else {
        with_status(solutions(a, b, m), (0, 0), NO_SOLUTION)
    };
    I64Solutions {
        status,
        first,
        step,
    }
}

/// Returns the numbers that times `a` are `b` modulo `m`. For 6, 4 and 10 they are 4 and those in steps
/// of 5 from it.
///
/// `BAD_MODULUS` if `m` is 0. `NO_SOLUTION` if there is no such number.
#[unsafe(no_mangle)]
pub extern "C" fn cellarcove_solutions_u64(a: u64, b: u64, m: u64) -> U64Solutions
    ensures { AnswersModulo {A = ℕ × ℕ} (pos m) no_solution
        (IsNever (Solves (pos a) (pos b) (pos m)))
        (λ (first, step). IsResidueClass (Solves (pos a) (pos b) (pos m)) (pos first) (pos step)
        × IsReducedModulus (pos a) (pos m) (pos step))
        (0, 0) result.status (result.first, result.step) }
{
    let (status, (first, step)) = if m == 0 {
        (BAD_MODULUS, (0, 0))
    } else {
        with_status(solutions(a, b, m), (0, 0), NO_SOLUTION)
    };
    U64Solutions {
        status,
        first,
        step,
    }
}

/// Returns the numbers that are `a` modulo `m` and `b` modulo `n`. For 1, 4, 3 and 6 they are 9 and
/// those in steps of 12 from it.
///
/// `BAD_MODULUS` if `m` or `n` is not positive. `NO_SOLUTION` if there is no such number. `NOT_FITTING`
/// if there is one, and the step does not fit.
#[unsafe(no_mangle)]
pub extern "C" fn cellarcove_chinese_remainder_i64(a: i64, m: i64, b: i64, n: i64) -> I64Solutions
    ensures answer { (pos 0 <ℤ m) → (pos 0 <ℤ n)
        → EachFits (FitsSigned w64) (IsLeastCommonMultiple m n)
        → MatchOption (answer_of result.status (result.first, result.step))
        (IsNever (SolvesBothCongruences a m b n))
        (λ (first, step). IsResidueClass (SolvesBothCongruences a m b n) first step) }
    ensures bad_modulus { (result.status ≡ bad_modulus) ↔ ((m ≤ℤ pos 0) ⊎ (n ≤ℤ pos 0)) }
    ensures not_fitting { (result.status ≡ not_fitting) ↔ ((pos 0 <ℤ m) × (pos 0 <ℤ n)
        × (¬ (EachFits (FitsSigned w64) (IsLeastCommonMultiple m n)))
        × ((x : ℤ) × SolvesBothCongruences a m b n x)) }
    ensures no_solution { (result.status ≡ no_solution) ↔ ((pos 0 <ℤ m) × (pos 0 <ℤ n)
        × IsNever (SolvesBothCongruences a m b n)) }
    ensures refusal { Refuses {A = ℤ × ℤ} IsReasonOfCongruences (pos 0, pos 0)
        result.status (result.first, result.step) }
{
    let (status, class) = class_of_both(
        Congruence {
            residue: a,
            modulus: m,
        },
        Congruence {
            residue: b,
            modulus: n,
        },
        0,
    );
    I64Solutions {
        status,
        first: class.residue,
        step: class.modulus,
    }
}

/// Returns the numbers that are `a` modulo `m` and `b` modulo `n`. For 1, 4, 3 and 6 they are 9 and
/// those in steps of 12 from it.
///
/// `BAD_MODULUS` if `m` or `n` is 0. `NO_SOLUTION` if there is no such number. `NOT_FITTING` if there
/// is one, and the step does not fit.
#[unsafe(no_mangle)]
#[tactic(auto, using(crate::proofs::NumbersReadBack::read_back))]
pub extern "C" fn cellarcove_chinese_remainder_u64(a: u64, m: u64, b: u64, n: u64) -> U64Solutions
    ensures answer { (pos 0 <ℤ pos m) → (pos 0 <ℤ pos n)
        → EachFits (FitsUnsignedBits 64) (IsLeastCommonMultiple (pos m) (pos n))
        → MatchOption (answer_of result.status (result.first, result.step))
        (IsNever (SolvesBothCongruences (pos a) (pos m) (pos b) (pos n)))
        (λ (first, step). IsResidueClass (SolvesBothCongruences (pos a) (pos m) (pos b) (pos n))
        (pos first) (pos step)) }
    ensures bad_modulus { (result.status ≡ bad_modulus) ↔ ((pos m ≤ℤ pos 0) ⊎ (pos n ≤ℤ pos 0)) }
    ensures not_fitting { (result.status ≡ not_fitting) ↔ ((pos 0 <ℤ pos m) × (pos 0 <ℤ pos n)
        × (¬ (EachFits (FitsUnsignedBits 64) (IsLeastCommonMultiple (pos m) (pos n))))
        × ((x : ℤ) × SolvesBothCongruences (pos a) (pos m) (pos b) (pos n) x)) }
    ensures no_solution { (result.status ≡ no_solution) ↔ ((pos 0 <ℤ pos m) × (pos 0 <ℤ pos n)
        × IsNever (SolvesBothCongruences (pos a) (pos m) (pos b) (pos n))) }
    ensures refusal { Refuses {A = ℕ × ℕ} IsReasonOfCongruences (0, 0) result.status
        (result.first, result.step) }
{
    let (status, class) = class_of_both(
        Congruence {
            residue: a,
            modulus: m,
        },
        Congruence {
            residue: b,
            modulus: n,
        },
        0,
    );
    U64Solutions {
        status,
        first: class.residue,
        step: class.modulus,
    }
}

/// Returns the smallest number from `from` on that is `residue` modulo `modulus`. For 10, 1 and 4 it is 13.
///
/// `BAD_MODULUS` if `modulus` is not positive. `NOT_FITTING` if the number does not fit.
#[unsafe(no_mangle)]
pub extern "C" fn cellarcove_next_congruent_i64(from: i64, residue: i64, modulus: i64) -> I64Answer
    ensures { I64Congruent modulus (IsNextCongruent from residue modulus) result }
{
    I64Answer::of(
        checked::next_congruent(from, residue, modulus),
        reason_for_modulus(modulus > 0, NOT_FITTING),
    )
}

/// Returns the smallest number from `from` on that is `residue` modulo `modulus`. For 10, 1 and 4 it is 13.
///
/// `BAD_MODULUS` if `modulus` is 0. `NOT_FITTING` if the number does not fit.
#[unsafe(no_mangle)]
pub extern "C" fn cellarcove_next_congruent_u64(from: u64, residue: u64, modulus: u64) -> U64Answer
    ensures { U64Congruent (pos modulus) (IsNextCongruent (pos from) (pos residue) (pos modulus)) result }
{
    U64Answer::of(
        checked::next_congruent(from, residue, modulus),
        reason_for_modulus(modulus > 0, NOT_FITTING),
    )
}

/// Returns the largest number up to `to` that is `residue` modulo `modulus`. For 10, 1 and 4 it is 9.
///
/// `BAD_MODULUS` if `modulus` is not positive. `NOT_FITTING` if the number does not fit.
#[unsafe(no_mangle)]
pub extern "C" fn cellarcove_previous_congruent_i64(
    to: i64,
    residue: i64,
    modulus: i64,
) -> I64Answer
    ensures { I64Congruent modulus (IsPreviousCongruent to residue modulus) result }
{
    I64Answer::of(
        checked::previous_congruent(to, residue, modulus),
        reason_for_modulus(modulus > 0, NOT_FITTING),
    )
}

/// Returns the largest number up to `to` that is `residue` modulo `modulus`. For 10, 1 and 4 it is 9.
///
/// `BAD_MODULUS` if `modulus` is 0. `NOT_FITTING` if the number is negative.
#[unsafe(no_mangle)]
pub extern "C" fn cellarcove_previous_congruent_u64(
    to: u64,
    residue: u64,
    modulus: u64,
) -> U64Answer
    ensures { U64Congruent (pos modulus) (IsPreviousCongruent (pos to) (pos residue) (pos modulus)) result }
{
    U64Answer::of(
        checked::previous_congruent(to, residue, modulus),
        reason_for_modulus(modulus > 0, NOT_FITTING),
    )
}

/// Returns how many numbers from `from` to `to` are `residue` modulo `modulus`. For 1, 10, 1 and 4 it is 3.
///
/// `BAD_MODULUS` if `modulus` is not positive. `NOT_FITTING` if the count does not fit.
#[unsafe(no_mangle)]
pub extern "C" fn cellarcove_count_congruent_i64(
    from: i64,
    to: i64,
    residue: i64,
    modulus: i64,
) -> I64Answer
    ensures { I64Congruent modulus (IsCountOfCongruent from to residue modulus) result }
{
    I64Answer::of(
        checked::count_congruent(from, to, residue, modulus),
        reason_for_modulus(modulus > 0, NOT_FITTING),
    )
}

/// Returns how many numbers from `from` to `to` are `residue` modulo `modulus`. For 1, 10, 1 and 4 it is 3.
///
/// `BAD_MODULUS` if `modulus` is 0. `NOT_FITTING` if the count does not fit.
#[unsafe(no_mangle)]
pub extern "C" fn cellarcove_count_congruent_u64(
    from: u64,
    to: u64,
    residue: u64,
    modulus: u64,
) -> U64Answer
    ensures { U64Congruent (pos modulus)
        (IsCountOfCongruent (pos from) (pos to) (pos residue) (pos modulus)) result }
{
    U64Answer::of(
        checked::count_congruent(from, to, residue, modulus),
        reason_for_modulus(modulus > 0, NOT_FITTING),
    )
}

/// Returns the smallest number from `from` on that is `a` modulo `m` and `b` modulo `n`. The least
/// common multiple of `m` and `n` need not fit. For 10, 1, 4, 3 and 6 it is 21, and for 0, 1, 2^62 + 1, 1 and
/// 2^62 it is 1.
///
/// `BAD_MODULUS` if `m` or `n` is not positive. `NO_SOLUTION` if there is no such number. `NOT_FITTING`
/// if it does not fit.
#[unsafe(no_mangle)]
#[tactic(auto, using(crate::proofs::NumbersReadBack::read_back))]
pub extern "C" fn cellarcove_next_common_solution_i64(
    from: i64,
    a: i64,
    m: i64,
    b: i64,
    n: i64,
) -> I64Answer
    ensures answer { (pos 0 <ℤ m) → (pos 0 <ℤ n)
        → MatchCommonSolution (common_solution_of result.status result.value)
        (IsNever (SolvesBothCongruences a m b n))
        (IsBeyond (FitsSigned w64) (IsNextCommonSolution from a m b n))
        (IsNextCommonSolution from a m b n) }
    ensures bad_modulus { (result.status ≡ bad_modulus) ↔ ((m ≤ℤ pos 0) ⊎ (n ≤ℤ pos 0)) }
    ensures refusal { Refuses IsReasonOfCongruences (pos 0) result.status result.value }
{
    if m <= 0 || n <= 0 {
        return I64Answer::none(BAD_MODULUS);
    }
    let found = next_common_solution(from, (a, m).into(), (b, n).into());
    let (status, value) = common_with_status(found, 0);
    I64Answer { status, value }
}

/// Returns the smallest number from `from` on that is `a` modulo `m` and `b` modulo `n`. The least
/// common multiple of `m` and `n` need not fit. For 10, 1, 4, 3 and 6 it is 21, and for 0, 1, 2^62 + 1, 1 and
/// 2^62 it is 1.
///
/// `BAD_MODULUS` if `m` or `n` is 0. `NO_SOLUTION` if there is no such number. `NOT_FITTING` if it does
/// not fit.
#[unsafe(no_mangle)]
pub extern "C" fn cellarcove_next_common_solution_u64(
    from: u64,
    a: u64,
    m: u64,
    b: u64,
    n: u64,
) -> U64Answer
    ensures answer { (pos 0 <ℤ pos m) → (pos 0 <ℤ pos n)
        → MatchCommonSolution (common_solution_of result.status result.value)
        (IsNever (SolvesBothCongruences (pos a) (pos m) (pos b) (pos n)))
        (IsBeyond (FitsUnsignedBits 64)
        (IsNextCommonSolution (pos from) (pos a) (pos m) (pos b) (pos n)))
        (λ t. IsNextCommonSolution (pos from) (pos a) (pos m) (pos b) (pos n) (pos t)) }
    ensures bad_modulus { (result.status ≡ bad_modulus) ↔ ((pos m ≤ℤ pos 0) ⊎ (pos n ≤ℤ pos 0)) }
    ensures refusal { Refuses IsReasonOfCongruences 0 result.status result.value }
{
    if m == 0 || n == 0 {
        return U64Answer::none(BAD_MODULUS);
    }
    let found = next_common_solution(from, (a, m).into(), (b, n).into());
    let (status, value) = common_with_status(found, 0);
    U64Answer { status, value }
}

/// Returns the status of the numbers that solve both congruences, and the numbers as a congruence. If there is no result,
/// its residue and its modulus are `zero`. For 1 modulo 4 and 3 modulo 6 it returns 0 and 9 modulo 12.
fn class_of_both<T: Modular + Fits>(
    a: Congruence<T>,
    b: Congruence<T>,
    zero: T,
) -> (u32, Congruence<T>)
    requires in_range { T.fits (T.value a.residue) × T.fits (T.value a.modulus)
        × T.fits (T.value b.residue) × T.fits (T.value b.modulus) × T.fits (T.value zero) }
    ensures { IsClassOfBoth T.value T.fits (T.value a.residue) (T.value a.modulus)
        (T.value b.residue) (T.value b.modulus) (zero, zero)
        result.0 (result.1.residue, result.1.modulus) }
{
    let none = Congruence {
        residue: zero,
        modulus: zero,
    };
    if !are_positive(a.modulus, b.modulus) {
        return (BAD_MODULUS, none);
    }
    if a.modulus.lcm_fits(&b.modulus) {
        with_status(chinese_remainder(a, b), none, NO_SOLUTION)
    } else {
        (reason_for_congruences(a, b), none)
    }
}

/// Returns `true` if both moduli are positive.
fn are_positive<T: Integer>(m: T, n: T) -> bool
    ensures { IsTrue result ↔ ((pos 0 <ℤ T.value m) × (pos 0 <ℤ T.value n)) }
{
    is_below(zero(), m) && is_below(zero(), n)
}

/// Returns why two congruences have no class of solutions, if the least common multiple of their moduli
/// does not fit.
fn reason_for_congruences<T: Modular + Fits>(a: Congruence<T>, b: Congruence<T>) -> u32
    requires in_range { T.fits (T.value a.residue) × T.fits (T.value a.modulus)
        × T.fits (T.value b.residue) × T.fits (T.value b.modulus) }
    requires a_positive { pos 0 <ℤ T.value a.modulus }
    requires b_positive { pos 0 <ℤ T.value b.modulus }
    ensures not_fitting { (result ≡ not_fitting)
        ↔ ((x : ℤ) × SolvesBothCongruences (T.value a.residue) (T.value a.modulus)
        (T.value b.residue) (T.value b.modulus) x) }
    ensures no_solution { (result ≡ no_solution)
        ↔ IsNever (SolvesBothCongruences (T.value a.residue) (T.value a.modulus)
        (T.value b.residue) (T.value b.modulus)) }
    ensures refusal { StatusIsOneOf not_fitting no_solution result }
{
    match next_common_solution(zero(), a, b) {
        CommonSolution::Never => NO_SOLUTION,
        _ => NOT_FITTING,
    }
}
