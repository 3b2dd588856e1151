//! The calls of this crate at every modulus: each is `None` if a modulus is not positive, and has no other condition.
//! `power_modulo` returns the power of `counted::power_modulo_counted`. `checked::sum_modulo(5, 4, 7)` is `Some(2)`, and
//! `checked::sum_modulo(5, 4, 0)` is `None`.

ghost use Rattle.std.specs.Prelude.{◌≡◌, ◌<ℤ◌, ◌+ℤ◌, ◌-ℤ◌, ◌*ℤ◌, ℤ, neg_ℤ, pos, IfSome, MatchBool, MatchOption};
ghost use Rattle.std.specs.Int.{int_pow};
ghost use Rattle.std.specs.List.{All};
ghost use Rattle.modular.specs.CommonSolutions.{AnswersCongruent, MatchCommonSolution, MatchWhere};
ghost use Rattle.modular.specs.Congruences.{IsCountOfCongruent, IsInverse, IsNextCommonSolution, IsNextCongruent, IsPreviousCongruent, IsQuotientModulo, IsReducedModulus, IsResidue, IsResidueClass, Solves, SolvesBothCongruences, SolvesEach};
ghost use Rattle.num_integer.specs.Checked.{AnswersWhere, FitsWith};
ghost use Rattle.num_integer.specs.Divisors.{IsLeastCommonMultiple};
ghost use Rattle.num_integer.specs.Least.{IsLeastFrom};
ghost use Rattle.num_integer.specs.Only.{IsOnly};
ghost use Rattle.num_integer.specs.Range.{EachFits};

use crate::common_solutions::CommonSolution;
use crate::congruent_numbers::Congruence;
use crate::products::Modular;
use num_integer::operators::{is_below, zero};
use num_integer::{Fits, Integer};

/// Returns [`residue`](crate::residue), or `None` if `m` is not positive. `residue(-3, 7)` is `Some(4)`, and
/// `residue(-3, 0)` is `None`.
pub fn residue<T: Integer + Copy>(a: T, m: T) -> Option<T>
    requires in_range { T.fits (T.value a) × T.fits (T.value m) }
    ensures { AnswersWhere (pos 0 <ℤ T.value m)
        (FitsWith T.fits T.value (IsResidue (T.value m) (T.value a))) result }
{
    Some(crate::residue(a, positive(m)?))
}

/// Returns [`sum_modulo`](crate::sum_modulo), or `None` if `m` is not positive. `sum_modulo(5, 4, 7)` is `Some(2)`, and
/// `sum_modulo(5, 4, -7)` is `None`.
pub fn sum_modulo<T: Integer + Copy>(a: T, b: T, m: T) -> Option<T>
    requires in_range { T.fits (T.value a) × T.fits (T.value b) × T.fits (T.value m) }
    ensures { AnswersWhere (pos 0 <ℤ T.value m)
        (FitsWith T.fits T.value (IsResidue (T.value m) (T.value a +ℤ T.value b))) result }
{
    Some(crate::sum_modulo(a, b, positive(m)?))
}

/// Returns [`difference_modulo`](crate::difference_modulo), or `None` if `m` is not positive.
/// `difference_modulo(2, 5, 7)` is `Some(4)`, and `difference_modulo(2, 5, 0)` is `None`.
pub fn difference_modulo<T: Integer + Copy>(a: T, b: T, m: T) -> Option<T>
    requires in_range { T.fits (T.value a) × T.fits (T.value b) × T.fits (T.value m) }
    ensures { AnswersWhere (pos 0 <ℤ T.value m)
        (FitsWith T.fits T.value (IsResidue (T.value m) (T.value a -ℤ T.value b))) result }
{
    Some(crate::difference_modulo(a, b, positive(m)?))
}

/// Returns [`negation_modulo`](crate::negation_modulo), or `None` if `m` is not positive. `negation_modulo(2, 7)` is
/// `Some(5)`, and `negation_modulo(2, 0)` is `None`.
pub fn negation_modulo<T: Integer + Copy>(a: T, m: T) -> Option<T>
    requires in_range { T.fits (T.value a) × T.fits (T.value m) }
    ensures { AnswersWhere (pos 0 <ℤ T.value m)
        (FitsWith T.fits T.value (IsResidue (T.value m) (neg_ℤ (T.value a)))) result }
{
    Some(crate::negation_modulo(a, positive(m)?))
}

/// Returns [`product_modulo`](crate::product_modulo), or `None` if `m` is not positive. `product_modulo(4, 5, 7)` is
/// `Some(6)`, and `product_modulo(4, 5, 0)` is `None`.
pub fn product_modulo<T: Modular>(a: T, b: T, m: T) -> Option<T>
    requires in_range { T.fits (T.value a) × T.fits (T.value b) × T.fits (T.value m) }
    ensures { AnswersWhere (pos 0 <ℤ T.value m)
        (FitsWith T.fits T.value (IsResidue (T.value m) (T.value a *ℤ T.value b))) result }
{
    Some(crate::product_modulo(a, b, positive(m)?))
}

/// Returns [`power_modulo`](crate::power_modulo), or `None` if `m` is not positive. `power_modulo(3, 4, 7)` is
/// `Some(4)`, and `power_modulo(3, 4, 0)` is `None`.
pub fn power_modulo<T: Modular>(a: T, exponent: u128, m: T) -> Option<T>
    requires in_range { T.fits (T.value a) × T.fits (T.value m) }
    ensures { AnswersWhere (pos 0 <ℤ T.value m)
        (FitsWith T.fits T.value (IsResidue (T.value m) (int_pow (T.value a) exponent))) result }
{
    Some(crate::power_modulo(a, exponent, positive(m)?))
}

/// Returns [`inverse_modulo`](crate::inverse_modulo), or `None` if `m` is not positive or there is no inverse.
/// `inverse_modulo(3, 7)` is `Some(5)`, and `inverse_modulo(3, 0)` is `None`.
pub fn inverse_modulo<T: Integer + Copy>(a: T, m: T) -> Option<T>
    requires in_range { T.fits (T.value a) × T.fits (T.value m) }
    ensures { MatchOption result ((x : ℤ) → ¬ (IsInverse (T.value a) (T.value m) x))
        (FitsWith T.fits T.value (IsInverse (T.value a) (T.value m))) }
{
    crate::inverse_modulo(a, positive(m)?)
}

/// Returns [`quotient_modulo`](crate::quotient_modulo), or `None` if `m` is not positive or `b` has no inverse.
/// `quotient_modulo(2, 3, 7)` is `Some(3)`, and `quotient_modulo(2, 3, 0)` is `None`.
pub fn quotient_modulo<T: Modular>(a: T, b: T, m: T) -> Option<T>
    requires in_range { T.fits (T.value a) × T.fits (T.value b) × T.fits (T.value m) }
    ensures answer { MatchOption result ((x : ℤ) → ¬ (IsInverse (T.value b) (T.value m) x))
        (FitsWith T.fits T.value (IsQuotientModulo (T.value a) (T.value b) (T.value m))) }
    ensures only { IfSome result (λ x. IsOnly (IsQuotientModulo (T.value a) (T.value b) (T.value m))
        (T.value x)) }
{
    crate::quotient_modulo(a, b, positive(m)?)
}

/// Returns [`solutions`](crate::solutions), or `None` if `m` is not positive or there is no solution.
/// `solutions(6, 4, 10)` is `Some((4, 5))`, and `solutions(6, 4, 0)` is `None`.
pub fn solutions<T: Modular>(a: T, b: T, m: T) -> Option<(T, T)>
    requires in_range { T.fits (T.value a) × T.fits (T.value b) × T.fits (T.value m) }
    ensures { MatchWhere (pos 0 <ℤ T.value m) result
        ((x : ℤ) → ¬ (Solves (T.value a) (T.value b) (T.value m) x))
        (λ s. T.fits (T.value s.0) × T.fits (T.value s.1)
        × IsResidueClass (Solves (T.value a) (T.value b) (T.value m)) (T.value s.0) (T.value s.1)
        × IsReducedModulus (T.value a) (T.value m) (T.value s.1)) }
{
    crate::solutions(a, b, positive(m)?)
}

/// Returns [`next_congruent`](crate::next_congruent), or `None` if `modulus` is not positive or the number does not fit.
/// `next_congruent(10, 1, 4)` is `Some(13)`, and `next_congruent(10, 1, 0)` is `None`.
pub fn next_congruent<T: Fits>(from: T, residue: T, modulus: T) -> Option<T>
    requires in_range { T.fits (T.value from) × T.fits (T.value residue) × T.fits (T.value modulus) }
    ensures { AnswersCongruent T.fits T.value IsNextCongruent from residue modulus result }
{
    crate::next_congruent(from, residue, positive(modulus)?)
}

/// Returns [`previous_congruent`](crate::previous_congruent), or `None` if `modulus` is not positive or the number does not
/// fit. `previous_congruent(10, 1, 4)` is `Some(9)`, and `previous_congruent(10, 1, 0)` is `None`.
pub fn previous_congruent<T: Fits>(to: T, residue: T, modulus: T) -> Option<T>
    requires in_range { T.fits (T.value to) × T.fits (T.value residue) × T.fits (T.value modulus) }
    ensures { AnswersCongruent T.fits T.value IsPreviousCongruent to residue modulus result }
{
    crate::previous_congruent(to, residue, positive(modulus)?)
}

/// Returns [`count_congruent`](crate::count_congruent), or `None` if `modulus` is not positive or the count does not fit.
/// `count_congruent(1, 10, 1, 4)` is `Some(3)`, and `count_congruent(1, 10, 1, 0)` is `None`.
pub fn count_congruent<T: Fits>(from: T, to: T, residue: T, modulus: T) -> Option<T>
    requires in_range { T.fits (T.value from) × T.fits (T.value to) × T.fits (T.value residue)
        × T.fits (T.value modulus) }
    ensures { MatchWhere (pos 0 <ℤ T.value modulus) result
        ((n : ℤ) × IsCountOfCongruent (T.value from) (T.value to) (T.value residue) (T.value modulus) n
        × ¬ (T.fits n))
        (FitsWith T.fits T.value (IsCountOfCongruent (T.value from) (T.value to) (T.value residue)
        (T.value modulus))) }
{
    crate::count_congruent(from, to, residue, positive(modulus)?)
}

/// Returns [`chinese_remainder`](crate::chinese_remainder), or `None` if a modulus is not positive, if the least common
/// multiple of the moduli does not fit, or if there is no such number. `chinese_remainder((1, 4).into(), (3, 6).into())`
/// is `Some((9, 12).into())`, and `chinese_remainder((1, 4).into(), (3, 0).into())` is `None`.
pub fn chinese_remainder<T: Modular + Fits>(
    a: Congruence<T>,
    b: Congruence<T>,
) -> Option<Congruence<T>>
    requires in_range { T.fits (T.value a.residue) × T.fits (T.value a.modulus)
        × T.fits (T.value b.residue) × T.fits (T.value b.modulus) }
    ensures { MatchWhere ((pos 0 <ℤ T.value a.modulus) × (pos 0 <ℤ T.value b.modulus)
        × EachFits T.fits (IsLeastCommonMultiple (T.value a.modulus) (T.value b.modulus))) result
        ((x : ℤ) → ¬ (SolvesBothCongruences (T.value a.residue) (T.value a.modulus)
        (T.value b.residue) (T.value b.modulus) x))
        (λ c. T.fits (T.value c.residue) × T.fits (T.value c.modulus)
        × IsResidueClass (SolvesBothCongruences (T.value a.residue) (T.value a.modulus)
        (T.value b.residue) (T.value b.modulus)) (T.value c.residue) (T.value c.modulus)) }
{
    if is_positive(a.modulus) && is_positive(b.modulus) && a.modulus.lcm_fits(&b.modulus) {
        crate::chinese_remainder(a, b)
    } else {
        None
    }
}

/// Returns [`next_common_solution`](crate::next_common_solution), or `None` if a modulus is not positive.
/// `next_common_solution(10, (1, 4).into(), (3, 6).into())` is `Some(CommonSolution::At(21))`, and
/// `next_common_solution(10, (1, 0).into(), (3, 6).into())` is `None`.
pub fn next_common_solution<T: Modular + Fits>(
    from: T,
    a: Congruence<T>,
    b: Congruence<T>,
) -> Option<CommonSolution<T>>
    requires from_in_range { T.fits (T.value from) }
    requires in_range { T.fits (T.value a.residue) × T.fits (T.value a.modulus)
        × T.fits (T.value b.residue) × T.fits (T.value b.modulus) }
    ensures { AnswersWhere ((pos 0 <ℤ T.value a.modulus) × (pos 0 <ℤ T.value b.modulus))
        (λ s. MatchCommonSolution s
        ((x : ℤ) → ¬ (SolvesBothCongruences (T.value a.residue) (T.value a.modulus)
        (T.value b.residue) (T.value b.modulus) x))
        ((t : ℤ) × IsNextCommonSolution (T.value from) (T.value a.residue) (T.value a.modulus)
        (T.value b.residue) (T.value b.modulus) t × ¬ (T.fits t))
        (FitsWith T.fits T.value (IsNextCommonSolution (T.value from) (T.value a.residue)
        (T.value a.modulus) (T.value b.residue) (T.value b.modulus))))
        result }
{
    if is_positive(a.modulus) && is_positive(b.modulus) {
        Some(crate::next_common_solution(from, a, b))
    } else {
        None
    }
}

/// Returns [`next_common_solution_of`](crate::next_common_solution_of), or `None` if a modulus is not positive.
/// `next_common_solution_of(10, &[(1, 4).into(), (3, 6).into(), (0, 7).into()])` is `Some(CommonSolution::At(21))`, and
/// `next_common_solution_of(10, &[(1, 4).into(), (3, 0).into()])` is `None`.
///
/// In Rattle, a function that passes on a slice of its own parameters asks its callers for `in_range` too.
pub fn next_common_solution_of<T: Modular + Fits>(
    from: T,
    congruences: &[Congruence<T>],
) -> Option<CommonSolution<T>>
    requires from_in_range { T.fits (T.value from) }
    requires in_range { All (λ c. T.fits (T.value c.residue) × T.fits (T.value c.modulus)) congruences.now }
    ensures { AnswersWhere (All (λ c. pos 0 <ℤ T.value c.modulus) congruences.now)
        (λ s. MatchCommonSolution s
        ((x : ℤ) → ¬ (SolvesEach T.value congruences.now x))
        ((t : ℤ) × IsLeastFrom (T.value from) (SolvesEach T.value congruences.now) t
        × ¬ (T.fits t))
        (FitsWith T.fits T.value (IsLeastFrom (T.value from) (SolvesEach T.value congruences.now))))
        result }
{
    if are_positive(congruences) {
        Some(crate::next_common_solution_of(from, congruences))
    } else {
        None
    }
}

/// Returns `true` if each modulus is positive.
fn are_positive<T: Integer + Copy>(congruences: &[Congruence<T>]) -> bool
    requires { All (λ c. T.fits (T.value c.residue) × T.fits (T.value c.modulus)) congruences.now }
    ensures { MatchBool result (All (λ c. pos 0 <ℤ T.value c.modulus) congruences.now)
        (¬ (All (λ c. pos 0 <ℤ T.value c.modulus) congruences.now)) }
{
    for congruence in congruences {
        if !is_positive(congruence.modulus) {
            return false;
        }
    }
    true
}

/// Returns the modulus, or `None` if it is not positive.
fn positive<T: Integer + Copy>(m: T) -> Option<T>
    requires { T.fits (T.value m) }
    ensures { MatchOption result (¬ (pos 0 <ℤ T.value m)) (λ x. (x ≡ m) × (pos 0 <ℤ T.value m)) }
{
    if is_positive(m) { Some(m) } else { None }
}

/// Returns `true` if the modulus is positive.
fn is_positive<T: Integer>(m: T) -> bool
    requires { T.fits (T.value m) }
    ensures { MatchBool result (pos 0 <ℤ T.value m) (¬ (pos 0 <ℤ T.value m)) }
{
    is_below(zero(), m)
}
