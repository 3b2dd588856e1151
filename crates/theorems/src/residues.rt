//! What is proved of `modular` beside the main theorems.

ghost use Rattle.std.specs.Prelude.{◌≡◌, ◌⊎◌, ◌<ℤ◌, All, FitsSigned, IsTrue, MatchOption, Some, pos, ℤ};
ghost use Rattle.std.specs.Int.{w64};
ghost use Rattle.modular.specs.Congruences.{IsInverse, IsNextCommonSolution, IsNextCongruent, IsPreviousCongruent, IsQuotientModulo, IsResidueClass, Solves, SolvesBothCongruences, SolvesEach};
ghost use Rattle.modular.specs.declared.common_solutions.CommonSolution.TheVariants.{At};
ghost use Rattle.num_integer.specs.Divisors.{IsLeastCommonMultiple};
ghost use Rattle.num_integer.specs.Least.{IsLeastFrom};
ghost use Rattle.num_integer.specs.Range.{EachFits};

use modular::{
    CommonSolution, Congruence, chinese_remainder, inverse_modulo, next_common_solution,
    next_common_solution_of, next_congruent, previous_congruent, quotient_modulo, residue,
    solutions,
};
use num_integer::Fits;

// ---- results that are known in advance

/// Returns `true`: the residue of a residue is that residue. The contract also holds of a body that makes no call. The
/// theorem is that these calls meet it.
pub fn residue_is_idempotent(a: i64, m: i64) -> bool
    requires { pos 0 <ℤ m }
    ensures { IsTrue result }
{
    residue(residue(a, m), m) == residue(a, m)
}

/// Returns `known`, which `inverse_modulo` finds, since `a` has one inverse modulo `m`. The contract also holds of a body
/// that makes no call. The theorem is that this call meets it.
pub fn inverse_is_unique(a: i64, m: i64, known: i64) -> Option<i64>
    requires positive { pos 0 <ℤ m }
    requires inverse { IsInverse a m known }
    ensures { result ≡ Some known }
{
    match inverse_modulo(a, m) {
        Some(found) => Some(found),
        None => None,
    }
}

/// Returns `known`, which `quotient_modulo` finds, since the quotient by a number that has an inverse is unique. The
/// contract also holds of a body that makes no call. The theorem is that this call meets it.
pub fn quotient_is_unique(a: i64, b: i64, m: i64, inverse: i64, known: i64) -> Option<i64>
    requires positive { pos 0 <ℤ m }
    requires inverse { IsInverse b m inverse }
    requires quotient { IsQuotientModulo a b m known }
    ensures { result ≡ Some known }
{
    match quotient_modulo(a, b, m) {
        Some(found) => Some(found),
        None => None,
    }
}

/// Returns the first solution and the step that are known. `solutions` finds them, since the residue class of the
/// solutions is unique. The contract also holds of a body that makes no call. The theorem is that this call meets it.
pub fn solution_class_is_unique(a: i64, b: i64, m: i64, first: i64, step: i64) -> Option<(i64, i64)>
    requires positive { pos 0 <ℤ m }
    requires class { IsResidueClass (Solves a b m) first step }
    ensures { result ≡ Some (first, step) }
{
    solutions(a, b, m)
}

/// Returns `known`, which `next_congruent` finds, since the next congruent number is unique. The contract also holds of a
/// body that makes no call. The theorem is that this call meets it.
pub fn next_congruent_is_unique(from: i64, first: i64, step: i64, known: i64) -> Option<i64>
    requires positive { pos 0 <ℤ step }
    requires next { IsNextCongruent from first step known }
    ensures { result ≡ Some known }
{
    next_congruent(from, first, step)
}

/// Returns `known`, which `previous_congruent` finds, since the previous congruent number is unique. The contract also
/// holds of a body that makes no call. The theorem is that this call meets it.
pub fn previous_congruent_is_unique(to: i64, first: i64, step: i64, known: i64) -> Option<i64>
    requires positive { pos 0 <ℤ step }
    requires previous { IsPreviousCongruent to first step known }
    ensures { result ≡ Some known }
{
    previous_congruent(to, first, step)
}

/// Returns `At(known)`: the next number that solves two congruences is unique. The contract also holds of a body that makes
/// no call. The theorem is that this call meets it.
#[tactic(auto, using(std::proofs::lemmas::Int::wraps))]
pub fn next_common_solution_is_unique(
    from: i64,
    a: Congruence<i64>,
    b: Congruence<i64>,
    known: i64,
) -> CommonSolution<i64>
    requires positive { (pos 0 <ℤ a.modulus) × (pos 0 <ℤ b.modulus) }
    requires next { IsNextCommonSolution from a.residue a.modulus b.residue b.modulus known }
    ensures { result ≡ At known }
{
    next_common_solution(from, a, b)
}

// ---- congruences

/// Returns the numbers that solve both congruences, as a congruence. Returns `None` if there is no common solution or
/// the least common multiple of the moduli does not fit.
pub fn common_residue_class(a: Congruence<i64>, b: Congruence<i64>) -> Option<Congruence<i64>>
    requires a_positive { pos 0 <ℤ a.modulus }
    requires b_positive { pos 0 <ℤ b.modulus }
    ensures { MatchOption result
        ((¬ (EachFits (FitsSigned w64) (IsLeastCommonMultiple a.modulus b.modulus)))
        ⊎ ((x : ℤ) → ¬ (SolvesBothCongruences a.residue a.modulus b.residue b.modulus x)))
        (λ c. IsResidueClass (SolvesBothCongruences a.residue a.modulus b.residue b.modulus) c.residue c.modulus) }
{
    if a.modulus.lcm_fits(&b.modulus) {
        let class = chinese_remainder(a, b)?;
        Some(class)
    } else {
        None
    }
}

/// Returns the next number that solves each of the congruences, or `None` if no such number is in range.
pub fn next_solution_of_each(from: i64, congruences: &[Congruence<i64>]) -> Option<i64>
    requires in_range { All (λ c. FitsSigned w64 c.residue × FitsSigned w64 c.modulus) congruences.now }
    requires positive { All (λ c. pos 0 <ℤ c.modulus) congruences.now }
    ensures { MatchOption result
        ((t : ℤ) → IsLeastFrom from (SolvesEach (λ x. x) congruences.now) t
        → ¬ (FitsSigned w64 t))
        (λ t. IsLeastFrom from (SolvesEach (λ x. x) congruences.now) t) }
{
    match next_common_solution_of(from, congruences) {
        CommonSolution::At(t) => Some(t),
        CommonSolution::Beyond | CommonSolution::Never => None,
    }
}
