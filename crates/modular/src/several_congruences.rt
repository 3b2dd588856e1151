//! The next number that solves several congruences at once, even if no product of the moduli fits. Below
//! [`next_common_solution_of`], the functions take a slice of any items that have a congruence each, such as schedules.

ghost use Rattle.std.specs.Prelude.{◌≡◌, ◌↔◌, ◌<ℤ◌, ◌≤ℤ◌, ℤ, pos, IsTrue, MatchOption};
ghost use Rattle.std.specs.List.{All};
ghost use Rattle.modular.specs.Agreement.{AgreesWithEach};
ghost use Rattle.modular.specs.CommonSolutions.{MatchCommonSolution};
ghost use Rattle.modular.specs.Congruences.{IsSystem, SolvesBothCongruences, SolvesEach, SolvesEachItem};
ghost use Rattle.num_integer.specs.Checked.{FitsWith};
ghost use Rattle.num_integer.specs.Least.{IsLeastFrom};

use crate::common_solutions::{CommonSolution, chinese_remainder, next_common_solution};
use crate::congruent_numbers::Congruence;
use crate::guards::check_moduli;
use crate::products::Modular;
use crate::residue_classes::next_congruent;
use crate::residues::are_congruent;
use num_integer::operators::{one, zero};
use num_integer::{Fits, Integer, checked};

/// Returns the smallest number from `from` on that solves each congruence.
/// `next_common_solution_of(10, &[(1, 4).into(), (3, 6).into(), (0, 7).into()])` is `CommonSolution::At(21)`. No product
/// of the moduli has to fit: `next_common_solution_of(0u8, &[(1, 16).into(), (1, 17).into()])` is
/// `CommonSolution::At(1)`.
///
/// [`checked::next_common_solution_of`] returns `None` if the precondition does not hold.
///
/// In Rattle, a function that passes on a slice of its own parameters asks its callers for `in_range` too.
///
/// # Panics
///
/// In plain Rust, if a modulus is not positive.
pub fn next_common_solution_of<T: Modular + Fits>(
    from: T,
    congruences: &[Congruence<T>],
) -> CommonSolution<T>
    requires from_in_range { T.fits (T.value from) }
    requires in_range { All (λ c. T.fits (T.value c.residue) × T.fits (T.value c.modulus)) congruences.now }
    requires positive { All (λ c. pos 0 <ℤ T.value c.modulus) congruences.now }
    ensures { MatchCommonSolution result
        ((x : ℤ) → ¬ (SolvesEach T.value congruences.now x))
        ((t : ℤ) × IsLeastFrom (T.value from) (SolvesEach T.value congruences.now) t
        × ¬ (T.fits t))
        (FitsWith T.fits T.value (IsLeastFrom (T.value from) (SolvesEach T.value congruences.now))) }
{
    check_moduli(congruences, "a modulus is not positive");
    next_solution_of_each(from, congruences)
}

/// An item that has a congruence of integers of a type.
pub trait HasCongruence<T: Integer> {
    ghost residue_of: { Self → ℤ };

    ghost modulus_of: { Self → ℤ };

    /// Returns the congruence. That of the schedule with the first time 3 and the period 6 is 3 modulo 6.
    fn congruence(&self) -> Congruence<T>
        ensures residue { T.value result.residue ≡ residue_of self.now }
        ensures modulus { T.value result.modulus ≡ modulus_of self.now };
}

impl<T: Integer + Copy> HasCongruence<T> for Congruence<T> {
    ghost residue_of = { λ c. T.value c.residue };

    ghost modulus_of = { λ c. T.value c.modulus };

    fn congruence(&self) -> Congruence<T> {
        *self
    }
}

/// Returns the smallest number from `from` on that solves the congruence of each item. For 10, and the items 1 modulo 4,
/// 3 modulo 6 and 0 modulo 7, it is `At(21)`.
pub fn next_solution_of_each<T: Modular + Fits, C: HasCongruence<T>>(
    from: T,
    items: &[C],
) -> CommonSolution<T>
    requires from_in_range { T.fits (T.value from) }
    requires in_range { All (λ c. T.fits (C.residue_of c) × T.fits (C.modulus_of c)) items.now }
    requires positive { All (λ c. pos 0 <ℤ C.modulus_of c) items.now }
    ensures { MatchCommonSolution result
        ((x : ℤ) → ¬ (SolvesEachItem C.residue_of C.modulus_of items.now x))
        ((t : ℤ) × IsLeastFrom (T.value from) (SolvesEachItem C.residue_of C.modulus_of items.now) t
        × ¬ (T.fits t))
        (FitsWith T.fits T.value (IsLeastFrom (T.value from)
        (SolvesEachItem C.residue_of C.modulus_of items.now))) }
{
    match least_solution(from, items) {
        Some(solution) => CommonSolution::At(solution),
        None => {
            if agree_in_pairs(items) {
                CommonSolution::Beyond
            } else {
                CommonSolution::Never
            }
        }
    }
}

/// Returns the smallest solution from `from` on, or `None` if it does not fit. It combines the
/// congruences one by one into a residue class, until the step of the class no longer fits.
fn least_solution<T: Modular + Fits, C: HasCongruence<T>>(from: T, items: &[C]) -> Option<T>
    requires in_range { T.fits (T.value from) }
    requires system { IsSystem T.fits C.residue_of C.modulus_of items.now }
    ensures { MatchOption result
        ((t : ℤ) → T.value from ≤ℤ t → SolvesEachItem C.residue_of C.modulus_of items.now t
        → ¬ (T.fits t))
        (FitsWith T.fits T.value (IsLeastFrom (T.value from)
        (SolvesEachItem C.residue_of C.modulus_of items.now))) }
{
    let mut class: Congruence<T> = Congruence {
        residue: zero(),
        modulus: one(),
    };
    for item in items {
        let congruence = item.congruence();
        if !class.modulus.lcm_fits(&congruence.modulus) {
            return least_candidate(from, class, congruence, items);
        }
        class = chinese_remainder(class, congruence)?;
    }
    next_congruent(from, class.residue, class.modulus)
}

/// Returns [`least_solution`] if each solution solves these two congruences. Their step does not fit, so at most two
/// numbers of the type solve both.
fn least_candidate<T: Modular + Fits, C: HasCongruence<T>>(
    from: T,
    a: Congruence<T>,
    b: Congruence<T>,
    items: &[C],
) -> Option<T>
    requires in_range { T.fits (T.value from)
        × T.fits (T.value a.residue) × T.fits (T.value a.modulus)
        × T.fits (T.value b.residue) × T.fits (T.value b.modulus) }
    requires a_positive { pos 0 <ℤ T.value a.modulus }
    requires b_positive { pos 0 <ℤ T.value b.modulus }
    requires system { IsSystem T.fits C.residue_of C.modulus_of items.now }
    requires candidates { (x : ℤ) → SolvesEachItem C.residue_of C.modulus_of items.now x
        → SolvesBothCongruences (T.value a.residue) (T.value a.modulus)
        (T.value b.residue) (T.value b.modulus) x }
    ensures { MatchOption result
        ((t : ℤ) → T.value from ≤ℤ t → SolvesEachItem C.residue_of C.modulus_of items.now t
        → ¬ (T.fits t))
        (FitsWith T.fits T.value (IsLeastFrom (T.value from)
        (SolvesEachItem C.residue_of C.modulus_of items.now))) }
{
    let mut next = from;
    'candidates: while let CommonSolution::At(candidate) = next_common_solution(next, a, b) {
        if solves_each(candidate, items) {
            return Some(candidate);
        }
        next = checked::inc(candidate)?;
    }
    None
}

/// Returns `true` if the number solves each congruence.
fn solves_each<T: Integer + Copy, C: HasCongruence<T>>(x: T, items: &[C]) -> bool
    requires in_range { T.fits (T.value x) }
    requires system { IsSystem T.fits C.residue_of C.modulus_of items.now }
    ensures { IsTrue result ↔ SolvesEachItem C.residue_of C.modulus_of items.now (T.value x) }
{
    for item in items {
        let congruence = item.congruence();
        if !are_congruent(x, congruence.residue, congruence.modulus) {
            return false;
        }
    }
    true
}

/// Returns `true` if every two of the congruences agree. Then they have a common solution.
fn agree_in_pairs<T: Integer + Copy, C: HasCongruence<T>>(items: &[C]) -> bool
    requires system { IsSystem T.fits C.residue_of C.modulus_of items.now }
    ensures { IsTrue result ↔ ((x : ℤ) × SolvesEachItem C.residue_of C.modulus_of items.now x) }
{
    let mut rest = items;
    'pairs: while let Some((item, others)) = rest.split_first() {
        let first = item.congruence();
        if !agrees_with_each(first.residue, first.modulus, others) {
            return false;
        }
        rest = others;
    }
    true
}

/// Returns `true` if `a` is congruent to the residue of each item, modulo the greatest common divisor of `m` and its
/// modulus.
fn agrees_with_each<T: Integer + Copy, C: HasCongruence<T>>(a: T, m: T, others: &[C]) -> bool
    requires in_range { T.fits (T.value a) × T.fits (T.value m) }
    requires positive { pos 0 <ℤ T.value m }
    requires system { IsSystem T.fits C.residue_of C.modulus_of others.now }
    ensures { IsTrue result ↔ AgreesWithEach C.residue_of C.modulus_of (T.value a) (T.value m) others.now }
{
    for item in others {
        let other = item.congruence();
        let (b, n) = (other.residue, other.modulus);
        if !are_congruent(a, b, m.gcd(&n)) {
            return false;
        }
    }
    true
}
