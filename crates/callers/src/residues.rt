//! Functions that call `modular`.

ghost use Rattle.std.specs.Prelude.{◌≡◌, ◌∷◌, [], ◌⊎◌, ◌+◌, ◌%◌, ◌<◌, ◌≤◌, ◌<ℤ◌, ◌+ℤ◌, ◌-ℤ◌, ◌*ℤ◌, All, FitsSigned, IfSome, MatchOption, neg_ℤ, pos, ℤ};
ghost use Rattle.std.specs.Int.{FitsUnsignedBits, int_pow, w64};
ghost use Rattle.modular.specs.CommonSolutions.{MatchCommonSolution, MatchWhere};
ghost use Rattle.modular.specs.Congruences.{IsCountOfCongruent, IsInverse, IsNextCommonSolution, IsNextCongruent, IsPreviousCongruent, IsQuotientModulo, IsReducedModulus, IsResidue, IsResidueClass, Solves, SolvesBothCongruences, SolvesEach};
ghost use Rattle.num_integer.specs.Divisors.{IsLeastCommonMultiple};
ghost use Rattle.num_integer.specs.Least.{IsLeastFrom};
ghost use Rattle.num_integer.specs.Range.{EachFits};

use modular::{
    CommonSolution, Congruence, checked, difference_modulo, inverse_modulo, negation_modulo,
    next_common_solution, next_common_solution_of, next_congruent, power_modulo,
    previous_congruent, product_modulo, sum_modulo,
};

// ---- results that are known in advance

/// Returns the hour that a clock shows `hours` hours after `hour`.
pub fn hour_after(hour: i64, hours: i64) -> i64
    ensures { IsResidue (pos 24) (hour +ℤ hours) result }
{
    sum_modulo(hour, hours, 24)
}

// ---- results as a caller uses them, with no proof file

/// `ring_index(6, 3, 8)` is `1`. Returns the index in a ring buffer that is so many places further on. The sum need not fit.
pub fn ring_index(index: usize, places: usize, capacity: usize) -> usize
    requires { 0 < capacity }
    ensures { result ≡ (index + places) % capacity }
{
    sum_modulo(index, places, capacity)
}

/// Returns the opponent of a team in a round of a tournament in which each team plays each other one. The numbers of the two
/// teams add up to the round, modulo the number of teams.
#[tactic(auto, using(modular::proofs::ForCallers::difference_is_natural))]
pub fn opponent(round: u64, team: u64, teams: u64) -> u64
    requires { team < teams }
    ensures below { result < teams }
    ensures pair { (team + result) % teams ≡ round % teams }
{
    difference_modulo(round, team, teams)
}

/// Returns the check digit of a number whose weighted digits have this sum. With it the sum is a multiple of 10.
pub fn check_digit(sum: u64) -> u64
    ensures digit { result ≤ 9 }
    ensures whole { (sum + result) % 10 ≡ 0 }
{
    negation_modulo(sum, 10)
}

/// Returns the inverse of `a` modulo `m`, which is less than `m`, or `m` if there is no inverse.
pub fn inverse_or_modulus(a: u64, m: u64) -> u64
    requires { 0 < m }
    ensures inverse { result < m → IsInverse (pos a) (pos m) (pos result) }
    ensures none { result ≡ m → (x : ℤ) → ¬ (IsInverse (pos a) (pos m) x) }
    ensures at_most { result ≤ m }
{
    match inverse_modulo(a, m) {
        Some(inverse) => inverse,
        None => m,
    }
}

/// Returns the next time from `now` on, or `u64::MAX` if that time does not fit.
pub fn next_time(now: u64, first: u64, period: u64) -> u64
    requires { 0 < period }
    ensures { IsNextCongruent (pos now) (pos first) (pos period) (pos result)
        ⊎ ((result ≡ u64.MAX)
        × ((t : ℤ) × IsNextCongruent (pos now) (pos first) (pos period) t
        × ¬ (FitsUnsignedBits 64 t))) }
{
    match next_congruent(now, first, period) {
        Some(time) => time,
        None => u64::MAX,
    }
}

/// Returns the last time up to `now`, or 0 if there is none from 0 on.
pub fn last_time_up_to(now: u64, first: u64, period: u64) -> u64
    requires { 0 < period }
    ensures { IsPreviousCongruent (pos now) (pos first) (pos period) (pos result)
        ⊎ ((result ≡ 0)
        × ((t : ℤ) × IsPreviousCongruent (pos now) (pos first) (pos period) t
        × ¬ (FitsUnsignedBits 64 t))) }
{
    match previous_congruent(now, first, period) {
        Some(time) => time,
        None => 0,
    }
}

/// Returns the product and the power modulo `m`.
pub fn product_and_power(a: u64, b: u64, m: u64) -> (u64, u64)
    requires { 0 < m }
    ensures product { IsResidue (pos m) (pos a *ℤ pos b) (pos result.0) }
    ensures power { IsResidue (pos m) (int_pow (pos a) b) (pos result.1) }
{
    (product_modulo(a, b, m), power_modulo(a, u128::from(b), m))
}

/// Returns the angle of the opposite turn, in degrees.
pub fn opposite_angle(degrees: u16) -> u16
    ensures { IsResidue (pos 360) (neg_ℤ (pos degrees)) (pos result) }
{
    negation_modulo(degrees, 360)
}

// ---- calls of `checked`, whose modulus may be any number

/// Returns the residue, or -1 if the modulus is not positive.
pub fn residue_or_minus_one(a: i64, m: i64) -> i64
    ensures residue { pos 0 <ℤ m → IsResidue m a result }
    ensures less { ¬ (pos 0 <ℤ m) → result ≡ neg_ℤ (pos 1) }
{
    match checked::residue(a, m) {
        Some(residue) => residue,
        None => -1,
    }
}

/// Returns the sum and the difference modulo `m`, or `None` if `m` is 0.
pub fn sum_and_difference(a: u32, b: u32, m: u32) -> Option<(u32, u32)>
    ensures { MatchOption result (m ≡ 0)
        (λ r. IsResidue (pos m) (pos a +ℤ pos b) (pos r.0)
        × IsResidue (pos m) (pos a -ℤ pos b) (pos r.1)) }
{
    let sum = checked::sum_modulo(a, b, m)?;
    let difference = checked::difference_modulo(a, b, m)?;
    Some((sum, difference))
}

/// Returns the negation modulo `m`, or `None` if `m` is not positive.
pub fn negation_or_none(a: i8, m: i8) -> Option<i8>
    ensures { MatchOption result (¬ (pos 0 <ℤ m)) (λ r. IsResidue m (neg_ℤ a) r) }
{
    checked::negation_modulo(a, m)
}

/// Returns the product modulo `m`, or 0 if `m` is 0.
pub fn product_or_zero(a: u64, b: u64, m: u64) -> u64
    ensures product { 0 < m → IsResidue (pos m) (pos a *ℤ pos b) (pos result) }
    ensures zero { m ≡ 0 → result ≡ 0 }
{
    checked::product_modulo(a, b, m).unwrap_or(0)
}

/// Returns the power modulo `m`, or `None` if `m` is 0.
pub fn power_or_none(a: u64, exponent: u128, m: u64) -> Option<u64>
    ensures { MatchOption result (m ≡ 0) (λ r. IsResidue (pos m) (int_pow (pos a) exponent) (pos r)) }
{
    let power = checked::power_modulo(a, exponent, m)?;
    Some(power)
}

/// Returns the inverse modulo `m`, or `None` if there is none or `m` is 0.
pub fn inverse_or_none(a: u32, m: u32) -> Option<u32>
    ensures { MatchOption result ((x : ℤ) → ¬ (IsInverse (pos a) (pos m) x))
        (λ x. IsInverse (pos a) (pos m) (pos x)) }
{
    checked::inverse_modulo(a, m)
}

/// Returns a quotient modulo `m`, or `None` if the divisor has no inverse or `m` is not positive.
pub fn quotient_or_none(a: i64, b: i64, m: i64) -> Option<i64>
    ensures { MatchOption result ((x : ℤ) → ¬ (IsInverse b m x)) (λ x. IsQuotientModulo a b m x) }
{
    match checked::quotient_modulo(a, b, m) {
        Some(quotient) => Some(quotient),
        None => None,
    }
}

/// Returns the smallest solution of a congruence that is not negative and the step to the next one, or `None` if there
/// is no solution or `m` is not positive.
pub fn solutions_or_none(a: i64, b: i64, m: i64) -> Option<(i64, i64)>
    ensures { MatchOption result (pos 0 <ℤ m → (x : ℤ) → ¬ (Solves a b m x))
        (λ s. (pos 0 <ℤ m) × IsResidueClass (Solves a b m) s.0 s.1) }
{
    checked::solutions(a, b, m)
}

/// Returns the last time before `now` or at `now`, or `None` if it does not fit or the period is not positive.
pub fn last_time(now: i64, first: i64, period: i64) -> Option<i64>
    ensures { MatchOption result
        (pos 0 <ℤ period → ((t : ℤ) × IsPreviousCongruent now first period t × ¬ (FitsSigned w64 t)))
        (λ last. (pos 0 <ℤ period) × IsPreviousCongruent now first period last) }
{
    let last = checked::previous_congruent(now, first, period)?;
    Some(last)
}

/// Returns the next time from `now` on, or `None` if it does not fit or the period is not positive.
pub fn next_time_or_none(now: i64, first: i64, period: i64) -> Option<i64>
    ensures { MatchOption result
        (pos 0 <ℤ period → ((t : ℤ) × IsNextCongruent now first period t × ¬ (FitsSigned w64 t)))
        (λ next. (pos 0 <ℤ period) × IsNextCongruent now first period next) }
{
    checked::next_congruent(now, first, period)
}

/// Returns the next run of a job, which is less than a period away, or `None` if it does not fit.
pub fn next_run_of_job(now: i64, first: i64, period: i64) -> Option<i64>
    requires { pos 0 <ℤ period }
    ensures next { MatchOption result
        ((t : ℤ) × IsNextCongruent now first period t × ¬ (FitsSigned w64 t))
        (λ next. IsNextCongruent now first period next) }
    ensures near { IfSome result (λ next. next <ℤ (now +ℤ period)) }
{
    let next = next_congruent(now, first, period)?;
    Some(next)
}

/// Returns the last run of a job, which is less than a period ago, or `None` if it does not fit.
pub fn last_run(now: i64, first: i64, period: i64) -> Option<i64>
    requires { pos 0 <ℤ period }
    ensures last { MatchOption result
        ((t : ℤ) × IsPreviousCongruent now first period t × ¬ (FitsSigned w64 t))
        (λ last. IsPreviousCongruent now first period last) }
    ensures near { IfSome result (λ last. (now -ℤ period) <ℤ last) }
{
    match previous_congruent(now, first, period) {
        Some(last) => Some(last),
        None => None,
    }
}

/// Returns the number of times in `from..=to`, or 0 if the period is 0. If the number does not fit, the contract leaves
/// the result open.
pub fn count_of_times(from: u64, to: u64, first: u64, period: u64) -> u64
    ensures count { 0 < period
        → (IsCountOfCongruent (pos from) (pos to) (pos first) (pos period) (pos result)
        ⊎ ((n : ℤ) × IsCountOfCongruent (pos from) (pos to) (pos first) (pos period) n
        × ¬ (FitsUnsignedBits 64 n))) }
    ensures zero { period ≡ 0 → result ≡ 0 }
{
    match checked::count_congruent(from, to, first, period) {
        Some(count) => count,
        None => 0,
    }
}

/// Returns the next number that is `a` modulo `m` and `b` modulo `n`. The contract says nothing of a modulus that is not
/// positive.
pub fn next_of_both(from: i64, a: i64, m: i64, b: i64, n: i64) -> CommonSolution<i64>
    ensures { (pos 0 <ℤ m) × (pos 0 <ℤ n) → MatchCommonSolution result
        ((x : ℤ) → ¬ (SolvesBothCongruences a m b n x))
        ((t : ℤ) × IsNextCommonSolution from a m b n t × ¬ (FitsSigned w64 t))
        (λ t. IsNextCommonSolution from a m b n t) }
{
    let first = Congruence {
        residue: a,
        modulus: m,
    };
    let second = Congruence {
        residue: b,
        modulus: n,
    };
    match checked::next_common_solution(from, first, second) {
        Some(next) => next,
        None => CommonSolution::Never,
    }
}

// ---- several congruences at every modulus

/// Returns the numbers that solve two congruences, as the smallest and the step. Returns `None` if a modulus is 0, if
/// the least common multiple does not fit, or if there is no such number.
pub fn class_at_every_modulus(a: Congruence<u64>, b: Congruence<u64>) -> Option<Congruence<u64>>
    ensures { MatchWhere ((pos 0 <ℤ pos a.modulus) × (pos 0 <ℤ pos b.modulus)
        × EachFits (FitsUnsignedBits 64) (IsLeastCommonMultiple (pos a.modulus) (pos b.modulus))) result
        ((x : ℤ) → ¬ (SolvesBothCongruences (pos a.residue) (pos a.modulus)
        (pos b.residue) (pos b.modulus) x))
        (λ c. IsResidueClass (SolvesBothCongruences (pos a.residue) (pos a.modulus)
        (pos b.residue) (pos b.modulus)) (pos c.residue) (pos c.modulus)) }
{
    checked::chinese_remainder(a, b)
}

/// Returns the next number that solves each congruence, or `None`. The contract does not say when it is `None`.
pub fn next_of_each_at_every_modulus(from: i64, congruences: &[Congruence<i64>]) -> Option<i64>
    requires { All (λ c. FitsSigned w64 c.residue × FitsSigned w64 c.modulus) congruences.now }
    ensures { IfSome result (λ t. All (λ c. pos 0 <ℤ c.modulus) congruences.now
        × IsLeastFrom from (SolvesEach (λ x. x) congruences.now) t) }
{
    match checked::next_common_solution_of(from, congruences) {
        Some(CommonSolution::At(t)) => Some(t),
        _ => None,
    }
}

/// Returns the next number that solves three congruences.
pub fn next_of_three(
    from: i64,
    a: Congruence<i64>,
    b: Congruence<i64>,
    c: Congruence<i64>,
) -> CommonSolution<i64>
    requires a { pos 0 <ℤ a.modulus }
    requires b { pos 0 <ℤ b.modulus }
    requires c { pos 0 <ℤ c.modulus }
    ensures { MatchCommonSolution result
        ((x : ℤ) → ¬ (SolvesEach (λ x. x) (a ∷ b ∷ c ∷ []) x))
        ((t : ℤ) × IsLeastFrom from (SolvesEach (λ x. x) (a ∷ b ∷ c ∷ [])) t × ¬ (FitsSigned w64 t))
        (λ t. IsLeastFrom from (SolvesEach (λ x. x) (a ∷ b ∷ c ∷ [])) t) }
{
    next_common_solution_of(from, &[a, b, c])
}

/// Returns the next day, counted from 0, on which two lamps flash: one on each fourth day from day 1 on, and one on each
/// sixth day from day 3 on.
pub fn next_flash(from: u32) -> CommonSolution<u32>
    ensures { MatchCommonSolution result
        ((x : ℤ) → ¬ (SolvesBothCongruences (pos 1) (pos 4) (pos 3) (pos 6) x))
        ((t : ℤ) × IsNextCommonSolution (pos from) (pos 1) (pos 4) (pos 3) (pos 6) t
        × ¬ (FitsUnsignedBits 32 t))
        (λ t. IsNextCommonSolution (pos from) (pos 1) (pos 4) (pos 3) (pos 6) (pos t)) }
{
    let first = Congruence {
        residue: 1,
        modulus: 4,
    };
    next_common_solution(from, first, (3, 6).into())
}
