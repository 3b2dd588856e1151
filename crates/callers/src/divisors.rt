//! Divisors: greatest common divisors and their bounds, Bezout pairs, sums of divisors, first common multiples.

ghost use Rattle.std.specs.Prelude.{◌≡◌, ◌↔◌, ◌<◌, ◌%◌, ◌<ℤ◌, ◌≤◌, IsTrue, IfSome, MatchOption, pos, ℕ, FitsSigned, ◌^◌, ◌∷◌, [], All};
ghost use Rattle.std.specs.Int.{w64};
ghost use Rattle.num_integer.specs.Bezout.{IsBezoutAnswer, HasPair};
ghost use Rattle.num_integer.specs.Divisors.{IsGreatestCommonDivisor, IsLeastCommonMultiple, Divides};
ghost use Rattle.num_integer.specs.Range.{EachFits};
ghost use Rattle.num_integer.specs.DivisorSums.{IsSumOfDivisors};
ghost use Rattle.num_integer.specs.Least.{IsLeastFrom};

use applied::lists::checked::lcm_of;
use num_integer::{ExtendedGcd, Integer, checked};

/// `divisor_sum(28)` is 56. Returns the sum of the positive divisors.
#[tactic(auto, using(num_integer::proofs::ForCallers::divisor_steps))]
pub fn divisor_sum(n: u64) -> u128
    ensures { IsSumOfDivisors n result }
{
    let mut d = 0;
    let mut total = 0;
    while d < n {
        d += 1;
        if Integer::is_multiple_of(&n, &d) {
            total += u128::from(d);
        }
    }
    total
}

/// Returns the first positive time at which both begin together, or `None` if it does not fit.
pub fn meet_again_in_pairs(a: u64, b: u64) -> Option<u64>
    requires { (0 < a) × (0 < b) }
    ensures { MatchOption result
        ((t : ℕ) → IsLeastFrom (pos 1) (λ u. Divides (pos a) u × Divides (pos b) u) (pos t) → 2 ^ 64 ≤ t)
        (λ t. IsLeastFrom (pos 1) (λ u. Divides (pos a) u × Divides (pos b) u) (pos t)) }
{
    checked::lcm(a, b)
}

/// `meet_again(4, 6, 10)` is `Some(60)`. Returns the first positive time that all three divide, or `None` if it does not
/// fit.
pub fn meet_again(a: u64, b: u64, c: u64) -> Option<u64>
    requires { (0 < a) × (0 < b) × (0 < c) }
    ensures { MatchOption result
        ((t : ℕ) → IsLeastFrom (pos 1) (λ u. All (λ x. Divides x u) (pos a ∷ pos b ∷ pos c ∷ [])) (pos t) → 2 ^ 64 ≤ t)
        (λ t. IsLeastFrom (pos 1) (λ u. All (λ x. Divides x u) (pos a ∷ pos b ∷ pos c ∷ [])) (pos t)) }
{
    lcm_of(&[a, b, c])
}

/// Returns the largest step that both numbers are multiples of. It is at most 1439 if both are minutes of a day.
pub fn common_step(x: u16, y: u16) -> u16
    requires { (x ≤ 1439) × (y ≤ 1439) }
    ensures greatest { IsGreatestCommonDivisor (pos x) (pos y) (pos result) }
    ensures small { result ≤ 1439 }
{
    x.gcd(&y)
}

/// Returns the greatest common divisor of a number and a positive number, which always fits.
pub fn common_divisor_with_positive(m: i64, n: i64) -> i64
    requires { pos 0 <ℤ n }
    ensures { IsGreatestCommonDivisor m n result }
{
    m.gcd(&n)
}

/// Returns the greatest common divisor at an unsigned type, which always fits.
pub fn natural_common_divisor(a: u64, b: u64) -> u64
    ensures { IsGreatestCommonDivisor (pos a) (pos b) (pos result) }
{
    a.gcd(&b)
}

/// Returns a Bezout pair of a number and a positive number. It always exists.
pub fn pair_with_positive(m: i64, n: i64) -> ExtendedGcd<i64>
    requires { pos 0 <ℤ n }
    ensures { IsBezoutAnswer m n result.gcd result.x result.y }
{
    m.extended_gcd(&n)
}

/// Returns `true` if the number is even. The clause says this with `%`.
#[tactic(auto, using(num_integer::proofs::ForCallers::divides_is_natural))]
pub fn is_even(n: u64) -> bool
    ensures { IsTrue result ↔ (n % 2 ≡ 0) }
{
    n.is_even()
}

/// Returns the greatest common divisor of two numbers, or `None`. The contract does not say when: three calls pass their
/// `None` on by `?`.
pub fn divisor_after_three_calls(a: i64, b: i64) -> Option<i64>
    ensures { IfSome result (λ g. IsGreatestCommonDivisor a b g) }
{
    let divisor = checked::gcd(a, b)?;
    let common = checked::lcm(a, b)?;
    let product = checked::product(divisor, common)?;
    if product == a { None } else { Some(divisor) }
}

/// Returns the greatest common divisor of a number and a positive number. It always fits.
pub fn divisor_with_positive(a: i64, b: i64) -> i64
    requires { pos 0 <ℤ b }
    ensures { IsGreatestCommonDivisor a b result }
{
    let Some(divisor) = checked::gcd(a, b) else {
        unreachable!();
    };
    divisor
}

/// Returns the greatest common divisor and the least common multiple, or `None` if one of them does not fit.
pub fn divisor_and_multiple(a: i64, b: i64) -> Option<(i64, i64)>
    ensures { MatchOption result
        (¬ (EachFits (FitsSigned w64) (IsGreatestCommonDivisor a b)
        × EachFits (FitsSigned w64) (IsLeastCommonMultiple a b)))
        (λ r. IsGreatestCommonDivisor a b r.0 × IsLeastCommonMultiple a b r.1) }
{
    let Some((divisor, multiple)) = checked::gcd_lcm(a, b) else {
        return None;
    };
    Some((divisor, multiple))
}

/// Returns the greatest common divisor with its Bezout pair and the least common multiple, or `None` if one of them
/// does not fit.
pub fn pair_and_multiple(a: i64, b: i64) -> Option<(ExtendedGcd<i64>, i64)>
    ensures { MatchOption result
        (¬ (EachFits (FitsSigned w64) (IsGreatestCommonDivisor a b) × HasPair (FitsSigned w64) a b
        × EachFits (FitsSigned w64) (IsLeastCommonMultiple a b)))
        (λ r. IsBezoutAnswer a b r.0.gcd r.0.x r.0.y × IsLeastCommonMultiple a b r.1) }
{
    checked::extended_gcd_lcm(a, b)
}
