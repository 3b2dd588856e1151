//! Multiples of a number, and least common multiples.

ghost use Rattle.std.specs.Prelude.{◌≡◌, ◌≢◌, ◌<◌, ◌*◌, ◌≤◌, MatchOption, pos, ℕ};
ghost use Rattle.std.specs.Int.{FitsUnsignedBits};
ghost use Rattle.num_integer.specs.Division.{IsCeiled, IsFloored, IsMultiple};
ghost use Rattle.num_integer.specs.Divisors.{IsLeastCommonMultiple};
ghost use Rattle.num_integer.specs.Range.{EachFits};

use num_integer::{Fits, Integer, checked, lcm};

/// Returns the previous multiple at an unsigned type. It fits for each divisor except 0.
pub fn previous_multiple(n: u64, d: u64) -> u64
    requires { d ≢ 0 }
    ensures { IsMultiple IsFloored (pos n) (pos d) (pos result) }
{
    n.prev_multiple_of(&d)
}

/// Returns the least common multiple of two numbers in a type of twice their bits, where it always fits.
pub fn common_multiple_in_twice_the_bits(m: u32, n: u32) -> u64
    ensures { IsLeastCommonMultiple (pos m) (pos n) (pos result) }
{
    u64::from(m).lcm(&u64::from(n))
}

/// Returns the least common multiple of two literals. The prover computes it to see that it fits.
pub fn common_multiple_of_literals() -> u8
    ensures { IsLeastCommonMultiple (pos 200) (pos 50) (pos result) }
{
    lcm(200, 50)
}

/// Returns the least common multiple of two literals at a signed type.
pub fn signed_common_multiple_of_literals() -> i64
    ensures { IsLeastCommonMultiple (pos 4) (pos 6) result }
{
    lcm(4, 6)
}

/// Returns the next multiple of literals.
pub fn next_multiple_of_literals() -> i64
    ensures { IsMultiple IsCeiled (pos 23) (pos 8) result }
{
    23.next_multiple_of(&8)
}

/// Returns the next multiple of literals at an unsigned type. The call names the trait.
pub fn natural_next_multiple_of_literals() -> u64
    ensures { IsMultiple IsCeiled (pos 23) (pos 8) (pos result) }
{
    Integer::next_multiple_of(&23, &8)
}

/// Returns the smallest positive numbers of revolutions that bring two gears back to where they began. Returns `None`
/// if the least common multiple of their numbers of teeth does not fit.
pub fn revolutions(a: u32, b: u32) -> Option<(u32, u32)>
    requires a { 0 < a }
    requires b { 0 < b }
    ensures { MatchOption result
        (¬ (EachFits (FitsUnsignedBits 32) (IsLeastCommonMultiple (pos a) (pos b))))
        (λ turns. (0 < turns.0) × (turns.0 * a ≡ turns.1 * b)
        × ((x y : ℕ) → 0 < x → x * a ≡ y * b → (turns.0 ≤ x) × (turns.1 ≤ y))) }
{
    if a.lcm_fits(&b) {
        let teeth = a.lcm(&b);
        Some((teeth / a, teeth / b))
    } else {
        None
    }
}

/// Returns the previous multiple, or the number itself if the divisor is 0.
pub fn rounded_down(n: u64, d: u64) -> u64
    ensures multiple { d ≢ 0 → IsMultiple IsFloored (pos n) (pos d) (pos result) }
    ensures same { d ≡ 0 → result ≡ n }
{
    if let Some(multiple) = checked::prev_multiple_of(n, d) {
        multiple
    } else {
        n
    }
}
