//! Functions that call `applied` for multiples and sums of lists, hashes of windows and reduced pairs.

ghost use Rattle.std.specs.Prelude.{◌≡◌, ◌≢◌, ◌<◌, ◌+◌, ◌*◌, ◌*ℤ◌, ◌∷◌, ◌++◌, [], All, FitsSigned, List, MatchOption, length, map, pos, take, ℕ};
ghost use Rattle.std.specs.Int.{FitsUnsignedBits, w64};
ghost use Rattle.num_integer.specs.Divisors.{IsGreatestCommonDivisor};
ghost use Rattle.num_integer.specs.Range.{EachFits};
ghost use Rattle.modular.specs.Congruences.{IsResidue};
ghost use Rattle.applied.specs.Hashes.{weighted_sum};
ghost use Rattle.applied.specs.Lists.{IsLeastCommonMultipleOf};
ghost use Rattle.applied.specs.ReducedPairs.{HasSignOf};
ghost use Rattle.applied.specs.Shares.{signed_sum};

use applied::coprime::reduced;
use applied::lists::checked::{dot_product, sum_of};
use applied::rolling_hash::RollingHash;
use num_integer::{Integer, checked};

// ---- lists

/// Returns the time after which all periods begin together again, or `None` if that of the first few does not fit.
pub fn period_by_a_loop(periods: &[u64]) -> Option<u64>
    ensures { MatchOption result
        ((few : ℕ) × ¬ (EachFits (FitsUnsignedBits 64)
        (IsLeastCommonMultipleOf (map (λ x. pos x) (take few periods.now)))))
        (λ period. IsLeastCommonMultipleOf (map (λ x. pos x) periods.now) (pos period)) }
{
    let mut period = 1;
    for next in periods {
        period = checked::lcm(period, *next)?;
    }
    Some(period)
}

// ---- sums

/// `total_of(&[1999, -500])` is `Some(1499)`. Returns the sum of prices and rebates, or `None` if it does not fit.
pub fn total_of(prices: &[i64]) -> Option<i64>
    requires { All (FitsSigned w64) prices.now }
    ensures { MatchOption result
        (¬ (FitsSigned w64 (signed_sum (map (λ x. x) prices.now))))
        (λ total. total ≡ signed_sum (map (λ x. x) prices.now)) }
{
    sum_of(prices)
}

/// `invoice_total(&[(2, 1999), (1, 501)])` is `Some(4499)`. Returns the sum of the quantities times their prices, or `None` if it does not
/// fit.
pub fn invoice_total(lines: &[(i64, i64)]) -> Option<i64>
    requires { All (λ line. FitsSigned w64 line.0 × FitsSigned w64 line.1) lines.now }
    ensures { MatchOption result
        (¬ (FitsSigned w64 (signed_sum (map (λ line. line.0 *ℤ line.1) lines.now))))
        (λ total. total ≡ signed_sum (map (λ line. line.0 *ℤ line.1) lines.now)) }
{
    dot_product(lines)
}

/// Returns the same at an unsigned type.
pub fn natural_invoice_total(lines: &[(u64, u64)]) -> Option<u64>
    requires { All (λ line. FitsUnsignedBits 64 (pos line.0) × FitsUnsignedBits 64 (pos line.1)) lines.now }
    ensures { MatchOption result
        (¬ (FitsUnsignedBits 64 (signed_sum (map (λ line. pos line.0 *ℤ pos line.1) lines.now))))
        (λ total. pos total ≡ signed_sum (map (λ line. pos line.0 *ℤ pos line.1) lines.now)) }
{
    let total = dot_product(lines)?;
    Some(total)
}

// ---- hashes

/// Returns the hash of the window one byte further on, if `hash` is that of the window that begins with `leaving`.
pub fn hash_of_next_window(hashes: &RollingHash, hash: u64, leaving: u8, entering: u8) -> u64
    ensures { (kept : List ℕ) → length kept + 1 ≡ hashes.now.length
        → IsResidue (pos hashes.now.modulus)
        (weighted_sum (pos hashes.now.base) (leaving ∷ kept)) (pos hash)
        → IsResidue (pos hashes.now.modulus)
        (weighted_sum (pos hashes.now.base) (kept ++ entering ∷ [])) (pos result) }
{
    hashes.slide(hash, leaving, entering)
}

// ---- pairs

/// `aspect_ratio(1920, 1080)` is `(16, 9)`. Returns the width and the height in lowest terms.
pub fn aspect_ratio(width: u32, height: u32) -> (u32, u32)
    requires { 0 < height }
    ensures coprime { IsGreatestCommonDivisor (pos result.0) (pos result.1) (pos 1) }
    ensures ratio { width * result.1 ≡ height * result.0 }
{
    reduced(width, height)
}

/// Returns the same pair by two divisions.
pub fn aspect_ratio_by_division(width: u32, height: u32) -> (u32, u32)
    requires { 0 < height }
    ensures coprime { IsGreatestCommonDivisor (pos result.0) (pos result.1) (pos 1) }
    ensures ratio { width * result.1 ≡ height * result.0 }
{
    let common = width.gcd(&height);
    (width / common, height / common)
}

/// Returns the parts of a slope in lowest terms, with their signs. A part may be negative or 0.
pub fn slope(rise: i64, run: i64) -> (i64, i64)
    requires { run ≢ pos 0 }
    ensures coprime { IsGreatestCommonDivisor result.0 result.1 (pos 1) }
    ensures ratio { rise *ℤ result.1 ≡ run *ℤ result.0 }
    ensures rise_sign { HasSignOf rise result.0 }
    ensures run_sign { HasSignOf run result.1 }
{
    reduced(rise, run)
}
