//! Amounts of money: a divisor that is computed in the call, a wider type and back, and equal parts.

ghost use Rattle.std.specs.Prelude.{◌≡◌, ◌↔◌, ◌<◌, ◌≤◌, ◌+◌, ◌+ℤ◌, ◌*ℤ◌, ◌≤ℤ◌, FitsSigned, IsFalse, IsTrue, MatchOption, length, pos, slice_index, sum, ℕ};
ghost use Rattle.std.specs.Int.{w64};
ghost use Rattle.num_integer.specs.Division.{IsFloored, IsQuotient};
ghost use Rattle.num_integer.specs.Range.{EachFits};
ghost use Rattle.applied.specs.Rounding.{AnswersQuotient, IsNearestEven};

use applied::rounding::checked::div_round_even;
use num_integer::{Integer, checked, operators};

/// Returns the share of each of the guests and of the host, rounded down. The sum is a call of `operators`, whose contract
/// says which number it is.
pub fn share_with_host(cents: i64, guests: i64) -> i64
    requires { (pos 0 ≤ℤ guests) × (guests ≤ℤ pos 1000) }
    ensures { IsQuotient IsFloored cents (guests +ℤ pos 1) result }
{
    cents.div_floor(&operators::sum(guests, 1))
}

/// Returns the same share. The sum is an operator, and the lemmas of `wraps` say that its bits are those of a sum that fits.
#[tactic(auto, using(std::proofs::lemmas::Int::wraps))]
pub fn share_by_plus(cents: i64, guests: i64) -> i64
    requires { (pos 0 ≤ℤ guests) × (guests ≤ℤ pos 1000) }
    ensures { IsQuotient IsFloored cents (guests +ℤ pos 1) result }
{
    cents.div_floor(&(guests + 1))
}

/// Returns the net amount of a gross amount, rounded down, or `None` if it does not fit.
pub fn net_rounded_down(gross: i64, rate_percent: i64) -> Option<i64>
    requires { (pos 0 ≤ℤ rate_percent) × (rate_percent ≤ℤ pos 1000) }
    ensures { MatchOption result
        (¬ (EachFits (FitsSigned w64) (IsQuotient IsFloored (gross *ℤ pos 100) (pos 100 +ℤ rate_percent))))
        (λ net. IsQuotient IsFloored (gross *ℤ pos 100) (pos 100 +ℤ rate_percent) net) }
{
    let (net, _) = checked::product_div_mod_floor(gross, 100, operators::sum(100, rate_percent))?;
    Some(net)
}

/// Returns the net amount of a gross amount, rounded half to even, or `None` if the rate is -100 or the amount does not
/// fit. It computes in a wider type, and converts the result.
pub fn net_of_gross(gross: i64, rate_percent: i64) -> Option<i64>
    ensures { AnswersQuotient IsNearestEven (FitsSigned w64) (λ x. x) (gross *ℤ pos 100)
        (pos 100 +ℤ rate_percent) result }
{
    let net = div_round_even(i128::from(gross) * 100, 100 + i128::from(rate_percent))?;
    i64::try_from(net).ok()
}

/// Splits the total into parts that differ by at most 1, or returns `false` if there is not one part for each person.
pub fn split_evenly(total: u64, people: u64, out: &mut [u64]) -> bool
    ensures possible { IsTrue result ↔ ((length out.old ≡ people) × (0 < people)) }
    ensures whole { IsTrue result → sum out.new ≡ total }
    ensures near { IsTrue result → (i j : ℕ) → i < people → j < people
        → slice_index out.new i ≤ slice_index out.new j + 1 }
    ensures unchanged { IsFalse result → out.new ≡ out.old }
{
    if out.len() as u64 != people || people == 0 {
        return false;
    }
    let (share, rest) = total.div_mod_floor(&people);
    for (i, part) in out.iter_mut().enumerate() {
        *part = if (i as u64) < rest { share + 1 } else { share };
    }
    true
}
