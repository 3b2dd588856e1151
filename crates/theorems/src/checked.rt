//! Calls of `num_integer::checked` at native types, which say in simpler words when they return `None`.

ghost use Rattle.std.specs.Prelude.{◌≡◌, ◌⊎◌, ◌%◌, ◌<ℤ◌, FitsSigned, MatchOption, pos};
ghost use Rattle.std.specs.Int.{w64};
ghost use Rattle.num_integer.specs.Bezout.{IsBezoutAnswer};
ghost use Rattle.num_integer.specs.Divisors.{IsGreatestCommonDivisor};
ghost use Rattle.num_integer.specs.Range.{EachFits};
ghost use Rattle.num_integer.specs.RootOf.{IsRoot};

use num_integer::{ExtendedGcd, checked};

/// Returns the greatest common divisor with its Bezout pair, or `None` if the divisor does not fit.
pub fn bezout_pair(m: i64, n: i64) -> Option<ExtendedGcd<i64>>
    ensures { MatchOption result (¬ (EachFits (FitsSigned w64) (IsGreatestCommonDivisor m n)))
        (λ e. IsBezoutAnswer m n e.gcd e.x e.y) }
{
    checked::extended_gcd(m, n)
}

/// Returns the root of a degree. Returns `None` if the degree is 0, and for an even degree of a negative number.
pub fn root(x: i64, degree: u32) -> Option<i64>
    ensures { MatchOption result ((degree ≡ 0) ⊎ (degree % 2 ≡ 0) × (x <ℤ pos 0))
        (λ r. IsRoot x degree r) }
{
    checked::nth_root(x, degree)
}
