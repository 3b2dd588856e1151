//! Calls of `num_integer` at any type of integers.

ghost use Rattle.std.specs.Prelude.{◌≡◌, ◌≢◌, ◌⊎◌, ◌<◌, ◌<ℤ◌, ◌+ℤ◌, ◌*ℤ◌, IsTrue, None, [], pos, unsigned_abs};
ghost use Rattle.num_integer.specs.Division.{HaveSameSign, IsFloored, IsQuotient};
ghost use Rattle.num_integer.specs.Range.{EachFits};

use num_integer::{Fits, Integer, IterBinomial, div_floor, div_mod_floor, mod_floor};

/// Returns the quotient rounded down and its remainder. The quotient times the divisor and the remainder add up to
/// the number.
pub fn floored_parts<T: Integer>(n: T, d: T) -> (T, T)
    requires in_range { T.fits (T.value n) × T.fits (T.value d) }
    requires nonzero { T.value d ≢ pos 0 }
    requires quotient_fits { EachFits T.fits (IsQuotient IsFloored (T.value n) (T.value d)) }
    ensures sum { T.value result.0 *ℤ T.value d +ℤ T.value result.1 ≡ T.value n }
    ensures sign { (T.value result.1 ≡ pos 0) ⊎ HaveSameSign (T.value result.1) (T.value d) }
    ensures small { unsigned_abs (T.value result.1) < unsigned_abs (T.value d) }
{
    (div_floor(n, d), mod_floor(n, d))
}

/// Returns `(true, true)`: the greatest common divisor with a positive number and the quotient by it fit. The contract also
/// holds of a body that makes no call. The theorem is that these calls meet it.
pub fn tests_with_positive<T: Fits>(a: T, b: T) -> (bool, bool)
    requires in_range { T.fits (T.value a) × T.fits (T.value b) }
    requires positive { pos 0 <ℤ T.value b }
    ensures gcd { IsTrue result.0 }
    ensures quotient { IsTrue result.1 }
{
    (a.gcd_fits(&b), a.quotient_fits(&b))
}

/// Returns the quotient rounded down, by `div_floor` and by `div_mod_floor`. The two are equal.
pub fn floored_by_two_calls<T: Integer>(n: T, d: T) -> (T, T)
    requires in_range { T.fits (T.value n) × T.fits (T.value d) }
    requires nonzero { T.value d ≢ pos 0 }
    requires quotient_fits { EachFits T.fits (IsQuotient IsFloored (T.value n) (T.value d)) }
    ensures floored { IsQuotient IsFloored (T.value n) (T.value d) (T.value result.0) }
    ensures same { T.value result.0 ≡ T.value result.1 }
{
    (div_floor(n, d), div_mod_floor(n, d).0)
}

/// Returns `(None, None)`: once no item is left, `next` always returns `None`. The contract also holds of a body that makes
/// no call. The theorem is that these calls meet it.
pub fn none_for_good<T: Integer>(rest: &mut IterBinomial<T>) -> (Option<T>, Option<T>)
    requires { rest.old ≡ [] }
    ensures first { result.0 ≡ None }
    ensures second { result.1 ≡ None }
    ensures rest { rest.new ≡ [] }
{
    (rest.next(), rest.next())
}
