//! Divisors and multiples of lists, and coprime numbers.

ghost use Rattle.std.specs.Prelude.{◌↔◌, All, IsTrue, map, pos};
ghost use Rattle.num_integer.specs.Checked.{AnswersWhere};
ghost use Rattle.num_integer.specs.Divisors.{IsGreatestCommonDivisor};
ghost use Rattle.num_integer.specs.Range.{EachFits};
ghost use Rattle.applied.specs.Lists.{GcdOfFits, IsGreatestCommonDivisorOf, IsLeastCommonMultipleOf};

use applied::coprime::is_coprime;
use applied::lists::checked;
use num_integer::Fits;

// ---- lists

/// Returns the greatest common divisor and the least common multiple of a list, or `None` if one of them does not
/// fit.
pub fn divisor_and_multiple<T: Fits>(numbers: &[T]) -> Option<(T, T)>
    requires in_range { All (λ x. T.fits (T.value x)) numbers.now }
    ensures { AnswersWhere
        (GcdOfFits T.fits (map T.value numbers.now)
        × EachFits T.fits (IsLeastCommonMultipleOf (map T.value numbers.now)))
        (λ r. IsGreatestCommonDivisorOf (map T.value numbers.now) (T.value r.0)
        × IsLeastCommonMultipleOf (map T.value numbers.now) (T.value r.1))
        result }
{
    let divisor = checked::gcd_of(numbers)?;
    let multiple = checked::lcm_of(numbers)?;
    Some((divisor, multiple))
}

// ---- coprime numbers

/// Returns `true` if two signed bytes are coprime. The greatest common divisor of -128 and 0 does not fit, and they
/// are not coprime.
pub fn bytes_are_coprime(a: i8, b: i8) -> bool
    ensures { IsTrue result ↔ IsGreatestCommonDivisor a b (pos 1) }
{
    is_coprime(a, b)
}
