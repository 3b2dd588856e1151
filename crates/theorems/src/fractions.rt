//! What is proved of `ratio64` beside the main theorems.

ghost use Rattle.std.specs.Prelude.{◌≡◌, ◌↔◌, ◌<ℤ◌, ◌*ℤ◌, Err, IfSome, IsTrue, MatchOption, neg_ℤ, pos, ℤ};
ghost use Rattle.num_integer.specs.Only.{IsOnly};
ghost use Rattle.ratio64.specs.Fraction.{AreEqual, IsExact, IsFraction, IsOutsideI64, fraction_cmp};
ghost use Rattle.ratio64.specs.Limiting.{IsNearestWithin};
ghost use Rattle.ratio64.specs.Ratio.{AnswersFraction, den_of, num_of};

use num_integer::Integer;
use ratio64::{Ratio, RatioError};
use std::cmp::Ordering;

/// Returns the parts of the exact result, or `None` if one of them does not fit. The exact result is unique.
pub fn exact_parts(num: i64, den: i64) -> Option<(i64, i64)>
    requires { IsFraction num den }
    ensures parts { MatchOption result (IsOutsideI64 num den) (λ p. IsExact num den p.0 p.1) }
    ensures only { IfSome result (λ p. IsOnly (λ (n, d). IsExact num den n d) (p.0, p.1)) }
{
    match Ratio::new(num, den) {
        Ok(x) => Some((x.num(), x.den())),
        Err(_) => None,
    }
}

/// `is_integer(i64::MIN, -1)` is `true`, although `Ratio::new(i64::MIN, -1)` returns an error. Returns `true` if the
/// fraction is an integer.
pub fn is_integer(num: i64, den: i64) -> bool
    requires { IsFraction num den }
    ensures { IsTrue result ↔ ((n d : ℤ) → IsExact num den n d → d ≡ pos 1) }
{
    num.is_multiple_of(&den)
}

/// Returns the number as a fraction, which always fits.
pub fn integer_by_new(number: i64) -> Ratio
    ensures num { num_of result ≡ number }
    ensures den { den_of result ≡ pos 1 }
{
    Ratio::new(number, 1).unwrap()
}

/// Returns `true` if the fraction is 0. Its parts are then 0 and 1.
pub fn is_zero(x: &Ratio) -> bool
    ensures { IsTrue result ↔ ((num_of x.now ≡ pos 0) × (den_of x.now ≡ pos 1)) }
{
    x.num() == 0
}

/// Makes the fraction `c / d` from `a / b`, which is equal to it. Returns an error only if a part of it does not fit.
pub fn new_from_equal(a: i64, b: i64, c: i64, d: i64) -> Result<Ratio, RatioError>
    requires given { IsFraction a b }
    requires fraction { IsFraction c d }
    requires equal { AreEqual a b c d }
    ensures { AnswersFraction c d result }
{
    Ratio::new(a, b)
}

/// Returns `true` if the first fraction is less than the second, and the second is less than the third. Then the first
/// is less than the third.
pub fn are_ascending(x: &Ratio, y: &Ratio, z: &Ratio) -> bool
    ensures ascending { IsTrue result
        ↔ ((fraction_cmp (num_of x.now) (den_of x.now) (num_of y.now) (den_of y.now) ≡ Ordering.Less)
        × (fraction_cmp (num_of y.now) (den_of y.now) (num_of z.now) (den_of z.now) ≡ Ordering.Less)) }
    ensures ends { IsTrue result
        → fraction_cmp (num_of x.now) (den_of x.now) (num_of z.now) (den_of z.now) ≡ Ordering.Less }
{
    matches!((x.cmp(y), y.cmp(z)), (Ordering::Less, Ordering::Less))
}

/// Returns -1 if the first is less than the second, 0 if they are equal, and 1 if it is greater.
pub fn sign_of_difference(x: &Ratio, y: &Ratio) -> i64
    ensures below { (result ≡ neg_ℤ (pos 1))
        ↔ ((num_of x.now *ℤ den_of y.now) <ℤ (num_of y.now *ℤ den_of x.now)) }
    ensures level { (result ≡ pos 0)
        ↔ (num_of x.now *ℤ den_of y.now ≡ num_of y.now *ℤ den_of x.now) }
    ensures above { (result ≡ pos 1)
        ↔ ((num_of y.now *ℤ den_of x.now) <ℤ (num_of x.now *ℤ den_of y.now)) }
{
    match x.cmp(y) {
        Ordering::Less => -1,
        Ordering::Equal => 0,
        Ordering::Greater => 1,
    }
}

/// Returns `Less`: of two fractions with the same denominator, the one with the smaller numerator is smaller. The contract
/// also holds of a body that makes no call. The theorem is that this call meets it.
pub fn order_over_one_denominator(x: &Ratio, y: &Ratio) -> Ordering
    requires denominator { den_of x.now ≡ den_of y.now }
    requires numerators { num_of x.now <ℤ num_of y.now }
    ensures { result ≡ Ordering.Less }
{
    x.cmp(y)
}

/// Returns the parts of the nearest fraction that `limit_denominator` finds. They are `num` and `den`, since the
/// nearest fraction is unique. The contract also holds of a body that makes no call. The theorem is that these calls meet
/// it.
pub fn nearest_is_unique(x: &Ratio, max: i64, num: i64, den: i64) -> (i64, i64)
    requires positive { pos 0 <ℤ max }
    requires nearest { IsNearestWithin (num_of x.now) (den_of x.now) max num den }
    ensures { result ≡ (num, den) }
{
    let nearest = x.limit_denominator(max);
    (nearest.num(), nearest.den())
}
