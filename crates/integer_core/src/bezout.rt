//! The extended Euclidean algorithm (Knuth, The Art of Computer Programming, volume 2, section
//! 4.5.2, algorithm X). The loop here stops one iteration earlier.

ghost use Rattle.std.specs.Prelude.{◌≡◌, ◌≢◌, ◌≤◌, ◌+◌, ◌*◌, ◌*ℤ◌, pos, unsigned_abs};
ghost use Rattle.std.specs.Option.{MatchOption};
ghost use Rattle.integer_core.specs.Bezout.{AreEuclidIterations, EuclidEnds, HasPair, IsBezoutAnswer, IsEuclidIteration, IsSmallPair, NeedsBoth, sign};
ghost use Rattle.integer_core.specs.Division.{IsTruncated};
ghost use Rattle.integer_core.specs.Divisors.{Divides, GcdFits, IsGreatestCommonDivisor};
ghost use Rattle.integer_core.specs.Fibonacci.{fibonacci};
ghost use Rattle.integer_core.specs.Only.{IsOnly};
ghost use Rattle.integer_core.specs.Runs.{RunHasIterations};

use crate::Integer;
use crate::fitting::{difference, negated, product};
use crate::guards::check_pair;
use crate::operators::{is_minus_one, is_negative, is_zero, one, zero};

/// A greatest common divisor with Bezout's coefficients: for the operands `a` and `b`, `a * x + b * y`
/// equals `gcd`. `240.extended_gcd(&46)` is `ExtendedGcd { gcd: 2, x: -9, y: 47 }`.
#[derive(Debug, Clone, Copy, PartialEq, Eq, Hash)]
pub struct ExtendedGcd<A> {
    /// The greatest common divisor. For 240 and 46 it is 2.
    pub gcd: A,
    /// The coefficient of the first operand. For 240 and 46 it is -9.
    pub x: A,
    /// The coefficient of the second operand. For 240 and 46 it is 47.
    pub y: A,
}

/// A row of the algorithm's table: for the operands `a` and `b`, `a * x + b * y` equals `remainder`.
#[derive(Drop)]
struct Row<A> {
    remainder: A,
    x: A,
    y: A,
}

impl<T: Integer + Copy> Row<T> {
    /// Returns the first operand as a row.
    fn of_first(a: T) -> Self
        ensures remainder { T.value result.remainder ≡ T.value a }
        ensures x { T.value result.x ≡ pos 1 }
        ensures y { T.value result.y ≡ pos 0 }
    {
        Self {
            remainder: a,
            x: one(),
            y: zero(),
        }
    }

    /// Returns the row as a result, and negates all three numbers if the remainder is negative.
    fn normalized(self) -> ExtendedGcd<T>
        requires gcd_fits { T.fits (sign (T.value self.remainder) *ℤ T.value self.remainder) }
        requires x_fits { T.fits (sign (T.value self.remainder) *ℤ T.value self.x) }
        requires y_fits { T.fits (sign (T.value self.remainder) *ℤ T.value self.y) }
        ensures in_range { T.fits (T.value result.gcd) × T.fits (T.value result.x)
            × T.fits (T.value result.y) }
        ensures gcd { T.value result.gcd
            ≡ sign (T.value self.remainder) *ℤ T.value self.remainder }
        ensures x { T.value result.x ≡ sign (T.value self.remainder) *ℤ T.value self.x }
        ensures y { T.value result.y ≡ sign (T.value self.remainder) *ℤ T.value self.y }
    {
        if is_negative(*&self.remainder) {
            ExtendedGcd {
                gcd: negated(self.remainder),
                x: negated(self.x),
                y: negated(self.y),
            }
        } else {
            ExtendedGcd {
                gcd: self.remainder,
                x: self.x,
                y: self.y,
            }
        }
    }
}

/// Returns the quotient rounded toward zero and its remainder, or `None` if `d` divides `n`. By one division
/// the loop below both tests and makes its next row. By -1 it does not divide: the quotient need not fit.
#[inline]
fn inexact_division<T: Integer + Copy>(n: &T, d: &T) -> Option<(T, T)>
    requires in_range { T.fits (T.value n.now) × T.fits (T.value d.now) }
    requires nonzero { T.value d.now ≢ pos 0 }
    ensures { MatchOption result (Divides (T.value d.now) (T.value n.now))
        (λ (q, r). (¬ (Divides (T.value d.now) (T.value n.now))) × ((T.fits (T.value q) × T.fits (T.value r))
        × IsTruncated (T.value n.now) (T.value d.now) (T.value q) (T.value r))) }
{
    if is_minus_one(*d) {
        return None;
    }
    let (quotient, remainder) = n.div_rem(d);
    if is_zero(*&remainder) {
        None
    } else {
        Some((quotient, remainder))
    }
}

/// Returns the row whose remainder is the greatest common divisor up to its sign, and the number of
/// iterations. The loop never computes the row with the remainder 0, whose coefficients need not fit.
fn last_row<T: Integer + Copy>(a: T, b: T) -> (Row<T>, u32)
    requires in_range { T.fits (T.value a) × T.fits (T.value b) }
    requires nonzero { T.value b ≢ pos 0 }
    requires has_pair { HasPair T.fits (T.value a) (T.value b) }
    ensures x_fits { T.fits (sign (T.value result.0.remainder) *ℤ T.value result.0.x) }
    ensures y_fits { T.fits (sign (T.value result.0.remainder) *ℤ T.value result.0.y) }
    ensures greatest { IsGreatestCommonDivisor (T.value a) (T.value b)
        (pos (unsigned_abs (T.value result.0.remainder))) }
    ensures at_once { Divides (T.value b) (T.value a)
        → (T.value result.0.remainder ≡ T.value b)
        × (T.value result.0.x ≡ pos 0) × (T.value result.0.y ≡ pos 1) }
    ensures after_iterations { ¬ (Divides (T.value b) (T.value a))
        → IsSmallPair (T.value a) (T.value b)
        (T.value result.0.remainder) (T.value result.0.x) (T.value result.0.y) }
    ensures iterations { RunHasIterations IsEuclidIteration EuclidEnds
        (record { current = T.value b; previous = T.value a }) result.1 }
{
    let mut previous = Row::of_first(a);
    let mut current = Row {
        remainder: b,
        x: zero(),
        y: one(),
    };
    let mut iterations = 0;
    'rows: while let Some((q, r)) = inexact_division(&previous.remainder, &current.remainder) {
        let x = difference(previous.x, product(*&q, *&current.x));
        let y = difference(previous.y, product(q, *&current.y));
        previous = current;
        current = Row { remainder: r, x, y };
        iterations += 1;
    }
    (current, iterations)
}

/// Returns [`Integer::extended_gcd`] and the number of iterations of its loop. `extended_gcd_counted(8, 13)` is
/// `(ExtendedGcd { gcd: 1, x: 5, y: -3 }, 5)`. The bound on the iterations is Lamé's (1844); 8 and 13 reach
/// it.
///
/// # Panics
///
/// In plain Rust, if the greatest common divisor does not fit, or if the type is unsigned and neither number
/// divides the other.
pub fn extended_gcd_counted<T: Integer + Copy>(a: T, b: T) -> (ExtendedGcd<T>, u32)
    requires a_in_range { T.fits (T.value a) }
    requires b_in_range { T.fits (T.value b) }
    requires gcd_fits { GcdFits T.fits (T.value a) (T.value b) }
    requires has_pair { HasPair T.fits (T.value a) (T.value b) }
    ensures in_range { T.fits (T.value result.0.gcd) × T.fits (T.value result.0.x)
        × T.fits (T.value result.0.y) }
    ensures answer { IsBezoutAnswer (T.value a) (T.value b)
        (T.value result.0.gcd) (T.value result.0.x) (T.value result.0.y) }
    ensures only { NeedsBoth (T.value a) (T.value b)
        → IsOnly (λ (x, y). IsSmallPair (T.value a) (T.value b) (T.value result.0.gcd) x y)
        (T.value result.0.x, T.value result.0.y) }
    ensures iterations { AreEuclidIterations (T.value a) (T.value b) result.1 }
    ensures bound { T.value b ≢ pos 0
        → fibonacci (result.1 + 2) * unsigned_abs (T.value result.0.gcd)
        ≤ unsigned_abs (T.value b) }
{
    check_pair(&a, &b, "no pair of coefficients fits the unsigned type");
    if is_zero(*&b) {
        (Row::of_first(a).normalized(), 0)
    } else {
        let (row, iterations) = last_row(a, b);
        (row.normalized(), iterations)
    }
}
