//! The calls. Each adds its result to a checksum, if it has one.

ghost use Rattle.std.specs.List.{All};

use super::checksum::Checksum;
use num_integer::operators::is_zero;
use num_integer::{
    ExtendedGcd, Fits, IterBinomial, Roots, average_ceil, average_floor, binomial, cbrt, checked,
    gcd_lcm, lcm,
};
use num_traits::Signed;
use own_types::types::Tested;

/// A call.
#[derive(Clone, Copy, Debug)]
pub(crate) enum Call {
    DivRem,
    DivFloor,
    ModFloor,
    DivModFloor,
    DivCeil,
    NextMultipleOf,
    PrevMultipleOf,
    IsMultipleOf,
    Divides,
    IsEvenIsOdd,
    Gcd,
    Lcm,
    GcdLcm,
    ExtendedGcd,
    AverageFloor,
    AverageCeil,
    Binomial,
    ExtendedGcdLcm,
    Sqrt,
    Cbrt,
    NthRoot,
    Multinomial,
    IterBinomial,
}

/// A call of two operands at a type.
pub(crate) trait OfPair<T: Tested> {
    /// The checksum with the result, or `None` if the call is not made.
    fn with_answer(&self, sum: Checksum, x: T, y: T) -> Option<Checksum>
        requires x_in_range { T.fits (T.value x) }
        requires y_in_range { T.fits (T.value y) };
}

/// The calls of two operands that each type has. If the divisor is 0, version 0.1.44 of the Rust
/// crate panics in `is_multiple_of` and `divides`. If `checked` does not make the plain call, both are made.
impl<T: Tested> OfPair<T> for Call {
    fn with_answer(&self, sum: Checksum, x: T, y: T) -> Option<Checksum> {
        Some(match self {
            Call::DivRem => with_values(sum, checked::div_rem(x, y)?),
            Call::DivFloor => with_value(sum, checked::div_floor(x, y)?),
            Call::ModFloor => with_value(sum, checked::mod_floor(x, y)?),
            Call::DivModFloor => with_values(sum, checked::div_mod_floor(x, y)?),
            Call::DivCeil => with_value(sum, checked::div_ceil(x, y)?),
            Call::NextMultipleOf => with_value(sum, checked::next_multiple_of(x, y)?),
            Call::PrevMultipleOf => with_value(sum, checked::prev_multiple_of(x, y)?),
            Call::IsMultipleOf if !is_zero(y) => with_truth(sum, x.is_multiple_of(&y)),
            Call::Divides if !is_zero(y) => with_truth(sum, x.divides(&y)),
            Call::IsEvenIsOdd => with_truth(with_truth(sum, x.is_even()), y.is_odd()),
            Call::Gcd => with_value(sum, checked::gcd(x, y)?),
            Call::Lcm => with_agreed(sum, checked::lcm(x, y)?, lcm(x, y))?,
            Call::GcdLcm => with_both_agreed(sum, checked::gcd_lcm(x, y)?, gcd_lcm(x, y))?,
            Call::ExtendedGcd if has_asked_pair(x.parts().1, y.parts().1) => {
                with_bezout(sum, checked::extended_gcd(x, y)?)
            }
            Call::AverageFloor => with_value(sum, average_floor(x, y)),
            Call::AverageCeil => with_value(sum, average_ceil(x, y)),
            Call::Binomial => with_agreed(sum, checked::binomial(x, y)?, binomial(x, y))?,
            _ => return None,
        })
    }
}

/// The checksum with the number.
pub(crate) fn with_value<T: Fits>(sum: Checksum, x: T) -> Checksum
    requires { T.fits (T.value x) }
{
    sum.with(x.parts())
}

/// The checksum with both numbers.
pub(crate) fn with_values<T: Fits>(sum: Checksum, both: (T, T)) -> Checksum
    requires first_in_range { T.fits (T.value both.0) }
    requires second_in_range { T.fits (T.value both.1) }
{
    sum.with(both.0.parts()).with(both.1.parts())
}

/// The checksum with the number that two calls return. If they differ, it is `None`, and the line lacks a result.
fn with_agreed<T: Fits>(sum: Checksum, x: T, y: T) -> Option<Checksum>
    requires { T.fits (T.value x) }
{
    if x == y {
        Some(with_value(sum, x))
    } else {
        None
    }
}

/// The same of two numbers.
fn with_both_agreed<T: Fits>(sum: Checksum, x: (T, T), y: (T, T)) -> Option<Checksum>
    requires first_in_range { T.fits (T.value x.0) }
    requires second_in_range { T.fits (T.value x.1) }
{
    with_agreed(with_agreed(sum, x.0, y.0)?, x.1, y.1)
}

fn with_truth(sum: Checksum, holds: bool) -> Checksum {
    sum.with((false, u128::from(holds)))
}

/// Whether numbers of these magnitudes are asked for their pair: if the Rust crate panics at a pair, its
/// result comes from `i128`.
fn has_asked_pair(a: u128, b: u128) -> bool {
    a.leading_zeros() > 0 && b.leading_zeros() > 0
}

/// The checksum with the three numbers.
fn with_bezout<T: Fits>(sum: Checksum, answer: ExtendedGcd<T>) -> Checksum
    requires gcd_in_range { T.fits (T.value answer.gcd) }
    requires x_in_range { T.fits (T.value answer.x) }
    requires y_in_range { T.fits (T.value answer.y) }
{
    with_values(with_value(sum, answer.gcd), (answer.x, answer.y))
}

/// The call `extended_gcd_lcm`, which only types with a sign have.
pub(crate) struct BezoutAndMultiple;

impl<T: Signed + Tested> OfPair<T> for BezoutAndMultiple {
    fn with_answer(&self, sum: Checksum, a: T, b: T) -> Option<Checksum> {
        let (pair, lcm) = checked::extended_gcd_lcm(a, b)?;
        let (other, multiple) = a.extended_gcd_lcm(&b);
        if pair == other {
            with_agreed(with_bezout(sum, pair), lcm, multiple)
        } else {
            None
        }
    }
}

/// The checksum with the root, and before it the degree if the call takes one. It is `None` if the number has no root
/// of this degree.
pub(crate) fn with_root<T: Roots + Fits>(
    call: Call,
    sum: Checksum,
    x: T,
    degree: u32,
) -> Option<Checksum>
    requires { T.fits (T.value x) }
{
    match call {
        Call::Sqrt => Some(with_value(sum, checked::sqrt(x)?)),
        Call::Cbrt => Some(with_value(sum, cbrt(x))),
        Call::NthRoot => {
            let sum = sum.with((false, u128::from(degree)));
            Some(with_value(sum, checked::nth_root(x, degree)?))
        }
        _ => None,
    }
}

/// The checksum with the counts and their multinomial, or `None` if it does not fit.
pub(crate) fn with_multinomial<T: Fits>(sum: Checksum, counts: &[T]) -> Option<Checksum>
    requires { All (λ x. T.fits (T.value x)) counts.now }
{
    let multinomial = checked::multinomial(counts)?;
    let other = num_integer::multinomial(counts);
    let mut sum = sum;
    for count in counts {
        sum = with_value(sum, *count);
    }
    with_agreed(sum, multinomial, other)
}

/// The checksum with the items of the row.
pub(crate) fn with_row<T: Fits>(sum: Checksum, row: IterBinomial<T>) -> Checksum
    requires { All T.fits row }
{
    let mut sum = sum;
    for item in row {
        sum = with_value(sum, item);
    }
    sum
}
