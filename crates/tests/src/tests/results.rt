//! The result of each call at each type, in signs and magnitudes.
//!
//! Proving a generic call at a concrete type is slow, so `result` makes all of them, and a test compares plain data. What
//! `checked` returns is compared with what the call itself returns, and the call that counts.

ghost use Rattle.std.specs.Prelude.{IfSome};
ghost use Rattle.std.specs.List.{All};

use super::calls::Call;
use bounded_integers::{Bounded, PercentRange, Range};
use num_integer::counted::{SqrtCounted, binomial_counted, extended_gcd_counted};
use num_integer::{
    Average, Fits, IterBinomial, Roots, average_ceil, average_floor, binomial, cbrt, checked,
    div_ceil, div_floor, div_mod_floor, div_rem, gcd, gcd_lcm, lcm, mod_floor, nth_root, sqrt,
};
use num_traits::Signed;
use own_types::ranges::{OneBitRange, TwoBitsRange};
use own_types::signed_magnitude::SignedMagnitude;
use own_types::types::{Tested, Type};
use own_types::{Marked, Negated, Small};
use std::alloc::Global;

/// The numbers of a result. Those that it lacks are 0.
pub(crate) type Numbers = [SignedMagnitude; 4];

/// An allocator, a call and its operands.
type Ask<'a> = (Global, Call, &'a [SignedMagnitude]);

const ZERO: SignedMagnitude = (false, 0);

/// No call returns this, since 0 is not negative: two calls differ, or the type lacks an operand or the call.
const DIFFERENT: Numbers = [(true, 0), ZERO, ZERO, ZERO];

/// One number.
pub(crate) fn one(n: SignedMagnitude) -> Numbers {
    two(n, ZERO)
}

/// Two numbers.
pub(crate) fn two(a: SignedMagnitude, b: SignedMagnitude) -> Numbers {
    [a, b, ZERO, ZERO]
}

/// 1 for true, and 0 for false.
pub(crate) fn truth(holds: bool) -> Numbers {
    one((false, if holds { 1 } else { 0 }))
}

/// The number at this place, or 0 if there are fewer.
pub(crate) fn operand(operands: &[SignedMagnitude], place: usize) -> SignedMagnitude {
    match operands.get(place) {
        Some(n) => *n,
        None => ZERO,
    }
}

/// The numbers, if two calls return the same. A branch in each of the generic functions would be slow to prove.
fn if_same(same: bool, numbers: Numbers) -> Numbers {
    if same { numbers } else { DIFFERENT }
}

/// The number that two calls return.
fn agreed<T: Fits>(x: T, y: T) -> Numbers
    requires { T.fits (T.value x) }
{
    if_same(x == y, one(x.parts()))
}

/// The two numbers that two calls return.
fn both_agreed<T: Fits>(x: (T, T), y: (T, T)) -> Numbers
    requires { T.fits (T.value x.0) × T.fits (T.value x.1) }
{
    let same = (x.0 == y.0) & (x.1 == y.1);
    if_same(same, two(x.0.parts(), x.1.parts()))
}

/// The number that a call and the call that counts return, and the iterations.
fn counted<T: Fits>(x: T, y: (T, u32)) -> Numbers
    requires { T.fits (T.value x) }
{
    if_same(x == y.0, two(x.parts(), (false, u128::from(y.1))))
}

/// The number, if there is one.
fn number<T: Fits>(x: Option<T>) -> Option<Numbers>
    requires { IfSome x (λ n. T.fits (T.value n)) }
{
    match x {
        Some(n) => Some(one(n.parts())),
        None => None,
    }
}

/// The quotient and the remainder by `/` and `%`, if the quotient fits.
fn operators<T: Fits>(n: T, d: T) -> Option<(T, T)>
    requires n_in_range { T.fits (T.value n) }
    requires d_in_range { T.fits (T.value d) }
{
    if n.quotient_fits(&d) {
        Some((n / d, n % d))
    } else {
        None
    }
}

/// The greatest common divisor with its pair, and the iterations.
fn bezout<T: Fits>(a: &T, b: &T) -> Option<Numbers>
    requires in_range { T.fits (T.value a.now) × T.fits (T.value b.now) }
{
    let pair = checked::extended_gcd(*a, *b)?;
    let (other, iterations) = extended_gcd_counted(*a, *b);
    let last = (false, u128::from(iterations));
    let numbers = [pair.gcd.parts(), pair.x.parts(), pair.y.parts(), last];
    Some(if_same((pair == other) & (pair == a.extended_gcd(b)), numbers))
}

/// The greatest common divisor with its pair, and the least common multiple.
fn bezout_and_multiple<T: Signed + Fits>(a: &T, b: &T) -> Option<Numbers>
    requires in_range { T.fits (T.value a.now) × T.fits (T.value b.now) }
{
    let (pair, lcm) = checked::extended_gcd_lcm(*a, *b)?;
    let (other, multiple) = a.extended_gcd_lcm(b);
    let last = lcm.parts();
    let numbers = [pair.gcd.parts(), pair.x.parts(), pair.y.parts(), last];
    Some(if_same((pair == other) & (lcm == multiple), numbers))
}

/// The result of a call of divisors or of coefficients.
fn of_divisors<T: Fits>(call: Call, a: &T, b: &T) -> Option<Numbers>
    requires in_range { T.fits (T.value a.now) × T.fits (T.value b.now) }
{
    Some(match call {
        Call::Gcd => agreed(checked::gcd(*a, *b)?, gcd(*a, *b)),
        Call::GcdFits => truth(a.gcd_fits(b)),
        Call::Lcm => agreed(checked::lcm(*a, *b)?, lcm(*a, *b)),
        Call::LcmFits => truth(a.lcm_fits(b)),
        Call::GcdLcm => both_agreed(checked::gcd_lcm(*a, *b)?, gcd_lcm(*a, *b)),
        Call::CountedBezout => bezout(a, b)?,
        Call::Bezout => {
            let [gcd, x, y, _] = bezout(a, b)?;
            [gcd, x, y, ZERO]
        }
        Call::Binomial => agreed(checked::binomial(*a, *b)?, binomial(*a, *b)),
        Call::BinomialFits => truth(a.binomial_fits(b)),
        Call::CountedBinomial => counted(checked::binomial(*a, *b)?, binomial_counted(*a, *b)),
        _ => DIFFERENT,
    })
}

/// The result of a call of division, or of another one.
fn of_division<T: Fits>(call: Call, n: &T, d: &T) -> Option<Numbers>
    requires in_range { T.fits (T.value n.now) × T.fits (T.value d.now) }
{
    Some(match call {
        Call::DivRem => both_agreed(checked::div_rem(*n, *d)?, div_rem(*n, *d)),
        Call::Operators => both_agreed(checked::div_rem(*n, *d)?, operators(*n, *d)?),
        Call::DivFloor => agreed(checked::div_floor(*n, *d)?, div_floor(*n, *d)),
        Call::ModFloor => agreed(checked::mod_floor(*n, *d)?, mod_floor(*n, *d)),
        Call::DivModFloor => both_agreed(checked::div_mod_floor(*n, *d)?, div_mod_floor(*n, *d)),
        Call::DivCeil => agreed(checked::div_ceil(*n, *d)?, div_ceil(*n, *d)),
        Call::NextMultipleOf => agreed(checked::next_multiple_of(*n, *d)?, n.next_multiple_of(d)),
        Call::PrevMultipleOf => agreed(checked::prev_multiple_of(*n, *d)?, n.prev_multiple_of(d)),
        Call::IsMultipleOf => truth(n.is_multiple_of(d)),
        Call::Divides => truth(n.divides(d)),
        Call::QuotientFits => truth(n.quotient_fits(d)),
        Call::NextMultipleFits => truth(n.next_multiple_fits(d)),
        Call::PrevMultipleFits => truth(n.prev_multiple_fits(d)),
        _ => return of_divisors(call, n, d),
    })
}

/// The result of a call of one operand, of a sum or a product, of averages, or of another call.
fn of_pair<T: Tested>(call: Call, x: &T, y: &T) -> Option<Numbers>
    requires in_range { T.fits (T.value x.now) × T.fits (T.value y.now) }
{
    match call {
        Call::Inc => {
            let (more, mut next) = (checked::inc(*x)?, *x);
            next.inc();
            Some(agreed(more, next))
        }
        Call::Dec => {
            let (less, mut previous) = (checked::dec(*x)?, *x);
            previous.dec();
            Some(agreed(less, previous))
        }
        Call::Negated => number(checked::negated(*x)),
        Call::Parts => Some(one(x.parts())),
        Call::IsEven => Some(truth(x.is_even())),
        Call::IsOdd => Some(truth(x.is_odd())),
        Call::Sum => number(checked::sum(*x, *y)),
        Call::Difference => number(checked::difference(*x, *y)),
        Call::Product => number(checked::product(*x, *y)),
        Call::AverageFloor => Some(one(average_floor(*x, *y).parts())),
        Call::AverageCeil => Some(one(average_ceil(*x, *y).parts())),
        Call::CountedGcd => Some(counted(checked::gcd(*x, *y)?, x.gcd_and_iterations(y)?)),
        _ => of_division(call, x, y),
    }
}

/// The numbers as values of the type, if it has them and memory is left.
fn values<T: Tested>(alloc: Global, numbers: &[SignedMagnitude]) -> Option<Vec<T>>
    ensures { IfSome result (λ v. All (λ x. T.fits (T.value x)) v.items) }
{
    let mut values = Vec::new(alloc);
    for number in numbers {
        let value = T::from_signed_magnitude(*number)?;
        if values.push(value).is_err() {
            return None;
        }
    }
    Some(values)
}

/// The multinomial of the counts, or whether it fits the type.
fn of_counts<T: Tested>((alloc, call, counts): Ask) -> Option<Numbers> {
    let Some(counts) = values::<T>(alloc, counts) else {
        return Some(DIFFERENT);
    };
    if matches!(call, Call::MultinomialFits) {
        return Some(truth(T::multinomial_fits(&counts)));
    }
    let multinomial = checked::multinomial(&counts)?;
    Some(agreed(multinomial, num_integer::multinomial(&counts)))
}

/// Whether the row has all numbers but the first as its items, and no more.
fn has_items<T: Tested>(mut row: IterBinomial<T>, numbers: &[SignedMagnitude]) -> bool {
    let mut same = true;
    for place in 1..numbers.len() {
        let item = T::from_signed_magnitude(operand(numbers, place));
        same &= item.is_some() & (row.next() == item);
    }
    same & row.next().is_none() & row.next().is_none()
}

/// Whether two calls return the row of the first number, and the other numbers are its items.
fn of_row<T: Tested>(n: T, numbers: &[SignedMagnitude]) -> Option<Numbers>
    requires { T.fits (T.value n) }
{
    let row = checked::row(n)?;
    let same = has_items(row, numbers) & has_items(IterBinomial::new(n), numbers);
    Some(truth(same))
}

/// The operand at this place as a value of the type, if the type has it.
fn value<T: Tested>(ask: Ask, place: usize) -> Option<T>
    ensures { IfSome result (λ x. T.fits (T.value x)) }
{
    T::from_signed_magnitude(operand(ask.2, place))
}

/// The result at any type.
fn of_each<T: Tested>(ask: Ask) -> Option<Numbers> {
    match (ask.1, value::<T>(ask, 0), value::<T>(ask, 1)) {
        (Call::Ends, _, _) => Some(two((false, T::ends().0), (false, T::ends().1))),
        (Call::Multinomial | Call::MultinomialFits, _, _) => of_counts::<T>(ask),
        (Call::Fits, x, _) => Some(truth(x.is_some())),
        (Call::Row, Some(n), _) => of_row(n, ask.2),
        (call, Some(x), Some(y)) => of_pair(call, &x, &y),
        _ => Some(DIFFERENT),
    }
}

/// The result at a type with roots. The second operand of `Root` is the degree.
fn of_rooted<T: Roots + Tested>(ask: Ask) -> Option<Numbers> {
    let degree = u32::try_from(operand(ask.2, 1).1);
    match (ask.1, value::<T>(ask, 0), degree) {
        (Call::Sqrt, Some(x), _) => Some(agreed(checked::sqrt(x)?, sqrt(x))),
        (Call::Cbrt, Some(x), _) => Some(one(cbrt(x).parts())),
        (Call::Root, Some(x), Ok(n)) => Some(agreed(checked::nth_root(x, n)?, nth_root(x, n))),
        _ => of_each::<T>(ask),
    }
}

/// The result at a type whose square roots are counted.
fn of_counted<T: SqrtCounted + Tested>(ask: Ask) -> Option<Numbers> {
    match (ask.1, value::<T>(ask, 0)) {
        (Call::CountedRoot, Some(x)) => Some(counted(checked::sqrt(x)?, x.sqrt_counted())),
        _ => of_rooted::<T>(ask),
    }
}

/// The result at a type with a sign.
fn of_signed<T: Signed + Tested>(ask: Ask) -> Option<Numbers> {
    match (ask.1, value::<T>(ask, 0), value::<T>(ask, 1)) {
        (Call::BezoutAndMultiple, Some(x), Some(y)) => bezout_and_multiple(&x, &y),
        _ => of_each::<T>(ask),
    }
}

/// The result at a type with a sign whose square roots are counted.
fn of_signed_counted<T: Signed + SqrtCounted + Tested>(ask: Ask) -> Option<Numbers> {
    match ask.1 {
        Call::BezoutAndMultiple => of_signed::<T>(ask),
        _ => of_counted::<T>(ask),
    }
}

/// The result at a type of this range: one proof for all of them.
fn of_range<R: Range>(ask: Ask) -> Option<Numbers> {
    of_rooted::<Bounded<R>>(ask)
}

/// The result of the call at the type, or `None` if the operands do not meet its precondition.
pub(crate) fn result(
    alloc: Global,
    it: Type,
    call: Call,
    operands: &[SignedMagnitude],
) -> Option<Numbers> {
    let ask = (alloc, call, operands);
    match it {
        Type::I8 => of_signed_counted::<i8>(ask),
        Type::I16 => of_signed_counted::<i16>(ask),
        Type::I32 => of_signed_counted::<i32>(ask),
        Type::I64 => of_signed_counted::<i64>(ask),
        Type::Isize => of_signed_counted::<isize>(ask),
        Type::I128 => of_signed::<i128>(ask),
        Type::U8 => of_counted::<u8>(ask),
        Type::U16 => of_counted::<u16>(ask),
        Type::U32 => of_counted::<u32>(ask),
        Type::U64 => of_counted::<u64>(ask),
        Type::Usize => of_counted::<usize>(ask),
        Type::U128 => of_each::<u128>(ask),
        Type::Percent => of_range::<PercentRange>(ask),
        Type::Small => of_signed::<Small>(ask),
        Type::Negated => of_signed::<Negated>(ask),
        Type::Marked => of_signed::<Marked>(ask),
        Type::OneBit => of_range::<OneBitRange>(ask),
        Type::TwoBits => of_range::<TwoBitsRange>(ask),
    }
}
