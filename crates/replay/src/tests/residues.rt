//! The calls of `modular` on few numbers of a type, each with each.

ghost use Rattle.std.specs.Prelude.{◌<ℤ◌, pos};
ghost use Rattle.std.specs.List.{All};

use super::calls::{with_value, with_values};
use super::checksum::Checksum;
use super::lines::CallAt;
use super::spread::{OfThree, each_three, spread_of};
use super::walks::{Answered, values};
use modular::{
    CommonSolution, Congruence, Modular, chinese_remainder, count_congruent, difference_modulo,
    inverse_modulo, negation_modulo, next_common_solution, next_congruent, power_modulo,
    previous_congruent, product_modulo, quotient_modulo, residue, solutions, sum_modulo,
};
use num_integer::Fits;
use num_integer::operators::{is_below, zero};
use own_types::types::{Tested, Type};
use std::alloc::Global;
use std::process::Abort;

/// A call. The last two take two moduli.
#[derive(Clone, Copy, Debug)]
pub(crate) enum Residues {
    Residue,
    Negation,
    Sum,
    Difference,
    Product,
    /// The exponent is the magnitude of the second number.
    Power,
    Inverse,
    Quotient,
    Solutions,
    /// The next congruent number.
    Next,
    /// The previous congruent number.
    Previous,
    /// The congruent numbers between the first two have the residue of the first.
    CountCongruent,
    ChineseRemainder,
    /// The next number from the second on that solves both congruences.
    NextSolution,
}

/// How many indices give the numbers of a call with two moduli.
const FOR_TWO_MODULI: u32 = 24;

impl<T: Modular + Tested> OfThree<T> for Residues {
    fn with_result(&self, sum: Checksum, a: T, b: T, m: T) -> Option<Checksum> {
        let number = match self {
            Residues::Residue => residue(a, m),
            Residues::Negation => negation_modulo(a, m),
            Residues::Sum => sum_modulo(a, b, m),
            Residues::Difference => difference_modulo(a, b, m),
            Residues::Product => product_modulo(a, b, m),
            Residues::Power => power_modulo(a, b.parts().1, m),
            Residues::Inverse => inverse_modulo(a, m)?,
            Residues::Quotient => quotient_modulo(a, b, m)?,
            Residues::Next => next_congruent(a, b, m)?,
            Residues::Previous => previous_congruent(a, b, m)?,
            Residues::CountCongruent => count_congruent(a, b, a, m)?,
            _ => return Some(with_values(sum, solutions(a, b, m)?)),
        };
        Some(with_value(sum, number))
    }
}

/// The checksum with the result of a call with two moduli. A solution beyond the type is counted as -0, which
/// is no number.
fn with_result_of_two<T: Modular + Fits>(
    call: Residues,
    sum: Checksum,
    a: Congruence<T>,
    b: Congruence<T>,
) -> Option<Checksum>
    requires a_in_range { T.fits (T.value a.residue) × T.fits (T.value a.modulus) }
    requires b_in_range { T.fits (T.value b.residue) × T.fits (T.value b.modulus) }
    requires positive { pos 0 <ℤ T.value a.modulus × pos 0 <ℤ T.value b.modulus }
{
    match call {
        Residues::ChineseRemainder if a.modulus.lcm_fits(&b.modulus) => {
            let class = chinese_remainder(a, b)?;
            Some(with_values(sum, (class.residue, class.modulus)))
        }
        Residues::NextSolution => match next_common_solution(b.residue, a, b) {
            CommonSolution::At(t) => Some(with_value(sum, t)),
            CommonSolution::Beyond => Some(sum.with((true, 0))),
            CommonSolution::Never => None,
        },
        _ => None,
    }
}

/// What the call makes of a number and a modulus and each of the numbers with each modulus among them.
fn of_first<T: Modular + Tested>(
    call: Residues,
    so_far: Answered,
    numbers: &[T],
    first: Congruence<T>,
) -> Answered
    requires first_in_range { T.fits (T.value first.residue) × T.fits (T.value first.modulus) }
    requires positive { pos 0 <ℤ T.value first.modulus }
    requires numbers_in_range { All (λ x. T.fits (T.value x)) numbers.now }
{
    let mut answered = so_far;
    for b in numbers {
        for n in numbers {
            if is_below(zero(), *n) {
                let sum = with_values(answered.1, (first.residue, first.modulus));
                let second = Congruence {
                    residue: *b,
                    modulus: *n,
                };
                let sum = with_values(sum, (*b, *n));
                answered = answered.and(with_result_of_two(call, sum, first, second));
            }
        }
    }
    answered
}

/// What the call makes of each two of the numbers and each two moduli among them.
fn of_two_moduli<T: Modular + Tested>(rt: &impl Abort, alloc: Global, call: Residues) -> Answered {
    let numbers = values::<T>(rt, alloc, &spread_of::<T>(rt, alloc, FOR_TWO_MODULI));
    let mut answered = Answered::none();
    for a in &numbers {
        for m in &numbers {
            if is_below(zero(), *m) {
                let first = Congruence {
                    residue: *a,
                    modulus: *m,
                };
                answered = of_first(call, answered, &numbers, first);
            }
        }
    }
    answered
}

fn answers<T: Modular + Tested>(rt: &impl Abort, alloc: Global, call: Residues) -> Answered {
    match call {
        Residues::ChineseRemainder | Residues::NextSolution => {
            of_two_moduli::<T>(rt, alloc, call)
        }
        _ => each_three::<T, Residues>(rt, alloc, &call),
    }
}

impl CallAt<Type> for Residues {
    fn results<R: Abort>(&self, rt: &R, alloc: Global, it: Type) -> Answered {
        match it {
            Type::I16 => answers::<i16>(rt, alloc, *self),
            Type::I64 => answers::<i64>(rt, alloc, *self),
            Type::U64 => answers::<u64>(rt, alloc, *self),
            Type::I128 => answers::<i128>(rt, alloc, *self),
            _ => answers::<u128>(rt, alloc, *self),
        }
    }
}
