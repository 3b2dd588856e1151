//! The next number that solves several congruences.

ghost use Rattle.std.specs.Prelude.{◌≡◌, ◌↔◌, pos, length, map, FitsSigned, IsTrue};
ghost use Rattle.std.specs.Int.{FitsUnsignedBits, w64};
ghost use Rattle.std.specs.List.{All};
ghost use Rattle.modular.specs.declared.congruent_numbers.Congruence.{Congruence};
ghost use Rattle.cellarcove_c.specs.Congruences.{HavePositiveModuli, IsNextOfSeveral, i64_congruences, u64_congruences};

use crate::answers::{BAD_MODULUS, I64Answer, OUTSIDE, U64Answer, common_with_status};
use modular::{Congruence, Modular, next_common_solution_of};
use num_integer::operators::{is_below, zero};
use num_integer::{Fits, Integer};

/// The most congruences of a call.
const MOST: usize = 64;

/// A congruence: the numbers that are `residue` modulo `modulus`.
#[repr(C)]
#[derive(Clone, Copy)]
pub struct I64Congruence {
    pub residue: i64,
    pub modulus: i64,
}

/// A congruence: the numbers that are `residue` modulo `modulus`.
#[repr(C)]
#[derive(Clone, Copy)]
pub struct U64Congruence {
    pub residue: u64,
    pub modulus: u64,
}

/// Returns the smallest number from `from` on that solves each of up to 64 congruences. No product of
/// their moduli need fit. For 10, and 1 modulo 4, 3 modulo 6 and 0 modulo 7, it is 21.
///
/// `OUTSIDE` if there are more congruences. `BAD_MODULUS` if a modulus is not positive. `NO_SOLUTION` if
/// there is no such number. `NOT_FITTING` if it does not fit.
#[unsafe(no_mangle)]
#[tactic(auto, using(crate::proofs::NumbersReadBack::read_back))]
pub extern "C" fn cellarcove_next_common_solution_of_i64(
    from: i64,
    congruences: &[I64Congruence],
) -> I64Answer
    ensures { IsNextOfSeveral (λ x. x) (FitsSigned w64) from (i64_congruences congruences.now) (pos 0)
        result.status result.value }
{
    let mut room = [Congruence::from((0, 1)); MOST];
    let (status, value) = next_of_several(from, congruences, &mut room, 0);
    I64Answer { status, value }
}

/// Returns the smallest number from `from` on that solves each of up to 64 congruences. No product of
/// their moduli need fit. For 10, and 1 modulo 4, 3 modulo 6 and 0 modulo 7, it is 21.
///
/// `OUTSIDE` if there are more congruences. `BAD_MODULUS` if a modulus is 0. `NO_SOLUTION` if there is
/// no such number. `NOT_FITTING` if it does not fit.
#[unsafe(no_mangle)]
pub extern "C" fn cellarcove_next_common_solution_of_u64(
    from: u64,
    congruences: &[U64Congruence],
) -> U64Answer
    ensures { IsNextOfSeveral (λ x. pos x) (FitsUnsignedBits 64) (pos from)
        (u64_congruences congruences.now) 0 result.status result.value }
{
    let mut room = [Congruence::from((0, 1)); MOST];
    let (status, value) = next_of_several(from, congruences, &mut room, 0);
    U64Answer { status, value }
}

/// A congruence as C passes it.
trait ForeignCongruence<T: Integer>: Copy {
    ghost congruence_of: { Self → Congruence T };

    /// Returns the congruence.
    fn congruence(self) -> Congruence<T>
        ensures congruence { result ≡ congruence_of self }
        ensures in_range { T.fits (T.value result.residue) × T.fits (T.value result.modulus) };
}

impl ForeignCongruence<i64> for I64Congruence {
    ghost congruence_of = { λ c. record { residue = c.residue; modulus = c.modulus } };

    fn congruence(self) -> Congruence<i64> {
        (self.residue, self.modulus).into()
    }
}

impl ForeignCongruence<u64> for U64Congruence {
    ghost congruence_of = { λ c. record { residue = c.residue; modulus = c.modulus } };

    fn congruence(self) -> Congruence<u64> {
        (self.residue, self.modulus).into()
    }
}

/// Returns the status and the value of the smallest number from `from` on that solves each of up to 64
/// congruences. If there is no result, the value is `zero`. It copies the congruences to `room`. For 10,
/// and 1 modulo 4 and 3 modulo 6, it returns 0 and 21.
fn next_of_several<T: Modular + Fits, C: ForeignCongruence<T>>(
    from: T,
    congruences: &[C],
    room: &mut [Congruence<T>],
    zero: T,
) -> (u32, T)
    requires in_range { T.fits (T.value from) × T.fits (T.value zero) }
    requires room { length room.old ≡ 64 }
    ensures next { IsNextOfSeveral T.value T.fits (T.value from) (map C.congruence_of congruences.now)
        zero result.0 result.1 }
    ensures in_range { T.fits (T.value result.1) }
{
    if congruences.len() > MOST {
        return (OUTSIDE, zero);
    }
    let copies = &mut room[..congruences.len()];
    if !copy(congruences, copies) {
        return (BAD_MODULUS, zero);
    }
    common_with_status(next_common_solution_of(from, copies), zero)
}

/// Copies the congruences and returns `true`, or returns `false` if a modulus is not positive.
fn copy<T: Integer + Copy, C: ForeignCongruence<T>>(
    congruences: &[C],
    copies: &mut [Congruence<T>],
) -> bool
    requires { length copies.old ≡ length congruences.now }
    ensures copies { IsTrue result → copies.new ≡ map C.congruence_of congruences.now }
    ensures in_range { IsTrue result
        → All (λ c. T.fits (T.value c.residue) × T.fits (T.value c.modulus)) copies.new }
    ensures each_positive { IsTrue result → HavePositiveModuli T.value copies.new }
    ensures positive { IsTrue result
        ↔ HavePositiveModuli T.value (map C.congruence_of congruences.now) }
{
    for i in 0..congruences.len() {
        let congruence = congruences[i].congruence();
        if !is_below(zero(), congruence.modulus) {
            return false;
        }
        copies[i] = congruence;
    }
    true
}
