//! Common divisors and multiples.

ghost use Rattle.std.specs.Prelude.{◌≡◌, ℕ, ℤ, pos, FitsSigned};
ghost use Rattle.std.specs.Int.{FitsUnsignedBits, w64};
ghost use Rattle.num_integer.specs.Bezout.{HasPair, IsBezoutAnswer};
ghost use Rattle.num_integer.specs.Divisors.{GcdFits, IsGreatestCommonDivisor, IsLeastCommonMultiple};
ghost use Rattle.num_integer.specs.Range.{EachFits};
ghost use Rattle.cellarcove_c.specs.Answers.{Answers, I64Answers, I64Fitting, U64Answers, U64Fitting};
ghost use Rattle.cellarcove_c.specs.Statuses.{StatusIs, not_fitting};

use crate::answers::{ANSWER, I64Answer, NOT_FITTING, U64Answer, with_status};
use num_integer::checked;

/// A status, and the greatest common divisor with its coefficients.
#[repr(C)]
#[derive(Clone, Copy)]
pub struct I64Bezout {
    pub status: u32,
    pub gcd: i64,
    pub x: i64,
    pub y: i64,
}

/// A status, and the greatest common divisor with the least common multiple.
#[repr(C)]
#[derive(Clone, Copy)]
pub struct I64GcdLcm {
    pub status: u32,
    pub gcd: i64,
    pub lcm: i64,
}

/// A status, and the greatest common divisor with the least common multiple.
#[repr(C)]
#[derive(Clone, Copy)]
pub struct U64GcdLcm {
    pub status: u32,
    pub gcd: u64,
    pub lcm: u64,
}

/// Returns the greatest common divisor, which is not negative. That of -56 and 42 is 14, and that of 0 and 0
/// is 0.
///
/// `NOT_FITTING` if it is 2^63.
#[unsafe(no_mangle)]
#[tactic(auto, using(crate::proofs::NumbersReadBack::read_back))]
pub extern "C" fn cellarcove_gcd_i64(x: i64, y: i64) -> I64Answer
    ensures { I64Answers (GcdFits (FitsSigned w64) x y) (IsGreatestCommonDivisor x y)
        (StatusIs not_fitting) result }
{
    I64Answer::of(checked::gcd(x, y), NOT_FITTING)
}

/// Returns the greatest common divisor. That of 56 and 42 is 14, and that of 2^64 - 1 and 0 is 2^64 - 1.
#[unsafe(no_mangle)]
#[tactic(auto, using(crate::proofs::NumbersReadBack::read_back))]
pub extern "C" fn cellarcove_gcd_u64(x: u64, y: u64) -> U64Answer
    ensures answer { U64Answers (GcdFits (FitsUnsignedBits 64) (pos x) (pos y))
        (IsGreatestCommonDivisor (pos x) (pos y)) (StatusIs not_fitting) result }
    ensures always { result.status ≡ 0 }
{
    U64Answer::of(checked::gcd(x, y), NOT_FITTING)
}

/// Returns the least common multiple, which is not negative. That of -4 and 6 is 12, and that of -2^63 and 0
/// is 0.
///
/// `NOT_FITTING` if the multiple does not fit.
#[unsafe(no_mangle)]
#[tactic(auto, using(crate::proofs::NumbersReadBack::read_back))]
pub extern "C" fn cellarcove_lcm_i64(x: i64, y: i64) -> I64Answer
    ensures { I64Fitting (IsLeastCommonMultiple x y) result }
{
    I64Answer::of(checked::lcm(x, y), NOT_FITTING)
}

/// Returns the least common multiple. That of 4 and 6 is 12.
///
/// `NOT_FITTING` if the multiple does not fit.
#[unsafe(no_mangle)]
pub extern "C" fn cellarcove_lcm_u64(x: u64, y: u64) -> U64Answer
    ensures { U64Fitting (IsLeastCommonMultiple (pos x) (pos y)) result }
{
    U64Answer::of(checked::lcm(x, y), NOT_FITTING)
}

/// Returns the greatest common divisor and the least common multiple. Those of -10 and 4 are 2 and 20.
///
/// `NOT_FITTING` if one of the two does not fit.
#[unsafe(no_mangle)]
pub extern "C" fn cellarcove_gcd_lcm_i64(x: i64, y: i64) -> I64GcdLcm
    ensures { Answers {A = ℤ × ℤ}
        (GcdFits (FitsSigned w64) x y × EachFits (FitsSigned w64) (IsLeastCommonMultiple x y))
        (λ (g, l). IsGreatestCommonDivisor x y g × IsLeastCommonMultiple x y l)
        (StatusIs not_fitting) (pos 0, pos 0) result.status (result.gcd, result.lcm) }
{
    let (status, (gcd, lcm)) = with_status(checked::gcd_lcm(x, y), (0, 0), NOT_FITTING);
    I64GcdLcm { status, gcd, lcm }
}

/// Returns the greatest common divisor and the least common multiple. Those of 10 and 4 are 2 and 20.
///
/// `NOT_FITTING` if one of the two does not fit.
#[unsafe(no_mangle)]
pub extern "C" fn cellarcove_gcd_lcm_u64(x: u64, y: u64) -> U64GcdLcm
    ensures { Answers {A = ℕ × ℕ}
        (GcdFits (FitsUnsignedBits 64) (pos x) (pos y)
        × EachFits (FitsUnsignedBits 64) (IsLeastCommonMultiple (pos x) (pos y)))
        (λ (g, l). IsGreatestCommonDivisor (pos x) (pos y) (pos g)
        × IsLeastCommonMultiple (pos x) (pos y) (pos l))
        (StatusIs not_fitting) (0, 0) result.status (result.gcd, result.lcm) }
{
    let (status, (gcd, lcm)) = with_status(checked::gcd_lcm(x, y), (0, 0), NOT_FITTING);
    U64GcdLcm { status, gcd, lcm }
}

/// Returns the greatest common divisor, and small coefficients `x` and `y`: `x` times the first number
/// and `y` times the second add up to it. For 240 and 46 they are 2, -9 and 47. In C the two products
/// may overflow.
///
/// `NOT_FITTING` if the divisor is 2^63.
#[unsafe(no_mangle)]
pub extern "C" fn cellarcove_extended_gcd_i64(x: i64, y: i64) -> I64Bezout
    ensures { Answers {A = ℤ × ℤ × ℤ}
        (GcdFits (FitsSigned w64) x y × HasPair (FitsSigned w64) x y)
        (λ (g, u, v). IsBezoutAnswer x y g u v)
        (StatusIs not_fitting) (pos 0, pos 0, pos 0) result.status (result.gcd, result.x, result.y) }
{
    match checked::extended_gcd(x, y) {
        Some(e) => I64Bezout {
            status: ANSWER,
            gcd: e.gcd,
            x: e.x,
            y: e.y,
        },
        None => I64Bezout {
            status: NOT_FITTING,
            gcd: 0,
            x: 0,
            y: 0,
        },
    }
}
