//! Many numbers divided by one.

ghost use Rattle.std.specs.Prelude.{◌≡◌, ◌↔◌, ◌≢◌, ◌⊎◌, ◌+◌, ◌-◌, ◌*◌, ◌/◌, ◌^◌, ◌<◌, ◌≤◌, ◌≤ℤ◌, ◌<ℤ◌, ◌-ℤ◌, ℕ, ℤ, List, pos, negsuc, neg_ℤ, length, map, FitsSigned};
ghost use Rattle.std.specs.Int.{cast_unsigned, w64};
ghost use Rattle.std.specs.List.{All};
ghost use Rattle.num_integer.specs.Division.{IsFloored, IsQuotient};
ghost use Rattle.cellarcove_c.specs.Answers.{Answers};
ghost use Rattle.cellarcove_c.specs.Quotients.{AreFloored, QuotientsFit};
ghost use Rattle.cellarcove_c.specs.Statuses.{IsReason, StatusIs, not_fitting, outside};

use crate::answers::{ANSWER, NOT_FITTING, OUTSIDE};
use crate::lists::read_each;
use crate::square_roots::high_product;

/// Writes the quotients of the numbers by a divisor, rounded down, and returns the status. Those of -8, 8 and 7
/// by 3 are -3, 2 and 2, and those of -8, 8 and 7 by -3 are 2, -3 and -3. If the status is not 0, `quotients`
/// stays as it is.
///
/// `OUTSIDE` if the divisor is 0, or if there is not one quotient for each number. `NOT_FITTING` if a quotient
/// does not fit.
#[unsafe(no_mangle)]
pub extern "C" fn cellarcove_div_floor_each_i64(
    numbers: &[i64],
    divisor: i64,
    quotients: &mut [i64],
) -> u32
    ensures { Answers {A = List ℤ}
        ((divisor ≢ pos 0) × (length quotients.old ≡ length numbers.now) × QuotientsFit divisor numbers.now)
        (AreFloored divisor numbers.now)
        (IsReason ((divisor ≡ pos 0) ⊎ (length quotients.old ≢ length numbers.now)))
        quotients.old result quotients.new }
{
    if divisor == 0 || numbers.len() != quotients.len() {
        return OUTSIDE;
    }
    read_each(numbers);
    if divisor == -1 {
        return write_by_minus_one(numbers, quotients);
    }
    write_by_other(divisor, numbers, quotients);
    ANSWER
}

/// Writes the quotients of the numbers by a divisor, rounded down, and returns the status. Those of 8, 9 and
/// 7 by 3 are 2, 3 and 2. If the status is not 0, `quotients` stays as it is.
///
/// `OUTSIDE` if the divisor is 0, or if there is not one quotient for each number.
#[unsafe(no_mangle)]
pub extern "C" fn cellarcove_div_floor_each_u64(
    numbers: &[u64],
    divisor: u64,
    quotients: &mut [u64],
) -> u32
    ensures { Answers {A = List ℕ} ((0 < divisor) × (length quotients.old ≡ length numbers.now))
        (λ found. AreFloored (pos divisor) (map (λ x. pos x) numbers.now) (map (λ x. pos x) found))
        (StatusIs outside) quotients.old result quotients.new }
{
    if divisor == 0 || numbers.len() != quotients.len() {
        return OUTSIDE;
    }
    write_unsigned(&InvariantDivisor::new(divisor), numbers, quotients);
    ANSWER
}

/// A divisor, with a multiplier and two shifts that divide by it, as in 'Division by invariant integers using
/// multiplication' of Granlund and Montgomery: a quotient is the product with `2^64 + multiplier` without its low
/// 64 bits, shifted by both.
#[derive(Clone, Copy)]
struct InvariantDivisor {
    divisor: u64,
    multiplier: u64,
    first_shift: u32,
    second_shift: u32,
    ghost positive: { 0 < divisor },
    ghost first: { first_shift ≤ 1 },
    ghost none: { first_shift ≡ 0 → second_shift ≡ 0 },
    ghost second: { second_shift < 64 },
    ghost above: { divisor ≤ 2 ^ (first_shift + second_shift) },
    ghost rounded: { multiplier + 2 ^ 64 ≡ 2 ^ 64 * 2 ^ (first_shift + second_shift) / divisor + 1 },
}

impl InvariantDivisor {
    /// Returns a divisor with its multiplier and its shifts.
    fn new(divisor: u64) -> Self
        requires { 0 < divisor }
        ensures { result.divisor ≡ divisor }
    {
        let log2 = ceil_log2(divisor);
        let first_shift = first_shift_of(log2);
        Self {
            divisor,
            multiplier: multiplier_for(divisor, log2),
            first_shift,
            second_shift: log2 - first_shift,
        }
    }

    /// Returns the quotient of a number, rounded down. The sum with the high word need not fit, so it is halved
    /// before it is made.
    fn quotient(&self, n: u64) -> u64
        ensures { result ≡ n / self.now.divisor }
    {
        let high = high_product(self.multiplier, n);
        (high + ((n - high) >> self.first_shift)) >> self.second_shift
    }
}

/// The magnitude of a divisor, with a multiplier and a shift that divide numbers up to 2^63 by it: a quotient is twice
/// the product with the multiplier without its low 64 bits, shifted.
#[derive(Clone, Copy)]
struct MagnitudeDivisor {
    divisor: u64,
    multiplier: u64,
    shift: u32,
    ghost positive: { 0 < divisor },
    ghost within: { shift < 64 },
    ghost above: { divisor ≤ 2 ^ shift },
    ghost rounded: { multiplier ≡ (2 ^ 63 * 2 ^ shift - 1) / divisor + 1 },
}

impl MagnitudeDivisor {
    /// Returns a divisor with its multiplier and its shift.
    fn new(divisor: u64) -> Self
        requires positive { 0 < divisor }
        requires most { divisor ≤ 2 ^ 63 }
        ensures { result.divisor ≡ divisor }
    {
        let shift = ceil_log2(divisor);
        Self {
            divisor,
            multiplier: magnitude_multiplier(divisor, shift),
            shift,
        }
    }

    /// Returns the quotient of a number below 2^63, rounded down.
    fn quotient(&self, n: u64) -> u64
        requires { n < 2 ^ 63 }
        ensures { result ≡ n / self.now.divisor }
    {
        high_product(self.multiplier, n << 1) >> self.shift
    }

    /// Returns the quotient of a number up to 2^63 by a divisor other than 1, rounded down. Twice the number need not
    /// fit, so the shift is 1 less.
    fn wide_quotient(&self, n: u64) -> u64
        requires most { n ≤ 2 ^ 63 }
        requires other { 1 < self.now.divisor }
        ensures is { result ≡ n / self.now.divisor }
        ensures small { result < 2 ^ 63 }
    {
        high_product(self.multiplier, n) >> (self.shift - 1)
    }

    /// Returns the quotient of a signed number, rounded down: if it is negative, the complement of that of its
    /// complement.
    fn div_floor(&self, x: i64) -> i64
        ensures { IsQuotient IsFloored x (pos self.now.divisor) result }
    {
        complement_if_negative(self.quotient(complement_if_negative(x, x) as u64) as i64, x)
    }

    /// Returns the quotient of a signed number by minus the divisor, rounded down: that of the negation, or, if the
    /// number is positive, the complement of the quotient of 1 less.
    fn div_floor_by_negation(&self, x: i64) -> i64
        requires { 1 < self.now.divisor }
        ensures { IsQuotient IsFloored x (neg_ℤ (pos self.now.divisor)) result }
    {
        let sign = negative_unless_positive(x);
        let quotient = self.wide_quotient(bits_of(complement_if_negative(x.wrapping_sub(1), sign)));
        !complement_if_negative(quotient as i64, sign)
    }
}

/// Writes the quotients of the numbers by -1, and returns the status. If it is not 0, `quotients` stays as it is.
#[tactic(auto, using(crate::proofs::FlooredQuotients::fit_without_least))]
fn write_by_minus_one(numbers: &[i64], quotients: &mut [i64]) -> u32
    requires each { All (FitsSigned w64) numbers.now }
    requires same { length quotients.old ≡ length numbers.now }
    ensures { Answers {A = List ℤ} (QuotientsFit (negsuc 0) numbers.now) (AreFloored (negsuc 0) numbers.now)
        (StatusIs not_fitting) quotients.old result quotients.new }
{
    if numbers.contains(&i64::MIN) {
        return NOT_FITTING;
    }
    write_negations(numbers, quotients);
    ANSWER
}

/// Writes the negations of the numbers.
#[tactic(auto, using(crate::proofs::FlooredQuotients::none_floored, crate::proofs::FlooredQuotients::all_floored))]
fn write_negations(numbers: &[i64], quotients: &mut [i64])
    requires same { length quotients.old ≡ length numbers.now }
    requires fit { QuotientsFit (negsuc 0) numbers.now }
    ensures { AreFloored (negsuc 0) numbers.now quotients.new }
{
    for (i, number) in numbers.iter().enumerate() {
        quotients[i] = -*number;
    }
}

/// Writes the quotients of signed numbers by a divisor other than 0 and -1.
fn write_by_other(divisor: i64, numbers: &[i64], quotients: &mut [i64])
    requires nonzero { divisor ≢ pos 0 }
    requires other { divisor ≢ negsuc 0 }
    requires same { length quotients.old ≡ length numbers.now }
    ensures { AreFloored divisor numbers.now quotients.new }
{
    let magnitude = MagnitudeDivisor::new(divisor.unsigned_abs());
    if divisor < 0 {
        write_by_negative(&magnitude, numbers, quotients);
    } else {
        write_by_positive(&magnitude, numbers, quotients);
    }
}

/// Writes the quotients of signed numbers by the divisor.
#[tactic(auto, using(crate::proofs::FlooredQuotients::none_floored, crate::proofs::FlooredQuotients::all_floored))]
fn write_by_positive(divisor: &MagnitudeDivisor, numbers: &[i64], quotients: &mut [i64])
    requires { length quotients.old ≡ length numbers.now }
    ensures { AreFloored (pos divisor.now.divisor) numbers.now quotients.new }
{
    for (i, number) in numbers.iter().enumerate() {
        quotients[i] = divisor.div_floor(*number);
    }
}

/// Writes the quotients of signed numbers by minus the divisor.
#[tactic(auto, using(crate::proofs::FlooredQuotients::none_floored, crate::proofs::FlooredQuotients::all_floored))]
fn write_by_negative(divisor: &MagnitudeDivisor, numbers: &[i64], quotients: &mut [i64])
    requires other { 1 < divisor.now.divisor }
    requires same { length quotients.old ≡ length numbers.now }
    ensures { AreFloored (neg_ℤ (pos divisor.now.divisor)) numbers.now quotients.new }
{
    for (i, number) in numbers.iter().enumerate() {
        quotients[i] = divisor.div_floor_by_negation(*number);
    }
}

/// Writes the quotients of numbers without a sign.
#[tactic(auto, using(crate::proofs::FlooredQuotients::none_floored, crate::proofs::FlooredQuotients::all_floored))]
fn write_unsigned(divisor: &InvariantDivisor, numbers: &[u64], quotients: &mut [u64])
    requires { length quotients.old ≡ length numbers.now }
    ensures { AreFloored (pos divisor.now.divisor) (map (λ x. pos x) numbers.now)
        (map (λ x. pos x) quotients.new) }
{
    for (i, number) in numbers.iter().enumerate() {
        quotients[i] = divisor.quotient(*number);
    }
}

/// Returns the logarithm of the divisor to the base 2, rounded up.
#[tactic(auto, using(crate::proofs::QuotientsByMultiplier::ceil_log2_is))]
fn ceil_log2(divisor: u64) -> u32
    requires { 0 < divisor }
    ensures most { result ≤ 64 }
    ensures above { divisor ≤ 2 ^ result }
    ensures least { 2 ^ result < 2 * divisor }
{
    64 - (divisor - 1).leading_zeros()
}

/// Returns the first shift of a logarithm: 1, or 0 if it is 0.
fn first_shift_of(log2: u32) -> u32
    ensures one { result ≤ 1 }
    ensures within { result ≤ log2 }
    ensures none { result ≡ 0 → log2 ≡ 0 }
{
    if log2 == 0 { 0 } else { 1 }
}

/// Returns the multiplier of a divisor with this logarithm.
#[tactic(auto, using(crate::proofs::QuotientsByMultiplier::multiplier_is))]
fn multiplier_for(divisor: u64, log2: u32) -> u64
    requires most { log2 ≤ 64 }
    requires above { divisor ≤ 2 ^ log2 }
    requires least { 2 ^ log2 < 2 * divisor }
    ensures { result + 2 ^ 64 ≡ 2 ^ 64 * 2 ^ log2 / divisor + 1 }
{
    let above = (1u128 << log2) - u128::from(divisor);
    ((above << 64) / u128::from(divisor)) as u64 + 1
}

/// Returns the number, or, if `sign` is negative, its complement, which has the other bits. It has no branch.
#[tactic(auto, using(crate::proofs::Complements::complement_is))]
fn complement_if_negative(number: i64, sign: i64) -> i64
    ensures from_zero { pos 0 ≤ℤ sign → result ≡ number }
    ensures below { sign <ℤ pos 0 → result ≡ pos 0 -ℤ number -ℤ pos 1 }
{
    number ^ (sign >> 63)
}

/// Returns the multiplier of the magnitude of a divisor with this shift.
fn magnitude_multiplier(divisor: u64, shift: u32) -> u64
    requires positive { 0 < divisor }
    requires most { divisor ≤ 2 ^ 63 }
    requires within { shift < 64 }
    requires least { 2 ^ shift < 2 * divisor }
    ensures { result ≡ (2 ^ 63 * 2 ^ shift - 1) / divisor + 1 }
{
    (((1u128 << (63 + shift)) - 1) / u128::from(divisor)) as u64 + 1
}

/// Returns a negative number, or, if `x` is positive, one that is not negative. It has no branch.
#[tactic(auto, using(crate::proofs::Complements::negative_unless_positive_is))]
fn negative_unless_positive(x: i64) -> i64
    ensures { (result <ℤ pos 0) ↔ (x ≤ℤ pos 0) }
{
    x.wrapping_sub(1) | x
}

/// Returns the number modulo 2^64, which has the same bits. That of -1 is 2^64 - 1.
fn bits_of(x: i64) -> u64
    ensures { result ≡ cast_unsigned w64 x }
{
    x.abs_diff(i64::MIN).wrapping_add(1 << 63)
}
