//! The main theorems. Each function here states one: its contract is the theorem in full, and its code makes
//! the call. The prover has checked each function for every argument.
//!
//! | theorem | function |
//! |---|---|
//! | safe and total: a proof means that the call returns, with no overflow, no panic and no allocation | each function, such as [`averages`] |
//! | each of the twelve native types is lawful | [`ends_of_types_with_roots`], [`ends_of_types_without_roots`] |
//! | a root is exact, at every degree | [`root`], [`square_root`], [`cube_root`] |
//! | the two loops of a square root make at most five iterations | [`square_root_in_five_iterations`] |
//! | a step of Newton's iteration is never below the root, and it is below a guess that is above the root | [`newton_steps`] |
//! | a gcd divides both numbers, and every number that divides both divides it | [`greatest_common_divisor`] |
//! | a pair certifies the gcd, and no other small pair does | [`bezout_pair`] |
//! | the call that counts its iterations returns the same pair | [`bezout_pair_by_two_calls`] |
//! | a binomial coefficient that fits is exact | [`binomial_coefficient`] |
//! | a multinomial coefficient that fits is exact | [`multinomial_coefficient`] |
//! | an iterator returns the coefficients of its row, and then `None` | [`row_iterator`], [`next_of_row`] |
//! | each quotient and each remainder is that of its kind | [`divisions`], [`quotients`], [`residue`] |
//! | the quotients of all three kinds fit, or none does | [`domain_of_quotients`] |
//! | the next and the previous multiple are a quotient times the divisor | [`multiples`] |
//! | divisibility and parity are those of the definitions | [`divisibility`], [`parity`] |
//! | `inc` adds one, and `dec` subtracts one | [`one_more`], [`one_less`] |
//! | an lcm is a multiple of both, and divides every such number | [`least_common_multiple`], [`gcd_and_lcm`], [`bezout_pair_and_lcm`] |
//! | an average is rounded down or up, and never overflows | [`averages`] |
//! | each test of a precondition is true exactly if it holds | [`domain_of_quotients`], [`domains_of_multiples`], [`domains_of_divisors`], [`domain_of_bezout_pair`], [`domains_of_operators`], [`domain_of_binomial`], [`domain_of_multinomial`] |
//! | `parts` returns the sign and the magnitude, and `ends` the ends of the type | [`parts_of_number`], [`ends_of_type`] |
//! | the loop of a gcd makes at most as many iterations as the two bit lengths added | [`iterations_for_gcd`] |
//! | the loop of a pair makes at most as many iterations as Lamé's theorem says, if the second number is not 0 | [`iterations_for_bezout_pair`] |
//! | 2 to the power of the number of iterations for a coefficient is at most the coefficient, unless `k` is greater than `n` | [`iterations_for_binomial`] |
//! | a fraction is reduced | [`parts_of_fraction`] |
//! | a call returns an error only if the reduced fraction does not fit, or its denominator is 0 | [`fraction`], [`sum_of_fractions`], [`difference_of_fractions`], [`product_of_fractions`], [`quotient_of_fractions`] |
//! | the rounding and the order of fractions are those of the definitions | [`floor_and_ceil_of_fraction`], [`order_of_fractions`] |
//! | fractions are equal exactly if their values are, and then have the same hash | [`equality_of_fractions`], [`hashes_of_fractions`] |
//! | each error and each refusal has the number and the name of its table | [`number_of_error`], [`number_and_name_of_refusal`] |
//! | a call of the program has the outcome of the definition, and no other | [`outcome`] |
//! | a word has the number of the definition, or none | [`number_of_word`] |
//! | words ask for the call of the definition, and for no other | [`call_of_words`] |
//! | words ask for the line of the definition, and for no other | [`line_of_words`] |
//! | `run` of `intcalc_core` prints that line, or returns 4 if the sink fails | [`printed_line`] |
//! | a console adds the bytes that it took to its writer, and returns its writer | [`new_console`], [`put_on_console`], [`finished_console`], [`writer_of_the_console`] |
//!
//! After most functions at any lawful type comes the same at native types. Its name ends in `_of_i64` or
//! `_of_u64`. It is proved that a counted call returns the number of iterations of the definition's loop. That
//! its own loop makes them is seen by reading.
//!
//! No crate can depend on a program, so `run_program` of `intcalc` is not here. Its contract says: if the status
//! is 0, 1 or 2, the program has added the line that its arguments ask for to the bytes of its sink. A clause
//! about bytes says something only of a writer that shows them, such as one in memory. `Stdout` shows none. There
//! the claim rests on the code, which is the same for every writer.
//!
//! **How to read a clause.** `T.value x` is the integer that `x` means, which is `x` at `i64` and `pos x` at
//! `u64`. `T.fits z` says that the type has the integer `z`. A lawful type implements `Integer`, and its laws
//! are proved. The twelve native types are lawful, but `Roots` and `SqrtCounted` have only ten of them: `i128` and
//! `u128` have no roots. Clauses speak of integers without limit, so nothing in them overflows. A clause
//! `in_range` of `requires` says that an argument is in the range of its type, and one of `ensures` that a result is. The prover knows this of an argument that is an
//! `i64` or a `u64`, and of the items of a `&[u64]`, but not of those of a `&[i64]`. The other `requires` are the
//! precondition of the call. [`divisions`] and [`quotients`] require that the quotients of all three kinds fit, and each
//! call only that its own does. By [`domain_of_quotients`] this is the same. The `specs/` of each crate define the
//! words, with examples. Some of them surprise:
//!
//! - `A × B` says that both hold, and `(x : A) × B` that there is such an `x`.
//! - `IfOk result P` says that `P` holds of the value, if there is one. It does not say that there is one, so
//!   another clause says when there is an error. `IfSome` and `IfNone` are read in the same way.
//! - `EachFits fits P` says that each number with the property `P` fits. By a divisor 0 there is no quotient, so of
//!   the quotients by 0 it says nothing, and a clause `nonzero` stands beside it.
//! - `GcdFits fits a b` says that the gcd fits, if the type has -1. A type without -1 has no negative number. The
//!   gcd of two of its numbers is one of them or less, so it always fits, and a caller has nothing to show.
//! - `HasPair fits a b` says that one of the numbers divides the other, if the type has no -1. Otherwise one of
//!   Bezout's coefficients is negative, so such a type has no pair.
//! - `AreGcdIterations low a b n` says that `n` is 0 if `a` or `b` is 0 or `low`, the smallest number of the type, since
//!   the call then returns before its loop. Otherwise `n` is the number of iterations of Stein's loop. If `low` is `-high`, as in -7..=7,
//!   the call could run its loop at `low`. The clause asks for 0 there too. No type in this repository that implements `GcdCounted`
//!   has such a range.
//! - `Appends old new line` says that the bytes `new` are the bytes `old` and then `line`. It says nothing of a sink
//!   that shows no bytes. `S.contents` is the bytes that a sink shows.

ghost use Rattle.std.specs.Prelude.{◌≡◌, ◌≢◌, ◌↔◌, ◌+◌, ◌-◌, ◌*◌, ◌^◌, ◌%◌, ◌<◌, ◌≤◌, ◌≤ℤ◌, ◌+ℤ◌, ◌-ℤ◌, ◌*ℤ◌, ℕ, List, pos, unsigned_abs, [], ◌∷◌, ◌++◌, ◌<ℤ◌, negsuc, neg_ℤ, false, length, take, map, All, Err, IfNone, IfOk, IfSome, IsNone, IsTrue, FitsSigned, min};
ghost use Rattle.std.specs.Int.{FitsUnsignedBits, w64};
ghost use Rattle.std.specs.Bool.{OnTrue};
ghost use Rattle.std.specs.Hash as written;
ghost use Rattle.std.specs.Io.KnownBytes.{Appends, Keeps};
ghost use Rattle.std.specs.List.{fold};
ghost use Rattle.num_integer.specs.Averages.{IsAverageCeil, IsAverageFloor};
ghost use Rattle.num_integer.specs.Bezout.{AreEuclidIterations, HasPair, IsBezoutAnswer, IsSmallPair, NeedsBoth};
ghost use Rattle.num_integer.specs.Coefficient.{coefficient, coefficient_of};
ghost use Rattle.num_integer.specs.Division.{EachKind, IsCeiled, IsFloored, IsMultiple, IsQuotient, IsRemainder, IsTruncated};
ghost use Rattle.num_integer.specs.Divisors.{Divides, GcdFits, IsEven, IsGreatestCommonDivisor, IsLeastCommonMultiple};
ghost use Rattle.num_integer.specs.Fibonacci.{fibonacci};
ghost use Rattle.num_integer.specs.GcdRuns.{AreGcdIterations, IsBitLength};
ghost use Rattle.num_integer.specs.Multinomial.{IsMultinomial};
ghost use Rattle.num_integer.specs.Only.{IsOnly};
ghost use Rattle.num_integer.specs.Range.{EachFits};
ghost use Rattle.num_integer.specs.RootOf.{IsFloorRoot, IsRoot};
ghost use Rattle.num_integer.specs.Row.{RowFits, row_of};
ghost use Rattle.integer_roots.specs.NewtonRuns.{newton_step};
ghost use Rattle.num_integer.specs.SquareRuns.{AreSquareRootIterations};
ghost use Rattle.ratio64.specs.Fraction.{AreEqual, IsExact, IsOutsideI64, IsReduced, fraction_cmp};
ghost use Rattle.ratio64.specs.Ratio.{AnswersFraction, den_of, num_of};
ghost use Rattle.ratio64.specs.RatioError as errors;
ghost use Rattle.intcalc_core.specs.Console.{has_failed, is_finished, writer_of};
ghost use Rattle.intcalc_core.specs.Line.{IsLine};
ghost use Rattle.intcalc_core.specs.Number.{spelled_number};
ghost use Rattle.intcalc_core.specs.Outcome.{Outcome};
ghost use Rattle.intcalc_core.specs.Refusal as refusals;
ghost use Rattle.intcalc_core.specs.Words.{IsRequest};

use intcalc_core::number::read_number;
use intcalc_core::run::{line_for, run};
use intcalc_core::sink::{Console, Sink};
use intcalc_core::words::read_words;
use intcalc_core::{Answer, Call, Kind, Refusal, evaluate};
use num_integer::counted::{GcdCounted, SqrtCounted, binomial_counted, extended_gcd_counted};
use num_integer::text::Buffer;
use num_integer::{
    Average, ExtendedGcd, Fits, Integer, IterBinomial, Roots, average_ceil, average_floor,
    binomial, cbrt, div_ceil, div_floor, div_mod_floor, div_rem, gcd, gcd_lcm, lcm, mod_floor,
    multinomial, nth_root, sqrt,
};
use num_traits::Signed;
use ratio64::{Ratio, RatioError};
use std::cmp::Ordering;
use std::hash::{Hash, Hasher};
use std::io::Write;

/// Returns the root of degree `n`, which is exact. If `x` is not negative, it is the `r` from 0 on whose power of
/// degree `n` is at most `x`, and the power of `r + 1` is greater than `x`. For a negative `x` it is minus the root
/// of `-x`.
pub fn root<T: Roots>(x: T, n: u32) -> T
    requires in_range { T.fits (T.value x) }
    requires degree { n ≢ 0 }
    requires from_zero_where_even { n % 2 ≡ 0 → pos 0 ≤ℤ T.value x }
    ensures in_range { T.fits (T.value result) }
    ensures exact { IsRoot (T.value x) n (T.value result) }
{
    nth_root(x, n)
}

/// Returns the square root, which is exact.
pub fn square_root<T: Roots>(x: T) -> T
    requires in_range { T.fits (T.value x) }
    requires from_zero { pos 0 ≤ℤ T.value x }
    ensures in_range { T.fits (T.value result) }
    ensures exact { IsRoot (T.value x) 2 (T.value result) }
{
    sqrt(x)
}

/// Returns the cube root, which is exact.
pub fn cube_root<T: Roots>(x: T) -> T
    requires in_range { T.fits (T.value x) }
    ensures in_range { T.fits (T.value result) }
    ensures exact { IsRoot (T.value x) 3 (T.value result) }
{
    cbrt(x)
}

/// Returns the root at `i64`.
pub fn root_of_i64(x: i64, n: u32) -> i64
    requires degree { n ≢ 0 }
    requires from_zero_where_even { n % 2 ≡ 0 → pos 0 ≤ℤ x }
    ensures exact { IsRoot x n result }
{
    x.nth_root(n)
}

/// Returns the root at `u64`. The definition is then two inequalities.
pub fn root_of_u64(x: u64, n: u32) -> u64
    requires degree { n ≢ 0 }
    ensures exact { IsRoot (pos x) n (pos result) }
    ensures power { result ^ n ≤ x }
    ensures next_power { x < (result + 1) ^ n }
{
    Roots::nth_root(&x, n)
}

/// Returns the cube root at `i64`.
pub fn cube_root_of_i64(x: i64) -> i64
    ensures exact { IsRoot x 3 result }
{
    x.cbrt()
}

/// Returns the exact square root and the number of iterations of its loops, which is at most five.
pub fn square_root_in_five_iterations<T: SqrtCounted>(x: T) -> (T, u32)
    requires in_range { T.fits (T.value x) }
    requires from_zero { pos 0 ≤ℤ T.value x }
    ensures in_range { T.fits (T.value result.0) }
    ensures exact { IsRoot (T.value x) 2 (T.value result.0) }
    ensures iterations { AreSquareRootIterations (T.value x) result.1 }
    ensures five { result.1 ≤ 5 }
{
    T::sqrt_counted(&x)
}

/// Returns the square root and the number of iterations at `i64`.
pub fn square_root_in_five_iterations_of_i64(x: i64) -> (i64, u32)
    requires from_zero { pos 0 ≤ℤ x }
    ensures exact { IsRoot x 2 result.0 }
    ensures iterations { AreSquareRootIterations x result.1 }
    ensures five { result.1 ≤ 5 }
{
    x.sqrt_counted()
}

/// Returns the square root and the number of iterations at `u64`.
pub fn square_root_in_five_iterations_of_u64(x: u64) -> (u64, u32)
    ensures exact { IsRoot (pos x) 2 (pos result.0) }
    ensures square { result.0 ^ 2 ≤ x }
    ensures next_square { x < (result.0 + 1) ^ 2 }
    ensures iterations { AreSquareRootIterations (pos x) result.1 }
    ensures five { result.1 ≤ 5 }
{
    SqrtCounted::sqrt_counted(&x)
}

/// States where a step of Newton's iteration for a root leads, and makes no call. From each guess it leads to the root or
/// above it, and from a guess above the root to a smaller one.
pub fn newton_steps()
    ensures never_below_root { (a n x r : ℕ) → 0 < n → 0 < x → IsFloorRoot (pos a) n (pos r)
        → r ≤ newton_step a n x }
    ensures below_guess_above_root { (a n x r : ℕ) → 0 < n → r < x
        → IsFloorRoot (pos a) n (pos r) → newton_step a n x < x }
{}

/// Returns the greatest common divisor. It is at least 0, divides both numbers, and is divided by every number that
/// divides both.
pub fn greatest_common_divisor<T: Integer>(a: T, b: T) -> T
    requires in_range { T.fits (T.value a) × T.fits (T.value b) }
    requires gcd_fits { GcdFits T.fits (T.value a) (T.value b) }
    ensures in_range { T.fits (T.value result) }
    ensures greatest { IsGreatestCommonDivisor (T.value a) (T.value b) (T.value result) }
{
    gcd(a, b)
}

/// Returns the greatest common divisor at `i64`.
pub fn greatest_common_divisor_of_i64(a: i64, b: i64) -> i64
    requires gcd_fits { GcdFits (FitsSigned w64) a b }
    ensures greatest { IsGreatestCommonDivisor a b result }
{
    a.gcd(&b)
}

/// Returns the greatest common divisor and a pair that certifies it: `x` times `a` and `y` times `b` add up to it. If
/// one number divides the other, `IsBezoutAnswer` names the pair outright. Otherwise the pair is small, and no other
/// small pair certifies the greatest common divisor.
pub fn bezout_pair<T: Integer>(a: T, b: T) -> ExtendedGcd<T>
    requires in_range { T.fits (T.value a) × T.fits (T.value b) }
    requires gcd_fits { GcdFits T.fits (T.value a) (T.value b) }
    requires has_pair { HasPair T.fits (T.value a) (T.value b) }
    ensures in_range { T.fits (T.value result.gcd) × T.fits (T.value result.x)
        × T.fits (T.value result.y) }
    ensures greatest { IsGreatestCommonDivisor (T.value a) (T.value b) (T.value result.gcd) }
    ensures certified { T.value result.x *ℤ T.value a +ℤ T.value result.y *ℤ T.value b
        ≡ T.value result.gcd }
    ensures named { IsBezoutAnswer (T.value a) (T.value b)
        (T.value result.gcd) (T.value result.x) (T.value result.y) }
    ensures only { NeedsBoth (T.value a) (T.value b)
        → IsOnly (λ (x, y). IsSmallPair (T.value a) (T.value b) (T.value result.gcd) x y)
        (T.value result.x, T.value result.y) }
{
    a.extended_gcd(&b)
}

/// Returns the greatest common divisor and its pair at `i64`.
pub fn bezout_pair_of_i64(a: i64, b: i64) -> ExtendedGcd<i64>
    requires gcd_fits { GcdFits (FitsSigned w64) a b }
    ensures greatest { IsGreatestCommonDivisor a b result.gcd }
    ensures certified { result.x *ℤ a +ℤ result.y *ℤ b ≡ result.gcd }
    ensures named { IsBezoutAnswer a b result.gcd result.x result.y }
    ensures only { NeedsBoth a b
        → IsOnly (λ (x, y). IsSmallPair a b result.gcd x y) (result.x, result.y) }
{
    Integer::extended_gcd(&a, &b)
}

/// Returns the pair of `extended_gcd`, and that of the call that counts its iterations. The two are equal.
pub fn bezout_pair_by_two_calls<T: Integer>(a: T, b: T) -> (ExtendedGcd<T>, ExtendedGcd<T>)
    requires in_range { T.fits (T.value a) × T.fits (T.value b) }
    requires gcd_fits { GcdFits T.fits (T.value a) (T.value b) }
    requires has_pair { HasPair T.fits (T.value a) (T.value b) }
    ensures in_range { T.fits (T.value result.0.gcd) × T.fits (T.value result.0.x)
        × T.fits (T.value result.0.y) }
    ensures second_in_range { T.fits (T.value result.1.gcd) × T.fits (T.value result.1.x)
        × T.fits (T.value result.1.y) }
    ensures named { IsBezoutAnswer (T.value a) (T.value b)
        (T.value result.0.gcd) (T.value result.0.x) (T.value result.0.y) }
    ensures same_gcd { T.value result.1.gcd ≡ T.value result.0.gcd }
    ensures same_x { T.value result.1.x ≡ T.value result.0.x }
    ensures same_y { T.value result.1.y ≡ T.value result.0.y }
{
    (a.extended_gcd(&b), extended_gcd_counted(a, b).0)
}

/// Returns the binomial coefficient, which is the number that Pascal's rule gives. The coefficient has to fit.
pub fn binomial_coefficient<T: Integer>(n: T, k: T) -> T
    requires in_range { T.fits (T.value n) × T.fits (T.value k) }
    requires from_zero { (pos 0 ≤ℤ T.value n) × (pos 0 ≤ℤ T.value k) }
    requires coefficient_fits { T.fits (coefficient_of (T.value n) (T.value k)) }
    ensures in_range { T.fits (T.value result) }
    ensures exact { T.value result ≡ coefficient_of (T.value n) (T.value k) }
{
    binomial(n, k)
}

/// Returns the binomial coefficient at `u64`.
pub fn binomial_coefficient_of_u64(n: u64, k: u64) -> u64
    requires coefficient_fits { coefficient n k < 2 ^ 64 }
    ensures exact { result ≡ coefficient n k }
{
    binomial::<u64>(n, k)
}

/// Returns the multinomial coefficient. Times the product of the factorials of the counts, it is the factorial of
/// their sum. The coefficient has to fit.
pub fn multinomial_coefficient<T: Integer>(counts: &[T]) -> T
    requires in_range { All (λ count. T.fits (T.value count)) counts.now }
    requires from_zero { All (λ count. pos 0 ≤ℤ T.value count) counts.now }
    requires multinomial_fits { EachFits T.fits (IsMultinomial (map T.value counts.now)) }
    ensures in_range { T.fits (T.value result) }
    ensures exact { IsMultinomial (map T.value counts.now) (T.value result) }
{
    multinomial(counts)
}

/// Returns the multinomial coefficient at `u64`.
pub fn multinomial_coefficient_of_u64(counts: &[u64]) -> u64
    requires multinomial_fits { EachFits (FitsUnsignedBits 64)
        (IsMultinomial (map (λ count. pos count) counts.now)) }
    ensures exact { IsMultinomial (map (λ count. pos count) counts.now) (pos result) }
{
    multinomial::<u64>(counts)
}

/// Returns the row of `n` as an iterator, which allocates nothing. Its items are the coefficients of `n` and 0, 1 and so
/// on to `n`, in order. The row of a negative `n` has no item.
pub fn row_iterator<T: Integer>(n: T) -> IterBinomial<T>
    requires in_range { T.fits (T.value n) }
    requires row_fits { RowFits T.fits (T.value n) }
    ensures in_range { All T.fits result }
    ensures items { result ≡ row_of (T.value n) }
{
    IterBinomial::new(n)
}

/// Returns the row at `u64`.
pub fn row_iterator_of_u64(n: u64) -> IterBinomial<u64>
    requires row_fits { RowFits (FitsUnsignedBits 64) (pos n) }
    ensures items { result ≡ row_of (pos n) }
{
    IterBinomial::<u64>::new(n)
}

/// Returns the next item of a row. After the last item it returns `None` at every call.
pub fn next_of_row<T: Integer>(rest: &mut IterBinomial<T>) -> Option<T>
    ensures first { IfSome result (λ item. rest.old ≡ T.value item ∷ rest.new) }
    ensures none { IfNone result ((rest.old ≡ []) × (rest.new ≡ [])) }
{
    rest.next()
}

/// Returns the results of `div_rem` and of `div_mod_floor`. The first is the quotient rounded toward zero and its
/// remainder. The second is the quotient rounded down and its remainder.
pub fn divisions<T: Integer>(n: T, d: T) -> ((T, T), (T, T))
    requires in_range { T.fits (T.value n) × T.fits (T.value d) }
    requires nonzero { T.value d ≢ pos 0 }
    requires quotients_fit { EachKind (λ Kind. EachFits T.fits
        (IsQuotient Kind (T.value n) (T.value d))) }
    ensures truncated_in_range { T.fits (T.value result.0.0) × T.fits (T.value result.0.1) }
    ensures floored_in_range { T.fits (T.value result.1.0) × T.fits (T.value result.1.1) }
    ensures truncated { IsTruncated (T.value n) (T.value d)
        (T.value result.0.0) (T.value result.0.1) }
    ensures floored { IsFloored (T.value n) (T.value d)
        (T.value result.1.0) (T.value result.1.1) }
{
    (div_rem(n, d), div_mod_floor(n, d))
}

/// Returns the results of `div_floor` and of `div_ceil`. The first is the quotient rounded down, and the second is
/// the quotient rounded up.
pub fn quotients<T: Integer>(n: T, d: T) -> (T, T)
    requires in_range { T.fits (T.value n) × T.fits (T.value d) }
    requires nonzero { T.value d ≢ pos 0 }
    requires quotients_fit { EachKind (λ Kind. EachFits T.fits
        (IsQuotient Kind (T.value n) (T.value d))) }
    ensures in_range { T.fits (T.value result.0) × T.fits (T.value result.1) }
    ensures floored { IsQuotient IsFloored (T.value n) (T.value d) (T.value result.0) }
    ensures ceiled { IsQuotient IsCeiled (T.value n) (T.value d) (T.value result.1) }
{
    (div_floor(n, d), div_ceil(n, d))
}

/// Returns the quotients at `i64`.
#[tactic(auto, using(std::proofs::lemmas::Int::wraps))]
pub fn quotients_of_i64(n: i64, d: i64) -> (i64, i64)
    requires nonzero { d ≢ pos 0 }
    requires quotients_fit { EachKind (λ Kind. EachFits (FitsSigned w64) (IsQuotient Kind n d)) }
    ensures floored { IsQuotient IsFloored n d result.0 }
    ensures ceiled { IsQuotient IsCeiled n d result.1 }
{
    (Integer::div_floor(&n, &d), Integer::div_ceil(&n, &d))
}

/// Returns the remainder of the quotient rounded down, even if that quotient does not fit.
pub fn residue<T: Integer>(n: T, d: T) -> T
    requires in_range { T.fits (T.value n) × T.fits (T.value d) }
    requires nonzero { T.value d ≢ pos 0 }
    ensures in_range { T.fits (T.value result) }
    ensures floored { IsRemainder IsFloored (T.value n) (T.value d) (T.value result) }
{
    mod_floor(n, d)
}

/// Returns the remainder at `i64`.
pub fn residue_of_i64(n: i64, d: i64) -> i64
    requires nonzero { d ≢ pos 0 }
    ensures floored { IsRemainder IsFloored n d result }
{
    n.mod_floor(&d)
}

/// Returns the previous and the next multiple of `d`: the quotient rounded down, times the divisor, and the quotient
/// rounded up, times the divisor. The multiples have to fit. The quotients need not.
pub fn multiples<T: Integer>(n: T, d: T) -> (T, T)
    requires in_range { T.fits (T.value n) × T.fits (T.value d) }
    requires nonzero { T.value d ≢ pos 0 }
    requires previous_fits { EachFits T.fits (IsMultiple IsFloored (T.value n) (T.value d)) }
    requires next_fits { EachFits T.fits (IsMultiple IsCeiled (T.value n) (T.value d)) }
    ensures in_range { T.fits (T.value result.0) × T.fits (T.value result.1) }
    ensures previous { IsMultiple IsFloored (T.value n) (T.value d) (T.value result.0) }
    ensures next { IsMultiple IsCeiled (T.value n) (T.value d) (T.value result.1) }
{
    (n.prev_multiple_of(&d), n.next_multiple_of(&d))
}

/// Returns the multiples at `i64`.
#[tactic(auto, using(std::proofs::lemmas::Int::wraps))]
pub fn multiples_of_i64(n: i64, d: i64) -> (i64, i64)
    requires nonzero { d ≢ pos 0 }
    requires previous_fits { EachFits (FitsSigned w64) (IsMultiple IsFloored n d) }
    requires next_fits { EachFits (FitsSigned w64) (IsMultiple IsCeiled n d) }
    ensures previous { IsMultiple IsFloored n d result.0 }
    ensures next { IsMultiple IsCeiled n d result.1 }
{
    (
        Integer::prev_multiple_of(&n, &d),
        Integer::next_multiple_of(&n, &d),
    )
}

/// Returns `true` twice if the second number divides the first: by `is_multiple_of`, and by `divides`, which is its
/// old name.
pub fn divisibility<T: Integer>(n: T, d: T) -> (bool, bool)
    requires in_range { T.fits (T.value n) × T.fits (T.value d) }
    ensures multiple { IsTrue result.0 ↔ Divides (T.value d) (T.value n) }
    ensures divides { IsTrue result.1 ↔ Divides (T.value d) (T.value n) }
{
    (n.is_multiple_of(&d), n.divides(&d))
}

/// Returns `true` if the second number divides the first, at `i64`.
pub fn divisibility_of_i64(n: i64, d: i64) -> bool
    ensures multiple { IsTrue result ↔ Divides d n }
{
    Integer::is_multiple_of(&n, &d)
}

/// Returns whether the number is even and whether it is odd. It is even exactly if 2 divides it, and odd exactly if 2
/// does not.
pub fn parity<T: Integer>(n: T) -> (bool, bool)
    requires in_range { T.fits (T.value n) }
    ensures even { IsTrue result.0 ↔ IsEven (T.value n) }
    ensures odd { IsTrue result.1 ↔ ¬ (IsEven (T.value n)) }
{
    (n.is_even(), n.is_odd())
}

/// Returns the parity at `i64`.
pub fn parity_of_i64(n: i64) -> (bool, bool)
    ensures even { IsTrue result.0 ↔ IsEven n }
    ensures odd { IsTrue result.1 ↔ ¬ (IsEven n) }
{
    (Integer::is_even(&n), Integer::is_odd(&n))
}

/// Adds one. The sum has to fit.
pub fn one_more<T: Integer>(n: &mut T)
    requires in_range { T.fits (T.value n.old) }
    requires sum_fits { T.fits (T.value n.old +ℤ pos 1) }
    ensures in_range { T.fits (T.value n.new) }
    ensures more { T.value n.new ≡ T.value n.old +ℤ pos 1 }
{
    n.inc();
}

/// Adds one at `u64`.
pub fn one_more_of_u64(n: &mut u64)
    requires sum_fits { n.old + 1 < 2 ^ 64 }
    ensures more { n.new ≡ n.old + 1 }
{
    Integer::inc(n);
}

/// Subtracts one. The difference has to fit.
pub fn one_less<T: Integer>(n: &mut T)
    requires in_range { T.fits (T.value n.old) }
    requires difference_fits { T.fits (T.value n.old -ℤ pos 1) }
    ensures in_range { T.fits (T.value n.new) }
    ensures less { T.value n.new ≡ T.value n.old -ℤ pos 1 }
{
    n.dec();
}

/// Returns the least common multiple. It is at least 0, both numbers divide it, and it divides every number that both
/// divide.
pub fn least_common_multiple<T: Integer>(a: T, b: T) -> T
    requires in_range { T.fits (T.value a) × T.fits (T.value b) }
    requires lcm_fits { EachFits T.fits (IsLeastCommonMultiple (T.value a) (T.value b)) }
    ensures in_range { T.fits (T.value result) }
    ensures least { IsLeastCommonMultiple (T.value a) (T.value b) (T.value result) }
{
    lcm(a, b)
}

/// Returns the least common multiple at `u64`.
pub fn least_common_multiple_of_u64(a: u64, b: u64) -> u64
    requires lcm_fits { EachFits (FitsUnsignedBits 64) (IsLeastCommonMultiple (pos a) (pos b)) }
    ensures least { IsLeastCommonMultiple (pos a) (pos b) (pos result) }
{
    a.lcm(&b)
}

/// Returns the greatest common divisor and the least common multiple.
pub fn gcd_and_lcm<T: Integer>(a: T, b: T) -> (T, T)
    requires in_range { T.fits (T.value a) × T.fits (T.value b) }
    requires gcd_fits { GcdFits T.fits (T.value a) (T.value b) }
    requires lcm_fits { EachFits T.fits (IsLeastCommonMultiple (T.value a) (T.value b)) }
    ensures in_range { T.fits (T.value result.0) × T.fits (T.value result.1) }
    ensures greatest { IsGreatestCommonDivisor (T.value a) (T.value b) (T.value result.0) }
    ensures least { IsLeastCommonMultiple (T.value a) (T.value b) (T.value result.1) }
{
    gcd_lcm(a, b)
}

/// Returns the greatest common divisor with its pair, and the least common multiple.
pub fn bezout_pair_and_lcm<T: Integer + Signed>(a: T, b: T) -> (ExtendedGcd<T>, T)
    requires in_range { T.fits (T.value a) × T.fits (T.value b) }
    requires gcd_fits { GcdFits T.fits (T.value a) (T.value b) }
    requires has_pair { HasPair T.fits (T.value a) (T.value b) }
    requires lcm_fits { EachFits T.fits (IsLeastCommonMultiple (T.value a) (T.value b)) }
    ensures in_range { T.fits (T.value result.0.gcd) × T.fits (T.value result.0.x)
        × T.fits (T.value result.0.y) × T.fits (T.value result.1) }
    ensures named { IsBezoutAnswer (T.value a) (T.value b)
        (T.value result.0.gcd) (T.value result.0.x) (T.value result.0.y) }
    ensures least { IsLeastCommonMultiple (T.value a) (T.value b) (T.value result.1) }
{
    a.extended_gcd_lcm(&b)
}

/// Returns half of the sum rounded down and half of it rounded up, for any two numbers of the type.
pub fn averages<T: Average>(a: T, b: T) -> (T, T)
    requires in_range { T.fits (T.value a) × T.fits (T.value b) }
    ensures in_range { T.fits (T.value result.0) × T.fits (T.value result.1) }
    ensures floor { IsAverageFloor (T.value a) (T.value b) (T.value result.0) }
    ensures ceil { IsAverageCeil (T.value a) (T.value b) (T.value result.1) }
{
    (average_floor(a, b), average_ceil(a, b))
}

/// Returns the averages at `i64`.
pub fn averages_of_i64(a: i64, b: i64) -> (i64, i64)
    ensures floor { IsAverageFloor a b result.0 }
    ensures ceil { IsAverageCeil a b result.1 }
{
    (a.average_floor(&b), a.average_ceil(&b))
}

/// Returns `true` exactly if the precondition of a division holds: the divisor is not 0, and the quotient fits. The quotients of all
/// three kinds fit, or none does: each does unless the divisor is -1 and the negation of the number does not fit.
pub fn domain_of_quotients<T: Fits>(n: T, d: T) -> bool
    requires in_range { T.fits (T.value n) × T.fits (T.value d) }
    ensures quotient { EachKind (λ Kind. IsTrue result ↔ ((T.value d ≢ pos 0)
        × EachFits T.fits (IsQuotient Kind (T.value n) (T.value d)))) }
    ensures negation { IsTrue result ↔ ((T.value d ≢ pos 0)
        × (T.value d ≡ negsuc 0 → T.fits (neg_ℤ (T.value n)))) }
{
    n.quotient_fits(&d)
}

/// Returns `true` exactly if the preconditions of the next and of the previous multiple hold: the divisor is not 0, and the
/// multiple fits.
pub fn domains_of_multiples<T: Fits>(n: T, d: T) -> (bool, bool)
    requires in_range { T.fits (T.value n) × T.fits (T.value d) }
    ensures next { IsTrue result.0 ↔ ((T.value d ≢ pos 0)
        × EachFits T.fits (IsMultiple IsCeiled (T.value n) (T.value d))) }
    ensures previous { IsTrue result.1 ↔ ((T.value d ≢ pos 0)
        × EachFits T.fits (IsMultiple IsFloored (T.value n) (T.value d))) }
{
    (n.next_multiple_fits(&d), n.prev_multiple_fits(&d))
}

/// Returns `true` exactly if the preconditions of `gcd` and of `lcm` hold: the number fits.
pub fn domains_of_divisors<T: Fits>(a: T, b: T) -> (bool, bool)
    requires in_range { T.fits (T.value a) × T.fits (T.value b) }
    ensures gcd { IsTrue result.0 ↔ EachFits T.fits
        (IsGreatestCommonDivisor (T.value a) (T.value b)) }
    ensures lcm { IsTrue result.1 ↔ EachFits T.fits
        (IsLeastCommonMultiple (T.value a) (T.value b)) }
{
    (a.gcd_fits(&b), a.lcm_fits(&b))
}

/// Returns `true` exactly if the type has a pair for the two numbers. If their greatest common divisor fits too,
/// `extended_gcd` may be called.
pub fn domain_of_bezout_pair<T: Fits>(a: T, b: T) -> bool
    requires in_range { T.fits (T.value a) × T.fits (T.value b) }
    ensures pair { IsTrue result ↔ HasPair T.fits (T.value a) (T.value b) }
{
    a.pair_fits(&b)
}

/// Returns the results of the tests of a sum, of a difference and of a product. Each is `true` exactly if the number
/// fits.
pub fn domains_of_operators<T: Fits>(a: T, b: T) -> (bool, bool, bool)
    requires in_range { T.fits (T.value a) × T.fits (T.value b) }
    ensures sum { IsTrue result.0 ↔ T.fits (T.value a +ℤ T.value b) }
    ensures difference { IsTrue result.1 ↔ T.fits (T.value a -ℤ T.value b) }
    ensures product { IsTrue result.2 ↔ T.fits (T.value a *ℤ T.value b) }
{
    (a.sum_fits(&b), a.difference_fits(&b), a.product_fits(&b))
}

/// Returns `true` exactly if the precondition of `binomial` holds: neither number is negative, and the coefficient fits.
pub fn domain_of_binomial<T: Fits>(n: T, k: T) -> bool
    requires in_range { T.fits (T.value n) × T.fits (T.value k) }
    ensures binomial { IsTrue result ↔ ((pos 0 ≤ℤ T.value n) × (pos 0 ≤ℤ T.value k)
        × T.fits (coefficient_of (T.value n) (T.value k))) }
{
    n.binomial_fits(&k)
}

/// Returns `true` exactly if the precondition of `multinomial` holds: no count is negative, and the coefficient fits.
pub fn domain_of_multinomial<T: Fits>(counts: &[T]) -> bool
    requires in_range { All (λ count. T.fits (T.value count)) counts.now }
    ensures multinomial { IsTrue result ↔ (All (λ count. pos 0 ≤ℤ T.value count) counts.now
        × EachFits T.fits (IsMultinomial (map T.value counts.now))) }
{
    T::multinomial_fits(counts)
}

/// Returns whether the number is negative, and its magnitude.
pub fn parts_of_number<T: Fits>(n: T) -> (bool, u128)
    requires in_range { T.fits (T.value n) }
    ensures negative { IsTrue result.0 ↔ (T.value n <ℤ pos 0) }
    ensures magnitude { result.1 ≡ unsigned_abs (T.value n) }
{
    n.parts()
}

/// Returns the magnitude of the smallest number of the type, and its largest number.
pub fn ends_of_type<T: Fits>() -> (u128, u128)
    ensures low { result.0 ≡ unsigned_abs T.low }
    ensures high { pos result.1 ≡ T.high }
{
    T::ends()
}

/// Returns the ends of a type that every generic theorem here accepts, except those on roots.
fn ends_of_lawful_type<T: Fits + Average + GcdCounted>() -> (u128, u128)
    ensures low { result.0 ≡ unsigned_abs T.low }
    ensures high { pos result.1 ≡ T.high }
{
    ends_of_type::<T>()
}

/// Returns the ends of a type that every generic theorem here accepts, those on roots included.
fn ends_of_type_with_roots<T: Fits + Average + GcdCounted + SqrtCounted>() -> (u128, u128)
    ensures low { result.0 ≡ unsigned_abs T.low }
    ensures high { pos result.1 ≡ T.high }
{
    ends_of_lawful_type::<T>()
}

/// Returns, for each of the ten native types that have roots, the magnitude of its smallest number, and its largest number.
/// Each of these types is lawful: every generic theorem here accepts it.
pub fn ends_of_types_with_roots() -> ([(u128, u128); 5], [(u128, u128); 5])
    ensures signed { result.0 ≡ (2 ^ 7, 2 ^ 7 - 1) ∷ (2 ^ 15, 2 ^ 15 - 1) ∷ (2 ^ 31, 2 ^ 31 - 1)
        ∷ (2 ^ 63, 2 ^ 63 - 1) ∷ (2 ^ 63, 2 ^ 63 - 1) ∷ [] }
    ensures unsigned { result.1 ≡ (0, 2 ^ 8 - 1) ∷ (0, 2 ^ 16 - 1) ∷ (0, 2 ^ 32 - 1)
        ∷ (0, 2 ^ 64 - 1) ∷ (0, 2 ^ 64 - 1) ∷ [] }
{
    (
        [
            ends_of_type_with_roots::<i8>(),
            ends_of_type_with_roots::<i16>(),
            ends_of_type_with_roots::<i32>(),
            ends_of_type_with_roots::<i64>(),
            ends_of_type_with_roots::<isize>(),
        ],
        [
            ends_of_type_with_roots::<u8>(),
            ends_of_type_with_roots::<u16>(),
            ends_of_type_with_roots::<u32>(),
            ends_of_type_with_roots::<u64>(),
            ends_of_type_with_roots::<usize>(),
        ],
    )
}

/// Returns the same for `i128` and `u128`. They are lawful: every generic theorem here accepts them, except those on roots.
pub fn ends_of_types_without_roots() -> ((u128, u128), (u128, u128))
    ensures signed { result.0 ≡ (2 ^ 127, 2 ^ 127 - 1) }
    ensures unsigned { result.1 ≡ (0, 2 ^ 128 - 1) }
{
    (ends_of_lawful_type::<i128>(), ends_of_lawful_type::<u128>())
}

/// Returns the greatest common divisor and the number of iterations of Stein's loop. It is at most the sum of the bit
/// lengths of the two numbers.
pub fn iterations_for_gcd<T: GcdCounted>(a: T, b: T) -> (T, u32)
    requires in_range { T.fits (T.value a) × T.fits (T.value b) }
    requires gcd_fits { GcdFits T.fits (T.value a) (T.value b) }
    ensures in_range { T.fits (T.value result.0) }
    ensures greatest { IsGreatestCommonDivisor (T.value a) (T.value b) (T.value result.0) }
    ensures iterations { AreGcdIterations T.low (T.value a) (T.value b) result.1 }
    ensures bound { (k l : ℕ) → IsBitLength (T.value a) k → IsBitLength (T.value b) l
        → result.1 ≤ k + l }
{
    a.gcd_counted(&b)
}

/// Returns the greatest common divisor and the number of iterations at `u64`.
pub fn iterations_for_gcd_of_u64(a: u64, b: u64) -> (u64, u32)
    ensures greatest { IsGreatestCommonDivisor (pos a) (pos b) (pos result.0) }
    ensures iterations { AreGcdIterations (pos 0) (pos a) (pos b) result.1 }
    ensures bound { (k l : ℕ) → IsBitLength (pos a) k → IsBitLength (pos b) l
        → result.1 ≤ k + l }
{
    GcdCounted::gcd_counted(&a, &b)
}

/// Returns the greatest common divisor with its pair and the number `t` of iterations of Euclid's loop. If `b` is not 0, the
/// Fibonacci number of `t + 2`, times the greatest common divisor, is at most the magnitude of `b` (Lamé, 1844).
pub fn iterations_for_bezout_pair<T: Integer>(a: T, b: T) -> (ExtendedGcd<T>, u32)
    requires in_range { T.fits (T.value a) × T.fits (T.value b) }
    requires gcd_fits { GcdFits T.fits (T.value a) (T.value b) }
    requires has_pair { HasPair T.fits (T.value a) (T.value b) }
    ensures in_range { T.fits (T.value result.0.gcd) × T.fits (T.value result.0.x)
        × T.fits (T.value result.0.y) }
    ensures named { IsBezoutAnswer (T.value a) (T.value b)
        (T.value result.0.gcd) (T.value result.0.x) (T.value result.0.y) }
    ensures iterations { AreEuclidIterations (T.value a) (T.value b) result.1 }
    ensures bound { T.value b ≢ pos 0
        → fibonacci (result.1 + 2) * unsigned_abs (T.value result.0.gcd)
        ≤ unsigned_abs (T.value b) }
{
    extended_gcd_counted(a, b)
}

/// Returns the pair and the number of iterations at `i64`.
pub fn iterations_for_bezout_pair_of_i64(a: i64, b: i64) -> (ExtendedGcd<i64>, u32)
    requires gcd_fits { GcdFits (FitsSigned w64) a b }
    ensures named { IsBezoutAnswer a b result.0.gcd result.0.x result.0.y }
    ensures iterations { AreEuclidIterations a b result.1 }
    ensures bound { b ≢ pos 0
        → fibonacci (result.1 + 2) * unsigned_abs result.0.gcd ≤ unsigned_abs b }
{
    extended_gcd_counted::<i64>(a, b)
}

/// Returns the binomial coefficient and the number `t` of iterations of its loop, which is the smaller of `k` and
/// `n - k`, or 0 if `k` is greater than `n`: in a clause `n - k` is then 0. 2 to the power of `t` is at most the
/// coefficient, unless `k` is greater than `n`.
pub fn iterations_for_binomial<T: Integer>(n: T, k: T) -> (T, u32)
    requires in_range { T.fits (T.value n) × T.fits (T.value k) }
    requires from_zero { (pos 0 ≤ℤ T.value n) × (pos 0 ≤ℤ T.value k) }
    requires coefficient_fits { T.fits (coefficient_of (T.value n) (T.value k)) }
    ensures in_range { T.fits (T.value result.0) }
    ensures exact { T.value result.0 ≡ coefficient_of (T.value n) (T.value k) }
    ensures iterations { result.1
        ≡ min (unsigned_abs (T.value k)) (unsigned_abs (T.value n) - unsigned_abs (T.value k)) }
    ensures bound { T.value k ≤ℤ T.value n
        → 2 ^ result.1 ≤ coefficient (unsigned_abs (T.value n)) (unsigned_abs (T.value k)) }
{
    binomial_counted(n, k)
}

/// Returns the binomial coefficient and the number of iterations at `u64`.
pub fn iterations_for_binomial_of_u64(n: u64, k: u64) -> (u64, u32)
    requires coefficient_fits { coefficient n k < 2 ^ 64 }
    ensures exact { result.0 ≡ coefficient n k }
    ensures iterations { result.1 ≡ min k (n - k) }
    ensures bound { k ≤ n → 2 ^ result.1 ≤ coefficient n k }
{
    binomial_counted::<u64>(n, k)
}

/// Returns the parts of a fraction. The denominator is positive, and the greatest common divisor of the parts is 1.
pub fn parts_of_fraction(x: &Ratio) -> (i64, i64)
    ensures num { result.0 ≡ num_of x.now }
    ensures den { result.1 ≡ den_of x.now }
    ensures reduced { IsReduced result.0 result.1 }
{
    (x.num(), x.den())
}

/// Returns the reduced fraction that is equal to `num / den`. Returns an error if the denominator is 0 or if a part
/// of the reduced fraction does not fit in `i64`.
#[tactic(auto, using(std::proofs::lemmas::Int::wraps))]
pub fn fraction(num: i64, den: i64) -> Result<Ratio, RatioError>
    ensures exact { IfOk result (λ x. IsExact num den (num_of x) (den_of x)) }
    ensures zero_denominator { (result ≡ Err RatioError.ZeroDenominator) ↔ (den ≡ pos 0) }
    ensures not_fitting { (result ≡ Err RatioError.NotFitting) ↔ IsOutsideI64 num den }
{
    Ratio::new(num, den)
}

/// Returns the exact sum, or an error if a part of it does not fit in `i64`.
pub fn sum_of_fractions(x: &Ratio, y: &Ratio) -> Result<Ratio, RatioError>
    ensures exact { AnswersFraction
        (num_of x.now *ℤ den_of y.now +ℤ num_of y.now *ℤ den_of x.now)
        (den_of x.now *ℤ den_of y.now) result }
    ensures never_zero { result ≢ Err RatioError.ZeroDenominator }
{
    x.checked_add(y)
}

/// Returns the exact difference, or an error if a part of it does not fit in `i64`.
pub fn difference_of_fractions(x: &Ratio, y: &Ratio) -> Result<Ratio, RatioError>
    ensures exact { AnswersFraction
        (num_of x.now *ℤ den_of y.now -ℤ num_of y.now *ℤ den_of x.now)
        (den_of x.now *ℤ den_of y.now) result }
    ensures never_zero { result ≢ Err RatioError.ZeroDenominator }
{
    x.checked_sub(y)
}

/// Returns the exact product, or an error if a part of it does not fit in `i64`.
pub fn product_of_fractions(x: &Ratio, y: &Ratio) -> Result<Ratio, RatioError>
    ensures exact { AnswersFraction (num_of x.now *ℤ num_of y.now)
        (den_of x.now *ℤ den_of y.now) result }
    ensures never_zero { result ≢ Err RatioError.ZeroDenominator }
{
    x.checked_mul(y)
}

/// Returns the exact quotient, or an error if the divisor is 0 or if a part of the quotient does not fit in `i64`.
pub fn quotient_of_fractions(x: &Ratio, y: &Ratio) -> Result<Ratio, RatioError>
    ensures exact { AnswersFraction (num_of x.now *ℤ den_of y.now)
        (num_of y.now *ℤ den_of x.now) result }
    ensures zero_divisor { (result ≡ Err RatioError.ZeroDenominator)
        ↔ (num_of y.now ≡ pos 0) }
{
    x.checked_div(y)
}

/// Returns the quotient of the parts rounded down, and the quotient rounded up.
pub fn floor_and_ceil_of_fraction(x: &Ratio) -> (i64, i64)
    ensures floored { IsQuotient IsFloored (num_of x.now) (den_of x.now) result.0 }
    ensures ceiled { IsQuotient IsCeiled (num_of x.now) (den_of x.now) result.1 }
{
    (x.floor(), x.ceil())
}

/// Returns the order of the fractions. Their cross products are in the same order.
pub fn order_of_fractions(x: &Ratio, y: &Ratio) -> Ordering
    ensures order { result
        ≡ fraction_cmp (num_of x.now) (den_of x.now) (num_of y.now) (den_of y.now) }
{
    x.cmp(y)
}

/// Returns `true` exactly if the fractions are equal: the numerator of each, times the denominator of the other, is the
/// same number.
pub fn equality_of_fractions(x: &Ratio, y: &Ratio) -> bool
    ensures equal { IsTrue result
        ↔ AreEqual (num_of x.now) (den_of x.now) (num_of y.now) (den_of y.now) }
{
    x == y
}

/// Hashes two fractions with two hashers. Each hasher is given the numerator, then the denominator. If the fractions are
/// equal and the hashers were in the same state, they are in the same state again.
pub fn hashes_of_fractions<H: Hasher>(x: &Ratio, y: &Ratio, first: &mut H, second: &mut H)
    ensures first { first.new ≡ fold H.write first.old
        (written.i64 (num_of x.now) ++ written.i64 (den_of x.now)) }
    ensures second { second.new ≡ fold H.write second.old
        (written.i64 (num_of y.now) ++ written.i64 (den_of y.now)) }
    ensures same { AreEqual (num_of x.now) (den_of x.now) (num_of y.now) (den_of y.now)
        → first.old ≡ second.old → first.new ≡ second.new }
{
    x.hash(first);
    y.hash(second);
}

/// Returns the number of an error: 1 for a denominator 0, and 2 for a part that does not fit.
pub fn number_of_error(error: &RatioError) -> u32
    ensures number { result ≡ errors.number_of error.now }
{
    error.number()
}

/// Returns the number and the name of a refusal, by the table of the refusals.
pub fn number_and_name_of_refusal(refusal: &Refusal) -> (u32, &'static str)
    ensures number { result.0 ≡ refusals.number_of refusal.now }
    ensures name { result.1.now ≡ refusals.name_of refusal.now }
{
    (refusal.number(), refusal.name())
}

/// Returns the outcome of the definition: the first refusal whose condition holds, or otherwise the numbers of the
/// result. A kind and a call have no other outcome.
pub fn outcome(kind: Kind, call: Call) -> Result<Answer, Refusal>
    ensures defined { Outcome kind call result }
    ensures only { IsOnly (Outcome kind call) result }
{
    evaluate(kind, call)
}

/// Returns the number of a word, or `None` if the word is no number. A number outside `i128` is moved to the nearer end.
pub fn number_of_word(word: &str) -> Option<i128>
    ensures number { result ≡ spelled_number word.now }
{
    read_number(word)
}

/// Returns the kind and the call that the words ask for, or `None` if they ask for no call. The words ask for no other
/// kind and call.
pub fn call_of_words(words: &[&str]) -> Option<(Kind, Call)>
    ensures defined { IsRequest (map (λ w. w.now) words.now) result }
    ensures only { IsOnly (IsRequest (map (λ w. w.now) words.now)) result }
{
    read_words(words)
}

/// Returns the line that the words ask for, and its status. The words ask for no other line and status.
pub fn line_of_words(words: &[&str]) -> (Buffer, u8)
    ensures defined { IsLine (map (λ w. w.now) words.now) result.0 result.1 }
    ensures only { IsOnly (λ (line, status). IsLine (map (λ w. w.now) words.now) line status)
        (result.0, result.1) }
{
    line_for(words)
}

/// Prints the line that the words ask for, and returns its status. It returns 4 exactly if the sink has failed.
/// Otherwise the sink has finished, and if it shows its bytes, exactly the line was added to them.
pub fn printed_line<S: Sink>(words: &[&str], out: &mut S) -> u8
    ensures failed { (result ≡ 4) ↔ IsTrue (S.has_failed out.new) }
    ensures line { result ≢ 4 → (line : List ℕ)
        × IsLine (map (λ w. w.now) words.now) line result
        × Appends (S.contents out.old) (S.contents out.new) line }
    ensures finished { result ≢ 4 → IsTrue (S.is_finished out.new) }
{
    run(words, out)
}

/// Returns a console over the writer. It has not failed, and it is not finished.
pub fn new_console<W: Write>(out: W) -> Console<W>
    ensures writer { writer_of result ≡ out }
    ensures fresh { has_failed result ≡ false }
    ensures unfinished { is_finished result ≡ false }
{
    Console::new(out)
}

/// Puts bytes on a console, and returns how many it took, or `None` if the console has failed. If the writer shows its
/// bytes, exactly those that it took were added to them, and at `None` none was. A console that has failed stays failed. No
/// clause says when a console fails, since a writer may fail at any time.
pub fn put_on_console<W: Write>(console: &mut Console<W>, bytes: &[u8]) -> Option<usize>
    ensures bound { IfSome result (λ n. n ≤ length bytes.now) }
    ensures progress { 0 < length bytes.now → IfSome result (λ n. 0 < n) }
    ensures added { IfSome result (λ n. Appends (W.contents (writer_of console.old))
        (W.contents (writer_of console.new)) (take n bytes.now)) }
    ensures failed { IsNone result ↔ IsTrue (has_failed console.new) }
    ensures for_good { IsTrue (has_failed console.old) → IsTrue (has_failed console.new) }
    ensures kept { IsNone result
        → Keeps (W.contents (writer_of console.old)) (W.contents (writer_of console.new)) }
    ensures unfinished { is_finished console.new ≡ false }
{
    console.put(bytes)
}

/// Flushes the writer of a console, and returns `false` exactly if the console has failed. At `true` the console is
/// finished, and the bytes of its writer are what they were. No clause says when the flush fails.
pub fn finished_console<W: Write>(console: &mut Console<W>) -> bool
    ensures kept { OnTrue result
        (Keeps (W.contents (writer_of console.old)) (W.contents (writer_of console.new))) }
    ensures failed { (result ≡ false) ↔ IsTrue (has_failed console.new) }
    ensures for_good { IsTrue (has_failed console.old) → IsTrue (has_failed console.new) }
    ensures finished { is_finished console.new ≡ result }
{
    console.finish()
}

/// Returns the writer of a console.
pub fn writer_of_the_console<W: Write>(console: Console<W>) -> W
    ensures writer { result ≡ writer_of console }
{
    console.into_inner()
}
