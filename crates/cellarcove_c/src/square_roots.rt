//! The square root, without a division, which would take longer than all of it.

ghost use Rattle.std.specs.Prelude.{◌≡◌, ◌↔◌, ◌*◌, ◌/◌, ◌<◌, ◌^◌, pos, IsTrue};
ghost use Rattle.num_integer.specs.RootOf.{IsRoot};

use num_integer::sqrt;

/// Three quarters of 2^64, rounded down.
const THREE_QUARTERS: u64 = u64::MAX / 4 * 3;

/// Returns the square root rounded down. That of 99 is 9.
///
/// It tests a guess, so the proof needs to know nothing of the guess. No number is known that needs `sqrt`: none below
/// 2^32 does, none of 10^9 random ones, and none of 10^8 squares and the numbers before them.
#[tactic(auto, using(num_integer::proofs::ForCallers::root_by_squares))]
pub(crate) fn floor_square_root(x: u64) -> u64
    ensures root { IsRoot (pos x) 2 (pos result) }
    ensures small { result < 2 ^ 32 }
{
    let guess = guessed_square_root(x);
    let before = guess.wrapping_sub(1);
    if is_floor_root(guess, x) {
        guess
    } else if is_floor_root(before, x) {
        before
    } else {
        sqrt(x)
    }
}

/// Returns `true` if `root` is the square root rounded down. For 9 and 99 it is `true`, and for 9 and 100 it is
/// `false`.
#[tactic(auto, using(num_integer::proofs::ForCallers::root_by_squares))]
fn is_floor_root(root: u64, x: u64) -> bool
    ensures { IsTrue result ↔ IsRoot (pos x) 2 (pos root) }
{
    if root >= 1 << 32 {
        return false;
    }
    let square = root * root;
    square <= x && x - square <= 2 * root
}

/// Returns the square root rounded down, or 1 more, for each number that was tried.
///
/// By Newton's iteration for the inverse of a square root, as in 'Modern Computer Arithmetic' of Brent and Zimmermann,
/// section 4.2: with `m = scaled / 2^64`, from 1/4 on and below 1, `y = inverse / 2^64` is about `1 / (2 sqrt(m))`.
/// First it is `0.5143 + 13/16 (1 - m)^2`, within 3 percent, and each iteration, to `2 y (3/4 - m y^2)`, makes an
/// error of `e` one of `3/2 e^2` below. Half the root of `m` is `m y`, which is multiplied by the same factor beside
/// `y`. What is added is more than the last error, so the root of a square is not 1 less. A root of at most 16 bits
/// needs one iteration less.
fn guessed_square_root(x: u64) -> u64 {
    let (iterations, error) = if x < 1 << 32 {
        (2, 1 << 45)
    } else {
        (3, 1 << 27)
    };
    let places = x.leading_zeros() / 2;
    let scaled = x.wrapping_shl(2 * places);
    let gap = high_product(!scaled, !scaled);
    let mut inverse = (gap / 16 * 13).wrapping_add(0x83AA << 48);
    let mut half = high_product(scaled, inverse);
    for _ in 0..iterations {
        let factor = THREE_QUARTERS.wrapping_sub(high_product(half, inverse));
        half = high_product(half, factor) << 1;
        inverse = high_product(inverse, factor) << 1;
    }
    half.wrapping_add(error) >> (31 + places)
}

/// Returns the high 64 bits of the product. Those of 2^63 and 10 are 5.
pub(crate) fn high_product(x: u64, y: u64) -> u64
    ensures { result ≡ x * y / 2 ^ 64 }
{
    ((u128::from(x) * u128::from(y)) >> 64) as u64
}
