//! Averages and roots.

ghost use Rattle.std.specs.Prelude.{◌≡◌, ◌≢◌, ◌%◌, ◌≤ℤ◌, pos};
ghost use Rattle.num_integer.specs.Averages.{IsAverageCeil, IsAverageFloor};
ghost use Rattle.num_integer.specs.RootOf.{IsRoot};
ghost use Rattle.cellarcove_c.specs.Answers.{I64Answers, U64Answers};
ghost use Rattle.cellarcove_c.specs.Statuses.{StatusIs, outside};

use crate::answers::{I64Answer, OUTSIDE, U64Answer};
use crate::square_roots::floor_square_root;
use num_integer::{average_ceil, average_floor, cbrt, checked};

/// Returns the average rounded down. That of 3 and 10 is 6, and that of 2^63 - 1 and 2^63 - 1 is 2^63 - 1.
#[unsafe(no_mangle)]
pub extern "C" fn cellarcove_average_floor_i64(x: i64, y: i64) -> i64
    ensures { IsAverageFloor x y result }
{
    average_floor(x, y)
}

/// Returns the average rounded down. That of 3 and 10 is 6, and that of 2^63 - 1 and 2^63 - 1 is 2^63 - 1.
#[unsafe(no_mangle)]
pub extern "C" fn cellarcove_average_floor_u64(x: u64, y: u64) -> u64
    ensures { IsAverageFloor (pos x) (pos y) (pos result) }
{
    average_floor(x, y)
}

/// Returns the average rounded up. That of 3 and 10 is 7, and that of 2^63 - 1 and 2^63 - 1 is 2^63 - 1.
#[unsafe(no_mangle)]
pub extern "C" fn cellarcove_average_ceil_i64(x: i64, y: i64) -> i64
    ensures { IsAverageCeil x y result }
{
    average_ceil(x, y)
}

/// Returns the average rounded up. That of 3 and 10 is 7, and that of 2^63 - 1 and 2^63 - 1 is 2^63 - 1.
#[unsafe(no_mangle)]
pub extern "C" fn cellarcove_average_ceil_u64(x: u64, y: u64) -> u64
    ensures { IsAverageCeil (pos x) (pos y) (pos result) }
{
    average_ceil(x, y)
}

/// Returns the square root rounded down. That of 99 is 9.
///
/// `OUTSIDE` if `x` is negative.
#[unsafe(no_mangle)]
pub extern "C" fn cellarcove_sqrt_i64(x: i64) -> I64Answer
    ensures { I64Answers (pos 0 ≤ℤ x) (IsRoot x 2) (StatusIs outside) result }
{
    if x < 0 {
        I64Answer::none(OUTSIDE)
    } else {
        I64Answer::some(floor_square_root(x as u64) as i64)
    }
}

/// Returns the square root rounded down. That of 99 is 9, and that of 2^64 - 1 is 4294967295.
#[unsafe(no_mangle)]
pub extern "C" fn cellarcove_sqrt_u64(x: u64) -> U64Answer
    ensures answer { U64Answers (pos 0 ≤ℤ pos x) (IsRoot (pos x) 2) (StatusIs outside) result }
    ensures always { result.status ≡ 0 }
{
    U64Answer::some(floor_square_root(x))
}

/// Returns the cube root rounded toward 0. That of -9 is -2.
#[unsafe(no_mangle)]
pub extern "C" fn cellarcove_cbrt_i64(x: i64) -> i64
    ensures { IsRoot x 3 result }
{
    cbrt(x)
}

/// Returns the cube root rounded down. That of 9 is 2.
#[unsafe(no_mangle)]
pub extern "C" fn cellarcove_cbrt_u64(x: u64) -> u64
    ensures { IsRoot (pos x) 3 (pos result) }
{
    cbrt(x)
}

/// Returns the root of a degree, rounded toward 0. That of -9 of degree 3 is -2.
///
/// `OUTSIDE` if `degree` is 0, and if it is even and `x` is negative.
#[unsafe(no_mangle)]
pub extern "C" fn cellarcove_nth_root_i64(x: i64, degree: u32) -> I64Answer
    ensures { I64Answers ((degree ≢ 0) × (degree % 2 ≡ 0 → pos 0 ≤ℤ x)) (IsRoot x degree)
        (StatusIs outside) result }
{
    I64Answer::of(checked::nth_root(x, degree), OUTSIDE)
}

/// Returns the root of a degree, rounded down. That of 9 of degree 3 is 2.
///
/// `OUTSIDE` if `degree` is 0.
#[unsafe(no_mangle)]
pub extern "C" fn cellarcove_nth_root_u64(x: u64, degree: u32) -> U64Answer
    ensures { U64Answers ((degree ≢ 0) × (degree % 2 ≡ 0 → pos 0 ≤ℤ pos x)) (IsRoot (pos x) degree)
        (StatusIs outside) result }
{
    U64Answer::of(checked::nth_root(x, degree), OUTSIDE)
}
