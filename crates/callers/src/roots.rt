//! Square roots, and roots of a degree.

ghost use Rattle.std.specs.Prelude.{◌≡◌, ◌≢◌, ◌<◌, ◌≤ℤ◌, ◌<ℤ◌, ◌+◌, ◌*◌, ◌≤◌, pos, neg_ℤ};
ghost use Rattle.num_integer.specs.RootOf.{IsRoot};

use num_integer::{Roots, checked};

/// Returns the side of the largest square with at most this area. The area is at least 0.
pub fn side_of_area(area: i64) -> i64
    requires { pos 0 ≤ℤ area }
    ensures { IsRoot area 2 result }
{
    area.sqrt()
}

/// Returns the root of a natural number. There is one of each degree except 0.
pub fn natural_root(x: u64, degree: u32) -> u64
    requires { degree ≢ 0 }
    ensures { IsRoot (pos x) degree (pos result) }
{
    x.nth_root(degree)
}

/// Returns the side of the largest square of at most `tiles` tiles.
#[tactic(auto, using(num_integer::proofs::ForCallers::root_by_squares))]
pub fn side_of_square(tiles: u64) -> u64
    ensures enough { result * result ≤ tiles }
    ensures greatest { tiles < (result + 1) * (result + 1) }
{
    tiles.sqrt()
}

/// Returns the square root, or -1 if the number is negative.
pub fn root_or_minus_one(x: i64) -> i64
    ensures root { pos 0 ≤ℤ x → IsRoot x 2 result }
    ensures less { x <ℤ pos 0 → result ≡ neg_ℤ (pos 1) }
{
    match checked::sqrt(x) {
        Some(root) => root,
        None => -1,
    }
}
