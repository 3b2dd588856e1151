//! Cube roots: by binary digits up to 32 bits, and by Newton's method for larger numbers.

ghost use Rattle.std.specs.Prelude.{◌≡◌, ◌≤◌, ◌<◌, ◌^◌, pos};
ghost use Rattle.integer_roots.specs.RootOf.{IsFloorRoot};
ghost use Rattle.integer_roots.specs.NewtonRuns.{newton_step};

use crate::newton::root_by_newton;

/// Returns the cube root of `a`, a number of a type of `bits` bits.
pub(crate) fn cube_root(a: u64, bits: u32) -> u64
    requires fits { a < 2 ^ bits }
    ensures root { IsFloorRoot (pos a) 3 (pos result) }
{
    if bits > 32 {
        wide_cube_root(a)
    } else {
        u64::from(cube_root_by_digits(a as u32, bits))
    }
}

/// Returns the cube root of a number of 64 bits.
fn wide_cube_root(a: u64) -> u64
    ensures root { IsFloorRoot (pos a) 3 (pos result) }
{
    if a < 8 {
        return u64::from(a > 0);
    }
    match u32::try_from(a) {
        Ok(a) => u64::from(cube_root_by_digits(a, u32::BITS)),
        Err(_) => cube_root_by_newton(a),
    }
}

/// Returns the cube root of `a`, by Newton's method.
#[tactic(auto, using(crate::proofs::RootGuesses::cube_step_is))]
fn cube_root_by_newton(a: u64) -> u64
    requires from_eight { 8 ≤ a }
    ensures root { IsFloorRoot (pos a) 3 (pos result) }
{
    let step = move |x: u64| -> u64
        requires above_one { 2 ≤ x }
        requires small { x ≤ 2 ^ 24 }
        ensures { result ≡ newton_step a 3 x }
    { (a / (x * x) + 2 * x) / 3 };
    root_by_newton(a, 3, step)
}

/// Returns the cube root of `a`, a number of `bits` bits. Each three bits of `a` give a digit of the root,
/// the highest first.
fn cube_root_by_digits(a: u32, bits: u32) -> u32
    requires narrow { bits ≤ 32 }
    requires fits { a < 2 ^ bits }
    ensures root { IsFloorRoot (pos a) 3 (pos result) }
{
    let mut rest = a;
    let mut square = 0;
    let mut root = 0;
    for digit in (0..bits / 3 + 1).rev() {
        let place = 3 * digit;
        square *= 4;
        root *= 2;
        let step = 3 * (square + root) + 1;
        if rest >> place >= step {
            rest -= step << place;
            square += 2 * root + 1;
            root += 1;
        }
    }
    root
}
