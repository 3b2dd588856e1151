//! Newton's method on integers of 64 bits.

ghost use Rattle.std.specs.Prelude.{ℕ, pos, ◌≡◌, ◌<◌, ◌≤◌, ◌^◌};
ghost use Rattle.integer_roots.specs.SquareRuns.{Guess, Falling};
ghost use Rattle.integer_roots.specs.NewtonRuns.{guess_of, newton_step, IsReached};
ghost use Rattle.integer_roots.specs.RootOf.{IsFloorRoot};

/// Returns the root of `a` of degree `n` by this step. The first guess is a power of two near the root.
pub(crate) fn root_by_newton<F: Fn(u64) -> u64>(a: u64, n: u32, step: F) -> u64
    requires degree { 3 ≤ n }
    requires power_le { 2 ^ n ≤ a }
    requires ready { (x : ℕ) → 2 ≤ x → x ≤ 2 ^ 24 → F.pre step x }
    requires newton { (x y : ℕ) → F.post step x y → y ≡ newton_step a n x }
    ensures { IsFloorRoot (pos a) n (pos result) }
{
    newton(1 << a.ilog2().div_ceil(n), step).0
}

/// Returns the guess at which both loops end, and the number of iterations. The first loop iterates while
/// the next guess is larger, the second while it is smaller. Both end: in the first each guess is larger
/// than the one before, and has at most 64 bits; in the second each is smaller.
#[tactic(auto, using(crate::proofs::RootGuesses::newton_iterations))]
pub(crate) fn newton<F: Fn(u64) -> u64>(first: u64, step: F) -> (u64, u32)
    requires { (guess : Guess) (n : ℕ) → IsReached (F.post step) first guess n
        → F.pre step (guess_of guess) × (n < 2 ^ 32) }
    ensures reached { IsReached (F.post step) first (Falling result.0) result.1 }
    ensures ended { (next : ℕ) × F.post step result.0 next × (result.0 ≤ next) }
{
    let mut x = first;
    let mut next = step(x);
    let mut iterations = 0;
    'rise: while x < next {
        x = next;
        next = step(x);
        iterations += 1;
    }
    'fall: while x > next {
        x = next;
        next = step(x);
        iterations += 1;
    }
    (x, iterations)
}
