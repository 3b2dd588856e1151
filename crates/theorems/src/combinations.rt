//! Combinations and their ranks.

ghost use Rattle.std.specs.Prelude.{◌<◌, ◌^◌, SomeIff};
ghost use Rattle.applied.specs.Ranking.{IsChoice, rank_of};

use applied::ranking::{is_choice, rank, rank_fits};

/// Returns the rank of the numbers, or `None` if they are not a combination or the rank does not fit.
pub fn rank_if_choice(numbers: &[u64], n: u64) -> Option<u64>
    ensures { SomeIff result (IsChoice n numbers.now × (rank_of numbers.now < 2 ^ 64)) (rank_of numbers.now) }
{
    if is_choice(numbers, n) && rank_fits(numbers) {
        Some(rank(numbers, n))
    } else {
        None
    }
}
