//! Choices of numbers, and their ranks.

ghost use Rattle.std.specs.Prelude.{◌≡◌, ◌↔◌, ◌<◌, ◌^◌, ℕ, pos, List, length, IsTrue};
ghost use Rattle.num_integer.specs.Coefficient.{coefficient};
ghost use Rattle.applied.specs.Ranking.{IsChoice, IsChoiceOfRank, rank_of};
ghost use Rattle.cellarcove_c.specs.Answers.{Answers, U64Answers};
ghost use Rattle.cellarcove_c.specs.Statuses.{IsReason, StatusIs, outside};

use crate::answers::{ANSWER, NOT_FITTING, OUTSIDE, U64Answer};
use crate::binomials::binomial;
use applied::ranking::{choice_of_rank, is_choice, rank, rank_fits};

/// Returns the rank of a choice of numbers below `n`: how many choices of as many numbers come before
/// it. They are ordered by their last number, then by the one before it, and so on. For 0, 2 and 3 below 5 it
/// is 2.
///
/// `OUTSIDE` if the numbers do not increase or are not all below `n`. `NOT_FITTING` if the rank does not
/// fit.
#[unsafe(no_mangle)]
pub extern "C" fn cellarcove_rank_u64(choice: &[u64], n: u64) -> U64Answer
    ensures { U64Answers ((IsChoice n choice.now) × (rank_of choice.now < 2 ^ 64))
        (λ r. r ≡ pos (rank_of choice.now)) (IsReason (¬ (IsChoice n choice.now))) result }
{
    if !is_choice(choice, n) {
        U64Answer::none(OUTSIDE)
    } else if rank_fits(choice) {
        U64Answer::some(rank(choice, n))
    } else {
        U64Answer::none(NOT_FITTING)
    }
}

/// Writes the choice of numbers below `n` that has the rank, of as many numbers as `choice` has, and
/// returns the status. For 2, 5 and 3 numbers they are 0, 2 and 3. If the status is not 0, `choice` stays as it
/// is.
///
/// `OUTSIDE` if the rank is not below the number of these choices.
#[unsafe(no_mangle)]
pub extern "C" fn cellarcove_choice_of_rank_u64(rank: u64, n: u64, choice: &mut [u64]) -> u32
    ensures { Answers {A = List ℕ} (rank < coefficient n (length choice.old))
        (IsChoiceOfRank n (length choice.old) rank) (StatusIs outside) choice.old result choice.new }
{
    if is_rank(rank, n, choice.len() as u64) {
        choice_of_rank(rank, n, choice);
        ANSWER
    } else {
        OUTSIDE
    }
}

/// Returns `true` if the rank is below the number of choices of `k` numbers below `n`, which may not
/// fit.
fn is_rank(rank: u64, n: u64, k: u64) -> bool
    ensures { IsTrue result ↔ (rank < coefficient n k) }
{
    match binomial(n, k) {
        Some(count) => rank < count,
        None => true,
    }
}
