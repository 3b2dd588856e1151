//! Functions that call `applied` for combinations and their ranks.

ghost use Rattle.std.specs.Prelude.{◌≡◌, ◌<◌, ◌≤◌, ◌+◌, ◌^◌, IsFalse, IsTrue, MatchOption, length};
ghost use Rattle.num_integer.specs.Coefficient.{coefficient};
ghost use Rattle.applied.specs.Ranking.{IsChoice, IsChoiceOfRank, rank_of};

use applied::ranking::{choice_of_rank, is_choice, next_choice, rank};
use num_integer::Fits;

/// Returns the rank of the numbers. Returns `None` if they are not a combination or the number of combinations of
/// their length does not fit.
pub fn rank_if_count_fits(numbers: &[u64], n: u64) -> Option<u64>
    ensures { MatchOption result
        (¬ (IsChoice n numbers.now × (coefficient n (length numbers.now) < 2 ^ 64)))
        (λ r. r ≡ rank_of numbers.now) }
{
    let k = numbers.len() as u64;
    if is_choice(numbers, n) && n.binomial_fits(&k) {
        Some(rank(numbers, n))
    } else {
        None
    }
}

/// Returns the number of a lottery ticket with six numbers below 49, or `None` if the numbers do not increase or one
/// is not below 49.
#[tactic(auto, unfolding(num_integer::specs::Coefficient::coefficient))]
pub fn ticket_number(numbers: &[u64; 6]) -> Option<u64>
    ensures { MatchOption result (¬ (IsChoice 49 numbers.now))
        (λ r. (r ≡ rank_of numbers.now) × (r < 13983816)) }
{
    if is_choice(numbers, 49) {
        Some(rank(numbers, 49))
    } else {
        None
    }
}

/// Returns the number of a lottery ticket, or `None` if there are not six numbers, they do not increase, or one
/// is not below 49.
#[tactic(auto, unfolding(num_integer::specs::Coefficient::coefficient))]
pub fn ticket_number_of_slice(numbers: &[u64]) -> Option<u64>
    ensures { MatchOption result (¬ ((length numbers.now ≡ 6) × IsChoice 49 numbers.now))
        (λ r. r ≡ rank_of numbers.now) }
{
    if numbers.len() == 6 && is_choice(numbers, 49) {
        Some(rank(numbers, 49))
    } else {
        None
    }
}

/// Replaces the combination by the one whose rank is 2 larger. Returns `false` if there is none, and the combination is
/// then the last one.
pub fn advance_two_ranks(choice: &mut [u64], n: u64) -> bool
    requires { IsChoice n choice.old }
    ensures choice { IsChoice n choice.new }
    ensures rank { IsTrue result → rank_of choice.new ≡ rank_of choice.old + 2 }
    ensures none { IsFalse result → coefficient n (length choice.old) ≤ rank_of choice.old + 2 }
    ensures last { IsFalse result → rank_of choice.new + 1 ≡ coefficient n (length choice.old) }
    ensures size { length choice.new ≡ length choice.old }
{
    next_choice(choice, n) && next_choice(choice, n)
}

/// Returns the lottery ticket with a number.
#[tactic(auto, unfolding(num_integer::specs::Coefficient::coefficient))]
pub fn ticket_of_number(number: u64) -> [u64; 6]
    requires { number < 13983816 }
    ensures { IsChoiceOfRank 49 6 number result }
{
    let mut ticket = [0; 6];
    choice_of_rank(number, 49, &mut ticket);
    ticket
}
