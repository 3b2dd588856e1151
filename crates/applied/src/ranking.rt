//! The combinatorial number system: a choice is a list of increasing numbers below `n`, and its rank is how
//! many choices of the same length come before it.

ghost use Rattle.std.specs.Prelude.{◌≡◌, ◌↔◌, ◌+◌, ◌<◌, ◌≤◌, ◌^◌, ℕ, List, length, slice_index, slice_index_or, IsFalse, IsTrue, MatchOption};
ghost use Rattle.num_integer.specs.Checked.{AnswersWhere};
ghost use Rattle.num_integer.specs.Coefficient.{coefficient};
ghost use Rattle.num_integer.specs.Only.{IsOnly};
ghost use Rattle.applied.specs.Ranking.{IsBefore, IsChoice, IsChoiceOfRank, IsFirstToRise, IsLastChoice, rank_of};

use crate::guards::{check_choice, check_rank};
use crate::halving::midpoint;
use num_integer::guards::{some, sum_or};
use num_integer::{Fits, binomial, checked};

/// Returns `true` if the numbers increase and are below `n`, which [`rank`] and [`next_choice`] require.
/// `is_choice(&[0, 2, 3], 5)` is `true`, `is_choice(&[0, 2, 2], 5)` is `false`, and
/// `is_choice(&[0, 2, 5], 5)` is `false`.
pub fn is_choice(numbers: &[u64], n: u64) -> bool
    ensures choice { IsTrue result ↔ IsChoice n numbers.now }
    ensures rank_below { IsTrue result → rank_of numbers.now < coefficient n (length numbers.now) }
{
    for place in 0..numbers.len() {
        if numbers[place] >= number_after(numbers, place, n) {
            return false;
        }
    }
    true
}

/// Returns `true` if the rank of a choice fits a `u64`. `rank_fits(&[0, 2, 3])` is `true`, and
/// `rank_fits(&[0, 10000000000])` is `false`.
pub fn rank_fits(choice: &[u64]) -> bool
    ensures { IsTrue result ↔ (rank_of choice.now < 2 ^ 64) }
{
    checked_rank(choice).is_some()
}

/// Returns the rank of a choice, or `None` if it does not fit.
#[tactic(auto, using(crate::proofs::Choices::rank_steps))]
fn checked_rank(choice: &[u64]) -> Option<u64>
    ensures { AnswersWhere (rank_of choice.now < 2 ^ 64) (λ r. r ≡ rank_of choice.now) result }
{
    let mut rank = 0;
    for (i, number) in choice.iter().enumerate() {
        let count = checked::binomial(*number, i as u64 + 1)?;
        rank = checked::sum(rank, count)?;
    }
    Some(rank)
}

/// Returns the rank of a choice of numbers below `n`: how many choices of the same length come before it. They
/// are ordered by their last number, then by the one before it, and so on. `rank(&[0, 2, 3], 5)` is `2`.
///
/// [`is_choice`] and [`rank_fits`] test the precondition. The rank fits a `u64` if the number of
/// all these choices does.
///
/// # Panics
///
/// In plain Rust, if the numbers do not increase, or one is not below `n`, or if the rank does not fit.
#[tactic(auto, using(crate::proofs::Choices::rank_steps))]
pub fn rank(choice: &[u64], n: u64) -> u64
    requires choice { IsChoice n choice.now }
    requires rank_fits { rank_of choice.now < 2 ^ 64 }
    ensures rank { result ≡ rank_of choice.now }
    ensures below { result < coefficient n (length choice.now) }
    ensures order { (other : List ℕ) → IsChoice n other → length other ≡ length choice.now
        → IsBefore (length choice.now) other choice.now ↔ (rank_of other < result) }
{
    check_choice(
        choice,
        n,
        "the numbers of the choice do not increase below `n`",
    );
    let mut rank = 0;
    for (i, number) in choice.iter().enumerate() {
        let count = some(
            checked::binomial(*number, i as u64 + 1),
            "the rank does not fit",
        );
        rank = sum_or(rank, count, "the rank does not fit");
    }
    rank
}

/// Fills the slice with the choice of numbers below `n` that has the rank.
/// `{ let mut choice = [0; 3]; choice_of_rank(2, 5, &mut choice); choice }` is `[0, 2, 3]`.
///
/// # Panics
///
/// In plain Rust, if there are no more than `rank` choices.
pub fn choice_of_rank(rank: u64, n: u64, choice: &mut [u64])
    requires rank { rank < coefficient n (length choice.old) }
    ensures choice { IsChoiceOfRank n (length choice.old) rank choice.new }
    ensures only { IsOnly (IsChoiceOfRank n (length choice.old) rank) choice.new }
{
    check_rank(rank, n, choice.len(), "no choice has the rank");
    let mut rest = rank;
    let mut bound = n;
    for i in (0..choice.len()).rev() {
        let place = i as u64 + 1;
        bound = greatest_within(rest, place, bound);
        rest -= binomial(bound, place);
        choice[i] = bound;
    }
}

/// Returns the largest number whose binomial coefficient over `place` is at most `limit`, by binary search
/// below `bound`.
#[tactic(auto, using(num_integer::proofs::ForCallers::none_above))]
fn greatest_within(limit: u64, place: u64, bound: u64) -> u64
    requires place { 0 < place }
    requires bound { limit < coefficient bound place }
    ensures below { result < bound }
    ensures within { coefficient result place ≤ limit }
    ensures greatest { limit < coefficient (result + 1) place }
{
    let mut low = 0;
    let mut high = bound;
    while low + 1 < high {
        let middle = midpoint(low + 1, high);
        if is_within(middle, place, limit) {
            low = middle;
        } else {
            high = middle;
        }
    }
    low
}

/// Returns `true` if the binomial coefficient of `n` and `k` is at most `limit`. It may not fit a `u64`.
fn is_within(n: u64, k: u64, limit: u64) -> bool
    ensures { IsTrue result ↔ (coefficient n k ≤ limit) }
{
    n.binomial_fits(&k) && binomial(n, k) <= limit
}

/// Replaces a choice of numbers below `n` by the choice of the next rank and returns `true`, or returns `false`
/// if the choice is the last.
/// `{ let mut choice = [0, 1, 4]; (next_choice(&mut choice, 5), choice) }` is `(true, [0, 2, 4])`, and
/// `next_choice(&mut [2, 3, 4], 5)` is `false`.
///
/// [`is_choice`] tests the precondition.
///
/// # Panics
///
/// In plain Rust, if the numbers do not increase, or one is not below `n`.
#[tactic(auto, using(crate::proofs::Choices::last_rank))]
pub fn next_choice(choice: &mut [u64], n: u64) -> bool
    requires choice { IsChoice n choice.old }
    ensures choice { IsChoice n choice.new }
    ensures next { IsTrue result
        → IsChoiceOfRank n (length choice.old) (rank_of choice.old + 1) choice.new }
    ensures last { IsFalse result
        → (choice.new ≡ choice.old)
        × (rank_of choice.old + 1 ≡ coefficient n (length choice.old)) }
{
    check_choice(
        choice,
        n,
        "the numbers of the choice do not increase below `n`",
    );
    match first_to_rise(choice, n) {
        Some(place) => {
            choice[place] += 1;
            number_from_zero(choice, place);
            true
        }
        None => false,
    }
}

/// Returns the first place whose number can be increased by 1 and stay below the number after it, or below `n`
/// at the last place.
#[allow(clippy::manual_find)] // as it was proved
fn first_to_rise(choice: &[u64], n: u64) -> Option<usize>
    requires choice { IsChoice n choice.now }
    ensures { MatchOption result (IsLastChoice n choice.now)
        (λ place. IsFirstToRise n choice.now place) }
{
    for place in 0..choice.len() {
        if choice[place] + 1 < number_after(choice, place, n) {
            return Some(place);
        }
    }
    None
}

/// Returns the number after `place`, or `n` if it is the last place.
fn number_after(choice: &[u64], place: usize, n: u64) -> u64
    requires { place < length choice.now }
    ensures { result ≡ slice_index_or choice.now (place + 1) n }
{
    choice.get(place + 1).copied().unwrap_or(n)
}

/// Writes 0, 1, 2 and so on at the places before `end`.
#[allow(clippy::needless_range_loop)] // as it was proved
fn number_from_zero(numbers: &mut [u64], end: usize)
    requires { end ≤ length numbers.old }
    ensures length { length numbers.new ≡ length numbers.old }
    ensures before { (i : ℕ) → i < end → slice_index numbers.new i ≡ i }
    ensures after { (i : ℕ) → end ≤ i → slice_index numbers.new i ≡ slice_index numbers.old i }
{
    for i in 0..end {
        numbers[i] = i as u64;
    }
}
