//! Functions at unsigned types whose contracts are about natural numbers. The attribute of each names the lemma that says so of the
//! call.

ghost use Rattle.std.specs.Prelude.{◌≡◌, ◌<◌, ◌≤◌, ◌+◌, ◌-◌, ◌*◌, ◌/◌, ◌%◌, ◌^◌, MatchOption, SomeIff, min, ℕ};
ghost use Rattle.std.specs.Int.{div_ceil, next_multiple_of};
ghost use Rattle.num_integer.specs.Coefficient.{coefficient, factorial};

use applied::layout::{align_up, padding};
use applied::paging::{pages, place_of, range_of_page};
use applied::rounding::{self, div_round};
use modular::next_congruent;
use num_integer::checked;

// ---- pages

/// Returns how many pages of so many items hold all of them.
#[tactic(auto, using(applied::proofs::ForCallers::pages_is_natural))]
pub fn number_of_pages(items: usize, size: usize) -> usize
    requires { 0 < size }
    ensures { result ≡ div_ceil items size }
{
    pages(items, size)
}

/// Returns the row of a seat and its place in the row, all counted from 0.
#[tactic(auto, using(applied::proofs::ForCallers::place_is_natural))]
pub fn row_and_seat(seat: u64, seats_per_row: u64) -> (u64, u64)
    requires { 0 < seats_per_row }
    ensures row { result.0 ≡ seat / seats_per_row }
    ensures place { result.1 ≡ seat % seats_per_row }
{
    place_of(seat, seats_per_row)
}

/// Returns the index of the first item of a page and the index after its last one. Pages are counted from 0.
#[tactic(auto, using(applied::proofs::ForCallers::range_of_page_is_natural))]
pub fn first_and_end(page: usize, size: usize, items: usize) -> (usize, usize)
    requires { 0 < size }
    ensures first { result.0 ≡ min (page * size) items }
    ensures end { result.1 ≡ min (page * size + size) items }
{
    range_of_page(page, size, items)
}

// ---- offsets

/// Returns the offset of the next aligned field, or `None` if it does not fit.
#[tactic(auto, using(applied::proofs::ForCallers::aligned_is_natural))]
pub fn offset_of_field(end: usize, alignment: usize) -> Option<usize>
    requires { 0 < alignment }
    ensures { SomeIff result (next_multiple_of end alignment < 2 ^ 64) (next_multiple_of end alignment) }
{
    align_up(end, alignment)
}

/// Returns the size of whole pages of memory that hold so many bytes, or `None` if it does not fit.
#[tactic(auto, using(applied::proofs::ForCallers::aligned_is_whole))]
pub fn whole_pages(bytes: usize, page: usize) -> Option<usize>
    requires { 0 < page }
    ensures { MatchOption result ((n : ℕ) → bytes ≤ n * page → 2 ^ 64 ≤ n * page)
        (λ size. ((n : ℕ) × (size ≡ n * page)) × (bytes ≤ size)
        × ((n : ℕ) → bytes ≤ n * page → size ≤ n * page)) }
{
    align_up(bytes, page)
}

/// Returns how many zeros to write after a record, so that the next one is aligned.
#[tactic(auto, using(applied::proofs::ForCallers::padding_is_natural))]
pub fn zeros_after(end: usize, alignment: usize) -> usize
    requires { 0 < alignment }
    ensures fewest { result < alignment }
    ensures aligned { (end + result) % alignment ≡ 0 }
{
    padding(end, alignment)
}

// ---- timetables

/// Returns the next time, not before `from`, at which a job runs, or `None` if it does not fit. The job runs at the times that are
/// `phase` modulo `period`.
#[tactic(auto, using(applied::proofs::ForCallers::next_run_is_natural))]
pub fn next_run(from: u64, phase: u64, period: u64) -> Option<u64>
    requires { 0 < period }
    ensures { MatchOption result
        ((time : ℕ) → from ≤ time → time % period ≡ phase % period → 2 ^ 64 ≤ time)
        (λ time. (from ≤ time) × (time < from + period) × (time % period ≡ phase % period)) }
{
    next_congruent(from, phase, period)
}

// ---- rounding

/// Returns the price of one piece in whole cents, where half a cent is rounded up.
#[tactic(auto, using(applied::proofs::ForCallers::nearest_is_natural))]
pub fn cents_of_piece(cents: u64, pieces: u64) -> u64
    requires { 0 < pieces }
    ensures { result ≡ (2 * cents + pieces) / (2 * pieces) }
{
    div_round(cents, pieces)
}

/// Returns so many percent of an amount in whole cents, where half a cent is rounded up, or `None` if they do not fit.
#[tactic(auto, using(applied::proofs::ForCallers::nearest_answer_is_natural))]
pub fn percentage(cents: u64, percent: u64) -> Option<u64>
    ensures { SomeIff result ((2 * (cents * percent) + 100) / 200 < 2 ^ 64)
        ((2 * (cents * percent) + 100) / 200) }
{
    rounding::checked::product_div_round(cents, percent, 100)
}

// ---- combinations

/// Returns how many hands of `k` cards a deck has, or `None` if their number does not fit.
#[tactic(auto, using(applied::proofs::ForCallers::binomial_is_natural))]
pub fn hands(deck: u64, k: u64) -> Option<u64>
    ensures { MatchOption result (2 ^ 64 ≤ coefficient deck k)
        (λ n. (n ≡ coefficient deck k)
        × (k ≤ deck → n * (factorial k * factorial (deck - k)) ≡ factorial deck)) }
{
    checked::binomial(deck, k)
}
