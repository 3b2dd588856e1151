//! Everyday tasks in their users' words: payments, pages, shapes of screens, a clock, prices, runs of a job.

ghost use Rattle.std.specs.Prelude.{◌≡◌, ◌↔◌, ◌⊎◌, ◌+◌, ◌-◌, ◌*◌, ◌/◌, ◌%◌, ◌^◌, ◌<◌, ◌≤◌, ◌-ℤ◌, ◌<ℤ◌, FitsSigned, IfErr, IfOk, IsOk, IsSomeAnd, IsTrue, MatchOption, length, map, min, pos, slice_get, slice_range, sum_by, ℕ, ℤ};
ghost use Rattle.std.specs.Int.{w64};
ghost use Rattle.std.specs.Ordering.{nat_cmp};
ghost use Rattle.num_integer.specs.Divisors.{Divides};
ghost use Rattle.modular.specs.Counts.{IsCountFrom};
ghost use Rattle.applied.specs.Instalments.{AreInstalments};
ghost use Rattle.calendar.specs.Dates.{IsMonthsAfter};
ghost use Rattle.calendar.specs.declared.date.Date.{Date};
ghost use Rattle.ratio64.specs.Fraction.{IsReduced};
ghost use Rattle.ratio64.specs.ReducedPairs.{IsReduced_prop};

use applied::coprime::reduced;
use applied::paging::{pages, range_of_page};
use applied::shares::instalments;
use calendar::Date;
use modular::{count_congruent, difference_modulo};
use num_integer::Integer;
use num_integer::operators::predecessor;
use std::alloc::{AllocError, Global};
use std::cmp::Ordering;

/// Returns the payments in which an amount is paid. They add up to the amount, and all but the first are equal.
pub fn payments(alloc: Global, cents: u64, count: u64) -> Result<Vec<u64>, AllocError>
    requires { 0 < count }
    ensures { IfOk result (λ v. AreInstalments (pos cents) (pos count) (map (λ x. pos x) v.items)) }
{
    instalments(cents, count).collect(alloc)
}

/// A payment of a plan.
#[derive(Debug, Clone, Copy, PartialEq, Eq)]
pub struct Payment {
    pub due: Date,
    pub cents: u64,
}

/// Returns payment `k` of a plan, which is due `k` months after the first one, or `None` if its year does not fit. Payment 0 has
/// the rest of the amount too.
pub fn payment_at(amount: u64, count: u32, first: &Date, k: u32) -> Option<Payment>
    requires { 0 < count }
    ensures { MatchOption result
        ((date : Date) → IsMonthsAfter first.now (pos k) date → ¬ (FitsSigned w64 date.year))
        (λ payment. IsMonthsAfter first.now (pos k) payment.due
        × (k ≡ 0 → payment.cents ≡ amount / count + amount % count)
        × (0 < k → payment.cents ≡ amount / count)) }
{
    let due = first.plus_months(i64::from(k))?;
    let count = u64::from(count);
    let rest = if k == 0 { amount % count } else { 0 };
    Some(Payment {
        due,
        cents: amount / count + rest,
    })
}

/// Returns a plan that pays the amount in `count` payments, one a month, or `None` if the year of one does not fit.
pub fn payment_plan(
    alloc: Global,
    amount: u64,
    count: u32,
    first: &Date,
) -> Result<Option<Vec<Payment>>, AllocError>
    requires { 0 < count }
    ensures { IfOk result (λ plan. MatchOption plan
        ((k : ℕ) × (k < count)
        × ((date : Date) → IsMonthsAfter first.now (pos k) date → ¬ (FitsSigned w64 date.year)))
        (λ v. (length v.items ≡ count) × (sum_by (λ payment. payment.cents) v.items ≡ amount)
        × ((k : ℕ) → k < count → IsSomeAnd (slice_get v.items k)
        (λ payment. IsMonthsAfter first.now (pos k) payment.due
        × (k ≡ 0 → payment.cents ≡ amount / count + amount % count)
        × (0 < k → payment.cents ≡ amount / count))))) }
{
    let mut plan = Vec::new(alloc);
    for k in 0..count {
        let Some(payment) = payment_at(amount, count, first, k) else {
            return Ok(None);
        };
        plan.push(payment)?;
    }
    Ok(Some(plan))
}

/// Returns `true` if a page has an item. Pages are counted from 0.
#[tactic(auto, using(applied::proofs::ForCallers::pages_is_natural, applied::proofs::ForCallers::page_has_items))]
pub fn has_page(page: u64, size: u64, items: u64) -> bool
    requires { 0 < size }
    ensures { IsTrue result ↔ (page * size < items) }
{
    page < pages(items, size)
}

/// Returns the number of the last page of results, which is 1 if there are none. Pages are counted from 1.
#[tactic(auto, using(applied::proofs::ForCallers::pages_is_natural, applied::proofs::ForCallers::pages_hold, applied::proofs::ForCallers::numbered_page_has_items))]
pub fn last_page(results: usize, size: usize) -> usize
    requires { 0 < size }
    ensures from_one { 1 ≤ result }
    ensures holds_all { results ≤ result * size }
    ensures last { (page : ℕ) → 1 ≤ page
        → ((page ≡ 1) ⊎ ((page - 1) * size < results)) ↔ (page ≤ result) }
{
    pages(results, size).max(1)
}

/// Returns the index of the first result of a page and the index after its last one. Pages are counted from 1.
#[tactic(auto, using(applied::proofs::ForCallers::range_of_numbered_page))]
pub fn range_of_results(page: usize, size: usize, results: usize) -> (usize, usize)
    requires size { 0 < size }
    requires page { 1 ≤ page }
    ensures first { result.0 ≡ min ((page - 1) * size) results }
    ensures end { result.1 ≡ min (page * size) results }
{
    range_of_page(page - 1, size, results)
}

/// Returns the results on a page, or the number of the last page if the page is beyond it. Pages are counted from 1, and the
/// first page of no results is empty.
pub fn results_on_page(results: &[u64], page: usize, size: usize) -> Result<&[u64], usize>
    requires size { 0 < size }
    requires page { 1 ≤ page }
    ensures possible { IsOk result ↔ ((page ≡ 1) ⊎ ((page - 1) * size < length results.now)) }
    ensures shown { IfOk result (λ shown. shown.now
        ≡ slice_range results.now ((page - 1) * size) (min (page * size) (length results.now))) }
    ensures beyond { IfErr result (λ last. (last < page) × (length results.now ≤ last * size)
        × ((last ≡ 1) ⊎ ((last - 1) * size < length results.now))) }
{
    let last = last_page(results.len(), size);
    if page > last {
        return Err(last);
    }
    let (first, end) = range_of_results(page, size, results.len());
    Ok(&results[first..end])
}

/// The shape of a screen: its width and its height in lowest terms.
#[derive(Debug, Clone, Copy, PartialEq, Eq)]
pub struct Shape {
    pub width: u64,
    pub height: u64,
    pub ghost reduced: { IsReduced (pos width) (pos height) } by { IsReduced_prop (pos width) (pos height) },
}

/// Returns the shape of a screen of so many pixels. Of 1920 by 1080 pixels it is 16 by 9.
pub fn shape_of(width: u64, height: u64) -> Shape
    requires { 0 < height }
    ensures { result.width * height ≡ width * result.height }
{
    let (width, height) = reduced(width, height);
    Shape { width, height }
}

/// Returns `true` if the screens have one shape.
pub fn have_one_shape(first: (u64, u64), second: (u64, u64)) -> bool
    requires first { 0 < first.1 }
    requires second { 0 < second.1 }
    ensures { IsTrue result ↔ (first.0 * second.1 ≡ second.0 * first.1) }
{
    shape_of(first.0, first.1) == shape_of(second.0, second.1)
}

/// Compares two shapes. The one with the larger ratio of width to height is the greater one.
pub fn compare(a: &Shape, b: &Shape) -> Ordering
    ensures { result ≡ nat_cmp (a.now.width * b.now.height) (b.now.width * a.now.height) }
{
    (u128::from(a.width) * u128::from(b.height)).cmp(&(u128::from(b.width) * u128::from(a.height)))
}

/// Compares the shapes of two screens of so many pixels.
pub fn compare_screens(first: (u64, u64), second: (u64, u64)) -> Ordering
    requires first { 0 < first.1 }
    requires second { 0 < second.1 }
    ensures { result ≡ nat_cmp (first.0 * second.1) (second.0 * first.1) }
{
    compare(&shape_of(first.0, first.1), &shape_of(second.0, second.1))
}

/// Returns the capacity of a buffer for so many bytes: the smallest power of two that is enough, or `None` if it does not fit.
#[tactic(auto, using(applied::proofs::ForCallers::next_power_of_two_is_least))]
pub fn capacity_for(bytes: usize) -> Option<usize>
    ensures { MatchOption result ((k : ℕ) → bytes ≤ 2 ^ k → 2 ^ 64 ≤ 2 ^ k)
        (λ capacity. ((k : ℕ) × (capacity ≡ 2 ^ k)) × (bytes ≤ capacity)
        × ((k : ℕ) → bytes ≤ 2 ^ k → capacity ≤ 2 ^ k)) }
{
    bytes.checked_next_power_of_two()
}

/// Returns the hours, the minutes and the seconds of a number of seconds.
pub fn hours_minutes_seconds(seconds: u64) -> (u64, u64, u64)
    ensures whole { result.0 * 3600 + result.1 * 60 + result.2 ≡ seconds }
    ensures minutes { result.1 < 60 }
    ensures seconds { result.2 < 60 }
{
    let (minutes, second) = seconds.div_mod_floor(&60);
    let (hour, minute) = minutes.div_mod_floor(&60);
    (hour, minute, second)
}

/// Returns the minutes from one time of day to the next time of day that is `end`.
#[tactic(auto, using(modular::proofs::ForCallers::difference_is_natural))]
pub fn minutes_until(start: u16, end: u16) -> u16
    requires { end < 1440 }
    ensures within { result < 1440 }
    ensures end { (start + result) % 1440 ≡ end }
{
    difference_modulo(end, start, 1440)
}

/// Returns `true` if the first of two packs is cheaper than the other one of the same weight would be.
pub fn is_cheaper(cents: u32, grams: u32, other_cents: u32, other_grams: u32) -> bool
    ensures { IsTrue result ↔ (cents * other_grams < other_cents * grams) }
{
    u64::from(cents) * u64::from(other_grams) < u64::from(other_cents) * u64::from(grams)
}

/// Returns how many times a job runs from `from` on and before `end`, or `None` if that number does not fit. It runs at the
/// times that are `phase` modulo `period`.
pub fn runs_between(from: i64, end: i64, period: i64, phase: i64) -> Option<i64>
    requires { pos 0 <ℤ period }
    ensures { MatchOption result
        ((n : ℤ) × IsCountFrom from (λ t. (t <ℤ end) × Divides period (t -ℤ phase)) n × ¬ (FitsSigned w64 n))
        (λ n. IsCountFrom from (λ t. (t <ℤ end) × Divides period (t -ℤ phase)) n) }
{
    if end <= from {
        Some(0)
    } else {
        count_congruent(from, predecessor(end), phase, period)
    }
}
