//! Functions that call `applied` for pages and parts, shares, offsets and schedules.

ghost use Rattle.std.specs.Prelude.{◌≡◌, ◌≢◌, ◌↔◌, ◌⊎◌, ◌<◌, ◌≤◌, ◌+◌, ◌*◌, ◌∷◌, [], ◌≤ℤ◌, ◌<ℤ◌, ◌+ℤ◌, ◌*ℤ◌, EachIndex, Err, FitsSigned, IsFalse, IsOk, IsTrue, MatchOption, MatchResult, OnErr, OnOk, length, min, pos, slice_index, sum, ℤ};
ghost use Rattle.std.specs.Int.{FitsUnsignedBits, w64};
ghost use Rattle.num_integer.specs.Divisors.{Divides};
ghost use Rattle.num_integer.specs.Least.{IsLeastFrom};
ghost use Rattle.num_integer.specs.Range.{EachFits};
ghost use Rattle.applied.specs.Layout.{IsAlignedUp};
ghost use Rattle.applied.specs.Paging.{IsPlace, IsRangeOfPart};
ghost use Rattle.applied.specs.Schedules.{IsCountOfTimes, IsLeastTime, IsMeeting, IsMeetingOfEach};
ghost use Rattle.applied.specs.Shares.{AreShares, AreSharesByRemainder, AreSignedShares, AreSignedSharesByRemainder, IsNearShare, signed_sum};

use applied::layout::{align_up, padding};
use applied::paging::{item_at, place_of, range_of_part};
use applied::schedules::{Schedule, count, next_meeting, next_meeting_of};
use applied::shares::{
    SharesError, shares, shares_by_largest_remainder, signed_shares,
    signed_shares_by_largest_remainder,
};
use modular::CommonSolution;

// ---- pages and parts

/// Returns the item at a place of a page of ten items, or `None` if the item does not fit.
pub fn item_on_page_of_ten(page: i64, place: i64) -> Option<i64>
    requires from_zero { pos 0 ≤ℤ place }
    requires below { place <ℤ pos 10 }
    ensures { MatchOption result
        (¬ (EachFits (FitsSigned w64) (λ item. IsPlace item (pos 10) page place)))
        (λ item. item ≡ page *ℤ pos 10 +ℤ place) }
{
    let Some(item) = item_at(page, place, 10) else {
        return None;
    };
    Some(item)
}

/// Returns the item at a place of a page of sixteen items, or `u8::MAX` if the item does not fit.
pub fn item_or_max(page: u8, place: u8) -> u8
    requires { place < 16 }
    ensures { result ≡ min (page * 16 + place) u8.MAX }
{
    match item_at(page, place, 16) {
        Some(item) => item,
        None => u8::MAX,
    }
}

/// Returns the item at a place of a page of sixteen items. It fits, since the page is one of the first sixteen.
pub fn item_that_fits(page: u8, place: u8) -> u8
    requires page { page < 16 }
    requires place { place < 16 }
    ensures { result ≡ page * 16 + place }
{
    item_at(page, place, 16).unwrap()
}

/// Returns the row and the place in the row of a seat. Seats, rows and places are counted from 0.
pub fn row_and_place(seat: u32, row_size: u32) -> (u32, u32)
    requires { 0 < row_size }
    ensures seat { seat ≡ result.0 * row_size + result.1 }
    ensures within { result.1 < row_size }
{
    place_of(seat, row_size)
}

/// Returns the first item of a part and the end of the part. Items and parts are counted from 0.
pub fn items_of_part(part: usize, parts: usize, items: usize) -> (usize, usize)
    requires { part < parts }
    ensures { IsRangeOfPart (pos part) (pos parts) (pos items) (pos result.0) (pos result.1) }
{
    range_of_part(part, parts, items)
}

// ---- shares

/// Splits a bill by weights. The parts add up to the bill, and each differs by less than 1 from its exact share.
pub fn split_by_weights(cents: u64, weights: &[u64], parts: &mut [u64])
    requires some { 0 < sum weights.now }
    requires one_each { length parts.old ≡ length weights.now }
    ensures whole { sum parts.new ≡ cents }
    ensures near { EachIndex weights.now (λ i. IsNearShare cents (slice_index weights.now i)
        (sum weights.now) (slice_index parts.new i)) }
{
    shares(cents, weights, parts).unwrap();
}

/// Returns the budgets of three teams of five, three and two people. They add up to `cents`.
pub fn budgets(cents: u64) -> [u64; 3]
    ensures shares { AreShares cents (5 ∷ 3 ∷ 2 ∷ []) result }
    ensures whole { sum result ≡ cents }
{
    let mut budgets = [0; 3];
    shares(cents, &[5, 3, 2], &mut budgets).unwrap();
    budgets
}

/// Splits a bill by weights that may all be 0, and a tip by the same weights.
pub fn split_with_tip(
    cents: u64,
    tip: u64,
    weights: &[u64],
    parts: &mut [u64],
    tips: &mut [u64],
) -> Result<(), SharesError>
    requires parts { length parts.old ≡ length weights.now }
    requires tips { length tips.old ≡ length weights.now }
    ensures somebody { IsOk result ↔ (0 < sum weights.now) }
    ensures error { result ≢ Err SharesError.DifferentLengths }
    ensures parts { OnOk result (AreShares cents weights.now parts.new) }
    ensures tips { OnOk result (AreShares tip weights.now tips.new) }
    ensures whole { OnOk result (sum tips.new ≡ tip) }
    ensures unchanged { OnErr result ((parts.new ≡ parts.old) × (tips.new ≡ tips.old)) }
{
    shares(cents, weights, parts)?;
    shares(tip, weights, tips)
}

/// Splits a refund by weights that may all be 0. Returns `false` and writes nothing if they are.
pub fn refund_by_weights(cents: i64, weights: &[u64], parts: &mut [i64]) -> bool
    requires { length parts.old ≡ length weights.now }
    ensures somebody { IsTrue result ↔ (0 < sum weights.now) }
    ensures shares { IsTrue result → AreSignedShares cents weights.now parts.new }
    ensures whole { IsTrue result → signed_sum parts.new ≡ cents }
    ensures unchanged { IsFalse result → parts.new ≡ parts.old }
{
    match signed_shares(cents, weights, parts) {
        Ok(()) => true,
        Err(SharesError::ZeroWeights) => false,
        Err(SharesError::DifferentLengths) => unreachable!("there is one part for each weight"),
    }
}

/// Distributes seats by votes. Returns an error, and changes nothing, if there are no votes.
pub fn seats_by_votes(seats: u64, votes: &[u64], parts: &mut [u64]) -> Result<(), SharesError>
    requires { length parts.old ≡ length votes.now }
    ensures votes { (result ≡ Err SharesError.ZeroWeights) ↔ (sum votes.now ≡ 0) }
    ensures whole { OnOk result (sum parts.new ≡ seats) }
    ensures shares { OnOk result (AreSharesByRemainder seats votes.now parts.new) }
    ensures unchanged { OnErr result (parts.new ≡ parts.old) }
{
    shares_by_largest_remainder(seats, votes, parts)?;
    Ok(())
}

/// Divides a credit note by weights. Returns an error, and changes nothing, if the weights are all 0.
pub fn credit_by_weights(cents: i64, weights: &[u64], parts: &mut [i64]) -> Result<(), SharesError>
    requires { length parts.old ≡ length weights.now }
    ensures { MatchResult result
        (λ _. (0 < sum weights.now) × (signed_sum parts.new ≡ cents) × AreSignedSharesByRemainder cents weights.now parts.new)
        (λ error. (error ≡ SharesError.ZeroWeights) × (sum weights.now ≡ 0) × (parts.new ≡ parts.old)) }
{
    signed_shares_by_largest_remainder(cents, weights, parts)
}

// ---- offsets and schedules

/// Returns the aligned offset, or the offset itself if the aligned one does not fit.
pub fn aligned(offset: u32, alignment: u32) -> u32
    requires { 0 < alignment }
    ensures { IsAlignedUp (pos offset) (pos alignment) (pos result)
        ⊎ ((result ≡ offset)
        × ((aligned : ℤ) → IsAlignedUp (pos offset) (pos alignment) aligned
        → ¬ (FitsUnsignedBits 32 aligned))) }
{
    match align_up(offset, alignment) {
        Some(aligned) => aligned,
        None => offset,
    }
}

/// Returns the number of bytes between the offset and the next aligned one.
pub fn bytes_to_add(offset: u64, alignment: u64) -> u64
    requires { 0 < alignment }
    ensures below { result < alignment }
    ensures aligned { Divides (pos alignment) (pos (offset + result)) }
{
    padding(offset, alignment)
}

/// Returns the time of the next meeting and the time until then. Returns `None` if there is no next meeting or its
/// time does not fit.
pub fn next_meeting_and_wait(
    now: u32,
    first: Schedule<u32>,
    second: Schedule<u32>,
) -> Option<(u32, u32)>
    requires first { 0 < first.period }
    requires second { 0 < second.period }
    ensures { MatchOption result
        (((t : ℤ) → ¬ (IsMeeting (pos first.first) (pos first.period) (pos second.first) (pos second.period) t))
        ⊎ ((t : ℤ) × IsLeastFrom (pos now)
        (IsMeeting (pos first.first) (pos first.period) (pos second.first) (pos second.period)) t
        × ¬ (FitsUnsignedBits 32 t)))
        (λ r. IsLeastFrom (pos now)
        (IsMeeting (pos first.first) (pos first.period) (pos second.first) (pos second.period)) (pos r.0)
        × (now + r.1 ≡ r.0)) }
{
    match next_meeting(now, first, second) {
        CommonSolution::At(time) => Some((time, time - now)),
        CommonSolution::Never | CommonSolution::Beyond => None,
    }
}

/// Returns the next time at which a bus of each of three lines leaves.
pub fn next_of_three_lines(
    now: u32,
    first: Schedule<u32>,
    second: Schedule<u32>,
    third: Schedule<u32>,
) -> CommonSolution<u32>
    requires first { 0 < first.period }
    requires second { 0 < second.period }
    requires third { 0 < third.period }
    ensures { IsLeastTime (λ x. pos x) (FitsUnsignedBits 32) (pos now)
        (IsMeetingOfEach (λ x. pos x) (first ∷ second ∷ third ∷ [])) result }
{
    next_meeting_of(now, &[first, second, third])
}

/// Returns how many buses of the timetable leave in `from..=to`, or `None` if the number does not fit.
pub fn buses(from: u32, to: u32, timetable: Schedule<u32>) -> Option<u32>
    requires { 0 < timetable.period }
    ensures { MatchOption result
        ((n : ℤ) × IsCountOfTimes (pos from) (pos to) (pos timetable.first) (pos timetable.period) n
        × ¬ (FitsUnsignedBits 32 n))
        (λ n. IsCountOfTimes (pos from) (pos to) (pos timetable.first) (pos timetable.period) (pos n)) }
{
    let buses = count(from, to, timetable)?;
    Some(buses)
}
