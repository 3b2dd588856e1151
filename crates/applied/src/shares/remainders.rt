//! An amount divided in proportion to weights by largest remainders.

ghost use Rattle.std.specs.Prelude.{◌≡◌, ◌<◌, ◌≤◌, ◌+◌, ◌-◌, EachIndex, OnOk, slice_index, sum, sum_by};
ghost use Rattle.num_integer.specs.Only.{IsOnly};
ghost use Rattle.applied.specs.Shares.{AnswersShares, AreSharesByRemainder, AreSignedSharesByRemainder, IsNearShare, RoundsShare, count_from, remainder_of, rounded_down, signed_sum};

use crate::shares::{SharesError, total_to_share};
use num_integer::Magnitudes;

/// Fills `shares` with the shares of the amount by largest remainders. Each share is its exact share rounded down, or
/// 1 more. The weights with the largest remainders get 1 more, and of equal remainders the first, so that the shares
/// together are the amount. [`shares`](crate::shares::shares) rounds running totals up instead, which gives the 1 of
/// the last example to the first weight.
/// `{ let mut parts = [0; 4]; (shares_by_largest_remainder(1002, &[1; 4], &mut parts), parts) }` is
/// `(Ok(()), [251, 251, 250, 250])`,
/// `{ let mut parts = [0; 2]; (shares_by_largest_remainder(1, &[1, 99], &mut parts), parts) }` is
/// `(Ok(()), [0, 1])`, and
/// `{ let mut parts = [0; 2]; (shares(1, &[1, 99], &mut parts), parts) }` is `(Ok(()), [1, 0])`.
///
/// [`signed_shares_by_largest_remainder`] shares a negative amount.
///
/// The call takes no memory. It passes over the weights at most as often as their sum has binary digits, and three times
/// more.
///
/// # Errors
///
/// - [`SharesError::DifferentLengths`] if there is not one share for each weight;
/// - [`SharesError::ZeroWeights`] if there is, and the weights are all 0.
///
/// If it returns an error, it writes nothing.
pub fn shares_by_largest_remainder(
    amount: u64,
    weights: &[u64],
    shares: &mut [u64],
) -> Result<(), SharesError>
    ensures near { OnOk result (EachIndex weights.now (λ i. IsNearShare amount
        (slice_index weights.now i) (sum weights.now) (slice_index shares.new i))) }
    ensures errors { AnswersShares weights.now shares.old shares.new result }
    ensures shares { OnOk result (AreSharesByRemainder amount weights.now shares.new) }
    ensures only { OnOk result (IsOnly (AreSharesByRemainder amount weights.now) shares.new) }
{
    let total = total_to_share(weights, shares)?;
    let (bar, extra) = bar_of(amount, weights, total);
    let mut left = extra;
    for (i, weight) in weights.iter().enumerate() {
        let (share, next) = rounded_share(amount, *weight, total, bar, left);
        shares[i] = share;
        left = next;
    }
    Ok(())
}

/// Fills `shares` with the shares of a signed amount by largest remainders: those of its magnitude, as
/// [`shares_by_largest_remainder`] writes them, each with the sign of the amount. So a negative amount takes back what
/// the positive one gave.
/// `{ let mut to = [0; 4]; (signed_shares_by_largest_remainder(-1002, &[1; 4], &mut to), to) }` is
/// `(Ok(()), [-251, -251, -250, -250])`, and
/// `{ let mut to = [0; 4]; (signed_shares_by_largest_remainder(1002, &[1; 4], &mut to), to) }` is
/// `(Ok(()), [251, 251, 250, 250])`.
///
/// # Errors
///
/// - [`SharesError::DifferentLengths`] if there is not one share for each weight;
/// - [`SharesError::ZeroWeights`] if there is, and the weights are all 0.
///
/// If it returns an error, it writes nothing.
pub fn signed_shares_by_largest_remainder(
    amount: i64,
    weights: &[u64],
    shares: &mut [i64],
) -> Result<(), SharesError>
    ensures errors { AnswersShares weights.now shares.old shares.new result }
    ensures shares { OnOk result (AreSignedSharesByRemainder amount weights.now shares.new) }
    ensures only { OnOk result (IsOnly (AreSignedSharesByRemainder amount weights.now) shares.new) }
    ensures whole { OnOk result (signed_sum shares.new ≡ amount) }
{
    let total = total_to_share(weights, shares)?;
    let magnitude = amount.unsigned_abs();
    let (bar, extra) = bar_of(magnitude, weights, total);
    let mut left = extra;
    for (i, weight) in weights.iter().enumerate() {
        let (share, next) = rounded_share(magnitude, *weight, total, bar, left);
        shares[i] = amount.with_magnitude(share);
        left = next;
    }
    Ok(())
}

/// Returns the exact share of a weight, rounded down, and the remainder in parts of 1 / `total`.
fn exact_share(amount: u64, weight: u64, total: u128) -> (u64, u128)
    requires some { 0 < total }
    requires within { weight ≤ total }
    ensures share { result.0 ≡ rounded_down amount total weight }
    ensures remainder { result.1 ≡ remainder_of amount total weight }
    ensures below { result.1 < total }
    ensures within { result.0 ≤ amount }
    ensures less { 0 < result.1 → result.0 < amount }
{
    let exact = u128::from(amount) * u128::from(weight);
    ((exact / total) as u64, exact % total)
}

/// Returns the share of a weight, and how many units are left after it. The share is its exact share rounded down, and one
/// of the units if the remainder reaches the bar. If it is 1 below the bar, it takes a unit while some are left.
fn rounded_share(amount: u64, weight: u64, total: u128, bar: u128, left: u64) -> (u64, u64)
    requires some { 0 < total }
    requires within { weight ≤ total }
    requires bar { 0 < bar }
    requires left { 0 < left → 1 < bar }
    ensures within { result.0 ≤ amount }
    ensures rounds { RoundsShare (rounded_down amount total weight) (remainder_of amount total weight)
        bar left result.0 result.1 }
{
    let (share, remainder) = exact_share(amount, weight, total);
    if remainder >= bar {
        (share + 1, left)
    } else if remainder + 1 == bar && left > 0 {
        (share + 1, left - 1)
    } else {
        (share, left)
    }
}

/// Returns how many units are left over if each exact share is rounded down.
fn units_over(amount: u64, weights: &[u64], total: u128) -> u64
    requires some { 0 < total }
    requires total { total ≡ sum weights.now }
    ensures over { result + sum_by (rounded_down amount total) weights.now ≡ amount }
    ensures enough { result ≤ count_from amount total 1 weights.now }
{
    let mut over = amount;
    for weight in weights {
        over -= exact_share(amount, *weight, total).0;
    }
    over
}

/// Returns how many weights have a remainder of at least `bar`.
fn reaching(amount: u64, weights: &[u64], total: u128, bar: u128) -> u64
    requires some { 0 < total }
    requires total { total ≡ sum weights.now }
    ensures { result ≡ count_from amount total bar weights.now }
{
    let mut count = 0;
    for weight in weights {
        if exact_share(amount, *weight, total).1 >= bar {
            count += 1;
        }
    }
    count
}

/// Returns the bar that no more remainders reach than there are units over, and how many units are left for those that
/// are 1 below it. The search halves the numbers up to the total.
fn bar_of(amount: u64, weights: &[u64], total: u128) -> (u128, u64)
    requires some { 0 < total }
    requires total { total ≡ sum weights.now }
    ensures bar { 0 < result.0 }
    ensures units { count_from amount total result.0 weights.now + result.1
        + sum_by (rounded_down amount total) weights.now ≡ amount }
    ensures left { 0 < result.1 → (1 < result.0)
        × (count_from amount total result.0 weights.now + result.1
        < count_from amount total (result.0 - 1) weights.now) }
{
    let units = units_over(amount, weights, total);
    let mut low = 1;
    let mut bar = total;
    let mut left = units;
    while low < bar && left > 0 {
        let middle = low + (bar - low) / 2;
        let count = reaching(amount, weights, total, middle);
        if count <= units {
            bar = middle;
            left = units - count;
        } else {
            low = middle + 1;
        }
    }
    (bar, left)
}
