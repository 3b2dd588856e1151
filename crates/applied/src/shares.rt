//! An amount divided in proportion to weights.

#![tactic(auto, using(crate::proofs::WeightedShares::none_shared, crate::proofs::WeightedShares::none_signed))]

ghost use Rattle.std.specs.Prelude.{◌≡◌, ◌<◌, ◌≤◌, ◌+◌, ◌*◌, EachIndex, IfOk, OnOk, slice_index, sum};
ghost use Rattle.num_integer.specs.Only.{IsOnly};
ghost use Rattle.applied.specs.Shares.{AnswersShares, AreShares, AreSignedShares, CanBeShared, IsNearShare, signed_sum};

mod equal;
mod error;
mod remainders;

pub use equal::{IterInstalments, instalments};
pub use error::SharesError;
use num_integer::Magnitudes;
pub use remainders::{shares_by_largest_remainder, signed_shares_by_largest_remainder};

/// Fills `shares` with the shares of the amount that are in proportion to the weights. Together they are the
/// amount, and each differs by less than 1 from its exact share.
/// `{ let mut parts = [0; 3]; (shares(100, &[1, 1, 1], &mut parts), parts) }` is `(Ok(()), [34, 33, 33])`.
///
/// Running totals are rounded up. So of four equal weights the first and the third get more of 1002: their exact
/// running totals are 250.5, 501, 751.5 and 1002. To give more to the first two, use [`shares_by_largest_remainder`].
/// `{ let mut parts = [0; 4]; (shares(1002, &[1; 4], &mut parts), parts) }` is
/// `(Ok(()), [251, 250, 251, 250])`, and
/// `{ let mut parts = [0; 4]; (shares_by_largest_remainder(1002, &[1; 4], &mut parts), parts) }` is
/// `(Ok(()), [251, 251, 250, 250])`.
///
/// # Errors
///
/// - [`SharesError::DifferentLengths`] if there is not one share for each weight;
/// - [`SharesError::ZeroWeights`] if there is, and the weights are all 0.
///
/// If it returns an error, it writes nothing.
pub fn shares(amount: u64, weights: &[u64], shares: &mut [u64]) -> Result<(), SharesError>
    ensures errors { AnswersShares weights.now shares.old shares.new result }
    ensures shares { OnOk result (AreShares amount weights.now shares.new) }
    ensures only { OnOk result (IsOnly (AreShares amount weights.now) shares.new) }
    ensures whole { OnOk result (sum shares.new ≡ amount) }
    ensures near { OnOk result (EachIndex weights.now (λ i. IsNearShare amount
        (slice_index weights.now i) (sum weights.now) (slice_index shares.new i))) }
{
    let total = total_to_share(weights, shares)?;
    let mut ahead = 0;
    for (i, weight) in weights.iter().enumerate() {
        let (share, next) = next_share(amount, *weight, total, ahead);
        shares[i] = share;
        ahead = next;
    }
    Ok(())
}

/// Fills `shares` with the shares of a signed amount: those of its magnitude, as [`shares`] writes them, each with
/// the sign of the amount. So a negative amount takes back what the positive one gave.
/// `{ let mut parts = [0; 3]; (signed_shares(-100, &[1, 1, 1], &mut parts), parts) }` is
/// `(Ok(()), [-34, -33, -33])`, and
/// `{ let mut parts = [0; 3]; (signed_shares(100, &[1, 1, 1], &mut parts), parts) }` is
/// `(Ok(()), [34, 33, 33])`.
///
/// # Errors
///
/// - [`SharesError::DifferentLengths`] if there is not one share for each weight;
/// - [`SharesError::ZeroWeights`] if there is, and the weights are all 0.
///
/// If it returns an error, it writes nothing.
pub fn signed_shares(amount: i64, weights: &[u64], shares: &mut [i64]) -> Result<(), SharesError>
    ensures errors { AnswersShares weights.now shares.old shares.new result }
    ensures shares { OnOk result (AreSignedShares amount weights.now shares.new) }
    ensures only { OnOk result (IsOnly (AreSignedShares amount weights.now) shares.new) }
    ensures whole { OnOk result (signed_sum shares.new ≡ amount) }
{
    let total = total_to_share(weights, shares)?;
    let mut ahead = 0;
    for (i, weight) in weights.iter().enumerate() {
        let (share, next) = next_share(amount.unsigned_abs(), *weight, total, ahead);
        shares[i] = amount.with_magnitude(share);
        ahead = next;
    }
    Ok(())
}

/// Returns the sum of the weights, or why there are no shares.
pub(crate) fn total_to_share<S>(weights: &[u64], shares: &[S]) -> Result<u128, SharesError>
    ensures errors { AnswersShares weights.now shares.now shares.now result }
    ensures total { IfOk result (λ total. CanBeShared weights.now shares.now
        × (total ≡ sum weights.now)) }
{
    if shares.len() != weights.len() {
        return Err(SharesError::DifferentLengths);
    }
    match total_of(weights) {
        0 => Err(SharesError::ZeroWeights),
        total => Ok(total),
    }
}

/// Returns the sum of the weights.
fn total_of(weights: &[u64]) -> u128
    ensures { result ≡ sum weights.now }
{
    let mut total = 0;
    for weight in weights {
        total += u128::from(*weight);
    }
    total
}

/// Returns the share of a weight, and how far the shares up to it are ahead of their exact share, in parts of
/// 1 / `total`. `ahead` is how far those before it are.
fn next_share(amount: u64, weight: u64, total: u128, ahead: u128) -> (u64, u128)
    requires within { weight ≤ total }
    requires below { ahead < total }
    ensures within { result.0 ≤ amount }
    ensures share { result.0 * total + ahead ≡ amount * weight + result.1 }
    ensures below { result.1 < total }
{
    let exact = u128::from(amount) * u128::from(weight);
    let (share, rest) = (exact / total, exact % total);
    if rest <= ahead {
        (share as u64, ahead - rest)
    } else {
        (share as u64 + 1, total - (rest - ahead))
    }
}
