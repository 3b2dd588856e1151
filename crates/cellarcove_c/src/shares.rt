//! An amount divided in proportion to weights.

ghost use Rattle.std.specs.Prelude.{ℕ, ℤ, List};
ghost use Rattle.applied.specs.Shares.{AreShares, AreSharesByRemainder, AreSignedShares, AreSignedSharesByRemainder, CanBeShared};
ghost use Rattle.cellarcove_c.specs.Answers.{Answers};
ghost use Rattle.cellarcove_c.specs.Statuses.{StatusIs, outside};

use crate::answers::{ANSWER, OUTSIDE};
use applied::shares::{
    shares, shares_by_largest_remainder, signed_shares, signed_shares_by_largest_remainder,
};

/// Writes the shares of the amount in proportion to the weights, and returns the status. Together the
/// shares are the amount. Running totals are rounded up, and the shares of a negative amount are those of its
/// magnitude with its sign. For -100 and the weights 1, 1 and 1 they are -34, -33 and -33, and for 1002 and
/// the weights 1, 1, 1 and 1 they are 251, 250, 251 and 250. If the status is not 0, `parts` stays as it is.
///
/// `OUTSIDE` if there is not one part for each weight, or if the weights are all 0.
#[unsafe(no_mangle)]
pub extern "C" fn cellarcove_shares_i64(amount: i64, weights: &[u64], parts: &mut [i64]) -> u32
    ensures { Answers {A = List ℤ} (CanBeShared weights.now parts.old)
        (AreSignedShares amount weights.now) (StatusIs outside) parts.old result parts.new }
{
    match signed_shares(amount, weights, parts) {
        Ok(()) => ANSWER,
        Err(_) => OUTSIDE,
    }
}

/// Writes the shares of the amount in proportion to the weights, and returns the status. Together the
/// shares are the amount. Running totals are rounded up. For 100 and the weights 1, 1 and 1 they are 34, 33
/// and 33, and for 1002 and the weights 1, 1, 1 and 1 they are 251, 250, 251 and 250. If the status is not 0,
/// `parts` stays as it is.
///
/// `OUTSIDE` if there is not one part for each weight, or if the weights are all 0.
#[unsafe(no_mangle)]
pub extern "C" fn cellarcove_shares_u64(amount: u64, weights: &[u64], parts: &mut [u64]) -> u32
    ensures { Answers {A = List ℕ} (CanBeShared weights.now parts.old)
        (AreShares amount weights.now) (StatusIs outside) parts.old result parts.new }
{
    match shares(amount, weights, parts) {
        Ok(()) => ANSWER,
        Err(_) => OUTSIDE,
    }
}

/// Writes the shares of the amount by largest remainders, and returns the status. The shares of a negative
/// amount are those of its magnitude with its sign. For -1002 and the weights 1, 1, 1 and 1 they are -251,
/// -251, -250 and -250. If the status is not 0, `parts` stays as it is.
///
/// `OUTSIDE` if there is not one part for each weight, or if the weights are all 0.
#[unsafe(no_mangle)]
pub extern "C" fn cellarcove_shares_by_largest_remainder_i64(
    amount: i64,
    weights: &[u64],
    parts: &mut [i64],
) -> u32
    ensures { Answers {A = List ℤ} (CanBeShared weights.now parts.old)
        (AreSignedSharesByRemainder amount weights.now) (StatusIs outside) parts.old result parts.new }
{
    match signed_shares_by_largest_remainder(amount, weights, parts) {
        Ok(()) => ANSWER,
        Err(_) => OUTSIDE,
    }
}

/// Writes the shares of the amount by largest remainders, and returns the status. Each is the exact share
/// rounded down, or 1 more for the weights with the largest remainders, and of equal ones the first, so
/// that together they are the amount. For 2 and the weights 1, 1 and 98 they are 0, 0 and 2, and for 1002 and
/// the weights 1, 1, 1 and 1 they are 251, 251, 250 and 250. If the status is not 0, `parts` stays as it is.
///
/// `OUTSIDE` if there is not one part for each weight, or if the weights are all 0.
#[unsafe(no_mangle)]
pub extern "C" fn cellarcove_shares_by_largest_remainder_u64(
    amount: u64,
    weights: &[u64],
    parts: &mut [u64],
) -> u32
    ensures { Answers {A = List ℕ} (CanBeShared weights.now parts.old)
        (AreSharesByRemainder amount weights.now) (StatusIs outside) parts.old result parts.new }
{
    match shares_by_largest_remainder(amount, weights, parts) {
        Ok(()) => ANSWER,
        Err(_) => OUTSIDE,
    }
}
