//! Integers by sign and magnitude.

/// Whether a number is negative, and its magnitude. 0 is not negative.
pub type SignedMagnitude = (bool, u128);

/// The number of this magnitude. It is negative if `negative` is true and the magnitude is not 0.
pub fn signed_magnitude(negative: bool, magnitude: u128) -> SignedMagnitude {
    (negative && magnitude != 0, magnitude)
}

pub fn signed_magnitude_of(n: i128) -> SignedMagnitude {
    (n < 0, n.unsigned_abs())
}

/// The number as an `i128`, if it fits.
pub fn to_i128((negative, magnitude): SignedMagnitude) -> Option<i128> {
    if negative {
        0i128.checked_sub_unsigned(magnitude)
    } else {
        i128::try_from(magnitude).ok()
    }
}
