//! The checksum. `compare/src/checksum.rs` computes the same one.

use own_types::signed_magnitude::SignedMagnitude;

#[derive(Clone, Copy, Debug, PartialEq, Eq)]
pub(crate) struct Checksum(pub(crate) u64);

impl Checksum {
    fn with_word(self, word: u64) -> Checksum {
        Checksum((self.0.rotate_left(5) ^ word).wrapping_mul(0x517CC1B727220A95))
    }

    pub(crate) fn with(self, (negative, magnitude): SignedMagnitude) -> Checksum {
        self.with_word((magnitude & 0xFFFF_FFFF_FFFF_FFFF) as u64)
            .with_word((magnitude >> 64) as u64)
            .with_word(u64::from(negative))
    }

    pub(crate) fn with_number(self, n: i64) -> Checksum {
        self.with((n < 0, u128::from(n.unsigned_abs())))
    }
}
