//! Ranges of types of `bounded_integers`.

ghost use Rattle.std.specs.Prelude.{negsuc, pos, refl};
ghost use Rattle.std.proofs.Common.{lit≤};
ghost use Rattle.bounded_integers.specs.Ranges.{natural_range, signed_range};

use bounded_integers::{Range, SignedRange};

/// From -7 to 7.
pub struct SmallRange;

impl Range for SmallRange {
    const LOW: i64 = -7;

    ghost LOW = { negsuc 6 };

    const HIGH: i64 = 7;

    ghost HIGH = { pos 7 };

    ghost range_law = { signed_range 7 (lit≤ tt) (lit≤ tt) };
}

impl SignedRange for SmallRange {
    ghost sign_law = { refl };
}

/// 0 and 1.
pub struct OneBitRange;

impl Range for OneBitRange {
    const LOW: i64 = 0;

    ghost LOW = { pos 0 };

    const HIGH: i64 = 1;

    ghost HIGH = { pos 1 };

    ghost range_law = { natural_range 1 (lit≤ tt) (lit≤ tt) };
}

/// From 0 to 3.
pub struct TwoBitsRange;

impl Range for TwoBitsRange {
    const LOW: i64 = 0;

    ghost LOW = { pos 0 };

    const HIGH: i64 = 3;

    ghost HIGH = { pos 3 };

    ghost range_law = { natural_range 3 (lit≤ tt) (lit≤ tt) };
}
