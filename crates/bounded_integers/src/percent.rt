//! The numbers from 0 to 100, as an example of a range.

ghost use Rattle.std.specs.Prelude.{pos};
ghost use Rattle.std.proofs.Common.{lit≤};
ghost use Rattle.bounded_integers.specs.Ranges.{natural_range};

use crate::{Bounded, Range};

/// The range from 0 to 100. `<PercentRange as Range>::HIGH` is `100`.
pub struct PercentRange;

impl Range for PercentRange {
    const LOW: i64 = 0;

    ghost LOW = { pos 0 };

    const HIGH: i64 = 100;

    ghost HIGH = { pos 100 };

    ghost range_law = { natural_range 100 (lit≤ tt) (lit≤ tt) };
}

/// A number from 0 to 100. `Percent::new(40) + Percent::new(60)` is `Percent::new(100)`.
pub type Percent = Bounded<PercentRange>;
