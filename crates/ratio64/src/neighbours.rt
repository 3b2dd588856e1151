//! The two neighbours of a fraction among those with small denominators, and the nearer of the two.

ghost use Rattle.std.specs.Prelude.{◌≡◌, ◌⊎◌, ◌+◌, ◌*◌, ◌^◌, ◌<◌, ◌≤◌, pos, ℕ};
ghost use Rattle.ratio64.specs.Fraction.{IsReduced};
ghost use Rattle.ratio64.specs.Limiting.{AreNearestParts};
ghost use Rattle.ratio64.specs.Neighbours.{AreNeighbours, IsCloser, IsNearer};

/// A fraction beside another one. Its gap is the distance of the two, times both denominators.
#[derive(Clone, Copy)]
pub(crate) struct Neighbour {
    pub(crate) num: u64,
    pub(crate) den: u64,
    pub(crate) gap: u64,
}

impl Neighbour {
    /// Returns the reciprocal of the neighbour, beside the reciprocal of the fraction. The gap is the same.
    const fn reciprocal(self) -> Self
        ensures num { result.num ≡ self.den }
        ensures den { result.den ≡ self.num }
        ensures gap { result.gap ≡ self.gap }
    {
        Self {
            num: self.den,
            den: self.num,
            gap: self.gap,
        }
    }
}

/// Returns the neighbours of `num / den`: the largest fraction below it and the smallest one above it
/// whose denominators are at most `max`. The larger gap falls at each iteration, as in Euclid's algorithm.
#[tactic(auto, using(crate::proofs::NeighbourIterations::gaps_differ))]
pub(crate) fn neighbours(num: u64, den: u64, max: u64) -> (Neighbour, Neighbour)
    requires positive { 0 < max }
    requires above_max { max < den }
    requires proper { num < den }
    requires half { den ≤ 2 ^ 63 }
    requires lowest { (a b : ℕ) → 0 < b → num * b ≡ a * den → den ≤ b }
    ensures neighbours { AreNeighbours num den max result.0 result.1 }
    ensures none_between { max < result.0.den + result.1.den }
{
    let mut below = Neighbour {
        num: 0,
        den: 1,
        gap: num,
    };
    let mut above = Neighbour {
        num: 1,
        den: 1,
        gap: den - num,
    };
    'iterations: while below.den + above.den <= max {
        if below.gap < above.gap {
            above = closer(above, below, max);
        } else {
            below = closer(below, above, max);
        }
    }
    (below, above)
}

/// Moves a neighbour toward the other one as far as it may go: each step adds the parts of the other
/// one.
fn closer(side: Neighbour, other: Neighbour, max: u64) -> Neighbour
    requires gap { 0 < other.gap × other.gap < side.gap }
    requires den { 0 < other.den × side.den + other.den ≤ max }
    requires num { side.num ≤ side.den × other.num ≤ other.den }
    ensures { IsCloser max side other result }
{
    let steps = ((side.gap - 1) / other.gap).min((max - side.den) / other.den);
    Neighbour {
        num: side.num + steps * other.num,
        den: side.den + steps * other.den,
        gap: side.gap - steps * other.gap,
    }
}

/// Returns the nearer of the two neighbours. If both are equally near, it returns the one with the
/// smaller denominator, and if these are equal too, the lower one.
pub(crate) fn nearer(below: Neighbour, above: Neighbour) -> Neighbour
    requires { below.gap * above.den + above.gap * below.den < 2 ^ 64 }
    ensures { IsNearer below above result }
{
    let below_gap = below.gap * above.den;
    let above_gap = above.gap * below.den;
    let is_below = if below_gap == above_gap {
        below.den <= above.den
    } else {
        below_gap < above_gap
    };
    if is_below { below } else { above }
}

/// Returns the nearest fraction to `num / den` whose parts are at most `max`. If the numerator is the larger part, the limit
/// on the numerators decides. Those neighbours are the reciprocals of the neighbours of `den / num`.
pub(crate) fn nearest_parts(num: u64, den: u64, max: u64) -> Neighbour
    requires positive { 0 < max }
    requires above_max { (max < num) ⊎ (max < den) }
    requires half { (num ≤ 2 ^ 63) × (den ≤ 2 ^ 63) }
    requires lowest { IsReduced (pos num) (pos den) }
    ensures nearest { AreNearestParts (pos num) (pos den) (pos max) (pos result.num) (pos result.den) }
    ensures reduced { IsReduced (pos result.num) (pos result.den) }
{
    if num < den {
        let (below, above) = neighbours(num, den, max);
        nearer(below, above)
    } else {
        let (below, above) = neighbours(den, num, max);
        nearer(above.reciprocal(), below.reciprocal())
    }
}
