//! Sums, differences, products and negations that may not fit.

ghost use Rattle.std.specs.Prelude.{◌≡◌, ◌<◌, ◌<ℤ◌, ◌*◌, pos, ◌-◌, ◌+ℤ◌, ◌-ℤ◌, min, neg_ℤ};

use num_integer::checked;

/// Returns one more, or the number itself if it is the largest of the type.
pub fn next(x: u8) -> u8
    ensures below { x < 255 → pos result ≡ pos x +ℤ pos 1 }
    ensures greatest { x ≡ 255 → result ≡ 255 }
{
    match checked::inc(x) {
        Some(next) => next,
        None => x,
    }
}

/// Returns one less, or the number itself if it is the smallest of the type.
pub fn previous(x: i64) -> i64
    ensures above { i64.MIN <ℤ x → result ≡ x -ℤ pos 1 }
    ensures least { x ≡ i64.MIN → result ≡ x }
{
    match checked::dec(x) {
        Some(previous) => previous,
        None => x,
    }
}

/// Returns the distance from `a` down to `b`, or 0 if `b` is larger.
pub fn distance_down(a: u64, b: u64) -> u64
    ensures { result ≡ a - b }
{
    match checked::difference(a, b) {
        Some(distance) => distance,
        None => 0,
    }
}

/// Returns the product, or `u32::MAX` if it does not fit.
pub fn product_or_max(a: u32, b: u32) -> u32
    ensures { result ≡ min (a * b) u32.MAX }
{
    match checked::product(a, b) {
        Some(product) => product,
        None => u32::MAX,
    }
}

/// Returns the negation, or `i8::MAX` if it does not fit.
pub fn negation_or_max(x: i8) -> i8
    ensures negation { i8.MIN <ℤ x → result ≡ neg_ℤ x }
    ensures max { x ≡ i8.MIN → result ≡ i8.MAX }
{
    if let Some(negation) = checked::negated(x) {
        negation
    } else {
        i8::MAX
    }
}
