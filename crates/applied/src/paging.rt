//! Items on pages of equal size, and in parts of nearly equal size.

ghost use Rattle.std.specs.Prelude.{◌≡◌, ◌≤ℤ◌, ◌<ℤ◌, ◌*ℤ◌, ℤ, pos, IfSome};
ghost use Rattle.std.specs.Int.{int_min};
ghost use Rattle.num_integer.specs.Checked.{AnswersWhere};
ghost use Rattle.num_integer.specs.Only.{IsOnly};
ghost use Rattle.num_integer.specs.Range.{EachFits};
ghost use Rattle.applied.specs.Paging.{IsPlace, IsRangeOfPage, IsRangeOfPart, cut_at};

use num_integer::guards::check;
use num_integer::operators::{difference, is_below, is_negative, product, successor, sum, zero};
use num_integer::{Fits, Integer, checked, div_ceil, div_floor, div_mod_floor};

/// Returns the smallest number of pages that hold all items. `pages(10, 4)` is `3`, and `pages(-9, 4)` is
/// `-2`.
///
/// # Panics
///
/// In plain Rust, if the page size is not positive.
pub fn pages<T: Integer>(items: T, page_size: T) -> T
    requires in_range { T.fits (T.value items) × T.fits (T.value page_size) }
    requires positive { pos 0 <ℤ T.value page_size }
    ensures in_range { T.fits (T.value result) }
    ensures enough { T.value items ≤ℤ (T.value result *ℤ T.value page_size) }
    ensures fewest { (count : ℤ) → T.value items ≤ℤ (count *ℤ T.value page_size)
        → T.value result ≤ℤ count }
{
    check(page_size > zero(), "the page size is not positive");
    div_ceil(items, page_size)
}

/// Returns the page of an item and the place of the item on that page, all counted from 0.
/// `place_of(10, 4)` is `(2, 2)`, and `place_of(-1, 4)` is `(-1, 3)`.
///
/// # Panics
///
/// In plain Rust, if the page size is not positive.
pub fn place_of<T: Integer>(item: T, page_size: T) -> (T, T)
    requires in_range { T.fits (T.value item) × T.fits (T.value page_size) }
    requires positive { pos 0 <ℤ T.value page_size }
    ensures in_range { T.fits (T.value result.0) × T.fits (T.value result.1) }
    ensures place { IsPlace (T.value item) (T.value page_size) (T.value result.0)
        (T.value result.1) }
    ensures only { (page place : ℤ) → IsPlace (T.value item) (T.value page_size) page place
        → (page ≡ T.value result.0) × (place ≡ T.value result.1) }
{
    check(page_size > zero(), "the page size is not positive");
    div_mod_floor(item, page_size)
}

/// Returns the item at a place on a page, all counted from 0, or `None` if it does not fit.
/// `item_at(2, 2, 4)` is `Some(10)`, `item_at(-1, 3, 4)` is `Some(-1)`, and `item_at(64u8, 0, 4)` is
/// `None`.
///
/// # Panics
///
/// In plain Rust, if the place is negative or not below the page size.
pub fn item_at<T: Fits>(page: T, place: T, page_size: T) -> Option<T>
    requires in_range { T.fits (T.value page) × T.fits (T.value place) × T.fits (T.value page_size) }
    requires place_from_zero { pos 0 ≤ℤ T.value place }
    requires place_below { T.value place <ℤ T.value page_size }
    ensures place { AnswersWhere
        (EachFits T.fits (λ item. IsPlace item (T.value page_size) (T.value page) (T.value place)))
        (λ item. T.fits (T.value item)
        × IsPlace (T.value item) (T.value page_size) (T.value page) (T.value place))
        result }
    ensures only { IfSome result (λ found. IsOnly
        (λ item. IsPlace item (T.value page_size) (T.value page) (T.value place))
        (T.value found)) }
{
    check(!is_negative(place), "the place is negative");
    check(
        is_below(place, page_size),
        "the place is not below the page size",
    );
    if is_negative(page) {
        // The first item of the page may not fit, even if this one does.
        let next_page = checked::product(successor(page), page_size)?;
        checked::sum(next_page, difference(place, page_size))
    } else {
        let first = checked::product(page, page_size)?;
        checked::sum(first, place)
    }
}

/// Returns the first item of a page and the end, which is one past its last item. Items and pages are counted
/// from 0. Both results are `items` if no item is on the page. `range_of_page(2, 4, 10)` is `(8, 10)`,
/// `range_of_page(3, 4, 10)` is `(10, 10)`, and `range_of_page(-1, 4, 10)` is `(10, 10)`.
///
/// # Panics
///
/// In plain Rust, if the page size is not positive, or if the number of items is negative.
pub fn range_of_page<T: Integer + Copy>(page: T, page_size: T, items: T) -> (T, T)
    requires in_range { T.fits (T.value page) × T.fits (T.value page_size) × T.fits (T.value items) }
    requires positive { pos 0 <ℤ T.value page_size }
    requires from_zero { pos 0 ≤ℤ T.value items }
    ensures in_range { T.fits (T.value result.0) × T.fits (T.value result.1) }
    ensures range { IsRangeOfPage (T.value page) (T.value page_size) (T.value items)
        (T.value result.0) (T.value result.1) }
    ensures only { IsOnly (λ (first, end). IsRangeOfPage (T.value page) (T.value page_size)
        (T.value items) first end) (T.value result.0, T.value result.1) }
{
    check(page_size > zero(), "the page size is not positive");
    check(!is_negative(items), "the number of items is negative");
    if is_negative(page) {
        return (items, items);
    }
    if is_below(div_floor(items, page_size), page) {
        return (items, items);
    }
    let first = product(page, page_size);
    if is_below(difference(items, first), page_size) {
        (first, items)
    } else {
        (first, sum(first, page_size))
    }
}

/// Returns the first item of a part and the end, which is one past its last item, if `items` items are split
/// into `parts` parts. Items and parts are counted from 0. Each part is as large as the part before it, or
/// smaller by 1. `range_of_part(0, 3, 10)` is `(0, 4)`, `range_of_part(1, 3, 10)` is `(4, 7)`,
/// `range_of_part(2, 3, 10)` is `(7, 10)`, and `range_of_part(2, 3, 2)` is `(2, 2)`.
///
/// # Panics
///
/// In plain Rust, if the part is negative or not below the number of parts, or if the number of items is
/// negative.
pub fn range_of_part<T: Integer + Copy>(part: T, parts: T, items: T) -> (T, T)
    requires in_range { T.fits (T.value part) × T.fits (T.value parts) × T.fits (T.value items) }
    requires part_from_zero { pos 0 ≤ℤ T.value part }
    requires part_below { T.value part <ℤ T.value parts }
    requires from_zero { pos 0 ≤ℤ T.value items }
    ensures in_range { T.fits (T.value result.0) × T.fits (T.value result.1) }
    ensures range { IsRangeOfPart (T.value part) (T.value parts) (T.value items)
        (T.value result.0) (T.value result.1) }
    ensures only { IsOnly (λ (first, end). IsRangeOfPart (T.value part) (T.value parts)
        (T.value items) first end) (T.value result.0, T.value result.1) }
{
    check(!is_negative(part), "the part is negative");
    check(
        is_below(part, parts),
        "the part is not below the number of parts",
    );
    check(!is_negative(items), "the number of items is negative");
    let (size, longer) = div_mod_floor(items, parts);
    let first = start_of(part, size, longer);
    (first, start_of(successor(part), size, longer))
}

/// Returns the item at which a part begins, if each part has `size` items, and each of the first `longer` parts
/// one more.
fn start_of<T: Integer + Copy>(part: T, size: T, longer: T) -> T
    requires in_range { T.fits (T.value part) × T.fits (T.value size) × T.fits (T.value longer) }
    requires product_fits { T.fits (T.value part *ℤ T.value size) }
    requires start_fits { T.fits (cut_at (T.value size) (T.value longer) (T.value part)) }
    ensures in_range { T.fits (T.value result) }
    ensures start { T.value result ≡ cut_at (T.value size) (T.value longer) (T.value part) }
{
    sum(product(part, size), minimum(part, longer))
}

/// Returns the smaller of two numbers.
#[tactic(auto, using(num_integer::proofs::ForCallers::linear, std::proofs::lemmas::Int::clamps))]
fn minimum<T: Integer + Copy>(x: T, y: T) -> T
    requires in_range { T.fits (T.value x) × T.fits (T.value y) }
    ensures in_range { T.fits (T.value result) }
    ensures minimum { T.value result ≡ int_min (T.value x) (T.value y) }
{
    if is_below(x, y) { x } else { y }
}
