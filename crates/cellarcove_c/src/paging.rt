//! Items on pages of equal size, and in parts of nearly equal size. Items, pages, places and parts are
//! counted from 0.

ghost use Rattle.std.specs.Prelude.{◌≡◌, ◌≢◌, ◌↔◌, ◌≤ℤ◌, ◌<ℤ◌, ℕ, ℤ, pos, FitsSigned, IsTrue};
ghost use Rattle.std.specs.Int.{FitsUnsignedBits, w64};
ghost use Rattle.applied.specs.Paging.{IsPlace, IsRangeOfPage, IsRangeOfPart};
ghost use Rattle.num_integer.specs.Range.{EachFits};
ghost use Rattle.cellarcove_c.specs.Answers.{Answers, I64Answers, U64Answers};
ghost use Rattle.cellarcove_c.specs.Paging.{IsFewestPages};
ghost use Rattle.cellarcove_c.specs.Statuses.{IsReason, StatusIs, outside};

use crate::answers::{ANSWER, I64Answer, NOT_FITTING, OUTSIDE, U64Answer};
use applied::paging::{item_at, pages, place_of, range_of_page, range_of_part};

/// A status, and a page with a place on it.
#[repr(C)]
#[derive(Clone, Copy)]
pub struct I64Place {
    pub status: u32,
    pub page: i64,
    pub place: i64,
}

/// A status, and a page with a place on it.
#[repr(C)]
#[derive(Clone, Copy)]
pub struct U64Place {
    pub status: u32,
    pub page: u64,
    pub place: u64,
}

/// A status, and the first item of a range with its end, which is one past the last item.
#[repr(C)]
#[derive(Clone, Copy)]
pub struct I64Range {
    pub status: u32,
    pub first: i64,
    pub end: i64,
}

/// A status, and the first item of a range with its end, which is one past the last item.
#[repr(C)]
#[derive(Clone, Copy)]
pub struct U64Range {
    pub status: u32,
    pub first: u64,
    pub end: u64,
}

/// Returns the smallest number of pages that hold all items. For 10 and 4 it is 3, and for -9 and 4 it is -2.
///
/// `OUTSIDE` if `page_size` is not positive.
#[unsafe(no_mangle)]
pub extern "C" fn cellarcove_pages_i64(items: i64, page_size: i64) -> I64Answer
    ensures { I64Answers (pos 0 <ℤ page_size) (IsFewestPages items page_size) (StatusIs outside) result }
{
    if page_size > 0 {
        I64Answer::some(pages(items, page_size))
    } else {
        I64Answer::none(OUTSIDE)
    }
}

/// Returns the smallest number of pages that hold all items. For 10 and 4 it is 3.
///
/// `OUTSIDE` if `page_size` is 0.
#[unsafe(no_mangle)]
pub extern "C" fn cellarcove_pages_u64(items: u64, page_size: u64) -> U64Answer
    ensures { U64Answers (pos 0 <ℤ pos page_size) (IsFewestPages (pos items) (pos page_size)) (StatusIs outside) result }
{
    if page_size > 0 {
        U64Answer::some(pages(items, page_size))
    } else {
        U64Answer::none(OUTSIDE)
    }
}

/// Returns the page of an item, and its place on the page, all counted from 0. Those of -1 and 4 are -1
/// and 3.
///
/// `OUTSIDE` if `page_size` is not positive.
#[unsafe(no_mangle)]
pub extern "C" fn cellarcove_place_of_i64(item: i64, page_size: i64) -> I64Place
    ensures { Answers {A = ℤ × ℤ} (pos 0 <ℤ page_size)
        (λ (page, place). IsPlace item page_size page place)
        (StatusIs outside) (pos 0, pos 0) result.status (result.page, result.place) }
{
    let (status, (page, place)) = if page_size > 0 {
        (ANSWER, place_of(item, page_size))
    } else {
        (OUTSIDE, (0, 0))
    };
    I64Place {
        status,
        page,
        place,
    }
}

/// Returns the page of an item, and its place on the page, all counted from 0. Those of 10 and 4 are 2
/// and 2.
///
/// `OUTSIDE` if `page_size` is 0.
#[unsafe(no_mangle)]
pub extern "C" fn cellarcove_place_of_u64(item: u64, page_size: u64) -> U64Place
    ensures { Answers {A = ℕ × ℕ} (pos 0 <ℤ pos page_size)
        (λ (page, place). IsPlace (pos item) (pos page_size) (pos page) (pos place))
        (StatusIs outside) (0, 0) result.status (result.page, result.place) }
{
    let (status, (page, place)) = if page_size > 0 {
        (ANSWER, place_of(item, page_size))
    } else {
        (OUTSIDE, (0, 0))
    };
    U64Place {
        status,
        page,
        place,
    }
}

/// Returns the item at a place of a page, all counted from 0. For -1, 3 and 4 it is -1.
///
/// `OUTSIDE` if `place` is negative or not below `page_size`. `NOT_FITTING` if the item does not fit.
#[unsafe(no_mangle)]
pub extern "C" fn cellarcove_item_at_i64(page: i64, place: i64, page_size: i64) -> I64Answer
    ensures { I64Answers (((pos 0 ≤ℤ place) × (place <ℤ page_size))
        × EachFits (FitsSigned w64) (λ item. IsPlace item page_size page place))
        (λ item. IsPlace item page_size page place)
        (IsReason (¬ ((pos 0 ≤ℤ place) × (place <ℤ page_size)))) result }
{
    if place < 0 || page_size <= place {
        return I64Answer::none(OUTSIDE);
    }
    I64Answer::of(item_at(page, place, page_size), NOT_FITTING)
}

/// Returns the item at a place of a page, all counted from 0. For 2, 2 and 4 it is 10.
///
/// `OUTSIDE` if `place` is not below `page_size`. `NOT_FITTING` if the item does not fit.
#[unsafe(no_mangle)]
pub extern "C" fn cellarcove_item_at_u64(page: u64, place: u64, page_size: u64) -> U64Answer
    ensures { U64Answers ((pos place <ℤ pos page_size)
        × EachFits (FitsUnsignedBits 64) (λ item. IsPlace item (pos page_size) (pos page) (pos place)))
        (λ item. IsPlace item (pos page_size) (pos page) (pos place))
        (IsReason (¬ (pos place <ℤ pos page_size))) result }
{
    if page_size <= place {
        return U64Answer::none(OUTSIDE);
    }
    U64Answer::of(item_at(page, place, page_size), NOT_FITTING)
}

/// Returns the first item of a page and its end, which is one past its last item, if there are `items`
/// items. Items and pages are counted from 0. Both are `items` if no item is on the page. Those of 2, 4
/// and 10 are 8 and 10, and those of 3, 4 and 10 are 10 and 10.
///
/// `OUTSIDE` if `page_size` is not positive or `items` is negative.
#[unsafe(no_mangle)]
pub extern "C" fn cellarcove_range_of_page_i64(page: i64, page_size: i64, items: i64) -> I64Range
    ensures { Answers {A = ℤ × ℤ} ((pos 0 <ℤ page_size) × (pos 0 ≤ℤ items))
        (λ (first, end). IsRangeOfPage page page_size items first end)
        (StatusIs outside) (pos 0, pos 0) result.status (result.first, result.end) }
{
    let (status, (first, end)) = if !are_pages(page_size, items) {
        (OUTSIDE, (0, 0))
    } else {
        (ANSWER, range_of_page(page, page_size, items))
    };
    I64Range { status, first, end }
}

/// Returns the first item of a page and its end, which is one past its last item, if there are `items`
/// items. Items and pages are counted from 0. Both are `items` if no item is on the page. Those of 2, 4
/// and 10 are 8 and 10, and those of 3, 4 and 10 are 10 and 10.
///
/// `OUTSIDE` if `page_size` is 0.
#[unsafe(no_mangle)]
pub extern "C" fn cellarcove_range_of_page_u64(page: u64, page_size: u64, items: u64) -> U64Range
    ensures { Answers {A = ℕ × ℕ} (pos 0 <ℤ pos page_size)
        (λ (first, end). IsRangeOfPage (pos page) (pos page_size) (pos items) (pos first) (pos end))
        (StatusIs outside) (0, 0) result.status (result.first, result.end) }
{
    let (status, (first, end)) = if page_size == 0 {
        (OUTSIDE, (0, 0))
    } else {
        (ANSWER, range_of_page(page, page_size, items))
    };
    U64Range { status, first, end }
}

/// Returns the first item of a part and its end, which is one past its last item, if `items` items are
/// split into `parts` parts. Items and parts are counted from 0. Each part is as large as the part before
/// it, or smaller by 1. Those of 1, 3 and 10 are 4 and 7.
///
/// `OUTSIDE` if `part` or `items` is negative, or `part` is not below `parts`.
#[unsafe(no_mangle)]
pub extern "C" fn cellarcove_range_of_part_i64(part: i64, parts: i64, items: i64) -> I64Range
    ensures { Answers {A = ℤ × ℤ} ((pos 0 ≤ℤ part) × (part <ℤ parts) × (pos 0 ≤ℤ items))
        (λ (first, end). IsRangeOfPart part parts items first end)
        (StatusIs outside) (pos 0, pos 0) result.status (result.first, result.end) }
{
    let (status, (first, end)) = if !is_part(part, parts, items) {
        (OUTSIDE, (0, 0))
    } else {
        (ANSWER, range_of_part(part, parts, items))
    };
    I64Range { status, first, end }
}

/// Returns the first item of a part and its end, which is one past its last item, if `items` items are
/// split into `parts` parts. Items and parts are counted from 0. Each part is as large as the part before
/// it, or smaller by 1. Those of 1, 3 and 10 are 4 and 7.
///
/// `OUTSIDE` if `part` is not below `parts`.
#[unsafe(no_mangle)]
pub extern "C" fn cellarcove_range_of_part_u64(part: u64, parts: u64, items: u64) -> U64Range
    ensures { Answers {A = ℕ × ℕ} (pos part <ℤ pos parts)
        (λ (first, end). IsRangeOfPart (pos part) (pos parts) (pos items) (pos first) (pos end))
        (StatusIs outside) (0, 0) result.status (result.first, result.end) }
{
    let (status, (first, end)) = if parts <= part {
        (OUTSIDE, (0, 0))
    } else {
        (ANSWER, range_of_part(part, parts, items))
    };
    U64Range { status, first, end }
}

/// Returns `true` if there are pages of such a size for so many items.
fn are_pages(page_size: i64, items: i64) -> bool
    ensures { IsTrue result ↔ ((pos 0 <ℤ page_size) × (pos 0 ≤ℤ items)) }
{
    0 < page_size && 0 <= items
}

/// Returns `true` if there is such a part of so many parts and items.
fn is_part(part: i64, parts: i64, items: i64) -> bool
    ensures { IsTrue result ↔ ((pos 0 ≤ℤ part) × (part <ℤ parts) × (pos 0 ≤ℤ items)) }
{
    0 <= part && part < parts && 0 <= items
}
