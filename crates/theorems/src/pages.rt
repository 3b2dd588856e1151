//! Pages.

ghost use Rattle.std.specs.Prelude.{◌≡◌, ◌↔◌, ◌<◌, ◌≤◌, pos, ℕ, ℤ};
ghost use Rattle.applied.specs.Paging.{IsPlace, IsRangeOfPage};

use applied::paging::range_of_page;

/// Returns the index of the first item of the page and the index after its last one. Exactly the
/// items of the page are in this range. If the page has no item, both results are `items`.
pub fn items_of_page(page: u64, page_size: u64, items: u64) -> (u64, u64)
    requires { 0 < page_size }
    ensures range { IsRangeOfPage (pos page) (pos page_size) (pos items) (pos result.0) (pos result.1) }
    ensures ordered { result.0 ≤ result.1 }
    ensures empty { result.0 ≡ result.1 → result.0 ≡ items }
    ensures exactly { (i : ℕ) → ((result.0 ≤ i) × (i < result.1))
        ↔ ((i < items) × ((place : ℤ) × IsPlace (pos i) (pos page_size) (pos page) place)) }
{
    range_of_page(page, page_size, items)
}
