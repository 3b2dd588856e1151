//! Quotients and remainders: by a positive number, by a divisor that may be 0, and in words of the caller.

ghost use Rattle.std.specs.Prelude.{◌≡◌, ◌≢◌, ◌<◌, ◌%◌, ◌≤ℤ◌, ◌<ℤ◌, ◌+◌, ◌*◌, ◌/◌, ◌≤◌, MatchOption, pos, ◌+ℤ◌, ◌*ℤ◌, FitsSigned};
ghost use Rattle.std.specs.Int.{FitsUnsignedBits, w64};
ghost use Rattle.num_integer.specs.Division.{IsCeiled, IsFloored, IsQuotient, IsRemainder, IsTruncated};
ghost use Rattle.num_integer.specs.Range.{EachFits};

use num_integer::{Integer, checked, div_ceil};

/// Returns the quotient by a positive number, which always fits.
pub fn quotient_by_positive(n: i64, d: i64) -> i64
    requires { pos 0 <ℤ d }
    ensures { IsQuotient IsFloored n d result }
{
    n.div_floor(&d)
}

/// Returns the quotient, or `None` if the divisor is 0 or the quotient does not fit.
#[tactic(auto, using(num_integer::proofs::ForCallers::quotient_passed_on))]
pub fn floored_or_none(n: i64, d: i64) -> Option<i64>
    ensures { MatchOption result
        (¬ ((d ≢ pos 0) × EachFits (FitsSigned w64) (IsQuotient IsFloored n d)))
        (IsQuotient IsFloored n d) }
{
    let quotient = checked::div_floor(n, d)?;
    Some(quotient)
}

/// Returns the number of whole weeks. The quotient by a literal other than 0 and -1 always fits.
pub fn weeks(days: i64) -> i64
    ensures { IsQuotient IsFloored days (pos 7) result }
{
    days.div_floor(&7)
}

/// Returns the quotient at an unsigned type. It fits for each divisor except 0.
pub fn natural_quotient(n: u64, d: u64) -> u64
    requires { d ≢ 0 }
    ensures { IsQuotient IsFloored (pos n) (pos d) (pos result) }
{
    n.div_floor(&d)
}

/// Returns the remainder. The clause says this with `%`.
pub fn remainder(n: u64, d: u64) -> u64
    requires { 0 < d }
    ensures { result ≡ n % d }
{
    n.mod_floor(&d)
}

/// Returns what each person pays of a bill and what is left. The clauses say this with `/` and `%`.
#[tactic(auto, using(num_integer::proofs::ForCallers::division_is_natural))]
pub fn split_bill(total: u64, people: u64) -> (u64, u64)
    requires { 0 < people }
    ensures share { result.0 ≡ total / people }
    ensures rest { result.1 ≡ total % people }
{
    total.div_mod_floor(&people)
}

/// Returns the quotient. The clause says this with `/`.
pub fn share(total: u64, people: u64) -> u64
    requires { 0 < people }
    ensures { result ≡ total / people }
{
    total.div_floor(&people)
}

/// Returns the remainder. The clause states only its range.
pub fn remainder_below(n: i64, d: i64) -> i64
    requires { pos 0 <ℤ d }
    ensures { (pos 0 ≤ℤ result) × (result <ℤ d) }
{
    n.mod_floor(&d)
}

/// Returns a signed sum of remainders, which fits for every year.
pub fn moon_sum(year: i64) -> i64
    ensures { (pos 15 ≤ℤ result) × (result <ℤ pos 460) }
{
    let golden = remainder_below(year, 19);
    let century = remainder_below(year, 100);
    let leap = remainder_below(year, 4);
    19 * golden + century + leap + 15
}

/// Returns the quotient rounded toward 0 and the remainder, or `None` if the divisor is 0 or the quotient does not
/// fit.
pub fn shared_out(n: i64, d: i64) -> Option<(i64, i64)>
    ensures { MatchOption result
        (¬ ((d ≢ pos 0) × EachFits (FitsSigned w64) (IsQuotient IsTruncated n d)))
        (λ r. IsQuotient IsTruncated n d r.0 × (n ≡ r.0 *ℤ d +ℤ r.1)) }
{
    let Some((quotient, rest)) = checked::div_rem(n, d) else {
        return None;
    };
    Some((quotient, rest))
}

/// Returns the number of pages, or 0 if a page has no items.
pub fn pages(items: u32, page_size: u32) -> u32
    ensures pages { page_size ≢ 0 → IsQuotient IsCeiled (pos items) (pos page_size) (pos result) }
    ensures none { page_size ≡ 0 → result ≡ 0 }
{
    match checked::div_ceil(items, page_size) {
        Some(pages) => pages,
        None => 0,
    }
}

/// Returns the quotient by a positive number, rounded down. It always fits.
pub fn floored_by_positive(n: i64, d: i64) -> i64
    requires { pos 0 <ℤ d }
    ensures { IsQuotient IsFloored n d result }
{
    match checked::div_floor(n, d) {
        Some(quotient) => quotient,
        None => unreachable!(),
    }
}

/// Returns the page of an item and its place on the page. They always fit.
pub fn page_and_place(n: i64, d: i64) -> (i64, i64)
    requires { pos 0 <ℤ d }
    ensures { IsFloored n d result.0 result.1 }
{
    checked::div_mod_floor(n, d).unwrap()
}

/// Returns the remainder of the quotient rounded down. It always fits.
pub fn place_by_positive(n: i64, d: i64) -> i64
    requires { pos 0 <ℤ d }
    ensures { IsRemainder IsFloored n d result }
{
    checked::mod_floor(n, d).unwrap()
}

/// Returns the share of an amount at a rate, rounded down, or `None` if `whole` is 0 or the share does not fit. The
/// product need not fit.
pub fn share_at_rate(amount: i64, rate: i64, whole: i64) -> Option<i64>
    ensures { MatchOption result
        (¬ ((whole ≢ pos 0) × EachFits (FitsSigned w64) (IsQuotient IsFloored (amount *ℤ rate) whole)))
        (λ q. IsQuotient IsFloored (amount *ℤ rate) whole q) }
{
    let Some((share, _)) = checked::product_div_mod_floor(amount, rate, whole) else {
        return None;
    };
    Some(share)
}

/// Returns the same at an unsigned type, with the remainder.
pub fn share_and_rest(amount: u64, rate: u64, whole: u64) -> Option<(u64, u64)>
    ensures { MatchOption result
        (¬ ((whole ≢ 0)
        × EachFits (FitsUnsignedBits 64) (IsQuotient IsFloored (pos amount *ℤ pos rate) (pos whole))))
        (λ r. IsFloored (pos amount *ℤ pos rate) (pos whole) (pos r.0) (pos r.1)) }
{
    checked::product_div_mod_floor(amount, rate, whole)
}

/// Returns a part of an amount, rounded down. It always fits.
pub fn part_of(amount: i64, part: i64, whole: i64) -> i64
    requires amount { pos 0 ≤ℤ amount }
    requires part { pos 0 ≤ℤ part }
    requires within { part ≤ℤ whole }
    requires positive { pos 0 <ℤ whole }
    ensures { IsQuotient IsFloored (amount *ℤ part) whole result }
{
    let (part, _) = checked::product_div_mod_floor(amount, part, whole).unwrap();
    part
}

/// Returns the same at an unsigned type, by a match.
pub fn natural_part_of(amount: u64, part: u64, whole: u64) -> u64
    requires within { part ≤ whole }
    requires positive { 0 < whole }
    ensures { IsQuotient IsFloored (pos (amount * part)) (pos whole) (pos result) }
{
    match checked::product_div_mod_floor(amount, part, whole) {
        Some((part, _)) => part,
        None => unreachable!("the part fits"),
    }
}

// ---- whole amounts, in words of the caller

/// `share_with_tip(5000, 10, 3)` is `1834`. Returns what each person pays of a bill with a tip, rounded up. Together they pay
/// enough, and each pays less than a cent too much.
pub fn share_with_tip(bill: u64, tip_percent: u64, people: u64) -> u64
    requires bill { bill ≤ 1000000000000 }
    requires tip { tip_percent ≤ 100 }
    requires people { (0 < people) × (people ≤ 1000000) }
    ensures enough { bill * (100 + tip_percent) ≤ result * (100 * people) }
    ensures not_more { result * (100 * people) < bill * (100 + tip_percent) + 100 * people }
{
    div_ceil(bill * (100 + tip_percent), 100 * people)
}
