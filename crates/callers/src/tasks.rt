//! Everyday tasks. A call or two does each, and the contract has the clauses that its user would write.

ghost use Rattle.std.specs.Prelude.{◌≡◌, ◌↔◌, ◌++◌, ◌+◌, ◌*◌, ◌/◌, ◌%◌, ◌<◌, ◌≤◌, ◌^◌, ◌<ℤ◌, ◌*ℤ◌, Err, IsFalse, IsTrue, MatchOption, length, pos, sum, ℕ};
ghost use Rattle.num_integer.specs.Division.{IsCeiled, IsQuotient};
ghost use Rattle.applied.specs.Paging.{IsRangeOfPage};
ghost use Rattle.intcalc_core.specs.declared.line.TheConstants.{CAPACITY};
ghost use Rattle.modular.specs.Congruences.{IsResidue};
ghost use Rattle.ratio64.specs.Fraction.{IsOutsideI64};
ghost use Rattle.ratio64.specs.Ratio.{den_of, num_of};
ghost use Rattle.ratio64.specs.Rounding.{AnswersInParts};
ghost use Rattle.ratio64.specs.declared.error.RatioError.{RatioError};

use applied::paging::range_of_page;
use intcalc_core::line::CAPACITY;
use modular::{difference_modulo, quotient_modulo, residue};
use num_integer::checked;
use num_integer::text::Buffer;
use ratio64::{Ratio, RatioError};

// ---- pages of items

/// `items_on_page(2, 4, 10)` is `Some((8, 10))`. Returns the index of the first item of the page and the index
/// after its last one. Pages and items are counted from 0. Returns `None` if the size of a page is 0.
pub fn items_on_page(page: usize, size: usize, items: usize) -> Option<(usize, usize)>
    ensures { MatchOption result (size ≡ 0)
        (λ r. IsRangeOfPage (pos page) (pos size) (pos items) (pos r.0) (pos r.1)) }
{
    if size == 0 {
        return None;
    }
    Some(range_of_page(page, size, items))
}

// ---- an affine cipher over bytes

/// A key of the cipher. Its factor is odd.
#[derive(Debug, Clone, Copy, PartialEq, Eq)]
pub struct Key {
    pub factor: u8,
    pub shift: u8,
    ghost odd: { factor % 2 ≡ 1 },
}

/// Encrypts the byte.
pub fn encrypt(key: Key, byte: u8) -> u8
    ensures { result ≡ (key.factor * byte + key.shift) % 256 }
{
    key.factor.wrapping_mul(byte).wrapping_add(key.shift)
}

/// Encrypts the byte by one residue of a number that is computed in a wider type.
pub fn encrypt_in_wider_type(key: Key, byte: u8) -> u8
    ensures { IsResidue (pos 256) (pos (key.factor * byte + key.shift)) (pos result) }
{
    residue(
        u32::from(key.factor) * u32::from(byte) + u32::from(key.shift),
        256,
    ) as u8
}

/// Decrypts the byte. The result is the only byte that the key encrypts to `byte`.
pub fn decrypt(key: Key, byte: u8) -> u8
    ensures encrypted { (key.factor * result + key.shift) % 256 ≡ byte }
    ensures only { (x : ℕ) → x < 256 → (key.factor * x + key.shift) % 256 ≡ byte → x ≡ result }
{
    let moved = difference_modulo(u16::from(byte), u16::from(key.shift), 256);
    match quotient_modulo(moved, u16::from(key.factor), 256) {
        Some(original) => original as u8,
        None => unreachable!("the factor is odd"),
    }
}

/// Encrypts the byte and decrypts it again. The result is the byte.
pub fn round_trip(key: Key, byte: u8) -> u8
    ensures { result ≡ byte }
{
    decrypt(key, encrypt(key, byte))
}

// ---- amounts of money

/// Returns the part of an amount by its weight, rounded down. The product is computed in a wider type.
pub fn part_by_weight(cents: u64, weight: u64, total: u64) -> u64
    requires positive { 0 < total }
    requires within { weight ≤ total }
    ensures { result ≡ cents * weight / total }
{
    (u128::from(cents) * u128::from(weight) / u128::from(total)) as u64
}

/// Returns the sum of the amounts, or `None` if it does not fit. No partial sum is larger than the sum, so each
/// partial sum fits if the sum fits.
pub fn total_of(amounts: &[u64]) -> Option<u64>
    ensures { MatchOption result (¬ (sum amounts.now < 2 ^ 64)) (λ total. total ≡ sum amounts.now) }
{
    let mut total = 0;
    for amount in amounts {
        total = checked::sum(total, *amount)?;
    }
    Some(total)
}

// ---- a recipe in quarters

/// Of 5/3 cups for 4 servings, it is 5/2 cups for 6. Scales an amount of a recipe for `serves` servings to
/// `servings`, and rounds it up to quarters. Returns an error if the exact amount or the rounded one does not fit.
pub fn scaled(amount: &Ratio, servings: i64, serves: i64) -> Result<Ratio, RatioError>
    requires { pos 0 <ℤ serves }
    ensures outside { IsOutsideI64 (num_of amount.now *ℤ servings) (serves *ℤ den_of amount.now)
        → result ≡ Err RatioError.NotFitting }
    ensures inside { ¬ (IsOutsideI64 (num_of amount.now *ℤ servings) (serves *ℤ den_of amount.now))
        → AnswersInParts (IsQuotient IsCeiled (num_of amount.now *ℤ servings *ℤ pos 4)
        (serves *ℤ den_of amount.now)) (pos 4) result }
{
    amount.checked_times(servings, serves)?.ceil_to(4)
}

// ---- a line of bytes

/// Adds the bytes if the line has room for them, and returns whether it has.
pub fn push_if_room(line: &mut Buffer, bytes: &[u8]) -> bool
    ensures room { IsTrue result ↔ (length line.old + length bytes.now ≤ CAPACITY) }
    ensures pushed { IsTrue result → line.new ≡ line.old ++ bytes.now }
    ensures kept { IsFalse result → line.new ≡ line.old }
{
    let has_room = line.as_bytes().len() + bytes.len() <= CAPACITY;
    if has_room {
        line.push(bytes);
    }
    has_room
}
