//! What is proved of the decimal numbers of `ratio64`.

ghost use Rattle.std.specs.Prelude.{◌≤◌, ◌^◌, ◌-ℤ◌, ◌*ℤ◌, IfSome, pos, unsigned_abs, ℤ};
ghost use Rattle.num_integer.specs.Checked.{AnswersWhere};
ghost use Rattle.num_integer.specs.Only.{IsOnly};
ghost use Rattle.ratio64.specs.Decimal.{IsDecimalOf, SpellsDecimal, decimal_text, places_of, units_of};
ghost use Rattle.ratio64.specs.Ratio.{den_of, num_of};
ghost use Rattle.ratio64.specs.Rounding.{IsRoundedEven};

use ratio64::{Decimal, Ratio};

/// Returns the integer nearest to the fraction, and of two that are equally near the even one. It is unique.
pub fn even_integer(x: &Ratio) -> i64
    ensures rounded { IsRoundedEven (num_of x.now) (den_of x.now) result }
    ensures only { IsOnly (IsRoundedEven (num_of x.now) (den_of x.now)) result }
{
    x.round_even()
}

/// Returns the units of the nearest decimal number with so many places, or `None` if there are more than 18. No multiple
/// of 10^-places is nearer, and of those that are equally near only this one is even.
pub fn nearest_units(x: &Ratio, places: u32) -> Option<i128>
    ensures rounded { AnswersWhere (places ≤ 18)
        (IsRoundedEven (num_of x.now *ℤ pos (10 ^ places)) (den_of x.now)) result }
    ensures only { IfSome result (λ units.
        IsOnly (IsRoundedEven (num_of x.now *ℤ pos (10 ^ places)) (den_of x.now)) units) }
    ensures nearest { IfSome result (λ units. (other : ℤ)
        → unsigned_abs (num_of x.now *ℤ pos (10 ^ places) -ℤ units *ℤ den_of x.now)
        ≤ unsigned_abs (num_of x.now *ℤ pos (10 ^ places) -ℤ other *ℤ den_of x.now)) }
{
    let decimal = x.to_decimal(places)?;
    Some(decimal.units())
}

/// Returns the nearest decimal number with so many places, or `None` if there are more than 18. Its string spells it,
/// and no other.
pub fn read_back(x: &Ratio, places: u32) -> Option<Decimal>
    ensures decimal { AnswersWhere (places ≤ 18) (IsDecimalOf (num_of x.now) (den_of x.now) places) result }
    ensures spelled { IfSome result (λ d. SpellsDecimal (decimal_text (units_of d) (places_of d))
        (units_of d) (places_of d)) }
    ensures only { IfSome result (λ d. IsOnly (λ (u, p). SpellsDecimal (decimal_text (units_of d) (places_of d)) u p)
        (units_of d, places_of d)) }
{
    x.to_decimal(places)
}
