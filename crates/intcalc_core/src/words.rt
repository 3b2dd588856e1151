//! The words that ask for a call.

ghost use Rattle.std.specs.Prelude.{◌≡◌, ◌≢◌, ◌∷◌, [], map, MatchOption};
ghost use Rattle.intcalc_core.specs.Words.{word_of_kind, IsCall, Spell, IsRequest};

use crate::calls::{Call, Kind};
use crate::number::read_number;

fn read_kind(word: &str) -> Option<Kind>
    ensures { MatchOption result ((kind : _) → word.now ≢ word_of_kind kind)
        (λ kind. word.now ≡ word_of_kind kind) }
{
    match word {
        "i8" => Some(Kind::I8),
        "u8" => Some(Kind::U8),
        "i64" => Some(Kind::I64),
        "u64" => Some(Kind::U64),
        _ => None,
    }
}

fn read_call_of_one(word: &str, x: &str) -> Option<Call>
    ensures { MatchOption result ((call : _) → ¬ (Spell word.now (x.now ∷ []) call))
        (Spell word.now (x.now ∷ [])) }
{
    let x = read_number(x)?;
    match word {
        "sqrt" => Some(Call::Sqrt(x)),
        "cbrt" => Some(Call::Cbrt(x)),
        _ => None,
    }
}

fn read_call_of_two(word: &str, a: &str, b: &str) -> Option<Call>
    ensures { MatchOption result ((call : _) → ¬ (Spell word.now (a.now ∷ b.now ∷ []) call))
        (Spell word.now (a.now ∷ b.now ∷ [])) }
{
    let a = read_number(a)?;
    let b = read_number(b)?;
    call_of_two(word, a, b)
}

/// Returns the call of two operands that has this word.
fn call_of_two(word: &str, a: i128, b: i128) -> Option<Call>
    ensures { MatchOption result ((call : _) → ¬ (IsCall word.now (a ∷ b ∷ []) call))
        (IsCall word.now (a ∷ b ∷ [])) }
{
    match word {
        "div_rem" => Some(Call::DivRem(a, b)),
        "div_mod_floor" => Some(Call::DivModFloor(a, b)),
        "div_floor" => Some(Call::DivFloor(a, b)),
        "div_ceil" => Some(Call::DivCeil(a, b)),
        "mod_floor" => Some(Call::ModFloor(a, b)),
        "next_multiple_of" => Some(Call::NextMultipleOf(a, b)),
        "prev_multiple_of" => Some(Call::PrevMultipleOf(a, b)),
        "is_multiple_of" => Some(Call::IsMultipleOf(a, b)),
        "gcd" => Some(Call::Gcd(a, b)),
        "lcm" => Some(Call::Lcm(a, b)),
        "gcd_lcm" => Some(Call::GcdLcm(a, b)),
        "extended_gcd" => Some(Call::ExtendedGcd(a, b)),
        "average_floor" => Some(Call::AverageFloor(a, b)),
        "average_ceil" => Some(Call::AverageCeil(a, b)),
        "nth_root" => Some(Call::NthRoot(a, b)),
        "binomial" => Some(Call::Binomial(a, b)),
        _ => None,
    }
}

fn read_call_of_four(word: &str, a: &str, b: &str, c: &str, d: &str) -> Option<Call>
    ensures { MatchOption result
        ((call : _) → ¬ (Spell word.now (a.now ∷ b.now ∷ c.now ∷ d.now ∷ []) call))
        (Spell word.now (a.now ∷ b.now ∷ c.now ∷ d.now ∷ [])) }
{
    let a = read_number(a)?;
    let b = read_number(b)?;
    let c = read_number(c)?;
    let d = read_number(d)?;
    match word {
        "ratio_add" => Some(Call::RatioAdd(a, b, c, d)),
        "ratio_mul" => Some(Call::RatioMul(a, b, c, d)),
        _ => None,
    }
}

fn read_call(word: &str, operands: &[&str]) -> Option<Call>
    ensures { MatchOption result
        ((call : _) → ¬ (Spell word.now (map (λ w. w.now) operands.now) call))
        (Spell word.now (map (λ w. w.now) operands.now)) }
{
    match operands {
        [x] => read_call_of_one(word, x),
        [a, b] => read_call_of_two(word, a, b),
        [a, b, c, d] => read_call_of_four(word, a, b, c, d),
        _ => None,
    }
}

/// Returns the kind and the call that the words ask for: the word of a kind, the word of a call, and a
/// number word for each operand. `i64 div_floor 8 -3` asks for `Call::DivFloor(8, -3)` at `i64`.
pub fn read_words(words: &[&str]) -> Option<(Kind, Call)>
    ensures { IsRequest (map (λ w. w.now) words.now) result }
{
    let [kind, call, operands @ ..] = words else {
        return None;
    };
    let kind = read_kind(kind)?;
    let call = read_call(call, operands)?;
    Some((kind, call))
}
