//! Tests of the outcomes.

use crate::tests::rows::holds_at;
use intcalc_core::{Answer, Call, Kind, Refusal, evaluate};

const REFUSALS: [(Refusal, u32, &str); 7] = [
    (Refusal::OutOfType, 1, "OutOfType"),
    (Refusal::ZeroDivisor, 2, "ZeroDivisor"),
    (Refusal::ZeroDegree, 3, "ZeroDegree"),
    (Refusal::NegativeRoot, 4, "NegativeRoot"),
    (Refusal::NegativeCount, 5, "NegativeCount"),
    (Refusal::NotFitting, 6, "NotFitting"),
    (Refusal::NoPair, 7, "NoPair"),
];

#[test]
fn refusals(rt: HostRuntime) {
    for &(refusal, number, name) in &REFUSALS {
        let is_known = refusal.number() == number && refusal.name() == name;
        holds_at(&rt, is_known, &name);
    }
}

/// Calls whose operands lie at the ends of `i128`, or whose degree lies outside `u32`.
const OUT_OF_TYPE: [(Kind, Call); 9] = [
    (Kind::U64, Call::ModFloor(-9223372036854775808, -1)),
    (Kind::I64, Call::DivRem(i128::MIN, 0)),
    (Kind::I8, Call::Gcd(i128::MAX, i128::MIN)),
    (Kind::U64, Call::NthRoot(5, -1)),
    (Kind::U64, Call::NthRoot(5, i128::MAX)),
    (Kind::I64, Call::RatioAdd(i128::MIN, 0, 1, 1)),
    (Kind::I64, Call::RatioAdd(1, 0, 1, i128::MAX)),
    (Kind::I64, Call::RatioMul(1, i128::MAX, 1, 0)),
    (Kind::I64, Call::RatioMul(1, 1, i128::MIN, i128::MIN)),
];

#[test]
fn outcomes(rt: HostRuntime) {
    let call = Call::ModFloor(-9223372036854775808, -1);
    let rest = evaluate(Kind::I64, call);
    holds_at(&rt, rest == Ok(Answer::One(0)), &"ModFloor");
    for (place, &(kind, call)) in OUT_OF_TYPE.iter().enumerate() {
        let refused = evaluate(kind, call) == Err(Refusal::OutOfType);
        holds_at(&rt, refused, &place);
    }
}
