//! Multiples.

use super::calls::Call::{NextMultipleOf, PrevMultipleOf};
use super::ends::largest;
use super::results::one;
use super::rows::returns_of_two;
use own_types::signed_magnitude::signed_magnitude_of;
use own_types::types::SIGNED;

/// The ends of a type are multiples of 1 and of -1.
#[test]
fn test_multiple_of_one_limits(rt: HostRuntime) {
    for &it in &SIGNED {
        let largest = largest(&rt, rt.alloc(), it);
        for n in [-largest - 1, largest] {
            let same = one(signed_magnitude_of(n));
            for d in [1, -1] {
                returns_of_two(&rt, rt.alloc(), (it, NextMultipleOf), (n, d), same);
                returns_of_two(&rt, rt.alloc(), (it, PrevMultipleOf), (n, d), same);
            }
        }
    }
}
