//! Integer division, divisors, roots and coefficients for every lawful integer type, after the Rust crate
//! `num-integer`.
#![tactic(auto)]

pub mod checked;
mod coefficients;
pub mod counted;
mod fits_trait;
mod nearest;
mod rows;
pub mod sign_magnitude;

pub use coefficients::{binomial, multinomial};
pub use fits_trait::Fits;
pub use integer_core::{
    ExtendedGcd, Integer, Magnitudes, NativeInteger, div_ceil, div_floor, div_mod_floor, div_rem,
    fitting, gcd, gcd_lcm, guards, lcm, mod_floor, narrowing, operators, padded, text,
};
pub use integer_roots::{Average, Roots, average_ceil, average_floor, cbrt, nth_root, sqrt};
pub use nearest::{div_round, div_round_even};
pub use rows::IterBinomial;
