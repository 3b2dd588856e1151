//! What the crates of tests share: lawful types that the library does not know, the names of all types,
//! and integers by sign and magnitude.
//!
//! `Percent` is the example of `bounded_integers`, and three others are ranges of it. The other three share all but the way in
//! which they store a number, and the built-in type that computes.
#![tactic(auto)]

pub mod forms;
pub mod ranges;
pub mod signed_magnitude;
pub mod types;

pub use bounded_integers::{Bounded, Own, Percent};

/// From -7 to 7.
pub type Small = Bounded<ranges::SmallRange>;

/// From -7 to 7, stored negated.
pub type Negated = Own<forms::NegatedForm>;

/// From -100 to 100, with a byte that no number depends on.
pub type Marked = Own<forms::MarkedForm>;

/// From 0 to 10^30, stored in 128 bits.
pub type Tokens = Own<forms::TokensForm>;

/// 0 and 1, with no 2.
pub type OneBit = Bounded<ranges::OneBitRange>;

/// From 0 to 3.
pub type TwoBits = Bounded<ranges::TwoBitsRange>;
