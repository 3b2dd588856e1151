//! The results of the Rust crate `num-integer` and of Python over fixed inputs, replayed.
#![tactic(auto)]

pub mod inputs;
#[cfg(test)]
mod tests;
