//! Averages and roots of every lawful integer type, after the Rust crate `num-integer`.
#![tactic(auto)]

mod averages;
pub mod counted;
mod cube_root;
mod magnitude_roots;
mod newton;
mod root;
mod root_of_degree;
mod square_root;

pub use averages::{Average, average_ceil, average_floor};
pub use root::{Roots, cbrt, nth_root, sqrt};
