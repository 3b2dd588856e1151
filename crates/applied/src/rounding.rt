//! Quotients rounded to the nearest integer, of two numbers and of a product.

pub mod checked;

pub use num_integer::{div_round, div_round_even};
