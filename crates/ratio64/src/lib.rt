//! Exact fractions of 64-bit integers, always in lowest terms.
#![tactic(auto)]

mod decimal;
mod error;
mod fraction;
pub mod integer_words;
mod neighbours;
mod order;
mod parse;
mod reduction;

pub use decimal::{Decimal, ParseDecimalError};
pub use error::RatioError;
pub use fraction::Ratio;
pub use parse::ParseRatioError;
