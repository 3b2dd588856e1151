//! Integers of a range. A range with a name is a type with every operator, `Integer`, `Fits`, `Average`, `Roots`, `Modular`,
//! `Display` and `FromStr`. `Percent` is an example. A form is a type of up to 128 bits, or stored in its own way.
#![tactic(auto)]

mod bounded;
mod error;
mod form;
mod integers;
mod numbers;
mod operators;
mod percent;
mod text;

pub use bounded::{Bounded, Range, Ranged, SignedRange};
pub use error::BoundedError;
pub use form::{Form, Own, SignedForm};
pub use percent::{Percent, PercentRange};
