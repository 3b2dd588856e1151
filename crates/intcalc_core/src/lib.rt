//! One call of `num_integer` or `ratio64` at the type of a kind: its answer, or the reason why it has no answer. Words ask for a
//! call, and `run` puts the line of its answer.
#![tactic(auto)]

mod calls;
mod decimal;
pub mod line;
pub mod number;
mod outcome;
pub mod run;
pub mod sink;
pub mod words;

pub use calls::{Answer, Call, Kind, Refusal};
pub use outcome::evaluate;
