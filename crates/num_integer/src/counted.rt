//! Calls that return the result of the plain call and the number of iterations of its loop.

pub use crate::coefficients::binomial_counted;
pub use integer_core::counted::{GcdCounted, extended_gcd_counted};
pub use integer_roots::counted::SqrtCounted;
