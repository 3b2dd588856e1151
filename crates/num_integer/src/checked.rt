//! Calls without a precondition. Each returns `Some` of the result if the precondition of the plain call of
//! the same name holds, and else `None`. For `row` the plain call is `IterBinomial::new`. A call that stands only
//! here, such as `product_div_mod_floor`, says itself when it returns `None`.

mod coefficients;
mod division;
mod divisors;
mod nearest;
mod operators;
mod roots;
mod scaling;

pub use coefficients::{binomial, multinomial, row};
pub use division::{
    div_ceil, div_floor, div_mod_floor, div_rem, mod_floor, next_multiple_of, prev_multiple_of,
};
pub use divisors::{extended_gcd, extended_gcd_lcm, gcd, gcd_lcm, lcm};
pub use nearest::{div_round, div_round_even};
pub use operators::{dec, difference, inc, negated, product, sum};
pub use roots::{nth_root, sqrt};
pub use scaling::product_div_mod_floor;
