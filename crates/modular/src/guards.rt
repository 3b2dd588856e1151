//! A condition on each congruence of a slice, which plain Rust tests in a loop. In Rattle a caller has proved it, so the function
//! tests nothing. That of plain Rust is written by hand, in `rust/by_hand/src/modular/guards.rs`.

ghost use Rattle.std.specs.Prelude.{◌<ℤ◌, pos};
ghost use Rattle.std.specs.List.{All};

use crate::several_congruences::HasCongruence;
use num_integer::Integer;

/// Says that each modulus is positive. In plain Rust it panics with the reason if one is not.
pub fn check_moduli<T: Integer, C: HasCongruence<T>>(congruences: &[C], reason: &str)
    requires { All (λ c. pos 0 <ℤ C.modulus_of c) congruences.now }
{}
