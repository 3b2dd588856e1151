//! Conditions on a choice and on a rank that plain Rust tests in a loop, each with the reason that it panics with. In Rattle a caller
//! has proved them, so these functions test nothing. Those of plain Rust are written by hand, in `rust/by_hand/src/guards.rs`.

ghost use Rattle.std.specs.Prelude.{◌<◌};
ghost use Rattle.num_integer.specs.Coefficient.{coefficient};
ghost use Rattle.applied.specs.Ranking.{IsChoice};

/// Says that the numbers of a choice increase and are below `n`. In plain Rust it panics with the reason if they do not.
pub fn check_choice(choice: &[u64], n: u64, reason: &str)
    requires { IsChoice n choice.now }
{}

/// Says that some choice of `length` numbers below `n` has the rank. In plain Rust it panics with the reason if none has.
pub fn check_rank(rank: u64, n: u64, length: usize, reason: &str)
    requires { rank < coefficient n length }
{}
