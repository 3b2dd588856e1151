//! The functions of Rattle in docs/COOKBOOK.md. `callers` has more, and `rust/tests/cookbook.rs` runs all tasks of that page.

ghost use Rattle.std.specs.Prelude.{◌<◌};

use modular::residue;
use num_integer::Integer;

/// What each pays of a bill, and how many pay one more.
fn shares(cents: u64, people: u64) -> (u64, u64)
    requires { 0 < people }
{
    cents.div_mod_floor(&people)
}

/// A byte times `factor` plus `shift`, modulo 256.
fn encrypted(factor: u8, shift: u8, byte: u8) -> u8 {
    residue(u32::from(factor) * u32::from(byte) + u32::from(shift), 256) as u8
}

#[test]
fn tasks(rt: HostRuntime) {
    assert!(rt; shares(1000, 3) == (333, 1) && encrypted(5, 8, 200) == 240);
}
