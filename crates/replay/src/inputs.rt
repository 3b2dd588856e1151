//! The inputs, as signs and magnitudes. `compare/src/inputs.rs` makes the same ones.

ghost use Rattle.std.specs.Prelude.{◌≤◌, ⊤, MatchOption, if◌then◌else◌};

use own_types::signed_magnitude::SignedMagnitude;

/// How many indices give the numbers whose roots are computed.
pub(crate) const ROOTED: u32 = 2048;

/// How many degrees are tried.
pub(crate) const DEGREES: u32 = 79;

/// The degrees above 70.
const GREAT_DEGREES: [u32; 9] = [
    127, 128, 255, 256, 65535, 65536, 2147483647, 2147483648, 4294967295,
];

/// The degree at an index. The degrees go from 1 up to 70, and on to the large ones.
pub(crate) fn degree(index: u32) -> u32 {
    match GREAT_DEGREES.get(index.wrapping_sub(70) as usize) {
        Some(great) => *great,
        None => index.wrapping_add(1),
    }
}

/// How many lists of three counts begin with the same one.
pub(crate) const LISTS: u32 = 144;

/// The list of three counts at an index. The second and the third count go from 0 to 11.
pub(crate) fn counts(first: SignedMagnitude, index: u32) -> [SignedMagnitude; 3] {
    let (second, third) = (index / 12, index % 12);
    [
        first,
        (false, u128::from(second)),
        (false, u128::from(third)),
    ]
}

/// The rows of Pascal's triangle stay below this.
pub(crate) const ROWS: u32 = 140;

/// A type's number of bits, the magnitude of its smallest number, and its largest number.
#[derive(Clone, Copy)]
pub struct Shape {
    pub width: u32,
    pub low: u128,
    pub high: u128,
}

impl Shape {
    /// The type of the numbers from minus `low` to `high`. The smallest number of `i128` is left out: if the
    /// Rust crate panics in a call of it, no wider type has the result.
    pub(crate) fn between(low: u128, high: u128) -> Shape {
        let bits = 128u32.wrapping_sub(high.leading_zeros());
        Shape {
            width: bits.wrapping_add(u32::from(low > 0)),
            low: low.min((1 << 127) - 1),
            high,
        }
    }

    /// How many indices are gone through when numbers are paired with one another. At 8 bits they give
    /// each number of the type once.
    pub(crate) fn paired(self) -> u32 {
        if self.width == 8 { 512 } else { 384 }
    }

    /// The number at an index, if it lies in the type. At other widths than 8 bits the first indices
    /// give edges, the next Fibonacci numbers, and all further ones random numbers.
    pub fn number(self, index: u32) -> Option<SignedMagnitude>
        ensures { MatchOption result ⊤ (λ n. n.1 ≤ (if n.0 then self.low else self.high)) }
    {
        let odd = index % 2 == 1;
        let half = index / 2;
        let (negative, magnitude) = if self.width == 8 {
            (odd, u128::from(half) + u128::from(odd))
        } else if half < 36 {
            (odd, self.edge(odd, half / 4, half % 4))
        } else if half < 84 {
            (odd, self.fibonacci(half.wrapping_sub(36)))
        } else {
            self.random(index)
        };
        let end = if negative { self.low } else { self.high };
        if magnitude <= end {
            Some((negative, magnitude))
        } else {
            None
        }
    }

    /// A power of two or a neighbour of one, or a number near an end.
    fn edge(self, negative: bool, place: u32, kind: u32) -> u128 {
        let bit = place.wrapping_mul(self.width) / 8;
        let power = 1u128.wrapping_shl(bit.min(self.width.wrapping_sub(1)));
        let end = if negative { self.low } else { self.high };
        match kind {
            0 => power.wrapping_sub(1),
            1 => power,
            2 => power.wrapping_add(1),
            _ => end.saturating_sub(u128::from(place)),
        }
    }

    /// A Fibonacci number. There are 48 indices, and the numbers end below the top of a wide type.
    fn fibonacci(self, k: u32) -> u128 {
        let first: u32 = match self.width {
            128 => 139,
            64 => 46,
            _ => 0,
        };
        let mut number: u128 = 0;
        let mut next: u128 = 1;
        for _ in 0..first.wrapping_add(k) {
            let sum = number.wrapping_add(next);
            number = next;
            next = sum;
        }
        number
    }

    /// A random number. The indices go through all lengths in bits.
    fn random(self, index: u32) -> SignedMagnitude {
        let lengths = self.width.max(1);
        let length = (index % lengths).wrapping_add(1);
        let negative = index / lengths % 2 == 1;
        let first = mixed(index.wrapping_mul(2));
        let second = mixed(index.wrapping_mul(2).wrapping_add(1));
        let bits = (u128::from(first) << 64) | u128::from(second) | (1 << 127);
        (negative, bits.wrapping_shr(128u32.wrapping_sub(length)))
    }
}

/// A number of the generator SplitMix64.
fn mixed(index: u32) -> u64 {
    let z = u64::from(index).wrapping_mul(0x9E3779B97F4A7C15);
    let z = (z ^ (z >> 30)).wrapping_mul(0xBF58476D1CE4E5B9);
    let z = (z ^ (z >> 27)).wrapping_mul(0x94D049BB133111EB);
    z ^ (z >> 31)
}
