//! The names of the types, and values made of numbers.

ghost use Rattle.std.specs.Prelude.{IfSome};

use crate::signed_magnitude::{SignedMagnitude, to_i128};
use bounded_integers::{Form, Own};
use num_integer::counted::GcdCounted;
use num_integer::{Average, Fits};
use num_traits::FromPrimitive;

/// A type of integers.
#[derive(Clone, Copy, Debug)]
pub enum Type {
    I8,
    I16,
    I32,
    I64,
    I128,
    Isize,
    U8,
    U16,
    U32,
    U64,
    U128,
    Usize,
    Percent,
    Small,
    Negated,
    Marked,
    OneBit,
    TwoBits,
}

use Type::{I8, I16, I32, I64, I128, Isize, U8, U16, U32, U64, U128, Usize};

/// The signed native types.
pub const SIGNED: [Type; 6] = [I8, I16, I32, I64, I128, Isize];

/// The unsigned native types.
pub const UNSIGNED: [Type; 6] = [U8, U16, U32, U64, U128, Usize];

/// The native types.
pub const NATIVE: [Type; 12] = [
    I8, I16, I32, I64, I128, Isize, U8, U16, U32, U64, U128, Usize,
];

/// A type whose values the tests make of numbers.
pub trait Tested: Average + Fits {
    /// The number of this sign and magnitude as a value of the type, if the type has it.
    fn from_signed_magnitude(n: SignedMagnitude) -> Option<Self>
        ensures { IfSome result (λ x. Self.fits (Self.value x)) };

    /// The greatest common divisor and the iterations of its loop, if the divisor fits and the type has the
    /// call that counts them.
    fn gcd_and_iterations(&self, _other: &Self) -> Option<(Self, u32)>
        requires self_in_range { Self.fits (Self.value self.now) }
        requires other_in_range { Self.fits (Self.value _other.now) }
    {
        None
    }
}

/// A built-in type. No type of another crate can get the implementation below.
pub trait BuiltIn: Average + Fits + FromPrimitive + GcdCounted {}

impl BuiltIn for i8 {}

impl BuiltIn for i16 {}

impl BuiltIn for i32 {}

impl BuiltIn for i64 {}

impl BuiltIn for i128 {}

impl BuiltIn for isize {}

impl BuiltIn for u8 {}

impl BuiltIn for u16 {}

impl BuiltIn for u32 {}

impl BuiltIn for u64 {}

impl BuiltIn for u128 {}

impl BuiltIn for usize {}

impl<T: BuiltIn> Tested for T {
    fn from_signed_magnitude(n: SignedMagnitude) -> Option<T> {
        if n.0 {
            T::from_i128(to_i128(n)?)
        } else {
            T::from_u128(n.1)
        }
    }

    fn gcd_and_iterations(&self, other: &T) -> Option<(T, u32)> {
        if self.gcd_fits(other) {
            Some(self.gcd_counted(other))
        } else {
            None
        }
    }
}

impl<F: Form> Tested for Own<F>
where
    F::Number: FromPrimitive,
{
    fn from_signed_magnitude(n: SignedMagnitude) -> Option<Own<F>> {
        let number = F::Number::from_i128(to_i128(n)?)?;
        Own::try_new(number).ok()
    }
}
