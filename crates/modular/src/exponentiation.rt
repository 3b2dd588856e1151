//! Modular exponentiation by squaring, generic over how a residue is represented.

ghost use Rattle.std.specs.Prelude.{ℤ, ◌<◌, ◌*ℤ◌, pos};
ghost use Rattle.std.specs.Int.{int_pow};
ghost use Rattle.modular.specs.Congruences.{AreCongruent};
ghost use Rattle.modular.specs.Below.{LiesBelow};
ghost use Rattle.modular.specs.Powers.{IsIterationCount, MultipliesResidues};

use num_integer::Integer;

/// A form of the residues of a modulus, and how to multiply two residues in this form.
pub(crate) trait ResidueForm {
    type Number: Copy;

    ghost modulus: { Self → ℤ };

    ghost is_valid: { Self → Self.Number → Type 0 };

    ghost meaning: { Self → Self.Number → ℤ };

    /// Multiplies two residues in this form.
    fn product(&self, x: Self::Number, y: Self::Number) -> Self::Number
        requires x_valid { is_valid self.now x }
        requires y_valid { is_valid self.now y }
        ensures valid { is_valid self.now result }
        ensures congruent { AreCongruent (modulus self.now)
            (meaning self.now x *ℤ meaning self.now y) (meaning self.now result) };

    /// Returns the product if the binary digit is 1, and `x` if it is 0.
    fn product_if(&self, digit: u128, x: Self::Number, y: Self::Number) -> Self::Number
        requires x_valid { is_valid self.now x }
        requires y_valid { is_valid self.now y }
        requires is_digit { digit < 2 }
        ensures valid { is_valid self.now result }
        ensures congruent { AreCongruent (modulus self.now)
            (meaning self.now x *ℤ int_pow (meaning self.now y) digit) (meaning self.now result) }
    {
        if digit == 1 { self.product(x, y) } else { x }
    }
}

/// Returns the power of a residue, and the number of iterations: one for each binary digit of the exponent after the
/// first. `one`, `base` and the power are residues in the form `form`.
pub(crate) fn power_counted<F: ResidueForm>(
    form: &F,
    one: F::Number,
    base: F::Number,
    exponent: u128,
) -> (F::Number, u32)
    requires one_valid { F.is_valid form.now one }
    requires one { AreCongruent (F.modulus form.now) (pos 1) (F.meaning form.now one) }
    requires base_valid { F.is_valid form.now base }
    ensures valid { F.is_valid form.now result.0 }
    ensures power { AreCongruent (F.modulus form.now)
        (int_pow (F.meaning form.now base) exponent) (F.meaning form.now result.0) }
    ensures iterations { IsIterationCount exponent result.1 }
{
    let mut power = one;
    let mut square = base;
    let mut rest = exponent;
    let mut iterations = 0;
    'halvings: while rest > 1 {
        power = form.product_if(rest % 2, power, square);
        square = form.product(square, square);
        rest /= 2;
        iterations += 1;
    }
    (form.product_if(rest, power, square), iterations)
}

/// The residues of a modulus as they are, and how to multiply two of them.
#[derive(Clone, Copy)]
pub(crate) struct Residues<T, F> {
    #[allow(dead_code)] // contracts alone read it
    pub modulus: T,
    pub product: F,
}

impl<T: Integer + Copy, F: Fn(T, T) -> T> ResidueForm for Residues<T, F> {
    type Number = T;

    ghost modulus = { λ s. T.value s.modulus };

    ghost is_valid = { λ s x. LiesBelow (T.value s.modulus) (T.value x)
        × MultipliesResidues T.value (T.value s.modulus) (F.pre s.product) (F.post s.product) };

    ghost meaning = { λ s x. T.value x };

    fn product(&self, x: T, y: T) -> T {
        (self.product)(x, y)
    }
}
