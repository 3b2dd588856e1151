//! Congruent numbers: a residue and a modulus.

ghost use Rattle.std.specs.Prelude.{◌≡◌};

/// The numbers that are `residue` modulo `modulus`: those of `Congruence { residue: 1, modulus: 4 }` are 1, 5, 9, -3 and so
/// on. Each number has its name, in any order: `Congruence { modulus: 4, residue: 1 }` is
/// `Congruence { residue: 1, modulus: 4 }`.
#[derive(Debug, Clone, Copy, PartialEq, Eq, Hash)]
pub struct Congruence<T> {
    /// One of the numbers. It need not lie in `0..modulus`.
    pub residue: T,
    /// The difference of each number and the next. Each call asks for a positive one.
    pub modulus: T,
}

/// A pair of a residue and a modulus: `Congruence::from((1, 4))` is `Congruence { residue: 1, modulus: 4 }`. Here the order
/// counts: `Congruence::from((4, 1))` is `Congruence { residue: 4, modulus: 1 }`.
impl<T> From<(T, T)> for Congruence<T> {
    ghost from_gives = { λ pair c. (c.residue ≡ pair.0) × (c.modulus ≡ pair.1) };

    fn from(pair: (T, T)) -> Self {
        let (residue, modulus) = pair;
        Congruence { residue, modulus }
    }
}
