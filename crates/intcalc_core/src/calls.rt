//! The kinds, the calls, the answers and the refusals. A refusal is the reason why a call has no answer.

ghost use Rattle.std.specs.Prelude.{◌≡◌};
ghost use Rattle.intcalc_core.specs.Refusal.{number_of, name_of};

/// The integer type of a call.
#[derive(Debug, Clone, Copy, PartialEq, Eq)]
pub enum Kind {
    I8,
    U8,
    I64,
    U64,
}

/// A call with its operands. The operands fit in the kind, a degree fits in `u32`, and the parts of
/// fractions fit in `i64`; otherwise `evaluate` returns `OutOfType`.
#[derive(Debug, Clone, Copy, PartialEq, Eq)]
pub enum Call {
    DivRem(i128, i128),
    DivModFloor(i128, i128),
    DivFloor(i128, i128),
    DivCeil(i128, i128),
    ModFloor(i128, i128),
    NextMultipleOf(i128, i128),
    PrevMultipleOf(i128, i128),
    IsMultipleOf(i128, i128),
    Gcd(i128, i128),
    Lcm(i128, i128),
    GcdLcm(i128, i128),
    ExtendedGcd(i128, i128),
    AverageFloor(i128, i128),
    AverageCeil(i128, i128),
    Sqrt(i128),
    Cbrt(i128),
    /// The number and the degree.
    NthRoot(i128, i128),
    Binomial(i128, i128),
    /// The numerator and the denominator of each of two fractions.
    RatioAdd(i128, i128, i128, i128),
    RatioMul(i128, i128, i128, i128),
}

/// One to three numbers, or a truth value.
#[derive(Debug, Clone, Copy, PartialEq, Eq)]
pub enum Answer {
    One(i128),
    Two(i128, i128),
    Three(i128, i128, i128),
    Truth(bool),
}

/// Why a call has no answer.
#[derive(Debug, Clone, Copy, PartialEq, Eq)]
pub enum Refusal {
    /// An operand other than a degree does not fit in the kind, a degree does not fit in `u32`, or a call
    /// on fractions is made at a kind other than `i64`.
    OutOfType = 1,
    /// The divisor, or a denominator, is 0.
    ZeroDivisor = 2,
    /// The degree is 0.
    ZeroDegree = 3,
    /// The number is negative, and the degree is even.
    NegativeRoot = 4,
    /// A count is negative.
    NegativeCount = 5,
    /// The quotient, multiple, divisor or coefficient does not fit in the kind, or a part of a fraction
    /// in lowest terms does not fit in `i64`.
    NotFitting = 6,
    /// The kind is unsigned, and neither operand divides the other.
    NoPair = 7,
}

impl Refusal {
    /// Returns the number that `intcalc` prints, which no version changes.
    /// `Refusal::OutOfType.number()` is `1`.
    pub fn number(&self) -> u32
        ensures { result ≡ number_of self.now }
    {
        *self as u32
    }

    /// Returns the name that `intcalc` prints. `Refusal::OutOfType.name()` is `"OutOfType"`.
    pub fn name(&self) -> &'static str
        ensures { result.now ≡ name_of self.now }
    {
        match self {
            Refusal::OutOfType => "OutOfType",
            Refusal::ZeroDivisor => "ZeroDivisor",
            Refusal::ZeroDegree => "ZeroDegree",
            Refusal::NegativeRoot => "NegativeRoot",
            Refusal::NegativeCount => "NegativeCount",
            Refusal::NotFitting => "NotFitting",
            Refusal::NoPair => "NoPair",
        }
    }
}
