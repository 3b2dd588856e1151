//! The names of the calls.

/// A call. Its operands are numbers: it takes the first, the first two, or all of them.
#[derive(Clone, Copy, Debug)]
pub(crate) enum Call {
    /// The magnitude of the smallest number of the type, and its largest number.
    Ends,
    /// Whether the type has the number.
    Fits,
    Inc,
    Dec,
    Negated,
    Parts,
    IsEven,
    IsOdd,
    Sum,
    Difference,
    Product,
    AverageFloor,
    AverageCeil,
    DivRem,
    /// `/` and `%`.
    Operators,
    DivModFloor,
    DivFloor,
    DivCeil,
    ModFloor,
    QuotientFits,
    NextMultipleOf,
    NextMultipleFits,
    PrevMultipleOf,
    PrevMultipleFits,
    IsMultipleOf,
    Divides,
    Gcd,
    GcdFits,
    Lcm,
    LcmFits,
    GcdLcm,
    /// The greatest common divisor and the iterations.
    CountedGcd,
    /// The greatest common divisor and its pair.
    Bezout,
    /// The greatest common divisor, its pair and the iterations.
    CountedBezout,
    /// The greatest common divisor, its pair, and the least common multiple.
    BezoutAndMultiple,
    Binomial,
    BinomialFits,
    /// The coefficient and the iterations.
    CountedBinomial,
    Multinomial,
    MultinomialFits,
    /// Whether the row of the first number has the other numbers as items, and no more.
    Row,
    /// The root of the first number, of the degree that the second is.
    Root,
    Sqrt,
    Cbrt,
    /// The square root and the iterations.
    CountedRoot,
}

impl Call {
    /// The call of this name.
    pub(crate) fn named(name: &str) -> Option<Call> {
        match Call::of_program(name) {
            None => Call::of_library(name),
            call => call,
        }
    }

    /// The call that has this word in the program.
    fn of_program(word: &str) -> Option<Call> {
        Some(match word {
            "div_rem" => Call::DivRem,
            "div_mod_floor" => Call::DivModFloor,
            "div_floor" => Call::DivFloor,
            "div_ceil" => Call::DivCeil,
            "mod_floor" => Call::ModFloor,
            "next_multiple_of" => Call::NextMultipleOf,
            "prev_multiple_of" => Call::PrevMultipleOf,
            "is_multiple_of" => Call::IsMultipleOf,
            "gcd" => Call::Gcd,
            "lcm" => Call::Lcm,
            "gcd_lcm" => Call::GcdLcm,
            "extended_gcd" => Call::Bezout,
            "average_floor" => Call::AverageFloor,
            "average_ceil" => Call::AverageCeil,
            "sqrt" => Call::Sqrt,
            "cbrt" => Call::Cbrt,
            "nth_root" => Call::Root,
            "binomial" => Call::Binomial,
            _ => return None,
        })
    }

    /// The call of this name that the program lacks.
    pub(crate) fn of_library(name: &str) -> Option<Call> {
        Some(match name {
            "ends" => Call::Ends,
            "fits" => Call::Fits,
            "inc" => Call::Inc,
            "dec" => Call::Dec,
            "negated" => Call::Negated,
            "parts" => Call::Parts,
            "is_even" => Call::IsEven,
            "is_odd" => Call::IsOdd,
            "sum" => Call::Sum,
            "difference" => Call::Difference,
            "product" => Call::Product,
            "operators" => Call::Operators,
            "quotient_fits" => Call::QuotientFits,
            "next_multiple_fits" => Call::NextMultipleFits,
            "prev_multiple_fits" => Call::PrevMultipleFits,
            "divides" => Call::Divides,
            "gcd_fits" => Call::GcdFits,
            "lcm_fits" => Call::LcmFits,
            "gcd_counted" => Call::CountedGcd,
            "extended_gcd_counted" => Call::CountedBezout,
            "extended_gcd_lcm" => Call::BezoutAndMultiple,
            "binomial_fits" => Call::BinomialFits,
            "binomial_counted" => Call::CountedBinomial,
            "multinomial" => Call::Multinomial,
            "multinomial_fits" => Call::MultinomialFits,
            "has_row" => Call::Row,
            "sqrt_counted" => Call::CountedRoot,
            _ => return None,
        })
    }

    /// The call that tests the precondition of this one, if it is checked together with it.
    pub(crate) fn test(self) -> Option<Call> {
        match self {
            Call::DivFloor | Call::DivCeil => Some(Call::QuotientFits),
            Call::NextMultipleOf => Some(Call::NextMultipleFits),
            Call::PrevMultipleOf => Some(Call::PrevMultipleFits),
            Call::Gcd => Some(Call::GcdFits),
            Call::Lcm => Some(Call::LcmFits),
            Call::Binomial => Some(Call::BinomialFits),
            Call::Multinomial => Some(Call::MultinomialFits),
            _ => None,
        }
    }
}
