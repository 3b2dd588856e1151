//! The running total of numbers of at most 128 bits and either sign, which is exact for any number of them.

ghost use Rattle.std.specs.Prelude.{◌≡◌, ◌+◌, ◌<◌, ◌≤◌, ◌^◌, ◌+ℤ◌, ◌-ℤ◌, ◌-◌, ◌↔◌, ◌≢◌, pos, unsigned_abs, IsTrue, MatchOption};
ghost use Rattle.num_integer.specs.Parts.{signed};
ghost use Rattle.applied.specs.Totals.{wrapped};

/// The total is `low`, plus 2^128 `over` times, minus 2^128 `under` times.
#[derive(Debug, Clone, Copy)]
pub(crate) struct Total {
    pub(crate) low: u128,
    pub(crate) over: u64,
    pub(crate) under: u64,
}

impl Total {
    /// Returns the total of no numbers.
    pub(crate) fn zero() -> Total
        ensures value { wrapped result.low result.over result.under ≡ pos 0 }
        ensures over { result.over ≡ 0 }
        ensures under { result.under ≡ 0 }
    {
        Total {
            low: 0,
            over: 0,
            under: 0,
        }
    }

    /// Returns the total with one number more, which is its sign and its magnitude.
    pub(crate) fn plus(self, number: (bool, u128)) -> Total
        requires over { self.over < 2 ^ 64 - 1 }
        requires under { self.under < 2 ^ 64 - 1 }
        ensures value { wrapped result.low result.over result.under
            ≡ wrapped self.low self.over self.under +ℤ signed number.0 number.1 }
        ensures over { result.over ≤ self.over + 1 }
        ensures under { result.under ≤ self.under + 1 }
    {
        let (negative, magnitude) = number;
        if negative {
            self.less(magnitude)
        } else {
            self.more(magnitude)
        }
    }

    /// Returns the total and the number.
    fn more(self, number: u128) -> Total
        requires { self.over < 2 ^ 64 - 1 }
        ensures value { wrapped result.low result.over result.under
            ≡ wrapped self.low self.over self.under +ℤ pos number }
        ensures over { result.over ≤ self.over + 1 }
        ensures under { result.under ≡ self.under }
    {
        match self.low.checked_add(number) {
            Some(low) => Total { low, ..self },
            None => Total {
                low: number - (u128::MAX - self.low) - 1,
                over: self.over + 1,
                ..self
            },
        }
    }

    /// Returns the total without the number.
    fn less(self, number: u128) -> Total
        requires { self.under < 2 ^ 64 - 1 }
        ensures value { wrapped result.low result.over result.under
            ≡ wrapped self.low self.over self.under -ℤ pos number }
        ensures over { result.over ≡ self.over }
        ensures under { result.under ≤ self.under + 1 }
    {
        match self.low.checked_sub(number) {
            Some(low) => Total { low, ..self },
            None => Total {
                low: u128::MAX - (number - self.low - 1),
                under: self.under + 1,
                ..self
            },
        }
    }

    /// Returns the sign and the magnitude of the total, or `None` if the magnitude does not fit in 128 bits.
    pub(crate) fn parts(self) -> Option<(bool, u128)>
        ensures { MatchOption result
            (2 ^ 128 ≤ unsigned_abs (wrapped self.low self.over self.under))
            (λ r. signed r.0 r.1 ≡ wrapped self.low self.over self.under) }
    {
        if self.over == self.under {
            Some((false, self.low))
        } else if self.is_just_below_zero() {
            Some((true, u128::MAX - (self.low - 1)))
        } else {
            None
        }
    }

    /// Returns `true` if the total is negative and above -2^128.
    fn is_just_below_zero(self) -> bool
        ensures { IsTrue result ↔ ((self.under ≡ self.over + 1) × (self.low ≢ 0)) }
    {
        self.over < self.under && self.under - self.over == 1 && self.low != 0
    }
}
