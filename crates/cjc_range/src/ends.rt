//! Exact values over the ends of two intervals, in 64 bits. It decides nothing of what an operation is.

ghost use Rattle.std.specs.Prelude.{◌≡◌, ℤ, pos, ◌*ℤ◌, ◌<ℤ◌, int_div};
ghost use Rattle.cjc_range.specs.Rows.{int_min_of, int_max_of, IsHull};

use crate::{Interval, clipped};

/// A value at each pair of ends.
#[derive(Clone, Copy)]
pub struct Ends {
    pub low_low: i64,
    pub low_high: i64,
    pub high_low: i64,
    pub high_high: i64,
}

impl Ends {
    /// The least of the four values.
    pub fn least(self) -> i64
        ensures { result ≡ int_min_of self.low_low self.low_high self.high_low self.high_high }
    {
        self.low_low
            .min(self.low_high)
            .min(self.high_low.min(self.high_high))
    }

    /// The greatest of the four values.
    pub fn greatest(self) -> i64
        ensures { result ≡ int_max_of self.low_low self.low_high self.high_low self.high_high }
    {
        self.low_low
            .max(self.low_high)
            .max(self.high_low.max(self.high_high))
    }
}

/// From the least to the greatest where they have 32 bits, else all numbers of 32 bits.
pub fn hull(ends: Ends) -> Interval
    ensures { IsHull ends.low_low ends.low_high ends.high_low ends.high_high result }
{
    clipped(ends.least(), ends.greatest())
}

/// The exact product.
fn product(x: i32, y: i32) -> i64
    ensures { result ≡ x *ℤ y }
{
    i64::from(x) * i64::from(y)
}

/// The exact products.
pub fn products(x: Interval, y: Interval) -> Ends
    ensures low_low { result.low_low ≡ x.low *ℤ y.low }
    ensures low_high { result.low_high ≡ x.low *ℤ y.high }
    ensures high_low { result.high_low ≡ x.high *ℤ y.low }
    ensures high_high { result.high_high ≡ x.high *ℤ y.high }
{
    Ends {
        low_low: product(x.low, y.low),
        low_high: product(x.low, y.high),
        high_low: product(x.high, y.low),
        high_high: product(x.high, y.high),
    }
}

/// The exact quotients, rounded toward zero.
pub fn quotients(x: Interval, y: Interval) -> Ends
    requires { pos 0 <ℤ y.low }
    ensures low_low { result.low_low ≡ int_div x.low y.low }
    ensures low_high { result.low_high ≡ int_div x.low y.high }
    ensures high_low { result.high_low ≡ int_div x.high y.low }
    ensures high_high { result.high_high ≡ int_div x.high y.high }
{
    Ends {
        low_low: i64::from(x.low) / i64::from(y.low),
        low_high: i64::from(x.low) / i64::from(y.high),
        high_low: i64::from(x.high) / i64::from(y.low),
        high_high: i64::from(x.high) / i64::from(y.high),
    }
}
