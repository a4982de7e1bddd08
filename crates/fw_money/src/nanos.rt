//! An amount of money, and why a text is none.
ghost use Rattle.std.specs.Prelude.{◌≡◌, ◌≤◌, nat_abs};
ghost use Rattle.fw_money.specs.Amount.{most_nanos};

use std::marker::Model;
use thiserror::Error;

/// Why a text reads as no amount. Where a text has several of these faults, the first in this order is returned.
#[derive(Clone, Copy, Debug, Drop, PartialEq, Eq, Error)]
pub enum MoneyFault {
    /// The text has no byte.
    #[error("the text is empty")]
    Empty,
    /// The text isn't of the form of a number.
    #[error("the text is not a number")]
    Syntax,
    /// The text has more than 40 bytes, or its exponent is above 40 in absolute value.
    #[error("the number has more than 40 bytes, or an exponent above 40")]
    TooLong,
    /// The amount, once rounded to a whole count of nanos, is above 10^17 nanos in absolute value.
    #[error("the amount is above 100,000,000 units of the currency")]
    Range,
}

/// An amount of money, or a quantity: a whole count of nanos, which are billionths (10^-9) of one unit, of absolute value at most 10^17.
///
/// A contract sees the amount as that whole number. Amounts compare and hash as their counts do.
#[derive(Clone, Copy, Debug, Drop, PartialEq, Eq, PartialOrd, Ord, Hash)]
pub struct Nanos {
    count: i64,
}

impl Model for Nanos {
    ghost use Rattle.std.specs.Prelude.{ℤ, ◌≤◌, nat_abs};
    ghost use Rattle.fw_money.specs.Amount.{most_nanos};

    ghost Value = { ℤ };

    ghost view = { λ a. a.count };

    ghost invariant = { λ a. nat_abs a.count ≤ most_nanos };

    ghost inverse = { λ n. record { count = n } };
}

impl Nanos {
    /// The greatest amount, in nanos: 10^17, which is 100,000,000 units.
    pub const MOST: i64 = 100_000_000_000_000_000;

    /// The amount of this many nanos, at most 10^17 of them either way.
    pub fn of_fields(count: i64) -> Self
        requires { nat_abs count ≤ most_nanos }
        ensures { result ≡ count }
    {
        Nanos { count }
    }

    /// How many nanos the amount has: at most 10^17 either way, as each amount.
    pub fn count(self) -> i64
        ensures value { result ≡ self }
        ensures in_range { nat_abs result ≤ most_nanos }
    {
        self.count
    }
}
