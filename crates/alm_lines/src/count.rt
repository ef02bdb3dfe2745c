//! Counts of words.

ghost use Rattle.std.specs.Prelude.{ℕ, ◌≡◌, ◌-◌, ◌^◌, ◌<◌};

use std::marker::Model;

/// A number of words that lines place, below 2^96 - 8. Its model is the number.
#[derive(Clone, Copy, PartialEq, Eq)]
pub struct Count {
    value: u128,
}

impl Model for Count {
    ghost use Rattle.std.specs.Prelude.{ℕ, ◌^◌, ◌<◌, ◌-◌};

    ghost Value = { ℕ };

    ghost view = { λ c. c.value };

    ghost invariant = { λ c. c.value < 2 ^ 96 - 8 };

    ghost inverse = { λ n. record { value = n } };
}

impl Count {
    /// This many words.
    pub fn of(words: u128) -> Count
        requires { words < 2 ^ 96 - 8 }
        ensures { result ≡ words }
    {
        Count { value: words }
    }

    /// The number.
    pub fn value(self) -> u128
        ensures value { result ≡ self }
        ensures bound { self < 2 ^ 96 - 8 }
    {
        self.value
    }
}
