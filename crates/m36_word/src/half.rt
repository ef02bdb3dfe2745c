//! A half of a word: an address, an offset or an index register.

ghost use Rattle.std.specs.Prelude.{ℕ, ◌≡◌, ◌^◌, ◌<◌};
ghost use Rattle.std.specs.Option.{SomeIff};

use std::marker::Model;

/// A number of 18 bits. Contracts see it as a number below 2^18.
#[derive(Clone, Copy, PartialEq, Eq, PartialOrd, Ord, Hash, Default, Debug)]
pub struct Half {
    value: u32,
}

impl Model for Half {
    ghost use Rattle.std.specs.Prelude.{ℕ, ◌^◌, ◌<◌};

    ghost Value = { ℕ };

    ghost view = { λ h. h.value };

    ghost invariant = { λ h. h.value < 2 ^ 18 };

    ghost inverse = { λ n. record { value = n } };
}

impl Half {
    /// The half with this value, or None if the value is 2^18 or more.
    pub fn new(v: u32) -> Option<Half>
        ensures { SomeIff result (v < 2 ^ 18) v }
    {
        if v < 1 << 18 {
            Some(Half { value: v })
        } else {
            None
        }
    }

    /// The half as a number below 2^18.
    pub fn value(self) -> u32
        ensures value { result ≡ self }
        ensures bound { self < 2 ^ 18 }
    {
        self.value
    }
}
