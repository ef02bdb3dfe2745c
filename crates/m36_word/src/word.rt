//! One word.

ghost use Rattle.std.specs.Prelude.{ℕ, ◌≡◌, ◌+◌, ◌*◌, ◌/◌, ◌%◌, ◌^◌, ◌<◌, pos};
ghost use Rattle.std.specs.Option.{SomeIff};
ghost use Rattle.std.specs.Int.{int_rem_euclid};
ghost use Rattle.m36_word.specs.Signed.{signed};

use std::marker::Model;

/// A word of 36 bits. Contracts see it as a number below 2^36.
#[derive(Clone, Copy, PartialEq, Eq, PartialOrd, Ord, Hash, Default, Debug)]
pub struct Word {
    value: u64,
}

impl Model for Word {
    ghost use Rattle.std.specs.Prelude.{ℕ, ◌^◌, ◌<◌};

    ghost Value = { ℕ };

    ghost view = { λ w. w.value };

    ghost invariant = { λ w. w.value < 2 ^ 36 };

    ghost inverse = { λ n. record { value = n } };
}

impl Word {
    /// The word 000000000000.
    pub const ZERO: Word = Word { value: 0 };

    /// The word with this value, or None if the value is 2^36 or more.
    pub fn new(v: u64) -> Option<Word>
        ensures { SomeIff result (v < 2 ^ 36) v }
    {
        if v < 1 << 36 {
            Some(Word { value: v })
        } else {
            None
        }
    }

    /// The low 36 bits of a number, as a word.
    pub fn low(v: u64) -> Word
        ensures { result ≡ v % 2 ^ 36 }
    {
        Word {
            value: v % (1 << 36),
        }
    }

    /// The word as an unsigned number, below 2^36.
    pub fn value(self) -> u64
        ensures value { result ≡ self }
        ensures bound { self < 2 ^ 36 }
    {
        self.value
    }

    /// The word as a number in two's complement, from -2^35 to 2^35 - 1.
    #[tactic(auto, unfolding(crate::specs::Signed::signed))]
    pub fn signed(self) -> i64
        ensures { result ≡ signed (2 ^ 35) self }
    {
        let value = self.value() as i64;
        if value < 1 << 35 {
            value
        } else {
            value - (1 << 36)
        }
    }

    /// The word that holds a number modulo 2^36, in two's complement.
    pub fn of_signed(v: i128) -> Word
        ensures { pos result ≡ int_rem_euclid v (pos (2 ^ 36)) }
    {
        Word {
            value: v.rem_euclid(1 << 36) as u64,
        }
    }
}
