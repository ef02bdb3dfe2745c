//! A pair: two words, the first of them at an even word number.

ghost use Rattle.std.specs.Prelude.{◌≡◌, ◌+◌, ◌*◌, ◌/◌, ◌%◌, ◌^◌, ◌<◌};
ghost use Rattle.m36_word.specs.Signed.{signed};
ghost use Rattle.m36_word.specs.Pairs.{number_of, pair_of};

use crate::word::Word;

/// Two words that are read and written together. As a number, the even word is the more significant
/// one.
#[derive(Clone, Copy, PartialEq, Eq, PartialOrd, Ord, Hash, Default, Debug)]
pub struct Pair {
    pub even: Word,
    pub odd: Word,
}

impl Pair {
    /// The pair as an unsigned number of 72 bits.
    pub fn value(self) -> u128
        ensures value { result ≡ number_of self }
        ensures bound { result < 2 ^ 72 }
    {
        self.even.value() as u128 * (1 << 36) + self.odd.value() as u128
    }

    /// The pair as a number of 72 bits in two's complement, from -2^71 to 2^71 - 1.
    #[tactic(auto, unfolding(crate::specs::Signed::signed))]
    pub fn signed(self) -> i128
        ensures { result ≡ signed (2 ^ 71) (number_of self) }
    {
        let value = self.value() as i128;
        if value < 1 << 71 {
            value
        } else {
            value - (1 << 72)
        }
    }

    /// The pair that holds the low 72 bits of a number.
    pub fn of_value(v: u128) -> Pair
        ensures { result ≡ pair_of (v % 2 ^ 72) }
    {
        let low = v % (1 << 72);
        Pair {
            even: Word::low((low >> 36) as u64),
            odd: Word::low((low % (1 << 36)) as u64),
        }
    }
}
