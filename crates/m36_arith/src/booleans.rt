//! Boolean operations, bit by bit.

ghost use Rattle.std.specs.Prelude.{◌≡◌, ◌^◌, ◌<◌};
ghost use Rattle.m36_word.specs.Pairs.{number_of};
ghost use Rattle.m36_model.specs.Booleans.{and_of, or_of, xor_of, and_not_of};

use m36_word::{Pair, Word};

/// The bits that are on in both words.
#[tactic(auto, using(crate::proofs::BitByBit::and_low))]
pub fn and36(x: Word, y: Word) -> Word
    ensures { result ≡ and_of 36 x y }
{
    Word::low(x.value() & y.value())
}

/// The bits that are on in at least one of the words.
#[tactic(auto, using(crate::proofs::BitByBit::or_low))]
pub fn or36(x: Word, y: Word) -> Word
    ensures { result ≡ or_of 36 x y }
{
    Word::low(x.value() | y.value())
}

/// The bits that differ in the two words.
#[tactic(auto, using(crate::proofs::BitByBit::xor_low))]
pub fn xor36(x: Word, y: Word) -> Word
    ensures { result ≡ xor_of 36 x y }
{
    Word::low(x.value() ^ y.value())
}

/// The bits that are on in the first word and off in the second.
#[tactic(auto, using(crate::proofs::BitByBit::and_not_word))]
pub fn and_not36(x: Word, y: Word) -> Word
    ensures { result ≡ and_not_of 36 x y }
{
    Word::low(x.value() & !y.value())
}

/// The bits that are on in both pairs.
#[tactic(auto, using(crate::proofs::BitByBit::and_pair))]
pub fn and72(x: Pair, y: Pair) -> Pair
    ensures { number_of result ≡ and_of 72 (number_of x) (number_of y) }
{
    Pair {
        even: and36(x.even, y.even),
        odd: and36(x.odd, y.odd),
    }
}

/// The bits that are on in at least one of the pairs.
#[tactic(auto, using(crate::proofs::BitByBit::or_pair))]
pub fn or72(x: Pair, y: Pair) -> Pair
    ensures { number_of result ≡ or_of 72 (number_of x) (number_of y) }
{
    Pair {
        even: or36(x.even, y.even),
        odd: or36(x.odd, y.odd),
    }
}

/// The bits that differ in the two pairs.
#[tactic(auto, using(crate::proofs::BitByBit::xor_pair))]
pub fn xor72(x: Pair, y: Pair) -> Pair
    ensures { number_of result ≡ xor_of 72 (number_of x) (number_of y) }
{
    Pair {
        even: xor36(x.even, y.even),
        odd: xor36(x.odd, y.odd),
    }
}

/// The bits that are on in the first pair and off in the second.
#[tactic(auto, using(crate::proofs::BitByBit::and_not_pair))]
pub fn and_not72(x: Pair, y: Pair) -> Pair
    ensures { number_of result ≡ and_not_of 72 (number_of x) (number_of y) }
{
    Pair {
        even: and_not36(x.even, y.even),
        odd: and_not36(x.odd, y.odd),
    }
}

/// The bits that are on in both halves.
#[tactic(auto, using(crate::proofs::BitByBit::and_half))]
pub fn and18(x: u32, y: u32) -> u32
    requires first { x < 2 ^ 18 }
    requires second { y < 2 ^ 18 }
    ensures value { result ≡ and_of 18 x y }
    ensures bound { result < 2 ^ 18 }
{
    x & y
}

/// The bits that are on in at least one of the halves.
#[tactic(auto, using(crate::proofs::BitByBit::or_half, crate::proofs::BitByBit::or_below))]
pub fn or18(x: u32, y: u32) -> u32
    requires first { x < 2 ^ 18 }
    requires second { y < 2 ^ 18 }
    ensures value { result ≡ or_of 18 x y }
    ensures bound { result < 2 ^ 18 }
{
    x | y
}

/// The bits that differ in the two halves.
#[tactic(auto, using(crate::proofs::BitByBit::xor_half, crate::proofs::BitByBit::xor_below))]
pub fn xor18(x: u32, y: u32) -> u32
    requires first { x < 2 ^ 18 }
    requires second { y < 2 ^ 18 }
    ensures value { result ≡ xor_of 18 x y }
    ensures bound { result < 2 ^ 18 }
{
    x ^ y
}

/// The bits that are on in the first half and off in the second.
#[tactic(auto, using(crate::proofs::BitByBit::and_not_half))]
pub fn and_not18(x: u32, y: u32) -> u32
    requires first { x < 2 ^ 18 }
    requires second { y < 2 ^ 18 }
    ensures value { result ≡ and_not_of 18 x y }
    ensures bound { result < 2 ^ 18 }
{
    x & !y
}
