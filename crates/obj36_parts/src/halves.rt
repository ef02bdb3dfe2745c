//! Words as halves of 18 bits.

ghost use Rattle.std.specs.Prelude.{◌≡◌, ◌+◌, ◌*◌, ◌/◌, ◌%◌, ◌^◌, ◌<◌};
ghost use Rattle.obj36_parts.specs.Halves.{left, right, word_with_halves};

use m36_word::Word;

/// A number of half a word is below this.
const HALF: u64 = 1 << 18;

/// A signed offset, which bits 3 to 17 of a word hold after the number of a pointer register, is
/// from minus this to one less than this.
pub const OFFSET_LIMIT: u64 = 1 << 14;

/// Bits 0 to 17 of a word.
#[tactic(auto, unfolding(crate::specs::Halves::left))]
pub fn left_of(w: Word) -> u64
    ensures value { result ≡ left w }
    ensures bound { result < 2 ^ 18 }
{
    w.value() / HALF
}

/// Bits 18 to 35 of a word.
#[tactic(auto, unfolding(crate::specs::Halves::right))]
pub fn right_of(w: Word) -> u64
    ensures value { result ≡ right w }
    ensures bound { result < 2 ^ 18 }
{
    w.value() % HALF
}

/// The word with these halves. Of each number the low 18 bits are used.
#[tactic(auto, unfolding(crate::specs::Halves::word_with_halves))]
pub fn word_of_halves(left: u64, right: u64) -> Word
    ensures { result ≡ word_with_halves left right }
{
    Word::low(left % HALF * HALF + right % HALF)
}
