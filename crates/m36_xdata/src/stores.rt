//! Stores that are not among the frequent instructions.

ghost use Rattle.std.specs.Prelude.{◌≡◌, ◌*◌, ◌^◌, ◌<◌, ◌==◌, IsTrue, length, if◌then◌else◌};
ghost use Rattle.m36_word.specs.Bits.{of_bit};
ghost use Rattle.m36_model.specs.OperandHeld.{is_word};
ghost use Rattle.m36_model.specs.Results.{operand_fields, word};
ghost use Rattle.m36_model.specs.Stores.{indicators_half, store_indicators};
ghost use Rattle.m36_model.specs.Stores.{store_if_zero, store_if_equal};
ghost use Rattle.m36_model.specs.WordsPut.{IsHalf};
ghost use Rattle.m36_xdata.specs.Changes.{IsEffect, words_to_write};

use crate::changes::{Change, NewValues, WordsToWrite};
use crate::conditions::with_zero;
use crate::operands::operand_word;
use crate::registers::indicators;
use m36_fastpath::{accumulator, quotient_register};
use m36_model::{Ind, Operand36, Regs};
use m36_word::Word;

// A bit at this place of a word, counted from the right: 2^place if it is on.
fn bit(on: bool, place: u32) -> u64
    requires { place < 18 }
    ensures value { result ≡ of_bit on * 2 ^ place }
{
    if on { 1 << place } else { 0 }
}

// The indicators as STI stores them, in the low 18 bits of a word.
#[tactic(auto, unfolding(m36_model::specs::Stores::indicators_half))]
fn indicators_half(ind: Ind) -> Word
    ensures value { result ≡ indicators_half ind }
    ensures bound { result < 2 ^ 18 }
{
    Word::low(
        bit(ind.zero, 17)
            + bit(ind.negative, 16)
            + bit(ind.carry, 15)
            + bit(ind.overflow, 14)
            + bit(ind.mask, 11)
            + bit(ind.tally, 10),
    )
}

/// STI: writes the indicators into bits 18 to 35 of the word.
#[tactic(auto, unfolding(m36_model::specs::Stores::store_indicators))]
pub fn store_indicators(regs: &Regs) -> Change
    ensures value { IsEffect result regs.now (store_indicators regs.now) }
    ensures put { IsHalf (words_to_write result.put) }
{
    Change {
        taken: NewValues::Nothing,
        put: WordsToWrite::One(indicators_half(indicators(regs))),
        ind: indicators(regs),
        overflow: false,
    }
}

// Whether two words are equal.
fn are_equal(first: Word, second: Word) -> bool
    ensures { result ≡ (first == second) }
{
    first.value() == second.value()
}

// `a` if `first` is on, and otherwise `b`.
fn select(first: bool, a: Word, b: Word) -> Word
    ensures { result ≡ (if first then a else b) }
{
    if first { a } else { b }
}

/// STAC: stores A if the word is 0, and otherwise leaves the word. Zero says whether A was stored.
#[tactic(auto, unfolding(m36_model::specs::Stores::store_if_zero))]
pub fn store_if_zero(given: &Operand36, regs: &Regs) -> Change
    requires { IsTrue (is_word given.now.got) }
    ensures value { IsEffect result regs.now
        (store_if_zero (word (operand_fields given.now)) regs.now) }
    ensures put { length (words_to_write result.put) ≡ 1 }
{
    let old = operand_word(given);
    let free = are_equal(old, Word::ZERO);
    Change {
        taken: NewValues::Nothing,
        put: WordsToWrite::One(select(free, accumulator(regs), old)),
        ind: with_zero(free, indicators(regs)),
        overflow: false,
    }
}

/// STACQ: stores A if the word equals Q, and otherwise leaves the word. Zero says whether A was
/// stored.
#[tactic(auto, unfolding(m36_model::specs::Stores::store_if_equal))]
pub fn store_if_equal(given: &Operand36, regs: &Regs) -> Change
    requires { IsTrue (is_word given.now.got) }
    ensures value { IsEffect result regs.now
        (store_if_equal (word (operand_fields given.now)) regs.now) }
    ensures put { length (words_to_write result.put) ≡ 1 }
{
    let old = operand_word(given);
    let equal = are_equal(old, quotient_register(regs));
    Change {
        taken: NewValues::Nothing,
        put: WordsToWrite::One(select(equal, accumulator(regs), old)),
        ind: with_zero(equal, indicators(regs)),
        overflow: false,
    }
}
