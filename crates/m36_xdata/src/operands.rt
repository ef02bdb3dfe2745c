//! The operand as a number of a register's width.

ghost use Rattle.std.specs.Prelude.{◌≡◌, ◌*◌, ◌^◌, ◌<◌, IsTrue};
ghost use Rattle.m36_model.specs.OperandHeld.{is_word, is_pair};
ghost use Rattle.m36_model.specs.Results.{operand_fields, half, operand, words, word, pair};
ghost use Rattle.m36_xdata.specs.Registers.{working_of, HoldsNumber, PutsNumber};
ghost use Rattle.m36_xdata.specs.Changes.{words_to_write};

use crate::changes::WordsToWrite;
use crate::numbers;
use crate::registers::Register;
use m36_model::Operand36;
use m36_word::{Field, Word};

/// The word that was read.
pub fn operand_word(given: &Operand36) -> Word
    requires { IsTrue (is_word given.now.got) }
    ensures { result ≡ word (operand_fields given.now) }
{
    given.got.word()
}

// The pair that was read, as a number of 72 bits.
fn operand_pair(given: &Operand36) -> u128
    requires { IsTrue (is_pair given.now.got) }
    ensures value { result ≡ pair (operand_fields given.now) }
    ensures bound { result < 2 ^ 72 }
{
    given.got.pair().value()
}

/// The operand for a register: the word, the pair or, for an index register, bits 0 to 17 of the
/// word.
pub fn operand_number(r: Register, given: &Operand36) -> u128
    requires { HoldsNumber r given.now.got }
    ensures value { result ≡ operand (working_of r) (operand_fields given.now) }
    ensures bound { result < 2 * half (working_of r) }
{
    match r {
        Register::A | Register::Q => operand_word(given).value() as u128,
        Register::Aq => operand_pair(given),
        Register::X(_) => Field::<0, 18>::get(operand_word(given)) as u128,
    }
}

/// The words to write for a number of a register's width.
pub fn words_of_number(r: Register, v: u128) -> WordsToWrite
    requires { v < 2 * half (working_of r) }
    ensures value { words_to_write result ≡ words (working_of r) v }
    ensures put { PutsNumber r (words_to_write result) }
{
    match r {
        Register::A | Register::Q | Register::X(_) => WordsToWrite::One(numbers::word(v)),
        Register::Aq => WordsToWrite::Two(numbers::pair(v)),
    }
}
