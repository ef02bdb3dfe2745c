//! Comparisons and tests. They change only indicators, except SZNC, which also clears the word.

ghost use Rattle.std.specs.Prelude.{◌≡◌, IsTrue, length};
ghost use Rattle.m36_model.specs.OperandHeld.{is_word};
ghost use Rattle.m36_model.specs.Results.{operand, operand_fields, word};
ghost use Rattle.m36_model.specs.Compares.{compare, test_and_clear, compare_masked};
ghost use Rattle.m36_model.specs.Compares.{test_and, test_and_not};
ghost use Rattle.m36_xdata.specs.Registers.{working_of, HasValidIndex, HoldsNumber};
ghost use Rattle.m36_xdata.specs.Changes.{IsEffect, words_to_write};

use crate::bits::{and_bits, and_not_bits, xor_bits};
use crate::changes::{Change, NewValues, WordsToWrite};
use crate::conditions::{set_by_comparison, set_zero_negative};
use crate::numbers::comparison;
use crate::operands::operand_number;
use crate::registers::{Register, indicators, number_in};
use crate::results::indicator_change;
use m36_model::{Operand36, Regs};
use m36_word::Word;

/// CMPX: compares the register with the operand.
#[tactic(auto, unfolding(m36_model::specs::Compares::compare))]
pub fn compare(r: Register, given: &Operand36, regs: &Regs) -> Change
    requires register { HasValidIndex r }
    requires got { HoldsNumber r given.now.got }
    ensures value { IsEffect result regs.now
        (compare (working_of r) (operand (working_of r) (operand_fields given.now)) regs.now) }
    ensures put { length (words_to_write result.put) ≡ 0 }
{
    indicator_change(
        set_by_comparison(
            comparison(r, number_in(r, regs), operand_number(r, given)),
            indicators(regs),
        ),
        regs,
    )
}

/// SZNC: sets zero and negative for the word, and clears it.
#[tactic(auto, unfolding(m36_model::specs::Compares::test_and_clear))]
pub fn test_and_clear(given: &Operand36, regs: &Regs) -> Change
    requires { IsTrue (is_word given.now.got) }
    ensures value { IsEffect result regs.now
        (test_and_clear (word (operand_fields given.now)) regs.now) }
    ensures put { length (words_to_write result.put) ≡ 1 }
{
    let ind = set_zero_negative(
        Register::A,
        operand_number(Register::A, given),
        indicators(regs),
    );
    Change {
        taken: NewValues::Nothing,
        put: WordsToWrite::One(Word::ZERO),
        ind,
        overflow: false,
    }
}

/// CMK: sets zero and negative for the bits in which A and the word differ, except where Q has a
/// mask bit.
#[tactic(auto, unfolding(m36_model::specs::Compares::compare_masked))]
pub fn compare_masked(given: &Operand36, regs: &Regs) -> Change
    requires { IsTrue (is_word given.now.got) }
    ensures value { IsEffect result regs.now
        (compare_masked (word (operand_fields given.now)) regs.now) }
    ensures put { length (words_to_write result.put) ≡ 0 }
{
    let other = xor_bits(
        Register::A,
        number_in(Register::A, regs),
        operand_number(Register::A, given),
    );
    let seen = and_not_bits(Register::A, other, number_in(Register::Q, regs));
    indicator_change(set_zero_negative(Register::A, seen, indicators(regs)), regs)
}

/// CANA, CANQ, CANAQ, CANX: sets zero and negative for register AND operand.
#[tactic(auto, unfolding(m36_model::specs::Compares::test_and))]
pub fn test_and(r: Register, given: &Operand36, regs: &Regs) -> Change
    requires register { HasValidIndex r }
    requires got { HoldsNumber r given.now.got }
    ensures value { IsEffect result regs.now
        (test_and (working_of r) (operand (working_of r) (operand_fields given.now)) regs.now) }
    ensures put { length (words_to_write result.put) ≡ 0 }
{
    indicator_change(
        set_zero_negative(
            r,
            and_bits(r, number_in(r, regs), operand_number(r, given)),
            indicators(regs),
        ),
        regs,
    )
}

/// CNAA, CNAQ, CNAAQ, CNAX: sets zero and negative for register AND NOT operand.
#[tactic(auto, unfolding(m36_model::specs::Compares::test_and_not))]
pub fn test_and_not(r: Register, given: &Operand36, regs: &Regs) -> Change
    requires register { HasValidIndex r }
    requires got { HoldsNumber r given.now.got }
    ensures value { IsEffect result regs.now
        (test_and_not (working_of r) (operand (working_of r) (operand_fields given.now)) regs.now) }
    ensures put { length (words_to_write result.put) ≡ 0 }
{
    indicator_change(
        set_zero_negative(
            r,
            and_not_bits(r, number_in(r, regs), operand_number(r, given)),
            indicators(regs),
        ),
        regs,
    )
}
