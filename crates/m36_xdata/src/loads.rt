//! Loads that are not among the frequent instructions.

ghost use Rattle.std.specs.Prelude.{◌≡◌, IsTrue, length};
ghost use Rattle.m36_model.specs.OperandHeld.{is_word};
ghost use Rattle.m36_model.specs.Results.{operand, operand_fields, word};
ghost use Rattle.m36_model.specs.Loads.{load_complement, load_and_clear, indicators_of};
ghost use Rattle.m36_model.specs.Loads.{load_indicators};
ghost use Rattle.m36_xdata.specs.Registers.{working_of, HasValidIndex, HoldsNumber};
ghost use Rattle.m36_xdata.specs.Changes.{IsEffect, words_to_write};

use crate::changes::{Change, WordsToWrite};
use crate::conditions::{set_zero_negative, set_zero_negative_overflow};
use crate::numbers::negation;
use crate::operands::{operand_number, operand_word};
use crate::registers::{Register, indicators};
use crate::results::{indicator_change, new_value, register_change};
use m36_model::{Ind, Operand36, Regs};
use m36_word::{Field, Word};

/// LCA, LCQ, LCAQ, LCX: loads the negative of the operand into the register.
#[tactic(auto, unfolding(m36_model::specs::Loads::load_complement))]
pub fn load_complement(r: Register, given: &Operand36, regs: &Regs) -> Change
    requires register { HasValidIndex r }
    requires got { HoldsNumber r given.now.got }
    ensures value { IsEffect result regs.now
        (load_complement (working_of r) (operand (working_of r) (operand_fields given.now))
        regs.now) }
    ensures put { length (words_to_write result.put) ≡ 0 }
{
    let s = negation(r, operand_number(r, given));
    register_change(
        r,
        s.value,
        set_zero_negative_overflow(s, indicators(regs)),
        s.overflow,
        regs,
    )
}

/// LDAC, LDQC: loads the word into the register, and clears the word.
#[tactic(auto, unfolding(m36_model::specs::Loads::load_and_clear))]
pub fn load_and_clear(r: Register, given: &Operand36, regs: &Regs) -> Change
    requires register { HasValidIndex r }
    requires got { HoldsNumber r given.now.got }
    ensures value { IsEffect result regs.now
        (load_and_clear (working_of r) (operand (working_of r) (operand_fields given.now))
        regs.now) }
    ensures put { length (words_to_write result.put) ≡ 1 }
{
    let v = operand_number(r, given);
    Change {
        taken: new_value(r, v, regs),
        put: WordsToWrite::One(Word::ZERO),
        ind: set_zero_negative(r, v, indicators(regs)),
        overflow: false,
    }
}

// The indicators in bits 18 to 25 of a word, as LDI loads them.
#[tactic(auto, unfolding(m36_model::specs::Loads::indicators_of))]
fn indicators_of(w: Word) -> Ind
    ensures { result ≡ indicators_of w }
{
    Ind {
        zero: Field::<18, 1>::get(w) == 1,
        negative: Field::<19, 1>::get(w) == 1,
        carry: Field::<20, 1>::get(w) == 1,
        overflow: Field::<21, 1>::get(w) == 1,
        mask: Field::<24, 1>::get(w) == 1,
        tally: Field::<25, 1>::get(w) == 1,
    }
}

/// LDI: loads the indicators from their bits of the word.
#[tactic(auto, unfolding(m36_model::specs::Loads::load_indicators))]
pub fn load_indicators(given: &Operand36, regs: &Regs) -> Change
    requires { IsTrue (is_word given.now.got) }
    ensures value { IsEffect result regs.now
        (load_indicators (word (operand_fields given.now)) regs.now) }
    ensures put { length (words_to_write result.put) ≡ 0 }
{
    indicator_change(indicators_of(operand_word(given)), regs)
}
