//! The forms of most effects: a register takes a number, indicators are set, or words are written.

ghost use Rattle.std.specs.Prelude.{◌≡◌, ◌*◌, ◌<◌, [], length};
ghost use Rattle.m36_model.specs.Results.{half, words, with_value_and_indicators, with_indicators};
ghost use Rattle.m36_model.specs.Results.{with_value, sets_register};
ghost use Rattle.m36_model.specs.Results.{completes, completes_or_overflows};
ghost use Rattle.m36_xdata.specs.Registers.{working_of, HasValidIndex, PutsNumber};
ghost use Rattle.m36_xdata.specs.Changes.{IsEffect, words_to_write, with_new_values};

use crate::changes::{Change, NewIndex, NewValues, WordsToWrite};
use crate::conditions::set_zero_negative;
use crate::numbers::{pair, word};
use crate::operands::words_of_number;
use crate::registers::{Register, indicators};
use m36_model::{Ind, Regs};

/// The change of a register to a number.
#[tactic(auto, unfolding(m36_model::specs::Results::with_value))]
pub fn new_value(r: Register, v: u128, regs: &Regs) -> NewValues
    requires register { HasValidIndex r }
    requires number { v < 2 * half (working_of r) }
    ensures { with_new_values result regs.now ≡ with_value (working_of r) v regs.now }
{
    match r {
        Register::A => NewValues::A(word(v)),
        Register::Q => NewValues::Q(word(v)),
        Register::Aq => NewValues::Aq(pair(v)),
        Register::X(n) => NewValues::X(NewIndex { value: v as u32, n }),
    }
}

/// The change by which a register takes a number, with these new indicators. `overflow` says
/// whether overflow has to be reported.
pub fn register_change(r: Register, v: u128, ind: Ind, overflow: bool, regs: &Regs) -> Change
    requires register { HasValidIndex r }
    requires number { v < 2 * half (working_of r) }
    ensures value { IsEffect result regs.now
        (completes_or_overflows (with_value_and_indicators (working_of r) v ind regs.now) []
        overflow) }
    ensures put { length (words_to_write result.put) ≡ 0 }
{
    Change {
        taken: new_value(r, v, regs),
        put: WordsToWrite::Nothing,
        ind,
        overflow,
    }
}

/// The change by which a register takes a number, with zero and negative set for it.
pub fn tested_register_change(r: Register, v: u128, regs: &Regs) -> Change
    requires register { HasValidIndex r }
    requires number { v < 2 * half (working_of r) }
    ensures value { IsEffect result regs.now (sets_register (working_of r) v regs.now) }
    ensures put { length (words_to_write result.put) ≡ 0 }
{
    register_change(r, v, set_zero_negative(r, v, indicators(regs)), false, regs)
}

/// The change that sets these indicators and nothing else.
pub fn indicator_change(ind: Ind, regs: &Regs) -> Change
    ensures value { IsEffect result regs.now (completes (with_indicators ind regs.now)) }
    ensures put { length (words_to_write result.put) ≡ 0 }
{
    Change {
        taken: NewValues::Nothing,
        put: WordsToWrite::Nothing,
        ind,
        overflow: false,
    }
}

/// The change that writes a number of a register's width into the operand, with these new
/// indicators. `overflow` says whether overflow has to be reported.
pub fn operand_change(r: Register, v: u128, ind: Ind, overflow: bool, regs: &Regs) -> Change
    requires { v < 2 * half (working_of r) }
    ensures value { IsEffect result regs.now
        (completes_or_overflows (with_indicators ind regs.now) (words (working_of r) v) overflow) }
    ensures put { PutsNumber r (words_to_write result.put) }
{
    Change {
        taken: NewValues::Nothing,
        put: words_of_number(r, v),
        ind,
        overflow,
    }
}
