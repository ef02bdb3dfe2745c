//! Boolean instructions on index registers and on storage.

ghost use Rattle.std.specs.Prelude.{◌≡◌, ◌*◌, ◌<◌, length};
ghost use Rattle.m36_model.specs.Results.{half, operand, operand_fields};
ghost use Rattle.m36_model.specs.Logic.{bits_into_operand, and_register, or_register, xor_register};
ghost use Rattle.m36_model.specs.Logic.{and_storage, or_storage, xor_storage};
ghost use Rattle.m36_xdata.specs.Registers.{working_of, HasValidIndex, HoldsNumber, PutsNumber};
ghost use Rattle.m36_xdata.specs.Changes.{IsEffect, words_to_write};

use crate::bits::{and_bits, or_bits, xor_bits};
use crate::changes::Change;
use crate::conditions::set_zero_negative;
use crate::operands::operand_number;
use crate::registers::{Register, indicators, number_in};
use crate::results::{operand_change, tested_register_change};
use m36_model::{Operand36, Regs};

/// ANX: register AND operand, into the register.
#[tactic(auto, unfolding(m36_model::specs::Logic::and_register))]
pub fn and_register(r: Register, given: &Operand36, regs: &Regs) -> Change
    requires register { HasValidIndex r }
    requires got { HoldsNumber r given.now.got }
    ensures value { IsEffect result regs.now
        (and_register (working_of r) (operand (working_of r) (operand_fields given.now)) regs.now) }
    ensures put { length (words_to_write result.put) ≡ 0 }
{
    tested_register_change(
        r,
        and_bits(r, number_in(r, regs), operand_number(r, given)),
        regs,
    )
}

/// ORX: register OR operand, into the register.
#[tactic(auto, unfolding(m36_model::specs::Logic::or_register))]
pub fn or_register(r: Register, given: &Operand36, regs: &Regs) -> Change
    requires register { HasValidIndex r }
    requires got { HoldsNumber r given.now.got }
    ensures value { IsEffect result regs.now
        (or_register (working_of r) (operand (working_of r) (operand_fields given.now)) regs.now) }
    ensures put { length (words_to_write result.put) ≡ 0 }
{
    tested_register_change(
        r,
        or_bits(r, number_in(r, regs), operand_number(r, given)),
        regs,
    )
}

/// ERX: register XOR operand, into the register.
#[tactic(auto, unfolding(m36_model::specs::Logic::xor_register))]
pub fn xor_register(r: Register, given: &Operand36, regs: &Regs) -> Change
    requires register { HasValidIndex r }
    requires got { HoldsNumber r given.now.got }
    ensures value { IsEffect result regs.now
        (xor_register (working_of r) (operand (working_of r) (operand_fields given.now)) regs.now) }
    ensures put { length (words_to_write result.put) ≡ 0 }
{
    tested_register_change(
        r,
        xor_bits(r, number_in(r, regs), operand_number(r, given)),
        regs,
    )
}

/// Writes a number of the register's width into the operand, and sets zero and negative for it.
fn bits_into_operand(r: Register, v: u128, regs: &Regs) -> Change
    requires { v < 2 * half (working_of r) }
    ensures value { IsEffect result regs.now (bits_into_operand (working_of r) v regs.now) }
    ensures put { PutsNumber r (words_to_write result.put) }
{
    operand_change(r, v, set_zero_negative(r, v, indicators(regs)), false, regs)
}

/// ANSA, ANSQ, ANSX: register AND operand, into the operand.
#[tactic(auto, unfolding(m36_model::specs::Logic::and_storage))]
pub fn and_storage(r: Register, given: &Operand36, regs: &Regs) -> Change
    requires register { HasValidIndex r }
    requires got { HoldsNumber r given.now.got }
    ensures value { IsEffect result regs.now
        (and_storage (working_of r) (operand (working_of r) (operand_fields given.now)) regs.now) }
    ensures put { PutsNumber r (words_to_write result.put) }
{
    bits_into_operand(
        r,
        and_bits(r, number_in(r, regs), operand_number(r, given)),
        regs,
    )
}

/// ORSA, ORSQ, ORSX: register OR operand, into the operand.
#[tactic(auto, unfolding(m36_model::specs::Logic::or_storage))]
pub fn or_storage(r: Register, given: &Operand36, regs: &Regs) -> Change
    requires register { HasValidIndex r }
    requires got { HoldsNumber r given.now.got }
    ensures value { IsEffect result regs.now
        (or_storage (working_of r) (operand (working_of r) (operand_fields given.now)) regs.now) }
    ensures put { PutsNumber r (words_to_write result.put) }
{
    bits_into_operand(
        r,
        or_bits(r, number_in(r, regs), operand_number(r, given)),
        regs,
    )
}

/// ERSA, ERSQ, ERSX: register XOR operand, into the operand.
#[tactic(auto, unfolding(m36_model::specs::Logic::xor_storage))]
pub fn xor_storage(r: Register, given: &Operand36, regs: &Regs) -> Change
    requires register { HasValidIndex r }
    requires got { HoldsNumber r given.now.got }
    ensures value { IsEffect result regs.now
        (xor_storage (working_of r) (operand (working_of r) (operand_fields given.now)) regs.now) }
    ensures put { PutsNumber r (words_to_write result.put) }
{
    bits_into_operand(
        r,
        xor_bits(r, number_in(r, regs), operand_number(r, given)),
        regs,
    )
}
