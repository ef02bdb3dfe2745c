//! Additions, subtractions and negations that are not among the frequent instructions.

ghost use Rattle.std.specs.Prelude.{◌≡◌, ◌*◌, ◌^◌, ◌<◌, IsTrue, length};
ghost use Rattle.m36_model.specs.OperandHeld.{is_word};
ghost use Rattle.m36_model.specs.Results.{AQ, half, operand, operand_fields, word};
ghost use Rattle.m36_model.specs.Sums.{into_register, into_register_logical, into_operand, add};
ghost use Rattle.m36_model.specs.Sums.{add_logical, add_with_carry, sign_extended, subtract};
ghost use Rattle.m36_model.specs.Sums.{subtract_logical, subtract_with_carry};
ghost use Rattle.m36_model.specs.Sums.{add_to_storage, subtract_stored, negate};
ghost use Rattle.m36_xdata.specs.Registers.{working_of, HasValidIndex, HoldsNumber, PutsNumber};
ghost use Rattle.m36_xdata.specs.Results.{sum_fields};
ghost use Rattle.m36_xdata.specs.Changes.{IsEffect, words_to_write};

use crate::changes::Change;
use crate::conditions::{
    set_zero_negative_carry, set_zero_negative_carry_overflow, set_zero_negative_overflow,
};
use crate::numbers::{Computed, difference, negation, sum};
use crate::operands::{operand_number, operand_word};
use crate::registers::{Register, indicators, number_in};
use crate::results::{operand_change, register_change};
use m36_model::{Operand36, Regs};
use m36_word::Word;

// The carry indicator.
fn carry(regs: &Regs) -> bool
    ensures { result ≡ regs.now.ind.carry }
{
    regs.ind.carry
}

// A register takes a result; zero, negative, carry and overflow are set, and overflow is reported.
#[tactic(auto, unfolding(m36_model::specs::Sums::into_register))]
fn into_register(r: Register, s: Computed, regs: &Regs) -> Change
    requires register { HasValidIndex r }
    requires number { s.value < 2 * half (working_of r) }
    ensures value { IsEffect result regs.now
        (into_register (working_of r) (sum_fields s) regs.now) }
    ensures put { length (words_to_write result.put) ≡ 0 }
{
    register_change(
        r,
        s.value,
        set_zero_negative_carry_overflow(s, indicators(regs)),
        s.overflow,
        regs,
    )
}

// A register takes a result; zero, negative and carry are set, and overflow is ignored.
#[tactic(auto, unfolding(m36_model::specs::Sums::into_register_logical))]
fn into_register_logical(r: Register, s: Computed, regs: &Regs) -> Change
    requires register { HasValidIndex r }
    requires number { s.value < 2 * half (working_of r) }
    ensures value { IsEffect result regs.now
        (into_register_logical (working_of r) (sum_fields s) regs.now) }
    ensures put { length (words_to_write result.put) ≡ 0 }
{
    register_change(
        r,
        s.value,
        set_zero_negative_carry(s, indicators(regs)),
        false,
        regs,
    )
}

// As `into_register`, but the result is written into the operand.
#[tactic(auto, unfolding(m36_model::specs::Sums::into_operand))]
fn into_operand(r: Register, s: Computed, regs: &Regs) -> Change
    requires { s.value < 2 * half (working_of r) }
    ensures value { IsEffect result regs.now (into_operand (working_of r) (sum_fields s) regs.now) }
    ensures put { PutsNumber r (words_to_write result.put) }
{
    operand_change(
        r,
        s.value,
        set_zero_negative_carry_overflow(s, indicators(regs)),
        s.overflow,
        regs,
    )
}

// Register plus this number, into the register.
#[tactic(auto, unfolding(m36_model::specs::Sums::add))]
fn add_number(r: Register, v: u128, regs: &Regs) -> Change
    requires register { HasValidIndex r }
    requires number { v < 2 * half (working_of r) }
    ensures value { IsEffect result regs.now (add (working_of r) v regs.now) }
    ensures put { length (words_to_write result.put) ≡ 0 }
{
    into_register(r, sum(r, number_in(r, regs), v, false), regs)
}

/// ADX: register plus operand, into the register.
pub fn add(r: Register, given: &Operand36, regs: &Regs) -> Change
    requires register { HasValidIndex r }
    requires got { HoldsNumber r given.now.got }
    ensures value { IsEffect result regs.now
        (add (working_of r) (operand (working_of r) (operand_fields given.now)) regs.now) }
    ensures put { length (words_to_write result.put) ≡ 0 }
{
    add_number(r, operand_number(r, given), regs)
}

// A word as a number of 72 bits, with its sign extended.
#[tactic(auto, unfolding(m36_model::specs::Sums::sign_extended))]
fn sign_extended(w: Word) -> u128
    ensures value { result ≡ sign_extended w }
    ensures bound { result < 2 ^ 72 }
{
    let v = w.value() as u128;
    if v < 1 << 35 {
        v
    } else {
        v + ((1 << 72) - (1 << 36))
    }
}

/// ADL: AQ plus the word with its sign extended, into AQ.
pub fn add_low(given: &Operand36, regs: &Regs) -> Change
    requires { IsTrue (is_word given.now.got) }
    ensures value { IsEffect result regs.now
        (add AQ (sign_extended (word (operand_fields given.now))) regs.now) }
    ensures put { length (words_to_write result.put) ≡ 0 }
{
    add_number(Register::Aq, sign_extended(operand_word(given)), regs)
}

/// ADLA, ADLQ, ADLAQ, ADLX: register plus operand, into the register, without overflow.
#[tactic(auto, unfolding(m36_model::specs::Sums::add_logical))]
pub fn add_logical(r: Register, given: &Operand36, regs: &Regs) -> Change
    requires register { HasValidIndex r }
    requires got { HoldsNumber r given.now.got }
    ensures value { IsEffect result regs.now
        (add_logical (working_of r) (operand (working_of r) (operand_fields given.now)) regs.now) }
    ensures put { length (words_to_write result.put) ≡ 0 }
{
    into_register_logical(
        r,
        sum(r, number_in(r, regs), operand_number(r, given), false),
        regs,
    )
}

/// AWCA, AWCQ: register plus operand, plus 1 if carry is on, into the register.
#[tactic(auto, unfolding(m36_model::specs::Sums::add_with_carry))]
pub fn add_with_carry(r: Register, given: &Operand36, regs: &Regs) -> Change
    requires register { HasValidIndex r }
    requires got { HoldsNumber r given.now.got }
    ensures value { IsEffect result regs.now
        (add_with_carry (working_of r) (operand (working_of r) (operand_fields given.now))
        regs.now) }
    ensures put { length (words_to_write result.put) ≡ 0 }
{
    into_register(
        r,
        sum(r, number_in(r, regs), operand_number(r, given), carry(regs)),
        regs,
    )
}

/// SBX: register minus operand, into the register.
#[tactic(auto, unfolding(m36_model::specs::Sums::subtract))]
pub fn subtract(r: Register, given: &Operand36, regs: &Regs) -> Change
    requires register { HasValidIndex r }
    requires got { HoldsNumber r given.now.got }
    ensures value { IsEffect result regs.now
        (subtract (working_of r) (operand (working_of r) (operand_fields given.now)) regs.now) }
    ensures put { length (words_to_write result.put) ≡ 0 }
{
    into_register(
        r,
        difference(r, number_in(r, regs), operand_number(r, given), false),
        regs,
    )
}

/// SBLA, SBLQ, SBLAQ, SBLX: register minus operand, into the register, without overflow.
#[tactic(auto, unfolding(m36_model::specs::Sums::subtract_logical))]
pub fn subtract_logical(r: Register, given: &Operand36, regs: &Regs) -> Change
    requires register { HasValidIndex r }
    requires got { HoldsNumber r given.now.got }
    ensures value { IsEffect result regs.now
        (subtract_logical (working_of r) (operand (working_of r) (operand_fields given.now))
        regs.now) }
    ensures put { length (words_to_write result.put) ≡ 0 }
{
    into_register_logical(
        r,
        difference(r, number_in(r, regs), operand_number(r, given), false),
        regs,
    )
}

/// SWCA, SWCQ: register minus operand, minus 1 if carry is off, into the register.
#[tactic(auto, unfolding(m36_model::specs::Sums::subtract_with_carry))]
pub fn subtract_with_carry(r: Register, given: &Operand36, regs: &Regs) -> Change
    requires register { HasValidIndex r }
    requires got { HoldsNumber r given.now.got }
    ensures value { IsEffect result regs.now
        (subtract_with_carry (working_of r) (operand (working_of r) (operand_fields given.now))
        regs.now) }
    ensures put { length (words_to_write result.put) ≡ 0 }
{
    into_register(
        r,
        difference(
            r,
            number_in(r, regs),
            operand_number(r, given),
            !carry(regs),
        ),
        regs,
    )
}

/// ASX: register plus operand, into the operand.
#[tactic(auto, unfolding(m36_model::specs::Sums::add_to_storage))]
pub fn add_to_storage(r: Register, given: &Operand36, regs: &Regs) -> Change
    requires register { HasValidIndex r }
    requires got { HoldsNumber r given.now.got }
    ensures value { IsEffect result regs.now
        (add_to_storage (working_of r) (operand (working_of r) (operand_fields given.now))
        regs.now) }
    ensures put { PutsNumber r (words_to_write result.put) }
{
    into_operand(
        r,
        sum(r, number_in(r, regs), operand_number(r, given), false),
        regs,
    )
}

/// SSA, SSQ, SSX: register minus operand, into the operand.
#[tactic(auto, unfolding(m36_model::specs::Sums::subtract_stored))]
pub fn subtract_stored(r: Register, given: &Operand36, regs: &Regs) -> Change
    requires register { HasValidIndex r }
    requires got { HoldsNumber r given.now.got }
    ensures value { IsEffect result regs.now
        (subtract_stored (working_of r) (operand (working_of r) (operand_fields given.now))
        regs.now) }
    ensures put { PutsNumber r (words_to_write result.put) }
{
    into_operand(
        r,
        difference(r, number_in(r, regs), operand_number(r, given), false),
        regs,
    )
}

/// NEG, NEGL: the negative of the register, into the register.
#[tactic(auto, unfolding(m36_model::specs::Sums::negate))]
pub fn negate(r: Register, regs: &Regs) -> Change
    requires { HasValidIndex r }
    ensures value { IsEffect result regs.now (negate (working_of r) regs.now) }
    ensures put { length (words_to_write result.put) ≡ 0 }
{
    let s = negation(r, number_in(r, regs));
    register_change(
        r,
        s.value,
        set_zero_negative_overflow(s, indicators(regs)),
        s.overflow,
        regs,
    )
}
