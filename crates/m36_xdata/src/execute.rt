//! Dispatch: which function executes which instruction.

ghost use Rattle.std.specs.Prelude.{◌≡◌, ◌<◌, IsTrue, IfOk};
ghost use Rattle.m36_inst.specs.Groups.{is_data_instruction};
ghost use Rattle.m36_inst.specs.Operands.{operand_of};
ghost use Rattle.m36_inst.specs.Quick.{group_of};
ghost use Rattle.m36_inst.specs.declared.rows.Group.TheVariants as group;
ghost use Rattle.m36_model.specs.Fields.{FinalFields};
ghost use Rattle.m36_model.specs.OperandHeld.{HoldsFor};
ghost use Rattle.m36_model.specs.Results.{operand_fields, words_of_held};
ghost use Rattle.m36_model.specs.Effect.{exec, answer_fields, refused_here};
ghost use Rattle.m36_xdata.specs.Changes.{IsEffect, LeavesEffect, words_to_write};
ghost use Rattle.m36_xdata.specs.DataInstructions.{is_never_refused};
ghost use Rattle.m36_model.specs.WordsPut.{PutsFor};

use crate::apply::apply_change;
use crate::changes::Change;
use crate::compares::{compare, compare_masked, test_and, test_and_clear, test_and_not};
use crate::loads::{load_and_clear, load_complement, load_indicators};
use crate::logic::{and_register, and_storage, or_register, or_storage, xor_register, xor_storage};
use crate::products::{divide, multiply};
use crate::registers::Register;
use crate::stores::{store_if_equal, store_if_zero, store_indicators};
use crate::sums::{
    add, add_logical, add_low, add_to_storage, add_with_carry, negate, subtract, subtract_logical,
    subtract_stored, subtract_with_carry,
};
use m36_fastpath::{
    change_word_with_overflow, load_address, read_pair_with_overflow, read_word_with_overflow,
    shift, store_half, store_pair, store_word,
};
use m36_inst::{Effect, Row};
use m36_model::{Effect36, Fault, Final, Held, Operand36, Regs};

/// The change of an instruction that is not frequent and is never refused.
#[tactic(auto, unfolding(m36_model::specs::Effect::exec))]
fn change_of_instruction(row: &Row, regs: &Regs, given: &Operand36) -> Change
    requires data { IsTrue (is_data_instruction row.now.effect) }
    requires rare { group_of row.now.effect ≡ group.Other }
    requires whole { IsTrue (is_never_refused row.now.effect) }
    requires reg { row.now.reg < 8 }
    requires got { HoldsFor (operand_of row.now.effect) given.now.got }
    ensures value { (f : FinalFields) → IsEffect result regs.now
        (exec row.now.effect row.now.reg regs.now f (operand_fields given.now)) }
    ensures put { PutsFor (operand_of row.now.effect) (words_to_write result.put) }
{
    match row.effect {
        Effect::Lca => load_complement(Register::A, given, regs),
        Effect::Lcq => load_complement(Register::Q, given, regs),
        Effect::Lcaq => load_complement(Register::Aq, given, regs),
        Effect::LcxN => load_complement(Register::X(row.reg), given, regs),
        Effect::Ldac => load_and_clear(Register::A, given, regs),
        Effect::Ldqc => load_and_clear(Register::Q, given, regs),
        Effect::Ldi => load_indicators(given, regs),
        Effect::Sti => store_indicators(regs),
        Effect::AdxN => add(Register::X(row.reg), given, regs),
        Effect::Adl => add_low(given, regs),
        Effect::Adla => add_logical(Register::A, given, regs),
        Effect::Adlq => add_logical(Register::Q, given, regs),
        Effect::Adlaq => add_logical(Register::Aq, given, regs),
        Effect::AdlxN => add_logical(Register::X(row.reg), given, regs),
        Effect::Awca => add_with_carry(Register::A, given, regs),
        Effect::Awcq => add_with_carry(Register::Q, given, regs),
        Effect::SbxN => subtract(Register::X(row.reg), given, regs),
        Effect::Sbla => subtract_logical(Register::A, given, regs),
        Effect::Sblq => subtract_logical(Register::Q, given, regs),
        Effect::Sblaq => subtract_logical(Register::Aq, given, regs),
        Effect::SblxN => subtract_logical(Register::X(row.reg), given, regs),
        Effect::Swca => subtract_with_carry(Register::A, given, regs),
        Effect::Swcq => subtract_with_carry(Register::Q, given, regs),
        Effect::Ssa => subtract_stored(Register::A, given, regs),
        Effect::Ssq => subtract_stored(Register::Q, given, regs),
        Effect::AsxN => add_to_storage(Register::X(row.reg), given, regs),
        Effect::SsxN => subtract_stored(Register::X(row.reg), given, regs),
        Effect::Neg => negate(Register::A, regs),
        Effect::Negl => negate(Register::Aq, regs),
        Effect::Mpy => multiply(given, regs),
        Effect::CmpxN => compare(Register::X(row.reg), given, regs),
        Effect::Sznc => test_and_clear(given, regs),
        Effect::Cmk => compare_masked(given, regs),
        Effect::Cana => test_and(Register::A, given, regs),
        Effect::Canq => test_and(Register::Q, given, regs),
        Effect::Canaq => test_and(Register::Aq, given, regs),
        Effect::CanxN => test_and(Register::X(row.reg), given, regs),
        Effect::Cnaa => test_and_not(Register::A, given, regs),
        Effect::Cnaq => test_and_not(Register::Q, given, regs),
        Effect::Cnaaq => test_and_not(Register::Aq, given, regs),
        Effect::CnaxN => test_and_not(Register::X(row.reg), given, regs),
        Effect::AnxN => and_register(Register::X(row.reg), given, regs),
        Effect::OrxN => or_register(Register::X(row.reg), given, regs),
        Effect::ErxN => xor_register(Register::X(row.reg), given, regs),
        Effect::Ansa => and_storage(Register::A, given, regs),
        Effect::Ansq => and_storage(Register::Q, given, regs),
        Effect::Orsa => or_storage(Register::A, given, regs),
        Effect::Orsq => or_storage(Register::Q, given, regs),
        Effect::Ersa => xor_storage(Register::A, given, regs),
        Effect::Ersq => xor_storage(Register::Q, given, regs),
        Effect::AnsxN => and_storage(Register::X(row.reg), given, regs),
        Effect::OrsxN => or_storage(Register::X(row.reg), given, regs),
        Effect::ErsxN => xor_storage(Register::X(row.reg), given, regs),
        Effect::Stac => store_if_zero(given, regs),
        Effect::Stacq => store_if_equal(given, regs),
        _ => unreachable!(),
    }
}

/// Executes a data instruction in the registers, given the final address and the operand. The
/// operand has the words that the instruction reads. The words to write are put into `put`.
/// Returns whether overflow has to be reported.
///
/// # Errors
///
/// Fault 14, divide check, at the instruction: the divisor of DIV is 0, or its quotient does not
/// fit. The registers are unchanged.
#[tactic(auto, unfolding(m36_model::specs::Effect::exec))]
pub fn exec_in_place(
    row: &Row,
    regs: &mut Regs,
    f: &Final,
    operand: &Operand36,
    put: &mut Held,
) -> Result<bool, Fault>
    requires data { IsTrue (is_data_instruction row.now.effect) }
    requires reg { row.now.reg < 8 }
    requires got { HoldsFor (operand_of row.now.effect) operand.now.got }
    ensures value { LeavesEffect regs.old regs.new put.new result
        (refused_here regs.old
        (exec row.now.effect row.now.reg regs.old f.now (operand_fields operand.now))) }
    ensures put { IfOk result (λ o. PutsFor (operand_of row.now.effect) (words_of_held put.new)) }
    ensures dbr { regs.new.dbr ≡ regs.old.dbr }
{
    let effect = row.effect;
    match effect {
        Effect::Lda
        | Effect::Ldq
        | Effect::LdxN
        | Effect::LxlN
        | Effect::Ada
        | Effect::Adq
        | Effect::Sba
        | Effect::Sbq
        | Effect::Cmpa
        | Effect::Cmpq
        | Effect::Szn
        | Effect::Ana
        | Effect::Anq
        | Effect::Ora
        | Effect::Orq
        | Effect::Era
        | Effect::Erq => {
            *put = Held::Empty;
            Ok(read_word_with_overflow(effect, row.reg, regs, operand.got.word()))
        }
        Effect::Ldaq
        | Effect::Adaq
        | Effect::Sbaq
        | Effect::Cmpaq
        | Effect::Anaq
        | Effect::Oraq
        | Effect::Eraq => {
            *put = Held::Empty;
            Ok(read_pair_with_overflow(effect, regs, operand.got.pair()))
        }
        Effect::Aos | Effect::Asa | Effect::Asq => {
            let sum = change_word_with_overflow(effect, regs, operand.got.word());
            *put = Held::One(sum.value);
            Ok(sum.overflow)
        }
        Effect::Sta | Effect::Stq | Effect::Stz => {
            *put = Held::One(store_word(effect, regs));
            Ok(false)
        }
        Effect::StxN | Effect::SxlN => {
            *put = Held::One(store_half(effect, row.reg, regs));
            Ok(false)
        }
        Effect::Staq => {
            *put = Held::Two(store_pair(effect, regs));
            Ok(false)
        }
        Effect::Eaa | Effect::Eaq | Effect::EaxN => {
            *put = Held::Empty;
            load_address(effect, row.reg, regs, f);
            Ok(false)
        }
        Effect::Als
        | Effect::Qls
        | Effect::Lls
        | Effect::Ars
        | Effect::Qrs
        | Effect::Lrs
        | Effect::Arl
        | Effect::Qrl
        | Effect::Lrl
        | Effect::Alr
        | Effect::Qlr
        | Effect::Llr => {
            *put = Held::Empty;
            shift(effect, regs, f);
            Ok(false)
        }
        Effect::Div => match divide(operand, regs) {
            Ok(quotient) => Ok(apply_change(&quotient, regs, put)),
            Err(f) => Err(f),
        },
        _ => {
            let whole = change_of_instruction(row, regs, operand);
            Ok(apply_change(&whole, regs, put))
        }
    }
}

/// The effect of a data instruction on these registers, given the final address and the operand:
/// the new registers, the words to write, and whether overflow has to be reported. The operand has
/// the words that the instruction reads.
///
/// # Errors
///
/// Fault 14, divide check, at the instruction: the divisor of DIV is 0, or its quotient does not
/// fit.
pub fn exec(row: &Row, regs: &Regs, f: &Final, operand: Operand36) -> Result<Effect36, Fault>
    requires data { IsTrue (is_data_instruction row.now.effect) }
    requires reg { row.now.reg < 8 }
    requires got { HoldsFor (operand_of row.now.effect) operand.got }
    ensures value { answer_fields result
        ≡ refused_here regs.now
        (exec row.now.effect row.now.reg regs.now f.now (operand_fields operand)) }
    ensures put { IfOk result (λ e. PutsFor (operand_of row.now.effect) (words_of_held e.put)) }
{
    let mut after = *regs;
    let mut put = Held::Empty;
    match exec_in_place(row, &mut after, f, &operand, &mut put) {
        Ok(overflow) => Ok(Effect36 {
            regs: after,
            put,
            overflow,
        }),
        Err(f) => Err(f),
    }
}
