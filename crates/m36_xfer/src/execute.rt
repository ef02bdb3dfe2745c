//! Dispatch: which function executes which instruction.

ghost use Rattle.std.specs.Prelude.{◌≡◌, ◌<◌, IsTrue, IfOk};
ghost use Rattle.m36_inst.specs.Groups.{is_control_instruction};
ghost use Rattle.m36_inst.specs.Operands.{operand_of};
ghost use Rattle.m36_model.specs.OperandHeld.{HoldsFor};
ghost use Rattle.m36_model.specs.Results.{operand_fields, words_of_held};
ghost use Rattle.m36_model.specs.WordsPut.{PutsFor};
ghost use Rattle.m36_model.specs.Effect.{exec, answer_fields, refused_here};

use crate::calls::{call, return_to};
use crate::privileged::{load_absolute_address, load_dbr, store_dbr};
use crate::transfers::{
    is_taken, transfer_and_set_index, transfer_and_set_pointer, transfer_if, transfer_on_overflow,
};
use m36_inst::{Effect, Row};
use m36_model::{Effect36, Fault, Final, Operand36, Regs};

/// The effect of a control instruction on these registers, given the final address and the
/// operand: the new registers and the words to write. The operand has the words that the
/// instruction reads. No control instruction refuses its operand.
pub fn exec(row: &Row, regs: &Regs, f: &Final, operand: Operand36) -> Result<Effect36, Fault>
    requires control { IsTrue (is_control_instruction row.now.effect) }
    requires reg { row.now.reg < 8 }
    requires got { HoldsFor (operand_of row.now.effect) operand.got }
    ensures value { answer_fields result
        ≡ refused_here regs.now
        (exec row.now.effect row.now.reg regs.now f.now (operand_fields operand)) }
    ensures put { IfOk result (λ e. PutsFor (operand_of row.now.effect) (words_of_held e.put)) }
{
    dispatch(row, regs, f, operand)
}

/// One function for each effect.
#[tactic(auto, unfolding(m36_model::specs::Effect::exec))]
fn dispatch(row: &Row, regs: &Regs, f: &Final, operand: Operand36) -> Result<Effect36, Fault>
    requires control { IsTrue (is_control_instruction row.now.effect) }
    requires reg { row.now.reg < 8 }
    requires got { HoldsFor (operand_of row.now.effect) operand.got }
    ensures { answer_fields result
        ≡ refused_here regs.now
        (exec row.now.effect row.now.reg regs.now f.now (operand_fields operand)) }
{
    match row.effect {
        Effect::Tra
        | Effect::Tze
        | Effect::Tnz
        | Effect::Tmi
        | Effect::Tpl
        | Effect::Trc
        | Effect::Tnc
        | Effect::Tmoz
        | Effect::Tpnz
        | Effect::Ttf => Ok(transfer_if(is_taken(row.effect, regs), regs, f)),
        Effect::Tov => Ok(transfer_on_overflow(is_taken(row.effect, regs), regs, f)),
        Effect::TsxN => Ok(transfer_and_set_index(regs, row.reg, f)),
        Effect::TspN => Ok(transfer_and_set_pointer(regs, row.reg, f)),
        Effect::Call6 => Ok(call(regs, f, operand.ring)),
        Effect::Rtcd => Ok(return_to(regs, f, &operand)),
        Effect::Nop | Effect::Cams | Effect::Camp => Ok(Effect36::completed(*regs)),
        Effect::Ldbr => Ok(load_dbr(regs, &operand)),
        Effect::Sdbr => Ok(store_dbr(regs)),
        Effect::Absa => Ok(load_absolute_address(regs, &operand)),
        _ => unreachable!(),
    }
}
