//! Dispatch: which function executes which instruction.

ghost use Rattle.std.specs.Prelude.{◌≡◌, ◌<◌, IsTrue, IfOk};
ghost use Rattle.m36_inst.specs.Groups.{is_pointer_instruction};
ghost use Rattle.m36_inst.specs.Operands.{operand_of};
ghost use Rattle.m36_model.specs.OperandHeld.{HoldsFor};
ghost use Rattle.m36_model.specs.Results.{operand_fields, words_of_held};
ghost use Rattle.m36_model.specs.WordsPut.{PutsFor};
ghost use Rattle.m36_model.specs.Effect.{exec, answer_fields, refused_here};

use crate::loads::{
    load_address_pair, load_base_pointer, load_packed, load_pointer, load_pointers,
};
use crate::stores::{store_base_pointer, store_control, store_pointer, store_pointers};
use m36_inst::{Effect, Row};
use m36_model::{Effect36, Fault, Final, Operand36, Regs};

/// The effect of a pointer register instruction on these registers, given the final address and
/// the operand: the new registers and the words to write. The operand has the words that the
/// instruction reads.
///
/// # Errors
///
/// Fault 5, command, at the instruction: the word of LPRP is not a packed pointer.
pub fn exec(row: &Row, regs: &Regs, f: &Final, operand: Operand36) -> Result<Effect36, Fault>
    requires pointer { IsTrue (is_pointer_instruction row.now.effect) }
    requires reg { row.now.reg < 8 }
    requires got { HoldsFor (operand_of row.now.effect) operand.got }
    ensures value { answer_fields result
        ≡ refused_here regs.now
        (exec row.now.effect row.now.reg regs.now f.now (operand_fields operand)) }
    ensures put { IfOk result (λ e. PutsFor (operand_of row.now.effect) (words_of_held e.put)) }
{
    dispatch(row, regs, f, operand)
}

/// One function for each effect.
#[tactic(auto, unfolding(m36_model::specs::Effect::exec))]
fn dispatch(row: &Row, regs: &Regs, f: &Final, operand: Operand36) -> Result<Effect36, Fault>
    requires pointer { IsTrue (is_pointer_instruction row.now.effect) }
    requires reg { row.now.reg < 8 }
    requires got { HoldsFor (operand_of row.now.effect) operand.got }
    ensures { answer_fields result
        ≡ refused_here regs.now
        (exec row.now.effect row.now.reg regs.now f.now (operand_fields operand)) }
{
    match row.effect {
        Effect::EppN => Ok(load_pointer(regs, row.reg, f)),
        Effect::EpbpN => Ok(load_base_pointer(regs, row.reg, f)),
        Effect::SpriN => Ok(store_pointer(regs, row.reg)),
        Effect::SpbpN => Ok(store_base_pointer(regs, row.reg)),
        Effect::Spri => Ok(store_pointers(regs)),
        Effect::Lpri => Ok(load_pointers(regs, f, &operand)),
        Effect::LprpN => load_packed(regs, row.reg, f, operand.got.word()),
        Effect::Epaq => Ok(load_address_pair(regs, f)),
        Effect::Stcd => Ok(store_control(regs)),
        _ => unreachable!(),
    }
}
