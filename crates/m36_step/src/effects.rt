//! The effect of an instruction, given its operand.

ghost use Rattle.std.specs.Prelude.{◌≡◌, ◌≢◌, ◌<◌, Ok, IfOk, IsTrue};
ghost use Rattle.m36_inst.specs.Groups.{is_pointer_instruction, is_control_instruction};
ghost use Rattle.m36_inst.specs.Operands.{operand_of};
ghost use Rattle.m36_inst.specs.declared.operand.Operand.TheVariants.{N};
ghost use Rattle.m36_model.specs.Chain.{chain_end_fields};
ghost use Rattle.m36_model.specs.Effect.{exec, refused_here};
ghost use Rattle.m36_model.specs.OperandHeld.{HoldsFor};
ghost use Rattle.m36_model.specs.Results.{OperandFields, operand_fields, words_of_held};
ghost use Rattle.m36_model.specs.Step.{with_tally, with_chain_tally};
ghost use Rattle.m36_model.specs.Transfers.{is_taken};
ghost use Rattle.m36_model.specs.WordsPut.{PutsFor};
ghost use Rattle.m36_xdata.specs.Changes.{LeavesEffect};
ghost use Rattle.m36_xfer.specs.ControlInstructions.{is_transfer};

use m36_inst::{Effect, Row};
use m36_model::{Fault, Final, Formed, Held, Operand36, Regs};

/// The registers with the tally runout indicator that the tally word has set.
fn with_runout(regs: &Regs, runout: bool) -> Regs
    ensures { result ≡ with_tally runout regs.now }
{
    let mut after = *regs;
    after.ind.tally = runout;
    after
}

/// Whether an instruction is a pointer register instruction.
fn is_pointer_instruction(effect: Effect) -> bool
    ensures { result ≡ is_pointer_instruction effect }
{
    matches!(
        effect,
        Effect::EppN
            | Effect::EpbpN
            | Effect::SpriN
            | Effect::SpbpN
            | Effect::Spri
            | Effect::Lpri
            | Effect::LprpN
            | Effect::Epaq
            | Effect::Stcd
    )
}

/// Whether an instruction is a control instruction, or a privileged instruction with an address.
fn is_control_instruction(effect: Effect) -> bool
    ensures { result ≡ is_control_instruction effect }
{
    matches!(
        effect,
        Effect::Tra
            | Effect::Tze
            | Effect::Tnz
            | Effect::Tmi
            | Effect::Tpl
            | Effect::Trc
            | Effect::Tnc
            | Effect::Tmoz
            | Effect::Tpnz
            | Effect::Tov
            | Effect::Ttf
            | Effect::TsxN
            | Effect::TspN
            | Effect::Call6
            | Effect::Rtcd
            | Effect::Nop
            | Effect::Ldbr
            | Effect::Sdbr
            | Effect::Cams
            | Effect::Camp
            | Effect::Absa
    )
}

/// Executes a pointer register instruction in the registers.
fn execute_pointer(
    row: &Row,
    regs: &mut Regs,
    last: &Final,
    operand: &Operand36,
    put: &mut Held,
) -> Result<bool, Fault>
    requires group { IsTrue (is_pointer_instruction row.now.effect) }
    requires reg { row.now.reg < 8 }
    requires got { HoldsFor (operand_of row.now.effect) operand.now.got }
    ensures value { LeavesEffect regs.old regs.new put.new result
        (refused_here regs.old
        (exec row.now.effect row.now.reg regs.old last.now (operand_fields operand.now))) }
    ensures put { IfOk result (λ o. PutsFor (operand_of row.now.effect) (words_of_held put.new)) }
{
    match m36_xptr::exec(row, regs, last, *operand) {
        Ok(effect) => {
            *regs = effect.regs;
            *put = effect.put;
            Ok(effect.overflow)
        }
        Err(fault) => Err(fault),
    }
}

/// Executes a transfer that changes only the address of the next instruction. It is separate from
/// `execute_control`, whose result contains all registers and would be copied.
fn execute_transfer(row: &Row, regs: &mut Regs, last: &Final, put: &mut Held) -> bool
    requires group { IsTrue (is_transfer row.now.effect) }
    ensures value { (o : OperandFields)
        → Ok (record { regs = regs.new; put = words_of_held put.new; overflow = result })
        ≡ refused_here regs.old (exec row.now.effect row.now.reg regs.old last.now o) }
    ensures put { PutsFor (operand_of row.now.effect) (words_of_held put.new) }
{
    let taken = m36_xfer::is_taken(row.effect, regs);
    m36_xfer::transfer(row.effect, taken, regs, last);
    *put = Held::Empty;
    false
}

/// Executes a control instruction in the registers.
fn execute_control(
    row: &Row,
    regs: &mut Regs,
    last: &Final,
    operand: &Operand36,
    put: &mut Held,
) -> Result<bool, Fault>
    requires group { IsTrue (is_control_instruction row.now.effect) }
    requires reg { row.now.reg < 8 }
    requires got { HoldsFor (operand_of row.now.effect) operand.now.got }
    ensures value { LeavesEffect regs.old regs.new put.new result
        (refused_here regs.old
        (exec row.now.effect row.now.reg regs.old last.now (operand_fields operand.now))) }
    ensures put { IfOk result (λ o. PutsFor (operand_of row.now.effect) (words_of_held put.new)) }
{
    match m36_xfer::exec(row, regs, last, *operand) {
        Ok(effect) => {
            *regs = effect.regs;
            *put = effect.put;
            Ok(effect.overflow)
        }
        Err(fault) => Err(fault),
    }
}

/// Executes an instruction with an address in the registers.
#[tactic(auto, using(crate::proofs::Groups::data_else))]
fn execute(
    row: &Row,
    regs: &mut Regs,
    last: &Final,
    operand: &Operand36,
    put: &mut Held,
) -> Result<bool, Fault>
    requires addressed { operand_of row.now.effect ≢ N }
    requires reg { row.now.reg < 8 }
    requires got { HoldsFor (operand_of row.now.effect) operand.now.got }
    ensures value { LeavesEffect regs.old regs.new put.new result
        (refused_here regs.old
        (exec row.now.effect row.now.reg regs.old last.now (operand_fields operand.now))) }
    ensures put { IfOk result (λ o. PutsFor (operand_of row.now.effect) (words_of_held put.new)) }
{
    if is_pointer_instruction(row.effect) {
        return execute_pointer(row, regs, last, operand, put);
    }
    if m36_xfer::is_transfer(row.effect) {
        return Ok(execute_transfer(row, regs, last, put));
    }
    if is_control_instruction(row.effect) {
        return execute_control(row, regs, last, operand, put);
    }
    m36_xdata::exec_in_place(row, regs, last, operand, put)
}

/// Executes an instruction with an address in the registers. If the address has counted a tally
/// word, the instruction sees the tally runout that this has set. A refusal changes no register.
#[tactic(auto, unfolding(m36_model::specs::Step::with_chain_tally))]
pub(crate) fn execute_effect(
    row: &Row,
    regs: &mut Regs,
    formed: &Formed,
    operand: &Operand36,
    put: &mut Held,
) -> Result<bool, Fault>
    requires addressed { operand_of row.now.effect ≢ N }
    requires reg { row.now.reg < 8 }
    requires got { HoldsFor (operand_of row.now.effect) operand.now.got }
    ensures value { LeavesEffect regs.old regs.new put.new result
        (refused_here regs.old
        (exec row.now.effect row.now.reg (with_chain_tally regs.old (chain_end_fields formed.now))
        formed.now.last (operand_fields operand.now))) }
    ensures put { IfOk result (λ o. PutsFor (operand_of row.now.effect) (words_of_held put.new)) }
{
    match formed.tally {
        None => execute(row, regs, &formed.last, operand, put),
        Some(tally) => {
            let mut after = with_runout(regs, tally.runout);
            match execute(row, &mut after, &formed.last, operand, put) {
                Ok(overflow) => {
                    *regs = after;
                    Ok(overflow)
                }
                Err(fault) => Err(fault),
            }
        }
    }
}

/// Whether a transfer is taken, if tally runout is as the tally word of its address has set it.
#[tactic(auto, unfolding(m36_model::specs::Step::with_chain_tally))]
pub(crate) fn is_taken(row: &Row, regs: &Regs, formed: &Formed) -> bool
    ensures { result ≡ is_taken row.now.effect
        (with_chain_tally regs.now (chain_end_fields formed.now)) }
{
    match formed.tally {
        None => m36_xfer::is_taken(row.effect, regs),
        Some(tally) => m36_xfer::is_taken(row.effect, &with_runout(regs, tally.runout)),
    }
}
