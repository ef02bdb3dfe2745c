//! Reaches the operand of an instruction, by its kind.

ghost use Rattle.std.specs.Prelude.{◌≡◌, ◌≢◌, ◌+◌, ◌<◌, ◌≤◌, ◌^◌, IfOk, length};
ghost use Rattle.m36_inst.specs.Lookup.{IsRow};
ghost use Rattle.m36_inst.specs.declared.operand.Operand.TheVariants.{N};
ghost use Rattle.m36_model.specs.Chain.{chain_end_fields};
ghost use Rattle.m36_model.specs.WordsPut.{words_written};
ghost use Rattle.m36_model.specs.OperandHeld.{HoldsFor};
ghost use Rattle.m36_model.specs.Step.{operate_by_kind};
ghost use Rattle.m36_walk.specs.Runs.{IsInCore};
ghost use Rattle.m36_step.specs.Operated.{run_after_address, run_of_operation};
ghost use Rattle.m36_step.specs.declared.operated.Part.TheVariants as part;
ghost use Rattle.m36_step.specs.Reached.{reached_end, part_for, IsDirectOperand};

use crate::effects::is_taken;
use crate::ended::fault_here;
use crate::operands::{
    fill_operand, nothing_to_write, reach_block, reach_changed, reach_pair, reach_word,
    reach_written,
};
use crate::operated::{Part, Reached};
use crate::targets::{reach_address, reach_call, reach_target};
use m36_inst::{Operand, Row};
use m36_model::{Fault, Formed, Held, Operand36, Refs, Regs};
use m36_walk::Walk;
use m36_word::Word;
use m36_xfer::is_absa;

/// Reaches an operand in a segment, or an address or a target.
fn reach_by_kind(
    walk: &mut Walk,
    regs: &Regs,
    row: &Row,
    formed: &Formed,
    refs: &mut Refs,
    operand: &mut Operand36,
) -> Result<Reached, Fault>
    requires dbr { walk.old.dbr ≡ regs.now.dbr }
    requires addressed { row.now.operand ≢ N }
    requires room { length refs.old.items + 1 < 40 }
    ensures reaches { run_after_address regs.now
        (operate_by_kind row.now.effect row.now.reg regs.now
        (chain_end_fields formed.now) row.now.operand)
        formed.now walk.old.core refs.old.items ≡ reached_end row.now.effect row.now.reg regs.now
        formed.now row.now.operand walk.new.core refs.new.items operand.new result }
    ensures got { IfOk result (λ u. HoldsFor row.now.operand operand.new.got) }
    ensures run { IfOk result
        (λ u. IsInCore (length walk.new.core) u.place (words_written row.now.operand)) }
    ensures place { IfOk result (λ u. u.place < 2 ^ 24) }
    ensures part { IfOk result (λ u. u.part ≡ part_for row.now.operand) }
    ensures dbr { walk.new.dbr ≡ walk.old.dbr }
    ensures len { length walk.new.core ≡ length walk.old.core }
    ensures count { length refs.new.items ≤ length refs.old.items + 2 }
{
    match row.operand {
        Operand::R => reach_word(walk, regs, formed, refs, operand),
        Operand::R2 => reach_pair(walk, regs, formed, refs, operand),
        Operand::R16 => reach_block(walk, regs, formed, refs, operand),
        Operand::W => reach_written(walk, regs, formed, 1, Part::Whole, refs, operand),
        Operand::W2 => reach_written(walk, regs, formed, 2, Part::Whole, refs, operand),
        Operand::W16 => reach_written(walk, regs, formed, 16, Part::Whole, refs, operand),
        Operand::Wl => reach_written(walk, regs, formed, 1, Part::Left, refs, operand),
        Operand::Wr => reach_written(walk, regs, formed, 1, Part::Right, refs, operand),
        Operand::Rw => reach_changed(walk, regs, formed, Part::Whole, refs, operand),
        Operand::Rwl => reach_changed(walk, regs, formed, Part::Left, refs, operand),
        Operand::A => reach_address(walk, regs, formed, is_absa(row.effect), operand),
        Operand::T => reach_target(walk, regs, formed, is_taken(row, regs, formed), operand),
        Operand::N => unreachable!(),
        Operand::Call6 => reach_call(walk, regs, formed, operand),
    }
}

/// Takes a direct operand: the word, if the instruction reads one. NOP accepts and ignores it;
/// every other instruction refuses it with fault 10, illegal procedure.
fn reach_direct(
    row: &Row,
    regs: &Regs,
    word: Word,
    operand: &mut Operand36,
) -> Result<Reached, Fault>
    requires { IsRow row.now }
    ensures direct { IsDirectOperand row.now.effect regs.now word operand.new result }
    ensures got { IfOk result (λ u. HoldsFor row.now.operand operand.new.got) }
    ensures none { IfOk result (λ u. words_written row.now.operand ≡ 0) }
    ensures place { IfOk result (λ u. u.place ≡ 0) }
    ensures part { IfOk result (λ u. u.part ≡ part_for row.now.operand) }
    ensures whole { IfOk result (λ u. u.part ≡ part.Whole) }
{
    if !row.direct {
        return Err(fault_here(regs, 10));
    }
    match row.operand {
        Operand::R => {
            fill_operand(Held::One(word), 0, operand);
            Ok(nothing_to_write())
        }
        _ => {
            fill_operand(Held::Empty, 0, operand);
            Ok(nothing_to_write())
        }
    }
}

/// Reaches the operand of an instruction. The only changes of core are marks.
#[tactic(auto, using(crate::proofs::Direct::direct_reached), unfolding(m36_model::specs::Step::operate, m36_walk::specs::Runs::IsInCore))]
pub(crate) fn reach(
    walk: &mut Walk,
    regs: &Regs,
    row: &Row,
    formed: &Formed,
    refs: &mut Refs,
    operand: &mut Operand36,
) -> Result<Reached, Fault>
    requires dbr { walk.old.dbr ≡ regs.now.dbr }
    requires row { IsRow row.now }
    requires addressed { row.now.operand ≢ N }
    requires room { length refs.old.items + 1 < 40 }
    ensures reaches { run_of_operation row.now.effect row.now.reg regs.now formed.now walk.old.core
        refs.old.items ≡ reached_end row.now.effect row.now.reg regs.now formed.now row.now.operand
        walk.new.core refs.new.items operand.new result }
    ensures got { IfOk result (λ u. HoldsFor row.now.operand operand.new.got) }
    ensures run { IfOk result
        (λ u. IsInCore (length walk.new.core) u.place (words_written row.now.operand)) }
    ensures place { IfOk result (λ u. u.place < 2 ^ 24) }
    ensures part { IfOk result (λ u. u.part ≡ part_for row.now.operand) }
    ensures dbr { walk.new.dbr ≡ walk.old.dbr }
    ensures len { length walk.new.core ≡ length walk.old.core }
    ensures count { length refs.new.items ≤ length refs.old.items + 2 }
{
    let last = formed.last;
    match last.direct {
        None => reach_by_kind(walk, regs, row, formed, refs, operand),
        Some(word) => reach_direct(row, regs, word, operand),
    }
}
