//! The parts of a step, in order: the fetch, the instruction's row, the privilege check, the
//! address, the operation, and the words that are written.

ghost use Rattle.std.specs.Prelude.{◌≡◌, ◌≢◌, ◌==◌, ◌+◌, ◌<◌, ◌≤◌, [], ◌∷◌, ◌++◌, length};
ghost use Rattle.m36_inst.specs.Instruction.{inst_of};
ghost use Rattle.m36_inst.specs.Lookup.{IsRow};
ghost use Rattle.m36_inst.specs.declared.operand.Operand.TheVariants.{N};
ghost use Rattle.m36_ea.specs.Formed.{HasTally};
ghost use Rattle.m36_inst.specs.Operands.{operand_of};
ghost use Rattle.m36_model.specs.Chain.{chain_end_fields};
ghost use Rattle.m36_model.specs.Modification.{here};
ghost use Rattle.m36_model.specs.Registers.{RegsFields};
ghost use Rattle.m36_model.specs.Step.{program, execute_decoded, decode, execute_unless_barred};
ghost use Rattle.m36_model.specs.Step.{is_barred, execute_admitted, immediate_halt};
ghost use Rattle.m36_model.specs.Step.{form_and_operate, operate_and_end};
ghost use Rattle.m36_step.specs.Ended.{EndsAs, EndsFormed, completed_end};

use crate::ended::{Ended, end_of_halt, fault_here, outcome_after_effect};
use crate::operate::operate;
use crate::writes::write_words;
use m36_ea::form_address;
use m36_inst::{Effect, Inst, Operand, Row, row};
use m36_model::{At, Final, Formed, Halt, Held, Kind, Reference, Refs, Regs, Stop};
use m36_walk::Walk;
use m36_word::Word;

/// The end of a step whose effect is in the registers. The instruction was at `place`. If LDBR has
/// changed the descriptor segment base register, the walk takes the new value and forgets
/// everything that it found with the old one.
fn finish_step(
    walk: &mut Walk,
    regs: &Regs,
    place: At,
    word: Word,
    last: Final,
    overflow: bool,
) -> Ended
    ensures end { (g : RegsFields) → place ≡ here g
        → result ≡ completed_end word last overflow regs.now.ind.mask g }
    ensures core { walk.new.core ≡ walk.old.core }
    ensures dbr { walk.new.dbr ≡ regs.now.dbr }
{
    let dbr = regs.dbr;
    if walk.dbr() != dbr {
        walk.set_dbr(dbr);
    }
    let ind = regs.ind;
    Ended {
        word: Some(word),
        at: Some(last),
        outcome: outcome_after_effect(place, ind.mask, overflow),
    }
}

/// Executes an instruction whose address is formed: its operand, its effect, and the words that it
/// writes.
pub(crate) fn execute_at_address(
    walk: &mut Walk,
    regs: &mut Regs,
    word: Word,
    row: &Row,
    formed: &Formed,
    refs: &mut Refs,
) -> Ended
    requires dbr { walk.old.dbr ≡ regs.old.dbr }
    requires row { IsRow row.now }
    requires addressed { row.now.operand ≢ N }
    requires tally { HasTally formed.now.tally formed.now.place (length walk.old.core)
        refs.old.items }
    requires room { length refs.old.items ≤ 38 }
    ensures ends { EndsFormed regs.old
        (operate_and_end row.now.effect row.now.reg regs.old word (chain_end_fields formed.now))
        walk.old.core formed.now refs.old.items walk.new.core refs.new.items regs.new result }
    ensures dbr { walk.new.dbr ≡ regs.new.dbr }
{
    let last = formed.last;
    let here = regs.here();
    let mut put = Held::Empty;
    match operate(walk, regs, row, formed, refs, &mut put) {
        Err(halt) => end_of_halt(Some(word), Some(last), halt),
        Ok(operated) => {
            write_words(walk, formed, &operated, &put);
            finish_step(walk, regs, here, word, last, operated.overflow)
        }
    }
}

/// Forms the address of an instruction, and executes it.
fn form_address_and_execute(
    walk: &mut Walk,
    regs: &mut Regs,
    word: Word,
    inst: &Inst,
    row: &Row,
    refs: &mut Refs,
) -> Ended
    requires dbr { walk.old.dbr ≡ regs.old.dbr }
    requires row { IsRow row.now }
    requires addressed { row.now.operand ≢ N }
    requires inst { inst.now ≡ inst_of word }
    requires room { length refs.old.items ≤ 4 }
    ensures ends { EndsAs regs.old (form_and_operate row.now.effect row.now.reg regs.old word)
        walk.old.core refs.old.items walk.new.core refs.new.items regs.new result }
    ensures dbr { walk.new.dbr ≡ regs.new.dbr }
{
    match form_address(walk, regs, inst, refs) {
        Err(halt) => end_of_halt(Some(word), None, halt),
        Ok(formed) => execute_at_address(walk, regs, word, row, &formed, refs),
    }
}

/// The halt of MME, DRL or DIS, which form no address.
fn no_address(regs: &Regs, effect: Effect) -> Halt
    ensures { result ≡ immediate_halt effect regs.now }
{
    match effect {
        Effect::Mme => Halt::Fault(fault_here(regs, 2)),
        Effect::Drl => Halt::Fault(fault_here(regs, 6)),
        _ => Halt::Stop(Stop::Dis),
    }
}

/// Executes an instruction that has passed the privilege check: one without an address ends the
/// step at once.
fn execute_permitted(
    walk: &mut Walk,
    regs: &mut Regs,
    word: Word,
    inst: &Inst,
    row: &Row,
    refs: &mut Refs,
) -> Ended
    requires dbr { walk.old.dbr ≡ regs.old.dbr }
    requires row { IsRow row.now }
    requires inst { inst.now ≡ inst_of word }
    requires room { length refs.old.items ≤ 4 }
    ensures ends { EndsAs regs.old
        (execute_admitted row.now.effect row.now.reg regs.old word (operand_of row.now.effect))
        walk.old.core
        refs.old.items walk.new.core refs.new.items regs.new result }
    ensures dbr { walk.new.dbr ≡ regs.new.dbr }
{
    match row.operand {
        Operand::N => end_of_halt(Some(word), None, no_address(regs, row.effect)),
        _ => form_address_and_execute(walk, regs, word, inst, row, refs),
    }
}

/// Checks the privilege of an instruction, and executes it. Unless `privileged` is on, a privileged
/// instruction ends the step with fault 10, illegal procedure, at the instruction.
fn check_privilege_and_execute(
    walk: &mut Walk,
    regs: &mut Regs,
    word: Word,
    inst: &Inst,
    row: &Row,
    privileged: bool,
    refs: &mut Refs,
) -> Ended
    requires dbr { walk.old.dbr ≡ regs.old.dbr }
    requires row { IsRow row.now }
    requires inst { inst.now ≡ inst_of word }
    requires room { length refs.old.items ≤ 4 }
    ensures ends { EndsAs regs.old
        (execute_unless_barred row.now.effect row.now.reg regs.old word
        (is_barred row.now.effect privileged)) walk.old.core refs.old.items walk.new.core
        refs.new.items regs.new result }
    ensures dbr { walk.new.dbr ≡ regs.new.dbr }
{
    if row.privileged && !privileged {
        return end_of_halt(Some(word), None, Halt::Fault(fault_here(regs, 10)));
    }
    execute_permitted(walk, regs, word, inst, row, refs)
}

/// Decodes and executes the instruction in a word. `privileged` says whether it may be a
/// privileged one.
fn decode_and_execute(
    walk: &mut Walk,
    regs: &mut Regs,
    word: Word,
    privileged: bool,
    refs: &mut Refs,
) -> Ended
    requires dbr { walk.old.dbr ≡ regs.old.dbr }
    requires room { length refs.old.items ≤ 4 }
    ensures ends { EndsAs regs.old (execute_decoded regs.old word privileged (decode word))
        walk.old.core
        refs.old.items walk.new.core refs.new.items regs.new result }
    ensures dbr { walk.new.dbr ≡ regs.new.dbr }
{
    let inst = Inst::of_word(word);
    match row(inst.code, inst.bit27) {
        None => end_of_halt(Some(word), None, Halt::Stop(Stop::Operation)),
        Some(row) => check_privilege_and_execute(walk, regs, word, &inst, &row, privileged, refs),
    }
}

/// One step: fetches the current instruction, and executes it.
pub(crate) fn execute(walk: &mut Walk, regs: &mut Regs, refs: &mut Refs) -> Ended
    requires dbr { walk.old.dbr ≡ regs.old.dbr }
    requires room { length refs.old.items ≤ 3 }
    ensures ends { EndsAs regs.old (program regs.old) walk.old.core refs.old.items walk.new.core
        refs.new.items regs.new result }
    ensures dbr { walk.new.dbr ≡ regs.new.dbr }
{
    let here = regs.here();
    match walk.fetch(here) {
        Err(fault) => end_of_halt(None, None, Halt::Fault(fault)),
        Ok(fetched) => {
            refs.push(Reference {
                at: here,
                kind: Kind::Fetch,
                count: 1,
            });
            let (word, privileged) = fetched;
            decode_and_execute(walk, regs, word, privileged, refs)
        }
    }
}
