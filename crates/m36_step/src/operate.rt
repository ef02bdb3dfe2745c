//! The operand of an instruction, and its effect.

ghost use Rattle.std.specs.Prelude.{◌≡◌, ◌≢◌, ◌+◌, ◌≤◌, ◌<◌, IfOk, IfErr, length};
ghost use Rattle.m36_inst.specs.Lookup.{IsRow};
ghost use Rattle.m36_inst.specs.declared.operand.Operand.TheVariants.{N};
ghost use Rattle.m36_ea.specs.Formed.{HasTally};
ghost use Rattle.m36_step.specs.Operated.{run_of_operation, operated_end, PlacesAreInCore};

use crate::effects::execute_effect;
use crate::operated::Operated;
use crate::reach::reach;
use m36_inst::Row;
use m36_model::{Formed, Halt, Held, Operand36, Refs, Regs};
use m36_walk::Walk;

/// Executes an instruction on the operand at a formed address. `walk` has the descriptor segment
/// of `regs`. The step has completed at most 38 references before; at most 2 are added.
///
/// The result, core, the registers and the completed references are those of the operation. A
/// refusal leaves the registers unchanged, and core except for marks. The words are not written
/// yet: they are put into `put`, and the result says at which place they have to be written, and
/// which part of each.
pub(crate) fn operate(
    walk: &mut Walk,
    regs: &mut Regs,
    row: &Row,
    formed: &Formed,
    refs: &mut Refs,
    put: &mut Held,
) -> Result<Operated, Halt>
    requires dbr { walk.old.dbr ≡ regs.old.dbr }
    requires row { IsRow row.now }
    requires addressed { row.now.operand ≢ N }
    requires tally { HasTally formed.now.tally formed.now.place (length walk.old.core)
        refs.old.items }
    requires room { length refs.old.items ≤ 38 }
    ensures operates { run_of_operation row.now.effect row.now.reg regs.old formed.now walk.old.core
        refs.old.items ≡ operated_end walk.new.core refs.new.items formed.now regs.new put.new
        result }
    ensures stays { IfErr result (λ h. regs.new ≡ regs.old) }
    ensures lies { IfOk result (λ o. PlacesAreInCore (length walk.new.core) formed.now put.new o) }
    ensures dbr { walk.new.dbr ≡ walk.old.dbr }
    ensures len { length walk.new.core ≡ length walk.old.core }
    ensures count { length refs.new.items ≤ length refs.old.items + 2 }
{
    let mut operand = Operand36 {
        got: Held::Empty,
        place: 0,
        ring: 0,
    };
    match reach(walk, regs, row, formed, refs, &mut operand) {
        Ok(reached) => match execute_effect(row, regs, formed, &operand, put) {
            Ok(overflow) => Ok(Operated {
                place: reached.place,
                part: reached.part,
                overflow,
            }),
            Err(fault) => Err(Halt::Fault(fault)),
        },
        Err(fault) => Err(Halt::Fault(fault)),
    }
}
