//! Performs the command `print NAME` over any world.

ghost use Rattle.std.specs.Prelude.{Ok};
ghost use Rattle.m36_status.specs.Refusing.{IsRuleResult};
ghost use Rattle.cmd_tools.specs.PrintAndAlm.{report_of_print};
ghost use Rattle.m36_program.specs.Performs.{Performs};
ghost use Rattle.m36_program.specs.Program.{quiet};
ghost use Rattle.cmd_tools.specs.ToolPrograms.{print_report, print_program};

use crate::report::Report;
use crate::reporting::put_text;
use m36_files::{read_object, refusal_as_status};
use m36_list::print;
use m36_status::{Refusal, Status};
use m36_world::World;
use obj36::Object;
use std::alloc::Global;

// The report of an object: its print, and no file.
fn report_of_print(alloc: Global, name: &[u8], object: &Object) -> Result<Report, Refusal>
    ensures { IsRuleResult result (Ok (report_of_print name.now object.now)) }
{
    let text = print(alloc, name, object)?;
    Ok(Report::of_text(alloc, text))
}

// Reads an object, and returns its report.
fn read_print<W: World>(alloc: Global, name: &[u8], world: &mut W) -> Result<Report, Status>
    ensures { Performs {may = quiet} (print_report name.now) result
        (W.seen world.old) (W.seen world.new) }
{
    match read_object(alloc, name, world) {
        Ok(object) => {
            let given = report_of_print(alloc, name, &object);
            // Dropped by a call, so that the drop is proved once for its type.
            drop(object);
            refusal_as_status(given)
        }
        Err(status) => Err(status),
    }
}

/// Performs `print NAME`: reads an object, and puts its print. An error is the status of the
/// command.
pub fn print_object<W: World>(alloc: Global, name: &[u8], world: &mut W) -> Result<(), Status>
    ensures { Performs (print_program name.now) result (W.seen world.old) (W.seen world.new) }
{
    match read_print(alloc, name, world) {
        Ok(report) => {
            let answer = put_text(report.text(), world);
            drop(report);
            answer
        }
        Err(status) => Err(status),
    }
}
