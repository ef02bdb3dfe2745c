//! Performs the command `access USER` over any world.

ghost use Rattle.std.specs.Prelude.{Ok};
ghost use Rattle.m36_status.specs.Refusing.{IsRuleResult};
ghost use Rattle.cmd_tools.specs.Accesses.{report_of_access};
ghost use Rattle.m36_program.specs.Performs.{Performs};
ghost use Rattle.m36_program.specs.Program.{quiet};
ghost use Rattle.cmd_tools.specs.ToolPrograms.{lists_report, access_report, access_program};

use crate::report::Report;
use crate::reporting::put_text;
use m36_acl::{Acl, User};
use m36_dir::Catalog;
use m36_files::{read_catalog, read_lists, refusal_as_status};
use m36_status::{Refusal, Status};
use m36_world::World;
use std::alloc::Global;

// The report of what a user may do with each segment of a catalog.
fn access_of(alloc: Global, user: &User, catalog: &Catalog, lists: &Acl) -> Result<Report, Refusal>
    ensures { IsRuleResult result (Ok (report_of_access user.now catalog.now lists.now)) }
{
    let text = lists.access_text(alloc, catalog, user)?;
    Ok(Report::of_text(alloc, text))
}

// Reads the access lists, and returns the report for the user.
fn lists_report<W: World>(
    alloc: Global,
    user: &User,
    catalog: &Catalog,
    world: &mut W,
) -> Result<Report, Status>
    ensures { Performs {may = quiet} (lists_report user.now catalog.now) result
        (W.seen world.old) (W.seen world.new) }
{
    match read_lists(alloc, catalog, world) {
        Ok(lists) => {
            let given = access_of(alloc, user, catalog, &lists);
            drop(lists);
            refusal_as_status(given)
        }
        Err(status) => Err(status),
    }
}

// Reads the boot text and the access lists, and returns the report for the user.
fn access_report<W: World>(alloc: Global, user: &User, world: &mut W) -> Result<Report, Status>
    ensures { Performs {may = quiet} (access_report user.now) result
        (W.seen world.old) (W.seen world.new) }
{
    match read_catalog(alloc, world) {
        Ok(catalog) => {
            let report = lists_report(alloc, user, &catalog, world);
            drop(catalog);
            report
        }
        Err(status) => Err(status),
    }
}

/// Performs `access USER`: reads the boot text and the access lists, and puts a line for each
/// segment with what the user may do. An error is the status of the command.
pub fn print_access<W: World>(alloc: Global, user: &User, world: &mut W) -> Result<(), Status>
    ensures { Performs (access_program user.now) result (W.seen world.old) (W.seen world.new) }
{
    match access_report(alloc, user, world) {
        Ok(report) => {
            let answer = put_text(report.text(), world);
            drop(report);
            answer
        }
        Err(status) => Err(status),
    }
}
