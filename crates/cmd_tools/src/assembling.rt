//! Performs the command `alm NAME` over any world.

ghost use Rattle.std.specs.Prelude.{◌≤◌, length, Ok};
ghost use Rattle.m36_outside.specs.ReadAnswer.{file_limit};
ghost use Rattle.alm_asm.specs.Assembly.{assembled};
ghost use Rattle.m36_status.specs.Refusing.{IsRuleResult};
ghost use Rattle.cmd_tools.specs.Assemblies.{with_parts, assembly_of};
ghost use Rattle.cmd_tools.specs.PrintAndAlm.{alm_report_or_refusal, IsReportOrFault};
ghost use Rattle.m36_program.specs.Performs.{Performs};
ghost use Rattle.m36_files.specs.Writing.{may_write_files};
ghost use Rattle.cmd_tools.specs.ToolPrograms.{alm_report, alm_program};

use crate::alm_files::{AlmFiles, refuse_source};
use crate::objects::object_bytes;
use crate::report::{Report, report_file};
use crate::reporting::write_report;
use alm_asm::assemble;
use alm_parse::{AlmFault, Lines36, parse};
use m36_files::refusal_as_status;
use m36_list::listing;
use m36_program::read_bytes;
use m36_status::{Refusal, Status};
use m36_text::Name;
use m36_world::World;
use obj36::Object;
use std::alloc::Global;

// The report of an assembled object: the object under its name, and the listing of its lines.
fn report_with_listing(
    alloc: Global,
    name: &Name,
    lines: &Lines36,
    object: &Object,
) -> Result<Report, AlmFault>
    ensures { IsReportOrFault name.now result
        (Ok (record { source = lines.now; parts = object.now })) }
{
    let content = object_bytes(alloc, object)?;
    let listing = listing(alloc, name.bytes(), lines, object)?;
    let report = report_file(alloc, name, content, listing)?;
    Ok(report)
}

// Assembles parsed lines, and makes the report: the object under its name, and the listing.
#[tactic(auto, using(crate::proofs::AlmLaws::made))]
fn assemble_lines(alloc: Global, name: &Name, lines: &Lines36) -> Result<Report, AlmFault>
    ensures { IsReportOrFault name.now result (with_parts lines.now (assembled lines.now)) }
{
    match assemble(alloc, lines) {
        Ok(object) => {
            let report = report_with_listing(alloc, name, lines, &object);
            // Dropped by a call, so that the drop is proved once for its type.
            drop(object);
            report
        }
        Err(fault) => Err(fault),
    }
}

// Assembles the bytes of a source, at most 16 MiB, and makes the report.
fn parse_and_assemble(alloc: Global, name: &Name, bytes: &[u8]) -> Result<Report, AlmFault>
    requires { length bytes.now ≤ file_limit }
    ensures { IsReportOrFault name.now result (assembly_of bytes.now) }
{
    match parse(alloc, bytes) {
        Ok(lines) => assemble_lines(alloc, name, &lines),
        Err(fault) => Err(fault),
    }
}

// As `parse_and_assemble`; a fault of the source is a refusal that names the source.
#[tactic(auto, using(crate::proofs::AlmLaws::answering))]
fn assemble_source(alloc: Global, files: &AlmFiles, bytes: &[u8]) -> Result<Report, Refusal>
    requires { length bytes.now ≤ file_limit }
    ensures { IsRuleResult result (alm_report_or_refusal files.now (assembly_of bytes.now)) }
{
    match parse_and_assemble(alloc, &files.object, bytes) {
        Ok(report) => Ok(report),
        Err(fault) => Err(refuse_source(alloc, files.source.bytes(), fault)),
    }
}

// Reads a source, and returns its report.
fn read_source<W: World>(alloc: Global, files: &AlmFiles, world: &mut W) -> Result<Report, Status>
    ensures { Performs {may = may_write_files} (alm_report files.now) result
        (W.seen world.old) (W.seen world.new) }
{
    match read_bytes(alloc, files.source.bytes(), world) {
        Ok(text) => {
            let given = assemble_source(alloc, files, text.bytes());
            drop(text);
            refusal_as_status(given)
        }
        Err(status) => Err(status),
    }
}

/// Performs `alm NAME`: assembles a source, writes the object, and then puts the listing. An error
/// is the status of the command.
#[tactic(auto, using(crate::proofs::ToolSteps::assembles))]
pub fn assemble_file<W: World>(alloc: Global, files: &AlmFiles, world: &mut W) -> Result<(), Status>
    ensures { Performs (alm_program files.now) result (W.seen world.old) (W.seen world.new) }
{
    match read_source(alloc, files, world) {
        Ok(report) => {
            let answer = write_report(alloc, &report, world);
            drop(report);
            answer
        }
        Err(status) => Err(status),
    }
}
