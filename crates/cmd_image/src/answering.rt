//! Audits an image, and runs it if the command says so.

ghost use Rattle.m36_audit.specs.Findings.{finding_pairs};
ghost use Rattle.m36_program.specs.Performs.{Performs};
ghost use Rattle.cmd_image.specs.ImageAudit.{is_run_allowed};
ghost use Rattle.cmd_image.specs.ImageProgram.{audit_only, audit_and_run, audit_and_run_if};
ghost use Rattle.cmd_image.specs.ImageProgram.{command_after_audit, on_image, image_program};

use crate::command::{BareRun, ImageCommand};
use crate::findings::put_audit;
use crate::machine::{findings_in, is_run_allowed, machine_of};
use crate::reading::read_state;
use crate::running::run;
use m36_audit::Finding;
use m36_image::Image;
use m36_status::Status;
use m36_world::World;
use std::alloc::Global;

/// Performs a command that only audits: puts the text of the audit, line by line. Fails with
/// AuditNo if there are findings.
#[tactic(auto, using(crate::proofs::ImageSteps::auditing))]
pub fn answer_audit<W: World>(findings: &[Finding], world: &mut W) -> Result<(), Status>
    ensures { Performs (audit_only (finding_pairs findings.now)) result
        (W.seen world.old) (W.seen world.new) }
{
    match put_audit(findings, world) {
        Ok(()) => {
            if findings.is_empty() {
                Ok(())
            } else {
                Err(Status::AuditNo)
            }
        }
        Err(status) => Err(status),
    }
}

/// Puts the audit's text, and then runs the machine of an image for at most `steps` steps.
#[tactic(auto, using(crate::proofs::ImageSteps::audit_core))]
fn run_audited<W: World>(
    findings: &[Finding],
    image: Image,
    steps: u32,
    world: &mut W,
) -> Result<(), Status>
    ensures { Performs (audit_and_run steps image (finding_pairs findings.now)) result
        (W.seen world.old) (W.seen world.new) }
{
    let mut machine = machine_of(image);
    match put_audit(findings, world) {
        Ok(()) => run(&mut machine, steps, world),
        Err(status) => Err(status),
    }
}

// Performs `bare FILE` for an image, given the findings of its audit.
fn answer_bare<W: World>(
    bare: BareRun,
    findings: &[Finding],
    image: Image,
    world: &mut W,
) -> Result<(), Status>
    ensures { Performs
        (audit_and_run_if (is_run_allowed (finding_pairs findings.now) bare.unaudited) bare.steps
        image (finding_pairs findings.now))
        result (W.seen world.old) (W.seen world.new) }
{
    if is_run_allowed(findings, bare) {
        run_audited(findings, image, bare.steps, world)
    } else {
        answer_audit(findings, world)
    }
}

// Performs a command for an image, given the findings of its audit.
fn perform_for_findings<W: World>(
    command: ImageCommand,
    findings: &[Finding],
    image: Image,
    world: &mut W,
) -> Result<(), Status>
    ensures { Performs (command_after_audit command image (finding_pairs findings.now)) result
        (W.seen world.old) (W.seen world.new) }
{
    match command {
        ImageCommand::Bare(bare) => answer_bare(bare, findings, image, world),
        ImageCommand::Audit => answer_audit(findings, world),
    }
}

/// Audits an image, and performs a command for it.
#[tactic(auto, using(crate::proofs::ImageSteps::found))]
fn audit_image_and_answer<W: World>(
    alloc: Global,
    command: ImageCommand,
    image: Image,
    world: &mut W,
) -> Result<(), Status>
    ensures { Performs (on_image command image) result (W.seen world.old) (W.seen world.new) }
{
    match findings_in(alloc, &image) {
        Ok(verdict) => {
            let findings = verdict.findings.as_slice();
            let answer = perform_for_findings(command, findings, image, world);
            // Dropped by a call, so that the drop is proved once for its type.
            drop(verdict);
            answer
        }
        Err(_) => {
            drop(image);
            Err(Status::NoMemory)
        }
    }
}

/// Performs `bare FILE` or `audit FILE` over any world: reads a bare image, audits it, and runs it
/// if the command says so. An error is the status of the command.
pub fn perform_image_command<W: World>(
    alloc: Global,
    name: &[u8],
    command: ImageCommand,
    world: &mut W,
) -> Result<(), Status>
    ensures { Performs (image_program command name.now) result
        (W.seen world.old) (W.seen world.new) }
{
    match read_state(alloc, name, world) {
        Ok(image) => audit_image_and_answer(alloc, command, image, world),
        Err(status) => Err(status),
    }
}
