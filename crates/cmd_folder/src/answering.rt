//! Audits a booted system, and runs it if the command says so.

ghost use Rattle.std.specs.Prelude.{◌≡◌};
ghost use Rattle.m36_audit.specs.Findings.{finding_pairs};
ghost use Rattle.m36_super.specs.declared.next_event.NextEvent.TheVariants.{Step};
ghost use Rattle.m36_super.specs.SuperFields.{booted_of};
ghost use Rattle.cmd_image.specs.ImageAudit.{is_run_allowed};
ghost use Rattle.m36_program.specs.Performs.{Performs};
ghost use Rattle.cmd_folder.specs.BootedSystems.{IsFresh};
ghost use Rattle.cmd_folder.specs.OnFolder.{audit_and_run, audit_and_run_if, command_after_audit};
ghost use Rattle.cmd_folder.specs.OnFolder.{on_folder};
ghost use Rattle.cmd_folder.specs.FolderProgram.{folder_program};
ghost use Rattle.cmd_folder.specs.RunSays.{run_of};

use crate::auditing::audit_system;
use crate::command::{FolderCommand, FolderRun, RunOutput};
use crate::reading::read_system;
use crate::running::run;
use cmd_image::answering::answer_audit;
use cmd_image::findings::put_audit;
use m36_acl::{DeniedLines, User};
use m36_audit::Finding;
use m36_status::Status;
use m36_super::Super;
use m36_world::World;
use std::alloc::Global;

// Puts the audit's text line by line, and then runs the system for at most `steps` steps.
#[tactic(auto, using(crate::proofs::FolderSteps::runs))]
fn run_audited<W: World>(
    system: &mut Super,
    findings: &[Finding],
    steps: u32,
    output: RunOutput,
    denied: &DeniedLines,
    world: &mut W,
) -> Result<(), Status>
    requires { system.old.next_event ≡ Step }
    ensures { Performs (audit_and_run (run_of system.old.lib output denied.now) steps
        (booted_of system.old) (finding_pairs findings.now)) result (W.seen world.old)
        (W.seen world.new) }
{
    match put_audit(findings, world) {
        Ok(()) => run(system, steps, output, denied, world),
        Err(status) => Err(status),
    }
}

// Whether the system is run: if the audit found nothing, or `--unaudited` is given.
#[tactic(auto, using(cmd_image::proofs::AuditAnswers::passing))]
fn is_run_allowed(findings: &[Finding], run: FolderRun) -> bool
    ensures { result ≡ is_run_allowed (finding_pairs findings.now) run.unaudited }
{
    findings.is_empty() || run.unaudited
}

// `run` and `trace` after the audit: runs the system, or only puts the audit's text.
fn answer_run<W: World>(
    system: &mut Super,
    findings: &[Finding],
    run: FolderRun,
    output: RunOutput,
    denied: &DeniedLines,
    world: &mut W,
) -> Result<(), Status>
    requires { system.old.next_event ≡ Step }
    ensures { Performs (audit_and_run_if (is_run_allowed (finding_pairs findings.now) run.unaudited)
        (run_of system.old.lib output denied.now) run.steps (booted_of system.old)
        (finding_pairs findings.now)) result (W.seen world.old) (W.seen world.new) }
{
    if is_run_allowed(findings, run) {
        run_audited(system, findings, run.steps, output, denied, world)
    } else {
        answer_audit(findings, world)
    }
}

// Performs a command on a booted system, given the findings of the audit of its core.
fn perform_for_findings<W: World>(
    command: FolderCommand,
    system: &mut Super,
    denied: &DeniedLines,
    findings: &[Finding],
    world: &mut W,
) -> Result<(), Status>
    requires { system.old.next_event ≡ Step }
    ensures { Performs (command_after_audit command
        record { lib = system.old.lib; denied = denied.now } (booted_of system.old)
        (finding_pairs findings.now)) result (W.seen world.old) (W.seen world.new) }
{
    match command {
        FolderCommand::Audit => answer_audit(findings, world),
        FolderCommand::Run(run) => {
            answer_run(system, findings, run, RunOutput::Console, denied, world)
        }
        FolderCommand::Trace(run) => {
            answer_run(system, findings, run, RunOutput::Trace, denied, world)
        }
    }
}

// Audits a booted system, and performs a command on it. NoMemory if the audit runs out of memory.
#[tactic(auto, using(crate::proofs::FolderSteps::found))]
fn audit_system_and_answer<W: World>(
    alloc: Global,
    command: FolderCommand,
    mut system: Super,
    denied: &DeniedLines,
    world: &mut W,
) -> Result<(), Status>
    requires { IsFresh system }
    ensures { Performs (on_folder command record { lib = system.lib; denied = denied.now }) result
        (W.seen world.old) (W.seen world.new) }
{
    match audit_system(alloc, &system) {
        Ok(verdict) => {
            let findings = verdict.findings.as_slice();
            let answer = perform_for_findings(command, &mut system, denied, findings, world);
            // Dropped by a call, so that the drop is proved once for its type.
            drop(verdict);
            drop(system);
            answer
        }
        Err(_) => {
            drop(system);
            Err(Status::NoMemory)
        }
    }
}

/// Performs `audit`, `run` or `trace` of a folder over any world, with the rights of `user` if
/// there is one. An error is the status of the command.
pub fn perform_folder_command<W: World>(
    alloc: Global,
    command: FolderCommand,
    user: &Option<User>,
    world: &mut W,
) -> Result<(), Status>
    ensures { Performs (folder_program command user.now) result
        (W.seen world.old) (W.seen world.new) }
{
    match read_system(alloc, user, world) {
        Ok(booted) => audit_system_and_answer(alloc, command, booted.system, &booted.denied, world),
        Err(status) => Err(status),
    }
}
