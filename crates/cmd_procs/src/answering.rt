//! Audits processes jointly, and runs their schedule.

ghost use Rattle.std.specs.Prelude.{◌≡◌, ◌≤◌, [], IfOk, length};
ghost use Rattle.m36_model.specs.JointAudit.{AreJointFindings, most_processes};
ghost use Rattle.m36_audit.specs.Joints.{all_found};
ghost use Rattle.m36_program.specs.Performs.{Performs};
ghost use Rattle.cmd_image.specs.ImageAudit.{is_run_allowed};
ghost use Rattle.cmd_procs.specs.Scheduled.{dbrs_of, SchedulesAreIsolated};
ghost use Rattle.cmd_procs.specs.ProcsProgram.{audit_only, audit_and_run, procs_after_audit};
ghost use Rattle.cmd_procs.specs.ProcsProgram.{on_procs, procs_program};

use crate::findings::put_joint_audit;
use crate::reading::read_procs;
use crate::running::run;
use m36_audit::{JointFinding, JointVerdict, joint_audit};
use m36_desc::Dbr;
use m36_model::Regs;
use m36_procs::Procs;
use m36_status::Status;
use m36_word::NoMemory;
use m36_world::World;
use std::alloc::Global;

/// Puts the audit's text line by line, and then runs the schedule.
#[tactic(auto, using(crate::proofs::ProcsSteps::audit_jointly))]
fn run_audited<W: World>(
    findings: &[JointFinding],
    procs: &mut Procs,
    world: &mut W,
) -> Result<(), Status>
    ensures { Performs (audit_and_run procs.old (all_found findings.now)) result
        (W.seen world.old) (W.seen world.new) }
{
    match put_joint_audit(findings, world) {
        Ok(()) => run(procs, world),
        Err(status) => Err(status),
    }
}

/// Puts the audit's text and ends with AuditNo.
#[tactic(auto, using(crate::proofs::ProcsSteps::refusing))]
fn refuse_run<W: World>(findings: &[JointFinding], world: &mut W) -> Result<(), Status>
    ensures { Performs (audit_only (all_found findings.now)) result
        (W.seen world.old) (W.seen world.new) }
{
    match put_joint_audit(findings, world) {
        Ok(()) => Err(Status::AuditNo),
        Err(status) => Err(status),
    }
}

// Whether the schedule is run: if the audit found nothing, or `--unaudited` is given.
#[tactic(auto, using(crate::proofs::ProcsSteps::passing))]
fn is_run_allowed(findings: &[JointFinding], unaudited: bool) -> bool
    ensures { result ≡ is_run_allowed (all_found findings.now) unaudited }
{
    findings.is_empty() || unaudited
}

// Performs the command, given the findings of the joint audit: runs the schedule if that is
// allowed, and otherwise ends with AuditNo.
fn perform_for_findings<W: World>(
    findings: &[JointFinding],
    procs: &mut Procs,
    unaudited: bool,
    world: &mut W,
) -> Result<(), Status>
    ensures { Performs (procs_after_audit unaudited procs.old (all_found findings.now)) result
        (W.seen world.old) (W.seen world.new) }
{
    if is_run_allowed(findings, unaudited) {
        run_audited(findings, procs, world)
    } else {
        refuse_run(findings, world)
    }
}

// The descriptor segment base register of a process.
fn dbr_of(regs: &Regs) -> Dbr
    ensures { result ≡ regs.now.dbr }
{
    regs.dbr
}

// The descriptor segment base register of each process, in order. Fails only with `NoMemory`.
fn dbrs_of(alloc: Global, procs: &Procs) -> Result<Vec<Dbr>, NoMemory>
    ensures value { IfOk result (λ dbrs. dbrs.items ≡ dbrs_of procs.now.state) }
    ensures some { IfOk result (λ dbrs. 1 ≤ length dbrs.items) }
    ensures most { IfOk result (λ dbrs. length dbrs.items ≤ most_processes) }
{
    let count = procs.count();
    let mut dbrs = Vec::with_capacity(alloc, count)?;
    for i in 0..count {
        dbrs.push(dbr_of(procs.regs(i)))?;
    }
    Ok(dbrs)
}

// Audits processes jointly. If there are no findings, every schedule of them is isolated. Fails
// only with `NoMemory`.
fn audit_jointly(alloc: Global, procs: &Procs) -> Result<JointVerdict, NoMemory>
    ensures found { IfOk result (λ j. AreJointFindings procs.now.state.store
        (dbrs_of procs.now.state) (all_found j.findings.items)) }
    ensures isolated { IfOk result (λ j. all_found j.findings.items ≡ []
        → SchedulesAreIsolated procs.now.state) }
{
    let dbrs = dbrs_of(alloc, procs)?;
    let verdict = joint_audit(alloc, procs.core(), dbrs.as_slice())?;
    Ok(verdict)
}

/// Audits processes, and performs the command on them. NoMemory if the audit runs out of memory.
#[tactic(auto, using(crate::proofs::ProcsSteps::found))]
fn audit_procs_and_answer<W: World>(
    alloc: Global,
    mut procs: Procs,
    unaudited: bool,
    world: &mut W,
) -> Result<(), Status>
    ensures { Performs (on_procs unaudited procs) result (W.seen world.old) (W.seen world.new) }
{
    match audit_jointly(alloc, &procs) {
        Ok(verdict) => {
            let findings = verdict.findings.as_slice();
            let answer = perform_for_findings(findings, &mut procs, unaudited, world);
            // Dropped by calls, so that each drop is proved once for its type.
            drop(verdict);
            drop(procs);
            answer
        }
        Err(_) => {
            drop(procs);
            Err(Status::NoMemory)
        }
    }
}

/// Performs `procs FILE` over any world, with or without `--unaudited`. An error is the status of
/// the command.
#[tactic(auto, unfolding(crate::specs::ProcsProgram::procs_program), using(m36_program::proofs::Performing::performing))]
pub fn perform_procs_command<W: World>(
    alloc: Global,
    name: &[u8],
    unaudited: bool,
    world: &mut W,
) -> Result<(), Status>
    ensures { Performs (procs_program unaudited name.now) result
        (W.seen world.old) (W.seen world.new) }
{
    match read_procs(alloc, name, world) {
        Ok(procs) => audit_procs_and_answer(alloc, procs, unaudited, world),
        Err(status) => Err(status),
    }
}
