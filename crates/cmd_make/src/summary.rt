//! Audits and runs a system that was made, and puts the lines of it.

ghost use Rattle.std.specs.Prelude.{ℕ, ◌≡◌, ◌<◌, List, [], ◌∷◌, length, Some};
ghost use Rattle.m36_text.specs.Lines.{as_line};
ghost use Rattle.m36_super.specs.declared.next_event.NextEvent.TheVariants.{Step};
ghost use Rattle.m36_super.specs.SuperFields.{booted_of};
ghost use Rattle.m36_audit.specs.Findings.{finding_pairs};
ghost use Rattle.m36_program.specs.Early.{ends};
ghost use Rattle.m36_program.specs.Performs.{Performs};
ghost use Rattle.m36_program.specs.Program.{quiet, done, puts, puts_all};
ghost use Rattle.cmd_image.specs.ImageAudit.{passes};
ghost use Rattle.cmd_folder.specs.RunText.{finish_status};
ghost use Rattle.cmd_folder.specs.BootedSystems.{IsFresh};
ghost use Rattle.cmd_folder.specs.RunProgram.{finish_may_end};
ghost use Rattle.cmd_make.specs.Summary.{segments_line, sum_line, head_pieces};
ghost use Rattle.cmd_make.specs.MakeProgram.{put_summary, run_and_summarise, runs_or_ends};
ghost use Rattle.cmd_make.specs.MakeProgram.{make_after_audit, on_booted};

use crate::running::{RunEnd, run_quietly};
use arrayvec::ArrayString;
use cmd_folder::{audit_system, finish_line, finish_status};
use cmd_image::findings::{put_audit, put_line};
use m36_audit::Finding;
use m36_model::Regs;
use m36_program::result_of_status;
use m36_status::Status;
use m36_step::Stepper;
use m36_super::Super;
use m36_text::{decimal, octal};
use m36_world::World;
use std::alloc::Global;

/// The maximum number of steps of the run.
const RUN_LIMIT: u32 = 100000;

// ---- lines

// The line with the count of segments, without its line feed.
#[tactic(auto, unfolding(crate::specs::Summary::segments_line))]
fn segments_line(count: u64) -> ArrayString<160>
    ensures text { result.bytes ≡ segments_line count }
    ensures len { length result.bytes < 160 }
{
    let mut line = ArrayString::new();
    line.push_str("segments ");
    line.push_str(decimal(count).as_str());
    line
}

// The line with index register 1, in which the programs compute a sum, without its line feed.
#[tactic(auto, unfolding(crate::specs::Summary::sum_line))]
fn sum_line(regs: &Regs) -> ArrayString<160>
    ensures text { result.bytes ≡ sum_line regs.now }
    ensures len { length result.bytes < 160 }
{
    let mut line = ArrayString::new();
    line.push_str("x1 ");
    line.push_str(octal(regs.x[1] as u64, 6).as_str());
    line
}

// Puts the lines before the run: the count of segments, and the audit's text.
#[tactic(auto, using(crate::proofs::SummarySteps::heading))]
fn put_head<W: World>(count: u64, findings: &[Finding], world: &mut W) -> Result<(), Status>
    ensures { Performs {may = quiet} (puts_all (head_pieces count (finding_pairs findings.now))
        (done tt))
        result (W.seen world.old) (W.seen world.new) }
{
    match put_line(segments_line(count), world) {
        Ok(()) => put_audit(findings, world),
        Err(status) => Err(status),
    }
}

// Puts the line with index register 1 after a run, and returns the status of the run.
#[tactic(auto, using(crate::proofs::SummarySteps::summing))]
fn put_sum<W: World>(end: RunEnd, regs: &Regs, world: &mut W) -> Result<(), Status>
    ensures { Performs {may = quiet} (puts (as_line (sum_line regs.now))
        (ends (finish_status (Some end.how)) (finish_may_end end.how))) result
        (W.seen world.old) (W.seen world.new) }
{
    match put_line(sum_line(regs), world) {
        Ok(()) => result_of_status(finish_status(end.how)),
        Err(status) => Err(status),
    }
}

// Puts the lines after a run: the end line, and the line with index register 1.
fn put_summary<W: World>(end: RunEnd, regs: &Regs, world: &mut W) -> Result<(), Status>
    ensures { Performs (put_summary
        record { how = end.how; steps = end.steps; regs = regs.now }) result
        (W.seen world.old) (W.seen world.new) }
{
    match put_line(finish_line(end.how, end.steps), world) {
        Ok(()) => put_sum(end, regs, world),
        Err(status) => Err(status),
    }
}

// ---- answers

// Runs the system for at most `steps` steps, and puts the lines after the run.
fn run_and_summarise<W: World>(system: &mut Super, steps: u32, world: &mut W) -> Result<(), Status>
    requires { system.old.next_event ≡ Step }
    ensures { Performs (run_and_summarise system.old.lib steps (booted_of system.old)) result
        (W.seen world.old) (W.seen world.new) }
{
    match run_quietly(system, steps) {
        Ok(end) => put_summary(end, system.regs(), world),
        Err(status) => Err(status),
    }
}

// Runs the system if the audit found nothing; otherwise ends with AuditNo.
#[tactic(auto, using(crate::proofs::SummarySteps::deciding))]
fn run_or_end<W: World>(
    system: &mut Super,
    findings: &[Finding],
    world: &mut W,
) -> Result<(), Status>
    requires { system.old.next_event ≡ Step }
    ensures { Performs (runs_or_ends (passes (finding_pairs findings.now)) system.old.lib
        (booted_of system.old)) result (W.seen world.old) (W.seen world.new) }
{
    if findings.is_empty() {
        run_and_summarise(system, RUN_LIMIT, world)
    } else {
        Err(Status::AuditNo)
    }
}

// Puts the lines of a system, given the findings of the audit of its core, and runs it if there are
// none.
fn perform_for_findings<W: World>(
    system: &mut Super,
    findings: &[Finding],
    world: &mut W,
) -> Result<(), Status>
    requires { system.old.next_event ≡ Step }
    ensures { Performs (make_after_audit system.old.lib (booted_of system.old)
        (finding_pairs findings.now))
        result (W.seen world.old) (W.seen world.new) }
{
    let count = system.catalog().count() as u64;
    match put_head(count, findings, world) {
        Ok(()) => run_or_end(system, findings, world),
        Err(status) => Err(status),
    }
}

/// Audits a booted system, runs it if the audit finds nothing, and puts the lines of it.
#[tactic(auto, using(crate::proofs::SummarySteps::found))]
pub fn summarise<W: World>(alloc: Global, mut system: Super, world: &mut W) -> Result<(), Status>
    requires { IsFresh system }
    ensures { (denied : List (List ℕ))
        → Performs (on_booted record { lib = system.lib; denied = denied }) result
        (W.seen world.old) (W.seen world.new) }
{
    match audit_system(alloc, &system) {
        Ok(verdict) => {
            let answer = perform_for_findings(&mut system, verdict.findings.as_slice(), world);
            // Dropped by a call, so that the drop is proved once for its type.
            drop(verdict);
            drop(system);
            answer
        }
        Err(_) => {
            drop(system);
            Err(Status::NoMemory)
        }
    }
}
