//! The audit of an image, its machine, and the status of a run.

ghost use Rattle.std.specs.Prelude.{◌≡◌, [], None, IfOk};
ghost use Rattle.m36_model.specs.Audit.{AreFindings};
ghost use Rattle.m36_audit.specs.Findings.{finding_pairs};
ghost use Rattle.cmd_image.specs.Output.{end_status, status_after};
ghost use Rattle.cmd_image.specs.ImageAudit.{is_run_allowed, IsIsolated};

use crate::command::BareRun;
use m36_audit::{Finding, Verdict, audit};
use m36_core::Core;
use m36_desc::Dbr;
use m36_image::Image;
use m36_model::{End, Outcome, Stop};
use m36_status::Status;
use m36_step::Machine;
use m36_word::NoMemory;
use std::alloc::Global;

/// The status of a run by its end: Done after DIS, otherwise MachineStop with the end.
pub fn end_status(end: End) -> Status
    ensures { result ≡ end_status end }
{
    match end {
        End::Fault(fault) => Status::MachineStop(End::Fault(fault)),
        End::Stop(Stop::Dis) => Status::Done,
        End::Stop(stop) => Status::MachineStop(End::Stop(stop)),
        End::Link(code) => Status::MachineStop(End::Link(code)),
        End::Console => Status::MachineStop(End::Console),
    }
}

/// The status of a run by its last outcome; Steps if that is Next, so that the run did not end.
pub fn status_after(last: Outcome) -> Status
    ensures { result ≡ status_after last }
{
    match last {
        Outcome::Next => Status::Steps,
        Outcome::Faulted(fault) => end_status(End::Fault(fault)),
        Outcome::Stopped(stop) => end_status(End::Stop(stop)),
    }
}

/// The machine of an image. Core is moved, not copied.
pub fn machine_of(image: Image) -> Machine
    ensures state { result.state ≡ image }
    ensures ended { result.ended ≡ None }
{
    let Image { core, regs } = image;
    Machine::start(core, regs)
}

/// Whether the machine is run: if the audit passes, or `--unaudited` is given.
#[tactic(auto, using(crate::proofs::AuditAnswers::passing))]
pub fn is_run_allowed(findings: &[Finding], bare: BareRun) -> bool
    ensures { result ≡ is_run_allowed (finding_pairs findings.now) bare.unaudited }
{
    findings.is_empty() || bare.unaudited
}

// Audits a core. If nothing is found, its tables isolate each ring from 1. Fails only with
// `NoMemory`.
fn audit_core(alloc: Global, core: &Core, dbr: Dbr) -> Result<Verdict, NoMemory>
    ensures found { IfOk result (λ v. AreFindings core.now dbr (finding_pairs v.findings.items)) }
    ensures isolated { IfOk result (λ v. finding_pairs v.findings.items ≡ [] → IsIsolated core.now
        dbr) }
{
    audit(alloc, core, dbr)
}

/// Audits the core of an image. If nothing is found, its tables isolate each ring from 1. Fails
/// only with `NoMemory`.
pub fn findings_in(alloc: Global, image: &Image) -> Result<Verdict, NoMemory>
    ensures found { IfOk result
        (λ v. AreFindings image.now.store image.now.regs.dbr (finding_pairs v.findings.items)) }
    ensures isolated { IfOk result
        (λ v. finding_pairs v.findings.items ≡ [] → IsIsolated image.now.store image.now.regs.dbr) }
{
    let regs = &image.regs;
    audit_core(alloc, &image.core, regs.dbr)
}
