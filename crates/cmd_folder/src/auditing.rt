//! The audit of a booted system.

ghost use Rattle.std.specs.Prelude.{IfOk};
ghost use Rattle.m36_model.specs.Audit.{AreFindings};
ghost use Rattle.m36_audit.specs.Findings.{finding_pairs};

use m36_audit::{Verdict, audit};
use m36_step::Stepper;
use m36_super::Super;
use m36_word::NoMemory;
use std::alloc::Global;

/// Audits the core of a booted system. Fails only with `NoMemory`.
pub fn audit_system(alloc: Global, system: &Super) -> Result<Verdict, NoMemory>
    ensures { IfOk result
        (λ v. AreFindings system.now.core system.now.regs.dbr (finding_pairs v.findings.items)) }
{
    let regs = system.regs();
    audit(alloc, system.core(), regs.dbr)
}
