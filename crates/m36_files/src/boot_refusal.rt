//! Refuses the boot text of a folder.

ghost use Rattle.m36_status.specs.Refusing.{IsRuleRefusal};
ghost use Rattle.m36_files.specs.CatalogRules.{boot_text_refusal};

use m36_status::{Code, Refusal, refuse};
use std::alloc::Global;

/// Refuses the boot text with a code, at a line or the number of a segment.
pub fn refuse_boot(alloc: Global, code: Code, at: u32) -> Refusal
    ensures { IsRuleRefusal result (boot_text_refusal code at) }
{
    refuse(alloc, b"boot", code, at)
}
