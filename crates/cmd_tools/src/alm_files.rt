//! The files of `alm NAME`, and the refusal of its source.

ghost use Rattle.m36_status.specs.Refusing.{IsRuleRefusal};
ghost use Rattle.cmd_tools.specs.PrintAndAlm.{source_refused};

use alm_parse::AlmFault;
use m36_status::{Code, Refusal, refuse_at};
use m36_text::Name;
use std::alloc::Global;

/// The files of `alm NAME`.
#[derive(Drop)]
pub struct AlmFiles {
    /// The source, NAME.alm.
    pub source: Name,
    /// The object, NAME.
    pub object: Name,
}

/// The refusal of a source: E1 to E8 at the line and the column of the fault, or NoMemory.
pub fn refuse_source(alloc: Global, name: &[u8], fault: AlmFault) -> Refusal
    ensures { IsRuleRefusal result (source_refused name.now fault) }
{
    match fault {
        AlmFault::E1(line, column) => refuse_at(alloc, name, Code::E1, line, column),
        AlmFault::E2(line, column) => refuse_at(alloc, name, Code::E2, line, column),
        AlmFault::E3(line, column) => refuse_at(alloc, name, Code::E3, line, column),
        AlmFault::E4(line, column) => refuse_at(alloc, name, Code::E4, line, column),
        AlmFault::E5(line, column) => refuse_at(alloc, name, Code::E5, line, column),
        AlmFault::E6(line, column) => refuse_at(alloc, name, Code::E6, line, column),
        AlmFault::E7(line, column) => refuse_at(alloc, name, Code::E7, line, column),
        AlmFault::E8(line, column) => refuse_at(alloc, name, Code::E8, line, column),
        AlmFault::NoMemory => Refusal::NoMemory,
    }
}
