//! The call limiters of the segments, and the faults of gates.

ghost use Rattle.std.specs.Prelude.{◌≡◌, ◌+◌, ◌<◌, ◌++◌, ◌∷◌, [], true, length, OnOk, IfOk, IfErr};
ghost use Rattle.std.specs.Prelude.{None};
ghost use Rattle.m36_boot.specs.Segments.{AreShort};
ghost use Rattle.m36_boot.specs.Refusals.{is_entry_count, IsLimit, GateLimitResult, LimitResult};
ghost use Rattle.m36_boot.specs.Refusals.{AreLimits, ReportsGateFault, first_gate_fault};

use crate::fault::BootFault;
use crate::objects::{file, object_of};
use m36_dir::{Catalog, SegKind, Segment};
use m36_link::{FIRST_SEGMENT, File};
use m36_word::NoMemory;
use std::alloc::Global;

// The maximum of the call limiter of a descriptor.
const MOST_ENTRIES: u32 = 16383;

// Whether a gate may have this number of entries.
fn is_entry_count(bound: u32) -> bool
    ensures value { result ≡ is_entry_count bound }
    ensures small { result ≡ true → IsLimit bound }
{
    bound > 0 && bound <= MOST_ENTRIES
}

// The call limiter of a gate: the entry bound of its object. The error is U4 if its file is not an
// object, and U2 if it has no entry or too many.
#[tactic(auto, using(crate::proofs::LimitLoops::gates))]
fn gate_limit(seg: u16, file: &File) -> Result<u16, BootFault>
    ensures { GateLimitResult seg file.now result }
{
    let Some(object) = object_of(file) else {
        return Err(BootFault::U4(seg));
    };
    let bound = object.entry_bound();
    if !is_entry_count(bound) {
        return Err(BootFault::U2(seg));
    }
    Ok(bound as u16)
}

// The call limiter of a segment: 0 if it is not a gate. The error is the fault of a gate.
#[tactic(auto, unfolding(crate::specs::Refusals::gate_fault, crate::specs::Segments::limit_of))]
fn call_limit(seg: u16, segment: &Segment, file: &File) -> Result<u16, BootFault>
    ensures { LimitResult seg segment.now file.now result }
{
    match segment.kind {
        SegKind::Gate => gate_limit(seg, file),
        _ => Ok(0),
    }
}

// Adds the call limiter of the next segment.
fn add_limit(limits: &mut Vec<u16>, limit: u16) -> Result<(), NoMemory>
    ensures { OnOk result (limits.new.items ≡ limits.old.items ++ limit ∷ []) }
{
    limits.push(limit)?;
    Ok(())
}

/// The call limiter of each segment of the catalog. The error is the first fault of a gate, or
/// `NoMemory`.
pub(crate) fn limits_of(
    alloc: Global,
    catalog: &Catalog,
    files: &[File],
) -> Result<Vec<u16>, BootFault>
    requires files { length files.now ≡ length catalog.now.segments }
    requires short { AreShort files.now }
    ensures none { IfOk result
        (λ limits. first_gate_fault catalog.now files.now 0 (length catalog.now.segments) ≡ None) }
    ensures limits { IfOk result
        (λ limits. AreLimits catalog.now files.now (length catalog.now.segments) limits.items) }
    ensures told { IfErr result (λ told. ReportsGateFault told
        (first_gate_fault catalog.now files.now 0 (length catalog.now.segments))) }
{
    let count = catalog.count();
    let mut limits = Vec::new(alloc);
    for i in 0..count {
        let seg = FIRST_SEGMENT + i as u16;
        match call_limit(seg, catalog.segment(i), file(files, i)) {
            Ok(limit) => add_limit(&mut limits, limit)?,
            Err(fault) => return Err(fault),
        }
    }
    Ok(limits)
}
