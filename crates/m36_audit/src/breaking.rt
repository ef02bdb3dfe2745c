//! The conditions about segments, and the first segment that breaks one.

ghost use Rattle.std.specs.Prelude.{◌<◌, ◌^◌};
ghost use Rattle.std.specs.Bool.{Decides};
ghost use Rattle.m36_model.specs.Audit.{Finds};
ghost use Rattle.m36_audit.specs.Breaks.{Breaks};

use crate::brackets::is_out_of_order;
use crate::gates::{has_no_stack, is_no_gate};
use m36_core::Core;
use m36_desc::Dbr;
use m36_tables::segment_count;

/// A condition that each live segment has to satisfy.
#[derive(Clone, Copy)]
pub(crate) enum Condition {
    /// The first condition: its ring brackets are in order.
    Brackets,
    /// The fifth condition: if rings above R2 may call it, it is a gate.
    Gate,
    /// The sixth condition: if rings above R2 may call it, the ring that a call enters has a stack.
    Stack,
}

/// Whether a segment breaks a condition.
fn breaks(condition: Condition, core: &Core, dbr: Dbr, seg: u16) -> bool
    requires { seg < 2 ^ 15 }
    ensures { Decides result (Breaks condition core.now dbr seg) }
{
    match condition {
        Condition::Brackets => is_out_of_order(core, dbr, seg),
        Condition::Gate => is_no_gate(core, dbr, seg),
        Condition::Stack => has_no_stack(core, dbr, seg),
    }
}

/// The first segment that breaks a condition.
pub(crate) fn first_segment(condition: Condition, core: &Core, dbr: Dbr) -> Option<u32>
    ensures { Finds (Breaks condition core.now dbr) result }
{
    for seg in 0..segment_count(dbr) {
        if breaks(condition, core, dbr, seg) {
            return Some(seg as u32);
        }
    }
    None
}
