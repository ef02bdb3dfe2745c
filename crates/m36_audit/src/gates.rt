//! The fifth and the sixth condition: a segment that rings above R2 may call is a gate, and the
//! ring that such a call enters has a stack.

ghost use Rattle.std.specs.Prelude.{◌≡◌, ◌<◌, ◌^◌};
ghost use Rattle.std.specs.Bool.{Decides};
ghost use Rattle.m36_model.specs.Audit.{IsNoGate, HasNoStack};
ghost use Rattle.m36_audit.specs.Live.{may_be_called_from_above, is_enterable_anywhere};
ghost use Rattle.m36_audit.specs.Live.{is_ring_stack};
ghost use Rattle.m36_model.specs.Place.{core_sdw};

use crate::live_descriptor::live_descriptor;
use m36_core::Core;
use m36_desc::{Dbr, Sdw};

/// Whether rings above R2 may call a segment.
fn may_be_called_from_above(sdw: &Sdw) -> bool
    ensures { result ≡ may_be_called_from_above sdw.now }
{
    sdw.executable && sdw.r2 < sdw.r3
}

/// Whether rings above R2 may call the segment, if there is one, at every word: it is not a gate.
fn is_enterable_anywhere(found: Option<Sdw>) -> bool
    ensures { result ≡ is_enterable_anywhere found }
{
    match found {
        Some(sdw) => may_be_called_from_above(&sdw) && sdw.no_gate,
        None => false,
    }
}

/// Whether the segment, if there is one, is a stack of the ring: R and W are on, and R1 and R2 are
/// the ring.
fn is_ring_stack(ring: u8, found: Option<Sdw>) -> bool
    ensures { result ≡ is_ring_stack ring found }
{
    match found {
        Some(sdw) => (sdw.readable && sdw.writable) && (sdw.r1 == ring && sdw.r2 == ring),
        None => false,
    }
}

/// Whether a segment breaks the fifth condition.
#[tactic(auto, using(crate::proofs::Segments::no_gate))]
pub(crate) fn is_no_gate(core: &Core, dbr: Dbr, seg: u16) -> bool
    requires { seg < 2 ^ 15 }
    ensures { Decides result (IsNoGate (core_sdw core.now dbr) seg) }
{
    is_enterable_anywhere(live_descriptor(core, dbr, seg))
}

/// Whether a segment breaks the sixth condition.
pub(crate) fn has_no_stack(core: &Core, dbr: Dbr, seg: u16) -> bool
    requires { seg < 2 ^ 15 }
    ensures { Decides result (HasNoStack dbr (core_sdw core.now dbr) seg) }
{
    match live_descriptor(core, dbr, seg) {
        Some(sdw) => {
            let stack = 8 * dbr.stack + sdw.r2 as u16;
            may_be_called_from_above(&sdw)
                && !is_ring_stack(sdw.r2, live_descriptor(core, dbr, stack))
        }
        None => false,
    }
}
