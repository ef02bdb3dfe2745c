//! The descriptors of live segments.

ghost use Rattle.std.specs.Prelude.{◌<◌, ◌^◌};
ghost use Rattle.m36_audit.specs.Live.{IsSameLookup};
ghost use Rattle.m36_model.specs.Place.{core_sdw};

use m36_core::Core;
use m36_desc::{Dbr, Sdw};
use m36_tables::descriptor;

/// The descriptor of a segment, or None if the segment is not live.
#[tactic(auto, using(crate::proofs::Telling::tells))]
pub(crate) fn live_descriptor(core: &Core, dbr: Dbr, seg: u16) -> Option<Sdw>
    requires { seg < 2 ^ 15 }
    ensures { IsSameLookup result (core_sdw core.now dbr seg) }
{
    descriptor(core, dbr, seg).ok()
}
