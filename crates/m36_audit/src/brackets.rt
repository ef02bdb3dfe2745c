//! The first condition: the ring brackets of each live segment are in order.

ghost use Rattle.std.specs.Prelude.{◌≡◌, ◌<◌, ◌^◌};
ghost use Rattle.std.specs.Bool.{Decides};
ghost use Rattle.m36_model.specs.Audit.{IsOutOfOrder};
ghost use Rattle.m36_audit.specs.Live.{has_disordered_brackets};
ghost use Rattle.m36_model.specs.Place.{core_sdw};

use crate::live_descriptor::live_descriptor;
use m36_core::Core;
use m36_desc::{Dbr, Sdw};
use m36_tables::has_ordered_brackets;

/// Whether the brackets of the segment, if there is one, are out of order.
fn has_disordered_brackets(found: Option<Sdw>) -> bool
    ensures { result ≡ has_disordered_brackets found }
{
    match found {
        Some(sdw) => !has_ordered_brackets(&sdw),
        None => false,
    }
}

/// Whether a segment breaks the first condition.
#[tactic(auto, using(crate::proofs::Segments::out_of_order))]
pub(crate) fn is_out_of_order(core: &Core, dbr: Dbr, seg: u16) -> bool
    requires { seg < 2 ^ 15 }
    ensures { Decides result (IsOutOfOrder (core_sdw core.now dbr) seg) }
{
    has_disordered_brackets(live_descriptor(core, dbr, seg))
}
