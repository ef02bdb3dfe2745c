//! The lookup of a segment's descriptor.

ghost use Rattle.std.specs.Prelude.{◌≡◌, ◌<◌, ◌^◌, IfOk, OnOk, Ok, length};
ghost use Rattle.m36_desc.specs.Descriptors.{sdw_of};
ghost use Rattle.m36_model.specs.Place.{directory_at, has_descriptor_in_bounds, sdw_place, live_by};
ghost use Rattle.m36_model.specs.Place.{sdw_at, core_sdw};
ghost use Rattle.m36_tables.specs.Tables.{TableWordIsInCore};

use crate::addresses::{directory_at, wrapped_address};
use crate::pages::{address_in_frame, page_table_word};
use crate::refusals::{directed_refusal, store_fault, violation};
use m36_core::Core;
use m36_desc::{Dbr, Sdw};
use m36_model::Refusal;
use m36_word::Pair;

/// Whether the descriptor of segment `seg` is within the bound of the descriptor segment.
#[inline(always)]
fn has_descriptor_in_bounds(dbr: Dbr, seg: u16) -> bool
    requires { seg < 2 ^ 15 }
    ensures { result ≡ has_descriptor_in_bounds dbr seg }
{
    2 * (seg as u32) < 16 * (dbr.bnd as u32 + 1)
}

/// The address of the even word of a segment's descriptor, which may be past the end of core. The
/// odd word is at the next address modulo 2^24.
#[inline(always)]
pub fn descriptor_place(core: &Core, dbr: Dbr, seg: u16) -> Result<u32, Refusal>
    requires { seg < 2 ^ 15 }
    ensures value { result ≡ sdw_place core.now dbr seg }
    ensures directory { OnOk result (TableWordIsInCore (length core.now) dbr.unpaged
        (directory_at dbr seg)) }
    ensures bound { IfOk result (λ a. a < 2 ^ 24) }
{
    if !has_descriptor_in_bounds(dbr, seg) {
        return Err(violation(15));
    }
    if dbr.unpaged {
        return Ok(wrapped_address(dbr.addr + 2 * seg as u32));
    }
    address_in_frame(
        page_table_word(core, directory_at(dbr, seg)),
        2 * seg as u32 % 1024,
    )
}

/// The descriptor in a pair, or its directed fault if F is off.
#[inline(always)]
fn live_descriptor(pair: Pair) -> Result<Sdw, Refusal>
    ensures { result ≡ live_by (sdw_of pair.even pair.odd).f pair.even pair.odd }
{
    let sdw = Sdw::of_words(pair);
    if sdw.f {
        Ok(sdw)
    } else {
        Err(directed_refusal(sdw.fc))
    }
}

/// The descriptor in the two words that begin at an address. A store fault if one of them is past
/// the end of core, and the descriptor's directed fault if its F is off.
#[inline(always)]
fn descriptor_at(core: &Core, even: u32) -> Result<Sdw, Refusal>
    requires { even < 2 ^ 24 }
    ensures { result ≡ sdw_at core.now (Ok even) }
{
    let odd = wrapped_address(even + 1);
    if even >= core.len() || odd >= core.len() {
        return Err(store_fault());
    }
    live_descriptor(Pair {
        even: core.peek(even),
        odd: core.peek(odd),
    })
}

/// The descriptor of a live segment, or the fault of its lookup.
#[inline(always)]
#[tactic(auto, unfolding(m36_model::specs::Place::core_sdw))]
pub fn descriptor(core: &Core, dbr: Dbr, seg: u16) -> Result<Sdw, Refusal>
    requires { seg < 2 ^ 15 }
    ensures value { result ≡ core_sdw core.now dbr seg }
    ensures directory { OnOk result (TableWordIsInCore (length core.now) dbr.unpaged
        (directory_at dbr seg)) }
{
    descriptor_at(core, descriptor_place(core, dbr, seg)?)
}
