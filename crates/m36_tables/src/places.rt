//! Where the words of a segment are in core, and their values.

ghost use Rattle.std.specs.Prelude.{ℕ, ◌≡◌, ◌/◌, ◌<◌, ◌^◌, IfOk, OnOk, length};
ghost use Rattle.m36_desc.specs.Access.{has_ordered_brackets};
ghost use Rattle.m36_desc.specs.Fields.{DbrFields};
ghost use Rattle.m36_model.specs.Core.{core_store};
ghost use Rattle.m36_model.specs.Place.{page_at, word_place, core_spot};
ghost use Rattle.m36_model.specs.Sight.{content_in};
ghost use Rattle.m36_model.specs.Store.{place};
ghost use Rattle.m36_tables.specs.Tables.{TableWordIsInCore, spot_of};

use crate::addresses::{is_within_bound, page_at, wrapped_address};
use crate::descriptors::descriptor;
use crate::pages::{address_in_frame, page_table_word};
use crate::refusals::{store_fault, violation};
use m36_core::Core;
use m36_desc::{Dbr, Sdw};
use m36_model::Refusal;
use m36_word::Word;

/// Whether the ring brackets of a segment are in order: R1 <= R2 <= R3.
pub fn has_ordered_brackets(sdw: &Sdw) -> bool
    ensures { result ≡ has_ordered_brackets sdw.now }
{
    sdw.r1 <= sdw.r2 && sdw.r2 <= sdw.r3
}

/// The address of a word that is within the bound. It may be past the end of core.
#[inline(always)]
pub fn word_place(core: &Core, sdw: &Sdw, word: u32) -> Result<u32, Refusal>
    requires { word < 2 ^ 18 }
    ensures value { result ≡ word_place core.now sdw.now word }
    ensures page { OnOk result (TableWordIsInCore (length core.now) sdw.now.unpaged
        (page_at sdw.now (word / 1024))) }
    ensures bound { IfOk result (λ a. a < 2 ^ 24) }
{
    if sdw.unpaged {
        return Ok(wrapped_address(sdw.addr + word));
    }
    address_in_frame(
        page_table_word(core, page_at(sdw, word / 1024)),
        word % 1024,
    )
}

/// The address of a word that is within the bound. A store fault if it is past the end of core.
#[tactic(auto, unfolding(m36_model::specs::Place::core_spot))]
pub fn word_in_core(core: &Core, sdw: &Sdw, word: u32) -> Result<u32, Refusal>
    requires { word < 2 ^ 18 }
    ensures value { (dbr : DbrFields) (seg : ℕ) → spot_of result
        ≡ core_spot core.now dbr sdw.now seg word }
    ensures inside { IfOk result (λ a. a < length core.now) }
{
    let place = word_place(core, sdw, word)?;
    if place >= core.len() {
        return Err(store_fault());
    }
    Ok(place)
}

/// The core address of a word of a segment, without access checks. The first of these that applies
/// is the refusal: the segment has no live descriptor, its brackets are not in order, the word is
/// past its bound, or the word is not in core.
#[tactic(auto, unfolding(m36_model::specs::Store::place))]
pub fn place(core: &Core, dbr: Dbr, seg: u16, word: u32) -> Result<u32, Refusal>
    requires seg { seg < 2 ^ 15 }
    requires word { word < 2 ^ 18 }
    ensures value { spot_of result ≡ place core_store core.now dbr seg word }
    ensures inside { IfOk result (λ a. a < length core.now) }
{
    let sdw = descriptor(core, dbr, seg)?;
    if !has_ordered_brackets(&sdw) {
        return Err(violation(0));
    }
    if !is_within_bound(&sdw, word) {
        return Err(violation(15));
    }
    word_in_core(core, &sdw, word)
}

/// The value of a word of a segment, without access checks, or None if the word has no place in
/// core. No mark is set.
#[tactic(auto, unfolding(m36_model::specs::Sight::content_in))]
pub fn content(core: &Core, dbr: Dbr, seg: u16, word: u32) -> Option<Word>
    requires seg { seg < 2 ^ 15 }
    requires word { word < 2 ^ 18 }
    ensures { result ≡ content_in core_store core.now dbr seg word }
{
    match place(core, dbr, seg, word) {
        Ok(a) => Some(core.peek(a)),
        Err(_) => None,
    }
}
