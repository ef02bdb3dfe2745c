//! Words of segments, wherever their pages are.

ghost use Rattle.std.specs.Prelude.{◌≡◌, ◌<◌, ◌^◌, length, true, Ok, Some};
ghost use Rattle.m36_model.specs.Flat.{flat_store};
ghost use Rattle.m36_model.specs.Place.{core_sdw};
ghost use Rattle.m36_model.specs.BootedCore.{booted_dbr};
ghost use Rattle.m36_model.specs.Sight.{content_in};
ghost use Rattle.m36_model.specs.Store.{is_within_bound};
ghost use Rattle.m36_page.specs.Residence.{content_of};
ghost use Rattle.m36_super.specs.SuperFields.{IsManaged, IsRunning};
ghost use Rattle.m36_super.specs.Writing.{flat_by};

use m36_core::Core;
use m36_desc::Sdw;
use m36_page::Pager;
use m36_step::Machine;
use m36_tables::{descriptor, has_ordered_brackets, is_within_bound};
use m36_word::Word;

/// A word within the bound of a segment with this descriptor.
#[tactic(auto, using(crate::proofs::PagedContents::found))]
pub(crate) fn found_word(core: &Core, pager: &Pager, sdw: &Sdw, seg: u16, word: u32) -> Word
    requires managed { IsManaged (length pager.now.holders) core.now pager.now }
    requires live { core_sdw core.now booted_dbr seg ≡ Ok sdw.now }
    requires inside { is_within_bound sdw.now word ≡ true }
    ensures { content_of pager.now core.now seg word ≡ Some result }
{
    match pager.content(core, seg, word) {
        Some(word) => word,
        None => unreachable!(),
    }
}

// A word of the segment with this descriptor, if it has a place.
#[tactic(auto, using(crate::proofs::ConsoleReads::placed_words))]
fn placed_word(core: &Core, pager: &Pager, sdw: &Sdw, seg: u16, word: u32) -> Option<Word>
    requires managed { IsManaged (length pager.now.holders) core.now pager.now }
    requires live { core_sdw core.now booted_dbr seg ≡ Ok sdw.now }
    ensures { result ≡ content_in flat_store (flat_by core.now pager.now) booted_dbr seg word }
{
    if !has_ordered_brackets(sdw) {
        return None;
    }
    if !is_within_bound(sdw, word) {
        return None;
    }
    Some(found_word(core, pager, sdw, seg, word))
}

/// The content of a word of a segment, without access checks; None if it has no place.
#[tactic(auto, using(crate::proofs::ConsoleReads::dead_content))]
pub(crate) fn flat_content(machine: &Machine, pager: &Pager, seg: u16, word: u32) -> Option<Word>
    requires runs { IsRunning (length pager.now.holders) machine.now.state.regs
        machine.now.state.store pager.now }
    requires seg { seg < 2 ^ 15 }
    requires word { word < 2 ^ 18 }
    ensures { result ≡ content_in flat_store (flat_by machine.now.state.store pager.now)
        machine.now.state.regs.dbr seg word }
{
    let core = machine.walk().core();
    match descriptor(core, machine.regs().dbr, seg) {
        Ok(sdw) => placed_word(core, pager, &sdw, seg, word),
        Err(_) => None,
    }
}
