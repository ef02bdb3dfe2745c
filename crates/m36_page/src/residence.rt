//! Page table words: which frame a page is in.

ghost use Rattle.std.specs.Prelude.{◌≡◌, ◌+◌, ◌<◌, ◌≤◌, ◌^◌, slice_index, slice_set, length};
ghost use Rattle.m36_word.specs.Field.{frames_reached};
ghost use Rattle.m36_desc.specs.Descriptors.{ptw_of};
ghost use Rattle.m36_page.specs.Copied.{IsFilled};
ghost use Rattle.m36_page.specs.Residence.{frame_in, absent_ptw, resident_ptw};

use m36_core::Core;
use m36_desc::Ptw;
use m36_tables::page_table_word;

// A frame is 16 units of 64 words.
const UNITS: u32 = 16;

/// The page table word at a place in core.
#[tactic(auto, using(crate::proofs::PageWords::word_there, crate::proofs::PageWords::word_is))]
pub(crate) fn ptw_in_core(core: &Core, spot: u32) -> Ptw
    requires { spot < length core.now }
    ensures { result ≡ ptw_of (slice_index core.now spot) }
{
    match page_table_word(core, spot) {
        Some(ptw) => ptw,
        None => unreachable!(),
    }
}

/// The frame that a page table word names; None if the page is in no frame.
#[tactic(auto, unfolding(crate::specs::Residence::frame_in))]
pub(crate) fn frame_at(core: &Core, spot: u32) -> Option<u32>
    requires { spot < length core.now }
    ensures { result ≡ frame_in (slice_index core.now spot) }
{
    let ptw = ptw_in_core(core, spot);
    if ptw.f { Some(ptw.addr / UNITS) } else { None }
}

/// Writes the page table word of a page in no frame.
pub(crate) fn put_absent(core: &mut Core, spot: u32)
    requires { spot < length core.old }
    ensures { core.new ≡ slice_set core.old spot absent_ptw }
{
    let absent = Ptw {
        addr: 0,
        fc: 1,
        used: false,
        modified: false,
        f: false,
    };
    core.poke(spot, absent.to_words());
}

/// Writes the page table word of a page in a frame.
pub(crate) fn put_resident(core: &mut Core, spot: u32, frame: u32)
    requires spot { spot < length core.old }
    requires frame { frame < frames_reached }
    ensures { core.new ≡ slice_set core.old spot (resident_ptw frame) }
{
    let resident = Ptw {
        addr: UNITS * frame,
        fc: 0,
        used: false,
        modified: false,
        f: true,
    };
    core.poke(spot, resident.to_words());
}

/// Writes `pages` page table words of pages in no frame, from place `at` on.
pub(crate) fn put_all_absent(core: &mut Core, at: u32, pages: u16)
    requires room { at + pages ≤ length core.old }
    requires most { length core.old < 2 ^ 32 }
    ensures { IsFilled at pages absent_ptw core.old core.new }
{
    for page in 0..pages {
        put_absent(core, at + page as u32);
    }
}
