//! Lookups: in the memories first, and in core only if nothing is kept.

ghost use Rattle.std.specs.Prelude.{ℕ, ◌≡◌, ◌+◌, ◌/◌, ◌%◌, ◌<◌, ◌^◌, Some, Ok, true, false, IfOk};
ghost use Rattle.std.specs.Prelude.{IfSome, OnOk, OnSome, IsTrue, length};
ghost use Rattle.m36_model.specs.Place.{wrapped_address, address_in_frame, ptw_at, directory_at};
ghost use Rattle.m36_model.specs.Place.{page_at, sdw_place, core_sdw, word_place};
ghost use Rattle.m36_tables.specs.Tables.{TableWordIsInCore};
ghost use Rattle.m36_associative.specs.Right.{AreCoherent, IsWatched, IsKeptDescriptor};
ghost use Rattle.m36_associative.specs.Right.{IsKeptTableWord, DescribesPage, IsMarked, page_key};
ghost use Rattle.m36_associative.specs.Watched.{is_watched};

use crate::front::{Page, slot_of};
use crate::kept::ENTRIES;
use crate::memories::Memories;
use crate::page_rights::page_of;
use crate::watched_words::{rewatch, watch_words};
use crate::writing::with_mark;
use m36_core::Core;
use m36_desc::{Dbr, Ptw, Sdw};
use m36_model::Refusal;
use m36_tables::{address_in_frame, directory_at, page_at, page_table_word, wrapped_address};

/// The descriptor of a segment, if entry `e` has it.
#[inline(always)]
fn sdw_of_entry(_core: &Core, _dbr: Dbr, memories: &Memories, e: usize, seg: u16) -> Option<Sdw>
    requires entry { e < 16 }
    requires right { AreCoherent _core.now _dbr memories.now }
    ensures { IfSome result (λ d. IsKeptDescriptor _core.now _dbr memories.now.words
        memories.now.tables seg d) }
{
    let kept = &memories.sdws[e];
    if kept.key != seg as u32 + 1 {
        return None;
    }
    Some(kept.sdw)
}

/// The kept descriptor of a segment, with its entry. The entry that was found last is tried first.
fn kept_sdw(core: &Core, dbr: Dbr, memories: &Memories, seg: u16) -> Option<(usize, Sdw)>
    requires { AreCoherent core.now dbr memories.now }
    ensures entry { IfSome result (λ r. r.0 < 16) }
    ensures kept { IfSome result (λ r. IsKeptDescriptor core.now dbr memories.now.words
        memories.now.tables seg r.1) }
{
    let last = memories.uses.sdws.last as usize % ENTRIES;
    if let Some(sdw) = sdw_of_entry(core, dbr, memories, last, seg) {
        return Some((last, sdw));
    }
    for e in 0..ENTRIES {
        if let Some(sdw) = sdw_of_entry(core, dbr, memories, e, seg) {
            return Some((e, sdw));
        }
    }
    None
}

/// The page table word at address `a`, if entry `e` has it.
#[inline(always)]
fn ptw_of_entry(_core: &Core, _dbr: Dbr, memories: &Memories, e: usize, a: u32) -> Option<Ptw>
    requires entry { e < 16 }
    requires address { a < 2 ^ 24 }
    requires right { AreCoherent _core.now _dbr memories.now }
    ensures { IfSome result (λ p. IsKeptTableWord _core.now _dbr memories.now.words
        memories.now.tables a p) }
{
    let kept = &memories.ptws[e];
    if kept.key != a + 1 {
        return None;
    }
    Some(kept.ptw)
}

/// The kept page table word at an address, with its entry. The entry that was found last is tried
/// first.
fn kept_ptw(core: &Core, dbr: Dbr, memories: &Memories, a: u32) -> Option<(usize, Ptw)>
    requires address { a < 2 ^ 24 }
    requires right { AreCoherent core.now dbr memories.now }
    ensures entry { IfSome result (λ r. r.0 < 16) }
    ensures kept { IfSome result (λ r. IsKeptTableWord core.now dbr memories.now.words
        memories.now.tables a r.1) }
{
    let last = memories.uses.ptws.last as usize % ENTRIES;
    if let Some(ptw) = ptw_of_entry(core, dbr, memories, last, a) {
        return Some((last, ptw));
    }
    for e in 0..ENTRIES {
        if let Some(ptw) = ptw_of_entry(core, dbr, memories, e, a) {
            return Some((e, ptw));
        }
    }
    None
}

/// The descriptor of a segment if it is kept, without a look at core. It becomes the one that was
/// used last.
fn recalled_descriptor(_core: &Core, _dbr: Dbr, memories: &mut Memories, seg: u16) -> Option<Sdw>
    requires { AreCoherent _core.now _dbr memories.old }
    ensures found { IfSome result (λ d. core_sdw _core.now _dbr seg ≡ Ok d) }
    ensures passes { OnSome result (TableWordIsInCore (length _core.now) _dbr.unpaged
        (directory_at _dbr seg)) }
    ensures right { AreCoherent _core.now _dbr memories.new }
{
    let (e, sdw) = kept_sdw(_core, _dbr, memories, seg)?;
    memories.touch_sdw(e);
    Some(sdw)
}

/// Watches the words through which the descriptor of a segment is found. Returns false if there is
/// no room.
fn watch_descriptor(_core: &Core, dbr: Dbr, memories: &mut Memories, seg: u16, even: u32) -> bool
    requires seg { seg < 2 ^ 15 }
    requires place { even < 2 ^ 24 }
    requires even { sdw_place _core.now dbr seg ≡ Ok even }
    requires right { AreCoherent _core.now dbr memories.old }
    ensures watches { IsTrue result → IsWatched _core.now dbr memories.new.words
        memories.new.tables seg }
    ensures right { AreCoherent _core.now dbr memories.new }
{
    watch_words(
        _core,
        dbr,
        &mut memories.words,
        &mut memories.tables,
        seg,
        even,
    )
}

/// Keeps a descriptor in entry `e`, in place of what was there. Its words are watched already.
fn put_descriptor(_core: &Core, _dbr: Dbr, memories: &mut Memories, e: usize, seg: u16, sdw: &Sdw)
    requires place { e < 16 }
    requires found { core_sdw _core.now _dbr seg ≡ Ok sdw.now }
    requires watches { IsWatched _core.now _dbr memories.old.words memories.old.tables seg }
    requires right { AreCoherent _core.now _dbr memories.old }
    ensures { AreCoherent _core.now _dbr memories.new }
{
    memories.put_sdw(e, seg, sdw);
}

/// Keeps the descriptor of a segment, whose even word is at address `even`. It is not kept if there
/// is no room to watch its words.
fn keep_descriptor(core: &Core, dbr: Dbr, memories: &mut Memories, seg: u16, even: u32, sdw: &Sdw)
    requires seg { seg < 2 ^ 15 }
    requires place { even < 2 ^ 24 }
    requires even { sdw_place core.now dbr seg ≡ Ok even }
    requires found { core_sdw core.now dbr seg ≡ Ok sdw.now }
    requires right { AreCoherent core.now dbr memories.old }
    ensures { AreCoherent core.now dbr memories.new }
{
    let e = memories.place_for_sdw();
    if !watch_descriptor(core, dbr, memories, seg, even) {
        rewatch(core, dbr, memories);
        if !watch_descriptor(core, dbr, memories, seg, even) {
            memories.forget();
            return;
        }
    }
    put_descriptor(core, dbr, memories, e, seg, sdw);
}

/// The descriptor of a live segment, or the fault of its lookup, as the tables in core have it.
#[tactic(auto, unfolding(m36_model::specs::Place::core_sdw))]
pub fn descriptor(core: &Core, dbr: Dbr, memories: &mut Memories, seg: u16) -> Result<Sdw, Refusal>
    requires seg { seg < 2 ^ 15 }
    requires right { AreCoherent core.now dbr memories.old }
    ensures value { result ≡ core_sdw core.now dbr seg }
    ensures directory { OnOk result (TableWordIsInCore (length core.now) dbr.unpaged
        (directory_at dbr seg)) }
    ensures right { AreCoherent core.now dbr memories.new }
{
    if let Some(sdw) = recalled_descriptor(core, dbr, memories, seg) {
        return Ok(sdw);
    }
    let even = m36_tables::descriptor_place(core, dbr, seg)?;
    let sdw = m36_tables::descriptor(core, dbr, seg)?;
    keep_descriptor(core, dbr, memories, seg, even, &sdw);
    Ok(sdw)
}

/// The page table word at an address if it is kept, without a look at core. It becomes the one that
/// was used last.
fn recalled_table_word(_core: &Core, _dbr: Dbr, memories: &mut Memories, a: u32) -> Option<Ptw>
    requires address { a < 2 ^ 24 }
    requires right { AreCoherent _core.now _dbr memories.old }
    ensures finds { IfSome result (λ p. (offset : ℕ) → address_in_frame (ptw_at _core.now a) offset
        ≡ address_in_frame (Some p) offset) }
    ensures inside { OnSome result (a < length _core.now) }
    ensures right { AreCoherent _core.now _dbr memories.new }
{
    let (e, ptw) = kept_ptw(_core, _dbr, memories, a)?;
    memories.touch_ptw(e);
    Some(ptw)
}

/// Watches a page table word. Returns false if there is no room.
fn watch_table_word(_core: &Core, _dbr: Dbr, memories: &mut Memories, a: u32) -> bool
    requires { AreCoherent _core.now _dbr memories.old }
    ensures watches { IsTrue result → is_watched memories.new.tables a ≡ true }
    ensures right { AreCoherent _core.now _dbr memories.new }
{
    memories.tables.add(a)
}

/// Keeps a page table word in entry `e`, in place of what was there. It is watched already.
fn put_table_word(_core: &Core, _dbr: Dbr, memories: &mut Memories, e: usize, a: u32, ptw: &Ptw)
    requires place { e < 16 }
    requires found { ptw_at _core.now a ≡ Some ptw.now }
    requires inside { a < length _core.now }
    requires address { a < 2 ^ 24 }
    requires watches { is_watched memories.old.tables a ≡ true }
    requires right { AreCoherent _core.now _dbr memories.old }
    ensures { AreCoherent _core.now _dbr memories.new }
{
    memories.put_ptw(e, a, ptw);
}

/// Keeps the page table word at an address. It is not kept if there is no room to watch it.
fn keep_table_word(core: &Core, dbr: Dbr, memories: &mut Memories, a: u32)
    requires address { a < 2 ^ 24 }
    requires right { AreCoherent core.now dbr memories.old }
    ensures { AreCoherent core.now dbr memories.new }
{
    let ptw = match page_table_word(core, a) {
        Some(ptw) => ptw,
        None => return,
    };
    let e = memories.place_for_ptw();
    if !watch_table_word(core, dbr, memories, a) {
        rewatch(core, dbr, memories);
        if !watch_table_word(core, dbr, memories, a) {
            memories.forget();
            return;
        }
    }
    put_table_word(core, dbr, memories, e, a, &ptw);
}

/// The address of a word that is within the bound, as the tables in core have it. It may be past
/// the end of core.
pub fn word_place(
    core: &Core,
    dbr: Dbr,
    memories: &mut Memories,
    sdw: &Sdw,
    word: u32,
) -> Result<u32, Refusal>
    requires word { word < 2 ^ 18 }
    requires right { AreCoherent core.now dbr memories.old }
    ensures value { result ≡ word_place core.now sdw.now word }
    ensures page { OnOk result (TableWordIsInCore (length core.now) sdw.now.unpaged
        (page_at sdw.now (word / 1024))) }
    ensures bound { IfOk result (λ a. a < 2 ^ 24) }
    ensures right { AreCoherent core.now dbr memories.new }
{
    if sdw.unpaged {
        return Ok(wrapped_address(sdw.addr + word));
    }
    let a = page_at(sdw, word / 1024);
    if let Some(ptw) = recalled_table_word(core, dbr, memories, a) {
        return address_in_frame(Some(ptw), word % 1024);
    }
    let place = m36_tables::word_place(core, sdw, word)?;
    keep_table_word(core, dbr, memories, a);
    Ok(place)
}

/// Whether a page table word is marked as used or, if `modified` is on, as used and modified.
fn is_marked(core: &Core, a: u32, modified: bool) -> bool
    ensures { IsTrue result → IsMarked core.now a modified }
{
    if a >= core.len() {
        return false;
    }
    let word = core.peek(a);
    with_mark(word, modified) == word
}

/// Whether the page table word through which the descriptor of a segment is found, if there is one,
/// is marked as used.
fn is_directory_marked(core: &Core, dbr: Dbr, seg: u16) -> bool
    requires { seg < 2 ^ 15 }
    ensures { IsTrue result → dbr.unpaged ≡ false
        → IsMarked core.now (directory_at dbr seg) false }
{
    if dbr.unpaged {
        return true;
    }
    is_marked(core, directory_at(dbr, seg), false)
}

/// The page that has a word, if the memories keep what it is found by and its marks are set; and
/// whether it was found through a page table word.
fn found_page(
    core: &Core,
    dbr: Dbr,
    memories: &Memories,
    seg: u16,
    word: u32,
) -> Option<(Page, bool)>
    requires seg { seg < 2 ^ 15 }
    requires word { word < 2 ^ 18 }
    requires right { AreCoherent core.now dbr memories.now }
    ensures page { IfSome result (λ r. DescribesPage core.now dbr memories.now.words
        memories.now.tables
        r.0 seg (word / 1024)) }
    ensures key { IfSome result (λ r. r.0.key ≡ page_key seg (word / 1024)) }
{
    let (_entry, sdw) = kept_sdw(core, dbr, memories, seg)?;
    if !is_directory_marked(core, dbr, seg) {
        return None;
    }
    if sdw.unpaged {
        let base = wrapped_address(sdw.addr + word / 1024 * 1024);
        return Some((page_of(core, &sdw, seg, word, base, true), false));
    }
    let a = page_at(&sdw, word / 1024);
    let (_word_entry, ptw) = kept_ptw(core, dbr, memories, a)?;
    if !ptw.f {
        return None;
    }
    if !is_marked(core, a, false) {
        return None;
    }
    let base = wrapped_address(ptw.addr / 16 * 1024);
    let modified = is_marked(core, a, true);
    Some((page_of(core, &sdw, seg, word, base, modified), true))
}

/// Puts the page that has a word in front, if the memories keep what it is found by and its marks
/// are set. The entries by which it is found are those that were used last.
pub fn enter(core: &Core, dbr: Dbr, memories: &mut Memories, seg: u16, word: u32)
    requires seg { seg < 2 ^ 15 }
    requires word { word < 2 ^ 18 }
    requires right { AreCoherent core.now dbr memories.old }
    ensures { AreCoherent core.now dbr memories.new }
{
    if let Some((page, paged)) = found_page(core, dbr, memories, seg, word) {
        memories.put_in_front(slot_of(seg, word), page);
        memories.note_entries(slot_of(seg, word), paged);
    }
}
