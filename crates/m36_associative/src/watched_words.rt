//! The words that are watched: those on which kept entries depend.

ghost use Rattle.std.specs.Prelude.{ℕ, ◌≡◌, ◌+◌, ◌<◌, ◌^◌, true, Contains, IsTrue, Ok};
ghost use Rattle.m36_model.specs.Place.{directory_at, sdw_place};
ghost use Rattle.m36_associative.specs.Right.{AreCoherent, IsWatched};
ghost use Rattle.m36_associative.specs.Watched.{is_watched};
ghost use Rattle.m36_associative.specs.declared.kept.SdwEntry.{SdwEntry};
ghost use Rattle.m36_associative.specs.declared.kept.PtwEntry.{PtwEntry};

use crate::kept::{PtwEntry, SdwEntry};
use crate::memories::Memories;
use crate::watch::Watch;
use m36_core::Core;
use m36_desc::Dbr;
use m36_tables::{SEGMENTS, descriptor_place, directory_at, wrapped_address};

/// Watches the words through which the descriptor of a segment is found. Its even word is at
/// address `even`. Returns false if there is no room.
pub(crate) fn watch_words(
    _core: &Core,
    dbr: Dbr,
    words: &mut Watch,
    tables: &mut Watch,
    seg: u16,
    even: u32,
) -> bool
    requires seg { seg < 2 ^ 15 }
    requires place { even < 2 ^ 24 }
    requires even { sdw_place _core.now dbr seg ≡ Ok even }
    ensures watches { IsTrue result → IsWatched _core.now dbr words.new tables.new seg }
    ensures words { (b : ℕ) → is_watched words.old b ≡ true → is_watched words.new b ≡ true }
    ensures tables { (b : ℕ) → is_watched tables.old b ≡ true → is_watched tables.new b ≡ true }
{
    if !words.add(even) {
        return false;
    }
    if !words.add(wrapped_address(even + 1)) {
        return false;
    }
    if dbr.unpaged {
        return true;
    }
    tables.add(directory_at(dbr, seg))
}

/// Watches the words through which the descriptor of a segment is found. Returns false if it has no
/// descriptor, or if there is no room.
fn watch_segment(core: &Core, dbr: Dbr, words: &mut Watch, tables: &mut Watch, seg: u16) -> bool
    ensures watches { IsTrue result → IsWatched core.now dbr words.new tables.new seg }
    ensures words { (b : ℕ) → is_watched words.old b ≡ true → is_watched words.new b ≡ true }
    ensures tables { (b : ℕ) → is_watched tables.old b ≡ true → is_watched tables.new b ≡ true }
{
    if seg >= SEGMENTS {
        return false;
    }
    match descriptor_place(core, dbr, seg) {
        Ok(even) => watch_words(core, dbr, words, tables, seg, even),
        Err(_refusal) => false,
    }
}

/// Watches the words through which a kept descriptor is found. Returns true if the entry is empty,
/// and false if the segment has no descriptor or there is no room.
fn watch_kept(core: &Core, dbr: Dbr, kept: &SdwEntry, words: &mut Watch, tables: &mut Watch) -> bool
    ensures watches { IsTrue result → (seg : ℕ) → kept.now.key ≡ seg + 1
        → IsWatched core.now dbr words.new tables.new seg }
    ensures words { (b : ℕ) → is_watched words.old b ≡ true → is_watched words.new b ≡ true }
    ensures tables { (b : ℕ) → is_watched tables.old b ≡ true → is_watched tables.new b ≡ true }
{
    let key = kept.key;
    if key == 0 {
        return true;
    }
    if key > SEGMENTS as u32 {
        return false;
    }
    watch_segment(core, dbr, words, tables, (key - 1) as u16)
}

/// Watches the words through which all kept descriptors are found. Returns false if there is no
/// room.
fn watch_descriptors(
    core: &Core,
    dbr: Dbr,
    sdws: &[SdwEntry; 16],
    words: &mut Watch,
    tables: &mut Watch,
) -> bool
    ensures { IsTrue result → (e : SdwEntry) (seg : ℕ) → Contains sdws.now e → e.key ≡ seg + 1
        → IsWatched core.now dbr words.new tables.new seg }
{
    for kept in sdws {
        if !watch_kept(core, dbr, kept, words, tables) {
            return false;
        }
    }
    true
}

/// Watches a kept page table word, if there is one. Returns false if there is no room.
fn watch_kept_word(kept: &PtwEntry, tables: &mut Watch) -> bool
    ensures watches { IsTrue result → (a : ℕ) → kept.now.key ≡ a + 1
        → is_watched tables.new a ≡ true }
    ensures more { (b : ℕ) → is_watched tables.old b ≡ true → is_watched tables.new b ≡ true }
{
    let key = kept.key;
    if key == 0 {
        return true;
    }
    tables.add(key - 1)
}

/// Watches all kept page table words. Returns false if there is no room.
fn watch_table_words(ptws: &[PtwEntry; 16], tables: &mut Watch) -> bool
    ensures watches { IsTrue result → (e : PtwEntry) (a : ℕ) → Contains ptws.now e → e.key ≡ a + 1
        → is_watched tables.new a ≡ true }
    ensures more { (b : ℕ) → is_watched tables.old b ≡ true → is_watched tables.new b ≡ true }
{
    for kept in ptws {
        if !watch_kept_word(kept, tables) {
            return false;
        }
    }
    true
}

/// Watches exactly the words on which kept entries depend, and empties the front.
pub(crate) fn rewatch(core: &Core, dbr: Dbr, memories: &mut Memories)
    requires { AreCoherent core.now dbr memories.old }
    ensures { AreCoherent core.now dbr memories.new }
{
    memories.clear_front();
    let mut words = Watch::new();
    let mut tables = Watch::new();
    if !watch_descriptors(core, dbr, &memories.sdws, &mut words, &mut tables) {
        memories.forget();
        return;
    }
    if !watch_table_words(&memories.ptws, &mut tables) {
        memories.forget();
        return;
    }
    memories.words = words;
    memories.tables = tables;
}
