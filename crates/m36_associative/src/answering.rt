//! Pages in front answer references: by key, end and ring, without a lookup of a descriptor.
//!
//! None means that the page is not in front, or that it does not answer this reference. The caller
//! then makes the reference by the tables, which also decide why it is refused, if it is.

ghost use Rattle.std.specs.Prelude.{ℕ, ◌≡◌, ◌+◌, ◌/◌, ◌≤◌, ◌%◌, ◌<◌, ◌^◌, true, false, IfSome};
ghost use Rattle.std.specs.Prelude.{IsTrue};
ghost use Rattle.m36_associative.specs.Right.{AreCoherent, DescribesPage, Answers, MayRead};
ghost use Rattle.m36_associative.specs.Right.{MayWrite, MayFetch, MayTransferTo};

use crate::front::{Page, key_of, slot_of};
use crate::memories::Memories;
use m36_core::Core;
use m36_desc::Dbr;

/// The page that has a word, if it is in front, and `count` words from this one on are within the
/// bound and in core.
#[inline(always)]
fn page_with<'a>(
    _core: &Core,
    _dbr: Dbr,
    memories: &'a Memories,
    seg: u16,
    word: u32,
    count: u32,
) -> Option<&'a Page>
    requires seg { seg < 2 ^ 15 }
    requires word { word < 2 ^ 18 }
    requires count { count ≤ 16 }
    requires right { AreCoherent _core.now _dbr memories.now }
    ensures page { IfSome result (λ p. DescribesPage _core.now _dbr memories.now.words
        memories.now.tables p.now seg (word / 1024)) }
    ensures end { IfSome result (λ p. word % 1024 + count ≤ p.now.end) }
{
    let page = &memories.pages[slot_of(seg, word)];
    if page.key != key_of(seg, word) {
        return None;
    }
    if (page.end as u32) < word % 1024 + count {
        return None;
    }
    Some(page)
}

/// The core address of a word of a page.
#[inline(always)]
fn place_in(page: &Page, word: u32) -> u32
    requires { page.now.base < 2 ^ 24 }
    ensures { result ≡ page.now.base + word % 1024 }
{
    page.base + word % 1024
}

/// The core address of the first of `count` words that are read in a ring, and R1 of their segment.
#[inline(always)]
pub fn place_to_read(
    core: &Core,
    dbr: Dbr,
    memories: &mut Memories,
    seg: u16,
    ring: u8,
    word: u32,
    count: u32,
) -> Option<(u32, u8)>
    requires seg { seg < 2 ^ 15 }
    requires word { word < 2 ^ 18 }
    requires some { 1 ≤ count }
    requires few { count ≤ 16 }
    requires right { AreCoherent core.now dbr memories.old }
    ensures found { IfSome result (λ r. Answers core.now dbr
        (λ d. MayRead ring d × (r.1 ≡ d.r1)) false seg word count r.0) }
    ensures bound { IfSome result (λ r. r.1 < 2 ^ 3) }
    ensures right { AreCoherent core.now dbr memories.new }
{
    let page = page_with(core, dbr, memories, seg, word, count)?;
    if ring >= page.read_below {
        return None;
    }
    let place = place_in(page, word);
    let r1 = page.r1;
    memories.touch(slot_of(seg, word));
    Some((place, r1))
}

/// The core address of the first of `count` words that are to be written in a ring.
#[inline(always)]
pub fn place_to_write(
    core: &Core,
    dbr: Dbr,
    memories: &mut Memories,
    seg: u16,
    ring: u8,
    word: u32,
    count: u32,
) -> Option<u32>
    requires seg { seg < 2 ^ 15 }
    requires word { word < 2 ^ 18 }
    requires some { 1 ≤ count }
    requires few { count ≤ 16 }
    requires right { AreCoherent core.now dbr memories.old }
    ensures found { IfSome result (λ a. Answers core.now dbr (MayWrite ring) true seg word
        count a) }
    ensures right { AreCoherent core.now dbr memories.new }
{
    let page = page_with(core, dbr, memories, seg, word, count)?;
    if ring >= page.write_below {
        return None;
    }
    let place = place_in(page, word);
    memories.touch(slot_of(seg, word));
    Some(place)
}

/// The core address of a word that is read in a ring and then written.
#[inline(always)]
pub fn place_to_change(
    core: &Core,
    dbr: Dbr,
    memories: &mut Memories,
    seg: u16,
    ring: u8,
    word: u32,
) -> Option<u32>
    requires seg { seg < 2 ^ 15 }
    requires word { word < 2 ^ 18 }
    requires right { AreCoherent core.now dbr memories.old }
    ensures read { IfSome result (λ a. Answers core.now dbr (MayRead ring) false seg word 1 a) }
    ensures write { IfSome result (λ a. Answers core.now dbr (MayWrite ring) true seg word 1 a) }
    ensures right { AreCoherent core.now dbr memories.new }
{
    let page = page_with(core, dbr, memories, seg, word, 1)?;
    if ring >= page.read_below {
        return None;
    }
    if ring >= page.write_below {
        return None;
    }
    let place = place_in(page, word);
    memories.touch(slot_of(seg, word));
    Some(place)
}

/// Whether a ring may fetch from a page in front.
#[inline(always)]
fn may_fetch_from(page: &Page, ring: u8) -> bool
    ensures { IsTrue result → (page.now.r1 ≤ ring) × (ring < page.now.fetch_below) }
{
    page.r1 <= ring && ring < page.fetch_below
}

/// The core address of a word that is fetched in a ring, if it is in the page that is fetched from;
/// and whether its segment may execute privileged instructions.
#[inline(always)]
fn find_in_fetching_page(
    _core: &Core,
    _dbr: Dbr,
    memories: &Memories,
    seg: u16,
    ring: u8,
    word: u32,
) -> Option<(u32, bool)>
    requires word { word < 2 ^ 18 }
    requires right { AreCoherent _core.now _dbr memories.now }
    ensures { IfSome result (λ r. Answers _core.now _dbr
        (λ d. MayFetch ring d × (r.1 ≡ d.privileged)) false seg word 1 r.0) }
{
    let page = &memories.fetching;
    let offset = word.wrapping_sub(page.first);
    if offset >= page.len {
        return None;
    }
    if page.seg != seg {
        return None;
    }
    if page.ring != ring {
        return None;
    }
    Some((page.base + offset, page.privileged))
}

/// The core address of a word that is fetched in a ring, if it is in the page that was fetched from
/// last, in the same ring; and whether its segment may execute privileged instructions.
#[inline(always)]
pub fn place_to_fetch(
    core: &Core,
    dbr: Dbr,
    memories: &mut Memories,
    seg: u16,
    ring: u8,
    word: u32,
) -> Option<(u32, bool)>
    requires word { word < 2 ^ 18 }
    requires right { AreCoherent core.now dbr memories.old }
    ensures found { IfSome result (λ r. Answers core.now dbr
        (λ d. MayFetch ring d × (r.1 ≡ d.privileged)) false seg word 1 r.0) }
    ensures right { AreCoherent core.now dbr memories.new }
{
    let found = find_in_fetching_page(core, dbr, memories, seg, ring, word)?;
    memories.touch_fetching();
    Some(found)
}

/// As `place_to_fetch`, from any page in front. This page becomes the one that is fetched from.
#[inline(never)]
pub fn place_to_fetch_elsewhere(
    core: &Core,
    dbr: Dbr,
    memories: &mut Memories,
    seg: u16,
    ring: u8,
    word: u32,
) -> Option<(u32, bool)>
    requires seg { seg < 2 ^ 15 }
    requires word { word < 2 ^ 18 }
    requires right { AreCoherent core.now dbr memories.old }
    ensures found { IfSome result (λ r. Answers core.now dbr
        (λ d. MayFetch ring d × (r.1 ≡ d.privileged)) false seg word 1 r.0) }
    ensures right { AreCoherent core.now dbr memories.new }
{
    let page = *page_with(core, dbr, memories, seg, word, 1)?;
    if !may_fetch_from(&page, ring) {
        return None;
    }
    let place = place_in(&page, word);
    memories.fetch_from(&page, seg, ring, word);
    Some((place, page.privileged))
}

/// Whether a transfer in a ring, from the same ring, may go to a word of a page in front. This does
/// not count as a use of the page.
#[inline(always)]
pub fn may_transfer_to(
    core: &Core,
    dbr: Dbr,
    memories: &Memories,
    seg: u16,
    ring: u8,
    word: u32,
) -> bool
    requires seg { seg < 2 ^ 15 }
    requires word { word < 2 ^ 18 }
    requires right { AreCoherent core.now dbr memories.now }
    ensures { IsTrue result → (a : ℕ) × Answers core.now dbr
        (MayTransferTo ring) false seg word 1 a }
{
    if let Some(_found) = find_in_fetching_page(core, dbr, memories, seg, ring, word) {
        return true;
    }
    match page_with(core, dbr, memories, seg, word, 1) {
        Some(page) => may_fetch_from(page, ring),
        None => false,
    }
}
