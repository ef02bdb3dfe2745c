//! The two memories, and the pages in front of them.

ghost use Rattle.std.specs.Prelude.{ℕ, ◌≡◌, ◌+◌, ◌/◌, ◌<◌, ◌≤◌, ◌^◌, List, Contains};
ghost use Rattle.m36_desc.specs.Fields.{DbrFields};
ghost use Rattle.m36_associative.specs.Right.{AreCoherent, DescribesPage, IsPageInFront};
ghost use Rattle.m36_associative.specs.Right.{IsKeptDescriptor, IsKeptTableWord};
ghost use Rattle.m36_associative.specs.declared.front.Page.{Page};

use crate::front::{Fetching, PAGES, Page, no_fetching, no_page, no_pages, slot_of};
use crate::kept::{PtwEntry, SdwEntry, no_ptws, no_sdws};
use crate::uses::Uses;
use crate::watch::Watch;
use m36_desc::{Ptw, Sdw};

/// What the walk of a reference keeps of the tables that it has read.
#[derive(Drop)]
pub struct Memories {
    /// The pages in front.
    pub(crate) pages: [Page; 16],
    /// The page that instructions are fetched from.
    pub(crate) fetching: Fetching,
    /// The times at which they were used.
    pub(crate) uses: Uses,
    /// Descriptors, by segment number.
    pub(crate) sdws: [SdwEntry; 16],
    /// Page table words, by address.
    pub(crate) ptws: [PtwEntry; 16],
    /// The addresses of the words from which descriptors were read.
    pub(crate) words: Watch,
    /// The addresses of page table words that were read, or through which a descriptor was found.
    pub(crate) tables: Watch,
}

impl Memories {
    /// Empty memories.
    pub fn new() -> Memories
        ensures { (core : List ℕ) (dbr : DbrFields) → AreCoherent core dbr result }
    {
        Memories {
            pages: no_pages(),
            fetching: no_fetching(),
            uses: Uses::none(),
            sdws: no_sdws(),
            ptws: no_ptws(),
            words: Watch::new(),
            tables: Watch::new(),
        }
    }

    /// Empties the front.
    pub(crate) fn clear_front(&mut self)
        ensures right { (core : List ℕ) (dbr : DbrFields) → AreCoherent core dbr self.old
            → AreCoherent core dbr self.new }
        ensures front { (p : Page) → Contains self.new.pages p → p.key ≡ 0 }
        ensures fetching { self.new.fetching.len ≡ 0 }
        ensures words { self.new.words ≡ self.old.words }
    {
        self.uses.note_fetch(&self.fetching);
        self.uses.remove_all_from_front();
        let front = no_pages();
        self.pages = front;
        self.fetching = no_fetching();
    }

    /// Empties everything.
    #[cold]
    #[inline(never)]
    pub fn forget(&mut self)
        ensures { (core : List ℕ) (dbr : DbrFields) → AreCoherent core dbr self.new }
    {
        let front = no_pages();
        self.pages = front;
        self.fetching = no_fetching();
        self.uses = Uses::none();
        let sdws = no_sdws();
        self.sdws = sdws;
        let ptws = no_ptws();
        self.ptws = ptws;
        self.words.clear();
        self.tables.clear();
    }

    /// Records a use of the page at place `i` in front.
    #[inline(always)]
    pub(crate) fn touch(&mut self, i: usize)
        requires { i < 16 }
        ensures { (core : List ℕ) (dbr : DbrFields) → AreCoherent core dbr self.old
            → AreCoherent core dbr self.new }
    {
        self.uses.touch_page(i);
    }

    /// Records a use of the page that is fetched from.
    #[inline(always)]
    pub(crate) fn touch_fetching(&mut self)
        ensures { (core : List ℕ) (dbr : DbrFields) → AreCoherent core dbr self.old
            → AreCoherent core dbr self.new }
    {
        self.fetching.hit = self.uses.clock;
    }

    /// Records a use of a kept descriptor.
    pub(crate) fn touch_sdw(&mut self, e: usize)
        requires { e < 16 }
        ensures { (core : List ℕ) (dbr : DbrFields) → AreCoherent core dbr self.old
            → AreCoherent core dbr self.new }
    {
        self.uses.touch_sdw(e);
    }

    /// Records a use of a kept page table word.
    pub(crate) fn touch_ptw(&mut self, e: usize)
        requires { e < 16 }
        ensures { (core : List ℕ) (dbr : DbrFields) → AreCoherent core dbr self.old
            → AreCoherent core dbr self.new }
    {
        self.uses.touch_ptw(e);
    }

    /// Makes a page in front the one that instructions are fetched from, in a ring.
    pub(crate) fn fetch_from(&mut self, page: &Page, seg: u16, ring: u8, word: u32)
        requires seg { seg < 2 ^ 15 }
        requires word { word < 2 ^ 18 }
        requires above { page.now.r1 ≤ ring }
        requires below { ring < page.now.fetch_below }
        ensures { (core : List ℕ) (dbr : DbrFields) → AreCoherent core dbr self.old
            → DescribesPage core dbr self.old.words self.old.tables page.now seg (word / 1024)
            → AreCoherent core dbr self.new }
    {
        self.uses.note_fetch(&self.fetching);
        self.uses.clock = self.uses.clock.wrapping_add(2);
        self.fetching = Fetching {
            hit: self.uses.clock,
            first: word - word % 1024,
            base: page.base,
            len: page.end as u32,
            seg,
            ring,
            slot: slot_of(seg, word) as u8,
            privileged: page.privileged,
        };
    }

    /// Puts a page in front, in place of another. No page is fetched from until the next fetch.
    pub(crate) fn put_in_front(&mut self, i: usize, page: Page)
        requires { i < 16 }
        ensures { (core : List ℕ) (dbr : DbrFields) → AreCoherent core dbr self.old
            → IsPageInFront core dbr self.old.words self.old.tables page
            → AreCoherent core dbr self.new }
    {
        self.uses.note_fetch(&self.fetching);
        self.uses.remove_from_front(i);
        self.fetching = no_fetching();
        self.pages[i] = page;
    }

    /// Records that the page at place `i` in front was found by the entries that were used last.
    pub(crate) fn note_entries(&mut self, i: usize, paged: bool)
        requires { i < 16 }
        ensures { (core : List ℕ) (dbr : DbrFields) → AreCoherent core dbr self.old
            → AreCoherent core dbr self.new }
    {
        self.uses.enter(i, paged);
    }

    /// Removes a page from the front.
    fn remove_from_front(&mut self, i: usize)
        requires { i < 16 }
        ensures { (core : List ℕ) (dbr : DbrFields) → AreCoherent core dbr self.old
            → AreCoherent core dbr self.new }
    {
        let page = no_page();
        self.put_in_front(i, page);
    }

    /// Removes the pages at these places, one bit each, from the front.
    pub(crate) fn remove_places_from_front(&mut self, places: u16)
        ensures { (core : List ℕ) (dbr : DbrFields) → AreCoherent core dbr self.old
            → AreCoherent core dbr self.new }
    {
        let mut left = places;
        for _ in 0..PAGES {
            if left == 0 {
                return;
            }
            let i = left.trailing_zeros() as usize % PAGES;
            left &= left - 1;
            self.remove_from_front(i);
        }
    }

    /// The entry for a new descriptor: the one that was used least recently. Its pages leave the
    /// front.
    pub(crate) fn place_for_sdw(&mut self) -> usize
        ensures place { result < 16 }
        ensures right { (core : List ℕ) (dbr : DbrFields) → AreCoherent core dbr self.old
            → AreCoherent core dbr self.new }
    {
        self.uses.note_fetch(&self.fetching);
        let e = self.uses.least_recent_sdw();
        let places = self.uses.front_places_of_sdw(e);
        self.remove_places_from_front(places);
        e
    }

    /// As `place_for_sdw`, for a page table word.
    pub(crate) fn place_for_ptw(&mut self) -> usize
        ensures place { result < 16 }
        ensures right { (core : List ℕ) (dbr : DbrFields) → AreCoherent core dbr self.old
            → AreCoherent core dbr self.new }
    {
        self.uses.note_fetch(&self.fetching);
        let e = self.uses.least_recent_ptw();
        let places = self.uses.front_places_of_ptw(e);
        self.remove_places_from_front(places);
        e
    }

    /// Keeps a descriptor in entry `e`, as the one used last.
    pub(crate) fn put_sdw(&mut self, e: usize, seg: u16, sdw: &Sdw)
        requires { e < 16 }
        ensures { (core : List ℕ) (dbr : DbrFields) → AreCoherent core dbr self.old
            → IsKeptDescriptor core dbr self.old.words self.old.tables seg sdw.now
            → AreCoherent core dbr self.new }
    {
        self.sdws[e] = SdwEntry {
            key: seg as u32 + 1,
            sdw: *sdw,
        };
        self.uses.touch_sdw(e);
    }

    /// Keeps a page table word in entry `e`, as the one used last.
    pub(crate) fn put_ptw(&mut self, e: usize, a: u32, ptw: &Ptw)
        requires place { e < 16 }
        requires address { a < 2 ^ 24 }
        ensures { (core : List ℕ) (dbr : DbrFields) → AreCoherent core dbr self.old
            → IsKeptTableWord core dbr self.old.words self.old.tables a ptw.now
            → AreCoherent core dbr self.new }
    {
        self.ptws[e] = PtwEntry {
            key: a + 1,
            ptw: *ptw,
        };
        self.uses.touch_ptw(e);
    }

    /// The segment number of the kept descriptor with this rank in the order of use: 0 for the one
    /// that was used last. None if fewer are kept.
    pub fn segment_of_rank(&mut self, rank: usize) -> Option<u16>
        ensures { (core : List ℕ) (dbr : DbrFields) → AreCoherent core dbr self.old
            → AreCoherent core dbr self.new }
    {
        self.uses.note_fetch(&self.fetching);
        let e = self.uses.sdw_of_rank(rank)?;
        let key = self.sdws[e].key;
        Some((key.saturating_sub(1) % 32768) as u16)
    }

    /// The core address of the kept page table word with this rank in the order of use, as in
    /// `segment_of_rank`.
    pub fn table_word_of_rank(&mut self, rank: usize) -> Option<u32>
        ensures { (core : List ℕ) (dbr : DbrFields) → AreCoherent core dbr self.old
            → AreCoherent core dbr self.new }
    {
        self.uses.note_fetch(&self.fetching);
        let e = self.uses.ptw_of_rank(rank)?;
        Some(self.ptws[e].key.saturating_sub(1))
    }
}
