//! The pager.

ghost use Rattle.std.specs.Prelude.{ℕ, ◌≡◌, ◌≢◌, ◌+◌, ◌-◌, ◌^◌, ◌*◌, ◌/◌, ◌<◌, ◌≤◌, ◌⊎◌, true};
ghost use Rattle.std.specs.Prelude.{false, ◌&&◌, if◌then◌else◌, length, slice_index_or, slice_set};
ghost use Rattle.std.specs.Prelude.{replicate, IfOk, Some, None, IsSome, IfSome, IfNone, OnOk};
ghost use Rattle.std.specs.Prelude.{OnErr};
ghost use Rattle.m36_page.specs.Residence.{has_page, spot_of, kept_word, frame_of, content_of};
ghost use Rattle.m36_page.specs.Residence.{Holds, IsPager, AgreesWithCore, AllEndBelow, HasFrames};
ghost use Rattle.m36_page.specs.Residence.{IsConsistent};
ghost use Rattle.m36_page.specs.Changes.{IsBrought, IsSet, IsUnpinnedPtwPlace, AllPinned, AllEmpty};
ghost use Rattle.m36_page.specs.Changes.{AreAbsent};
ghost use Rattle.m36_page.specs.Choice.{IsUnpinned, ClearsMarksAt};
ghost use Rattle.m36_page.specs.Given.{are_placed, initial_pager};
ghost use Rattle.m36_page.specs.Moved.{IsEvicted, IsTakenIn, IsEmptied, IsKeptWordSet};

use crate::choice::choose;
use crate::residence::{frame_at, put_absent, put_resident};
use crate::table::{
    PageTable, Table, copy_page_in, copy_page_out, filled_tables, find_table, put_absent_tables,
    put_word, table_index, word_of,
};
use m36_core::Core;
use m36_model::{Reference, Refs};
use m36_word::{NoMemory, Word};
use std::alloc::Global;
use std::marker::Model;

// The number of words of a page.
const PAGE: u32 = 1024;

/// The error if there is no frame for a page: every frame holds a pinned page.
#[derive(Clone, Copy, PartialEq, Eq)]
pub struct Pinned;

/// The pages of segments: which pageable frame holds which page, and the words of the pages that
/// are in no frame. The model is the number of the first pageable frame, the page that each of
/// them holds, and the tables with the kept words.
///
/// Each call with a core requires that the core has the pageable frames. Each call except `lay`
/// also requires that every page table word of the tables is as the last call left it, except for
/// its marks. Before the first call every page is in no frame. `lay` writes these words, and
/// requires that no frame holds a page yet.
#[derive(Drop)]
pub struct Pager {
    holders: Vec<Option<(u16, u16)>>,
    // The place of the page table word of each frame's page, for the frames that hold one.
    spots: Vec<u32>,
    tables: Vec<Table>,
    first: u32,
    // The next frame that the hand looks at, from 0 on.
    hand: usize,
}

impl Model for Pager {
    ghost use Rattle.std.specs.Prelude.{◌≤◌, length};
    ghost use Rattle.m36_page.specs.Fields.{PagerFields};
    ghost use Rattle.m36_page.specs.Residence.{HasPtwPlaces};

    ghost Value = { PagerFields };

    ghost view = { λ p.
        record { first = p.first; holders = p.holders.items; tables = p.tables.items } };

    ghost invariant = { λ p. (HasPtwPlaces
        (record { first = p.first; holders = p.holders.items; tables = p.tables.items })
        p.spots.items) × (p.hand ≤ length p.holders.items) };
}

// `frames` frames, none of which holds a page.
fn empty_frames(alloc: Global, frames: usize) -> Result<Vec<Option<(u16, u16)>>, NoMemory>
    ensures { IfOk result (λ holders. holders.items ≡ replicate frames None) }
{
    let mut holders = Vec::with_capacity(alloc, frames)?;
    holders.resize(frames, None)?;
    Ok(holders)
}

// `frames` core addresses, all zero: an entry has no meaning as long as its frame holds no page.
fn no_spots(alloc: Global, frames: usize) -> Result<Vec<u32>, NoMemory>
    ensures { IfOk result (λ spots. spots.items ≡ replicate frames 0) }
{
    let mut spots = Vec::with_capacity(alloc, frames)?;
    spots.resize(frames, 0)?;
    Ok(spots)
}

// The index after `place`, or 0 after the last.
fn next_of(place: usize, count: usize) -> usize
    requires { place < count }
    ensures { result ≤ count }
{
    if place + 1 < count { place + 1 } else { 0 }
}

impl Pager {
    /// A pager over `frames` frames of core from frame `first` on, none of which holds a page yet.
    /// The page table words have distinct places, all below frame `first`. Fails only with
    /// `NoMemory`. Later calls allocate nothing; no clause says so.
    pub fn new(
        alloc: Global,
        first: u32,
        frames: u32,
        tables: &[PageTable],
    ) -> Result<Pager, NoMemory>
        requires { are_placed first tables.now ≡ true }
        ensures given { IfOk result (λ p. p ≡ initial_pager first frames tables.now) }
        ensures empty { IfOk result AllEmpty }
        ensures room { IfOk result (λ p. AllEndBelow first p.tables) }
    {
        Ok(Pager {
            holders: empty_frames(alloc, frames as usize)?,
            spots: no_spots(alloc, frames as usize)?,
            tables: filled_tables(alloc, tables)?,
            first,
            hand: 0,
        })
    }

    /// Writes the page table word of every page, as that of a page in no frame. No frame may hold
    /// a page yet. No other core word changes.
    pub fn lay(&self, core: &mut Core)
        requires frames { HasFrames self.now core.old }
        requires empty { AllEmpty self.now }
        requires room { AllEndBelow self.now.first self.now.tables }
        ensures reads { AgreesWithCore self.now core.new }
        ensures others { AreAbsent self.now.tables (length self.now.tables) core.old core.new }
    {
        put_absent_tables(core, &self.tables);
    }

    // The place in core of the page table word of a page.
    fn spot(&self, seg: u16, page: u32) -> u32
        requires frames { 1024 * self.now.first < 2 ^ 32 }
        requires page { has_page self.now seg page ≡ true }
        ensures value { result ≡ spot_of self.now seg page }
        ensures below { result < 1024 * self.now.first }
        ensures pager { IsPager self.now }
    {
        let table = &self.tables[table_index(&self.tables, seg)];
        table.at + page
    }

    // Evicts the page of frame k.
    fn evict_page(&mut self, core: &mut Core, k: usize, seg: u16, page: u16)
        requires settled { IsConsistent self.old core.old }
        requires held { Holds self.old k seg page }
        ensures { IsEvicted self.old core.old self.new core.new k seg page }
    {
        let frame = self.first + k as u32;
        let spot = self.spots[k];
        let i = table_index(&self.tables, seg);
        copy_page_out(&mut self.tables[i], page, core, frame);
        put_absent(core, spot);
        self.holders[k] = None;
    }

    // Evicts the page of frame k, if it holds one.
    fn empty_frame(&mut self, core: &mut Core, k: usize)
        requires settled { IsConsistent self.old core.old }
        requires inside { k < length self.old.holders }
        ensures { IsEmptied self.old core.old self.new core.new k }
    {
        match self.holders[k] {
            Some((seg, page)) => self.evict_page(core, k, seg, page),
            None => {}
        }
    }

    // Takes a page that is in no frame into frame k, which is empty.
    fn take_in(&mut self, core: &mut Core, k: usize, seg: u16, page: u16)
        requires settled { IsConsistent self.old core.old }
        requires inside { k < length self.old.holders }
        requires empty { slice_index_or self.old.holders k None ≡ None }
        requires page { has_page self.old seg page ≡ true }
        requires out { frame_of self.old core.old seg page ≡ None }
        ensures { IsTakenIn self.old core.old self.new core.new k seg page }
    {
        let frame = self.first + k as u32;
        let i = table_index(&self.tables, seg);
        let table = &self.tables[i];
        let spot = table.at + page as u32;
        copy_page_in(table, page, core, frame);
        put_resident(core, spot, frame);
        self.holders[k] = Some((seg, page));
        self.spots[k] = spot;
        self.hand = next_of(k, self.holders.len());
    }

    // The frame to take next, counted from the first pageable one: it holds no page of the
    // references. None if every frame holds one. Clears used marks of pages that the references do
    // not pin.
    fn choose(&self, core: &mut Core, references: &[Reference]) -> Option<usize>
        requires { IsConsistent self.now core.old }
        ensures found { IfSome result (IsUnpinned references.now self.now.holders) }
        ensures none { IfNone result (AllPinned self.now references.now) }
        ensures same { IfNone result (core.new ≡ core.old) }
        ensures marks { ClearsMarksAt core.old core.new
            (IsUnpinnedPtwPlace self.now references.now) }
    {
        choose(core, references, &self.holders, &self.spots, self.hand)
    }

    /// Brings a page into a frame; at most one page is evicted for it. If the page is already in a
    /// frame, nothing changes. The error: the page is in no frame, and every frame holds a page of
    /// `pinned`; then nothing has changed. It cannot occur if there are more frames than
    /// references in `pinned`.
    pub fn bring(
        &mut self,
        core: &mut Core,
        seg: u16,
        page: u16,
        pinned: &Refs,
    ) -> Result<(), Pinned>
        requires frames { HasFrames self.old core.old }
        requires reads { AgreesWithCore self.old core.old }
        requires page { has_page self.old seg page ≡ true }
        ensures ok { OnOk result
            (IsBrought self.old core.old self.new core.new seg page pinned.now.items) }
        ensures err { OnErr result
            ((self.new ≡ self.old) × (core.new ≡ core.old) × AllPinned self.old pinned.now.items) }
        ensures absent { OnErr result (frame_of self.old core.old seg page ≡ None) }
        ensures same { IsSome (frame_of self.old core.old seg page)
            → (self.new ≡ self.old) × (core.new ≡ core.old) }
        ensures room { OnErr result (length self.old.holders ≤ length pinned.now.items) }
        ensures free { OnOk result (IsSome (frame_of self.old core.old seg page)
            ⊎ (AllPinned self.old pinned.now.items → ⊥)) }
        ensures reads { AgreesWithCore self.new core.new }
        ensures pager { IsPager self.new }
        ensures frames { HasFrames self.new core.new }
    {
        let _ = core.len();
        let spot = self.spot(seg, page as u32);
        if frame_at(core, spot).is_some() {
            return Ok(());
        }
        let Some(k) = self.choose(core, pinned.as_slice()) else {
            return Err(Pinned);
        };
        self.empty_frame(core, k);
        self.take_in(core, k, seg, page);
        Ok(())
    }

    /// Evicts the page of a pageable frame. If the frame holds none, nothing changes. The other
    /// frames are unchanged.
    pub fn evict(&mut self, core: &mut Core, frame: u32)
        requires frames { HasFrames self.old core.old }
        requires reads { AgreesWithCore self.old core.old }
        requires first { self.old.first ≤ frame }
        requires last { frame < self.old.first + length self.old.holders }
        ensures emptied { IsEmptied self.old core.old self.new core.new (frame - self.old.first) }
        ensures reads { AgreesWithCore self.new core.new }
        ensures frames { HasFrames self.new core.new }
    {
        let _ = core.len();
        let k = (frame - self.first) as usize;
        self.empty_frame(core, k);
    }

    // Whether a segment has a page; the page number may be any.
    fn has(&self, seg: u16, page: u32) -> bool
        ensures { result ≡ has_page self.now seg page }
    {
        match find_table(&self.tables, seg) {
            Some(i) => {
                let table = &self.tables[i];
                page < table.pages as u32
            }
            None => false,
        }
    }

    /// Whether a segment has a page.
    pub fn has_page(&self, seg: u16, page: u16) -> bool
        ensures { result ≡ has_page self.now seg page }
    {
        self.has(seg, page as u32)
    }

    // The kept word for a word of a segment.
    fn kept_word_of(&self, seg: u16, word: u32) -> Word
        requires { has_page self.now seg (word / 1024) ≡ true }
        ensures { result ≡ kept_word self.now seg word }
    {
        word_of(&self.tables[table_index(&self.tables, seg)], word)
    }

    /// The word of a segment; None exactly if the segment has no table, or the word is past its
    /// pages.
    pub fn content(&self, core: &Core, seg: u16, word: u32) -> Option<Word>
        requires frames { HasFrames self.now core.now }
        requires reads { AgreesWithCore self.now core.now }
        ensures { result ≡ content_of self.now core.now seg word }
    {
        let _ = core.len();
        if !self.has(seg, word / PAGE) {
            return None;
        }
        match frame_at(core, self.spot(seg, word / PAGE)) {
            Some(frame) => Some(core.peek(PAGE * frame + word % PAGE)),
            None => Some(self.kept_word_of(seg, word)),
        }
    }

    /// The place in core of a word of a segment; None if its page is in no frame.
    pub fn place(&self, core: &Core, seg: u16, word: u32) -> Option<u32>
        requires frames { HasFrames self.now core.now }
        requires reads { AgreesWithCore self.now core.now }
        requires page { has_page self.now seg (word / 1024) ≡ true }
        ensures inside { IfSome result (λ a. a < length core.now) }
        ensures set { IfSome result
            (λ a. (v : ℕ) → IsSet self.now core.now self.now (slice_set core.now a v) seg word v) }
        ensures reads { IfSome result (λ a. (v : ℕ) → AgreesWithCore self.now
            (slice_set core.now a v)) }
        ensures away { IfNone result (frame_of self.now core.now seg (word / 1024) ≡ None) }
        ensures pager { IsPager self.now }
    {
        let _ = core.len();
        match frame_at(core, self.spot(seg, word / PAGE)) {
            Some(frame) => Some(PAGE * frame + word % PAGE),
            None => None,
        }
    }

    // Replaces the kept word for a word of a segment.
    fn set_kept_word(&mut self, seg: u16, word: u32, value: Word)
        requires { has_page self.old seg (word / 1024) ≡ true }
        ensures { IsKeptWordSet self.old self.new seg word value }
    {
        let i = table_index(&self.tables, seg);
        put_word(&mut self.tables[i], word, value);
    }

    /// Sets a word of a segment whose page is in no frame, in the kept words. Nothing else
    /// changes.
    pub fn set_kept(&mut self, core: &Core, seg: u16, word: u32, w: Word)
        requires frames { HasFrames self.old core.now }
        requires reads { AgreesWithCore self.old core.now }
        requires page { has_page self.old seg (word / 1024) ≡ true }
        requires pager { IsPager self.old }
        requires away { frame_of self.old core.now seg (word / 1024) ≡ None }
        ensures set { IsSet self.old core.now self.new core.now seg word w }
        ensures reads { AgreesWithCore self.new core.now }
        ensures pager { IsPager self.new }
    {
        let _ = core.len();
        self.set_kept_word(seg, word, w);
    }

    /// Sets a word of a segment: in its frame if its page is in one, and otherwise in the kept
    /// words. Nothing else changes.
    pub fn set(&mut self, core: &mut Core, seg: u16, word: u32, w: Word)
        requires frames { HasFrames self.old core.old }
        requires reads { AgreesWithCore self.old core.old }
        requires page { has_page self.old seg (word / 1024) ≡ true }
        ensures set { IsSet self.old core.old self.new core.new seg word w }
        ensures reads { AgreesWithCore self.new core.new }
        ensures pager { IsPager self.new }
        ensures frames { HasFrames self.new core.new }
    {
        match self.place(core, seg, word) {
            Some(place) => core.poke(place, w),
            None => self.set_kept(core, seg, word, w),
        }
    }
}
