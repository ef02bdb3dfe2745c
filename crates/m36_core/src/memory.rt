//! Core memory.

ghost use Rattle.std.specs.Prelude.{ℕ, List, ◌≡◌, ◌+◌, ◌*◌, ◌%◌, ◌<◌, ◌≤◌, ◌^◌, IfOk, Some, length};
ghost use Rattle.std.specs.Prelude.{map, replicate, slice_index, slice_set};
ghost use Rattle.std.specs.Borrow.{sem};
ghost use Rattle.m36_word.specs.Field.{frames_reached};
ghost use Rattle.m36_core.specs.Frames.{frame_words};

use crate::cells::{Base, Cells, Deed, allocate, deallocate};
use m36_word::{NoMemory, Word};
use std::alloc::Global;
use std::marker::Model;

/// The number of words of a frame.
const FRAME: usize = 1024;

/// Core memory: 1 to 16,384 frames of 1,024 words. Contracts see it as the list of its words.
pub struct Core {
    base: Base<Word>,
    count: usize,
    cells: Cells<Word>,
    deed: Deed<Word, Global>,
    alloc: Global,
}

impl Model for Core {
    ghost use Rattle.std.specs.Prelude.{ℕ, List, ◌≡◌};
    ghost use Rattle.m36_core.specs.Frames.{IsCore};
    ghost use Rattle.m36_core.specs.Places.{slot_values};
    ghost use Rattle.m36_core.specs.Block.{IsBlock};

    ghost Value = { List ℕ };

    ghost view = { λ c. slot_values c.cells.slots };

    ghost invariant = { λ c. IsCore (slot_values c.cells.slots)
        × IsBlock c.base.ptr c.cells.at c.deed.at c.cells.slots c.count c.deed.len
        × (c.deed.alloc ≡ c.alloc) };
}

impl Drop for Core {
    // Returns the block to its allocator.
    fn drop(self) {
        let Core {
            base,
            count,
            cells,
            deed,
            alloc,
        } = self;
        deallocate(&alloc, base, count, cells, deed);
    }
}

/// Writes zero into each of the `count` slots.
fn clear(cells: &mut Cells<Word>, base: Base<Word>, count: usize)
    requires { (base.ptr ≡ cells.old.at) × (length cells.old.slots ≡ count) }
    ensures at { cells.new.at ≡ cells.old.at }
    ensures slots { cells.new.slots ≡ map Some (replicate count 0) }
{
    let mut i = 0;
    while i < count {
        cells.write(base, i, Word::ZERO);
        i += 1;
    }
}

/// Writes one word into each slot.
fn fill(cells: &mut Cells<Word>, base: Base<Word>, words: &[Word])
    requires { (base.ptr ≡ cells.old.at) × (length cells.old.slots ≡ length words.now) }
    ensures at { cells.new.at ≡ cells.old.at }
    ensures slots { cells.new.slots ≡ map Some words.now }
{
    let mut i = 0;
    while i < words.len() {
        cells.write(base, i, words[i]);
        i += 1;
    }
}

impl Core {
    ghost use Rattle.m36_core.specs.Lending.{LendsFrame};

    /// Core of `frames` frames, with every word zero. Fails only if memory runs out.
    pub fn new(alloc: Global, frames: u32) -> Result<Core, NoMemory>
        requires some { 1 ≤ frames }
        requires most { frames ≤ frames_reached }
        ensures { IfOk result (λ core. core ≡ replicate (1024 * frames) 0) }
    {
        let count = frames as usize * FRAME;
        let (base, mut cells, deed) = allocate(&alloc, count)?;
        clear(&mut cells, base, count);
        Ok(Core {
            base,
            count,
            cells,
            deed,
            alloc,
        })
    }

    /// The number of words, a multiple of 1,024.
    pub fn len(&self) -> u32
        ensures value { result ≡ length self.now }
        ensures whole { length self.now % 1024 ≡ 0 }
        ensures most { length self.now ≤ 2 ^ 24 }
    {
        self.count as u32
    }

    /// All words, in the order of their addresses.
    pub fn words(&self) -> &[Word]
        ensures { result.now ≡ self.now }
    {
        let base = self.base;
        self.cells.slice(base, 0, self.count)
    }

    /// The word at an address.
    pub fn peek(&self, a: u32) -> Word
        requires { a < length self.now }
        ensures { result ≡ slice_index self.now a }
    {
        let base = self.base;
        *self.cells.get(base, a as usize)
    }

    /// Writes the word at an address.
    pub fn poke(&mut self, a: u32, w: Word)
        requires { a < length self.old }
        ensures { self.new ≡ slice_set self.old a w }
    {
        let base = self.base;
        self.cells.write(base, a as usize, w);
    }

    /// The 1,024 words of frame `f`.
    pub fn page(&self, f: u32) -> &[Word]
        requires { 1024 * f < length self.now }
        ensures words { result.now ≡ frame_words self.now f }
        ensures len { length result.now ≡ 1024 }
    {
        let first = FRAME * f as usize;
        let base = self.base;
        self.cells.slice(base, first, FRAME)
    }

    /// The 1,024 words of frame `f`, to be written. No other word changes.
    pub fn page_mut(&mut self, f: u32) -> &mut [Word]
        requires { 1024 * f < length self.old }
        ensures* lends { sem 𝓛 (LendsFrame self.entry f result) }
        ensures words { result.now ≡ frame_words self.old f }
        ensures len { length result.now ≡ 1024 }
    {
        let first = FRAME * f as usize;
        let base = self.base;
        self.cells.slice_mut(base, first, FRAME)
    }

    /// A second core with the same words. Fails only if memory runs out.
    pub fn copy(&self, alloc: Global) -> Result<Core, NoMemory>
        ensures { IfOk result (λ core. core ≡ self.now) }
    {
        let count = self.count;
        let (base, mut cells, deed) = allocate(&alloc, count)?;
        fill(&mut cells, base, self.words());
        Ok(Core {
            base,
            count,
            cells,
            deed,
            alloc,
        })
    }
}
