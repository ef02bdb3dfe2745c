//! The words of the pages of a segment while these are in no frame.

ghost use Rattle.std.specs.Prelude.{◌≡◌, ◌+◌, ◌-◌, ◌*◌, ◌≤◌, ◌<◌, ◌++◌, length, replicate};
ghost use Rattle.std.specs.Prelude.{slice_index, slice_set, vec_capacity, IfOk};
ghost use Rattle.m36_page.specs.Copied.{IsCopied};

use crate::copying::{copy_in, copy_out};
use m36_core::Core;
use m36_word::{NoMemory, Word};
use std::alloc::Global;
use std::marker::Model;

// The number of words of a page.
const PAGE: usize = 1024;

/// The words of `count` / 1,024 whole pages; the view is the list of them. Room for all of them is
/// allocated at the start, but only the words up to the last one that was given or kept are
/// written there. Those after it are zero and cost no time.
#[derive(Drop)]
pub(crate) struct KeptWords {
    written: Vec<Word>,
    count: usize,
}

impl Model for KeptWords {
    ghost use Rattle.std.specs.Prelude.{ℕ, List, ◌++◌, ◌-◌, ◌≤◌, length, replicate, vec_capacity};

    ghost Value = { List ℕ };

    ghost view = { λ k. k.written.items ++ replicate (k.count - length k.written.items) 0 };

    ghost invariant = { λ k. (length k.written.items ≤ k.count)
        × (k.count ≤ vec_capacity k.written) };
}

// Extends `written` with zeros to `count` words, if it has fewer. The capacity must be there
// already, so no memory is allocated.
fn write_up_to(written: &mut Vec<Word>, count: usize)
    requires { count ≤ vec_capacity written.old }
    ensures items { written.new.items
        ≡ written.old.items ++ replicate (count - length written.old.items) 0 }
    ensures capacity { vec_capacity written.old ≤ vec_capacity written.new }
{
    if written.len() < count {
        match written.resize(count, Word::ZERO) {
            Ok(()) => {}
            Err(_) => unreachable!(),
        }
    }
}

// Overwrites the 1,024 words from index `from` on with those of a frame; they must be written
// already.
fn write_page(written: &mut Vec<Word>, from: usize, core: &Core, frame: u32)
    requires frame { 1024 * frame + 1024 ≤ length core.now }
    requires room { from + 1024 ≤ length written.old.items }
    ensures copied { IsCopied core.now (1024 * frame) written.old.items from written.new.items }
    ensures capacity { vec_capacity written.new ≡ vec_capacity written.old }
{
    copy_out(core, frame, written, from);
}

impl KeptWords {
    /// These words, followed by zeros, `count` in all. Fails only with `NoMemory`. Later calls
    /// allocate nothing; no clause says so, except that there is room.
    pub(crate) fn new(alloc: Global, words: &[Word], count: usize) -> Result<KeptWords, NoMemory>
        requires { length words.now ≤ count }
        ensures { IfOk result (λ k. k ≡ words.now ++ replicate (count - length words.now) 0) }
    {
        let mut written = Vec::with_capacity(alloc, count)?;
        written.extend_from_slice(words)?;
        Ok(KeptWords { written, count })
    }

    /// The word with this index.
    pub(crate) fn word(&self, i: usize) -> Word
        ensures { result ≡ slice_index self.now i }
    {
        match self.written.get(i) {
            Some(word) => *word,
            None => Word::ZERO,
        }
    }

    /// Replaces a word.
    pub(crate) fn put(&mut self, i: usize, value: Word)
        requires { i < length self.old }
        ensures { self.new ≡ slice_set self.old i value }
    {
        write_up_to(&mut self.written, i + 1);
        self.written[i] = value;
    }

    /// Replaces the words from index `from` on with those of a frame.
    pub(crate) fn keep_page(&mut self, from: usize, core: &Core, frame: u32)
        requires frame { 1024 * frame + 1024 ≤ length core.now }
        requires room { from + 1024 ≤ length self.old }
        ensures { IsCopied core.now (1024 * frame) self.old from self.new }
    {
        write_up_to(&mut self.written, from + PAGE);
        write_page(&mut self.written, from, core, frame);
    }

    /// Copies the words of a page, from index `from` on, into a frame.
    pub(crate) fn give_page(&self, from: usize, core: &mut Core, frame: u32)
        requires frame { 1024 * frame + 1024 ≤ length core.old }
        ensures { IsCopied self.now from core.old (1024 * frame) core.new }
    {
        copy_in(core, frame, &self.written, from);
    }
}
