//! Runs of core words, and for each core word how many runs begin and end there.

ghost use Rattle.std.specs.Prelude.{ℕ, ◌≡◌, ◌+◌, ◌-◌, ◌<◌, ◌≤◌, ◌^◌, ◌++◌, IfOk, replicate, length};
ghost use Rattle.std.specs.Prelude.{slice_index, vec_capacity};
ghost use Rattle.m36_audit.specs.Runs.{with_one_more_at};

use m36_word::NoMemory;
use std::alloc::Global;
use std::marker::Model;

/// Consecutive core words, from `first` up to but not including `end`.
#[derive(Clone, Copy, PartialEq, Eq)]
pub(crate) struct Run {
    pub(crate) first: u32,
    pub(crate) end: u32,
}

/// A count for each core word, seen as the list of them. There is room for all of them from the
/// start, but only those up to the last word that was counted are written: those after it are zero,
/// and take no time.
#[derive(Drop)]
pub(crate) struct Counts {
    written: Vec<u32>,
    size: u32,
}

impl Model for Counts {
    ghost use Rattle.std.specs.Prelude.{ℕ, List, ◌++◌, ◌-◌, ◌≤◌, length, replicate, vec_capacity};

    ghost Value = { List ℕ };

    ghost view = { λ k. k.written.items ++ replicate (k.size - length k.written.items) 0 };

    ghost invariant = { λ k. (length k.written.items ≤ k.size) × (k.size ≤ vec_capacity k.written) };
}

/// For each core word how many runs begin there, and how many end there.
#[derive(Drop)]
pub(crate) struct RunCounts {
    pub(crate) starts: Counts,
    pub(crate) stops: Counts,
}

/// A list of `size` zeros. Fails only if memory runs out.
pub(crate) fn zeros(alloc: Global, size: u32) -> Result<Vec<u32>, NoMemory>
    ensures { IfOk result (λ v. v.items ≡ replicate size 0) }
{
    let count = size as usize;
    let mut zeros = Vec::with_capacity(alloc, count)?;
    zeros.resize(count, 0)?;
    Ok(zeros)
}

/// Extends `written` with zeros to `end` entries, if it has fewer. The capacity must be there
/// already, so no memory is allocated.
fn write_up_to(written: &mut Vec<u32>, end: usize)
    requires { end ≤ vec_capacity written.old }
    ensures items { written.new.items ≡ written.old.items ++ replicate
        (end - length written.old.items) 0 }
    ensures capacity { vec_capacity written.old ≤ vec_capacity written.new }
{
    if written.len() < end {
        match written.resize(end, 0) {
            Ok(()) => {}
            Err(_) => unreachable!(),
        }
    }
}

impl Counts {
    /// Counts for `size` core words, all zero. Fails only if memory runs out.
    pub(crate) fn new(alloc: Global, size: u32) -> Result<Counts, NoMemory>
        ensures { IfOk result (λ k. k ≡ replicate size 0) }
    {
        let written = Vec::with_capacity(alloc, size as usize)?;
        Ok(Counts { written, size })
    }

    /// Sets all counts to zero.
    pub(crate) fn clear(&mut self)
        ensures { self.new ≡ replicate (length self.old) 0 }
    {
        self.written.clear();
    }

    /// The count at a word.
    pub(crate) fn at(&self, a: u32) -> u32
        ensures { result ≡ slice_index self.now a }
    {
        match self.written.get(a as usize) {
            Some(count) => *count,
            None => 0,
        }
    }

    /// An address from which on all counts are zero: that after the last word that was counted.
    pub(crate) fn end(&self) -> u32
        ensures inside { result ≤ length self.now }
        ensures zeros { (a : ℕ) → result ≤ a → slice_index self.now a ≡ 0 }
    {
        let _size = self.size;
        self.written.len() as u32
    }

    /// Adds one to the count of a core word. A word past the end of core is ignored.
    fn count(&mut self, a: u32)
        requires room { slice_index self.old a < 2 ^ 32 - 1 }
        ensures { self.new ≡ with_one_more_at self.old a }
    {
        let index = a as usize;
        if a < self.size {
            let before = self.at(a);
            write_up_to(&mut self.written, index + 1);
            self.written[index] = before + 1;
        }
    }
}

impl RunCounts {
    /// No runs are counted. Fails only if memory runs out.
    pub(crate) fn new(alloc: Global, size: u32) -> Result<RunCounts, NoMemory>
        ensures starts { IfOk result (λ c. c.starts ≡ replicate size 0) }
        ensures stops { IfOk result (λ c. c.stops ≡ replicate size 0) }
    {
        let starts = Counts::new(alloc, size)?;
        let stops = Counts::new(alloc, size)?;
        Ok(RunCounts { starts, stops })
    }

    /// Sets all counts to zero.
    pub(crate) fn clear(&mut self)
        ensures starts { self.new.starts ≡ replicate (length self.old.starts) 0 }
        ensures stops { self.new.stops ≡ replicate (length self.old.stops) 0 }
    {
        self.starts.clear();
        self.stops.clear();
    }

    /// Counts a run: one more begins at its first word, and one more ends at its end.
    pub(crate) fn add(&mut self, run: Run)
        requires room { slice_index self.old.starts run.first < 2 ^ 32 - 1 }
        requires room_at_end { slice_index self.old.stops run.end < 2 ^ 32 - 1 }
        ensures starts { self.new.starts ≡ with_one_more_at self.old.starts run.first }
        ensures stops { self.new.stops ≡ with_one_more_at self.old.stops run.end }
    {
        self.starts.count(run.first);
        self.stops.count(run.end);
    }
}
