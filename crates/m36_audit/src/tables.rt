//! The table of each core word, as a mark; and the least core word with two tables, which breaks
//! the second condition.

ghost use Rattle.std.specs.Prelude.{ℕ, ◌≡◌, ◌+◌, ◌-◌, ◌<◌, ◌≤◌, ◌++◌, IfOk, None, length};
ghost use Rattle.std.specs.Prelude.{replicate, slice_index, slice_set, vec_capacity};
ghost use Rattle.m36_audit.specs.TableMarks.{tables_marked, least_marked, lesser};

use m36_word::NoMemory;
use std::alloc::Global;
use std::marker::Model;

/// The mark of descriptor words.
pub(crate) const SDWS: u16 = 1;
/// The mark of words of the descriptor segment's page table.
pub(crate) const DIRECTORY: u16 = 2;
/// The mark of words of the page table of segment 0. That of segment n is `PAGES + n`.
pub(crate) const PAGES: u16 = 3;

/// A mark for each core word, and 0 for none, seen as the list of them. There is room for all of
/// them from the start, but only those up to the last word that was marked are written: those
/// after it are zero, and take no time.
#[derive(Drop)]
pub(crate) struct Marks {
    written: Vec<u16>,
    size: u32,
}

impl Model for Marks {
    ghost use Rattle.std.specs.Prelude.{ℕ, List, ◌++◌, ◌-◌, ◌≤◌, length, replicate, vec_capacity};

    ghost Value = { List ℕ };

    ghost view = { λ m. m.written.items ++ replicate (m.size - length m.written.items) 0 };

    ghost invariant = { λ m. (length m.written.items ≤ m.size) × (m.size ≤ vec_capacity m.written) };
}

/// For each core word the mark of the first table that was found to have it; and the least core
/// word for which a second table was found.
#[derive(Drop)]
pub(crate) struct TableMarks {
    pub(crate) tables: Marks,
    pub(crate) least: Option<u32>,
}

/// Extends `written` with zeros to `end` entries, if it has fewer. The capacity must be there
/// already, so no memory is allocated.
fn write_up_to(written: &mut Vec<u16>, end: usize)
    requires { end ≤ vec_capacity written.old }
    ensures items { written.new.items ≡ written.old.items ++ replicate
        (end - length written.old.items) 0 }
    ensures capacity { vec_capacity written.old ≤ vec_capacity written.new }
{
    if written.len() < end {
        match written.resize(end, 0) {
            Ok(()) => {}
            Err(_) => unreachable!(),
        }
    }
}

impl Marks {
    /// Marks for `size` core words, all 0. Fails only if memory runs out.
    pub(crate) fn new(alloc: Global, size: u32) -> Result<Marks, NoMemory>
        ensures { IfOk result (λ m. m ≡ replicate size 0) }
    {
        let written = Vec::with_capacity(alloc, size as usize)?;
        Ok(Marks { written, size })
    }

    /// Sets all marks to 0.
    pub(crate) fn clear(&mut self)
        ensures { self.new ≡ replicate (length self.old) 0 }
    {
        self.written.clear();
    }

    /// The number of core words, with and without a mark.
    pub(crate) fn len(&self) -> u32
        ensures { result ≡ length self.now }
    {
        self.size
    }

    /// The mark of a core word; 0 past the end of core.
    pub(crate) fn at(&self, a: u32) -> u16
        ensures { result ≡ slice_index self.now a }
    {
        match self.written.get(a as usize) {
            Some(mark) => *mark,
            None => 0,
        }
    }

    /// An address from which on no word is marked: that after the last word that was marked.
    pub(crate) fn end(&self) -> u32
        ensures inside { result ≤ length self.now }
        ensures zeros { (a : ℕ) → result ≤ a → slice_index self.now a ≡ 0 }
    {
        let _size = self.size;
        self.written.len() as u32
    }

    /// Sets the mark of a core word, in place of the one before.
    fn put(&mut self, a: u32, mark: u16)
        requires { a < length self.old }
        ensures { self.new ≡ slice_set self.old a mark }
    {
        let index = a as usize;
        write_up_to(&mut self.written, index + 1);
        self.written[index] = mark;
    }
}

/// The lower of two core addresses, the first of which may be missing.
fn lesser(least: Option<u32>, a: u32) -> u32
    ensures { Some result ≡ lesser least a }
{
    match least {
        Some(p) => p.min(a),
        None => a,
    }
}

impl TableMarks {
    /// Marks for `size` core words, with no table found for any. Fails only if memory runs out.
    pub(crate) fn new(alloc: Global, size: u32) -> Result<TableMarks, NoMemory>
        ensures tables { IfOk result (λ m. m.tables ≡ replicate size 0) }
        ensures least { IfOk result (λ m. m.least ≡ None) }
    {
        let tables = Marks::new(alloc, size)?;
        Ok(TableMarks {
            tables,
            least: None,
        })
    }

    /// Removes all marks, and the least word with two tables.
    pub(crate) fn clear(&mut self)
        ensures tables { self.new.tables ≡ replicate (length self.old.tables) 0 }
        ensures least { self.new.least ≡ None }
    {
        self.tables.clear();
        self.least = None;
    }

    /// Marks a core word as a word of a table. If it has the mark of another table, it keeps that
    /// one, and counts for `least`. A word past the end of core is ignored.
    #[tactic(auto, unfolding(crate::specs::TableMarks::tables_marked, crate::specs::TableMarks::least_marked))]
    pub(crate) fn mark(&mut self, table: u16, a: u32)
        ensures tables { self.new.tables ≡ tables_marked self.old.tables table a }
        ensures least { self.new.least ≡ least_marked self.old.tables self.old.least table a }
    {
        if a >= self.tables.len() {
            return;
        }
        let seen = self.tables.at(a);
        if seen == 0 {
            self.tables.put(a, table);
        } else if seen != table {
            self.least = Some(lesser(self.least, a));
        }
    }
}
