//! Page tables.

ghost use Rattle.std.specs.Prelude.{◌≡◌, ◌+◌, ◌*◌, ◌≤◌, ◌<◌, length, position, slice_index};
ghost use Rattle.std.specs.Prelude.{slice_set, drop, ◌&&◌, map, Some, All, IsSome, IfSome, IfOk};
ghost use Rattle.m36_page.specs.Changes.{AreAbsent};
ghost use Rattle.m36_page.specs.Copied.{IsCopied};
ghost use Rattle.m36_page.specs.Given.{filled_table, fits_below, is_apart, are_placed};
ghost use Rattle.std.specs.List.{list_all};
ghost use Rattle.m36_page.specs.Residence.{is_table_of, table_of};

use crate::kept::KeptWords;
use crate::residence::put_all_absent;
use m36_core::Core;
use m36_word::{NoMemory, Word, Words};
use std::alloc::Global;
use std::marker::Model;

/// The page table of a segment, and the words of its pages.
#[derive(Drop)]
pub struct PageTable {
    /// The words of the segment, at most 1,024 times `pages`; missing words are zero.
    pub words: Words,
    /// The place in core of the page table word of page 0; 24 bits.
    pub at: u32,
    /// The number of the segment; 15 bits.
    pub seg: u16,
    /// The number of pages.
    pub pages: u16,
}

// Whether a page table ends below frame `first`, and has no more words than its pages.
fn fits_below(first: u32, table: &PageTable) -> bool
    ensures { result ≡ fits_below first table.now }
{
    let end = table.at as u64 + table.pages as u64;
    end <= PAGE as u64 * first as u64 && table.words.slice().len() <= PAGE * table.pages as usize
}

// Whether two page tables share no core word.
fn is_apart(a: &PageTable, b: &PageTable) -> bool
    ensures { result ≡ is_apart a.now b.now }
{
    a.at as u64 + a.pages as u64 <= b.at as u64 || b.at as u64 + b.pages as u64 <= a.at as u64
}

// Whether a page table shares no core word with any of the others.
fn is_apart_of_all(table: &PageTable, others: &[PageTable]) -> bool
    ensures { result ≡ list_all (is_apart table.now) others.now }
{
    others.iter().all(|other| is_apart(table, other))
}

// Whether a page table is below the pageable frames, and apart from all others.
fn is_placed(first: u32, table: &PageTable, others: &[PageTable]) -> bool
    ensures { result ≡ (fits_below first table.now && list_all (is_apart table.now) others.now) }
{
    fits_below(first, table) && is_apart_of_all(table, others)
}

// The tables after table i.
#[tactic(auto, using(crate::proofs::Placed::rest_of))]
fn tables_after(tables: &[PageTable], i: usize) -> &[PageTable]
    requires { i < length tables.now }
    ensures { result.now ≡ drop (i + 1) tables.now }
{
    &tables[i + 1..]
}

/// Whether each table ends below frame `first` and has no more words than its pages, and no two
/// tables share a core word.
pub fn are_placed(first: u32, tables: &[PageTable]) -> bool
    ensures { result ≡ are_placed first tables.now }
{
    for (i, table) in tables.iter().enumerate() {
        if !is_placed(first, table, tables_after(tables, i)) {
            return false;
        }
    }
    true
}

// A page table with the kept words of all its pages.
#[derive(Drop)]
pub(crate) struct Table {
    pub(crate) words: KeptWords,
    pub(crate) at: u32,
    pub(crate) seg: u16,
    pub(crate) pages: u16,
}

impl Model for Table {
    ghost use Rattle.m36_page.specs.Fields.{TableFields};

    ghost Value = { TableFields };

    ghost view = { λ t. record { seg = t.seg; at = t.at; pages = t.pages; words = t.words } };
}

// Whether the table is that of this segment.
fn is_table_of(seg: u16, table: &Table) -> bool
    ensures { result ≡ is_table_of seg table.now }
{
    table.seg == seg
}

/// The index of the table of a segment; None if it has none.
pub(crate) fn find_table(tables: &[Table], seg: u16) -> Option<usize>
    ensures place { result ≡ position (is_table_of seg) tables.now }
    ensures within { IfSome result (λ i. i < length tables.now) }
{
    tables.iter().position(|table| is_table_of(seg, table))
}

/// The index of the table of a segment that has one.
#[tactic(auto, using(crate::proofs::Tables::placed))]
pub(crate) fn table_index(tables: &[Table], seg: u16) -> usize
    requires { IsSome (table_of tables.now seg) }
    ensures place { position (is_table_of seg) tables.now ≡ Some result }
    ensures within { result < length tables.now }
{
    match find_table(tables, seg) {
        Some(i) => i,
        None => unreachable!(),
    }
}

// The number of words of a page.
const PAGE: usize = 1024;

/// Copies the words of a frame to the kept words of a page.
pub(crate) fn copy_page_out(table: &mut Table, page: u16, core: &Core, frame: u32)
    requires frame { 1024 * frame + 1024 ≤ length core.now }
    requires room { 1024 * page + 1024 ≤ length table.old.words }
    ensures words { IsCopied core.now (1024 * frame) table.old.words (1024 * page) table.new.words }
    ensures others { table.new ≡ record table.old { words = table.new.words } }
{
    table.words.keep_page(PAGE * page as usize, core, frame);
}

/// Copies the kept words of a page into a frame.
pub(crate) fn copy_page_in(table: &Table, page: u16, core: &mut Core, frame: u32)
    requires frame { 1024 * frame + 1024 ≤ length core.old }
    requires room { 1024 * page + 1024 ≤ length table.now.words }
    ensures { IsCopied table.now.words (1024 * page) core.old (1024 * frame) core.new }
{
    table.words.give_page(PAGE * page as usize, core, frame);
}

/// The table that is given, with a kept word for every word of its pages.
pub(crate) fn filled_table(alloc: Global, given: &PageTable) -> Result<Table, NoMemory>
    requires { length given.now.words ≤ 1024 * given.now.pages }
    ensures { IfOk result (λ t. t ≡ filled_table given.now) }
{
    let words = given.words.slice();
    Ok(Table {
        words: KeptWords::new(alloc, words, PAGE * given.pages as usize)?,
        at: given.at,
        seg: given.seg,
        pages: given.pages,
    })
}

/// The tables that are given.
pub(crate) fn filled_tables(alloc: Global, given: &[PageTable]) -> Result<Vec<Table>, NoMemory>
    requires { All (λ t. length t.words ≤ 1024 * t.pages) given.now }
    ensures { IfOk result (λ tables. tables.items ≡ map filled_table given.now) }
{
    let mut tables = Vec::with_capacity(alloc, given.len())?;
    for one in given {
        tables.push(filled_table(alloc, one)?)?;
    }
    Ok(tables)
}

/// The kept word for a word of the segment.
pub(crate) fn word_of(table: &Table, word: u32) -> Word
    requires { word < length table.now.words }
    ensures { result ≡ slice_index table.now.words word }
{
    table.words.word(word as usize)
}

/// Replaces the kept word for a word of the segment.
pub(crate) fn put_word(table: &mut Table, word: u32, value: Word)
    requires { word < length table.old.words }
    ensures { table.new ≡ record table.old { words = slice_set table.old.words word value } }
{
    table.words.put(word as usize, value);
}

/// Writes the page table words of all tables, as those of pages in no frame.
pub(crate) fn put_absent_tables(core: &mut Core, tables: &[Table])
    requires room { All (λ t. t.at + t.pages ≤ length core.old) tables.now }
    ensures { AreAbsent tables.now (length tables.now) core.old core.new }
{
    for table in tables {
        let _ = core.len();
        put_all_absent(core, table.at, table.pages);
    }
}
