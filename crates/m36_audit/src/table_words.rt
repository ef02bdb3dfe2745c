//! Marks all table words: those of the descriptors, of the descriptor segment's page table, and of
//! the page tables of the live paged segments.

ghost use Rattle.std.specs.Prelude.{◌≡◌, ◌+◌, ◌*◌, ◌/◌, ◌<◌, ◌≤◌, ◌^◌, true, false, Ok, length};
ghost use Rattle.m36_model.specs.Audit.{IsWordOfTable};
ghost use Rattle.m36_model.specs.Place.{core_sdw, page_at, has_descriptor_in_bounds};
ghost use Rattle.m36_audit.specs.Runs.{pages_of_segment};
ghost use Rattle.m36_audit.specs.TableMarks.{AreMarked, IsMarkedSoFar};

use crate::live_descriptor::live_descriptor;
use crate::tables::{DIRECTORY, PAGES, SDWS, TableMarks};
use m36_core::Core;
use m36_desc::{Dbr, Sdw};
use m36_tables::{descriptor_place, directory_at, page_at, segment_count, wrapped_address};

/// Marks the two words of a segment's descriptor.
fn mark_descriptor(marks: &mut TableMarks, core: &Core, dbr: Dbr, seg: u16)
    requires seg { seg < 2 ^ 15 }
    requires before { AreMarked (IsMarkedSoFar core.now dbr seg seg (pages_of_segment * seg))
        (length core.now)
        marks.old.tables marks.old.least }
    ensures { AreMarked (IsMarkedSoFar core.now dbr (seg + 1) seg (pages_of_segment * seg))
        (length core.now)
        marks.new.tables marks.new.least }
{
    match descriptor_place(core, dbr, seg) {
        Ok(even) => {
            marks.mark(SDWS, even);
            marks.mark(SDWS, wrapped_address(even + 1));
        }
        Err(_) => {}
    }
}

/// Marks the word of the descriptor segment's page table through which a segment's descriptor is
/// found.
fn mark_directory(marks: &mut TableMarks, core: &Core, dbr: Dbr, seg: u16)
    requires seg { seg < 2 ^ 15 }
    requires bounds { has_descriptor_in_bounds dbr seg ≡ true }
    requires before { AreMarked (IsMarkedSoFar core.now dbr (seg + 1) seg (pages_of_segment * seg))
        (length core.now)
        marks.old.tables marks.old.least }
    ensures { AreMarked (IsMarkedSoFar core.now dbr (seg + 1) (seg + 1) (pages_of_segment * seg))
        (length core.now)
        marks.new.tables marks.new.least }
{
    if !dbr.unpaged {
        marks.mark(DIRECTORY, directory_at(dbr, seg));
    }
}

/// Marks the words of the page table of a live paged segment.
fn mark_page_table(marks: &mut TableMarks, core: &Core, dbr: Dbr, seg: u16, sdw: &Sdw)
    requires seg { seg < 2 ^ 15 }
    requires live { core_sdw core.now dbr seg ≡ Ok sdw.now }
    requires paged { sdw.now.unpaged ≡ false }
    requires before { AreMarked (IsMarkedSoFar core.now dbr (seg + 1) (seg + 1)
        (pages_of_segment * seg))
        (length core.now) marks.old.tables marks.old.least }
    ensures { AreMarked (IsMarkedSoFar core.now dbr (seg + 1) (seg + 1)
        (pages_of_segment * (seg + 1))) (length core.now)
        marks.new.tables marks.new.least }
{
    let pages = sdw.bound as u32 / 64 + 1;
    for page in 0..pages {
        marks.mark(seg + PAGES, page_at(sdw, page));
    }
}

/// Marks the words of a segment's page table, if the segment is live and paged.
fn mark_pages(marks: &mut TableMarks, core: &Core, dbr: Dbr, seg: u16)
    requires seg { seg < 2 ^ 15 }
    requires before { AreMarked (IsMarkedSoFar core.now dbr (seg + 1) (seg + 1)
        (pages_of_segment * seg))
        (length core.now) marks.old.tables marks.old.least }
    ensures { AreMarked (IsMarkedSoFar core.now dbr (seg + 1) (seg + 1)
        (pages_of_segment * (seg + 1))) (length core.now)
        marks.new.tables marks.new.least }
{
    match live_descriptor(core, dbr, seg) {
        Some(sdw) => {
            if !sdw.unpaged {
                mark_page_table(marks, core, dbr, seg, &sdw);
            }
        }
        None => {}
    }
}

/// Marks all table words. No word has a mark before.
pub(crate) fn mark_tables(marks: &mut TableMarks, core: &Core, dbr: Dbr)
    requires before { AreMarked (IsMarkedSoFar core.now dbr 0 0 0)
        (length core.now) marks.old.tables
        marks.old.least }
    ensures { AreMarked (IsWordOfTable core.now dbr) (length core.now) marks.new.tables
        marks.new.least }
{
    for seg in 0..segment_count(dbr) {
        mark_descriptor(marks, core, dbr, seg);
        mark_directory(marks, core, dbr, seg);
        mark_pages(marks, core, dbr, seg);
    }
}
