//! The page tables of the image, with the words of their segments.

ghost use Rattle.std.specs.Prelude.{◌≡◌, ◌+◌, ◌/◌, ◌<◌, ◌++◌, length, Some, IfOk, OnOk};
ghost use Rattle.m36_boot.specs.Segments.{AreShort, booted_sdw, booted_words};
ghost use Rattle.m36_link.specs.Known.{first_segment};
ghost use Rattle.m36_boot.specs.Refusals.{AreLimits};
ghost use Rattle.m36_boot.specs.Image.{table_of_segment, booted_tables};

use crate::segments::{descriptor, table_at, words_of};
use m36_dir::Catalog;
use m36_link::{FIRST_SEGMENT, File, NewSection};
use m36_page::PageTable;
use m36_word::NoMemory;
use std::alloc::Global;

// Adds the page table of a segment, if the image has the segment.
fn add_table(
    alloc: Global,
    tables: &mut Vec<PageTable>,
    catalog: &Catalog,
    files: &[File],
    limits: &[u16],
    lay: &Option<NewSection>,
    seg: u16,
) -> Result<(), NoMemory>
    requires files { length files.now ≡ length catalog.now.segments }
    requires short { AreShort files.now }
    requires limits { AreLimits catalog.now files.now (length catalog.now.segments) limits.now }
    requires seg { seg < first_segment + length catalog.now.segments }
    ensures { OnOk result (tables.new.items ≡ tables.old.items
        ++ table_of_segment seg (booted_sdw catalog.now files.now seg)
        (booted_words files.now lay.now seg)) }
{
    let _ = catalog.count();
    match descriptor(catalog, files, limits, seg) {
        Some(sdw) => {
            tables.push(PageTable {
                words: words_of(alloc, files, lay, seg)?,
                at: table_at(seg),
                seg,
                pages: sdw.bound / 64 + 1,
            })?;
            Ok(())
        }
        None => Ok(()),
    }
}

/// The page tables of the image, in the order of the segment numbers.
#[tactic(auto, unfolding(crate::specs::Image::booted_tables))]
pub(crate) fn booted_tables(
    alloc: Global,
    catalog: &Catalog,
    files: &[File],
    limits: &[u16],
    lay: &Option<NewSection>,
) -> Result<Vec<PageTable>, NoMemory>
    requires files { length files.now ≡ length catalog.now.segments }
    requires short { AreShort files.now }
    requires limits { AreLimits catalog.now files.now (length catalog.now.segments) limits.now }
    ensures { IfOk result (λ tables. tables.items ≡ booted_tables catalog.now files.now lay.now) }
{
    let count = catalog.count();
    let mut tables = Vec::new(alloc);
    for seg in 0..FIRST_SEGMENT + count as u16 {
        add_table(alloc, &mut tables, catalog, files, limits, lay, seg)?;
    }
    Ok(tables)
}
