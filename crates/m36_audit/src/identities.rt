//! Which table of which segment has each core word, over several processes.

ghost use Rattle.std.specs.Prelude.{ℕ, ◌≡◌, ◌+◌, ◌*◌, ◌/◌, ◌<◌, ◌≤◌, ◌^◌, IfOk, length};
ghost use Rattle.std.specs.Prelude.{slice_index};
ghost use Rattle.m36_model.specs.JointAudit.{most_processes};
ghost use Rattle.m36_model.specs.Place.{directory_at};
ghost use Rattle.m36_audit.specs.Runs.{pages_of_segment};
ghost use Rattle.m36_audit.specs.Classes.{descriptors_of_process, most_descriptors};
ghost use Rattle.m36_audit.specs.WordOwners.{descriptor_recorded, directory_recorded};
ghost use Rattle.m36_audit.specs.WordOwners.{pages_recorded, page_table_recorded};
ghost use Rattle.m36_audit.specs.WordOwners.{table_recorded_if_live, segment_recorded};
ghost use Rattle.m36_audit.specs.WordOwners.{segments_recorded};
ghost use Rattle.m36_tables.specs.Tables.{IsSegmentCount};

use crate::recorded::RecordedNumbers;
use m36_core::Core;
use m36_desc::{Dbr, Sdw};
use m36_model::Refusal;
use m36_tables::{
    descriptor, descriptor_place, directory_at, page_at, segment_count, wrapped_address,
};

/// Records the two words of a descriptor at this place, if it has one.
fn record_descriptor(recorded: &mut RecordedNumbers, place: Result<u32, Refusal>, table_number: u32)
    requires { IfOk place (λ a. a < 2 ^ 24) }
    ensures { recorded.new.values.items
        ≡ descriptor_recorded table_number place recorded.old.values.items }
{
    match place {
        Ok(even) => {
            recorded.record_number(even, table_number);
            recorded.record_number(wrapped_address(even + 1), table_number);
        }
        Err(_) => {}
    }
}

/// Records the word of the descriptor segment's page table through which a descriptor is found.
fn record_directory(recorded: &mut RecordedNumbers, dbr: Dbr, seg: u16, table_number: u32)
    requires { seg < 2 ^ 15 }
    ensures { recorded.new.values.items
        ≡ directory_recorded table_number dbr.unpaged
        (directory_at dbr seg) recorded.old.values.items }
{
    if !dbr.unpaged {
        recorded.record_number(directory_at(dbr, seg), table_number);
    }
}

/// Records the first `pages` words of a segment's page table.
#[tactic(auto, unfolding(crate::specs::WordOwners::pages_recorded))]
fn record_pages(recorded: &mut RecordedNumbers, sdw: &Sdw, pages: u32, table_number: u32)
    requires { pages ≤ pages_of_segment }
    ensures { recorded.new.values.items
        ≡ pages_recorded table_number sdw.now pages recorded.old.values.items }
{
    for page in 0..pages {
        recorded.record_number(page_at(sdw, page), table_number);
    }
}

/// Records the words of a segment's page table, if the segment is paged.
fn record_page_table(recorded: &mut RecordedNumbers, sdw: &Sdw, table_number: u32)
    ensures { recorded.new.values.items
        ≡ page_table_recorded table_number sdw.now sdw.now.unpaged recorded.old.values.items }
{
    if !sdw.unpaged {
        record_pages(recorded, sdw, sdw.bound as u32 / 64 + 1, table_number);
    }
}

/// Records the words of a segment's page table, if the segment is live and paged.
fn record_table_if_live(
    recorded: &mut RecordedNumbers,
    found: Result<Sdw, Refusal>,
    table_number: u32,
)
    ensures { recorded.new.values.items
        ≡ table_recorded_if_live table_number found recorded.old.values.items }
{
    match found {
        Ok(sdw) => record_page_table(recorded, &sdw, table_number),
        Err(_) => {}
    }
}

/// Records the table words of one segment of process k. The number of its page table is that of the
/// first descriptor with equal words.
#[tactic(auto, unfolding(crate::specs::WordOwners::segment_recorded))]
fn record_segment(
    recorded: &mut RecordedNumbers,
    core: &Core,
    dbr: Dbr,
    firsts: &Vec<u32>,
    k: u32,
    seg: u16,
)
    requires seg { seg < 2 ^ 15 }
    requires process { k < most_processes }
    requires there { descriptors_of_process * k + seg < length firsts.now.items }
    requires below { slice_index firsts.now.items (descriptors_of_process * k + seg)
        < most_descriptors }
    ensures { recorded.new.values.items
        ≡ segment_recorded core.now dbr firsts.now.items k seg recorded.old.values.items }
{
    record_descriptor(recorded, descriptor_place(core, dbr, seg), 2 * k + 1);
    record_directory(recorded, dbr, seg, 2 * k + 2);
    let first = firsts[((1 << 15) * k + seg as u32) as usize];
    record_table_if_live(recorded, descriptor(core, dbr, seg), 17 + first);
}

/// Records the table words of process k.
#[tactic(auto, unfolding(crate::specs::WordOwners::segments_recorded))]
pub(crate) fn record_tables(
    recorded: &mut RecordedNumbers,
    core: &Core,
    dbr: Dbr,
    firsts: &Vec<u32>,
    k: u32,
)
    requires process { k < most_processes }
    requires there { descriptors_of_process * (k + 1) ≤ length firsts.now.items }
    requires below { (i : ℕ) → slice_index firsts.now.items i < most_descriptors }
    ensures { (n : ℕ) × IsSegmentCount dbr n × (recorded.new.values.items
        ≡ segments_recorded core.now dbr firsts.now.items k n recorded.old.values.items) }
{
    for seg in 0..segment_count(dbr) {
        record_segment(recorded, core, dbr, firsts, k, seg);
    }
}
