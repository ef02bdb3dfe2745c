//! Counts the runs of segment words over several processes. Of segments with equal descriptors,
//! only the runs of the first one are counted.

ghost use Rattle.std.specs.Prelude.{ℕ, ◌≡◌, ◌+◌, ◌*◌, ◌/◌, ◌<◌, ◌≤◌, ◌^◌, Some, length};
ghost use Rattle.m36_desc.specs.Access.{has_ordered_brackets};
ghost use Rattle.m36_model.specs.JointAudit.{most_processes};
ghost use Rattle.m36_audit.specs.Runs.{runs_of_segment, runs_of_process, run_by, AreCounted};
ghost use Rattle.m36_audit.specs.Classes.{descriptors_of_process, most_descriptors};
ghost use Rattle.m36_audit.specs.WordOwners.{joint_run, piece_count, with_start, with_stop};
ghost use Rattle.m36_audit.specs.WordOwners.{HasRoom};

use crate::live_descriptor::live_descriptor;
use crate::run::{Run, RunCounts};
use crate::segment_runs::{page_run, unpaged_first_run, unpaged_second_run};
use m36_core::Core;
use m36_desc::{Dbr, Sdw};
use m36_tables::{has_ordered_brackets, segment_count};

/// The most runs that a segment has.
fn pieces(sdw: &Sdw) -> u32
    ensures most { result ≤ runs_of_segment }
    ensures value { result ≡ piece_count sdw.now }
{
    if sdw.unpaged {
        2
    } else {
        sdw.bound as u32 / 64 + 1
    }
}

/// Run `piece` of a segment: that of a page, or None if the page is in no frame; or the first or
/// second run of an unpaged segment.
fn piece_run(core: &Core, sdw: &Sdw, piece: u32) -> Option<Run>
    requires { piece < piece_count sdw.now }
    ensures { result ≡ run_by sdw.now.unpaged core.now sdw.now piece }
{
    if !sdw.unpaged {
        return page_run(core, sdw, piece);
    }
    if piece == 0 {
        Some(unpaged_first_run(sdw))
    } else {
        Some(unpaged_second_run(sdw))
    }
}

/// Counts run `piece` of a segment, if there is one.
fn count_piece(counts: &mut RunCounts, core: &Core, sdw: &Sdw, piece: u32)
    requires piece { piece < piece_count sdw.now }
    requires room { HasRoom counts.old.starts }
    requires room_at_end { HasRoom counts.old.stops }
    ensures starts { counts.new.starts
        ≡ with_start (run_by sdw.now.unpaged core.now sdw.now piece) counts.old.starts }
    ensures stops { counts.new.stops
        ≡ with_stop (run_by sdw.now.unpaged core.now sdw.now piece) counts.old.stops }
{
    match piece_run(core, sdw, piece) {
        Some(run) => counts.add(run),
        None => {}
    }
}

/// Counts all runs of a segment that is live and has its brackets in order. `table_number` is the
/// number of its descriptor among those of all processes.
fn count_pieces(
    counts: &mut RunCounts,
    core: &Core,
    dbrs: &[Dbr],
    firsts: &Vec<u32>,
    table_number: u32,
    sdw: &Sdw,
)
    requires few { length dbrs.now ≤ most_processes }
    requires small { table_number < most_descriptors }
    requires runs { (piece : ℕ) → piece < runs_of_segment
        → joint_run core.now dbrs.now firsts.now.items (runs_of_segment * table_number + piece)
        ≡ run_by sdw.now.unpaged core.now sdw.now piece }
    requires before { AreCounted (joint_run core.now dbrs.now firsts.now.items)
        (runs_of_segment * table_number)
        (length core.now) counts.old.starts counts.old.stops }
    ensures { AreCounted (joint_run core.now dbrs.now firsts.now.items)
        (runs_of_segment * (table_number + 1))
        (length core.now) counts.new.starts counts.new.stops }
{
    for piece in 0..pieces(sdw) {
        count_piece(counts, core, sdw, piece);
    }
}

/// Counts the runs of a segment, if its descriptor is the first with its words, it is live, and its
/// brackets are in order.
fn count_segment_if_first(
    counts: &mut RunCounts,
    core: &Core,
    dbrs: &[Dbr],
    firsts: &Vec<u32>,
    k: usize,
    seg: u16,
)
    requires few { length dbrs.now ≤ most_processes }
    requires process { k < length dbrs.now }
    requires seg { seg < 2 ^ 15 }
    requires there { length firsts.now.items ≡ descriptors_of_process * length dbrs.now }
    requires before { AreCounted (joint_run core.now dbrs.now firsts.now.items)
        (runs_of_segment * (descriptors_of_process * k + seg)) (length core.now) counts.old.starts
        counts.old.stops }
    ensures { AreCounted (joint_run core.now dbrs.now firsts.now.items)
        (runs_of_segment * (descriptors_of_process * k + seg + 1))
        (length core.now) counts.new.starts
        counts.new.stops }
{
    let table_number = (1 << 15) * k as u32 + seg as u32;
    if firsts[table_number as usize] != table_number {
        return;
    }
    match live_descriptor(core, dbrs[k], seg) {
        Some(sdw) => {
            if has_ordered_brackets(&sdw) {
                count_pieces(counts, core, dbrs, firsts, table_number, &sdw);
            }
        }
        None => {}
    }
}

/// Counts the runs of the segments of process k.
fn count_process(counts: &mut RunCounts, core: &Core, dbrs: &[Dbr], firsts: &Vec<u32>, k: usize)
    requires few { length dbrs.now ≤ most_processes }
    requires process { k < length dbrs.now }
    requires there { length firsts.now.items ≡ descriptors_of_process * length dbrs.now }
    requires before { AreCounted (joint_run core.now dbrs.now firsts.now.items)
        (runs_of_segment * (descriptors_of_process * k)) (length core.now) counts.old.starts
        counts.old.stops }
    ensures { AreCounted (joint_run core.now dbrs.now firsts.now.items)
        (runs_of_segment * (descriptors_of_process * (k + 1))) (length core.now) counts.new.starts
        counts.new.stops }
{
    for seg in 0..segment_count(dbrs[k]) {
        count_segment_if_first(counts, core, dbrs, firsts, k, seg);
    }
}

/// Counts the runs of all processes. No run is counted before.
pub(crate) fn count_processes(counts: &mut RunCounts, core: &Core, dbrs: &[Dbr], firsts: &Vec<u32>)
    requires few { length dbrs.now ≤ most_processes }
    requires there { length firsts.now.items ≡ descriptors_of_process * length dbrs.now }
    requires before { AreCounted (joint_run core.now dbrs.now firsts.now.items) 0 (length core.now)
        counts.old.starts counts.old.stops }
    ensures { AreCounted (joint_run core.now dbrs.now firsts.now.items)
        (runs_of_process * length dbrs.now) (length core.now) counts.new.starts
        counts.new.stops }
{
    for k in 0..dbrs.len() {
        count_process(counts, core, dbrs, firsts, k);
    }
}
