//! Counts the runs of core words that the segments occupy: one for each page in core, and two for
//! each unpaged segment.

ghost use Rattle.std.specs.Prelude.{◌≡◌, ◌+◌, ◌*◌, ◌/◌, ◌<◌, ◌≤◌, ◌^◌, true, false, Ok, length};
ghost use Rattle.m36_desc.specs.Access.{has_ordered_brackets};
ghost use Rattle.m36_model.specs.Place.{core_sdw, last_page};
ghost use Rattle.m36_audit.specs.Runs.{word_count, unpaged_run, page_run, runs_of_segment};
ghost use Rattle.m36_audit.specs.Runs.{runs_of_process, run, AreCounted};

use crate::live_descriptor::live_descriptor;
use crate::run::{Run, RunCounts};
use m36_core::Core;
use m36_desc::{Dbr, Sdw};
use m36_tables::{has_ordered_brackets, page_frame, segment_count};

/// The number of core addresses: they have 24 bits.
const ADDRESSES: u32 = 1 << 24;
/// The number of words of a page.
const PAGE: u32 = 1024;

/// The number of words of a segment that are within its bound.
fn word_count(sdw: &Sdw) -> u32
    ensures value { result ≡ word_count sdw.now }
    ensures most { result ≤ 2 ^ 18 }
{
    16 * (sdw.bound as u32 + 1)
}

/// The words of a page that are within the bound, or None if the page is in no frame.
pub(crate) fn page_run(core: &Core, sdw: &Sdw, page: u32) -> Option<Run>
    requires { page ≤ last_page sdw.now }
    ensures { result ≡ page_run core.now sdw.now page }
{
    let count = word_count(sdw) - PAGE * page;
    match page_frame(core, sdw, page) {
        Ok(first) => Some(Run {
            first,
            end: first + count.min(PAGE),
        }),
        Err(_) => None,
    }
}

/// The words of an unpaged segment up to the last address.
pub(crate) fn unpaged_first_run(sdw: &Sdw) -> Run
    ensures { Some result ≡ unpaged_run sdw.now 0 }
{
    Run {
        first: sdw.addr,
        end: (sdw.addr + word_count(sdw)).min(ADDRESSES),
    }
}

/// The words of an unpaged segment past the last address. They continue at address 0.
pub(crate) fn unpaged_second_run(sdw: &Sdw) -> Run
    ensures { Some result ≡ unpaged_run sdw.now 1 }
{
    Run {
        first: 0,
        end: (sdw.addr + word_count(sdw)).saturating_sub(ADDRESSES),
    }
}

/// Counts the two runs of an unpaged segment.
fn count_unpaged(counts: &mut RunCounts, core: &Core, dbr: Dbr, seg: u16, sdw: &Sdw)
    requires seg { seg < 2 ^ 15 }
    requires live { core_sdw core.now dbr seg ≡ Ok sdw.now }
    requires order { has_ordered_brackets sdw.now ≡ true }
    requires whole { sdw.now.unpaged ≡ true }
    requires before { AreCounted (run core.now dbr) (runs_of_segment * seg) (length core.now)
        counts.old.starts counts.old.stops }
    ensures { AreCounted (run core.now dbr) (runs_of_segment * (seg + 1)) (length core.now)
        counts.new.starts counts.new.stops }
{
    counts.add(unpaged_first_run(sdw));
    counts.add(unpaged_second_run(sdw));
}

/// Counts the run of one page, if the page is in a frame.
fn count_page(counts: &mut RunCounts, core: &Core, dbr: Dbr, seg: u16, sdw: &Sdw, page: u32)
    requires seg { seg < 2 ^ 15 }
    requires live { core_sdw core.now dbr seg ≡ Ok sdw.now }
    requires order { has_ordered_brackets sdw.now ≡ true }
    requires paged { sdw.now.unpaged ≡ false }
    requires page { page ≤ last_page sdw.now }
    requires few { page < runs_of_segment }
    requires before { AreCounted (run core.now dbr) (runs_of_segment * seg + page) (length core.now)
        counts.old.starts counts.old.stops }
    ensures { AreCounted (run core.now dbr) (runs_of_segment * seg + page + 1) (length core.now)
        counts.new.starts counts.new.stops }
{
    match page_run(core, sdw, page) {
        Some(run) => counts.add(run),
        None => {}
    }
}

/// Counts the runs of a paged segment.
fn count_pages(counts: &mut RunCounts, core: &Core, dbr: Dbr, seg: u16, sdw: &Sdw)
    requires seg { seg < 2 ^ 15 }
    requires live { core_sdw core.now dbr seg ≡ Ok sdw.now }
    requires order { has_ordered_brackets sdw.now ≡ true }
    requires paged { sdw.now.unpaged ≡ false }
    requires before { AreCounted (run core.now dbr) (runs_of_segment * seg) (length core.now)
        counts.old.starts counts.old.stops }
    ensures { AreCounted (run core.now dbr) (runs_of_segment * (seg + 1)) (length core.now)
        counts.new.starts counts.new.stops }
{
    let pages = sdw.bound as u32 / 64 + 1;
    for page in 0..pages {
        count_page(counts, core, dbr, seg, sdw, page);
    }
}

/// Counts the runs of a segment, if it is live and its brackets are in order.
fn count_segment(counts: &mut RunCounts, core: &Core, dbr: Dbr, seg: u16)
    requires seg { seg < 2 ^ 15 }
    requires before { AreCounted (run core.now dbr) (runs_of_segment * seg) (length core.now)
        counts.old.starts counts.old.stops }
    ensures { AreCounted (run core.now dbr) (runs_of_segment * (seg + 1)) (length core.now)
        counts.new.starts counts.new.stops }
{
    match live_descriptor(core, dbr, seg) {
        Some(sdw) => {
            if has_ordered_brackets(&sdw) {
                if sdw.unpaged {
                    count_unpaged(counts, core, dbr, seg, &sdw);
                } else {
                    count_pages(counts, core, dbr, seg, &sdw);
                }
            }
        }
        None => {}
    }
}

/// Counts the runs of all segments. No run is counted before.
pub(crate) fn count_segments(counts: &mut RunCounts, core: &Core, dbr: Dbr)
    requires before { AreCounted (run core.now dbr) 0 (length core.now) counts.old.starts
        counts.old.stops }
    ensures { AreCounted (run core.now dbr) runs_of_process (length core.now) counts.new.starts
        counts.new.stops }
{
    for seg in 0..segment_count(dbr) {
        count_segment(counts, core, dbr, seg);
    }
}
