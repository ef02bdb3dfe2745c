//! One reference, and how it serves a request of a step.

ghost use Rattle.std.specs.Prelude.{◌≡◌, ◌+◌, ◌%◌, ◌<◌, ◌≤◌, ◌^◌, IfOk, IfErr, length};
ghost use Rattle.m36_associative.specs.Right.{AreCoherent};
ghost use Rattle.m36_model.specs.Act.{Fetch, Indirect, Odd, Read};
ghost use Rattle.m36_walk.specs.Runs.{IsInCore};
ghost use Rattle.m36_walk.specs.Served.{sdw_in, ok_map, ServesRun, ServesClaim};

use crate::front::{fetch_elsewhere, fetch_in_front, read_in_front, write_in_front};
use crate::reference::{LookupResult, fetch_by_tables, read_by_tables, write_by_tables};
use crate::words::WordRun;
use m36_associative::Memories;
use m36_core::Core;
use m36_desc::Dbr;
use m36_model::{At, Fault};

/// An answered reference that reads: the core address of its first word, and R1 of its segment.
#[derive(Clone, Copy)]
pub(crate) struct Reach {
    pub(crate) place: u32,
    pub(crate) ring: u8,
}

// The address of a word that was found, and R1 of its segment.
#[inline(always)]
fn reach_of(found: &LookupResult) -> Reach
    ensures place { result.place ≡ found.now.place }
    ensures ring { result.ring ≡ found.now.sdw.r1 }
    ensures bound { result.ring < 2 ^ 3 }
{
    Reach {
        place: found.place,
        ring: found.sdw.r1,
    }
}

/// References `count` words that are read in the ring of `at`, for an instruction in segment `psr`:
/// checks them, sets the marks, and returns where they are.
#[inline(always)]
pub(crate) fn refer_read(
    core: &mut Core,
    dbr: Dbr,
    memories: &mut Memories,
    at: At,
    psr: u16,
    count: u32,
) -> Result<Reach, Fault>
    requires some { 1 ≤ count }
    requires block { at.word % 16 + count ≤ 16 }
    requires right { AreCoherent core.old dbr memories.old }
    ensures read { ServesRun (λ g. g.ppr.psr ≡ psr) Read (record { core = core.old; dbr = dbr })
        core.new at count (ok_map (λ r. r.place) result) }
    ensures indirect { ServesRun (λ g. g.ppr.psr ≡ psr) Indirect
        (record { core = core.old; dbr = dbr }) core.new at count (ok_map (λ r. r.place) result) }
    ensures odd { ServesRun (λ g. g.ppr.psr ≡ psr) Odd (record { core = core.old; dbr = dbr })
        core.new at count (ok_map (λ r. r.place) result) }
    ensures ring { IfOk result (λ r. r.ring
        ≡ (sdw_in (record { core = core.old; dbr = dbr }) at.seg).r1) }
    ensures ring_bound { IfOk result (λ r. r.ring < 2 ^ 3) }
    ensures inside { IfOk result (λ r. IsInCore (length core.new) r.place count) }
    ensures bound { IfOk result (λ r. r.place < 2 ^ 24) }
    ensures stays { IfErr result (λ e. core.new ≡ core.old) }
    ensures len { length core.new ≡ length core.old }
    ensures right { AreCoherent core.new dbr memories.new }
{
    if let Some((place, ring)) = read_in_front(core, dbr, memories, at, count) {
        return Ok(Reach { place, ring });
    }
    match read_by_tables(core, dbr, memories, at, psr, count) {
        Ok(found) => Ok(reach_of(&found)),
        Err(fault) => Err(fault),
    }
}

/// References `count` words that are to be written in the ring of `at`: checks them, sets the
/// marks, and returns where they are.
#[inline(always)]
pub(crate) fn refer_write(
    core: &mut Core,
    dbr: Dbr,
    memories: &mut Memories,
    at: At,
    count: u32,
) -> Result<WordRun, Fault>
    requires some { 1 ≤ count }
    requires block { at.word % 16 + count ≤ 16 }
    requires right { AreCoherent core.old dbr memories.old }
    ensures write { ServesClaim (record { core = core.old; dbr = dbr }) core.new at count
        (ok_map (λ r. r.place) result) }
    ensures count { IfOk result (λ r. r.count ≡ count) }
    ensures inside { IfOk result (λ r. IsInCore (length core.new) r.place count) }
    ensures bound { IfOk result (λ r. r.place < 2 ^ 24) }
    ensures stays { IfErr result (λ e. core.new ≡ core.old) }
    ensures len { length core.new ≡ length core.old }
    ensures right { AreCoherent core.new dbr memories.new }
{
    if let Some(place) = write_in_front(core, dbr, memories, at, count) {
        return Ok(WordRun { place, count });
    }
    match write_by_tables(core, dbr, memories, at, count) {
        Ok(found) => Ok(WordRun {
            place: found.place,
            count,
        }),
        Err(fault) => Err(fault),
    }
}

/// The core address of a fetched instruction, and whether its segment may execute privileged
/// instructions.
#[inline(always)]
fn fetch_result(found: &LookupResult) -> (u32, bool)
    ensures place { result.0 ≡ found.now.place }
    ensures privileged { result.1 ≡ found.now.sdw.privileged }
{
    (found.place, found.sdw.privileged)
}

/// References an instruction that is fetched in the ring of `at`: checks it, sets the marks, and
/// returns its core address and whether its segment may execute privileged instructions.
#[inline(always)]
pub(crate) fn refer_fetch(
    core: &mut Core,
    dbr: Dbr,
    memories: &mut Memories,
    at: At,
) -> Result<(u32, bool), Fault>
    requires right { AreCoherent core.old dbr memories.old }
    ensures fetch { ServesRun (λ g. g.ppr.prr ≡ at.ring) Fetch
        (record { core = core.old; dbr = dbr }) core.new at 1 (ok_map (λ r. r.0) result) }
    ensures privileged { IfOk result (λ r. r.1
        ≡ (sdw_in (record { core = core.old; dbr = dbr }) at.seg).privileged) }
    ensures inside { IfOk result (λ r. r.0 < length core.new) }
    ensures stays { IfErr result (λ e. core.new ≡ core.old) }
    ensures len { length core.new ≡ length core.old }
    ensures right { AreCoherent core.new dbr memories.new }
{
    if let Some(found) = fetch_in_front(core, dbr, memories, at) {
        return Ok(found);
    }
    if let Some(found) = fetch_elsewhere(core, dbr, memories, at) {
        return Ok(found);
    }
    match fetch_by_tables(core, dbr, memories, at) {
        Ok(found) => Ok(fetch_result(&found)),
        Err(fault) => Err(fault),
    }
}
