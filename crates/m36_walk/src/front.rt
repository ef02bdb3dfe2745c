//! References that a page in front answers. They do not change core, since their marks are already
//! set.

ghost use Rattle.std.specs.Prelude.{ℕ, ◌≡◌, ◌+◌, ◌%◌, ◌<◌, ◌≤◌, ◌^◌, Ok, IfSome, IsTrue, length};
ghost use Rattle.m36_associative.specs.Right.{AreCoherent};
ghost use Rattle.m36_model.specs.Act.{Fetch, Indirect, Odd, Read, Transfer};
ghost use Rattle.m36_walk.specs.Runs.{IsInCore};
ghost use Rattle.m36_walk.specs.Served.{sdw_in, result_at_target, ServesRun, ServesClaim};
ghost use Rattle.m36_walk.specs.Served.{ServesWithoutChange};

use m36_associative::{
    Memories, may_transfer_to, place_to_change, place_to_fetch, place_to_fetch_elsewhere,
    place_to_read, place_to_write,
};
use m36_core::Core;
use m36_desc::Dbr;
use m36_model::At;

/// The core address of the first of `count` words that are read in the ring of `at`, and R1 of
/// their segment. None if no page in front answers; so for the other calls of this module.
#[inline(always)]
pub(crate) fn read_in_front(
    core: &Core,
    dbr: Dbr,
    memories: &mut Memories,
    at: At,
    count: u32,
) -> Option<(u32, u8)>
    requires some { 1 ≤ count }
    requires block { at.word % 16 + count ≤ 16 }
    requires right { AreCoherent core.now dbr memories.old }
    ensures read { IfSome result (λ r. (psr : ℕ) → ServesRun (λ g. g.ppr.psr ≡ psr) Read
        (record { core = core.now; dbr = dbr }) core.now at count (Ok r.0)) }
    ensures indirect { IfSome result (λ r. (psr : ℕ) → ServesRun (λ g. g.ppr.psr ≡ psr) Indirect
        (record { core = core.now; dbr = dbr }) core.now at count (Ok r.0)) }
    ensures odd { IfSome result (λ r. (psr : ℕ) → ServesRun (λ g. g.ppr.psr ≡ psr) Odd
        (record { core = core.now; dbr = dbr }) core.now at count (Ok r.0)) }
    ensures ring { IfSome result (λ r. r.1
        ≡ (sdw_in (record { core = core.now; dbr = dbr }) at.seg).r1) }
    ensures ring_bound { IfSome result (λ r. r.1 < 2 ^ 3) }
    ensures inside { IfSome result (λ r. IsInCore (length core.now) r.0 count) }
    ensures run { IfSome result (λ r. r.0 + count ≤ length core.now) }
    ensures bound { IfSome result (λ r. r.0 + count ≤ 2 ^ 24) }
    ensures right { AreCoherent core.now dbr memories.new }
{
    match place_to_read(core, dbr, memories, at.seg, at.ring, at.word, count) {
        Some((place, ring)) => Some((place, ring)),
        None => None,
    }
}

/// The core address of the first of `count` words that may be written in the ring of `at`.
#[inline(always)]
pub(crate) fn write_in_front(
    core: &Core,
    dbr: Dbr,
    memories: &mut Memories,
    at: At,
    count: u32,
) -> Option<u32>
    requires some { 1 ≤ count }
    requires block { at.word % 16 + count ≤ 16 }
    requires right { AreCoherent core.now dbr memories.old }
    ensures write { IfSome result (λ a. ServesClaim (record { core = core.now; dbr = dbr })
        core.now at count (Ok a)) }
    ensures inside { IfSome result (λ a. IsInCore (length core.now) a count) }
    ensures run { IfSome result (λ a. a + count ≤ length core.now) }
    ensures bound { IfSome result (λ a. a + count ≤ 2 ^ 24) }
    ensures right { AreCoherent core.now dbr memories.new }
{
    match place_to_write(core, dbr, memories, at.seg, at.ring, at.word, count) {
        Some(place) => Some(place),
        None => None,
    }
}

/// The core address of an instruction in the page that was fetched from last, fetched in the ring
/// of `at`, and whether its segment may execute privileged instructions.
#[inline(always)]
pub(crate) fn fetch_in_front(
    core: &Core,
    dbr: Dbr,
    memories: &mut Memories,
    at: At,
) -> Option<(u32, bool)>
    requires right { AreCoherent core.now dbr memories.old }
    ensures fetch { IfSome result (λ r. ServesRun (λ g. g.ppr.prr ≡ at.ring) Fetch
        (record { core = core.now; dbr = dbr }) core.now at 1 (Ok r.0)) }
    ensures privileged { IfSome result (λ r. r.1
        ≡ (sdw_in (record { core = core.now; dbr = dbr }) at.seg).privileged) }
    ensures inside { IfSome result (λ r. r.0 < length core.now) }
    ensures right { AreCoherent core.now dbr memories.new }
{
    match place_to_fetch(core, dbr, memories, at.seg, at.ring, at.word) {
        Some((place, privileged)) => Some((place, privileged)),
        None => None,
    }
}

/// As `fetch_in_front`, from any page in front.
#[inline(always)]
pub(crate) fn fetch_elsewhere(
    core: &Core,
    dbr: Dbr,
    memories: &mut Memories,
    at: At,
) -> Option<(u32, bool)>
    requires right { AreCoherent core.now dbr memories.old }
    ensures fetch { IfSome result (λ r. ServesRun (λ g. g.ppr.prr ≡ at.ring) Fetch
        (record { core = core.now; dbr = dbr }) core.now at 1 (Ok r.0)) }
    ensures privileged { IfSome result (λ r. r.1
        ≡ (sdw_in (record { core = core.now; dbr = dbr }) at.seg).privileged) }
    ensures inside { IfSome result (λ r. r.0 < length core.now) }
    ensures right { AreCoherent core.now dbr memories.new }
{
    match place_to_fetch_elsewhere(core, dbr, memories, at.seg, at.ring, at.word) {
        Some((place, privileged)) => Some((place, privileged)),
        None => None,
    }
}

/// The core address of a word that may be read and then written in the ring of `at`.
#[inline(always)]
pub(crate) fn change_in_front(core: &Core, dbr: Dbr, memories: &mut Memories, at: At) -> Option<u32>
    requires right { AreCoherent core.now dbr memories.old }
    ensures read { IfSome result (λ a. (psr : ℕ) → ServesRun (λ g. g.ppr.psr ≡ psr) Read
        (record { core = core.now; dbr = dbr }) core.now at 1 (Ok a)) }
    ensures write { IfSome result (λ a. ServesClaim (record { core = core.now; dbr = dbr })
        core.now at 1 (Ok a)) }
    ensures inside { IfSome result (λ a. a < length core.now) }
    ensures right { AreCoherent core.now dbr memories.new }
{
    match place_to_change(core, dbr, memories, at.seg, at.ring, at.word) {
        Some(place) => Some(place),
        None => None,
    }
}

/// Whether a transfer in the ring of `at`, from the same ring, may go to a word.
#[inline(always)]
pub(crate) fn transfer_in_front(core: &Core, dbr: Dbr, memories: &Memories, at: At) -> bool
    requires { AreCoherent core.now dbr memories.now }
    ensures { IsTrue result → ServesWithoutChange (λ g. g.ppr.prr ≡ at.ring) Transfer
        (record { core = core.now; dbr = dbr }) at
        (result_at_target (sdw_in (record { core = core.now; dbr = dbr }) at.seg) (Ok (tt {0}))) }
{
    may_transfer_to(core, dbr, memories, at.seg, at.ring, at.word)
}
