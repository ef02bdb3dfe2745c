//! The places of the words of a segment.

ghost use Rattle.std.specs.Prelude.{ℕ, ◌≡◌, ◌+◌, ◌/◌, ◌%◌, ◌<◌, ◌≤◌, ◌^◌, Ok, Err, IfOk, IfErr};
ghost use Rattle.std.specs.Prelude.{OnOk, length};
ghost use Rattle.m36_desc.specs.Fields.{DbrFields};
ghost use Rattle.m36_model.specs.Core.{core_store};
ghost use Rattle.m36_associative.specs.Right.{AreCoherent};
ghost use Rattle.m36_model.specs.Place.{page_at, word_place, store_fault};
ghost use Rattle.m36_model.specs.Store.{spots_of};
ghost use Rattle.m36_walk.specs.Runs.{run_from, spots_in_core, IsInCore, run_or_refusal};
ghost use Rattle.m36_tables.specs.Tables.{TableWordIsInCore};

use crate::refusal::Refused;
use m36_associative::Memories;
use m36_core::Core;
use m36_desc::{Dbr, Sdw};
use m36_tables::{is_within_bound, store_fault, violation, word_place, wrapped_address};

/// The number of words of a run that are in core before the first one that is not.
#[tactic(auto, using(crate::proofs::Spots::walks_on))]
fn count_in_core_one_by_one(size: u32, place: u32, count: u32) -> u32
    requires { place < 2 ^ 24 }
    ensures bound { result ≤ count }
    ensures whole { result ≡ count → (word : ℕ) → spots_in_core size word place count
        ≡ Ok (run_from place count) }
    ensures refused { result < count → (word : ℕ) → spots_in_core size word place count
        ≡ Err (word + result, store_fault) }
    ensures inside { result ≡ count → IsInCore size place count }
{
    let mut left = count;
    let mut next = place;
    while left > 0 {
        if next >= size {
            return count - left;
        }
        next = wrapped_address(next + 1);
        left -= 1;
    }
    count
}

/// As `count_in_core_one_by_one`, without a loop if the whole run is before the end of core.
#[inline(always)]
#[tactic(auto, using(crate::proofs::Spots::examined_inside, crate::proofs::Spots::lies_inside))]
fn count_in_core(size: u32, place: u32, count: u32) -> u32
    requires size { size ≤ 2 ^ 24 }
    requires place { place < 2 ^ 24 }
    requires count { count ≤ 16 }
    ensures bound { result ≤ count }
    ensures whole { result ≡ count → (word : ℕ) → spots_in_core size word place count
        ≡ Ok (run_from place count) }
    ensures refused { result < count → (word : ℕ) → spots_in_core size word place count
        ≡ Err (word + result, store_fault) }
    ensures inside { result ≡ count → IsInCore size place count }
{
    if place + count <= size {
        return count;
    }
    count_in_core_one_by_one(size, place, count)
}

/// The run of `count` words from address `place` on, if it is in core.
#[inline(always)]
fn run_in_core(size: u32, place: u32, count: u32) -> Result<u32, Refused>
    requires size { size ≤ 2 ^ 24 }
    requires place { place < 2 ^ 24 }
    requires count { count ≤ 16 }
    ensures value { (word : ℕ) → spots_in_core size word place count
        ≡ run_or_refusal word count result }
    ensures inside { IfOk result (λ a. IsInCore size a count) }
    ensures bound { IfOk result (λ a. a < 2 ^ 24) }
    ensures further { IfErr result (λ r. r.further < count) }
{
    let inside = count_in_core(size, place, count);
    if inside < count {
        return Err(Refused {
            why: store_fault(),
            further: inside as u8,
        });
    }
    Ok(place)
}

/// The core address of the first of `count` words of a block; all of them are checked in ascending
/// order.
#[inline(always)]
#[tactic(auto, using(crate::proofs::Spots::by_first))]
pub(crate) fn first_place(core: &Core, sdw: &Sdw, word: u32, count: u32) -> Result<u32, Refused>
    requires word { word < 2 ^ 18 }
    requires some { 1 ≤ count }
    requires block { word % 16 + count ≤ 16 }
    ensures value { (dbr : DbrFields) (seg : ℕ)
        → spots_of core_store core.now dbr sdw.now seg word count
        ≡ run_or_refusal word count result }
    ensures inside { IfOk result (λ a. IsInCore (length core.now) a count) }
    ensures bound { IfOk result (λ a. a < 2 ^ 24) }
    ensures further { IfErr result (λ r. r.further < count) }
    ensures page { OnOk result (TableWordIsInCore (length core.now) sdw.now.unpaged
        (page_at sdw.now (word / 1024))) }
{
    if !is_within_bound(sdw, word) {
        return Err(Refused {
            why: violation(15),
            further: 0,
        });
    }
    match word_place(core, sdw, word) {
        Ok(place) => run_in_core(core.len(), place, count),
        Err(why) => Err(Refused { why, further: 0 }),
    }
}

/// As `first_place`, with the page table word from the memories if they have it.
#[tactic(auto, using(crate::proofs::Spots::by_first))]
pub(crate) fn cached_first_place(
    core: &Core,
    dbr: Dbr,
    memories: &mut Memories,
    sdw: &Sdw,
    word: u32,
    count: u32,
) -> Result<u32, Refused>
    requires word { word < 2 ^ 18 }
    requires some { 1 ≤ count }
    requires block { word % 16 + count ≤ 16 }
    requires right { AreCoherent core.now dbr memories.old }
    ensures value { (other : DbrFields) (seg : ℕ)
        → spots_of core_store core.now other sdw.now seg word count
        ≡ run_or_refusal word count result }
    ensures inside { IfOk result (λ a. IsInCore (length core.now) a count) }
    ensures bound { IfOk result (λ a. a < 2 ^ 24) }
    ensures further { IfErr result (λ r. r.further < count) }
    ensures page { OnOk result (TableWordIsInCore (length core.now) sdw.now.unpaged
        (page_at sdw.now (word / 1024))) }
    ensures right { AreCoherent core.now dbr memories.new }
{
    if !is_within_bound(sdw, word) {
        return Err(Refused {
            why: violation(15),
            further: 0,
        });
    }
    match m36_associative::word_place(core, dbr, memories, sdw, word) {
        Ok(place) => run_in_core(core.len(), place, count),
        Err(why) => Err(Refused { why, further: 0 }),
    }
}
