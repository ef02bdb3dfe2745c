//! One reference by the tables: descriptor, rights, places, and then its marks. Then its page is
//! put in front.

ghost use Rattle.std.specs.Prelude.{◌≡◌, ◌+◌, ◌/◌, ◌%◌, ◌<◌, ◌≤◌, ◌^◌, ◌==◌, Ok, IfOk, OnOk};
ghost use Rattle.std.specs.Prelude.{length, Result, true, false};
ghost use Rattle.m36_desc.specs.Access.{unless_violation, first_violation, read_rows, write_rows};
ghost use Rattle.m36_desc.specs.Access.{fetch_rows};
ghost use Rattle.m36_associative.specs.Right.{AreCoherent};
ghost use Rattle.m36_model.specs.Core.{core_store};
ghost use Rattle.m36_model.specs.Place.{core_sdw, directory_at};
ghost use Rattle.m36_model.specs.Store.{spots_of};
ghost use Rattle.m36_walk.specs.ReferenceResult.{refusal_as_fault, violation_as_fault};
ghost use Rattle.m36_walk.specs.ReferenceResult.{reference_result, result_with_places};
ghost use Rattle.m36_walk.specs.ReferenceResult.{result_of_lookup, MarksAreSet};
ghost use Rattle.m36_walk.specs.Runs.{IsInCore, places_as_fault};
ghost use Rattle.m36_walk.specs.Served.{sdw_in};
ghost use Rattle.m36_tables.specs.Tables.{TableWordIsInCore};

use crate::marks::set_marks;
use crate::place::cached_first_place;
use crate::refusal::{fault, fault_at_refused_word};
use m36_associative::{Memories, enter};
use m36_core::Core;
use m36_desc::access::{may_fetch, may_read, may_write};
use m36_desc::{Acv, Dbr, Sdw};
use m36_model::{At, Fault};
use m36_tables::{descriptor, violation};

/// An answered reference: the descriptor through which its words were found, and the core address
/// of the first.
#[derive(Clone, Copy)]
pub(crate) struct LookupResult {
    pub(crate) sdw: Sdw,
    pub(crate) place: u32,
}

/// The descriptor of the segment of a word, read from the tables in core. If it is refused, the
/// fault is at this word.
#[inline(always)]
#[tactic(auto, unfolding(crate::specs::Served::sdw_in))]
pub(crate) fn descriptor_or_fault(core: &Core, dbr: Dbr, at: At) -> Result<Sdw, Fault>
    ensures value { result ≡ refusal_as_fault at (core_sdw core.now dbr at.seg) }
    ensures sdw { IfOk result (λ d. sdw_in (record { core = core.now; dbr = dbr }) at.seg ≡ d) }
    ensures directory { OnOk result (TableWordIsInCore (length core.now) dbr.unpaged
        (directory_at dbr at.seg)) }
{
    match descriptor(core, dbr, at.seg) {
        Ok(sdw) => Ok(sdw),
        Err(why) => Err(fault(why, at)),
    }
}

/// As `descriptor_or_fault`, with the descriptor from the memories if they have it.
fn cached_descriptor(core: &Core, dbr: Dbr, memories: &mut Memories, at: At) -> Result<Sdw, Fault>
    requires { AreCoherent core.now dbr memories.old }
    ensures value { result ≡ refusal_as_fault at (core_sdw core.now dbr at.seg) }
    ensures directory { OnOk result (TableWordIsInCore (length core.now) dbr.unpaged
        (directory_at dbr at.seg)) }
    ensures right { AreCoherent core.now dbr memories.new }
{
    match m36_associative::descriptor(core, dbr, memories, at.seg) {
        Ok(sdw) => Ok(sdw),
        Err(why) => Err(fault(why, at)),
    }
}

/// The same answer, with an access violation as the fault at a word.
#[inline(always)]
pub(crate) fn right_or_fault(answer: Result<(), Acv>, at: At) -> Result<(), Fault>
    ensures { result ≡ violation_as_fault at answer }
{
    match answer {
        Ok(()) => Ok(()),
        Err(Acv(acv)) => Err(fault(violation(acv), at)),
    }
}

/// Finds `count` words of a segment by the tables, and sets the marks of a reference to them. Puts
/// their page in front.
fn find_and_mark(
    core: &mut Core,
    dbr: Dbr,
    memories: &mut Memories,
    sdw: &Sdw,
    at: At,
    count: u32,
    write: bool,
) -> Result<LookupResult, Fault>
    requires some { 1 ≤ count }
    requires block { at.word % 16 + count ≤ 16 }
    requires right { AreCoherent core.old dbr memories.old }
    requires directory { TableWordIsInCore (length core.old) dbr.unpaged (directory_at dbr at.seg) }
    ensures run { result_with_places sdw.now
        (places_as_fault at (spots_of core_store core.old dbr sdw.now at.seg at.word count))
        ≡ result_of_lookup count result }
    ensures marked { MarksAreSet dbr at write core.old core.new result }
    ensures inside { IfOk result (λ f. IsInCore (length core.new) f.place count) }
    ensures bound { IfOk result (λ f. f.place < 2 ^ 24) }
    ensures len { length core.new ≡ length core.old }
    ensures right { AreCoherent core.new dbr memories.new }
{
    match cached_first_place(core, dbr, memories, sdw, at.word, count) {
        Ok(place) => {
            set_marks(core, memories, dbr, sdw, at.seg, at.word, write);
            enter(core, dbr, memories, at.seg, at.word);
            Ok(LookupResult { sdw: *sdw, place })
        }
        Err(refused) => Err(fault_at_refused_word(refused, at)),
    }
}

/// A reference by the tables that reads `count` words in the ring of `at`, for an instruction in
/// segment `psr`.
#[inline(never)]
#[tactic(auto, unfolding(crate::specs::ReferenceResult::reference_result))]
pub(crate) fn read_by_tables(
    core: &mut Core,
    dbr: Dbr,
    memories: &mut Memories,
    at: At,
    psr: u16,
    count: u32,
) -> Result<LookupResult, Fault>
    requires some { 1 ≤ count }
    requires block { at.word % 16 + count ≤ 16 }
    requires right { AreCoherent core.old dbr memories.old }
    ensures spots_in_core { reference_result (λ d. unless_violation tt
        (first_violation (read_rows d at.ring (at.seg == psr))))
        (λ d. spots_of core_store core.old dbr d at.seg at.word count)
        (core_sdw core.old dbr at.seg) at ≡ result_of_lookup count result }
    ensures marked { MarksAreSet dbr at false core.old core.new result }
    ensures inside { IfOk result (λ f. IsInCore (length core.new) f.place count) }
    ensures bound { IfOk result (λ f. f.place < 2 ^ 24) }
    ensures len { length core.new ≡ length core.old }
    ensures right { AreCoherent core.new dbr memories.new }
{
    let sdw = cached_descriptor(core, dbr, memories, at)?;
    right_or_fault(may_read(&sdw, at.ring, at.seg == psr), at)?;
    find_and_mark(core, dbr, memories, &sdw, at, count, false)
}

/// A reference by the tables that will write `count` words, in the ring of `at`.
#[inline(never)]
#[tactic(auto, unfolding(crate::specs::ReferenceResult::reference_result))]
pub(crate) fn write_by_tables(
    core: &mut Core,
    dbr: Dbr,
    memories: &mut Memories,
    at: At,
    count: u32,
) -> Result<LookupResult, Fault>
    requires some { 1 ≤ count }
    requires block { at.word % 16 + count ≤ 16 }
    requires right { AreCoherent core.old dbr memories.old }
    ensures spots_in_core { reference_result (λ d. unless_violation tt
        (first_violation (write_rows d at.ring)))
        (λ d. spots_of core_store core.old dbr d at.seg at.word count)
        (core_sdw core.old dbr at.seg) at ≡ result_of_lookup count result }
    ensures marked { MarksAreSet dbr at true core.old core.new result }
    ensures inside { IfOk result (λ f. IsInCore (length core.new) f.place count) }
    ensures bound { IfOk result (λ f. f.place < 2 ^ 24) }
    ensures len { length core.new ≡ length core.old }
    ensures right { AreCoherent core.new dbr memories.new }
{
    let sdw = cached_descriptor(core, dbr, memories, at)?;
    right_or_fault(may_write(&sdw, at.ring), at)?;
    find_and_mark(core, dbr, memories, &sdw, at, count, true)
}

/// The fetch of an instruction by the tables, in the ring of `at`.
#[inline(never)]
#[tactic(auto, unfolding(crate::specs::ReferenceResult::reference_result))]
pub(crate) fn fetch_by_tables(
    core: &mut Core,
    dbr: Dbr,
    memories: &mut Memories,
    at: At,
) -> Result<LookupResult, Fault>
    requires right { AreCoherent core.old dbr memories.old }
    ensures spots_in_core { reference_result (λ d. unless_violation tt
        (first_violation (fetch_rows d at.ring)))
        (λ d. spots_of core_store core.old dbr d at.seg at.word 1)
        (core_sdw core.old dbr at.seg) at ≡ result_of_lookup 1 result }
    ensures marked { MarksAreSet dbr at false core.old core.new result }
    ensures inside { IfOk result (λ f. IsInCore (length core.new) f.place 1) }
    ensures bound { IfOk result (λ f. f.place < 2 ^ 24) }
    ensures len { length core.new ≡ length core.old }
    ensures right { AreCoherent core.new dbr memories.new }
{
    let sdw = cached_descriptor(core, dbr, memories, at)?;
    right_or_fault(may_fetch(&sdw, at.ring), at)?;
    find_and_mark(core, dbr, memories, &sdw, at, 1, false)
}
