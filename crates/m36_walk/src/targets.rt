//! References that touch no word: the target of a transfer or of a call, the place of a word, and
//! R1.

ghost use Rattle.std.specs.Prelude.{◌≡◌, ◌<◌, ◌^◌, ◌==◌, [], Ok, IfOk, length};
ghost use Rattle.m36_desc.specs.Access.{unless_violation, first_violation, has_ordered_brackets};
ghost use Rattle.m36_desc.specs.Access.{ordered_rows, transfer_rows, call_rows, ring_after_call};
ghost use Rattle.m36_model.specs.Core.{core_store};
ghost use Rattle.m36_model.specs.Place.{core_sdw};
ghost use Rattle.m36_model.specs.Store.{is_within_bound, when_ordered, bound_only, spots_of, place};
ghost use Rattle.m36_model.specs.Store.{segment_r1};
ghost use Rattle.m36_walk.specs.ReferenceResult.{violation_as_fault, reference_result};
ghost use Rattle.m36_walk.specs.Runs.{IsInCore, places_as_fault};
ghost use Rattle.m36_walk.specs.Served.{sdw_in, result_at_place, result_at_target, ok_map};

use crate::place::first_place;
use crate::reference::{descriptor_or_fault, right_or_fault};
use crate::refusal::{fault, fault_at_refused_word};
use m36_core::Core;
use m36_desc::access::{call_ring, may_transfer};
use m36_desc::{Acv, Dbr, Sdw};
use m36_model::{At, Fault, Ppr, Refusal};
use m36_tables::{descriptor, has_ordered_brackets, is_within_bound, violation};

/// Checks that a target is within the bound of its segment. If it is not, the fault is access
/// violation 15.
#[inline(always)]
fn check_bound(sdw: &Sdw, at: At) -> Result<(), Fault>
    ensures { ok_map (λ u. []) result
        ≡ places_as_fault at (bound_only (is_within_bound sdw.now at.word) at.word) }
{
    if is_within_bound(sdw, at.word) {
        Ok(())
    } else {
        Err(fault(violation(15), at))
    }
}

/// Checks the target of a transfer, in the ring of `at` from ring `prr`.
#[inline(always)]
#[tactic(auto, unfolding(crate::specs::ReferenceResult::reference_result))]
pub(crate) fn check_transfer(core: &Core, dbr: Dbr, at: At, prr: u8) -> Result<(), Fault>
    ensures { reference_result (λ d. unless_violation tt
        (first_violation (transfer_rows d at.ring prr)))
        (λ d. bound_only (is_within_bound d at.word) at.word) (core_sdw core.now dbr at.seg) at
        ≡ result_at_target (sdw_in (record { core = core.now; dbr = dbr }) at.seg) result }
{
    let sdw = descriptor_or_fault(core, dbr, at)?;
    right_or_fault(may_transfer(&sdw, at.ring, prr), at)?;
    check_bound(&sdw, at)
}

/// The same answer, with an access violation as the fault at the target.
fn ring_or_fault(answer: Result<u8, Acv>, at: At) -> Result<u8, Fault>
    ensures { result ≡ violation_as_fault at answer }
{
    match answer {
        Ok(ring) => Ok(ring),
        Err(Acv(acv)) => Err(fault(violation(acv), at)),
    }
}

/// Checks the target of CALL6, in the ring of `at` from `ppr`. Returns the ring in which execution
/// continues.
#[tactic(auto, unfolding(crate::specs::ReferenceResult::reference_result))]
pub(crate) fn check_call(core: &Core, dbr: Dbr, at: At, ppr: Ppr) -> Result<u8, Fault>
    ensures target { reference_result (λ d. unless_violation tt (first_violation
        (call_rows d at.ring ppr.prr (at.seg == ppr.psr) at.word)))
        (λ d. bound_only (is_within_bound d at.word) at.word) (core_sdw core.now dbr at.seg) at
        ≡ result_at_target (sdw_in (record { core = core.now; dbr = dbr }) at.seg) result }
    ensures ring { IfOk result (λ ring. ring
        ≡ ring_after_call (sdw_in (record { core = core.now; dbr = dbr }) at.seg) at.ring) }
    ensures bound { IfOk result (λ ring. ring < 2 ^ 3) }
{
    let sdw = descriptor_or_fault(core, dbr, at)?;
    let ring = ring_or_fault(
        call_ring(&sdw, at.ring, ppr.prr, at.seg == ppr.psr, at.word),
        at,
    )?;
    check_bound(&sdw, at)?;
    Ok(ring)
}

/// Checks that the ring brackets of a segment are in order: R1 ≤ R2 ≤ R3. If they are not, the
/// refusal is access violation 0.
fn check_brackets(sdw: &Sdw) -> Result<(), Refusal>
    ensures { result ≡ when_ordered (has_ordered_brackets sdw.now) (Ok tt) }
{
    if has_ordered_brackets(sdw) {
        Ok(())
    } else {
        Err(violation(0))
    }
}

/// The core address of a word, without access checks. It is refused only if it has no place: no
/// live descriptor, brackets out of order, out of bound, no page, or past the end of core.
#[tactic(auto, unfolding(crate::specs::ReferenceResult::reference_result))]
pub(crate) fn find_place(core: &Core, dbr: Dbr, at: At) -> Result<u32, Fault>
    ensures asked { reference_result (λ d. unless_violation tt
        (first_violation (ordered_rows d [])))
        (λ d. spots_of core_store core.now dbr d at.seg at.word 1) (core_sdw core.now dbr at.seg) at
        ≡ result_at_place (sdw_in (record { core = core.now; dbr = dbr }) at.seg) 1 result }
    ensures inside { IfOk result (λ a. IsInCore (length core.now) a 1) }
{
    let sdw = descriptor_or_fault(core, dbr, at)?;
    if let Err(why) = check_brackets(&sdw) {
        return Err(fault(why, at));
    }
    match first_place(core, &sdw, at.word, 1) {
        Ok(place) => Ok(place),
        Err(refused) => Err(fault_at_refused_word(refused, at)),
    }
}

/// R1 of a segment, if its descriptor is live and its brackets are in order.
#[tactic(auto, unfolding(m36_model::specs::Store::segment_r1))]
pub(crate) fn find_first_ring(core: &Core, dbr: Dbr, seg: u16) -> Result<u8, Refusal>
    requires { seg < 2 ^ 15 }
    ensures value { result ≡ segment_r1 core_store core.now dbr seg }
    ensures bound { IfOk result (λ ring. ring < 2 ^ 3) }
{
    let sdw = descriptor(core, dbr, seg)?;
    check_brackets(&sdw)?;
    Ok(sdw.r1)
}
