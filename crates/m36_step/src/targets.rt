//! Operands whose words are not referenced: addresses, and the targets of transfers and calls.

ghost use Rattle.std.specs.Prelude.{◌≡◌, ◌<◌, ◌≤◌, ◌^◌, List, IfOk, IsTrue, length};
ghost use Rattle.m36_model.specs.Chain.{chain_end_fields};
ghost use Rattle.m36_model.specs.OperandHeld.{is_empty};
ghost use Rattle.m36_model.specs.Results.{operand_fields, place_only};
ghost use Rattle.m36_model.specs.Step.{addressing, transferring, calling};
ghost use Rattle.m36_model.specs.declared.place.Reference.{Reference};
ghost use Rattle.m36_walk.specs.Runs.{IsInCore};
ghost use Rattle.m36_step.specs.Reached.{Reads};
ghost use Rattle.m36_step.specs.declared.operated.Part.TheVariants as part;

use crate::operands::{fill_operand, nothing_to_write};
use crate::operated::Reached;
use crate::references::end_address;
use m36_model::{Fault, Formed, Held, Operand36, Regs};
use m36_walk::Walk;

/// Fills an operand with a place in core. Core has at most 2^24 words.
fn fill_with_place(walk: &Walk, place: u32, operand: &mut Operand36)
    requires { place < length walk.now.core }
    ensures operand { operand_fields operand.new ≡ place_only place }
    ensures got { IsTrue (is_empty operand.new.got) }
{
    let _size = walk.core().len();
    *operand = Operand36 {
        got: Held::Empty,
        place,
        ring: 0,
    };
}

/// Reaches an operand of which only the address is used. For ABSA this includes its place in core.
#[tactic(auto, using(crate::proofs::Reaching::reaching), unfolding(m36_walk::specs::Runs::IsInCore, m36_walk::specs::Runs::run_from))]
pub(crate) fn reach_address(
    walk: &mut Walk,
    regs: &Regs,
    formed: &Formed,
    absa: bool,
    operand: &mut Operand36,
) -> Result<Reached, Fault>
    requires dbr { walk.old.dbr ≡ regs.now.dbr }
    ensures reads { (refs : List Reference)
        → Reads (λ e n. addressing e n regs.now (chain_end_fields formed.now) absa) regs.now
        formed.now walk.old.core refs walk.new.core refs operand.new result }
    ensures got { IfOk result (λ u. IsTrue (is_empty operand.new.got)) }
    ensures run { IfOk result (λ u. IsInCore (length walk.new.core) u.place 0) }
    ensures place { IfOk result (λ u. u.place < 2 ^ 24) }
    ensures part { IfOk result (λ u. u.part ≡ part.Whole) }
    ensures same { walk.new ≡ walk.old }
{
    if !absa {
        fill_operand(Held::Empty, 0, operand);
        return Ok(nothing_to_write());
    }
    match walk.place(end_address(formed)) {
        Ok(place) => {
            fill_with_place(walk, place, operand);
            Ok(nothing_to_write())
        }
        Err(fault) => Err(fault),
    }
}

/// Checks the target of a transfer that is taken. One that is not taken is not checked.
#[tactic(auto, using(crate::proofs::Reaching::reaching), unfolding(m36_walk::specs::Runs::IsInCore))]
pub(crate) fn reach_target(
    walk: &mut Walk,
    regs: &Regs,
    formed: &Formed,
    taken: bool,
    operand: &mut Operand36,
) -> Result<Reached, Fault>
    requires dbr { walk.old.dbr ≡ regs.now.dbr }
    ensures reads { (refs : List Reference)
        → Reads (λ e n. transferring e n regs.now (chain_end_fields formed.now) taken) regs.now
        formed.now walk.old.core refs walk.new.core refs operand.new result }
    ensures got { IfOk result (λ u. IsTrue (is_empty operand.new.got)) }
    ensures run { IfOk result (λ u. IsInCore (length walk.new.core) u.place 0) }
    ensures place { IfOk result (λ u. u.place < 2 ^ 24) }
    ensures part { IfOk result (λ u. u.part ≡ part.Whole) }
    ensures same { walk.new ≡ walk.old }
{
    if !taken {
        fill_operand(Held::Empty, 0, operand);
        return Ok(nothing_to_write());
    }
    let ppr = regs.ppr;
    match walk.check_transfer_target(end_address(formed), ppr.prr) {
        Ok(()) => {
            fill_operand(Held::Empty, 0, operand);
            Ok(nothing_to_write())
        }
        Err(fault) => Err(fault),
    }
}

/// Checks the target of CALL6, which determines the new ring.
#[tactic(auto, using(crate::proofs::Reaching::reaching), unfolding(m36_walk::specs::Runs::IsInCore))]
pub(crate) fn reach_call(
    walk: &mut Walk,
    regs: &Regs,
    formed: &Formed,
    operand: &mut Operand36,
) -> Result<Reached, Fault>
    requires dbr { walk.old.dbr ≡ regs.now.dbr }
    ensures reads { (refs : List Reference)
        → Reads (λ e n. calling e n regs.now (chain_end_fields formed.now)) regs.now formed.now
        walk.old.core refs walk.new.core refs operand.new result }
    ensures got { IfOk result (λ u. IsTrue (is_empty operand.new.got)) }
    ensures run { IfOk result (λ u. IsInCore (length walk.new.core) u.place 0) }
    ensures place { IfOk result (λ u. u.place < 2 ^ 24) }
    ensures part { IfOk result (λ u. u.part ≡ part.Whole) }
    ensures same { walk.new ≡ walk.old }
{
    match walk.check_call_target(end_address(formed), regs.ppr) {
        Ok(ring) => {
            fill_operand(Held::Empty, ring, operand);
            Ok(nothing_to_write())
        }
        Err(fault) => Err(fault),
    }
}
