//! Quick operations on pairs, calls and returns.
//!
//! Each call executes an instruction at a final address and records its references and its end.
//! False: the step is not quick, and nothing has changed except the recorder.

ghost use Rattle.std.specs.Prelude.{◌≡◌, ◌<◌, None, IsTrue, IsFalse};
ghost use Rattle.m36_inst.specs.Quick.{IsQuick};
ghost use Rattle.m36_inst.specs.declared.rows.Group.TheVariants as group;
ghost use Rattle.m36_step.specs.Quick.{Operates};

use crate::recorder::Recorder;
use crate::references::final_at;
use m36_inst::Quick;
use m36_model::{Final, Kind, Regs};
use m36_walk::{Walk, first_at};
use m36_word::Word;

/// Executes an instruction that reads a pair.
#[inline(always)]
pub(crate) fn try_read_pair<R: Recorder>(
    walk: &mut Walk,
    regs: &mut Regs,
    rec: &mut R,
    word: Word,
    row: &Quick,
    last: &Final,
) -> bool
    requires dbr { walk.old.dbr ≡ regs.old.dbr }
    requires row { IsQuick row.now }
    requires group { row.now.group ≡ group.ReadPair }
    requires plain { last.now.direct ≡ None }
    requires room { R.taken rec.old < 39 }
    ensures went { IsTrue result → Operates (R.has rec.old) (R.tells rec.new) row.now regs.old word
        last.now walk.old.core walk.new.core regs.new }
    ensures walk { IsFalse result → walk.new ≡ walk.old }
    ensures regs { IsFalse result → regs.new ≡ regs.old }
    ensures place { R.place rec.new ≡ R.place rec.old }
    ensures dbr { walk.new.dbr ≡ regs.new.dbr }
{
    let at = final_at(last);
    let place = match walk.quick_read_pair(at) {
        Some((place, _)) => place,
        None => return false,
    };
    let operand = walk.peek_pair(place);
    if !m36_fastpath::read_pair(row.effect, regs, operand) {
        return false;
    }
    rec.refer(Kind::Read, first_at(at, 2), 2);
    rec.end(word, last);
    true
}

/// Executes an instruction that stores a pair.
#[inline(always)]
#[tactic(auto, unfolding(m36_walk::specs::Runs::IsInCore, m36_model::specs::Place::wrapped_address))]
pub(crate) fn try_store_pair<R: Recorder>(
    walk: &mut Walk,
    regs: &mut Regs,
    rec: &mut R,
    word: Word,
    row: &Quick,
    last: &Final,
) -> bool
    requires dbr { walk.old.dbr ≡ regs.old.dbr }
    requires row { IsQuick row.now }
    requires group { row.now.group ≡ group.StorePair }
    requires plain { last.now.direct ≡ None }
    requires room { R.taken rec.old < 39 }
    ensures went { IsTrue result → Operates (R.has rec.old) (R.tells rec.new) row.now regs.old word
        last.now walk.old.core walk.new.core regs.new }
    ensures walk { IsFalse result → walk.new ≡ walk.old }
    ensures regs { IsFalse result → regs.new ≡ regs.old }
    ensures place { R.place rec.new ≡ R.place rec.old }
    ensures dbr { walk.new.dbr ≡ regs.new.dbr }
{
    let at = final_at(last);
    let place = match walk.quick_write_pair(at) {
        Some(place) => place,
        None => return false,
    };
    let _size = walk.core().len(); // at most 2^24, so both places are below it
    let stored = m36_fastpath::store_pair(row.effect, regs);
    walk.store_pair(place, stored);
    rec.refer(Kind::Write, first_at(at, 2), 2);
    rec.end(word, last);
    true
}

/// Executes CALL6.
#[inline(always)]
pub(crate) fn try_call<R: Recorder>(
    walk: &mut Walk,
    regs: &mut Regs,
    rec: &mut R,
    word: Word,
    row: &Quick,
    last: &Final,
) -> bool
    requires dbr { walk.old.dbr ≡ regs.old.dbr }
    requires row { IsQuick row.now }
    requires group { row.now.group ≡ group.Call }
    requires plain { last.now.direct ≡ None }
    requires room { R.taken rec.old < 39 }
    ensures went { IsTrue result → Operates (R.has rec.old) (R.tells rec.new) row.now regs.old word
        last.now walk.old.core walk.new.core regs.new }
    ensures walk { IsFalse result → walk.new ≡ walk.old }
    ensures regs { IsFalse result → regs.new ≡ regs.old }
    ensures place { R.place rec.new ≡ R.place rec.old }
    ensures dbr { walk.new.dbr ≡ regs.new.dbr }
{
    let ring = match walk.check_call_target(final_at(last), regs.ppr) {
        Ok(ring) => ring,
        Err(_fault) => return false,
    };
    m36_xfer::call_in_place(regs, last, ring);
    rec.end(word, last);
    true
}

/// Executes RTCD.
#[inline(always)]
pub(crate) fn try_return<R: Recorder>(
    walk: &mut Walk,
    regs: &mut Regs,
    rec: &mut R,
    word: Word,
    row: &Quick,
    last: &Final,
) -> bool
    requires dbr { walk.old.dbr ≡ regs.old.dbr }
    requires row { IsQuick row.now }
    requires group { row.now.group ≡ group.Return }
    requires plain { last.now.direct ≡ None }
    requires room { R.taken rec.old < 39 }
    ensures went { IsTrue result → Operates (R.has rec.old) (R.tells rec.new) row.now regs.old word
        last.now walk.old.core walk.new.core regs.new }
    ensures walk { IsFalse result → walk.new ≡ walk.old }
    ensures regs { IsFalse result → regs.new ≡ regs.old }
    ensures place { R.place rec.new ≡ R.place rec.old }
    ensures dbr { walk.new.dbr ≡ regs.new.dbr }
{
    let at = final_at(last);
    let (place, ring) = match walk.quick_read_pair(at) {
        Some(found) => found,
        None => return false,
    };
    let pair = walk.peek_pair(place);
    m36_xfer::return_in_place(regs, last, pair, ring);
    rec.refer(Kind::Read, first_at(at, 2), 2);
    rec.end(word, last);
    true
}
