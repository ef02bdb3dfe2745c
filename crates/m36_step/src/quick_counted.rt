//! Quick operations on single words whose address counts a tally word.
//!
//! The tally word is written before the operand, and the effect uses the tally runout indicator
//! that the count has set. An instruction that reads its operand is quick only if the operand is
//! not the tally word.

ghost use Rattle.std.specs.Prelude.{◌≡◌, ◌<◌, None, IsTrue, IsFalse, length};
ghost use Rattle.m36_inst.specs.Quick.{IsQuick};
ghost use Rattle.m36_inst.specs.declared.rows.Group.TheVariants as group;
ghost use Rattle.m36_model.specs.Step.{with_tally};
ghost use Rattle.m36_step.specs.Quick.{OperatesCounted};

use crate::recorder::Recorder;
use crate::references::final_at;
use m36_ea::Counting;
use m36_inst::Quick;
use m36_model::{Kind, Regs};
use m36_walk::Walk;
use m36_word::Word;

/// The tally runout indicator.
#[inline(always)]
fn tally_runout(regs: &Regs) -> bool
    ensures { result ≡ regs.now.ind.tally }
{
    let ind = regs.ind;
    ind.tally
}

/// Sets or clears tally runout.
#[inline(always)]
#[tactic(auto, unfolding(m36_model::specs::Step::with_chain_tally))]
fn set_tally(regs: &mut Regs, runout: bool)
    ensures value { regs.new ≡ with_tally runout regs.old }
    ensures dbr { regs.new.dbr ≡ regs.old.dbr }
{
    regs.ind.tally = runout;
}

/// Executes an instruction that reads a word.
#[inline(always)]
pub(crate) fn try_read_with_tally<R: Recorder>(
    walk: &mut Walk,
    regs: &mut Regs,
    rec: &mut R,
    word: Word,
    row: &Quick,
    counting: &Counting,
) -> bool
    requires dbr { walk.old.dbr ≡ regs.old.dbr }
    requires row { IsQuick row.now }
    requires group { row.now.group ≡ group.Read }
    requires plain { counting.now.last.direct ≡ None }
    requires inside { counting.now.place < length walk.old.core }
    requires room { R.taken rec.old < 39 }
    ensures went { IsTrue result
        → OperatesCounted (R.has rec.old) (R.tells rec.new) row.now regs.old
        word counting.now walk.old.core walk.new.core regs.new }
    ensures walk { IsFalse result → walk.new ≡ walk.old }
    ensures regs { IsFalse result → regs.new ≡ regs.old }
    ensures place { R.place rec.new ≡ R.place rec.old }
    ensures dbr { walk.new.dbr ≡ regs.new.dbr }
{
    let last = counting.last;
    let tally = counting.tally;
    let at = final_at(&last);
    let place = match walk.quick_read(at) {
        Some(place) => place,
        None => return false,
    };
    if place == counting.place {
        return false;
    }
    let operand = walk.peek(place);
    let before = tally_runout(regs);
    set_tally(regs, tally.runout);
    if !m36_fastpath::read_word(row.effect, row.reg as u8, regs, operand) {
        set_tally(regs, before);
        return false;
    }
    walk.store(counting.place, tally.word);
    rec.refer(Kind::Read, at, 1);
    rec.end(word, &last);
    true
}

/// Executes an instruction that stores a word.
#[inline(always)]
pub(crate) fn try_store_with_tally<R: Recorder>(
    walk: &mut Walk,
    regs: &mut Regs,
    rec: &mut R,
    word: Word,
    row: &Quick,
    counting: &Counting,
) -> bool
    requires dbr { walk.old.dbr ≡ regs.old.dbr }
    requires row { IsQuick row.now }
    requires group { row.now.group ≡ group.Store }
    requires plain { counting.now.last.direct ≡ None }
    requires inside { counting.now.place < length walk.old.core }
    requires room { R.taken rec.old < 39 }
    ensures went { IsTrue result
        → OperatesCounted (R.has rec.old) (R.tells rec.new) row.now regs.old
        word counting.now walk.old.core walk.new.core regs.new }
    ensures walk { IsFalse result → walk.new ≡ walk.old }
    ensures regs { IsFalse result → regs.new ≡ regs.old }
    ensures place { R.place rec.new ≡ R.place rec.old }
    ensures dbr { walk.new.dbr ≡ regs.new.dbr }
{
    let last = counting.last;
    let tally = counting.tally;
    let at = final_at(&last);
    let place = match walk.quick_write(at) {
        Some(place) => place,
        None => return false,
    };
    set_tally(regs, tally.runout);
    let stored = m36_fastpath::store_word(row.effect, regs);
    walk.store(counting.place, tally.word);
    walk.store(place, stored);
    rec.refer(Kind::Write, at, 1);
    rec.end(word, &last);
    true
}
