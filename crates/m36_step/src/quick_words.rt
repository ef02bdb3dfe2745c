//! Quick operations on single words, and transfers.
//!
//! Each call executes an instruction at a final address and records its references and its end.
//! False: the step is not quick, and nothing has changed except the recorder.

ghost use Rattle.std.specs.Prelude.{◌≡◌, ◌<◌, None, IsTrue, IsFalse};
ghost use Rattle.m36_inst.specs.Quick.{IsQuick};
ghost use Rattle.m36_inst.specs.declared.rows.Group.TheVariants as group;
ghost use Rattle.m36_step.specs.Quick.{Operates};

use crate::operated::Part;
use crate::recorder::Recorder;
use crate::references::final_at;
use crate::writes::write_word;
use m36_ea::procedure_ring;
use m36_inst::Quick;
use m36_model::{Final, Kind, Regs};
use m36_walk::Walk;
use m36_word::Word;

/// Executes an instruction that reads a word.
#[inline(always)]
pub(crate) fn try_read_word<R: Recorder>(
    walk: &mut Walk,
    regs: &mut Regs,
    rec: &mut R,
    word: Word,
    row: &Quick,
    last: &Final,
) -> bool
    requires dbr { walk.old.dbr ≡ regs.old.dbr }
    requires row { IsQuick row.now }
    requires group { row.now.group ≡ group.Read }
    requires plain { last.now.direct ≡ None }
    requires room { R.taken rec.old < 39 }
    ensures went { IsTrue result → Operates (R.has rec.old) (R.tells rec.new) row.now regs.old word
        last.now walk.old.core walk.new.core regs.new }
    ensures walk { IsFalse result → walk.new ≡ walk.old }
    ensures regs { IsFalse result → regs.new ≡ regs.old }
    ensures place { R.place rec.new ≡ R.place rec.old }
    ensures dbr { walk.new.dbr ≡ regs.new.dbr }
{
    let at = final_at(last);
    let place = match walk.quick_read(at) {
        Some(place) => place,
        None => return false,
    };
    let operand = walk.peek(place);
    if !m36_fastpath::read_word(row.effect, row.reg as u8, regs, operand) {
        return false;
    }
    rec.refer(Kind::Read, at, 1);
    rec.end(word, last);
    true
}

/// Executes an instruction that stores a word.
#[inline(always)]
pub(crate) fn try_store_word<R: Recorder>(
    walk: &mut Walk,
    regs: &mut Regs,
    rec: &mut R,
    word: Word,
    row: &Quick,
    last: &Final,
) -> bool
    requires dbr { walk.old.dbr ≡ regs.old.dbr }
    requires row { IsQuick row.now }
    requires group { row.now.group ≡ group.Store }
    requires plain { last.now.direct ≡ None }
    requires room { R.taken rec.old < 39 }
    ensures went { IsTrue result → Operates (R.has rec.old) (R.tells rec.new) row.now regs.old word
        last.now walk.old.core walk.new.core regs.new }
    ensures walk { IsFalse result → walk.new ≡ walk.old }
    ensures regs { IsFalse result → regs.new ≡ regs.old }
    ensures place { R.place rec.new ≡ R.place rec.old }
    ensures dbr { walk.new.dbr ≡ regs.new.dbr }
{
    let at = final_at(last);
    let place = match walk.quick_write(at) {
        Some(place) => place,
        None => return false,
    };
    let stored = m36_fastpath::store_word(row.effect, regs);
    walk.store(place, stored);
    rec.refer(Kind::Write, at, 1);
    rec.end(word, last);
    true
}

/// Executes an instruction that reads and writes a word.
#[inline(always)]
pub(crate) fn try_change_word<R: Recorder>(
    walk: &mut Walk,
    regs: &mut Regs,
    rec: &mut R,
    word: Word,
    row: &Quick,
    last: &Final,
) -> bool
    requires dbr { walk.old.dbr ≡ regs.old.dbr }
    requires row { IsQuick row.now }
    requires group { row.now.group ≡ group.Change }
    requires plain { last.now.direct ≡ None }
    requires room { R.taken rec.old < 39 }
    ensures went { IsTrue result → Operates (R.has rec.old) (R.tells rec.new) row.now regs.old word
        last.now walk.old.core walk.new.core regs.new }
    ensures walk { IsFalse result → walk.new ≡ walk.old }
    ensures regs { IsFalse result → regs.new ≡ regs.old }
    ensures place { R.place rec.new ≡ R.place rec.old }
    ensures dbr { walk.new.dbr ≡ regs.new.dbr }
{
    let at = final_at(last);
    let place = match walk.quick_change(at) {
        Some(place) => place,
        None => return false,
    };
    let operand = walk.peek(place);
    let changed = match m36_fastpath::change_word(row.effect, regs, operand) {
        Some(changed) => changed,
        None => return false,
    };
    walk.store(place, changed);
    rec.refer(Kind::Read, at, 1);
    rec.refer(Kind::Write, at, 1);
    rec.end(word, last);
    true
}

/// Executes an instruction that stores the left half of a word.
#[inline(always)]
pub(crate) fn try_store_upper<R: Recorder>(
    walk: &mut Walk,
    regs: &mut Regs,
    rec: &mut R,
    word: Word,
    row: &Quick,
    last: &Final,
) -> bool
    requires dbr { walk.old.dbr ≡ regs.old.dbr }
    requires row { IsQuick row.now }
    requires group { row.now.group ≡ group.Upper }
    requires plain { last.now.direct ≡ None }
    requires room { R.taken rec.old < 39 }
    ensures went { IsTrue result → Operates (R.has rec.old) (R.tells rec.new) row.now regs.old word
        last.now walk.old.core walk.new.core regs.new }
    ensures walk { IsFalse result → walk.new ≡ walk.old }
    ensures regs { IsFalse result → regs.new ≡ regs.old }
    ensures place { R.place rec.new ≡ R.place rec.old }
    ensures dbr { walk.new.dbr ≡ regs.new.dbr }
{
    let at = final_at(last);
    let place = match walk.quick_write(at) {
        Some(place) => place,
        None => return false,
    };
    let half = m36_fastpath::store_half(row.effect, row.reg as u8, regs);
    write_word(walk, place, Part::Left, half);
    rec.refer(Kind::Write, at, 1);
    rec.end(word, last);
    true
}

/// Executes an instruction that stores the right half of a word.
#[inline(always)]
pub(crate) fn try_store_lower<R: Recorder>(
    walk: &mut Walk,
    regs: &mut Regs,
    rec: &mut R,
    word: Word,
    row: &Quick,
    last: &Final,
) -> bool
    requires dbr { walk.old.dbr ≡ regs.old.dbr }
    requires row { IsQuick row.now }
    requires group { row.now.group ≡ group.Lower }
    requires plain { last.now.direct ≡ None }
    requires room { R.taken rec.old < 39 }
    ensures went { IsTrue result → Operates (R.has rec.old) (R.tells rec.new) row.now regs.old word
        last.now walk.old.core walk.new.core regs.new }
    ensures walk { IsFalse result → walk.new ≡ walk.old }
    ensures regs { IsFalse result → regs.new ≡ regs.old }
    ensures place { R.place rec.new ≡ R.place rec.old }
    ensures dbr { walk.new.dbr ≡ regs.new.dbr }
{
    let at = final_at(last);
    let place = match walk.quick_write(at) {
        Some(place) => place,
        None => return false,
    };
    let half = m36_fastpath::store_half(row.effect, row.reg as u8, regs);
    write_word(walk, place, Part::Right, half);
    rec.refer(Kind::Write, at, 1);
    rec.end(word, last);
    true
}

/// Executes an instruction that loads its address.
#[inline(always)]
pub(crate) fn try_load_address<R: Recorder>(
    walk: &mut Walk,
    regs: &mut Regs,
    rec: &mut R,
    word: Word,
    row: &Quick,
    last: &Final,
) -> bool
    requires dbr { walk.old.dbr ≡ regs.old.dbr }
    requires row { IsQuick row.now }
    requires group { row.now.group ≡ group.Address }
    requires plain { last.now.direct ≡ None }
    requires room { R.taken rec.old < 39 }
    ensures went { IsTrue result → Operates (R.has rec.old) (R.tells rec.new) row.now regs.old word
        last.now walk.old.core walk.new.core regs.new }
    ensures walk { IsFalse result → walk.new ≡ walk.old }
    ensures regs { IsFalse result → regs.new ≡ regs.old }
    ensures place { R.place rec.new ≡ R.place rec.old }
    ensures dbr { walk.new.dbr ≡ regs.new.dbr }
{
    m36_fastpath::load_address(row.effect, row.reg as u8, regs, last);
    rec.end(word, last);
    true
}

/// Executes a shift, which uses only its address.
#[inline(always)]
pub(crate) fn try_shift<R: Recorder>(
    walk: &mut Walk,
    regs: &mut Regs,
    rec: &mut R,
    word: Word,
    row: &Quick,
    last: &Final,
) -> bool
    requires dbr { walk.old.dbr ≡ regs.old.dbr }
    requires row { IsQuick row.now }
    requires group { row.now.group ≡ group.Shift }
    requires plain { last.now.direct ≡ None }
    requires room { R.taken rec.old < 39 }
    ensures went { IsTrue result → Operates (R.has rec.old) (R.tells rec.new) row.now regs.old word
        last.now walk.old.core walk.new.core regs.new }
    ensures walk { IsFalse result → walk.new ≡ walk.old }
    ensures regs { IsFalse result → regs.new ≡ regs.old }
    ensures place { R.place rec.new ≡ R.place rec.old }
    ensures dbr { walk.new.dbr ≡ regs.new.dbr }
{
    m36_fastpath::shift(row.effect, regs, last);
    rec.end(word, last);
    true
}

/// Executes a transfer. One that is not taken does not examine its target.
#[inline(always)]
pub(crate) fn try_transfer<R: Recorder>(
    walk: &mut Walk,
    regs: &mut Regs,
    rec: &mut R,
    word: Word,
    row: &Quick,
    last: &Final,
) -> bool
    requires dbr { walk.old.dbr ≡ regs.old.dbr }
    requires row { IsQuick row.now }
    requires group { row.now.group ≡ group.Transfer }
    requires plain { last.now.direct ≡ None }
    requires room { R.taken rec.old < 39 }
    ensures went { IsTrue result → Operates (R.has rec.old) (R.tells rec.new) row.now regs.old word
        last.now walk.old.core walk.new.core regs.new }
    ensures walk { IsFalse result → walk.new ≡ walk.old }
    ensures regs { IsFalse result → regs.new ≡ regs.old }
    ensures place { R.place rec.new ≡ R.place rec.old }
    ensures dbr { walk.new.dbr ≡ regs.new.dbr }
{
    if !m36_xfer::is_taken(row.effect, regs) {
        m36_xfer::transfer(row.effect, false, regs, last);
        rec.end(word, last);
        return true;
    }
    let at = final_at(last);
    if at.ring != procedure_ring(regs) {
        return false;
    }
    if !walk.quick_transfer(at) {
        return false;
    }
    m36_xfer::transfer(row.effect, true, regs, last);
    rec.end(word, last);
    true
}
