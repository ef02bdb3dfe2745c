//! A quick step: one whose references pages in front answer, and that nothing refuses.
//!
//! All checks are made first. False: the step is not quick, and nothing has changed; `execute`
//! then takes it from its beginning.

ghost use Rattle.std.specs.Prelude.{◌≡◌, ◌<◌, ◌^◌, None, Ok, Some, IsTrue, IsFalse, length};
ghost use Rattle.std.specs.Prelude.{slice_index};
ghost use Rattle.m36_inst.specs.Quick.{IsQuick};
ghost use Rattle.m36_inst.specs.declared.rows.Group.TheVariants as group;
ghost use Rattle.m36_model.specs.Act.{Fetch};
ghost use Rattle.m36_model.specs.Modification.{here};
ghost use Rattle.m36_walk.specs.Served.{ServesWord};
ghost use Rattle.m36_step.specs.Quick.{Operates, Addresses, Decodes, IsNoLdbr, Steps};

use crate::quick_counted::{try_read_with_tally, try_store_with_tally};
use crate::quick_pairs::{try_call, try_read_pair, try_return, try_store_pair};
use crate::quick_words::{
    try_change_word, try_load_address, try_read_word, try_shift, try_store_lower, try_store_upper,
    try_store_word, try_transfer,
};
use crate::recorder::Recorder;
use crate::references::final_at;
use m36_ea::{plain_address, quick_indirect_address, quick_tally_address};
use m36_inst::{Group, Inst, Quick, quick_row};
use m36_model::{At, Final, Kind, Regs};
use m36_walk::Walk;
use m36_word::Word;

/// Executes an instruction whose group is not in `try_at_address`, given the parts of its final
/// address. It is a separate function because `try_at_address` with all groups would be too large
/// to be inlined: the compiler then ignores `inline(always)`.
#[inline(never)]
fn try_other_group<R: Recorder>(
    walk: &mut Walk,
    regs: &mut Regs,
    rec: &mut R,
    word: Word,
    row: &Quick,
    seg: u16,
    number: u32,
    ring: u8,
    bit: u8,
) -> bool
    requires dbr { walk.old.dbr ≡ regs.old.dbr }
    requires row { IsQuick row.now }
    requires seg { seg < 2 ^ 15 }
    requires number { number < 2 ^ 18 }
    requires ring { ring < 2 ^ 3 }
    requires bit { bit < 2 ^ 6 }
    requires room { R.taken rec.old < 39 }
    ensures went { IsTrue result → Operates (R.has rec.old) (R.tells rec.new) row.now regs.old word
        (record { at = record { seg = seg; word = number; ring = ring }; bit = bit; direct = None })
        walk.old.core walk.new.core regs.new }
    ensures grouped { IsTrue result → row.now.group ≡ group.Other → ⊥ }
    ensures walk { IsFalse result → walk.new ≡ walk.old }
    ensures regs { IsFalse result → regs.new ≡ regs.old }
    ensures place { R.place rec.new ≡ R.place rec.old }
    ensures dbr { walk.new.dbr ≡ regs.new.dbr }
{
    let last = Final {
        direct: None,
        at: At {
            word: number,
            seg,
            ring,
        },
        bit,
    };
    match row.group {
        Group::Upper => try_store_upper(walk, regs, rec, word, row, &last),
        Group::Lower => try_store_lower(walk, regs, rec, word, row, &last),
        Group::Shift => try_shift(walk, regs, rec, word, row, &last),
        Group::ReadPair => try_read_pair(walk, regs, rec, word, row, &last),
        Group::StorePair => try_store_pair(walk, regs, rec, word, row, &last),
        Group::Call => try_call(walk, regs, rec, word, row, &last),
        Group::Return => try_return(walk, regs, rec, word, row, &last),
        _ => false,
    }
}

/// Executes an instruction whose address has no tally word and is not a direct operand.
#[inline(always)]
fn try_at_address<R: Recorder>(
    walk: &mut Walk,
    regs: &mut Regs,
    rec: &mut R,
    word: Word,
    row: &Quick,
    last: &Final,
) -> bool
    requires dbr { walk.old.dbr ≡ regs.old.dbr }
    requires row { IsQuick row.now }
    requires plain { last.now.direct ≡ None }
    requires room { R.taken rec.old < 39 }
    ensures went { IsTrue result → Operates (R.has rec.old) (R.tells rec.new) row.now regs.old word
        last.now walk.old.core walk.new.core regs.new }
    ensures grouped { IsTrue result → row.now.group ≡ group.Other → ⊥ }
    ensures walk { IsFalse result → walk.new ≡ walk.old }
    ensures regs { IsFalse result → regs.new ≡ regs.old }
    ensures place { R.place rec.new ≡ R.place rec.old }
    ensures dbr { walk.new.dbr ≡ regs.new.dbr }
{
    let at = final_at(last);
    match row.group {
        Group::Read => try_read_word(walk, regs, rec, word, row, last),
        Group::Store => try_store_word(walk, regs, rec, word, row, last),
        Group::Change => try_change_word(walk, regs, rec, word, row, last),
        Group::Address => try_load_address(walk, regs, rec, word, row, last),
        Group::Transfer => try_transfer(walk, regs, rec, word, row, last),
        _ => try_other_group(
            walk, regs, rec, word, row, at.seg, at.word, at.ring, last.bit,
        ),
    }
}

/// Executes an instruction with a direct operand, if it is one that reads a word.
#[inline(always)]
fn try_direct_operand<R: Recorder>(
    walk: &mut Walk,
    regs: &mut Regs,
    rec: &mut R,
    word: Word,
    row: &Quick,
    last: &Final,
    operand: Word,
) -> bool
    requires dbr { walk.old.dbr ≡ regs.old.dbr }
    requires row { IsQuick row.now }
    requires direct { last.now.direct ≡ Some operand }
    ensures went { IsTrue result → Operates (R.has rec.old) (R.tells rec.new) row.now regs.old word
        last.now walk.old.core walk.new.core regs.new }
    ensures grouped { IsTrue result → row.now.group ≡ group.Other → ⊥ }
    ensures walk { walk.new ≡ walk.old }
    ensures regs { IsFalse result → regs.new ≡ regs.old }
    ensures place { R.place rec.new ≡ R.place rec.old }
    ensures dbr { walk.new.dbr ≡ regs.new.dbr }
{
    match row.group {
        Group::Read => {
            if !m36_fastpath::read_word(row.effect, row.reg as u8, regs, operand) {
                return false;
            }
            rec.end(word, last);
            true
        }
        _ => false,
    }
}

/// Executes an instruction whose address counts a tally word, if it reads a word or stores one.
/// False, with nothing changed, if it does neither or the step is not quick.
#[inline(never)]
fn try_tally_address<R: Recorder>(
    walk: &mut Walk,
    regs: &mut Regs,
    rec: &mut R,
    word: Word,
    row: &Quick,
) -> bool
    requires dbr { walk.old.dbr ≡ regs.old.dbr }
    requires row { IsQuick row.now }
    requires room { R.taken rec.old < 36 }
    ensures went { IsTrue result → Addresses (R.has rec.old) (R.tells rec.new) row.now regs.old word
        walk.old.core walk.new.core regs.new }
    ensures grouped { IsTrue result → row.now.group ≡ group.Other → ⊥ }
    ensures walk { IsFalse result → walk.new ≡ walk.old }
    ensures regs { IsFalse result → regs.new ≡ regs.old }
    ensures place { R.place rec.new ≡ R.place rec.old }
    ensures dbr { walk.new.dbr ≡ regs.new.dbr }
{
    let inst = Inst::of_word(word);
    let counting = match quick_tally_address(walk, regs, &inst) {
        Some(counting) => counting,
        None => return false,
    };
    let tally = counting.tally;
    rec.refer(Kind::Indirect, tally.at, 1);
    rec.refer(Kind::Write, tally.at, 1);
    match row.group {
        Group::Read => try_read_with_tally(walk, regs, rec, word, row, &counting),
        Group::Store => try_store_with_tally(walk, regs, rec, word, row, &counting),
        _ => false,
    }
}

/// Executes an instruction whose tag is not one of register modification: through one indirect word
/// or pair, or through a tally word.
#[inline(never)]
fn try_indirect<R: Recorder>(
    walk: &mut Walk,
    regs: &mut Regs,
    rec: &mut R,
    word: Word,
    row: &Quick,
) -> bool
    requires dbr { walk.old.dbr ≡ regs.old.dbr }
    requires row { IsQuick row.now }
    requires room { R.taken rec.old < 36 }
    ensures went { IsTrue result → Addresses (R.has rec.old) (R.tells rec.new) row.now regs.old word
        walk.old.core walk.new.core regs.new }
    ensures grouped { IsTrue result → row.now.group ≡ group.Other → ⊥ }
    ensures walk { IsFalse result → walk.new ≡ walk.old }
    ensures regs { IsFalse result → regs.new ≡ regs.old }
    ensures place { R.place rec.new ≡ R.place rec.old }
    ensures dbr { walk.new.dbr ≡ regs.new.dbr }
{
    let inst = Inst::of_word(word);
    match quick_indirect_address(walk, regs, &inst) {
        None => try_tally_address(walk, regs, rec, word, row),
        Some(through) => {
            let last = through.last;
            rec.refer(Kind::Indirect, through.at, through.count);
            match last.direct {
                Some(_) => false,
                None => try_at_address(walk, regs, rec, word, row, &last),
            }
        }
    }
}

/// Forms the address of an instruction, and executes it.
#[inline(always)]
fn try_from_address<R: Recorder>(
    walk: &mut Walk,
    regs: &mut Regs,
    rec: &mut R,
    word: Word,
    row: &Quick,
) -> bool
    requires dbr { walk.old.dbr ≡ regs.old.dbr }
    requires row { IsQuick row.now }
    requires room { R.taken rec.old < 36 }
    ensures went { IsTrue result → Addresses (R.has rec.old) (R.tells rec.new) row.now regs.old word
        walk.old.core walk.new.core regs.new }
    ensures grouped { IsTrue result → row.now.group ≡ group.Other → ⊥ }
    ensures walk { IsFalse result → walk.new ≡ walk.old }
    ensures regs { IsFalse result → regs.new ≡ regs.old }
    ensures place { R.place rec.new ≡ R.place rec.old }
    ensures dbr { walk.new.dbr ≡ regs.new.dbr }
{
    let inst = Inst::of_word(word);
    match plain_address(regs, &inst) {
        None => try_indirect(walk, regs, rec, word, row),
        Some(last) => match last.direct {
            Some(operand) => try_direct_operand(walk, regs, rec, word, row, &last, operand),
            None => try_at_address(walk, regs, rec, word, row, &last),
        },
    }
}

/// Decodes and executes the instruction in a word.
#[inline(always)]
fn try_from_word<R: Recorder>(walk: &mut Walk, regs: &mut Regs, rec: &mut R, word: Word) -> bool
    requires dbr { walk.old.dbr ≡ regs.old.dbr }
    requires room { R.taken rec.old < 36 }
    ensures went { IsTrue result → Decodes (R.has rec.old) (R.tells rec.new) regs.old word
        walk.old.core walk.new.core regs.new }
    ensures no_ldbr { IsTrue result → IsNoLdbr word }
    ensures walk { IsFalse result → walk.new ≡ walk.old }
    ensures regs { IsFalse result → regs.new ≡ regs.old }
    ensures place { R.place rec.new ≡ R.place rec.old }
    ensures dbr { walk.new.dbr ≡ regs.new.dbr }
{
    let row = quick_row(word);
    try_from_address(walk, regs, rec, word, row)
}

/// Executes the instruction at a place in core.
#[inline(always)]
fn try_from_fetch<R: Recorder>(walk: &mut Walk, regs: &mut Regs, rec: &mut R, place: u32) -> bool
    requires dbr { walk.old.dbr ≡ regs.old.dbr }
    requires inside { place < length walk.old.core }
    requires serves { ServesWord (λ g. g.ppr.prr ≡ regs.old.ppr.prr) Fetch walk.old walk.old.core
        (here regs.old) (Ok (slice_index walk.old.core place)) }
    requires room { R.taken rec.old < 35 }
    ensures went { IsTrue result → Steps (R.has rec.old) (R.tells rec.new) regs.old walk.old.core
        walk.new.core regs.new }
    ensures walk { IsFalse result → walk.new ≡ walk.old }
    ensures regs { IsFalse result → regs.new ≡ regs.old }
    ensures place { R.place rec.new ≡ R.place rec.old }
    ensures dbr { walk.new.dbr ≡ regs.new.dbr }
{
    let word = walk.peek(place);
    rec.refer(Kind::Fetch, regs.here(), 1);
    try_from_word(walk, regs, rec, word)
}

/// Takes a quick step whose instruction is in another page than the one before it.
#[inline(never)]
fn try_quick_step_elsewhere<R: Recorder>(walk: &mut Walk, regs: &mut Regs, rec: &mut R) -> bool
    requires dbr { walk.old.dbr ≡ regs.old.dbr }
    requires room { R.taken rec.old < 35 }
    ensures went { IsTrue result → Steps (R.has rec.old) (R.tells rec.new) regs.old walk.old.core
        walk.new.core regs.new }
    ensures walk { IsFalse result → walk.new ≡ walk.old }
    ensures regs { IsFalse result → regs.new ≡ regs.old }
    ensures place { R.place rec.new ≡ R.place rec.old }
    ensures dbr { walk.new.dbr ≡ regs.new.dbr }
{
    match walk.quick_fetch_elsewhere(regs.here()) {
        Some(place) => try_from_fetch(walk, regs, rec, place),
        None => false,
    }
}

/// Takes one step, if pages in front answer all its references and nothing refuses it. False: it
/// is not such a step, and nothing has changed except the recorder.
#[inline(always)]
pub(crate) fn try_quick_step<R: Recorder>(walk: &mut Walk, regs: &mut Regs, rec: &mut R) -> bool
    requires dbr { walk.old.dbr ≡ regs.old.dbr }
    requires room { R.taken rec.old < 35 }
    ensures went { IsTrue result → Steps (R.has rec.old) (R.tells rec.new) regs.old walk.old.core
        walk.new.core regs.new }
    ensures walk { IsFalse result → walk.new ≡ walk.old }
    ensures regs { IsFalse result → regs.new ≡ regs.old }
    ensures place { R.place rec.new ≡ R.place rec.old }
    ensures dbr { walk.new.dbr ≡ regs.new.dbr }
{
    match walk.quick_fetch(regs.here()) {
        Some(place) => try_from_fetch(walk, regs, rec, place),
        None => try_quick_step_elsewhere(walk, regs, rec),
    }
}
