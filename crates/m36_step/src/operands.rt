//! Reads operands, and claims the places of operands that will be written.

ghost use Rattle.std.specs.Prelude.{◌≡◌, ◌+◌, ◌<◌, ◌≤◌, ◌^◌, IfOk, IsTrue, length};
ghost use Rattle.m36_model.specs.OperandHeld.{is_empty, is_word, is_pair, is_block};
ghost use Rattle.m36_model.specs.Chain.{chain_end_fields};
ghost use Rattle.m36_model.specs.Results.{operand_fields, words_of_held, words_in_ring};
ghost use Rattle.m36_model.specs.Step.{reading_word, reading_words, writing, changing};
ghost use Rattle.m36_walk.specs.Runs.{IsInCore};
ghost use Rattle.m36_walk.specs.Served.{IsWordCount};
ghost use Rattle.m36_step.specs.Operated.{part_of};
ghost use Rattle.m36_step.specs.Reached.{Reads, Writes};
ghost use Rattle.m36_step.specs.declared.operated.Part.TheVariants as part;

use crate::operated::{Part, Reached};
use crate::references::{claim_words, read_block, read_pair, read_word};
use m36_model::{Fault, Formed, Held, Operand36, Refs, Regs};
use m36_walk::Walk;

/// Fills an operand with words that were read, and with the first ring bracket of their segment or
/// a new ring.
#[inline(always)]
pub(crate) fn fill_operand(got: Held, ring: u8, operand: &mut Operand36)
    requires { ring < 2 ^ 3 }
    ensures operand { operand_fields operand.new ≡ words_in_ring (words_of_held got) ring }
    ensures got { operand.new.got ≡ got }
{
    *operand = Operand36 {
        got,
        place: 0,
        ring,
    };
}

/// The result of reaching an operand that will not be written.
pub(crate) fn nothing_to_write() -> Reached
    ensures place { result.place ≡ 0 }
    ensures part { result.part ≡ part.Whole }
{
    Reached {
        place: 0,
        part: Part::Whole,
    }
}

/// Reads the word of an operand into `operand`.
#[tactic(auto, using(crate::proofs::Reaching::reaching), unfolding(m36_walk::specs::Runs::IsInCore))]
pub(crate) fn reach_word(
    walk: &mut Walk,
    regs: &Regs,
    formed: &Formed,
    refs: &mut Refs,
    operand: &mut Operand36,
) -> Result<Reached, Fault>
    requires dbr { walk.old.dbr ≡ regs.now.dbr }
    requires room { length refs.old.items < 40 }
    ensures reads { Reads (λ e n. reading_word e n regs.now (chain_end_fields formed.now)) regs.now
        formed.now walk.old.core refs.old.items walk.new.core refs.new.items operand.new result }
    ensures got { IfOk result (λ u. IsTrue (is_word operand.new.got)) }
    ensures run { IfOk result (λ u. IsInCore (length walk.new.core) u.place 0) }
    ensures place { IfOk result (λ u. u.place < 2 ^ 24) }
    ensures part { IfOk result (λ u. u.part ≡ part.Whole) }
    ensures count { length refs.new.items ≤ length refs.old.items + 1 }
    ensures dbr { walk.new.dbr ≡ walk.old.dbr }
    ensures len { length walk.new.core ≡ length walk.old.core }
{
    match read_word(walk, regs, formed, refs) {
        Ok(word) => {
            fill_operand(Held::One(word), 0, operand);
            Ok(nothing_to_write())
        }
        Err(fault) => Err(fault),
    }
}

/// Reads the pair of an operand into `operand`, with the first ring bracket of its segment.
#[tactic(auto, using(crate::proofs::Reaching::reaching), unfolding(m36_walk::specs::Runs::IsInCore))]
pub(crate) fn reach_pair(
    walk: &mut Walk,
    regs: &Regs,
    formed: &Formed,
    refs: &mut Refs,
    operand: &mut Operand36,
) -> Result<Reached, Fault>
    requires dbr { walk.old.dbr ≡ regs.now.dbr }
    requires room { length refs.old.items < 40 }
    ensures reads { Reads (λ e n. reading_words e n regs.now (chain_end_fields formed.now) 2)
        regs.now formed.now walk.old.core refs.old.items walk.new.core refs.new.items operand.new
        result }
    ensures got { IfOk result (λ u. IsTrue (is_pair operand.new.got)) }
    ensures run { IfOk result (λ u. IsInCore (length walk.new.core) u.place 0) }
    ensures place { IfOk result (λ u. u.place < 2 ^ 24) }
    ensures part { IfOk result (λ u. u.part ≡ part.Whole) }
    ensures count { length refs.new.items ≤ length refs.old.items + 1 }
    ensures dbr { walk.new.dbr ≡ walk.old.dbr }
    ensures len { length walk.new.core ≡ length walk.old.core }
{
    match read_pair(walk, regs, formed, refs) {
        Ok((pair, ring)) => {
            fill_operand(Held::Two(pair), ring, operand);
            Ok(nothing_to_write())
        }
        Err(fault) => Err(fault),
    }
}

/// Reads the block of an operand into `operand`, with the first ring bracket of its segment.
#[tactic(auto, using(crate::proofs::Reaching::reaching), unfolding(m36_walk::specs::Runs::IsInCore))]
pub(crate) fn reach_block(
    walk: &mut Walk,
    regs: &Regs,
    formed: &Formed,
    refs: &mut Refs,
    operand: &mut Operand36,
) -> Result<Reached, Fault>
    requires dbr { walk.old.dbr ≡ regs.now.dbr }
    requires room { length refs.old.items < 40 }
    ensures reads { Reads (λ e n. reading_words e n regs.now (chain_end_fields formed.now) 16)
        regs.now formed.now walk.old.core refs.old.items walk.new.core refs.new.items operand.new
        result }
    ensures got { IfOk result (λ u. IsTrue (is_block operand.new.got)) }
    ensures run { IfOk result (λ u. IsInCore (length walk.new.core) u.place 0) }
    ensures place { IfOk result (λ u. u.place < 2 ^ 24) }
    ensures part { IfOk result (λ u. u.part ≡ part.Whole) }
    ensures count { length refs.new.items ≤ length refs.old.items + 1 }
    ensures dbr { walk.new.dbr ≡ walk.old.dbr }
    ensures len { length walk.new.core ≡ length walk.old.core }
{
    match read_block(walk, regs, formed, refs) {
        Ok(read) => {
            let block = read.0;
            fill_operand(Held::Block(block), read.1, operand);
            Ok(nothing_to_write())
        }
        Err(fault) => Err(fault),
    }
}

/// Claims the places of `count` words that will be written.
#[tactic(auto, using(crate::proofs::Reaching::reaching), unfolding(m36_walk::specs::Runs::IsInCore))]
pub(crate) fn reach_written(
    walk: &mut Walk,
    regs: &Regs,
    formed: &Formed,
    count: u8,
    part: Part,
    refs: &mut Refs,
    operand: &mut Operand36,
) -> Result<Reached, Fault>
    requires dbr { walk.old.dbr ≡ regs.now.dbr }
    requires room { length refs.old.items < 40 }
    requires count { IsWordCount count }
    ensures writes { Writes
        (λ e n. writing e n regs.now (chain_end_fields formed.now) count (part_of part)) regs.now
        formed.now count walk.old.core refs.old.items walk.new.core refs.new.items operand.new
        result }
    ensures got { IfOk result (λ u. IsTrue (is_empty operand.new.got)) }
    ensures run { IfOk result (λ u. IsInCore (length walk.new.core) u.place count) }
    ensures place { IfOk result (λ u. u.place < 2 ^ 24) }
    ensures part { IfOk result (λ u. u.part ≡ part) }
    ensures count { length refs.new.items ≤ length refs.old.items + 1 }
    ensures dbr { walk.new.dbr ≡ walk.old.dbr }
    ensures len { length walk.new.core ≡ length walk.old.core }
{
    match claim_words(walk, regs, formed, count, refs) {
        Ok(place) => {
            fill_operand(Held::Empty, 0, operand);
            Ok(Reached { place, part })
        }
        Err(fault) => Err(fault),
    }
}

/// Reads a word, and claims its place to write it.
#[tactic(auto, using(crate::proofs::Reaching::reaching), unfolding(m36_walk::specs::Runs::IsInCore))]
pub(crate) fn reach_changed(
    walk: &mut Walk,
    regs: &Regs,
    formed: &Formed,
    part: Part,
    refs: &mut Refs,
    operand: &mut Operand36,
) -> Result<Reached, Fault>
    requires dbr { walk.old.dbr ≡ regs.now.dbr }
    requires room { length refs.old.items + 1 < 40 }
    ensures writes { Writes
        (λ e n. changing e n regs.now (chain_end_fields formed.now) (part_of part)) regs.now
        formed.now 1 walk.old.core refs.old.items walk.new.core refs.new.items operand.new result }
    ensures got { IfOk result (λ u. IsTrue (is_word operand.new.got)) }
    ensures run { IfOk result (λ u. IsInCore (length walk.new.core) u.place 1) }
    ensures place { IfOk result (λ u. u.place < 2 ^ 24) }
    ensures part { IfOk result (λ u. u.part ≡ part) }
    ensures count { length refs.new.items ≤ length refs.old.items + 2 }
    ensures dbr { walk.new.dbr ≡ walk.old.dbr }
    ensures len { length walk.new.core ≡ length walk.old.core }
{
    match read_word(walk, regs, formed, refs) {
        Ok(word) => match claim_words(walk, regs, formed, 1, refs) {
            Ok(place) => {
                fill_operand(Held::One(word), 0, operand);
                Ok(Reached { place, part })
            }
            Err(fault) => Err(fault),
        },
        Err(fault) => Err(fault),
    }
}
