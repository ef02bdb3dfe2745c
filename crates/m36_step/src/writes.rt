//! Writes the words of an instruction, all together, once nothing can refuse it any more.

ghost use Rattle.std.specs.Prelude.{◌≡◌, ◌<◌, ◌^◌, length};
ghost use Rattle.m36_model.specs.Act.{Whole, Left, Right};
ghost use Rattle.m36_model.specs.Chain.{claimed_by, pending_of};
ghost use Rattle.m36_model.specs.Core.{core_put, put_one};
ghost use Rattle.m36_model.specs.Results.{words_of_held, words_of_pairs};
ghost use Rattle.m36_model.specs.StepCases.{changes_at_spots};
ghost use Rattle.m36_model.specs.Store.{Core_word, changes, with_part_written};
ghost use Rattle.m36_walk.specs.Runs.{run_from, IsInCore};
ghost use Rattle.m36_step.specs.Operated.{part_of, claims_of, puts_of, TallyIsInCore, WordsFitPart};
ghost use Rattle.m36_step.specs.Operated.{ValueFitsPart, PlacesAreInCore};
ghost use Rattle.m36_step.specs.declared.operated.Part.TheVariants as part;

use crate::operated::{Operated, Part};
use m36_model::{Formed, Held};
use m36_walk::Walk;
use m36_word::{Pair, Word};

/// A word with its left half replaced.
#[inline(always)]
fn with_left(old: Word, half: Word) -> Word
    requires { half < 2 ^ 18 }
    ensures { result ≡ with_part_written Left old half }
{
    Word::low((half.value() << 18) + old.value() % (1 << 18))
}

/// A word with its right half replaced.
#[inline(always)]
fn with_right(old: Word, half: Word) -> Word
    requires { half < 2 ^ 18 }
    ensures { result ≡ with_part_written Right old half }
{
    Word::low((old.value() >> 18 << 18) + half.value())
}

/// A word with this part replaced.
#[inline(always)]
fn with_part(part: Part, old: Word, value: Word) -> Word
    requires { ValueFitsPart part value }
    ensures { result ≡ with_part_written (part_of part) old value }
{
    match part {
        Part::Whole => value,
        Part::Left => with_left(old, value),
        Part::Right => with_right(old, value),
    }
}

/// Writes a word, or replaces a half of the word in core.
#[inline(always)]
pub(crate) fn write_word(walk: &mut Walk, place: u32, part: Part, value: Word)
    requires place { place < length walk.old.core }
    requires part { ValueFitsPart part value }
    ensures core { walk.new.core ≡ put_one walk.old.core (Core_word place) (part_of part) value }
    ensures dbr { walk.new.dbr ≡ walk.old.dbr }
    ensures len { length walk.new.core ≡ length walk.old.core }
{
    let old = walk.core().peek(place);
    walk.store(place, with_part(part, old, value));
}

/// Writes a block.
fn write_block(walk: &mut Walk, place: u32, block: &[Pair; 8])
    requires place { place < 2 ^ 24 }
    requires inside { IsInCore (length walk.old.core) place (length (words_of_pairs block.now)) }
    ensures core { walk.new.core
        ≡ core_put walk.old.core
        (changes_at_spots Whole (run_from place (length (words_of_pairs block.now)))
        (words_of_pairs block.now)) }
    ensures dbr { walk.new.dbr ≡ walk.old.dbr }
    ensures len { length walk.new.core ≡ length walk.old.core }
{
    walk.store_block(place, block);
}

/// Writes the words that an effect gives, or the half.
#[tactic(auto, unfolding(m36_model::specs::Core::core_put, m36_walk::specs::Runs::run_from, m36_walk::specs::Runs::IsInCore))]
fn write_operand(walk: &mut Walk, operated: &Operated, put: &Held)
    requires run { IsInCore (length walk.old.core) operated.now.place
        (length (words_of_held put.now)) }
    requires place { operated.now.place < 2 ^ 24 }
    requires part { WordsFitPart operated.now.part (words_of_held put.now) }
    ensures core { walk.new.core
        ≡ core_put walk.old.core
        (changes_at_spots (part_of operated.now.part)
        (run_from operated.now.place (length (words_of_held put.now)))
        (words_of_held put.now)) }
    ensures dbr { walk.new.dbr ≡ walk.old.dbr }
    ensures len { length walk.new.core ≡ length walk.old.core }
{
    match put {
        Held::Empty => {}
        Held::One(word) => write_word(walk, operated.place, operated.part, *word),
        Held::Two(pair) => walk.store_pair(operated.place, *pair),
        Held::Block(block) => write_block(walk, operated.place, block),
    }
}

/// Writes the tally word of an address, if it has one.
#[tactic(auto, unfolding(m36_model::specs::Core::core_put, m36_model::specs::Store::changes))]
fn write_tally(walk: &mut Walk, formed: &Formed)
    requires { TallyIsInCore formed.now.tally formed.now.place (length walk.old.core) }
    ensures core { walk.new.core
        ≡ core_put walk.old.core
        (changes (claimed_by formed.now.tally formed.now.place) (pending_of formed.now.tally)) }
    ensures dbr { walk.new.dbr ≡ walk.old.dbr }
    ensures len { length walk.new.core ≡ length walk.old.core }
{
    if let Some(tally) = formed.tally {
        walk.store(formed.place, tally.word);
    }
}

/// Writes the tally word of an address, and then the words of the operand.
#[tactic(auto, using(crate::proofs::Writing::written_together))]
pub(crate) fn write_words(walk: &mut Walk, formed: &Formed, operated: &Operated, put: &Held)
    requires lies { PlacesAreInCore (length walk.old.core) formed.now put.now operated.now }
    ensures core { walk.new.core
        ≡ core_put walk.old.core
        (changes (claims_of formed.now put.now operated.now)
        (puts_of formed.now put.now operated.now)) }
    ensures dbr { walk.new.dbr ≡ walk.old.dbr }
    ensures len { length walk.new.core ≡ length walk.old.core }
{
    write_tally(walk, formed);
    write_operand(walk, operated, put);
}
