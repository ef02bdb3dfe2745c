//! References that write.

ghost use Rattle.std.specs.Prelude.{◌≡◌, ◌+◌, ◌%◌, ◌<◌, ◌≤◌, ◌^◌, [], ◌∷◌, IfOk, length, slice_set};
ghost use Rattle.m36_word.specs.Pairs.{pair_words};
ghost use Rattle.m36_model.specs.Core.{core_put};
ghost use Rattle.m36_model.specs.Results.{words_of_pairs};
ghost use Rattle.m36_model.specs.Step.{aligned_at};
ghost use Rattle.m36_walk.specs.Runs.{IsInCore};
ghost use Rattle.m36_walk.specs.Served.{IsWordCount, ok_map, ServesClaim, Writes};
ghost use Rattle.m36_walk.specs.Words.{run_changes};

use crate::reads::{start_of_block, start_of_pair};
use crate::refer::refer_write;
use crate::walk::Walk;
use crate::words::{WordRun, put_block, put_pair};
use m36_associative::store;
use m36_model::{At, Fault};
use m36_word::{Pair, Word};

/// The address of the first of the 1, 2 or 16 words that a reference to `at` is to: a pair begins
/// at an even word number, and a block at a multiple of 16.
#[inline(always)]
pub fn first_at(at: At, count: u8) -> At
    requires { IsWordCount count }
    ensures value { result ≡ aligned_at count at }
    ensures block { result.word % 16 + count ≤ 16 }
{
    if count == 1 {
        return at;
    }
    if count == 2 {
        start_of_pair(at)
    } else {
        start_of_block(at)
    }
}

impl Walk {
    /// Checks a Write of 1, 2 or 16 words in the ring of `at`, sets its marks, and writes nothing.
    /// Returns the core words.
    pub fn claim(&mut self, at: At, count: u8) -> Result<WordRun, Fault>
        requires { IsWordCount count }
        ensures serves { ServesClaim self.old self.new.core (aligned_at count at) count
            (ok_map (λ r. r.place) result) }
        ensures count { IfOk result (λ r. r.count ≡ count) }
        ensures inside { IfOk result (λ r. IsInCore (length self.new.core) r.place count) }
        ensures bound { IfOk result (λ r. r.place < 2 ^ 24) }
        ensures dbr { self.new.dbr ≡ self.old.dbr }
        ensures len { length self.new.core ≡ length self.old.core }
    {
        refer_write(
            &mut self.core,
            self.dbr,
            &mut self.memories,
            first_at(at, count),
            count as u32,
        )
    }

    /// As `claim`. Returns the core address of the first word; the others follow it modulo 2^24.
    pub fn claim_place(&mut self, at: At, count: u8) -> Result<u32, Fault>
        requires { IsWordCount count }
        ensures serves { ServesClaim self.old self.new.core (aligned_at count at) count result }
        ensures inside { IfOk result (λ a. IsInCore (length self.new.core) a count) }
        ensures bound { IfOk result (λ a. a < 2 ^ 24) }
        ensures dbr { self.new.dbr ≡ self.old.dbr }
        ensures len { length self.new.core ≡ length self.old.core }
    {
        match self.claim(at, count) {
            Ok(words) => Ok(words.place),
            Err(fault) => Err(fault),
        }
    }

    /// Writes one core word.
    #[inline(always)]
    pub fn store(&mut self, place: u32, w: Word)
        requires { place < length self.old.core }
        ensures core { self.new.core ≡ slice_set self.old.core place w }
        ensures dbr { self.new.dbr ≡ self.old.dbr }
    {
        store(&mut self.core, &self.dbr, &mut self.memories, place, w);
    }

    /// Writes the pair that begins at an address.
    pub fn store_pair(&mut self, place: u32, pair: Pair)
        requires place { place < 2 ^ 24 }
        requires inside { IsInCore (length self.old.core) place 2 }
        ensures core { self.new.core
            ≡ core_put self.old.core (run_changes place (pair_words pair)) }
        ensures dbr { self.new.dbr ≡ self.old.dbr }
        ensures len { length self.new.core ≡ length self.old.core }
    {
        put_pair(&mut self.core, &self.dbr, &mut self.memories, place, pair);
    }

    /// Writes the block that begins at an address.
    pub fn store_block(&mut self, place: u32, block: &[Pair; 8])
        requires place { place < 2 ^ 24 }
        requires inside { IsInCore (length self.old.core) place 16 }
        ensures core { self.new.core
            ≡ core_put self.old.core (run_changes place (words_of_pairs block.now)) }
        ensures words { length (words_of_pairs block.now) ≡ 16 }
        ensures dbr { self.new.dbr ≡ self.old.dbr }
        ensures len { length self.new.core ≡ length self.old.core }
    {
        put_block(&mut self.core, &self.dbr, &mut self.memories, place, block);
    }

    /// Writes a word in the ring of `at`.
    #[tactic(auto, unfolding(crate::specs::Runs::IsInCore))]
    pub fn write(&mut self, at: At, w: Word) -> Result<(), Fault>
        ensures writes { Writes self.old self.new.core at 1 (w ∷ []) result }
        ensures dbr { self.new.dbr ≡ self.old.dbr }
        ensures len { length self.new.core ≡ length self.old.core }
    {
        match self.claim(at, 1) {
            Ok(words) => {
                self.store(words.place, w);
                Ok(())
            }
            Err(fault) => Err(fault),
        }
    }

    /// Writes the pair that contains a word. The low bit of the word number is ignored.
    pub fn write_pair(&mut self, at: At, p: Pair) -> Result<(), Fault>
        ensures writes { Writes self.old self.new.core (aligned_at 2 at) 2 (pair_words p) result }
        ensures dbr { self.new.dbr ≡ self.old.dbr }
        ensures len { length self.new.core ≡ length self.old.core }
    {
        match self.claim(at, 2) {
            Ok(words) => {
                self.store_pair(words.place, p);
                Ok(())
            }
            Err(fault) => Err(fault),
        }
    }

    /// Writes the block that contains a word. The low four bits of the word number are ignored.
    pub fn write_block(&mut self, at: At, b: [Pair; 8]) -> Result<(), Fault>
        ensures writes { Writes self.old self.new.core (aligned_at 16 at) 16 (words_of_pairs b)
            result }
        ensures dbr { self.new.dbr ≡ self.old.dbr }
        ensures len { length self.new.core ≡ length self.old.core }
    {
        match self.claim(at, 16) {
            Ok(words) => {
                self.store_block(words.place, &b);
                Ok(())
            }
            Err(fault) => Err(fault),
        }
    }
}
