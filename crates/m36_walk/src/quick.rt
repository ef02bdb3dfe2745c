//! References that pages in front answer, without a lookup in the tables.
//!
//! None means that no page in front answers. The caller then makes the reference by another call.
//! Core does not change in either case, since the marks of a reference that is answered here are
//! already set. The answer is a core address; another call reads or writes the word there.

ghost use Rattle.std.specs.Prelude.{ℕ, ◌≡◌, ◌+◌, ◌%◌, ◌<◌, ◌≤◌, ◌^◌, [], ◌∷◌, None, Ok, IfSome};
ghost use Rattle.std.specs.Prelude.{IsTrue, Option, length, slice_index};
ghost use Rattle.m36_word.specs.Pairs.{pair_words};
ghost use Rattle.m36_model.specs.Act.{Fetch, Indirect, Odd, Transfer};
ghost use Rattle.m36_model.specs.Step.{aligned_at};
ghost use Rattle.m36_walk.specs.Served.{sdw_in, result_at_target, ServesWord, ServesClaim};
ghost use Rattle.m36_walk.specs.Served.{ServesWithoutChange, Reads};
ghost use Rattle.m36_walk.specs.Words.{with_pending};
ghost use Rattle.m36_walk.specs.declared.words.Pending.{Pending};

use crate::front::{
    change_in_front, fetch_elsewhere, fetch_in_front, read_in_front, transfer_in_front,
    write_in_front,
};
use crate::reads::start_of_pair;
use crate::walk::Walk;
use m36_model::At;
use m36_word::{Pair, Word};

impl Walk {
    /// The core address of a word that is read in the ring of `at`.
    #[inline(always)]
    pub fn quick_read(&mut self, at: At) -> Option<u32>
        ensures serves { IfSome result (λ a. (psr : ℕ) → Reads self.old self.old.core psr at 1 None
            (Ok (slice_index self.old.core a ∷ []))) }
        ensures sees { IfSome result (λ a. (psr : ℕ) (pending : Option Pending)
            → Reads self.old self.old.core psr at 1 pending
            (Ok (slice_index (with_pending self.old.core pending) a ∷ []))) }
        ensures inside { IfSome result (λ a. a < length self.old.core) }
        ensures same { self.new ≡ self.old }
    {
        let (place, _ring) = read_in_front(&self.core, self.dbr, &mut self.memories, at, 1)?;
        Some(place)
    }

    /// The core address of a word that is to be written in the ring of `at`.
    #[inline(always)]
    pub fn quick_write(&mut self, at: At) -> Option<u32>
        ensures serves { IfSome result (λ a. ServesClaim self.old self.old.core at 1 (Ok a)) }
        ensures inside { IfSome result (λ a. a < length self.old.core) }
        ensures same { self.new ≡ self.old }
    {
        let place = write_in_front(&self.core, self.dbr, &mut self.memories, at, 1)?;
        Some(place)
    }

    /// The core address of a word that is read in the ring of `at` and then written.
    #[inline(always)]
    pub fn quick_change(&mut self, at: At) -> Option<u32>
        ensures reads { IfSome result (λ a. (psr : ℕ) → Reads self.old self.old.core psr at 1 None
            (Ok (slice_index self.old.core a ∷ []))) }
        ensures claims { IfSome result (λ a. ServesClaim self.old self.old.core at 1 (Ok a)) }
        ensures inside { IfSome result (λ a. a < length self.old.core) }
        ensures same { self.new ≡ self.old }
    {
        let place = change_in_front(&self.core, self.dbr, &mut self.memories, at)?;
        Some(place)
    }

    /// The core address of the even word of the pair that contains a word, which is read in the
    /// ring of `at`; the odd word follows it. Also returns R1 of its segment.
    #[inline(always)]
    pub fn quick_read_pair(&mut self, at: At) -> Option<(u32, u8)>
        ensures serves { IfSome result (λ r. (psr : ℕ) → Reads self.old self.old.core psr
            (aligned_at 2 at) 2 None (Ok (slice_index self.old.core r.0
            ∷ (slice_index self.old.core (r.0 + 1) ∷ [])))) }
        ensures ring { IfSome result (λ r. r.1 ≡ (sdw_in self.old at.seg).r1) }
        ensures bound { IfSome result (λ r. r.1 < 2 ^ 3) }
        ensures inside { IfSome result (λ r. r.0 + 1 < length self.old.core) }
        ensures same { self.new ≡ self.old }
    {
        let (place, ring) = read_in_front(
            &self.core,
            self.dbr,
            &mut self.memories,
            start_of_pair(at),
            2,
        )?;
        Some((place, ring))
    }

    /// The core address of the even word of the pair that contains a word, which is to be written
    /// in the ring of `at`.
    #[inline(always)]
    pub fn quick_write_pair(&mut self, at: At) -> Option<u32>
        ensures serves { IfSome result (λ a. ServesClaim self.old self.old.core (aligned_at 2 at) 2
            (Ok a)) }
        ensures inside { IfSome result (λ a. a + 1 < length self.old.core) }
        ensures same { self.new ≡ self.old }
    {
        let place = write_in_front(
            &self.core,
            self.dbr,
            &mut self.memories,
            start_of_pair(at),
            2,
        )?;
        Some(place)
    }

    /// The core address of an indirect word, read in the ring of `at`, and R1 of its segment.
    #[inline(always)]
    pub fn quick_indirect(&mut self, at: At) -> Option<(u32, u8)>
        ensures serves { IfSome result (λ r. (psr : ℕ) → ServesWord (λ g. g.ppr.psr ≡ psr) Indirect
            self.old self.old.core at (Ok (slice_index self.old.core r.0))) }
        ensures ring { IfSome result (λ r. r.1 ≡ (sdw_in self.old at.seg).r1) }
        ensures bound { IfSome result (λ r. r.1 < 2 ^ 3) }
        ensures inside { IfSome result (λ r. r.0 < length self.old.core) }
        ensures same { self.new ≡ self.old }
    {
        let (place, ring) = read_in_front(&self.core, self.dbr, &mut self.memories, at, 1)?;
        Some((place, ring))
    }

    /// The core address of the odd word of an indirect pair, read in the ring of `at`.
    #[inline(always)]
    pub fn quick_odd(&mut self, at: At) -> Option<u32>
        ensures serves { IfSome result (λ a. (psr : ℕ) → ServesWord (λ g. g.ppr.psr ≡ psr) Odd
            self.old self.old.core at (Ok (slice_index self.old.core a))) }
        ensures inside { IfSome result (λ a. a < length self.old.core) }
        ensures same { self.new ≡ self.old }
    {
        let (place, _ring) = read_in_front(&self.core, self.dbr, &mut self.memories, at, 1)?;
        Some(place)
    }

    /// The core address of the instruction at a word, fetched in the ring of `at`, if it is in the
    /// page that was fetched from last, in the same ring.
    #[inline(always)]
    pub fn quick_fetch(&mut self, at: At) -> Option<u32>
        ensures serves { IfSome result (λ a. ServesWord (λ g. g.ppr.prr ≡ at.ring) Fetch self.old
            self.old.core at (Ok (slice_index self.old.core a))) }
        ensures inside { IfSome result (λ a. a < length self.old.core) }
        ensures same { self.new ≡ self.old }
    {
        let (place, _privileged) = fetch_in_front(&self.core, self.dbr, &mut self.memories, at)?;
        Some(place)
    }

    /// As `quick_fetch`, from another page in front. This page becomes the one that is fetched
    /// from.
    #[inline(always)]
    pub fn quick_fetch_elsewhere(&mut self, at: At) -> Option<u32>
        ensures serves { IfSome result (λ a. ServesWord (λ g. g.ppr.prr ≡ at.ring) Fetch self.old
            self.old.core at (Ok (slice_index self.old.core a))) }
        ensures inside { IfSome result (λ a. a < length self.old.core) }
        ensures same { self.new ≡ self.old }
    {
        let (place, _privileged) = fetch_elsewhere(&self.core, self.dbr, &mut self.memories, at)?;
        Some(place)
    }

    /// Whether a transfer in the ring of `at`, from the same ring, may go to a word.
    #[inline(always)]
    pub fn quick_transfer(&self, at: At) -> bool
        ensures { IsTrue result → ServesWithoutChange
            (λ g. g.ppr.prr ≡ at.ring) Transfer self.now at
            (result_at_target (sdw_in self.now at.seg) (Ok (tt {0}))) }
    {
        transfer_in_front(&self.core, self.dbr, &self.memories, at)
    }

    /// The word at an address.
    #[inline(always)]
    pub fn peek(&self, place: u32) -> Word
        requires { place < length self.now.core }
        ensures { result ≡ slice_index self.now.core place }
    {
        self.core.peek(place)
    }

    /// The pair that begins at an address.
    #[inline(always)]
    pub fn peek_pair(&self, place: u32) -> Pair
        requires { place + 1 < length self.now.core }
        ensures { pair_words result ≡ slice_index self.now.core place
            ∷ (slice_index self.now.core (place + 1) ∷ []) }
    {
        let _size = self.core.len(); // at most 2^24, so the sum fits
        let even = self.core.peek(place);
        let odd = self.core.peek(place + 1);
        Pair { even, odd }
    }
}
