//! Calls that change nothing: targets, places, ring brackets, and words that are only read.

ghost use Rattle.std.specs.Prelude.{◌≡◌, ◌<◌, ◌^◌, IfOk, length};
ghost use Rattle.m36_desc.specs.Access.{ring_after_call};
ghost use Rattle.m36_model.specs.Act.{Transfer, Call, Locate};
ghost use Rattle.m36_model.specs.Core.{core_store};
ghost use Rattle.m36_model.specs.Sight.{content_in};
ghost use Rattle.m36_model.specs.Store.{Core_word, place, segment_r1};
ghost use Rattle.m36_walk.specs.ReferenceResult.{refusal_as_fault};
ghost use Rattle.m36_walk.specs.Served.{sdw_in, result_at_place, result_at_target, ok_map};
ghost use Rattle.m36_walk.specs.Served.{ServesWithoutChange};

use crate::refusal::fault;
use crate::targets::{check_call, check_transfer, find_first_ring, find_place};
use crate::walk::Walk;
use m36_model::{At, Fault, Ppr};
use m36_tables::content;
use m36_word::Word;

impl Walk {
    /// The core address of a word, without access checks. No marks are set.
    #[tactic(auto, unfolding(crate::specs::Runs::IsInCore))]
    pub fn place(&mut self, at: At) -> Result<u32, Fault>
        ensures value { ok_map Core_word result
            ≡ refusal_as_fault at (place core_store self.old.core self.old.dbr at.seg at.word) }
        ensures serves { ServesWithoutChange (λ g. Unit {0}) Locate self.old at
            (result_at_place (sdw_in self.old at.seg) 1 result) }
        ensures inside { IfOk result (λ a. a < length self.old.core) }
        ensures same { self.new ≡ self.old }
    {
        find_place(&self.core, self.dbr, at)
    }

    /// The word of a segment, without access checks, or None if it has no place in core. No marks
    /// are set.
    pub fn content(&self, seg: u16, word: u32) -> Option<Word>
        requires seg { seg < 2 ^ 15 }
        requires word { word < 2 ^ 18 }
        ensures { result ≡ content_in core_store self.now.core self.now.dbr seg word }
    {
        content(&self.core, self.dbr, seg, word)
    }

    /// Checks the target of a transfer, in the ring of `at` from ring `prr`. No page of the target
    /// is referenced.
    pub fn check_transfer_target(&mut self, at: At, prr: u8) -> Result<(), Fault>
        ensures serves { ServesWithoutChange (λ g. g.ppr.prr ≡ prr) Transfer self.old at
            (result_at_target (sdw_in self.old at.seg) result) }
        ensures same { self.new ≡ self.old }
    {
        check_transfer(&self.core, self.dbr, at, prr)
    }

    /// Checks the target of CALL6, in the ring of `at`, called from `p`. Returns the ring in which
    /// execution continues.
    pub fn check_call_target(&mut self, at: At, p: Ppr) -> Result<u8, Fault>
        ensures serves { ServesWithoutChange (λ g. (g.ppr.psr ≡ p.psr) × (g.ppr.prr ≡ p.prr)) Call
            self.old
            at (result_at_target (sdw_in self.old at.seg) result) }
        ensures ring { IfOk result (λ ring. ring ≡ ring_after_call (sdw_in self.old at.seg)
            at.ring) }
        ensures bound { IfOk result (λ ring. ring < 2 ^ 3) }
        ensures same { self.new ≡ self.old }
    {
        check_call(&self.core, self.dbr, at, p)
    }

    /// R1 of a segment. A fault is at word 0 of the segment in ring 0.
    pub fn segment_r1(&mut self, seg: u16) -> Result<u8, Fault>
        requires { seg < 2 ^ 15 }
        ensures value { result
            ≡ refusal_as_fault (record { seg = seg; word = 0; ring = 0 })
            (segment_r1 core_store self.old.core self.old.dbr seg) }
        ensures bound { IfOk result (λ ring. ring < 2 ^ 3) }
        ensures same { self.new ≡ self.old }
    {
        match find_first_ring(&self.core, self.dbr, seg) {
            Ok(ring) => Ok(ring),
            Err(why) => Err(fault(
                why,
                At {
                    word: 0,
                    seg,
                    ring: 0,
                },
            )),
        }
    }
}
