//! Call and return, executed directly in the registers.

ghost use Rattle.std.specs.Prelude.{ℕ, ◌≡◌, ◌<◌, ◌^◌};
ghost use Rattle.m36_inst.specs.declared.effect.Effect.TheVariants as effect;
ghost use Rattle.m36_word.specs.Pairs.{pair_words};
ghost use Rattle.m36_model.specs.Effect.{exec};
ghost use Rattle.m36_model.specs.Results.{ring_only, words_in_ring, yields_registers};

use crate::calls::{all_in_ring, greatest_ring, stack_pointer};
use m36_desc::Its;
use m36_model::{Final, Regs};
use m36_word::Pair;

/// CALL6: transfers to the final address in the new ring, and sets PR7 to the base of a stack of
/// that ring.
#[inline(always)]
#[tactic(auto, unfolding(m36_model::specs::Effect::exec, m36_model::specs::CallReturn::call, m36_model::specs::Pointers::with_pr))]
pub fn call_in_place(regs: &mut Regs, f: &Final, ring: u8)
    requires { ring < 2 ^ 3 }
    ensures value { (n : ℕ)
        → yields_registers regs.new
        ≡ exec effect.Call6 n regs.old f.now (ring_only ring) }
    ensures dbr { regs.new.dbr ≡ regs.old.dbr }
{
    let at = f.at;
    regs.pr[7] = stack_pointer(regs, ring);
    regs.ppr.ic = at.word;
    regs.ppr.psr = at.seg;
    regs.ppr.prr = ring;
}

/// RTCD: transfers to the pointer of a pair, and sets the ring of every pointer register to the
/// new ring. `segment_ring` is the first ring bracket of the pair's segment.
#[inline(always)]
#[tactic(auto, unfolding(m36_model::specs::Effect::exec, m36_model::specs::CallReturn::return_to))]
pub fn return_in_place(regs: &mut Regs, f: &Final, pair: Pair, segment_ring: u8)
    requires { segment_ring < 2 ^ 3 }
    ensures value { (n : ℕ)
        → yields_registers regs.new
        ≡ exec effect.Rtcd n regs.old f.now (words_in_ring (pair_words pair) segment_ring) }
    ensures dbr { regs.new.dbr ≡ regs.old.dbr }
{
    let its = Its::of_words(pair);
    let ring = greatest_ring(&its, f, segment_ring);
    regs.pr = all_in_ring(&regs.pr, ring);
    regs.ppr.ic = its.word;
    regs.ppr.psr = its.seg;
    regs.ppr.prr = ring;
}
