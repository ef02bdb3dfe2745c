//! Call and return: the only instructions that change the ring of execution.

ghost use Rattle.std.specs.Prelude.{◌≡◌, ◌<◌, ◌^◌, Ok, IsTrue, map};
ghost use Rattle.m36_model.specs.Modification.{pair_ring};
ghost use Rattle.m36_model.specs.OperandHeld.{is_pair};
ghost use Rattle.m36_model.specs.Results.{effect_fields, operand_fields};
ghost use Rattle.m36_model.specs.CallReturn.{call, return_to, stack_segment, stack_pointer};
ghost use Rattle.m36_model.specs.CallReturn.{return_ring, pointer_in_ring};

use m36_desc::{Its, Ptr};
use m36_model::{Effect36, Final, Held, Operand36, Ppr, Regs};

/// CALL6: transfers to the final address in the new ring, and sets PR7 to the base of a stack of
/// that ring.
#[tactic(auto, unfolding(m36_model::specs::CallReturn::call))]
pub fn call(regs: &Regs, f: &Final, ring: u8) -> Effect36
    requires { ring < 2 ^ 3 }
    ensures { Ok (effect_fields result) ≡ call f.now ring regs.now }
{
    let at = f.at;
    let mut after = regs.with_pointer(7, stack_pointer(regs, ring));
    after.ppr = Ppr {
        ic: at.word,
        psr: at.seg,
        prr: ring,
    };
    Effect36 {
        regs: after,
        put: Held::Empty,
        overflow: false,
    }
}

/// The base of the stack for a call into a ring.
#[inline(always)]
pub(crate) fn stack_pointer(regs: &Regs, ring: u8) -> Ptr
    requires { ring < 2 ^ 3 }
    ensures { result ≡ stack_pointer regs.now ring }
{
    Ptr {
        word: 0,
        seg: stack_segment(regs, ring),
        ring,
        bit: 0,
    }
}

/// The segment of the stack: if the ring does not change, the one that PR6 points to; otherwise
/// the stack of the new ring that the DBR defines.
#[inline(always)]
fn stack_segment(regs: &Regs, ring: u8) -> u16
    requires { ring < 2 ^ 3 }
    ensures value { result ≡ stack_segment regs.now ring }
    ensures bound { result < 2 ^ 15 }
{
    if ring == regs.ppr.prr {
        regs.pointer(6).seg
    } else {
        8 * regs.dbr.stack + ring as u16
    }
}

/// RTCD: transfers to the pointer of a pair, and sets the ring of every pointer register to the
/// new ring.
#[tactic(auto, unfolding(m36_model::specs::CallReturn::return_to))]
pub fn return_to(regs: &Regs, f: &Final, operand: &Operand36) -> Effect36
    requires { IsTrue (is_pair operand.now.got) }
    ensures { Ok (effect_fields result) ≡ return_to f.now (operand_fields operand.now) regs.now }
{
    let its = Its::of_words(operand.got.pair());
    let ring = return_ring(&its, f, operand);
    let mut after = *regs;
    after.pr = all_in_ring(&regs.pr, ring);
    after.ppr = Ppr {
        ic: its.word,
        psr: its.seg,
        prr: ring,
    };
    Effect36 {
        regs: after,
        put: Held::Empty,
        overflow: false,
    }
}

/// The maximum of the pair's ring, the ring of the reference and the first ring bracket of the
/// pair's segment.
fn return_ring(its: &Its, f: &Final, operand: &Operand36) -> u8
    ensures value { result ≡ return_ring its.now f.now (operand_fields operand.now) }
    ensures bound { result < 2 ^ 3 }
{
    greatest_ring(its, f, operand.ring)
}

/// As `return_ring`, given the first ring bracket of the pair's segment.
#[inline(always)]
pub(crate) fn greatest_ring(its: &Its, f: &Final, segment_ring: u8) -> u8
    requires { segment_ring < 2 ^ 3 }
    ensures value { result ≡ pair_ring f.now.at.ring segment_ring its.now.ring }
    ensures bound { result < 2 ^ 3 }
{
    let at = f.at;
    at.ring.max(segment_ring).max(its.ring)
}

/// The pointers with their rings replaced.
#[inline(always)]
pub(crate) fn all_in_ring(pointers: &[Ptr; 8], ring: u8) -> [Ptr; 8]
    requires { ring < 2 ^ 3 }
    ensures { result ≡ map (pointer_in_ring ring) pointers.now }
{
    let mut after = *pointers;
    for n in 0..8 {
        let pointer = pointers[n];
        after[n] = Ptr { ring, ..pointer };
    }
    after
}
