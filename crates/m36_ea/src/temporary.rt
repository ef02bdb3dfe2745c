//! The temporary pointer register, which has the current point of an address chain.

ghost use Rattle.std.specs.Prelude.{◌≡◌, ◌+◌, ◌<◌, ◌^◌, Some, None, IfSome};
ghost use Rattle.m36_model.specs.Chain.{plain_point, its_point, itp_point};
ghost use Rattle.m36_model.specs.Modification.{at_point, final_at};
ghost use Rattle.m36_model.specs.FirstPoint.{first_point};
ghost use Rattle.m36_inst.specs.Instruction.{pr_offset};

use m36_desc::{Itp, Its};
use m36_inst::Inst;
use m36_model::{At, Final, Regs};
use m36_word::{Field, Pair, Word};
use std::marker::Model;

/// The temporary pointer register, with the address and the tag of the point.
#[derive(Clone, Copy)]
pub(crate) struct Tpr {
    /// The word that has the tag. The ring is the one in which a fault tag is reported.
    pub(crate) carrier: At,
    /// The register that is held until the chain ends: its value, of 18 bits.
    pub(crate) held: Option<u32>,
    /// The address; 18 bits.
    pub(crate) y: u32,
    /// The temporary segment register, TSR; 15 bits.
    pub(crate) seg: u16,
    /// The temporary ring register, TRR; 3 bits.
    pub(crate) ring: u8,
    /// The bit number; 6 bits.
    pub(crate) bit: u8,
    /// The tag; 6 bits.
    pub(crate) tag: u8,
}

impl Model for Tpr {
    ghost use Rattle.std.specs.Prelude.{◌<◌, ◌^◌, IfSome};
    ghost use Rattle.m36_model.specs.Modification.{Point};

    ghost Value = { Point };

    ghost view = { λ t. record { seg = t.seg; ring = t.ring; y = t.y; bit = t.bit; tag = t.tag; held = t.held; carrier = t.carrier } };

    ghost invariant = { λ t. (t.y < 2 ^ 18) × (t.seg < 2 ^ 15) × (t.ring < 2 ^ 3)
        × (t.bit < 2 ^ 6) × (t.tag < 2 ^ 6) × IfSome t.held (λ h. h < 2 ^ 18) };

    ghost inverse = { λ t. record { carrier = t.carrier; held = t.held; y = t.y; seg = t.seg; ring = t.ring; bit = t.bit; tag = t.tag } };
}

/// The first point: where the instruction itself points.
#[inline(always)]
#[tactic(auto, unfolding(m36_model::specs::FirstPoint::first_point))]
pub(crate) fn initial_point(regs: &Regs, inst: &Inst) -> Tpr
    ensures value { result ≡ first_point regs.now inst.now }
    ensures held { result.held ≡ None }
    ensures tag { result.tag ≡ inst.now.tag }
{
    let here = regs.here();
    let seg = here.seg;
    let ring = here.ring;
    let tag = inst.tag;
    if !inst.by_pr {
        return Tpr {
            carrier: here,
            held: None,
            y: inst.y,
            seg,
            ring,
            bit: 0,
            tag,
        };
    }
    let base = regs.pointer((inst.y >> 15) as u8);
    let ring = ring.max(base.ring);
    Tpr {
        carrier: At { ring, ..here },
        held: None,
        y: (base.word + signed_offset(inst)) % (1 << 18),
        seg: base.seg,
        ring,
        bit: base.bit,
        tag,
    }
}

/// The signed offset of an address through a pointer register, modulo 2^18.
#[inline(always)]
fn signed_offset(inst: &Inst) -> u32
    ensures value { result ≡ pr_offset inst.now }
    ensures bound { result < 2 ^ 18 }
{
    let offset = inst.y % (1 << 15);
    if offset < 1 << 14 {
        offset
    } else {
        offset + (7 << 15)
    }
}

impl Tpr {
    /// A word of the point's segment, in the ring of the point.
    #[inline(always)]
    pub(crate) fn at(&self, word: u32) -> At
        requires { word < 2 ^ 18 }
        ensures { result ≡ at_point self.now word }
    {
        At {
            word,
            seg: self.seg,
            ring: self.ring,
        }
    }

    /// The end of the chain at a word of the point's segment.
    #[inline(always)]
    pub(crate) fn end_at(&self, word: u32) -> Final
        requires { word < 2 ^ 18 }
        ensures { result ≡ final_at self.now word None }
    {
        Final {
            direct: None,
            at: At {
                word,
                seg: self.seg,
                ring: self.ring,
            },
            bit: self.bit,
        }
    }

    /// The end of the chain with a direct operand.
    #[inline(always)]
    pub(crate) fn end_direct(&self, operand: Word) -> Final
        ensures { result ≡ final_at self.now self.now.y (Some operand) }
    {
        Final {
            direct: Some(operand),
            at: At {
                word: self.y,
                seg: self.seg,
                ring: self.ring,
            },
            bit: self.bit,
        }
    }

    /// The point after the plain indirect word at word number `word`. `r1` is the first ring
    /// bracket of its segment.
    #[inline(always)]
    pub(crate) fn after_plain(&self, word: u32, held: Option<u32>, w: Word, r1: u8) -> Tpr
        requires word { word < 2 ^ 18 }
        requires held { IfSome held (λ h. h < 2 ^ 18) }
        requires ring { r1 < 2 ^ 3 }
        ensures { result ≡ plain_point self.now word held w r1 }
    {
        Tpr {
            carrier: At {
                word,
                seg: self.seg,
                ring: self.ring.max(r1),
            },
            held,
            y: Field::<0, 18>::get(w) as u32,
            seg: self.seg,
            ring: self.ring,
            bit: self.bit,
            tag: Field::<30, 6>::get(w) as u8,
        }
    }

    /// The point after the ITS pair whose even word has word number `word`. `r1` is as in
    /// `after_plain`.
    #[inline(always)]
    pub(crate) fn after_its(&self, word: u32, held: Option<u32>, pair: Pair, r1: u8) -> Tpr
        requires word { word + 1 < 2 ^ 18 }
        requires held { IfSome held (λ h. h < 2 ^ 18) }
        requires ring { r1 < 2 ^ 3 }
        ensures { result ≡ its_point self.now word held pair.even pair.odd r1 }
    {
        let its = Its::of_words(pair);
        let ring = self.ring.max(r1).max(its.ring);
        Tpr {
            carrier: At {
                word: word + 1,
                seg: self.seg,
                ring,
            },
            held,
            y: its.word,
            seg: its.seg,
            ring,
            bit: its.bit,
            tag: its.tag,
        }
    }

    /// The point after the ITP pair whose even word has word number `word`. `r1` is as in
    /// `after_plain`.
    pub(crate) fn after_itp(
        &self,
        regs: &Regs,
        word: u32,
        held: Option<u32>,
        pair: Pair,
        r1: u8,
    ) -> Tpr
        requires word { word + 1 < 2 ^ 18 }
        requires held { IfSome held (λ h. h < 2 ^ 18) }
        requires ring { r1 < 2 ^ 3 }
        ensures { result ≡ itp_point regs.now self.now word held pair.even pair.odd r1 }
    {
        let itp = Itp::of_words(pair);
        let base = regs.pointer(itp.pr);
        let ring = self.ring.max(r1).max(base.ring);
        Tpr {
            carrier: At {
                word: word + 1,
                seg: self.seg,
                ring,
            },
            held,
            y: (base.word + itp.word) % (1 << 18),
            seg: base.seg,
            ring,
            bit: itp.bit,
            tag: itp.tag,
        }
    }
}
