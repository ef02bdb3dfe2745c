//! Effects of control instructions. Words are octal, in the manual's formats of ITS pairs and
//! descriptors.

ghost use Rattle.std.specs.Prelude.{◌<◌, ◌^◌, IsTrue};
ghost use Rattle.m36_inst.specs.Groups.{is_control_instruction};
ghost use Rattle.m36_inst.specs.Operands.{operand_of};
ghost use Rattle.m36_model.specs.OperandHeld.{HoldsFor};

use m36_desc::{Dbr, Ptr};
use m36_inst::{Effect, Operand, Row};
use m36_model::{At, Effect36, Fault, Final, Held, Ind, Operand36, Ppr, Regs};
use m36_word::{Pair, Word};
use m36_xfer::{exec, is_absa, is_taken};

const NOTHING_ON: Ind = Ind {
    zero: false,
    negative: false,
    carry: false,
    overflow: false,
    mask: false,
    tally: false,
};

/// Registers at word 3 of segment 1 in a ring. All pointer registers point to segment 5 in that
/// ring. The stacks are segments octal 10 to 17.
fn registers(ring: u8) -> Regs
    requires { ring < 2 ^ 3 }
{
    let pointer = Ptr {
        word: 0o22,
        seg: 5,
        ring,
        bit: 9,
    };
    Regs {
        a: Word::ZERO,
        q: Word::ZERO,
        x: [0; 8],
        pr: [pointer; 8],
        dbr: Dbr {
            addr: 0,
            bnd: 0,
            stack: 1,
            unpaged: true,
        },
        ppr: Ppr {
            ic: 3,
            psr: 1,
            prr: ring,
        },
        ind: NOTHING_ON,
    }
}

fn pair(even: u64, odd: u64) -> Pair {
    Pair {
        even: Word::low(even),
        odd: Word::low(odd),
    }
}

/// The effect of an instruction whose final address is word 1 of segment 3 in the ring of
/// execution. `ring` is the ring that CALL6 enters, or the first bracket of the segment that RTCD
/// reads from.
fn effect_of(effect: Effect, reg: u8, regs: &Regs, got: Held, ring: u8) -> Result<Effect36, Fault>
    requires control { IsTrue (is_control_instruction effect) }
    requires reg { reg < 8 }
    requires got { HoldsFor (operand_of effect) got }
    requires ring { ring < 2 ^ 3 }
{
    let row = Row {
        effect,
        operand: Operand::A,
        reg,
        direct: false,
        privileged: false,
    };
    let at = At {
        word: 1,
        seg: 3,
        ring: regs.ppr.prr,
    };
    let last = Final {
        direct: None,
        at,
        bit: 0,
    };
    let operand = Operand36 {
        got,
        place: 0o40000000,
        ring,
    };
    exec(&row, regs, &last, operand)
}

/// The registers after an instruction, or those before it if it faults.
fn after(effect: Effect, reg: u8, before: &Regs, got: Held, ring: u8) -> Regs
    requires control { IsTrue (is_control_instruction effect) }
    requires reg { reg < 8 }
    requires got { HoldsFor (operand_of effect) got }
    requires ring { ring < 2 ^ 3 }
{
    match effect_of(effect, reg, before, got, ring) {
        Ok(found) => found.regs,
        Err(_) => *before,
    }
}

fn is_at(regs: &Regs, seg: u16, ring: u8, word: u32) -> bool {
    let ppr = regs.ppr;
    ppr.psr == seg && ppr.prr == ring && ppr.ic == word
}

/// Whether a pointer register points to bit 0 of a word.
fn points_to(pointer: Ptr, seg: u16, ring: u8, word: u32) -> bool {
    pointer.seg == seg && pointer.ring == ring && pointer.word == word && pointer.bit == 0
}

/// The ring of the caller, the ring that is entered, and the segment of PR7 afterwards: the stack
/// of the entered ring if it is another ring, otherwise the segment of PR6.
const CALLS: &[(u8, u8, u16)] = &[(4, 0, 0o10), (3, 3, 5)];

/// The ring that returns, the even word of the return pointer, and the first bracket of the segment
/// that the pointer is read from. Each row returns to ring 4: because of the ring in the pointer,
/// the ring of the reference, or that bracket.
const RETURNS: &[(u8, u64, u8)] = &[
    (0, 0o000001400043, 0),
    (4, 0o000001000043, 0),
    (0, 0o000001000043, 4),
];

fn call_enters(from: u8, to: u8, stack: u16) -> bool {
    let called = after(Effect::Call6, 0, &registers(from % 8), Held::Empty, to % 8);
    is_at(&called, 3, to, 1) && points_to(called.pr[7], stack, to, 0)
}

#[test]
fn calls_enter_rings(rt: HostRuntime) {
    for (from, to, stack) in CALLS {
        assert!(rt; call_enters(*from, *to, *stack), "{from}");
    }
}

fn returned(from: u8, even: u64, bracket: u8) -> Regs {
    let held = Held::Two(pair(even, 0o000002000000));
    after(Effect::Rtcd, 0, &registers(from % 8), held, bracket % 8)
}

fn are_of_ring_4(pointers: &[Ptr; 8]) -> bool {
    let expected = registers(4).pr[0];
    for pointer in pointers {
        if *pointer != expected {
            return false;
        }
    }
    true
}

#[test]
fn returns_to_ring_4(rt: HostRuntime) {
    for (from, even, bracket) in RETURNS {
        let regs = returned(*from, *even, *bracket);
        assert!(rt; is_at(&regs, 1, 4, 2), "{from} {bracket}");
        assert!(rt; are_of_ring_4(&regs.pr), "{from} {bracket}");
    }
}

#[test]
fn transfers_that_set(rt: HostRuntime) {
    let gone = after(Effect::TsxN, 1, &registers(4), Held::Empty, 0);
    assert!(rt; gone.x[1] == 4 && is_at(&gone, 3, 4, 1));
    let gone = after(Effect::TspN, 2, &registers(4), Held::Empty, 0);
    assert!(rt; points_to(gone.pr[2], 1, 4, 4) && is_at(&gone, 3, 4, 1));
}

#[test]
fn transfer_on_overflow(rt: HostRuntime) {
    let gone = after(Effect::Tov, 0, &registers(4), Held::Empty, 0);
    assert!(rt; is_at(&gone, 1, 4, 4));
    let mut regs = registers(4);
    regs.ind.overflow = true;
    let gone = after(Effect::Tov, 0, &regs, Held::Empty, 0);
    assert!(rt; is_at(&gone, 3, 4, 1) && gone.ind == NOTHING_ON);
}

#[test]
fn no_operation(rt: HostRuntime) {
    let mut regs = registers(4);
    regs.ind.overflow = true;
    let gone = after(Effect::Nop, 0, &regs, Held::Empty, 0);
    assert!(rt; is_at(&gone, 1, 4, 4) && gone.ind == regs.ind);
}

/// Registers of ring 0 with a descriptor base that was loaded.
fn with_base() -> Regs {
    let words = Held::Two(pair(0o000001000000, 0o000010200007));
    after(Effect::Ldbr, 0, &registers(0), words, 0)
}

#[test]
fn descriptor_base(rt: HostRuntime) {
    let dbr = Dbr {
        addr: 0o100,
        bnd: 1,
        stack: 7,
        unpaged: true,
    };
    assert!(rt; with_base().dbr == dbr);
}

fn puts(found: &Result<Effect36, Fault>, put: Held) -> bool {
    match found {
        Ok(effect) => effect.put == put,
        Err(_) => false,
    }
}

#[test]
fn descriptor_base_stored(rt: HostRuntime) {
    let words = Held::Two(pair(0o000001000000, 0o000010200007));
    let stored = effect_of(Effect::Sdbr, 0, &with_base(), Held::Empty, 0);
    assert!(rt; puts(&stored, words));
}

#[test]
fn absolute_address(rt: HostRuntime) {
    let found = after(Effect::Absa, 0, &with_base(), Held::Empty, 0);
    assert!(rt; found.a.value() == 0o400000000000);
    assert!(rt; found.ind.negative && !found.ind.zero);
}

/// Conditional transfers, and whether each is taken if its indicators are on. With its indicators
/// off it is the opposite.
const CONDITIONS: &[(Effect, bool)] = &[
    (Effect::Tze, true),
    (Effect::Tmi, true),
    (Effect::Trc, true),
    (Effect::Tmoz, true),
    (Effect::Tov, true),
    (Effect::Tnz, false),
    (Effect::Tpl, false),
    (Effect::Tnc, false),
    (Effect::Tpnz, false),
    (Effect::Ttf, false),
];

#[test]
fn conditions_decide(rt: HostRuntime) {
    let off = registers(0);
    let mut on = off;
    on.ind = Ind {
        zero: true,
        negative: true,
        carry: true,
        overflow: true,
        mask: false,
        tally: true,
    };
    for (effect, taken) in CONDITIONS {
        assert!(rt;
            is_taken(*effect, &on) == *taken && is_taken(*effect, &off) != *taken,
            "{effect:?}"
        );
    }
    assert!(rt; is_taken(Effect::Tra, &on) && is_taken(Effect::TsxN, &off));
    assert!(rt; is_absa(Effect::Absa) && !is_absa(Effect::Eaa));
}
