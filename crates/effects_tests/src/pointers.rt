//! Effects of pointer instructions. Words are octal, in the manual's formats of ITS pairs and
//! packed pointers.

ghost use Rattle.std.specs.Prelude.{◌<◌, IsTrue};
ghost use Rattle.m36_inst.specs.Groups.{is_pointer_instruction};
ghost use Rattle.m36_inst.specs.Operands.{operand_of};
ghost use Rattle.m36_model.specs.OperandHeld.{HoldsFor};
ghost use Rattle.m36_model.specs.declared.effects.Held.TheVariants as held;

use m36_desc::{Dbr, Ptr};
use m36_inst::{Effect, Operand, Row};
use m36_model::{At, Effect36, Fault, Final, Held, Ind, Operand36, Ppr, Regs};
use m36_word::{Pair, Word};
use m36_xptr::exec;

/// A final address: bit 9 of word octal 22 of segment octal 123, in ring 4.
const THERE: Final = Final {
    direct: None,
    at: At {
        word: 0o22,
        seg: 0o123,
        ring: 4,
    },
    bit: 9,
};

/// Registers in ring 4, at the last word but one of segment 1.
fn registers() -> Regs {
    let none = Ptr {
        word: 0,
        seg: 0,
        ring: 0,
        bit: 0,
    };
    Regs {
        a: Word::ZERO,
        q: Word::ZERO,
        x: [0; 8],
        pr: [none; 8],
        dbr: Dbr {
            addr: 0,
            bnd: 0,
            stack: 0,
            unpaged: true,
        },
        ppr: Ppr {
            ic: 0o777776,
            psr: 1,
            prr: 4,
        },
        ind: Ind {
            zero: true,
            negative: true,
            carry: true,
            overflow: true,
            mask: true,
            tally: true,
        },
    }
}

fn pair(even: u64, odd: u64) -> Pair {
    Pair {
        even: Word::low(even),
        odd: Word::low(odd),
    }
}

fn effect_of(effect: Effect, reg: u8, regs: &Regs, got: Held) -> Result<Effect36, Fault>
    requires pointer { IsTrue (is_pointer_instruction effect) }
    requires reg { reg < 8 }
    requires got { HoldsFor (operand_of effect) got }
{
    let row = Row {
        effect,
        operand: Operand::A,
        reg,
        direct: false,
        privileged: false,
    };
    let operand = Operand36 {
        got,
        place: 0,
        ring: 1,
    };
    exec(&row, regs, &THERE, operand)
}

/// The registers after an instruction, or those before it if it faults.
fn loaded(effect: Effect, reg: u8, got: Held) -> Regs
    requires pointer { IsTrue (is_pointer_instruction effect) }
    requires reg { reg < 8 }
    requires got { HoldsFor (operand_of effect) got }
{
    let before = registers();
    match effect_of(effect, reg, &before, got) {
        Ok(found) => found.regs,
        Err(_) => before,
    }
}

/// What an instruction that reads nothing stores, or `None` if it faults.
fn stored(effect: Effect, reg: u8, regs: &Regs) -> Option<Held>
    requires pointer { IsTrue (is_pointer_instruction effect) }
    requires reg { reg < 8 }
    requires got { HoldsFor (operand_of effect) held.Empty }
{
    match effect_of(effect, reg, regs, Held::Empty) {
        Ok(found) => Some(found.put),
        Err(_) => None,
    }
}

fn two(even: u64, odd: u64) -> Option<Held> {
    Some(Held::Two(pair(even, odd)))
}

#[test]
fn one_pointer(rt: HostRuntime) {
    let loaded = loaded(Effect::EppN, 4, Held::Empty);
    let there = Ptr {
        word: 0o22,
        seg: 0o123,
        ring: 4,
        bit: 9,
    };
    assert!(rt; loaded.pr[4] == there && loaded.ppr.ic == 0o777777);
    let pair = stored(Effect::SpriN, 4, &loaded);
    assert!(rt; pair == two(0o000123400043, 0o000022011000));
    let pair = stored(Effect::SpbpN, 4, &loaded);
    assert!(rt; pair == two(0o000123400043, 0));
}

#[test]
fn base_of_a_segment(rt: HostRuntime) {
    let base = Ptr {
        word: 0,
        seg: 0o123,
        ring: 4,
        bit: 0,
    };
    assert!(rt; loaded(Effect::EpbpN, 7, Held::Empty).pr[7] == base);
}

#[test]
fn address_in_a_and_q(rt: HostRuntime) {
    let loaded = loaded(Effect::Epaq, 0, Held::Empty);
    assert!(rt; loaded.a.value() == 0o000123000004 && loaded.q.value() == 0o000022000011);
    assert!(rt; !loaded.ind.zero && loaded.ind.negative);
}

#[test]
fn control_double(rt: HostRuntime) {
    assert!(rt; stored(Effect::Stcd, 0, &registers()) == two(0o000001400043, 0));
}

#[test]
fn packed_pointer_refused(rt: HostRuntime) {
    let here = At {
        word: 0o777776,
        seg: 1,
        ring: 4,
    };
    let command = Fault {
        at: here,
        number: 5,
        acv: 0,
    };
    let wrong = Held::One(Word::low(0o600003000007));
    let refused = effect_of(Effect::LprpN, 4, &registers(), wrong);
    assert!(rt; refused == Err(command));
}

/// A packed pointer, and the two words of the same pointer as a pair. In a packed pointer the
/// segment number octal 7777 means 77777; every other number means itself.
const PACKED: &[(u64, u64, u64)] = &[
    (0o127777000100, 0o077777400043, 0o000100012000),
    (0o007776000100, 0o007776400043, 0o000100000000),
];

fn unpacked(word: u64) -> Option<Held> {
    let loaded = loaded(Effect::LprpN, 4, Held::One(Word::low(word)));
    stored(Effect::SpriN, 4, &loaded)
}

#[test]
fn packed_pointers(rt: HostRuntime) {
    for (word, even, odd) in PACKED {
        assert!(rt; unpacked(*word) == two(*even, *odd), "{word:o}");
    }
}

/// Pairs with rings 0 to 7. The last one is no ITS pair, and has a tag.
fn given() -> [Pair; 8] {
    [
        pair(0o000123000043, 0o000022011000),
        pair(0o000123100043, 0o000022011000),
        pair(0o000123200043, 0o000022011000),
        pair(0o000123300043, 0o000022011000),
        pair(0o000123400043, 0o000022011000),
        pair(0o000123500043, 0o000022011000),
        pair(0o000123600043, 0o000022011000),
        pair(0o000123700041, 0o000022011077),
    ]
}

/// The pairs that LPRI has loaded from `given`, read in ring 4 from a segment whose first bracket
/// is 1, and stored again.
fn raised() -> [Pair; 8] {
    [
        pair(0o000123400043, 0o000022011000),
        pair(0o000123400043, 0o000022011000),
        pair(0o000123400043, 0o000022011000),
        pair(0o000123400043, 0o000022011000),
        pair(0o000123400043, 0o000022011000),
        pair(0o000123500043, 0o000022011000),
        pair(0o000123600043, 0o000022011000),
        pair(0o000123700043, 0o000022011000),
    ]
}

/// The rings of the loaded pointers.
const RINGS: &[u8] = &[4, 4, 4, 4, 4, 5, 6, 7];

#[test]
fn all_pointers(rt: HostRuntime) {
    let loaded = loaded(Effect::Lpri, 0, Held::Block(given()));
    for (pointer, ring) in loaded.pr.iter().zip(RINGS) {
        assert!(rt; (pointer.seg, pointer.word) == (0o123, 0o22), "{ring}");
        assert!(rt; (pointer.ring, pointer.bit) == (*ring, 9), "{ring}");
    }
    assert!(rt; stored(Effect::Spri, 0, &loaded) == Some(Held::Block(raised())));
}
