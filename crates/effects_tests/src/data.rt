//! Effects of data instructions. Each is executed at word 5 of segment 1 in ring 4. Registers that
//! a row does not name are 0.

ghost use Rattle.std.specs.Prelude.{ℕ, ◌<◌, IsTrue};
ghost use Rattle.std.specs.Bool.{OnTrue};
ghost use Rattle.m36_inst.specs.Groups.{is_data_instruction};
ghost use Rattle.m36_inst.specs.Operands.{operand_of};
ghost use Rattle.m36_model.specs.OperandHeld.{HoldsFor};
ghost use Rattle.m36_model.specs.declared.effects.Held.TheVariants as held;

use m36_desc::{Dbr, Ptr};
use m36_inst::{Effect, Operand, Row};
use m36_model::{At, Effect36, Fault, Final, Held, Ind, Operand36, Ppr, Regs};
use m36_word::{Pair, Word};
use m36_xdata::exec;

const LEAST: u64 = 0o400000000000;

const GREATEST: u64 = 0o377777777777;

const ONES: u64 = 0o777777777777;

/// The values of A, Q and X3.
type Numbers = (u64, u64, u32);

/// What an instruction stores: nothing, one word or a pair.
#[derive(Clone, Copy)]
enum Put {
    Nothing,
    One(u64),
    Two(u64, u64),
}

fn held(put: Put) -> Held {
    match put {
        Put::Nothing => Held::Empty,
        Put::One(v) => Held::One(Word::low(v)),
        Put::Two(even, odd) => Held::Two(Pair {
            even: Word::low(even),
            odd: Word::low(odd),
        }),
    }
}

/// The indicators named by letters: zero, negative, carry, overflow, tally runout.
fn indicators(letters: &str) -> Ind {
    let on = letters.as_bytes();
    Ind {
        zero: on.contains(&b'z'),
        negative: on.contains(&b'n'),
        carry: on.contains(&b'c'),
        overflow: on.contains(&b'o'),
        mask: false,
        tally: on.contains(&b't'),
    }
}

fn registers(numbers: Numbers, letters: &str, ic: u32) -> Regs {
    let pointer = Ptr {
        word: 0,
        seg: 0,
        ring: 0,
        bit: 0,
    };
    let low = numbers.2 % (1 << 18);
    Regs {
        a: Word::low(numbers.0),
        q: Word::low(numbers.1),
        x: [0, 0, 0, low, 0, 0, 0, 0],
        pr: [pointer; 8],
        dbr: Dbr {
            addr: 0,
            bnd: 0,
            stack: 0,
            unpaged: true,
        },
        ppr: Ppr {
            ic: ic % (1 << 18),
            psr: 1,
            prr: 4,
        },
        ind: indicators(letters),
    }
}

fn at(word: u32) -> Final {
    Final {
        direct: None,
        at: At {
            word: word % (1 << 18),
            seg: 2,
            ring: 4,
        },
        bit: 0,
    }
}

/// The effect of an instruction, given the word number of its final address and what it has read.
fn effect_of(effect: Effect, reg: u8, regs: &Regs, word: u32, got: Held) -> Result<Effect36, Fault>
    requires data { IsTrue (is_data_instruction effect) }
    requires reg { reg < 8 }
    requires got { HoldsFor (operand_of effect) got }
{
    let row = Row {
        effect,
        operand: Operand::R,
        reg,
        direct: false,
        privileged: false,
    };
    let operand = Operand36 {
        got,
        place: 0,
        ring: 0,
    };
    exec(&row, regs, &at(word), operand)
}

fn gives(found: &Result<Effect36, Fault>, regs: Regs, put: Held, overflow: bool) -> bool {
    let expected = Effect36 {
        regs,
        put,
        overflow,
    };
    match found {
        Ok(effect) => *effect == expected,
        Err(_) => false,
    }
}

/// An instruction with its register number, the registers before, the word that it reads, the
/// registers and indicators after, what it stores, and whether it ends with an overflow fault.
type OfWord<'a> = ((Effect, u8), Numbers, u64, (Numbers, &'a str), (Put, bool));

const OF_WORDS: &[OfWord] = &[
    // The least number is less than 1, but their difference, which overflows, is not negative.
    (
        (Effect::Cmpa, 0),
        (LEAST, 0, 0),
        1,
        ((LEAST, 0, 0), "nc"),
        (Put::Nothing, false),
    ),
    (
        (Effect::Cmk, 0),
        (0o70, 0o77, 0),
        0o07,
        ((0o70, 0o77, 0), "z"),
        (Put::Nothing, false),
    ),
    (
        (Effect::Ada, 0),
        (GREATEST, 0, 0),
        1,
        ((LEAST, 0, 0), "no"),
        (Put::Nothing, true),
    ),
    (
        (Effect::Lca, 0),
        (0, 0, 0),
        LEAST,
        ((LEAST, 0, 0), "no"),
        (Put::Nothing, true),
    ),
    (
        (Effect::Adl, 0),
        (0, 0, 0),
        LEAST,
        ((ONES, LEAST, 0), "n"),
        (Put::Nothing, false),
    ),
    (
        (Effect::SsxN, 3),
        (0, 0, 1),
        0o000002777777,
        ((0, 0, 1), "n"),
        (Put::One(0o777777), false),
    ),
    (
        (Effect::Mpy, 0),
        (1, LEAST, 0),
        LEAST,
        ((0o200000000000, 0, 0), ""),
        (Put::Nothing, false),
    ),
    (
        (Effect::Div, 0),
        (0, 7, 0),
        0o777777777775,
        ((1, 0o777777777776, 0), "n"),
        (Put::Nothing, false),
    ),
    (
        (Effect::LxlN, 3),
        (0, 0, 0),
        0o000001400002,
        ((0, 0, 0o400002), "n"),
        (Put::Nothing, false),
    ),
    (
        (Effect::Stac, 0),
        (7, 0, 0),
        0,
        ((7, 0, 0), "z"),
        (Put::One(7), false),
    ),
    // Bits 20 and 25 are carry and tally runout.
    (
        (Effect::Ldi, 0),
        (0, 0, 0),
        0o102000,
        ((0, 0, 0), "ct"),
        (Put::Nothing, false),
    ),
    (
        (Effect::Ana, 0),
        (0o1100, 0, 0),
        0o1010,
        ((0o1000, 0, 0), ""),
        (Put::Nothing, false),
    ),
    (
        (Effect::ErsxN, 3),
        (0, 0, 0o1100),
        0o001010000000,
        ((0, 0, 0o1100), ""),
        (Put::One(0o110), false),
    ),
];

/// Whether an instruction is one of `OF_WORDS`: a data instruction that reads one word.
fn is_of_word(effect: Effect) -> bool
    ensures data { OnTrue result (IsTrue (is_data_instruction effect)) }
    ensures got { (w : ℕ) → OnTrue result (HoldsFor (operand_of effect) (held.One w)) }
{
    matches!(
        effect,
        Effect::Cmpa
            | Effect::Cmk
            | Effect::Ada
            | Effect::Lca
            | Effect::Adl
            | Effect::SsxN
            | Effect::Mpy
            | Effect::Div
            | Effect::LxlN
            | Effect::Stac
            | Effect::Ldi
            | Effect::Ana
            | Effect::ErsxN
    )
}

/// The effect of an instruction that reads the word `v`.
fn of_word((effect, reg): (Effect, u8), regs: &Regs, v: u64) -> Option<Result<Effect36, Fault>> {
    if is_of_word(effect) {
        let got = Held::One(Word::low(v));
        return Some(effect_of(effect, reg % 8, regs, 0, got));
    }
    None
}

fn gives_of_word(row: &OfWord) -> bool {
    let (instruction, before, v, (after, letters), (put, overflow)) = row;
    match of_word(*instruction, &registers(*before, "", 5), *v) {
        Some(found) => gives(&found, registers(*after, letters, 6), held(*put), *overflow),
        None => false,
    }
}

#[test]
fn effects_of_words(rt: HostRuntime) {
    for row in OF_WORDS {
        assert!(rt; gives_of_word(row), "{:?}", row.0);
    }
}

fn is_divide_check_at_5(found: Result<Effect36, Fault>) -> bool {
    let here = At {
        word: 5,
        seg: 1,
        ring: 4,
    };
    match found {
        Ok(_) => false,
        Err(fault) => fault.at == here && fault.number == 14 && fault.acv == 0,
    }
}

#[test]
fn quotient_refused(rt: HostRuntime) {
    let got = Held::One(Word::ZERO);
    let refused = effect_of(Effect::Div, 0, &registers((0, 7, 0), "", 5), 0, got);
    assert!(rt; is_divide_check_at_5(refused));
}

/// An instruction that reads nothing, the registers and indicators before, the word number of its
/// final address, the registers and indicators after, and what it stores. None of them ends with an
/// overflow fault.
type OfAddress<'a> = (Effect, (Numbers, &'a str), u32, (Numbers, &'a str), Put);

const OF_ADDRESSES: &[OfAddress] = &[
    (
        Effect::Als,
        ((0o200000000000, 0, 0), ""),
        1,
        ((LEAST, 0, 0), "nc"),
        Put::Nothing,
    ),
    (
        Effect::Ars,
        ((LEAST, 0, 0), ""),
        0o201,
        ((0o600000000000, 0, 0), "n"),
        Put::Nothing,
    ),
    (
        Effect::Alr,
        ((0o400000000001, 0, 0), ""),
        1,
        ((3, 0, 0), ""),
        Put::Nothing,
    ),
    (
        Effect::Lrl,
        ((LEAST, 0, 0), ""),
        71,
        ((0, 1, 0), ""),
        Put::Nothing,
    ),
    (
        Effect::Eaq,
        ((0, 0, 0), ""),
        0o400000,
        ((0, LEAST, 0), "n"),
        Put::Nothing,
    ),
    (
        Effect::Staq,
        ((1, 2, 0), ""),
        0,
        ((1, 2, 0), ""),
        Put::Two(1, 2),
    ),
    (
        Effect::Sti,
        ((0, 0, 0), "ct"),
        0,
        ((0, 0, 0), "ct"),
        Put::One(0o102000),
    ),
];

/// Whether an instruction is one of `OF_ADDRESSES`: a data instruction that reads nothing.
fn is_of_address(effect: Effect) -> bool
    ensures data { OnTrue result (IsTrue (is_data_instruction effect)) }
    ensures got { OnTrue result (HoldsFor (operand_of effect) held.Empty) }
{
    matches!(
        effect,
        Effect::Als
            | Effect::Ars
            | Effect::Alr
            | Effect::Lrl
            | Effect::Eaq
            | Effect::Staq
            | Effect::Sti
    )
}

/// The effect of an instruction whose final address has the word number `word`.
fn of_address(effect: Effect, regs: &Regs, word: u32) -> Option<Result<Effect36, Fault>> {
    if is_of_address(effect) {
        return Some(effect_of(effect, 0, regs, word, Held::Empty));
    }
    None
}

fn gives_of_address(row: &OfAddress) -> bool {
    let (effect, (before, on), word, (after, letters), put) = row;
    match of_address(*effect, &registers(*before, on, 5), *word) {
        Some(found) => gives(&found, registers(*after, letters, 6), held(*put), false),
        None => false,
    }
}

#[test]
fn effects_of_addresses(rt: HostRuntime) {
    for row in OF_ADDRESSES {
        assert!(rt; gives_of_address(row), "{:?}", row.0);
    }
}
