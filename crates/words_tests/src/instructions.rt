//! Rows of the instruction table, names of operation codes, and instruction words.

use m36_inst::*;
use m36_word::Word;

/// The fields of a row: effect, register number, operand kind, whether a direct operand is allowed,
/// and whether the instruction is privileged.
type Said = (Effect, u8, Operand, bool, bool);

/// Operation codes with bit 27, and their rows.
const ROWS: &[(u16, bool, Said)] = &[
    (0o235, false, (Effect::Lda, 0, Operand::R, true, false)),
    (0o317, false, (Effect::Canaq, 0, Operand::R2, false, false)),
    (0o745, false, (Effect::StxN, 5, Operand::Wl, false, false)),
    (0o754, false, (Effect::Sti, 0, Operand::Wr, false, false)),
    (0o046, false, (Effect::AsxN, 6, Operand::Rwl, false, false)),
    (0o654, false, (Effect::Stacq, 0, Operand::Rw, false, false)),
    (0o351, false, (Effect::EpbpN, 1, Operand::A, false, false)),
    (0o351, true, (Effect::EppN, 1, Operand::A, false, false)),
    (0o652, true, (Effect::SpbpN, 6, Operand::W2, false, false)),
    (0o254, false, (Effect::Spri, 0, Operand::W16, false, false)),
    (0o173, false, (Effect::Lpri, 0, Operand::R16, false, false)),
    (0o764, false, (Effect::LprpN, 4, Operand::R, false, false)),
    (0o607, false, (Effect::Ttf, 0, Operand::T, false, false)),
    (0o672, false, (Effect::TspN, 6, Operand::T, false, false)),
    (
        0o713,
        false,
        (Effect::Call6, 0, Operand::Call6, false, false),
    ),
    (0o011, false, (Effect::Nop, 0, Operand::A, true, false)),
    (0o616, false, (Effect::Dis, 0, Operand::N, false, true)),
    (0o532, true, (Effect::Camp, 0, Operand::A, false, true)),
];

/// Operation codes with bit 27 that have no row.
const NO_ROWS: &[(u16, bool)] = &[(0o000, false), (0o235, true), (0o1235, false)];

fn row_of(code: u16, bit27: bool) -> Option<Row> {
    row(code, bit27)
}

fn has_row(code: u16, bit27: bool, said: Said) -> bool {
    let (effect, reg, operand, direct, privileged) = said;
    let expected = Row {
        effect,
        operand,
        reg,
        direct,
        privileged,
    };
    row_of(code, bit27) == Some(expected)
}

#[test]
fn rows_of_codes(rt: HostRuntime) {
    for (code, bit27, said) in ROWS {
        assert!(rt; has_row(*code, *bit27, *said), "at {code:o}");
    }
}

#[test]
fn no_rows(rt: HostRuntime) {
    for (code, bit27) in NO_ROWS {
        assert!(rt; row_of(*code, *bit27) == None, "at {code:o}");
    }
}

/// How many rows an operation code has over both values of bit 27: 0 to 2.
fn rows_at(code: u16) -> u32 {
    row_of(code, false).is_some() as u32 + row_of(code, true).is_some() as u32
}

#[test]
fn count_of_rows(rt: HostRuntime) {
    let mut rows = 0u32;
    for code in 0..512 {
        rows = rows.saturating_add(rows_at(code));
    }
    assert_eq!(rt; rows, 333);
}

/// Operation codes with bit 27, and their names.
const NAMES: &[(u16, bool, &str)] = &[
    (0o235, false, "lda"),
    (0o764, false, "lprp4"),
    (0o604, true, "tmoz"),
    (0o251, true, "spri1"),
    (0o254, false, "spri"),
];

/// Texts that name no instruction.
const NO_NAMES: &[&str] = &["", "lda ", "LDA", "ldx8", "spri8", "call", "entrybound"];

fn has_name(code: u16, bit27: bool, name: Option<&str>) -> bool {
    match name_of(code, bit27) {
        Some(found) => name == Some(found.as_str()),
        None => name == None,
    }
}

fn code_of(name: &str) -> Option<(u16, bool)> {
    by_name(name.as_bytes())
}

fn is_named(code: u16, bit27: bool, name: &str) -> bool {
    has_name(code, bit27, Some(name)) && code_of(name) == Some((code, bit27))
}

#[test]
fn names_of_codes(rt: HostRuntime) {
    for (code, bit27, name) in NAMES {
        assert!(rt; is_named(*code, *bit27, name), "at {name}");
    }
}

#[test]
fn no_names(rt: HostRuntime) {
    assert!(rt; has_name(0o400, false, None));
    for name in NO_NAMES {
        assert!(rt; code_of(*name) == None, "at {name}");
    }
}

/// Whether the word decodes to the instruction, and the instruction encodes to the word.
fn holds(bits: u64, inst: Inst) -> bool {
    let word = Word::low(bits);
    Inst::of_word(word) == inst && inst.to_word() == word
}

#[test]
fn instruction_words(rt: HostRuntime) {
    let through = Inst {
        y: 0o600005,
        code: 0o235,
        tag: 0o20,
        bit27: false,
        inhibit: false,
        by_pr: true,
    };
    let base = Inst {
        y: 0o12,
        code: 0o604,
        tag: 0o10,
        bit27: true,
        inhibit: true,
        by_pr: false,
    };
    for (bits, inst) in [(0o600005235120, through), (0o000012604610, base)] {
        assert!(rt; holds(bits, inst), "at {bits:o}");
    }
}

#[test]
fn laws() {
    instruction_laws();
    table_laws();
}
