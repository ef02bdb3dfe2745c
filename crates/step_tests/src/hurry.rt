//! Quick steps: `hurry` takes an instruction if pages in front answer its references and nothing
//! refuses it. It then leaves the same state as `step`.

use crate::setting::{NO_INDICATORS, pointer, put};
use m36_core::Core;
use m36_desc::Dbr;
use m36_model::{Ppr, Regs, StepRecord};
use m36_step::{Machine, Replay};
use m36_word::{NoMemory, Word};
use std::alloc::Global;

/// An unpaged descriptor segment at core word 0, with eight descriptors.
const DBR: Dbr = Dbr {
    addr: 0,
    bnd: 0,
    stack: 0,
    unpaged: true,
};

/// The descriptor of segment 1: unpaged at core word octal 2000, four blocks of 16 words, which
/// ring 0 may read, write and execute.
const SHORT: [(u32, u64); 2] = [(2, 0o000020000004), (3, 0o000037700000)];

/// As `SHORT`, but with 64 blocks, a page.
const WHOLE: [(u32, u64); 2] = [(2, 0o000020000004), (3, 0o000777300000)];

/// As `WHOLE`, but paged: the page table word is at octal 100.
const PAGED: [(u32, u64); 3] = [
    (2, 0o000001000004),
    (3, 0o000777100000),
    (0o100, 0o000020000004),
];

/// A loop: `lda`, `ada` of a direct operand, `sta`, `aos` through an indirect word, `eax1` with
/// register 1, and `tra`.
const SIMPLE: [(u32, u64); 8] = [
    (0o2000, 0o000100235000),
    (0o2001, 0o000005075007),
    (0o2002, 0o000101755000),
    (0o2003, 0o000102054020),
    (0o2004, 0o000001621011),
    (0o2005, 0o000000710000),
    (0o2100, 7),
    (0o2102, 0o000103000000),
];

/// A loop: `ldaq`, `adaq`, `era`, `orq`, `als`, `lrl`, `staq`, `ldaq` through an ITS pair, `lda`
/// and `sta` through a tally word, `call6`, `aos`, `tra` and `rtcd`.
const MIXED: [(u32, u64); 23] = [
    (0o2000, 0o000016237000),
    (0o2001, 0o000020077000),
    (0o2002, 0o000016675000),
    (0o2003, 0o000020276000),
    (0o2004, 0o000003735000),
    (0o2005, 0o000005773000),
    (0o2006, 0o000022757000),
    (0o2007, 0o000024237020),
    (0o2010, 0o000030235056),
    (0o2011, 0o000030755054),
    (0o2012, 0o000015713000),
    (0o2013, 0o000031054000),
    (0o2014, 0o000000710000),
    (0o2015, 0o000026610000),
    (0o2016, 0o000123456701),
    (0o2017, 0o252525252525),
    (0o2020, 0o000000001234),
    (0o2021, 0o000000000017),
    (0o2024, 0o000001000043),
    (0o2025, 0o000020000000),
    (0o2026, 0o000001000043),
    (0o2027, 0o000013000000),
    (0o2030, 0o000040010000),
];

/// Registers at word 0 of segment 1 in ring 0, with the accumulator `a`.
fn regs(a: u64) -> Regs {
    Regs {
        a: Word::low(a),
        q: Word::ZERO,
        x: [0; 8],
        pr: [pointer(0, 0, 0); 8],
        dbr: DBR,
        ppr: Ppr {
            ic: 0,
            psr: 1,
            prr: 0,
        },
        ind: NO_INDICATORS,
    }
}

fn machine(
    alloc: Global,
    a: u64,
    segment: &[(u32, u64)],
    words: &[(u32, u64)],
) -> Result<Machine, NoMemory> {
    let mut core = Core::new(alloc, 2)?;
    put(&mut core, segment);
    put(&mut core, words);
    Ok(Machine::start(core, regs(a)))
}

/// Whether two machines have the same registers and the same core.
fn are_alike(machine: &Machine, other: &Machine) -> bool {
    let core = machine.walk().core();
    let other_core = other.walk().core();
    if core.len() != 2048 || other_core.len() != 2048 {
        return false;
    }
    machine.regs() == other.regs()
        && core.page(0) == other_core.page(0)
        && core.page(1) == other_core.page(1)
}

/// Whether two step records agree in the instruction, its address, the outcome and the references.
fn have_equal_records(told: &StepRecord, other: &StepRecord) -> bool {
    told.word == other.word
        && told.at == other.at
        && told.outcome == other.outcome
        && told.refs.as_slice() == other.refs.as_slice()
}

fn take_steps(machine: &mut Machine, count: u32) {
    for _ in 0..count {
        let _told = machine.step();
    }
}

#[test]
fn takes_a_thousand_steps_at_once(rt: HostRuntime) -> Result<(), NoMemory> {
    for words in [SIMPLE.as_slice(), MIXED.as_slice()] {
        for segment in [WHOLE.as_slice(), PAGED.as_slice()] {
            let mut machine = machine(rt.alloc(), 0, segment, words)?;
            take_steps(&mut machine, 100);
            let mut other = machine.copy(rt.alloc())?;
            assert!(rt; machine.hurry(1000) == 1000);
            take_steps(&mut other, 1000);
            assert!(rt; are_alike(&machine, &other));
        }
    }
    Ok(())
}

/// Operands in segment 1: numbers, an indirect word, an ITS pair, a tally word, a return pointer,
/// and an indirect word and a tally word that lead past the bound.
const OPERANDS: [(u32, u64); 11] = [
    (0o2020, 7),
    (0o2022, 0o123456701234),
    (0o2023, 0o000000000017),
    (0o2024, 0o000020000000),
    (0o2026, 0o000001000043),
    (0o2027, 0o000020000000),
    (0o2030, 0o000020000200),
    (0o2032, 0o000001000043),
    (0o2033, 0o000001000000),
    (0o2034, 0o000100000000),
    (0o2035, 0o000100000200),
];

/// A machine about to execute an instruction at word 1 of segment 1, with the page of segment 1 in
/// front.
fn before(alloc: Global, a: u64, instruction: u64) -> Result<Machine, NoMemory> {
    let mut machine = machine(alloc, a, &SHORT, &OPERANDS)?;
    put(
        machine.core_mut(),
        &[(0o2000, 0o000001710000), (0o2001, instruction)],
    );
    take_steps(&mut machine, 1);
    Ok(machine)
}

/// Instructions of each group: `lda`; `lda` of a direct operand, through an indirect word, an ITS
/// pair and a tally word; `sta`, also through a tally word; `aos`, `stx1`, `sxl1`, `eaa`, `als`,
/// `tra`, `ldaq`, `staq`, `call6` and `rtcd`.
const TAKEN: [u64; 17] = [
    0o000020235000,
    0o000005235007,
    0o000024235020,
    0o000026235020,
    0o000030235056,
    0o000021755000,
    0o000030755056,
    0o000021054000,
    0o000021741000,
    0o000021441000,
    0o000005635000,
    0o000003735000,
    0o000001710000,
    0o000022237000,
    0o000022757000,
    0o000001713000,
    0o000032610000,
];

#[test]
fn takes_an_instruction_of_each_group(rt: HostRuntime) -> Result<(), NoMemory> {
    for instruction in TAKEN {
        let mut machine = before(rt.alloc(), 0o123456, instruction)?;
        let mut other = machine.copy(rt.alloc())?;
        assert!(rt; machine.hurry(1) == 1, "{instruction:o}");
        take_steps(&mut other, 1);
        assert!(rt; are_alike(&machine, &other), "{instruction:o}");
    }
    Ok(())
}

/// Instructions that `hurry` leaves to `step`. Most of them are those of `TAKEN` with an operand
/// past the bound, where an indirect word or tally word itself is within it. The others are `ada`
/// with an overflow fault, and `dis` and `absa`, which are never quick steps.
const REFUSED: [u64; 17] = [
    0o000100235000,
    0o000100235020,
    0o000034235020,
    0o000035235056,
    0o000100755000,
    0o000035755056,
    0o000100054000,
    0o000100741000,
    0o000100441000,
    0o000100710000,
    0o000100237000,
    0o000100757000,
    0o000100713000,
    0o000100610000,
    0o000020075000,
    0o000000616000,
    0o000020212000,
];

#[test]
fn leaves_what_is_refused_to_the_step(rt: HostRuntime) -> Result<(), NoMemory> {
    for instruction in REFUSED {
        let mut machine = before(rt.alloc(), 0o377777777777, instruction)?;
        let mut other = machine.copy(rt.alloc())?;
        assert!(rt; machine.hurry(1) == 0, "{instruction:o}");
        assert!(rt; are_alike(&machine, &other), "{instruction:o}");
        assert!(rt;
            have_equal_records(&machine.step(), &other.step()),
            "{instruction:o}"
        );
        assert!(rt; are_alike(&machine, &other), "{instruction:o}");
    }
    Ok(())
}
