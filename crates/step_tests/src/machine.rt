//! Whole steps over small cores.

ghost use Rattle.std.specs.Prelude.{◌<◌, ◌^◌};

mod lines;
mod more_lines;
mod reading;
mod table;

use crate::setting::{DBR, NO_INDICATORS, at, pointer, put};
use m36_core::Core;
use m36_model::{At, End, Fault, Final, Kind, Outcome, Ppr, Reference, Regs, StepRecord, Stop};
use m36_step::machine::Machine;
use m36_step::stepper::{Replay, Stepper};
use m36_step::turns::{BackAnswer, Turn};
use m36_word::{NoMemory, Word};
use std::alloc::Global;

/// Registers at word `ic` of segment 1 in a ring. All others are 0.
fn regs(ring: u8, ic: u32) -> Regs
    requires ring { ring < 8 }
    requires ic { ic < 2 ^ 18 }
{
    Regs {
        a: Word::ZERO,
        q: Word::ZERO,
        x: [0; 8],
        pr: [pointer(0, 0, 0); 8],
        dbr: DBR,
        ppr: Ppr {
            ic,
            psr: 1,
            prr: ring,
        },
        ind: NO_INDICATORS,
    }
}

/// Registers at word 0 of segment 1 in ring 0, with the accumulator `a`.
fn with_a(a: u64) -> Regs {
    let mut regs = regs(0, 0);
    regs.a = Word::low(a);
    regs
}

/// A machine with two frames of core that has these words and is zero elsewhere.
fn machine(alloc: Global, regs: &Regs, words: &[(u32, u64)]) -> Result<Machine, NoMemory> {
    let mut core = Core::new(alloc, 2)?;
    put(&mut core, words);
    Ok(Machine::start(core, *regs))
}

fn word_at(machine: &Machine, place: u32) -> u64 {
    let core = machine.walk().core();
    if place < core.len() {
        core.peek(place).value()
    } else {
        u64::MAX
    }
}

fn faults(number: u8, at: At) -> Outcome {
    Outcome::Faulted(Fault { at, number, acv: 0 })
}

fn violates(acv: u8, at: At) -> Outcome {
    Outcome::Faulted(Fault {
        at,
        number: 20,
        acv,
    })
}

/// Takes one step. Whether it has this outcome and makes this number of references.
fn gives(machine: &mut Machine, expected: Outcome, references: usize) -> bool {
    let told = machine.step();
    told.outcome == expected && told.refs.len() == references
}

/// Whether the machine is at word `ic` of segment `seg` in ring `ring`.
fn stands(machine: &Machine, seg: u16, ring: u8, ic: u32) -> bool {
    let regs = machine.regs();
    let ppr = regs.ppr;
    ppr.psr == seg && ppr.prr == ring && ppr.ic == ic
}

fn accumulator(machine: &Machine) -> u64 {
    let regs = machine.regs();
    regs.a.value()
}

/// Whether a step executed `lda 2` and read word 2 of segment 1 in ring 0.
fn is_load(told: &StepRecord) -> bool {
    let operand = at(1, 2, 0);
    let read = Reference {
        at: operand,
        kind: Kind::Read,
        count: 1,
    };
    let last = Final {
        direct: None,
        at: operand,
        bit: 0,
    };
    told.refs.as_slice().last() == Some(&read)
        && told.refs.len() == 2
        && told.word == Some(Word::low(0o000002235000))
        && told.at == Some(last)
        && told.outcome == Outcome::Next
}

#[test]
fn loads_and_stops(rt: HostRuntime) -> Result<(), NoMemory> {
    let words = [
        (0o2, 0o000000400004),
        (0o3, 0o000006700000),
        (0o40, 0o000002235000),
        (0o41, 0o000000616000),
        (0o42, 5),
    ];
    let mut machine = machine(rt.alloc(), &regs(0, 0), &words)?;
    let told = machine.step();
    assert!(rt; is_load(&told));
    assert!(rt; told.ppr == regs(0, 0).ppr && told.after == *machine.regs());
    assert!(rt; accumulator(&machine) == 5 && stands(&machine, 1, 0, 1));
    assert!(rt; gives(&mut machine, Outcome::Stopped(Stop::Dis), 1));
    assert!(rt; stands(&machine, 1, 0, 1));

    // Skips the stop and writes the word after it from outside: `sta 5`, which may not write there.
    machine.skip();
    put(machine.core_mut(), &[(0o42, 0o000005755000)]);
    assert!(rt; gives(&mut machine, violates(6, at(1, 5, 0)), 1));
    assert!(rt; stands(&machine, 1, 0, 2));
    Ok(())
}

/// Whether a turn was a step with this outcome.
fn is_step(turn: Turn, expected: Outcome) -> bool {
    match turn {
        Turn::Stepped(told) => told.outcome == expected,
        _ => false,
    }
}

/// Whether a turn reported this end.
fn is_end(turn: Turn, expected: End) -> bool {
    match turn {
        Turn::Ended(end) => end == expected,
        _ => false,
    }
}

#[test]
fn turns_until_it_stops(rt: HostRuntime) -> Result<(), NoMemory> {
    let words = [
        (0o2, 0o000000400004),
        (0o3, 0o000006700000),
        (0o40, 0o000002235000),
        (0o41, 0o000000616000),
        (0o42, 5),
    ];
    let mut machine = machine(rt.alloc(), &regs(0, 0), &words)?;
    let second = machine.copy(rt.alloc())?;
    assert!(rt; is_step(machine.turn(), Outcome::Next));
    assert!(rt; is_step(machine.turn(), Outcome::Stopped(Stop::Dis)));
    assert!(rt; is_end(machine.turn(), End::Stop(Stop::Dis)));
    assert!(rt; accumulator(&machine) == 5 && accumulator(&second) == 0);
    assert!(rt; machine.content(1, 2) == Some(Word::low(5)) && machine.content(2, 0).is_none());
    assert!(rt; machine.back(1) == BackAnswer::Unable);
    Ok(())
}

#[test]
fn marks_its_page(rt: HostRuntime) -> Result<(), NoMemory> {
    let words = [
        (0o2, 0o000001000004),
        (0o3, 0o000007500000),
        (0o100, 0o000020000004),
        (0o2000, 0o000002755000),
        (0o2001, 0o000000616000),
    ];
    let mut machine = machine(rt.alloc(), &regs(0, 0), &words)?;
    assert!(rt; gives(&mut machine, Outcome::Next, 2));
    assert!(rt; word_at(&machine, 0o100) == 0o000020001104);
    assert!(rt; gives(&mut machine, Outcome::Stopped(Stop::Dis), 1));
    Ok(())
}

/// A machine with segment 1 at core word octal 40. `rights` is the odd word of its descriptor; its
/// word 0 is the instruction, and its word octal 10 is `word`.
fn with_word(
    alloc: Global,
    regs: &Regs,
    rights: u64,
    instruction: u64,
    word: u64,
) -> Result<Machine, NoMemory> {
    let words = [
        (0o2, 0o000000400004),
        (0o3, rights),
        (0o40, instruction),
        (0o50, word),
    ];
    machine(alloc, regs, &words)
}

const WRITABLE: u64 = 0o000007300000;

const READABLE: u64 = 0o000006300000;

/// The instruction, the tally word before, A afterwards, the tally word afterwards, the tally
/// runout indicator, and the number of references. A is octal 123456 before. The instructions are
/// `eaa 8` with ID twice, SD, AD and DI; and `lda` and `sta` with ID and a tally word whose operand
/// is the tally word itself: it is read as counted, and overwritten.
const TALLIES: [(u64, u64, u64, u64, bool, usize); 7] = [
    (
        0o000010635056,
        0o000100000200,
        0o000100000000,
        0o000101000100,
        false,
        3,
    ),
    (
        0o000010635056,
        0o000101000100,
        0o000101000000,
        0o000102000000,
        true,
        3,
    ),
    (
        0o000010635044,
        0o000100777703,
        0o000075000000,
        0o000075000003,
        true,
        3,
    ),
    (
        0o000010635053,
        0o000100000103,
        0o000100000000,
        0o000103000003,
        true,
        3,
    ),
    (
        0o000010635054,
        0o000000000000,
        0o777777000000,
        0o777777000100,
        false,
        3,
    ),
    (
        0o000010235056,
        0o000010000200,
        0o000011000100,
        0o000011000100,
        false,
        4,
    ),
    (
        0o000010755056,
        0o000010000200,
        0o000000123456,
        0o000000123456,
        false,
        4,
    ),
];

#[test]
fn tally_words(rt: HostRuntime) -> Result<(), NoMemory> {
    let start = with_a(0o123456);
    for (instruction, before, a, after, runout, references) in TALLIES {
        let mut machine = with_word(rt.alloc(), &start, WRITABLE, instruction, before)?;
        assert!(rt;
            gives(&mut machine, Outcome::Next, references),
            "{instruction:o}"
        );
        assert!(rt; accumulator(&machine) == a, "{instruction:o}");
        assert!(rt; word_at(&machine, 0o50) == after, "{instruction:o}");
        assert!(rt; machine.regs().ind.tally == runout, "{instruction:o}");

        // If the segment may not be written, nothing changes.
        let mut machine = with_word(rt.alloc(), &start, READABLE, instruction, before)?;
        assert!(rt;
            gives(&mut machine, violates(6, at(1, 0o10, 0)), 2),
            "{instruction:o}"
        );
        assert!(rt; *machine.regs() == start, "{instruction:o}");
        assert!(rt; word_at(&machine, 0o50) == before, "{instruction:o}");
    }
    Ok(())
}

/// A machine with a segment 1 that every ring may execute, with an instruction and then `dis`, and
/// a segment 3 at core word octal 100 with a pair in its word 0. `rings` are the ring of execution
/// and the ring of PR2, which points to that pair. PR6 points to word 7 of segment 5. `segment` is
/// the descriptor of segment 3.
fn with_segment(
    alloc: Global,
    rings: (u8, u8),
    instruction: u64,
    segment: (u64, u64),
    pair: (u64, u64),
) -> Result<Machine, NoMemory>
    requires ring { rings.0 < 8 }
    requires pointed { rings.1 < 8 }
{
    let words = [
        (0o2, 0o000000400774),
        (0o3, 0o000006700000),
        (0o6, segment.0),
        (0o7, segment.1),
        (0o40, instruction),
        (0o41, 0o000000616000),
        (0o100, pair.0),
        (0o101, pair.1),
    ];
    let start = regs(rings.0, 0)
        .with_pointer(2, pointer(3, rings.1, 0))
        .with_pointer(6, pointer(5, rings.0, 7));
    machine(alloc, &start, &words)
}

/// The descriptor of a gate with two entries and the brackets 0 0 5.
const GATE: (u64, u64) = (0o000001000054, 0o000002200002);

/// The descriptor of a segment with the brackets 2 3 3, which ring 3 may call.
const INNER: (u64, u64) = (0o000001002334, 0o000002300000);

const NO_PAIR: (u64, u64) = (0, 0);

/// The rings of the caller and of the pointer, the called segment and word, and the access
/// violation.
const REFUSED_CALLS: [((u8, u8), (u64, u64), u32, u8); 4] = [
    ((4, 4), GATE, 2, 7),
    ((6, 6), GATE, 1, 8),
    ((1, 1), INNER, 1, 9),
    ((1, 3), INNER, 1, 10),
];

/// The ring of the caller and of the pointer, the segment whose word 1 is called, the ring that is
/// entered, and the segment of the stack to which PR7 points afterwards.
const CALLS: [(u8, (u64, u64), u8, u16); 2] = [(4, GATE, 0, 0o10), (3, INNER, 3, 5)];

/// `call6 pr2|0`
const CALL: u64 = 0o200000713100;

#[test]
fn calls(rt: HostRuntime) -> Result<(), NoMemory> {
    for (rings, segment, word, acv) in REFUSED_CALLS {
        let (ring, pointed) = (rings.0 % 8, rings.1 % 8);
        let called = word % 8;
        let instruction = CALL + ((called as u64) << 18);
        let mut machine = with_segment(rt.alloc(), (ring, pointed), instruction, segment, NO_PAIR)?;
        assert!(rt;
            gives(&mut machine, violates(acv, at(3, called, pointed)), 1),
            "{acv}"
        );
    }
    for (ring, segment, entered, stack) in CALLS {
        let ring = ring % 8;
        let entered = entered % 8;
        let stack = pointer(stack % (1 << 15), entered, 0);
        let instruction = CALL + (1 << 18);
        let mut machine = with_segment(rt.alloc(), (ring, ring), instruction, segment, NO_PAIR)?;
        assert!(rt; gives(&mut machine, Outcome::Next, 1), "{ring}");
        assert!(rt; stands(&machine, 3, entered, 1), "{ring}");
        assert!(rt; machine.regs().pointer(7) == stack, "{ring}");
    }
    Ok(())
}

/// The ring that executes `rtcd pr2|0`, the segment of the return pointer, and the return pointer.
/// The first pointer has ring 4. The second has ring 0 and is in a segment that ring 4 may write.
const RETURNS: [(u8, (u64, u64), (u64, u64)); 2] = [
    (
        0,
        (0o000001000004, 0o000005300000),
        (0o000001400043, 0o000001000000),
    ),
    (
        4,
        (0o000001004444, 0o000005300000),
        (0o000001000043, 0o000001000000),
    ),
];

#[test]
fn returns_to_ring_4(rt: HostRuntime) -> Result<(), NoMemory> {
    for (ring, segment, pair) in RETURNS {
        let ring = ring % 8;
        let mut machine = with_segment(rt.alloc(), (ring, ring), 0o200000610100, segment, pair)?;
        assert!(rt; gives(&mut machine, Outcome::Next, 2), "{ring}");
        assert!(rt; stands(&machine, 1, 4, 1), "{ring}");
        for n in 0..8 {
            assert!(rt; machine.regs().pointer(n).ring == 4, "{ring}");
        }
        // DIS is not privileged there.
        assert!(rt; gives(&mut machine, faults(10, at(1, 1, 4)), 1), "{ring}");
    }
    Ok(())
}

#[test]
fn loads_the_descriptor_base(rt: HostRuntime) -> Result<(), NoMemory> {
    // `tsx1 0` at word 3, and `ldbr 8` at word 0. The new descriptor segment is at octal 400. By it
    // segment 1 has other words, and its word 1 is `dis`.
    let words = [
        (0o2, 0o000000400004),
        (0o3, 0o000006700000),
        (0o40, 0o000010232000),
        (0o41, 0o000000011000),
        (0o43, 0o000000701000),
        (0o50, 0o000004000000),
        (0o51, 0o000170200000),
        (0o402, 0o000005000004),
        (0o403, 0o000006700000),
        (0o501, 0o000000616000),
    ];
    let mut machine = machine(rt.alloc(), &regs(0, 3), &words)?;
    assert!(rt; gives(&mut machine, Outcome::Next, 1));
    assert!(rt; stands(&machine, 1, 0, 0));
    let after = *machine.regs();
    assert!(rt; after.x[1] == 4);
    assert!(rt; gives(&mut machine, Outcome::Next, 2));
    let dbr = machine.walk().dbr();
    assert!(rt; dbr.addr == 0o400 && dbr.stack == 0);
    assert!(rt; gives(&mut machine, Outcome::Stopped(Stop::Dis), 1));
    Ok(())
}
