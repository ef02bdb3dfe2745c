//! Runs of a folder with two segments: a program that writes `hello` through a gate and stops.

use crate::booting::read;
use m36_boot::BootFault;
use m36_dir::Catalog;
use m36_model::StepRecord;
use m36_outside::Text;
use m36_step::{BackAnswer, Stepper, Turn};
use m36_super::{NextEvent, Super, are_short};
use m36_word::{NoMemory, Word, Words};
use std::alloc::Global;
use std::process::Abort;

const MAIN: [u64; 48] = [
    0o000000213004,
    0o700026764161,
    0o000007352000,
    0o000006235007,
    0o600024357100,
    0o400010713120,
    0o400012713120,
    0o150145154154,
    0o157012000000,
    0o000002000001,
    0o000004000002,
    0o000000000010,
    0o000000000010,
    0o000004000012,
    0o000014000000,
    0o000004000012,
    0o000016000000,
    0o005163164141,
    0o162164000000,
    0o004143157156,
    0o137000000000,
    0o005167162151,
    0o164145000000,
    0o004163164157,
    0o160000000000,
    0o000000000000,
    0o000010000002,
    0o000000000000,
    0o000000000000,
    0o000000000000,
    0o000000000000,
    0o000000000000,
    0o000000000000,
    0o777770000046,
    0o000004000000,
    0o777766000046,
    0o000006000000,
    0o000000000003,
    0o000002000000,
    0o000005021000,
    0o000006021000,
    0o000000000001,
    0o000000000011,
    0o000011000020,
    0o000031000014,
    0o000045000004,
    0o000000000000,
    0o000051000000,
];

const CON: [u64; 31] = [
    0o000002710000,
    0o000000616000,
    0o000000001000,
    0o600024610100,
    0o000002000002,
    0o000000000000,
    0o000004000010,
    0o000000000006,
    0o000000000010,
    0o000001000010,
    0o005167162151,
    0o164145000000,
    0o004163164157,
    0o160000000000,
    0o000000000000,
    0o000010000000,
    0o000000000000,
    0o000000000000,
    0o000000000000,
    0o000000000000,
    0o000000000000,
    0o000000000000,
    0o000000000001,
    0o000000000000,
    0o000000000001,
    0o000000000004,
    0o000004000012,
    0o000016000010,
    0o000026000002,
    0o000002000000,
    0o000030000000,
];

pub(crate) fn words_of(alloc: Global, numbers: &[u64]) -> Result<Words, NoMemory> {
    let mut words = Words::new(alloc);
    for number in numbers {
        words.push(Word::low(*number))?;
    }
    Ok(words)
}

pub(crate) fn text_of(alloc: Global, lines: &[&str]) -> Result<Text, NoMemory> {
    let mut text = Text::new(alloc);
    for line in lines {
        text.append(line.as_bytes())?;
        text.push(b'\n')?;
    }
    Ok(text)
}

// The catalog with this line for frames and this line for the gate.
fn catalog(alloc: Global, frames: &str, gate: &str) -> Result<Catalog, BootFault> {
    let lines = [
        frames,
        "work >udd>demo",
        "library >sss",
        "segment >udd>demo main main object re 4 4 4",
        gate,
        "start 4 main$start",
    ];
    let text = text_of(alloc, &lines)?;
    read(alloc, text.bytes())
}

// The words of the two files.
fn files(alloc: Global) -> Result<Vec<Words>, NoMemory> {
    let mut files = Vec::new(alloc);
    files.push(words_of(alloc, &MAIN)?)?;
    files.push(words_of(alloc, &CON)?)?;
    Ok(files)
}

// The booted folder with this line for frames and this line for the gate.
fn booted(alloc: Global, frames: &str, gate: &str) -> Result<Super, BootFault> {
    let catalog = catalog(alloc, frames, gate)?;
    let files = files(alloc)?;
    if files.len() != catalog.count() || !are_short(&files) {
        return Err(BootFault::NoMemory);
    }
    Super::boot(alloc, catalog, files)
}

const GATE: &str = "segment >sss con_ con_ gate rep 0 0 5";

// A letter for a turn: s a step, l a snapped link, r a refused link, c the console, e the end, f no
// more steps can be counted, n out of memory.
fn letter(turn: &Turn) -> u8 {
    match turn {
        Turn::Stepped(_) => b's',
        Turn::Linked(note) => { if note.answer.is_ok() { b'l' } else { b'r' } }
        Turn::Console(_) => b'c',
        Turn::Ended(_) => b'e',
        Turn::Full => b'f',
        Turn::NoMemory => b'n',
    }
}

// Takes the turns of the folder and asserts what each is. Returns false if memory ran out.
fn turns(rt: &impl Abort, system: &mut Super) -> bool {
    for due in b"sssssslssscsslsseee" {
        let turn = system.turn();
        let letter = letter(&turn);
        if letter == b'n' {
            return false;
        }
        assert_eq!(rt; letter, *due);
        if let Turn::Console(note) = turn {
            assert!(rt; note.bytes.as_slice() == b"hello\n".as_slice());
        }
    }
    true
}

/// A segment, a word of it, and its value after the run.
const AFTER: &[(u16, u32, Option<u64>)] = &[
    (16, 65, Some(0o000020002000)),
    (20, 65, Some(0)),
    (66, 0, None),
];

fn number_at(system: &Super, seg: u16, word: u32) -> Option<u64> {
    let word = system.content(seg % 0o100000, word % 0o1000000)?;
    Some(word.value())
}

// Asserts the state after the run.
fn check_after(rt: &impl Abort, system: &mut Super) {
    assert!(rt; system.regs().ppr.ic == 1);
    for (seg, word, number) in AFTER {
        assert!(rt; number_at(system, *seg, *word) == *number);
    }
    assert!(rt; system.back(1) == BackAnswer::Unable);
}

// Takes all turns, and checks the state after them.
fn run(rt: &impl Abort, system: &mut Super) {
    if turns(rt, system) {
        check_after(rt, system);
    }
}

#[test]
fn writes_and_stops(rt: HostRuntime) -> Result<(), BootFault> {
    for frames in ["frames 24", "frames 400"] {
        let mut system = booted(rt.alloc(), frames, GATE)?;
        run(&rt, &mut system);
    }
    Ok(())
}

// Whether a turn was a step with this record.
fn is_step(told: &StepRecord, turn: &Turn) -> bool {
    match turn {
        Turn::Stepped(due) => {
            told.word == due.word
                && told.outcome == due.outcome
                && told.after == due.after
                && told.refs.len() == due.refs.len()
        }
        _ => false,
    }
}

// Takes a turn of both systems and asserts that it is the same. Overwrites `told` with the record
// of a step of the first system. Returns false if memory ran out.
fn both(rt: &impl Abort, one: &mut Super, told: &mut StepRecord, other: &mut Super) -> bool {
    match one.next_event() {
        NextEvent::Step => {
            one.step_told(told);
            assert!(rt; is_step(told, &other.turn()));
            true
        }
        _ => {
            let first = letter(&one.turn());
            let second = letter(&other.turn());
            if first == b'n' || second == b'n' {
                return false;
            }
            assert_eq!(rt; first, second);
            true
        }
    }
}

// Takes all turns of both systems and asserts that they are the same.
fn agree(rt: &impl Abort, one: &mut Super, other: &mut Super) {
    let mut told = one.empty_record();
    for _ in 0..19 {
        if !both(rt, one, &mut told, other) {
            return;
        }
    }
}

#[test]
fn tells_steps_in_one_record(rt: HostRuntime) -> Result<(), BootFault> {
    let mut one = booted(rt.alloc(), "frames 24", GATE)?;
    let mut other = booted(rt.alloc(), "frames 24", GATE)?;
    agree(&rt, &mut one, &mut other);
    Ok(())
}
