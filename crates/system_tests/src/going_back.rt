//! Going back with a machine.

mod counted;

use counted::Counted;
use m36_back::Past;
use m36_core::Core;
use m36_desc::{Dbr, Ptr};
use m36_model::{Ind, Ppr, Regs};
use m36_step::{BackAnswer, Machine, Stepper, Turn};
use m36_word::{NoMemory, Word};
use std::alloc::Global;
use std::cell::Cell;

const NO_INDICATORS: Ind = Ind {
    zero: false,
    negative: false,
    carry: false,
    overflow: false,
    mask: false,
    tally: false,
};

/// Registers at word 0 of segment 1 in ring 0. All others are 0. The descriptor segment is unpaged
/// at core word 0.
fn regs() -> Regs {
    let none = Ptr {
        word: 0,
        seg: 0,
        ring: 0,
        bit: 0,
    };
    Regs {
        a: Word::ZERO,
        q: Word::ZERO,
        x: [0; 8],
        pr: [none; 8],
        dbr: Dbr {
            addr: 0,
            bnd: 0o17,
            stack: 0,
            unpaged: true,
        },
        ppr: Ppr {
            ic: 0,
            psr: 1,
            prr: 0,
        },
        ind: NO_INDICATORS,
    }
}

/// A machine with two frames of core that has these words and is zero elsewhere.
fn machine(alloc: Global, words: &[(u32, u64)]) -> Result<Machine, NoMemory> {
    let mut core = Core::new(alloc, 2)?;
    for (place, word) in words {
        if *place < core.len() {
            core.poke(*place, Word::low(*word));
        }
    }
    Ok(Machine::start(core, regs()))
}

fn past<M: m36_step::Replay + Drop>(alloc: Global, machine: M) -> Result<Past<M>, NoMemory> {
    match Past::new(alloc, machine) {
        Ok(past) => Ok(past),
        Err(_) => Err(NoMemory),
    }
}

/// Takes a turn. Whether it was a step after which the instruction counter is `ic`.
fn steps_to<M: Stepper>(machine: &mut M, ic: u32) -> bool {
    let stepped = matches!(machine.turn(), Turn::Stepped(_));
    let regs = machine.regs();
    let ppr = regs.ppr;
    stepped && ppr.ic == ic
}

fn word_at<M: Stepper>(machine: &M, seg: u16, word: u32) -> u64 {
    if seg >= 0o100000 || word >= 0o1000000 {
        return u64::MAX;
    }
    match machine.content(seg, word) {
        Some(word) => word.value(),
        None => u64::MAX,
    }
}

/// Segment 1 is paged, in frame 1: its first instruction, `sta 0`, overwrites itself, and `dis 0`
/// follows. Segment 2 is the first 128 words of core.
const STORES: [(u32, u64); 7] = [
    (0o2, 0o000001000004),
    (0o3, 0o000007500000),
    (0o4, 0o000000000004),
    (0o5, 0o000074300000),
    (0o100, 0o000020000004),
    (0o2000, 0o000000755000),
    (0o2001, 0o000000616000),
];

/// An action on a machine or a check of it, with what is expected.
#[derive(Clone, Copy)]
enum Doing {
    /// A turn is a step, after which the instruction counter has this value.
    Steps(u32),
    /// A turn reports that the run has ended.
    Ends,
    /// Goes back this number of steps, with this answer.
    Back(u32, BackAnswer),
    /// This number of steps was taken and not taken back.
    Taken(u64),
    /// Segment, word number, and the value of this word.
    Has(u16, u32, u64),
}

/// Steps back restore core and marks. The run ends, and goes on again after a step was taken back.
const RESTORED: &[Doing] = &[
    Doing::Back(1, BackAnswer::Before(0)),
    Doing::Steps(1),
    Doing::Has(1, 0, 0),
    Doing::Has(2, 0o100, 0o000020001104),
    Doing::Back(1, BackAnswer::Done),
    Doing::Taken(0),
    Doing::Has(1, 0, 0o000000755000),
    Doing::Has(2, 0o100, 0o000020000004),
    Doing::Steps(1),
    Doing::Steps(1),
    Doing::Ends,
    Doing::Taken(2),
    Doing::Back(3, BackAnswer::Before(2)),
    Doing::Back(1, BackAnswer::Done),
    Doing::Steps(1),
];

fn is_so(past: &mut Past<Machine>, doing: &Doing) -> bool {
    match doing {
        Doing::Steps(ic) => steps_to(past, *ic),
        Doing::Ends => matches!(past.turn(), Turn::Ended(_)),
        Doing::Back(steps, answer) => past.back(*steps) == *answer,
        Doing::Taken(steps) => past.taken() == *steps,
        Doing::Has(seg, word, number) => word_at(past, *seg, *word) == *number,
    }
}

#[test]
fn restores_core_and_marks(rt: HostRuntime) -> Result<(), NoMemory> {
    let mut past = past(rt.alloc(), machine(rt.alloc(), &STORES)?)?;
    for (place, doing) in RESTORED.iter().enumerate() {
        assert!(rt; is_so(&mut past, doing), "row {place}");
    }
    Ok(())
}

/// Segment 1 is unpaged, with the instruction `tra 0`.
const LOOPS: [(u32, u64); 3] = [
    (0o2, 0o000000400004),
    (0o3, 0o000006700000),
    (0o40, 0o000000710000),
];

/// Takes `steps` steps and one back. Returns how many turns all copies of the machine took
/// together, or 0 if going back failed.
fn turns_with_back(alloc: Global, steps: u32) -> Result<u64, NoMemory> {
    let turns = Cell::new(0);
    let machine = Counted {
        machine: machine(alloc, &LOOPS)?,
        turns: &turns,
    };
    let mut past = past(alloc, machine)?;
    for _ in 0..steps {
        let _ = past.turn();
    }
    if past.back(1) == BackAnswer::Done {
        Ok(turns.get())
    } else {
        Ok(0)
    }
}

/// The number of steps before one is taken back, and the number of turns of all copies. Copies are
/// kept every 1,024 steps, and every 2,048 steps once there would be a ninth copy.
const TURNS: &[(u32, u64)] = &[
    (3000, 3951),
    (9 * 1024, 10 * 1024 - 1),
    (10 * 1024, 12 * 1024 - 1),
];

#[test]
fn keeps_states(rt: HostRuntime) -> Result<(), NoMemory> {
    for (steps, turns) in TURNS {
        assert_eq!(rt; turns_with_back(rt.alloc(), *steps)?, *turns);
    }
    Ok(())
}
