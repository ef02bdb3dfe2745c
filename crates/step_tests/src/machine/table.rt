//! Every instruction of the table, at least once, over a small core. The lines are in `lines` and
//! `more_lines`, and were worked out by hand from the manual; `reading` defines their format.

ghost use Rattle.std.specs.Prelude.{◌≡◌, ◌<◌, ◌^◌};

use crate::machine::lines::{LOADS, SUMS};
use crate::machine::more_lines::{BITS, CONTROL, POINTERS};
use crate::machine::reading::{Line, Seen, read};
use m36_core::Core;
use m36_desc::{Dbr, Ptr};
use m36_inst::{name_of, row};
use m36_model::{Ind, Outcome, Ppr, Regs, Stop};
use m36_step::machine::Machine;
use m36_word::{NoMemory, Pair, Word};
use std::alloc::Global;
use std::process::Abort;

fn index(v: u64) -> u32
    ensures { result < 2 ^ 18 }
{
    (v % (1 << 18)) as u32
}

fn pointer(p: u64) -> Ptr {
    Ptr {
        word: index(p >> 6),
        seg: ((p >> 27) % (1 << 15)) as u16,
        ring: ((p >> 24) % 8) as u8,
        bit: (p % 64) as u8,
    }
}

fn number_of(p: Ptr) -> u64 {
    (p.seg as u64) << 27 | (p.ring as u64) << 24 | (p.word as u64) << 6 | p.bit as u64
}

fn is_on(v: u64, place: u32) -> bool
    requires { place < 6 }
{
    v >> place & 1 == 1
}

fn dbr(seen: &Seen) -> Dbr {
    Dbr::of_words(Pair {
        even: Word::low(seen.d0),
        odd: Word::low(seen.d1),
    })
}

fn regs(seen: &Seen, dbr: Dbr) -> Regs
    ensures { result.dbr ≡ dbr }
{
    let x = &seen.x;
    let p = &seen.p;
    Regs {
        a: Word::low(seen.a),
        q: Word::low(seen.q),
        x: [
            index(x[0]),
            index(x[1]),
            index(x[2]),
            index(x[3]),
            index(x[4]),
            index(x[5]),
            index(x[6]),
            index(x[7]),
        ],
        pr: [
            pointer(p[0]),
            pointer(p[1]),
            pointer(p[2]),
            pointer(p[3]),
            pointer(p[4]),
            pointer(p[5]),
            pointer(p[6]),
            pointer(p[7]),
        ],
        dbr,
        ppr: Ppr {
            ic: index(seen.ic),
            psr: (seen.psr % (1 << 15)) as u16,
            prr: (seen.prr % 8) as u8,
        },
        ind: Ind {
            zero: is_on(seen.ind, 0),
            negative: is_on(seen.ind, 1),
            carry: is_on(seen.ind, 2),
            overflow: is_on(seen.ind, 3),
            mask: is_on(seen.ind, 4),
            tally: is_on(seen.ind, 5),
        },
    }
}

fn put(core: &mut Core, place: u32, word: u64) {
    if place < core.len() {
        core.poke(place, Word::low(word));
    }
}

fn word_at(core: &Core, place: u32) -> u64 {
    if place < core.len() {
        core.peek(place).value()
    } else {
        u64::MAX
    }
}

/// A core with segment 1, 512 words at octal 1000; segment 2, which all rings may execute; and
/// segment 3, a gate of ring 1 with two entries, which rings up to 5 may call.
fn core(alloc: Global, line: &Line) -> Result<Core, NoMemory> {
    let mut core = Core::new(alloc, 2)?;
    put(&mut core, 0o2, 0o000010000774);
    put(&mut core, 0o3, 0o000377700000);
    put(&mut core, 0o4, 0o000020000774);
    put(&mut core, 0o5, 0o000377300000);
    put(&mut core, 0o6, 0o000030001154);
    put(&mut core, 0o7, 0o000006200002);
    put(&mut core, 0o1100, line.word);
    for (i, word) in line.before.y.iter().enumerate() {
        put(&mut core, 0o1200 + i as u32 % 16, *word);
    }
    Ok(core)
}

fn machine(alloc: Global, line: &Line) -> Result<Machine, NoMemory> {
    let dbr = dbr(&line.before);
    Ok(Machine::start(core(alloc, line)?, regs(&line.before, dbr)))
}

fn end_of(outcome: Outcome, before: &Seen) -> u64 {
    match outcome {
        Outcome::Next => 0,
        Outcome::Stopped(Stop::Dis) => 1,
        Outcome::Faulted(fault) => {
            let at = fault.at;
            let is_here = at.seg as u64 == before.psr
                && at.word as u64 == before.ic
                && at.ring as u64 == before.prr;
            if is_here && fault.acv == 0 {
                fault.number as u64 + 100
            } else {
                2
            }
        }
        _ => 2,
    }
}

fn sum_of(core: &Core) -> u64 {
    let mut sum = 0u64;
    for place in 0..core.len() {
        sum = sum.wrapping_add(core.peek(place).value());
    }
    sum
}

fn operand(core: &Core) -> [u64; 16] {
    let mut y = [0; 16];
    for (i, word) in y.iter_mut().enumerate() {
        *word = word_at(core, 0o1200 + i as u32 % 16);
    }
    y
}

fn bit(on: bool, value: u64) -> u64 {
    if on { value } else { 0 }
}

/// The state of a machine after a step that ended as `end`.
fn seen_in(machine: &Machine, end: u64) -> Seen {
    let regs = machine.regs();
    let core = machine.walk().core();
    let x = regs.x;
    let p = regs.pr;
    let y = operand(core);
    let base = regs.dbr.to_words();
    let ind = regs.ind;
    let mut others = sum_of(core);
    for word in y.iter() {
        others = others.wrapping_sub(*word);
    }
    Seen {
        x: [
            x[0] as u64,
            x[1] as u64,
            x[2] as u64,
            x[3] as u64,
            x[4] as u64,
            x[5] as u64,
            x[6] as u64,
            x[7] as u64,
        ],
        p: [
            number_of(p[0]),
            number_of(p[1]),
            number_of(p[2]),
            number_of(p[3]),
            number_of(p[4]),
            number_of(p[5]),
            number_of(p[6]),
            number_of(p[7]),
        ],
        y,
        a: regs.a.value(),
        q: regs.q.value(),
        ind: bit(ind.zero, 1)
            | bit(ind.negative, 2)
            | bit(ind.carry, 4)
            | bit(ind.overflow, 8)
            | bit(ind.mask, 16)
            | bit(ind.tally, 32),
        psr: regs.ppr.psr as u64,
        prr: regs.ppr.prr as u64,
        ic: regs.ppr.ic as u64,
        d0: base.even.value(),
        d1: base.odd.value(),
        others,
        end,
    }
}

/// The operation code of an instruction word, and its bit 27.
fn code(word: u64) -> (u16, bool) {
    (((word >> 9) % 512) as u16, word >> 8 & 1 == 1)
}

/// The index of an operation code in a list of all codes, with and without bit 27.
fn place(code: u16, bit27: bool) -> usize
    ensures { result < 1024 }
{
    let low = (code % 512) as usize * 2;
    if bit27 { low + 1 } else { low }
}

fn has_name(text: &str, word: u64) -> bool {
    let (code, bit27) = code(word);
    match (name_of(code, bit27), text.split_once(' ')) {
        (Some(name), Some((first, _))) => name.as_str() == first,
        _ => false,
    }
}

fn step(machine: &mut Machine, before: &Seen) -> u64 {
    let told = machine.step();
    end_of(told.outcome, before)
}

/// Checks one step for each line, and sets `found` for its operation code.
fn run(
    rt: &impl Abort,
    alloc: Global,
    lines: &[&str],
    found: &mut [bool; 1024],
) -> Result<(), NoMemory> {
    for text in lines {
        let line = read(text);
        assert!(rt; has_name(text, line.word), "{text}");
        let (code, bit27) = code(line.word);
        found[place(code, bit27)] = true;
        let mut machine = machine(alloc, &line)?;
        let others = seen_in(&machine, 0).others;
        let end = step(&mut machine, &line.before);
        let told = seen_in(&machine, end);
        let mut wanted = line.after;
        wanted.others = others;
        assert!(rt; told == wanted, "{text}");
    }
    Ok(())
}

#[test]
fn every_row(rt: HostRuntime) -> Result<(), NoMemory> {
    let mut found = [false; 1024];
    run(&rt, rt.alloc(), &LOADS, &mut found)?;
    run(&rt, rt.alloc(), &SUMS, &mut found)?;
    run(&rt, rt.alloc(), &BITS, &mut found)?;
    run(&rt, rt.alloc(), &POINTERS, &mut found)?;
    run(&rt, rt.alloc(), &CONTROL, &mut found)?;
    for code in 0..512 {
        assert!(rt; found[place(code, false)] == row(code, false).is_some());
        assert!(rt; found[place(code, true)] == row(code, true).is_some());
    }
    Ok(())
}
