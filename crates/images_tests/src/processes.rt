//! Texts of processes: their runs, and lines that are refused.

use m36_outside::{MemSink, Text};
use m36_procs::{Procs, ProcsFault};
use m36_word::NoMemory;
use std::alloc::Global;
use std::process::Abort;

// First lines of a text: none, `core`, `core` and one process, `core` and eight processes.
const NOTHING: &[u8] = b"";

const CORE: &[u8] = b"core 1\n";

const ONE: &[u8] = b"core 1\nprocess 000000000000 000000200000 00001 4 000000\n";

const EIGHT: &[u8] = b"core 1
process 000000000000 000000200000 00001 4 000000
process 000000000000 000000200000 00001 4 000000
process 000000000000 000000200000 00001 4 000000
process 000000000000 000000200000 00001 4 000000
process 000000000000 000000200000 00001 4 000000
process 000000000000 000000200000 00001 4 000000
process 000000000000 000000200000 00001 4 000000
process 000000000000 000000200000 00001 4 000000
";

/// Two processes try to take a lock, a word of a segment that both have. A third process begins in
/// a segment past its descriptor segment's bound.
const LOCK: &[u8] = b"core 1
process 000000000000 000000200000 00001 4 000000
process 000000200000 000000200000 00001 4 000000
process 000000000000 000000000000 00020 4 000000
at 00000002 000000404444 000006300000 000000604444 000005300000
at 00000022 000000404444 000006300000 000000604444 000005300000
at 00000040 000004761000 000004235000 100000354100 000002710000 000002000000
turns 3 0 1
turns 2 2
";

/// The output of `LOCK`. The third process faults at each of its turns.
const LOCK_OUTPUT: &[u8] =
    b"0 1 4 00001|000000 000004761000 4:00001|000004 000000000000 000000000000 ...... next
1 2 4 00001|000000 000004761000 4:00001|000004 000000000000 000000000000 ...... next
0 3 4 00001|000001 000004235000 4:00001|000004 000002000000 000000000000 ...... next
1 4 4 00001|000001 000004235000 4:00001|000004 000002000000 000000000000 ...... next
0 5 4 00001|000002 100000354100 4:00002|000000 000002000000 000000000000 z..... next
1 6 4 00001|000002 100000354100 4:00002|000000 000002000000 000000000000 ...... next
2 7 4 00020|000000 - - 000000000000 000000000000 ...... fault 20.15
2 8 4 00020|000000 - - 000000000000 000000000000 ...... fault 20.15
end schedule 8
";

/// The rest of a text, and its refusal with the number of the refused line.
type Refused<'a> = (&'a [u8], ProcsFault);

/// In place of the first line.
const OF_CORE: &[Refused] = &[
    (b"", ProcsFault::P1(1)),
    (b"core 0\n", ProcsFault::P1(1)),
    (b"core 1", ProcsFault::P1(1)),
];

/// After the line `core`.
const OF_PROCESS: &[Refused] = &[
    (b"", ProcsFault::P1(2)),
    (b"at 00000000 000000000001\n", ProcsFault::P1(2)),
    (b"turns 1 0\n", ProcsFault::P1(2)),
    (b"process 0 0 00001 4 000000\n", ProcsFault::P1(2)),
];

/// After `core` and one process. Core has 1,024 words; its last address is octal 1777.
const OF_OTHERS: &[Refused] = &[
    (b"", ProcsFault::P1(3)),
    (b"core 1\n", ProcsFault::P1(3)),
    (b"at 00001777 000000000001\n", ProcsFault::P1(4)),
    (b"at 00002000 000000000001\n", ProcsFault::P1(3)),
    (
        b"at 00000010 000000000001\nprocess 000000000000 000000200000 00001 4 000000\n",
        ProcsFault::P1(4),
    ),
    (b"turns 1 0\nat 00000010 000000000001\n", ProcsFault::P1(4)),
    (b"turns 1 0", ProcsFault::P1(3)),
    (b"turns 0 0\n", ProcsFault::P1(3)),
    (b"turns 1000001 0\n", ProcsFault::P1(3)),
    (b"turns 1\n", ProcsFault::P1(3)),
    (b"turns 1 00\n", ProcsFault::P1(3)),
    (
        b"turns 1 0 0 0 0 0 0 0 0 0 0 0 0 0 0 0 0 0\n",
        ProcsFault::P1(3),
    ),
    (b"turns 1 1\n", ProcsFault::P2(3)),
    (b"turns 1 0 9\n", ProcsFault::P2(3)),
    (b"turns 1000000 9 9 9 9 9 9 9 9 9 9 9\n", ProcsFault::P1(3)),
    (
        b"turns 1000000 0 0 0 0 0 0 0 0 0 0\nturns 1 0\n",
        ProcsFault::P1(4),
    ),
];

/// After `core` and eight processes.
const OF_TURNS: &[Refused] = &[
    (
        b"process 000000000000 000000200000 00001 4 000000\n",
        ProcsFault::P1(10),
    ),
    (b"turns 1 7\nturns 1 8\n", ProcsFault::P2(11)),
];

// The refusal of a text, if it is refused. A text of over 1000 bytes answers `NoMemory`.
fn fault(alloc: Global, text: &[u8]) -> Option<ProcsFault> {
    if text.len() > 1000 {
        return Some(ProcsFault::NoMemory);
    }
    Procs::read(alloc, text).err()
}

fn refuses(alloc: Global, front: &[u8], row: &Refused) -> Result<bool, NoMemory> {
    let (rest, expected) = row;
    let mut text = Text::from_bytes(alloc, front)?;
    text.append(rest)?;
    Ok(fault(alloc, text.bytes()) == Some(*expected))
}

fn refuse(rt: &impl Abort, alloc: Global, front: &[u8], rows: &[Refused]) -> Result<(), NoMemory> {
    for row in rows {
        assert!(rt; refuses(alloc, front, row)?, "{:?}", row.0);
    }
    Ok(())
}

#[test]
fn refuses_lines(rt: HostRuntime) -> Result<(), NoMemory> {
    refuse(&rt, rt.alloc(), NOTHING, OF_CORE)?;
    refuse(&rt, rt.alloc(), CORE, OF_PROCESS)?;
    refuse(&rt, rt.alloc(), ONE, OF_OTHERS)?;
    refuse(&rt, rt.alloc(), EIGHT, OF_TURNS)
}

// Whether core and registers are right after the schedule. Takes one more step of the second
// process.
fn is_right_after(procs: &mut Procs) -> bool {
    if procs.core().len() != 1024 || procs.count() != 3 {
        return false;
    }
    let lock = procs.core().peek(0o60).value();
    let told = procs.event(1);
    let (first, second) = (procs.regs(0).ppr, procs.regs(1).ppr);
    lock == 0o2000000 && (told.ppr.ic, first.ic, second.ic) == (3, 3, 2)
}

/// How the run of `LOCK` is expected to end.
#[derive(Clone, Copy)]
enum Expected {
    /// At the end of its schedule, with all lines written.
    Lines,
    /// Because a line cannot be written.
    Failure,
}

fn runs(procs: &mut Procs, due: Expected, out: &mut MemSink) -> bool {
    let ran = procs.run(out);
    match due {
        Expected::Lines => ran.is_ok() && out.bytes() == LOCK_OUTPUT && is_right_after(procs),
        Expected::Failure => ran.is_err(),
    }
}

fn is_due(alloc: Global, due: Expected, out: &mut MemSink) -> bool {
    match Procs::read(alloc, LOCK) {
        Ok(mut procs) => runs(&mut procs, due, out),
        Err(_) => false,
    }
}

#[test]
fn runs_a_schedule(rt: HostRuntime) -> Result<(), NoMemory> {
    let mut out = MemSink::new(rt.alloc(), 1000, &[])?;
    assert!(rt; is_due(rt.alloc(), Expected::Lines, &mut out));
    Ok(())
}

// The third line cannot be written.
#[test]
fn stops_where_a_line_is_not_written(rt: HostRuntime) -> Result<(), NoMemory> {
    let mut out = MemSink::new(rt.alloc(), 1000, &[3])?;
    assert!(rt; is_due(rt.alloc(), Expected::Failure, &mut out));
    Ok(())
}
