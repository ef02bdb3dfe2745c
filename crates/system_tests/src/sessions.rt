//! Sessions over bare images.

use m36_back::Past;
use m36_debug::{SessionFault, debug};
use m36_image::{Image, read_image};
use m36_outside::{MemFolder, MemLines, MemSink, Text};
use m36_step::Machine;
use m36_word::NoMemory;
use m36_world::Borrowed;
use std::alloc::Global;

/// The length in bytes of the longest image in this module.
const LONGEST_IMAGE: usize = 1000;

/// `lda 2`, `dis 0`, and the word 5.
const LEAST: &[u8] = b"core 1
dbr 000000000000 000000200000
start 00001 0 000000
at 00000002 000000400004 000006700000
at 00000040 000002235000 000000616000 000000000005
";

/// A paged segment whose first instruction, `sta 0`, overwrites itself.
const STORES: &[u8] = b"core 2
dbr 000000000000 000000200000
start 00001 0 000000
at 00000002 000001000004 000007500000
at 00000100 000020000004
at 00002000 000000755000 000000616000
";

/// `tra 0`.
const LOOPS: &[u8] = b"core 1
dbr 000000000000 000000200000
start 00001 0 000000
at 00000002 000000400004 000006700000
at 00000040 000000710000
";

const FIRST_STEP: &[u8] =
    b"1 0 00001|000000 000002235000 0:00001|000002 000000000005 000000000000 ...... next\n";

/// The image, the lines of input, and the output, in which `%` means the line `FIRST_STEP`.
const SESSIONS: &[(&[u8], &[u8], &[u8])] = &[
    (LEAST, b"", b""),
    (LEAST, b"quit\nwhere\n", b""),
    (
        LEAST,
        b"step 1\nwhere\nfly\nquit\n",
        b"%0 00001|000001\n? fly\n",
    ),
    (
        LEAST,
        b"step\nback\nstep\nback 2\nquit\n",
        b"%0 00001|000000\n%? back 2\n",
    ),
    (
        STORES,
        b"step\nseg 00001 000000\nback\nseg 00001 000000\n",
        b"1 0 00001|000000 000000755000 0:00001|000000 000000000000 000000000000 ...... next\n00001|000000 000000000000\n0 00001|000000\n00001|000000 000000755000\n",
    ),
    (
        LEAST,
        b"step\nregs\n",
        b"%a 000000000005 q 000000000000 ind ......
x 000000 000000 000000 000000 000000 000000 000000 000000
pr0 0:00000|000000 00
pr1 0:00000|000000 00
pr2 0:00000|000000 00
pr3 0:00000|000000 00
pr4 0:00000|000000 00
pr5 0:00000|000000 00
pr6 0:00000|000000 00
pr7 0:00000|000000 00
",
    ),
    // The end is printed again. After a step back the run goes on.
    (
        LEAST,
        b"go\ngo\nstep\nback\nwhere\nback\nstep 9\n",
        b"end dis 2\nend dis 2\nend dis 2\n0 00001|000001\n0 00001|000001\n0 00001|000000\n%2 0 00001|000001 000000616000 - 000000000005 000000000000 ...... dis\nend dis 2\n",
    ),
    // A step that ends the run is followed by its end at once.
    (
        LEAST,
        b"step\nstep\n",
        b"%2 0 00001|000001 000000616000 - 000000000005 000000000000 ...... dis\nend dis 2\n",
    ),
    (
        LEAST,
        b"break 00001 000000\nbreak 00001 000001\ngo\ngo\n",
        b"break 00001|000000\nbreak 00001|000001\n0 00001|000001\nend dis 2\n",
    ),
    // A break at the next instruction stops no `go` before its first step.
    (
        LOOPS,
        b"break 00001 000000\ngo\ngo\nback 2\nback\n",
        b"break 00001|000000\n0 00001|000000\n0 00001|000000\n0 00001|000000\n? back\n",
    ),
    // The limit of `go` is no end of the run.
    (
        LOOPS,
        b"go\nback 100000\nback",
        b"0 00001|000000\n0 00001|000000\n? back\n",
    ),
    (
        LEAST,
        b"\n \nstep 0\nstep 01\nstep 1000001\nseg 00001 400000\nseg 1 0\nquit now\nstep  1\ngo \nBACK\n",
        b"?  \n? step 0\n? step 01\n? step 1000001\n00001|400000 absent\n? seg 1 0\n? quit now\n? step  1\n? go \n? BACK\n",
    ),
    // There are at most sixteen breaks, and setting the same break again counts.
    (
        LEAST,
        b"break 00000 000000\nbreak 00000 000000\nbreak 00000 000000\nbreak 00000 000000
break 00000 000000\nbreak 00000 000000\nbreak 00000 000000\nbreak 00000 000000
break 00000 000000\nbreak 00000 000000\nbreak 00000 000000\nbreak 00000 000000
break 00000 000000\nbreak 00000 000000\nbreak 00000 000000\nbreak 77777 777777
break 00000 000000\n",
        b"break 00000|000000\nbreak 00000|000000\nbreak 00000|000000\nbreak 00000|000000
break 00000|000000\nbreak 00000|000000\nbreak 00000|000000\nbreak 00000|000000
break 00000|000000\nbreak 00000|000000\nbreak 00000|000000\nbreak 00000|000000
break 00000|000000\nbreak 00000|000000\nbreak 00000|000000\nbreak 77777|777777
? break 00000 000000\n",
    ),
];

// A machine that goes back, with the state of an image.
fn past(alloc: Global, image: &[u8]) -> Result<Past<Machine>, NoMemory> {
    if image.len() > LONGEST_IMAGE {
        return Err(NoMemory);
    }
    let Ok(image) = read_image(alloc, image) else {
        return Err(NoMemory);
    };
    let Image { core, regs } = image;
    let machine = Machine::start(core, regs);
    match Past::new(alloc, machine) {
        Ok(past) => Ok(past),
        Err(_) => Err(NoMemory),
    }
}

// The result of a session over an image.
fn ended(
    alloc: Global,
    image: &[u8],
    lines: &mut MemLines,
    out: &mut MemSink,
) -> Result<(), SessionFault> {
    match past(alloc, image) {
        Ok(mut past) => {
            let Ok(mut folder) = MemFolder::new(alloc, &[], &[]) else {
                return Err(SessionFault::NoMemory);
            };
            let mut world = Borrowed::new(&mut folder, lines, out);
            debug(alloc, &mut past, &mut world)
        }
        Err(_) => Err(SessionFault::NoMemory),
    }
}

// The fault with which a session over an image ends, and its output. `piece` and `put` are the
// numbers of the piece of input and of the put that fail (0 for none).
fn held(
    alloc: Global,
    (image, lines): (&[u8], &[u8]),
    piece: u32,
    put: u32,
) -> Result<(Option<SessionFault>, MemSink), NoMemory> {
    let mut lines = MemLines::new(alloc, lines, &[piece])?;
    let mut out = MemSink::new(alloc, 10000, &[put])?;
    let fault = ended(alloc, image, &mut lines, &mut out).err();
    Ok((fault, out))
}

// A text with each `%` replaced by the line of the first step.
fn written_out(alloc: Global, text: &[u8]) -> Result<Text, NoMemory> {
    let mut whole = Text::new(alloc);
    for byte in text {
        if *byte == b'%' {
            whole.append(FIRST_STEP)?;
        } else {
            whole.push(*byte)?;
        }
    }
    Ok(whole)
}

#[test]
fn sessions_write_their_lines(rt: HostRuntime) -> Result<(), NoMemory> {
    for (image, lines, written) in SESSIONS {
        let written = written_out(rt.alloc(), written)?;
        let (fault, out) = held(rt.alloc(), (image, lines), 0, 0)?;
        assert!(rt;
            fault.is_none() && out.bytes() == written.bytes(),
            "{lines:?}"
        );
    }
    Ok(())
}

/// The numbers of the piece of input and of the put that fail (0 for none), the fault, and the
/// output.
const EARLY: &[(u32, u32, SessionFault, &[u8])] = &[
    (1, 0, SessionFault::ReadFault, b""),
    (2, 0, SessionFault::ReadFault, b"0 00001|000000\n? fly\n"),
    (0, 2, SessionFault::WriteFault, b"0 00001|000000\n"),
];

#[test]
fn sessions_end_early(rt: HostRuntime) -> Result<(), NoMemory> {
    for (piece, put, due, written) in EARLY {
        let (fault, out) = held(rt.alloc(), (LEAST, b"where\nfly\nwhe"), *piece, *put)?;
        assert!(rt; fault == Some(*due) && out.bytes() == *written);
    }
    Ok(())
}
