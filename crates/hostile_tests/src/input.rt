//! Sessions in which each piece of input and each put fails in turn.

use crate::rows::{LEAST, held};
use m36_outside::{MemFolder, MemLines, MemSink, Text};
use m36_word::NoMemory;
use std::alloc::Global;

/// The answers to `step 1`, `where` and `fly`. `quit` has no answer.
const ANSWERS: &[&[u8]] = &[
    b"1 0 00001|000000 000002235000 0:00001|000002 000000000005 000000000000 ...... next\n",
    b"0 00001|000001\n",
    b"? fly\n",
];

/// The number of the piece that fails, the number of the status, and how many lines are answered:
/// those that are complete by then. The input has 700 lines of six bytes. They fill a buffer of
/// 4,096 bytes and a part of another, so the third piece is the end.
const PIECES: &[(u32, u8, usize)] = &[(1, 2, 0), (2, 2, 682), (3, 2, 700), (4, 0, 700)];

/// Holds a session over the least image, with the number of the piece that fails (0 for none).
/// Returns the number of the status.
fn hold(
    alloc: Global,
    content: &[u8],
    piece: u32,
    folder: &mut MemFolder,
    out: &mut MemSink,
) -> Result<u8, NoMemory> {
    folder.add(LEAST.0, LEAST.1)?;
    let mut lines = MemLines::new(alloc, content, &[piece])?;
    let status = held(alloc, b"debug least", folder, &mut lines, out)?;
    Ok(status.number())
}

/// Whether a session ends with this number of the status and writes `want`. `piece` and `put` are
/// the numbers of the piece and the put that fail (0 for none).
fn ends_right(
    alloc: Global,
    content: &[u8],
    (piece, put): (u32, u32),
    number: u8,
    want: &[u8],
) -> Result<bool, NoMemory> {
    let mut folder = MemFolder::new(alloc, &[], &[])?;
    let mut out = MemSink::new(alloc, 20_000, &[put])?;
    let told = hold(alloc, content, piece, &mut folder, &mut out)?;
    Ok(told == number && out.bytes() == want)
}

fn repeated(alloc: Global, line: &[u8], count: usize) -> Result<Text, NoMemory> {
    let mut text = Text::new(alloc);
    for _ in 0..count {
        text.append(line)?;
    }
    Ok(text)
}

#[test]
fn pieces_fail_in_turn(rt: HostRuntime) -> Result<(), NoMemory> {
    let content = repeated(rt.alloc(), b"where\n", 700)?;
    for (piece, number, answers) in PIECES {
        let want = repeated(rt.alloc(), b"0 00001|000000\n", *answers)?;
        assert!(rt;
            ends_right(
                rt.alloc(),
                content.bytes(),
                (*piece, 0),
                *number,
                want.bytes()
            )?,
            "{piece}"
        );
    }
    Ok(())
}

#[test]
fn answers_fail_in_turn(rt: HostRuntime) -> Result<(), NoMemory> {
    let content = b"step 1\nwhere\nfly\nquit\n";
    let mut want = Text::new(rt.alloc());
    let mut number = 0u32;
    for answer in ANSWERS {
        number = number.saturating_add(1);
        assert!(rt;
            ends_right(rt.alloc(), content, (0, number), 3, want.bytes())?,
            "{number}"
        );
        want.append(answer)?;
    }
    Ok(())
}
