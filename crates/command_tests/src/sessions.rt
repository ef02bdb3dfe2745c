//! Sessions, by the command `debug f`.

use crate::calls::LEAST;
use crate::memory::{Expected, World, gives};
use m36_outside::Text;
use m36_word::NoMemory;
use std::alloc::Global;

/// Lines of a session over the least image.
const SESSION: &[u8] = b"step 1\nwhere\nfly\nquit\n";

/// The answers to `SESSION`.
const WRITTEN: &[u8] =
    b"1 0 00001|000000 000002235000 0:00001|000002 000000000005 000000000000 ...... next\n0 00001|000001\n? fly\n";

// Whether a session over the least image as the file `f` gives the expected result. `piece` and
// `put` are the numbers of the piece of input and of the put that fail (0 for none).
fn holds(
    alloc: Global,
    input: &[u8],
    (piece, put): (u32, u32),
    due: Expected,
) -> Result<bool, NoMemory> {
    let world = World {
        files: &[(b"f", LEAST)],
        before: &[],
        input,
        failing: (0, 0, put, piece),
    };
    gives(alloc, b"debug f", &world, due)
}

/// The lines, the numbers of the piece and of the put that fail (0 for none), the number of the
/// status, and the output.
const SESSIONS: &[(&[u8], u32, u32, u8, &[u8])] = &[
    (SESSION, 0, 0, 0, WRITTEN),
    (b"", 0, 0, 0, b""),
    (b"fly", 0, 0, 0, b"? fly\n"),
    (b"fly\n", 1, 0, 2, b""),
    (b"fly\n", 2, 0, 2, b"? fly\n"),
    (b"fly\nfly\n", 0, 2, 3, b"? fly\n"),
];

#[test]
fn holds_sessions(rt: HostRuntime) -> Result<(), NoMemory> {
    for (input, piece, put, number, written) in SESSIONS {
        let due = Expected::Writes(*number, written);
        assert!(rt; holds(rt.alloc(), input, (*piece, *put), due)?);
    }
    Ok(())
}

// Input that is longer than a session takes.
fn long_input(alloc: Global) -> Result<Text, NoMemory> {
    let mut content = Text::from_bytes(alloc, b"where\n")?;
    for _ in 0..1025 {
        content.append(&[b' '; 1024])?;
    }
    Ok(content)
}

#[test]
fn refuses_long_input(rt: HostRuntime) -> Result<(), NoMemory> {
    let content = long_input(rt.alloc())?;
    let due = Expected::Reports(b"m36: BadFile stdin S1 0 0\n", b"0 00001|000000\n");
    assert!(rt; holds(rt.alloc(), content.bytes(), (0, 0), due)?);
    Ok(())
}
