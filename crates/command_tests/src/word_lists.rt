//! Command lines that are accepted, and others that are not (status 1).

use crate::calls::LEAST;
use crate::memory::{Expected, SURE, World, comes_with, words_come_to};
use m36_word::NoMemory;
use std::alloc::Global;

/// The words of a command, separated by one blank each, the number of the status, and the length of
/// the output in bytes.
type Asked<'a> = (&'a [u8], u8, usize);

/// Runs of a bare image.
const IMAGES: &[Asked] = &[
    (b"bare f", 0, 172),
    (b"bare ABCDEFGHIJKLMNOPQRSTUVWXYZ_.0123", 4, 0),
    (b"bare a.z_9", 4, 0),
    (b"bare f --steps 0", 7, 22),
    (b"bare --steps=1 f", 7, 105),
    (b"bare --steps 2 f", 0, 172),
    (b"bare f --steps=10000000", 0, 172),
    (b"bare f --steps=00000001", 7, 105),
    (b"bare --unaudited f --steps=0", 7, 22),
    (b"bare -- f", 0, 172),
    (b"bare f --", 0, 172),
    (b"bare --steps=0 -- f", 7, 22),
    (b"bare", 1, 0),
    (b"Bare f", 1, 0),
    (b"bare ", 1, 0),
    (b"bare .f", 1, 0),
    (b"bare f/g", 1, 0),
    (b"bare f\xff", 1, 0),
    (b"bare --help", 1, 0),
    (b"bare f f", 1, 0),
    (b"bare ABCDEFGHIJKLMNOPQRSTUVWXYZ_.01234", 1, 0),
    (b"bare f --steps", 1, 0),
    (b"bare f --steps ", 1, 0),
    (b"bare f --steps=", 1, 0),
    (b"bare f --steps=-1", 1, 0),
    (b"bare f --steps 10000001", 1, 0),
    (b"bare f --steps=000000001", 1, 0),
    (b"bare f --steps=1 --steps 1", 1, 0),
    (b"bare f --step 1", 1, 0),
    (b"bare --steps -- f", 1, 0),
    (b"bare --steps f", 1, 0),
    (b"bare f --unaudited --unaudited", 1, 0),
    (b"bare f --unaudited=1", 1, 0),
    (b"bare -- -- f", 1, 0),
    (b"bare f -- --unaudited", 1, 0),
    (b"bare f --user=A.B.c", 1, 0),
];

/// Commands over a file, and some over a folder.
const FILES: &[Asked] = &[
    (b"audit f", 0, 10),
    (b"audit -- f", 0, 10),
    (b"audit none", 4, 0),
    (b"procs f --unaudited", 4, 0),
    (b"procs f --steps 1", 1, 0),
    (b"debug f", 0, 0),
    (b"debug -- f", 0, 0),
    (b"debug", 4, 0),
    (b"debug f f", 1, 0),
    (b"debug f --unaudited", 1, 0),
    (b"debug f --steps=1", 1, 0),
    (b"print f", 4, 0),
    (b"print -- none", 4, 0),
    (b"audit", 4, 0),
    (b"audit --", 4, 0),
    (b"audit --unaudited", 1, 0),
    (b"audit --user A.B.c", 4, 0),
    (b"audit f --user A.B.c", 1, 0),
    (b"print", 1, 0),
    (b"print f --unaudited", 1, 0),
    (b"print f f", 1, 0),
    (b"audit f --unaudited", 1, 0),
    (b"audit --steps 1 f", 1, 0),
    (b"audit f f", 1, 0),
];

/// Other commands, and words that are no command.
const OTHERS: &[Asked] = &[
    (b"make", 1, 0),
    (b"make f", 1, 0),
    (b"make 1 1", 1, 0),
    (b"make 1234567890123456789", 1, 0),
    (b"make 0000000000000000001", 1, 0),
    (b"make 1 --steps=1", 1, 0),
    (b"make 1 --unaudited", 1, 0),
    (b"make A.B.c --user=A.B.c", 1, 0),
    (b"  ", 1, 0),
    (b"run run", 1, 0),
    (b"f", 1, 0),
    (b"f bare", 1, 0),
    (b"--unaudited bare f", 1, 0),
    (b"run", 4, 0),
    (b"trace --steps 0 --unaudited", 4, 0),
    (b"trace f", 1, 0),
    (b"run --user a", 1, 0),
    (b"run --user A.B.c", 4, 0),
    (b"run --user=A.B.c --steps 1", 4, 0),
    (b"trace --user --unaudited", 1, 0),
    (b"trace --user= A.B.c", 1, 0),
    (b"run --user=A.B.C", 1, 0),
    (b"run --user=A.B.c --user=A.B.c", 1, 0),
    (b"access A.B.c", 4, 0),
    (b"access -- A.B.c", 4, 0),
    (b"access f", 1, 0),
    (b"access", 1, 0),
    (b"access A.B.c --user=A.B.c", 1, 0),
    (b"alm f", 4, 0),
    (b"alm ABCDEFGHIJKLMNOPQRSTUVWXYZ_", 4, 0),
    (b"alm ABCDEFGHIJKLMNOPQRSTUVWXYZ_.", 1, 0),
    (b"alm", 1, 0),
    (b"alm f --unaudited", 1, 0),
    (b"bind ABCDEFGHIJKLMNOPQRSTUVWXYZ_", 4, 0),
    (b"bind ABCDEFGHIJKLMNOPQRSTUVWXYZ_.", 1, 0),
    (b"-- bare f", 1, 0),
];

// Whether a command has this result over a folder with the least image as the file `f`.
fn answers(alloc: Global, (command, number, written): Asked) -> Result<bool, NoMemory> {
    let due = Expected::Length(number, written);
    comes_with(alloc, command, (b"f", LEAST), SURE, due)
}

#[test]
fn words_of_images(rt: HostRuntime) -> Result<(), NoMemory> {
    for row in IMAGES {
        assert!(rt; answers(rt.alloc(), *row)?, "{:?}", row.0);
    }
    Ok(())
}

#[test]
fn words_of_files(rt: HostRuntime) -> Result<(), NoMemory> {
    for row in FILES {
        assert!(rt; answers(rt.alloc(), *row)?, "{:?}", row.0);
    }
    Ok(())
}

#[test]
fn other_words(rt: HostRuntime) -> Result<(), NoMemory> {
    for row in OTHERS {
        assert!(rt; answers(rt.alloc(), *row)?, "{:?}", row.0);
    }
    Ok(())
}

#[test]
fn no_words(rt: HostRuntime) -> Result<(), NoMemory> {
    let world = World {
        files: &[(b"f", LEAST)],
        before: &[],
        input: b"",
        failing: SURE,
    };
    assert!(rt; words_come_to(rt.alloc(), &[], &world, Expected::Length(1, 0))?);
    Ok(())
}
