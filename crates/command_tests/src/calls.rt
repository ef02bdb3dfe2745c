//! Commands over one file: images, processes, objects, sources and bind files, with their output,
//! their refusals and failing calls.

use crate::memory::{Expected, File, Place, SURE, comes_with};
use m36_status::Code;
use m36_word::NoMemory;
use std::alloc::Global;

/// An image that loads the number 5 and stops.
pub(crate) const LEAST: &[u8] = b"core 1
dbr 000000000000 000000200000
start 00001 0 000000
at 00000002 000000400004 000006700000
at 00000040 000002235000 000000616000 000000000005
";

const LEAST_OUTPUT: &[u8] = b"audit yes
1 0 00001|000000 000002235000 0:00001|000002 000000000005 000000000000 ...... next
2 0 00001|000001 000000616000 - 000000000005 000000000000 ...... dis
end dis 2
";

/// An image with a paged segment, which stores a zero in it.
const PAGED: &[u8] = b"core 2
dbr 000000000000 000000200000
start 00001 0 000000
at 00000002 000001000004 000007500000
at 00000100 000020000004
at 00002000 000002755000 000000616000
";

const PAGED_OUTPUT: &[u8] = b"audit yes
1 0 00001|000000 000002755000 0:00001|000002 000000000000 000000000000 ...... next
2 0 00001|000001 000000616000 - 000000000000 000000000000 ...... dis
end dis 2
";

/// An image whose only instruction transfers to itself.
const ENDLESS: &[u8] = b"core 1
dbr 000000000000 000000200000
start 00001 0 000000
at 00000002 000000400004 000006700000
at 00000040 000000710000
";

/// An image whose segment 2 is on the page table of segment 1.
const LAID: &[u8] = b"core 3
dbr 000000000000 000000200000
start 00001 4 000000
at 00000002 000001004444 000005100000 000001007774 000005300000
at 00000100 000040000004
";

const LAID_OUTPUT: &[u8] = b"audit no A3 00000100
1 4 00001|000000 - - 000000000000 000000000000 ...... fault 20.2
end fault 20.2 1
";

/// An image in which the page table of segment 1 is a word of a descriptor.
const SHARED_TABLE: &[u8] = b"core 3
dbr 000000000000 000000200000
start 00001 4 000000
at 00000002 000000104444 000005100000
at 00000010 000040000000
";

/// An image in which two segments share a page.
const SHARED_PAGE: &[u8] = b"core 3
dbr 000000000000 000000200000
start 00001 4 000000
at 00000002 000001004444 000005100000 000001014444 000005100000
at 00000100 000040000004 000040000004
";

/// An image that breaks three conditions: segment 1 has brackets out of order; segment 2 may be
/// called from outer rings at every word; and there is no stack for such calls.
const SEGMENTS: &[u8] = b"core 1
dbr 000000000000 000000200000
start 00001 4 000000
at 00000002 000000405444 000005300000 000000400054 000003300000
";

const SEGMENTS_OUTPUT: &[u8] = b"audit no A1 00001\naudit no A5 00002\naudit no A6 00002\n";

/// Two processes that try to take a lock. The first gets it.
const LOCK: &[u8] = b"core 1
process 000000000000 000000200000 00001 4 000000
process 000000200000 000000200000 00001 4 000000
at 00000002 000000404444 000006300000 000000604444 000005300000
at 00000022 000000404444 000006300000 000000604444 000005300000
at 00000040 000004761000 000004235000 100000354100 000002710000 000002000000
turns 3 0 1
";

const LOCK_OUTPUT: &[u8] = b"audit yes
0 1 4 00001|000000 000004761000 4:00001|000004 000000000000 000000000000 ...... next
1 2 4 00001|000000 000004761000 4:00001|000004 000000000000 000000000000 ...... next
0 3 4 00001|000001 000004235000 4:00001|000004 000002000000 000000000000 ...... next
1 4 4 00001|000001 000004235000 4:00001|000004 000002000000 000000000000 ...... next
0 5 4 00001|000002 100000354100 4:00002|000000 000002000000 000000000000 z..... next
1 6 4 00001|000002 100000354100 4:00002|000000 000002000000 000000000000 ...... next
end schedule 6
";

/// As `LOCK`, but segment 2 of the second process has other brackets.
const LOOSE: &[u8] = b"core 1
process 000000000000 000000200000 00001 4 000000
process 000000200000 000000200000 00001 4 000000
at 00000002 000000404444 000006300000 000000604444 000005300000
at 00000022 000000404444 000006300000 000000604554 000005300000
at 00000040 000004761000 000004235000 100000354100 000002710000 000002000000
turns 3 0 1
";

/// As `LOCK`, but the schedule names a process that does not exist.
const NO_PROCESS: &[u8] = b"core 1
process 000000000000 000000200000 00001 4 000000
process 000000200000 000000200000 00001 4 000000
at 00000002 000000404444 000006300000 000000604444 000005300000
at 00000022 000000404444 000006300000 000000604444 000005300000
at 00000040 000004761000 000004235000 100000354100 000002710000 000002000000
turns 3 0 2
";

/// The object of an empty source: 18 words, two of which fill nine bytes.
const EMPTY: &[u8] = &[
    0, 0, 0, 0, 0, 0, 0, 0, 0, // two words of the definition section
    0, 0, 0, 0, 0, 0, 0x20, 0, 0, // the linkage section: 000000000000 000010000000
    0, 0, 0, 0, 0, 0, 0, 0, 0, //
    0, 0, 0, 0, 0, 0, 0, 0, 0, //
    0, 0, 0, 0, 0, 0, 0, 0, 0, //
    0, 0, 0, 0, 0, 0, 0, 0, 1, // the symbol section, and the version
    0, 0, 0, 0, 0, 0, 0, 0, 2, // text and definition: 000000000000 000000000002
    0, 0, 0x80, 0, 0x80, 0, 0x28, 0, 1, // linkage and symbol: 000002000010 000012000001
    0, 0, 0, 0, 0, 0, 0x2c, 0, 0, // the entry bound and the map: 000000000000 000013000000
];

const EMPTY_PRINT: &[u8] = b"object e 18
text 000000 000000
definition 000000 000002
linkage 000002 000010
symbol 000012 000001
entrybound 000000
";

/// A command, the content of the file `f`, the number of the status, and the output.
const IMAGES: &[(&[u8], &[u8], u8, &[u8])] = &[
    (b"bare f", LEAST, 0, LEAST_OUTPUT),
    (b"bare f", PAGED, 0, PAGED_OUTPUT),
    (b"bare f", LAID, 5, b"audit no A3 00000100\n"),
    (b"bare f --unaudited", LAID, 6, LAID_OUTPUT),
    (b"audit f", LEAST, 0, b"audit yes\n"),
    (b"audit f", LAID, 5, b"audit no A3 00000100\n"),
    (b"audit f", SHARED_TABLE, 5, b"audit no A2 00000010\n"),
    (b"audit f", SHARED_PAGE, 5, b"audit no A4 00004000\n"),
    (b"audit f", SEGMENTS, 5, SEGMENTS_OUTPUT),
    (b"procs f", LOCK, 0, LOCK_OUTPUT),
    (b"procs f", LOOSE, 5, b"audit no J3 00000060\n"),
];

#[test]
fn writes_outputs(rt: HostRuntime) -> Result<(), NoMemory> {
    for (command, image, number, output) in IMAGES {
        let due = Expected::Writes(*number, output);
        assert!(rt;
            comes_with(rt.alloc(), command, (b"f", image), SURE, due)?,
            "{command:?}"
        );
    }
    Ok(())
}

/// A command that prints the object `e`, and the only file of the folder.
const PRINTS: &[(&[u8], File)] = &[(b"print e", (b"e", EMPTY)), (b"alm e", (b"e.alm", b""))];

#[test]
fn writes_prints(rt: HostRuntime) -> Result<(), NoMemory> {
    for (command, file) in PRINTS {
        let due = Expected::Writes(0, EMPTY_PRINT);
        assert!(rt;
            comes_with(rt.alloc(), command, *file, SURE, due)?,
            "{command:?}"
        );
    }
    Ok(())
}

const LIMIT_BEGIN: &[u8] = b"audit yes\n1 0 00001|000000 000000710000 0:00001|000000 ";

#[test]
fn ends_at_the_limit(rt: HostRuntime) -> Result<(), NoMemory> {
    let due = Expected::Begins(7, LIMIT_BEGIN, b"\nend limit 100000\n");
    assert!(rt; comes_with(rt.alloc(), b"bare f", (b"f", ENDLESS), SURE, due)?);
    Ok(())
}

/// A command that refuses the file `f`, the only file of the folder, and the reason.
const IMAGES_REFUSED: &[(&[u8], File, Place)] = &[
    (b"bare f", (b"e", LEAST), (Code::F1, 0, 0)),
    (b"audit f", (b"f", b"core 0\n"), (Code::I2, 1, 0)),
    (b"bare f", (b"f", b"core 1\n"), (Code::I1, 2, 0)),
    (b"procs f", (b"f", NO_PROCESS), (Code::P2, 7, 0)),
    (b"procs f", (b"f", b"core 1\n"), (Code::P1, 2, 0)),
];

/// The content of `e`, and the reason for which `print e` refuses it.
const PRINTS_REFUSED: &[(&[u8], Place)] = &[
    (b"", (Code::O1, 0, 0)),
    (b"\0\0\0\0\x10", (Code::O1, 1, 0)),
    (b"\0\0\0\0\x11", (Code::T4, 4, 0)),
    (b"\0\0\0\0\0\0", (Code::T3, 6, 0)),
];

/// The only file of a folder, and the reason for which `alm e` refuses `e.alm`.
const SOURCES_REFUSED: &[(File, Place)] = &[
    ((b"e.alm", b"a: nop 0\na: nop 0\n"), (Code::E5, 2, 1)),
    ((b"e.alm", b" lda b\n"), (Code::E6, 1, 6)),
    ((b"e.alm", b" nop 0\n nup 0\n"), (Code::E3, 2, 2)),
    ((b"e", b""), (Code::F1, 0, 0)),
];

/// The only file of a folder, the file that `bind e` refuses, and the reason.
const BINDS_REFUSED: &[(File, &[u8], Place)] = &[
    ((b"e", b""), b"e.bind", (Code::F1, 0, 0)),
    ((b"e.bind", b"object e\nobject e\n"), b"e", (Code::F1, 0, 0)),
    (
        (b"e.bind", b"object e\nversion 2\n"),
        b"e.bind",
        (Code::B1, 2, 0),
    ),
];

#[test]
fn refuses_images(rt: HostRuntime) -> Result<(), NoMemory> {
    for (command, file, place) in IMAGES_REFUSED {
        let due = Expected::Refuses(b"f", *place);
        assert!(rt;
            comes_with(rt.alloc(), command, *file, SURE, due)?,
            "{command:?}"
        );
    }
    Ok(())
}

#[test]
fn refuses_prints(rt: HostRuntime) -> Result<(), NoMemory> {
    for (content, place) in PRINTS_REFUSED {
        let due = Expected::Refuses(b"e", *place);
        assert!(rt;
            comes_with(rt.alloc(), b"print e", (b"e", content), SURE, due)?,
            "{content:?}"
        );
    }
    Ok(())
}

#[test]
fn refuses_sources(rt: HostRuntime) -> Result<(), NoMemory> {
    for (file, place) in SOURCES_REFUSED {
        let due = Expected::Refuses(b"e.alm", *place);
        assert!(rt;
            comes_with(rt.alloc(), b"alm e", *file, SURE, due)?,
            "{:?}",
            file.1
        );
    }
    Ok(())
}

#[test]
fn refuses_binds(rt: HostRuntime) -> Result<(), NoMemory> {
    for (file, name, place) in BINDS_REFUSED {
        let due = Expected::Refuses(name, *place);
        assert!(rt;
            comes_with(rt.alloc(), b"bind e", *file, SURE, due)?,
            "{:?}",
            file.1
        );
    }
    Ok(())
}

/// The least length in bytes of a file that is too large, its repeated byte, the command, the
/// file's name, and the code.
const LARGE: &[(usize, u8, &[u8], &[u8], Code)] = &[
    (16_777_217, b'0', b"bare f", b"f", Code::F2),
    (1_179_653, 0, b"print e", b"e", Code::F3),
];

// Whether a command refuses a file of `length` equal bytes with this code.
fn is_too_large(
    alloc: Global,
    (length, byte): (usize, u8),
    command: &[u8],
    name: &[u8],
    code: Code,
) -> Result<bool, NoMemory> {
    let large = vec![in alloc; byte; length]?;
    let due = Expected::Refuses(name, (code, 0, 0));
    comes_with(alloc, command, (name, large.as_slice()), SURE, due)
}

#[test]
fn refuses_large_files(rt: HostRuntime) -> Result<(), NoMemory> {
    for (length, byte, command, name, code) in LARGE {
        assert!(rt;
            is_too_large(rt.alloc(), (*length, *byte), command, name, *code)?,
            "{command:?}"
        );
    }
    Ok(())
}

/// A command, the only file of the folder, the numbers of the read, the write and the put that fail
/// (0 for none), the number of the status, the length of the output in bytes, and whether the
/// folder has the object `e` afterwards.
type Faulty<'a> = (&'a [u8], File<'a>, (u32, u32, u32), u8, usize, bool);

const FAULTS: &[Faulty] = &[
    (b"bare f", (b"f", LEAST), (1, 0, 0), 2, 0, false),
    (b"print e", (b"e", EMPTY), (1, 0, 0), 2, 0, true),
    (b"alm e", (b"e.alm", b""), (1, 0, 0), 2, 0, false),
    (b"alm e", (b"e.alm", b""), (0, 1, 0), 3, 0, false),
    (b"alm e", (b"e.alm", b""), (0, 0, 1), 3, 0, true),
    (b"alm e", (b"e.alm", b""), (0, 0, 3), 3, 31, true),
    (b"print e", (b"e", EMPTY), (0, 0, 6), 3, 99, true),
    (b"bare f", (b"f", LEAST), (0, 0, 1), 3, 0, false),
    (b"bare f", (b"f", LEAST), (0, 0, 2), 3, 10, false),
    (b"bare f", (b"f", LEAST), (0, 0, 3), 3, 93, false),
    (b"bare f", (b"f", LEAST), (0, 0, 4), 3, 162, false),
    (b"audit f", (b"f", SEGMENTS), (0, 0, 2), 3, 18, false),
];

#[test]
fn tells_faults(rt: HostRuntime) -> Result<(), NoMemory> {
    for (command, file, (read, write, put), number, length, is_there) in FAULTS {
        let due = Expected::Leaves(*number, *length, (b"e", EMPTY), *is_there);
        assert!(rt;
            comes_with(rt.alloc(), command, *file, (*read, *write, *put, 0), due)?,
            "{command:?}"
        );
    }
    Ok(())
}
