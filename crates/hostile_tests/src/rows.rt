//! Commands over files in memory, with all that each of them reads, writes and puts, worked out by
//! hand.

use m36_outside::{Folder, Lines, ReadAnswer, Sink, SureFolder, SureLines, SureSink, Text};
use m36_status::Status;
use m36_top::top::m36;
use m36_word::NoMemory;
use std::alloc::Global;

/// A file: its name and its content.
pub(crate) type File<'a> = (&'a [u8], &'a [u8]);

/// A command, and its expected calls and status.
pub(crate) struct Row<'a> {
    /// The words, separated by one blank each.
    pub words: &'a [u8],
    /// The files of the folder, in addition to the objects of the sources.
    pub files: &'a [File<'a>],
    /// The files that the command writes.
    pub writes: &'a [File<'a>],
    /// Its output. Each line is one piece.
    pub lines: &'a [u8],
    /// The number of files that it reads.
    pub reads: u32,
    /// The number of its status.
    pub status: u8,
}

/// A program that writes `hello` through a gate and stops through it; the gate; and two empty
/// sources.
const SOURCES: &[File] = &[
    (
        b"main.alm",
        b" entry start
start: epaq 0,ic
 lprp4 pr7|22,*au
 epp2 msg
 lda 6,dl
 stcd pr6|20
 call6 con_$write
 call6 con_$stop
msg: aci \"hell\"
 oct 157012000000
",
    ),
    (
        b"con_.alm",
        b" entry write,stop
write: tra wr
stop: dis 0
 entrybound
wr: mme 0
 rtcd pr6|20
",
    ),
    (b"e.alm", b""),
    (b"f.alm", b""),
];

/// The object of an empty source: 18 words, two of which fill nine bytes.
const EMPTY: &[u8] = &[
    0, 0, 0, 0, 0, 0, 0, 0, 0, // two words of the definition section
    0, 0, 0, 0, 0, 0, 0x20, 0, 0, // the linkage section: 000000000000 000010000000
    0, 0, 0, 0, 0, 0, 0, 0, 0, //
    0, 0, 0, 0, 0, 0, 0, 0, 0, //
    0, 0, 0, 0, 0, 0, 0, 0, 0, //
    0, 0, 0, 0, 0, 0, 0, 0, 1, // the symbol section, and the version
    0, 0, 0, 0, 0, 0, 0, 0, 2, // text and definition: 000000000000 000000000002
    0, 0, 0x80, 0, 0x80, 0, 0x28, 0, 1, // linkage and symbol: 000002000010 000012000001
    0, 0, 0, 0, 0, 0, 0x2c, 0, 0, // the entry bound and the map: 000000000000 000013000000
];

pub(crate) const LEAST: File = (
    b"least",
    b"core 1
dbr 000000000000 000000200000
start 00001 0 000000
at 00000002 000000400004 000006700000
at 00000040 000002235000 000000616000 000000000005
",
);

const HELLO: File = (
    b"boot",
    b"frames 24
work >udd>demo
library >sss
segment >udd>demo main main object re 4 4 4
segment >sss con_ con_ gate rep 0 0 5
start 4 main$start
",
);

/// The folder of `HELLO` with the gate as an object, so that its call limiter is not used.
const OPEN: File = (
    b"boot",
    b"frames 24
work >udd>demo
library >sss
segment >udd>demo main main object re 4 4 4
segment >sss con_ con_ object rep 0 0 5
start 4 main$start
",
);

const LISTS: File = (
    b"acl",
    b"segment >udd>demo main
term Jones.Demo.* null
term *.Demo.* re
segment >sss con_
term *.*.* re
",
);

/// Two processes that try to take a lock. The first gets it.
const LOCK: File = (
    b"lock",
    b"core 1
process 000000000000 000000200000 00001 4 000000
process 000000200000 000000200000 00001 4 000000
at 00000002 000000404444 000006300000 000000604444 000005300000
at 00000022 000000404444 000006300000 000000604444 000005300000
at 00000040 000004761000 000004235000 100000354100 000002710000 000002000000
turns 3 0 1
",
);

const LEAST_LINES: &[u8] = b"audit yes
1 0 00001|000000 000002235000 0:00001|000002 000000000005 000000000000 ...... next
2 0 00001|000001 000000616000 - 000000000005 000000000000 ...... dis
end dis 2
";

const TRACE_LINES: &[u8] = b"audit yes
1 4 00100|000000 000000213004 4:00100|000000 000100000004 000000000000 ...... next
2 4 00100|000001 700026764161 4:00024|000100 000100000004 000000000000 ...... next
3 4 00100|000002 000007352000 4:00100|000007 000100000004 000000000000 ...... next
4 4 00100|000003 000006235007 =000000000006 000000000006 000000000000 ...... next
5 4 00100|000004 600024357100 4:00014|000124 000000000006 000000000000 ...... next
6 4 00100|000005 400010713120 - 000000000006 000000000000 ...... fault 24
link 4 00024|002010 con_$write 000101400043 000000000000
7 4 00100|000005 400010713120 4:00101|000000 000000000006 000000000000 ...... next
8 0 00101|000000 000002710000 0:00101|000002 000000000006 000000000000 ...... next
9 0 00101|000002 000000001000 - 000000000006 000000000000 ...... fault 2
console hello\\012
10 0 00101|000003 600024610100 4:00014|000124 000000000006 000000000000 ...... next
11 4 00100|000006 400012713120 - 000000000006 000000000000 ...... fault 24
link 4 00024|002012 con_$stop 000101400043 000001000000
12 4 00100|000006 400012713120 4:00101|000001 000000000006 000000000000 ...... next
13 0 00101|000001 000000616000 - 000000000006 000000000000 ...... dis
end dis 13
";

const LOCK_LINES: &[u8] = b"audit yes
0 1 4 00001|000000 000004761000 4:00001|000004 000000000000 000000000000 ...... next
1 2 4 00001|000000 000004761000 4:00001|000004 000000000000 000000000000 ...... next
0 3 4 00001|000001 000004235000 4:00001|000004 000002000000 000000000000 ...... next
1 4 4 00001|000001 000004235000 4:00001|000004 000002000000 000000000000 ...... next
0 5 4 00001|000002 100000354100 4:00002|000000 000002000000 000000000000 z..... next
1 6 4 00001|000002 100000354100 4:00002|000000 000002000000 000000000000 ...... next
end schedule 6
";

const E_LINES: &[u8] = b"object e 18
text 000000 000000
definition 000000 000002
linkage 000002 000010
symbol 000012 000001
entrybound 000000
";

const B_LINES: &[u8] = b"object b 18
text 000000 000000
definition 000000 000002
linkage 000002 000010
symbol 000012 000001
entrybound 000000
";

/// Audits and runs.
pub(crate) const RUNS: &[Row] = &[
    Row {
        words: b"bare least",
        files: &[LEAST],
        writes: &[],
        lines: LEAST_LINES,
        reads: 1,
        status: 0,
    },
    Row {
        words: b"run",
        files: &[HELLO],
        writes: &[],
        lines: b"audit yes\nhello\nend dis 13\n",
        reads: 3,
        status: 0,
    },
    Row {
        words: b"trace",
        files: &[HELLO],
        writes: &[],
        lines: TRACE_LINES,
        reads: 3,
        status: 0,
    },
    Row {
        words: b"audit",
        files: &[OPEN],
        writes: &[],
        lines: b"audit no A5 00101\n",
        reads: 3,
        status: 5,
    },
    Row {
        words: b"procs lock",
        files: &[LOCK],
        writes: &[],
        lines: LOCK_LINES,
        reads: 1,
        status: 0,
    },
];

/// Other commands.
pub(crate) const OTHERS: &[Row] = &[
    Row {
        words: b"access Jones.Demo.a",
        files: &[HELLO, LISTS],
        writes: &[],
        lines: b">udd>demo main null Jones.Demo.*\n>sss con_ re *.*.*\n",
        reads: 2,
        status: 0,
    },
    Row {
        words: b"alm e",
        files: &[(b"e.alm", b""), (b"e", b"old")],
        writes: &[(b"e", EMPTY)],
        lines: E_LINES,
        reads: 1,
        status: 0,
    },
    Row {
        words: b"bind b",
        files: &[(b"b.bind", b"object e\nobject f\n"), (b"b", b"old")],
        writes: &[(b"b", EMPTY)],
        lines: B_LINES,
        reads: 3,
        status: 0,
    },
    Row {
        words: b"print e",
        files: &[(b"e", EMPTY)],
        writes: &[],
        lines: E_LINES,
        reads: 1,
        status: 0,
    },
];

/// The words of a command line, separated by one blank each.
fn words_of(alloc: Global, command: &[u8]) -> Result<Vec<Text>, NoMemory> {
    let mut words = Vec::new(alloc);
    for word in command.split(|byte| *byte == b' ') {
        words.push(Text::from_bytes(alloc, word)?)?;
    }
    Ok(words)
}

/// Calls a command over a folder, an input and an output.
pub(crate) fn held<F: Folder, L: Lines, S: Sink>(
    alloc: Global,
    command: &[u8],
    folder: &mut F,
    lines: &mut L,
    out: &mut S,
) -> Result<Status, NoMemory> {
    let words = words_of(alloc, command)?;
    Ok(m36(alloc, words.as_slice(), folder, lines, out))
}

/// Calls a command over a folder and an output, with an empty input.
pub(crate) fn called<F: Folder, S: Sink>(
    alloc: Global,
    command: &[u8],
    folder: &mut F,
    out: &mut S,
) -> Result<Status, NoMemory> {
    let mut lines = SureLines::new(alloc, &[])?;
    held(alloc, command, folder, &mut lines, out)
}

/// Whether a folder has a file of this name and content.
pub(crate) fn is_there<F: Folder>(
    alloc: Global,
    folder: &mut F,
    name: &[u8],
    content: &[u8],
) -> bool {
    match folder.read(alloc, name) {
        ReadAnswer::Read(text) => text.bytes() == content,
        _ => false,
    }
}

const ASSEMBLIES: &[&[u8]] = &[b"alm main", b"alm con_", b"alm e", b"alm f"];

/// The names of the objects.
pub(crate) const OBJECTS: &[&[u8]] = &[b"main", b"con_", b"e", b"f"];

/// A folder with the sources and their objects.
pub(crate) fn assembled(alloc: Global) -> Result<SureFolder, NoMemory> {
    let mut folder = SureFolder::new(alloc)?;
    assemble(alloc, &mut folder)?;
    Ok(folder)
}

fn assemble(alloc: Global, folder: &mut SureFolder) -> Result<(), NoMemory> {
    for (name, content) in SOURCES {
        folder.add(name, content)?;
    }
    for command in ASSEMBLIES {
        let _ = called(alloc, command, folder, &mut SureSink::new())?;
    }
    Ok(())
}
