//! Booted folders: their runs and traces, and what commands print of their sources.

use crate::memory::{Expected, World, gives};
use m36_word::NoMemory;
use std::alloc::Global;

/// Writes `hello` through a gate, and stops through the same gate.
const MAIN: &[u8] = b" entry start
start: epaq 0,ic
 lprp4 pr7|22,*au
 epp2 msg
 lda 6,dl
 stcd pr6|20
 call6 con_$write
 call6 con_$stop
msg: aci \"hell\"
 oct 157012000000
";

const CON: &[u8] = b" entry write,stop
write: tra wr
stop: dis 0
 entrybound
wr: mme 0
 rtcd pr6|20
";

/// Overwrites the odd word of a link before the link is snapped, then refers through a word that
/// looks like a link and is none.
const CHANGES: &[u8] = b" entry start
start: stz pr4|9
 lda con_$stop
 lda fake,*
fake: oct 46
";

const HELLO: &[u8] = b"frames 24
work >udd>demo
library >sss
segment >udd>demo main main object re 4 4 4
segment >sss con_ con_ gate rep 0 0 5
start 4 main$start
";

const OPEN: &[u8] = b"frames 24
work >udd>demo
library >sss
segment >udd>demo main main object re 4 4 4
segment >sss con_ con_ object rep 0 0 5
start 4 main$start
";

/// The folder of `HELLO` with enough core for all its pages.
const WIDE: &[u8] = b"frames 400
work >udd>demo
library >sss
segment >udd>demo main main object re 4 4 4
segment >sss con_ con_ gate rep 0 0 5
start 4 main$start
";

const FEW: &[u8] = b"frames 23
work >udd>demo
library >sss
segment >udd>demo main main object re 4 4 4
segment >sss con_ con_ gate rep 0 0 5
start 4 main$start
";

/// The folder of `HELLO`, but the directory of the caller has another `con_` without an entry
/// `write`.
const OTHER: &[u8] = b"frames 24
work >udd>demo
library >sss
segment >udd>demo main main object re 4 4 4
segment >udd>demo con_ changes object re 4 4 4
segment >sss con_ con_ gate rep 0 0 5
start 4 main$start
";

const NONE: &[u8] = b"frames 24
work >udd>demo
segment >udd>demo main main object re 4 4 4
start 4 main$start
";

const CHANGED: &[u8] = b"frames 24
work >udd>demo
segment >udd>demo main changes object re 4 4 4
segment >udd>demo con_ con_ object re 4 4 4
start 4 main$start
";

const TRACE: &[u8] = b"audit yes
1 4 00100|000000 000000213004 4:00100|000000 000100000004 000000000000 ...... next
2 4 00100|000001 700026764161 4:00024|000100 000100000004 000000000000 ...... next
3 4 00100|000002 000007352000 4:00100|000007 000100000004 000000000000 ...... next
4 4 00100|000003 000006235007 =000000000006 000000000006 000000000000 ...... next
5 4 00100|000004 600024357100 4:00014|000124 000000000006 000000000000 ...... next
6 4 00100|000005 400010713120 - 000000000006 000000000000 ...... fault 24
link 4 00024|002010 con_$write 000101400043 000000000000
7 4 00100|000005 400010713120 4:00101|000000 000000000006 000000000000 ...... next
8 0 00101|000000 000002710000 0:00101|000002 000000000006 000000000000 ...... next
9 0 00101|000002 000000001000 - 000000000006 000000000000 ...... fault 2
console hello\\012
10 0 00101|000003 600024610100 4:00014|000124 000000000006 000000000000 ...... next
11 4 00100|000006 400012713120 - 000000000006 000000000000 ...... fault 24
link 4 00024|002012 con_$stop 000101400043 000001000000
12 4 00100|000006 400012713120 4:00101|000001 000000000006 000000000000 ...... next
13 0 00101|000001 000000616000 - 000000000006 000000000000 ...... dis
end dis 13
";

const CHANGED_TRACE: &[u8] = b"audit yes
1 4 00100|000000 400011450100 4:00024|002011 000000000000 000000000000 ...... next
2 4 00100|000001 400010235120 - 000000000000 000000000000 ...... fault 24
link 4 00024|002010 con_$stop 000101400043 000001000000
3 4 00100|000001 400010235120 4:00101|000001 000000616000 000000000000 ...... next
4 4 00100|000002 000003235020 - 000000616000 000000000000 ...... fault 24
link 4 00100|000003 ? L1
end link L1 4
";

/// Writes `ok` in ring 0, and stops.
const ONE: &[u8] = b" entry start
start: epp2 msg
 lda 3,dl
 mme 0
 dis 0
msg: oct 157153012000
";

const ONE_BOOT: &[u8] = b"frames 2177
work >t
segment >t one one object rep 0 0 0
start 0 one$start
";

const ONE_TRACE: &[u8] = b"audit yes
1 0 00100|000000 000004352000 0:00100|000004 000000000000 000000000000 ...... next
2 0 00100|000001 000003235007 =000000000003 000000000003 000000000000 ...... next
3 0 00100|000002 000000001000 - 000000000003 000000000000 ...... fault 2
console ok\\012
4 0 00100|000003 000000616000 - 000000000003 000000000000 ...... dis
end dis 4
";

/// The definition section has six words: two of its own, two of the definition of `start`, and two
/// of its name. The symbol section has one relocation, of the address of `msg`.
const ONE_PRINT: &[u8] = b"object one 28
text 000000 000005
definition 000005 000006
linkage 000013 000010
symbol 000023 000002
entrybound 000000
def start text 000000 entry
000000 000004352000 epp2 4
000001 000003235007 lda 3,dl
000002 000000001000 mme 0
000003 000000616000 dis 0
000004 157153012000 oct 157153012000
";

/// A static word in the linkage section, and a link after it.
const COUNT: &[u8] = b" use link
cnt: dec 5
 use text
 entry go
go: aos pr4|cnt
 lda b$x
";

const COUNT_LISTING: &[u8] = b"text 000000 400010054100 5
text 000001 400012235120 6
link 000010 000000000005 2
object m 33
text 000000 000002
definition 000002 000011
linkage 000013 000014
symbol 000027 000003
entrybound 000000
def go text 000000 entry
link 000012 b$x 000000 00
000000 400010054100 aos pr4|8
000001 400012235120 lda pr4|10,*
";

const BIND: &[u8] = b"version 2\nobject m\nretain go\n";

/// The bound object has version 2: the link comes first, and the two static words are in the static
/// section.
const BOUND: &[u8] = b"object c 34
text 000000 000002
definition 000002 000011
linkage 000013 000012
static 000025 000002
symbol 000027 000003
entrybound 000000
def go text 000000 entry
link 000010 b$x 000000 00
000000 400012054100 aos pr4|10
000001 400010235120 lda pr4|8,*
";

/// A source with one link, to its own static words.
const OWN: &[u8] = b" use static
 dec 5
 use text
 entry go
go: lda *static$
 dis 0
";

const OWN_BOOT: &[u8] = b"frames 24
work >t
segment >t own own object re 4 4 4
start 4 own$go
";

/// In memory the static words follow the linkage section of ten words.
const OWN_TRACE: &[u8] = b"audit yes
1 4 00100|000000 400010235120 - 000000000000 000000000000 ...... fault 24
link 4 00024|002010 *static$ 000024400043 002012000000
2 4 00100|000000 400010235120 4:00024|002012 000000000005 000000000000 ...... next
3 4 00100|000001 000000616000 - 000000000005 000000000000 ...... fault 10
end fault 10 3
";

const ASSEMBLIES: &[&[u8]] = &[
    b"alm main",
    b"alm con_",
    b"alm changes",
    b"alm one",
    b"alm m",
    b"alm own",
];

// Whether a command gives the expected result over a folder with a boot text and these sources,
// which are assembled first. `read` and `put` are the numbers of the read and the put that fail (0
// for none). The six assemblies each make a read, so the boot text is the seventh file that is
// read.
fn command_comes_to(
    alloc: Global,
    boot: &[u8],
    command: &[u8],
    (read, put): (u32, u32),
    due: Expected,
) -> Result<bool, NoMemory> {
    let world = World {
        files: &[
            (b"boot", boot),
            (b"main.alm", MAIN),
            (b"con_.alm", CON),
            (b"changes.alm", CHANGES),
            (b"one.alm", ONE),
            (b"m.alm", COUNT),
            (b"c.bind", BIND),
            (b"own.alm", OWN),
        ],
        before: ASSEMBLIES,
        input: b"",
        failing: (read, 0, put, 0),
    };
    gives(alloc, command, &world, due)
}

/// The boot text, the command, the number of the status, and the output.
type Row<'a> = (&'a [u8], &'a [u8], u8, &'a [u8]);

const BOOTS: &[Row] = &[
    (HELLO, b"run", 0, b"audit yes\nhello\nend dis 13\n"),
    (HELLO, b"trace", 0, TRACE),
    (WIDE, b"trace", 0, TRACE),
    (HELLO, b"audit", 0, b"audit yes\n"),
    (HELLO, b"run --steps 0", 7, b"audit yes\nend limit 0\n"),
    (
        HELLO,
        b"run --steps=9",
        7,
        b"audit yes\nhello\nend limit 9\n",
    ),
    (OPEN, b"run", 5, b"audit no A5 00101\n"),
    (FEW, b"run", 4, b""),
    (OTHER, b"run", 6, b"audit yes\nend link L3 6\n"),
    (NONE, b"run", 6, b"audit yes\nend link L2 6\n"),
    (
        OPEN,
        b"run --unaudited",
        0,
        b"audit no A5 00101\nhello\nend dis 13\n",
    ),
    (CHANGED, b"trace", 6, CHANGED_TRACE),
];

#[test]
fn boots_folders(rt: HostRuntime) -> Result<(), NoMemory> {
    for (boot, command, number, output) in BOOTS {
        let due = Expected::Writes(*number, output);
        assert!(rt;
            command_comes_to(rt.alloc(), boot, command, (0, 0), due)?,
            "{command:?}"
        );
    }
    Ok(())
}

/// Commands over the sources, with their whole output.
const SOURCES: &[Row] = &[
    (ONE_BOOT, b"run", 0, b"audit yes\nok\nend dis 4\n"),
    (ONE_BOOT, b"trace", 0, ONE_TRACE),
    (ONE_BOOT, b"print one", 0, ONE_PRINT),
    (HELLO, b"alm m", 0, COUNT_LISTING),
    (HELLO, b"bind c", 0, BOUND),
    (OWN_BOOT, b"trace", 6, OWN_TRACE),
];

#[test]
fn writes_of_sources(rt: HostRuntime) -> Result<(), NoMemory> {
    for (boot, command, number, output) in SOURCES {
        let due = Expected::Writes(*number, output);
        assert!(rt;
            command_comes_to(rt.alloc(), boot, command, (0, 0), due)?,
            "{command:?}"
        );
    }
    Ok(())
}

/// The numbers of the read and the put of a run that fail (0 for none), the number of the status,
/// and the length of the output in bytes. Read 8 is the second of the run.
const FAULTS: &[(u32, u32, u8, usize)] = &[
    (8, 0, 2, 0),
    (0, 1, 3, 0),
    (0, 2, 3, 10),
    (0, 3, 3, 16),
];

#[test]
fn tells_faults_of_folders(rt: HostRuntime) -> Result<(), NoMemory> {
    for (read, put, number, length) in FAULTS {
        let due = Expected::Length(*number, *length);
        assert!(rt;
            command_comes_to(rt.alloc(), HELLO, b"run", (*read, *put), due)?,
            "at {read} {put}"
        );
    }
    Ok(())
}
