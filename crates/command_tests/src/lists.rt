//! Folders with access lists.

use crate::memory::{Expected, SURE, World, gives};
use m36_word::NoMemory;
use std::alloc::Global;

/// A program that stops at once.
const MAIN: &[u8] = b" entry start
start: dis 0
";

/// A program that writes into another segment.
const GO: &[u8] = b" entry go
go: stz dat$
";

const BOOT: &[u8] = b"frames 24
work >udd>demo
library >sss
segment >udd>demo main main object re 4 4 4
segment >sss dat dat data rw 4 4 4
start 4 main$start
";

const LISTS: &[u8] = b"segment >udd>demo main
term Jones.Demo.* null
term *.Demo.* re
segment >sss dat
term *.*.* rw
";

const TWO: &[u8] = b"frames 24
work >t
segment >t go go object re 4 4 4
segment >t dat dat data rw 4 4 4
start 4 go$go
";

const READ_ONLY: &[u8] = b"segment >t go
term *.*.* re
segment >t dat
term *.*.* r
";

/// Access lists with a segment that is not in the catalog.
const UNKNOWN: &[u8] = b"segment >t other
segment >t go
";

/// Access lists with a wrong line after such a segment.
const WRONG: &[u8] = b"segment >t other
segment
";

const ASSEMBLIES: &[&[u8]] = &[b"alm main", b"alm go"];

// Whether a command gives the expected result over a folder with the assembled sources, a boot text
// and access lists.
fn says<'a>(
    alloc: Global,
    (boot, lists): (&'a [u8], &'a [u8]),
    command: &[u8],
    due: Expected,
) -> Result<bool, NoMemory> {
    let world = World {
        files: &[
            (b"main.alm", MAIN),
            (b"go.alm", GO),
            (b"dat", &[0; 9]),
            (b"boot", boot),
            (b"acl", lists),
        ],
        before: ASSEMBLIES,
        input: b"",
        failing: SURE,
    };
    gives(alloc, command, &world, due)
}

/// The boot text and the access lists, the command, the number of the status, and the output.
const RIGHTS: &[((&[u8], &[u8]), &[u8], u8, &[u8])] = &[
    (
        (BOOT, LISTS),
        b"access Jones.Demo.a",
        0,
        b">udd>demo main null Jones.Demo.*\n>sss dat rw *.*.*\n",
    ),
    (
        (BOOT, LISTS),
        b"access Ann.Other.a",
        0,
        b">udd>demo main null none\n>sss dat rw *.*.*\n",
    ),
    (
        (BOOT, LISTS),
        b"audit --user=Smith.Demo.a",
        0,
        b"audit yes\n",
    ),
    ((BOOT, LISTS), b"run --user Jones.Demo.a", 4, b""),
    (
        (TWO, READ_ONLY),
        b"run --user A.B.c",
        6,
        b"audit yes\nend fault 20.6 2\ndenied >t dat *.*.*\n",
    ),
    ((TWO, UNKNOWN), b"access A.B.c", 4, b""),
    ((TWO, WRONG), b"run --user=A.B.c", 4, b""),
];

#[test]
fn gives_rights_by_lists(rt: HostRuntime) -> Result<(), NoMemory> {
    for (texts, command, number, output) in RIGHTS {
        let due = Expected::Writes(*number, output);
        assert!(rt; says(rt.alloc(), *texts, command, due)?, "{command:?}");
    }
    Ok(())
}
