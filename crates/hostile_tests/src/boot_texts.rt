//! A folder that boots, and changes of one line of its boot text with which it is refused.

use crate::rows::{assembled, called};
use m36_outside::{MemSink, SureFolder, Text};
use m36_status::{Code, Status};
use m36_word::NoMemory;
use std::alloc::Global;

/// The lines of the boot text.
const LINES: &[&[u8]] = &[
    b"frames 24\n",
    b"work >udd>demo\n",
    b"library >sss\n",
    b"segment >udd>demo main main object re 4 4 4\n",
    b"segment >sss con_ con_ gate rep 0 0 5\n",
    b"start 4 main$start\n",
];

const TWICE: &[u8] = b"segment >udd>demo main main object re 4 4 4
segment >udd>demo main main object re 4 4 4
";

/// The index of a line, the text in its place, the code, and the line number that is reported.
type Change<'a> = (usize, &'a [u8], Code, u32);

const CHANGES: &[Change] = &[
    (0, b"frames 0\n", Code::D1, 1),
    (2, b"library >none\n", Code::D3, 3),
    (3, TWICE, Code::D2, 5),
    (4, b"segment >sss con_ con_ gate rep 0 0 0\n", Code::D4, 5),
    (5, b"", Code::D6, 6),
    (5, b"start 4 main$start", Code::D1, 6),
    (5, b"start 4 main$start\nname x\n", Code::D1, 7),
    (0, b"frames 23\n", Code::U1, 0),
];

/// The boot text with one line replaced.
fn changed(alloc: Global, place: usize, other: &[u8]) -> Result<Text, NoMemory> {
    let mut text = Text::new(alloc);
    for (number, line) in LINES.iter().enumerate() {
        if number == place {
            text.append(other)?;
        } else {
            text.append(line)?;
        }
    }
    Ok(text)
}

/// Whether the boot text is refused with this code and line.
fn is_refused(status: &Status, code: Code, line: u32) -> bool {
    match status {
        Status::BadFile(bad) => {
            bad.name.bytes() == b"boot".as_slice()
                && (bad.code, bad.at, bad.column) == (code, line, 0)
        }
        _ => false,
    }
}

/// Whether a change is refused with its code and line, and nothing is put.
fn is_reported(
    alloc: Global,
    folder: &mut SureFolder,
    (place, other, code, line): Change,
) -> Result<bool, NoMemory> {
    let text = changed(alloc, place, other)?;
    folder.add(b"boot", text.bytes())?;
    let mut out = MemSink::new(alloc, 10_000, &[])?;
    let status = called(alloc, b"run", folder, &mut out)?;
    Ok(out.bytes().is_empty() && is_refused(&status, code, line))
}

#[test]
fn changes_are_reported(rt: HostRuntime) -> Result<(), NoMemory> {
    let mut folder = assembled(rt.alloc())?;
    for change in CHANGES {
        assert!(rt;
            is_reported(rt.alloc(), &mut folder, *change)?,
            "{}",
            change.3
        );
    }
    Ok(())
}
