//! The command `make`. Expected lines, counts and lengths are those of another program.

use crate::memory::{has_file, words};
use m36_outside::{Folder, MemFolder, MemSink, ReadAnswer, SureLines, Text};
use m36_text::decimal;
use m36_top::top::m36;
use m36_word::NoMemory;
use std::alloc::Global;
use std::test::Fail;

const SUMMARY: &[u8] = b"segments 66
audit yes
end dis 24873
x1 130532
";

const FIRST_SOURCE: &[u8] = b" entry start
start: epaq 0,ic
 lprp4 pr7|22,*au
 epp1 d_$+28876
 eax2 154
loop: eax1 774,x1
 stx1 pr1|0,x2
 eax2 -1,x2
 tnz loop
 tra g1$start
 end
";

// Calls the command with these words over a folder. Returns the number of the status.
fn call(
    alloc: Global,
    words: &[Text],
    folder: &mut MemFolder,
    out: &mut MemSink,
) -> Result<u8, NoMemory> {
    let mut lines = SureLines::new(alloc, &[])?;
    let status = m36(alloc, words, folder, &mut lines, out);
    let number = status.number();
    // Dropped by calls, so that the drops are proved once for their types; also below.
    drop(status);
    drop(lines);
    Ok(number)
}

// Makes the files of seed 1 in a folder. Returns the number of the status.
fn make(alloc: Global, folder: &mut MemFolder, out: &mut MemSink) -> Result<u8, NoMemory> {
    let words = words(alloc, b"make 1")?;
    let told = call(alloc, words.as_slice(), folder, out);
    drop(words);
    told
}

// Whether `make 1` over a folder ends with the number `due` of the status and has put `written`.
// `failing` are the numbers of the puts that fail.
fn makes(
    alloc: Global,
    folder: &mut MemFolder,
    failing: &[u32],
    due: u8,
    written: &[u8],
) -> Result<bool, NoMemory> {
    let mut out = MemSink::new(alloc, 1000, failing)?;
    let number = make(alloc, folder, &mut out);
    let is_written = out.bytes() == written;
    drop(out);
    Ok(number? == due && is_written)
}

// The folder that `make 1` leaves when no write of it fails. A write after the last one would fail.
fn whole(alloc: Global) -> Result<MemFolder, Fail> {
    let mut folder = MemFolder::new(alloc, &[], &[FILES + 1])?;
    match makes(alloc, &mut folder, &[], 0, SUMMARY) {
        Ok(true) => Ok(folder),
        Ok(false) => {
            drop(folder);
            Err(Fail::from("the folder is made"))
        }
        Err(error) => {
            drop(folder);
            Err(Fail::from(error))
        }
    }
}

// The length of a file in bytes; `None` if there is no such file.
fn length_of(alloc: Global, folder: &mut MemFolder, name: &[u8]) -> Option<usize> {
    match folder.read(alloc, name) {
        ReadAnswer::Read(text) => {
            let length = text.bytes().len();
            drop(text);
            Some(length)
        }
        _ => None,
    }
}

/// The name of a file, and its length in bytes.
const LENGTHS: &[(&[u8], Option<usize>)] = &[
    (b"g0", Some(198)),
    (b"stop_", Some(104)),
    (b"d_", Some(296_064)),
    (b"boot", Some(2458)),
    (b"g64", None),
];

// Whether the files have these lengths.
fn has_lengths(alloc: Global, folder: &mut MemFolder) -> bool {
    for (name, length) in LENGTHS {
        if length_of(alloc, folder, name) != *length {
            return false;
        }
    }
    true
}

#[test]
fn makes_a_folder(rt: HostRuntime) -> Result<(), Fail> {
    let mut folder = whole(rt.alloc())?;
    assert!(rt; has_file(rt.alloc(), &mut folder, b"g0.alm", FIRST_SOURCE));
    assert!(rt; has_lengths(rt.alloc(), &mut folder));
    Ok(())
}

/// How many files are made: 65 sources, 65 objects, the data file and the boot text.
const FILES: u32 = 132;

// The name of a program, or of the gate after the 64 programs, with this ending.
fn name_with(alloc: Global, number: u32, end: &[u8]) -> Result<Text, NoMemory> {
    let mut name = Text::new(alloc);
    if number < 64 {
        name.append(b"g")?;
        name.append(decimal(number as u64).as_str().as_bytes())?;
    } else {
        name.append(b"stop_")?;
    }
    name.append(end)?;
    Ok(name)
}

// The name of the file that is written after `written` others.
fn name_after(alloc: Global, written: u32) -> Result<Text, NoMemory> {
    if written < 65 {
        name_with(alloc, written, b".alm")
    } else if written < 130 {
        name_with(alloc, written - 65, b"")
    } else if written < 131 {
        Text::from_bytes(alloc, b"d_")
    } else {
        Text::from_bytes(alloc, b"boot")
    }
}

// Whether a file exists and has the same content as in the whole folder.
fn is_whole(alloc: Global, folder: &mut MemFolder, whole: &mut MemFolder, name: &[u8]) -> bool {
    match whole.read(alloc, name) {
        ReadAnswer::Read(text) => {
            let told = has_file(alloc, folder, name, text.bytes());
            drop(text);
            told
        }
        _ => false,
    }
}

fn is_absent(alloc: Global, folder: &mut MemFolder, name: &[u8]) -> bool {
    matches!(folder.read(alloc, name), ReadAnswer::Absent)
}

// Whether the file that is written after `place` others is as in the whole folder, or absent.
fn is_due(
    alloc: Global,
    folder: &mut MemFolder,
    whole: &mut MemFolder,
    place: u32,
    is_there: bool,
) -> Result<bool, NoMemory> {
    let name = name_after(alloc, place)?;
    let told = if is_there {
        is_whole(alloc, folder, whole, name.bytes())
    } else {
        is_absent(alloc, folder, name.bytes())
    };
    drop(name);
    Ok(told)
}

// Whether the first `count` files are as in the whole folder, and the others are absent.
fn has_first(
    alloc: Global,
    folder: &mut MemFolder,
    whole: &mut MemFolder,
    count: u32,
) -> Result<bool, NoMemory> {
    for place in 0..FILES {
        if !is_due(alloc, folder, whole, place, place < count)? {
            return Ok(false);
        }
    }
    Ok(true)
}

// Whether `make 1` over this folder ends with WriteFault because a put fails, has put `written` by
// then, and has left the first `count` files.
fn ends_in(
    alloc: Global,
    folder: &mut MemFolder,
    whole: &mut MemFolder,
    put: u32,
    written: &[u8],
    count: u32,
) -> Result<bool, NoMemory> {
    let is_told = makes(alloc, folder, &[put], 3, written)?;
    Ok(is_told && matches!(has_first(alloc, folder, whole, count), Ok(true)))
}

// Whether `make 1` ends with WriteFault if the write or the put with this number fails (0 for
// none), has put `written` by then, and has left the first `count` files and no others.
fn ends_after(
    alloc: Global,
    whole: &mut MemFolder,
    (write, put): (u32, u32),
    written: &[u8],
    count: u32,
) -> Result<bool, NoMemory> {
    let mut folder = MemFolder::new(alloc, &[], &[write])?;
    let told = ends_in(alloc, &mut folder, whole, put, written, count);
    drop(folder);
    told
}

#[test]
fn writes_fail_in_turn(rt: HostRuntime) -> Result<(), Fail> {
    let mut whole = whole(rt.alloc())?;
    for count in 0..FILES {
        assert!(rt;
            ends_after(rt.alloc(), &mut whole, (count + 1, 0), b"", count)?,
            "{count}"
        );
    }
    Ok(())
}

/// The number of the put that fails, and the output before it.
const PUTS: &[(u32, &[u8])] = &[
    (1, b""),
    (2, b"segments 66\n"),
    (3, b"segments 66\naudit yes\n"),
    (4, b"segments 66\naudit yes\nend dis 24873\n"),
];

#[test]
fn puts_fail_in_turn(rt: HostRuntime) -> Result<(), Fail> {
    let mut whole = whole(rt.alloc())?;
    for (put, written) in PUTS {
        assert!(rt;
            ends_after(rt.alloc(), &mut whole, (0, *put), written, FILES)?,
            "{put}"
        );
    }
    Ok(())
}
