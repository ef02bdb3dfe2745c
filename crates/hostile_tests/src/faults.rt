//! Commands in which each read, each write and each put fails in turn.

use crate::rows::{File, OBJECTS, OTHERS, RUNS, Row, assembled, called, is_there};
use m36_outside::{Folder, MemFolder, MemSink, ReadAnswer, SureFolder, SureSink};
use m36_word::NoMemory;
use std::alloc::Global;
use std::process::Abort;

/// The read, write or put with this number fails.
#[derive(Clone, Copy)]
enum Fault {
    Read(u32),
    Write(u32),
    Put(u32),
}

/// The numbers of the read, the write and the put that fail (0 for none).
fn numbers(fault: Fault) -> (u32, u32, u32) {
    match fault {
        Fault::Read(number) => (number, 0, 0),
        Fault::Write(number) => (0, number, 0),
        Fault::Put(number) => (0, 0, number),
    }
}

/// Adds the objects and the files of a row to a folder.
fn fill(
    alloc: Global,
    folder: &mut MemFolder,
    row: &Row,
    objects: &mut SureFolder,
) -> Result<(), NoMemory> {
    for name in OBJECTS {
        if let ReadAnswer::Read(object) = objects.read(alloc, name) {
            folder.add(name, object.bytes())?;
        }
    }
    for (name, content) in row.files {
        folder.add(name, content)?;
    }
    Ok(())
}

fn is_among(name: &[u8], files: &[File]) -> bool {
    for (other, _) in files {
        if *other == name {
            return true;
        }
    }
    false
}

/// Whether a folder has these files. Those whose names are among `others` are not checked.
fn has_files<F: Folder>(alloc: Global, folder: &mut F, files: &[File], others: &[File]) -> bool {
    for (name, content) in files {
        if !is_among(name, others) && !is_there(alloc, folder, name, content) {
            return false;
        }
    }
    true
}

/// Whether the first `count` files that a row writes are written, and the other files of the row
/// are unchanged.
fn has_written(alloc: Global, folder: &mut MemFolder, row: &Row, count: usize) -> bool {
    let written = row.writes.get(..count).unwrap_or(row.writes);
    has_files(alloc, folder, written, &[]) && has_files(alloc, folder, row.files, written)
}

fn line_count(text: &[u8]) -> u32 {
    let mut count: u32 = 0;
    for byte in text {
        if *byte == b'\n' {
            count = count.saturating_add(1);
        }
    }
    count
}

/// Whether exactly the first `count` lines of a text are written.
fn are_first(written: &[u8], count: u32, text: &[u8]) -> bool {
    let is_whole = written.is_empty() || written.ends_with(b"\n");
    is_whole && text.starts_with(written) && line_count(written) == count
}

/// Whether a command with a failing call ends as it must. A read that is never made does not fail.
fn is_due(
    alloc: Global,
    (row, fault): (&Row, Fault),
    status: u8,
    folder: &mut MemFolder,
    written: &[u8],
) -> bool {
    match fault {
        Fault::Read(number) if number > row.reads => {
            status == row.status && written == row.lines
        }
        Fault::Read(_) => status == 2 && written.is_empty(),
        Fault::Write(number) => {
            let before = number.saturating_sub(1) as usize;
            status == 3 && written.is_empty() && has_written(alloc, folder, row, before)
        }
        Fault::Put(number) => {
            status == 3
                && are_first(written, number.saturating_sub(1), row.lines)
                && has_written(alloc, folder, row, row.writes.len())
        }
    }
}

/// Calls a command with a failing call. Returns whether it ends as it must.
fn ends_right(
    alloc: Global,
    row: &Row,
    objects: &mut SureFolder,
    fault: Fault,
) -> Result<bool, NoMemory> {
    let (read, write, put) = numbers(fault);
    let mut folder = MemFolder::new(alloc, &[read], &[write])?;
    fill(alloc, &mut folder, row, objects)?;
    let mut out = MemSink::new(alloc, 10_000, &[put])?;
    let status = called(alloc, row.words, &mut folder, &mut out)?;
    Ok(is_due(
        alloc,
        (row, fault),
        status.number(),
        &mut folder,
        out.bytes(),
    ))
}

/// A kind of call of the outside.
#[derive(Clone, Copy)]
enum Kind {
    Reads,
    Writes,
    Puts,
}

fn failing(kind: Kind, number: u32) -> Fault {
    match kind {
        Kind::Reads => Fault::Read(number),
        Kind::Writes => Fault::Write(number),
        Kind::Puts => Fault::Put(number),
    }
}

/// How many calls of a kind to let fail: all that the command makes, and for reads one more.
fn count(row: &Row, kind: Kind) -> u32 {
    match kind {
        Kind::Reads => row.reads.saturating_add(1),
        Kind::Writes => u32::try_from(row.writes.len()).unwrap_or(u32::MAX),
        Kind::Puts => line_count(row.lines),
    }
}

/// The number of the first call of a kind after whose failure the command does not end as it must;
/// 0 if there is none.
fn wrong_call(
    alloc: Global,
    row: &Row,
    objects: &mut SureFolder,
    kind: Kind,
) -> Result<u32, NoMemory> {
    for number in 1..=count(row, kind) {
        if !ends_right(alloc, row, objects, failing(kind, number))? {
            return Ok(number);
        }
    }
    Ok(0)
}

/// Lets each call of each command fail in turn, and asserts that the command ends as it must.
fn fail_in_turn(rt: &impl Abort, alloc: Global, rows: &[Row]) -> Result<(), NoMemory> {
    let mut objects = assembled(alloc)?;
    for row in rows {
        for kind in [Kind::Reads, Kind::Writes, Kind::Puts] {
            let wrong = wrong_call(alloc, row, &mut objects, kind)?;
            assert!(rt; wrong == 0, "{:?} {wrong}", row.words);
        }
    }
    Ok(())
}

#[test]
fn calls_of_runs_fail_in_turn(rt: HostRuntime) -> Result<(), NoMemory> {
    fail_in_turn(&rt, rt.alloc(), RUNS)
}

#[test]
fn calls_of_others_fail_in_turn(rt: HostRuntime) -> Result<(), NoMemory> {
    fail_in_turn(&rt, rt.alloc(), OTHERS)
}

/// Whether a command has its status and writes its files if no call fails.
fn succeeds(alloc: Global, folder: &mut SureFolder, row: &Row) -> Result<bool, NoMemory> {
    for (name, content) in row.files {
        folder.add(name, content)?;
    }
    let status = called(alloc, row.words, folder, &mut SureSink::new())?;
    Ok(status.number() == row.status && has_files(alloc, folder, row.writes, &[]))
}

/// Asserts that the commands, over one folder, have their statuses and write their files.
fn succeed(rt: &impl Abort, alloc: Global, rows: &[Row]) -> Result<(), NoMemory> {
    let mut folder = assembled(alloc)?;
    for row in rows {
        assert!(rt; succeeds(alloc, &mut folder, row)?, "{:?}", row.words);
    }
    Ok(())
}

#[test]
fn runs_succeed(rt: HostRuntime) -> Result<(), NoMemory> {
    succeed(&rt, rt.alloc(), RUNS)
}

#[test]
fn others_succeed(rt: HostRuntime) -> Result<(), NoMemory> {
    succeed(&rt, rt.alloc(), OTHERS)
}
