//! Calls commands over files, input and output in memory, and compares the results with expected
//! ones.

use m36_outside::{Folder, MemFolder, MemLines, MemSink, ReadAnswer, SureLines, SureSink, Text};
use m36_status::{Code, Status};
use m36_top::report;
use m36_top::top::m36;
use m36_word::NoMemory;
use std::alloc::Global;

/// A file: its name and its content.
pub(crate) type File<'a> = (&'a [u8], &'a [u8]);

/// The numbers of the read, the write, the put and the piece of input that fail (0 for none).
pub(crate) type Failing = (u32, u32, u32, u32);

pub(crate) const SURE: Failing = (0, 0, 0, 0);

/// The code with which a file is refused, the place and the column.
pub(crate) type Place = (Code, u32, u32);

/// The folder, the input and the failures for a call of a command.
#[derive(Clone, Copy)]
pub(crate) struct World<'a> {
    pub files: &'a [File<'a>],
    /// Commands that are called first. Their output is dropped.
    pub before: &'a [&'a [u8]],
    pub input: &'a [u8],
    pub failing: Failing,
}

/// The expected result of a command.
#[derive(Clone, Copy)]
pub(crate) enum Expected<'a> {
    /// The number of the status, and the output.
    Writes(u8, &'a [u8]),
    /// The number of the status, and the beginning and the end of the output.
    Begins(u8, &'a [u8], &'a [u8]),
    /// The number of the status, and the length of the output in bytes.
    Length(u8, usize),
    /// As `Length`, and a file and whether the folder has it afterwards.
    Leaves(u8, usize, File<'a>, bool),
    /// The name of the file that is refused, and the reason. There is no output.
    Refuses(&'a [u8], Place),
    /// The line of the status, and the output.
    Reports(&'a [u8], &'a [u8]),
}

/// The room of the output in bytes.
const ROOM: usize = 10_000_000;

/// The words of a command, separated by one blank each.
pub(crate) fn words(alloc: Global, command: &[u8]) -> Result<Vec<Text>, NoMemory> {
    let mut words = Vec::new(alloc);
    for word in command.split(|byte| *byte == b' ') {
        words.push(Text::from_bytes(alloc, word)?)?;
    }
    Ok(words)
}

/// Whether the folder has a file with this name and content.
pub(crate) fn has_file(alloc: Global, folder: &mut MemFolder, name: &[u8], content: &[u8]) -> bool {
    match folder.read(alloc, name) {
        ReadAnswer::Read(text) => {
            let told = text.bytes() == content;
            // Dropped by a call, so that the drop is proved once for its type; also below.
            drop(text);
            told
        }
        _ => false,
    }
}

/// Whether this is the line of a status.
pub(crate) fn has_line(alloc: Global, status: &Status, line: &[u8]) -> bool {
    match report(alloc, status) {
        Ok(text) => {
            let told = text.bytes() == line;
            drop(text);
            told
        }
        Err(_) => false,
    }
}

fn is_refusal(status: &Status, name: &[u8], place: Place) -> bool {
    match status {
        Status::BadFile(bad) => {
            bad.name.bytes() == name && (bad.code, bad.at, bad.column) == place
        }
        _ => false,
    }
}

/// Whether the result of a command is the expected one.
fn is_met(
    alloc: Global,
    due: Expected,
    status: &Status,
    folder: &mut MemFolder,
    written: &[u8],
) -> bool {
    match due {
        Expected::Writes(number, text) => status.number() == number && written == text,
        Expected::Begins(number, begin, end) => {
            status.number() == number && written.starts_with(begin) && written.ends_with(end)
        }
        Expected::Length(number, length) => status.number() == number && written.len() == length,
        Expected::Leaves(number, length, (name, content), is_there) => {
            status.number() == number
                && written.len() == length
                && has_file(alloc, folder, name, content) == is_there
        }
        Expected::Refuses(name, place) => written.is_empty() && is_refusal(status, name, place),
        Expected::Reports(line, text) => has_line(alloc, status, line) && written == text,
    }
}

/// Calls the command with these words over the folder. Drops its output and its status.
fn call_words_before(
    alloc: Global,
    words: &[Text],
    folder: &mut MemFolder,
) -> Result<(), NoMemory> {
    let mut lines = SureLines::new(alloc, &[])?;
    let status = m36(alloc, words, folder, &mut lines, &mut SureSink::new());
    drop(status);
    drop(lines);
    Ok(())
}

/// As `call_words_before`, for a command in one text.
fn call_before(alloc: Global, command: &[u8], folder: &mut MemFolder) -> Result<(), NoMemory> {
    let words = words(alloc, command)?;
    let told = call_words_before(alloc, words.as_slice(), folder);
    drop(words);
    told
}

fn fill(alloc: Global, folder: &mut MemFolder, world: &World) -> Result<(), NoMemory> {
    for (name, content) in world.files {
        folder.add(name, content)?;
    }
    for command in world.before {
        call_before(alloc, command, folder)?;
    }
    Ok(())
}

/// Fills the folder, and calls the command with these words over it and the input.
fn call(
    alloc: Global,
    words: &[Text],
    world: &World,
    folder: &mut MemFolder,
    out: &mut MemSink,
) -> Result<Status, NoMemory> {
    fill(alloc, folder, world)?;
    let (_, _, _, piece) = world.failing;
    let mut lines = MemLines::new(alloc, world.input, &[piece])?;
    let status = m36(alloc, words, folder, &mut lines, out);
    drop(lines);
    Ok(status)
}

/// Whether a command gives the expected result over this folder and this output.
fn words_come_over(
    alloc: Global,
    words: &[Text],
    world: &World,
    due: Expected,
    folder: &mut MemFolder,
    out: &mut MemSink,
) -> Result<bool, NoMemory> {
    let status = call(alloc, words, world, folder, out)?;
    let told = is_met(alloc, due, &status, folder, out.bytes());
    drop(status);
    Ok(told)
}

/// As `words_come_over`, with a new output.
fn words_come_in(
    alloc: Global,
    words: &[Text],
    world: &World,
    due: Expected,
    folder: &mut MemFolder,
) -> Result<bool, NoMemory> {
    let (_, _, put, _) = world.failing;
    let mut out = MemSink::new(alloc, ROOM, &[put])?;
    let told = words_come_over(alloc, words, world, due, folder, &mut out);
    drop(out);
    told
}

/// As `words_come_in`, with a new folder.
pub(crate) fn words_come_to(
    alloc: Global,
    words: &[Text],
    world: &World,
    due: Expected,
) -> Result<bool, NoMemory> {
    let (read, write, _, _) = world.failing;
    let mut folder = MemFolder::new(alloc, &[read], &[write])?;
    let told = words_come_in(alloc, words, world, due, &mut folder);
    drop(folder);
    told
}

/// As `words_come_to`, for a command in one text.
pub(crate) fn gives(
    alloc: Global,
    command: &[u8],
    world: &World,
    due: Expected,
) -> Result<bool, NoMemory> {
    let words = words(alloc, command)?;
    let told = words_come_to(alloc, words.as_slice(), world, due);
    drop(words);
    told
}

/// Whether a command gives the expected result over a folder with one file, and no input.
pub(crate) fn comes_with(
    alloc: Global,
    command: &[u8],
    file: File,
    failing: Failing,
    due: Expected,
) -> Result<bool, NoMemory> {
    let world = World {
        files: &[file],
        before: &[],
        input: b"",
        failing,
    };
    gives(alloc, command, &world, due)
}
