//! Makes a catalog of the lines of a boot text, if no line has a code.

ghost use Rattle.std.specs.Prelude.{◌≡◌, ◌+◌, ◌≤◌, ◌<◌, true, [], ◌∷◌, ◌++◌, Some, IfOk, IfSome};
ghost use Rattle.std.specs.Prelude.{OnOk, Contains, length, drop, slice_get, count_by, option_map};
ghost use Rattle.std.specs.List.{list_any, position};
ghost use Rattle.m36_text.specs.Texts.{is_text};
ghost use Rattle.m36_text.specs.Lines.{last_of};
ghost use Rattle.m36_text.specs.Once.{are_distinct_by};
ghost use Rattle.m36_dir.specs.Catalog.{with_directory_of, directories_from, directory_number_in};
ghost use Rattle.m36_dir.specs.Catalog.{names_after, segment_with, segment_of, segments_in};
ghost use Rattle.m36_dir.specs.Catalog.{library_of, libraries_in, frames_of, working_directory_of};
ghost use Rattle.m36_dir.specs.Catalog.{no_start, start_of};
ghost use Rattle.m36_dir.specs.BootOrder.{most_segments, is_segment, is_library};

use crate::boot_line::{BootLine, SegmentLine};
use crate::directory::Directory;
use crate::segment::{Segment, Start};
use m36_text::{Name, Names};
use m36_word::NoMemory;
use std::alloc::Global;

// ---- directories

// Whether a directory is in the list.
fn has(dirs: &[Directory], dir: &[u8]) -> bool
    ensures { result ≡ list_any (is_text dir.now) dirs.now }
{
    dirs.iter().any(|other| other.bytes() == dir)
}

// Adds the directory of a line, if it is a segment line and the list does not have the directory.
fn add_directory(dirs: &mut Vec<Directory>, line: &BootLine) -> Result<(), NoMemory>
    ensures { OnOk result (dirs.new.items ≡ with_directory_of dirs.old.items line.now) }
{
    match line {
        BootLine::Segment(given) => {
            if has(dirs, given.dir.bytes()) {
                return Ok(());
            }
            dirs.push(given.dir.copied())?;
            Ok(())
        }
        _ => Ok(()),
    }
}

/// The directories of the segment lines, each once, in the order in which they first occur.
pub(crate) fn directories_in(alloc: Global, lines: &[BootLine]) -> Result<Vec<Directory>, NoMemory>
    ensures value { IfOk result (λ dirs. dirs.items ≡ directories_from [] lines.now) }
    ensures once { IfOk result (λ dirs. are_distinct_by is_text dirs.items ≡ true) }
{
    let mut dirs = Vec::new(alloc);
    for line in lines {
        add_directory(&mut dirs, line)?;
    }
    Ok(dirs)
}

// The index of a directory in the list.
fn place_of(dirs: &[Directory], dir: &[u8]) -> Option<usize>
    ensures place { result ≡ position (is_text dir.now) dirs.now }
    ensures within { IfSome result (λ place. place < length dirs.now) }
{
    dirs.iter().position(|other| other.bytes() == dir)
}

/// The number of a directory, counted from 0; also 0 if it is not in the list.
#[tactic(auto, unfolding(crate::specs::Catalog::directory_number_in))]
pub(crate) fn directory_number_in(dirs: &[Directory], dir: &[u8]) -> u16
    requires { length dirs.now ≤ most_segments }
    ensures value { result ≡ directory_number_in dirs.now dir.now }
    ensures inverse { Contains dirs.now dir.now → slice_get dirs.now result ≡ Some dir.now }
{
    match place_of(dirs, dir) {
        Some(place) => place as u16,
        None => 0,
    }
}

// ---- segments

// Adds the names of the `name` lines at the beginning of these lines, up to the first other line.
fn add_names(names: &mut Names, lines: &[BootLine]) -> Result<(), NoMemory>
    ensures { OnOk result (names.new ≡ names.old ++ names_after lines.now) }
{
    for line in lines {
        match line {
            BootLine::Name(name) => names.push(name.copied())?,
            _ => return Ok(()),
        }
    }
    Ok(())
}

// The segment of a segment line. `behind` are the lines after it, which may give further names.
fn segment_with(
    alloc: Global,
    dirs: &[Directory],
    given: &SegmentLine,
    behind: &[BootLine],
) -> Result<Segment, NoMemory>
    requires { length dirs.now ≤ most_segments }
    ensures { IfOk result (λ s. s ≡ segment_with dirs.now given.now (names_after behind.now)) }
{
    let mut names = Names::new(alloc);
    names.push(given.name.copied())?;
    add_names(&mut names, behind)?;
    Ok(Segment {
        names,
        file: given.file.copied(),
        dir: directory_number_in(dirs, given.dir.bytes()),
        kind: given.kind,
        mode: given.mode,
        r1: given.r1,
        r2: given.r2,
        r3: given.r3,
    })
}

// Adds the segment of a line, if it is a segment line. `behind` are the lines after it.
fn add_segment(
    alloc: Global,
    segments: &mut Vec<Segment>,
    dirs: &[Directory],
    line: &BootLine,
    behind: &[BootLine],
) -> Result<(), NoMemory>
    requires { length dirs.now ≤ most_segments }
    ensures { OnOk result
        (segments.new.items ≡ segments.old.items ++ segment_of dirs.now line.now behind.now) }
{
    match line {
        BootLine::Segment(given) => {
            segments.push(segment_with(alloc, dirs, given, behind)?)?;
            Ok(())
        }
        _ => Ok(()),
    }
}

// The lines after line `i`, counted from 0.
#[tactic(auto, using(crate::proofs::LineLoops::lines_after))]
fn lines_after(lines: &[BootLine], i: usize) -> &[BootLine]
    requires { i < length lines.now }
    ensures { result.now ≡ drop (i + 1) lines.now }
{
    &lines[i + 1..]
}

/// The segments, one for each segment line, in the order of the lines.
pub(crate) fn segments_in(
    alloc: Global,
    dirs: &[Directory],
    lines: &[BootLine],
) -> Result<Vec<Segment>, NoMemory>
    requires { length dirs.now ≤ most_segments }
    ensures value { IfOk result (λ segments. segments.items ≡ segments_in dirs.now lines.now) }
    ensures count { IfOk result (λ segments.
        length segments.items ≡ count_by is_segment lines.now) }
{
    let mut segments = Vec::new(alloc);
    for (i, line) in lines.iter().enumerate() {
        add_segment(alloc, &mut segments, dirs, line, lines_after(lines, i))?;
    }
    Ok(segments)
}

// ---- the other lines

// Adds the directory number of a line, if it is a library line.
fn add_library(
    libraries: &mut Vec<u16>,
    dirs: &[Directory],
    line: &BootLine,
) -> Result<(), NoMemory>
    requires { length dirs.now ≤ most_segments }
    ensures { OnOk result
        (libraries.new.items ≡ libraries.old.items ++ library_of dirs.now line.now) }
{
    match line {
        BootLine::Library(dir) => {
            libraries.push(directory_number_in(dirs, dir.bytes()))?;
            Ok(())
        }
        _ => Ok(()),
    }
}

/// The libraries, one for each library line, in the order of the lines.
pub(crate) fn libraries_in(
    alloc: Global,
    dirs: &[Directory],
    lines: &[BootLine],
) -> Result<Vec<u16>, NoMemory>
    requires { length dirs.now ≤ most_segments }
    ensures value { IfOk result (λ libraries. libraries.items ≡ libraries_in dirs.now lines.now) }
    ensures count { IfOk result (λ libraries.
        length libraries.items ≡ count_by is_library lines.now) }
{
    let mut libraries = Vec::new(alloc);
    for line in lines {
        add_library(&mut libraries, dirs, line)?;
    }
    Ok(libraries)
}

/// The number of pageable frames, which is in the first line.
pub(crate) fn frames_of(line: Option<&BootLine>) -> u32
    ensures { result ≡ frames_of (option_map (λ l. l.now) line.entry) }
{
    match line {
        Some(BootLine::Frames(frames)) => *frames,
        _ => 0,
    }
}

/// The working directory, which is in the second line.
pub(crate) fn working_directory_of(lines: &[BootLine]) -> &[u8]
    ensures { result.now ≡ working_directory_of (slice_get lines.now 1) }
{
    match lines.get(1) {
        Some(BootLine::Work(dir)) => dir.bytes(),
        _ => &[],
    }
}

// The start that is used if there is no `start` line. A text without errors has that line.
fn no_start() -> Start
    ensures { result ≡ no_start }
{
    Start {
        name: Name::default(),
        entry: Name::default(),
        ring: 0,
    }
}

/// The place where the machine starts, which is in the last line.
pub(crate) fn start_of(lines: &[BootLine]) -> Start
    ensures { result ≡ start_of (last_of lines.now) }
{
    match lines.last() {
        Some(BootLine::Start(start)) => start.copied(),
        _ => no_start(),
    }
}
