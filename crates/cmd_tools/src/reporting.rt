//! Writes the files of a report one after another, and puts its text line by line.

ghost use Rattle.std.specs.Prelude.{◌≡◌, ◌≤◌, ◌<◌, ◌∷◌, length, take, drop};
ghost use Rattle.cmd_tools.specs.LinesIn.{lines_in};
ghost use Rattle.m36_program.specs.Performs.{Performs};
ghost use Rattle.m36_program.specs.Program.{May};
ghost use Rattle.cmd_tools.specs.Reporting.{put_text, write_files, write_report};

use crate::report::Report;
use m36_program::{put_piece, write_file};
use m36_status::{Set, Status};
use m36_text::place_of;
use m36_world::World;
use std::alloc::Global;

// The length in bytes of the first line of a text, with its line feed; the length of the text if it
// has no line feed.
#[tactic(auto, using(crate::proofs::LineLaws::first_line))]
fn line_length(text: &[u8]) -> usize
    requires { 0 < length text.now }
    ensures cut { lines_in text.now ≡ take result text.now ∷ lines_in (drop result text.now) }
    ensures some { 1 ≤ result }
    ensures within { result ≤ length text.now }
{
    match place_of(text, b'\n') {
        Some(place) => place + 1,
        None => text.len(),
    }
}

/// Puts a text line by line, each line with its line feed as one piece.
pub fn put_text<W: World>(text: &[u8], world: &mut W) -> Result<(), Status>
    ensures { (may : May) → Performs {may = may} (put_text text.now) result
        (W.seen world.old) (W.seen world.new) }
{
    let mut rest = text;
    'lines: while !rest.is_empty() {
        let end = line_length(rest);
        match put_piece(&rest[..end], world) {
            Ok(()) => {}
            Err(status) => return Err(status),
        }
        rest = &rest[end..];
    }
    Ok(())
}

/// Writes files one after another. After one that could not be written, no other is tried.
pub fn write_files<W: World>(alloc: Global, files: &[Set], world: &mut W) -> Result<(), Status>
    ensures { Performs (write_files files.now) result (W.seen world.old) (W.seen world.new) }
{
    for file in files {
        match write_file(alloc, file.name.bytes(), file.content.bytes(), world) {
            Ok(()) => {}
            Err(status) => return Err(status),
        }
    }
    Ok(())
}

/// Writes the files of a report, and then puts its text.
pub fn write_report<W: World>(alloc: Global, report: &Report, world: &mut W) -> Result<(), Status>
    ensures { Performs (write_report report.now) result (W.seen world.old) (W.seen world.new) }
{
    match write_files(alloc, report.files(), world) {
        Ok(()) => put_text(report.text(), world),
        Err(status) => Err(status),
    }
}
