//! Parses a text of processes line by line.

ghost use Rattle.std.specs.Prelude.{◌+◌, ◌≤◌, ◌^◌, length, IfOk};
ghost use Rattle.m36_text.specs.Lines.{lines_of};
ghost use Rattle.m36_procs.specs.ReaderSays.{IsReaderInvariant};
ghost use Rattle.m36_procs.specs.ReadingSays.{FirstLineResult, LinesResult};

use crate::fault::{ProcsCode, ProcsFault};
use crate::reader::{Reader, Stage, may_end};
use m36_core::Core;
use m36_image::core_line;
use m36_text::first_line;
use std::alloc::Global;

/// Parses the first line. Returns a reader with the core that it describes, and the text after it.
#[tactic(auto, using(crate::proofs::Beginning::beginning))]
pub(crate) fn read_first_line(alloc: Global, text: &[u8]) -> Result<(Reader, &[u8]), ProcsFault>
    ensures says { FirstLineResult result (lines_of text.now) }
    ensures shorter { IfOk result (λ begun. length begun.1.now ≤ length text.now) }
{
    let Some((line, rest)) = first_line(text) else {
        return Err(ProcsFault::P1(1));
    };
    let frames = match core_line(line) {
        Ok(frames) => frames,
        Err(_) => return Err(ProcsFault::P1(1)),
    };
    let reader = Reader {
        core: Core::new(alloc, frames)?,
        regs: Vec::new(alloc),
        schedule: Vec::new(alloc),
        next: 0,
        stage: Stage::Naming,
    };
    Ok((reader, rest))
}

/// Parses the lines after the first.
#[tactic(auto, using(crate::proofs::LinesRead::reading, m36_text::proofs::Splitting::lining))]
pub(crate) fn read_lines(reader: &mut Reader, text: &[u8]) -> Result<(), ProcsFault>
    requires fits { IsReaderInvariant reader.old }
    requires short { length text.now ≤ 2 ^ 31 }
    ensures says { LinesResult result reader.old reader.new (lines_of text.now) }
{
    let mut rest = text;
    let mut number: u32 = 2;
    'lines: while !rest.is_empty() {
        let Some((line, more)) = first_line(rest) else {
            return Err(ProcsFault::P1(number));
        };
        match reader.take(line) {
            Ok(()) => {}
            Err(fault) => return Err(fault.at(number)),
        }
        rest = more;
        number += 1;
    }
    if may_end(reader.stage) {
        Ok(())
    } else {
        Err(ProcsFault::at(number, ProcsCode::P1))
    }
}
