//! A whole source.

ghost use Rattle.std.specs.Prelude.{List, [], ◌∷◌, ◌++◌, ◌≡◌, ◌^◌, ◌<◌, ◌≤◌, length, OnOk, OnErr};
ghost use Rattle.std.specs.Prelude.{IfOk, All};
ghost use Rattle.alm_parse.specs.Spans.{LineIn};
ghost use Rattle.alm_parse.specs.Sources.{is_end_operation, read_lines, source_of_text, IsResultOf};

use crate::fault::{AlmFault, fault_of};
use crate::line::Line36;
use crate::line_reading::read_line;
use crate::refusal::ParseError;
use alm_tokens::rows::{Row, rows_of};
use alm_tokens::span::{Span, bytes_of};
use m36_outside::Text;
use m36_word::NoMemory;
use std::alloc::Global;
use std::marker::Model;

// A list of lines that grows at its end.
#[derive(Drop)]
struct Lines {
    items: Vec<Line36>,
}

impl Model for Lines {
    ghost use Rattle.std.specs.Prelude.{List};
    ghost use Rattle.alm_parse.specs.declared.line.Line36.{Line36};

    ghost Value = { List Line36 };

    ghost view = { λ l. l.items.items };
}

impl Lines {
    // An empty list.
    fn new(alloc: Global) -> Lines
        ensures { result ≡ [] }
    {
        Lines {
            items: Vec::new(alloc),
        }
    }

    // Adds a line at the end. If memory runs out, nothing changes.
    fn push(&mut self, x: Line36) -> Result<(), NoMemory>
        ensures ok { OnOk result (self.new ≡ self.old ++ x ∷ []) }
        ensures err { OnErr result (self.new ≡ self.old) }
    {
        self.items.push(x)?;
        Ok(())
    }

    // The lines in order.
    fn items(&self) -> &[Line36]
        ensures { result.now ≡ self.now }
    {
        self.items.as_slice()
    }
}

/// The lines of a source, fewer than 2^32, with a copy of its text, to which the spans of the lines
/// refer.
#[derive(Drop)]
pub struct Lines36 {
    text: Text,
    lines: Lines,
}

impl Model for Lines36 {
    ghost use Rattle.std.specs.Prelude.{length, ◌<◌, ◌^◌};
    ghost use Rattle.alm_parse.specs.SourceFields.{Source};

    ghost Value = { Source };

    ghost view = { λ s. record { text = s.text; lines = s.lines } };

    ghost invariant = { λ s. length s.lines < 2 ^ 32 };
}

impl Lines36 {
    /// The text of the source.
    pub fn text(&self) -> &[u8]
        ensures { result.now ≡ self.now.text }
    {
        self.text.bytes()
    }

    /// The lines in order, including empty ones, up to the line with the operation `end` or to the
    /// last.
    pub fn lines(&self) -> &[Line36]
        ensures value { result.now ≡ self.now.lines }
        ensures count { length self.now.lines < 2 ^ 32 }
    {
        self.lines.items()
    }
}

// Whether the operation of a line is `end`, after which the text is ignored.
fn is_end_operation(text: &[u8], op: Option<Span>) -> bool
    ensures { result ≡ is_end_operation text.now op }
{
    match op {
        Some(op) => bytes_of(text, op) == b"end".as_slice(),
        None => false,
    }
}

// The lines of a text, up to that of the operation `end`, or the first refusal.
#[tactic(auto, using(crate::proofs::SourceLaws::read_all))]
fn read_lines(alloc: Global, text: &[u8], rows: &[Row]) -> Result<Lines, AlmFault>
    requires { length text.now < 2 ^ 32 }
    ensures says { IsResultOf result (read_lines text.now [] rows.now) }
    ensures count { IfOk result (λ lines. length lines ≤ length rows.now) }
{
    let mut lines = Lines::new(alloc);
    for row in rows {
        match read_line(alloc, text, *row) {
            Ok(line) => {
                let last = is_end_operation(text, line.op);
                lines.push(line)?;
                if last {
                    return Ok(lines);
                }
            }
            Err(ParseError::Refused(refusal)) => return Err(fault_of(*row, refusal)),
            Err(ParseError::NoMemory) => return Err(AlmFault::NoMemory),
        }
    }
    Ok(lines)
}

// The lines of a text, with the text, or its first refusal.
#[tactic(auto, using(crate::proofs::SourceLaws::refuses_all), unfolding(crate::specs::Sources::source_of_text))]
fn read_source(alloc: Global, text: &[u8]) -> Result<Lines36, AlmFault>
    requires { length text.now < 2 ^ 32 }
    ensures { IsResultOf result (source_of_text text.now) }
{
    let rows = rows_of(alloc, text)?;
    let lines = match read_lines(alloc, text, rows.items()) {
        Ok(lines) => lines,
        Err(fault) => return Err(fault),
    };
    let text = Text::from_bytes(alloc, text)?;
    Ok(Lines36 { text, lines })
}

/// Parses a source. It is refused exactly if it is not in the language, with the first of the codes
/// E1 to E4 in the order of the text, and the least of them at one place. It may fail with
/// `NoMemory` whatever the text is.
#[tactic(auto, using(crate::proofs::SpanLines::spans_say))]
pub fn parse(alloc: Global, text: &[u8]) -> Result<Lines36, AlmFault>
    requires { length text.now < 2 ^ 32 }
    ensures says { IsResultOf result (source_of_text text.now) }
    ensures fits { IfOk result (λ source. All (LineIn (length text.now)) source.lines) }
{
    read_source(alloc, text)
}
