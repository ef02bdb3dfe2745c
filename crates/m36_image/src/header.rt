//! Parses the first three lines of a bare image.

ghost use Rattle.std.specs.Prelude.{◌≡◌, ◌≤◌, IfOk, length};
ghost use Rattle.m36_text.specs.Lines.{lines_of};
ghost use Rattle.m36_word.specs.Field.{frames_reached};
ghost use Rattle.m36_image.specs.HeaderFields.{HeaderResult};

use crate::forms::{core_line, dbr_line, start_line};
use crate::refusal::{ImageCode, Refusal};
use m36_model::Ppr;
use m36_text::first_line;
use m36_word::Pair;

/// The content of the first three lines.
#[derive(Clone, Copy)]
pub struct Header {
    /// The words of the descriptor segment base register.
    pub dbr: Pair,
    /// Where the machine starts.
    pub start: Ppr,
    /// The number of frames of core.
    pub frames: u32,
}

// The refusal of a line that is missing or does not have its form.
fn form_refusal(line: u32) -> Refusal
    ensures { result ≡ record { line = line; code = ImageCode.I1 } }
{
    Refusal {
        line,
        code: ImageCode::I1,
    }
}

/// Parses the first three lines. Returns their content and the text after them.
pub fn read_header(text: &[u8]) -> Result<(Header, &[u8]), Refusal>
    ensures says { HeaderResult result (lines_of text.now) }
    ensures some { IfOk result (λ h. 1 ≤ h.0.frames) }
    ensures most { IfOk result (λ h. h.0.frames ≤ frames_reached) }
    ensures shorter { IfOk result (λ h. length h.1.now ≤ length text.now) }
{
    let Some((line, rest)) = first_line(text) else {
        return Err(form_refusal(1));
    };
    let frames = match core_line(line) {
        Ok(frames) => frames,
        Err(code) => return Err(Refusal { line: 1, code }),
    };
    let Some((line, rest)) = first_line(rest) else {
        return Err(form_refusal(2));
    };
    let Some(dbr) = dbr_line(line) else {
        return Err(form_refusal(2));
    };
    let Some((line, rest)) = first_line(rest) else {
        return Err(form_refusal(3));
    };
    let Some(start) = start_line(line) else {
        return Err(form_refusal(3));
    };
    let header = Header { dbr, start, frames };
    Ok((header, rest))
}
