//! Writes the words of a bare image into core.

ghost use Rattle.std.specs.Prelude.{◌≡◌, ◌+◌, ◌<◌, ◌≤◌, ◌^◌, length, OnOk, OnErr};
ghost use Rattle.m36_text.specs.Lines.{lines_of, words_of};
ghost use Rattle.m36_image.specs.BareImage.{at_words};
ghost use Rattle.m36_image.specs.ImageState.{written_at};
ghost use Rattle.m36_image.specs.LineByLine.{end_of_at_line, with_placed, AtLinesResult};

use crate::placed::at_line;
use crate::refusal::{ImageCode, Refusal};
use m36_core::Core;
use m36_text::first_line;
use m36_word::Word;

// Writes words into core, from address `first` on.
#[tactic(auto, using(crate::proofs::CoreWords::writing))]
fn put_words(core: &mut Core, first: u32, words: &[Word])
    requires inside { first + length words.now ≤ length core.old }
    requires address { first + length words.now < 2 ^ 32 }
    ensures core { core.new ≡ written_at core.old first words.now }
    ensures len { length core.new ≡ length core.old }
{
    for (i, word) in words.iter().enumerate() {
        core.poke(first + i as u32, *word);
    }
}

/// Writes the words of an `at` line into core. If the line has a code, core is unchanged. The
/// first address of the line must be at least `next`. Returns the address after its last word.
pub fn put_line_into_core(core: &mut Core, next: u32, line: &[u8]) -> Result<u32, ImageCode>
    ensures end { result ≡ end_of_at_line (length core.old) next (at_words (words_of line.now)) }
    ensures core { OnOk result (core.new ≡ with_placed core.old (at_words (words_of line.now))) }
    ensures err { OnErr result (core.new ≡ core.old) }
    ensures len { length core.new ≡ length core.old }
{
    let Some(placed) = at_line(line) else {
        return Err(ImageCode::I1);
    };
    let end = placed.first + placed.words.len() as u32;
    if placed.first < next || end > core.len() {
        return Err(ImageCode::I3);
    }
    put_words(core, placed.first, placed.words.as_slice());
    Ok(end)
}

/// Writes the words of all `at` lines into core. The first of them is line 4. The error is the
/// first line with a code.
#[tactic(auto, using(crate::proofs::Placing::placing, m36_text::proofs::Splitting::lining))]
pub fn put_lines(core: &mut Core, text: &[u8]) -> Result<(), Refusal>
    requires { length text.now ≤ 2 ^ 31 }
    ensures { AtLinesResult result core.old core.new (lines_of text.now) }
{
    let mut rest = text;
    let mut number: u32 = 4;
    let mut next: u32 = 0;
    'lines: while !rest.is_empty() {
        let Some((line, more)) = first_line(rest) else {
            return Err(Refusal {
                line: number,
                code: ImageCode::I1,
            });
        };
        match put_line_into_core(core, next, line) {
            Ok(end) => next = end,
            Err(code) => return Err(Refusal { line: number, code }),
        }
        rest = more;
        number += 1;
    }
    Ok(())
}
