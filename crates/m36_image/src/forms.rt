//! Parses the lines of a bare image, by their forms. A line is given without its line feed.

ghost use Rattle.std.specs.Prelude.{◌≡◌, ◌≤◌, IfOk};
ghost use Rattle.m36_text.specs.Lines.{words_of};
ghost use Rattle.m36_text.specs.Numbers.{octal_word_in};
ghost use Rattle.m36_word.specs.Field.{frames_reached};
ghost use Rattle.m36_image.specs.BareImage.{frames_of_core_line, frames_read, dbr_in, dbr_words};
ghost use Rattle.m36_image.specs.BareImage.{start_in, start_words};

use crate::refusal::ImageCode;
use m36_model::Ppr;
use m36_text::{NumberFault, first_word, is_text, octal_in, only_word, read_decimal};
use m36_word::{Pair, Word};

/// The maximum number of frames of core.
const MOST_FRAMES: u64 = 16384;

/// The word with these twelve octal digits.
pub fn octal_word(text: &[u8]) -> Option<Word>
    ensures { result ≡ octal_word_in text.now }
{
    let value = octal_in(text, 12)?;
    Some(Word::low(value))
}

// The number of frames in the line `core N`, given the result of reading N. The error is I1 if N is
// not a number, and I2 if it is out of range.
fn frames_of(read: Result<u64, NumberFault>) -> Result<u32, ImageCode>
    requires { IfOk read (λ n. n ≤ frames_reached) }
    ensures frames { result ≡ frames_read read }
    ensures some { IfOk result (λ n. 1 ≤ n) }
    ensures most { IfOk result (λ n. n ≤ frames_reached) }
{
    match read {
        Ok(0) | Err(NumberFault::T2) => Err(ImageCode::I2),
        Ok(frames) => Ok(frames as u32),
        Err(NumberFault::T1(_)) => Err(ImageCode::I1),
    }
}

/// Parses the line `core N`: the number of frames of core, 1 to 16,384. The error is I1 if the line
/// does not have this form, and I2 if the number is out of range.
pub fn core_line(line: &[u8]) -> Result<u32, ImageCode>
    ensures frames { result ≡ frames_of_core_line (words_of line.now) }
    ensures some { IfOk result (λ n. 1 ≤ n) }
    ensures most { IfOk result (λ n. n ≤ frames_reached) }
{
    let (name, rest) = first_word(line);
    let Some(rest) = rest else {
        return Err(ImageCode::I1);
    };
    let Some(frames) = only_word(rest) else {
        return Err(ImageCode::I1);
    };
    if !is_text(b"core", name) {
        return Err(ImageCode::I1);
    }
    frames_of(read_decimal(frames, MOST_FRAMES))
}

// The words of the descriptor segment base register, given their texts.
fn dbr_of(even: &[u8], odd: &[u8]) -> Option<Pair>
    ensures { result ≡ dbr_in even.now odd.now }
{
    let even = octal_word(even)?;
    let odd = octal_word(odd)?;
    Some(Pair { even, odd })
}

/// Parses the line `dbr E O`: the words of the descriptor segment base register. None if it does
/// not have this form.
pub fn dbr_line(line: &[u8]) -> Option<Pair>
    ensures { result ≡ dbr_words (words_of line.now) }
{
    let (name, rest) = first_word(line);
    let (even, rest) = first_word(rest?);
    let odd = only_word(rest?)?;
    if is_text(b"dbr", name) {
        dbr_of(even, odd)
    } else {
        None
    }
}

// The start of the machine, given the texts of a segment, a ring and a word number.
fn start_of(seg: &[u8], ring: &[u8], word: &[u8]) -> Option<Ppr>
    ensures { result ≡ start_in seg.now ring.now word.now }
{
    let seg = octal_in(seg, 5)?;
    let ring = octal_in(ring, 1)?;
    let word = octal_in(word, 6)?;
    Some(Ppr {
        ic: word as u32,
        psr: seg as u16,
        prr: ring as u8,
    })
}

/// Parses the line `start S R I`: where the machine starts. None if it does not have this form.
pub fn start_line(line: &[u8]) -> Option<Ppr>
    ensures { result ≡ start_words (words_of line.now) }
{
    let (name, rest) = first_word(line);
    let (seg, rest) = first_word(rest?);
    let (ring, rest) = first_word(rest?);
    let word = only_word(rest?)?;
    if is_text(b"start", name) {
        start_of(seg, ring, word)
    } else {
        None
    }
}
