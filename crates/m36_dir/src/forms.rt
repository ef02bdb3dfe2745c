//! Parses each line of a boot text by itself. A line is given without its line feed. None is a line
//! that has the form of no kind of line.

ghost use Rattle.std.specs.Prelude.{◌≡◌, ◌+◌, ◌<◌, length, drop, Some, IfSome};
ghost use Rattle.m36_text.specs.Lines.{words_of};
ghost use Rattle.m36_text.specs.Numbers.{octal_in};
ghost use Rattle.m36_dir.specs.BootLine.{frames_line, work_line, library_line, name_line};
ghost use Rattle.m36_dir.specs.BootLine.{start_line, brackets_of, segment_line, line_named};
ghost use Rattle.m36_dir.specs.BootLine.{parsed_line};

use crate::boot_line::{BootLine, Brackets, SegmentLine};
use crate::segment::Start;
use crate::words::{directory_of, kind_of, mode_of, name_of};
use m36_text::{decimal_in, first_word, octal_in, only_word, place_of};

// The maximal number of pageable frames.
const MOST_FRAMES: u64 = 8192;

// A ring: one octal digit.
fn ring_of(word: &[u8]) -> Option<u8>
    ensures value { result ≡ octal_in 1 word.now }
    ensures bound { IfSome result (λ ring. ring < 8) }
{
    let ring = octal_in(word, 1)?;
    Some(ring as u8)
}

// The line `frames N`, from the text after its first word.
fn frames_line(given: &[u8]) -> Option<BootLine>
    ensures { result ≡ frames_line (words_of given.now) }
{
    let frames = decimal_in(only_word(given)?, 1, MOST_FRAMES)?;
    Some(BootLine::Frames(frames as u32))
}

// The line `work DIR`, from the text after its first word.
fn work_line(given: &[u8]) -> Option<BootLine>
    ensures { result ≡ work_line (words_of given.now) }
{
    Some(BootLine::Work(directory_of(only_word(given)?)?))
}

// The line `library DIR`, from the text after its first word.
fn library_line(given: &[u8]) -> Option<BootLine>
    ensures { result ≡ library_line (words_of given.now) }
{
    Some(BootLine::Library(directory_of(only_word(given)?)?))
}

// The line `name NAME`, from the text after its first word.
fn name_line(given: &[u8]) -> Option<BootLine>
    ensures { result ≡ name_line (words_of given.now) }
{
    Some(BootLine::Name(name_of(only_word(given)?)?))
}

// The text after the byte at this index.
#[tactic(auto, using(m36_text::proofs::Splitting::rest_whole))]
fn text_after(text: &[u8], place: usize) -> &[u8]
    requires { place < length text.now }
    ensures { result.now ≡ drop (place + 1) text.now }
{
    &text[place + 1..]
}

// The line `start RING NAME$ENTRY`, from the text after its first word.
fn start_line(given: &[u8]) -> Option<BootLine>
    ensures { result ≡ start_line (words_of given.now) }
{
    let (ring, rest) = first_word(given);
    let word = only_word(rest?)?;
    let dollar = place_of(word, b'$')?;
    let ring = ring_of(ring)?;
    let name = name_of(&word[..dollar])?;
    let entry = name_of(text_after(word, dollar))?;
    Some(BootLine::Start(Start { name, entry, ring }))
}

// The ring brackets R1, R2 and R3, one octal digit each.
fn brackets_of(given: &[u8]) -> Option<Brackets>
    ensures value { result ≡ brackets_of (words_of given.now) }
    ensures r1 { IfSome result (λ ends. ends.r1 < 8) }
    ensures r2 { IfSome result (λ ends. ends.r2 < 8) }
    ensures r3 { IfSome result (λ ends. ends.r3 < 8) }
{
    let (r1, rest) = first_word(given);
    let (r2, rest) = first_word(rest?);
    let r3 = only_word(rest?)?;
    Some(Brackets {
        r1: ring_of(r1)?,
        r2: ring_of(r2)?,
        r3: ring_of(r3)?,
    })
}

// The line `segment DIR NAME FILE KIND MODE R1 R2 R3`, from the text after its first word.
fn segment_line(given: &[u8]) -> Option<BootLine>
    ensures { result ≡ segment_line (words_of given.now) }
{
    let (dir, rest) = first_word(given);
    let (name, rest) = first_word(rest?);
    let (file, rest) = first_word(rest?);
    let (kind, rest) = first_word(rest?);
    let (mode, rest) = first_word(rest?);
    let ends = brackets_of(rest?)?;
    Some(BootLine::Segment(SegmentLine {
        dir: directory_of(dir)?,
        name: name_of(name)?,
        file: name_of(file)?,
        kind: kind_of(kind)?,
        mode: mode_of(mode)?,
        r1: ends.r1,
        r2: ends.r2,
        r3: ends.r3,
    }))
}

// The line with this first word; `given` is the text after that word and its space.
fn line_named(word: &[u8], given: &[u8]) -> Option<BootLine>
    ensures { result ≡ line_named word.now (words_of given.now) }
{
    if word == b"frames".as_slice() {
        return frames_line(given);
    }
    if word == b"work".as_slice() {
        return work_line(given);
    }
    if word == b"library".as_slice() {
        return library_line(given);
    }
    if word == b"segment".as_slice() {
        return segment_line(given);
    }
    if word == b"name".as_slice() {
        return name_line(given);
    }
    if word == b"start".as_slice() {
        return start_line(given);
    }
    None
}

/// Parses a line of a boot text.
#[tactic(auto, unfolding(crate::specs::BootLine::parsed_line), using(crate::proofs::LineForms::no_words))]
pub(crate) fn read_line(text: &[u8]) -> Option<BootLine>
    ensures { result ≡ parsed_line (Some text.now) }
{
    let (word, rest) = first_word(text);
    line_named(word, rest?)
}
