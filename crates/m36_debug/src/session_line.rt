//! Parses the lines of a session, by their forms. A line is given without its line feed.

ghost use Rattle.std.specs.Prelude.{◌≡◌, ◌<◌, ◌≤◌, ◌^◌, IfSome};
ghost use Rattle.m36_text.specs.Lines.{words_of};
ghost use Rattle.m36_debug.specs.SessionLines.{one_word, two_words, three_words, line_of_words};
ghost use Rattle.m36_debug.specs.SessionLines.{most_steps, steps_in, session_line, IsBounded};

use m36_text::{first_word, is_text, octal_in, only_word, plain_decimal_in};

/// The maximum length of a known line, in bytes.
const LONGEST_LINE: usize = 256;

/// The maximum number of steps in a line.
const MOST_STEPS: u64 = 1_000_000;

/// The content of a line.
#[derive(Clone, Copy, PartialEq, Eq)]
pub enum SessionLine {
    /// `step`, `step N`: takes N steps.
    Step(u32),
    /// `go`: runs up to a break.
    Go,
    /// `break S W`: a segment number and a word number.
    Break(u16, u32),
    /// `regs`: writes the registers.
    Regs,
    /// `seg S W`: writes a word of a segment.
    Seg(u16, u32),
    /// `where`: writes the address of the next instruction.
    Where,
    /// `back`, `back N`: goes back N steps.
    Back(u32),
    /// `quit`: ends the session.
    Quit,
    /// An empty line.
    Empty,
    /// Any other line.
    Unknown,
}

// The content of a line of one word; that of an empty line is the empty word.
fn one_word(word: &[u8]) -> SessionLine
    ensures value { result ≡ one_word word.now }
    ensures bounds { IsBounded result }
{
    if is_text(b"", word) {
        SessionLine::Empty
    } else if is_text(b"step", word) {
        SessionLine::Step(1)
    } else if is_text(b"go", word) {
        SessionLine::Go
    } else if is_text(b"regs", word) {
        SessionLine::Regs
    } else if is_text(b"where", word) {
        SessionLine::Where
    } else if is_text(b"back", word) {
        SessionLine::Back(1)
    } else if is_text(b"quit", word) {
        SessionLine::Quit
    } else {
        SessionLine::Unknown
    }
}

// A number of steps, 1 to 1,000,000.
fn steps_in(word: &[u8]) -> Option<u64>
    ensures value { result ≡ steps_in word.now }
    ensures some { IfSome result (λ n. 0 < n) }
    ensures bound { IfSome result (λ n. n ≤ most_steps) }
{
    plain_decimal_in(word, 1, MOST_STEPS)
}

// The content of a line of two words: `step N` or `back N`.
fn two_words(word: &[u8], number: &[u8]) -> SessionLine
    ensures value { result ≡ two_words word.now number.now }
    ensures bounds { IsBounded result }
{
    let is_step = is_text(b"step", word);
    if !is_step && !is_text(b"back", word) {
        return SessionLine::Unknown;
    }
    match steps_in(number) {
        Some(n) if is_step => SessionLine::Step(n as u32),
        Some(n) => SessionLine::Back(n as u32),
        None => SessionLine::Unknown,
    }
}

// The content of a line of three words: `break S W` or `seg S W`.
fn three_words(word: &[u8], seg: &[u8], place: &[u8]) -> SessionLine
    ensures value { result ≡ three_words word.now seg.now place.now }
    ensures bounds { IsBounded result }
{
    let is_break = is_text(b"break", word);
    if !is_break && !is_text(b"seg", word) {
        return SessionLine::Unknown;
    }
    match (octal_in(seg, 5), octal_in(place, 6)) {
        (Some(seg), Some(place)) if is_break => SessionLine::Break(seg as u16, place as u32),
        (Some(seg), Some(place)) => SessionLine::Seg(seg as u16, place as u32),
        _ => SessionLine::Unknown,
    }
}

// The content of a line, by the number of its words.
fn line_of_words(line: &[u8]) -> SessionLine
    ensures value { result ≡ line_of_words (words_of line.now) }
    ensures bounds { IsBounded result }
{
    let (word, rest) = first_word(line);
    let Some(rest) = rest else {
        return one_word(word);
    };
    let (second, rest) = first_word(rest);
    let Some(rest) = rest else {
        return two_words(word, second);
    };
    match only_word(rest) {
        Some(third) => three_words(word, second, third),
        None => SessionLine::Unknown,
    }
}

/// Parses a line. A line with more than 256 bytes is unknown.
#[tactic(auto, unfolding(crate::specs::SessionLines::session_line))]
pub fn session_line(line: &[u8]) -> SessionLine
    ensures value { result ≡ session_line line.now }
    ensures bounds { IsBounded result }
{
    if line.len() > LONGEST_LINE {
        return SessionLine::Unknown;
    }
    line_of_words(line)
}
