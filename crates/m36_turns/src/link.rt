//! The line of a link service.

ghost use Rattle.std.specs.Prelude.{◌≡◌, ◌+◌, ◌≤◌, ◌<◌, ◌^◌, ◌++◌, length};
ghost use Rattle.m36_text.specs.Digits.{word_text};
ghost use Rattle.m36_trace.specs.TraceLine.{segment_word_text};
ghost use Rattle.m36_turns.specs.TurnLines.{link_code_text, pair_text, link_answer_text};
ghost use Rattle.m36_turns.specs.TurnLines.{link_line_of};

use crate::append::append;
use arrayvec::ArrayVec;
use m36_model::{At, LinkCode};
use m36_step::LinkNote;
use m36_text::octal;
use m36_trace::place_digits;
use m36_word::{Pair, Word};

/// The name of the code with which a link service refused a link.
pub(crate) fn link_code_name(code: LinkCode) -> &'static str
    ensures text { result.now ≡ link_code_text code }
    ensures len { length result.now ≡ 2 }
{
    match code {
        LinkCode::L1 => "L1",
        LinkCode::L2 => "L2",
        LinkCode::L3 => "L3",
        LinkCode::L4 => "L4",
        LinkCode::L5(_) => "L5",
        LinkCode::L6(_, _) => "L6",
    }
}

// Appends a segment number and a word number.
fn put_place(line: &mut ArrayVec<u8, 160>, at: At)
    requires { length line.old.items + 12 ≤ 160 }
    ensures text { line.new.items ≡ line.old.items ++ segment_word_text at.seg at.word }
    ensures len { length line.new.items ≡ length line.old.items + 12 }
{
    let digits = place_digits(at.seg, at.word);
    append(line, &digits);
}

// Appends a word in octal.
fn put_word(line: &mut ArrayVec<u8, 160>, word: Word)
    requires { length line.old.items + 12 ≤ 160 }
    ensures text { line.new.items ≡ line.old.items ++ word_text word }
    ensures len { length line.new.items ≡ length line.old.items + 12 }
{
    append(line, octal(word.value(), 12).as_str().as_bytes());
}

// Appends a pair, as two words in octal with a space between them.
fn put_pair(line: &mut ArrayVec<u8, 160>, pair: Pair)
    requires { length line.old.items + 25 ≤ 160 }
    ensures text { line.new.items ≡ line.old.items ++ pair_text pair }
    ensures len { length line.new.items ≡ length line.old.items + 25 }
{
    put_word(line, pair.even);
    append(line, b" ");
    put_word(line, pair.odd);
}

// Appends the pair, or the name of the code.
fn put_answer(line: &mut ArrayVec<u8, 160>, answer: &Result<Pair, LinkCode>)
    requires { length line.old.items + 25 ≤ 160 }
    ensures text { line.new.items ≡ line.old.items ++ link_answer_text answer.now }
    ensures len { length line.new.items ≤ length line.old.items + 25 }
{
    match answer {
        Ok(pair) => put_pair(line, *pair),
        Err(code) => append(line, link_code_name(*code).as_bytes()),
    }
}

/// The line of a link service, without a line feed. It has at most 111 bytes.
#[tactic(auto, unfolding(crate::specs::TurnLines::link_line_of), using(crate::proofs::Lines::linked_in_turn))]
pub fn link_line(note: &LinkNote) -> ArrayVec<u8, 160>
    ensures text { result.items ≡ link_line_of note.now }
    ensures len { length result.items ≤ 111 }
{
    let mut line = ArrayVec::new();
    append(&mut line, b"link ");
    append(&mut line, octal(note.ring as u64, 1).as_str().as_bytes());
    append(&mut line, b" ");
    put_place(&mut line, note.at);
    append(&mut line, b" ");
    append(&mut line, note.name.as_slice());
    append(&mut line, b" ");
    put_answer(&mut line, &note.answer);
    line
}
