//! Writes the fields of a trace line into a buffer, each at an index and with a space after it.
//! Each function returns the index after the space. A kept part is written with its padding; the
//! next field overwrites that.

ghost use Rattle.std.specs.Prelude.{◌≡◌, ◌+◌, ◌-◌, ◌≤◌, ◌++◌, [], ◌∷◌, length, take, codes};
ghost use Rattle.m36_text.specs.Digits.{decimal_text, word_text};
ghost use Rattle.m36_text.specs.Lines.{as_line};
ghost use Rattle.m36_trace.specs.TraceLine.{instruction_text, letter, indicators_text};
ghost use Rattle.m36_trace.specs.Spaced.{with_space, kept_place, kept_final};

use crate::parts::{NumberPart, RingSegmentPart, WordPart};
use crate::triples::{put_half, put_word};
use m36_model::{Final, Ind};
use m36_outside::spelled::put_at;
use m36_word::Word;

/// The character between a ring and its segment: a space for the instruction, a colon in an
/// address.
pub const SPACE: u8 = b' ';

pub const COLON: u8 = b':';

/// Writes the number of the step at the beginning.
#[inline(always)]
pub fn put_number(into: &mut [u8], number: &NumberPart) -> usize
    requires { 16 ≤ length into.old }
    ensures bound { result ≤ 16 }
    ensures text { take result into.new ≡ with_space (decimal_text (number.now.next - 1)) }
{
    put_at(into, 0, &number.bytes);
    number.last + 2
}

/// Writes a kept ring and segment number, and a word number.
#[inline(always)]
#[tactic(auto, using(crate::proofs::FieldsPut::place_put))]
pub fn put_place<const MARK: u8>(
    into: &mut [u8],
    place: usize,
    front: &RingSegmentPart<MARK>,
    word: u32,
) -> usize
    requires { place + 15 ≤ length into.old }
    ensures end { result ≡ place + 15 }
    ensures text { take result into.new
        ≡ take place into.old ++ with_space (kept_place front.now.ring MARK front.now.seg word) }
{
    put_at(into, place, &front.bytes);
    put_half(into, place + 8, word)
}

// Writes a dash, for what a step does not have.
#[inline(always)]
fn put_dash(into: &mut [u8], place: usize) -> usize
    requires { place + 2 ≤ length into.old }
    ensures end { result ≡ place + 2 }
    ensures text { take result into.new ≡ take place into.old ++ with_space (codes "-") }
{
    put_at(into, place, b"- ");
    place + 2
}

/// Writes the instruction's word, or a dash.
#[inline(always)]
pub fn put_instruction(into: &mut [u8], place: usize, word: Option<Word>) -> usize
    requires { place + 13 ≤ length into.old }
    ensures bound { result ≤ place + 13 }
    ensures text { take result into.new
        ≡ take place into.old ++ with_space (instruction_text word) }
{
    match word {
        Some(word) => put_word(into, place, word),
        None => put_dash(into, place),
    }
}

// Writes an equals sign and a word.
#[inline(always)]
#[tactic(auto, using(crate::proofs::FieldsPut::operand_put))]
fn put_operand(into: &mut [u8], place: usize, word: Word) -> usize
    requires { place + 14 ≤ length into.old }
    ensures end { result ≡ place + 14 }
    ensures text { take result into.new
        ≡ take place into.old ++ with_space (codes "=" ++ word_text word) }
{
    put_at(into, place, b"=");
    put_word(into, place + 1, word)
}

/// Writes the final address, whose ring and segment number are kept, or the direct operand, or a
/// dash.
#[inline(always)]
pub fn put_final(
    into: &mut [u8],
    place: usize,
    front: &RingSegmentPart<COLON>,
    end: &Option<Final>,
) -> usize
    requires { place + 15 ≤ length into.old }
    ensures bound { result ≤ place + 15 }
    ensures text { take result into.new
        ≡ take place into.old ++ with_space (kept_final front.now.ring front.now.seg end.now) }
{
    match end {
        Some(end) => match end.direct {
            Some(word) => put_operand(into, place, word),
            None => put_place(into, place, front, end.at.word),
        },
        None => put_dash(into, place),
    }
}

/// Writes a kept word.
#[inline(always)]
pub fn put_word_part(into: &mut [u8], place: usize, part: &WordPart) -> usize
    requires { place + 16 ≤ length into.old }
    ensures end { result ≡ place + 13 }
    ensures text { take result into.new
        ≡ take place into.old ++ with_space (word_text part.now.of) }
{
    put_at(into, place, &part.bytes);
    place + 13
}

/// The letter of an indicator that is on, or a point for one that is off.
#[inline(always)]
fn letter(name: u8, on: bool) -> u8
    ensures { result ∷ [] ≡ letter (name ∷ []) on }
{
    if on { name } else { b'.' }
}

/// Writes the indicators, the outcome `next` and the line feed.
#[inline(always)]
pub fn put_line_end(into: &mut [u8], place: usize, ind: &Ind) -> usize
    requires { place + 12 ≤ length into.old }
    ensures end { result ≡ place + 12 }
    ensures text { take result into.new
        ≡ take place into.old ++ as_line (indicators_text ind.now ++ codes " next") }
{
    let last = [
        letter(b'z', ind.zero),
        letter(b'n', ind.negative),
        letter(b'c', ind.carry),
        letter(b'o', ind.overflow),
        letter(b'm', ind.mask),
        letter(b't', ind.tally),
        b' ',
        b'n',
        b'e',
        b'x',
        b't',
        b'\n',
    ];
    put_at(into, place, &last);
    place + 12
}
