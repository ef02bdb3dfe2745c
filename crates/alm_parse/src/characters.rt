//! The operand of `aci`: characters between two delimiters.

ghost use Rattle.std.specs.Prelude.{◌∷◌, ◌≡◌, ◌^◌, ◌<◌, ◌+◌, ◌==◌, not, slice_index, drop, length};
ghost use Rattle.std.specs.Prelude.{Option, IfSome, IfOk, IfErr};
ghost use Rattle.std.specs.List.{find, position};
ghost use Rattle.std.specs.Option.{option_copied};
ghost use Rattle.alm_tokens.specs.Bytes.{is_blank, is_placeable_character};
ghost use Rattle.alm_parse.specs.Characters.{first_word, packed_words, is_blank_or_comment};
ghost use Rattle.alm_parse.specs.Characters.{first_bad_place, parse_characters};
ghost use Rattle.alm_parse.specs.Refusals.{IsParserResultOf, ErrorIsInside};

use crate::args::{Arg, Args, one_arg};
use crate::body::place_of;
use crate::refusal::{ParseCode, ParseError, ParseRefusal, byte_at};
use alm_tokens::bytes::{is_blank, is_placeable_character};
use alm_tokens::span::{Span, bytes_of};
use m36_word::{NoMemory, Word, Words};
use std::alloc::Global;

// The byte at an index; 0 past the end.
fn byte_or_zero(bytes: &[u8], place: usize) -> u64
    ensures value { result ≡ slice_index bytes.now place }
    ensures below { result < 256 }
{
    if place < bytes.len() {
        bytes[place] as u64
    } else {
        0
    }
}

// The word of the first four characters; missing ones are 0.
#[tactic(auto, unfolding(crate::specs::Characters::first_word))]
fn word_of_four(bytes: &[u8]) -> Word
    ensures { result ≡ first_word bytes.now }
{
    let high = (byte_or_zero(bytes, 0) << 27) + (byte_or_zero(bytes, 1) << 18);
    Word::low(high + (byte_or_zero(bytes, 2) << 9) + byte_or_zero(bytes, 3))
}

// The word of the first four characters, or of all if there are fewer.
#[tactic(auto, using(crate::proofs::Packed::packed_first))]
fn first_word(bytes: &[u8]) -> Word
    requires { 0 < length bytes.now }
    ensures { packed_words bytes.now ≡ result ∷ packed_words (drop 4 bytes.now) }
{
    word_of_four(bytes)
}

// The characters after the first four.
fn after_four(bytes: &[u8]) -> &[u8]
    ensures value { result.now ≡ drop 4 bytes.now }
    ensures shorter { 0 < length bytes.now → length result.now < length bytes.now }
{
    match bytes {
        [_, _, _, _, rest @ ..] => rest,
        _ => &[],
    }
}

// The words of characters, four in each word with nine bits each. Zeros follow the last character.
#[tactic(auto, using(crate::proofs::Packed::packed_none))]
fn packed_words(alloc: Global, bytes: &[u8]) -> Result<Words, NoMemory>
    ensures { IfOk result (λ words. words ≡ packed_words bytes.now) }
{
    let mut words = Words::new(alloc);
    let mut rest = bytes;
    while !rest.is_empty() {
        words.push(first_word(rest))?;
        rest = after_four(rest);
    }
    Ok(words)
}

// The first byte that is neither a space nor a tab.
fn first_no_blank(bytes: &[u8]) -> Option<&u8>
    ensures { option_copied result ≡ find (λ b. not (is_blank b)) bytes.now }
{
    bytes.iter().find(|b| !is_blank(**b))
}

// Whether a text has only blanks, and perhaps a comment, as it must after the closing delimiter.
fn is_blank_or_comment(bytes: &[u8]) -> bool
    ensures { result ≡ is_blank_or_comment bytes.now }
{
    match first_no_blank(bytes) {
        Some(byte) => *byte == b'"',
        None => true,
    }
}

// The index of the first byte that cannot be placed.
fn first_no_character(bytes: &[u8]) -> Option<usize>
    ensures value { result ≡ position (λ b. not (is_placeable_character b)) bytes.now }
    ensures within { IfSome result (λ i. i < length bytes.now) }
{
    bytes.iter().position(|b| !is_placeable_character(*b))
}

// The index in the text of the first byte of a span that cannot be placed.
#[tactic(auto, unfolding(crate::specs::Characters::first_bad_place))]
fn first_bad_place(text: &[u8], span: Span) -> Option<u32>
    requires { length text.now < 2 ^ 32 }
    ensures value { result ≡ first_bad_place text.now span }
    ensures within { IfSome result (λ i. i < length text.now) }
{
    let place = first_no_character(bytes_of(text, span))?;
    Some(span.from + place as u32)
}

/// Parses characters between delimiters. `rest` begins with the first delimiter and extends to the
/// end of the line.
#[tactic(auto, unfolding(crate::specs::Characters::parse_characters))]
pub fn characters_args(alloc: Global, text: &[u8], rest: Span) -> Result<Args, ParseError>
    requires text { length text.now < 2 ^ 32 }
    requires inside { rest.from < length text.now }
    ensures value { IsParserResultOf result (parse_characters text.now rest) }
    ensures inside { IfErr result (ErrorIsInside (length text.now)) }
{
    let delimiter = byte_at(text, rest.from);
    if !is_placeable_character(delimiter) {
        return Err(ParseError::Refused(ParseRefusal {
            place: rest.from,
            code: ParseCode::E1,
        }));
    }
    let from = rest.from + 1;
    let Some(close) = place_of(text, Span { from, to: rest.to }, delimiter) else {
        return Err(ParseError::Refused(ParseRefusal {
            place: rest.from,
            code: ParseCode::E2,
        }));
    };
    let behind = Span {
        from: close + 1,
        to: rest.to,
    };
    if !is_blank_or_comment(bytes_of(text, behind)) {
        return Err(ParseError::Refused(ParseRefusal {
            place: rest.from,
            code: ParseCode::E2,
        }));
    }
    let span = Span { from, to: close };
    if let Some(place) = first_bad_place(text, span) {
        return Err(ParseError::Refused(ParseRefusal {
            place,
            code: ParseCode::E1,
        }));
    }
    let words = packed_words(alloc, bytes_of(text, span))?;
    Ok(one_arg(alloc, Arg::Chars(words))?)
}
