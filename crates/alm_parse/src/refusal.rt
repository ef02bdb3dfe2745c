//! Why a source is refused, and where.

ghost use Rattle.std.specs.Prelude.{◌≡◌, ◌^◌, ◌<◌, length, slice_index, IfSome};
ghost use Rattle.alm_parse.specs.Refusals.{refusal_at_token, operand_form_refusal, IsRefusedInside};
ghost use Rattle.alm_parse.specs.declared.refusal.ParseError.TheVariants as halt;

use alm_tokens::bytes::is_source_byte;
use m36_word::NoMemory;

/// What is wrong with a source that is not in the language.
#[derive(Clone, Copy)]
pub enum ParseCode {
    /// A byte that no source can have there.
    E1,
    /// A label or an operand that does not have its form, or an operation that lacks its operand or
    /// must not have one.
    E2,
    /// There is no such operation.
    E3,
    /// A number that is out of its range.
    E4,
}

/// A code, and the index in the text, counted from 0, of what it is about.
#[derive(Clone, Copy)]
pub struct ParseRefusal {
    pub place: u32,
    pub code: ParseCode,
}

/// Why a part of a source could not be parsed.
#[derive(Clone, Copy)]
pub enum ParseError {
    Refused(ParseRefusal),
    NoMemory,
}

impl From<ParseRefusal> for ParseError {
    ghost from_gives = { λ refusal made. made ≡ halt.Refused refusal };

    fn from(refusal: ParseRefusal) -> ParseError {
        ParseError::Refused(refusal)
    }
}

impl From<NoMemory> for ParseError {
    ghost from_gives = { λ _ made. made ≡ halt.NoMemory };

    fn from(_cause: NoMemory) -> ParseError {
        ParseError::NoMemory
    }
}

/// The byte at an index of a text, and 0 past the end.
pub fn byte_at(text: &[u8], place: u32) -> u8
    ensures { result ≡ slice_index text.now place }
{
    let place = place as usize;
    if place < text.len() { text[place] } else { 0 }
}

/// The refusal of a token that begins at an index. If the byte there is one that no source can
/// have, the code is E1.
#[tactic(auto, unfolding(crate::specs::Refusals::refusal_at_token))]
pub fn refusal_at_token(text: &[u8], place: u32, code: ParseCode) -> ParseRefusal
    ensures value { result ≡ refusal_at_token text.now place code }
    ensures place { result.place ≡ place }
{
    if is_source_byte(byte_at(text, place)) {
        ParseRefusal { place, code }
    } else {
        ParseRefusal {
            place,
            code: ParseCode::E1,
        }
    }
}

/// The refusal of an operand: E2 if it does not have its form, and otherwise E4 at its first number
/// out of range, if it has one.
pub fn operand_form_refusal(
    text: &[u8],
    operand: u32,
    form: bool,
    over: Option<u32>,
) -> Option<ParseRefusal>
    requires inside { operand < length text.now }
    requires over { IfSome over (λ place. place < length text.now) }
    ensures value { result ≡ operand_form_refusal text.now operand form over }
    ensures inside { IfSome result (IsRefusedInside (length text.now)) }
{
    if !form {
        return Some(refusal_at_token(text, operand, ParseCode::E2));
    }
    match over {
        Some(place) => Some(ParseRefusal {
            place,
            code: ParseCode::E4,
        }),
        None => None,
    }
}
