//! Operands that are lists: symbols or numbers, separated by commas.

ghost use Rattle.std.specs.Prelude.{◌≡◌, ◌^◌, ◌<◌, IfSome, IfOk, length};
ghost use Rattle.std.specs.List.{list_all, find};
ghost use Rattle.std.specs.Option.{option_copied};
ghost use Rattle.alm_tokens.specs.Lists.{members, is_symbol_at, member_has_form_of};
ghost use Rattle.alm_tokens.specs.Lists.{is_out_of_range, first_out_of_range_place};

use crate::numerals::{Numeral, has_form_of, is_number_out_of_range};
use crate::pieces::{Pieces, Separator, TextPiece, pieces_of};
use crate::span::{Span, bytes_of};
use crate::tokens::is_symbol;
use m36_word::NoMemory;
use std::alloc::Global;

/// The members of a list. There is at least one, perhaps empty. Fails only with `NoMemory`.
#[tactic(auto, unfolding(crate::specs::Lists::members))]
pub fn members(alloc: Global, text: &[u8], operand: Span) -> Result<Pieces, NoMemory>
    requires { length text.now < 2 ^ 32 }
    ensures { IfOk result (λ p. p ≡ members text.now operand) }
{
    let whole = TextPiece {
        span: operand,
        minus: false,
    };
    pieces_of(alloc, Separator::Comma, text, whole)
}

/// Whether a member is a symbol.
pub fn is_symbol_at(text: &[u8], member: &TextPiece) -> bool
    ensures { result ≡ is_symbol_at text.now member.now }
{
    is_symbol(bytes_of(text, member.span))
}

/// Whether each member is a symbol.
pub fn are_symbols(text: &[u8], members: &[TextPiece]) -> bool
    ensures { result ≡ list_all (is_symbol_at text.now) members.now }
{
    members.iter().all(|member| is_symbol_at(text, member))
}

/// Whether a member has the form of this kind of number.
pub fn member_has_form_of(numeral: Numeral, text: &[u8], member: &TextPiece) -> bool
    ensures { result ≡ member_has_form_of numeral text.now member.now }
{
    has_form_of(numeral, bytes_of(text, member.span))
}

/// Whether each member has the form of this kind of number.
pub fn members_have_form_of(numeral: Numeral, text: &[u8], members: &[TextPiece]) -> bool
    ensures { result ≡ list_all (member_has_form_of numeral text.now) members.now }
{
    members
        .iter()
        .all(|member| member_has_form_of(numeral, text, member))
}

// Whether a member is a number out of its range.
fn is_out_of_range(numeral: Numeral, text: &[u8], member: &TextPiece) -> bool
    ensures { result ≡ is_out_of_range numeral text.now member.now }
{
    is_number_out_of_range(numeral, bytes_of(text, member.span))
}

// The first member that is a number out of its range.
fn first_out_of_range<'a>(
    numeral: Numeral,
    text: &[u8],
    members: &'a [TextPiece],
) -> Option<&'a TextPiece>
    ensures { option_copied result ≡ find (is_out_of_range numeral text.now) members.now }
{
    members
        .iter()
        .find(|member| is_out_of_range(numeral, text, *member))
}

/// The index in the text of the first member that is a number out of its range.
#[tactic(auto, unfolding(crate::specs::Lists::first_out_of_range_place))]
pub fn first_out_of_range_place(numeral: Numeral, text: &[u8], members: &[TextPiece]) -> Option<u32>
    ensures value { result ≡ first_out_of_range_place numeral text.now members.now }
    ensures within { IfSome result (λ place. place < length text.now) }
{
    match first_out_of_range(numeral, text, members) {
        Some(member) => Some(member.span.from),
        None => None,
    }
}
