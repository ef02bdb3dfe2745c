//! Parses operands that are lists, separated by commas.

ghost use Rattle.std.specs.Prelude.{◌≡◌, ◌^◌, ◌<◌, None, IfOk, IfErr, length, map};
ghost use Rattle.std.specs.List.{list_all};
ghost use Rattle.m36_text.specs.Results.{value_unless};
ghost use Rattle.alm_tokens.specs.Lists.{is_symbol_at};
ghost use Rattle.alm_parse.specs.Members.{symbol_arg, number_arg, parse_symbols};
ghost use Rattle.alm_parse.specs.Members.{numbers_of_members, parse_numbers};
ghost use Rattle.alm_parse.specs.Refusals.{operand_form_refusal, IsParserResultOf, ErrorIsInside};

use crate::args::{Arg, Args};
use crate::refusal::{ParseError, operand_form_refusal};
use alm_tokens::lists::{are_symbols, first_out_of_range_place, members, members_have_form_of};
use alm_tokens::numerals::{Numeral, number_word};
use alm_tokens::pieces::TextPiece;
use alm_tokens::span::{Span, bytes_of};
use m36_word::NoMemory;
use std::alloc::Global;

// The arguments that are the symbols of these members.
fn symbol_args(alloc: Global, members: &[TextPiece]) -> Result<Args, NoMemory>
    ensures { IfOk result (λ args. args ≡ map symbol_arg members.now) }
{
    let mut args = Args::new(alloc);
    for member in members {
        args.push(Arg::Symbol(member.span))?;
    }
    Ok(args)
}

// The arguments of these members, which must be symbols. `at` is the index of the operand.
fn symbols_of(
    alloc: Global,
    text: &[u8],
    at: u32,
    members: &[TextPiece],
) -> Result<Args, ParseError>
    requires { at < length text.now }
    ensures value { IsParserResultOf result
        (value_unless (operand_form_refusal text.now at
        (list_all (is_symbol_at text.now) members.now) None)
        (map symbol_arg members.now)) }
    ensures inside { IfErr result (ErrorIsInside (length text.now)) }
{
    let form = are_symbols(text, members);
    if let Some(refusal) = operand_form_refusal(text, at, form, None) {
        return Err(ParseError::Refused(refusal));
    }
    Ok(symbol_args(alloc, members)?)
}

/// Parses symbols separated by commas.
#[tactic(auto, unfolding(crate::specs::Members::parse_symbols))]
pub fn symbols_args(alloc: Global, text: &[u8], operand: Span) -> Result<Args, ParseError>
    requires text { length text.now < 2 ^ 32 }
    requires inside { operand.from < length text.now }
    ensures value { IsParserResultOf result (parse_symbols text.now operand) }
    ensures inside { IfErr result (ErrorIsInside (length text.now)) }
{
    let members = members(alloc, text, operand)?;
    let given = symbols_of(alloc, text, operand.from, members.items());
    // Dropped explicitly, so that the drop is proved once for its type. Likewise below.
    drop(members);
    given
}

/// A number as an argument.
pub fn number_arg(numeral: Numeral, text: &[u8], member: &TextPiece) -> Arg
    ensures { result ≡ number_arg numeral text.now member.now }
{
    Arg::Number(number_word(numeral, bytes_of(text, member.span)))
}

// The arguments that are the words of the numbers of these members.
fn number_args(
    alloc: Global,
    numeral: Numeral,
    text: &[u8],
    members: &[TextPiece],
) -> Result<Args, NoMemory>
    ensures { IfOk result (λ args. args ≡ map (number_arg numeral text.now) members.now) }
{
    let mut args = Args::new(alloc);
    for member in members {
        args.push(number_arg(numeral, text, member))?;
    }
    Ok(args)
}

// The arguments of these members, which must be numbers. `at` is the index of the operand.
fn numbers_of_members(
    alloc: Global,
    numeral: Numeral,
    text: &[u8],
    at: u32,
    members: &[TextPiece],
) -> Result<Args, ParseError>
    requires { at < length text.now }
    ensures value { IsParserResultOf result (numbers_of_members numeral text.now at members.now) }
    ensures inside { IfErr result (ErrorIsInside (length text.now)) }
{
    let form = members_have_form_of(numeral, text, members);
    let over = first_out_of_range_place(numeral, text, members);
    if let Some(refusal) = operand_form_refusal(text, at, form, over) {
        return Err(ParseError::Refused(refusal));
    }
    Ok(number_args(alloc, numeral, text, members)?)
}

/// Parses numbers separated by commas.
#[tactic(auto, unfolding(crate::specs::Members::parse_numbers))]
pub fn numbers_args(
    alloc: Global,
    numeral: Numeral,
    text: &[u8],
    operand: Span,
) -> Result<Args, ParseError>
    requires text { length text.now < 2 ^ 32 }
    requires inside { operand.from < length text.now }
    ensures value { IsParserResultOf result (parse_numbers numeral text.now operand) }
    ensures inside { IfErr result (ErrorIsInside (length text.now)) }
{
    let members = members(alloc, text, operand)?;
    let given = numbers_of_members(alloc, numeral, text, operand.from, members.items());
    drop(members);
    given
}
