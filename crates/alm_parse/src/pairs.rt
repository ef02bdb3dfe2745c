//! Parses operands of two members, and names of sections.

ghost use Rattle.std.specs.Prelude.{[], ◌∷◌, ◌≡◌, ◌≤◌, ◌^◌, ◌<◌, Option, IfOk, IfErr, length, map};
ghost use Rattle.alm_tokens.specs.Expressions.{expression_pieces, term_of};
ghost use Rattle.alm_parse.specs.declared.args.Arg.TheVariants as arg;
ghost use Rattle.alm_parse.specs.Pairs.{value_of_terms, value_of_members, parse_value};
ghost use Rattle.alm_parse.specs.Pairs.{halves_of_terms, halves_of_members, parse_halves};
ghost use Rattle.alm_parse.specs.Pairs.{block_of_members, parse_block, used_section, parse_section};
ghost use Rattle.alm_parse.specs.Refusals.{IsParserResultOf, ErrorIsInside};

use crate::args::{Arg, Args, one_arg, two_args};
use crate::members::number_arg;
use crate::refusal::{ParseCode, ParseError, operand_form_refusal, refusal_at_token};
use alm_tokens::expression::{are_terms, expr_of, expression_pieces};
use alm_tokens::lists::{first_out_of_range_place, is_symbol_at, member_has_form_of, members};
use alm_tokens::numerals::Numeral;
use alm_tokens::pieces::TextPiece;
use alm_tokens::span::{Span, bytes_of};
use m36_text::is_text;
use m36_word::NoMemory;
use obj36_parts::Section;
use std::alloc::Global;

// The expression with these terms, as an argument.
fn plain_arg(alloc: Global, text: &[u8], pieces: &[TextPiece]) -> Result<Arg, NoMemory>
    requires { length pieces.now ≤ 2 ^ 32 }
    ensures { IfOk result (λ plain. plain ≡ arg.Plain (map (term_of text.now) pieces.now)) }
{
    Ok(Arg::Plain(expr_of(alloc, text, pieces)?))
}

// A symbol, and the expression with these terms. `at` is the index of the operand.
fn value_of_terms(
    alloc: Global,
    text: &[u8],
    at: u32,
    name: &TextPiece,
    pieces: &[TextPiece],
) -> Result<Args, ParseError>
    requires inside { at < length text.now }
    requires count { length pieces.now ≤ 2 ^ 32 }
    ensures value { IsParserResultOf result (value_of_terms text.now at name.now pieces.now) }
    ensures inside { IfErr result (ErrorIsInside (length text.now)) }
{
    let form = is_symbol_at(text, name) && are_terms(text, pieces);
    let over = first_out_of_range_place(Numeral::Small, text, pieces);
    if let Some(refusal) = operand_form_refusal(text, at, form, over) {
        return Err(ParseError::Refused(refusal));
    }
    let value = plain_arg(alloc, text, pieces)?;
    Ok(two_args(alloc, Arg::Symbol(name.span), value)?)
}

// A symbol and the expression in a piece. `at` is the index of the operand.
fn value_of_piece(
    alloc: Global,
    text: &[u8],
    at: u32,
    name: &TextPiece,
    value: TextPiece,
) -> Result<Args, ParseError>
    requires text { length text.now < 2 ^ 32 }
    requires inside { at < length text.now }
    ensures value { IsParserResultOf result
        (value_of_terms text.now at name.now (expression_pieces text.now value)) }
    ensures inside { IfErr result (ErrorIsInside (length text.now)) }
{
    let pieces = expression_pieces(alloc, text, value)?;
    let given = value_of_terms(alloc, text, at, name, pieces.items());
    // Dropped explicitly, so that the drop is proved once for its type. Likewise below.
    drop(pieces);
    given
}

// A symbol and an expression, if an operand has these two members.
fn value_of_members(
    alloc: Global,
    text: &[u8],
    at: u32,
    members: &[TextPiece],
) -> Result<Args, ParseError>
    requires text { length text.now < 2 ^ 32 }
    requires inside { at < length text.now }
    ensures value { IsParserResultOf result (value_of_members text.now at members.now) }
    ensures inside { IfErr result (ErrorIsInside (length text.now)) }
{
    let [name, value] = members else {
        return Err(ParseError::Refused(refusal_at_token(text, at, ParseCode::E2)));
    };
    value_of_piece(alloc, text, at, name, *value)
}

/// Parses a symbol and an expression.
#[tactic(auto, unfolding(crate::specs::Pairs::parse_value))]
pub fn value_args(alloc: Global, text: &[u8], operand: Span) -> Result<Args, ParseError>
    requires text { length text.now < 2 ^ 32 }
    requires inside { operand.from < length text.now }
    ensures value { IsParserResultOf result (parse_value text.now operand) }
    ensures inside { IfErr result (ErrorIsInside (length text.now)) }
{
    let members = members(alloc, text, operand)?;
    let given = value_of_members(alloc, text, operand.from, members.items());
    drop(members);
    given
}

// The two expressions with these terms, as arguments.
fn plain_args(
    alloc: Global,
    text: &[u8],
    left: &[TextPiece],
    right: &[TextPiece],
) -> Result<Args, NoMemory>
    requires left { length left.now ≤ 2 ^ 32 }
    requires right { length right.now ≤ 2 ^ 32 }
    ensures { IfOk result (λ args.
        args
        ≡ arg.Plain (map (term_of text.now) left.now)
        ∷ arg.Plain (map (term_of text.now) right.now) ∷ []) }
{
    let left = plain_arg(alloc, text, left)?;
    match plain_arg(alloc, text, right) {
        Ok(right) => two_args(alloc, left, right),
        Err(fault) => {
            drop(left);
            Err(fault)
        }
    }
}

// Two expressions with these terms. `at` is the index of the operand.
#[tactic(auto, using(crate::proofs::Inside::first_inside))]
fn halves_of_terms(
    alloc: Global,
    text: &[u8],
    at: u32,
    left: &[TextPiece],
    right: &[TextPiece],
) -> Result<Args, ParseError>
    requires inside { at < length text.now }
    requires left { length left.now ≤ 2 ^ 32 }
    requires right { length right.now ≤ 2 ^ 32 }
    ensures value { IsParserResultOf result (halves_of_terms text.now at left.now right.now) }
    ensures inside { IfErr result (ErrorIsInside (length text.now)) }
{
    let form = are_terms(text, left) && are_terms(text, right);
    let first = first_out_of_range_place(Numeral::Small, text, left);
    let second = first_out_of_range_place(Numeral::Small, text, right);
    let over = first.or(second);
    if let Some(refusal) = operand_form_refusal(text, at, form, over) {
        return Err(ParseError::Refused(refusal));
    }
    Ok(plain_args(alloc, text, left, right)?)
}

// Two expressions: the first has these terms, and the second is in a piece.
fn halves_after(
    alloc: Global,
    text: &[u8],
    at: u32,
    left: &[TextPiece],
    right: TextPiece,
) -> Result<Args, ParseError>
    requires text { length text.now < 2 ^ 32 }
    requires inside { at < length text.now }
    requires left { length left.now ≤ 2 ^ 32 }
    ensures value { IsParserResultOf result
        (halves_of_terms text.now at left.now (expression_pieces text.now right)) }
    ensures inside { IfErr result (ErrorIsInside (length text.now)) }
{
    let right = expression_pieces(alloc, text, right)?;
    let given = halves_of_terms(alloc, text, at, left, right.items());
    drop(right);
    given
}

// Two expressions in pieces.
fn halves_of_pieces(
    alloc: Global,
    text: &[u8],
    at: u32,
    left: TextPiece,
    right: TextPiece,
) -> Result<Args, ParseError>
    requires text { length text.now < 2 ^ 32 }
    requires inside { at < length text.now }
    ensures value { IsParserResultOf result
        (halves_of_terms text.now at (expression_pieces text.now left)
        (expression_pieces text.now right)) }
    ensures inside { IfErr result (ErrorIsInside (length text.now)) }
{
    let left = expression_pieces(alloc, text, left)?;
    let given = halves_after(alloc, text, at, left.items(), right);
    drop(left);
    given
}

// Two expressions, if an operand has these two members.
fn halves_of_members(
    alloc: Global,
    text: &[u8],
    at: u32,
    members: &[TextPiece],
) -> Result<Args, ParseError>
    requires text { length text.now < 2 ^ 32 }
    requires inside { at < length text.now }
    ensures value { IsParserResultOf result (halves_of_members text.now at members.now) }
    ensures inside { IfErr result (ErrorIsInside (length text.now)) }
{
    let [left, right] = members else {
        return Err(ParseError::Refused(refusal_at_token(text, at, ParseCode::E2)));
    };
    halves_of_pieces(alloc, text, at, *left, *right)
}

/// Parses two expressions.
#[tactic(auto, unfolding(crate::specs::Pairs::parse_halves))]
pub fn halves_args(alloc: Global, text: &[u8], operand: Span) -> Result<Args, ParseError>
    requires text { length text.now < 2 ^ 32 }
    requires inside { operand.from < length text.now }
    ensures value { IsParserResultOf result (parse_halves text.now operand) }
    ensures inside { IfErr result (ErrorIsInside (length text.now)) }
{
    let members = members(alloc, text, operand)?;
    let given = halves_of_members(alloc, text, operand.from, members.items());
    drop(members);
    given
}

// A symbol and a number, if an operand has these two members.
fn block_of_members(
    alloc: Global,
    text: &[u8],
    at: u32,
    members: &[TextPiece],
) -> Result<Args, ParseError>
    requires { at < length text.now }
    ensures value { IsParserResultOf result (block_of_members text.now at members.now) }
    ensures inside { IfErr result (ErrorIsInside (length text.now)) }
{
    let [name, count] = members else {
        return Err(ParseError::Refused(refusal_at_token(text, at, ParseCode::E2)));
    };
    let form = is_symbol_at(text, name) && member_has_form_of(Numeral::Small, text, count);
    let over = first_out_of_range_place(Numeral::Small, text, &[*count]);
    if let Some(refusal) = operand_form_refusal(text, at, form, over) {
        return Err(ParseError::Refused(refusal));
    }
    let count = number_arg(Numeral::Small, text, count);
    Ok(two_args(alloc, Arg::Symbol(name.span), count)?)
}

/// Parses a symbol and a number.
#[tactic(auto, unfolding(crate::specs::Pairs::parse_block))]
pub fn block_args(alloc: Global, text: &[u8], operand: Span) -> Result<Args, ParseError>
    requires text { length text.now < 2 ^ 32 }
    requires inside { operand.from < length text.now }
    ensures value { IsParserResultOf result (parse_block text.now operand) }
    ensures inside { IfErr result (ErrorIsInside (length text.now)) }
{
    let members = members(alloc, text, operand)?;
    let given = block_of_members(alloc, text, operand.from, members.items());
    drop(members);
    given
}

/// The section that is selected by this name after `use`. None if there is no such section.
#[tactic(auto, unfolding(crate::specs::Pairs::used_section))]
pub fn used_section(bytes: &[u8]) -> Option<Section>
    ensures { result ≡ used_section bytes.now }
{
    if is_text(b"text", bytes) {
        return Some(Section::Text);
    }
    if is_text(b"link", bytes) {
        return Some(Section::Linkage);
    }
    if is_text(b"static", bytes) {
        return Some(Section::Static);
    }
    None
}

/// Parses the name of a section.
#[tactic(auto, unfolding(crate::specs::Pairs::parse_section))]
pub fn section_args(alloc: Global, text: &[u8], operand: Span) -> Result<Args, ParseError>
    requires { operand.from < length text.now }
    ensures value { IsParserResultOf result (parse_section text.now operand) }
    ensures inside { IfErr result (ErrorIsInside (length text.now)) }
{
    let form = used_section(bytes_of(text, operand)).is_some();
    if let Some(refusal) = operand_form_refusal(text, operand.from, form, None) {
        return Err(ParseError::Refused(refusal));
    }
    Ok(one_arg(alloc, Arg::Symbol(operand))?)
}
