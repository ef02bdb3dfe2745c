//! Parses the operand of an instruction.

ghost use Rattle.std.specs.Prelude.{◌≡◌, ◌^◌, ◌<◌, Option, IfSome, IfErr, length};
ghost use Rattle.alm_parse.specs.Operands.{body_span, modifier_tag_after_comma, entry_if_any};
ghost use Rattle.alm_parse.specs.Operands.{operand_of, parse_operand};
ghost use Rattle.alm_parse.specs.Refusals.{IsParserResultOf, ErrorIsInside};

use crate::args::{Arg, Args, one_arg};
use crate::body::{Body, body_of, body_pieces, has_valid_parts, place_of};
use crate::refusal::{ParseError, operand_form_refusal};
use alm_tokens::expression::{Expr, are_terms, expr_of};
use alm_tokens::lists::first_out_of_range_place;
use alm_tokens::modifiers::{pr_number, tag_of};
use alm_tokens::numerals::Numeral;
use alm_tokens::span::{Span, bytes_of};
use std::alloc::Global;

// The operand without its modifier, given the index of the comma.
fn body_span(operand: Span, comma: Option<u32>) -> Span
    ensures { result ≡ body_span operand comma }
{
    match comma {
        Some(comma) => Span {
            from: operand.from,
            to: comma,
        },
        None => operand,
    }
}

// The tag of the modifier after the comma, and 0 if there is no comma. None if no modifier has this
// text.
fn modifier_tag_after_comma(text: &[u8], operand: Span, comma: Option<u32>) -> Option<u8>
    requires text { length text.now < 2 ^ 32 }
    requires comma { IfSome comma (λ i. i < length text.now) }
    ensures value { result ≡ modifier_tag_after_comma text.now operand comma }
    ensures below { IfSome result (λ n. n < 64) }
{
    match comma {
        Some(comma) => tag_of(bytes_of(
            text,
            Span {
                from: comma + 1,
                to: operand.to,
            },
        )),
        None => Some(0),
    }
}

// The entry of an external operand. None if it is empty.
fn entry_if_any(text: &[u8], span: Span) -> Option<Span>
    ensures { result ≡ entry_if_any text.now span }
{
    if bytes_of(text, span).is_empty() {
        None
    } else {
        Some(span)
    }
}

// The argument of an operand with these parts, this expression and this tag.
fn operand_of(text: &[u8], body: Body, expr: Expr, tag: u8) -> Arg
    ensures { result ≡ operand_of text.now body expr tag }
{
    match body {
        Body::Through(pr, _) => Arg::Operand {
            pr: pr_number(bytes_of(text, pr)),
            seg: None,
            entry: None,
            expr,
            tag,
        },
        Body::External(segment, entry, _) => Arg::Operand {
            pr: None,
            seg: Some(segment),
            entry: entry_if_any(text, entry),
            expr,
            tag,
        },
        Body::Plain(_) => Arg::Operand {
            pr: None,
            seg: None,
            entry: None,
            expr,
            tag,
        },
    }
}

/// Parses the operand of an instruction, which has at least one byte.
#[tactic(auto, unfolding(crate::specs::Operands::parse_operand))]
pub fn operand_args(alloc: Global, text: &[u8], operand: Span) -> Result<Args, ParseError>
    requires text { length text.now < 2 ^ 32 }
    requires inside { operand.from < length text.now }
    ensures value { IsParserResultOf result (parse_operand text.now operand) }
    ensures inside { IfErr result (ErrorIsInside (length text.now)) }
{
    let comma = place_of(text, operand, b',');
    let tag = modifier_tag_after_comma(text, operand, comma);
    let body = body_of(text, body_span(operand, comma));
    let pieces = body_pieces(alloc, text, body)?;
    let form = has_valid_parts(text, body) && are_terms(text, pieces.items()) && tag.is_some();
    let over = first_out_of_range_place(Numeral::Small, text, pieces.items());
    if let Some(refusal) = operand_form_refusal(text, operand.from, form, over) {
        return Err(ParseError::Refused(refusal));
    }
    let expr = expr_of(alloc, text, pieces.items())?;
    let arg = operand_of(text, body, expr, tag.unwrap_or(0));
    Ok(one_arg(alloc, arg)?)
}
