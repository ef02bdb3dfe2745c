//! Parses a line of a source.

ghost use Rattle.std.specs.Prelude.{◌≡◌, ◌^◌, ◌<◌, Option, Result, Ok, IfSome, IfOk, IfErr, length};
ghost use Rattle.m36_text.specs.Results.{and_then};
ghost use Rattle.std.specs.List.{All};
ghost use Rattle.alm_tokens.specs.Heads.{IsLabelSpan, IsTokenSpan};
ghost use Rattle.alm_parse.specs.Lines.{missing_operand_refusal, args_with, operand_for, args_of};
ghost use Rattle.alm_parse.specs.Lines.{is_no_symbol, label_refusal, line_of, line_with_head};
ghost use Rattle.alm_parse.specs.Lines.{parse_line};
ghost use Rattle.alm_parse.specs.Deeds.{effect_of_line};
ghost use Rattle.alm_parse.specs.Refusals.{IsParserResultOf, IsRefusedInside, ErrorIsInside};

use crate::args::Args;
use crate::characters::characters_args;
use crate::deed::LineEffect;
use crate::directives::{Meaning, meaning_of};
use crate::line::Line36;
use crate::members::{numbers_args, symbols_args};
use crate::operand::operand_args;
use crate::operation::Operation;
use crate::pairs::{block_args, halves_args, section_args, value_args};
use crate::refusal::{ParseCode, ParseError, ParseRefusal, refusal_at_token};
use alm_tokens::head::{Head, delimited_operand, head_of, operand_in};
use alm_tokens::numerals::Numeral;
use alm_tokens::rows::Row;
use alm_tokens::span::{Span, bytes_of};
use alm_tokens::tokens::is_symbol;
use std::alloc::Global;

// The refusal of an operation that lacks its operand, if it must have one. `at` is the index of the
// operation.
fn missing_operand_refusal(operation: Operation, at: u32) -> Option<ParseRefusal>
    ensures value { result ≡ missing_operand_refusal operation at }
    ensures place { IfSome result (λ refusal. refusal.place ≡ at) }
{
    match operation {
        Operation::Instruction | Operation::Bare | Operation::End => None,
        Operation::Names
        | Operation::Value
        | Operation::Section
        | Operation::Decimal
        | Operation::Octal
        | Operation::Characters
        | Operation::Halves
        | Operation::Block => Some(ParseRefusal {
            place: at,
            code: ParseCode::E2,
        }),
    }
}

// Parses the operand of an operation, by the kind that the operation has.
fn args_with(
    alloc: Global,
    operation: Operation,
    text: &[u8],
    operand: Span,
) -> Result<Args, ParseError>
    requires text { length text.now < 2 ^ 32 }
    requires inside { operand.from < length text.now }
    ensures value { IsParserResultOf result (args_with operation text.now operand) }
    ensures inside { IfErr result (ErrorIsInside (length text.now)) }
{
    match operation {
        Operation::Instruction => operand_args(alloc, text, operand),
        Operation::Names => symbols_args(alloc, text, operand),
        Operation::Value => value_args(alloc, text, operand),
        Operation::Section => section_args(alloc, text, operand),
        Operation::Decimal => numbers_args(alloc, Numeral::Decimal, text, operand),
        Operation::Octal => numbers_args(alloc, Numeral::Octal, text, operand),
        Operation::Characters => characters_args(alloc, text, operand),
        Operation::Halves => halves_args(alloc, text, operand),
        Operation::Block => block_args(alloc, text, operand),
        Operation::Bare => Err(ParseError::Refused(refusal_at_token(
            text,
            operand.from,
            ParseCode::E2,
        ))),
        Operation::End => Ok(Args::new(alloc)),
    }
}

// The operand of an operation, in the text after it in its line. None if there is none.
fn operand_for(operation: Operation, text: &[u8], rest: Span) -> Option<Span>
    requires { length text.now < 2 ^ 32 }
    ensures value { result ≡ operand_for operation text.now rest }
    ensures within { IfSome result (λ span. span.from < length text.now) }
{
    match operation {
        Operation::Characters => delimited_operand(text, rest),
        _ => operand_in(text, rest),
    }
}

// The arguments of an operation. It begins at the index `op`, and `rest` is the text after it in
// its line.
#[tactic(auto, unfolding(crate::specs::Lines::args_of))]
fn args_of(
    alloc: Global,
    operation: Operation,
    text: &[u8],
    op: u32,
    rest: Span,
) -> Result<Args, ParseError>
    requires text { length text.now < 2 ^ 32 }
    requires inside { op < length text.now }
    ensures value { IsParserResultOf result (args_of operation text.now op rest) }
    ensures inside { IfErr result (ErrorIsInside (length text.now)) }
{
    match operand_for(operation, text, rest) {
        Some(operand) => args_with(alloc, operation, text, operand),
        None => match missing_operand_refusal(operation, op) {
            Some(refusal) => Err(ParseError::Refused(refusal)),
            None => Ok(Args::new(alloc)),
        },
    }
}

// Whether a label is not a symbol.
fn is_no_symbol(text: &[u8], span: Span) -> bool
    ensures { result ≡ is_no_symbol text.now span }
{
    !is_symbol(bytes_of(text, span))
}

// The refusal of the first label that is not a symbol.
#[tactic(auto, using(crate::proofs::Inside::mark_inside), unfolding(crate::specs::Lines::label_refusal))]
fn label_refusal(text: &[u8], labels: &[Span]) -> Option<ParseRefusal>
    requires { All (IsLabelSpan (length text.now)) labels.now }
    ensures value { result ≡ label_refusal text.now labels.now }
    ensures inside { IfSome result (IsRefusedInside (length text.now)) }
{
    match labels.iter().find(|label| is_no_symbol(text, **label)) {
        Some(label) => Some(refusal_at_token(text, label.from, ParseCode::E2)),
        None => None,
    }
}

// The line with these labels, this operation, and these arguments and effect.
fn line_of(text: &[u8], row: Row, head: Head, given: Given) -> Line36
    requires { given.deed ≡ effect_of_line text.now head.op }
    ensures { result ≡ line_of text.now row head given.args }
{
    let Head { labels, op } = head;
    let Given { args, deed } = given;
    Line36 {
        labels,
        args,
        op,
        start: row.span.from,
        line: row.number,
        deed,
    }
}

// The arguments of the operation of a line, and its effect.
#[derive(Drop)]
struct Given {
    args: Args,
    deed: LineEffect,
}

// The arguments and the effect of the operation of a line, or the refusal of the line.
fn parse_line_parts(alloc: Global, text: &[u8], row: Row, head: &Head) -> Result<Given, ParseError>
    requires text { length text.now < 2 ^ 32 }
    requires marks { All (IsLabelSpan (length text.now)) head.now.labels }
    requires op { IfSome head.now.op (IsTokenSpan (length text.now)) }
    ensures value { IsParserResultOf (and_then result
        (λ given. Ok (line_of text.now row head.now given.args)))
        (line_with_head text.now row head.now) }
    ensures deed { IfOk result (λ given. given.deed ≡ effect_of_line text.now head.now.op) }
    ensures inside { IfErr result (ErrorIsInside (length text.now)) }
{
    if let Some(refusal) = label_refusal(text, head.labels.items()) {
        return Err(ParseError::Refused(refusal));
    }
    let Some(op) = head.op else {
        return Ok(Given {
            args: Args::new(alloc),
            deed: LineEffect::Nothing,
        });
    };
    let Some(Meaning { operation, deed }) = meaning_of(bytes_of(text, op)) else {
        return Err(ParseError::Refused(refusal_at_token(text, op.from, ParseCode::E3)));
    };
    let rest = Span {
        from: op.to,
        to: row.span.to,
    };
    match args_of(alloc, operation, text, op.from, rest) {
        Ok(args) => Ok(Given { args, deed }),
        Err(ParseError::Refused(refusal)) => Err(ParseError::Refused(refusal)),
        Err(ParseError::NoMemory) => Err(ParseError::NoMemory),
    }
}

/// Parses a line, or refuses it.
#[tactic(auto, unfolding(crate::specs::Lines::parse_line))]
pub fn read_line(alloc: Global, text: &[u8], row: Row) -> Result<Line36, ParseError>
    requires { length text.now < 2 ^ 32 }
    ensures value { IsParserResultOf result (parse_line text.now row) }
    ensures inside { IfErr result (ErrorIsInside (length text.now)) }
{
    let head = head_of(alloc, text, row.span)?;
    match parse_line_parts(alloc, text, row, &head) {
        Ok(given) => Ok(line_of(text, row, head, given)),
        Err(ParseError::Refused(refusal)) => {
            // Dropped explicitly, so that the drop is proved once for its type. Likewise below.
            drop(head);
            Err(ParseError::Refused(refusal))
        }
        Err(ParseError::NoMemory) => {
            drop(head);
            Err(ParseError::NoMemory)
        }
    }
}
