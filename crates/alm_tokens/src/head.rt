//! Finds the labels, the operation and the operand of a line.

ghost use Rattle.std.specs.Prelude.{◌≡◌, ◌^◌, ◌<◌, ◌≤◌, ◌==◌, not, Option, Some, None, IfSome};
ghost use Rattle.std.specs.Prelude.{IfOk, length};
ghost use Rattle.std.specs.List.{All, position};
ghost use Rattle.alm_tokens.specs.Bytes.{is_blank};
ghost use Rattle.alm_tokens.specs.Heads.{IsLabelSpan, IsTokenSpan, token_step, token, head_of};
ghost use Rattle.alm_tokens.specs.Heads.{operand_start, operand_end, operand_in, delimited_operand};

use crate::bytes::is_blank;
use crate::span::{Span, Spans, bytes_of, first_byte};
use m36_word::NoMemory;
use std::alloc::Global;

/// The effect of a byte on the tokens before the operand.
#[derive(Clone, Copy)]
pub enum TokenStep {
    /// The byte is the colon after a label.
    Label,
    /// The byte is a blank before a token.
    Skip,
    /// The byte follows the operation, and no more tokens are looked for.
    Stop,
    /// The byte belongs to a token.
    Go,
}

/// The labels of a line, and its operation, if it has one.
#[derive(Drop)]
pub struct Head {
    pub labels: Spans,
    pub op: Option<Span>,
}

// The effect of a byte. `fresh` is true if the token has no byte yet.
fn token_step(byte: u8, fresh: bool) -> TokenStep
    ensures { result ≡ token_step byte fresh }
{
    if byte == b':' {
        return TokenStep::Label;
    }
    if is_blank(byte) {
        return if fresh {
            TokenStep::Skip
        } else {
            TokenStep::Stop
        };
    }
    if byte == b'"' {
        return TokenStep::Stop;
    }
    TokenStep::Go
}

// The token between two indexes. None if it has no byte.
fn token(from: u32, to: u32) -> Option<Span>
    ensures value { result ≡ token from to }
    ensures begun { from ≤ to → IfSome result (IsTokenSpan to) }
{
    if from == to {
        None
    } else {
        Some(Span { from, to })
    }
}

/// The labels and the operation of a line. Fails only with `NoMemory`.
#[tactic(auto, using(crate::proofs::HeadLaws::heads), unfolding(crate::specs::Heads::head_of))]
pub fn head_of(alloc: Global, text: &[u8], line: Span) -> Result<Head, NoMemory>
    requires { length text.now < 2 ^ 32 }
    ensures value { IfOk result (λ head. head ≡ head_of text.now line) }
    ensures marks { IfOk result (λ head. All (IsLabelSpan (length text.now)) head.labels) }
    ensures op { IfOk result (λ head. IfSome head.op (IsTokenSpan (length text.now))) }
{
    let mut labels = Spans::new(alloc);
    let mut from = line.from;
    let mut at = line.from;
    for byte in bytes_of(text, line) {
        match token_step(*byte, from == at) {
            TokenStep::Label => {
                labels.push(Span { from, to: at })?;
                from = at + 1;
            }
            TokenStep::Skip => from = at + 1,
            TokenStep::Stop => {
                let op = token(from, at);
                return Ok(Head { labels, op });
            }
            TokenStep::Go => {}
        }
        at += 1;
    }
    let op = token(from, at);
    Ok(Head { labels, op })
}

// The index of the first byte that is neither a space nor a tab.
fn first_no_blank(bytes: &[u8]) -> Option<usize>
    ensures value { result ≡ position (λ b. not (is_blank b)) bytes.now }
    ensures within { IfSome result (λ i. i < length bytes.now) }
{
    bytes.iter().position(|b| !is_blank(*b))
}

// The index of the first byte that is not blank, where the operand begins.
#[tactic(auto, unfolding(crate::specs::Heads::operand_start))]
fn operand_start(text: &[u8], rest: Span) -> Option<u32>
    requires { length text.now < 2 ^ 32 }
    ensures value { result ≡ operand_start text.now rest }
    ensures within { IfSome result (λ i. i < length text.now) }
{
    let place = first_no_blank(bytes_of(text, rest))?;
    Some(rest.from + place as u32)
}

// The index after the last byte that is not blank and is before the comment, where the operand
// ends.
#[tactic(auto, using(crate::proofs::HeadLaws::ends))]
fn operand_end(text: &[u8], rest: Span) -> u32
    requires { length text.now < 2 ^ 32 }
    ensures { result ≡ operand_end text.now rest }
{
    let mut end = rest.from;
    let mut at = rest.from;
    for byte in bytes_of(text, rest) {
        if *byte == b'"' {
            return end;
        }
        at += 1;
        if !is_blank(*byte) {
            end = at;
        }
    }
    end
}

/// The operand in the rest of a line, up to its comment. None if there are only blanks.
#[tactic(auto, unfolding(crate::specs::Heads::operand_in))]
pub fn operand_in(text: &[u8], rest: Span) -> Option<Span>
    requires { length text.now < 2 ^ 32 }
    ensures value { result ≡ operand_in text.now rest }
    ensures within { IfSome result (λ span. span.from < length text.now) }
{
    let from = operand_start(text, rest)?;
    let to = operand_end(text, Span { from, to: rest.to });
    token(from, to)
}

/// The delimited characters in the rest of a line, with their delimiters, up to the end of the
/// line. None if the rest has only blanks, or begins with a quotation mark, which begins a comment.
#[tactic(auto, unfolding(crate::specs::Heads::delimited_operand))]
pub fn delimited_operand(text: &[u8], rest: Span) -> Option<Span>
    requires { length text.now < 2 ^ 32 }
    ensures value { result ≡ delimited_operand text.now rest }
    ensures within { IfSome result (λ span. span.from < length text.now) }
{
    if first_byte(bytes_of(text, rest)) == b'"' {
        return None;
    }
    let from = operand_start(text, rest)?;
    Some(Span { from, to: rest.to })
}
