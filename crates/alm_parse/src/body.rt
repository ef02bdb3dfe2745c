//! Divides the operand of an instruction, up to its modifier.

ghost use Rattle.std.specs.Prelude.{◌≡◌, ◌^◌, ◌<◌, ◌≤◌, ◌+◌, not, length, IfOk, IfSome};
ghost use Rattle.std.specs.List.{position};
ghost use Rattle.m36_text.specs.Texts.{is_name_character};
ghost use Rattle.alm_tokens.specs.Tokens.{slice_of};
ghost use Rattle.alm_parse.specs.Bodies.{place_of, symbol_end, external_operand, body_of};
ghost use Rattle.alm_parse.specs.Bodies.{own_section, is_segment_text, is_entry_text};
ghost use Rattle.alm_parse.specs.Bodies.{is_text_after_entry, has_valid_parts, tail_pieces};
ghost use Rattle.alm_parse.specs.Bodies.{body_pieces};

use alm_tokens::bytes::is_sign;
use alm_tokens::expression::expression_pieces;
use alm_tokens::modifiers::pr_number;
use alm_tokens::pieces::{Pieces, TextPiece};
use alm_tokens::span::{Span, bytes_of, first_byte};
use alm_tokens::tokens::is_symbol;
use m36_text::{is_name_character, is_text, lines};
use m36_word::NoMemory;
use obj36_parts::Section;
use std::alloc::Global;

/// The parts of an operand without its modifier.
#[derive(Clone, Copy)]
pub enum Body {
    /// A pointer register, and the expression after the bar.
    Through(Span, Span),
    /// A segment, the entry after the dollar sign, and the text after the entry. The last two may
    /// be empty.
    External(Span, Span, Span),
    /// An expression.
    Plain(Span),
}

// The index of the first byte that no symbol can have.
fn first_non_name_character(bytes: &[u8]) -> Option<usize>
    ensures value { result ≡ position (λ b. not (is_name_character b)) bytes.now }
    ensures within { IfSome result (λ i. i < length bytes.now) }
{
    bytes.iter().position(|b| !is_name_character(*b))
}

/// The index in the text of the first occurrence of a byte in a span.
#[tactic(auto, unfolding(crate::specs::Bodies::place_of))]
pub fn place_of(text: &[u8], span: Span, byte: u8) -> Option<u32>
    requires { length text.now < 2 ^ 32 }
    ensures value { result ≡ place_of text.now span byte }
    ensures within { IfSome result (λ i. i < length text.now) }
{
    let place = lines::place_of(bytes_of(text, span), byte)?;
    Some(span.from + place as u32)
}

/// The index after the bytes at the beginning of a span that can be part of a symbol.
#[tactic(auto, unfolding(crate::specs::Bodies::symbol_end))]
fn symbol_end(text: &[u8], span: Span) -> u32
    requires { length text.now < 2 ^ 32 }
    ensures { result ≡ symbol_end text.now span }
{
    let bytes = bytes_of(text, span);
    match first_non_name_character(bytes) {
        Some(place) => span.from + place as u32,
        None => span.from + bytes.len() as u32,
    }
}

// Divides an operand with a dollar sign at the index `dollar` into its segment, its entry and the
// text after the entry.
fn external_operand(text: &[u8], whole: Span, dollar: u32) -> Body
    requires text { length text.now < 2 ^ 32 }
    requires dollar { dollar < length text.now }
    ensures { result ≡ external_operand text.now whole dollar }
{
    let rest = Span {
        from: dollar + 1,
        to: whole.to,
    };
    let end = symbol_end(text, rest);
    Body::External(
        Span {
            from: whole.from,
            to: dollar,
        },
        Span {
            from: dollar + 1,
            to: end,
        },
        Span {
            from: end,
            to: whole.to,
        },
    )
}

/// Divides an operand without its modifier.
#[tactic(auto, unfolding(crate::specs::Bodies::body_of))]
pub fn body_of(text: &[u8], whole: Span) -> Body
    requires { length text.now < 2 ^ 32 }
    ensures { result ≡ body_of text.now whole }
{
    if let Some(bar) = place_of(text, whole, b'|') {
        return Body::Through(
            Span {
                from: whole.from,
                to: bar,
            },
            Span {
                from: bar + 1,
                to: whole.to,
            },
        );
    }
    match place_of(text, whole, b'$') {
        Some(dollar) => external_operand(text, whole, dollar),
        None => Body::Plain(whole),
    }
}

// The section of the own object with this name, if there is one.
#[tactic(auto, using(crate::proofs::OwnSections::no_star), unfolding(crate::specs::Bodies::own_section))]
fn section_named(bytes: &[u8]) -> Option<Section>
    ensures { result ≡ own_section bytes.now }
{
    if first_byte(bytes) != b'*' {
        return None;
    }
    if is_text(b"*text", bytes) {
        return Some(Section::Text);
    }
    if is_text(b"*link", bytes) {
        return Some(Section::Linkage);
    }
    if is_text(b"*static", bytes) {
        return Some(Section::Static);
    }
    None
}

/// The section of the own object that a segment such as `*text` names. None if it names none.
pub fn own_section(text: &[u8], segment: Span) -> Option<Section>
    ensures { result ≡ own_section (slice_of text.now segment) }
{
    section_named(bytes_of(text, segment))
}

// Whether a text can be the segment of an external operand: a symbol, or a section such as `*text`.
fn is_segment_text(bytes: &[u8]) -> bool
    ensures { result ≡ is_segment_text bytes.now }
{
    is_symbol(bytes) || section_named(bytes).is_some()
}

// Whether a text can be the entry of an external operand: a symbol, or nothing.
fn is_entry_text(bytes: &[u8]) -> bool
    ensures { result ≡ is_entry_text bytes.now }
{
    bytes.is_empty() || is_symbol(bytes)
}

// Whether a text can follow the entry of an external operand: a sign and more, or nothing.
fn is_text_after_entry(bytes: &[u8]) -> bool
    ensures { result ≡ is_text_after_entry bytes.now }
{
    bytes.is_empty() || is_sign(first_byte(bytes))
}

/// Whether the parts of an operand have their forms. The terms of its expression are not checked.
pub fn has_valid_parts(text: &[u8], body: Body) -> bool
    ensures { result ≡ has_valid_parts text.now body }
{
    match body {
        Body::Through(pr, _) => pr_number(bytes_of(text, pr)).is_some(),
        Body::External(segment, entry, tail) => {
            is_segment_text(bytes_of(text, segment))
                && is_entry_text(bytes_of(text, entry))
                && is_text_after_entry(bytes_of(text, tail))
        }
        Body::Plain(_) => true,
    }
}

// The terms after the entry of an external operand, as pieces. The sign belongs to the first.
#[tactic(auto, unfolding(crate::specs::Bodies::tail_pieces))]
fn tail_pieces(alloc: Global, text: &[u8], tail: Span) -> Result<Pieces, NoMemory>
    requires { length text.now < 2 ^ 32 }
    ensures value { IfOk result (λ p. p ≡ tail_pieces text.now tail) }
    ensures count { IfOk result (λ p. length p ≤ 2 ^ 32) }
{
    let bytes = bytes_of(text, tail);
    if bytes.is_empty() {
        return Ok(Pieces::new(alloc));
    }
    let whole = TextPiece {
        span: Span {
            from: tail.from + 1,
            to: tail.to,
        },
        minus: bytes[0] == b'-',
    };
    expression_pieces(alloc, text, whole)
}

/// The terms of the expression of an operand, as pieces. Fails only with `NoMemory`.
pub fn body_pieces(alloc: Global, text: &[u8], body: Body) -> Result<Pieces, NoMemory>
    requires { length text.now < 2 ^ 32 }
    ensures value { IfOk result (λ p. p ≡ body_pieces text.now body) }
    ensures count { IfOk result (λ p. length p ≤ 2 ^ 32) }
{
    match body {
        Body::Through(_, span) | Body::Plain(span) => {
            expression_pieces(alloc, text, TextPiece { span, minus: false })
        }
        Body::External(_, _, tail) => tail_pieces(alloc, text, tail),
    }
}
