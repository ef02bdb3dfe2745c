//! Expressions: terms joined by `+` and `-`.

ghost use Rattle.std.specs.Prelude.{List, [], ◌∷◌, ◌++◌, ◌≡◌, ◌^◌, ◌<◌, ◌≤◌, length, map, OnOk};
ghost use Rattle.std.specs.Prelude.{OnErr, IfOk};
ghost use Rattle.std.specs.List.{list_all};
ghost use Rattle.alm_tokens.specs.Expressions.{is_current_place, is_term, is_term_at};
ghost use Rattle.alm_tokens.specs.Expressions.{without_first_minus, expression_pieces, atom_of};
ghost use Rattle.alm_tokens.specs.Expressions.{term_of, IsSmall};

use crate::numerals::is_number;
use crate::pieces::{Pieces, Separator, TextPiece, pieces_of};
use crate::span::{Span, bytes_of, first_byte};
use crate::tokens::{is_symbol, parse_expression_number};
use m36_word::NoMemory;
use std::alloc::Global;
use std::marker::Model;

/// A term without its sign: a number of at most 262143, a symbol, which is the text of the term's
/// span, or `*`, which is the current place.
#[derive(Clone, Copy, PartialEq, Eq)]
pub enum Atom {
    Number(u32),
    Symbol,
    Here,
}

/// A term of an expression, and whether it is subtracted. The span is that of the number, symbol or
/// `*`, without its sign.
#[derive(Clone, Copy, PartialEq, Eq)]
pub struct Term {
    pub what: Atom,
    pub span: Span,
    pub minus: bool,
}

/// An expression: a list of at most 2^32 terms that grows at its end. The value of an empty one is
/// 0.
#[derive(Drop)]
pub struct Expr {
    items: Vec<Term>,
}

impl Model for Expr {
    ghost use Rattle.std.specs.Prelude.{List, length, ◌≤◌, ◌^◌};
    ghost use Rattle.alm_tokens.specs.declared.expression.Term.{Term};

    ghost Value = { List Term };

    ghost view = { λ e. e.items.items };

    ghost invariant = { λ e. length e.items.items ≤ 2 ^ 32 };
}

impl Expr {
    /// An empty list.
    pub fn new(alloc: Global) -> Expr
        ensures { result ≡ [] }
    {
        Expr {
            items: Vec::new(alloc),
        }
    }

    // An empty list with room for exactly `count` terms.
    fn with_room(alloc: Global, count: usize) -> Result<Expr, NoMemory>
        ensures { IfOk result (λ e. e ≡ []) }
    {
        Ok(Expr {
            items: Vec::with_capacity(alloc, count)?,
        })
    }

    /// Adds a term at the end. If memory runs out, nothing changes.
    pub fn push(&mut self, x: Term) -> Result<(), NoMemory>
        requires { length self.old < 2 ^ 32 }
        ensures ok { OnOk result (self.new ≡ self.old ++ x ∷ []) }
        ensures err { OnErr result (self.new ≡ self.old) }
    {
        self.items.push(x)?;
        Ok(())
    }

    /// The terms in order.
    pub fn items(&self) -> &[Term]
        ensures value { result.now ≡ self.now }
        ensures fits { length self.now ≤ 2 ^ 32 }
    {
        self.items.as_slice()
    }
}

// Whether a term is `*`, the current place.
fn is_current_place(bytes: &[u8]) -> bool
    ensures { result ≡ is_current_place bytes.now }
{
    bytes == b"*".as_slice()
}

// Whether a text is a term: a number, a symbol, or `*`.
#[tactic(auto, unfolding(crate::specs::Expressions::is_term))]
fn is_term(bytes: &[u8]) -> bool
    ensures { result ≡ is_term bytes.now }
{
    is_current_place(bytes) || is_number(bytes) || is_symbol(bytes)
}

// Whether a piece is a term.
fn is_term_at(text: &[u8], piece: &TextPiece) -> bool
    ensures { result ≡ is_term_at text.now piece.now }
{
    is_term(bytes_of(text, piece.span))
}

/// Whether each piece is a term.
pub fn are_terms(text: &[u8], pieces: &[TextPiece]) -> bool
    ensures { result ≡ list_all (is_term_at text.now) pieces.now }
{
    pieces.iter().all(|piece| is_term_at(text, piece))
}

// The piece of a whole expression without the minus at its beginning, which negates the first term.
#[tactic(auto, unfolding(crate::specs::Expressions::without_first_minus))]
fn without_first_minus(text: &[u8], whole: TextPiece) -> TextPiece
    requires { length text.now < 2 ^ 32 }
    ensures { result ≡ without_first_minus text.now whole }
{
    let span = whole.span;
    if first_byte(bytes_of(text, span)) != b'-' {
        return whole;
    }
    TextPiece {
        span: Span {
            from: span.from + 1,
            to: span.to,
        },
        minus: !whole.minus,
    }
}

/// The terms of an expression, as pieces. The expression may begin with a minus.
#[tactic(auto, unfolding(crate::specs::Expressions::expression_pieces))]
pub fn expression_pieces(alloc: Global, text: &[u8], whole: TextPiece) -> Result<Pieces, NoMemory>
    requires { length text.now < 2 ^ 32 }
    ensures value { IfOk result (λ p. p ≡ expression_pieces text.now whole) }
    ensures count { IfOk result (λ p. length p ≤ 2 ^ 32) }
{
    pieces_of(
        alloc,
        Separator::Sign,
        text,
        without_first_minus(text, whole),
    )
}

// The kind of a term, with its number if it is one; 0 if that is over the limit.
#[tactic(auto, unfolding(crate::specs::Expressions::atom_of))]
fn atom_of(bytes: &[u8]) -> Atom
    ensures value { result ≡ atom_of bytes.now }
    ensures bound { IsSmall result }
{
    if is_current_place(bytes) {
        return Atom::Here;
    }
    if !is_number(bytes) {
        return Atom::Symbol;
    }
    match parse_expression_number(bytes) {
        Ok(value) => Atom::Number(value as u32),
        Err(_) => Atom::Number(0),
    }
}

// The term in a piece, with its sign.
fn term_of(text: &[u8], piece: &TextPiece) -> Term
    ensures { result ≡ term_of text.now piece.now }
{
    Term {
        what: atom_of(bytes_of(text, piece.span)),
        span: piece.span,
        minus: piece.minus,
    }
}

/// The expression with these terms, of which there are at most 2^32. Fails only with `NoMemory`.
pub fn expr_of(alloc: Global, text: &[u8], pieces: &[TextPiece]) -> Result<Expr, NoMemory>
    requires { length pieces.now ≤ 2 ^ 32 }
    ensures { IfOk result (λ e. e ≡ map (term_of text.now) pieces.now) }
{
    let mut expr = Expr::with_room(alloc, pieces.len())?;
    for piece in pieces {
        expr.push(term_of(text, piece))?;
    }
    Ok(expr)
}
