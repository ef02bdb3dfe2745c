//! Divides a text into pieces: the members of a list at commas, and the terms of an expression at
//! signs.

ghost use Rattle.std.specs.Prelude.{List, [], ◌∷◌, ◌++◌, ◌≡◌, ◌^◌, ◌<◌, ◌≤◌, length, OnOk, OnErr};
ghost use Rattle.std.specs.Prelude.{IfOk};
ghost use Rattle.alm_tokens.specs.Pieces.{separates, pieces_of};

use crate::bytes::is_sign;
use crate::span::{Span, bytes_of};
use m36_word::NoMemory;
use std::alloc::Global;
use std::marker::Model;

/// The bytes that separate pieces.
#[derive(Clone, Copy)]
pub enum Separator {
    Comma,
    Sign,
}

/// A piece of a text, and whether the byte before it is a minus.
#[derive(Clone, Copy)]
pub struct TextPiece {
    pub span: Span,
    pub minus: bool,
}

/// A list of pieces that grows at its end.
#[derive(Drop)]
pub struct Pieces {
    items: Vec<TextPiece>,
}

impl Model for Pieces {
    ghost use Rattle.std.specs.Prelude.{List};
    ghost use Rattle.alm_tokens.specs.declared.pieces.TextPiece.{TextPiece};

    ghost Value = { List TextPiece };

    ghost view = { λ s. s.items.items };
}

impl Pieces {
    /// An empty list.
    pub fn new(alloc: Global) -> Pieces
        ensures { result ≡ [] }
    {
        Pieces {
            items: Vec::new(alloc),
        }
    }

    /// Adds a piece at the end. If memory runs out, nothing changes.
    pub fn push(&mut self, x: TextPiece) -> Result<(), NoMemory>
        ensures ok { OnOk result (self.new ≡ self.old ++ x ∷ []) }
        ensures err { OnErr result (self.new ≡ self.old) }
    {
        self.items.push(x)?;
        Ok(())
    }

    /// The pieces in order.
    pub fn items(&self) -> &[TextPiece]
        ensures { result.now ≡ self.now }
    {
        self.items.as_slice()
    }
}

// Whether a byte separates pieces.
fn separates(parter: Separator, byte: u8) -> bool
    ensures { result ≡ separates parter byte }
{
    match parter {
        Separator::Comma => byte == b',',
        Separator::Sign => is_sign(byte),
    }
}

// Adds the pieces of the text of `whole` to an empty list.
#[tactic(auto, using(crate::proofs::Cuts::cuts), unfolding(crate::specs::Pieces::pieces_of))]
fn push_pieces(
    pieces: &mut Pieces,
    parter: Separator,
    text: &[u8],
    whole: TextPiece,
) -> Result<(), NoMemory>
    requires text { length text.now < 2 ^ 32 }
    requires none { pieces.old ≡ [] }
    ensures value { OnOk result (pieces.new ≡ pieces_of parter text.now whole) }
    ensures count { OnOk result (length pieces.new ≤ 2 ^ 32) }
{
    let mut minus = whole.minus;
    let mut from = whole.span.from;
    let mut at = from;
    for byte in bytes_of(text, whole.span) {
        if separates(parter, *byte) {
            pieces.push(TextPiece {
                span: Span { from, to: at },
                minus,
            })?;
            minus = *byte == b'-';
            from = at + 1;
        }
        at += 1;
    }
    pieces.push(TextPiece {
        span: Span { from, to: at },
        minus,
    })
}

/// The pieces of the text of `whole`, which commas or signs separate. There is at least one. The
/// first has the minus of `whole`. Fails only with `NoMemory`.
pub fn pieces_of(
    alloc: Global,
    parter: Separator,
    text: &[u8],
    whole: TextPiece,
) -> Result<Pieces, NoMemory>
    requires { length text.now < 2 ^ 32 }
    ensures value { IfOk result (λ p. p ≡ pieces_of parter text.now whole) }
    ensures count { IfOk result (λ p. length p ≤ 2 ^ 32) }
{
    let mut pieces = Pieces::new(alloc);
    match push_pieces(&mut pieces, parter, text, whole) {
        Ok(()) => Ok(pieces),
        Err(fault) => {
            // Dropped explicitly, so that the drop is proved once for its type.
            drop(pieces);
            Err(fault)
        }
    }
}
