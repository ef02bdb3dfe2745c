//! Parts of a text.

ghost use Rattle.std.specs.Prelude.{List, [], ◌∷◌, ◌++◌, ◌≡◌, ◌≤◌, ◌+◌, ◌^◌, ◌<◌, length, max};
ghost use Rattle.std.specs.Prelude.{slice_index, OnOk, OnErr};
ghost use Rattle.alm_tokens.specs.Tokens.{slice_of};

use m36_word::NoMemory;
use std::alloc::Global;
use std::marker::Model;

/// The bytes of a text from index `from` up to, but not including, index `to`, counted from 0.
#[derive(Clone, Copy, PartialEq, Eq)]
pub struct Span {
    pub from: u32,
    pub to: u32,
}

/// The bytes of a span, as far as the text has them.
#[tactic(auto, using(crate::proofs::Slices::slices))]
pub fn bytes_of(text: &[u8], span: Span) -> &[u8]
    ensures value { result.now ≡ slice_of text.now span }
    ensures ends { span.from + length result.now ≤ max span.from (length text.now) }
{
    let from = span.from as usize;
    if from >= text.len() {
        return &[];
    }
    let rest = &text[from..];
    let count = (span.to as usize).saturating_sub(from);
    if count < rest.len() {
        &rest[..count]
    } else {
        rest
    }
}

/// The first byte of a text, and 0 if it is empty.
pub fn first_byte(bytes: &[u8]) -> u8
    ensures value { result ≡ slice_index bytes.now 0 }
    ensures some { 0 < result → 0 < length bytes.now }
{
    match bytes {
        [first, ..] => *first,
        [] => 0,
    }
}

/// A list of spans that grows at its end.
#[derive(Drop)]
pub struct Spans {
    items: Vec<Span>,
}

impl Model for Spans {
    ghost use Rattle.std.specs.Prelude.{List};
    ghost use Rattle.alm_tokens.specs.declared.span.Span.{Span};

    ghost Value = { List Span };

    ghost view = { λ s. s.items.items };
}

impl Spans {
    /// An empty list.
    pub fn new(alloc: Global) -> Spans
        ensures { result ≡ [] }
    {
        Spans {
            items: Vec::new(alloc),
        }
    }

    /// Adds a span at the end. If memory runs out, nothing changes.
    pub fn push(&mut self, x: Span) -> Result<(), NoMemory>
        ensures ok { OnOk result (self.new ≡ self.old ++ x ∷ []) }
        ensures err { OnErr result (self.new ≡ self.old) }
    {
        self.items.push(x)?;
        Ok(())
    }

    /// The spans in order.
    pub fn items(&self) -> &[Span]
        ensures { result.now ≡ self.now }
    {
        self.items.as_slice()
    }
}
