//! Words that a step refers to, and references to them.

ghost use Rattle.std.specs.Prelude.{◌≡◌};

use std::marker::Model;

/// A word of a segment, and the ring of the reference to it.
#[derive(Clone, Copy, PartialEq, Eq)]
pub struct At {
    /// Word number; 18 bits.
    pub word: u32,
    /// Segment number; 15 bits.
    pub seg: u16,
    /// Ring number; 3 bits.
    pub ring: u8,
}

impl Model for At {
    ghost use Rattle.std.specs.Prelude.{◌<◌, ◌^◌};
    ghost use Rattle.m36_model.specs.Fields.{AtFields};

    ghost Value = { AtFields };

    ghost view = { λ p. record { seg = p.seg; word = p.word; ring = p.ring } };

    ghost invariant = { λ p. (p.word < 2 ^ 18) × (p.seg < 2 ^ 15) × (p.ring < 2 ^ 3) };

    ghost inverse = { λ p. record { seg = p.seg; word = p.word; ring = p.ring } };
}

/// The purpose of a reference.
#[derive(Clone, Copy, PartialEq, Eq)]
pub enum Kind {
    /// The instruction.
    Fetch,
    /// An indirect word or pair.
    Indirect,
    /// An operand that is read.
    Read,
    /// An operand that is written.
    Write,
}

/// A completed reference: its first word, its purpose, and its number of words.
#[derive(Clone, Copy, PartialEq, Eq)]
pub struct Reference {
    pub at: At,
    pub kind: Kind,
    /// Number of words: 1, 2 or 16.
    pub count: u8,
}

impl Default for Reference {
    /// The filler for unused slots of a list of references.
    fn default() -> Reference
        ensures { result
            ≡ record { at = record { seg = 0; word = 0; ring = 0 }; kind = Kind.Fetch; count = 1 } }
    {
        Reference {
            at: At {
                word: 0,
                seg: 0,
                ring: 0,
            },
            kind: Kind::Fetch,
            count: 1,
        }
    }
}
