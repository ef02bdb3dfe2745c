//! Linkage sections in linkage segments.

ghost use Rattle.std.specs.Prelude.{◌≡◌};
ghost use Rattle.m36_link.specs.Known.{lot_word};

use m36_word::{Word, Words};
use std::marker::Model;

/// The number of the linkage segment of ring 0.
pub const FIRST_LINKAGE: u16 = 16;

/// The number of words of a linkage offset table.
pub const LOT_WORDS: u32 = 1024;

/// A linkage section that is laid in the linkage segment of a ring. The model is its fields.
#[derive(Clone, Copy, PartialEq, Eq)]
pub struct PlacedSection {
    /// The word number of its first word; 18 bits.
    pub base: u32,
    /// The number of its words; it ends at most at 2^18.
    pub size: u32,
    /// The segment that the section belongs to; 15 bits.
    pub seg: u16,
    /// The ring of the linkage segment; 3 bits.
    pub ring: u8,
}

impl Model for PlacedSection {
    ghost use Rattle.std.specs.Prelude.{◌<◌, ◌≤◌, ◌+◌, ◌^◌};
    ghost use Rattle.obj36_parts.specs.ObjectSegment.{segment_limit};
    ghost use Rattle.m36_link.specs.Fields.{PlacedSectionFields};

    ghost Value = { PlacedSectionFields };

    ghost view = { λ l. record { ring = l.ring; seg = l.seg; base = l.base; size = l.size } };

    ghost invariant = { λ l. (l.ring < 8) × (l.seg < 2 ^ 15) × (l.base < 2 ^ 18)
        × (l.base + l.size ≤ segment_limit) };

    ghost inverse = { λ l. record { base = l.base; size = l.size; seg = l.seg; ring = l.ring } };
}

/// A linkage section that has to be laid, with its words. The model is its fields.
#[derive(Drop)]
pub struct NewSection {
    /// The words of the linkage section, and after them those of the static section.
    pub words: Words,
    /// The word number of the first word; 18 bits, even.
    pub base: u32,
    /// The segment that the section belongs to; 15 bits.
    pub seg: u16,
    /// The ring in whose linkage segment it is laid; 3 bits.
    pub ring: u8,
}

impl Model for NewSection {
    ghost use Rattle.std.specs.Prelude.{◌<◌, ◌^◌};
    ghost use Rattle.m36_link.specs.Fields.{NewSectionFields};

    ghost Value = { NewSectionFields };

    ghost view = { λ l. record { ring = l.ring; seg = l.seg; base = l.base; words = l.words } };

    ghost invariant = { λ l. (l.ring < 8) × (l.seg < 2 ^ 15) × (l.base < 2 ^ 18) };
}

impl NewSection {
    /// The word of the ring's linkage offset table for the segment: a packed pointer to the
    /// section.
    #[tactic(auto, unfolding(crate::specs::Known::lot_word))]
    pub fn lot_word(&self) -> Word
        ensures { result ≡ lot_word self.now }
    {
        Word::low(((FIRST_LINKAGE as u64 + self.ring as u64) << 18) + self.base as u64)
    }
}
