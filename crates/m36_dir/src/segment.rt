//! Segments, and the place where the machine starts.

ghost use Rattle.std.specs.Prelude.{◌≡◌};

use m36_text::{Name, Names};
use std::marker::Model;

/// What the file of a segment contains.
#[derive(Clone, Copy, PartialEq, Eq)]
pub enum SegKind {
    /// An object segment.
    Object,
    /// An object segment that outer rings may call at its entry points.
    Gate,
    /// Data: words without a prescribed form.
    Plain,
}

/// The access that a segment allows within its ring brackets.
#[derive(Clone, Copy, PartialEq, Eq)]
pub struct Mode {
    pub readable: bool,
    pub executable: bool,
    pub writable: bool,
    pub privileged: bool,
}

/// A segment. Its model is the record of its fields.
#[derive(Drop)]
pub struct Segment {
    /// The names of the segment in its directory; 1 to 8 in a catalog.
    pub names: Names,
    /// The name of the file with its words.
    pub file: Name,
    /// The number of its directory.
    pub dir: u16,
    pub kind: SegKind,
    pub mode: Mode,
    /// The ends of its ring brackets R1, R2 and R3, each below 8.
    pub r1: u8,
    pub r2: u8,
    pub r3: u8,
}

impl Model for Segment {
    ghost use Rattle.std.specs.Prelude.{◌<◌};
    ghost use Rattle.m36_dir.specs.Fields.{SegmentFields};

    ghost Value = { SegmentFields };

    ghost view = { λ s. record { names = s.names; file = s.file; dir = s.dir; kind = s.kind; mode = s.mode; r1 = s.r1; r2 = s.r2; r3 = s.r3 } };

    ghost invariant = { λ s. (s.r1 < 8) × (s.r2 < 8) × (s.r3 < 8) };
}

/// The place where the machine starts: an entry of a segment, and a ring. Its model is the record
/// of its fields.
#[derive(Drop)]
pub struct Start {
    /// The name of the segment, which is looked up by the search.
    pub name: Name,
    pub entry: Name,
    /// Below 8.
    pub ring: u8,
}

impl Model for Start {
    ghost use Rattle.std.specs.Prelude.{◌<◌};
    ghost use Rattle.m36_dir.specs.StartFields.{StartFields};

    ghost Value = { StartFields };

    ghost view = { λ s. record { name = s.name; entry = s.entry; ring = s.ring } };

    ghost invariant = { λ s. s.ring < 8 };
}

impl Start {
    // A copy.
    pub(crate) fn copied(&self) -> Start
        ensures { result ≡ self.now }
    {
        Start {
            name: self.name.copied(),
            entry: self.entry.copied(),
            ring: self.ring,
        }
    }
}
