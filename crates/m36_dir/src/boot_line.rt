//! Parsed lines of a boot text.

use crate::directory::Directory;
use crate::segment::{Mode, SegKind, Start};
use m36_text::Name;
use std::marker::Model;

// The contents of a segment line. Its model is the record of its fields.
#[derive(Drop)]
pub(crate) struct SegmentLine {
    pub(crate) dir: Directory,
    pub(crate) name: Name,
    pub(crate) file: Name,
    pub(crate) kind: SegKind,
    pub(crate) mode: Mode,
    // Each below 8.
    pub(crate) r1: u8,
    pub(crate) r2: u8,
    pub(crate) r3: u8,
}

impl Model for SegmentLine {
    ghost use Rattle.std.specs.Prelude.{◌<◌};
    ghost use Rattle.m36_dir.specs.Fields.{SegmentLineFields};

    ghost Value = { SegmentLineFields };

    ghost view = { λ s. record { dir = s.dir; name = s.name; file = s.file; kind = s.kind; mode = s.mode; r1 = s.r1; r2 = s.r2; r3 = s.r3 } };

    ghost invariant = { λ s. (s.r1 < 8) × (s.r2 < 8) × (s.r3 < 8) };
}

// The ends of the three ring brackets, each below 8.
#[derive(Clone, Copy)]
pub(crate) struct Brackets {
    pub(crate) r1: u8,
    pub(crate) r2: u8,
    pub(crate) r3: u8,
}

// A line that has the form of one of the kinds of lines.
#[derive(Drop)]
pub(crate) enum BootLine {
    // The number of pageable frames, 1 to 8192.
    Frames(u32),
    // The working directory.
    Work(Directory),
    // A library: a directory that is searched.
    Library(Directory),
    Segment(SegmentLine),
    // A further name of the segment in the lines above.
    Name(Name),
    Start(Start),
}
