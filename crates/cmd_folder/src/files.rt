//! The files of the segments of a catalog.

ghost use Rattle.std.specs.Prelude.{ℕ, ◌≡◌, ◌≤◌, [], ◌∷◌, ◌++◌, length, OnOk, OnErr};
ghost use Rattle.obj36_parts.specs.ObjectSegment.{segment_limit};

use m36_word::{NoMemory, Words};
use std::alloc::Global;
use std::marker::Model;

/// The words of files, each of no more than a segment may have, in the order in which they were
/// read.
#[derive(Drop)]
pub struct SegmentFiles {
    pub(crate) items: Vec<Words>,
}

impl Model for SegmentFiles {
    ghost use Rattle.std.specs.Prelude.{ℕ, List};
    ghost use Rattle.m36_boot.specs.Segments.{AreShort};

    ghost Value = { List (List ℕ) };

    ghost view = { λ f. f.items.items };

    ghost invariant = { λ f. AreShort f.items.items };
}

impl SegmentFiles {
    /// No files.
    pub fn new(alloc: Global) -> SegmentFiles
        ensures { result ≡ [] }
    {
        SegmentFiles {
            items: Vec::new(alloc),
        }
    }

    /// Adds the words of a file at the end. Fails only with `NoMemory`, and then nothing changes.
    pub fn push(&mut self, words: Words) -> Result<(), NoMemory>
        requires { length words ≤ segment_limit }
        ensures ok { OnOk result (self.new ≡ self.old ++ words ∷ []) }
        ensures err { OnErr result (self.new ≡ self.old) }
    {
        self.items.push(words)?;
        Ok(())
    }
}
