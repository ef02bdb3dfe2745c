//! Lines about the segments of a catalog.

ghost use Rattle.std.specs.Prelude.{◌≡◌, ◌++◌, ◌∷◌, [], None, Some, MatchOption, slice_get, OnOk};

use m36_outside::Text;
use m36_word::NoMemory;
use std::alloc::Global;
use std::marker::Model;

/// The lines that report that a user lacks a right to a segment: one for each segment of a catalog,
/// or none. The model is the list of these lines.
#[derive(Drop)]
pub struct DeniedLines {
    items: Vec<Text>,
}

impl Model for DeniedLines {
    ghost use Rattle.std.specs.Prelude.{ℕ, List};

    ghost Value = { List (List ℕ) };

    ghost view = { λ l. l.items.items };
}

impl DeniedLines {
    /// No lines.
    pub fn new(alloc: Global) -> DeniedLines
        ensures { result ≡ [] }
    {
        DeniedLines {
            items: Vec::new(alloc),
        }
    }

    // Adds a line at the end.
    pub(crate) fn push(&mut self, line: Text) -> Result<(), NoMemory>
        ensures { OnOk result (self.new ≡ self.old ++ line ∷ []) }
    {
        self.items.push(line)?;
        Ok(())
    }

    /// The line of segment `i`, counted from 0. None if there is no such line.
    pub fn line(&self, i: usize) -> Option<&[u8]>
        ensures { MatchOption result (slice_get self.now i ≡ None)
            (λ line. slice_get self.now i ≡ Some line.now) }
    {
        match self.items.get(i) {
            Some(line) => Some(line.bytes()),
            None => None,
        }
    }
}
