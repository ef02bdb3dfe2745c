//! The log of the calls of a folder.

ghost use Rattle.std.specs.Prelude.{[], ◌∷◌, ◌++◌, ◌≡◌};

use crate::call_log::{Entries, Log};
use crate::folder::{ReadAnswer, WriteAnswer};
use crate::text::Text;

impl Entries<(Text, ReadAnswer)> for (&[u8], &ReadAnswer) {
    ghost entries = { λ call. (call.0.now, call.1.now) ∷ [] };
}

impl Entries<(Text, Text, WriteAnswer)> for (&[u8], &[u8], WriteAnswer) {
    ghost entries = { λ call. (call.0.now, call.1.now, call.2) ∷ [] };
}

/// The calls of a folder so far, which only clauses see.
#[derive(Drop)]
pub struct FolderCalls {
    pub asked: Log<(Text, ReadAnswer)>,
    pub wrote: Log<(Text, Text, WriteAnswer)>,
}

impl FolderCalls {
    /// An empty log.
    pub fn new() -> FolderCalls
        ensures asked { result.asked.entries ≡ [] }
        ensures wrote { result.wrote.entries ≡ [] }
    {
        FolderCalls {
            asked: Log::new(),
            wrote: Log::new(),
        }
    }

    /// Logs a read.
    pub fn note_read(&mut self, name: &[u8], answer: &ReadAnswer)
        ensures asked { self.new.asked.entries
            ≡ self.old.asked.entries ++ (name.now, answer.now) ∷ [] }
        ensures wrote { self.new.wrote.entries ≡ self.old.wrote.entries }
    {
        self.asked.note(&(name, answer));
    }

    /// Logs a write.
    pub fn note_write(&mut self, name: &[u8], content: &[u8], answer: WriteAnswer)
        ensures wrote { self.new.wrote.entries
            ≡ self.old.wrote.entries ++ (name.now, content.now, answer) ∷ [] }
        ensures asked { self.new.asked.entries ≡ self.old.asked.entries }
    {
        self.wrote.note(&(name, content, answer));
    }
}
