//! Files of a folder.

ghost use Rattle.std.specs.Prelude.{List, [], ◌∷◌, ◌++◌, ◌≡◌, OnOk, OnErr};

use m36_outside::Text;
use m36_text::Name;
use m36_word::NoMemory;
use std::alloc::Global;
use std::marker::Model;

/// A file, with its name and its whole content.
#[derive(Drop)]
pub struct File {
    pub name: Name,
    pub content: Text,
}

/// A list of files that grows at its end.
#[derive(Drop)]
pub struct Files {
    items: Vec<File>,
}

impl Model for Files {
    ghost use Rattle.std.specs.Prelude.{List};
    ghost use Rattle.m36_gen.specs.declared.files.File.{File};

    ghost Value = { List File };

    ghost view = { λ f. f.items.items };
}

impl Files {
    /// An empty list.
    pub fn new(alloc: Global) -> Files
        ensures { result ≡ [] }
    {
        Files {
            items: Vec::new(alloc),
        }
    }

    /// Adds a file at the end. If memory runs out, nothing changes.
    pub fn push(&mut self, x: File) -> Result<(), NoMemory>
        ensures ok { OnOk result (self.new ≡ self.old ++ x ∷ []) }
        ensures err { OnErr result (self.new ≡ self.old) }
    {
        self.items.push(x)?;
        Ok(())
    }

    /// The files in order.
    pub fn items(&self) -> &[File]
        ensures { result.now ≡ self.now }
    {
        self.items.as_slice()
    }
}
