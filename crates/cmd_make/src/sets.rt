//! A list of files to write, in the order in which they are written.

ghost use Rattle.std.specs.Prelude.{◌≡◌, [], ◌∷◌, ◌++◌, map, IfOk, OnOk, OnErr};
ghost use Rattle.cmd_make.specs.Making.{set_of};

use m36_gen::File;
use m36_outside::Text;
use m36_status::Set;
use m36_word::NoMemory;
use std::alloc::Global;
use std::marker::Model;

/// Files that a command writes, a list that grows at its end.
#[derive(Drop)]
pub struct Sets {
    items: Vec<Set>,
}

impl Model for Sets {
    ghost use Rattle.std.specs.Prelude.{List};
    ghost use Rattle.m36_status.specs.declared.setting.Set.{Set};

    ghost Value = { List Set };

    ghost view = { λ s. s.items.items };
}

impl Sets {
    /// No files.
    pub fn new(alloc: Global) -> Sets
        ensures { result ≡ [] }
    {
        Sets {
            items: Vec::new(alloc),
        }
    }

    /// Adds a file at the end. If memory runs out, nothing changes.
    pub fn push(&mut self, set: Set) -> Result<(), NoMemory>
        ensures ok { OnOk result (self.new ≡ self.old ++ set ∷ []) }
        ensures err { OnErr result (self.new ≡ self.old) }
    {
        self.items.push(set)?;
        Ok(())
    }

    /// The files in order.
    pub fn items(&self) -> &[Set]
        ensures { result.now ≡ self.now }
    {
        self.items.as_slice()
    }
}

// Copies a file of the generator. Fails only with `NoMemory`.
fn copy_file(alloc: Global, file: &File) -> Result<Set, NoMemory>
    ensures { IfOk result (λ set. set ≡ set_of file.now) }
{
    Ok(Set {
        name: file.name.copied(),
        content: Text::from_bytes(alloc, file.content.bytes())?,
    })
}

/// Appends copies of the generator's files to `sets`, in order. Fails only with `NoMemory`.
#[tactic(auto, using(crate::proofs::Files::files_in_turn))]
pub fn with_copies(alloc: Global, mut sets: Sets, files: &[File]) -> Result<Sets, NoMemory>
    ensures { IfOk result (λ more. more ≡ sets ++ map set_of files.now) }
{
    for file in files {
        sets.push(copy_file(alloc, file)?)?;
    }
    Ok(sets)
}
