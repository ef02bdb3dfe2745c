//! A folder in memory that never fails.

ghost use Rattle.std.specs.Prelude.{[], ◌∷◌, ◌++◌, ◌≡◌, Some, IfOk, OnOk, OnErr};
ghost use Rattle.m36_outside.specs.Files.{with_file};
ghost use Rattle.m36_outside.specs.FileList.{file_named};
ghost use Rattle.m36_outside.specs.ReadAnswer.{ReadResult, IsWithinLimit, ReadHasCause};
ghost use Rattle.m36_outside.specs.WriteAnswer.{WriteResult, WriteHasCause};

use crate::file_list::FileList;
use crate::folder::{Folder, ReadAnswer, WriteAnswer};
use crate::folder_calls::FolderCalls;
use m36_word::NoMemory;
use std::alloc::Global;
use std::marker::Model;

/// Files in memory; the view is the list of named files and the log of calls. It never counts a
/// fault.
#[derive(Drop)]
pub struct SureFolder {
    files: FileList,
    calls: FolderCalls,
}

impl Model for SureFolder {
    ghost use Rattle.m36_outside.specs.SureFields.{SureFolderFields};

    ghost Value = { SureFolderFields };

    ghost view = { λ f. record {
      files = f.files;
      asked = f.calls.asked.entries;
      wrote = f.calls.wrote.entries;
    } };
}

impl SureFolder {
    /// A folder without files. Fails only with `NoMemory`.
    pub fn new(alloc: Global) -> Result<SureFolder, NoMemory>
        ensures { IfOk result (λ folder. folder ≡ record { files = []; asked = []; wrote = [] }) }
    {
        Ok(SureFolder {
            files: FileList::new(alloc),
            calls: FolderCalls::new(),
        })
    }

    /// Sets the file with this name, which may exist already. If memory runs out, nothing changes.
    pub fn add(&mut self, name: &[u8], content: &[u8]) -> Result<(), NoMemory>
        ensures ok { OnOk result
            (file_named self.new.files
            ≡ with_file name.now (Some content.now) (file_named self.old.files)) }
        ensures rest { self.new ≡ record self.old { files = self.new.files } }
        ensures err { OnErr result (self.new ≡ self.old) }
    {
        let alloc = self.files.allocator();
        self.files.set(alloc, name, content)
    }
}

impl Folder for SureFolder {
    ghost files = { λ f. Some (file_named f.files) };

    ghost asked = { λ f. f.asked };

    ghost wrote = { λ f. f.wrote };

    ghost read_faults = { λ _. 0 };

    ghost write_faults = { λ _. 0 };

    fn read(&mut self, alloc: Global, name: &[u8]) -> ReadAnswer
        ensures told { ReadResult result (file_named self.old.files name.now) }
        ensures limit { IsWithinLimit result }
        ensures cause { ReadHasCause result 0 0 }
        ensures after { self.new
            ≡ record self.old { asked = self.old.asked ++ (name.now, result) ∷ [] } }
    {
        let answer = self.files.read(alloc, name);
        self.calls.note_read(name, &answer);
        answer
    }

    fn write(&mut self, alloc: Global, name: &[u8], content: &[u8]) -> WriteAnswer
        ensures says { WriteResult result
            (Some (file_named self.old.files))
            (Some (file_named self.new.files)) name.now content.now }
        ensures wrote { self.new.wrote ≡ self.old.wrote ++ (name.now, content.now, result) ∷ [] }
        ensures asked { self.new.asked ≡ self.old.asked }
        ensures cause { WriteHasCause result 0 0 }
    {
        let answer = self.files.write(alloc, name, content);
        self.calls.note_write(name, content, answer);
        answer
    }
}
