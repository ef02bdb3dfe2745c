//! A folder in memory whose calls fail on request.

ghost use Rattle.std.specs.Prelude.{[], ◌∷◌, ◌++◌, ◌≡◌, ◌≤◌, ◌<◌, ◌^◌, ◌↔◌, Some, IsTrue, IfOk};
ghost use Rattle.std.specs.Prelude.{OnOk, OnErr};
ghost use Rattle.m36_outside.specs.CallPlan.{next_fails};
ghost use Rattle.m36_outside.specs.Files.{with_file};
ghost use Rattle.m36_outside.specs.FileList.{file_named};
ghost use Rattle.m36_outside.specs.ReadAnswer.{ReadResult, IsWithinLimit, ReadHasCause};
ghost use Rattle.m36_outside.specs.WriteAnswer.{WriteResult, WriteHasCause};

use crate::calls::Calls;
use crate::faults::raise;
use crate::file_list::FileList;
use crate::folder::{Folder, ReadAnswer, WriteAnswer};
use crate::folder_calls::FolderCalls;
use m36_word::NoMemory;
use std::alloc::Global;
use std::marker::Model;

/// Files in memory. They are known to contracts.
///
/// Reads are numbered from 1, and from 2^32 - 1 on each has that number; so are writes. The calls
/// whose numbers were listed fail, and change no file.
#[derive(Drop)]
pub struct MemFolder {
    files: FileList,
    reads: Calls,
    writes: Calls,
    calls: FolderCalls,
    read_faults: u64,
    write_faults: u64,
}

impl Model for MemFolder {
    ghost use Rattle.std.specs.Prelude.{◌<◌, ◌^◌};
    ghost use Rattle.m36_outside.specs.MemFolder.{MemFolderFields};

    ghost Value = { MemFolderFields };

    ghost view = { λ f. record {
      files = f.files;
      reads = f.reads;
      writes = f.writes;
      asked = f.calls.asked.entries;
      wrote = f.calls.wrote.entries;
      read_faults = f.read_faults;
      write_faults = f.write_faults;
    } };

    ghost invariant = { λ f. (f.read_faults < 2 ^ 64) × (f.write_faults < 2 ^ 64) };
}

impl MemFolder {
    ghost use Rattle.m36_outside.specs.MemFolder.{new_folder};

    /// A folder without files. The arguments are the numbers of the reads and writes that fail.
    /// Fails only with `NoMemory`.
    pub fn new(
        alloc: Global,
        fail_reads: &[u32],
        fail_writes: &[u32],
    ) -> Result<MemFolder, NoMemory>
        ensures { IfOk result (λ folder. folder ≡ new_folder fail_reads.now fail_writes.now) }
    {
        let reads = Calls::new(alloc, fail_reads)?;
        match Calls::new(alloc, fail_writes) {
            Ok(writes) => Ok(MemFolder {
                files: FileList::new(alloc),
                reads,
                writes,
                calls: FolderCalls::new(),
                read_faults: 0,
                write_faults: 0,
            }),
            Err(cause) => {
                // Dropped by a call, so the drop is proved once for its type.
                drop(reads);
                Err(cause)
            }
        }
    }

    /// Sets the file with this name, which may exist already. This is not counted as a write. If
    /// memory runs out, nothing changes.
    pub fn add(&mut self, name: &[u8], content: &[u8]) -> Result<(), NoMemory>
        ensures ok { OnOk result
            (file_named self.new.files
            ≡ with_file name.now (Some content.now) (file_named self.old.files)) }
        ensures rest { self.new ≡ record self.old { files = self.new.files } }
        ensures err { OnErr result (self.new ≡ self.old) }
    {
        let alloc = self.files.allocator();
        self.files.set(alloc, name, content)
    }
}

impl Folder for MemFolder {
    ghost use Rattle.m36_outside.specs.MemFolder.{after_read, after_write};

    ghost files = { λ f. Some (file_named f.files) };

    ghost asked = { λ f. f.asked };

    ghost wrote = { λ f. f.wrote };

    ghost read_faults = { λ f. f.read_faults };

    ghost write_faults = { λ f. f.write_faults };

    fn read(&mut self, alloc: Global, name: &[u8]) -> ReadAnswer
        ensures told { ReadResult result (file_named self.old.files name.now) }
        ensures limit { IsWithinLimit result }
        ensures asked { self.new.asked ≡ self.old.asked ++ (name.now, result) ∷ [] }
        ensures cause { ReadHasCause result self.old.read_faults self.new.read_faults }
        ensures count { self.old.read_faults ≤ self.new.read_faults }
        ensures count_bound { self.new.read_faults < 2 ^ 64 }

        ensures fails { (result ≡ ReadAnswer.Failed) ↔ IsTrue (next_fails self.old.reads) }
        ensures after { self.new ≡ after_read self.old name.now result }
    {
        if self.reads.next_fails() {
            self.read_faults = raise(self.read_faults);
            self.calls.note_read(name, &ReadAnswer::Failed);
            return ReadAnswer::Failed;
        }
        let answer = self.files.read(alloc, name);
        self.calls.note_read(name, &answer);
        answer
    }

    fn write(&mut self, alloc: Global, name: &[u8], content: &[u8]) -> WriteAnswer
        ensures says { WriteResult result
            (Some (file_named self.old.files))
            (Some (file_named self.new.files)) name.now content.now }
        ensures wrote { self.new.wrote ≡ self.old.wrote ++ (name.now, content.now, result) ∷ [] }
        ensures cause { WriteHasCause result self.old.write_faults self.new.write_faults }
        ensures count { self.old.write_faults ≤ self.new.write_faults }
        ensures count_bound { self.new.write_faults < 2 ^ 64 }

        ensures fails { (result ≡ WriteAnswer.Failed) ↔ IsTrue (next_fails self.old.writes) }
        ensures after { self.new ≡ after_write self.old self.new.files name.now content.now result }
    {
        if self.writes.next_fails() {
            self.write_faults = raise(self.write_faults);
            self.calls.note_write(name, content, WriteAnswer::Failed);
            return WriteAnswer::Failed;
        }
        let answer = self.files.write(alloc, name, content);
        self.calls.note_write(name, content, answer);
        answer
    }
}
