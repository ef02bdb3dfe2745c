//! A list of named files in memory.

ghost use Rattle.std.specs.Prelude.{ℕ, ◌≡◌, [], ◌∷◌, ◌++◌, Some, None, MatchOption, OnOk, OnErr};
ghost use Rattle.std.specs.List.{position_or_len};
ghost use Rattle.m36_outside.specs.Files.{with_file};
ghost use Rattle.m36_outside.specs.FileList.{file_named, has_name};
ghost use Rattle.m36_outside.specs.ReadAnswer.{ReadResult, IsWithinLimit, IsNoFault};
ghost use Rattle.m36_outside.specs.WriteAnswer.{WriteResult, WriteHasCause};

use crate::folder::{FILE_LIMIT, ReadAnswer, WriteAnswer};
use crate::text::Text;
use m36_word::NoMemory;
use std::alloc::Global;
use std::marker::Model;

/// A file: its name and its content.
#[derive(Drop)]
pub struct NamedFile {
    pub name: Text,
    pub content: Text,
}

/// Files in the order in which their names were first set; the view is the list. All names are
/// distinct.
#[derive(Drop)]
pub struct FileList {
    files: Vec<NamedFile>,
}

impl Model for FileList {
    ghost use Rattle.std.specs.Prelude.{List};
    ghost use Rattle.m36_outside.specs.declared.file_list.NamedFile.{NamedFile};

    ghost Value = { List NamedFile };

    ghost view = { λ l. l.files.items };
}

impl FileList {
    /// No files.
    pub fn new(alloc: Global) -> FileList
        ensures { result ≡ [] }
    {
        FileList {
            files: Vec::new(alloc),
        }
    }

    /// The allocator of the list.
    pub fn allocator(&self) -> Global {
        *self.files.allocator()
    }

    /// The content of the file with this name, or None if there is no such file.
    #[tactic(auto, using(crate::proofs::FilesNamed::files_named))]
    pub fn find(&self, name: &[u8]) -> Option<&Text>
        ensures { MatchOption result
            (file_named self.now name.now ≡ None)
            (λ text. file_named self.now name.now ≡ Some text.now) }
    {
        let place = index_of_file(self.files.as_slice(), name);
        if place < self.files.len() {
            Some(&self.files[place].content)
        } else {
            None
        }
    }

    /// Reads the file with this name. The answer is never Failed.
    pub fn read(&self, alloc: Global, name: &[u8]) -> ReadAnswer
        ensures says { ReadResult result (file_named self.now name.now) }
        ensures limit { IsWithinLimit result }
        ensures sure { IsNoFault result }
    {
        let Some(text) = self.find(name) else {
            return ReadAnswer::Absent;
        };
        let bytes = text.bytes();
        if bytes.len() > FILE_LIMIT {
            return ReadAnswer::TooLarge;
        }
        match Text::from_bytes(alloc, bytes) {
            Ok(copy) => ReadAnswer::Read(copy),
            Err(NoMemory) => ReadAnswer::NoMemory,
        }
    }

    /// Sets the file with this name, which may exist already. If memory runs out, nothing changes.
    #[tactic(auto, using(crate::proofs::FilesNamed::files_named))]
    pub fn set(&mut self, alloc: Global, name: &[u8], content: &[u8]) -> Result<(), NoMemory>
        ensures ok { OnOk result
            (file_named self.new ≡ with_file name.now (Some content.now) (file_named self.old)) }
        ensures err { OnErr result (self.new ≡ self.old) }
    {
        let content = Text::from_bytes(alloc, content)?;
        let place = index_of_file(self.files.as_slice(), name);
        if place < self.files.len() {
            let file = &mut self.files[place];
            file.content = content;
            Ok(())
        } else {
            push_file(&mut self.files, alloc, name, content)
        }
    }

    /// Writes the file with this name. The answer is never Failed.
    pub fn write(&mut self, alloc: Global, name: &[u8], content: &[u8]) -> WriteAnswer
        ensures says { WriteResult result
            (Some (file_named self.old)) (Some (file_named self.new)) name.now content.now }
        ensures cause { (count : ℕ) → WriteHasCause result count count }
        ensures sure { (result ≡ WriteAnswer.Failed) → ⊥ }
    {
        match self.set(alloc, name, content) {
            Ok(()) => WriteAnswer::Written,
            Err(NoMemory) => WriteAnswer::NoMemory,
        }
    }
}

/// Appends a file. If memory runs out, nothing changes.
fn push_file(
    files: &mut Vec<NamedFile>,
    alloc: Global,
    name: &[u8],
    content: Text,
) -> Result<(), NoMemory>
    ensures ok { OnOk result
        (files.new.items ≡ files.old.items ++ record { name = name.now; content = content } ∷ []) }
    ensures err { OnErr result (files.new.items ≡ files.old.items) }
{
    match Text::from_bytes(alloc, name) {
        Ok(name) => {
            files.push(NamedFile { name, content })?;
            Ok(())
        }
        Err(cause) => {
            // Dropped by a call, so the drop is proved once for its type.
            drop(content);
            Err(cause)
        }
    }
}

/// The index of the first file with this name, or the length of the list if there is none.
#[tactic(auto, using(crate::proofs::FilesNamed::places))]
fn index_of_file(files: &[NamedFile], name: &[u8]) -> usize
    ensures { result ≡ position_or_len (has_name name.now) files.now }
{
    for (place, file) in files.iter().enumerate() {
        if name == file.name.bytes() {
            return place;
        }
    }
    files.len()
}
