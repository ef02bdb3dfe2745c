//! The files of the current directory.

ghost use Rattle.std.specs.Prelude.{[], ◌∷◌, ◌++◌, ◌≡◌, ◌≤◌, ◌<◌, ◌^◌, None, MatchOption};
ghost use Rattle.m36_outside.specs.Given.{ReadGives};
ghost use Rattle.m36_outside.specs.ReadAnswer.{IsWithinLimit, ReadHasCause};
ghost use Rattle.m36_outside.specs.System.{ReadHasError, WriteHasError, WriteTakes, WriteCalls};
ghost use Rattle.m36_outside.specs.System.{NamesFile, NamesNoFile, open_refusal_of};
ghost use Rattle.m36_outside.specs.System.{write_answer_of};
ghost use Rattle.m36_outside.specs.WriteAnswer.{WriteResult, WriteHasCause};

use crate::call_log::Log;
use crate::faults::{count_after_put, count_after_read};
use crate::file_logs::FileLogs;
use crate::folder::{Folder, ReadAnswer, WriteAnswer};
use crate::folder_calls::FolderCalls;
use crate::reading::read_and_log;
use crate::replacing::write_file;
use crate::sink::Put;
use std::alloc::Global;
use std::fs::File;
use std::io::ErrorKind;
use std::marker::Model;
use std::rt::Files;

/// The separator of directories in a path.
const SLASH: u8 = b'/';

/// The files of the current directory. Their content is not known to contracts. Contracts see the
/// two counts of faults, the calls, the pieces that the files gave when they were read, the bytes
/// that each file took when it was made, the calls that change names, and the errors of the
/// system.
///
/// A file is written as a whole or not at all (`replacing.rt`).
///
/// A name that is not UTF-8, or that has a slash, names no file of the directory: a read of it
/// answers Absent, and a write Failed. A file that the system reports as not found is Absent.
/// Every other refusal and error of the system is a fault: so a read of a directory fails, as does
/// a name that the system rejects.
#[derive(Drop)]
pub struct DirFolder<R> {
    read_faults: u64,
    write_faults: u64,
    calls: FolderCalls,
    notes: FileLogs,
    rt: R,
}

impl<R> Model for DirFolder<R> {
    ghost use Rattle.std.specs.Prelude.{◌<◌, ◌^◌};
    ghost use Rattle.m36_outside.specs.SystemModels.{FolderModel};

    ghost Value = { FolderModel };

    ghost view = { λ f. record {
      reads = f.read_faults;
      writes = f.write_faults;
      asked = f.calls.asked.entries;
      wrote = f.calls.wrote.entries;
      given = f.notes.given.entries;
      taken = f.notes.taken.entries;
      names = f.notes.names.entries;
      errors = f.notes.errors.entries;
    } };

    ghost invariant = { λ f. (f.read_faults < 2 ^ 64) × (f.write_faults < 2 ^ 64) };
}

impl<R: Files + Drop> DirFolder<R> {
    /// The current directory of this runtime.
    pub fn new(rt: R) -> DirFolder<R>
        ensures { result ≡ record {
          reads = 0;
          writes = 0;
          asked = [];
          wrote = [];
          given = [];
          taken = [];
          names = [];
          errors = [];
        } }
    {
        DirFolder {
            read_faults: 0,
            write_faults: 0,
            calls: FolderCalls::new(),
            notes: FileLogs {
                given: Log::new(),
                taken: Log::new(),
                names: Log::new(),
                errors: Log::new(),
            },
            rt,
        }
    }
}

impl<R: Files + Drop> Folder for DirFolder<R> {
    ghost files = { λ _. None };

    ghost asked = { λ f. f.asked };

    ghost wrote = { λ f. f.wrote };

    ghost read_faults = { λ f. f.reads };

    ghost write_faults = { λ f. f.writes };

    fn read(&mut self, alloc: Global, name: &[u8]) -> ReadAnswer
        ensures limit { IsWithinLimit result }
        ensures asked { self.new.asked ≡ self.old.asked ++ (name.now, result) ∷ [] }
        ensures wrote { self.new.wrote ≡ self.old.wrote }
        ensures cause { ReadHasCause result self.old.reads self.new.reads }
        ensures count { self.old.reads ≤ self.new.reads }
        ensures count_bound { self.new.reads < 2 ^ 64 }
        ensures other_count { self.new.writes ≡ self.old.writes }

        ensures outside { NamesNoFile name.now → result ≡ ReadAnswer.Absent }
        ensures gives { ReadGives result self.old.given self.new.given }
        ensures taken { self.new.taken ≡ self.old.taken }
        ensures names { self.new.names ≡ self.old.names }
        ensures error { ReadHasError result name.now self.old.errors self.new.errors }
    {
        let answer = read_file(&self.rt, alloc, name, &mut self.notes);
        self.calls.note_read(name, &answer);
        self.read_faults = count_after_read(self.read_faults, &answer);
        answer
    }

    fn write(&mut self, _alloc: Global, name: &[u8], content: &[u8]) -> WriteAnswer
        ensures says { WriteResult result None None name.now content.now }
        ensures wrote { self.new.wrote ≡ self.old.wrote ++ (name.now, content.now, result) ∷ [] }
        ensures asked { self.new.asked ≡ self.old.asked }
        ensures cause { WriteHasCause result self.old.writes self.new.writes }
        ensures count { self.old.writes ≤ self.new.writes }
        ensures count_bound { self.new.writes < 2 ^ 64 }
        ensures other_count { self.new.reads ≡ self.old.reads }

        ensures outside { NamesNoFile name.now
            → (result ≡ WriteAnswer.Failed)
            × (self.new.taken ≡ self.old.taken) × (self.new.names ≡ self.old.names) }
        ensures took { WriteTakes result self.old.taken self.new.taken content.now }
        ensures given { self.new.given ≡ self.old.given }
        ensures names { WriteCalls result name.now self.old.names self.new.names }
        ensures error { WriteHasError result name.now self.old.errors self.new.errors }
    {
        let put = write_file(&self.rt, name, content, &mut self.notes);
        let answer = write_answer(put);
        self.calls.note_write(name, content, answer);
        self.write_faults = count_after_put(self.write_faults, put);
        answer
    }
}

/// Reads a file of the current directory.
fn read_file<R: Files>(rt: &R, alloc: Global, name: &[u8], notes: &mut FileLogs) -> ReadAnswer
    ensures limit { IsWithinLimit result }
    ensures outside { NamesNoFile name.now → result ≡ ReadAnswer.Absent }
    ensures gives { ReadGives result notes.old.given.entries notes.new.given.entries }
    ensures taken { notes.new.taken.entries ≡ notes.old.taken.entries }
    ensures names { notes.new.names.entries ≡ notes.old.names.entries }
    ensures error { ReadHasError result name.now notes.old.errors.entries notes.new.errors.entries }
{
    let Some(name) = name_of_file(name) else {
        return ReadAnswer::Absent;
    };
    match File::open(rt, name) {
        Ok(file) => read_and_log(file, alloc, &mut notes.given, &mut notes.errors),
        Err(e) => {
            let kind = e.kind();
            notes.errors.note(&kind);
            open_refusal(kind)
        }
    }
}

/// The answer for a file that could not be opened: Absent if it was not found, otherwise Failed.
fn open_refusal(kind: ErrorKind) -> ReadAnswer
    ensures { result ≡ open_refusal_of kind }
{
    match kind {
        ErrorKind::NotFound => ReadAnswer::Absent,
        _ => ReadAnswer::Failed,
    }
}

/// The answer of the folder to a write, from the answer to the put that wrote the file.
fn write_answer(put: Put) -> WriteAnswer
    ensures { result ≡ write_answer_of put }
{
    match put {
        Put::Done => WriteAnswer::Written,
        Put::Failed => WriteAnswer::Failed,
    }
}

/// The name as text if it may name a file of the current directory: if it is UTF-8 and has no
/// slash.
pub fn name_of_file(name: &[u8]) -> Option<&str>
    ensures { MatchOption result
        (NamesNoFile name.now)
        (λ text. (text.now ≡ name.now) × NamesFile name.now) }
{
    if name.contains(&SLASH) {
        return None;
    }
    std::str::from_utf8(name).ok()
}
