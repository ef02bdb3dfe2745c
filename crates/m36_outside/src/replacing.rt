//! Writes a file of the current directory as a whole, or not at all.
//!
//! The content goes into a spare file, whose name no file had before. Once the spare file has all
//! of the content, one system call renames it to the name of the file. After any failure the file
//! is unchanged, and a removal of the spare file is tried if there is one.

ghost use Rattle.std.specs.Prelude.{◌≡◌, Some, IfSome};
ghost use Rattle.m36_outside.specs.NameCalls.{ReplaceCalls, SpareUsed, SpareErrors};
ghost use Rattle.m36_outside.specs.Put.{PutResult};
ghost use Rattle.m36_outside.specs.System.{FileHasError, NotesWrite, PutHasError, NamesNoFile};

use crate::call_log::Log;
use crate::directory::name_of_file;
use crate::file_logs::FileLogs;
use crate::name_calls::{make_spare, remove, rename};
use crate::sink::Put;
use crate::writing::write_and_log;
use std::io::Write;
use std::rt::Files;

/// Creates or replaces a file of the current directory, as a whole or not at all. Failed also for a
/// name that can name no file.
pub fn write_file<R: Files>(rt: &R, name: &[u8], content: &[u8], notes: &mut FileLogs) -> Put
    ensures outside { NamesNoFile name.now
        → (result ≡ Put.Failed)
        × (notes.new.taken.entries ≡ notes.old.taken.entries)
        × (notes.new.names.entries ≡ notes.old.names.entries) }
    ensures took { NotesWrite result notes.old.taken.entries notes.new.taken.entries content.now }
    ensures given { notes.new.given.entries ≡ notes.old.given.entries }
    ensures names { ReplaceCalls result name.now notes.old.names.entries notes.new.names.entries }
    ensures error { FileHasError result name.now notes.old.errors.entries notes.new.errors.entries }
{
    let Some(name) = name_of_file(name) else {
        return Put::Failed;
    };
    match make_spare(rt, &mut notes.names, &mut notes.errors) {
        Some((spare, file)) => replace(rt, file, spare.as_str(), name, content, notes),
        None => Put::Failed,
    }
}

/// Writes the content to the spare file, and gives it the name of the file that is written. If
/// either fails, tries to remove the spare file.
fn replace<R: Files>(
    rt: &R,
    mut file: R::File,
    spare: &str,
    name: &str,
    content: &[u8],
    notes: &mut FileLogs,
) -> Put
    ensures took { NotesWrite result notes.old.taken.entries notes.new.taken.entries content.now }
    ensures given { notes.new.given.entries ≡ notes.old.given.entries }
    ensures names { SpareUsed result spare.now name.now notes.old.names.entries
        notes.new.names.entries }
    ensures error { SpareErrors result notes.old.errors.entries notes.new.errors.entries }
{
    let answer = fill(&mut file, content, notes);
    // The file is closed before it is renamed.
    drop(file);
    match answer {
        Put::Done => give_name(rt, spare, name, notes),
        Put::Failed => {
            remove(rt, spare, &mut notes.names, &mut notes.errors);
            Put::Failed
        }
    }
}

/// Writes the content to a file and flushes it. The bytes that the file took are logged as one
/// entry.
fn fill<W: Write>(file: &mut W, content: &[u8], notes: &mut FileLogs) -> Put
    ensures took { NotesWrite result notes.old.taken.entries notes.new.taken.entries content.now }
    ensures inner { IfSome (W.contents file.old)
        (λ held. PutResult result (Some held) (W.contents file.new) content.now) }
    ensures given { notes.new.given.entries ≡ notes.old.given.entries }
    ensures names { notes.new.names.entries ≡ notes.old.names.entries }
    ensures error { PutHasError result notes.old.errors.entries notes.new.errors.entries }
{
    let mut taken = Log::new();
    let answer = write_and_log(file, content, &mut taken, &mut notes.errors);
    notes.taken.note(&taken);
    answer
}

/// Renames the spare file to the name. If that fails, tries to remove the spare file.
fn give_name<R: Files>(rt: &R, spare: &str, name: &str, notes: &mut FileLogs) -> Put
    ensures taken { notes.new.taken.entries ≡ notes.old.taken.entries }
    ensures given { notes.new.given.entries ≡ notes.old.given.entries }
    ensures names { SpareUsed result spare.now name.now notes.old.names.entries
        notes.new.names.entries }
    ensures error { SpareErrors result notes.old.errors.entries notes.new.errors.entries }
{
    if rename(rt, spare, name, &mut notes.names, &mut notes.errors) {
        return Put::Done;
    }
    remove(rt, spare, &mut notes.names, &mut notes.errors);
    Put::Failed
}
