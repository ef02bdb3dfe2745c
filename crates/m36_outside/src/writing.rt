//! The loop over the writes of std, each of which may take less than it is given.

ghost use Rattle.std.specs.Prelude.{◌≡◌, ◌≤◌, ◌<◌, ◌-◌, ◌++◌, Some, IfSome, IfNone, MatchOption};
ghost use Rattle.std.specs.Prelude.{length, take, drop};
ghost use Rattle.std.specs.Io.KnownBytes.{Appends, Keeps};
ghost use Rattle.m36_outside.specs.Put.{PutResult};
ghost use Rattle.m36_outside.specs.Signals.{Signals, GivesUp};
ghost use Rattle.m36_outside.specs.System.{NotesDone, PutHasError};

use crate::call_log::Log;
use crate::logged::WriterLogs;
use crate::sink::Put;
use std::io::{ErrorKind, Write};

/// Writes all of these bytes, and flushes them. A writer that takes nothing has failed.
#[tactic(auto, using(crate::proofs::Appended::appending, crate::proofs::Signalled::in_turn))]
pub fn write_whole<W: Write>(writer: &mut W, notes: &mut WriterLogs, bytes: &[u8]) -> Put
    ensures taken { PutResult result (Some notes.old.taken.entries) (Some notes.new.taken.entries)
        bytes.now }
    ensures inner { IfSome (W.contents writer.old)
        (λ held. PutResult result (Some held) (W.contents writer.new) bytes.now) }
    ensures flushed { NotesDone result notes.old.flushed.entries notes.new.flushed.entries
        notes.new.taken.entries }
    ensures error { PutHasError result notes.old.errors.entries notes.new.errors.entries }
{
    let mut done = 0;
    while done < bytes.len() {
        match write_from(writer, notes, bytes, done) {
            Some(count) => done += count,
            None => return Put::Failed,
        }
    }
    if notes.flush(writer) {
        Put::Done
    } else {
        Put::Failed
    }
}

/// As `write_whole`, for a writer without a log. The bytes that it took and its errors are added
/// to `taken` and `errors`.
pub fn write_and_log<W: Write>(
    writer: &mut W,
    bytes: &[u8],
    taken: &mut Log<u8>,
    errors: &mut Log<ErrorKind>,
) -> Put
    ensures taken { PutResult result (Some taken.old.entries) (Some taken.new.entries) bytes.now }
    ensures inner { IfSome (W.contents writer.old)
        (λ held. PutResult result (Some held) (W.contents writer.new) bytes.now) }
    ensures error { PutHasError result errors.old.entries errors.new.entries }
{
    let mut notes = WriterLogs::new();
    let answer = write_whole(writer, &mut notes, bytes);
    taken.note(&notes.taken);
    errors.note(&notes.errors);
    answer
}

/// Writes some of the bytes from an index on, in one write. A write that a signal interrupts is
/// made again.
fn write_from<W: Write>(
    writer: &mut W,
    notes: &mut WriterLogs,
    bytes: &[u8],
    place: usize,
) -> Option<usize>
    requires { place < length bytes.now }
    ensures bound { IfSome result (λ count. count ≤ length bytes.now - place) }
    ensures progress { IfSome result (λ count. 1 ≤ count) }
    ensures taken { MatchOption result
        (notes.new.taken.entries ≡ notes.old.taken.entries)
        (λ count. notes.new.taken.entries
        ≡ notes.old.taken.entries ++ take count (drop place bytes.now)) }
    ensures inner { MatchOption result
        (Keeps (W.contents writer.old) (W.contents writer.new))
        (λ count. Appends (W.contents writer.old) (W.contents writer.new)
        (take count (drop place bytes.now))) }
    ensures flushed { notes.new.flushed.entries ≡ notes.old.flushed.entries }
    ensures sure { IfSome result (λ _. Signals notes.old.errors.entries notes.new.errors.entries) }
    ensures failed { IfNone result (GivesUp notes.old.errors.entries notes.new.errors.entries) }
{
    write_some(writer, notes, &bytes[place..])
}

/// Writes some of these bytes, in one write. A write that a signal interrupts is made again.
#[tactic(auto, using(crate::proofs::Appended::appending, crate::proofs::Signalled::trying))]
fn write_some<W: Write>(writer: &mut W, notes: &mut WriterLogs, bytes: &[u8]) -> Option<usize>
    requires some { 1 ≤ length bytes.now }
    ensures bound { IfSome result (λ count. count ≤ length bytes.now) }
    ensures progress { IfSome result (λ count. 1 ≤ count) }
    ensures taken { MatchOption result
        (notes.new.taken.entries ≡ notes.old.taken.entries)
        (λ count. notes.new.taken.entries ≡ notes.old.taken.entries ++ take count bytes.now) }
    ensures inner { MatchOption result
        (Keeps (W.contents writer.old) (W.contents writer.new))
        (λ count. Appends (W.contents writer.old) (W.contents writer.new) (take count bytes.now)) }
    ensures flushed { notes.new.flushed.entries ≡ notes.old.flushed.entries }
    ensures sure { IfSome result (λ _. Signals notes.old.errors.entries notes.new.errors.entries) }
    ensures failed { IfNone result (GivesUp notes.old.errors.entries notes.new.errors.entries) }
{
    for _turn in 0..u64::MAX {
        match notes.write(writer, bytes) {
            Some(0) => {}
            Some(count) => return Some(count),
            None => return None,
        }
    }
    None
}
