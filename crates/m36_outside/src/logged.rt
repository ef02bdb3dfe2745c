//! The calls of the system through a writer and a reader of std, with a log of what each answered.
//!
//! Each call is proved for every reader and writer. If the bytes of a reader or writer are known,
//! the contract says that they moved as logged.

ghost use Rattle.std.specs.Prelude.{[], ◌∷◌, ◌++◌, ◌≡◌, ◌≤◌, ◌↔◌, Some, IfSome, IfNone, IsTrue};
ghost use Rattle.std.specs.Prelude.{MatchOption, length, take};
ghost use Rattle.std.specs.Bool.{OnTrue, OnFalse};
ghost use Rattle.std.specs.Io.KnownBytes.{Appends, Consumes, IsAtEnd, Keeps};
ghost use Rattle.m36_outside.specs.Signals.{Signals, IsFault, GivesUp};

use crate::call_log::{Entries, Log};
use crate::text::Text;
use std::io::{Error, ErrorKind, Read, Write};

impl Entries<u8> for &[u8] {
    ghost entries = { λ bytes. bytes.now };
}

impl Entries<u8> for Log<u8> {
    ghost entries = { λ bytes. bytes.entries };
}

impl Entries<Text> for &[u8] {
    ghost use Rattle.std.specs.Prelude.{[], ◌∷◌};

    ghost entries = { λ bytes. bytes.now ∷ [] };
}

impl Entries<Text> for Log<u8> {
    ghost use Rattle.std.specs.Prelude.{[], ◌∷◌};

    ghost entries = { λ bytes. bytes.entries ∷ [] };
}

impl Entries<Text> for Log<Text> {
    ghost entries = { λ pieces. pieces.entries };
}

impl Entries<ErrorKind> for ErrorKind {
    ghost use Rattle.std.specs.Prelude.{[], ◌∷◌};

    ghost entries = { λ kind. kind ∷ [] };
}

impl Entries<ErrorKind> for Log<ErrorKind> {
    ghost entries = { λ kinds. kinds.entries };
}

/// Logs of a writer: the bytes that it took, at each flush the bytes taken up to then, and its
/// errors.
#[derive(Drop)]
pub struct WriterLogs {
    pub taken: Log<u8>,
    pub flushed: Log<Text>,
    pub errors: Log<ErrorKind>,
}

impl WriterLogs {
    /// Empty logs.
    pub fn new() -> WriterLogs
        ensures taken { result.taken.entries ≡ [] }
        ensures flushed { result.flushed.entries ≡ [] }
        ensures errors { result.errors.entries ≡ [] }
    {
        WriterLogs {
            taken: Log::new(),
            flushed: Log::new(),
            errors: Log::new(),
        }
    }

    /// Writes once. None: the writer answered an error, or it took nothing of these non-empty
    /// bytes. Some(0): a signal interrupted the call. In both cases one error was logged.
    pub fn write<W: Write>(&mut self, writer: &mut W, bytes: &[u8]) -> Option<usize>
        requires some { 1 ≤ length bytes.now }
        ensures bound { IfSome result (λ count. count ≤ length bytes.now) }
        ensures taken { MatchOption result
            (self.new.taken.entries ≡ self.old.taken.entries)
            (λ count. self.new.taken.entries ≡ self.old.taken.entries ++ take count bytes.now) }
        ensures inner { MatchOption result
            (Keeps (W.contents writer.old) (W.contents writer.new))
            (λ count. Appends (W.contents writer.old) (W.contents writer.new)
            (take count bytes.now)) }
        ensures flushed { self.new.flushed.entries ≡ self.old.flushed.entries }
        ensures failed { IfNone result (IsFault self.old.errors.entries self.new.errors.entries) }
        ensures signal { IfSome result (λ count. count ≡ 0 →
            self.new.errors.entries ≡ self.old.errors.entries ++ ErrorKind.Interrupted ∷ []) }
        ensures sure { IfSome result (λ count. 1 ≤ count →
            self.new.errors.entries ≡ self.old.errors.entries) }
    {
        match writer.write(bytes) {
            Ok(0) => {
                self.errors.note(&ErrorKind::WriteZero);
                None
            }
            Ok(count) => {
                self.taken.note(&&bytes[..count]);
                Some(count)
            }
            Err(e) => {
                if note_error(&mut self.errors, &e) {
                    Some(0)
                } else {
                    None
                }
            }
        }
    }

    /// Flushes, again after each interruption by a signal, and returns whether that was done.
    #[tactic(auto, using(crate::proofs::Consumed::pieces, crate::proofs::Signalled::trying))]
    pub fn flush<W: Write>(&mut self, writer: &mut W) -> bool
        ensures taken { self.new.taken.entries ≡ self.old.taken.entries }
        ensures inner { Keeps (W.contents writer.old) (W.contents writer.new) }
        ensures done { OnTrue result
            (self.new.flushed.entries ≡ self.old.flushed.entries ++ self.old.taken.entries ∷ []) }
        ensures sure { OnTrue result (Signals self.old.errors.entries self.new.errors.entries) }
        ensures failed { OnFalse result (GivesUp self.old.errors.entries self.new.errors.entries) }
    {
        for _turn in 0..u64::MAX {
            match writer.flush() {
                Ok(()) => {
                    self.flushed.note(&self.taken);
                    return true;
                }
                Err(e) => {
                    if !note_error(&mut self.errors, &e) {
                        return false;
                    }
                }
            }
        }
        false
    }
}

/// A reader with logs of the pieces that it gave and of its errors. An empty piece is the end.
#[derive(Drop)]
pub struct LoggedReader<R> {
    pub inner: R,
    pub given: Log<Text>,
    pub errors: Log<ErrorKind>,
}

impl<R: Read> LoggedReader<R> {
    /// The reader with empty logs.
    pub fn new(inner: R) -> LoggedReader<R>
        ensures inner { result.inner ≡ inner }
        ensures given { result.given.entries ≡ [] }
        ensures errors { result.errors.entries ≡ [] }
    {
        LoggedReader {
            inner,
            given: Log::new(),
            errors: Log::new(),
        }
    }

    /// Reads once, again after each interruption by a signal. Some(0) is the end.
    #[tactic(auto, using(crate::proofs::Consumed::pieces, crate::proofs::Signalled::trying))]
    pub fn read(&mut self, into: &mut [u8]) -> Option<usize>
        requires room { 1 ≤ length into.old }
        ensures bound { IfSome result (λ count. count ≤ length into.new) }
        ensures given { MatchOption result
            (self.new.given.entries ≡ self.old.given.entries)
            (λ count. self.new.given.entries ≡ self.old.given.entries ++ take count into.new ∷ []) }
        ensures inner { MatchOption result
            (Keeps (R.remaining self.old.inner) (R.remaining self.new.inner))
            (λ count. Consumes (R.remaining self.old.inner) (R.remaining self.new.inner)
            (take count into.new)) }
        ensures end { IfSome result (λ count. count ≡ 0 → IsAtEnd (R.remaining self.new.inner)) }
        ensures sure { IfSome result
            (λ _. Signals self.old.errors.entries self.new.errors.entries) }
        ensures failed { IfNone result (GivesUp self.old.errors.entries self.new.errors.entries) }
    {
        for _turn in 0..u64::MAX {
            match self.inner.read(into) {
                Ok(count) => {
                    self.given.note(&&into[..count]);
                    return Some(count);
                }
                Err(e) => {
                    if !note_error(&mut self.errors, &e) {
                        return None;
                    }
                }
            }
        }
        None
    }
}

/// Logs an error, and returns whether it is the interruption by a signal.
fn note_error(errors: &mut Log<ErrorKind>, error: &Error) -> bool
    ensures signal { OnTrue result
        (errors.new.entries ≡ errors.old.entries ++ ErrorKind.Interrupted ∷ []) }
    ensures fault { OnFalse result (IsFault errors.old.entries errors.new.entries) }
{
    let kind = error.kind();
    errors.note(&kind);
    is_signal(kind)
}

/// Whether the error is the interruption by a signal.
fn is_signal(kind: ErrorKind) -> bool
    ensures { IsTrue result ↔ (kind ≡ ErrorKind.Interrupted) }
{
    kind == ErrorKind::Interrupted
}
