//! The loop over the reads of std, each of which may return less than was requested.

ghost use Rattle.std.specs.Prelude.{◌≡◌, ◌+◌, ◌≤◌, ◌<◌, Some, None, IfSome, length};
ghost use Rattle.m36_outside.specs.Piece.{PieceResult};
ghost use Rattle.m36_outside.specs.ReadAnswer.{ReadResult, IsWithinLimit, file_limit};
ghost use Rattle.m36_outside.specs.Chunk.{ChunkResult, ChunkGives, AddResult, ChunkHasError};
ghost use Rattle.m36_outside.specs.Given.{ReadGives};
ghost use Rattle.m36_outside.specs.Passing.{PieceGives};
ghost use Rattle.m36_outside.specs.System.{OpenHasError, PieceHasError};

use crate::call_log::Log;
use crate::folder::{FILE_LIMIT, ReadAnswer};
use crate::lines::Piece;
use crate::logged::LoggedReader;
use crate::text::Text;
use m36_word::NoMemory;
use std::alloc::Global;
use std::io::{ErrorKind, Read};

/// The maximum number of bytes that one read requests.
const CHUNK: usize = 8192;

/// The result of one read.
#[derive(Clone, Copy)]
pub enum Chunk {
    /// Bytes were added.
    More,
    /// The end was reached.
    End,
    /// Bytes were added, and the text is now longer than the limit.
    TooLarge,
    /// The read failed.
    Failed,
    /// Out of memory for the bytes.
    NoMemory,
}

/// Reads to the end, and consumes at most one byte past the limit. The answer is never Absent.
#[tactic(auto, using(crate::proofs::Consumed::consumed, crate::proofs::FilesGiven::giving, crate::proofs::Signalled::in_turn))]
pub fn read_whole<R: Read>(from: &mut LoggedReader<R>, alloc: Global) -> ReadAnswer
    ensures told { IfSome (R.remaining from.old.inner) (λ bytes. ReadResult result (Some bytes)) }
    ensures limit { IsWithinLimit result }
    ensures gives { ReadGives result from.old.given.entries from.new.given.entries }
    ensures error { OpenHasError result from.old.errors.entries from.new.errors.entries }
{
    let mut text = Text::new(alloc);
    loop {
        match read_chunk(from, &mut text) {
            Chunk::More => {}
            Chunk::End => return ReadAnswer::Read(text),
            Chunk::TooLarge => return ReadAnswer::TooLarge,
            Chunk::Failed => return ReadAnswer::Failed,
            Chunk::NoMemory => return ReadAnswer::NoMemory,
        }
    }
}

/// As `read_whole`, for a reader without a log. The pieces that it gave and its errors are added
/// to `given` and `errors`.
pub fn read_and_log<R: Read + Drop>(
    reader: R,
    alloc: Global,
    given: &mut Log<Text>,
    errors: &mut Log<ErrorKind>,
) -> ReadAnswer
    ensures told { IfSome (R.remaining reader) (λ bytes. ReadResult result (Some bytes)) }
    ensures limit { IsWithinLimit result }
    ensures gives { ReadGives result given.old.entries given.new.entries }
    ensures error { OpenHasError result errors.old.entries errors.new.entries }
{
    let mut from = LoggedReader::new(reader);
    let answer = read_whole(&mut from, alloc);
    given.note(&from.given);
    errors.note(&from.errors);
    answer
}

/// Reads once, and appends what was read.
fn read_chunk<R: Read>(from: &mut LoggedReader<R>, text: &mut Text) -> Chunk
    requires { length text.old ≤ file_limit }
    ensures says { ChunkResult result
        (R.remaining from.old.inner) (R.remaining from.new.inner) text.old text.new }
    ensures gives { ChunkGives result
        from.old.given.entries from.new.given.entries text.old text.new }
    ensures error { ChunkHasError result from.old.errors.entries from.new.errors.entries }
{
    let mut buffer = [0; CHUNK];
    let room = room_after(text.bytes());
    read_through(from, &mut buffer[..room], text)
}

/// Reads once through a buffer, and appends what was read.
fn read_through<R: Read>(from: &mut LoggedReader<R>, buffer: &mut [u8], text: &mut Text) -> Chunk
    requires room { 1 ≤ length buffer.old }
    ensures says { ChunkResult result
        (R.remaining from.old.inner) (R.remaining from.new.inner) text.old text.new }
    ensures gives { ChunkGives result
        from.old.given.entries from.new.given.entries text.old text.new }
    ensures error { ChunkHasError result from.old.errors.entries from.new.errors.entries }
{
    match from.read(buffer) {
        Some(0) => Chunk::End,
        Some(count) => add_chunk(&buffer[..count], text),
        None => Chunk::Failed,
    }
}

/// The number of bytes to request: at least 1, and at most one past the limit.
fn room_after(text: &[u8]) -> usize
    requires { length text.now ≤ file_limit }
    ensures some { 1 ≤ result }
    ensures most { result ≤ 8192 }
    ensures limit { length text.now + result ≤ file_limit + 1 }
{
    CHUNK.min(FILE_LIMIT + 1 - text.len())
}

/// Appends what was read.
fn add_chunk(got: &[u8], text: &mut Text) -> Chunk
    requires some { 1 ≤ length got.now }
    ensures { AddResult result text.old text.new got.now }
{
    match text.append(got) {
        Ok(()) if text.bytes().len() > FILE_LIMIT => Chunk::TooLarge,
        Ok(()) => Chunk::More,
        Err(NoMemory) => Chunk::NoMemory,
    }
}

/// Reads the next bytes, as many as one read returns.
#[tactic(auto, using(crate::proofs::Consumed::pieces))]
pub fn read_piece<R: Read>(from: &mut LoggedReader<R>, into: &mut [u8]) -> Piece
    requires room { 1 ≤ length into.old }
    ensures told { IfSome (R.remaining from.old.inner)
        (λ left. PieceResult result (Some left) (R.remaining from.new.inner) into.new) }
    ensures size { PieceResult result None None into.new }
    ensures gives { PieceGives result from.old.given.entries from.new.given.entries into.new }
    ensures error { PieceHasError result from.old.errors.entries from.new.errors.entries }
{
    match from.read(into) {
        Some(0) => Piece::End,
        Some(count) => Piece::Got(count),
        None => Piece::Failed,
    }
}
