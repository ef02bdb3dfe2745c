//! The trait of the outside world as one object.

ghost use Rattle.std.specs.Prelude.{◌≤◌, length};
ghost use Rattle.m36_world.specs.Answers.{PutDid, PutBlockDid, NextPieceDid};
ghost use Rattle.m36_world.specs.Happened.{IsFileRead, IsFileWrite};
ghost use Rattle.m36_world.specs.Seen.{Seen};

use m36_outside::{Block, Piece, Put, ReadAnswer, WriteAnswer};
use std::alloc::Global;

/// A folder, an input and an output, with one record of all that is observed of them.
///
/// Whether the files, the output and the input are known never changes. The counts of faults never
/// fall, are below 2^64 after each event that may change them, and saturate at 2^64 - 1.
pub trait World {
    /// All that is observed of the outside.
    ghost seen: { Self → Seen };

    /// Reads a whole file. No read changes a file.
    fn read(&mut self, alloc: Global, name: &[u8]) -> ReadAnswer
        ensures { IsFileRead name.now result (seen self.old) (seen self.new) };

    /// Creates or replaces the file with this name, so that its content is `content`. If that
    /// fails, no file changes.
    fn write(&mut self, alloc: Global, name: &[u8], content: &[u8]) -> WriteAnswer
        ensures { IsFileWrite name.now content.now result (seen self.old) (seen self.new) };

    /// Appends a piece to the output.
    fn put(&mut self, piece: &[u8]) -> Put
        ensures { PutDid result piece.now (seen self.old) (seen self.new) };

    /// Appends the pieces of a block to the output, each logged as a piece of its own. An empty
    /// block never fails.
    fn put_block(&mut self, block: &Block) -> Put
        ensures { PutBlockDid result block.now (seen self.old) (seen self.new) };

    /// Moves the next bytes of the input to the beginning of `into`. The contract leaves open what
    /// follows them in the buffer.
    fn next_piece(&mut self, into: &mut [u8]) -> Piece
        requires room { 1 ≤ length into.old }
        ensures { NextPieceDid result into.new (seen self.old) (seen self.new) };
}
