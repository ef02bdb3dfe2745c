//! The trait of a folder of files.

ghost use Rattle.std.specs.Prelude.{ℕ, ◌≡◌, ◌≤◌, ◌<◌, ◌^◌, List, [], ◌∷◌, ◌++◌, Option, IfSome};
ghost use Rattle.m36_outside.specs.Files.{Files};
ghost use Rattle.m36_outside.specs.ReadAnswer.{ReadResult, IsWithinLimit, ReadHasCause};
ghost use Rattle.m36_outside.specs.WriteAnswer.{WriteResult, WriteHasCause};
ghost use Rattle.m36_outside.specs.FolderCalls.{Asked, Wrote};

use crate::text::Text;
use std::alloc::Global;

/// The maximum length of a file that can be read: 16 MiB.
pub const FILE_LIMIT: usize = 1 << 24;

/// The answer to a read.
#[derive(Drop)]
pub enum ReadAnswer {
    /// The whole content of the file, of at most 16,777,216 bytes.
    Read(Text),
    /// There is no file with this name.
    Absent,
    /// The file has more than 16,777,216 bytes.
    TooLarge,
    /// The file could not be read. The count of read faults rose.
    Failed,
    /// Out of memory for the content.
    NoMemory,
}

/// The answer to a write.
#[derive(Clone, Copy, PartialEq, Eq)]
pub enum WriteAnswer {
    /// The file has exactly this content.
    Written,
    /// The file could not be written and is unchanged. The count of write faults rose.
    Failed,
    /// Out of memory. No file changed.
    NoMemory,
}

/// Files by their names; a name is any list of bytes.
///
/// The files may be known to contracts, as those of a folder in memory, or not, as those of a real
/// system. Whether they are known never changes. Every folder logs its reads and writes with their
/// answers, in order. Its two counts of faults never fall, are below 2^64, and saturate at 2^64 -
/// 1.
pub trait Folder {
    /// The files, if they are known.
    ghost files: { Self → Option Files };

    /// The reads so far, in order: each name with the answer.
    ghost asked: { Self → List Asked };

    /// The writes so far, in order: each name with the content and the answer.
    ghost wrote: { Self → List Wrote };

    /// The number of reads that failed.
    ghost read_faults: { Self → ℕ };

    /// The number of writes that failed.
    ghost write_faults: { Self → ℕ };

    /// Reads a whole file. No read changes a file.
    fn read(&mut self, alloc: Global, name: &[u8]) -> ReadAnswer
        ensures told { IfSome (files self.old) (λ f. ReadResult result (f name.now)) }
        ensures limit { IsWithinLimit result }
        ensures files { files self.new ≡ files self.old }
        ensures asked { asked self.new ≡ asked self.old ++ (name.now, result) ∷ [] }
        ensures wrote { wrote self.new ≡ wrote self.old }

        ensures cause { ReadHasCause result (read_faults self.old) (read_faults self.new) }
        ensures count { read_faults self.old ≤ read_faults self.new }
        ensures count_bound { read_faults self.new < 2 ^ 64 }
        ensures other_count { write_faults self.new ≡ write_faults self.old };

    /// Creates or replaces the file with this name, so that its content is `content`. If that
    /// fails, no file changes.
    fn write(&mut self, alloc: Global, name: &[u8], content: &[u8]) -> WriteAnswer
        ensures says { WriteResult result (files self.old) (files self.new) name.now content.now }
        ensures wrote { wrote self.new ≡ wrote self.old ++ (name.now, content.now, result) ∷ [] }
        ensures asked { asked self.new ≡ asked self.old }

        ensures cause { WriteHasCause result (write_faults self.old) (write_faults self.new) }
        ensures count { write_faults self.old ≤ write_faults self.new }
        ensures count_bound { write_faults self.new < 2 ^ 64 }
        ensures other_count { read_faults self.new ≡ read_faults self.old };
}
