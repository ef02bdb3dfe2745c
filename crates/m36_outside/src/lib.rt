//! The simulator's edge to the outside world: files, input and output.
//!
//! Every byte that the simulator reads or writes passes through three traits, and the layers above
//! know the world by their contracts alone. An object may expose its content to contracts or not;
//! this never changes. A clause about content holds only if the content is exposed ("known"
//! below).
//!
//! - A [`Folder`] has files by name. No read changes a file. A read that neither fails nor runs
//!   out of memory returns the file's bytes, Absent exactly if there is no such file, or TooLarge
//!   exactly if the file has more than 16,777,216 bytes. A write sets the named file alone; if it
//!   fails, no file changes.
//! - [`Lines`] are input, read in pieces from its beginning. A call that does not fail reports the
//!   end exactly if nothing is left.
//! - A [`Sink`] has what was written to it. A put appends its piece, or a prefix of it if the put
//!   fails. A [`Block`] gathers pieces that are put at once: the standard output takes them in one
//!   system call, or in as many as it needs, and a sink in memory as if one by one. A block is not
//!   a sink: its pieces are not written until the block is handed over.
//!
//! A call answers Failed only if a count of faults rose in this call: it is greater after the call
//! than before, or it is 2^64 - 1, where every count saturates. Counts never fall. Only NoMemory
//! needs no cause; a call that answers it changes no file.
//!
//! | In memory, with calls that fail on request | In memory, never failing | Of the system |
//! |---|---|---|
//! | [`MemFolder`] | [`SureFolder`] | [`DirFolder`], the files of the current directory |
//! | [`MemLines`] | [`SureLines`] | [`StdLines`], the standard input |
//! | [`MemSink`] | [`SureSink`] | [`StdSink`], the standard output |
//!
//! Each of them, also those of the system, exposes its log to contracts, in order: a folder its
//! reads and writes, an input the pieces that it gave, a sink the pieces that it took. The log is
//! a [`Log`]. It has no bytes at run time, so nothing is kept in memory. By it a caller's
//! contract can state, for every object, what was requested and what was put.
//!
//! The system is called in `logged.rt`, in `name_calls.rt` and, to open a file, in `directory.rt`.
//! Each call is logged with what std answered. `logged.rt` is proved for every reader and writer.
//! From it the adapters prove:
//!
//! - a put that is done wrote everything and flushed it;
//! - what is read of a file is all that the file gave;
//! - a file is replaced as a whole or not at all;
//! - a call that a signal interrupts is made again;
//! - each failure has a cause: an error of the system, or a name that names no file.
//!
//! The content of a real file, or what is left to read at a terminal, is not known: contracts take
//! what std reports of the system as it is.
//!
//! A caller composes these contracts by the laws in `proofs/`: `Grown` for what several puts
//! wrote, `LinesTaken` for the pieces that they put, `Completes` for puts in a loop, `Gathered`
//! for pieces gathered in a block, `Risen` for counts, and `FilesKept` for files. `caller.rt` of
//! `outside_tests` is a worked example. The manual of the processor does not cover any of this.
#![tactic(auto)]

pub mod block;
pub mod call_log;
mod calls;
pub mod directory;
mod faults;
mod file_list;
mod file_logs;
pub mod folder;
mod folder_calls;
pub mod lines;
mod logged;
pub mod memory_folder;
pub mod memory_lines;
pub mod memory_sink;
mod name_calls;
mod reading;
mod remaining;
mod replacing;
pub mod sink;
pub mod spelled;
pub mod standard_input;
pub mod standard_output;
pub mod sure_folder;
pub mod sure_lines;
pub mod sure_sink;
pub mod text;
mod writing;

pub use block::Block;
pub use call_log::{Entries, Log};
pub use directory::DirFolder;
pub use folder::{FILE_LIMIT, Folder, ReadAnswer, WriteAnswer};
pub use lines::{Lines, Piece};
pub use memory_folder::MemFolder;
pub use memory_lines::MemLines;
pub use memory_sink::MemSink;
pub use sink::{Put, Sink};
pub use spelled::Spelled;
pub use standard_input::StdLines;
pub use standard_output::StdSink;
pub use sure_folder::SureFolder;
pub use sure_lines::SureLines;
pub use sure_sink::SureSink;
pub use text::Text;
