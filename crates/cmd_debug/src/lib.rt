//! `debug FILE` and `debug` as programs.
//!
//! `debug FILE` reads a bare image, and `debug` boots the folder. Neither audits. Each then holds a
//! session over the machine, with the lines of the standard input. The machine of an image can go
//! back; a booted system cannot.
//!
//! `debug_image` and `debug_folder` (`specs/DebugProgram.antt`) say what the commands do:
//!
//! 1. The image is read and decoded (F1, F2, I1 to I3), or the folder is read and booted as by
//!    `run`.
//! 2. Memory may run out.
//! 3. A session is held (`m36_debug`): it takes a piece of input, puts the answers to the lines
//!    that are whole by then, and only after that takes the next piece. With more input than a
//!    session takes, it ends with S1 of `stdin`.
//!
//! [`debug_image`] and [`debug_folder`] perform these programs over any world, so their contracts
//! have the order of the events: a reader of a pipe sees each answer before the program waits for
//! more input.
//!
//! [`law_debug`] says what each call is that performs one of the programs (`specs/Sessions.antt`).
//! The reader gives a value, and a session is held over its machine: the lines that are answered
//! are those of the bytes that were taken, and what is put is what the events of the session write.
//! No input is taken and nothing is put if a file is refused or cannot be read, or if memory runs
//! out before the session.
//!
//! [`law_debug_text`] says that the text of `debug FILE` follows from the files and from the bytes
//! of the input, whatever the pieces in which these come. That of `debug` over a folder does so
//! until an ABSA or LDBR is executed. `specs/Needs.antt` says what a session needs to end with
//! Done.
//!
//! `specs/Held.antt` says what a session is held over. Sessions are this simulator's own; the
//! machine is that of the Multics Processor Manual AL39.
#![tactic(auto)]

pub mod answering;
mod ending;
pub mod laws;

pub use answering::{debug_folder, debug_image};
pub use laws::{law_debug, law_debug_text};
