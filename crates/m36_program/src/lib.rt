//! What a command does to the outside world, as a program.
//!
//! A *program* (`specs/Program.antt`) is a value that says, step by step, what a command does: it
//! reads a file and continues according to what it finds, writes a file, puts a piece of output,
//! or takes a piece of input. It may choose any value with a given property, and it says where
//! memory may run out. It ends with a value, or stops with a status. `then_with` joins two
//! programs, as `?` joins two calls. A program names no folder and no terminal, and no code
//! interprets it: it is the content of a contract, and the code with that contract is ordinary
//! code.
//!
//! The command `audit FILE` is this program:
//!
//! ```antt
//! audit name = then_with (file_bytes name) (λ bytes. then_with (image_of name bytes) audit_of)
//!
//! image_of name bytes = by (image_in bytes):
//!     Ok image ↦ done image  |  Err fault ↦ refuses (bad_file name fault)
//!
//! audit_of image = wants (some (AreFindings image) (λ findings.
//!     puts_all (audit_pieces findings) (ends (audit_status findings))))
//! ```
//!
//! It reads the file, and refuses it or continues. Then memory may run out; after that it cannot
//! run out any more. The program chooses a list of findings that satisfies the auditor's contract,
//! puts a line for each, or `audit yes`, and ends with Done or AuditNo.
//!
//! | Step | Continues after the event | Ends the program |
//! |---|---|---|
//! | `done a`, `stops status` | | with the value, with the status |
//! | `reads name go` | `FileRead`, by what is found | ReadFault, NoMemory, as the read answers |
//! | `writes name content rest` | `FileWrite` | WriteFault, NoMemory, as the write answers |
//! | `puts piece rest` | `Output` | WriteFault: `OutputFailed` |
//! | `takes go` | `Input` with a piece, which is empty at the end | ReadFault: `InputFailed` |
//! | `some Is go` | at once, with any value that satisfies `Is` | |
//! | `wants rest` | at once | NoMemory |
//!
//! A failed put is one event with all pieces of the call: this piece, and perhaps pieces that the
//! program puts next.
//!
//! `Goes program events result` (`specs/Goes.antt`) says that the program can produce exactly
//! these events, in this order, and end with this result. `Performs program result old new`
//! (`specs/Performs.antt`) is the contract of a call: some events happened, one after another, and
//! with them the program goes to the result of the call. What a program may do is part of its
//! type: `Program quiet A` writes no file and takes no input.
//!
//! `PerformsOver` (`specs/Objects.antt`) is the contract of a call over a folder, an input and an
//! output instead of a world. Each of the three records its own calls, and they have no common
//! clock. The contract says that the records are the parts of one list of events with which the
//! program goes to the result. It does not say that the events of two objects happened in the
//! order of this list; only `Performs` over a world does.
//!
//! The invariant of a loop says what is left of its program (`Leads`). Lines that the loop has
//! gathered in a block are put before what is left, so adding a line and putting a full block are
//! one lemma each.
//!
//! What holds for every program is proved once, and a command's contract takes its value from
//! there:
//!
//! | Law in `proofs/` | What it says of each call that performs a program |
//! |---|---|
//! | `performs_then`, `performs_stop` | calls of two programs, in order, perform the two joined |
//! | `goes_split`, `reader_split` | the converse, for events |
//! | `performs_cause` | for a fault exactly one count rose; otherwise all counts are unchanged |
//! | `performs_files`, `performs_input` | only a program that may write or take input does so |
//! | `performs_text` | what is written grows by the pieces, or by a prefix of them |
//! | `performs_written` | over the same files, without input, all write prefixes of one text |
//! | `reads_told` | over known files a program continues by what they have under the name |
//! | `live_end` | a program without a dead end has events that lead it to an end |
//! | `reader_comes_done` | when a program that begins with a reader ends with Done |
//! | `reader_says_yes` | what the first bytes of its output say of what it read |
//! | `over_cause`, `over_files`, `over_input` | the first three for calls over the three objects |
//! | `performs_over` | what a call does over a world, it does over the three objects |
//!
//! The one text of `performs_written` is what a call that ends writes. The program has to be
//! `Alike` to itself.
//!
//! [`read_bytes`], [`write_file`] and [`put_piece`] perform programs of one step over any world, as
//! part of any program that may take the step. [`add_piece`], [`finish`] and [`flush_block`] gather
//! pieces in a block.
#![tactic(auto)]

pub mod ending;
pub mod gathering;
pub mod putting;
pub mod reading;

pub use ending::{result_of_status, status_of_result};
pub use gathering::{add_piece, finish, flush_block};
pub use putting::{put_piece, write_file};
pub use reading::{read_bytes, refuse, refuse_at};
