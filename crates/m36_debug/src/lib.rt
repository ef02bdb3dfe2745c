//! Sessions: a user steps, runs, inspects and steps back a machine by lines of input.
//!
//! [`debug`] holds a session over any [`Stepper`](m36_step::Stepper), with the input and output of
//! a [`World`](m36_world::World). It takes pieces of input, which may end anywhere in a line. It
//! puts the answers to all whole lines before it takes the next piece, up to `quit` or the end of
//! the input.
//!
//! | Line | Writes |
//! |---|---|
//! | `step`, `step N` | up to N steps and services, a line each; the end line if the run ends |
//! | `go` | nothing for at most 100,000 steps, up to a break; then as `where`, or the end line |
//! | `break S W` | the break; there are at most 16 |
//! | `regs` | A, Q and the indicators; the index registers; a line for each pointer register |
//! | `seg S W` | a word of a segment |
//! | `where` | the ring, and the segment and word of the next instruction |
//! | `back`, `back N` | goes back N steps, and writes as `where` does |
//! | `quit` | nothing: the session is over |
//!
//! The contract of [`debug`] has three clauses.
//!
//! - `performs`: a session is a program (`specs/SessionProgram.antt`). It takes a piece of input,
//!   puts the answers to the lines that are whole by then, and continues. Taking and putting are
//!   events of the world, so this clause has their order.
//! - `says`: the session as a whole (`specs/SessionContract.antt`). There is a list of session
//!   events (`specs/Session.antt`) that leads from the machine before the call to the machine after
//!   it. Its lines are lines of the bytes that were taken, and what was put is the texts of its
//!   events, or a prefix of them if the output failed.
//! - `limit`: how many steps each line takes in such events.
//!
//! [`law_session`] states two laws of all calls that perform the program
//! (`specs/SessionText.antt`). Each is a session as in `says`, up to some machine after it. And if
//! each state of the machine has one turn and one answer to going back, the text of a session
//! follows from the bytes of the input, whatever the pieces in which they come: a call puts a
//! prefix of what any call with the same bytes puts that ends as the program says.
//!
//! A session event is a line that is taken, a turn of the machine, or going back. Each may follow
//! the one before: a line is taken if the session waits for one, a turn is made if a command runs,
//! and the machine goes back if a line requires it. Turns and going back are answers that the
//! machine's own relations allow. They are no events of the world, so no clause says when the
//! machine makes a turn: only which turns explain the answers and the machine after the call.
//!
//! The bytes after the last line feed are a line only once the input has ended, and the input is
//! not read again after its end. If memory runs out, the answers given until then are put. If the
//! output fails, a prefix of the answers is put.
//!
//! Lines are added to a block, which is handed over when it is full and before more input is taken.
//!
//! `specs/SessionLines.antt` has the grammar of the lines, `specs/SessionTexts.antt` what is
//! written, `specs/Session.antt` what may happen and what is written for it.
//!
//! The processor is that of the Multics Processor Manual AL39; sessions are this simulator's own.
#![tactic(auto)]

mod answering;
pub mod commands;
pub mod fault;
pub mod laws;
pub mod machine_relations;
mod piece;
mod putting;
mod reading;
mod registers;
pub mod session;
pub mod session_line;
mod sitting;
mod texts;

pub use fault::SessionFault;
pub use laws::{law_session, law_step_limit};
pub use session::debug;
