//! Runs several processes on one core, by a written schedule.
//!
//! A process is a set of registers of its own, with its own descriptor segment base register. All
//! processes share one core. An event is one step of one process, and the schedule says which
//! process makes each event. A process that has stopped or faulted is stepped again in its turn.
//!
//! The contract: [`Procs::read`] returns exactly the processes and the schedule that a text
//! describes; or the first line that has a code, with the least code of that line; or `NoMemory`.
//! All memory is allocated there. [`Procs::event`] makes one event. [`Procs::run`] makes those of
//! the whole schedule, and writes a line for each and a last line; what it writes is exactly the
//! text of these events. If the output fails, it has written a prefix of the text and made the
//! events of a prefix of the schedule.
//!
//! A caller with another kind of output makes the events one by one: [`Procs::process_at`] is the
//! process of each, [`Procs::event_into`] makes it and overwrites a record, and [`event_line`] and
//! [`end_line`] are the lines.
//!
//! `specs/ProcsFile.antt` has the grammar of the text, and `specs/ScheduleText.antt` what a run
//! writes. Events are defined in `m36_model:Schedule`. The processor is that of the Multics
//! Processor Manual AL39; the text and the lines are this simulator's own.
#![tactic(auto)]

pub mod fault;
mod line_forms;
mod process_set;
pub mod procs;
mod reader;
mod reading;
pub mod running;

pub use fault::{ProcsCode, ProcsFault, WriteFault};
pub use procs::Procs;
pub use running::{end_line, event_line};
