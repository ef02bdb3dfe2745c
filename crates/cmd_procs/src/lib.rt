//! `procs FILE` as a program: it audits several processes on one core jointly, and may then run
//! them by their schedule.
//!
//! `procs_program` (`specs/ProcsProgram.antt`) says what the command does:
//!
//! 1. The file is read and decoded (F1, F2, P1, P2), and memory may run out.
//! 2. The processes are audited. There is one list of findings. If it is empty, every schedule of
//!    the processes is isolated in each ring from 1.
//! 3. The audit's text is put line by line.
//! 4. If nothing was found, or with `--unaudited`, the schedule is run: a line is put for each of
//!    its steps, and the last line.
//!
//! Memory does not run out once a line was put. [`perform_procs_command`] performs this program
//! over any world.
//!
//! By its type the program writes no file and takes no input.
//!
//! [`law_procs_text`]: over the same files all calls put prefixes of one text, and those that end
//! put all of it. [`law_procs_ends`] says what this text is by the findings of the joint audit, and
//! which findings there are by its conditions. `specs/Needs.antt` says what the command
//! needs of the processes to end with Done.
//!
//! A schedule's own events are steps of the processes, each on the core that the step before left.
//! They are no events of the world: only their lines are. The lines of a run are gathered in a
//! block, which is handed over when it is full and at the end. `specs/JointText.antt` has the text
//! of the joint audit, and `m36_procs` the lines of a schedule.
//!
//! The machine is that of the Multics Processor Manual AL39.
#![tactic(auto)]

pub mod answering;
pub mod findings;
pub mod laws;
pub mod reading;
pub mod running;

pub use answering::perform_procs_command;
pub use laws::{law_procs_ends, law_procs_text};
