//! `audit`, `run` and `trace` of a folder as programs.
//!
//! A folder has a boot text, the file `boot`, and a file for each segment of the catalog in the
//! boot text. `folder_program` (`specs/FolderProgram.antt`) says what the three commands do:
//!
//! 1. The boot text is read, then the access lists if there is a user, and then the file of each
//!    segment.
//! 2. The system is booted, or the folder is refused.
//! 3. Its core is audited, and the audit's text is put line by line (`specs/OnFolder.antt`).
//! 4. `run` and `trace` continue if the audit found nothing, or with `--unaudited`. They run the
//!    system turn by turn (`specs/RunProgram.antt`): a step, and then the link service or console
//!    service that it calls for, if any.
//!
//! `run` puts the characters of the console. `trace` puts a line for each step and each service.
//! Both put the end line.
//!
//! | Where memory may run out | What has been put by then |
//! |---|---|
//! | while files are read, the system is booted or its core audited | nothing |
//! | in a link service of a run | the audit's text, and what is written of the turns before it |
//!
//! [`perform_folder_command`] performs this program over any world, so its contract has the order
//! of the events. By its type the program writes no file and takes no input.
//!
//! [`law_folder`] says what the program means (`specs/FolderLaw.antt`):
//!
//! - Each call of the program of a run is a booted run (`specs/Runs.antt`), up to its finish or to
//!   where the call stopped (`specs/IsBootedRun.antt`). Each booted run that finishes is such a call.
//! - `audit` has one text over the same files. `run` and `trace` have one text up to the first ABSA
//!   or LDBR that a turn executes. After that the run depends on which pages are evicted.
//! - The conditions of the audit decide which findings there are. Some call ends, if some run
//!   finishes.
//!
//! What a call needs to end with Done is in `specs/Needs.antt`. [`law_booted`] has the laws of the
//! machine: a folder boots to one system, and the count of frames does not change plain turns.
//!
//! A turn is no event, so no contract of a command says when a turn is made. The code puts the
//! characters of a console service before it makes the next turn: each step and each service
//! requires that no text of the console waits in the block (`IsConsoleTextPut`), and the loop of
//! [`run`] keeps that. So a reader of a pipe sees the characters while the program runs. The lines
//! of a trace are gathered in a block. It is handed over when it is full, at the end, and when a
//! link service runs out of memory.
//!
//! With `--user` the line `denied` of a segment follows the end line if the run ended because a
//! right to that segment was missing.
//!
//! Each step of a run is the defined step of its state, and each link service gives the snapped
//! pair of the link, or its code. `audit yes` promises, in every state of every run until an LDBR
//! is executed, that all six conditions of the audit hold and that the tables isolate each ring.
//!
//! | In `specs/` | |
//! |---|---|
//! | `specs/Folder.antt` | what is booted, and which folders are refused |
//! | `specs/BootedSystems.antt` | the system of a folder, before its first turn |
//! | `specs/Runs.antt` | the runs of a system: turns within a limit of steps, and how they finish |
//! | `specs/RunText.antt` | the pieces that a run puts, and its status |
//! | `specs/Promise.antt` | what `audit yes` promises |
//! | `specs/BootedLaw.antt` | there is one system, and one run until an ABSA or LDBR |
//!
//! `make` and sessions boot their folders with this crate too.
//!
//! The machine is that of the Multics Processor Manual AL39; boot texts, services and lines are
//! this simulator's own.
#![tactic(auto)]

pub mod answering;
pub mod auditing;
pub mod booting;
pub mod command;
pub mod denied_lines;
pub mod ending;
pub mod files;
pub mod finish;
pub mod laws;
mod lines;
pub mod reading;
pub mod running;

pub use answering::perform_folder_command;
pub use auditing::audit_system;
pub use command::{FolderCommand, FolderRun, RunOutput};
pub use ending::{finish_line, finish_status};
pub use laws::{law_booted, law_folder};
pub use reading::read_system;
pub use running::run;
