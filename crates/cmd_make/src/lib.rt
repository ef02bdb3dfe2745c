//! The command `make SEED` as a program: it makes a folder with a system to boot from a seed,
//! writes it, and boots, audits and runs the system.
//!
//! `make_program` (`specs/MakeProgram.antt`) says what the command does:
//!
//! 1. It makes the files from the seed: the sources that the generator draws, the object of each
//!    source, the data, and the boot text.
//! 2. It writes them in this order. If a file cannot be written, the command ends: the files before
//!    it are written, and no line is put.
//! 3. It boots the files from memory, and reads none of them again.
//! 4. It audits the core, and puts the count of segments and what the audit finds.
//! 5. If the audit finds nothing, it runs the system for at most 100,000 steps. Then it puts how
//!    the run ended, and index register 1, in which the programs have computed a sum.
//!
//! | Where memory may run out | What has happened by then |
//! |---|---|
//! | while the files are made | nothing |
//! | in the write of a file | the files before it are written |
//! | while the files are booted or the core is audited | all files are written |
//! | in a link service of the run | all files are written, and the lines before the run are put |
//!
//! The command reads no file of the folder. The reader that boots a folder for `run` boots these
//! files too, over a world in memory whose calls do not fail. These calls are no events
//! (`specs/InMemory.antt`). Neither are the turns of the run, so no contract says when a turn is
//! made: only the lines after the run depend on it.
//!
//! [`perform_make`] performs the program over any world, so its contract has the order of the
//! events: all files are written before the first line is put. By its type the program takes no
//! input.
//!
//! `specs/Making.antt` says which files a seed makes, `specs/Made.antt` what they boot to,
//! `specs/QuietRun.antt` what a run is of which no turn is written, and `specs/Summary.antt` which
//! lines are put of the system.
//!
//! [`law_made`] has the laws of the calls that end by themselves (`specs/MadeLaw.antt`): what such
//! a call writes and puts follows from what the files boot to and from the audit of its core.
//! `specs/Needs.antt` says with what it ends with Done (`proofs/MadeDone.antt`). If the text that
//! was put begins with the count of segments and `audit yes`, the system that was made passes its
//! audit (`proofs/MadeYes.antt`).
//!
//! The generator is that of `m36_gen`, an object is the one that `alm` makes, and the folder is
//! booted as `run` does it. The machine is that of the Multics Processor Manual AL39; sources,
//! files and lines are this simulator's own.
#![tactic(auto)]

pub mod answering;
pub mod folder;
pub mod laws;
pub mod making;
pub mod objects;
pub mod running;
pub mod sets;
pub mod summary;

pub use answering::perform_make;
pub use laws::law_made;
pub use sets::Sets;
