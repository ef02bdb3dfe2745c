//! The commands `bare FILE` and `audit FILE`, defined as programs (`m36_program`).
//!
//! `image_program` (`specs/ImageProgram.antt`) says what the two commands do:
//!
//! - The file is read and decoded. It is refused if it is absent (F1), too large (F2) or not a bare
//!   image (I1 to I3).
//! - The image is audited. Memory may run out until here, but not later.
//! - The text of the audit is put: a line for each finding, or `audit yes`. An image has only one
//!   list of findings.
//! - If nothing was found, or `--unaudited` is given, `bare FILE` runs the machine. It puts a trace
//!   line for each step, and then the end line.
//!
//! [`perform_image_command`] performs this program over any world, so its contract has the order of
//! the events. A step of the machine is no event: only its line is.
//!
//! By its type the program writes no file and takes no input.
//!
//! [`law_image_text`] says that over the same files every call puts a prefix of one text. A call
//! that does not end by a fault or out of memory puts all of it. [`law_image_ends`] says what this
//! text is by the findings of the audit, and which findings there are by its six conditions.
//! `specs/Needs.antt` says what a command needs of an image to end with Done.
//!
//! The lines of a run are gathered in a block, which is handed over when it is full and at the end.
//! The invariant of the loop is what is left of the program (`Leads`): the lines in the block, and
//! then the steps that are left.
//!
//! [`machine::findings_in`] audits the core of an image. If nothing is found, all six conditions of
//! the audit hold, and the tables of the image isolate each ring from 1 (`PassesAudit` of
//! `specs/ImageAudit.antt`). The text of an audit (`specs/AuditText.antt`) is the line `audit yes`,
//! or a line for each finding with its condition and its place; no digit of a place is cut off.
//!
//! `specs/Run.antt` defines the run of a machine, and `specs/Output.antt` its lines and its status.
//! [`law_runs`] states that a run that did not end used up its limit of steps, and that its steps
//! are those of the machine's turns.
//!
//! Sessions, booted folders and processes use parts of this crate: the machine of an image, the
//! lines of an audit, the status of a run.
//!
//! The machine is that of the Multics Processor Manual AL39.
#![tactic(auto)]

pub mod answering;
pub mod audit_lines;
pub mod command;
pub mod findings;
pub mod image_codes;
pub mod laws;
pub mod machine;
pub mod reading;
pub mod run_laws;
pub mod running;

pub use answering::perform_image_command;
pub use command::{BareRun, ImageCommand};
pub use laws::{law_image_ends, law_image_text};
pub use run_laws::law_runs;
