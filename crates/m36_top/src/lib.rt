//! The whole simulator as one call: [`m36`] takes the words of the command line, a folder of files,
//! an input and an output, and returns a status.
//!
//! # The commands
//!
//! - `bare FILE` and `audit FILE` read a bare image: a text that gives the core of a machine, its
//!   descriptor segment base register and where it starts. Both audit it and print what the audit
//!   finds. If the audit passes, or `--unaudited` is given, `bare` then runs the machine for at
//!   most the steps of `--steps` (100,000 by default). It prints a trace line for each step, and an
//!   end line.
//! - `audit`, `run` and `trace` boot the folder: they read its boot text and the files of its
//!   segments, lay them in core, audit it, and print what the audit finds. `run` and `trace` then
//!   run the system with its pages, links and console. `run` prints the characters of the console,
//!   `trace` a line for each step and each service, and both the end line. With `--user` the
//!   segments have the rights that the access lists of the folder give to that user.
//! - `access USER` prints these rights, one line for each segment.
//! - `procs FILE` reads a text of several processes on one core and their schedule, audits them
//!   together, and makes the events of the schedule under the same condition.
//! - `print NAME` prints an object. `alm NAME` assembles the source NAME.alm, writes the object as
//!   the file NAME, and prints the listing. `bind NAME` binds the objects that NAME.bind names,
//!   writes the bound object as the file NAME, and prints it.
//! - `debug FILE` reads a bare image, and `debug` boots the folder. Each then holds a session,
//!   whose lines it takes from the input.
//! - `make SEED` makes a folder from a seed and writes its files. It then boots and audits them,
//!   and runs the system if the audit passes.
//!
//! # What the call promises
//!
//! The clause `call` of [`m36`] is the record `TopCall` (`specs/TopCall.antt`); these are its parts
//! and the other clauses. They hold for all arguments: for every folder, input and output, those of
//! the system too.
//!
//! - `performs`: the command does what its program says, with this status. Only the files that the
//!   program reads are read, one after another. What is written and printed is what it writes and
//!   prints, up to a call that fails; a piece that is printed only in part is the last. What may
//!   end the command is decided in this order: words, files, image, audit, run.
//! - Programs are defined by the machine. Each trace line is the line of the defined step of the
//!   state that the step before left, beginning with the state of the image. In a booted folder
//!   each link service gives the pair of the search rules or its code, and each console service the
//!   characters that the rules of access let it read.
//! - `isolated`: if the output of the call begins with the line `audit yes` (with `make`, after its
//!   count of segments), all six conditions of the audit hold of the image, and its tables isolate
//!   each ring from 1. That is: whatever programs run in that ring and above, until a fault, a stop
//!   or a gate call no word outside the ring's write brackets changes, and no word outside its read
//!   brackets affects a step. Of a booted folder the same holds in every state of every run until
//!   an LDBR is executed, absent pages included. Of processes all conditions of the joint audit
//!   hold, and they are isolated over every schedule. The image, the folder or the processes are
//!   those that the command read: by the answers of the folder and, if the folder shows its files
//!   to the contract, as a folder in memory does, by these files.
//! - `cause`: the status is ReadFault or WriteFault only after a failure outside, of exactly one
//!   call. Without a failure the command ends as its program says, or memory runs out.
//! - `done`: if nothing fails outside, the folder shows its files, they are accepted, and the
//!   command's needs are met, the status is Done, or memory ran out. An audit needs to pass, for
//!   example, and a run to end with DIS.
//! - `files`, `input`: only `alm`, `bind` and `make` write files, and only a session takes input.
//! - `sure`: over objects that never fail ReadFault and WriteFault never occur.
//! - `usage` and the clauses after it: words that are no command change nothing.
//!
//! Memory may run out before anything is written or printed, while a file is written, after the
//! files of `make`, in a link service, or in a session. What was written and printed before stays.
//!
//! # How a command is defined
//!
//! A command is a program (`m36_program`): a value that says, step by step, which files the command
//! reads and writes, what it prints and takes, and where memory may run out. The programs and the
//! calls that perform them are in the crates `cmd_image`, `cmd_folder`, `cmd_procs`, `cmd_tools`,
//! `cmd_make` and `cmd_debug`. `specs/Programs.antt` names the program of each command, and
//! `specs/Commands.antt` has the rest that is said of each: whether it may write files or take
//! input, what it reads first, what this needs for the status Done, and what `audit yes` promises
//! of it. `specs/Words.antt` has the words of the commands.
//!
//! [`m36_in`] performs the command over a world, whose calls have one order: a session, for
//! example, prints the answers to all whole lines before it takes more input. [`m36`] calls it over
//! the three objects. They have no common clock, so `performs` of [`m36`] says that their calls are
//! the events of the program in some common order, but not which order that was.
//!
//! [`law_commands`] has the laws of the programs: what a command does if a file is refused, what
//! follows from the findings of an audit, which commands have one text, and which always have a
//! call that ends.
//!
//! Files, texts and statuses are this simulator's own; the machine is that of the Multics Processor
//! Manual AL39.
#![tactic(auto)]

pub mod command;
pub mod laws;
mod names;
pub mod status_report;
mod table;
pub mod top;
pub mod words;

pub use cmd_folder::{FolderCommand, FolderRun};
pub use cmd_image::BareRun;
pub use cmd_tools::{AlmFiles, BindFiles};
pub use command::Command;
pub use laws::law_commands;
pub use m36_image::{Image, ImageFault, read_image};
pub use m36_status::{Bad, Code, Status};
pub use status_report::report;
pub use top::{m36, m36_in};
pub use words::command_of;
