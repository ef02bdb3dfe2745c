//! `print NAME`, `access USER`, `alm NAME` and `bind NAME` as programs.
//!
//! Each command reads its files and computes a [`Report`] from them: the files that it writes and
//! the text that it prints. It then writes the files, and after that puts the text line by line
//! (`specs/ToolPrograms.antt`).
//!
//! | Command | Reads | Writes | Prints |
//! |---|---|---|---|
//! | [`print_object`] | an object | | its print |
//! | [`print_access`] | the boot text and the access lists | | a line for each segment |
//! | [`assemble_file`] | a source | its object | the listing |
//! | [`bind_objects`] | a bind file and its components | the bound object | its print |
//!
//! Memory may run out until the report is complete, and in a write. `print NAME` and `access USER`
//! write no file, by the type of their programs. After a write that failed no file is written, and
//! nothing is put.
//!
//! These four perform the programs over any world, so their contracts have the order of the events:
//! the object is written before the first line is put.
//!
//! [`law_tools`]: if the files give a report, a call ends with Done unless another call fails or
//! memory runs out; and over the same files all calls put prefixes of one text, and those that end
//! put all of it.
//!
//! A report follows from what was read (`specs/PrintAndAlm.antt`, `specs/Binding.antt`,
//! `specs/Accesses.antt`). It has the files that are written, and the text that is then printed, a
//! piece for each line (`specs/Reports.antt`). `make` uses the objects of sources and their
//! refusals too: [`objects::object_bytes`] gives the bytes of an object, and [`refuse_source`]
//! refuses a source.
//!
//! Formats are those of `m36_list` and `obj36`; the machine's words are those of the Multics
//! Processor Manual AL39.
#![tactic(auto)]

pub mod access;
pub mod alm_files;
pub mod assembling;
pub mod bind_files;
pub mod binding;
pub mod laws;
pub mod objects;
pub mod printing;
pub mod report;
pub mod reporting;

pub use access::print_access;
pub use alm_files::{AlmFiles, refuse_source};
pub use assembling::assemble_file;
pub use bind_files::BindFiles;
pub use binding::bind_objects;
pub use laws::law_tools;
pub use printing::print_object;
pub use report::Report;
