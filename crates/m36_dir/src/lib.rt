//! The catalog of a booted machine, parsed from a boot text: directories, segments, libraries, and
//! the place where the machine starts.
//!
//! `Catalog::read` returns the one catalog that a text describes, or the first line of the text
//! that has a code, with the least code of that line. It fails with `NoMemory` if memory runs out.
//! Each catalog has the invariant that `Catalog` states. In a catalog that was read, no name occurs
//! twice in a directory, and each segment is found by each of its names. `find` returns the first
//! segment of a directory that has a name, and None exactly if there is none. `is_directory`,
//! `name_of` and `mode_of` parse words that other texts have as well.
//!
//! Source: the boot text is this project's own. Directories, names and search are those of the
//! Multics Programmers' Manual AG91 (storage system), ring brackets those of AL39.
#![tactic(auto)]

mod boot_code;
mod boot_line;
mod building;
pub mod catalog;
mod directory;
pub mod fault;
mod forms;
pub mod laws;
mod order;
mod reading;
pub mod segment;
pub mod words;

pub use catalog::Catalog;
pub use fault::CatalogFault;
pub use laws::catalog_laws;
pub use segment::{Mode, SegKind, Segment, Start};
pub use words::{is_directory, mode_of, name_of};
