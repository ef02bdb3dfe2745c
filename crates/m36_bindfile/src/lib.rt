//! Bind files: which objects are bound, in which order, and which of their names are retained.
//!
//! ```text
//! version 2       optional; only as the first line
//! object NAME     one or more
//! retain NAME     any number, after the objects
//! ```
//!
//! `read_lines` returns exactly the lines of a text. `component_names_of` returns the names of its
//! `object` lines, each once, in the order in which they first occur. Both fail with B1 at the
//! first line that has no form, is out of order or lacks its line feed, at line 1 if there is no
//! `object` line, and with `NoMemory` if memory runs out. `BindFault` has the codes of the binder
//! too.
//!
//! Source: bind files are this project's own. What is bound, and how, follows the binder of the
//! Multics Programmers' Manual.
#![tactic(auto)]

pub mod fault;
mod forms;
pub mod line;
pub mod reading;

pub use fault::BindFault;
pub use line::{BindLine, BindLines};
pub use reading::{component_names_of, read_lines};
