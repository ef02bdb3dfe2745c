//! The trace line, which says what one step of the machine did; and the end line of a run.
//!
//! A trace line has nine fields, separated by one space: the number of the step, from 1; the
//! procedure ring; segment and word number of the instruction; its word; the final address; A; Q;
//! the indicators; the outcome. Words and addresses are octal, the numbers of steps and faults
//! decimal. A, Q and the indicators are those after the step. [`line`] gives exactly this text.
//!
//! [`add_step`] and [`add_shown`] add the line with its line feed to a block of lines. They keep
//! parts of the line before in a [`TraceText`], and spell only what has changed. [`push_shown`]
//! does the same without an output, if the block has room. An end line says how a run ended, and
//! after how many steps: [`end_line`]. No line takes memory.
//!
//! Other crates that write lines use [`put_place`] or [`place_digits`] for a segment and a word of
//! it, [`put_address`] for these with the ring, and [`put_indicators`].
//!
//! The registers are those of the Honeywell 6180, Multics Processor Manual AL39; the lines are
//! this simulator's own.
#![tactic(auto)]

pub mod adding;
mod digits;
pub mod end;
mod fields;
mod parts;
mod spelling;
pub mod text;
pub mod trace;
mod triples;

pub use adding::{add_shown, add_step, push_shown};
pub use digits::place_digits;
pub use end::end_line;
pub use fields::{put_address, put_indicators, put_place};
pub use text::TraceText;
pub use trace::{line, shown_line};
