//! The lines of turns that are not steps: what a link service or a console service did, and how a
//! run ended.
//!
//! The contract: each line is exactly the text of its note, without a line feed, and has a bounded
//! length. No line takes memory. `m36_trace` makes the line of a step. `turn_pieces` of
//! `specs/TurnLines.antt` is what traces and sessions write for a turn. Crates that write other
//! lines can use `append`.
//!
//! The lines are this simulator's own.
#![tactic(auto)]

pub mod append;
pub mod console;
pub mod ending;
pub mod link;

pub use console::console_line;
pub use ending::run_end_line;
pub use link::link_line;
