//! One step of the machine.
//!
//! The state of a `Machine` is its registers and its list of core words. [`Machine::step`] returns
//! the record of the step and leaves the state that the definition requires: `m36_model` defines
//! the step as a program over a store, and the store is core, read through the tables of the
//! descriptor segment.
//!
//! The code is ordinary emulator code. It fetches the instruction, looks up its row, checks the
//! privilege, forms the address, references the operand by its kind, and computes the effect. Only
//! then are the words written, that of the tally first, and the registers updated. A refusal at
//! any earlier point leaves registers and words unchanged, except for marks. No step can run out
//! of memory.
//!
//! Each step is first tried as a quick step: pages in front answer all its references, and nothing
//! refuses it. All checks are made before anything is written; if one fails, nothing has changed,
//! and the step is executed from its beginning in the general way. Frequent instructions on a
//! word, a half or a pair, shifts, transfers, CALL6 and RTCD are quick if the address reads at
//! most one indirect word or one ITS pair. If the address counts a tally word, those that read or
//! store a word are quick; with a direct operand, those that read a word are. The recorder of a
//! quick step decides what is recorded of it: [`Machine::hurry`] takes quick steps and records
//! nothing.
//!
//! A [`Stepper`] is a machine that takes turns. A [`Turn`] is a step, a service that the step
//! before it calls for, or the report that the run has ended. The relations of the trait are the
//! contracts of its methods. A [`Replay`] is a `Stepper` whose turns are a function of its state.
//! A `Machine` is both. Its turns are steps until one ends the run; from then on each turn reports
//! that end. Its model is its state and how its run of turns has ended, if it has; a step alone
//! uses only the state.
//!
//! Source: Multics Processor Manual AL39, "Instruction execution", "Processor modes", "Machine
//! instructions" and "Address appending"; the order of the parts is this project's choice.
#![tactic(auto)]

mod effects;
mod ended;
mod execute;
mod hurry;
pub mod machine;
mod operands;
mod operate;
mod operated;
mod quick;
mod quick_counted;
mod quick_pairs;
mod quick_words;
mod reach;
mod recorder;
mod recording;
mod references;
mod shown;
pub mod stepper;
mod targets;
pub mod turns;
mod writes;

pub use machine::Machine;
pub use stepper::{Replay, Stepper};
pub use turns::{BackAnswer, ConsoleNote, LinkNote, Turn};
