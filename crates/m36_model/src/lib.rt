//! The machine in definitions: places, addresses, steps, runs, the audit and isolation.
//!
//! `src/` has the records that the definitions and the code share. `specs/` has the rules, one a
//! module, in the order and the words of the manual. A step is a program over a store: it depends
//! only on the registers, and asks the store for each reference. The list of core words is one such
//! store.
//!
//! `laws` has what is proved of the definitions: each step has exactly one meaning, and what an
//! instruction stores is loaded back. `worked` has steps that were worked out by hand.
//!
//! `docs/MANUAL.md` explains the rules in plain words and names the module of each.
//!
//! Source: Multics Processor Manual AL39; for the ring rules, Schroeder and Saltzer (1972).
#![tactic(auto)]

pub mod effects;
pub mod endings;
pub mod laws;
pub mod outcome;
pub mod place;
pub mod record;
pub mod references;
pub mod registers;
pub mod worked;

pub use effects::{Effect36, Formed, Held, Operand36, Tally};
pub use endings::{End, LinkCode};
pub use outcome::{Fault, Final, Halt, Outcome, Refusal, Stop};
pub use place::{At, Kind, Reference};
pub use record::{Shown, StepRecord};
pub use references::Refs;
pub use registers::{Ind, Ppr, Regs};
