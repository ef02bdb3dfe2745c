//! Statuses, and the refusal of files.
//!
//! [`Status`] says how a command ended; `specs/Names.antt` has the names and numbers of statuses. A
//! refused file ([`Bad`]) has a [`Code`] and the place that the code is about. [`Set`] is a file
//! that a command writes.
//!
//! A *rule* computes something from the bytes of files, without a read: a value, or the refusal of
//! a file (`RuleResult`). [`words_in`] unpacks the words of a file (T3, T4, F3), and [`object_in`]
//! decodes the object of words (O1 to O8); `specs/Rules.antt` has their rules. `IsRuleResult`
//! (`specs/Refusing.antt`) is the contract of a call that computes a rule: its result is that of
//! the rule, or memory ran out. `m36_program` and `m36_files` make programs of reads and rules.
//!
//! Packed words are those of `m36_text`, and objects those of `obj36`. The manual has nothing about
//! this.
#![tactic(auto)]

pub mod refusal;
pub mod rules;
pub mod setting;
pub mod status;

pub use refusal::Refusal;
pub use rules::{object_in, refuse, refuse_at, words_in};
pub use setting::Set;
pub use status::{Bad, Code, Status};
