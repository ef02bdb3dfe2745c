//! The dynamic linker. It searches for a segment by a reference name, finds the pair that replaces
//! a link, and decides where the linkage sections of objects are laid. A `Known` has what earlier
//! answers have made known: the names that are initiated in each ring, and the sections that are
//! laid there.
//!
//! The contract:
//!
//! - `Known::search` returns the first candidate for a name in the order of the search rules, and
//!   never a later one.
//! - `Known::resolve` returns exactly the snapped pair of the link at a place, with the section
//!   that has to be laid for it, or the first reason why there is none. It changes nothing. It
//!   uses the objects as they were booted, never words of memory. The link at a word is the one
//!   that the object has there, and an address reads the pair that replaces it as an ITS pair.
//! - `Known::accept` adds the name and the section of an answer, and nothing else.
//!
//! Source: dynamic linking is that of the Multics Programmers' Manual AG91 and of Organick, "The
//! Multics System" (1972), chapter 2; the pair is that of the Multics Processor Manual AL39,
//! "Indirect to segment".
#![tactic(auto)]

pub mod file;
pub mod known;
pub mod laid;
pub mod laws;
mod names;
mod places;
mod points;
mod resolving;
mod search;
mod sections;
pub mod snap;
mod target;

pub use file::{FIRST_SEGMENT, File, object_in};
pub use known::Known;
pub use laid::{FIRST_LINKAGE, LOT_WORDS, NewSection, PlacedSection};
pub use laws::link_laws;
pub use resolving::segment_of;
pub use snap::{LinkFault, Snap};
