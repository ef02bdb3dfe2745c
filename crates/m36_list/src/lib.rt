//! Listings: the disassembly of a word, the print of an object, and the listing of a source.
//!
//! [`disassemble`] returns the text of a word as the assembler reads it: the operation, one space,
//! the address, and the modifier if the tag is not 0. If the operation code has no instruction, the
//! inhibit bit is on, or the tag has no modifier, the text is `oct` and twelve digits. It allocates
//! no memory. [`print()`] returns a text about an object: its name and its number of words, its
//! sections, the entry bound, its definitions and links, and each word of its text with the
//! disassembly. [`listing`] returns a line for each word that a line of a source places, with the
//! number of that line, and then the print.
//!
//! It is proved that the texts are exactly those that `Disassembly`, `Print` and `Listing` in
//! `specs/` define, and that the only error is `NoMemory`. Assembling the text of any word yields
//! that word, by the definitions in the contracts of the parser and the assembler
//! ([`disassembly_laws`]): as a line anywhere in a source the text is parsed, and places that word
//! and no other; alone as a source it is not refused, and its object has that word as its text and
//! nothing else. The tag that the assembler encodes for a modifier selects, in the machine, the
//! modification of that name ([`tag_laws`]).
//!
//! Source: Multics Processor Manual AL39, "Machine instruction format", "Address modification" and
//! "Operation code map". The format of the texts is this project's own.
#![tactic(auto)]

mod counts;
mod definitions;
pub mod disassembly;
mod fields;
pub mod laws;
mod links;
mod listing_text;
mod modifiers;
mod placed;
mod printing;
mod sections;
mod words;

pub use disassembly::disassemble;
pub use laws::{disassembly_laws, tag_laws};
pub use listing_text::listing;
pub use printing::print;
