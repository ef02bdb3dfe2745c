//! Decoding of object segments: the parts that a list of words may encode, and where the list is
//! invalid.
//!
//! `parts_in` decodes any list of fewer than 2^32 words, by its lengths and counts alone: one
//! section after another, and each table in order. It does not check offsets; a caller checks the
//! parts by encoding them again. The functions `fault_of_..` each find the first invalid word of
//! one kind: of the map, the sections, the tables, the names, and the links. All of this takes time
//! that grows with the list. The only error is `NoMemory`.
//!
//! Source: the format is this project's own.
#![tactic(auto)]

pub mod linking;
mod lists;
pub mod map;
pub mod reading;
mod repeats;
pub mod spelling;
pub mod tables;
