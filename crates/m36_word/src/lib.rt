//! Words of 36 bits, the unit of storage of the Honeywell 6180.
//!
//! Contracts see a word as a number below 2^36, a half as a number below 2^18, a pair as two words,
//! and a list of words as a list of numbers. Bits are numbered from 0, the most significant, to 35.
//!
//! Each call returns the number that its clause names. Signed numbers are in two's complement. The
//! even word of a pair is the more significant one. A field is the number in the LEN bits that
//! begin at bit FIRST: a get returns what was put, a put keeps every other bit, and a second put
//! replaces the first. Only `Words::push` allocates memory, and it changes nothing if memory runs
//! out.
//!
//! Source: Multics Processor Manual AL39, "Word layout" and "Number representation".
#![tactic(auto)]

pub mod field;
pub mod half;
pub mod memory;
pub mod pair;
pub mod word;
pub mod words;

pub use field::{Field, field_laws};
pub use half::Half;
pub use memory::NoMemory;
pub use pair::Pair;
pub use word::Word;
pub use words::Words;
