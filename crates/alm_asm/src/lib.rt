//! The assembler: makes an object of parsed lines.
//!
//! Each line places words in the section that the last `use` line above it selects: the text, the
//! static words of the linkage section, or those of a static section. The value of a label is its
//! place there, and that of the symbol of an `equ` is the number of its expression. The words are
//! instructions with the values of their expressions, numbers, and characters. An external operand
//! is a link. Equal links are one link.
//!
//! `assemble` returns the object of the lines. If a line is refused, it returns the first refusal
//! in the order of the text, and of two at one place that with the lesser code. It fails with
//! `NoMemory` if memory runs out. `specs/Assembles.antt` states what is where in the object, and
//! `specs/Assembly.antt` defines each part of it and the first refusal. The machine reads the
//! offset after a pointer register as the number that was written, and the part of a word that has
//! a relocation holds the value of its expression ([`assembly_laws`]).
//!
//! Source: the language is this project's own. Its instructions are those of the Multics Processor
//! Manual AL39.
#![tactic(auto)]

pub mod assembly;
pub mod definitions;
pub mod growth;
pub mod laws;
pub mod line_refusal;
pub mod links;
mod parts;
pub mod relocations;
pub mod seen;
pub mod tables;
pub mod words;

pub use alm_lines::{arguments, expression, layout, refusal, spot, sum, symbols};
pub use assembly::assemble;
pub use laws::assembly_laws;
