//! The values of assembly language: the places of lines, the symbols that they define, and the
//! values of expressions.
//!
//! A line belongs to the section that the last `use` line above it selects, at first the text. Its
//! place is after the words that the lines above it place in this section. The value of a label,
//! and of the symbol of a `bss`, is the place of its line. The value of the symbol of an `equ` is
//! the number of its expression. An expression is a number, a place of a section, or neither. It is
//! refused if one of its symbols is not defined, or if its value does not fit.
//!
//! `layout_of` returns exactly the symbols that lines define, and the first refusal of a definition
//! or of the length of a section. Each other call returns the definition of the same name in
//! `specs/`. The only error is `NoMemory`. No count and no sum exceeds 128 bits: fewer than 2^32
//! lines place fewer than 2^64 words each, and an expression has at most 2^32 terms
//! (`HasRoomForLines` in `specs/Spots.antt`, and `IsTerm` in `specs/Sums.antt`).
//!
//! Source: the language is this project's own profile of the assembler of Multics.
#![tactic(auto)]

pub mod arguments;
pub mod count;
pub mod expression;
pub mod layout;
pub mod refusal;
pub mod spot;
pub mod sum;
pub mod symbols;
pub mod value;
