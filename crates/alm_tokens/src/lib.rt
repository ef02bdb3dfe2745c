//! The tokens of assembly language: how the bytes of one line of a source are divided.
//!
//! A line has any number of labels, each followed by a colon, then optionally an operation with its
//! operand, and then optionally a comment, which begins with a quotation mark. Spaces and tabs
//! separate these. A symbol is a name of up to 32 letters, digits, `_` and `.` that begins with a
//! letter or `_`. An expression is a sequence of terms joined by `+` and `-`, and may begin with a
//! minus. A term is a decimal number up to 262143 without leading zeros, a symbol, or `*`, the
//! current place. The members of a list are separated by commas.
//!
//! For every text of fewer than 2^32 bytes, each call returns exactly the definition of the same
//! name in `specs/`: the lines of a text, the labels, operation and operand of a line, and the
//! members or terms of an operand, each by its place in the text, and whether a text is a symbol, a
//! number, a register or a modifier. Each place that is returned for a part of the text is within
//! the text. Each number is within its range, and the word of a negative number is this number in
//! two's complement. The only error is `NoMemory`.
//!
//! Source: Multics Processor Manual AL39, "Address modification" for the names of registers and
//! modifiers. The rest is this project's own profile of the assembler of Multics.
#![tactic(auto)]

pub mod bytes;
pub mod expression;
pub mod head;
pub mod laws;
pub mod lists;
pub mod modifiers;
pub mod numerals;
pub mod pieces;
pub mod rows;
pub mod span;
pub mod tokens;

pub use expression::{Atom, Expr, Term};
pub use head::Head;
pub use laws::numeral_law;
pub use numerals::Numeral;
pub use pieces::{Pieces, Separator, TextPiece};
pub use rows::{Row, Rows};
pub use span::{Span, Spans, bytes_of};
