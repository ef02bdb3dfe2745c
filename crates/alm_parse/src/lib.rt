//! The parser of assembly language: parses a text into lines with labels, operations and operands.
//!
//! A line has any number of labels, each followed by a colon, then optionally an operation with its
//! operand, and then optionally a comment, which begins with a quotation mark. Spaces and tabs
//! separate these. The text after the operation, up to the comment or the end of the line, is the
//! operand. A symbol has up to 32 letters, digits, `_` and `.`, and begins with a letter or `_`. An
//! expression is a sequence of terms joined by `+` and `-`, and may begin with a minus. A term is a
//! decimal number up to 262143 without leading zeros, a symbol, or `*`, the current place.
//!
//! The operand of an instruction is an expression; or a pointer register, a bar and an expression;
//! or a segment, a dollar sign, optionally an entry, and optionally a sign and an expression. A
//! comma and a modifier may follow. Text after the operation `end` is ignored.
//!
//! For every text of fewer than 2^32 bytes, [`parse`] returns exactly the lines that the definition
//! in `specs/Sources.antt` gives, which is made of the tokens of `alm_tokens`, with one definition
//! for each rule. If the text is not in the language, [`parse`] returns its first refusal in the
//! order of the text, and of two at one place that with the lesser code. It fails with `NoMemory`
//! if memory runs out. Each span in a line is within the text, each number is within its range, and
//! the quarters of the words of placed characters are these characters in order.
//!
//! The codes, each with what it means exactly:
//!
//! - E1: a label, an operation or an operand begins with a byte that no source can have; or a
//!   character to be placed, or its delimiter, is outside octal 40 to 176
//! - E2: a label or an operand does not have its form; or an operation lacks its operand or must
//!   not have one
//! - E3: there is no such operation
//! - E4: a number is out of its range
//!
//! A code is reported at the line and the column, both counted from 1, of the byte, label, operand,
//! operation or number that it is about. A missing operand is reported at the operation.
//!
//! Source: Multics Processor Manual AL39, "Machine instructions" and "Address modification" for the
//! names of instructions, registers and modifiers. The language is this project's own profile of
//! the assembler of Multics.
#![tactic(auto)]

pub mod args;
mod body;
mod characters;
pub mod deed;
pub mod directives;
pub mod fault;
pub mod laws;
pub mod line;
mod line_reading;
mod members;
mod operand;
pub mod operation;
mod pairs;
mod refusal;
pub mod source;

pub use alm_tokens::{Atom, Expr, Span, Spans, Term, bytes_of, expression, span};
pub use args::{Arg, Args};
pub use body::own_section;
pub use deed::LineEffect;
pub use directives::operation_of;
pub use fault::AlmFault;
pub use laws::packing_law;
pub use line::Line36;
pub use operation::Operation;
pub use pairs::used_section;
pub use source::{Lines36, parse};
