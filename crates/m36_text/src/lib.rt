//! Texts: numbers in octal and decimal, lines and their words, names, and words of core packed into
//! bytes.
//!
//! A number is written in exactly the digits that the contract names. A text is read as a number
//! exactly if all its bytes are digits and the number is within the limit. Packing and unpacking
//! are inverse to each other. The lines of a text, the words of a line, and the texts that are
//! names are exactly those of the definitions. Only `pack`, `unpack`, `HashSeed::of_words` and
//! `Names` allocate memory.
//!
//! `specs/Digits.antt` defines digits once, for every base up to ten. `specs/Lines.antt`,
//! `specs/Numbers.antt` and `specs/Texts.antt` define a line, a word, the forms of numbers and a
//! name, for every kind of file. `specs/FileNames.antt` has the names of files that several crates
//! use, and `specs/Once.antt` has lists without repeated items.
//!
//! Source: Multics Processor Manual AL39, "Number representation" (octal words of twelve digits).
//! The packing of 36-bit words into bytes, most significant bit first, is this project's own.
#![tactic(auto)]

pub mod lines;
pub mod naming;
pub mod numbers;
pub mod numerals;
pub mod packing;
pub mod reading;
pub mod seeds;
pub mod texts;

pub use lines::{first_line, first_open_line, first_word, only_word, place_of};
pub use naming::{Name, Names, name_laws};
pub use numbers::{decimal_in, has_no_leading_zero, octal_in, plain_decimal_in, short_decimal_in};
pub use numerals::{decimal, octal};
pub use packing::{PackFault, pack, packing_laws, unpack};
pub use reading::{NumberFault, is_digit, numeral_laws, read_decimal, read_octal};
pub use seeds::HashSeed;
pub use texts::{LONGEST_NAME, is_file_name, is_letter, is_name, is_name_character, is_text};
