//! Relocation: the places of the words of a component in a bound object, and the new values of what
//! refers to them.
//!
//! The texts of the components follow one another, each from an even word on, and so do their
//! static words. Their links follow one another. A place of a component denotes a word of its text,
//! one of its static words, a word of its links, or a word of the head of its linkage section, and
//! each of these has a place in the bound object ([`layout`]). A part of a word that has a
//! relocation is a half, which counts modulo 2^18, or bits 3 to 17, which are a signed number and
//! must fit ([`words`]). A definition of the bound object has the new place of that of the
//! component. A table of definitions has the first one of each name, and whether another follows
//! ([`exports`], [`laws::export_law`]).
//!
//! Each function returns exactly the definition of its name in `specs/`, for either version of
//! component and bound object. By the layout, the first link of an object has the offset that its
//! parts give, its first static word has the offset from which relocations count, and the link of a
//! component is relocated to the link that replaces it ([`laws::layout_law`]). The only error is
//! `NoMemory`, when a table grows. A name is looked up in a hash table, and relocating words takes
//! one step for each relocation.
//!
//! Source: objects and binding are this project's own. They follow object segments and the binder
//! of Multics, as the Multics Programmers' Manual describes them.
#![tactic(auto)]

pub mod exports;
pub mod laws;
pub mod layout;
pub mod words;
