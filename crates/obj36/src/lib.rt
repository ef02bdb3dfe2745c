//! Object segments, as parts and as a list of words. An object segment is an assembled program: its
//! text, static words, definitions, links and relocations. An assembler or a binder makes it, and a
//! linker reads it.
//!
//! Parts are encoded by at most one list of words, and different parts by different lists. The
//! linkage section of an object with a static section ends where that section is placed: after its
//! head and its links.
//!
//! `Object::read` accepts exactly the lists that encode parts, and returns the object of these
//! parts. For any other list it returns the first fault with its place. It fails with `NoMemory` if
//! memory runs out. `Object::write` returns the one list. Reading, finding the fault, and writing
//! take time that grows with the list. A list that is too short or has an invalid map is refused
//! before anything else of it is read. A definition is found by its name in a hash table.
//!
//! Source: the format is this project's own.
#![tactic(auto)]

pub mod fault;
mod judging;
pub mod laws;
pub mod object;
pub mod reference;

pub use fault::ObjectFault;
pub use laws::object_laws;
pub use obj36_parts::{Def, Defs, Link, Links, Named, Parts, Reloc, Relocs, Section};
pub use object::Object;
pub use reference::append_reference;
