//! The parts of an object segment, and the words of its sections.
//!
//! `Parts` has the text, the static words, definitions, links and relocations. Definitions and
//! links are lists with a hash table each, so a name or a link is found without a search of the
//! list. `size` computes how many words the object of some parts has, and `is_well_formed` whether
//! there is such an object; both take time that grows with the parts. The words of each section are
//! exactly those of the definitions in `specs/ObjectSegment.antt`. The only error is `NoMemory`.
//!
//! Source: the format is this project's own.
#![tactic(auto)]

pub mod checks;
pub mod definition;
pub mod halves;
pub mod link;
mod linkage;
pub mod names;
pub mod parts;
pub mod relocation;
pub mod section;
pub mod sections;
mod size;

pub use definition::{Def, Defs, Named};
pub use link::{Link, Links};
pub use parts::Parts;
pub use relocation::{Reloc, Relocs};
pub use section::Section;
