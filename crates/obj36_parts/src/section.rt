//! Sections of an object.

/// A section to which a definition, a link or a relocation refers.
#[derive(Clone, Copy, Debug, PartialEq, Eq, Hash)]
pub enum Section {
    /// Instructions and constants.
    Text,
    /// The head, in version 1 the static words, and the links.
    Linkage,
    /// The relocations.
    Symbol,
    /// The static words of version 2.
    Static,
}
