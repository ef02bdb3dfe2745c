//! Why a list of words is not an object.

use m36_word::NoMemory;
use thiserror::Error;

/// The first fault of a list of words, by the order of the codes. Its number is the index of a
/// word, counted from 0, if the variant says nothing else.
#[derive(Clone, Copy, Debug, PartialEq, Eq, Error)]
pub enum ObjectFault {
    /// There are fewer than seven words. The number is how many there are.
    #[error("O1 {0}")]
    O1(u32),
    /// The last word does not locate a map, or a word of the map or the last word is invalid.
    #[error("O2 {0}")]
    O2(u32),
    /// A section ends past the map or is too short. The number is the index of its map word.
    #[error("O3 {0}")]
    O3(u32),
    /// Two sections share a word. The number is the index of the first such word.
    #[error("O4 {0}")]
    O4(u32),
    /// A table of definitions or expressions, or a definition, is invalid.
    #[error("O5 {0}")]
    O5(u32),
    /// A name is invalid.
    #[error("O6 {0}")]
    O6(u32),
    /// A link, the type of its expression, or the head of the linkage section is invalid.
    #[error("O7 {0}")]
    O7(u32),
    /// Otherwise, the list differs from the words of the parts that it has. The number is 0.
    #[error("O8 {0}")]
    O8(u32),
    /// Out of memory.
    #[error("no memory")]
    NoMemory,
}

impl From<NoMemory> for ObjectFault {
    ghost use Rattle.std.specs.Prelude.{◌≡◌};
    ghost use Rattle.obj36.specs.declared.fault.ObjectFault.TheVariants as fault;

    ghost from_gives = { λ _ given. given ≡ fault.NoMemory };

    fn from(_cause: NoMemory) -> ObjectFault {
        ObjectFault::NoMemory
    }
}
