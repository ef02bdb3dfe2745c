//! Relocations: the parts of words that change with the place of a section when objects are bound.

ghost use Rattle.std.specs.Prelude.{List, [], ◌∷◌, ◌++◌, ◌≡◌, OnOk, OnErr};

use crate::section::Section;
use m36_word::NoMemory;
use std::alloc::Global;
use std::marker::Model;

/// A part of a word that holds an offset in a section.
#[derive(Clone, Copy, PartialEq, Eq)]
pub struct Reloc {
    /// The offset of the word in its section; 18 bits.
    pub offset: u32,
    /// The section of the word: the text, or the section that has the static words.
    pub section: Section,
    /// The part: 0 for the left half, 1 for the right half, 2 for bits 3 to 17.
    pub part: u8,
    /// The section in which the part is an offset; never the symbol section.
    pub target: Section,
}

impl Model for Reloc {
    ghost use Rattle.std.specs.Prelude.{◌<◌, ◌^◌};
    ghost use Rattle.obj36_parts.specs.Fields.{RelocFields};

    ghost Value = { RelocFields };

    ghost view = { λ r. record {
      section = r.section;
      offset = r.offset;
      part = r.part;
      target = r.target;
    } };

    ghost invariant = { λ r. r.offset < 2 ^ 18 };

    ghost inverse = { λ r. record {
      offset = r.offset;
      section = r.section;
      part = r.part;
      target = r.target;
    } };
}

/// A list of relocations that grows at its end. Its model is the list.
#[derive(Drop)]
pub struct Relocs {
    items: Vec<Reloc>,
}

impl Model for Relocs {
    ghost use Rattle.std.specs.Prelude.{List};
    ghost use Rattle.obj36_parts.specs.Fields.{RelocFields};

    ghost Value = { List RelocFields };

    ghost view = { λ r. r.items.items };
}

impl Relocs {
    /// An empty list.
    pub fn new(alloc: Global) -> Relocs
        ensures { result ≡ [] }
    {
        Relocs {
            items: Vec::new(alloc),
        }
    }

    /// Adds a relocation at the end. If memory runs out, nothing changes.
    pub fn push(&mut self, x: Reloc) -> Result<(), NoMemory>
        ensures ok { OnOk result (self.new ≡ self.old ++ x ∷ []) }
        ensures err { OnErr result (self.new ≡ self.old) }
    {
        self.items.push(x)?;
        Ok(())
    }

    /// The relocations in order.
    pub fn items(&self) -> &[Reloc]
        ensures { result.now ≡ self.now }
    {
        self.items.as_slice()
    }
}
