//! The parts of an object, and whether they are well formed.

ghost use Rattle.std.specs.Prelude.{◌≡◌, ◌+◌, ◌*◌, ◌<◌, ◌≤◌, ◌^◌, length, []};
ghost use Rattle.std.specs.Prelude.{if◌then◌else◌, IsTrue};
ghost use Rattle.obj36_parts.specs.ObjectSegment.{inner_statics, outer_statics, first_link};
ghost use Rattle.obj36_parts.specs.ObjectSegment.{is_newer_version, words_of, is_well_formed};
ghost use Rattle.obj36_parts.specs.Sizes.{HasShortLists};

use crate::checks::{RelocationBounds, are_good_tables};
use crate::definition::Defs;
use crate::link::Links;
use crate::relocation::Relocs;
use crate::sections::{HEAD_WORDS, SEGMENT_LIMIT};
use crate::size::size_of_distinct_names;
use m36_word::{Word, Words};
use std::marker::Model;

/// The parts of an object.
#[derive(Drop)]
pub struct Parts {
    /// Instructions and constants.
    pub text: Words,
    /// Static words. Version 1 has an even number of them.
    pub statics: Words,
    /// Definitions, in order.
    pub definitions: Defs,
    /// Links, in order.
    pub links: Links,
    /// Relocations, in strictly rising order of section, offset and part.
    pub relocations: Relocs,
    /// The number of words of the text at which a gate may be entered, from its first word on: at
    /// most the length of the text; 18 bits.
    pub entry_bound: u32,
    /// The version of the object. In version 1 the static words are in the linkage section, in
    /// version 2 they have a section of their own.
    pub version: u8,
}

impl Model for Parts {
    ghost use Rattle.std.specs.Prelude.{◌<◌, ◌^◌};
    ghost use Rattle.obj36_parts.specs.PartsFields.{PartsFields};

    ghost Value = { PartsFields };

    ghost view = { λ p. record {
      text = p.text;
      statics = p.statics;
      definitions = p.definitions;
      links = p.links;
      relocations = p.relocations;
      entry_bound = p.entry_bound;
      version = p.version;
    } };

    ghost invariant = { λ p. p.entry_bound < 2 ^ 18 };
}

// The number of words that each object has: the heads of three sections, the map and the last word.
fn fixed_length(version: u8) -> u64
    ensures value { result ≡ (if is_newer_version version then 19 else 18) }
    ensures bound { result < 20 }
{
    if version == 2 { 19 } else { 18 }
}

impl Parts {
    /// The static words in the linkage section: none in version 2.
    pub fn inner_statics(&self) -> &[Word]
        ensures { result.now ≡ inner_statics self.now }
    {
        if self.version == 2 {
            &[]
        } else {
            self.statics.slice()
        }
    }

    /// The static words in a section of their own: none in version 1.
    pub fn outer_statics(&self) -> &[Word]
        ensures { result.now ≡ outer_statics self.now }
    {
        if self.version == 2 {
            self.statics.slice()
        } else {
            &[]
        }
    }

    /// The offset of the first link in the linkage section, after the head and the static words
    /// there.
    pub fn first_link(&self) -> u64
        ensures value { result ≡ first_link self.now }
        ensures bound { result ≤ 2 ^ 63 + 8 }
    {
        HEAD_WORDS + self.inner_statics().len() as u64
    }

    /// Whether each list has fewer than 2^32 items. The lists of each well-formed object do.
    pub fn has_short_lists(&self) -> bool
        ensures short { IsTrue result → HasShortLists self.now }
        ensures long { HasShortLists self.now → IsTrue result }
    {
        self.text.slice().len() < 1 << 32
            && self.statics.slice().len() < 1 << 32
            && self.definitions.items().len() < 1 << 32
            && self.links.items().len() < 1 << 32
            && self.relocations.items().len() < 1 << 32
    }

    /// The number of words of the sections, the map and the last word of these parts, whether or
    /// not the parts are well formed. Each list has fewer than 2^32 items.
    pub fn size(&self) -> u64
        requires { HasShortLists self.now }
        ensures { result ≡ length (words_of self.now) }
    {
        let definitions = self.definitions.items();
        let links = self.links.items();
        let text = self.text.slice().len() as u64;
        let statics = self.statics.slice().len() as u64;
        let relocations = self.relocations.items().len() as u64;
        let tables = 2 * definitions.len() as u64 + 4 * links.len() as u64;
        let names = size_of_distinct_names(&self.definitions, &self.links);
        fixed_length(self.version) + text + statics + relocations + tables + names
    }

    /// Whether the parts are well formed, so that there is an object of them. Each list has fewer
    /// than 2^32 items.
    #[tactic(auto, unfolding(crate::specs::ObjectSegment::is_well_formed))]
    pub fn is_well_formed(&self) -> bool
        requires { HasShortLists self.now }
        ensures { result ≡ is_well_formed self.now }
    {
        let size = self.size();
        let version = self.version;
        let text = self.text.slice().len();
        let statics = self.statics.slice();
        let links = self.links.items();
        let relocations = self.relocations.items();
        let room = RelocationBounds {
            text,
            inner: self.inner_statics().len(),
            outer: self.outer_statics().len(),
            version,
        };
        (version == 1 || version == 2)
            && size <= SEGMENT_LIMIT
            && self.entry_bound as usize <= text
            && (version == 2 || statics.len() % 2 == 0)
            && are_good_tables(room, &self.definitions, links, relocations)
    }

    /// Whether the parts are well formed, so that there is an object of them. The lists may have
    /// any length.
    #[tactic(auto, using(crate::proofs::LengthLaws::long_is_none))]
    pub fn is_object(&self) -> bool
        ensures { result ≡ is_well_formed self.now }
    {
        if !self.has_short_lists() {
            return false;
        }
        self.is_well_formed()
    }
}
