//! Decodes the lists of the parts of an object.

ghost use Rattle.std.specs.Prelude.{[], ◌++◌, ◌≡◌, ◌^◌, ◌<◌, length, OnOk};
ghost use Rattle.obj36_read.specs.Reading.{parts_of};

use crate::reading::{
    count_in_head, entry_bound_in_map, first_link_offset, first_words, length_in_map,
    read_definitions, read_links, read_relocations, statics, version, words_from_definition,
    words_from_linkage, words_from_symbol,
};
use m36_text::HashSeed;
use m36_word::{NoMemory, Word, Words};
use obj36_parts::definition::Defs;
use obj36_parts::link::Links;
use obj36_parts::parts::Parts;
use obj36_parts::relocation::Relocs;
use obj36_parts::sections::push_all;
use std::alloc::Global;

// The lists of the parts of an object.
#[derive(Drop)]
pub(crate) struct Lists {
    text: Words,
    statics: Words,
    definitions: Defs,
    links: Links,
    relocations: Relocs,
}

// Empty lists. Their names and links will be hashed with this seed.
pub(crate) fn empty_lists(alloc: Global, seed: HashSeed) -> Lists
    ensures text { result.text ≡ [] }
    ensures statics { result.statics ≡ [] }
    ensures definitions { result.definitions ≡ [] }
    ensures links { result.links ≡ [] }
    ensures relocations { result.relocations ≡ [] }
{
    Lists {
        text: Words::new(alloc),
        statics: Words::new(alloc),
        definitions: Defs::new(alloc, seed),
        links: Links::new(alloc, seed),
        relocations: Relocs::new(alloc),
    }
}

// Decodes the definitions and the links of a list of words, and adds them.
#[tactic(auto, unfolding(crate::specs::Reading::parts_of))]
fn read_tables(definitions: &mut Defs, links: &mut Links, words: &[Word]) -> Result<(), NoMemory>
    requires { length words.now < 2 ^ 32 }
    ensures definitions { OnOk result
        (definitions.new ≡ definitions.old ++ (parts_of words.now).definitions) }
    ensures links { OnOk result (links.new ≡ links.old ++ (parts_of words.now).links) }
{
    let from = words_from_definition(words);
    let count = count_in_head(words, from, 0);
    read_definitions(definitions, from, count)?;
    read_links(
        links,
        from,
        2 + 2 * count,
        words_from_linkage(words),
        first_link_offset(words),
        count_in_head(words, from, 1),
    )
}

// Decodes the parts of an object that are lists from its words, and adds the items to `lists`.
#[tactic(auto, unfolding(crate::specs::Reading::parts_of))]
pub(crate) fn read_lists(lists: &mut Lists, words: &[Word]) -> Result<(), NoMemory>
    requires { length words.now < 2 ^ 32 }
    ensures text { OnOk result (lists.new.text ≡ lists.old.text ++ (parts_of words.now).text) }
    ensures statics { OnOk result
        (lists.new.statics ≡ lists.old.statics ++ (parts_of words.now).statics) }
    ensures definitions { OnOk result
        (lists.new.definitions ≡ lists.old.definitions ++ (parts_of words.now).definitions) }
    ensures links { OnOk result (lists.new.links ≡ lists.old.links ++ (parts_of words.now).links) }
    ensures relocations { OnOk result
        (lists.new.relocations ≡ lists.old.relocations ++ (parts_of words.now).relocations) }
{
    let symbol = words_from_symbol(words);
    push_all(&mut lists.text, first_words(words, length_in_map(words, 1)))?;
    push_all(&mut lists.statics, statics(words))?;
    read_tables(&mut lists.definitions, &mut lists.links, words)?;
    read_relocations(
        &mut lists.relocations,
        symbol,
        count_in_head(words, symbol, 0),
    )
}

// The parts with these lists, and with the entry bound and the version of a list of words.
#[tactic(auto, unfolding(crate::specs::Reading::parts_of))]
pub(crate) fn parts_with(lists: Lists, words: &[Word]) -> Parts
    requires text { lists.text ≡ (parts_of words.now).text }
    requires statics { lists.statics ≡ (parts_of words.now).statics }
    requires definitions { lists.definitions ≡ (parts_of words.now).definitions }
    requires links { lists.links ≡ (parts_of words.now).links }
    requires relocations { lists.relocations ≡ (parts_of words.now).relocations }
    ensures { result ≡ parts_of words.now }
{
    let entry_bound = entry_bound_in_map(words) as u32;
    let version = version(words);
    Parts {
        text: lists.text,
        statics: lists.statics,
        definitions: lists.definitions,
        links: lists.links,
        relocations: lists.relocations,
        entry_bound,
        version,
    }
}
