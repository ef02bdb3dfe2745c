//! The parts and the checks of a list of words, by the functions that `Object::read` is made of.

use crate::objects::words_of;
use m36_word::{NoMemory, Word};
use obj36_read::linking::fault_of_links;
use obj36_read::map::{
    extents_in_map, fault_of_map, fault_of_sections, fault_of_sharing, words_within,
};
use obj36_read::reading::parts_in;
use obj36_read::spelling::fault_of_names;
use obj36_read::tables::fault_of_tables;
use std::alloc::Global;

/// An object with a text of one word, and one definition: `go`, at word 0.
const ENTRY: [u64; 22] = [
    0o000000710000,
    0o000002000001,
    0o000000000000,
    0o000000000010,
    0o000000000004,
    0o002147157000,
    0o000000000000,
    0o000010000000,
    0o000000000000,
    0o000000000000,
    0o000000000000,
    0o000000000000,
    0o000000000000,
    0o000000000000,
    0o000000000000,
    0o000000000001,
    0o000000000001,
    0o000001000005,
    0o000006000010,
    0o000016000001,
    0o000001000000,
    0o000017000000,
];

fn has_right_map(words: &[Word]) -> bool {
    if words.is_empty() || words.len() > 100 {
        return false;
    }
    fault_of_map(words).is_none()
        && fault_of_sections(words).is_none()
        && fault_of_sharing(words).is_none()
}

fn has_right_sections(alloc: Global, words: &[Word]) -> Result<bool, NoMemory> {
    let told = extents_in_map(words);
    let definition = words_within(words, told.definition);
    let tables = fault_of_tables(alloc, 1, definition)?;
    Ok(tables.is_none() && fault_of_names(definition).is_none())
}

fn has_right_links(words: &[Word]) -> bool {
    let told = extents_in_map(words);
    let definition = words_within(words, told.definition);
    fault_of_links(1, 1, definition, 6, words_within(words, told.linkage)).is_none()
}

fn count_of_definitions(alloc: Global, words: &[Word]) -> Result<usize, NoMemory> {
    if words.len() > 100 {
        return Ok(0);
    }
    let parts = parts_in(alloc, words)?;
    let count = parts.definitions.items().len();
    // Dropped by a call, so that the drop is proved once for its type.
    drop(parts);
    Ok(count)
}

fn is_right(alloc: Global, words: &[Word]) -> Result<bool, NoMemory> {
    Ok(has_right_map(words) && has_right_links(words) && has_right_sections(alloc, words)?)
}

#[test]
fn parts_are_told(rt: HostRuntime) -> Result<(), NoMemory> {
    let list = words_of(rt.alloc(), &ENTRY)?;
    let count = count_of_definitions(rt.alloc(), list.slice());
    drop(list);
    assert!(rt; count? == 1);
    Ok(())
}

#[test]
fn sections_are_right(rt: HostRuntime) -> Result<(), NoMemory> {
    let list = words_of(rt.alloc(), &ENTRY)?;
    let told = is_right(rt.alloc(), list.slice());
    drop(list);
    assert!(rt; told?);
    Ok(())
}
