//! Finds the first fault of a list of words.

ghost use Rattle.std.specs.Prelude.{◌≡◌, ◌+◌, ◌^◌, ◌<◌, length, Option, Some, None};
ghost use Rattle.std.specs.Prelude.{IfSome, IfOk};
ghost use Rattle.obj36.specs.Faults.{mapped_definition, mapped_linkage, definition_fault};
ghost use Rattle.obj36.specs.Faults.{spelling_fault, linking_fault, o7_or_o8, o6_or};
ghost use Rattle.obj36.specs.Faults.{fault_after_map, length_or_map_fault};

use crate::fault::ObjectFault;
use m36_word::{NoMemory, Word};
use obj36_read::linking::{fault_of_links, index_in_list};
use obj36_read::map::{
    extents_in_map, fault_of_map, fault_of_sections, fault_of_sharing, words_within,
};
use obj36_read::reading::version;
use obj36_read::spelling::fault_of_names;
use obj36_read::tables::fault_of_tables;
use std::alloc::Global;

// The words of the definition section, where the map says that it is.
#[tactic(auto, unfolding(crate::specs::Faults::mapped_definition))]
fn definition_in_map(words: &[Word]) -> &[Word]
    ensures { result.now ≡ mapped_definition words.now }
{
    words_within(words, extents_in_map(words).definition)
}

// The words of the linkage section, where the map says that it is.
#[tactic(auto, unfolding(crate::specs::Faults::mapped_linkage))]
fn linkage_words(words: &[Word]) -> &[Word]
    ensures { result.now ≡ mapped_linkage words.now }
{
    words_within(words, extents_in_map(words).linkage)
}

// The first invalid word of the tables of definitions and expressions (O5), as an index in the
// list.
#[tactic(auto, unfolding(crate::specs::Faults::definition_fault))]
fn fault_of_definitions(alloc: Global, words: &[Word]) -> Result<Option<u64>, NoMemory>
    ensures value { IfOk result (λ place. place ≡ definition_fault words.now) }
    ensures bound { IfOk result (λ place. IfSome place (λ p. p < 2 ^ 21)) }
{
    let from = extents_in_map(words).definition.from;
    let place = fault_of_tables(alloc, version(words), definition_in_map(words))?;
    Ok(index_in_list(from, place))
}

// The first invalid name (O6), as an index in the list.
#[tactic(auto, unfolding(crate::specs::Faults::spelling_fault))]
fn fault_of_spelling(words: &[Word]) -> Option<u64>
    ensures value { result ≡ spelling_fault words.now }
    ensures bound { IfSome result (λ p. p < 2 ^ 21) }
{
    let from = extents_in_map(words).definition.from;
    index_in_list(from, fault_of_names(definition_in_map(words)))
}

// The first invalid word of the links and the types of their expressions (O7), as an index in the
// list.
#[tactic(auto, unfolding(crate::specs::Faults::linking_fault))]
fn fault_of_linking(words: &[Word]) -> Option<u64>
    ensures value { result ≡ linking_fault words.now }
    ensures bound { IfSome result (λ p. p < 2 ^ 21) }
{
    let told = extents_in_map(words);
    fault_of_links(
        version(words),
        told.definition.from,
        definition_in_map(words),
        told.linkage.from,
        linkage_words(words),
    )
}

// The fault of a list of words whose map, sections and tables are valid: of the names, of the
// links, or O8.
fn fault_after_tables(words: &[Word]) -> ObjectFault
    ensures { result
        ≡ o6_or (spelling_fault words.now) (o7_or_o8 (linking_fault words.now)) }
{
    if let Some(place) = fault_of_spelling(words) {
        return ObjectFault::O6(place as u32);
    }
    if let Some(place) = fault_of_linking(words) {
        return ObjectFault::O7(place as u32);
    }
    ObjectFault::O8(0)
}

// The first fault of a list of words whose map is valid; O8 if no other code applies.
#[tactic(auto, unfolding(crate::specs::Faults::fault_after_map))]
pub(crate) fn fault_with_valid_map(alloc: Global, words: &[Word]) -> Result<ObjectFault, NoMemory>
    ensures { IfOk result (λ fault. fault ≡ fault_after_map words.now) }
{
    if let Some(place) = fault_of_sections(words) {
        return Ok(ObjectFault::O3(place as u32));
    }
    if let Some(place) = fault_of_sharing(words) {
        return Ok(ObjectFault::O4(place as u32));
    }
    match fault_of_definitions(alloc, words)? {
        Some(place) => Ok(ObjectFault::O5(place as u32)),
        None => Ok(fault_after_tables(words)),
    }
}

// The fault that is found before the parts are decoded: too few words, or an invalid map.
#[tactic(auto, unfolding(crate::specs::Faults::length_or_map_fault))]
pub(crate) fn fault_of_length_or_map(words: &[Word]) -> Option<ObjectFault>
    requires { length words.now < 2 ^ 32 }
    ensures { result ≡ length_or_map_fault words.now }
{
    if words.len() < 7 {
        return Some(ObjectFault::O1(words.len() as u32));
    }
    match fault_of_map(words) {
        Some(place) => Some(ObjectFault::O2(place as u32)),
        None => None,
    }
}
