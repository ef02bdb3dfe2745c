//! The map of a list of words, and the sections that it describes.

ghost use Rattle.std.specs.Prelude.{◌≡◌, ◌+◌, ◌-◌, ◌^◌, ◌<◌, ◌≤◌, ◌&&◌, ◌||◌};
ghost use Rattle.std.specs.Prelude.{length, Option, Some, None};
ghost use Rattle.std.specs.Prelude.{IfSome, if◌then◌else◌};
ghost use Rattle.obj36_parts.specs.ObjectSegment.{is_newer_version};
ghost use Rattle.obj36_read.specs.MapFaults.{extent_at, locates_map, is_valid_entry_bound};
ghost use Rattle.obj36_read.specs.Reading.{symbol_index, statics_index, newer_map_words};
ghost use Rattle.obj36_read.specs.MapFaults.{absent_extent, map_word_fault, map_fault};
ghost use Rattle.obj36_read.specs.MapFaults.{is_bad_extent, section_fault, extents_of, covers};
ghost use Rattle.obj36_read.specs.MapFaults.{sections_covering, first_shared_word, shared_fault};
ghost use Rattle.obj36_read.specs.MapFaults.{extent_words};
ghost use Rattle.obj36_read.specs.Near.{AllFitHalfWords};

use crate::reading::{
    NEWER_MAP, OLDER_MAP, first_words, index_of_bound, index_of_map, length_in_map, version,
    word_at, words_after,
};
use m36_word::Word;
use obj36_parts::halves::{left_of, right_of};
use obj36_parts::sections::HEAD_WORDS;

/// The words of a section, as its map word gives them.
#[derive(Clone, Copy)]
pub struct Extent {
    /// The index of its first word.
    pub from: u64,
    /// The number of its words.
    pub count: u64,
}

/// The sections that a map describes.
#[derive(Clone, Copy)]
pub struct Extents {
    pub text: Extent,
    pub definition: Extent,
    pub linkage: Extent,
    /// In version 1 an empty one at word 0.
    pub statics: Extent,
    pub symbol: Extent,
}

// Where the section is that word i of the map describes.
#[tactic(auto, unfolding(crate::specs::MapFaults::extent_at, crate::specs::Reading::section_length_in_map))]
fn extent_in_map(words: &[Word], i: u64) -> Extent
    requires { i < newer_map_words }
    ensures value { result ≡ extent_at words.now i }
    ensures from { result.from < 2 ^ 18 }
    ensures count { result.count < 2 ^ 18 }
{
    let word = word_at(words, index_of_map(words) + i);
    Extent {
        from: left_of(word),
        count: right_of(word),
    }
}

// ---- the map

// Whether the last word locates a map: from there to the end there are as many words as a map of
// either version has, with the last word.
#[tactic(auto, unfolding(crate::specs::MapFaults::locates_map))]
fn has_map_length(words: &[Word]) -> bool
    ensures { result ≡ locates_map words.now }
{
    let map = index_of_map(words);
    let count = words.len() as u64;
    map + OLDER_MAP == count || map + NEWER_MAP == count
}

// Whether the map word with the entry bound is valid: its right half is 0, and the bound is at most
// the length of the text.
#[tactic(auto, unfolding(crate::specs::MapFaults::is_valid_entry_bound))]
fn is_good_bound(words: &[Word], bound: Word) -> bool
    ensures { result ≡ is_valid_entry_bound words.now bound }
{
    right_of(bound) == 0 && left_of(bound) <= length_in_map(words, 1)
}

// The first invalid word of a map with a valid length: that of the version, that of the entry
// bound, or the last word.
#[tactic(auto, unfolding(crate::specs::MapFaults::map_word_fault, m36_text::specs::Lines::first_true_case))]
fn fault_of_map_words(words: &[Word], version: u8) -> Option<u64>
    requires some { 1 ≤ length words.now }
    requires few { length words.now < 2 ^ 32 }
    ensures value { result ≡ map_word_fault words.now version }
    ensures bound { IfSome result (λ p. p < 2 ^ 32) }
{
    let map = index_of_map(words);
    let last = words.len() as u64 - 1;
    if word_at(words, map).value() != version as u64 {
        return Some(map);
    }
    let bound = map + index_of_bound(version);
    if !is_good_bound(words, word_at(words, bound)) {
        return Some(bound);
    }
    if right_of(word_at(words, last)) != 0 {
        return Some(last);
    }
    None
}

/// The first invalid word of the map, or the last word of the list if it is invalid. The list has
/// at least one word, and fewer than 2^32.
#[tactic(auto, unfolding(crate::specs::MapFaults::map_fault))]
pub fn fault_of_map(words: &[Word]) -> Option<u64>
    requires some { 1 ≤ length words.now }
    requires few { length words.now < 2 ^ 32 }
    ensures value { result ≡ map_fault words.now }
    ensures bound { IfSome result (λ p. p < 2 ^ 32) }
{
    if has_map_length(words) {
        fault_of_map_words(words, version(words))
    } else {
        Some(words.len() as u64 - 1)
    }
}

// ---- sections

// The number of words of the head of a definition section, and of a symbol section.
const DEFINITION_HEAD: u64 = 2;

const SYMBOL_HEAD: u64 = 1;

// The index in the map of the word that describes the symbol section.
fn index_of_symbol(version: u8) -> u64
    ensures value { result ≡ symbol_index version }
    ensures bound { result < newer_map_words }
{
    if version == 2 { 5 } else { 4 }
}

// Where the static section is; in version 1, which has none, an empty one at word 0.
fn extent_of_statics(words: &[Word], version: u8) -> Extent
    ensures value { result
        ≡ (if is_newer_version version then extent_at words.now statics_index else absent_extent) }
    ensures from { result.from < 2 ^ 18 }
    ensures count { result.count < 2 ^ 18 }
{
    if version == 2 {
        extent_in_map(words, 4)
    } else {
        Extent { from: 0, count: 0 }
    }
}

/// The sections that the map describes.
#[tactic(auto, unfolding(crate::specs::MapFaults::extents_of))]
pub fn extents_in_map(words: &[Word]) -> Extents
    ensures value { result ≡ extents_of words.now }
    ensures small { AllFitHalfWords result }
{
    let version = version(words);
    Extents {
        text: extent_in_map(words, 1),
        definition: extent_in_map(words, 2),
        linkage: extent_in_map(words, 3),
        statics: extent_of_statics(words, version),
        symbol: extent_in_map(words, index_of_symbol(version)),
    }
}

// Whether a section ends past the map, which begins at `map`, or has fewer than `least` words.
#[tactic(auto, unfolding(crate::specs::MapFaults::is_bad_extent))]
fn is_bad_section(map: u64, e: Extent, least: u64) -> bool
    requires from { e.from < 2 ^ 18 }
    requires count { e.count < 2 ^ 18 }
    ensures { result ≡ is_bad_extent map e least }
{
    map < e.from + e.count || e.count < least
}

/// The map word of the first section that ends past the beginning of the map or is too short for
/// its head.
#[tactic(auto, unfolding(crate::specs::MapFaults::section_fault, m36_text::specs::Lines::first_true_case))]
pub fn fault_of_sections(words: &[Word]) -> Option<u64>
    ensures value { result ≡ section_fault words.now }
    ensures bound { IfSome result (λ p. p < 2 ^ 32) }
{
    let map = index_of_map(words);
    let e = extents_in_map(words);
    if is_bad_section(map, e.text, 0) {
        return Some(map + 1);
    }
    if is_bad_section(map, e.definition, DEFINITION_HEAD) {
        return Some(map + 2);
    }
    if is_bad_section(map, e.linkage, HEAD_WORDS) {
        return Some(map + 3);
    }
    if is_bad_section(map, e.statics, 0) {
        return Some(map + 4);
    }
    if is_bad_section(map, e.symbol, SYMBOL_HEAD) {
        return Some(map + index_of_symbol(version(words)));
    }
    None
}

// ---- shared words

// Whether a section has the word at an index.
#[tactic(auto, unfolding(crate::specs::MapFaults::covers))]
fn has_word(e: Extent, at: u64) -> bool
    requires from { e.from < 2 ^ 18 }
    requires count { e.count < 2 ^ 18 }
    ensures { result ≡ covers e at }
{
    e.from <= at && at < e.from + e.count
}

// The number of sections that have the word at an index.
#[tactic(auto, unfolding(crate::specs::MapFaults::sections_covering))]
fn sections_with(e: &Extents, at: u64) -> u64
    requires { AllFitHalfWords e.now }
    ensures { result ≡ sections_covering e.now at }
{
    has_word(e.text, at) as u64
        + has_word(e.definition, at) as u64
        + has_word(e.linkage, at) as u64
        + has_word(e.statics, at) as u64
        + has_word(e.symbol, at) as u64
}

/// The first word that is in two sections.
#[tactic(auto, unfolding(crate::specs::MapFaults::shared_fault, crate::specs::MapFaults::first_shared_word))]
pub fn fault_of_sharing(words: &[Word]) -> Option<u64>
    ensures value { result ≡ shared_fault words.now }
    ensures bound { IfSome result (λ p. p < 2 ^ 32) }
{
    let e = extents_in_map(words);
    for at in 0..index_of_map(words) {
        if 2 <= sections_with(&e, at) {
            return Some(at);
        }
    }
    None
}

/// The words of a section, as far as the list has them.
#[tactic(auto, unfolding(crate::specs::MapFaults::extent_words))]
pub fn words_within(words: &[Word], e: Extent) -> &[Word]
    ensures { result.now ≡ extent_words words.now e }
{
    first_words(words_after(words, e.from), e.count)
}
