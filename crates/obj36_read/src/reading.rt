//! Decodes the parts that a list of words may encode.

ghost use Rattle.std.specs.Prelude.{[], ◌≡◌, ◌+◌, ◌-◌, ◌*◌, ◌/◌, ◌%◌, ◌^◌, ◌<◌};
ghost use Rattle.std.specs.Prelude.{◌≤◌, ◌++◌, min, length, take, drop, slice_index, if◌then◌else◌};
ghost use Rattle.std.specs.Prelude.{IfOk, OnOk};
ghost use Rattle.obj36_parts.specs.declared.section.Section.TheVariants.{Text};
ghost use Rattle.obj36_parts.specs.Halves.{quarter};
ghost use Rattle.obj36_read.specs.Reading.{quarter_at, characters, name_at};
ghost use Rattle.obj36_read.specs.Reading.{section_of_class_number};
ghost use Rattle.obj36_read.specs.Reading.{section_with, definition_at, definitions_in, link_at};
ghost use Rattle.obj36_read.specs.Reading.{links_in, relocation_in, relocations_in, map_index};
ghost use Rattle.obj36_read.specs.Reading.{version_in, section_length_in_map, count_of_items};
ghost use Rattle.obj36_read.specs.Reading.{from_definition};
ghost use Rattle.obj36_read.specs.Reading.{from_linkage, from_statics, from_symbol};
ghost use Rattle.obj36_read.specs.Reading.{first_link_in_head};
ghost use Rattle.obj36_read.specs.Reading.{statics_in, bound_index, bound_in, parts_of};
ghost use Rattle.obj36_read.specs.Reading.{newer_map_words};
ghost use Rattle.m36_text.specs.Texts.{name_limit};
ghost use Rattle.obj36_parts.specs.ObjectSegment.{definition_head_words, symbol_head_words};

use crate::lists::{empty_lists, parts_with, read_lists};
use m36_text::{HashSeed, LONGEST_NAME, Name};
use m36_word::{NoMemory, Word};
use obj36_parts::definition::{Def, Defs, Named};
use obj36_parts::halves::{left_of, right_of};
use obj36_parts::link::{Link, Links};
use obj36_parts::names::{kind_has_entry, kind_has_name};
use obj36_parts::parts::Parts;
use obj36_parts::relocation::{Reloc, Relocs};
use obj36_parts::section::Section;
use obj36_parts::sections::{ENTRY_MARK, HEAD_WORDS, version_of};
use std::alloc::Global;

/// The number of words of a map of version 1 and the last word of the list.
pub const OLDER_MAP: u64 = 7;

/// The number of words of a map of version 2 and the last word of the list.
pub const NEWER_MAP: u64 = 8;

// The word at an index, and 0 past the end.
pub(crate) fn word_at(words: &[Word], at: u64) -> Word
    ensures { result ≡ slice_index words.now at }
{
    if at < words.len() as u64 {
        words[at as usize]
    } else {
        Word::ZERO
    }
}

/// The words after the first `count`; none if there are fewer.
pub fn words_after(words: &[Word], count: u64) -> &[Word]
    ensures { result.now ≡ drop count words.now }
{
    if count <= words.len() as u64 {
        &words[count as usize..]
    } else {
        &[]
    }
}

/// The first `count` words; all if there are fewer.
pub fn first_words(words: &[Word], count: u64) -> &[Word]
    ensures { result.now ≡ take count words.now }
{
    if count <= words.len() as u64 {
        &words[..count as usize]
    } else {
        words
    }
}

// ---- names

// Part i of nine bits of a word, counted from the left.
#[tactic(auto, unfolding(obj36_parts::specs::Halves::quarter))]
fn quarter(word: Word, i: u64) -> u64
    requires { i < 4 }
    ensures value { result ≡ quarter word i }
    ensures bound { result < 2 ^ 9 }
{
    let value = word.value();
    match i {
        0 => value / (1 << 27),
        1 => value / (1 << 18) % (1 << 9),
        2 => value / (1 << 9) % (1 << 9),
        _ => value % (1 << 9),
    }
}

// Part i of nine bits, counted from 0 at the left end of the word `at`.
#[tactic(auto, unfolding(crate::specs::Reading::quarter_at))]
pub(crate) fn quarter_from(words: &[Word], at: u64, i: u64) -> u64
    requires at { at < 2 ^ 32 }
    requires i { i < 2 ^ 32 }
    ensures value { result ≡ quarter_at words.now at i }
    ensures bound { result < 2 ^ 9 }
{
    quarter(word_at(words, at + i / 4), i % 4)
}

// Writes the first `count` characters of the name at an index.
fn put_characters(words: &[Word], at: u64, count: usize, bytes: &mut [u8; 32])
    requires at { at < 2 ^ 32 }
    requires count { count ≤ name_limit }
    ensures { take count bytes.new ≡ characters words.now at 1 count }
{
    for i in 0..count {
        bytes[i] = (quarter_from(words, at, i as u64 + 1) % (1 << 8)) as u8;
    }
}

// The name at an index. A length over 32 is taken as 32, and each character as its low eight bits.
#[tactic(auto, unfolding(crate::specs::Reading::name_at))]
fn name(words: &[Word], at: u64) -> Name
    requires { at < 2 ^ 32 }
    ensures { result ≡ name_at words.now at }
{
    let count = quarter_from(words, at, 0).min(LONGEST_NAME as u64) as usize;
    let mut bytes = [0; 32];
    put_characters(words, at, count, &mut bytes);
    match Name::new(&bytes[..count]) {
        Some(name) => name,
        None => unreachable!(),
    }
}

// ---- sections by their numbers

// The section of a definition with this number; numbers over 2 are the static section.
#[tactic(auto, unfolding(crate::specs::Reading::section_of_class_number))]
fn section_of_class(class: u64) -> Section
    ensures { result ≡ section_of_class_number class }
{
    match class {
        0 => Section::Text,
        1 => Section::Linkage,
        2 => Section::Symbol,
        _ => Section::Static,
    }
}

// The section with this number in an expression or a relocation; numbers over 2 are the symbol
// section.
#[tactic(auto, unfolding(crate::specs::Reading::section_with))]
fn section_of(number: u64) -> Section
    ensures { result ≡ section_with number }
{
    match number {
        0 => Section::Text,
        1 => Section::Linkage,
        2 => Section::Static,
        _ => Section::Symbol,
    }
}

// ---- definitions

// Decodes the definition at an index of the definition section.
#[tactic(auto, unfolding(crate::specs::Reading::definition_at))]
fn definition(words: &[Word], at: u64) -> Named
    requires { at < 2 ^ 33 }
    ensures { result ≡ definition_at words.now at }
{
    let first = right_of(word_at(words, at));
    let second = word_at(words, at + 1);
    Named {
        name: name(words, right_of(second)),
        def: Def {
            value: left_of(second) as u32,
            section: section_of_class(first % ENTRY_MARK),
            is_entry: ENTRY_MARK <= first,
        },
    }
}

// Decodes a table of definitions, and adds them.
pub(crate) fn read_definitions(found: &mut Defs, words: &[Word], count: u64) -> Result<(), NoMemory>
    requires { count < 2 ^ 32 }
    ensures { OnOk result
        (found.new ≡ found.old ++ definitions_in words.now definition_head_words count) }
{
    let mut at = 2;
    for _ in 0..count {
        found.push(definition(words, at))?;
        at += 2;
    }
    Ok(())
}

// ---- links

// The name at an index, if a link uses it, and otherwise the empty name.
fn name_if(used: bool, words: &[Word], at: u64) -> Name
    requires { at < 2 ^ 32 }
    ensures { result ≡ (if used then name_at words.now at else []) }
{
    if used {
        name(words, at)
    } else {
        Name::default()
    }
}

// The section of a link; the text if the link has the name of a segment.
fn section_unless(named: bool, number: u64) -> Section
    ensures { result ≡ (if named then Text else section_with number) }
{
    if named {
        Section::Text
    } else {
        section_of(number)
    }
}

// The link with its expression at `at` in the definition section, and its modifier in the link at
// `place` of the linkage section.
#[tactic(auto, unfolding(crate::specs::Reading::link_at))]
fn link(words: &[Word], at: u64, linkage: &[Word], place: u64) -> Link
    requires at { at < 2 ^ 40 }
    requires place { place < 2 ^ 40 }
    ensures { result ≡ link_at words.now at linkage.now place }
{
    let first = word_at(words, at);
    let second = word_at(words, at + 1);
    let odd = word_at(linkage, place + 1);
    let kind = (left_of(first) % (1 << 8)) as u8;
    Link {
        name: name_if(kind_has_name(kind as u64), words, right_of(first)),
        entry: name_if(kind_has_entry(kind as u64), words, left_of(second)),
        expr: right_of(second) as u32,
        kind,
        section: section_unless(kind_has_name(kind as u64), right_of(first)),
        modifier: (right_of(odd) % (1 << 6)) as u8,
    }
}

// Decodes the links from a table of expressions and from the linkage section, and adds them.
pub(crate) fn read_links(
    found: &mut Links,
    words: &[Word],
    expressions: u64,
    linkage: &[Word],
    first: u64,
    count: u64,
) -> Result<(), NoMemory>
    requires expressions { expressions < 2 ^ 38 }
    requires first { first < 2 ^ 38 }
    requires count { count < 2 ^ 32 }
    ensures { OnOk result
        (found.new ≡ found.old ++ links_in words.now expressions linkage.now first count) }
{
    let mut at = expressions;
    let mut place = first;
    for _ in 0..count {
        found.push(link(words, at, linkage, place))?;
        at += 2;
        place += 2;
    }
    Ok(())
}

// ---- relocations

// Decodes a relocation.
#[tactic(auto, unfolding(crate::specs::Reading::relocation_in))]
fn relocation(word: Word) -> Reloc
    ensures { result ≡ relocation_in word }
{
    let fields = right_of(word);
    Reloc {
        offset: left_of(word) as u32,
        section: section_of(fields / (1 << 15)),
        part: (fields / (1 << 12) % 8) as u8,
        target: section_of(fields / (1 << 9) % 8),
    }
}

// Decodes a table of relocations, and adds them.
pub(crate) fn read_relocations(
    found: &mut Relocs,
    words: &[Word],
    count: u64,
) -> Result<(), NoMemory>
    requires { count < 2 ^ 32 }
    ensures { OnOk result
        (found.new ≡ found.old ++ relocations_in words.now symbol_head_words count) }
{
    let mut at = 1;
    for _ in 0..count {
        found.push(relocation(word_at(words, at)))?;
        at += 1;
    }
    Ok(())
}

// ---- the whole

// The index of the map, which the last word has.
#[tactic(auto, unfolding(crate::specs::Reading::map_index))]
pub(crate) fn index_of_map(words: &[Word]) -> u64
    ensures value { result ≡ map_index words.now }
    ensures bound { result < 2 ^ 18 }
{
    left_of(word_at(words, (words.len() as u64).saturating_sub(1)))
}

/// The version: 2 if the map begins eight words before the end, otherwise 1.
#[tactic(auto, unfolding(crate::specs::Reading::version_in))]
pub fn version(words: &[Word]) -> u8
    ensures { result ≡ version_in words.now }
{
    version_of(index_of_map(words) + NEWER_MAP == words.len() as u64)
}

/// The length of a section, which word `i` of the map has.
#[tactic(auto, unfolding(crate::specs::Reading::section_length_in_map))]
pub fn length_in_map(words: &[Word], i: u64) -> u64
    requires { i < newer_map_words }
    ensures value { result ≡ section_length_in_map words.now i }
    ensures bound { result < 2 ^ 18 }
{
    right_of(word_at(words, index_of_map(words) + i))
}

// A number of items, in the right half of word i of a section; it is reduced to the number of words
// of the list.
#[tactic(auto, unfolding(crate::specs::Reading::count_of_items))]
pub(crate) fn count_in_head(words: &[Word], part: &[Word], i: u64) -> u64
    ensures value { result ≡ count_of_items words.now part.now i }
    ensures bound { result < 2 ^ 18 }
{
    right_of(word_at(part, i)).min(words.len() as u64)
}

// The rest of the list from the definition section on.
#[tactic(auto, unfolding(crate::specs::Reading::from_definition))]
pub(crate) fn words_from_definition(words: &[Word]) -> &[Word]
    ensures { result.now ≡ from_definition words.now }
{
    words_after(words, length_in_map(words, 1))
}

// The rest of the list from the linkage section on.
#[tactic(auto, unfolding(crate::specs::Reading::from_linkage))]
pub(crate) fn words_from_linkage(words: &[Word]) -> &[Word]
    ensures { result.now ≡ from_linkage words.now }
{
    words_after(words_from_definition(words), length_in_map(words, 2))
}

// The rest of the list after the linkage section.
#[tactic(auto, unfolding(crate::specs::Reading::from_statics))]
fn words_from_statics(words: &[Word]) -> &[Word]
    ensures { result.now ≡ from_statics words.now }
{
    words_after(words_from_linkage(words), length_in_map(words, 3))
}

// The rest of the list from the symbol section on.
#[tactic(auto, unfolding(crate::specs::Reading::from_symbol))]
pub(crate) fn words_from_symbol(words: &[Word]) -> &[Word]
    ensures { result.now ≡ from_symbol words.now }
{
    if version(words) == 2 {
        words_after(words_from_statics(words), length_in_map(words, 4))
    } else {
        words_from_statics(words)
    }
}

// The offset of the first link in the linkage section.
#[tactic(auto, unfolding(crate::specs::Reading::first_link_in_head, crate::specs::Reading::link_start))]
pub(crate) fn first_link_offset(words: &[Word]) -> u64
    ensures value { result ≡ first_link_in_head words.now }
    ensures bound { result < 2 ^ 18 }
{
    left_of(word_at(words_from_linkage(words), 1))
}

// The static words, from the section that has them.
#[tactic(auto, unfolding(crate::specs::Reading::statics_in))]
pub(crate) fn statics(words: &[Word]) -> &[Word]
    ensures { result.now ≡ statics_in words.now }
{
    if version(words) == 2 {
        first_words(words_from_statics(words), length_in_map(words, 4))
    } else {
        let inner = words_after(words_from_linkage(words), HEAD_WORDS);
        first_words(inner, first_link_offset(words).saturating_sub(HEAD_WORDS))
    }
}

/// The index of the word with the entry bound in the map.
pub fn index_of_bound(version: u8) -> u64
    ensures value { result ≡ bound_index version }
    ensures bound { result < newer_map_words }
{
    if version == 2 { 6 } else { 5 }
}

// The entry bound, which a word of the map has.
#[tactic(auto, unfolding(crate::specs::Reading::bound_in))]
pub(crate) fn entry_bound_in_map(words: &[Word]) -> u64
    ensures value { result ≡ bound_in words.now }
    ensures bound { result < 2 ^ 18 }
{
    let i = index_of_bound(version(words));
    left_of(word_at(words, index_of_map(words) + i))
}

/// Decodes the parts that a list of fewer than 2^32 words may encode. Fails only with `NoMemory`.
pub fn parts_in(alloc: Global, words: &[Word]) -> Result<Parts, NoMemory>
    requires { length words.now < 2 ^ 32 }
    ensures { IfOk result (λ p. p ≡ parts_of words.now) }
{
    // All names and links are decoded from these words, so their digest is the seed.
    let seed = HashSeed::of_words(alloc, words_from_definition(words))?;
    let mut lists = empty_lists(alloc, seed);
    match read_lists(&mut lists, words) {
        Ok(()) => Ok(parts_with(lists, words)),
        Err(cause) => {
            // Dropped explicitly, so that the drop is proved once for its type.
            drop(lists);
            Err(cause)
        }
    }
}
