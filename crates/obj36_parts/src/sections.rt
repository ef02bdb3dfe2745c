//! Makes the words of the sections of an object.

ghost use Rattle.std.specs.Prelude.{[], ◌∷◌, ◌++◌, ◌≡◌, ◌+◌, ◌-◌, ◌*◌, ◌^◌, ◌<◌, ◌≤◌};
ghost use Rattle.std.specs.Prelude.{length, replicate, OnOk, IfOk};
ghost use Rattle.obj36_parts.specs.Halves.{word_with_halves};
ghost use Rattle.obj36_parts.specs.Names.{name_offset, with_names};
ghost use Rattle.obj36_parts.specs.Sections.{class_number, section_number, is_text_section, rank};
ghost use Rattle.obj36_parts.specs.Sections.{later_section};
ghost use Rattle.obj36_parts.specs.ObjectSegment.{version_of, padded_to_even};
ghost use Rattle.obj36_parts.specs.ObjectSegment.{offset_if_any};
ghost use Rattle.obj36_parts.specs.ObjectSegment.{class_of};
ghost use Rattle.obj36_parts.specs.ObjectSegment.{definition_words, section_or_name_offset};
ghost use Rattle.obj36_parts.specs.ObjectSegment.{entry_name_offset};
ghost use Rattle.obj36_parts.specs.ObjectSegment.{definition_names, all_link_names};
ghost use Rattle.obj36_parts.specs.ObjectSegment.{first_expression_at};
ghost use Rattle.obj36_parts.specs.ObjectSegment.{expression_words, definition_part};
ghost use Rattle.obj36_parts.specs.ObjectSegment.{linkage_part, relocation_word};
ghost use Rattle.obj36_parts.specs.ObjectSegment.{symbol_part, definition_head_words};

use crate::definition::{Def, Named};
use crate::halves::word_of_halves;
use crate::link::Link;
use crate::linkage::push_linkage;
use crate::names::{NameTable, kind_has_entry, kind_has_name, name_table, push_names};
use crate::relocation::Reloc;
use crate::section::Section;
use m36_text::HashSeed;
use m36_word::{NoMemory, Word, Words};
use std::alloc::Global;

/// The tag of a link that is not snapped: fault tag 2.
pub const LINK_TAG: u64 = 0o46;

/// The number that is added to the class of a definition if it is an entry.
pub const ENTRY_MARK: u64 = 8;

/// The number of words of the head of a linkage section.
pub const HEAD_WORDS: u64 = 8;

/// The maximal number of words of a segment, and so of an object.
pub const SEGMENT_LIMIT: u64 = 1 << 18;

/// The maximal number of words of a section of an object that is assembled or bound.
pub const SECTION_LIMIT: u64 = (1 << 18) - 4096;

/// The class of a definition in this section.
pub fn class_number(section: Section) -> u64
    ensures value { result ≡ class_number section }
    ensures bound { result ≤ 3 }
{
    match section {
        Section::Text => 0,
        Section::Linkage => 1,
        Section::Symbol => 2,
        Section::Static => 3,
    }
}

/// The number of a section in links and relocations.
pub fn section_number(section: Section) -> u64
    ensures value { result ≡ section_number section }
    ensures bound { result ≤ 3 }
{
    match section {
        Section::Text => 0,
        Section::Linkage => 1,
        Section::Static => 2,
        Section::Symbol => 3,
    }
}

/// The version number: 2 if the object has a static section (is newer), otherwise 1.
pub fn version_of(newer: bool) -> u8
    ensures { result ≡ version_of newer }
{
    if newer { 2 } else { 1 }
}

/// Whether a section is the text.
pub fn is_text_section(section: Section) -> bool
    ensures { result ≡ is_text_section section }
{
    match section {
        Section::Text => true,
        Section::Linkage | Section::Symbol | Section::Static => false,
    }
}

// The order of sections for `later_section`: text and symbol, then linkage, then static.
fn rank(section: Section) -> u8
    ensures { result ≡ rank section }
{
    match section {
        Section::Text | Section::Symbol => 0,
        Section::Linkage => 1,
        Section::Static => 2,
    }
}

/// The section relative to which the sum of two values counts: the later of the section of a link
/// and the section of the definition that it names.
pub fn later_section(a: Section, b: Section) -> Section
    ensures { result ≡ later_section a b }
{
    if rank(a) <= rank(b) { b } else { a }
}

// The offset of a table of `count` items, which is 0 if there are none.
#[tactic(auto, unfolding(crate::specs::ObjectSegment::offset_if_any))]
fn offset_unless_empty(count: usize, at: u64) -> u64
    ensures { result ≡ offset_if_any count at }
{
    if count == 0 { 0 } else { at }
}

// The class of a definition: the number of its section, with a mark if it is an entry.
#[tactic(auto, unfolding(crate::specs::ObjectSegment::class_of))]
fn class_with_entry(def: &Def) -> u64
    ensures { result ≡ class_of def.now }
{
    class_number(def.section) + if def.is_entry { ENTRY_MARK } else { 0 }
}

/// Adds words at the end.
pub fn push_all(out: &mut Words, words: &[Word]) -> Result<(), NoMemory>
    ensures { OnOk result (out.new ≡ out.old ++ words.now) }
{
    for word in words {
        out.push(*word)?;
    }
    Ok(())
}

/// A copy of words. Fails only with `NoMemory`.
pub fn copy_of_words(alloc: Global, words: &[Word]) -> Result<Words, NoMemory>
    ensures { IfOk result (λ copy. copy ≡ words.now) }
{
    let mut copy = Words::new(alloc);
    match push_all(&mut copy, words) {
        Ok(()) => Ok(copy),
        Err(cause) => {
            // Dropped explicitly, so that the drop is proved once for its type.
            drop(copy);
            Err(cause)
        }
    }
}

/// Adds `count` zero words at the end.
pub fn push_zeros(out: &mut Words, count: u64) -> Result<(), NoMemory>
    ensures { OnOk result (out.new ≡ out.old ++ replicate count 0) }
{
    for _ in 0..count {
        out.push(Word::ZERO)?;
    }
    Ok(())
}

/// Adds a zero word if the number of words is odd.
pub fn pad_to_even(out: &mut Words) -> Result<(), NoMemory>
    ensures { OnOk result (out.new ≡ padded_to_even out.old) }
{
    if out.slice().len() % 2 == 0 {
        return Ok(());
    }
    out.push(Word::ZERO)
}

// Adds two words at the end.
pub(crate) fn push_pair(out: &mut Words, first: Word, second: Word) -> Result<(), NoMemory>
    ensures { OnOk result (out.new ≡ out.old ++ first ∷ second ∷ []) }
{
    push_all(out, &[first, second])
}

// ---- the definition section

// Adds the two words of a definition; `next` is the offset of the next one.
fn push_definition(
    out: &mut Words,
    table: &NameTable,
    definition: &Named,
    next: u64,
) -> Result<(), NoMemory>
    ensures { OnOk result (out.new ≡ out.old ++ word_with_halves next (class_of definition.now.def)
        ∷ word_with_halves definition.now.def.value
        (name_offset definition.now.name table.now.names table.now.base) ∷ []) }
{
    let def = definition.def;
    let place = table.offset_of(&definition.name);
    push_pair(
        out,
        word_of_halves(next, class_with_entry(&def)),
        word_of_halves(def.value as u64, place),
    )
}

// Adds the words of definitions. The first definition is at offset 2 of the section.
fn push_definitions(
    out: &mut Words,
    table: &NameTable,
    definitions: &[Named],
) -> Result<(), NoMemory>
    requires { length definitions.now < 2 ^ 32 }
    ensures { OnOk result
        (out.new
        ≡ out.old
        ++ definition_words table.now.names table.now.base definitions.now definition_head_words) }
{
    let mut at = 2;
    for (i, definition) in definitions.iter().enumerate() {
        let next = offset_unless_empty(definitions.len() - i - 1, at + 2);
        push_definition(out, table, definition, next)?;
        at += 2;
    }
    Ok(())
}

// The right half of the first word of an expression: the offset of a name, or a section.
#[tactic(auto, unfolding(crate::specs::ObjectSegment::section_or_name_offset))]
fn subject(table: &NameTable, link: &Link) -> u64
    ensures { result ≡ section_or_name_offset table.now.names table.now.base link.now }
{
    if kind_has_name(link.kind as u64) {
        table.offset_of(&link.name)
    } else {
        section_number(link.section)
    }
}

// The offset of the name of the entry of a link; 0 if it has none.
#[tactic(auto, unfolding(crate::specs::ObjectSegment::entry_name_offset))]
fn entry(table: &NameTable, link: &Link) -> u64
    ensures { result ≡ entry_name_offset table.now.names table.now.base link.now }
{
    if kind_has_entry(link.kind as u64) {
        table.offset_of(&link.entry)
    } else {
        0
    }
}

// Adds the two words of the expression of a link.
fn push_expression(out: &mut Words, table: &NameTable, link: &Link) -> Result<(), NoMemory>
    ensures { OnOk result (out.new ≡ out.old
        ++ word_with_halves link.now.kind (section_or_name_offset table.now.names table.now.base
        link.now)
        ∷ word_with_halves (entry_name_offset table.now.names table.now.base link.now) link.now.expr
        ∷ []) }
{
    let first = word_of_halves(link.kind as u64, subject(table, link));
    let second = word_of_halves(entry(table, link), link.expr as u64);
    push_pair(out, first, second)
}

// Adds the words of the expressions of links.
fn push_expressions(out: &mut Words, table: &NameTable, links: &[Link]) -> Result<(), NoMemory>
    ensures { OnOk result
        (out.new ≡ out.old ++ expression_words table.now.names table.now.base links.now) }
{
    for link in links {
        push_expression(out, table, link)?;
    }
    Ok(())
}

// Adds the definition section of these definitions and links. The table has their names.
#[tactic(auto, unfolding(crate::specs::ObjectSegment::definition_part))]
fn push_definition_section(
    out: &mut Words,
    table: &NameTable,
    definitions: &[Named],
    links: &[Link],
) -> Result<(), NoMemory>
    requires definitions { length definitions.now < 2 ^ 32 }
    requires links { length links.now < 2 ^ 32 }
    requires names { table.now.names
        ≡ with_names [] (definition_names definitions.now ++ all_link_names links.now) }
    requires base { table.now.base
        ≡ first_expression_at (length definitions.now) + 2 * length links.now }
    ensures { OnOk result (out.new ≡ out.old ++ definition_part definitions.now links.now) }
{
    let expressions = 2 + 2 * definitions.len() as u64;
    push_pair(
        out,
        word_of_halves(
            offset_unless_empty(definitions.len(), 2),
            definitions.len() as u64,
        ),
        word_of_halves(
            offset_unless_empty(links.len(), expressions),
            links.len() as u64,
        ),
    )?;
    push_definitions(out, table, definitions)?;
    push_expressions(out, table, links)?;
    push_names(out, table.names())
}

// The definition section of these definitions and links. The table has their names.
fn definition_section_words(
    alloc: Global,
    table: &NameTable,
    definitions: &[Named],
    links: &[Link],
) -> Result<Words, NoMemory>
    requires definitions { length definitions.now < 2 ^ 32 }
    requires links { length links.now < 2 ^ 32 }
    requires names { table.now.names
        ≡ with_names [] (definition_names definitions.now ++ all_link_names links.now) }
    requires base { table.now.base
        ≡ first_expression_at (length definitions.now) + 2 * length links.now }
    ensures { IfOk result (λ words. words ≡ definition_part definitions.now links.now) }
{
    let mut out = Words::new(alloc);
    match push_definition_section(&mut out, table, definitions, links) {
        Ok(()) => Ok(out),
        Err(cause) => {
            // Dropped explicitly, so that the drop is proved once for its type.
            drop(out);
            Err(cause)
        }
    }
}

/// The definition section of these definitions and links. Their names are hashed with this seed.
/// Fails only with `NoMemory`.
pub fn definition_words_of(
    alloc: Global,
    seed: HashSeed,
    definitions: &[Named],
    links: &[Link],
) -> Result<Words, NoMemory>
    requires definitions { length definitions.now < 2 ^ 32 }
    requires links { length links.now < 2 ^ 32 }
    ensures { IfOk result (λ words. words ≡ definition_part definitions.now links.now) }
{
    let expressions = 2 + 2 * definitions.len() as u64;
    let base = expressions + 2 * links.len() as u64;
    let table = name_table(alloc, seed, definitions, links, base)?;
    let words = definition_section_words(alloc, &table, definitions, links);
    drop(table);
    words
}

// ---- the linkage section

/// The linkage section of these static words and links. Their expressions begin at the offset
/// `expressions` of the definition section. Fails only with `NoMemory`.
pub fn linkage_words_of(
    alloc: Global,
    statics: &[Word],
    links: &[Link],
    expressions: u64,
) -> Result<Words, NoMemory>
    requires statics { length statics.now < 2 ^ 32 }
    requires links { length links.now < 2 ^ 32 }
    requires expressions { expressions ≤ 2 ^ 40 }
    ensures { IfOk result (λ words. words ≡ linkage_part statics.now links.now expressions) }
{
    let mut out = Words::new(alloc);
    match push_linkage(&mut out, statics, links, expressions) {
        Ok(()) => Ok(out),
        Err(cause) => {
            // Dropped explicitly, so that the drop is proved once for its type.
            drop(out);
            Err(cause)
        }
    }
}

// ---- the symbol section

// The word that encodes a relocation.
#[tactic(auto, unfolding(crate::specs::ObjectSegment::relocation_word))]
fn word_of_relocation(relocation: &Reloc) -> Word
    ensures { result ≡ relocation_word relocation.now }
{
    let place = section_number(relocation.section) << 15;
    let part = (relocation.part as u64) << 12;
    let target = section_number(relocation.target) << 9;
    word_of_halves(relocation.offset as u64, place + part + target)
}

// Adds the symbol section of these relocations.
#[tactic(auto, unfolding(crate::specs::ObjectSegment::symbol_part))]
fn push_symbol(out: &mut Words, relocations: &[Reloc]) -> Result<(), NoMemory>
    ensures { OnOk result (out.new ≡ out.old ++ symbol_part relocations.now) }
{
    out.push(word_of_halves(0, relocations.len() as u64))?;
    for relocation in relocations {
        out.push(word_of_relocation(relocation))?;
    }
    Ok(())
}

/// The symbol section of these relocations. Fails only with `NoMemory`.
pub fn symbol_words_of(alloc: Global, relocations: &[Reloc]) -> Result<Words, NoMemory>
    ensures { IfOk result (λ words. words ≡ symbol_part relocations.now) }
{
    let mut out = Words::new(alloc);
    match push_symbol(&mut out, relocations) {
        Ok(()) => Ok(out),
        Err(cause) => {
            // Dropped explicitly, so that the drop is proved once for its type.
            drop(out);
            Err(cause)
        }
    }
}
