//! Objects, and how they are read and written.

ghost use Rattle.std.specs.Prelude.{[], ◌∷◌, ◌++◌, ◌≡◌, ◌+◌, ◌*◌, ◌<◌, ◌≤◌, ◌^◌};
ghost use Rattle.std.specs.Prelude.{true, length, nat_eq, if◌then◌else◌, Some, None, option_map};
ghost use Rattle.std.specs.Prelude.{IfOk, IfSome, OnOk};
ghost use Rattle.obj36_parts.specs.ObjectSegment.{inner_statics, outer_statics};
ghost use Rattle.obj36_parts.specs.ObjectSegment.{definition_section, linkage_section};
ghost use Rattle.obj36_parts.specs.ObjectSegment.{symbol_section, section_words, map_part};
ghost use Rattle.obj36_parts.specs.ObjectSegment.{words_of, is_well_formed, definition_named};
ghost use Rattle.obj36_parts.specs.ObjectSegment.{Encodes, IsObject};
ghost use Rattle.obj36_parts.specs.Halves.{word_with_halves};
ghost use Rattle.obj36_parts.specs.Sizes.{HasShortLists};
ghost use Rattle.obj36.specs.Lengths.{AreSegmentLengths};
ghost use Rattle.obj36_parts.specs.PartsFields.{PartsFields};
ghost use Rattle.obj36.specs.Faults.{length_or_map_fault, ObjectResult, IsReadAs, IsValueOf};
ghost use Rattle.obj36.specs.ObjectOf.{encoded_parts, IsObjectOf};
ghost use Rattle.obj36_read.specs.Reading.{parts_of};
ghost use Rattle.std.specs.Cmp.Lexicographic.{pointwise};

use crate::fault::ObjectFault;
use crate::judging::{fault_of_length_or_map, fault_with_valid_map};
use m36_text::Name;
use m36_word::{NoMemory, Word, Words};
use obj36_parts::definition::Def;
use obj36_parts::halves::word_of_halves;
use obj36_parts::link::Link;
use obj36_parts::parts::Parts;
use obj36_parts::section::Section;
use obj36_parts::sections::{
    definition_words_of, linkage_words_of, push_all, symbol_words_of, version_of,
};
use obj36_read::reading::parts_in;
use std::alloc::Global;
use std::marker::Model;

// The sections that are encoded from parts.
#[derive(Drop)]
struct Sections {
    definition: Words,
    linkage: Words,
    symbol: Words,
}

/// An object: well-formed parts, with the words of three of its sections. Its model is its parts.
#[derive(Drop)]
pub struct Object {
    parts: Parts,
    definition: Words,
    linkage: Words,
    symbol: Words,
}

impl Model for Object {
    ghost use Rattle.obj36_parts.specs.PartsFields.{PartsFields};
    ghost use Rattle.obj36_parts.specs.ObjectSegment.{IsObject};

    ghost Value = { PartsFields };

    ghost view = { λ o. o.parts };

    ghost invariant = { λ o. IsObject o.parts o.definition o.linkage o.symbol };
}

// Encodes the sections of parts. Fails only with `NoMemory`.
#[tactic(auto, unfolding(obj36_parts::specs::ObjectSegment::definition_section, obj36_parts::specs::ObjectSegment::linkage_section, obj36_parts::specs::ObjectSegment::symbol_section))]
fn sections_of(alloc: Global, parts: &Parts) -> Result<Sections, NoMemory>
    requires { HasShortLists parts.now }
    ensures definition { IfOk result (λ s. s.definition ≡ definition_section parts.now) }
    ensures linkage { IfOk result (λ s. s.linkage ≡ linkage_section parts.now) }
    ensures symbol { IfOk result (λ s. s.symbol ≡ symbol_section parts.now) }
{
    let definitions = parts.definitions.items();
    let links = parts.links.items();
    let statics = parts.inner_statics();
    let expressions = 2 + 2 * definitions.len() as u64;
    let seed = parts.definitions.seed();
    let definition = definition_words_of(alloc, seed, definitions, links)?;
    let linkage = linkage_words_of(alloc, statics, links, expressions)?;
    let symbol = symbol_words_of(alloc, parts.relocations.items())?;
    Ok(Sections {
        definition,
        linkage,
        symbol,
    })
}

// The lengths of sections that follow one another.
#[derive(Clone, Copy)]
struct Lengths {
    text: u64,
    definition: u64,
    linkage: u64,
    statics: u64,
    symbol: u64,
}

// Adds the map word of the static section, which only version 2 has.
fn push_static_entry(out: &mut Words, newer: bool, offset: u64, length: u64) -> Result<(), NoMemory>
    ensures { OnOk result (out.new ≡ out.old ++ (if newer then word_with_halves offset length ∷ []
        else [])) }
{
    if newer {
        out.push(word_of_halves(offset, length))
    } else {
        Ok(())
    }
}

// Adds the map and the last word.
#[tactic(auto, unfolding(obj36_parts::specs::ObjectSegment::map_part))]
fn push_map(out: &mut Words, newer: bool, lengths: Lengths, bound: u64) -> Result<(), NoMemory>
    requires { AreSegmentLengths lengths }
    ensures { OnOk result (out.new ≡ out.old
        ++ map_part newer lengths.text lengths.definition lengths.linkage lengths.statics
        lengths.symbol bound) }
{
    let linkage = lengths.text + lengths.definition;
    let statics = linkage + lengths.linkage;
    let symbol = statics + lengths.statics;
    let map = symbol + lengths.symbol;
    let front = [
        word_of_halves(0, version_of(newer) as u64),
        word_of_halves(0, lengths.text),
        word_of_halves(lengths.text, lengths.definition),
        word_of_halves(linkage, lengths.linkage),
    ];
    let back = [
        word_of_halves(symbol, lengths.symbol),
        word_of_halves(bound, 0),
        word_of_halves(map, 0),
    ];
    push_all(out, &front)?;
    push_static_entry(out, newer, statics, lengths.statics)?;
    push_all(out, &back)
}

// The lengths of the sections, each at most that of a segment.
fn lengths_of(parts: &Parts, definition: &[Word], linkage: &[Word], symbol: &[Word]) -> Lengths
    requires { IsObject parts.now definition.now linkage.now symbol.now }
    ensures text { result.text ≡ length parts.now.text }
    ensures definition { result.definition ≡ length definition.now }
    ensures linkage { result.linkage ≡ length linkage.now }
    ensures statics { result.statics ≡ length (outer_statics parts.now) }
    ensures symbol { result.symbol ≡ length symbol.now }
    ensures small { AreSegmentLengths result }
{
    Lengths {
        text: parts.text.slice().len() as u64,
        definition: definition.len() as u64,
        linkage: linkage.len() as u64,
        statics: parts.outer_statics().len() as u64,
        symbol: symbol.len() as u64,
    }
}

// Adds all words of an object to an empty list. The sections are those of its parts.
#[tactic(auto, unfolding(obj36_parts::specs::ObjectSegment::words_of, obj36_parts::specs::ObjectSegment::map_words))]
fn push_sections(
    out: &mut Words,
    parts: &Parts,
    definition: &[Word],
    linkage: &[Word],
    symbol: &[Word],
) -> Result<(), NoMemory>
    requires empty { out.old ≡ [] }
    requires object { IsObject parts.now definition.now linkage.now symbol.now }
    ensures { OnOk result (Encodes parts.now out.new) }
{
    let lengths = lengths_of(parts, definition, linkage, symbol);
    push_all(out, parts.text.slice())?;
    push_all(out, definition)?;
    push_all(out, linkage)?;
    push_all(out, parts.outer_statics())?;
    push_all(out, symbol)?;
    push_map(out, parts.version == 2, lengths, parts.entry_bound as u64)
}

// All words of an object. The sections are those of its parts.
fn join_sections(
    alloc: Global,
    parts: &Parts,
    definition: &[Word],
    linkage: &[Word],
    symbol: &[Word],
) -> Result<Words, NoMemory>
    requires { IsObject parts.now definition.now linkage.now symbol.now }
    ensures { IfOk result (λ words. Encodes parts.now words) }
{
    let mut out = Words::new(alloc);
    match push_sections(&mut out, parts, definition, linkage, symbol) {
        Ok(()) => Ok(out),
        Err(cause) => {
            // Dropped explicitly, so that the drop is proved once for its type.
            drop(out);
            Err(cause)
        }
    }
}

// Whether two lists of words are equal.
fn are_same_words(words: &[Word], others: &[Word]) -> bool
    ensures { result ≡ pointwise nat_eq words.now others.now }
{
    words == others
}

// Whether a list of words encodes the parts that were decoded from it. The sections are those of
// the parts.
fn encodes_decoded(
    alloc: Global,
    parts: &Parts,
    sections: &Sections,
    w: &[Word],
) -> Result<bool, NoMemory>
    requires object { IsObject parts.now sections.now.definition sections.now.linkage
        sections.now.symbol }
    requires spelled { parts.now ≡ parts_of w.now }
    ensures { IfOk result (λ is. (if is then Some parts.now else None) ≡ encoded_parts w.now) }
{
    let definition = sections.definition.slice();
    let linkage = sections.linkage.slice();
    let symbol = sections.symbol.slice();
    let words = join_sections(alloc, parts, definition, linkage, symbol)?;
    let same = are_same_words(words.slice(), w);
    drop(words);
    Ok(same)
}

// The sections of the parts that were decoded from a list of words. None if the list does not
// encode these parts.
fn sections_if_encoded(
    alloc: Global,
    parts: &Parts,
    w: &[Word],
) -> Result<Option<Sections>, NoMemory>
    requires few { HasShortLists parts.now }
    requires spelled { parts.now ≡ parts_of w.now }
    ensures sections { IfOk result (λ found. IfSome found
        (λ s. IsObject parts.now s.definition s.linkage s.symbol)) }
    ensures value { IfOk result (λ found. option_map (λ s. parts.now) found ≡ encoded_parts w.now) }
{
    if !parts.is_well_formed() {
        return Ok(None);
    }
    let sections = sections_of(alloc, parts)?;
    match encodes_decoded(alloc, parts, &sections, w) {
        Ok(true) => Ok(Some(sections)),
        Ok(false) => {
            drop(sections);
            Ok(None)
        }
        Err(cause) => {
            drop(sections);
            Err(cause)
        }
    }
}

// The object with these parts and their sections.
fn object_from(parts: Parts, sections: Sections) -> Object
    requires { IsObject parts sections.definition sections.linkage sections.symbol }
    ensures { result ≡ parts }
{
    Object {
        parts,
        definition: sections.definition,
        linkage: sections.linkage,
        symbol: sections.symbol,
    }
}

// The object with these parts and their sections; None if there are no sections.
fn object_with(parts: Parts, sections: Option<Sections>) -> Option<Object>
    requires { IfSome sections (λ s. IsObject parts s.definition s.linkage s.symbol) }
    ensures { result ≡ option_map (λ s. parts) sections }
{
    match sections {
        Some(sections) => Some(object_from(parts, sections)),
        None => {
            drop(parts);
            None
        }
    }
}

// The object that a list of words encodes; None if it encodes no parts.
fn object_in(alloc: Global, w: &[Word]) -> Result<Option<Object>, NoMemory>
    requires { length w.now < 2 ^ 32 }
    ensures value { IfOk result (λ found. found ≡ encoded_parts w.now) }
    ensures found { IfOk result (λ found. IsValueOf w.now found) }
{
    let parts = parts_in(alloc, w)?;
    match sections_if_encoded(alloc, &parts, w) {
        Ok(sections) => Ok(object_with(parts, sections)),
        Err(cause) => {
            drop(parts);
            Err(cause)
        }
    }
}

// The object that a list of words with a valid map encodes, or the first fault of the list.
fn read_with_map(alloc: Global, w: &[Word]) -> Result<Object, ObjectFault>
    requires few { length w.now < 2 ^ 32 }
    requires outline { length_or_map_fault w.now ≡ None }
    ensures says { ObjectResult w.now result }
    ensures accepts { (p : PartsFields) → Encodes p w.now → IsReadAs p result }
    ensures object { IsObjectOf w.now result }
{
    match object_in(alloc, w)? {
        Some(object) => Ok(object),
        None => Err(fault_with_valid_map(alloc, w)?),
    }
}

impl Object {
    /// Reads an object from a list of fewer than 2^32 words. Exactly the lists that encode parts
    /// are accepted, and the result has these parts. For any other list the error is its first
    /// fault in the order of the codes. Any list may fail with `NoMemory`.
    pub fn read(alloc: Global, w: &[Word]) -> Result<Object, ObjectFault>
        requires { length w.now < 2 ^ 32 }
        ensures says { ObjectResult w.now result }
        ensures accepts { (p : PartsFields) → Encodes p w.now → IsReadAs p result }
        ensures object { IsObjectOf w.now result }
    {
        match fault_of_length_or_map(w) {
            Some(fault) => Err(fault),
            None => read_with_map(alloc, w),
        }
    }

    /// The object with these parts, which must be well formed. Fails only with `NoMemory`.
    pub fn new(alloc: Global, parts: Parts) -> Result<Object, NoMemory>
        requires { is_well_formed parts ≡ true }
        ensures { IfOk result (λ o. o ≡ parts) }
    {
        match sections_of(alloc, &parts) {
            Ok(sections) => Ok(object_from(parts, sections)),
            Err(cause) => {
                drop(parts);
                Err(cause)
            }
        }
    }

    /// The one list of words that encodes the object. Fails only with `NoMemory`.
    pub fn write(&self, alloc: Global) -> Result<Words, NoMemory>
        ensures { IfOk result (λ words. Encodes self.now words) }
    {
        let definition = self.definition.slice();
        let linkage = self.linkage.slice();
        let symbol = self.symbol.slice();
        join_sections(alloc, &self.parts, definition, linkage, symbol)
    }

    /// A law: the parts of each object are well formed.
    pub fn parts_are_well_formed(&self)
        ensures { is_well_formed self.now ≡ true }
    {
        let _ = &self.parts;
    }

    /// The parts of the object.
    pub fn parts(&self) -> &Parts
        ensures { result.now ≡ self.now }
    {
        &self.parts
    }

    /// The words of a section. In version 1 the static section has none, since the static words are
    /// in the linkage section.
    pub fn section(&self, s: Section) -> &[Word]
        ensures { result.now ≡ section_words self.now s }
    {
        match s {
            Section::Text => self.parts.text.slice(),
            Section::Linkage => self.linkage.slice(),
            Section::Symbol => self.symbol.slice(),
            Section::Static => self.parts.outer_statics(),
        }
    }

    /// The number of words of the definition section.
    pub fn definition_length(&self) -> u32
        ensures { result ≡ length (definition_section self.now) }
    {
        self.definition.slice().len() as u32
    }

    /// The place of the definition with this name. None if there is none.
    pub fn find(&self, entry: &[u8]) -> Option<Def>
        ensures { result ≡ definition_named entry.now self.now.definitions }
    {
        match Name::new(entry) {
            Some(name) => self.parts.definitions.find(&name),
            None => None,
        }
    }

    /// The links in order.
    pub fn links(&self) -> &[Link]
        ensures { result.now ≡ self.now.links }
    {
        self.parts.links.items()
    }

    /// The number of words of the text at which a gate may be entered: at most the length of the
    /// text.
    pub fn entry_bound(&self) -> u32
        ensures { result ≡ self.now.entry_bound }
    {
        self.parts.entry_bound
    }
}
