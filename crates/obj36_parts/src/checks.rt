//! Decides whether parts are well formed.

ghost use Rattle.std.specs.Prelude.{true, ◌≡◌, ◌+◌, ◌*◌, ◌^◌, ◌<◌};
ghost use Rattle.std.specs.Prelude.{◌&&◌, ◌||◌, not, nat_eq, nat_le, if◌then◌else◌};
ghost use Rattle.std.specs.List.{list_all};
ghost use Rattle.obj36_parts.specs.Names.{is_name};
ghost use Rattle.obj36_parts.specs.ObjectSegment.{has_section, greatest_class_number};
ghost use Rattle.obj36_parts.specs.ObjectSegment.{last_section_number, offset_part};
ghost use Rattle.obj36_parts.specs.ObjectSegment.{is_valid_link_section, is_valid_link_name};
ghost use Rattle.obj36_parts.specs.ObjectSegment.{is_valid_definition, is_valid_link};
ghost use Rattle.obj36_parts.specs.ObjectSegment.{is_relocatable, is_valid_relocation};
ghost use Rattle.obj36_parts.specs.ObjectSegment.{order_of, are_in_order, left_part};
ghost use Rattle.obj36_parts.specs.ObjectSegment.{definition_names, are_distinct};

use crate::definition::{Defs, Named};
use crate::link::Link;
use crate::names::{kind_has_entry, kind_has_name};
use crate::relocation::Reloc;
use crate::section::Section;
use crate::sections::{HEAD_WORDS, class_number, section_number};
use m36_text::Name;
use m36_text::texts::is_name;

/// The greatest class of a definition in an object of this version.
pub fn greatest_class(version: u8) -> u64
    ensures { result ≡ greatest_class_number version }
{
    if version == 2 { 3 } else { 2 }
}

/// The greatest number of a section in links and relocations of this version.
pub fn greatest_section_number(version: u8) -> u64
    ensures { result ≡ last_section_number version }
{
    if version == 2 { 2 } else { 1 }
}

// Whether an object of this version can have a definition, by its name, value and section.
#[tactic(auto, unfolding(crate::specs::ObjectSegment::is_valid_definition))]
fn is_good_definition(version: u8, definition: &Named) -> bool
    ensures { result ≡ is_valid_definition version definition.now }
{
    let def = definition.def;
    is_name(definition.name.bytes())
        && def.value < 1 << 18
        && class_number(def.section) <= greatest_class(version)
}

// Whether an object of this version can have each of these definitions.
fn are_good_definitions(version: u8, definitions: &[Named]) -> bool
    ensures { result ≡ list_all (is_valid_definition version) definitions.now }
{
    let mut rest = definitions;
    while let [first, others @ ..] = rest {
        if !is_good_definition(version, first) {
            return false;
        }
        rest = others;
    }
    true
}

/// Whether a link of this type refers to a section of its own object.
pub fn kind_has_section(kind: u64) -> bool
    ensures { result ≡ has_section kind }
{
    kind == 1 || kind == 5
}

// Whether a link can have this name; one that its type does not use is empty.
fn is_good_name(used: bool, name: &Name) -> bool
    ensures { result ≡ is_valid_link_name used name.now }
{
    if used {
        is_name(name.bytes())
    } else {
        name.bytes().is_empty()
    }
}

// Whether a link of this version can have this section; one that its type does not use is the text.
fn is_good_section(used: bool, version: u8, section: Section) -> bool
    ensures { result ≡ is_valid_link_section used version section }
{
    if used {
        section_number(section) <= greatest_section_number(version)
    } else {
        section_number(section) == 0
    }
}

// Whether an object of this version can have a link.
#[tactic(auto, unfolding(crate::specs::ObjectSegment::is_valid_link))]
fn is_good_link(version: u8, link: &Link) -> bool
    ensures { result ≡ is_valid_link version link.now }
{
    let kind = link.kind as u64;
    (kind_has_name(kind) || kind_has_section(kind))
        && is_good_section(kind_has_section(kind), version, link.section)
        && is_good_name(kind_has_name(kind), &link.name)
        && is_good_name(kind_has_entry(kind), &link.entry)
        && link.expr < 1 << 18
        && link.modifier < 1 << 6
}

// Whether an object of this version can have each of these links.
fn are_good_links(version: u8, links: &[Link]) -> bool
    ensures { result ≡ list_all (is_valid_link version) links.now }
{
    let mut rest = links;
    while let [first, others @ ..] = rest {
        if !is_good_link(version, first) {
            return false;
        }
        rest = others;
    }
    true
}

/// The bounds for the places of relocations, and the version of the object.
#[derive(Clone, Copy)]
pub(crate) struct RelocationBounds {
    /// The number of words of the text.
    pub text: usize,
    /// The number of static words in the linkage section.
    pub inner: usize,
    /// The number of static words in the static section.
    pub outer: usize,
    /// The version of the object.
    pub version: u8,
}

// Whether the offset of a relocation is that of a word of the text or of a static word.
#[tactic(auto, unfolding(crate::specs::ObjectSegment::is_relocatable))]
fn is_relocatable_word(room: RelocationBounds, section: Section, offset: u32) -> bool
    ensures { result ≡ is_relocatable room.text room.inner room.outer section offset }
{
    let offset = offset as usize;
    let head = HEAD_WORDS as usize;
    match section {
        Section::Text => offset < room.text,
        Section::Linkage => head <= offset && offset - head < room.inner,
        Section::Static => offset < room.outer,
        Section::Symbol => false,
    }
}

// Whether an object with these bounds can have a relocation.
#[tactic(auto, unfolding(crate::specs::ObjectSegment::is_valid_relocation))]
fn is_good_relocation(room: RelocationBounds, relocation: &Reloc) -> bool
    ensures { result ≡ is_valid_relocation room.text room.inner room.outer room.version
        relocation.now }
{
    is_relocatable_word(room, relocation.section, relocation.offset)
        && relocation.offset < 1 << 18
        && relocation.part <= 2
        && section_number(relocation.target) <= greatest_section_number(room.version)
}

// Whether an object with these bounds can have each of these relocations.
fn are_good_relocations(room: RelocationBounds, relocations: &[Reloc]) -> bool
    ensures { result
        ≡ list_all (is_valid_relocation room.text room.inner room.outer room.version)
        relocations.now }
{
    let mut rest = relocations;
    while let [first, others @ ..] = rest {
        if !is_good_relocation(room, first) {
            return false;
        }
        rest = others;
    }
    true
}

// The number by which relocations are ordered: first by section, then by offset, then by part.
#[tactic(auto, unfolding(crate::specs::ObjectSegment::order_of))]
fn order_number(relocation: &Reloc) -> u64
    ensures value { result ≡ order_of relocation.now }
    ensures bound { result < 2 ^ 40 }
{
    (section_number(relocation.section) * (1 << 18) + relocation.offset as u64) * 4
        + relocation.part as u64
}

// Whether a place is at least `least` and is not `barred`.
fn may_follow(least: u64, barred: u64, place: u64) -> bool
    ensures { result ≡ (nat_le least place && not (nat_eq place barred)) }
{
    least <= place && place != barred
}

// The order number that must not occur after a relocation: after one of part 0, that of part 2 of
// the same word.
fn barred_after(part: u8, place: u64, barred: u64) -> u64
    requires { place < 2 ^ 40 }
    ensures { result ≡ (if nat_eq part left_part then place + offset_part else barred) }
{
    if part == 0 { place + 2 } else { barred }
}

// Whether relocations are in strictly rising order, and none of them has part 2 of a word after one
// with part 0 of this word.
#[tactic(auto, unfolding(crate::specs::ObjectSegment::are_rising))]
fn are_in_order(relocations: &[Reloc]) -> bool
    ensures { result ≡ are_in_order relocations.now }
{
    let mut least = 0;
    let mut barred = 3;
    let mut rest = relocations;
    while let [first, others @ ..] = rest {
        let place = order_number(first);
        if !may_follow(least, barred, place) {
            return false;
        }
        least = place + 1;
        barred = barred_after(first.part, place, barred);
        rest = others;
    }
    true
}

// Whether definitions, links and relocations may be those of an object.
pub(crate) fn are_good_tables(
    room: RelocationBounds,
    definitions: &Defs,
    links: &[Link],
    relocations: &[Reloc],
) -> bool
    ensures { result
        ≡ (list_all (is_valid_definition room.version) definitions.now
        && are_distinct (definition_names definitions.now)
        && list_all (is_valid_link room.version) links.now
        && list_all (is_valid_relocation room.text room.inner room.outer room.version)
        relocations.now
        && are_in_order relocations.now) }
{
    are_good_definitions(room.version, definitions.items())
        && definitions.has_distinct_names()
        && are_good_links(room.version, links)
        && are_good_relocations(room, relocations)
        && are_in_order(relocations)
}
