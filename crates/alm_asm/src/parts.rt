//! The parts of the object of lines, given their tables.

ghost use Rattle.std.specs.Prelude.{[], ◌≡◌, ◌^◌, ◌<◌, length, OnOk, IfOk};
ghost use Rattle.alm_lines.specs.Spots.{start};
ghost use Rattle.alm_asm.specs.LineValues.{values_from};
ghost use Rattle.obj36_parts.specs.declared.section.Section.TheVariants.{Text};
ghost use Rattle.alm_asm.specs.Words.{words_from};
ghost use Rattle.alm_asm.specs.Definitions.{definitions_from};
ghost use Rattle.alm_asm.specs.Parts.{parts_from_tables};
ghost use Rattle.alm_asm.specs.Assembly.{bound_after_line, bound_from, static_section};
ghost use Rattle.alm_asm.specs.Assembly.{relocations_of, padded_statics, parts_with};

use crate::definitions::definitions_of;
use crate::relocations::push_relocations_in;
use crate::seen::LineValues;
use crate::tables::Tables;
use crate::words::words_in;
use alm_lines::spot::{LocationCounter, next_line_spot};
use alm_parse::{Line36, LineEffect};
use m36_word::{NoMemory, Words};
use obj36::{Defs, Parts, Relocs, Section};
use obj36_parts::sections::{pad_to_even, version_of};
use std::alloc::Global;

// The entry bound after a line: its place in the text, if it is an `entrybound` line, or else the
// bound so far.
fn bound_after_line(spot: LocationCounter, bound: u32, deed: LineEffect) -> u32
    requires { bound < 2 ^ 18 }
    ensures value { result ≡ bound_after_line spot bound deed }
    ensures bound { result < 2 ^ 18 }
{
    match deed {
        LineEffect::Bound => (spot.text % (1 << 18)) as u32,
        LineEffect::Nothing
        | LineEffect::Instruction(_, _)
        | LineEffect::Entry
        | LineEffect::Segdef
        | LineEffect::Equ
        | LineEffect::Use
        | LineEffect::Words
        | LineEffect::Zero
        | LineEffect::Block
        | LineEffect::Even => bound,
    }
}

// The entry bound of the lines.
#[tactic(auto, using(alm_lines::proofs::Rooms::rooms), unfolding(crate::specs::Assembly::bound_from))]
fn bound_of(alloc: Global, text: &[u8], lines: &[Line36]) -> Result<u32, NoMemory>
    requires { length lines.now < 2 ^ 32 }
    ensures value { IfOk result (λ bound. bound ≡ bound_from text.now 0 start lines.now) }
    ensures bound { IfOk result (λ bound. bound < 2 ^ 18) }
{
    let mut bound = 0;
    let mut spot = LocationCounter::start();
    let mut rest = lines;
    while let [line, more @ ..] = rest {
        bound = bound_after_line(spot, bound, line.deed);
        spot = next_line_spot(alloc, text, spot, line)?;
        rest = more;
    }
    Ok(bound)
}

// The section that has the static words, by whether the lines use a static section.
fn static_section(uses_outer: bool) -> Section
    ensures { result ≡ static_section uses_outer }
{
    if uses_outer {
        Section::Static
    } else {
        Section::Linkage
    }
}

// In version 1 adds a zero word to an odd number of static words.
fn pad_statics(uses_outer: bool, words: &mut Words) -> Result<(), NoMemory>
    ensures { OnOk result (words.new ≡ padded_statics uses_outer words.old) }
{
    if uses_outer {
        return Ok(());
    }
    pad_to_even(words)
}

// The static words of the object of the lines.
fn statics_of(
    alloc: Global,
    text: &[u8],
    tables: &Tables,
    lines: &[Line36],
    seen: &[LineValues],
) -> Result<Words, NoMemory>
    requires count { length lines.now < 2 ^ 32 }
    requires seen { seen.now
        ≡ values_from text.now tables.now.symbols tables.now.links start lines.now }
    ensures { IfOk result (λ words.
        words
        ≡ padded_statics tables.now.uses_outer
        (words_from text.now tables.now (static_section tables.now.uses_outer) [] start
        lines.now)) }
{
    let section = static_section(tables.uses_outer);
    let mut words = words_in(alloc, text, tables, section, lines, seen)?;
    pad_statics(tables.uses_outer, &mut words)?;
    Ok(words)
}

// The relocations of lines: those of the text, and then those of the static words.
fn relocations_of(
    alloc: Global,
    text: &[u8],
    tables: &Tables,
    lines: &[Line36],
    seen: &[LineValues],
) -> Result<Relocs, NoMemory>
    requires count { length lines.now < 2 ^ 32 }
    requires seen { seen.now
        ≡ values_from text.now tables.now.symbols tables.now.links start lines.now }
    ensures { IfOk result (λ marks. marks ≡ relocations_of text.now tables.now lines.now) }
{
    let mut marks = Relocs::new(alloc);
    let section = static_section(tables.uses_outer);
    push_relocations_in(alloc, text, tables, Section::Text, lines, seen, &mut marks)?;
    push_relocations_in(alloc, text, tables, section, lines, seen, &mut marks)?;
    Ok(marks)
}

/// The words of the text, and the static words.
#[derive(Drop)]
struct PlacedWords {
    text: Words,
    statics: Words,
}

// The text and the static words of the object of the lines.
fn placed_words(
    alloc: Global,
    text: &[u8],
    tables: &Tables,
    lines: &[Line36],
    seen: &[LineValues],
) -> Result<PlacedWords, NoMemory>
    requires count { length lines.now < 2 ^ 32 }
    requires seen { seen.now
        ≡ values_from text.now tables.now.symbols tables.now.links start lines.now }
    ensures text { IfOk result (λ placed.
        placed.text ≡ words_from text.now tables.now Text [] start lines.now) }
    ensures statics { IfOk result (λ placed.
        placed.statics
        ≡ padded_statics tables.now.uses_outer
        (words_from text.now tables.now (static_section tables.now.uses_outer) [] start
        lines.now)) }
{
    let words = words_in(alloc, text, tables, Section::Text, lines, seen)?;
    let statics = statics_of(alloc, text, tables, lines, seen)?;
    Ok(PlacedWords {
        text: words,
        statics,
    })
}

/// The definitions and the relocations.
#[derive(Drop)]
struct DefinitionsAndRelocations {
    definitions: Defs,
    relocations: Relocs,
}

// The definitions and the relocations of the object of the lines.
fn definitions_and_relocations(
    alloc: Global,
    text: &[u8],
    tables: &Tables,
    lines: &[Line36],
    seen: &[LineValues],
) -> Result<DefinitionsAndRelocations, NoMemory>
    requires count { length lines.now < 2 ^ 32 }
    requires seen { seen.now
        ≡ values_from text.now tables.now.symbols tables.now.links start lines.now }
    ensures definitions { IfOk result (λ noted.
        noted.definitions ≡ definitions_from text.now tables.now.symbols [] lines.now) }
    ensures relocations { IfOk result (λ noted.
        noted.relocations ≡ relocations_of text.now tables.now lines.now) }
{
    let definitions = definitions_of(alloc, text, &tables.symbols, lines)?;
    let relocations = relocations_of(alloc, text, tables, lines, seen)?;
    Ok(DefinitionsAndRelocations {
        definitions,
        relocations,
    })
}

/// All that the lines place in an object except the links.
#[derive(Drop)]
struct Contents {
    placed: PlacedWords,
    noted: DefinitionsAndRelocations,
    entry_bound: u32,
}

// The parts of the object, which take the links from the tables.
fn parts_of(tables: Tables, contents: Contents) -> Parts
    requires { contents.entry_bound < 2 ^ 18 }
    ensures { result ≡ parts_from_tables tables contents.placed contents.noted
        contents.entry_bound }
{
    Parts {
        text: contents.placed.text,
        statics: contents.placed.statics,
        definitions: contents.noted.definitions,
        links: tables.links,
        relocations: contents.noted.relocations,
        entry_bound: contents.entry_bound,
        version: version_of(tables.uses_outer),
    }
}

// What the lines place in an object except the links, given their tables.
#[tactic(auto, unfolding(crate::specs::Assembly::parts_with))]
fn contents_of(
    alloc: Global,
    text: &[u8],
    tables: &Tables,
    lines: &[Line36],
    seen: &[LineValues],
) -> Result<Contents, NoMemory>
    requires count { length lines.now < 2 ^ 32 }
    requires seen { seen.now
        ≡ values_from text.now tables.now.symbols tables.now.links start lines.now }
    ensures bound { IfOk result (λ contents. contents.entry_bound < 2 ^ 18) }
    ensures parts { IfOk result (λ contents.
        parts_from_tables tables.now contents.placed contents.noted contents.entry_bound
        ≡ parts_with text.now tables.now lines.now) }
{
    let entry_bound = bound_of(alloc, text, lines)?;
    let placed = placed_words(alloc, text, tables, lines, seen)?;
    let noted = definitions_and_relocations(alloc, text, tables, lines, seen)?;
    Ok(Contents {
        placed,
        noted,
        entry_bound,
    })
}

// The parts of the object of lines with these tables and values.
pub(crate) fn parts_with(
    alloc: Global,
    text: &[u8],
    tables: Tables,
    lines: &[Line36],
    seen: &[LineValues],
) -> Result<Parts, NoMemory>
    requires count { length lines.now < 2 ^ 32 }
    requires seen { seen.now ≡ values_from text.now tables.symbols tables.links start lines.now }
    ensures { IfOk result (λ parts. parts ≡ parts_with text.now tables lines.now) }
{
    match contents_of(alloc, text, &tables, lines, seen) {
        Ok(contents) => Ok(parts_of(tables, contents)),
        Err(fault) => {
            // Dropped explicitly, so that the drop is proved once for its type.
            drop(tables);
            Err(fault)
        }
    }
}
