//! Assembles lines into an object.

ghost use Rattle.std.specs.Prelude.{[], ◌≡◌, ◌^◌, ◌<◌, length};
ghost use Rattle.std.specs.Prelude.{Option, None, Ok, IfOk, true};
ghost use Rattle.alm_parse.specs.Sources.{IsResultOf};
ghost use Rattle.alm_lines.specs.Spots.{start, HasRoomForLines};
ghost use Rattle.alm_asm.specs.LineValues.{values_from};
ghost use Rattle.obj36_parts.specs.ObjectSegment.{is_well_formed};
ghost use Rattle.alm_lines.specs.Layout.{layout_refusal};
ghost use Rattle.alm_lines.specs.Refusals.{earlier_refusal};
ghost use Rattle.alm_asm.specs.LineRefusals.{lines_refusal};
ghost use Rattle.alm_asm.specs.Links.{links_from};
ghost use Rattle.alm_asm.specs.Growth.{first_growth, growth_refusal};
ghost use Rattle.alm_asm.specs.Assembles.{Assembles};
ghost use Rattle.alm_asm.specs.Assembly.{parts_if_well_formed, first_link, tables_of, parts_with};
ghost use Rattle.alm_asm.specs.Assembly.{last_line};
ghost use Rattle.alm_asm.specs.Assembly.{refusal_in, unless_refused, assembled};

use crate::growth::growth_refusal;
use crate::line_refusal::lines_refusal;
use crate::parts::parts_with;
use crate::seen::{AllLineValues, LineValues, compute_values};
use crate::tables::Tables;
use alm_lines::count::Count;
use alm_lines::layout::layout_of;
use alm_lines::refusal::{AlmRefusal, earlier_refusal, fault_of};
use alm_lines::spot::{LocationCounter, end_of};
use alm_lines::symbols::Symbols;
use alm_parse::{AlmFault, Line36, Lines36};
use m36_word::NoMemory;
use obj36::{Links, Object, Parts};
use obj36_parts::sections::HEAD_WORDS;
use std::alloc::Global;

// The offset of the first link in the linkage section, given the place after the last line.
fn first_link(ending: LocationCounter) -> Count
    requires { HasRoomForLines 0 ending }
    ensures { result ≡ first_link ending }
{
    if ending.uses_outer {
        return Count::of(HEAD_WORDS as u128);
    }
    Count::of(HEAD_WORDS as u128 + (ending.inner + ending.inner % 2))
}

// The tables of lines, the values of the lines, and the first refusal of the layout: of the
// definition of a symbol or of the length of a section.
#[derive(Drop)]
struct TablesAndValues {
    tables: Tables,
    seen: AllLineValues,
    refused: Option<AlmRefusal>,
}

// The links of lines, and the values of the lines.
#[derive(Drop)]
struct LinksAndValues {
    links: Links,
    seen: AllLineValues,
}

// The links of the lines, and the values of each line with arguments.
fn links_and_values(
    alloc: Global,
    text: &[u8],
    symbols: &Symbols,
    lines: &[Line36],
) -> Result<LinksAndValues, NoMemory>
    requires { length lines.now < 2 ^ 32 }
    ensures links { IfOk result (λ linked.
        linked.links ≡ links_from text.now symbols.now [] start lines.now) }
    ensures seen { IfOk result (λ linked.
        linked.seen ≡ values_from text.now symbols.now linked.links start lines.now) }
{
    let mut links = Links::new(alloc, symbols.seed());
    match compute_values(alloc, text, symbols, &mut links, lines) {
        Ok(seen) => Ok(LinksAndValues { links, seen }),
        Err(fault) => {
            // Dropped explicitly, so that the drop is proved once for its type.
            drop(links);
            Err(fault)
        }
    }
}

// The tables of the lines, the values of each line with arguments, and the first refusal of the
// layout.
#[tactic(auto, unfolding(crate::specs::Assembly::tables_of))]
fn tables_and_values(
    alloc: Global,
    text: &[u8],
    lines: &[Line36],
) -> Result<TablesAndValues, NoMemory>
    requires { length lines.now < 2 ^ 32 }
    ensures tables { IfOk result (λ found. found.tables ≡ tables_of text.now lines.now) }
    ensures seen { IfOk result (λ found.
        found.seen
        ≡ values_from text.now found.tables.symbols found.tables.links start lines.now) }
    ensures links { IfOk result (λ found.
        found.tables.links ≡ links_from text.now found.tables.symbols [] start lines.now) }
    ensures refused { IfOk result (λ found.
        found.refused ≡ layout_refusal text.now None [] start lines.now) }
{
    let ending = end_of(alloc, text, lines)?;
    let layout = layout_of(alloc, text, lines)?;
    match links_and_values(alloc, text, &layout.symbols, lines) {
        Ok(linked) => Ok(TablesAndValues {
            tables: Tables {
                symbols: layout.symbols,
                links: linked.links,
                first_link: first_link(ending),
                uses_outer: ending.uses_outer,
            },
            seen: linked.seen,
            refused: layout.refused,
        }),
        Err(fault) => {
            // Dropped explicitly, so that the drop is proved once for its type.
            drop(layout);
            Err(fault)
        }
    }
}

// The first refusal in the order of the text. `found` is that of the layout.
fn first_refusal(
    alloc: Global,
    text: &[u8],
    found: Option<AlmRefusal>,
    tables: &Tables,
    lines: &[Line36],
    seen: &[LineValues],
) -> Result<Option<AlmRefusal>, NoMemory>
    requires count { length lines.now < 2 ^ 32 }
    requires seen { seen.now
        ≡ values_from text.now tables.now.symbols tables.now.links start lines.now }
    requires links { tables.now.links ≡ links_from text.now tables.now.symbols [] start lines.now }
    ensures { IfOk result (λ r.
        r
        ≡ earlier_refusal
        (earlier_refusal found (lines_refusal text.now tables.now [] start lines.now))
        (growth_refusal text.now tables.now.symbols first_growth start lines.now)) }
{
    let refused = lines_refusal(alloc, text, tables, lines, seen)?;
    let grown = growth_refusal(alloc, text, tables, lines, seen)?;
    Ok(earlier_refusal(earlier_refusal(found, refused), grown))
}

// The tables of lines, or the first refusal. Sets `seen` to the values of the lines.
#[tactic(auto, using(crate::proofs::AssemblyLaws::refuses_or_tables))]
fn tables_in(
    alloc: Global,
    text: &[u8],
    lines: &[Line36],
    seen: &mut AllLineValues,
) -> Result<Tables, AlmFault>
    requires { length lines.now < 2 ^ 32 }
    ensures seen { IfOk result (λ tables.
        seen.new ≡ values_from text.now tables.symbols tables.links start lines.now) }
    ensures says { IsResultOf result
        (unless_refused text.now lines.now (refusal_in text.now lines.now)) }
{
    let TablesAndValues {
        tables,
        seen: lines_seen,
        refused,
    } = tables_and_values(alloc, text, lines)?;
    *seen = lines_seen;
    match first_refusal(alloc, text, refused, &tables, lines, seen.items()) {
        Ok(None) => Ok(tables),
        Ok(Some(refusal)) => {
            // Dropped explicitly, so that the drop is proved once for its type.
            drop(tables);
            Err(fault_of(refusal))
        }
        Err(_) => {
            drop(tables);
            Err(AlmFault::NoMemory)
        }
    }
}

// The number of the last line, or 1 if there is none.
#[tactic(auto, unfolding(crate::specs::Assembly::last_line))]
fn last_line(lines: &[Line36]) -> u32
    ensures { result ≡ last_line 1 lines.now }
{
    let mut number = 1;
    let mut rest = lines;
    while let [line, more @ ..] = rest {
        number = line.line;
        rest = more;
    }
    number
}

// The object with these parts, which are well formed.
fn object_of_parts(alloc: Global, parts: Parts) -> Result<Object, AlmFault>
    requires { is_well_formed parts ≡ true }
    ensures { IsResultOf result (Ok parts) }
{
    Ok(Object::new(alloc, parts)?)
}

// The object with these parts if they are well formed; otherwise E8 at line `number`.
fn object_of(alloc: Global, parts: Parts, number: u32) -> Result<Object, AlmFault>
    ensures { IsResultOf result (parts_if_well_formed parts number (is_well_formed parts)) }
{
    if parts.is_object() {
        object_of_parts(alloc, parts)
    } else {
        // Dropped explicitly, so that the drop is proved once for its type.
        drop(parts);
        Err(AlmFault::E8(number, 1))
    }
}

// The object of lines with these tables and values.
fn object_with(
    alloc: Global,
    text: &[u8],
    tables: Tables,
    lines: &[Line36],
    seen: &[LineValues],
) -> Result<Object, AlmFault>
    requires count { length lines.now < 2 ^ 32 }
    requires seen { seen.now ≡ values_from text.now tables.symbols tables.links start lines.now }
    ensures { IsResultOf result
        (parts_if_well_formed (parts_with text.now tables lines.now) (last_line 1 lines.now)
        (is_well_formed (parts_with text.now tables lines.now))) }
{
    let parts = parts_with(alloc, text, tables, lines, seen)?;
    object_of(alloc, parts, last_line(lines))
}

// The object of lines, or the fault of the first refusal. Sets `seen` to the values of the lines.
fn assemble_with_values(
    alloc: Global,
    lines: &Lines36,
    seen: &mut AllLineValues,
) -> Result<Object, AlmFault>
    ensures { IsResultOf result (assembled lines.now) }
{
    let text = lines.text();
    let rows = lines.lines();
    match tables_in(alloc, text, rows, seen) {
        Ok(tables) => object_with(alloc, text, tables, rows, seen.items()),
        Err(fault) => Err(fault),
    }
}

// The object of lines, or the fault of the first refusal.
fn assemble_lines(alloc: Global, lines: &Lines36) -> Result<Object, AlmFault>
    ensures { IsResultOf result (assembled lines.now) }
{
    let mut seen = AllLineValues::new(alloc);
    let object = assemble_with_values(alloc, lines, &mut seen);
    // Dropped explicitly, so that the drop is proved once for its type.
    drop(seen);
    object
}

/// Assembles lines into an object. If a line is refused, the error is the first of the codes E5 to
/// E8 in the order of the text, and the least of them at one place. Otherwise, if there is no
/// object with these parts, it is E8 at the last line. For a source that was parsed, that is
/// exactly if the object would have more than 2^18 words ([`assembly_laws`](crate::assembly_laws)).
/// It may also be `NoMemory`.
#[tactic(auto, using(crate::proofs::Assembling::says_assembles))]
pub fn assemble(alloc: Global, lines: &Lines36) -> Result<Object, AlmFault>
    ensures says { IsResultOf result (assembled lines.now) }
    ensures assembles { IfOk result (λ parts. Assembles lines.now parts) }
{
    assemble_lines(alloc, lines)
}
