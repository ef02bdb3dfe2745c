//! Links: the external operands of instructions, each once, in the order of their first use.

ghost use Rattle.std.specs.Prelude.{[], ◌≡◌, ◌+◌, ◌*◌, ◌^◌, ◌<◌, ◌≤◌, ◌↔◌, true, length, Option};
ghost use Rattle.std.specs.Prelude.{OnOk, IfOk, position, unwrap_or};
ghost use Rattle.obj36_parts.specs.ObjectSegment.{link_offset};
ghost use Rattle.obj36_parts.specs.Indexes.{same_link, has_link};
ghost use Rattle.alm_asm.specs.LineValues.{index_in_links};
ghost use Rattle.alm_lines.specs.Arguments.{name_at, first_arg, terms_in};
ghost use Rattle.alm_lines.specs.Values.{value_of_expression};
ghost use Rattle.obj36_parts.specs.Sections.{same_section};
ghost use Rattle.alm_asm.specs.Links.{link_kind, link_section, link_name, entry_name};
ghost use Rattle.alm_asm.specs.Links.{link_of, operand_args, link_of_parts, link_in, with_link};
ghost use Rattle.alm_asm.specs.Links.{links_after, offset_of_link_in};

use alm_lines::arguments::name_at;
use alm_lines::count::Count;
use alm_lines::refusal::ValueField;
use alm_lines::spot::LocationCounter;
use alm_lines::symbols::Symbols;
use alm_lines::value::{Value, evaluated_has_value};
use alm_parse::{Arg, Line36, LineEffect, Span, Term, own_section};
use m36_text::Name;
use m36_word::NoMemory;
use obj36::{Link, Links, Section};
use obj36_parts::sections::section_number;

// The type of a link: to a section of the object itself (1, or 5 with an entry) or to another
// segment (3, or 4 with an entry).
fn link_kind(own: Option<Section>, entry: Option<Span>) -> u8
    ensures { result ≡ link_kind own entry }
{
    match (own, entry) {
        (Some(_), None) => 1,
        (Some(_), Some(_)) => 5,
        (None, None) => 3,
        (None, Some(_)) => 4,
    }
}

// The section of a link to the object itself; otherwise the text, which has no meaning.
fn link_section(own: Option<Section>) -> Section
    ensures { result ≡ link_section own }
{
    match own {
        Some(section) => section,
        None => Section::Text,
    }
}

// The name of the segment of a link; empty for a link to the object itself.
fn link_name(own: Option<Section>, text: &[u8], segment: Span) -> Name
    ensures { result ≡ link_name own (name_at text.now segment) }
{
    match own {
        Some(_) => Name::default(),
        None => name_at(text, segment),
    }
}

// The name of the entry of a link; empty if it has none.
fn entry_name(text: &[u8], entry: Option<Span>) -> Name
    ensures { result ≡ entry_name text.now entry }
{
    match entry {
        Some(span) => name_at(text, span),
        None => Name::default(),
    }
}

/// The link of an external operand. `value` is that of its expression.
#[tactic(auto, unfolding(crate::specs::Links::link_of, alm_lines::specs::Values::value_of_expression))]
pub fn link_of(
    text: &[u8],
    _symbols: &Symbols,
    _spot: LocationCounter,
    segment: Span,
    entry: Option<Span>,
    _terms: &[Term],
    tag: u8,
    value: Value,
) -> Link
    requires { value ≡ value_of_expression text.now _symbols.now _spot _terms.now }
    ensures { result ≡ link_of text.now _symbols.now _spot segment entry _terms.now tag }
{
    let own = own_section(text, segment);
    Link {
        name: link_name(own, text, segment),
        entry: entry_name(text, entry),
        expr: value.half,
        kind: link_kind(own, entry),
        section: link_section(own),
        modifier: tag % (1 << 6),
    }
}

// The link of an external operand. None if its expression has no value.
fn external_link(
    text: &[u8],
    symbols: &Symbols,
    spot: LocationCounter,
    segment: Span,
    entry: Option<Span>,
    terms: &[Term],
    tag: u8,
    value: Value,
) -> Option<Link>
    requires { value ≡ value_of_expression text.now symbols.now spot terms.now }
    ensures { result
        ≡ link_of_parts text.now symbols.now spot (Option.Some segment) entry terms.now tag }
{
    if !evaluated_has_value(text, symbols, spot, terms, ValueField::Half, false, value) {
        return None;
    }
    Some(link_of(text, symbols, spot, segment, entry, terms, tag, value))
}

// The link of the operand of an instruction. None if it is not external or its expression has no
// value.
fn link_in(
    text: &[u8],
    symbols: &Symbols,
    spot: LocationCounter,
    args: &[Arg],
    value: Value,
) -> Option<Link>
    requires { value ≡ value_of_expression text.now symbols.now spot
        (terms_in (first_arg args.now)) }
    ensures { result ≡ link_in text.now symbols.now spot (first_arg args.now) }
{
    match args {
        [
            Arg::Operand {
                pr: _,
                seg: Some(segment),
                entry,
                expr,
                tag,
            },
            ..
        ] => {
            let terms = expr.items();
            external_link(text, symbols, spot, *segment, *entry, terms, *tag, value)
        }
        _ => None,
    }
}

/// Whether two sections are the same.
pub fn same_section(a: Section, b: Section) -> bool
    ensures value { result ≡ same_section a b }
    ensures decides { (result ≡ true) ↔ (a ≡ b) }
{
    section_number(a) == section_number(b)
}

// Adds a link, unless the list has it. Returns the index of the link.
fn add_link(links: &mut Links, link: Link) -> Result<u64, NoMemory>
    ensures links { OnOk result (links.new ≡ with_link links.old (Option.Some link)) }
    ensures place { IfOk result (λ place. position (same_link link) links.new ≡ Option.Some place) }
{
    if let Some(place) = links.index_of(&link) {
        return Ok(place);
    }
    let place = links.items().len() as u64;
    links.push(link)?;
    Ok(place)
}

// Adds the link of an operand, if it has one. Returns the index of the link.
fn add_operand_link(links: &mut Links, link: Option<Link>) -> Result<Option<u64>, NoMemory>
    ensures links { OnOk result (links.new ≡ with_link links.old link) }
    ensures place { IfOk result (λ place. place ≡ index_in_links links.new link) }
{
    match link {
        None => Ok(None),
        Some(link) => {
            let place = add_link(links, link)?;
            Ok(Some(place))
        }
    }
}

/// Adds the link of a line, if it has one, and returns the index of the link. `value` is that of
/// the first argument. Fails only with `NoMemory`.
#[tactic(auto, unfolding(crate::specs::Links::links_after))]
pub fn add_link_of_line(
    text: &[u8],
    symbols: &Symbols,
    links: &mut Links,
    spot: LocationCounter,
    line: &Line36,
    value: Value,
) -> Result<Option<u64>, NoMemory>
    requires { value ≡ value_of_expression text.now symbols.now spot
        (terms_in (first_arg line.now.args)) }
    ensures links { OnOk result
        (links.new ≡ links_after text.now symbols.now links.old spot line.now) }
    ensures place { IfOk result (λ place.
        place
        ≡ index_in_links links.new
        (link_in text.now symbols.now spot
        (first_arg (operand_args line.now.deed line.now.args)))) }
{
    match line.deed {
        LineEffect::Instruction(_, _) => {
            let link = link_in(text, symbols, spot, line.args.items(), value);
            add_operand_link(links, link)
        }
        LineEffect::Nothing
        | LineEffect::Entry
        | LineEffect::Segdef
        | LineEffect::Equ
        | LineEffect::Use
        | LineEffect::Words
        | LineEffect::Zero
        | LineEffect::Block
        | LineEffect::Even
        | LineEffect::Bound => Ok(None),
    }
}

/// The offset in the linkage section of the link with this index, counted from 0; that of the first
/// link if there is no index. `first` is the offset of the first link.
pub fn offset_of_link(first: Count, place: Option<u64>) -> u128
    ensures { result ≡ link_offset first (unwrap_or place 0) }
{
    first.value() + 2 * (place.unwrap_or(0) as u128)
}

/// The offset of a link in the linkage section. `first` is the offset of the first link. A link
/// that the list does not have counts as the first. Each link of the list is within the words of
/// the links.
#[tactic(auto, unfolding(crate::specs::Links::offset_of_link_in))]
pub fn offset_of_link_in(links: &Links, first: Count, link: &Link) -> u128
    ensures value { result ≡ offset_of_link_in links.now first link.now }
    ensures least { first ≤ result }
    ensures within { has_link link.now links.now ≡ true
        → result + 2 ≤ first + 2 * length links.now }
{
    let index = links.index_of(link).unwrap_or(0) as u128;
    first.value() + 2 * index
}
