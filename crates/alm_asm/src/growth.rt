//! Finds the first line with which the definition, linkage or symbol section is too long.

ghost use Rattle.std.specs.Prelude.{false, [], ◌∷◌, ◌≡◌, ◌+◌, ◌*◌, ◌^◌, ◌<◌};
ghost use Rattle.std.specs.Prelude.{◌≤◌, length, if◌then◌else◌, Option, OnOk, IfOk};
ghost use Rattle.obj36_parts.specs.ObjectSegment.{section_limit};
ghost use Rattle.alm_lines.specs.Arguments.{first_arg, terms_in};
ghost use Rattle.alm_lines.specs.Values.{value_of_expression};
ghost use Rattle.alm_asm.specs.LineValues.{index_in_links, is_below, values_from, AreFirst};
ghost use Rattle.alm_lines.specs.Spots.{start, next_line_spot};
ghost use Rattle.alm_asm.specs.Links.{operand_args, link_of_parts, link_in, links_from};
ghost use Rattle.alm_asm.specs.Definitions.{defines_entries};
ghost use Rattle.alm_asm.specs.Growth.{GrowsAtMost, first_growth, with_name, with_names};
ghost use Rattle.alm_asm.specs.Growth.{with_definition};
ghost use Rattle.alm_asm.specs.Growth.{with_arg, with_args, with_definitions};
ghost use Rattle.alm_asm.specs.Growth.{with_new_link, with_link_once, with_link_if_any};
ghost use Rattle.alm_asm.specs.Growth.{relocation_count, operand_field, is_internal, operand_count};
ghost use Rattle.alm_asm.specs.Growth.{half_count};
ghost use Rattle.alm_asm.specs.Growth.{line_relocation_count, with_relocations, growth_after_line};
ghost use Rattle.alm_asm.specs.Growth.{has_section_over_limit, growth_refusal};

use crate::definitions::{defines_entries, sum_refusal};
use crate::line_refusal::internal_operand_field;
use crate::links::link_of;
use crate::relocations::operand_value_kind;
use crate::seen::{LineValues, next_values};
use crate::tables::Tables;
use alm_lines::arguments::{first_terms, name_at, second_terms};
use alm_lines::refusal::{AlmCode, AlmRefusal, ValueField, is_over_limit, refusal_at};
use alm_lines::spot::{LocationCounter, next_line_spot};
use alm_lines::sum::{Kind, absolute};
use alm_lines::symbols::Symbols;
use alm_lines::value::{Value, evaluate, evaluated_has_value, evaluated_kind};
use alm_parse::{Arg, Line36, LineEffect, Span, Term};
use m36_text::{HashSeed, Name};
use m36_word::NoMemory;
use obj36::{Link, Links};
use obj36_parts::names::{kind_has_entry, kind_has_name};
use obj36_parts::sections::HEAD_WORDS;
use std::alloc::Global;

/// The sizes of these sections with the lines so far: the names that are used and those that are
/// defined, each once (their sums have no meaning), the links, and the numbers of words of the
/// definition and the symbol section.
#[derive(Drop)]
pub struct Growth {
    pub names: Symbols,
    pub defined: Symbols,
    pub links: Links,
    pub definition: u128,
    pub symbol: u128,
}

impl Growth {
    // The sizes before the first line.
    fn start(alloc: Global, seed: HashSeed) -> Growth
        ensures { result ≡ first_growth }
    {
        Growth {
            names: Symbols::new(alloc, seed),
            defined: Symbols::new(alloc, seed),
            links: Links::new(alloc, seed),
            definition: 2,
            symbol: 1,
        }
    }

    // Counts the words of a name, unless they were counted before.
    #[tactic(auto, unfolding(crate::specs::Growth::with_name, obj36_parts::specs::Names::name_size))]
    fn add_name(&mut self, name: Name) -> Result<(), NoMemory>
        requires { self.old.definition ≤ 2 ^ 80 }
        ensures value { OnOk result (self.new ≡ with_name self.old name) }
        ensures larger { OnOk result (GrowsAtMost 9 self.old self.new) }
    {
        if self.names.find(&name).is_some() {
            return Ok(());
        }
        self.definition += name.bytes().len() as u128 / 4 + 1;
        self.names.define(name, absolute(0))
    }

    // Counts a name that a link uses.
    #[tactic(auto, unfolding(crate::specs::Growth::with_names))]
    fn add_name_if_used(&mut self, is_used: bool, name: Name) -> Result<(), NoMemory>
        requires { self.old.definition ≤ 2 ^ 80 }
        ensures value { OnOk result
            (self.new ≡ with_names self.old (if is_used then name ∷ [] else [])) }
        ensures larger { OnOk result (GrowsAtMost 9 self.old self.new) }
    {
        if is_used {
            return self.add_name(name);
        }
        Ok(())
    }

    // Counts a definition and its name, unless the name was defined before.
    #[tactic(auto, unfolding(crate::specs::Growth::with_definition))]
    fn add_definition(&mut self, name: Name) -> Result<(), NoMemory>
        requires { self.old.definition ≤ 2 ^ 79 }
        ensures value { OnOk result (self.new ≡ with_definition self.old name) }
        ensures larger { OnOk result (GrowsAtMost 11 self.old self.new) }
    {
        if self.defined.find(&name).is_some() {
            return Ok(());
        }
        self.defined.define(name.copied(), absolute(0))?;
        self.definition += 2;
        self.add_name(name)
    }

    // Counts a link and its names.
    #[tactic(auto, using(crate::proofs::GrowthLaws::names_then), unfolding(crate::specs::Growth::with_new_link, obj36_parts::specs::ObjectSegment::link_names, obj36_parts::specs::ObjectSegment::name_used, obj36_parts::specs::ObjectSegment::entry_used))]
    fn add_new_link(&mut self, link: Link) -> Result<(), NoMemory>
        requires { self.old.definition ≤ 2 ^ 79 }
        ensures value { OnOk result (self.new ≡ with_new_link self.old link) }
        ensures symbol { OnOk result (self.new.symbol ≡ self.old.symbol) }
    {
        let kind = link.kind as u64;
        let name = link.name.copied();
        let entry = link.entry.copied();
        self.links.push(link)?;
        self.definition += 2;
        self.add_name_if_used(kind_has_name(kind), name)?;
        self.add_name_if_used(kind_has_entry(kind), entry)
    }

    // Counts a link and its names, unless the link was counted before.
    #[tactic(auto, unfolding(crate::specs::Growth::with_link_once))]
    fn add_link(&mut self, link: Link) -> Result<(), NoMemory>
        requires { self.old.definition ≤ 2 ^ 79 }
        ensures value { OnOk result (self.new ≡ with_link_once self.old link) }
        ensures symbol { OnOk result (self.new.symbol ≡ self.old.symbol) }
    {
        if self.links.has(&link) {
            return Ok(());
        }
        self.add_new_link(link)
    }

    // Whether one of these sections is too long, if the next line is at `spot`.
    #[tactic(auto, unfolding(crate::specs::Growth::has_section_over_limit))]
    fn has_section_over_limit(&self, spot: LocationCounter) -> bool
        ensures value { result ≡ has_section_over_limit spot self.now }
        ensures definition { result ≡ false → self.now.definition ≤ section_limit }
        ensures symbol { result ≡ false → self.now.symbol ≤ section_limit }
    {
        let links = self.links.items().len() as u128;
        let linkage = HEAD_WORDS as u128 + spot.inner + 2 * links;
        is_over_limit(self.definition) || is_over_limit(linkage) || is_over_limit(self.symbol)
    }
}

// Counts the definition that an argument gives, unless it is refused.
fn count_arg(
    text: &[u8],
    symbols: &Symbols,
    line: &Line36,
    is_entry: bool,
    growth: &mut Growth,
    arg: &Arg,
) -> Result<(), NoMemory>
    requires { growth.old.definition ≤ 2 ^ 79 }
    ensures value { OnOk result
        (growth.new ≡ with_arg text.now symbols.now line.now is_entry growth.old arg.now) }
    ensures larger { OnOk result (GrowsAtMost 11 growth.old growth.new) }
{
    match arg {
        Arg::Symbol(span) => {
            let name = name_at(text, *span);
            match sum_refusal(line, span.from as u64, is_entry, symbols.find(&name)) {
                Some(_) => Ok(()),
                None => growth.add_definition(name),
            }
        }
        _ => Ok(()),
    }
}

// Counts the definitions that the arguments of a line give. A line has fewer than 2^64 arguments,
// so the number of words does not overflow.
#[tactic(auto, using(crate::proofs::GrowthLaws::larger_more), unfolding(crate::specs::Growth::with_args))]
fn count_args(
    text: &[u8],
    symbols: &Symbols,
    line: &Line36,
    is_entry: bool,
    growth: &mut Growth,
) -> Result<(), NoMemory>
    requires { growth.old.definition ≤ 2 ^ 18 }
    ensures larger { OnOk result (GrowsAtMost (11 * 2 ^ 64) growth.old growth.new) }
    ensures value { OnOk result
        (growth.new ≡ with_args text.now symbols.now line.now is_entry growth.old line.now.args) }
{
    let mut rest = line.args.items();
    while let [arg, more @ ..] = rest {
        count_arg(text, symbols, line, is_entry, growth, arg)?;
        rest = more;
    }
    Ok(())
}

// Counts the definitions of a line.
fn count_definitions(
    text: &[u8],
    symbols: &Symbols,
    line: &Line36,
    growth: &mut Growth,
) -> Result<(), NoMemory>
    requires { growth.old.definition ≤ 2 ^ 18 }
    ensures larger { OnOk result (GrowsAtMost (11 * 2 ^ 64) growth.old growth.new) }
    ensures value { OnOk result
        (growth.new
        ≡ with_definitions text.now symbols.now line.now growth.old
        (defines_entries line.now.deed)) }
{
    match defines_entries(line.deed) {
        None => Ok(()),
        Some(is_entry) => count_args(text, symbols, line, is_entry, growth),
    }
}

// Whether a link has an index, and this is below `count`.
fn is_index_below(place: Option<u64>, count: usize) -> bool
    ensures { result ≡ is_below place count }
{
    match place {
        Some(place) => place < count as u64,
        None => false,
    }
}

// Counts the link of an external operand.
#[tactic(auto, using(crate::proofs::SeenLaws::noted_is), unfolding(crate::specs::Growth::with_link_once))]
fn count_external(
    text: &[u8],
    symbols: &Symbols,
    _links: &Links,
    spot: LocationCounter,
    growth: &mut Growth,
    segment: Span,
    entry: Option<Span>,
    terms: &[Term],
    tag: u8,
    value: Value,
    place: Option<u64>,
) -> Result<(), NoMemory>
    requires room { growth.old.definition ≤ 2 ^ 79 }
    requires value { value ≡ value_of_expression text.now symbols.now spot terms.now }
    requires place { place
        ≡ index_in_links _links.now
        (link_of_parts text.now symbols.now spot (Option.Some segment) entry terms.now tag) }
    requires first { AreFirst growth.old.links _links.now }
    ensures symbol { OnOk result (growth.new.symbol ≡ growth.old.symbol) }
    ensures value { OnOk result
        (growth.new
        ≡ with_link_if_any growth.old
        (link_of_parts text.now symbols.now spot (Option.Some segment) entry terms.now tag)) }
{
    if !evaluated_has_value(text, symbols, spot, terms, ValueField::Half, false, value) {
        return Ok(());
    }
    if is_index_below(place, growth.links.items().len()) {
        return Ok(());
    }
    let link = link_of(text, symbols, spot, segment, entry, terms, tag, value);
    growth.add_link(link)
}

// Counts the link of an operand, if it has one.
fn count_operand(
    text: &[u8],
    symbols: &Symbols,
    _links: &Links,
    spot: LocationCounter,
    args: &[Arg],
    value: Value,
    place: Option<u64>,
    growth: &mut Growth,
) -> Result<(), NoMemory>
    requires room { growth.old.definition ≤ 2 ^ 79 }
    requires value { value ≡ value_of_expression text.now symbols.now spot
        (terms_in (first_arg args.now)) }
    requires place { place
        ≡ index_in_links _links.now (link_in text.now symbols.now spot (first_arg args.now)) }
    requires first { AreFirst growth.old.links _links.now }
    ensures symbol { OnOk result (growth.new.symbol ≡ growth.old.symbol) }
    ensures value { OnOk result
        (growth.new
        ≡ with_link_if_any growth.old (link_in text.now symbols.now spot (first_arg args.now))) }
{
    match args {
        [
            Arg::Operand {
                pr: _,
                seg: Some(segment),
                entry,
                expr,
                tag,
            },
            ..
        ] => {
            let terms = expr.items();
            count_external(
                text, symbols, _links, spot, growth, *segment, *entry, terms, *tag, value, place,
            )
        }
        _ => Ok(()),
    }
}

// Counts the link of a line, if it has one.
fn count_link(
    text: &[u8],
    symbols: &Symbols,
    _links: &Links,
    spot: LocationCounter,
    line: &Line36,
    value: Value,
    place: Option<u64>,
    growth: &mut Growth,
) -> Result<(), NoMemory>
    requires room { growth.old.definition ≤ 2 ^ 79 }
    requires value { value
        ≡ value_of_expression text.now symbols.now spot (terms_in (first_arg line.now.args)) }
    requires place { place
        ≡ index_in_links _links.now
        (link_in text.now symbols.now spot (first_arg (operand_args line.now.deed line.now.args))) }
    requires first { AreFirst growth.old.links _links.now }
    ensures symbol { OnOk result (growth.new.symbol ≡ growth.old.symbol) }
    ensures value { OnOk result
        (growth.new
        ≡ with_link_if_any growth.old
        (link_in text.now symbols.now spot
        (first_arg (operand_args line.now.deed line.now.args)))) }
{
    match line.deed {
        LineEffect::Instruction(_, _) => {
            let args = line.args.items();
            count_operand(text, symbols, _links, spot, args, value, place, growth)
        }
        LineEffect::Nothing
        | LineEffect::Entry
        | LineEffect::Segdef
        | LineEffect::Equ
        | LineEffect::Use
        | LineEffect::Words
        | LineEffect::Zero
        | LineEffect::Block
        | LineEffect::Even
        | LineEffect::Bound => Ok(()),
    }
}

// The number of relocations of an expression: 1 if it has a value and is a place of a section.
fn relocation_count(has_value: bool, kind: Kind) -> u64
    ensures value { result ≡ relocation_count has_value kind }
    ensures bound { result ≤ 1 }
{
    match kind {
        Kind::Moved(_) => has_value as u64,
        Kind::Absolute | Kind::Inexpressible => 0,
    }
}

// The field that the expression of an operand must fit. After an external name it is a half.
fn operand_field(pr: Option<u8>, segment: Option<Span>) -> ValueField
    ensures { result ≡ operand_field pr segment }
{
    match segment {
        Some(_) => ValueField::Half,
        None => internal_operand_field(pr),
    }
}

// Whether the expression of an operand may be a place of a section: after an external name it must
// be a number.
fn is_internal(segment: Option<Span>) -> bool
    ensures { result ≡ is_internal segment }
{
    match segment {
        Some(_) => false,
        None => true,
    }
}

// The number of relocations of the operand of an instruction.
fn operand_count(
    text: &[u8],
    symbols: &Symbols,
    spot: LocationCounter,
    args: &[Arg],
    value: Value,
) -> u64
    requires { value ≡ value_of_expression text.now symbols.now spot
        (terms_in (first_arg args.now)) }
    ensures value { result ≡ operand_count text.now symbols.now spot (first_arg args.now) }
    ensures bound { result ≤ 1 }
{
    match args {
        [
            Arg::Operand {
                pr,
                seg,
                entry: _,
                expr,
                tag: _,
            },
            ..
        ] => {
            let terms = expr.items();
            let room = operand_field(*pr, *seg);
            let has_value = evaluated_has_value(
                text,
                symbols,
                spot,
                terms,
                room,
                is_internal(*seg),
                value,
            );
            let kind = evaluated_kind(text, symbols, spot, terms, value);
            relocation_count(has_value, operand_value_kind(*seg, kind))
        }
        _ => 0,
    }
}

// The number of relocations of an expression that is a half of a word.
fn half_count(
    text: &[u8],
    symbols: &Symbols,
    spot: LocationCounter,
    terms: &[Term],
    value: Value,
) -> u64
    requires { value ≡ value_of_expression text.now symbols.now spot terms.now }
    ensures value { result ≡ half_count text.now symbols.now spot terms.now }
    ensures bound { result ≤ 1 }
{
    let has_value = evaluated_has_value(text, symbols, spot, terms, ValueField::Half, true, value);
    relocation_count(has_value, evaluated_kind(text, symbols, spot, terms, value))
}

// The number of relocations of the words that a line places.
fn line_relocation_count(
    text: &[u8],
    symbols: &Symbols,
    spot: LocationCounter,
    line: &Line36,
    value: Value,
) -> u64
    requires { value ≡ value_of_expression text.now symbols.now spot
        (terms_in (first_arg line.now.args)) }
    ensures value { result ≡ line_relocation_count text.now symbols.now spot line.now.args
        line.now.deed }
    ensures bound { result ≤ 2 }
{
    let args = line.args.items();
    match line.deed {
        LineEffect::Instruction(_, _) => operand_count(text, symbols, spot, args, value),
        LineEffect::Zero => {
            let second = second_terms(args);
            let other = evaluate(text, symbols, spot, second);
            let left = half_count(text, symbols, spot, first_terms(args), value);
            let right = half_count(text, symbols, spot, second, other);
            left + right
        }
        LineEffect::Nothing
        | LineEffect::Entry
        | LineEffect::Segdef
        | LineEffect::Equ
        | LineEffect::Use
        | LineEffect::Words
        | LineEffect::Block
        | LineEffect::Even
        | LineEffect::Bound => 0,
    }
}

// Counts the relocations of a line.
#[tactic(auto, unfolding(crate::specs::Growth::with_relocations))]
fn count_relocations(
    text: &[u8],
    symbols: &Symbols,
    spot: LocationCounter,
    line: &Line36,
    value: Value,
    growth: &mut Growth,
)
    requires room { growth.old.symbol ≤ 2 ^ 18 }
    requires value { value
        ≡ value_of_expression text.now symbols.now spot (terms_in (first_arg line.now.args)) }
    ensures { growth.new ≡ with_relocations text.now symbols.now spot line.now growth.old }
{
    growth.symbol += line_relocation_count(text, symbols, spot, line, value) as u128;
}

// Counts the definitions, the link and the relocations of a line.
#[tactic(auto, unfolding(crate::specs::Growth::growth_after_line))]
fn count_line(
    text: &[u8],
    symbols: &Symbols,
    links: &Links,
    spot: LocationCounter,
    line: &Line36,
    _more: &[Line36],
    seen: &LineValues,
    growth: &mut Growth,
) -> Result<(), NoMemory>
    requires value { seen.now.value
        ≡ value_of_expression text.now symbols.now spot (terms_in (first_arg line.now.args)) }
    requires place { seen.now.place
        ≡ index_in_links links.now
        (link_in text.now symbols.now spot (first_arg (operand_args line.now.deed line.now.args))) }
    requires links { links_from text.now symbols.now growth.old.links spot (line.now ∷ _more.now)
        ≡ links.now }
    requires definition { growth.old.definition ≤ 2 ^ 18 }
    requires symbol { growth.old.symbol ≤ 2 ^ 18 }
    ensures value { OnOk result
        (growth.new ≡ growth_after_line text.now symbols.now spot growth.old line.now) }
    ensures links { OnOk result
        (links_from text.now symbols.now growth.new.links
        (next_line_spot text.now spot line.now) _more.now
        ≡ links.now) }
{
    count_definitions(text, symbols, line, growth)?;
    count_link(
        text, symbols, links, spot, line, seen.value, seen.place, growth,
    )?;
    count_relocations(text, symbols, spot, line, seen.value, growth);
    Ok(())
}

// The refusal of the first line with which one of these sections is too long, given their sizes
// before the lines.
#[tactic(auto, using(alm_lines::proofs::Rooms::rooms), unfolding(crate::specs::Growth::growth_refusal))]
fn find_growth_refusal(
    alloc: Global,
    text: &[u8],
    tables: &Tables,
    lines: &[Line36],
    seen: &[LineValues],
    growth: &mut Growth,
) -> Result<Option<AlmRefusal>, NoMemory>
    requires count { length lines.now < 2 ^ 32 }
    requires seen { seen.now
        ≡ values_from text.now tables.now.symbols tables.now.links start lines.now }
    requires links { links_from text.now tables.now.symbols growth.old.links start lines.now
        ≡ tables.now.links }
    requires definition { growth.old.definition ≤ section_limit }
    requires symbol { growth.old.symbol ≤ section_limit }
    ensures { IfOk result (λ r.
        r ≡ growth_refusal text.now tables.now.symbols growth.old start lines.now) }
{
    let mut spot = LocationCounter::start();
    let mut rest = lines;
    let mut left = seen;
    while let [line, more @ ..] = rest {
        let (seen, later) = next_values(
            text,
            &tables.symbols,
            &tables.links,
            spot,
            line,
            more,
            left,
        );
        count_line(
            text,
            &tables.symbols,
            &tables.links,
            spot,
            line,
            more,
            &seen,
            growth,
        )?;
        spot = next_line_spot(alloc, text, spot, line)?;
        if growth.has_section_over_limit(spot) {
            return Ok(Some(refusal_at(line, line.start as u64, AlmCode::E8)));
        }
        rest = more;
        left = later;
    }
    Ok(None)
}

/// The refusal of the first line with which one of these sections is too long. Fails only with
/// `NoMemory`.
pub fn growth_refusal(
    alloc: Global,
    text: &[u8],
    tables: &Tables,
    lines: &[Line36],
    seen: &[LineValues],
) -> Result<Option<AlmRefusal>, NoMemory>
    requires count { length lines.now < 2 ^ 32 }
    requires seen { seen.now
        ≡ values_from text.now tables.now.symbols tables.now.links start lines.now }
    requires links { tables.now.links
        ≡ links_from text.now tables.now.symbols [] start lines.now }
    ensures { IfOk result (λ r.
        r ≡ growth_refusal text.now tables.now.symbols first_growth start lines.now) }
{
    let mut growth = Growth::start(alloc, tables.symbols.seed());
    let refused = find_growth_refusal(alloc, text, tables, lines, seen, &mut growth);
    // Dropped explicitly, so that the drop is proved once for its type.
    drop(growth);
    refused
}
