//! Refusals of lines, given the symbols of all lines.

ghost use Rattle.std.specs.Prelude.{[], ◌≡◌, ◌+◌, ◌^◌, ◌<◌, ◌≤◌, length};
ghost use Rattle.std.specs.Prelude.{Option, OnOk, IfOk, nat_lt, unwrap_or};
ghost use Rattle.alm_lines.specs.Arguments.{first_arg, terms_in};
ghost use Rattle.alm_lines.specs.Values.{value_of_expression};
ghost use Rattle.alm_asm.specs.LineValues.{index_in_links, values_from};
ghost use Rattle.obj36_parts.specs.ObjectSegment.{link_offset};
ghost use Rattle.m36_word.specs.Field.{offset_limit};
ghost use Rattle.alm_lines.specs.Spots.{start};
ghost use Rattle.alm_asm.specs.Definitions.{definitions_after};
ghost use Rattle.alm_asm.specs.LineRefusals.{refusal_unless, op_place, external_place};
ghost use Rattle.alm_asm.specs.LineRefusals.{needs_static};
ghost use Rattle.alm_asm.specs.LineRefusals.{may_name, internal_operand_field, link_expression};
ghost use Rattle.alm_asm.specs.LineRefusals.{link_is_in_reach, external_refusal};
ghost use Rattle.alm_asm.specs.LineRefusals.{internal_operand_refusal};
ghost use Rattle.alm_asm.specs.LineRefusals.{operand_refusal, may_select};
ghost use Rattle.alm_asm.specs.LineRefusals.{instruction_refusal, use_refusal, halves_refusal};
ghost use Rattle.alm_asm.specs.LineRefusals.{refusal_of_effect, line_refusal, lines_refusal};
ghost use Rattle.alm_asm.specs.Links.{operand_args, link_of_parts, link_in};

use crate::definitions::push_definitions;
use crate::links::offset_of_link;
use crate::seen::{LineValues, next_values};
use crate::tables::Tables;
use alm_lines::arguments::{first_symbol, first_terms, second_terms, section_in};
use alm_lines::count::Count;
use alm_lines::expression::expression_place;
use alm_lines::refusal::{
    AlmCode, AlmRefusal, Requirement, ValueField, earlier_refusal, refusal_at,
};
use alm_lines::spot::{LocationCounter, next_line_spot};
use alm_lines::symbols::Symbols;
use alm_lines::value::{Value, evaluate, evaluated_has_value, evaluated_refusal};
use alm_parse::{Arg, Line36, LineEffect, Span, Term, own_section};
use m36_word::NoMemory;
use obj36::{Defs, Section};
use obj36_parts::halves::OFFSET_LIMIT;
use obj36_parts::sections::is_text_section;
use std::alloc::Global;

// The refusal, unless the condition holds.
fn refusal_unless(holds: bool, refusal: AlmRefusal) -> Option<AlmRefusal>
    ensures { result ≡ refusal_unless holds refusal }
{
    if holds { None } else { Some(refusal) }
}

// The index of an operation in the text; 0 if there is none.
fn op_place(op: Option<Span>) -> u64
    ensures { result ≡ op_place op }
{
    match op {
        Some(op) => op.from as u64,
        None => 0,
    }
}

// The index in the text where the expression after an external name begins: after a sign. Without
// an entry the dollar sign is before it.
fn external_place(segment: Span, entry: Option<Span>) -> u64
    ensures { result ≡ external_place segment entry }
{
    match entry {
        Some(entry) => entry.to as u64 + 1,
        None => segment.to as u64 + 2,
    }
}

// Whether the segment of an operand is the static section of the object itself.
fn needs_static(own: Option<Section>) -> bool
    ensures { result ≡ needs_static own }
{
    match own {
        Some(Section::Static) => true,
        Some(Section::Text) | Some(Section::Linkage) | Some(Section::Symbol) | None => false,
    }
}

// Whether an operand may name this section of the object itself: the static section only if the
// lines have one.
fn may_name(tables: &Tables, own: Option<Section>) -> bool
    ensures { result ≡ may_name tables.now own }
{
    tables.uses_outer || !needs_static(own)
}

/// The field that the expression of an operand must fit: the offset after a pointer register, or
/// half a word.
pub fn internal_operand_field(pr: Option<u8>) -> ValueField
    ensures { result ≡ internal_operand_field pr }
{
    match pr {
        Some(_) => ValueField::Offset,
        None => ValueField::Half,
    }
}

// The refusal of the expression after an external name.
fn link_expression_refusal(
    text: &[u8],
    symbols: &Symbols,
    spot: LocationCounter,
    line: &Line36,
    segment: Span,
    entry: Option<Span>,
    terms: &[Term],
    value: Value,
) -> Option<AlmRefusal>
    requires { value ≡ value_of_expression text.now symbols.now spot terms.now }
    ensures { result
        ≡ link_expression text.now symbols.now spot line.now segment entry terms.now }
{
    let wanted = Requirement {
        place: external_place(segment, entry),
        room: ValueField::Half,
        may_move: false,
    };
    evaluated_refusal(text, symbols, spot, line, terms, wanted, value)
}

// Whether the link with this index is in the reach of `pr4|`, below 2^14 words.
fn is_in_reach(first: Count, place: Option<u64>) -> bool
    ensures { result ≡ nat_lt (link_offset first (unwrap_or place 0)) offset_limit }
{
    offset_of_link(first, place) < OFFSET_LIMIT as u128
}

// Whether the link of an external operand is in reach. An operand whose expression has no value is
// not a link, so its place is not checked.
#[tactic(auto, using(crate::proofs::SeenLaws::by_place), unfolding(crate::specs::LineRefusals::link_is_in_reach, crate::specs::LineRefusals::is_in_reach))]
fn link_is_in_reach(
    text: &[u8],
    tables: &Tables,
    spot: LocationCounter,
    _segment: Span,
    _entry: Option<Span>,
    terms: &[Term],
    _tag: u8,
    value: Value,
    place: Option<u64>,
) -> bool
    requires value { value ≡ value_of_expression text.now tables.now.symbols spot terms.now }
    requires place { place
        ≡ index_in_links tables.now.links
        (link_of_parts text.now tables.now.symbols spot
        (Option.Some _segment) _entry terms.now _tag) }
    ensures { result ≡ link_is_in_reach text.now tables.now spot _segment _entry terms.now _tag }
{
    let symbols = &tables.symbols;
    if !evaluated_has_value(text, symbols, spot, terms, ValueField::Half, false, value) {
        return true;
    }
    is_in_reach(tables.first_link, place)
}

// The refusal of an external operand: that of its expression; or E7 at its segment, if its link is
// out of reach or it names a static section that the lines do not have.
fn external_refusal(
    text: &[u8],
    tables: &Tables,
    spot: LocationCounter,
    line: &Line36,
    segment: Span,
    entry: Option<Span>,
    terms: &[Term],
    tag: u8,
    value: Value,
    place: Option<u64>,
) -> Option<AlmRefusal>
    requires value { value ≡ value_of_expression text.now tables.now.symbols spot terms.now }
    requires place { place
        ≡ index_in_links tables.now.links
        (link_of_parts text.now tables.now.symbols spot (Option.Some segment) entry terms.now tag) }
    ensures { result
        ≡ external_refusal text.now tables.now spot line.now segment entry terms.now tag }
{
    let at = refusal_at(line, segment.from as u64, AlmCode::E7);
    let expression = link_expression_refusal(
        text,
        &tables.symbols,
        spot,
        line,
        segment,
        entry,
        terms,
        value,
    );
    let reached = link_is_in_reach(text, tables, spot, segment, entry, terms, tag, value, place);
    let named = may_name(tables, own_section(text, segment));
    earlier_refusal(
        earlier_refusal(expression, refusal_unless(reached, at)),
        refusal_unless(named, at),
    )
}

// The refusal of an operand that is an expression.
fn refusal_of_internal_operand(
    text: &[u8],
    tables: &Tables,
    spot: LocationCounter,
    line: &Line36,
    room: ValueField,
    terms: &[Term],
    value: Value,
) -> Option<AlmRefusal>
    requires { value ≡ value_of_expression text.now tables.now.symbols spot terms.now }
    ensures { result ≡ internal_operand_refusal text.now tables.now spot line.now room terms.now }
{
    let wanted = Requirement {
        place: expression_place(terms) as u64,
        room,
        may_move: true,
    };
    evaluated_refusal(text, &tables.symbols, spot, line, terms, wanted, value)
}

// The refusal of the operand of an instruction, if it has one that is refused.
fn operand_refusal(
    text: &[u8],
    tables: &Tables,
    spot: LocationCounter,
    line: &Line36,
    value: Value,
    place: Option<u64>,
) -> Option<AlmRefusal>
    requires value { value
        ≡ value_of_expression text.now tables.now.symbols spot
        (terms_in (first_arg line.now.args)) }
    requires place { place
        ≡ index_in_links tables.now.links
        (link_in text.now tables.now.symbols spot (first_arg line.now.args)) }
    ensures { result
        ≡ operand_refusal text.now tables.now spot line.now (first_arg line.now.args) }
{
    match line.args.items() {
        [
            Arg::Operand {
                pr,
                seg,
                entry,
                expr,
                tag,
            },
            ..
        ] => {
            let terms = expr.items();
            match seg {
                Some(segment) => external_refusal(
                    text, tables, spot, line, *segment, *entry, terms, *tag, value, place,
                ),
                None => refusal_of_internal_operand(
                    text,
                    tables,
                    spot,
                    line,
                    internal_operand_field(*pr),
                    terms,
                    value,
                ),
            }
        }
        _ => None,
    }
}

// Whether a `use` line may select a section: the static words of a source are all in one section.
fn may_select(spot: LocationCounter, section: Section) -> bool
    ensures { result ≡ may_select spot section }
{
    match section {
        Section::Text | Section::Symbol => true,
        Section::Linkage => !spot.uses_outer,
        Section::Static => !spot.uses_inner,
    }
}

// The refusal of an instruction: E7 at the operation outside the text, and that of its operand.
fn instruction_refusal(
    text: &[u8],
    tables: &Tables,
    spot: LocationCounter,
    line: &Line36,
    value: Value,
    place: Option<u64>,
) -> Option<AlmRefusal>
    requires value { value
        ≡ value_of_expression text.now tables.now.symbols spot
        (terms_in (first_arg line.now.args)) }
    requires place { place
        ≡ index_in_links tables.now.links
        (link_in text.now tables.now.symbols spot (first_arg line.now.args)) }
    ensures { result ≡ instruction_refusal text.now tables.now spot line.now }
{
    let operand = operand_refusal(text, tables, spot, line, value, place);
    let at = refusal_at(line, op_place(line.op), AlmCode::E7);
    earlier_refusal(refusal_unless(is_text_section(spot.section), at), operand)
}

// The refusal of a `use` line: E7 at the operation, if static words are in another section.
fn use_refusal(text: &[u8], spot: LocationCounter, line: &Line36) -> Option<AlmRefusal>
    ensures { result ≡ use_refusal text.now spot line.now }
{
    let section = section_in(text, first_symbol(line.args.items()));
    let at = refusal_at(line, op_place(line.op), AlmCode::E7);
    refusal_unless(may_select(spot, section), at)
}

// The first refusal of the two expressions of a `zero` line.
fn halves_refusal(
    text: &[u8],
    tables: &Tables,
    spot: LocationCounter,
    line: &Line36,
    value: Value,
) -> Option<AlmRefusal>
    requires { value
        ≡ value_of_expression text.now tables.now.symbols spot
        (terms_in (first_arg line.now.args)) }
    ensures { result ≡ halves_refusal text.now tables.now spot line.now }
{
    let args = line.args.items();
    let first = first_terms(args);
    let second = second_terms(args);
    let other = evaluate(text, &tables.symbols, spot, second);
    let left = refusal_of_internal_operand(
        text,
        tables,
        spot,
        line,
        ValueField::Half,
        first,
        value,
    );
    let right = refusal_of_internal_operand(
        text,
        tables,
        spot,
        line,
        ValueField::Half,
        second,
        other,
    );
    earlier_refusal(left, right)
}

// The refusal of the operation of a line, apart from those of the names and symbols that it
// defines. `value` is that of the first argument, `place` the index of the link.
fn refusal_of_effect(
    text: &[u8],
    tables: &Tables,
    spot: LocationCounter,
    line: &Line36,
    deed: LineEffect,
    value: Value,
    place: Option<u64>,
) -> Option<AlmRefusal>
    requires value { value
        ≡ value_of_expression text.now tables.now.symbols spot
        (terms_in (first_arg line.now.args)) }
    requires place { place
        ≡ index_in_links tables.now.links
        (link_in text.now tables.now.symbols spot (first_arg (operand_args deed line.now.args))) }
    ensures { result ≡ refusal_of_effect text.now tables.now spot line.now deed }
{
    match deed {
        LineEffect::Instruction(_, _) => instruction_refusal(
            text, tables, spot, line, value, place,
        ),
        LineEffect::Use => use_refusal(text, spot, line),
        LineEffect::Zero => halves_refusal(text, tables, spot, line, value),
        LineEffect::Nothing
        | LineEffect::Entry
        | LineEffect::Segdef
        | LineEffect::Equ
        | LineEffect::Words
        | LineEffect::Block
        | LineEffect::Even
        | LineEffect::Bound => None,
    }
}

// The refusal of a line with these values, if it is refused. Adds its definitions to `done`.
#[tactic(auto, unfolding(crate::specs::LineRefusals::line_refusal))]
fn line_refusal(
    text: &[u8],
    tables: &Tables,
    spot: LocationCounter,
    line: &Line36,
    seen: &LineValues,
    done: &mut Defs,
) -> Result<Option<AlmRefusal>, NoMemory>
    requires value { seen.now.value
        ≡ value_of_expression text.now tables.now.symbols spot
        (terms_in (first_arg line.now.args)) }
    requires place { seen.now.place
        ≡ index_in_links tables.now.links
        (link_in text.now tables.now.symbols spot
        (first_arg (operand_args line.now.deed line.now.args))) }
    ensures definitions { OnOk result
        (done.new ≡ definitions_after text.now tables.now.symbols done.old line.now) }
    ensures refused { IfOk result (λ r.
        r ≡ line_refusal text.now tables.now done.old spot line.now) }
{
    let names = push_definitions(text, &tables.symbols, line, None, done)?;
    let own = refusal_of_effect(text, tables, spot, line, line.deed, seen.value, seen.place);
    Ok(earlier_refusal(names, own))
}

// The first refusal of a line. `done` has the definitions of the lines above.
#[tactic(auto, using(alm_lines::proofs::Rooms::rooms), unfolding(crate::specs::LineRefusals::lines_refusal))]
fn first_line_refusal(
    alloc: Global,
    text: &[u8],
    tables: &Tables,
    lines: &[Line36],
    seen: &[LineValues],
    done: &mut Defs,
) -> Result<Option<AlmRefusal>, NoMemory>
    requires count { length lines.now < 2 ^ 32 }
    requires seen { seen.now
        ≡ values_from text.now tables.now.symbols tables.now.links start lines.now }
    ensures { IfOk result (λ r.
        r ≡ lines_refusal text.now tables.now done.old start lines.now) }
{
    let mut spot = LocationCounter::start();
    let mut rest = lines;
    let mut left = seen;
    while let [line, more @ ..] = rest {
        let (seen, later) = next_values(
            text,
            &tables.symbols,
            &tables.links,
            spot,
            line,
            more,
            left,
        );
        if let Some(refusal) = line_refusal(text, tables, spot, line, &seen, done)? {
            return Ok(Some(refusal));
        }
        spot = next_line_spot(alloc, text, spot, line)?;
        rest = more;
        left = later;
    }
    Ok(None)
}

/// The first refusal of a line. Fails only with `NoMemory`.
pub fn lines_refusal(
    alloc: Global,
    text: &[u8],
    tables: &Tables,
    lines: &[Line36],
    seen: &[LineValues],
) -> Result<Option<AlmRefusal>, NoMemory>
    requires count { length lines.now < 2 ^ 32 }
    requires seen { seen.now
        ≡ values_from text.now tables.now.symbols tables.now.links start lines.now }
    ensures { IfOk result (λ r.
        r ≡ lines_refusal text.now tables.now [] start lines.now) }
{
    let mut done = Defs::new(alloc, tables.symbols.seed());
    let refused = first_line_refusal(alloc, text, tables, lines, seen, &mut done);
    // Dropped explicitly, so that the drop is proved once for its type.
    drop(done);
    refused
}
