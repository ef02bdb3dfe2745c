//! The words that lines place.

ghost use Rattle.std.specs.Prelude.{[], ◌++◌, ◌≡◌, ◌+◌, ◌*◌, ◌%◌, ◌^◌, ◌<◌};
ghost use Rattle.std.specs.Prelude.{◌≤◌, true, length, Option, Some, None, OnOk, IfOk};
ghost use Rattle.alm_lines.specs.Arguments.{first_arg, terms_in};
ghost use Rattle.alm_lines.specs.Values.{value_of_expression};
ghost use Rattle.alm_asm.specs.LineValues.{index_in_links, values_from};
ghost use Rattle.alm_lines.specs.Spots.{start, count_in, end_of};
ghost use Rattle.alm_asm.specs.Links.{link_of, link_of_parts, link_in, offset_of_link_in};
ghost use Rattle.alm_asm.specs.Links.{operand_args};
ghost use Rattle.alm_asm.specs.Words.{address_instruction, pointer_register_instruction};
ghost use Rattle.alm_asm.specs.Words.{internal_instruction, instruction_of_arg};
ghost use Rattle.alm_asm.specs.Words.{instruction_word, halves_word, words_of_effect};
ghost use Rattle.alm_asm.specs.Words.{words_of_line};
ghost use Rattle.alm_asm.specs.Words.{words_from, instruction_of_parts};
ghost use Rattle.alm_asm.specs.Laws.{can_have_words};

use crate::links::{link_of, offset_of_link, offset_of_link_in, same_section};
use crate::seen::{LineValues, next_values};
use crate::tables::Tables;
use alm_lines::arguments::{second_number, second_terms, words_of_args};
use alm_lines::refusal::ValueField;
use alm_lines::spot::{LocationCounter, next_line_spot};
use alm_lines::value::{Value, evaluate, evaluated_has_value};
use alm_parse::{Arg, Line36, LineEffect, Span, Term};
use m36_inst::Inst;
use m36_word::{NoMemory, Word, Words};
use obj36::Section;
use obj36_parts::sections::{push_all, push_zeros};
use std::alloc::Global;

/// An operation code and its bit 27.
#[derive(Clone, Copy)]
struct OperationCode {
    code: u16,
    bit27: bool,
}

// The instruction with the address `y`.
fn address_instruction(operation: OperationCode, y: u64, tag: u8) -> Inst
    requires { y < 2 ^ 18 }
    ensures { result ≡ address_instruction operation.code operation.bit27 y tag }
{
    Inst {
        y: y as u32,
        code: operation.code % (1 << 9),
        tag: tag % (1 << 6),
        bit27: operation.bit27,
        inhibit: false,
        by_pr: false,
    }
}

// The instruction with an offset of 15 bits after the pointer register `pr`.
fn pointer_register_instruction(operation: OperationCode, pr: u8, offset: u64, tag: u8) -> Inst
    requires { offset < 2 ^ 15 }
    ensures { result ≡ pointer_register_instruction operation.code operation.bit27 pr offset tag }
{
    let base = (pr % (1 << 3)) as u32 * (1 << 15);
    Inst {
        y: base + offset as u32,
        code: operation.code % (1 << 9),
        tag: tag % (1 << 6),
        bit27: operation.bit27,
        inhibit: false,
        by_pr: true,
    }
}

// The instruction whose operand is an expression with this value, after a pointer register or not.
fn internal_instruction(operation: OperationCode, pr: Option<u8>, value: Value, tag: u8) -> Inst
    ensures { result
        ≡ internal_instruction operation.code operation.bit27 pr value.half value.offset tag }
{
    match pr {
        Some(pr) => pointer_register_instruction(operation, pr, value.offset as u64, tag),
        None => address_instruction(operation, value.half as u64, tag),
    }
}

// The offset of the link of an external operand in the linkage section.
#[tactic(auto, using(crate::proofs::SeenLaws::by_place))]
fn external_offset(
    text: &[u8],
    tables: &Tables,
    spot: LocationCounter,
    segment: Span,
    entry: Option<Span>,
    terms: &[Term],
    tag: u8,
    value: Value,
    place: Option<u64>,
) -> u128
    requires value { value ≡ value_of_expression text.now tables.now.symbols spot terms.now }
    requires place { place
        ≡ index_in_links tables.now.links
        (link_of_parts text.now tables.now.symbols spot (Option.Some segment) entry terms.now tag) }
    ensures { result
        ≡ offset_of_link_in tables.now.links tables.now.first_link
        (link_of text.now tables.now.symbols spot segment entry terms.now tag) }
{
    let symbols = &tables.symbols;
    if evaluated_has_value(text, symbols, spot, terms, ValueField::Half, false, value) {
        return offset_of_link(tables.first_link, place);
    }
    let link = link_of(text, symbols, spot, segment, entry, terms, tag, value);
    offset_of_link_in(&tables.links, tables.first_link, &link)
}

// The instruction with an external operand: `pr4|link,*`.
fn external_inst(
    text: &[u8],
    tables: &Tables,
    spot: LocationCounter,
    operation: OperationCode,
    segment: Span,
    entry: Option<Span>,
    terms: &[Term],
    tag: u8,
    value: Value,
    place: Option<u64>,
) -> Inst
    requires value { value ≡ value_of_expression text.now tables.now.symbols spot terms.now }
    requires place { place
        ≡ index_in_links tables.now.links
        (link_of_parts text.now tables.now.symbols spot (Option.Some segment) entry terms.now tag) }
    ensures { result
        ≡ instruction_of_parts text.now tables.now spot operation.code operation.bit27 None
        (Some segment) entry
        terms.now tag }
{
    let offset = external_offset(text, tables, spot, segment, entry, terms, tag, value, place);
    pointer_register_instruction(operation, 4, (offset % (1 << 15)) as u64, 16)
}

// The instruction with an operand that is an expression.
#[tactic(auto, unfolding(alm_lines::specs::Values::value_of_expression))]
fn internal_operand_instruction(
    _text: &[u8],
    _tables: &Tables,
    _spot: LocationCounter,
    operation: OperationCode,
    pr: Option<u8>,
    _terms: &[Term],
    tag: u8,
    value: Value,
) -> Inst
    requires { value ≡ value_of_expression _text.now _tables.now.symbols _spot _terms.now }
    ensures { result
        ≡ instruction_of_parts _text.now _tables.now _spot operation.code operation.bit27 pr None
        None
        _terms.now tag }
{
    internal_instruction(operation, pr, value, tag)
}

// The instruction with the operand in these arguments. Without an operand its address and tag are
// 0.
fn instruction_of_arg(
    text: &[u8],
    tables: &Tables,
    spot: LocationCounter,
    operation: OperationCode,
    args: &[Arg],
    value: Value,
    place: Option<u64>,
) -> Inst
    requires value { value
        ≡ value_of_expression text.now tables.now.symbols spot (terms_in (first_arg args.now)) }
    requires place { place
        ≡ index_in_links tables.now.links
        (link_in text.now tables.now.symbols spot (first_arg args.now)) }
    ensures { result
        ≡ instruction_of_arg text.now tables.now spot operation.code operation.bit27
        (first_arg args.now) }
{
    match args {
        [
            Arg::Operand {
                pr,
                seg,
                entry,
                expr,
                tag,
            },
            ..
        ] => {
            let terms = expr.items();
            match seg {
                Some(segment) => external_inst(
                    text, tables, spot, operation, *segment, *entry, terms, *tag, value, place,
                ),
                None => internal_operand_instruction(
                    text, tables, spot, operation, *pr, terms, *tag, value,
                ),
            }
        }
        _ => address_instruction(operation, 0, 0),
    }
}

// The word of an instruction.
#[tactic(auto, unfolding(crate::specs::Words::instruction_word))]
fn instruction_word(
    text: &[u8],
    tables: &Tables,
    spot: LocationCounter,
    operation: OperationCode,
    args: &[Arg],
    value: Value,
    place: Option<u64>,
) -> Word
    requires value { value
        ≡ value_of_expression text.now tables.now.symbols spot (terms_in (first_arg args.now)) }
    requires place { place
        ≡ index_in_links tables.now.links
        (link_in text.now tables.now.symbols spot (first_arg args.now)) }
    ensures { result
        ≡ instruction_word text.now tables.now spot operation.code operation.bit27 args.now }
{
    instruction_of_arg(text, tables, spot, operation, args, value, place).to_word()
}

// The word with these values in its halves.
fn word_of(left: Value, right: Value) -> Word
    ensures { result ≡ left.half * 2 ^ 18 + right.half }
{
    Word::low(left.half as u64 * (1 << 18) + right.half as u64)
}

// The word of a `zero` line: the values of its two expressions.
#[tactic(auto, unfolding(crate::specs::Words::halves_word, alm_lines::specs::Values::value_of_expression))]
fn halves_word(
    text: &[u8],
    tables: &Tables,
    spot: LocationCounter,
    args: &[Arg],
    value: Value,
) -> Word
    requires { value
        ≡ value_of_expression text.now tables.now.symbols spot (terms_in (first_arg args.now)) }
    ensures { result ≡ halves_word text.now tables.now spot args.now }
{
    word_of(
        value,
        evaluate(text, &tables.symbols, spot, second_terms(args)),
    )
}

// Adds the words of a line with this operation.
fn push_words(
    alloc: Global,
    text: &[u8],
    tables: &Tables,
    spot: LocationCounter,
    args: &[Arg],
    value: Value,
    place: Option<u64>,
    deed: LineEffect,
    words: &mut Words,
) -> Result<(), NoMemory>
    requires value { value
        ≡ value_of_expression text.now tables.now.symbols spot (terms_in (first_arg args.now)) }
    requires place { place
        ≡ index_in_links tables.now.links
        (link_in text.now tables.now.symbols spot (first_arg (operand_args deed args.now))) }
    ensures { OnOk result
        (words.new ≡ words.old ++ words_of_effect text.now tables.now spot args.now deed) }
{
    match deed {
        LineEffect::Instruction(code, bit27) => {
            let operation = OperationCode { code, bit27 };
            let word = instruction_word(text, tables, spot, operation, args, value, place);
            words.push(word)
        }
        LineEffect::Words => push_all(words, words_of_args(alloc, args)?.slice()),
        LineEffect::Zero => words.push(halves_word(text, tables, spot, args, value)),
        LineEffect::Block => push_zeros(words, second_number(args)),
        LineEffect::Even => push_zeros(words, (spot.place() % 2) as u64),
        LineEffect::Nothing
        | LineEffect::Entry
        | LineEffect::Segdef
        | LineEffect::Equ
        | LineEffect::Use
        | LineEffect::Bound => Ok(()),
    }
}

// Adds the words of a line, if it is in this section.
#[tactic(auto, unfolding(crate::specs::Words::words_of_line))]
fn push_line_words(
    alloc: Global,
    text: &[u8],
    tables: &Tables,
    section: Section,
    spot: LocationCounter,
    line: &Line36,
    seen: &LineValues,
    words: &mut Words,
) -> Result<(), NoMemory>
    requires value { seen.now.value
        ≡ value_of_expression text.now tables.now.symbols spot
        (terms_in (first_arg line.now.args)) }
    requires place { seen.now.place
        ≡ index_in_links tables.now.links
        (link_in text.now tables.now.symbols spot
        (first_arg (operand_args line.now.deed line.now.args))) }
    ensures { OnOk result
        (words.new ≡ words.old ++ words_of_line text.now tables.now section spot line.now) }
{
    if !same_section(spot.section, section) {
        return Ok(());
    }
    let deed = line.deed;
    let args = line.args.items();
    push_words(
        alloc, text, tables, spot, args, seen.value, seen.place, deed, words,
    )
}

/// The words that lines place in a section. In a section that can have words, they are as many as
/// are counted there at the end of the lines. Fails only with `NoMemory`.
#[tactic(auto, using(alm_lines::proofs::Rooms::rooms), unfolding(crate::specs::Words::words_from))]
pub fn words_in(
    alloc: Global,
    text: &[u8],
    tables: &Tables,
    section: Section,
    lines: &[Line36],
    seen: &[LineValues],
) -> Result<Words, NoMemory>
    requires count { length lines.now < 2 ^ 32 }
    requires seen { seen.now
        ≡ values_from text.now tables.now.symbols tables.now.links start lines.now }
    ensures value { IfOk result (λ words.
        words ≡ words_from text.now tables.now section [] start lines.now) }
    ensures count { can_have_words section ≡ true
        → IfOk result (λ words. length words ≡ count_in section (end_of text.now start lines.now)) }
{
    let mut words = Words::new(alloc);
    let mut spot = LocationCounter::start();
    let mut rest = lines;
    let mut left = seen;
    while let [line, more @ ..] = rest {
        let (seen, later) = next_values(
            text,
            &tables.symbols,
            &tables.links,
            spot,
            line,
            more,
            left,
        );
        push_line_words(alloc, text, tables, section, spot, line, &seen, &mut words)?;
        spot = next_line_spot(alloc, text, spot, line)?;
        rest = more;
        left = later;
    }
    Ok(words)
}
