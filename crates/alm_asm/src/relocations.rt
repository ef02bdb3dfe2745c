//! Relocations: the parts of words whose expressions are places of a section, and the offsets of
//! links.

ghost use Rattle.std.specs.Prelude.{[], ◌∷◌, ◌++◌, ◌≡◌, ◌%◌, ◌^◌, ◌<◌, length, Option};
ghost use Rattle.std.specs.Prelude.{OnOk};
ghost use Rattle.alm_lines.specs.Arguments.{first_arg, terms_in};
ghost use Rattle.alm_lines.specs.Values.{value_of_expression};
ghost use Rattle.alm_asm.specs.LineValues.{values_from};
ghost use Rattle.alm_lines.specs.Spots.{start};
ghost use Rattle.alm_parse.specs.declared.deed.LineEffect.TheVariants as deed;
ghost use Rattle.alm_asm.specs.Relocations.{relocation_of_part, operand_part, operand_value_kind};
ghost use Rattle.alm_asm.specs.Relocations.{operand_relocation, with_line_relocations};
ghost use Rattle.alm_asm.specs.Relocations.{relocations_after, relocations_from};

use crate::links::same_section;
use crate::seen::{LineValues, next_values};
use crate::tables::Tables;
use alm_lines::arguments::{first_terms, second_terms};
use alm_lines::spot::{LocationCounter, next_line_spot};
use alm_lines::sum::Kind;
use alm_lines::symbols::Symbols;
use alm_lines::value::{Value, evaluate, evaluated_kind};
use alm_parse::{Arg, Line36, LineEffect, Span};
use m36_word::NoMemory;
use obj36::{Reloc, Relocs, Section};
use std::alloc::Global;

// Adds the relocation of a part of a word, if the kind of its value needs one.
fn push_relocation(
    marks: &mut Relocs,
    spot: LocationCounter,
    part: u8,
    kind: Kind,
) -> Result<(), NoMemory>
    ensures { OnOk result (marks.new ≡ marks.old ++ relocation_of_part spot part kind) }
{
    match kind {
        Kind::Moved(target) => {
            let place = spot.place();
            marks.push(Reloc {
                offset: (place % (1 << 18)) as u32,
                section: spot.section,
                part,
                target,
            })
        }
        Kind::Absolute | Kind::Inexpressible => Ok(()),
    }
}

// The part of the word of an instruction that holds the value of its operand: 2 (bits 3 to 17) for
// an external operand or after a pointer register, and otherwise 0 (the left half).
fn operand_part(pr: Option<u8>, segment: Option<Span>) -> u8
    ensures { result ≡ operand_part pr segment }
{
    match (pr, segment) {
        (_, Some(_)) | (Some(_), None) => 2,
        (None, None) => 0,
    }
}

/// The kind of the value in the word of an operand: a place of the linkage section for an external
/// one, otherwise that of its expression.
pub fn operand_value_kind(segment: Option<Span>, kind: Kind) -> Kind
    ensures { result ≡ operand_value_kind segment kind }
{
    match segment {
        Some(_) => Kind::Moved(Section::Linkage),
        None => kind,
    }
}

// Adds the relocation of the operand of an instruction, if it has one.
fn push_operand(
    text: &[u8],
    symbols: &Symbols,
    spot: LocationCounter,
    args: &[Arg],
    value: Value,
    marks: &mut Relocs,
) -> Result<(), NoMemory>
    requires { value ≡ value_of_expression text.now symbols.now spot
        (terms_in (first_arg args.now)) }
    ensures { OnOk result
        (marks.new ≡ marks.old ++ operand_relocation text.now symbols.now spot
        (first_arg args.now)) }
{
    match args {
        [
            Arg::Operand {
                pr,
                seg,
                entry: _,
                expr,
                tag: _,
            },
            ..
        ] => {
            let kind = evaluated_kind(text, symbols, spot, expr.items(), value);
            push_relocation(
                marks,
                spot,
                operand_part(*pr, *seg),
                operand_value_kind(*seg, kind),
            )
        }
        _ => Ok(()),
    }
}

// Adds the relocations of a `zero` line.
fn push_halves(
    text: &[u8],
    symbols: &Symbols,
    spot: LocationCounter,
    args: &[Arg],
    value: Value,
    marks: &mut Relocs,
) -> Result<(), NoMemory>
    requires { value ≡ value_of_expression text.now symbols.now spot
        (terms_in (first_arg args.now)) }
    ensures { OnOk result
        (marks.new ≡ with_line_relocations text.now symbols.now spot marks.old args.now deed.Zero) }
{
    let second = second_terms(args);
    let other = evaluate(text, symbols, spot, second);
    let left = evaluated_kind(text, symbols, spot, first_terms(args), value);
    let right = evaluated_kind(text, symbols, spot, second, other);
    push_relocation(marks, spot, 0, left)?;
    push_relocation(marks, spot, 1, right)
}

// Adds the relocations of a line with this operation.
fn push_relocations(
    text: &[u8],
    symbols: &Symbols,
    spot: LocationCounter,
    args: &[Arg],
    value: Value,
    deed: LineEffect,
    marks: &mut Relocs,
) -> Result<(), NoMemory>
    requires { value ≡ value_of_expression text.now symbols.now spot
        (terms_in (first_arg args.now)) }
    ensures { OnOk result (marks.new ≡ with_line_relocations text.now symbols.now spot marks.old
        args.now deed) }
{
    match deed {
        LineEffect::Instruction(_, _) => push_operand(text, symbols, spot, args, value, marks),
        LineEffect::Zero => push_halves(text, symbols, spot, args, value, marks),
        LineEffect::Nothing
        | LineEffect::Entry
        | LineEffect::Segdef
        | LineEffect::Equ
        | LineEffect::Use
        | LineEffect::Words
        | LineEffect::Block
        | LineEffect::Even
        | LineEffect::Bound => Ok(()),
    }
}

// Adds the relocations of a line, if it is in this section.
#[tactic(auto, unfolding(crate::specs::Relocations::relocations_after))]
fn push_line_relocations(
    text: &[u8],
    symbols: &Symbols,
    section: Section,
    spot: LocationCounter,
    line: &Line36,
    value: Value,
    marks: &mut Relocs,
) -> Result<(), NoMemory>
    requires { value ≡ value_of_expression text.now symbols.now spot
        (terms_in (first_arg line.now.args)) }
    ensures { OnOk result
        (marks.new ≡ relocations_after text.now symbols.now section marks.old spot line.now) }
{
    if !same_section(spot.section, section) {
        return Ok(());
    }
    let deed = line.deed;
    push_relocations(text, symbols, spot, line.args.items(), value, deed, marks)
}

/// Adds the relocations of the lines that place words in a section. Fails only with `NoMemory`.
#[tactic(auto, using(alm_lines::proofs::Rooms::rooms), unfolding(crate::specs::Relocations::relocations_from))]
pub fn push_relocations_in(
    alloc: Global,
    text: &[u8],
    tables: &Tables,
    section: Section,
    lines: &[Line36],
    seen: &[LineValues],
    marks: &mut Relocs,
) -> Result<(), NoMemory>
    requires count { length lines.now < 2 ^ 32 }
    requires seen { seen.now
        ≡ values_from text.now tables.now.symbols tables.now.links start lines.now }
    ensures { OnOk result
        (marks.new ≡ relocations_from text.now tables.now.symbols section marks.old start
        lines.now) }
{
    let mut spot = LocationCounter::start();
    let mut rest = lines;
    let mut left = seen;
    while let [line, more @ ..] = rest {
        let (seen, later) = next_values(
            text,
            &tables.symbols,
            &tables.links,
            spot,
            line,
            more,
            left,
        );
        push_line_relocations(
            text,
            &tables.symbols,
            section,
            spot,
            line,
            seen.value,
            marks,
        )?;
        spot = next_line_spot(alloc, text, spot, line)?;
        rest = more;
        left = later;
    }
    Ok(())
}
