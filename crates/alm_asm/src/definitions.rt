//! Definitions: the names of `entry` and `segdef` lines in order, and their refusals.

ghost use Rattle.std.specs.Prelude.{[], ◌∷◌, ◌++◌, ◌≡◌, Option, OnOk, IfOk};
ghost use Rattle.alm_asm.specs.Definitions.{section_of, definition_of_name, definition_of_arg};
ghost use Rattle.alm_asm.specs.Definitions.{with_names, defines_entries};
ghost use Rattle.alm_asm.specs.Definitions.{definitions_after, definitions_from};
ghost use Rattle.alm_asm.specs.Definitions.{is_defined_name, is_label_kind, is_label, sum_refusal};
ghost use Rattle.alm_asm.specs.Definitions.{name_refusal, arg_refusal, names_refusal};
ghost use Rattle.alm_asm.specs.Definitions.{definitions_refusal};

use alm_lines::arguments::name_at;
use alm_lines::expression::symbol_sum;
use alm_lines::refusal::{
    AlmCode, AlmRefusal, ValueField, earlier_refusal, fits_field, refusal_at,
};
use alm_lines::sum::{Kind, Sum};
use alm_lines::symbols::Symbols;
use alm_parse::{Arg, Line36, LineEffect, Span};
use m36_text::Name;
use m36_word::NoMemory;
use obj36::{Def, Defs, Named, Section};
use std::alloc::Global;

// The section of a definition whose symbol is of this kind. A symbol that is not a place of a
// section is refused.
fn section_of(kind: Kind) -> Section
    ensures { result ≡ section_of kind }
{
    match kind {
        Kind::Moved(section) => section,
        Kind::Absolute | Kind::Inexpressible => Section::Text,
    }
}

// The definition of a name, with the section and the value of its symbol.
#[tactic(auto, unfolding(crate::specs::Definitions::definition_of_name))]
fn definition_of_name(text: &[u8], symbols: &Symbols, is_entry: bool, span: Span) -> Named
    ensures { result ≡ definition_of_name text.now symbols.now is_entry span }
{
    let sum = symbol_sum(text, symbols, span);
    Named {
        name: name_at(text, span),
        def: Def {
            value: sum.value.half() as u32,
            section: section_of(sum.kind()),
            is_entry,
        },
    }
}

// Adds the definition that an argument gives, if it gives one.
fn push_named(
    text: &[u8],
    symbols: &Symbols,
    is_entry: bool,
    arg: &Arg,
    done: &mut Defs,
) -> Result<(), NoMemory>
    ensures { OnOk result (done.new ≡ done.old ++ definition_of_arg text.now symbols.now is_entry
        arg.now) }
{
    match arg {
        Arg::Symbol(span) => done.push(definition_of_name(text, symbols, is_entry, *span)),
        _ => Ok(()),
    }
}

/// Whether a line has definitions, and if so whether they are entries.
pub fn defines_entries(deed: LineEffect) -> Option<bool>
    ensures { result ≡ defines_entries deed }
{
    match deed {
        LineEffect::Entry => Some(true),
        LineEffect::Segdef => Some(false),
        LineEffect::Nothing
        | LineEffect::Instruction(_, _)
        | LineEffect::Equ
        | LineEffect::Use
        | LineEffect::Words
        | LineEffect::Zero
        | LineEffect::Block
        | LineEffect::Even
        | LineEffect::Bound => None,
    }
}

// Whether a name has a definition already.
#[tactic(auto, unfolding(crate::specs::Definitions::is_defined_name))]
fn is_defined_name(done: &Defs, name: &Name) -> bool
    ensures { result ≡ is_defined_name done.now name.now }
{
    done.has(name)
}

// Whether a name can be defined for a symbol of this kind: an entry must be a place of the text,
// another definition a place of any section.
fn is_label_kind(is_entry: bool, kind: Kind) -> bool
    ensures { result ≡ is_label_kind is_entry kind }
{
    match kind {
        Kind::Moved(Section::Text) => true,
        Kind::Moved(Section::Linkage)
        | Kind::Moved(Section::Symbol)
        | Kind::Moved(Section::Static) => !is_entry,
        Kind::Absolute | Kind::Inexpressible => false,
    }
}

// Whether a name can be defined for a symbol with this sum: it is such a place, and its value fits
// half a word.
#[tactic(auto, unfolding(crate::specs::Definitions::is_label))]
fn is_label(is_entry: bool, sum: Sum) -> bool
    ensures { result ≡ is_label is_entry sum }
{
    fits_field(ValueField::Half, sum.value) && is_label_kind(is_entry, sum.kind())
}

/// The refusal of a name of `entry` or `segdef`: E6 if its symbol is not defined, E7 if the sum of
/// the symbol is not that of a suitable label.
pub fn sum_refusal(line: &Line36, at: u64, is_entry: bool, sum: Option<Sum>) -> Option<AlmRefusal>
    ensures { result ≡ sum_refusal line.now at is_entry sum }
{
    match sum {
        None => Some(refusal_at(line, at, AlmCode::E6)),
        Some(sum) => {
            if is_label(is_entry, sum) {
                None
            } else {
                Some(refusal_at(line, at, AlmCode::E7))
            }
        }
    }
}

// The refusal of a name that a line defines: E5 if it has a definition already, or as
// `sum_refusal`.
#[tactic(auto, unfolding(crate::specs::Definitions::name_refusal))]
fn name_refusal(
    text: &[u8],
    symbols: &Symbols,
    line: &Line36,
    is_entry: bool,
    done: &Defs,
    span: Span,
) -> Option<AlmRefusal>
    ensures { result ≡ name_refusal text.now symbols.now line.now is_entry done.now span }
{
    let name = name_at(text, span);
    if is_defined_name(done, &name) {
        return Some(refusal_at(line, span.from as u64, AlmCode::E5));
    }
    sum_refusal(line, span.from as u64, is_entry, symbols.find(&name))
}

// The refusal of an argument as a name that a line defines. Only symbols are names.
fn arg_refusal(
    text: &[u8],
    symbols: &Symbols,
    line: &Line36,
    is_entry: bool,
    done: &Defs,
    arg: &Arg,
) -> Option<AlmRefusal>
    ensures { result ≡ arg_refusal text.now symbols.now line.now is_entry done.now arg.now }
{
    match arg {
        Arg::Symbol(span) => name_refusal(text, symbols, line, is_entry, done, *span),
        _ => None,
    }
}

// Adds the definitions of the arguments of a line. Returns the first in the text of `refused` and
// the refusals of these names.
#[tactic(auto, unfolding(crate::specs::Definitions::with_names, crate::specs::Definitions::names_refusal))]
fn push_names(
    text: &[u8],
    symbols: &Symbols,
    line: &Line36,
    is_entry: bool,
    refused: Option<AlmRefusal>,
    done: &mut Defs,
) -> Result<Option<AlmRefusal>, NoMemory>
    ensures definitions { OnOk result
        (done.new ≡ with_names text.now symbols.now is_entry done.old line.now.args) }
    ensures refused { IfOk result (λ r.
        r ≡ names_refusal text.now symbols.now line.now is_entry done.old refused line.now.args) }
{
    let mut first = refused;
    let mut rest = line.args.items();
    while let [arg, more @ ..] = rest {
        let refusal = arg_refusal(text, symbols, line, is_entry, done, arg);
        first = earlier_refusal(first, refusal);
        push_named(text, symbols, is_entry, arg, done)?;
        rest = more;
    }
    Ok(first)
}

/// Adds the definitions of a line. Returns the first refusal of one of them, or `refused` if that
/// is earlier.
#[tactic(auto, unfolding(crate::specs::Definitions::definitions_after))]
pub fn push_definitions(
    text: &[u8],
    symbols: &Symbols,
    line: &Line36,
    refused: Option<AlmRefusal>,
    done: &mut Defs,
) -> Result<Option<AlmRefusal>, NoMemory>
    ensures definitions { OnOk result
        (done.new ≡ definitions_after text.now symbols.now done.old line.now) }
    ensures refused { IfOk result (λ r.
        r
        ≡ definitions_refusal text.now symbols.now line.now done.old refused line.now.args
        (defines_entries line.now.deed)) }
{
    match defines_entries(line.deed) {
        None => Ok(refused),
        Some(is_entry) => push_names(text, symbols, line, is_entry, refused, done),
    }
}

/// The definitions of lines. Fails only with `NoMemory`.
#[tactic(auto, unfolding(crate::specs::Definitions::definitions_from))]
pub fn definitions_of(
    alloc: Global,
    text: &[u8],
    symbols: &Symbols,
    lines: &[Line36],
) -> Result<Defs, NoMemory>
    ensures { IfOk result (λ done. done ≡ definitions_from text.now symbols.now [] lines.now) }
{
    let mut done = Defs::new(alloc, symbols.seed());
    let mut rest = lines;
    while let [line, more @ ..] = rest {
        push_definitions(text, symbols, line, None, &mut done)?;
        rest = more;
    }
    Ok(done)
}
