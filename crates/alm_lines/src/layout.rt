//! Defines the symbols of lines, and refuses their definitions and the lengths of sections.

ghost use Rattle.std.specs.Prelude.{true, [], ◌∷◌, ◌≡◌, ◌^◌, ◌<◌, length, Option, None};
ghost use Rattle.std.specs.Prelude.{OnOk, IfOk};
ghost use Rattle.alm_lines.specs.Sums.{IsTerm};
ghost use Rattle.alm_lines.specs.Symbols.{with_symbol};
ghost use Rattle.alm_lines.specs.Arguments.{name_at};
ghost use Rattle.alm_lines.specs.Spots.{start, next_line_spot, HasRoomForLines};
ghost use Rattle.alm_lines.specs.Refusals.{earlier_refusal, fits_field};
ghost use Rattle.alm_lines.specs.declared.refusal.ValueField.TheVariants.{Half};
ghost use Rattle.alm_lines.specs.Layout.{redefinition, with_labels, labels_refusal, defined_symbol};
ghost use Rattle.alm_lines.specs.Layout.{defined_symbol_refusal, equ_refusal, number_sum, equ_sum};
ghost use Rattle.alm_lines.specs.Layout.{defined_symbol_sum, with_defined_symbol, own_redefinition};
ghost use Rattle.alm_lines.specs.Layout.{symbols_with_defined, definition_refusal};
ghost use Rattle.alm_lines.specs.Layout.{over_limit_refusal, symbols_after, refusal_after};
ghost use Rattle.alm_lines.specs.Layout.{symbols_from};
ghost use Rattle.alm_lines.specs.Layout.{layout_refusal};

use crate::arguments::{first_symbol, name_at, second_terms};
use crate::expression::{expression_place, is_defined, sum_of};
use crate::refusal::{
    AlmCode, AlmRefusal, Requirement, ValueField, earlier_refusal, expression_refusal,
    is_over_limit, refusal_at,
};
use crate::spot::{LocationCounter, next_line_spot};
use crate::sum::{NOTHING, Sum, unknown};
use crate::symbols::Symbols;
use crate::value::has_value;
use alm_parse::{Arg, Line36, LineEffect, Span};
use m36_text::HashSeed;
use m36_word::NoMemory;
use std::alloc::Global;

// The refusal (E5) of a symbol that is defined already.
#[tactic(auto, unfolding(crate::specs::Layout::redefinition))]
fn redefinition(text: &[u8], line: &Line36, symbols: &Symbols, span: Span) -> Option<AlmRefusal>
    ensures { result ≡ redefinition text.now line.now symbols.now span }
{
    if is_defined(text, symbols, span) {
        Some(refusal_at(line, span.from as u64, AlmCode::E5))
    } else {
        None
    }
}

// Defines the symbol in a span, unless it is defined already.
fn define(text: &[u8], symbols: &mut Symbols, span: Span, sum: Sum) -> Result<(), NoMemory>
    requires { IsTerm sum }
    ensures { OnOk result (symbols.new ≡ with_symbol symbols.old (name_at text.now span) sum) }
{
    symbols.define(name_at(text, span), sum)
}

// Defines the labels of a line. Returns the first in the text of `refused` and the refusals of
// those that are defined already.
#[tactic(auto, unfolding(crate::specs::Layout::with_labels, crate::specs::Layout::labels_refusal))]
fn define_labels(
    text: &[u8],
    line: &Line36,
    symbols: &mut Symbols,
    sum: Sum,
    refused: Option<AlmRefusal>,
) -> Result<Option<AlmRefusal>, NoMemory>
    requires { IsTerm sum }
    ensures symbols { OnOk result
        (symbols.new ≡ with_labels text.now sum symbols.old line.now.labels) }
    ensures refused { IfOk result (λ r.
        r ≡ labels_refusal text.now line.now sum symbols.old refused line.now.labels) }
{
    let mut first = refused;
    let mut rest = line.labels.items();
    while let [span, more @ ..] = rest {
        first = earlier_refusal(first, redefinition(text, line, symbols, *span));
        define(text, symbols, *span, sum)?;
        rest = more;
    }
    Ok(first)
}

// The symbol that an operation defines: the first argument of `equ` and `bss`.
fn defined_symbol(deed: LineEffect, args: &[Arg]) -> Option<Span>
    ensures { result ≡ defined_symbol deed args.now }
{
    match deed {
        LineEffect::Equ | LineEffect::Block => first_symbol(args),
        LineEffect::Nothing
        | LineEffect::Instruction(_, _)
        | LineEffect::Entry
        | LineEffect::Segdef
        | LineEffect::Use
        | LineEffect::Words
        | LineEffect::Zero
        | LineEffect::Even
        | LineEffect::Bound => None,
    }
}

// The refusal of an `equ` whose expression is not a number by the symbols above.
fn equ_refusal(
    text: &[u8],
    symbols: &Symbols,
    spot: LocationCounter,
    line: &Line36,
) -> Option<AlmRefusal>
    ensures { result ≡ equ_refusal text.now symbols.now spot line.now }
{
    let terms = second_terms(line.args.items());
    let wanted = Requirement {
        place: expression_place(terms) as u64,
        room: ValueField::Half,
        may_move: false,
    };
    expression_refusal(text, symbols, spot, line, terms, wanted)
}

// The sum that is the number of this sum, and not a place of a section.
#[tactic(auto, using(crate::proofs::SumLaws::number_small))]
fn number_sum(sum: Sum) -> Sum
    requires { fits_field Half sum.value ≡ true }
    ensures value { result ≡ number_sum sum }
    ensures small { IsTerm result }
{
    Sum {
        value: sum.value.normalized(),
        text: NOTHING,
        inner: NOTHING,
        outer: NOTHING,
        unknown: false,
    }
}

// The sum of the symbol of an `equ`: the number of its expression; unknown if it is refused or
// depends on an unknown one.
#[tactic(auto, using(crate::proofs::SumLaws::valued_fits), unfolding(crate::specs::Layout::equ_sum))]
fn equ_sum(text: &[u8], symbols: &Symbols, spot: LocationCounter, line: &Line36) -> Sum
    ensures value { result ≡ equ_sum text.now symbols.now spot line.now }
    ensures small { IsTerm result }
{
    let terms = second_terms(line.args.items());
    if !has_value(text, symbols, spot, terms, ValueField::Half, false) {
        return unknown();
    }
    number_sum(sum_of(text, symbols, spot, terms))
}

// The refusal of the value of the symbol that an operation defines: that of the expression of an
// `equ`.
fn defined_symbol_refusal(
    text: &[u8],
    symbols: &Symbols,
    spot: LocationCounter,
    line: &Line36,
    deed: LineEffect,
) -> Option<AlmRefusal>
    ensures { result ≡ defined_symbol_refusal text.now symbols.now spot line.now deed }
{
    match deed {
        LineEffect::Equ => equ_refusal(text, symbols, spot, line),
        LineEffect::Nothing
        | LineEffect::Instruction(_, _)
        | LineEffect::Entry
        | LineEffect::Segdef
        | LineEffect::Use
        | LineEffect::Words
        | LineEffect::Zero
        | LineEffect::Block
        | LineEffect::Even
        | LineEffect::Bound => None,
    }
}

// The sum of the symbol that an operation defines: the number of an `equ`, or the place of the
// line.
fn defined_symbol_sum(
    text: &[u8],
    symbols: &Symbols,
    spot: LocationCounter,
    line: &Line36,
    deed: LineEffect,
) -> Sum
    ensures value { result ≡ defined_symbol_sum text.now symbols.now spot line.now deed }
    ensures small { IsTerm result }
{
    match deed {
        LineEffect::Equ => equ_sum(text, symbols, spot, line),
        LineEffect::Nothing
        | LineEffect::Instruction(_, _)
        | LineEffect::Entry
        | LineEffect::Segdef
        | LineEffect::Use
        | LineEffect::Words
        | LineEffect::Zero
        | LineEffect::Block
        | LineEffect::Even
        | LineEffect::Bound => spot.here(),
    }
}

// The refusal of the symbol that an operation defines, if it is defined already.
fn own_redefinition(
    text: &[u8],
    line: &Line36,
    symbols: &Symbols,
    own: Option<Span>,
) -> Option<AlmRefusal>
    ensures { result ≡ own_redefinition text.now line.now symbols.now own }
{
    match own {
        Some(span) => redefinition(text, line, symbols, span),
        None => None,
    }
}

// Defines the symbol of an operation, if it has one.
fn define_operation_symbol(
    text: &[u8],
    symbols: &mut Symbols,
    own: Option<Span>,
    sum: Sum,
) -> Result<(), NoMemory>
    requires { IsTerm sum }
    ensures { OnOk result (symbols.new ≡ with_defined_symbol text.now symbols.old own sum) }
{
    match own {
        Some(span) => define(text, symbols, span, sum),
        None => Ok(()),
    }
}

// The refusal of the symbol that the operation of a line defines: it is defined already, or its
// value is refused.
#[tactic(auto, unfolding(crate::specs::Layout::definition_refusal))]
fn definition_refusal(
    text: &[u8],
    symbols: &Symbols,
    spot: LocationCounter,
    line: &Line36,
    deed: LineEffect,
) -> Option<AlmRefusal>
    ensures { result ≡ definition_refusal text.now symbols.now spot line.now deed }
{
    let own = defined_symbol(deed, line.args.items());
    let refused = defined_symbol_refusal(text, symbols, spot, line, deed);
    earlier_refusal(own_redefinition(text, line, symbols, own), refused)
}

// Defines the symbol that a line with this operation defines, if any.
#[tactic(auto, unfolding(crate::specs::Layout::symbols_with_defined))]
fn define_symbol_of_line(
    text: &[u8],
    symbols: &mut Symbols,
    spot: LocationCounter,
    line: &Line36,
    deed: LineEffect,
) -> Result<(), NoMemory>
    ensures { OnOk result (symbols.new ≡ symbols_with_defined text.now symbols.old spot line.now
        deed) }
{
    let sum = defined_symbol_sum(text, symbols, spot, line, deed);
    define_operation_symbol(text, symbols, defined_symbol(deed, line.args.items()), sum)
}

// The refusal (E8) of a section with more words than it may have, at the line that makes it too
// long.
#[tactic(auto, unfolding(crate::specs::Layout::over_limit_refusal))]
fn over_limit_refusal(line: &Line36, spot: LocationCounter) -> Option<AlmRefusal>
    ensures { result ≡ over_limit_refusal line.now spot }
{
    if is_over_limit(spot.count()) {
        Some(refusal_at(line, line.start as u64, AlmCode::E8))
    } else {
        None
    }
}

// Defines the symbols of a line. Returns the first in the text of `refused`, the refusals of these
// symbols, and that of a section that the line makes too long.
#[tactic(auto, unfolding(crate::specs::Layout::symbols_after, crate::specs::Layout::refusal_after))]
fn add_line_symbols(
    alloc: Global,
    text: &[u8],
    symbols: &mut Symbols,
    spot: LocationCounter,
    line: &Line36,
    refused: Option<AlmRefusal>,
) -> Result<Option<AlmRefusal>, NoMemory>
    requires { HasRoomForLines 1 spot }
    ensures symbols { OnOk result (symbols.new ≡ symbols_after text.now symbols.old spot line.now) }
    ensures refused { IfOk result (λ r.
        r ≡ refusal_after text.now refused symbols.old spot line.now) }
{
    let deed = line.deed;
    let after = next_line_spot(alloc, text, spot, line)?;
    let labels = define_labels(text, line, symbols, spot.here(), refused)?;
    let own = definition_refusal(text, symbols, spot, line, deed);
    define_symbol_of_line(text, symbols, spot, line, deed)?;
    Ok(earlier_refusal(
        earlier_refusal(labels, own),
        over_limit_refusal(line, after),
    ))
}

// Defines the symbols of lines. Returns the first refusal of a definition or of the length of a
// section.
#[tactic(auto, using(crate::proofs::Rooms::rooms), unfolding(crate::specs::Layout::symbols_from, crate::specs::Layout::layout_refusal))]
fn add_symbols_of_lines(
    alloc: Global,
    text: &[u8],
    symbols: &mut Symbols,
    lines: &[Line36],
) -> Result<Option<AlmRefusal>, NoMemory>
    requires { length lines.now < 2 ^ 32 }
    ensures symbols { OnOk result
        (symbols.new ≡ symbols_from text.now symbols.old start lines.now) }
    ensures refused { IfOk result (λ r.
        r ≡ layout_refusal text.now None symbols.old start lines.now) }
{
    let mut refused = None;
    let mut spot = LocationCounter::start();
    let mut rest = lines;
    while let [line, more @ ..] = rest {
        refused = add_line_symbols(alloc, text, symbols, spot, line, refused)?;
        spot = next_line_spot(alloc, text, spot, line)?;
        rest = more;
    }
    Ok(refused)
}

/// The symbols of lines, and the first refusal of a definition or of the length of a section.
#[derive(Drop)]
pub struct Layout {
    pub symbols: Symbols,
    pub refused: Option<AlmRefusal>,
}

/// Lays out lines: defines their symbols, and finds the first refusal. There are fewer than 2^32
/// lines. Fails only with `NoMemory`.
pub fn layout_of(alloc: Global, text: &[u8], lines: &[Line36]) -> Result<Layout, NoMemory>
    requires { length lines.now < 2 ^ 32 }
    ensures symbols { IfOk result (λ layout.
        layout.symbols ≡ symbols_from text.now [] start lines.now) }
    ensures refused { IfOk result (λ layout.
        layout.refused ≡ layout_refusal text.now None [] start lines.now) }
{
    let mut symbols = Symbols::new(alloc, HashSeed::of(text));
    match add_symbols_of_lines(alloc, text, &mut symbols, lines) {
        Ok(refused) => Ok(Layout { symbols, refused }),
        Err(fault) => {
            // Dropped explicitly, so that the drop is proved once for its type.
            drop(symbols);
            Err(fault)
        }
    }
}
