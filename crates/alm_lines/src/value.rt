//! The values of expressions.

ghost use Rattle.std.specs.Prelude.{[], ◌∷◌, ◌≡◌, ◌^◌, ◌<◌, ◌≤◌, length, Some, None};
ghost use Rattle.std.specs.Prelude.{if◌then◌else◌};
ghost use Rattle.alm_lines.specs.Sums.{kind_of, zero_sum, IsTerm};
ghost use Rattle.alm_lines.specs.Refusals.{expression_refusal};
ghost use Rattle.alm_lines.specs.Expressions.{symbol_sum, atom_sum, sum_of};
ghost use Rattle.alm_lines.specs.Expressions.{is_defined, first_undefined_place};
ghost use Rattle.alm_lines.specs.Values.{has_value, value_of_sum, value_of_expression};
ghost use Rattle.alm_lines.specs.Values.{fits_value_field, value_is_expressible, is_usable_value};
ghost use Rattle.alm_lines.specs.Values.{evaluated_refusal};

use crate::arguments::name_at;
use crate::expression::{first_undefined_place, sum_of};
use crate::refusal::{
    AlmRefusal, Requirement, ValueField, fits_field, is_expressible, is_kind_allowed,
    refusal_unless_expressible,
};
use crate::spot::LocationCounter;
use crate::sum::{Kind, Sum, absolute};
use crate::symbols::Symbols;
use alm_parse::{Atom, Line36, Span, Term};
use std::marker::Model;

/// The value of an expression, as far as a word, a relocation or a refusal needs it.
#[derive(Clone, Copy, PartialEq, Eq)]
pub struct Value {
    /// The number modulo 2^18.
    pub half: u32,
    /// The index in the text of its first symbol that is not defined.
    pub undefined: Option<u32>,
    /// The number modulo 2^15.
    pub offset: u16,
    pub kind: Kind,
    pub fits_half: bool,
    pub fits_offset: bool,
    /// Whether it depends on the symbol of a refused `equ`.
    pub unknown: bool,
}

impl Model for Value {
    ghost use Rattle.std.specs.Prelude.{◌<◌, ◌^◌};
    ghost use Rattle.alm_lines.specs.ValueFields.{ValueFields};

    ghost Value = { ValueFields };

    ghost view = { λ v. record {
      half = v.half;
      undefined = v.undefined;
      offset = v.offset;
      kind = v.kind;
      fits_half = v.fits_half;
      fits_offset = v.fits_offset;
      unknown = v.unknown;
    } };

    ghost invariant = { λ v. (v.half < 2 ^ 18) × (v.offset < 2 ^ 15) };

    ghost inverse = { λ v. record {
      half = v.half;
      undefined = v.undefined;
      offset = v.offset;
      kind = v.kind;
      fits_half = v.fits_half;
      fits_offset = v.fits_offset;
      unknown = v.unknown;
    } };
}

// The value of a sum. `undefined` is the index in the text of the first symbol that is not defined.
fn value_of_sum(sum: Sum, undefined: Option<u32>) -> Value
    ensures { result ≡ value_of_sum sum undefined }
{
    Value {
        half: sum.value.half() as u32,
        undefined,
        offset: sum.value.offset() as u16,
        kind: sum.kind(),
        fits_half: fits_field(ValueField::Half, sum.value),
        fits_offset: fits_field(ValueField::Offset, sum.value),
        unknown: sum.unknown,
    }
}

/// A sum, and the index in the text of the first symbol that is not defined, which counts as 0.
#[derive(Clone, Copy)]
pub struct SumAndUndefined {
    pub sum: Sum,
    pub undefined: Option<u32>,
}

// Looks up a symbol, once for both the sum and whether it is defined.
#[tactic(auto, unfolding(crate::specs::Expressions::symbol_sum, crate::specs::Expressions::is_defined))]
fn symbol_sum_and_undefined(text: &[u8], symbols: &Symbols, span: Span) -> SumAndUndefined
    ensures sum { result.sum ≡ symbol_sum text.now symbols.now span }
    ensures small { IsTerm result.sum }
    ensures undefined { result.undefined
        ≡ (if is_defined text.now symbols.now span then None else Some span.from) }
{
    match symbols.find(&name_at(text, span)) {
        Some(sum) => SumAndUndefined {
            sum,
            undefined: None,
        },
        None => SumAndUndefined {
            sum: absolute(0),
            undefined: Some(span.from),
        },
    }
}

// The sum of a term without its sign, and where it is a symbol that is not defined.
#[tactic(auto, using(crate::proofs::ValueLaws::undefined_alone))]
fn atom_sum_and_undefined(
    text: &[u8],
    symbols: &Symbols,
    spot: LocationCounter,
    term: Term,
) -> SumAndUndefined
    ensures sum { result.sum ≡ atom_sum text.now symbols.now spot term.span term.what }
    ensures small { IsTerm result.sum }
    ensures undefined { result.undefined ≡ first_undefined_place text.now symbols.now (term ∷ []) }
{
    match term.what {
        Atom::Symbol => symbol_sum_and_undefined(text, symbols, term.span),
        Atom::Number(n) => SumAndUndefined {
            sum: absolute(n as u64),
            undefined: None,
        },
        Atom::Here => SumAndUndefined {
            sum: spot.here(),
            undefined: None,
        },
    }
}

// The sum of a term, and where it is a symbol that is not defined.
#[tactic(auto, using(crate::proofs::ValueLaws::sum_alone), unfolding(crate::specs::Expressions::term_sum))]
fn term_sum_and_undefined(
    text: &[u8],
    symbols: &Symbols,
    spot: LocationCounter,
    term: Term,
) -> SumAndUndefined
    ensures sum { result.sum ≡ sum_of text.now symbols.now spot (term ∷ []) }
    ensures undefined { result.undefined ≡ first_undefined_place text.now symbols.now (term ∷ []) }
{
    let atom = atom_sum_and_undefined(text, symbols, spot, term);
    SumAndUndefined {
        sum: if term.minus {
            atom.sum.negated()
        } else {
            atom.sum
        },
        undefined: atom.undefined,
    }
}

// The sum of an expression, and its first symbol that is not defined. Most expressions have one
// term, so a symbol in it is looked up only once.
fn sum_and_undefined(
    text: &[u8],
    symbols: &Symbols,
    spot: LocationCounter,
    terms: &[Term],
) -> SumAndUndefined
    requires { length terms.now ≤ 2 ^ 32 }
    ensures sum { result.sum ≡ sum_of text.now symbols.now spot terms.now }
    ensures undefined { result.undefined ≡ first_undefined_place text.now symbols.now terms.now }
{
    match terms {
        [term] => term_sum_and_undefined(text, symbols, spot, *term),
        _ => SumAndUndefined {
            sum: sum_of(text, symbols, spot, terms),
            undefined: first_undefined_place(text, symbols, terms),
        },
    }
}

/// The value of an expression.
#[tactic(auto, unfolding(crate::specs::Values::value_of_expression))]
pub fn evaluate(text: &[u8], symbols: &Symbols, spot: LocationCounter, terms: &[Term]) -> Value
    requires { length terms.now ≤ 2 ^ 32 }
    ensures { result ≡ value_of_expression text.now symbols.now spot terms.now }
{
    let sought = sum_and_undefined(text, symbols, spot, terms);
    value_of_sum(sought.sum, sought.undefined)
}

/// The value of an expression without terms.
#[tactic(auto, using(crate::proofs::ValueLaws::no_value_is))]
pub fn empty_expression_value() -> Value
    ensures { result ≡ value_of_sum zero_sum None }
{
    Value {
        half: 0,
        undefined: None,
        offset: 0,
        kind: Kind::Absolute,
        fits_half: true,
        fits_offset: true,
        unknown: false,
    }
}

// Whether a value fits a field.
fn fits_value_field(room: ValueField, value: Value) -> bool
    ensures { result ≡ fits_value_field room value }
{
    match room {
        ValueField::Half => value.fits_half,
        ValueField::Offset => value.fits_offset,
    }
}

// Whether a value fits a field and an object can express it there.
fn value_is_expressible(room: ValueField, may_move: bool, value: Value) -> bool
    ensures { result ≡ value_is_expressible room may_move value }
{
    fits_value_field(room, value) && is_kind_allowed(may_move, value.kind)
}

// Whether an expression with this value is not refused, and does not depend on a refused `equ`.
fn is_usable_value(room: ValueField, may_move: bool, value: Value) -> bool
    ensures { result ≡ is_usable_value room may_move value }
{
    value.undefined.is_none() && !value.unknown && value_is_expressible(room, may_move, value)
}

/// Whether an expression has a value: it is not refused, and it does not depend on a refused `equ`.
#[tactic(auto, unfolding(crate::specs::Values::has_value))]
pub fn has_value(
    text: &[u8],
    symbols: &Symbols,
    spot: LocationCounter,
    terms: &[Term],
    room: ValueField,
    may_move: bool,
) -> bool
    requires { length terms.now ≤ 2 ^ 32 }
    ensures { result ≡ has_value text.now symbols.now spot terms.now room may_move }
{
    let sum = sum_of(text, symbols, spot, terms);
    first_undefined_place(text, symbols, terms).is_none()
        && !sum.unknown
        && is_expressible(room, may_move, sum)
}

/// As `has_value`, if `value` is what `evaluate` returned for the expression: whether it is not
/// refused, and does not depend on a refused `equ`.
#[tactic(auto, using(crate::proofs::ValueLaws::value_given))]
pub fn evaluated_has_value(
    _text: &[u8],
    _symbols: &Symbols,
    _spot: LocationCounter,
    _terms: &[Term],
    room: ValueField,
    may_move: bool,
    value: Value,
) -> bool
    requires { value ≡ value_of_expression _text.now _symbols.now _spot _terms.now }
    ensures { result ≡ has_value _text.now _symbols.now _spot _terms.now room may_move }
{
    is_usable_value(room, may_move, value)
}

// The refusal of an expression with this value, if the field may not have it.
fn refusal_of_value(line: &Line36, value: Value, wanted: Requirement) -> Option<AlmRefusal>
    ensures { result ≡ evaluated_refusal line.now value wanted.place wanted.room wanted.may_move }
{
    let said = value.unknown || value_is_expressible(wanted.room, wanted.may_move, value);
    refusal_unless_expressible(line, value.undefined, wanted.place, said)
}

/// As `expression_refusal`, if `value` is what `evaluate` returned for the expression.
#[tactic(auto, using(crate::proofs::ValueLaws::refused_given))]
pub fn evaluated_refusal(
    _text: &[u8],
    _symbols: &Symbols,
    _spot: LocationCounter,
    line: &Line36,
    _terms: &[Term],
    wanted: Requirement,
    value: Value,
) -> Option<AlmRefusal>
    requires { value ≡ value_of_expression _text.now _symbols.now _spot _terms.now }
    ensures { result
        ≡ expression_refusal _text.now _symbols.now _spot line.now _terms.now wanted.place
        wanted.room wanted.may_move }
{
    refusal_of_value(line, value, wanted)
}

/// The kind of the sum of an expression, if `value` is what `evaluate` returned for it.
#[tactic(auto, using(crate::proofs::ValueLaws::kind_given))]
pub fn evaluated_kind(
    _text: &[u8],
    _symbols: &Symbols,
    _spot: LocationCounter,
    _terms: &[Term],
    value: Value,
) -> Kind
    requires { value ≡ value_of_expression _text.now _symbols.now _spot _terms.now }
    ensures { result ≡ kind_of (sum_of _text.now _symbols.now _spot _terms.now) }
{
    value.kind
}
