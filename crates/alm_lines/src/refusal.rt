//! Refusals: their order in the text, and how an expression is refused.

ghost use Rattle.std.specs.Prelude.{◌≡◌, ◌-◌, ◌+◌, ◌%◌, ◌^◌, ◌≤◌, length, Option};
ghost use Rattle.alm_lines.specs.Refusals.{code_number, precedes, earlier_refusal, refusal_at};
ghost use Rattle.alm_lines.specs.Refusals.{column_of};
ghost use Rattle.alm_lines.specs.Refusals.{fault_by, fault_of, fits_field, is_kind_allowed};
ghost use Rattle.alm_lines.specs.Refusals.{is_expressible};
ghost use Rattle.alm_lines.specs.Refusals.{refusal_unless_expressible, expression_refusal};
ghost use Rattle.alm_lines.specs.Refusals.{is_over_limit};

use crate::expression::{first_undefined_place, sum_of};
use crate::spot::LocationCounter;
use crate::sum::{Balance, Kind, Sum};
use crate::symbols::Symbols;
use alm_parse::{AlmFault, Line36, Term};
use obj36_parts::halves::OFFSET_LIMIT;
use obj36_parts::sections::SECTION_LIMIT;

/// Why there is no object of some lines.
#[derive(Clone, Copy, PartialEq, Eq)]
pub enum AlmCode {
    /// A symbol, or the name of a definition, is defined a second time.
    E5,
    /// A symbol is not defined.
    E6,
    /// A value does not fit its field, or an object cannot express it: an expression, a link out of
    /// reach, words in a section that must not have them, or the name of a definition that is not a
    /// suitable label.
    E7,
    /// A section or an object is too large.
    E8,
}

/// A code at an index of the text, with the number of its line and the index where that begins.
#[derive(Clone, Copy, PartialEq, Eq)]
pub struct AlmRefusal {
    pub place: u64,
    pub start: u32,
    pub line: u32,
    pub code: AlmCode,
}

/// The field that the value of an expression must fit.
#[derive(Clone, Copy, PartialEq, Eq)]
pub enum ValueField {
    /// Half a word: -131072 to 262143.
    Half,
    /// The signed offset after the number of a pointer register: -16384 to 16383.
    Offset,
}

// The number of a code, by which refusals at one place are ordered.
fn code_number(code: AlmCode) -> u8
    ensures { result ≡ code_number code }
{
    match code {
        AlmCode::E5 => 5,
        AlmCode::E6 => 6,
        AlmCode::E7 => 7,
        AlmCode::E8 => 8,
    }
}

// Whether a refusal is earlier in the text than another, or at the same place with a lesser code.
#[tactic(auto, unfolding(crate::specs::Refusals::precedes))]
fn precedes(a: AlmRefusal, b: AlmRefusal) -> bool
    ensures { result ≡ precedes a b }
{
    a.place < b.place || (a.place == b.place && code_number(a.code) < code_number(b.code))
}

/// The first of two refusals in the order of the text, if there are any.
pub fn earlier_refusal(a: Option<AlmRefusal>, b: Option<AlmRefusal>) -> Option<AlmRefusal>
    ensures { result ≡ earlier_refusal a b }
{
    match (a, b) {
        (None, b) => b,
        (Some(a), None) => Some(a),
        (Some(a), Some(b)) => { if precedes(b, a) { Some(b) } else { Some(a) } }
    }
}

/// A refusal at an index of the text, in this line.
pub fn refusal_at(line: &Line36, place: u64, code: AlmCode) -> AlmRefusal
    ensures { result ≡ refusal_at line.now place code }
{
    AlmRefusal {
        place,
        start: line.start,
        line: line.line,
        code,
    }
}

// The column of a refusal, counted from 1.
fn column_of(refusal: AlmRefusal) -> u32
    ensures { result ≡ column_of refusal }
{
    let column = refusal.place.saturating_sub(refusal.start as u64) % (1 << 32);
    ((column + 1) % (1 << 32)) as u32
}

// The fault with this code at a line and a column.
fn fault_by(code: AlmCode, line: u32, column: u32) -> AlmFault
    ensures { result ≡ fault_by code line column }
{
    match code {
        AlmCode::E5 => AlmFault::E5(line, column),
        AlmCode::E6 => AlmFault::E6(line, column),
        AlmCode::E7 => AlmFault::E7(line, column),
        AlmCode::E8 => AlmFault::E8(line, column),
    }
}

/// The fault of a refusal, with the number of its line and its column.
#[tactic(auto, unfolding(crate::specs::Refusals::fault_of))]
pub fn fault_of(refusal: AlmRefusal) -> AlmFault
    ensures { result ≡ fault_of refusal }
{
    fault_by(refusal.code, refusal.line, column_of(refusal))
}

/// Whether a number fits a field.
pub fn fits_field(room: ValueField, value: Balance) -> bool
    ensures { result ≡ fits_field room value }
{
    match room {
        ValueField::Half => value.is_within(131072, 262143),
        ValueField::Offset => value.is_within(OFFSET_LIMIT, OFFSET_LIMIT - 1),
    }
}

// Whether an object can express a sum of this kind. `may_move` says whether the field may have a
// place of a section.
pub(crate) fn is_kind_allowed(may_move: bool, kind: Kind) -> bool
    ensures { result ≡ is_kind_allowed may_move kind }
{
    match kind {
        Kind::Absolute => true,
        Kind::Moved(_) => may_move,
        Kind::Inexpressible => false,
    }
}

/// Whether an object can express a sum in this field: the number fits, and the sum is a number or,
/// if `may_move` allows it, a place of a section.
#[tactic(auto, unfolding(crate::specs::Refusals::is_expressible))]
pub fn is_expressible(room: ValueField, may_move: bool, sum: Sum) -> bool
    ensures { result ≡ is_expressible room may_move sum }
{
    fits_field(room, sum.value) && is_kind_allowed(may_move, sum.kind())
}

// The refusal of an expression that begins at `place`: E6 at `undefined`, its first symbol that is
// not defined, if there is one; otherwise E7, unless `said`: an object can express its value.
pub(crate) fn refusal_unless_expressible(
    line: &Line36,
    undefined: Option<u32>,
    place: u64,
    said: bool,
) -> Option<AlmRefusal>
    ensures { result ≡ refusal_unless_expressible line.now undefined place said }
{
    match undefined {
        Some(at) => Some(refusal_at(line, at as u64, AlmCode::E6)),
        None => {
            if said {
                None
            } else {
                Some(refusal_at(line, place, AlmCode::E7))
            }
        }
    }
}

/// The requirements on an expression.
#[derive(Clone, Copy)]
pub struct Requirement {
    /// The index in the text where the expression begins.
    pub place: u64,
    pub room: ValueField,
    /// Whether it may be a place of a section.
    pub may_move: bool,
}

/// The refusal of an expression: E6 at its first symbol that is not defined, or otherwise E7 if its
/// value does not meet the requirements. A value that depends on a refused `equ` is not refused.
#[tactic(auto, unfolding(crate::specs::Refusals::expression_refusal))]
pub fn expression_refusal(
    text: &[u8],
    symbols: &Symbols,
    spot: LocationCounter,
    line: &Line36,
    terms: &[Term],
    wanted: Requirement,
) -> Option<AlmRefusal>
    requires { length terms.now ≤ 2 ^ 32 }
    ensures { result
        ≡ expression_refusal text.now symbols.now spot line.now terms.now wanted.place wanted.room
        wanted.may_move }
{
    let sum = sum_of(text, symbols, spot, terms);
    let said = sum.unknown || is_expressible(wanted.room, wanted.may_move, sum);
    refusal_unless_expressible(
        line,
        first_undefined_place(text, symbols, terms),
        wanted.place,
        said,
    )
}

/// Whether this many words are too many for a section of an object.
pub fn is_over_limit(words: u128) -> bool
    ensures { result ≡ is_over_limit words }
{
    words > SECTION_LIMIT as u128
}
