//! The names of operations: how their operands are parsed, and what they do.

ghost use Rattle.std.specs.Prelude.{◌≡◌, Option, option_map, IfSome};
ghost use Rattle.alm_tokens.specs.Tokens.{is_text};
ghost use Rattle.alm_parse.specs.Operations.{directive, operation_of};
ghost use Rattle.alm_parse.specs.Deeds.{effect_named};

use crate::deed::LineEffect;
use crate::operation::Operation;
use m36_inst::by_name;

// Whether a text is this name.
fn is_named(bytes: &[u8], name: &[u8]) -> bool
    ensures { result ≡ is_text name.now bytes.now }
{
    bytes == name
}

// The kind of operand and the effect of a directive of the assembler. None if this is not the name
// of one.
#[tactic(auto, unfolding(crate::specs::Operations::directive))]
fn directive(bytes: &[u8]) -> Option<(Operation, LineEffect)>
    ensures { result ≡ directive bytes.now }
{
    if is_named(bytes, b"entry") {
        return Some((Operation::Names, LineEffect::Entry));
    }
    if is_named(bytes, b"segdef") {
        return Some((Operation::Names, LineEffect::Segdef));
    }
    if is_named(bytes, b"equ") {
        return Some((Operation::Value, LineEffect::Equ));
    }
    if is_named(bytes, b"use") {
        return Some((Operation::Section, LineEffect::Use));
    }
    if is_named(bytes, b"dec") {
        return Some((Operation::Decimal, LineEffect::Words));
    }
    if is_named(bytes, b"oct") {
        return Some((Operation::Octal, LineEffect::Words));
    }
    if is_named(bytes, b"aci") {
        return Some((Operation::Characters, LineEffect::Words));
    }
    if is_named(bytes, b"zero") {
        return Some((Operation::Halves, LineEffect::Zero));
    }
    if is_named(bytes, b"bss") {
        return Some((Operation::Block, LineEffect::Block));
    }
    if is_named(bytes, b"even") {
        return Some((Operation::Bare, LineEffect::Even));
    }
    if is_named(bytes, b"entrybound") {
        return Some((Operation::Bare, LineEffect::Bound));
    }
    if is_named(bytes, b"end") {
        return Some((Operation::End, LineEffect::Nothing));
    }
    None
}

/// The meaning of the name of an operation: how its operand is parsed, and what the operation does.
#[derive(Clone, Copy)]
pub struct Meaning {
    pub operation: Operation,
    pub deed: LineEffect,
}

/// The meaning of the name of an operation. None if there is no operation of this name.
#[tactic(auto, unfolding(crate::specs::Operations::operation_of, crate::specs::Deeds::effect_named))]
pub fn meaning_of(bytes: &[u8]) -> Option<Meaning>
    ensures operation { option_map (λ meaning. meaning.operation) result ≡ operation_of bytes.now }
    ensures deed { IfSome result (λ meaning. meaning.deed ≡ effect_named bytes.now) }
{
    if let Some((operation, deed)) = directive(bytes) {
        return Some(Meaning { operation, deed });
    }
    match by_name(bytes) {
        Some((code, bit27)) => Some(Meaning {
            operation: Operation::Instruction,
            deed: LineEffect::Instruction(code, bit27),
        }),
        None => None,
    }
}

/// How the operand of an operation is parsed. None if there is no operation of this name.
pub fn operation_of(bytes: &[u8]) -> Option<Operation>
    ensures { result ≡ operation_of bytes.now }
{
    match meaning_of(bytes) {
        Some(meaning) => Some(meaning.operation),
        None => None,
    }
}
