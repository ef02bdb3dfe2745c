//! Faults of the names of a definition section, in a list of words.

ghost use Rattle.std.specs.Prelude.{◌≡◌, ◌+◌, ◌-◌, ◌%◌, ◌^◌, ◌<◌, ◌&&◌};
ghost use Rattle.std.specs.Prelude.{length, Option, Some, None, IfSome};
ghost use Rattle.std.specs.Prelude.{if◌then◌else◌};
ghost use Rattle.obj36_parts.specs.Names.{is_name_character};
ghost use Rattle.obj36_read.specs.TableFaults.{definition_count};
ghost use Rattle.obj36_read.specs.TableFaults.{first_definition, expression_count};
ghost use Rattle.obj36_read.specs.TableFaults.{first_expression, are_characters, are_zeros};
ghost use Rattle.obj36_read.specs.TableFaults.{is_name_at, name_fault, defined_names_fault};
ghost use Rattle.obj36_read.specs.TableFaults.{expression_fault, linked_names_fault, names_fault};

use crate::reading::{quarter_from, word_at};
use crate::tables::{
    count_of_definitions, count_of_expressions, earlier_of, first_definition_offset,
    first_expression_offset, index_if, is_name_within, next_definition_offset, offset_of_name,
};
use m36_text::{LONGEST_NAME, is_name_character};
use m36_word::Word;
use obj36_parts::halves::{left_of, right_of};
use obj36_parts::names::{kind_has_entry, kind_has_name};

// Whether a part of nine bits is a character that a name can have.
fn is_name_quarter(quarter: u64) -> bool
    ensures { result ≡ is_name_character quarter }
{
    quarter < 1 << 8 && is_name_character(quarter as u8)
}

// Whether `count` nine-bit parts, from part `from` of the word `at` on, are characters of a name.
fn have_name_bytes(d: &[Word], at: u64, from: u64, count: u64) -> bool
    requires at { at < 2 ^ 20 }
    requires from { from < 2 ^ 20 }
    requires count { count < 2 ^ 20 }
    ensures { result ≡ are_characters d.now at from count }
{
    for i in 0..count {
        if !is_name_quarter(quarter_from(d, at, from + i)) {
            return false;
        }
    }
    true
}

// Whether `count` nine-bit parts, from part `from` of the word `at` on, are zero.
fn have_zeros(d: &[Word], at: u64, from: u64, count: u64) -> bool
    requires at { at < 2 ^ 20 }
    requires from { from < 2 ^ 20 }
    requires count { count < 2 ^ 20 }
    ensures { result ≡ are_zeros d.now at from count }
{
    for i in 0..count {
        if quarter_from(d, at, from + i) != 0 {
            return false;
        }
    }
    true
}

// Whether there is a valid name at an offset.
#[tactic(auto, unfolding(crate::specs::TableFaults::is_name_at))]
fn has_good_name(d: &[Word], at: u64) -> bool
    requires { at < 2 ^ 20 }
    ensures { result ≡ is_name_at d.now at }
{
    let length = quarter_from(d, at, 0);
    is_name_within(d, at)
        && 1 <= length
        && length <= LONGEST_NAME as u64
        && have_name_bytes(d, at, 1, length)
        && have_zeros(d, at, length + 1, 3 - length % 4)
}

// The fault of the name at an offset. If the offset is past the section, it is that of the word
// `holder`, which has the offset.
#[tactic(auto, unfolding(crate::specs::TableFaults::name_fault))]
fn fault_of_name(d: &[Word], holder: u64, at: u64) -> Option<u64>
    requires holder { holder < 2 ^ 20 }
    requires at { at < 2 ^ 20 }
    ensures value { result ≡ name_fault d.now holder at }
    ensures bound { IfSome result (λ p. p < 2 ^ 20) }
{
    if d.len() as u64 <= at {
        return Some(holder);
    }
    index_if(!has_good_name(d, at), at)
}

// The first fault of the names of definitions.
fn fault_of_defined_names(d: &[Word]) -> Option<u64>
    ensures value { result
        ≡ defined_names_fault d.now (definition_count d.now) (first_definition d.now) }
    ensures bound { IfSome result (λ p. p < 2 ^ 20) }
{
    let mut found = None;
    let mut at = first_definition_offset(d);
    for _ in 0..count_of_definitions(d) {
        let here = fault_of_name(d, at + 1, offset_of_name(d, at));
        found = earlier_of(found, here);
        at = next_definition_offset(d, at);
    }
    found
}

// As `fault_of_name`; None if the expression does not have this name.
fn fault_of_name_if(named: bool, d: &[Word], holder: u64, at: u64) -> Option<u64>
    requires holder { holder < 2 ^ 20 }
    requires at { at < 2 ^ 20 }
    ensures value { result ≡ (if named then name_fault d.now holder at else None) }
    ensures bound { IfSome result (λ p. p < 2 ^ 20) }
{
    if named {
        fault_of_name(d, holder, at)
    } else {
        None
    }
}

// The first fault of the names of the expression at an offset. Its type says which names it has.
#[tactic(auto, unfolding(crate::specs::TableFaults::expression_fault))]
fn fault_of_expression(d: &[Word], at: u64) -> Option<u64>
    requires { at < 2 ^ 20 - 1 }
    ensures value { result ≡ expression_fault d.now at }
    ensures bound { IfSome result (λ p. p < 2 ^ 20) }
{
    let first = word_at(d, at);
    let second = word_at(d, at + 1);
    let kind = left_of(first);
    let name = fault_of_name_if(kind_has_name(kind), d, at, right_of(first));
    let entry = fault_of_name_if(kind_has_entry(kind), d, at + 1, left_of(second));
    earlier_of(name, entry)
}

// The first fault of the names of expressions.
fn fault_of_linked_names(d: &[Word]) -> Option<u64>
    ensures value { result
        ≡ linked_names_fault d.now (expression_count d.now) (first_expression d.now) }
    ensures bound { IfSome result (λ p. p < 2 ^ 20) }
{
    let mut found = None;
    let mut at = first_expression_offset(d);
    for _ in 0..count_of_expressions(d) {
        let here = fault_of_expression(d, at);
        found = earlier_of(found, here);
        at += 2;
    }
    found
}

/// The first word with an invalid name, counted from word 0 of the definition section. For a name
/// that would begin past the section, it is the word with its offset.
#[tactic(auto, unfolding(crate::specs::TableFaults::names_fault))]
pub fn fault_of_names(d: &[Word]) -> Option<u64>
    ensures value { result ≡ names_fault d.now }
    ensures bound { IfSome result (λ p. p < 2 ^ 20) }
{
    earlier_of(fault_of_defined_names(d), fault_of_linked_names(d))
}
