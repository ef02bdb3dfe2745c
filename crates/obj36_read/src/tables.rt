//! Faults of the tables of a definition section, in a list of words.

ghost use Rattle.std.specs.Prelude.{◌≡◌, ◌+◌, ◌-◌, ◌*◌, ◌/◌, ◌^◌, ◌<◌, ◌&&◌};
ghost use Rattle.std.specs.Prelude.{◌||◌, min, length, Option, Some};
ghost use Rattle.std.specs.Prelude.{None, IfSome, IfOk};
ghost use Rattle.obj36_read.specs.TableFaults.{earlier, index_if_bad, definition_count};
ghost use Rattle.obj36_read.specs.TableFaults.{first_definition, next_definition};
ghost use Rattle.obj36_read.specs.TableFaults.{has_room_for_definition};
ghost use Rattle.obj36_read.specs.TableFaults.{chain_fault, count_fault, expression_count};
ghost use Rattle.obj36_read.specs.TableFaults.{first_expression, expressions_leave_section};
ghost use Rattle.obj36_read.specs.TableFaults.{class_at};
ghost use Rattle.obj36_read.specs.TableFaults.{first_bad_class, name_offset_at, name_is_within};
ghost use Rattle.obj36_read.specs.TableFaults.{is_at_head};
ghost use Rattle.obj36_read.specs.TableFaults.{members_fault, table_fault};

use crate::reading::{quarter_from, word_at};
use crate::repeats::fault_of_repeats;
use m36_word::{NoMemory, Word};
use obj36_parts::checks::greatest_class;
use obj36_parts::halves::{left_of, right_of};
use obj36_parts::sections::ENTRY_MARK;
use std::alloc::Global;

// The lesser of two indexes, each of which may be missing.
pub(crate) fn earlier_of(first: Option<u64>, second: Option<u64>) -> Option<u64>
    requires first { IfSome first (λ p. p < 2 ^ 20) }
    requires second { IfSome second (λ p. p < 2 ^ 20) }
    ensures value { result ≡ earlier first second }
    ensures bound { IfSome result (λ p. p < 2 ^ 20) }
{
    match (first, second) {
        (None, _) => second,
        (Some(_), None) => first,
        (Some(p), Some(q)) => Some(p.min(q)),
    }
}

// The index, if the word there is bad.
pub(crate) fn index_if(bad: bool, at: u64) -> Option<u64>
    requires { at < 2 ^ 20 }
    ensures value { result ≡ index_if_bad bad at }
    ensures bound { IfSome result (λ p. p < 2 ^ 20) }
{
    if bad { Some(at) } else { None }
}

// ---- the chain of definitions

// The number of definitions, from the head of the section.
#[tactic(auto, unfolding(crate::specs::TableFaults::definition_count))]
pub(crate) fn count_of_definitions(d: &[Word]) -> u64
    ensures value { result ≡ definition_count d.now }
    ensures bound { result < 2 ^ 18 }
{
    right_of(word_at(d, 0))
}

// The offset of the first definition, from the head of the section.
#[tactic(auto, unfolding(crate::specs::TableFaults::first_definition))]
pub(crate) fn first_definition_offset(d: &[Word]) -> u64
    ensures value { result ≡ first_definition d.now }
    ensures bound { result < 2 ^ 18 }
{
    left_of(word_at(d, 0))
}

// The offset of the next definition, 0 after the last.
#[tactic(auto, unfolding(crate::specs::TableFaults::next_definition))]
pub(crate) fn next_definition_offset(d: &[Word], at: u64) -> u64
    ensures value { result ≡ next_definition d.now at }
    ensures bound { result < 2 ^ 18 }
{
    left_of(word_at(d, at))
}

// Whether a definition at an offset is within the section.
#[tactic(auto, unfolding(crate::specs::TableFaults::has_room_for_definition))]
fn is_definition_within(d: &[Word], at: u64) -> bool
    requires { at < 2 ^ 18 }
    ensures { result ≡ has_room_for_definition d.now at }
{
    at != 0 && at + 2 <= d.len() as u64
}

// The fault after the last of the definitions that are counted. The word `holder` has the offset
// `at` of a next one. There is no fault if this is 0. If it is a further definition, the fault is
// that of word 0, and if it is not within the section, that of `holder`.
#[tactic(auto, unfolding(crate::specs::TableFaults::chain_fault))]
fn fault_at_end_of_chain(d: &[Word], holder: u64, at: u64) -> Option<u64>
    requires holder { holder < 2 ^ 18 }
    requires at { at < 2 ^ 18 }
    ensures value { result ≡ chain_fault d.now 0 holder at }
    ensures bound { IfSome result (λ p. p < 2 ^ 20) }
{
    if at == 0 {
        None
    } else if is_definition_within(d, at) {
        Some(0)
    } else {
        Some(holder)
    }
}

// The fault of the chain of definitions: word 0 if it does not have `count` of them, or the word
// with the offset of a next one if this is not within the section.
fn fault_of_chain(d: &[Word], count: u64) -> Option<u64>
    requires { count < 2 ^ 18 }
    ensures value { result ≡ chain_fault d.now count 0 (first_definition d.now) }
    ensures bound { IfSome result (λ p. p < 2 ^ 20) }
{
    let mut holder = 0;
    let mut at = first_definition_offset(d);
    for _ in 0..count {
        if !is_definition_within(d, at) {
            return Some(0);
        }
        holder = at;
        at = next_definition_offset(d, at);
    }
    fault_at_end_of_chain(d, holder, at)
}

// The fault of the number of definitions, or of their chain.
#[tactic(auto, unfolding(crate::specs::TableFaults::count_fault))]
fn fault_of_count(d: &[Word]) -> Option<u64>
    ensures value { result ≡ count_fault d.now }
    ensures bound { IfSome result (λ p. p < 2 ^ 20) }
{
    let count = count_of_definitions(d);
    if (d.len() as u64) < 2 + 2 * count {
        return Some(0);
    }
    fault_of_chain(d, count)
}

// ---- the table of expressions

// The number of expressions, from the head of the section.
#[tactic(auto, unfolding(crate::specs::TableFaults::expression_count))]
pub(crate) fn count_of_expressions(d: &[Word]) -> u64
    ensures value { result ≡ expression_count d.now }
    ensures bound { result < 2 ^ 18 }
{
    right_of(word_at(d, 1))
}

// The offset of the first expression, from the head of the section.
#[tactic(auto, unfolding(crate::specs::TableFaults::first_expression))]
pub(crate) fn first_expression_offset(d: &[Word]) -> u64
    ensures value { result ≡ first_expression d.now }
    ensures bound { result < 2 ^ 18 }
{
    left_of(word_at(d, 1))
}

// Whether the table of expressions is not within the section.
#[tactic(auto, unfolding(crate::specs::TableFaults::expressions_leave_section))]
fn expressions_leave(d: &[Word]) -> bool
    ensures { result ≡ expressions_leave_section d.now }
{
    let first = first_expression_offset(d);
    let length = d.len() as u64;
    length <= first || length < first + 2 * count_of_expressions(d)
}

// ---- classes

// The class of a definition, without the mark of an entry.
#[tactic(auto, unfolding(crate::specs::TableFaults::class_at))]
fn class_of_definition(d: &[Word], at: u64) -> u64
    ensures { result ≡ class_at d.now at }
{
    let class = right_of(word_at(d, at));
    if class < ENTRY_MARK {
        class
    } else {
        class - ENTRY_MARK
    }
}

// The first definition whose class is over `last`.
fn fault_of_classes(d: &[Word], last: u64) -> Option<u64>
    ensures value { result
        ≡ first_bad_class last d.now (definition_count d.now) (first_definition d.now) }
    ensures bound { IfSome result (λ p. p < 2 ^ 20) }
{
    let mut found = None;
    let mut at = first_definition_offset(d);
    for _ in 0..count_of_definitions(d) {
        let here = index_if(last < class_of_definition(d, at), at);
        found = earlier_of(found, here);
        at = next_definition_offset(d, at);
    }
    found
}

// ---- names that occur twice

// The offset of the name of a definition.
#[tactic(auto, unfolding(crate::specs::TableFaults::name_offset_at))]
pub(crate) fn offset_of_name(d: &[Word], at: u64) -> u64
    requires { at < 2 ^ 20 }
    ensures value { result ≡ name_offset_at d.now at }
    ensures bound { result < 2 ^ 18 }
{
    right_of(word_at(d, at + 1))
}

// Whether the name that begins at an offset is within the section.
#[tactic(auto, unfolding(crate::specs::TableFaults::name_is_within))]
pub(crate) fn is_name_within(d: &[Word], at: u64) -> bool
    requires { at < 2 ^ 20 }
    ensures { result ≡ name_is_within d.now at }
{
    let length = d.len() as u64;
    at < length && at + quarter_from(d, at, 0) / 4 + 1 <= length
}

// ---- all of them

// The first fault of the table of expressions, the classes and the names that occur twice, if the
// number of definitions is right.
#[tactic(auto, unfolding(crate::specs::TableFaults::members_fault))]
fn fault_of_members(alloc: Global, version: u8, d: &[Word]) -> Result<Option<u64>, NoMemory>
    ensures value { IfOk result (λ place. place ≡ members_fault version d.now) }
    ensures bound { IfOk result (λ place. IfSome place (λ p. p < 2 ^ 20)) }
{
    let table = index_if(expressions_leave(d), 1);
    let classes = fault_of_classes(d, greatest_class(version));
    let repeated = fault_of_repeats(alloc, d)?;
    Ok(earlier_of(table, earlier_of(classes, repeated)))
}

// Whether a fault is that of word 0.
fn is_at_head(place: Option<u64>) -> bool
    ensures { result ≡ is_at_head place }
{
    match place {
        None => false,
        Some(p) => p == 0,
    }
}

/// The first invalid word of the tables: one that has a wrong count, offset or class, or the first
/// word of a name that two definitions have. It is counted from word 0 of the definition section.
/// Fails only with `NoMemory`.
#[tactic(auto, unfolding(crate::specs::TableFaults::table_fault))]
pub fn fault_of_tables(alloc: Global, version: u8, d: &[Word]) -> Result<Option<u64>, NoMemory>
    ensures value { IfOk result (λ place. place ≡ table_fault version d.now) }
    ensures bound { IfOk result (λ place. IfSome place (λ p. p < 2 ^ 20)) }
{
    let count = fault_of_count(d);
    if is_at_head(count) {
        return Ok(Some(0));
    }
    let members = fault_of_members(alloc, version, d)?;
    Ok(earlier_of(count, members))
}
