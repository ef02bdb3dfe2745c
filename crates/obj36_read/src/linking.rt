//! Faults of the links of an object, in a list of words.

ghost use Rattle.std.specs.Prelude.{◌≡◌, ◌+◌, ◌-◌, ◌*◌, ◌%◌, ◌^◌, ◌<◌, ◌&&◌};
ghost use Rattle.std.specs.Prelude.{◌||◌, Option, Some, None};
ghost use Rattle.std.specs.Prelude.{IfSome};
ghost use Rattle.obj36_read.specs.TableFaults.{earlier, expression_count};
ghost use Rattle.obj36_read.specs.TableFaults.{first_expression};
ghost use Rattle.obj36_read.specs.Reading.{link_start};
ghost use Rattle.obj36_read.specs.LinkFaults.{is_expression_type, first_bad_type, link_count};
ghost use Rattle.obj36_read.specs.LinkFaults.{is_valid_linkage_head, is_valid_link_at};
ghost use Rattle.obj36_read.specs.LinkFaults.{first_bad_link, linkage_fault};
ghost use Rattle.obj36_read.specs.LinkFaults.{index_in_list, links_fault};

use crate::reading::word_at;
use crate::tables::{count_of_expressions, earlier_of, first_expression_offset, index_if};
use m36_word::Word;
use obj36_parts::checks::{greatest_section_number, kind_has_section};
use obj36_parts::halves::{left_of, right_of, word_of_halves};
use obj36_parts::names::kind_has_name;
use obj36_parts::sections::{HEAD_WORDS, LINK_TAG};

// ---- types of expressions

// Whether a word is the first of a valid expression.
#[tactic(auto, unfolding(crate::specs::LinkFaults::is_expression_type))]
fn is_good_type(version: u8, word: Word) -> bool
    ensures { result ≡ is_expression_type version word }
{
    let kind = left_of(word);
    kind_has_name(kind)
        || (kind_has_section(kind) && right_of(word) <= greatest_section_number(version))
}

// The first expression whose type or section is invalid.
fn fault_of_types(version: u8, d: &[Word]) -> Option<u64>
    ensures value { result
        ≡ first_bad_type version d.now (expression_count d.now) (first_expression d.now) }
    ensures bound { IfSome result (λ p. p < 2 ^ 20) }
{
    let mut found = None;
    let mut at = first_expression_offset(d);
    for _ in 0..count_of_expressions(d) {
        let here = index_if(!is_good_type(version, word_at(d, at)), at);
        found = earlier_of(found, here);
        at += 2;
    }
    found
}

// ---- links

// The number of links, from the head of the linkage section.
#[tactic(auto, unfolding(crate::specs::LinkFaults::link_count))]
fn count_of_links(k: &[Word]) -> u64
    ensures value { result ≡ link_count k.now }
    ensures bound { result < 2 ^ 18 }
{
    right_of(word_at(k, 1))
}

// The offset of the first link, from the head of the linkage section.
#[tactic(auto, unfolding(crate::specs::Reading::link_start))]
fn start_of_links(k: &[Word]) -> u64
    ensures value { result ≡ link_start k.now }
    ensures bound { result < 2 ^ 18 }
{
    left_of(word_at(k, 1))
}

// Whether the head of the linkage section is valid: there are as many links as expressions, and
// they fill the section after the static words.
#[tactic(auto, unfolding(crate::specs::LinkFaults::is_valid_linkage_head))]
fn is_good_head(version: u8, d: &[Word], k: &[Word]) -> bool
    ensures { result ≡ is_valid_linkage_head version d.now k.now }
{
    let count = count_of_links(k);
    let start = start_of_links(k);
    count == count_of_expressions(d)
        && HEAD_WORDS <= start
        && start % 2 == 0
        && start + 2 * count == k.len() as u64
        && (version != 2 || start == HEAD_WORDS)
}

// Whether the link at `at` is valid and has its expression at `expression`.
#[tactic(auto, unfolding(crate::specs::LinkFaults::is_valid_link_at))]
fn is_good_link(k: &[Word], at: u64, expression: u64) -> bool
    requires { at < 2 ^ 20 }
    ensures { result ≡ is_valid_link_at k.now at expression }
{
    let even = word_at(k, at);
    let odd = word_at(k, at + 1);
    let offset = (1u64 << 18).saturating_sub(at);
    even.value() == word_of_halves(offset, LINK_TAG).value()
        && left_of(odd) == expression
        && right_of(odd) < 1 << 6
}

// The first of `count` links from `start` on that is not valid.
fn first_link_fault(k: &[Word], start: u64, expressions: u64, count: u64) -> Option<u64>
    requires start { start < 2 ^ 18 }
    requires expressions { expressions < 2 ^ 18 }
    requires count { count < 2 ^ 18 }
    ensures value { result ≡ first_bad_link k.now start expressions count }
    ensures bound { IfSome result (λ p. p < 2 ^ 20) }
{
    let mut at = start;
    let mut expression = expressions;
    for _ in 0..count {
        if !is_good_link(k, at, expression) {
            return Some(at);
        }
        at += 2;
        expression += 2;
    }
    None
}

// The first invalid word of the linkage section. That of an invalid head is word 1.
#[tactic(auto, unfolding(crate::specs::LinkFaults::linkage_fault))]
fn fault_of_linkage(version: u8, d: &[Word], k: &[Word]) -> Option<u64>
    ensures value { result ≡ linkage_fault version d.now k.now }
    ensures bound { IfSome result (λ p. p < 2 ^ 20) }
{
    if is_good_head(version, d, k) {
        first_link_fault(
            k,
            start_of_links(k),
            first_expression_offset(d),
            count_of_links(k),
        )
    } else {
        Some(1)
    }
}

/// An index in a section that begins at the word `from`, as an index in the whole list.
pub fn index_in_list(from: u64, place: Option<u64>) -> Option<u64>
    requires from { from < 2 ^ 18 }
    requires place { IfSome place (λ p. p < 2 ^ 20) }
    ensures value { result ≡ index_in_list from place }
    ensures bound { IfSome result (λ p. p < 2 ^ 21) }
{
    match place {
        None => None,
        Some(p) => Some(from + p),
    }
}

// The lesser of two indexes, each of which may be missing. As `earlier_of`, but for indexes in the
// whole list, whose bound is larger.
fn lesser_list_index(first: Option<u64>, second: Option<u64>) -> Option<u64>
    requires first { IfSome first (λ p. p < 2 ^ 21) }
    requires second { IfSome second (λ p. p < 2 ^ 21) }
    ensures value { result ≡ earlier first second }
    ensures bound { IfSome result (λ p. p < 2 ^ 21) }
{
    match (first, second) {
        (None, _) => second,
        (Some(_), None) => first,
        (Some(p), Some(q)) => Some(p.min(q)),
    }
}

/// The first invalid word of the types of expressions, the head of the linkage section, and the
/// links, as an index in the whole list. The definition section begins at the word `d_from`, the
/// linkage section at the word `k_from`.
#[tactic(auto, unfolding(crate::specs::LinkFaults::links_fault))]
pub fn fault_of_links(version: u8, d_from: u64, d: &[Word], k_from: u64, k: &[Word]) -> Option<u64>
    requires d { d_from < 2 ^ 18 }
    requires k { k_from < 2 ^ 18 }
    ensures value { result ≡ links_fault version d_from d.now k_from k.now }
    ensures bound { IfSome result (λ p. p < 2 ^ 21) }
{
    let types = index_in_list(d_from, fault_of_types(version, d));
    let links = index_in_list(k_from, fault_of_linkage(version, d, k));
    lesser_list_index(types, links)
}
