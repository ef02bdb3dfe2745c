//! Parses the lines of access lists in order, up to the first that has a code.

ghost use Rattle.std.specs.Prelude.{◌≡◌, ◌<◌, ◌≤◌, ◌^◌, length, Some, Ok, IfOk, IfErr, option_map};
ghost use Rattle.m36_text.specs.Lines.{words_of, last_of};
ghost use Rattle.m36_dir.specs.BootOrder.{entry};
ghost use Rattle.m36_acl.specs.AccessLine.{Segment, Term as TermLine, entry_of, term_of};
ghost use Rattle.m36_acl.specs.AccessLine.{parsed_line};
ghost use Rattle.m36_acl.specs.AccessLists.{with_segment, has_term, with_term_line, with_line};
ghost use Rattle.m36_acl.specs.AccessLists.{lists_of, RefusesWith, ChangesTo};
ghost use Rattle.m36_dir.specs.BootLine.{directory_limit};

use crate::above::{SegmentKey, SegmentsAbove};
use crate::fault::AclFault;
use crate::forms::{entry_of, term_of};
use crate::segment::{AclSegment, Term};
use m36_text::{HashSeed, Name, first_line, first_word};
use std::alloc::Global;

// The maximal number of terms of a list.
const MOST_TERMS: usize = 16;

// Adds the segment of a `segment` line. C2 if an earlier line names it.
fn add_segment(
    alloc: Global,
    above: &mut SegmentsAbove,
    number: u32,
    dir: &[u8],
    name: Name,
) -> Result<(), AclFault>
    requires { length dir.now ≤ directory_limit }
    ensures { ChangesTo above.new result (with_segment number above.old (entry dir.now name)) }
{
    let place = SegmentKey::new(dir, name.copied());
    if above.has(&place) {
        return Err(AclFault::C2(number));
    }
    let segment = AclSegment::new(alloc, number, dir, name)?;
    above.add(place, segment)?;
    Ok(())
}

// Whether a list has a term with this text, whatever its rights are.
fn has_term(terms: &[Term], text: &[u8]) -> bool
    ensures { result ≡ has_term terms.now text.now }
{
    terms.iter().any(|term| term.bytes() == text)
}

// Adds a term to the last segment. C1 if there is no segment or its list is full, C2 if the list
// has the term.
fn add_term(above: &mut SegmentsAbove, number: u32, term: Term) -> Result<(), AclFault>
    ensures { ChangesTo above.new result
        (with_term_line number above.old (last_of above.old) term) }
{
    let Some(terms) = above.last_terms() else {
        return Err(AclFault::C1(number));
    };
    if terms.len() >= MOST_TERMS {
        return Err(AclFault::C1(number));
    }
    if has_term(terms, term.bytes()) {
        return Err(AclFault::C2(number));
    }
    above.add_to_last(term)?;
    Ok(())
}

// Parses a `segment` line from its second word on, and adds its segment.
fn segment_line(
    alloc: Global,
    above: &mut SegmentsAbove,
    number: u32,
    given: &[u8],
) -> Result<(), AclFault>
    ensures { ChangesTo above.new result
        (with_line number above.old (option_map Segment (entry_of (words_of given.now)))) }
{
    match entry_of(given) {
        Some((dir, name)) => add_segment(alloc, above, number, dir, name),
        None => Err(AclFault::C1(number)),
    }
}

// Parses a `term` line from its second word on, and adds its term.
fn term_line(above: &mut SegmentsAbove, number: u32, given: &[u8]) -> Result<(), AclFault>
    ensures { ChangesTo above.new result
        (with_line number above.old (option_map TermLine (term_of (words_of given.now)))) }
{
    match term_of(given) {
        Some(term) => add_term(above, number, term),
        None => Err(AclFault::C1(number)),
    }
}

// Parses a line, and adds what it has to the segments of the lines above it.
#[tactic(auto, unfolding(crate::specs::AccessLine::parsed_line), using(crate::proofs::AclLines::no_words))]
fn add_line(
    alloc: Global,
    above: &mut SegmentsAbove,
    number: u32,
    line: &[u8],
) -> Result<(), AclFault>
    ensures { ChangesTo above.new result
        (with_line number above.old (parsed_line (Some line.now))) }
{
    let (word, rest) = first_word(line);
    let Some(given) = rest else {
        return Err(AclFault::C1(number));
    };
    if word == b"segment".as_slice() {
        return segment_line(alloc, above, number, given);
    }
    if word == b"term".as_slice() {
        return term_line(above, number, given);
    }
    Err(AclFault::C1(number))
}

/// The segments of a text, each with its terms. The error is the first line that has a code, or
/// `NoMemory`.
#[tactic(auto, unfolding(crate::specs::AccessLists::lists_of))]
pub(crate) fn segments_in(alloc: Global, text: &[u8]) -> Result<Vec<AclSegment>, AclFault>
    requires { length text.now < 2 ^ 32 }
    ensures lists { IfOk result (λ segments. lists_of text.now ≡ Ok segments.items) }
    ensures told { IfErr result (λ told. RefusesWith told (lists_of text.now)) }
{
    let mut above = SegmentsAbove::new(alloc, HashSeed::of(text));
    let mut rest = text;
    let mut number: usize = 1;
    while let Some((line, behind)) = first_line(rest) {
        add_line(alloc, &mut above, number as u32, line)?;
        rest = behind;
        number += 1;
    }
    if rest.is_empty() {
        Ok(above.into_segments())
    } else {
        Err(AclFault::C1(number as u32))
    }
}
