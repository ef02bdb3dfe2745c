//! The place in an object that a link names, and the pair to it.

ghost use Rattle.std.specs.Prelude.{◌≡◌, ◌+◌, ◌<◌, ◌≤◌, ◌^◌, IfOk};
ghost use Rattle.m36_link.specs.Target.{section_of, object_place_of, pair_to, pair_of};
ghost use Rattle.obj36_parts.specs.ObjectSegment.{segment_limit};

use crate::laid::{FIRST_LINKAGE, PlacedSection};
use m36_desc::Its;
use m36_model::LinkCode;
use m36_word::Pair;
use obj36::{Link, Object, Section};
use obj36_parts::names::{kind_has_entry, kind_has_name};
use obj36_parts::sections::later_section;

/// A place of an object: a word number in a section.
#[derive(Clone, Copy)]
pub(crate) struct ObjectPlace {
    pub(crate) value: u32,
    pub(crate) section: Section,
}

// The section that a link's value is relative to, if its entry does not say: the text for a link
// with a segment name, and otherwise the section that the link names.
fn section_of(link: &Link) -> Section
    ensures { result ≡ section_of link.now }
{
    if kind_has_name(link.kind as u64) {
        Section::Text
    } else {
        link.section
    }
}

/// The place that a link names in its target object; L3 if the object does not define its entry.
#[tactic(auto, unfolding(crate::specs::Target::object_place_of))]
pub(crate) fn object_place_of(link: &Link, object: &Object) -> Result<ObjectPlace, LinkCode>
    ensures value { result ≡ object_place_of link.now object.now }
    ensures bound { IfOk result (λ point. point.value < 2 ^ 18) }
{
    let section = section_of(link);
    if !kind_has_entry(link.kind as u64) {
        return Ok(ObjectPlace { value: 0, section });
    }
    match object.find(link.entry.bytes()) {
        Some(def) => Ok(ObjectPlace {
            value: def.value,
            section: later_section(section, def.section),
        }),
        None => Err(LinkCode::L3),
    }
}

/// The pair to a word of a segment; the word number is taken modulo 2^18.
#[tactic(auto, unfolding(crate::specs::Target::pair_to))]
pub(crate) fn pair_to(seg: u16, ring: u8, word: u32, link: &Link) -> Pair
    requires seg { seg < 2 ^ 15 }
    requires ring { ring < 8 }
    ensures { result ≡ pair_to seg ring word link.now }
{
    let its = Its {
        word: word % (1 << 18),
        seg,
        ring,
        bit: 0,
        tag: link.modifier,
    };
    its.to_words()
}

/// The pair to a place of an object whose section is laid.
#[tactic(auto, unfolding(crate::specs::Target::pair_of))]
pub(crate) fn pair_of(
    point: ObjectPlace,
    ring: u8,
    laid: PlacedSection,
    linkage: u32,
    link: &Link,
) -> Pair
    requires point { point.value < 2 ^ 18 }
    requires ring { ring < 8 }
    requires linkage { linkage ≤ segment_limit }
    ensures { result ≡ pair_of point ring laid linkage link.now }
{
    let value = point.value + link.expr;
    let segment = FIRST_LINKAGE + laid.ring as u16;
    match point.section {
        Section::Text | Section::Symbol => pair_to(laid.seg, ring, value, link),
        Section::Linkage => pair_to(segment, ring, laid.base + value, link),
        Section::Static => pair_to(segment, ring, laid.base + linkage + value, link),
    }
}
