//! Decides where linkage sections are laid.

ghost use Rattle.std.specs.Prelude.{◌≡◌, ◌+◌, ◌<◌, ◌≤◌, ◌^◌, ◌&&◌, find, length, Some, IfSome};
ghost use Rattle.obj36_parts.specs.ObjectSegment.{linkage_section, segment_limit, head_words};
ghost use Rattle.m36_link.specs.Known.{laid_in, even_end, next_base_after, next_base_in_ring};
ghost use Rattle.m36_link.specs.Known.{laid_words};
ghost use Rattle.m36_link.specs.Target.{placement_of};
ghost use Rattle.m36_link.specs.Apart.{AreEachFound};

use crate::laid::{LOT_WORDS, PlacedSection};
use crate::places::{PlacedSections, stored_index};
use m36_model::LinkCode;
use obj36::{Object, Section};
use obj36_parts::sections::SEGMENT_LIMIT;

/// The section of a segment in a ring, and whether it still has to be laid.
#[derive(Clone, Copy)]
pub(crate) struct Placement {
    pub(crate) section: PlacedSection,
    pub(crate) is_new: bool,
}

/// The number of words of the linkage section of an object.
#[tactic(auto, unfolding(crate::specs::Known::laid_words))]
pub(crate) fn linkage_size(object: &Object) -> u32
    requires { length (laid_words object.now) ≤ segment_limit }
    ensures value { result ≡ length (linkage_section object.now) }
    ensures bound { result ≤ segment_limit }
{
    object.section(Section::Linkage).len() as u32
}

// The number of words that are laid for an object.
#[tactic(auto, unfolding(crate::specs::Known::laid_words))]
fn laid_size(object: &Object) -> u32
    requires { length (laid_words object.now) ≤ segment_limit }
    ensures value { result ≡ length (laid_words object.now) }
    ensures some { head_words ≤ result }
    ensures bound { result ≤ segment_limit }
{
    linkage_size(object) + object.section(Section::Static).len() as u32
}

// The section at an index of the list, if it is that of the segment in the ring.
#[tactic(auto, using(crate::proofs::Apart::found_there))]
fn section_at_index(
    laid: &[PlacedSection],
    place: usize,
    ring: u8,
    seg: u16,
) -> Option<PlacedSection>
    requires { AreEachFound laid.now }
    ensures { IfSome result (λ l. laid_in laid.now ring seg ≡ Some l) }
{
    match laid.get(place) {
        Some(l) if l.ring == ring && l.seg == seg => Some(*l),
        _ => None,
    }
}

// The section of a segment that is laid in a ring, found by a search of the list.
#[tactic(auto, unfolding(crate::specs::Known::laid_in))]
fn find_section(laid: &[PlacedSection], ring: u8, seg: u16) -> Option<PlacedSection>
    ensures { result ≡ laid_in laid.now ring seg }
{
    laid.iter()
        .copied()
        .find(|l| l.ring == ring && l.seg == seg)
}

// The section of a segment that is laid in a ring: at the index in the table, or found by a
// search.
pub(crate) fn laid_in(laid: &PlacedSections<'_>, ring: u8, seg: u16) -> Option<PlacedSection>
    ensures { result ≡ laid_in laid.now ring seg }
{
    match section_at_index(laid.items, stored_index(laid.places, ring, seg), ring, seg) {
        Some(section) => Some(section),
        None => find_section(laid.items, ring, seg),
    }
}

// The first even word number after a section.
#[tactic(auto, unfolding(crate::specs::Known::even_end))]
fn even_end(section: &PlacedSection) -> u32
    ensures value { result ≡ even_end section.now }
    ensures bound { result ≤ segment_limit }
{
    let end = section.base + section.size;
    end + end % 2
}

// The word number of the next section of a ring after `section`, if it was `base` before.
fn next_base_after(ring: u8, base: u32, section: &PlacedSection) -> u32
    requires { base ≤ segment_limit }
    ensures value { result ≡ next_base_after ring base section.now }
    ensures bound { result ≤ segment_limit }
{
    if section.ring == ring {
        even_end(section)
    } else {
        base
    }
}

// The word number at which the next section of a ring is laid.
#[tactic(auto, unfolding(crate::specs::Known::next_base))]
fn next_base_in_ring(laid: &[PlacedSection], ring: u8) -> u32
    ensures value { result ≡ next_base_in_ring laid.now ring }
    ensures bound { result ≤ segment_limit }
{
    let mut base = LOT_WORDS;
    let mut rest = laid;
    while let [section, others @ ..] = rest {
        base = next_base_after(ring, base, section);
        rest = others;
    }
    base
}

/// The section of an object in a ring, laid already or to be laid; L6 if it would end past the
/// segment.
#[tactic(auto, unfolding(crate::specs::Target::placement_of))]
pub(crate) fn placement_of(
    laid: &PlacedSections<'_>,
    ring: u8,
    seg: u16,
    object: &Object,
) -> Result<Placement, LinkCode>
    requires ring { ring < 8 }
    requires seg { seg < 2 ^ 15 }
    requires size { length (laid_words object.now) ≤ segment_limit }
    ensures { result ≡ placement_of laid.now ring seg object.now }
{
    if let Some(section) = laid_in(laid, ring, seg) {
        return Ok(Placement {
            section,
            is_new: false,
        });
    }
    let base = next_base_in_ring(laid.items, ring);
    let size = laid_size(object);
    if base + size > SEGMENT_LIMIT as u32 {
        return Err(LinkCode::L6(base, size));
    }
    Ok(Placement {
        section: PlacedSection {
            base,
            size,
            seg,
            ring,
        },
        is_new: true,
    })
}
