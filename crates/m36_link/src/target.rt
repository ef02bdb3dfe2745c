//! The target of a link.

ghost use Rattle.std.specs.Prelude.{◌≡◌, ◌<◌, ◌≤◌, ◌^◌, length};
ghost use Rattle.m36_link.specs.Known.{section_ring, laid_words};
ghost use Rattle.m36_link.specs.Target.{own_target, may_not_use, fault_number, plain_target};
ghost use Rattle.m36_link.specs.Target.{section_if_new, object_target, segment_target};
ghost use Rattle.obj36_parts.specs.ObjectSegment.{segment_limit};

use crate::file::File;
use crate::laid::PlacedSection;
use crate::places::PlacedSections;
use crate::points::{object_place_of, pair_of, pair_to};
use crate::sections::{linkage_size, placement_of};
use m36_dir::{SegKind, Segment};
use m36_model::LinkCode;
use m36_word::Pair;
use obj36::{Link, Object, ObjectFault};
use obj36_parts::names::kind_has_entry;
use std::marker::Model;

/// The target of a link: the pair, the number of the segment, and the section that has to be laid,
/// if any.
#[derive(Clone, Copy)]
pub(crate) struct Target {
    pub(crate) pair: Pair,
    pub(crate) lay: Option<PlacedSection>,
    /// The number of the segment; 15 bits.
    pub(crate) target: u16,
}

impl Model for Target {
    ghost use Rattle.std.specs.Prelude.{◌<◌, ◌^◌};
    ghost use Rattle.m36_link.specs.Fields.{TargetFields};

    ghost Value = { TargetFields };

    ghost view = { λ l. record { pair = l.pair; target = l.target; lay = l.lay } };

    ghost invariant = { λ l. l.target < 2 ^ 15 };

    ghost inverse = { λ l. record { pair = l.pair; lay = l.lay; target = l.target } };
}

/// The target of a link of type 1 or 5, to its own object, whose section is laid.
#[tactic(auto, unfolding(crate::specs::Target::own_target))]
pub(crate) fn own_target(
    ring: u8,
    section: PlacedSection,
    object: &Object,
    link: &Link,
) -> Result<Target, LinkCode>
    requires ring { ring < 8 }
    requires size { length (laid_words object.now) ≤ segment_limit }
    ensures { result ≡ own_target ring section object.now link.now }
{
    let point = object_place_of(link, object)?;
    Ok(Target {
        pair: pair_of(point, ring, section, linkage_size(object), link),
        lay: None,
        target: section.seg,
    })
}

// Whether a ring may not use a segment at all: it is above R3, or above R2 and the segment is not
// executable.
fn may_not_use(ring: u8, segment: &Segment) -> bool
    ensures { result ≡ may_not_use ring segment.now }
{
    segment.r3 < ring || segment.r2 < ring && !segment.mode.executable
}

// The ring in whose linkage segment the section of a segment is laid, for a link of this ring: the
// ring in which the segment runs for a caller in this ring.
fn section_ring(ring: u8, segment: &Segment) -> u8
    requires { ring < 8 }
    ensures value { result ≡ section_ring ring segment.now }
    ensures bound { result < 8 }
{
    if segment.r2 < ring { segment.r2 } else { ring }
}

// The number of the first fault of an object, as L5 reports it: 1 for O1, and so on; 0 for
// NoMemory.
fn fault_number(fault: ObjectFault) -> u8
    ensures { result ≡ fault_number fault }
{
    match fault {
        ObjectFault::O1(_) => 1,
        ObjectFault::O2(_) => 2,
        ObjectFault::O3(_) => 3,
        ObjectFault::O4(_) => 4,
        ObjectFault::O5(_) => 5,
        ObjectFault::O6(_) => 6,
        ObjectFault::O7(_) => 7,
        ObjectFault::O8(_) => 8,
        ObjectFault::NoMemory => 0,
    }
}

// The target of a link to a segment of plain words. They define no entries: L3 if the link has one.
#[tactic(auto, unfolding(crate::specs::Target::plain_target))]
fn plain_target(ring: u8, seg: u16, link: &Link) -> Result<Target, LinkCode>
    requires ring { ring < 8 }
    requires seg { seg < 2 ^ 15 }
    ensures { result ≡ plain_target ring seg link.now }
{
    if kind_has_entry(link.kind as u64) {
        return Err(LinkCode::L3);
    }
    Ok(Target {
        pair: pair_to(seg, ring, link.expr, link),
        lay: None,
        target: seg,
    })
}

// The section that has to be laid: this one if it is new, and otherwise none.
fn section_if_new(is_new: bool, section: PlacedSection) -> Option<PlacedSection>
    ensures { result ≡ section_if_new is_new section }
{
    if is_new { Some(section) } else { None }
}

// The target of a link to an object in segment `seg`, whose section is laid in the ring
// `section_ring`. L3 if the object does not define the entry, and L6 if there is no room for its
// section.
#[tactic(auto, unfolding(crate::specs::Target::object_target))]
fn object_target(
    laid: &PlacedSections<'_>,
    ring: u8,
    section_ring: u8,
    seg: u16,
    object: &Object,
    link: &Link,
) -> Result<Target, LinkCode>
    requires ring { ring < 8 }
    requires section_ring { section_ring < 8 }
    requires seg { seg < 2 ^ 15 }
    requires size { length (laid_words object.now) ≤ segment_limit }
    ensures { result ≡ object_target laid.now ring section_ring seg object.now link.now }
{
    let point = object_place_of(link, object)?;
    let home = placement_of(laid, section_ring, seg, object)?;
    Ok(Target {
        pair: pair_of(point, ring, home.section, linkage_size(object), link),
        lay: section_if_new(home.is_new, home.section),
        target: seg,
    })
}

/// The target of a link of type 3 or 4, to a segment that was found. L4 if the ring may not use the
/// segment, L5 if its file should be an object and is not, L3 or L6.
#[tactic(auto, unfolding(crate::specs::Target::segment_target))]
pub(crate) fn segment_target(
    laid: &PlacedSections<'_>,
    ring: u8,
    seg: u16,
    segment: &Segment,
    file: &File,
    link: &Link,
) -> Result<Target, LinkCode>
    requires ring { ring < 8 }
    requires seg { seg < 2 ^ 15 }
    ensures { result ≡ segment_target laid.now ring seg segment.now file.now link.now }
{
    if may_not_use(ring, segment) {
        return Err(LinkCode::L4);
    }
    if segment.kind == SegKind::Plain {
        return plain_target(ring, seg, link);
    }
    match file.object() {
        Ok(object) => object_target(laid, ring, section_ring(ring, segment), seg, object, link),
        Err(fault) => Err(LinkCode::L5(fault_number(fault))),
    }
}
