//! A table that finds the section of a segment in a ring in the list of sections.

ghost use Rattle.std.specs.Prelude.{◌<◌};

use crate::laid::PlacedSection;
use m36_word::NoMemory;
use std::alloc::Global;
use std::marker::Model;

// The number of segments with a slot for each ring: the maximum of a catalog.
const SEGMENTS: usize = 512;

const RINGS: usize = 8;

/// The sections that are laid, at most one for each segment and ring, with a table of their
/// indexes in the list. The model is the list.
#[derive(Drop)]
pub(crate) struct PlacedSections<'a> {
    pub(crate) items: &'a [PlacedSection],
    /// An index for each ring and segment. It may be wrong, so the section at that index is
    /// compared before it is used.
    pub(crate) places: &'a [u16],
}

impl<'a> Model for PlacedSections<'a> {
    ghost use Rattle.std.specs.Prelude.{List};
    ghost use Rattle.m36_link.specs.Fields.{PlacedSectionFields};
    ghost use Rattle.m36_link.specs.Apart.{AreEachFound};

    ghost Value = { List PlacedSectionFields };

    ghost view = { λ s. s.items.now };

    ghost invariant = { λ s. AreEachFound s.items.now };
}

// The slot of a segment in a ring. No two segments of a catalog share one.
fn slot(ring: u8, seg: u16) -> usize {
    ring as usize % RINGS * SEGMENTS + seg as usize % SEGMENTS
}

/// The table for an empty list.
pub(crate) fn empty_index_table(alloc: Global) -> Result<Vec<u16>, NoMemory> {
    let mut places = Vec::with_capacity(alloc, RINGS * SEGMENTS)?;
    places.resize(RINGS * SEGMENTS, 0)?;
    Ok(places)
}

/// The index in the slot of a segment in a ring; arbitrary if its section is not laid.
pub(crate) fn stored_index(places: &[u16], ring: u8, seg: u16) -> usize {
    match places.get(slot(ring, seg)) {
        Some(place) => *place as usize,
        None => 0,
    }
}

/// Stores the index of the section of a segment in a ring.
pub(crate) fn store_index(places: &mut Vec<u16>, ring: u8, seg: u16, place: usize) {
    let i = slot(ring, seg);
    if i < places.len() {
        places[i] = (place % (1 << 16)) as u16;
    }
}
