//! The results of link services.

ghost use Rattle.std.specs.Prelude.{[], ◌∷◌, ◌++◌, ◌≡◌, ◌<◌, ◌≤◌, ◌^◌, ◌+◌, Option, Some, None};
ghost use Rattle.std.specs.Prelude.{IfOk, IfSome, OnOk, OnErr, length};
ghost use Rattle.std.specs.Vec.{vec_len, vec_capacity};
ghost use Rattle.m36_text.specs.Texts.{name_limit};
ghost use Rattle.m36_link.specs.Known.{nothing_known, initiated_segment};
ghost use Rattle.m36_link.specs.Names.{AreNames};
ghost use Rattle.m36_link.specs.Search.{search_result};
ghost use Rattle.m36_link.specs.Accepted.{known_after, with_initiated_name, with_section};
ghost use Rattle.m36_link.specs.Accepted.{MayBeLaid};
ghost use Rattle.obj36_parts.specs.ObjectSegment.{segment_limit};

use crate::laid::{NewSection, PlacedSection};
use crate::names::RingName;
use crate::places::{PlacedSections, empty_index_table, store_index};
use crate::search::{initiated_segment, search_directories};
use crate::snap::Snap;
use indexmap::IndexMap;
use m36_dir::Catalog;
use m36_text::HashSeed;
use m36_word::NoMemory;
use obj36::Link;
use obj36_parts::names::kind_has_name;
use std::alloc::Global;
use std::marker::Model;

/// The names that are initiated in each ring, and the linkage sections that are laid in it, each
/// in the order in which they came. The model is these two lists.
#[derive(Drop)]
pub struct Known {
    names: IndexMap<RingName, u16, HashSeed>,
    laid: Vec<PlacedSection>,
    // The index of each section in `laid`.
    places: Vec<u16>,
}

impl Model for Known {
    ghost use Rattle.std.specs.Prelude.{◌≤◌, ◌<◌, ◌^◌, length};
    ghost use Rattle.m36_link.specs.Fields.{KnownFields};
    ghost use Rattle.m36_link.specs.Names.{AreNames};
    ghost use Rattle.m36_link.specs.Apart.{AreEachFound};

    ghost Value = { KnownFields };

    ghost view = { λ k. record { names = k.names.entries; laid = k.laid.items } };

    ghost invariant = { λ k. (AreNames k.names.entries) × (AreEachFound k.laid.items) };
}

// Adds a name that is not yet initiated. If memory runs out, nothing changes.
fn insert_name(
    names: &mut IndexMap<RingName, u16, HashSeed>,
    name: RingName,
    target: u16,
) -> Result<(), NoMemory>
    requires names { AreNames names.old.entries }
    requires absent { None ≡ initiated_segment names.old.entries name.ring name.name }
    requires fits { length name.name ≤ name_limit }
    requires target { target < 2 ^ 15 }
    ensures ok { OnOk result (names.new.entries ≡ names.old.entries ++ (name, target) ∷ []) }
    ensures err { OnErr result (names.new.entries ≡ names.old.entries) }
    ensures names { AreNames names.new.entries }
{
    names.insert(name, target)?;
    Ok(())
}

// Adds the name of a link of type 3 or 4, if it is not yet initiated. If memory runs out, nothing
// changes.
#[tactic(auto, unfolding(crate::specs::Accepted::with_initiated_name))]
fn add_name(
    names: &mut IndexMap<RingName, u16, HashSeed>,
    ring: u8,
    link: &Link,
    target: u16,
) -> Result<(), NoMemory>
    requires names { AreNames names.old.entries }
    requires target { target < 2 ^ 15 }
    ensures ok { OnOk result
        (names.new.entries ≡ with_initiated_name names.old.entries ring link.now target) }
    ensures err { OnErr result (names.new.entries ≡ names.old.entries) }
    ensures names { AreNames names.new.entries }
{
    if !kind_has_name(link.kind as u64) {
        return Ok(());
    }
    let name = &link.name;
    match initiated_segment(names, ring, name.bytes()) {
        Some(_) => Ok(()),
        None => {
            let name = RingName {
                name: name.copied(),
                ring,
            };
            insert_name(names, name, target)
        }
    }
}

// Adds the section that is laid, if there is one, to the list, and its index to the table. There is
// room for it.
#[tactic(auto, unfolding(crate::specs::Accepted::with_section))]
fn add_section(laid: &mut Vec<PlacedSection>, places: &mut Vec<u16>, lay: &Option<NewSection>)
    requires room { vec_len laid.old < vec_capacity laid.old }
    requires fits { IfSome lay.now (λ l. l.base + length l.words ≤ segment_limit) }
    ensures { laid.new.items ≡ with_section laid.old.items lay.now }
{
    if let Some(lay) = lay {
        let section = PlacedSection {
            base: lay.base,
            size: lay.words.slice().len() as u32,
            seg: lay.seg,
            ring: lay.ring,
        };
        store_index(places, lay.ring, lay.seg, laid.len());
        match laid.push(section) {
            Ok(()) => {}
            Err(_) => unreachable!(),
        }
    }
}

impl Known {
    /// Nothing is known yet. Names are hashed with the seed of the catalog. Fails only with
    /// `NoMemory`.
    pub fn new(alloc: Global, catalog: &Catalog) -> Result<Known, NoMemory>
        ensures { IfOk result (λ known. known ≡ nothing_known) }
    {
        Ok(Known {
            names: IndexMap::with_hasher(alloc, catalog.seed()),
            laid: Vec::new(alloc),
            places: empty_index_table(alloc)?,
        })
    }

    /// The sections that are laid, in the order in which they were laid.
    pub fn laid(&self) -> &[PlacedSection]
        ensures { result.now ≡ self.now.laid }
    {
        self.laid.as_slice()
    }

    // The sections that are laid, with the table of their indexes.
    pub(crate) fn sections(&self) -> PlacedSections<'_>
        ensures { result ≡ self.now.laid }
    {
        PlacedSections {
            items: self.laid.as_slice(),
            places: self.places.as_slice(),
        }
    }

    /// The number of the segment that a reference name means in a ring, if a segment of the
    /// directory `from` refers to it. It is the segment that is initiated under the name in the
    /// ring; otherwise the segment of that name in the directory, in the working directory, or in
    /// the first library that has it. None exactly if there is no such segment.
    #[tactic(auto, unfolding(crate::specs::Search::search_result, crate::specs::Search::candidates))]
    pub fn search(&self, catalog: &Catalog, ring: u8, name: &[u8], from: u16) -> Option<u16>
        ensures value { result ≡ search_result self.now catalog.now ring name.now from }
        ensures bound { IfSome result (λ seg. seg < 2 ^ 15) }
    {
        match initiated_segment(&self.names, ring, name) {
            Some(seg) => Some(seg),
            None => search_directories(catalog, name, from),
        }
    }

    /// Adds the results of an answer: the name of a link of type 3 or 4, if the ring does not have
    /// it yet, and the section that is laid. If memory runs out, nothing changes.
    #[tactic(auto, unfolding(crate::specs::Accepted::known_after))]
    pub fn accept(&mut self, s: &Snap) -> Result<(), NoMemory>
        requires { MayBeLaid self.old s.now.lay }
        ensures ok { OnOk result (self.new ≡ known_after self.old s.now) }
        ensures err { OnErr result (self.new ≡ self.old) }
    {
        self.laid.reserve(1)?;
        add_name(&mut self.names, s.ring, &s.link, s.target)?;
        add_section(&mut self.laid, &mut self.places, &s.lay);
        Ok(())
    }
}
