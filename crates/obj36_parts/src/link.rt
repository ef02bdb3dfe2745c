//! Links: references of an object to places of other segments or of itself.

ghost use Rattle.std.specs.Prelude.{List, [], ◌∷◌, ◌++◌, ◌≡◌, ◌+◌, ◌<◌, ◌≤◌, position, OnOk};
ghost use Rattle.std.specs.Prelude.{OnErr};
ghost use Rattle.indexmap.specs.IndexSet.{spare};
ghost use Rattle.m36_text.specs.Seeds.{name_writes};
ghost use Rattle.obj36_parts.specs.Names.{with_name, with_names};
ghost use Rattle.obj36_parts.specs.ObjectSegment.{name_used, entry_used, link_names};
ghost use Rattle.obj36_parts.specs.ObjectSegment.{all_link_names};
ghost use Rattle.obj36_parts.specs.Indexes.{link_hash_number, same_link, has_link};
ghost use Rattle.obj36_parts.specs.Indexes.{with_first_index};
ghost use Rattle.std.specs.Cmp.Rules.{hashing};
ghost use Rattle.std.specs.Hash as fed;
ghost use Rattle.std.proofs.Common.{rules};

use crate::definition::push_within_capacity;
use crate::names::{kind_has_entry, kind_has_name};
use crate::section::Section;
use crate::sections::class_number;
use indexmap::{IndexMap, IndexSet};
use m36_text::{HashSeed, Name};
use m36_word::NoMemory;
use std::alloc::Global;
use std::hash::{Hash, Hasher};
use std::marker::Model;

/// A link. Of the fields that its type does not use, a section is the text and a name is empty.
#[derive(Debug, PartialEq, Eq, Drop)]
pub struct Link {
    /// The segment that the link refers to; used by types 3 and 4.
    pub name: Name,
    /// The definition in the segment; used by types 4 and 5.
    pub entry: Name,
    /// The number that is added to the place that is found; 18 bits.
    pub expr: u32,
    /// The type: 1 for a section of the own object, 3 for a segment, 4 for a definition of a
    /// segment, 5 for a definition of the own object.
    pub kind: u8,
    /// The section of the own object; used by types 1 and 5.
    pub section: Section,
    /// The tag of the pair that replaces the link when it is snapped; 6 bits.
    pub modifier: u8,
}

impl Model for Link {
    ghost use Rattle.std.specs.Prelude.{◌<◌, ◌^◌};
    ghost use Rattle.obj36_parts.specs.Fields.{LinkFields};

    ghost Value = { LinkFields };

    ghost view = { λ l. record {
      kind = l.kind;
      section = l.section;
      name = l.name;
      entry = l.entry;
      expr = l.expr;
      modifier = l.modifier;
    } };

    ghost invariant = { λ l. (l.expr < 2 ^ 18) × (l.modifier < 2 ^ 6) };

    ghost inverse = { λ l. record {
      name = l.name;
      entry = l.entry;
      expr = l.expr;
      kind = l.kind;
      section = l.section;
      modifier = l.modifier;
    } };
}

impl Hash for Link {
    ghost hash_input = { λ l.
        fed.u64 (link_hash_number l) ++ name_writes l.name ++ name_writes l.entry };

    ghost respects_eq = { Prim.search (hashing, rules) };

    fn hash<H: Hasher>(&self, state: &mut H) {
        state.write_u64(hash_number(self));
        self.name.hash(state);
        self.entry.hash(state);
    }
}

// All fields of a link but its names, as one number for its hash.
fn hash_number(link: &Link) -> u64
    ensures { result ≡ link_hash_number link.now }
{
    link.expr as u64
        + ((link.modifier as u64) << 18)
        + ((link.kind as u64) << 24)
        + (class_number(link.section) << 32)
}

impl Link {
    /// A copy.
    pub fn copied(&self) -> Link
        ensures { result ≡ self.now }
    {
        Link {
            name: self.name.copied(),
            entry: self.entry.copied(),
            expr: self.expr,
            kind: self.kind,
            section: self.section,
            modifier: self.modifier,
        }
    }
}

/// A list of links that grows at its end, with hash tables of the first index of each link and of
/// the names that the links use. Its model is the list.
#[derive(Drop)]
pub struct Links {
    items: Vec<Link>,
    places: IndexMap<Link, u64, HashSeed>,
    names: IndexSet<Name, HashSeed>,
}

impl Model for Links {
    ghost use Rattle.std.specs.Prelude.{List};
    ghost use Rattle.obj36_parts.specs.Fields.{LinkFields};
    ghost use Rattle.obj36_parts.specs.Indexes.{AreIndexed};

    ghost Value = { List LinkFields };

    ghost view = { λ l. l.items.items };

    ghost invariant = { λ l. AreIndexed l.items.items l.places.entries l.names.keys };
}

impl Links {
    /// An empty list. Its links and their names will be hashed with this seed.
    pub fn new(alloc: Global, seed: HashSeed) -> Links
        ensures { result ≡ [] }
    {
        Links {
            items: Vec::new(alloc),
            places: IndexMap::with_hasher(alloc, seed),
            names: IndexSet::with_hasher(alloc, seed),
        }
    }

    /// Adds a link at the end. If memory runs out, nothing changes.
    #[tactic(auto, using(crate::proofs::IndexLaws::indexed_more))]
    pub fn push(&mut self, x: Link) -> Result<(), NoMemory>
        ensures ok { OnOk result (self.new ≡ self.old ++ x ∷ []) }
        ensures err { OnErr result (self.new ≡ self.old) }
    {
        self.items.reserve(1)?;
        self.names.reserve(2)?;
        add_first_index(&mut self.places, &x, self.items.len() as u64)?;
        add_names_of_link(&mut self.names, &x);
        push_within_capacity(&mut self.items, x);
        Ok(())
    }

    /// The links in order.
    pub fn items(&self) -> &[Link]
        ensures { result.now ≡ self.now }
    {
        self.items.as_slice()
    }

    /// The index of the first link that is equal to this one, counted from 0. None if there is
    /// none.
    pub fn index_of(&self, link: &Link) -> Option<u64>
        ensures { result ≡ position (same_link link.now) self.now }
    {
        self.places.get(link).copied()
    }

    /// Whether the list has this link.
    #[tactic(auto, using(crate::proofs::IndexLaws::placed_has))]
    pub fn has(&self, link: &Link) -> bool
        ensures { result ≡ has_link link.now self.now }
    {
        self.index_of(link).is_some()
    }

    /// The names that the links use, each once, in the order in which they first occur.
    pub fn names(&self) -> &[Name]
        ensures { result.now ≡ with_names [] (all_link_names self.now) }
    {
        self.names.as_slice()
    }
}

// Records the index of a link, unless it has one already.
fn add_first_index(
    places: &mut IndexMap<Link, u64, HashSeed>,
    link: &Link,
    place: u64,
) -> Result<(), NoMemory>
    ensures ok { OnOk result (places.new.entries ≡ with_first_index places.old.entries link.now
        place) }
    ensures err { OnErr result (places.new.entries ≡ places.old.entries) }
{
    if places.contains_key(link) {
        return Ok(());
    }
    places.insert(link.copied(), place)?;
    Ok(())
}

// Adds a name to the set; the set has room for it.
#[tactic(auto, unfolding(crate::specs::Names::with_name))]
fn add_name_to_set(names: &mut IndexSet<Name, HashSeed>, name: &Name)
    requires { 0 < spare names.old }
    ensures keys { names.new.keys ≡ with_name names.old.keys name.now }
    ensures room { spare names.old ≤ spare names.new + 1 }
{
    match names.insert(name.copied()) {
        Ok(_) => {}
        Err(_) => unreachable!(),
    }
}

// Adds the name of a segment that a link uses, if it uses one. There is room for it.
#[tactic(auto, unfolding(crate::specs::ObjectSegment::name_used, crate::specs::Names::with_names))]
fn add_segment_name(names: &mut IndexSet<Name, HashSeed>, link: &Link)
    requires { 0 < spare names.old }
    ensures keys { names.new.keys ≡ with_names names.old.keys (name_used link.now) }
    ensures room { spare names.old ≤ spare names.new + 1 }
{
    if kind_has_name(link.kind as u64) {
        add_name_to_set(names, &link.name);
    }
}

// Adds the name of an entry that a link uses, if it uses one. There is room for it.
#[tactic(auto, unfolding(crate::specs::ObjectSegment::entry_used, crate::specs::Names::with_names))]
fn add_entry_name(names: &mut IndexSet<Name, HashSeed>, link: &Link)
    requires { 0 < spare names.old }
    ensures { names.new.keys ≡ with_names names.old.keys (entry_used link.now) }
{
    if kind_has_entry(link.kind as u64) {
        add_name_to_set(names, &link.entry);
    }
}

// Adds the names that a link uses to the set; the set has room for two.
#[tactic(auto, unfolding(crate::specs::ObjectSegment::link_names), using(crate::proofs::NameTables::added_then))]
fn add_names_of_link(names: &mut IndexSet<Name, HashSeed>, link: &Link)
    requires { 2 ≤ spare names.old }
    ensures { names.new.keys ≡ with_names names.old.keys (link_names link.now) }
{
    add_segment_name(names, link);
    add_entry_name(names, link);
}
