//! The `segment` lines above a line, each with its terms.

ghost use Rattle.std.specs.Prelude.{[], ◌∷◌, ◌++◌, ◌≡◌, ◌≤◌, ◌<◌, ◌-◌, false, length, slice_set};
ghost use Rattle.std.specs.Prelude.{IfSome, OnOk, option_map};
ghost use Rattle.std.specs.Vec.{vec_len, vec_capacity};
ghost use Rattle.m36_dir.specs.BootOrder.{entry};
ghost use Rattle.m36_acl.specs.AccessLists.{entries_of_lists, has_segment, with_term};
ghost use Rattle.m36_text.specs.Lines.{last_of};
ghost use Rattle.m36_dir.specs.BootLine.{directory_limit};
ghost use Rattle.m36_text.specs.Seeds.{name_writes};
ghost use Rattle.std.specs.Cmp.Rules.{hashing};
ghost use Rattle.std.proofs.Common.{rules};

use crate::segment::{AclSegment, Term};
use arrayvec::ArrayVec;
use indexmap::IndexSet;
use m36_text::{HashSeed, Name};
use m36_word::NoMemory;
use std::alloc::Global;
use std::hash::{Hash, Hasher};
use std::marker::Model;

/// A segment, by its directory and its name. Its model is the record of these two.
#[derive(PartialEq, Eq, Drop)]
pub(crate) struct SegmentKey {
    dir: ArrayVec<u8, 64>,
    name: Name,
}

impl Model for SegmentKey {
    ghost use Rattle.m36_dir.specs.BootOrder.{Entry};

    ghost Value = { Entry };

    ghost view = { λ p. record { dir = p.dir.items; name = p.name } };

    ghost inverse = { λ e. record { dir = record { items = e.dir }; name = e.name } };
}

impl Hash for SegmentKey {
    ghost hash_input = { λ e. name_writes e.name ++ e.dir ∷ [] };

    ghost respects_eq = { Prim.search (hashing, rules) };

    // Hashes the name, and then the directory.
    fn hash<H: Hasher>(&self, state: &mut H) {
        self.name.hash(state);
        state.write(self.dir.as_slice());
    }
}

/// Segments in the order of their lines, each with its terms, and a hash table of their directories
/// and names. The model is the list of the segments.
#[derive(Drop)]
pub(crate) struct SegmentsAbove {
    segments: Vec<AclSegment>,
    places: IndexSet<SegmentKey, HashSeed>,
}

impl Model for SegmentsAbove {
    ghost use Rattle.std.specs.Prelude.{◌≡◌, List};
    ghost use Rattle.m36_acl.specs.Fields.{AclSegmentFields};
    ghost use Rattle.m36_acl.specs.AccessLists.{entries_of_lists};

    ghost Value = { List AclSegmentFields };

    ghost view = { λ a. a.segments.items };

    ghost invariant = { λ a. a.places.keys ≡ entries_of_lists a.segments.items };
}

impl SegmentKey {
    /// The segment with this name in this directory.
    pub(crate) fn new(dir: &[u8], name: Name) -> SegmentKey
        requires { length dir.now ≤ directory_limit }
        ensures { result ≡ entry dir.now name }
    {
        let mut items = ArrayVec::new();
        match items.try_extend_from_slice(dir) {
            Ok(()) => SegmentKey { dir: items, name },
            Err(_) => unreachable!(),
        }
    }
}

// Adds a segment; the vector has room for it.
fn push_within_capacity(segments: &mut Vec<AclSegment>, segment: AclSegment)
    requires { vec_len segments.old < vec_capacity segments.old }
    ensures { segments.new.items ≡ segments.old.items ++ segment ∷ [] }
{
    match segments.push(segment) {
        Ok(()) => {}
        Err(_) => unreachable!(),
    }
}

// Adds a term to the last segment.
fn push_to_last(segments: &mut Vec<AclSegment>, term: Term) -> Result<(), NoMemory>
    requires { 1 ≤ length segments.old.items }
    ensures added { OnOk result (IfSome (last_of segments.old.items) (λ last. segments.new.items
        ≡ slice_set segments.old.items (length segments.old.items - 1) (with_term last term))) }
    ensures places { entries_of_lists segments.new.items ≡ entries_of_lists segments.old.items }
{
    let place = segments.len() - 1;
    let last = &mut segments[place];
    last.push(term)?;
    Ok(())
}

impl SegmentsAbove {
    /// No segments. Their names will be hashed with this seed.
    pub(crate) fn new(alloc: Global, seed: HashSeed) -> SegmentsAbove
        ensures { result ≡ [] }
    {
        SegmentsAbove {
            segments: Vec::new(alloc),
            places: IndexSet::with_hasher(alloc, seed),
        }
    }

    /// Whether a segment is in the list.
    pub(crate) fn has(&self, place: &SegmentKey) -> bool
        ensures { result ≡ has_segment self.now place.now }
    {
        self.places.contains(place)
    }

    /// Adds a segment that is not in the list.
    pub(crate) fn add(&mut self, place: SegmentKey, segment: AclSegment) -> Result<(), NoMemory>
        requires place { place ≡ entry segment.dir segment.name }
        requires fresh { has_segment self.old place ≡ false }
        ensures { OnOk result (self.new ≡ self.old ++ segment ∷ []) }
    {
        self.segments.reserve(1)?;
        self.places.insert(place)?;
        push_within_capacity(&mut self.segments, segment);
        Ok(())
    }

    /// The terms of the last segment. None if there is no segment.
    pub(crate) fn last_terms(&self) -> Option<&[Term]>
        ensures { option_map (λ t. t.now) result ≡ option_map (λ s. s.terms) (last_of self.now) }
    {
        Some(self.segments.last()?.terms())
    }

    /// Adds a term to the last segment.
    pub(crate) fn add_to_last(&mut self, term: Term) -> Result<(), NoMemory>
        requires { 1 ≤ length self.old }
        ensures { OnOk result (IfSome (last_of self.old) (λ last.
            self.new ≡ slice_set self.old (length self.old - 1) (with_term last term))) }
    {
        push_to_last(&mut self.segments, term)
    }

    /// The segments in the order of their lines.
    pub(crate) fn into_segments(self) -> Vec<AclSegment>
        ensures { result.items ≡ self }
    {
        self.segments
    }
}
