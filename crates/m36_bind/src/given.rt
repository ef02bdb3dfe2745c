//! The objects that the binder is given, each found by its name.

ghost use Rattle.std.specs.Prelude.{◌≡◌, IfOk, OnOk, slice_get, option_map, option_and_then};
ghost use Rattle.std.specs.Map.{lookup};
ghost use Rattle.obj36_parts.specs.Names.{same};
ghost use Rattle.m36_bind.specs.Given.{object_named, with_index, IndexesAreFirst};

use indexmap::IndexMap;
use m36_text::{HashSeed, Name};
use m36_word::NoMemory;
use obj36::Object;
use std::alloc::Global;
use std::marker::Model;

// Objects with their names.
#[derive(Drop)]
pub(crate) struct NamedObjects<'a> {
    names: &'a [Name],
    objects: &'a [Object],
    // The index of the first object of each name.
    places: IndexMap<Name, u64, HashSeed>,
}

impl<'a> Model for NamedObjects<'a> {
    ghost use Rattle.m36_bind.specs.Given.{NamedObjectsFields, IndexesAreFirst};

    ghost Value = { NamedObjectsFields };

    ghost view = { λ g. record { names = g.names.now; objects = g.objects.now } };

    ghost invariant = { λ g. IndexesAreFirst g.names.now g.places.entries };
}

// The index of the first object that was given under this name.
fn index_of_name(places: &IndexMap<Name, u64, HashSeed>, name: &Name) -> Option<u64>
    ensures { result ≡ lookup (same name.now) places.now.entries }
{
    places.get(name).copied()
}

// Records the index of a name, unless it has one already.
#[tactic(auto, unfolding(crate::specs::Given::with_index))]
fn record_index(
    places: &mut IndexMap<Name, u64, HashSeed>,
    name: &Name,
    place: u64,
) -> Result<(), NoMemory>
    ensures { OnOk result (places.new.entries ≡ with_index places.old.entries name.now place) }
{
    if index_of_name(places, name).is_some() {
        return Ok(());
    }
    places.insert(name.copied(), place)?;
    Ok(())
}

// The index of the first object of each name. The names are hashed with this seed.
fn first_indexes_of(
    alloc: Global,
    seed: HashSeed,
    names: &[Name],
) -> Result<IndexMap<Name, u64, HashSeed>, NoMemory>
    ensures { IfOk result (λ places. IndexesAreFirst names.now places.entries) }
{
    let mut places = IndexMap::with_hasher(alloc, seed);
    let mut place: u64 = 0;
    for name in names {
        record_index(&mut places, name, place)?;
        place += 1;
    }
    Ok(places)
}

// The object with this index. None if there is no index.
fn object_at(objects: &[Object], place: Option<u64>) -> Option<&Object>
    ensures { option_map (λ o. o.now) result ≡ option_and_then (slice_get objects.now) place }
{
    let place = place?;
    objects.get(place as usize)
}

impl<'a> NamedObjects<'a> {
    // Objects with their names, which are hashed with this seed.
    pub(crate) fn new(
        alloc: Global,
        seed: HashSeed,
        names: &'a [Name],
        objects: &'a [Object],
    ) -> Result<NamedObjects<'a>, NoMemory>
        ensures { IfOk result
            (λ given. given ≡ record { names = names.now; objects = objects.now }) }
    {
        let places = first_indexes_of(alloc, seed, names)?;
        Ok(NamedObjects {
            names,
            objects,
            places,
        })
    }

    // The seed of the hash table.
    pub(crate) fn seed(&self) -> HashSeed {
        *self.places.hasher()
    }

    // The first object with a name. None if there is none.
    pub(crate) fn find(&self, name: &Name) -> Option<&'a Object>
        ensures { option_map (λ o. o.now) result ≡ object_named self.now name.now }
    {
        let place = index_of_name(&self.places, name);
        object_at(self.objects, place)
    }
}
