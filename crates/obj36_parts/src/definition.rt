//! Definitions: the names by which others refer to places of an object.

ghost use Rattle.std.specs.Prelude.{List, [], ◌∷◌, ◌++◌, ◌≡◌, ◌<◌, OnOk, OnErr};
ghost use Rattle.std.specs.Vec.{vec_len, vec_capacity};
ghost use Rattle.obj36_parts.specs.Names.{with_names};
ghost use Rattle.obj36_parts.specs.ObjectSegment.{definition_names, are_distinct, definition_named};
ghost use Rattle.obj36_parts.specs.ObjectSegment.{has_definition};
ghost use Rattle.obj36_parts.specs.Indexes.{with_first_definition};

use crate::section::Section;
use indexmap::IndexMap;
use m36_text::{HashSeed, Name};
use m36_word::NoMemory;
use std::alloc::Global;
use std::marker::Model;

/// The place of a definition.
#[derive(Clone, Copy, PartialEq, Eq)]
pub struct Def {
    /// The offset in the section; 18 bits.
    pub value: u32,
    /// The section, which gives the class. Only version 2 has the class static.
    pub section: Section,
    /// Whether the definition is an entry, which may be called.
    pub is_entry: bool,
}

impl Model for Def {
    ghost use Rattle.std.specs.Prelude.{◌<◌, ◌^◌};
    ghost use Rattle.obj36_parts.specs.Fields.{DefFields};

    ghost Value = { DefFields };

    ghost view = { λ d. record { section = d.section; value = d.value; is_entry = d.is_entry } };

    ghost invariant = { λ d. d.value < 2 ^ 18 };

    ghost inverse = { λ d. record { value = d.value; section = d.section; is_entry = d.is_entry } };
}

/// A definition: a name and its place.
#[derive(Drop)]
pub struct Named {
    /// 1 to 32 letters, digits, `_` and full stops; unique in its object.
    pub name: Name,
    /// The place that it names.
    pub def: Def,
}

/// A list of definitions that grows at its end, with a hash table of the place of the first
/// definition of each name. Its model is the list.
#[derive(Drop)]
pub struct Defs {
    items: Vec<Named>,
    firsts: IndexMap<Name, Def, HashSeed>,
}

impl Model for Defs {
    ghost use Rattle.std.specs.Prelude.{List};
    ghost use Rattle.obj36_parts.specs.declared.definition.Named.{Named};
    ghost use Rattle.obj36_parts.specs.Indexes.{AreFirsts};

    ghost Value = { List Named };

    ghost view = { λ d. d.items.items };

    ghost invariant = { λ d. AreFirsts d.items.items d.firsts.entries };
}

impl Defs {
    /// An empty list. Its names will be hashed with this seed.
    #[tactic(auto, using(crate::proofs::FirstLaws::none_first))]
    pub fn new(alloc: Global, seed: HashSeed) -> Defs
        ensures { result ≡ [] }
    {
        Defs {
            items: Vec::new(alloc),
            firsts: IndexMap::with_hasher(alloc, seed),
        }
    }

    /// The seed of its hash table.
    pub fn seed(&self) -> HashSeed {
        *self.firsts.hasher()
    }

    /// Adds a definition at the end. If memory runs out, nothing changes.
    pub fn push(&mut self, x: Named) -> Result<(), NoMemory>
        ensures ok { OnOk result (self.new ≡ self.old ++ x ∷ []) }
        ensures err { OnErr result (self.new ≡ self.old) }
    {
        self.items.reserve(1)?;
        add_first_definition(&mut self.firsts, &x)?;
        push_within_capacity(&mut self.items, x);
        Ok(())
    }

    /// The definitions in order.
    pub fn items(&self) -> &[Named]
        ensures { result.now ≡ self.now }
    {
        self.items.as_slice()
    }

    /// Whether there is a definition of this name.
    pub fn has(&self, name: &Name) -> bool
        ensures { result ≡ has_definition name.now self.now }
    {
        self.firsts.contains_key(name)
    }

    /// The place of the first definition of this name. None if no definition has it.
    pub fn find(&self, name: &Name) -> Option<Def>
        ensures { result ≡ definition_named name.now self.now }
    {
        self.firsts.get(name).copied()
    }

    /// The names, each once, in the order in which they first occur.
    pub fn names(&self) -> &[Name]
        ensures { result.now ≡ with_names [] (definition_names self.now) }
    {
        self.firsts.keys().as_slice()
    }

    /// Whether all definitions have different names.
    pub fn has_distinct_names(&self) -> bool
        ensures { result ≡ are_distinct (definition_names self.now) }
    {
        self.firsts.len() == self.items.len()
    }
}

// Records the place of a definition, unless its name has one already.
fn add_first_definition(
    firsts: &mut IndexMap<Name, Def, HashSeed>,
    definition: &Named,
) -> Result<(), NoMemory>
    ensures ok { OnOk result (firsts.new.entries ≡ with_first_definition firsts.old.entries
        definition.now) }
    ensures err { OnErr result (firsts.new.entries ≡ firsts.old.entries) }
{
    if firsts.contains_key(&definition.name) {
        return Ok(());
    }
    firsts.insert(definition.name.copied(), definition.def)?;
    Ok(())
}

/// Adds an item; the vector has room for it.
pub fn push_within_capacity<T: Drop>(items: &mut Vec<T>, x: T)
    requires { vec_len items.old < vec_capacity items.old }
    ensures { items.new.items ≡ items.old.items ++ x ∷ [] }
{
    match items.push(x) {
        Ok(()) => {}
        Err(_) => unreachable!(),
    }
}
