//! Tables of definitions by their names.

ghost use Rattle.std.specs.Prelude.{ℕ, ◌≡◌, ◌^◌, ◌<◌, [], IfOk, OnOk};
ghost use Rattle.m36_relocate.specs.Exports.{export_named, export_after, with_export, is_symbol};
ghost use Rattle.m36_relocate.specs.Exports.{with_definition, with_own_definition};
ghost use Rattle.m36_relocate.specs.Exports.{with_own_definitions, relocated_def};
ghost use Rattle.m36_relocate.specs.Exports.{with_relocated_definition, with_relocated_definitions};

use crate::layout::{Relocation, relocated_place};
use indexmap::IndexMap;
use m36_text::{HashSeed, Name};
use m36_word::NoMemory;
use obj36_parts::{Def, Named, Section};
use std::alloc::Global;
use std::marker::Model;

/// What a table has for a name: the first definition of the name, and whether there are more.
#[derive(Clone, Copy)]
pub struct Export {
    /// The first definition.
    pub def: Def,
    /// Whether another definition of the name follows it.
    pub twice: bool,
}

/// A table of definitions. Its model is the list of its entries in order.
#[derive(Drop)]
pub struct Exports {
    entries: IndexMap<Name, Export, HashSeed>,
}

impl Model for Exports {
    ghost use Rattle.std.specs.Prelude.{ℕ, List};
    ghost use Rattle.m36_relocate.specs.declared.exports.Export.{Export};

    ghost Value = { List (List ℕ × Export) };

    ghost view = { λ e. e.entries.entries };
}

// The entry of a name after one more definition of it. The first definition stays.
fn export_after(def: Def, first: Option<Export>) -> Export
    ensures { result ≡ export_after def first }
{
    match first {
        None => Export { def, twice: false },
        Some(first) => Export {
            def: first.def,
            twice: true,
        },
    }
}

// Looks up a name in the hash table.
#[tactic(auto, unfolding(crate::specs::Exports::export_named))]
fn find_export(entries: &IndexMap<Name, Export, HashSeed>, name: &Name) -> Option<Export>
    ensures { result ≡ export_named name.now entries.now.entries }
{
    entries.get(name).copied()
}

impl Exports {
    /// An empty table. Its names will be hashed with this seed.
    pub fn new(alloc: Global, seed: HashSeed) -> Exports
        ensures { result ≡ [] }
    {
        Exports {
            entries: IndexMap::with_hasher(alloc, seed),
        }
    }

    /// The seed of the hash table.
    pub fn seed(&self) -> HashSeed {
        *self.entries.hasher()
    }

    /// The entry of a name. None if the table has none.
    pub fn find(&self, name: &Name) -> Option<Export>
        ensures { result ≡ export_named name.now self.now }
    {
        find_export(&self.entries, name)
    }

    // Adds a definition of a name.
    #[tactic(auto, unfolding(crate::specs::Exports::with_export))]
    fn add(&mut self, name: &Name, def: Def) -> Result<(), NoMemory>
        ensures { OnOk result (self.new ≡ with_export self.old name.now def) }
    {
        let first = find_export(&self.entries, name);
        self.entries
            .insert(name.copied(), export_after(def, first))?;
        Ok(())
    }

    // Adds the definition `d` of an object with the place `def`, unless its class is symbol.
    fn add_definition(&mut self, d: &Named, def: Def) -> Result<(), NoMemory>
        ensures { OnOk result (self.new ≡ with_definition self.old d.now def) }
    {
        if is_symbol(d.def.section) {
            return Ok(());
        }
        self.add(&d.name, def)
    }
}

// Whether a definition with this section is of class symbol. Tables leave these out.
fn is_symbol(section: Section) -> bool
    ensures { result ≡ is_symbol section }
{
    matches!(section, Section::Symbol)
}

// Adds a definition of an object at the place that it has there.
fn add_own_definition(table: &mut Exports, d: &Named) -> Result<(), NoMemory>
    ensures { OnOk result (table.new ≡ with_own_definition table.old d.now) }
{
    table.add_definition(d, d.def)
}

/// The table of the definitions of one object, at the places that they have there. Definitions of
/// class symbol are left out. The names are hashed with this seed. Fails only with `NoMemory`.
#[tactic(auto, unfolding(crate::specs::Exports::with_own_definitions))]
pub fn own_entries(
    alloc: Global,
    seed: HashSeed,
    definitions: &[Named],
) -> Result<Exports, NoMemory>
    ensures { IfOk result (λ table. table ≡ with_own_definitions [] definitions.now) }
{
    let mut table = Exports::new(alloc, seed);
    let mut rest = definitions;
    while let [d, others @ ..] = rest {
        add_own_definition(&mut table, d)?;
        rest = others;
    }
    Ok(table)
}

// A definition of a component, with its place in the bound object.
fn relocated_def(m: &Relocation, def: Def) -> Def
    ensures { result ≡ relocated_def m.now def }
{
    let s = relocated_place(m, def.section, def.value as u64);
    Def {
        value: s.offset,
        section: s.section,
        is_entry: def.is_entry,
    }
}

// Adds a definition of a component, at its place in the bound object.
fn add_relocated_definition(table: &mut Exports, m: &Relocation, d: &Named) -> Result<(), NoMemory>
    ensures { OnOk result (table.new ≡ with_relocated_definition m.now table.old d.now) }
{
    table.add_definition(d, relocated_def(m, d.def))
}

/// Adds the definitions of a component, at their places in the bound object. Fails only with
/// `NoMemory`.
#[tactic(auto, unfolding(crate::specs::Exports::with_relocated_definitions))]
pub fn add_relocated_definitions(
    table: &mut Exports,
    m: &Relocation,
    definitions: &[Named],
) -> Result<(), NoMemory>
    ensures { OnOk result (table.new ≡ with_relocated_definitions m.now table.old definitions.now) }
{
    let mut rest = definitions;
    while let [d, others @ ..] = rest {
        add_relocated_definition(table, m, d)?;
        rest = others;
    }
    Ok(())
}
