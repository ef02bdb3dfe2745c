//! The names of a definition section, which has each once.

ghost use Rattle.std.specs.Prelude.{[], ◌++◌, ◌≡◌, ◌+◌, ◌-◌, ◌*◌, ◌^◌, ◌<◌, ◌≤◌, length};
ghost use Rattle.std.specs.Prelude.{OnOk, IfOk};
ghost use Rattle.m36_text.specs.Texts.{name_limit};
ghost use Rattle.obj36_parts.specs.Names.{with_name, with_names, name_offset, name_size};
ghost use Rattle.obj36_parts.specs.Names.{name_quarter};
ghost use Rattle.obj36_parts.specs.Names.{name_word, name_words, all_name_words};
ghost use Rattle.obj36_parts.specs.ObjectSegment.{definition_names, link_names, all_link_names};
ghost use Rattle.obj36_parts.specs.ObjectSegment.{has_name, has_entry};

use crate::definition::Named;
use crate::link::Link;
use indexmap::IndexMap;
use m36_text::{HashSeed, Name};
use m36_word::{NoMemory, Word, Words};
use std::alloc::Global;
use std::marker::Model;

/// Whether a link of this type has the name of a segment.
pub fn kind_has_name(kind: u64) -> bool
    ensures { result ≡ has_name kind }
{
    kind == 3 || kind == 4
}

/// Whether a link of this type has the name of an entry.
pub fn kind_has_entry(kind: u64) -> bool
    ensures { result ≡ has_entry kind }
{
    kind == 4 || kind == 5
}

// The number of words of a name: 1 to 9.
#[tactic(auto, unfolding(crate::specs::Names::name_size))]
pub(crate) fn size_of_name(name: &Name) -> u64
    ensures value { result ≡ name_size name.now }
    ensures bound { result ≤ 9 }
{
    name.bytes().len() as u64 / 4 + 1
}

/// A table of names without repetition, which are placed one after another from an offset on.
#[derive(Drop)]
pub struct NameTable {
    places: IndexMap<Name, u64, HashSeed>,
    base: u64,
    next: u64,
}

impl Model for NameTable {
    ghost use Rattle.obj36_parts.specs.Names.{names_in};
    ghost use Rattle.obj36_parts.specs.NameTables.{NameTableFields, ArePlaced};

    ghost Value = { NameTableFields };

    ghost view = { λ t. record { names = names_in t.places.entries; base = t.base } };

    ghost invariant = { λ t. ArePlaced t.places.entries t.base t.next };
}

impl NameTable {
    // An empty table. The first name will be at the offset `base` of the definition section.
    fn new(alloc: Global, seed: HashSeed, base: u64) -> NameTable
        requires { base ≤ 2 ^ 40 }
        ensures { result ≡ record { names = []; base = base } }
    {
        NameTable {
            places: IndexMap::with_hasher(alloc, seed),
            base,
            next: base,
        }
    }

    // Adds a name, unless the table has it.
    #[tactic(auto, using(crate::proofs::NamePlaces::named_there, crate::proofs::NamePlaces::few_named))]
    fn add(&mut self, name: &Name) -> Result<(), NoMemory>
        requires { length self.old.names < 2 ^ 40 }
        ensures names { OnOk result (self.new.names ≡ with_name self.old.names name.now) }
        ensures few { OnOk result (length self.new.names ≤ length self.old.names + 1) }
        ensures base { self.new.base ≡ self.old.base }
    {
        if self.places.contains_key(name) {
            return Ok(());
        }
        self.places.insert(name.copied(), self.next)?;
        self.next += size_of_name(name);
        Ok(())
    }

    // The offset of a name; for a name that is not in the table, the offset after the last one.
    pub(crate) fn offset_of(&self, name: &Name) -> u64
        ensures { result ≡ name_offset name.now self.now.names self.now.base }
    {
        self.places.get(name).copied().unwrap_or(self.next)
    }

    // The names in order.
    pub(crate) fn names(&self) -> &[Name]
        ensures { result.now ≡ self.now.names }
    {
        self.places.keys().as_slice()
    }
}

// Adds the names of definitions. Fails only with `NoMemory`.
fn add_definitions(table: &mut NameTable, definitions: &[Named]) -> Result<(), NoMemory>
    requires { length table.old.names + length definitions.now < 2 ^ 40 }
    ensures names { OnOk result
        (table.new.names ≡ with_names table.old.names (definition_names definitions.now)) }
    ensures few { OnOk result
        (length table.new.names ≤ length table.old.names + length definitions.now) }
    ensures base { table.new.base ≡ table.old.base }
{
    for definition in definitions {
        table.add(&definition.name)?;
    }
    Ok(())
}

// Adds the names that a link uses: none, one or two. Fails only with `NoMemory`.
#[tactic(auto, unfolding(crate::specs::Names::with_names, crate::specs::ObjectSegment::link_names, crate::specs::ObjectSegment::name_used, crate::specs::ObjectSegment::entry_used))]
fn add_link(table: &mut NameTable, link: &Link) -> Result<(), NoMemory>
    requires { length table.old.names + 2 < 2 ^ 40 }
    ensures names { OnOk result
        (table.new.names ≡ with_names table.old.names (link_names link.now)) }
    ensures few { OnOk result (length table.new.names ≤ length table.old.names + 2) }
    ensures base { table.new.base ≡ table.old.base }
{
    if kind_has_name(link.kind as u64) {
        table.add(&link.name)?;
    }
    if kind_has_entry(link.kind as u64) {
        table.add(&link.entry)?;
    }
    Ok(())
}

// Adds the names that links use. Fails only with `NoMemory`.
fn add_links(table: &mut NameTable, links: &[Link]) -> Result<(), NoMemory>
    requires { length table.old.names + 2 * length links.now < 2 ^ 40 - 2 }
    ensures names { OnOk result
        (table.new.names ≡ with_names table.old.names (all_link_names links.now)) }
    ensures base { table.new.base ≡ table.old.base }
{
    for link in links {
        add_link(table, link)?;
    }
    Ok(())
}

// Adds the names of definitions and links to an empty table, in order of first use.
#[tactic(auto, using(crate::proofs::NameTables::added_then))]
fn add_names(table: &mut NameTable, definitions: &[Named], links: &[Link]) -> Result<(), NoMemory>
    requires definitions { length definitions.now < 2 ^ 32 }
    requires links { length links.now < 2 ^ 32 }
    requires empty { table.old.names ≡ [] }
    ensures names { OnOk result (table.new.names
        ≡ with_names [] (definition_names definitions.now ++ all_link_names links.now)) }
    ensures base { table.new.base ≡ table.old.base }
{
    add_definitions(table, definitions)?;
    add_links(table, links)
}

// The names of definitions and links, each once, in order of first use, from the offset `base` on.
// They are hashed with this seed.
pub(crate) fn name_table(
    alloc: Global,
    seed: HashSeed,
    definitions: &[Named],
    links: &[Link],
    base: u64,
) -> Result<NameTable, NoMemory>
    requires definitions { length definitions.now < 2 ^ 32 }
    requires links { length links.now < 2 ^ 32 }
    requires base { base ≤ 2 ^ 40 }
    ensures names { IfOk result (λ table. table.names
        ≡ with_names [] (definition_names definitions.now ++ all_link_names links.now)) }
    ensures base { IfOk result (λ table. table.base ≡ base) }
{
    let mut table = NameTable::new(alloc, seed, base);
    match add_names(&mut table, definitions, links) {
        Ok(()) => Ok(table),
        Err(cause) => {
            // Dropped explicitly, so that the drop is proved once for its type.
            drop(table);
            Err(cause)
        }
    }
}

// Part i of the nine-bit parts of a name: part 0 is its length, then its characters follow, then
// zeros.
#[tactic(auto, unfolding(crate::specs::Names::name_quarter))]
fn quarter_of_name(name: &[u8], i: usize) -> u64
    requires { length name.now ≤ name_limit }
    ensures value { result ≡ name_quarter name.now i }
    ensures bound { result < 2 ^ 9 }
{
    if i == 0 {
        return name.len() as u64;
    }
    if i <= name.len() {
        name[i - 1] as u64
    } else {
        0
    }
}

// Word j of a name, which has four parts of nine bits.
#[tactic(auto, unfolding(crate::specs::Names::name_word))]
fn word(name: &[u8], j: usize) -> Word
    requires fits { length name.now ≤ name_limit }
    requires small { j < 9 }
    ensures { result ≡ name_word name.now j }
{
    let front = (quarter_of_name(name, 4 * j) << 27) + (quarter_of_name(name, 4 * j + 1) << 18);
    let back = (quarter_of_name(name, 4 * j + 2) << 9) + quarter_of_name(name, 4 * j + 3);
    Word::low(front + back)
}

// Adds the words of a name.
#[tactic(auto, using(crate::proofs::NameTables::first_word))]
fn push_name(out: &mut Words, name: &Name) -> Result<(), NoMemory>
    ensures { OnOk result (out.new ≡ out.old ++ name_words name.now) }
{
    let bytes = name.bytes();
    let count = bytes.len() / 4 + 1;
    for j in 0..count {
        out.push(word(bytes, j))?;
    }
    Ok(())
}

// Adds the words of names, one name after another.
pub(crate) fn push_names(out: &mut Words, names: &[Name]) -> Result<(), NoMemory>
    ensures { OnOk result (out.new ≡ out.old ++ all_name_words names.now) }
{
    for name in names {
        push_name(out, name)?;
    }
    Ok(())
}
