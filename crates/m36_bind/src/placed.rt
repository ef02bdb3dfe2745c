//! The components of a bind file, and where the words of each begin.

ghost use Rattle.std.specs.Prelude.{◌≡◌, ◌+◌, ◌*◌, ◌^◌, ◌<◌, ◌≤◌, false, [], ◌∷◌, ◌++◌, length};
ghost use Rattle.std.specs.Prelude.{Some, IfOk, OnOk, option_map};
ghost use Rattle.std.specs.List.{list_any};
ghost use Rattle.obj36_parts.specs.Names.{same};
ghost use Rattle.obj36_parts.specs.ObjectSegment.{is_newer, segment_limit};
ghost use Rattle.m36_relocate.specs.Exports.{with_own_definitions};
ghost use Rattle.m36_bindfile.specs.BindFile.{BindResult};
ghost use Rattle.m36_relocate.specs.Layout.{shape_of, first_bases, next_bases};
ghost use Rattle.m36_bind.specs.Components.{component, relocation_of, names_of, component_named};
ghost use Rattle.m36_bind.specs.Components.{with_found_object, with_component_of_line};
ghost use Rattle.m36_bind.specs.Components.{components_of_lines, AddsComponent, BasesAreBounded};
ghost use Rattle.m36_bind.specs.Components.{HasShortParts};

use crate::given::NamedObjects;
use indexmap::IndexSet;
use m36_bindfile::{BindFault, BindLine};
use m36_relocate::exports::{Exports, own_entries};
use m36_relocate::layout::{Bases, Relocation, Shape, rounded_up_to_even};
use m36_text::{HashSeed, Name};
use m36_word::NoMemory;
use obj36::Object;
use obj36_parts::Parts;
use obj36_parts::definition::push_within_capacity;
use std::alloc::Global;
use std::marker::Model;

// A component.
#[derive(Drop)]
pub(crate) struct PlacedComponent<'a> {
    // The name by which other components refer to it.
    pub(crate) name: &'a Name,
    pub(crate) parts: &'a Parts,
    // Its definitions by their names.
    pub(crate) entries: Exports,
    pub(crate) shape: Shape,
    pub(crate) bases: Bases,
}

impl<'a> Model for PlacedComponent<'a> {
    ghost use Rattle.std.specs.Prelude.{◌≤◌};
    ghost use Rattle.obj36_parts.specs.ObjectSegment.{segment_limit};
    ghost use Rattle.m36_bind.specs.Components.{PlacedComponentFields};

    ghost Value = { PlacedComponentFields };

    ghost view = { λ p. record { name = p.name.now; parts = p.parts.now; shape = p.shape; bases = p.bases; entries = p.entries } };

    ghost invariant = { λ p. (p.shape.statics ≤ segment_limit) × (p.shape.links ≤ segment_limit) };
}

// Components in their order. The model is the list of them.
#[derive(Drop)]
pub(crate) struct Components<'a> {
    items: Vec<PlacedComponent<'a>>,
    names: IndexSet<Name, HashSeed>,
}

impl<'a> Model for Components<'a> {
    ghost use Rattle.std.specs.Prelude.{◌≡◌, List};
    ghost use Rattle.m36_bind.specs.Components.{PlacedComponentFields, names_of};

    ghost Value = { List PlacedComponentFields };

    ghost view = { λ c. c.items.items };

    ghost invariant = { λ c. c.names.keys ≡ names_of c.items.items };
}

// How the places of a component are relocated to those of a bound object with this shape.
pub(crate) fn relocation_of(frame: &Shape, p: &PlacedComponent<'_>) -> Relocation
    ensures { result ≡ relocation_of frame.now p.now }
{
    Relocation {
        frame: *frame,
        shape: p.shape,
        bases: p.bases,
    }
}

// The number of words of the text.
fn text_length(parts: &Parts) -> u64
    ensures { result ≡ length parts.now.text }
{
    parts.text.slice().len() as u64
}

// The number of static words.
fn statics_length(parts: &Parts) -> u64
    ensures { result ≡ length parts.now.statics }
{
    parts.statics.slice().len() as u64
}

// The number of links.
fn links_length(parts: &Parts) -> u64
    ensures { result ≡ length parts.now.links }
{
    parts.links.items().len() as u64
}

// Whether an object has version 2.
fn is_newer(parts: &Parts) -> bool
    ensures { result ≡ is_newer parts.now }
{
    parts.version == 2
}

// The definitions of an object by their names.
fn entries_of(alloc: Global, parts: &Parts) -> Result<Exports, NoMemory>
    ensures { IfOk result (λ table. table ≡ with_own_definitions [] parts.now.definitions) }
{
    own_entries(alloc, parts.definitions.seed(), parts.definitions.items())
}

// Where the words of the next component begin.
fn next_bases(b: &Bases, parts: &Parts, n: u64) -> Bases
    requires small { n < 2 ^ 32 }
    requires near { BasesAreBounded b.now n }
    requires few { HasShortParts parts.now }
    ensures value { result ≡ next_bases b.now parts.now }
    ensures near { BasesAreBounded result (n + 1) }
{
    Bases {
        text: rounded_up_to_even(b.text + text_length(parts)),
        statics: rounded_up_to_even(b.statics + statics_length(parts)),
        links: b.links + links_length(parts),
    }
}

// The version of an object, and the numbers of its static words and links.
fn shape_of(parts: &Parts) -> Shape
    requires { HasShortParts parts.now }
    ensures value { result ≡ shape_of parts.now }
    ensures statics { result.statics ≤ segment_limit }
    ensures links { result.links ≤ segment_limit }
{
    Shape {
        statics: statics_length(parts),
        links: links_length(parts),
        newer: is_newer(parts),
    }
}

// The parts of an object. Its text, static words and links are each at most 2^18.
fn parts_of(object: &Object) -> &Parts
    ensures value { result.now ≡ object.now }
    ensures few { HasShortParts result.now }
{
    object.parts_are_well_formed();
    object.parts()
}

// The seed for a hash table with the names of all these components, made of their own seeds.
pub(crate) fn seed_of(all: &[PlacedComponent<'_>]) -> HashSeed {
    let mut seed = HashSeed::of(b"");
    for p in all {
        let parts = p.parts;
        seed = seed.joined(&parts.definitions.seed());
    }
    seed
}

impl<'a> Components<'a> {
    // No components. Their names will be hashed with this seed.
    fn new(alloc: Global, seed: HashSeed) -> Components<'a>
        ensures { result ≡ [] }
    {
        Components {
            items: Vec::new(alloc),
            names: IndexSet::with_hasher(alloc, seed),
        }
    }

    // The components in their order.
    pub(crate) fn items(&self) -> &[PlacedComponent<'a>]
        ensures { result.now ≡ self.now }
    {
        self.items.as_slice()
    }

    // Whether a component has this name.
    fn has(&self, name: &Name) -> bool
        ensures { result ≡ list_any (same name.now) (names_of self.now) }
    {
        self.names.contains(name)
    }

    // The component with this name. None if there is none.
    #[tactic(auto, unfolding(crate::specs::Components::component_named))]
    pub(crate) fn find(&self, name: &Name) -> Option<&PlacedComponent<'a>>
        ensures { option_map (λ p. p.now) result ≡ component_named name.now self.now }
    {
        let i = self.names.get_index_of(name)?;
        self.items.get(i)
    }

    // Adds a component whose name no other has.
    fn add(
        &mut self,
        name: &'a Name,
        parts: &'a Parts,
        entries: Exports,
        bases: Bases,
    ) -> Result<(), NoMemory>
        requires fresh { list_any (same name.now) (names_of self.old) ≡ false }
        requires few { HasShortParts parts.now }
        ensures { OnOk result
            (self.new ≡ self.old ++ component name.now parts.now bases entries ∷ []) }
    {
        let shape = shape_of(parts);
        self.items.reserve(1)?;
        self.names.insert(name.copied())?;
        push_within_capacity(
            &mut self.items,
            PlacedComponent {
                name,
                parts,
                entries,
                shape,
                bases,
            },
        );
        Ok(())
    }
}

// Adds an object that was found for a line. Returns where the next component begins, or B3 if a
// component has the name.
#[tactic(auto, using(crate::proofs::PickLaws::picking))]
fn add_found_object<'a>(
    alloc: Global,
    all: &mut Components<'a>,
    next: Bases,
    n: u64,
    name: &'a Name,
    object: &'a Object,
) -> Result<Bases, BindFault>
    requires small { n < 2 ^ 32 }
    requires near { BasesAreBounded next n }
    ensures answer { AddsComponent all.new result
        (with_found_object (record { placed = all.old; next = next }) n name.now (Some object.now)) }
    ensures near { IfOk result (λ next. BasesAreBounded next (n + 1)) }
{
    if all.has(name) {
        return Err(BindFault::B3(n as u32));
    }
    let parts = parts_of(object);
    let behind = next_bases(&next, parts, n);
    let entries = entries_of(alloc, parts)?;
    all.add(name, parts, entries, next)?;
    Ok(behind)
}

// Adds the component of line n, if it is an `object` line, or refuses the line. Returns where the
// next component begins.
#[tactic(auto, using(crate::proofs::PickLaws::pick_found))]
fn add_component_of_line<'a>(
    alloc: Global,
    given: &NamedObjects<'a>,
    all: &mut Components<'a>,
    next: Bases,
    n: u64,
    line: &'a BindLine,
) -> Result<Bases, BindFault>
    requires small { n < 2 ^ 32 }
    requires near { BasesAreBounded next n }
    ensures answer { AddsComponent all.new result
        (with_component_of_line given.now (record { placed = all.old; next = next }) n line.now) }
    ensures near { IfOk result (λ next. BasesAreBounded next (n + 1)) }
{
    match line {
        BindLine::Object(name) => match given.find(name) {
            Some(object) => add_found_object(alloc, all, next, n, name, object),
            None => Err(BindFault::B2(n as u32)),
        },
        _ => Ok(next),
    }
}

// Where the words of the first component begin: at 0 everywhere.
fn first_bases() -> Bases
    ensures value { result ≡ first_bases }
    ensures near { BasesAreBounded result 1 }
{
    Bases {
        text: 0,
        statics: 0,
        links: 0,
    }
}

// The components that lines name, or the first of B2 and B3.
pub(crate) fn components_of<'a>(
    alloc: Global,
    given: &NamedObjects<'a>,
    lines: &'a [BindLine],
) -> Result<Components<'a>, BindFault>
    requires { length lines.now < 2 ^ 32 }
    ensures { BindResult result (components_of_lines given.now lines.now) }
{
    let mut all = Components::new(alloc, given.seed());
    let mut next = first_bases();
    let mut n: u64 = 1;
    for line in lines {
        match add_component_of_line(alloc, given, &mut all, next, n, line) {
            Ok(behind) => next = behind,
            Err(fault) => return Err(fault),
        }
        n += 1;
    }
    Ok(all)
}
