//! The parts of the bound object.

ghost use Rattle.std.specs.Prelude.{◌≡◌, ◌+◌, ◌++◌, ◌^◌, ◌<◌, ◌≤◌, [], true, false, if◌then◌else◌};
ghost use Rattle.std.specs.Prelude.{IfOk, OnOk};
ghost use Rattle.std.specs.List.{list_any};
ghost use Rattle.m36_bind.specs.Components.{relocation_of};
ghost use Rattle.m36_bind.specs.Links.{links_from};
ghost use Rattle.m36_relocate.specs.Words.{words_in, relocated_words};
ghost use Rattle.obj36_parts.specs.ObjectSegment.{padded_to_even};
ghost use Rattle.m36_bind.specs.Bound.{is_newer_component, is_newer_bound_object, statics_end};
ghost use Rattle.m36_bind.specs.Bound.{links_end, bound_shape_of, component_words};
ghost use Rattle.m36_bind.specs.Bound.{with_component_words, bound_relocation, with_relocation};
ghost use Rattle.m36_bind.specs.Bound.{relocations_onto, relocations_from, first_entry_bound};
ghost use Rattle.m36_bind.specs.Bound.{bound_parts};

use crate::links::links;
use crate::placed::{Components, PlacedComponent, relocation_of};
use m36_relocate::layout::{Relocation, Shape, relocated_place};
use m36_relocate::words::{is_relocation_in, relocate_words};
use m36_word::{NoMemory, Word, Words};
use obj36_parts::sections::{pad_to_even, push_all, version_of};
use obj36_parts::{Defs, Links, Parts, Reloc, Relocs};
use std::alloc::Global;

// Whether a component has version 2.
fn is_newer_component(p: &PlacedComponent<'_>) -> bool
    ensures { result ≡ is_newer_component p.now }
{
    p.shape.newer
}

// Whether any component has version 2.
fn has_newer_component(all: &[PlacedComponent<'_>]) -> bool
    ensures { result ≡ list_any is_newer_component all.now }
{
    all.iter().any(|p| is_newer_component(p))
}

// The index after the last static word of a component, among those of the bound object.
fn end_of_statics(p: &PlacedComponent<'_>) -> u64
    ensures value { result ≡ p.now.bases.statics + p.now.shape.statics }
    ensures bound { result < 2 ^ 61 }
{
    p.bases.statics + p.shape.statics
}

// The index after the last link of a component, among those of the bound object.
fn end_of_links(p: &PlacedComponent<'_>) -> u64
    ensures value { result ≡ p.now.bases.links + p.now.shape.links }
    ensures bound { result < 2 ^ 61 }
{
    p.bases.links + p.shape.links
}

// The number of static words of the bound object: the end of those of the last component.
#[tactic(auto, unfolding(crate::specs::Bound::statics_end))]
fn statics_end(all: &[PlacedComponent<'_>]) -> u64
    ensures value { result ≡ statics_end 0 all.now }
    ensures bound { result < 2 ^ 61 }
{
    let mut end = 0;
    let mut rest = all;
    while let [p, others @ ..] = rest {
        end = end_of_statics(p);
        rest = others;
    }
    end
}

// The number of links of the bound object: the end of those of the last component.
#[tactic(auto, unfolding(crate::specs::Bound::links_end))]
fn links_end(all: &[PlacedComponent<'_>]) -> u64
    ensures value { result ≡ links_end 0 all.now }
    ensures bound { result < 2 ^ 61 }
{
    let mut end = 0;
    let mut rest = all;
    while let [p, others @ ..] = rest {
        end = end_of_links(p);
        rest = others;
    }
    end
}

// The shape of the bound object.
#[tactic(auto, unfolding(crate::specs::Bound::bound_shape_of))]
pub(crate) fn bound_shape_of(asked: bool, all: &[PlacedComponent<'_>]) -> Shape
    ensures { result ≡ bound_shape_of asked all.now }
{
    Shape {
        statics: statics_end(all),
        links: links_end(all),
        newer: has_newer_version(asked, all),
    }
}

// Whether the bound object has version 2: if the bind file asks for it (`asked`) or a component has
// it.
fn has_newer_version(asked: bool, all: &[PlacedComponent<'_>]) -> bool
    ensures { result ≡ is_newer_bound_object asked all.now }
{
    asked || has_newer_component(all)
}

// ---- words

// The static words or the text of an object, as `statics` says.
fn words_in<'a>(statics: bool, parts: &'a Parts) -> &'a [Word]
    ensures { result.now ≡ words_in statics parts.now }
{
    if statics {
        parts.statics.slice()
    } else {
        parts.text.slice()
    }
}

// The words of a component, relocated.
fn relocated_copy(
    alloc: Global,
    m: &Relocation,
    statics: bool,
    relocations: &[Reloc],
    words: &[Word],
) -> Result<Vec<Word>, NoMemory>
    ensures { IfOk result
        (λ moved. moved.items ≡ relocated_words m.now statics relocations.now words.now) }
{
    let mut moved = words.to_vec(alloc)?;
    relocate_words(moved.as_mut_slice(), m, statics, relocations);
    Ok(moved)
}

// The static words or the text of a component, as `statics` says, relocated.
fn component_words(
    alloc: Global,
    frame: &Shape,
    statics: bool,
    p: &PlacedComponent<'_>,
) -> Result<Vec<Word>, NoMemory>
    ensures { IfOk result (λ moved. moved.items ≡ component_words frame.now statics p.now) }
{
    let m = relocation_of(frame, p);
    let parts = p.parts;
    relocated_copy(
        alloc,
        &m,
        statics,
        parts.relocations.items(),
        words_in(statics, parts),
    )
}

// Adds the words of a component, from an even word on.
fn add_words(
    alloc: Global,
    out: &mut Words,
    frame: &Shape,
    statics: bool,
    p: &PlacedComponent<'_>,
) -> Result<(), NoMemory>
    ensures { OnOk result
        (out.new ≡ padded_to_even out.old ++ component_words frame.now statics p.now) }
{
    pad_to_even(out)?;
    let words = component_words(alloc, frame, statics, p)?;
    push_all(out, words.as_slice())
}

// The texts of the components, or their static words, relocated, each from an even word on.
#[tactic(auto, unfolding(crate::specs::Bound::with_component_words))]
fn all_component_words(
    alloc: Global,
    frame: &Shape,
    statics: bool,
    all: &[PlacedComponent<'_>],
) -> Result<Words, NoMemory>
    ensures { IfOk result (λ words. words ≡ with_component_words frame.now statics [] all.now) }
{
    let mut out = Words::new(alloc);
    let mut rest = all;
    while let [p, others @ ..] = rest {
        add_words(alloc, &mut out, frame, statics, p)?;
        rest = others;
    }
    Ok(out)
}

// ---- relocations

// The relocation of the same word in the bound object, with the same part and target.
fn bound_relocation(m: &Relocation, r: &Reloc) -> Reloc
    ensures { result ≡ bound_relocation m.now r.now }
{
    let s = relocated_place(m, r.section, r.offset as u64);
    Reloc {
        offset: s.offset,
        section: s.section,
        part: r.part,
        target: r.target,
    }
}

// Adds the relocation for the bound object, if it is of a static word, or of the text, as `statics`
// says.
fn add_relocation(
    out: &mut Relocs,
    m: &Relocation,
    statics: bool,
    r: &Reloc,
) -> Result<(), NoMemory>
    ensures { OnOk result (out.new ≡ with_relocation m.now statics out.old r.now) }
{
    if !is_relocation_in(statics, r) {
        return Ok(());
    }
    out.push(bound_relocation(m, r))
}

// Adds those of these relocations of a component that are of static words, or of the text.
#[tactic(auto, unfolding(crate::specs::Bound::relocations_onto))]
fn add_relocations(
    out: &mut Relocs,
    m: &Relocation,
    statics: bool,
    relocations: &[Reloc],
) -> Result<(), NoMemory>
    ensures { OnOk result (out.new ≡ relocations_onto m.now statics out.old relocations.now) }
{
    let mut rest = relocations;
    while let [r, others @ ..] = rest {
        add_relocation(out, m, statics, r)?;
        rest = others;
    }
    Ok(())
}

// Adds the relocations of a component that are of static words, or of the text.
fn add_relocations_of(
    out: &mut Relocs,
    frame: &Shape,
    statics: bool,
    p: &PlacedComponent<'_>,
) -> Result<(), NoMemory>
    ensures { OnOk result
        (out.new ≡ relocations_onto
        (relocation_of frame.now p.now) statics out.old p.now.parts.relocations) }
{
    let m = relocation_of(frame, p);
    let parts = p.parts;
    add_relocations(out, &m, statics, parts.relocations.items())
}

// Adds the relocations of the texts of the components, or those of their static words.
#[tactic(auto, unfolding(crate::specs::Bound::relocations_from))]
fn add_all_relocations(
    out: &mut Relocs,
    frame: &Shape,
    statics: bool,
    all: &[PlacedComponent<'_>],
) -> Result<(), NoMemory>
    ensures { OnOk result (out.new ≡ relocations_from frame.now statics out.old all.now) }
{
    let mut rest = all;
    while let [p, others @ ..] = rest {
        add_relocations_of(out, frame, statics, p)?;
        rest = others;
    }
    Ok(())
}

// The relocations of the bound object: those of the text, and then those of the static words.
fn relocations(
    alloc: Global,
    frame: &Shape,
    all: &[PlacedComponent<'_>],
) -> Result<Relocs, NoMemory>
    ensures { IfOk result
        (λ rs. rs ≡ relocations_from frame.now true
        (relocations_from frame.now false [] all.now) all.now) }
{
    let mut out = Relocs::new(alloc);
    add_all_relocations(&mut out, frame, false, all)?;
    add_all_relocations(&mut out, frame, true, all)?;
    Ok(out)
}

// ---- the parts

// The entry bound of a component: how many words of its text are entries.
fn entry_bound_of(p: &PlacedComponent<'_>) -> u32
    ensures value { result ≡ p.now.parts.entry_bound }
    ensures bound { result < 2 ^ 18 }
{
    let parts = p.parts;
    parts.entry_bound
}

// The entry bound of the bound object, which is that of the first component.
fn first_entry_bound(all: &[PlacedComponent<'_>]) -> u32
    ensures value { result ≡ first_entry_bound all.now }
    ensures bound { result < 2 ^ 18 }
{
    match all {
        [p, ..] => entry_bound_of(p),
        [] => 0,
    }
}

// The texts of the components, and their static words.
#[derive(Drop)]
struct ComponentWords {
    text: Words,
    statics: Words,
}

// The text and the static words of the bound object.
fn text_and_statics(
    alloc: Global,
    frame: &Shape,
    all: &[PlacedComponent<'_>],
) -> Result<ComponentWords, NoMemory>
    ensures text { IfOk result (λ sections. sections.text ≡ with_component_words frame.now false []
        all.now) }
    ensures statics { IfOk result (λ sections. sections.statics ≡ with_component_words frame.now
        true [] all.now) }
{
    let text = all_component_words(alloc, frame, false, all)?;
    let statics = all_component_words(alloc, frame, true, all)?;
    Ok(ComponentWords { text, statics })
}

// The links and the relocations of the bound object.
#[derive(Drop)]
struct References {
    links: Links,
    relocations: Relocs,
}

// The links and the relocations of the bound object.
fn references_of(alloc: Global, frame: &Shape, all: &Components<'_>) -> Result<References, NoMemory>
    ensures links { IfOk result (λ refs. refs.links ≡ links_from frame.now all.now [] all.now) }
    ensures relocations { IfOk result
        (λ refs. refs.relocations
        ≡ relocations_from frame.now true (relocations_from frame.now false [] all.now) all.now) }
{
    let links = links(alloc, frame, all)?;
    let relocations = relocations(alloc, frame, all.items())?;
    Ok(References { links, relocations })
}

// The parts of the bound object with these definitions.
#[tactic(auto, using(crate::proofs::BindingLaws::parts_bound))]
pub(crate) fn bound_parts(
    alloc: Global,
    frame: &Shape,
    all: &Components<'_>,
    kept: Defs,
) -> Result<Parts, NoMemory>
    ensures { IfOk result (λ parts. parts ≡ bound_parts frame.now all.now kept) }
{
    let sections = text_and_statics(alloc, frame, all.items())?;
    let references = references_of(alloc, frame, all)?;
    Ok(Parts {
        text: sections.text,
        statics: sections.statics,
        definitions: kept,
        links: references.links,
        relocations: references.relocations,
        entry_bound: first_entry_bound(all.items()),
        version: version_of(frame.newer),
    })
}
