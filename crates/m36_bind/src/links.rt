//! The links of the bound object.

ghost use Rattle.std.specs.Prelude.{◌≡◌, ◌+◌, ◌%◌, ◌^◌, ◌<◌, [], OnOk, IfOk, option_map};
ghost use Rattle.m36_bind.specs.Components.{relocation_of};
ghost use Rattle.m36_relocate.specs.Layout.{relocated_place};
ghost use Rattle.m36_bind.specs.Links.{own_link, offset_by, segment_link, entry_link, outer_link};
ghost use Rattle.m36_bind.specs.Links.{inner_link, bound_link, links_onto, links_from};

use crate::placed::{Components, PlacedComponent, relocation_of, seed_of};
use m36_relocate::exports::Export;
use m36_relocate::layout::{BoundPlace, Shape, relocated_place, section_place_at};
use m36_text::Name;
use m36_word::NoMemory;
use obj36_parts::sections::later_section;
use obj36_parts::{Link, Links, Section};
use std::alloc::Global;

// The types of links, by their targets.
const TO_SECTION: u8 = 1;

const TO_SEGMENT: u8 = 3;

const TO_ENTRY: u8 = 4;

const TO_OWN_ENTRY: u8 = 5;

// A link to a place of the bound object itself (type 1), with the modifier of the link that it
// replaces.
fn own_link(l: &Link, s: BoundPlace) -> Link
    requires { s.offset < 2 ^ 18 }
    ensures { result ≡ own_link l.now s }
{
    Link {
        name: Name::default(),
        entry: Name::default(),
        expr: s.offset,
        kind: TO_SECTION,
        section: s.section,
        modifier: l.modifier,
    }
}

// The place `n` words farther in the same section, modulo 2^18.
fn offset_by(s: BoundPlace, n: u32) -> BoundPlace
    requires offset { s.offset < 2 ^ 18 }
    requires more { n < 2 ^ 18 }
    ensures value { result ≡ offset_by s n }
    ensures bound { result.offset < 2 ^ 18 }
{
    BoundPlace {
        offset: (s.offset + n) % (1 << 18),
        section: s.section,
    }
}

// A link of type 3, to a segment. If `p` is that segment, the link goes to word 0 of its text, plus
// the number of the link. It is unchanged if the segment is no component.
fn segment_link(l: &Link, p: Option<&PlacedComponent<'_>>) -> Link
    ensures { result ≡ segment_link l.now (option_map (λ p. p.now) p.entry) }
{
    match p {
        None => l.copied(),
        Some(p) => own_link(
            l,
            section_place_at(Section::Text, p.bases.text + l.expr as u64),
        ),
    }
}

// A link of type 4 to an entry of component `p`: to the new place of the definition, plus the
// number of the link. It is unchanged if the component has no such definition.
fn entry_link(frame: &Shape, l: &Link, p: &PlacedComponent<'_>, export: Option<Export>) -> Link
    ensures { result ≡ entry_link frame.now l.now p.now export }
{
    match export {
        None => l.copied(),
        Some(e) => {
            let m = relocation_of(frame, p);
            let s = relocated_place(&m, e.def.section, e.def.value as u64);
            own_link(l, offset_by(s, l.expr))
        }
    }
}

// A link of type 4, to an entry of a segment. It is unchanged if the segment is no component.
fn outer_link(frame: &Shape, l: &Link, p: Option<&PlacedComponent<'_>>) -> Link
    ensures { result ≡ outer_link frame.now l.now (option_map (λ p. p.now) p.entry) }
{
    match p {
        None => l.copied(),
        Some(p) => entry_link(frame, l, p, p.entries.find(&l.entry)),
    }
}

// A link of type 5, to an entry of the component's own object. The value of the definition is an
// offset in the later of its section and the section of the link.
fn inner_link(frame: &Shape, p: &PlacedComponent<'_>, l: &Link, export: Option<Export>) -> Link
    ensures { result ≡ inner_link frame.now p.now l.now export }
{
    match export {
        None => l.copied(),
        Some(e) => {
            let m = relocation_of(frame, p);
            let section = later_section(l.section, e.def.section);
            own_link(
                l,
                offset_by(relocated_place(&m, section, e.def.value as u64), l.expr),
            )
        }
    }
}

// A link of type 1, relocated.
fn bound_own_link(frame: &Shape, p: &PlacedComponent<'_>, l: &Link) -> Link
    ensures { result ≡ own_link l.now
        (relocated_place (relocation_of frame.now p.now) l.now.section l.now.expr) }
{
    let m = relocation_of(frame, p);
    own_link(l, relocated_place(&m, l.section, l.expr as u64))
}

// The link of the bound object that replaces a link of a component.
#[tactic(auto, unfolding(crate::specs::Links::bound_link))]
fn bound_link(frame: &Shape, all: &Components<'_>, p: &PlacedComponent<'_>, l: &Link) -> Link
    ensures { result ≡ bound_link frame.now all.now p.now l.now }
{
    if l.kind == TO_SECTION {
        return bound_own_link(frame, p, l);
    }
    if l.kind == TO_SEGMENT {
        return segment_link(l, all.find(&l.name));
    }
    if l.kind == TO_ENTRY {
        return outer_link(frame, l, all.find(&l.name));
    }
    if l.kind == TO_OWN_ENTRY {
        return inner_link(frame, p, l, p.entries.find(&l.entry));
    }
    l.copied()
}

// Adds what these links of a component become in the bound object.
#[tactic(auto, unfolding(crate::specs::Links::links_onto))]
fn add_links(
    out: &mut Links,
    frame: &Shape,
    all: &Components<'_>,
    p: &PlacedComponent<'_>,
    links: &[Link],
) -> Result<(), NoMemory>
    ensures { OnOk result (out.new ≡ links_onto frame.now all.now p.now out.old links.now) }
{
    let mut rest = links;
    while let [l, others @ ..] = rest {
        out.push(bound_link(frame, all, p, l))?;
        rest = others;
    }
    Ok(())
}

// Adds what the links of a component become in the bound object.
fn add_links_of(
    out: &mut Links,
    frame: &Shape,
    all: &Components<'_>,
    p: &PlacedComponent<'_>,
) -> Result<(), NoMemory>
    ensures { OnOk result (out.new ≡ links_onto frame.now all.now p.now out.old p.now.parts.links) }
{
    let parts = p.parts;
    add_links(out, frame, all, p, parts.links.items())
}

// The links of the bound object.
#[tactic(auto, unfolding(crate::specs::Links::links_from))]
pub(crate) fn links(alloc: Global, frame: &Shape, all: &Components<'_>) -> Result<Links, NoMemory>
    ensures { IfOk result (λ links. links ≡ links_from frame.now all.now [] all.now) }
{
    let mut out = Links::new(alloc, seed_of(all.items()));
    let mut rest = all.items();
    while let [p, others @ ..] = rest {
        add_links_of(&mut out, frame, all, p)?;
        rest = others;
    }
    Ok(out)
}
