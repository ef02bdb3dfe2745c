//! Binds the components of a bind file, or refuses it.

ghost use Rattle.std.specs.Prelude.{◌≡◌, ◌^◌, ◌<◌, true, [], length, IfOk};
ghost use Rattle.obj36_parts.specs.ObjectSegment.{is_well_formed};
ghost use Rattle.m36_bindfile.specs.BindFile.{has_version_line, is_version, BindResult};
ghost use Rattle.m36_bind.specs.Kept.{exports_from, with_retain_lines};
ghost use Rattle.m36_bind.specs.Bound.{bound_parts, if_sections_fit, checked_parts};
ghost use Rattle.m36_bind.specs.Bound.{checked_bound_parts, bound_object_of_components};
ghost use Rattle.m36_bind.specs.Bound.{bound_object_of_lines, bound_object_of};
ghost use Rattle.m36_bind.specs.Meaning.{AreObjects, BoundMeaning};

use crate::bound::{bound_parts, bound_shape_of};
use crate::fitting::{components_fit, sections_fit};
use crate::given::NamedObjects;
use crate::kept::{definitions_of_retain_lines, exports};
use crate::placed::{Components, components_of};
use m36_bindfile::{BindFault, BindLine, read_lines};
use m36_relocate::layout::Shape;
use m36_text::{HashSeed, Name};
use obj36::Object;
use obj36_parts::{Defs, Parts};
use std::alloc::Global;

// Whether a line is the `version 2` line.
fn is_version(line: &BindLine) -> bool
    ensures { result ≡ is_version line.now }
{
    matches!(line, BindLine::Version)
}

// Whether one of the lines is `version 2`.
#[tactic(auto, unfolding(m36_bindfile::specs::BindFile::has_version_line))]
fn has_version_line(lines: &[BindLine]) -> bool
    ensures { result ≡ has_version_line lines.now }
{
    lines.iter().any(|line| is_version(line))
}

// The object if each of its sections is within the limit, otherwise B4.
fn if_sections_fit(object: Object) -> Result<Object, BindFault>
    ensures { BindResult result (if_sections_fit object) }
{
    if sections_fit(&object) {
        Ok(object)
    } else {
        // Dropped explicitly, so that the drop is proved once for its type.
        drop(object);
        Err(BindFault::B4(0))
    }
}

// The object with these well-formed parts if each of its sections is within the limit, otherwise
// B4.
fn object_if_sections_fit(alloc: Global, parts: Parts) -> Result<Object, BindFault>
    requires { is_well_formed parts ≡ true }
    ensures { BindResult result (if_sections_fit parts) }
{
    let object = Object::new(alloc, parts)?;
    if_sections_fit(object)
}

// The object with these parts if they are well formed and each section is within the limit,
// otherwise B4.
fn checked_parts(alloc: Global, parts: Parts) -> Result<Object, BindFault>
    ensures { BindResult result (checked_parts parts) }
{
    if parts.is_object() {
        object_if_sections_fit(alloc, parts)
    } else {
        drop(parts);
        Err(BindFault::B4(0))
    }
}

// The bound object, or B4.
fn checked_bound_parts(
    alloc: Global,
    frame: &Shape,
    all: &Components<'_>,
    kept: Defs,
) -> Result<Object, BindFault>
    ensures { BindResult result (checked_bound_parts frame.now all.now kept) }
{
    if !components_fit(frame, all.items()) {
        drop(kept);
        return Err(BindFault::B4(0));
    }
    checked_parts(alloc, bound_parts(alloc, frame, all, kept)?)
}

// The definitions of the retained names, or the first of B3 and B5.
fn retained_definitions(
    alloc: Global,
    frame: &Shape,
    all: &Components<'_>,
    lines: &[BindLine],
) -> Result<Defs, BindFault>
    requires { length lines.now < 2 ^ 32 }
    ensures { BindResult result (with_retain_lines (exports_from frame.now [] all.now) [] 1
        lines.now) }
{
    let exports = exports(alloc, frame, all.items())?;
    definitions_of_retain_lines(alloc, &exports, lines)
}

// The bound object of these components, or the first of B3, B5 and B4.
#[tactic(auto, using(crate::proofs::BindingLaws::of_components))]
fn bound_object_of_components(
    alloc: Global,
    frame: &Shape,
    all: &Components<'_>,
    lines: &[BindLine],
) -> Result<Object, BindFault>
    requires { length lines.now < 2 ^ 32 }
    ensures { BindResult result (bound_object_of_components frame.now all.now lines.now) }
{
    let kept = retained_definitions(alloc, frame, all, lines)?;
    checked_bound_parts(alloc, frame, all, kept)
}

// The bound object of a bind file, or its first refusal.
#[tactic(auto, using(crate::proofs::BindingLaws::of_lines))]
fn bound_object_of_lines(
    alloc: Global,
    lines: &[BindLine],
    given: &NamedObjects<'_>,
) -> Result<Object, BindFault>
    requires { length lines.now < 2 ^ 32 }
    ensures { BindResult result (bound_object_of_lines given.now lines.now) }
{
    let all = components_of(alloc, given, lines)?;
    let frame = bound_shape_of(has_version_line(lines), all.items());
    bound_object_of_components(alloc, &frame, &all, lines)
}

// The parts of each object are well formed. A law: the call does nothing at run time but pass over
// the objects.
fn law_well_formed(objects: &[Object])
    ensures { AreObjects objects.now }
{
    for object in objects {
        object.parts_are_well_formed();
    }
}

/// Binds the components that a bind file names, or returns the first refusal. Object number i has
/// name number i; if two have one name, the first is used. The text has fewer than 2^32 bytes. The
/// clause `says` gives the bound object by its definition. The clause `means` states what is where
/// in it, and to what each relocated part of a word, each link and each definition refers.
#[tactic(auto, using(crate::proofs::BindingLaws::of_text))]
pub fn bind(
    alloc: Global,
    bindfile: &[u8],
    names: &[Name],
    objects: &[Object],
) -> Result<Object, BindFault>
    requires { length bindfile.now < 2 ^ 32 }
    ensures says { BindResult result (bound_object_of bindfile.now names.now objects.now) }
    ensures means { IfOk result (λ object. BoundMeaning bindfile.now names.now objects.now object) }
{
    law_well_formed(objects);
    let lines = read_lines(alloc, bindfile)?;
    let given = NamedObjects::new(alloc, HashSeed::of(bindfile), names, objects)?;
    bound_object_of_lines(alloc, lines.items(), &given)
}
