//! The definitions of the bound object: those of the retained names.

ghost use Rattle.std.specs.Prelude.{◌≡◌, ◌^◌, ◌<◌, ◌||◌, [], length, IfOk, OnOk};
ghost use Rattle.m36_bindfile.specs.BindFile.{BindResult};
ghost use Rattle.m36_bind.specs.Components.{ChangesOrRefuses, relocation_of};
ghost use Rattle.m36_relocate.specs.Exports.{with_relocated_definitions};
ghost use Rattle.m36_bind.specs.Kept.{exports_from, with_retained, with_retain_line};
ghost use Rattle.m36_bind.specs.Kept.{with_retain_lines};
ghost use Rattle.obj36_parts.specs.ObjectSegment.{has_definition};

use crate::placed::{PlacedComponent, relocation_of, seed_of};
use m36_bindfile::{BindFault, BindLine};
use m36_relocate::exports::{Export, Exports, add_relocated_definitions};
use m36_relocate::layout::Shape;
use m36_text::Name;
use m36_word::NoMemory;
use obj36_parts::{Defs, Named};
use std::alloc::Global;

// Adds the definitions of a component, at their places in the bound object.
fn add_component_definitions(
    table: &mut Exports,
    frame: &Shape,
    p: &PlacedComponent<'_>,
) -> Result<(), NoMemory>
    ensures { OnOk result
        (table.new ≡ with_relocated_definitions (relocation_of frame.now p.now) table.old
        p.now.parts.definitions) }
{
    let m = relocation_of(frame, p);
    let parts = p.parts;
    add_relocated_definitions(table, &m, parts.definitions.items())
}

// The definitions of all components, at their places in the bound object.
#[tactic(auto, unfolding(crate::specs::Kept::exports_from))]
pub(crate) fn exports(
    alloc: Global,
    frame: &Shape,
    all: &[PlacedComponent<'_>],
) -> Result<Exports, NoMemory>
    ensures { IfOk result (λ table. table ≡ exports_from frame.now [] all.now) }
{
    let mut table = Exports::new(alloc, seed_of(all));
    let mut rest = all;
    while let [p, others @ ..] = rest {
        add_component_definitions(&mut table, frame, p)?;
        rest = others;
    }
    Ok(table)
}

// Whether a retain line above has the name, or more than one component defines it.
fn is_ambiguous(kept: &Defs, name: &Name, export: &Export) -> bool
    ensures { result ≡ (has_definition name.now kept.now || export.now.twice) }
{
    kept.has(name) || export.twice
}

// Adds the definition of a retained name, or refuses line n.
#[tactic(auto, using(crate::proofs::KeepLaws::keep_done))]
fn retain_name(
    kept: &mut Defs,
    n: u64,
    name: &Name,
    export: Option<Export>,
) -> Result<(), BindFault>
    requires { n < 2 ^ 32 }
    ensures { ChangesOrRefuses kept.new result (with_retained kept.old n name.now export) }
{
    match export {
        None => Err(BindFault::B5(n as u32)),
        Some(export) => {
            if is_ambiguous(kept, name, &export) {
                return Err(BindFault::B3(n as u32));
            }
            kept.push(Named {
                name: name.copied(),
                def: export.def,
            })?;
            Ok(())
        }
    }
}

// Adds the definition that line n retains, if it retains one, or refuses the line.
fn retain_line(exports: &Exports, kept: &mut Defs, n: u64, line: &BindLine) -> Result<(), BindFault>
    requires { n < 2 ^ 32 }
    ensures { ChangesOrRefuses kept.new result (with_retain_line exports.now kept.old n line.now) }
{
    match line {
        BindLine::Retain(name) => retain_name(kept, n, name, exports.find(name)),
        _ => Ok(()),
    }
}

// The definitions of the retained names, or the first of B3 and B5.
pub(crate) fn definitions_of_retain_lines(
    alloc: Global,
    exports: &Exports,
    lines: &[BindLine],
) -> Result<Defs, BindFault>
    requires { length lines.now < 2 ^ 32 }
    ensures { BindResult result (with_retain_lines exports.now [] 1 lines.now) }
{
    let mut kept = Defs::new(alloc, exports.seed());
    let mut n: u64 = 1;
    for line in lines {
        match retain_line(exports, &mut kept, n, line) {
            Ok(()) => {}
            Err(fault) => return Err(fault),
        }
        n += 1;
    }
    Ok(kept)
}
