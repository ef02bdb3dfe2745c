//! Assembles the sources that the generator draws.

ghost use Rattle.std.specs.Prelude.{◌≡◌, ◌<◌, ◌≤◌, ◌^◌, length, Ok};
ghost use Rattle.alm_asm.specs.Assembly.{assembled};
ghost use Rattle.m36_text.specs.Texts.{name_limit};
ghost use Rattle.m36_outside.specs.ReadAnswer.{file_limit};
ghost use Rattle.m36_status.specs.Refusing.{IsRuleResult};
ghost use Rattle.cmd_tools.specs.Assemblies.{with_parts, assembly_of};
ghost use Rattle.cmd_make.specs.Making.{object_name, object_set_or_refusal, object_of};
ghost use Rattle.cmd_make.specs.Making.{with_objects, ObjectResult};

use crate::sets::Sets;
use alm_asm::assemble;
use alm_parse::{AlmFault, Lines36, parse};
use cmd_tools::objects::object_bytes;
use cmd_tools::refuse_source;
use m36_gen::File;
use m36_outside::{FILE_LIMIT, Text};
use m36_status::{Code, Refusal, Set, refuse};
use m36_text::Name;
use std::alloc::Global;

// The name of the object of a source: that of the source without its last four characters, `.alm`.
#[tactic(auto, unfolding(crate::specs::Making::object_name))]
fn object_name(source: &[u8]) -> Name
    requires { length source.now ≤ name_limit }
    ensures { result ≡ object_name source.now }
{
    match Name::new(&source[..source.len().saturating_sub(4)]) {
        Some(name) => name,
        None => unreachable!(),
    }
}

// The packed words of the object that parsed lines assemble to.
#[tactic(auto, using(crate::proofs::ObjectLaws::made))]
fn content_of_lines(alloc: Global, lines: &Lines36) -> Result<Text, AlmFault>
    ensures { ObjectResult result (with_parts lines.now (assembled lines.now)) }
{
    match assemble(alloc, lines) {
        Ok(object) => Ok(object_bytes(alloc, &object)?),
        Err(fault) => Err(fault),
    }
}

// The packed words of the object of a source.
#[tactic(auto, using(crate::proofs::ObjectLaws::parsing))]
fn content_of(alloc: Global, source: &[u8]) -> Result<Text, AlmFault>
    requires { length source.now < 2 ^ 32 }
    ensures { ObjectResult result (assembly_of source.now) }
{
    match parse(alloc, source) {
        Ok(lines) => content_of_lines(alloc, &lines),
        Err(fault) => Err(fault),
    }
}

// The file of the object of a source, or the refusal of the source. `name` is that of the source,
// which has at most 16 MiB.
#[tactic(auto, using(crate::proofs::ObjectLaws::giving))]
fn object_of_bytes(alloc: Global, name: &[u8], source: &[u8]) -> Result<Set, Refusal>
    requires name { length name.now ≤ name_limit }
    requires source { length source.now ≤ file_limit }
    ensures { IsRuleResult result (object_set_or_refusal name.now (assembly_of source.now)) }
{
    match content_of(alloc, source) {
        Ok(content) => Ok(Set {
            name: object_name(name),
            content,
        }),
        Err(fault) => Err(refuse_source(alloc, name, fault)),
    }
}

/// The object that `alm` makes of a source.
#[tactic(auto, unfolding(crate::specs::Making::object_of), using(m36_status::proofs::GivesLaws::gives_refusal))]
pub fn object_of(alloc: Global, source: &File) -> Result<Set, Refusal>
    ensures { IsRuleResult result (object_of source.now) }
{
    let bytes = source.content.bytes();
    if bytes.len() > FILE_LIMIT {
        return Err(refuse(alloc, source.name.bytes(), Code::F2, 0));
    }
    object_of_bytes(alloc, source.name.bytes(), bytes)
}

/// Appends the objects of `sources` to the files, in order. Ends with the refusal of the first
/// source that is refused.
#[tactic(auto, using(crate::proofs::ObjectLaws::objects_in_turn))]
pub fn with_objects(alloc: Global, mut sets: Sets, sources: &[File]) -> Result<Sets, Refusal>
    ensures { IsRuleResult result (with_objects sets sources.now) }
{
    for source in sources {
        sets.push(object_of(alloc, source)?)?;
    }
    Ok(sets)
}
