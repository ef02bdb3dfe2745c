//! The numbers of words of an object and of its sections.

ghost use Rattle.std.specs.Prelude.{IfOk};
ghost use Rattle.m36_list.specs.Counts.{AreCountsOf};

use m36_word::NoMemory;
use obj36::{Object, Section};
use std::alloc::Global;

/// The numbers of words of an object and of its sections; `statics` is that of the static section.
#[derive(Clone, Copy)]
pub struct Counts {
    pub whole: u64,
    pub text: u64,
    pub definition: u64,
    pub linkage: u64,
    pub statics: u64,
    pub symbol: u64,
}

/// The numbers of words of an object. It is written to count the whole. Fails only with `NoMemory`.
pub fn counts_of_object(alloc: Global, o: &Object) -> Result<Counts, NoMemory>
    ensures { IfOk result (λ counts. AreCountsOf counts o.now) }
{
    let words = o.write(alloc)?;
    Ok(Counts {
        whole: words.slice().len() as u64,
        text: o.section(Section::Text).len() as u64,
        definition: o.definition_length() as u64,
        linkage: o.section(Section::Linkage).len() as u64,
        statics: o.section(Section::Static).len() as u64,
        symbol: o.section(Section::Symbol).len() as u64,
    })
}
