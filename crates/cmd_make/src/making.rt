//! Makes the files of a seed.

ghost use Rattle.std.specs.Prelude.{◌≡◌, ◌++◌, map, IfOk};
ghost use Rattle.m36_status.specs.Refusing.{IsRuleResult};
ghost use Rattle.m36_gen.specs.Folder.{fixed_files};
ghost use Rattle.cmd_make.specs.Making.{set_of, files_of_seed};

use crate::objects::with_objects;
use crate::sets::{Sets, with_copies};
use m36_gen::{Files, add_fixed_files, sources};
use m36_status::Refusal;
use m36_word::NoMemory;
use std::alloc::Global;

// Appends the data and the boot text to the sources and their objects. Fails only with `NoMemory`.
fn with_other_files(alloc: Global, sets: Sets) -> Result<Sets, NoMemory>
    ensures { IfOk result (λ more. more ≡ sets ++ map set_of fixed_files) }
{
    let mut others = Files::new(alloc);
    add_fixed_files(alloc, &mut others)?;
    with_copies(alloc, sets, others.items())
}

/// The files that a seed makes, in the order in which they are written; or why a source is refused.
#[tactic(auto, using(crate::proofs::AllFiles::making))]
pub fn files_of_seed(alloc: Global, seed: u64) -> Result<Sets, Refusal>
    ensures { IsRuleResult result (files_of_seed seed) }
{
    let draw_of = sources(alloc, seed)?;
    let sets = with_copies(alloc, Sets::new(alloc), draw_of.items())?;
    let sets = with_objects(alloc, sets, draw_of.items())?;
    let sets = with_other_files(alloc, sets)?;
    Ok(sets)
}
