//! Performs the command `make SEED` over any world.

ghost use Rattle.m36_program.specs.Performs.{Performs};
ghost use Rattle.cmd_make.specs.MakeProgram.{boot_made, write_and_boot, make_program};

use crate::folder::boot_in_memory;
use crate::making::files_of_seed;
use crate::sets::Sets;
use crate::summary::summarise;
use cmd_tools::reporting::write_files;
use m36_status::Status;
use m36_world::World;
use std::alloc::Global;

// Boots the files from memory, audits and runs the system, and puts its lines.
#[tactic(auto, using(crate::proofs::MakeSteps::booting))]
fn boot_made<W: World>(alloc: Global, sets: &Sets, world: &mut W) -> Result<(), Status>
    ensures { Performs (boot_made sets.now) result (W.seen world.old) (W.seen world.new) }
{
    match boot_in_memory(alloc, sets) {
        Ok(booted) => summarise(alloc, booted.system, world),
        Err(status) => Err(status),
    }
}

// Writes the files in order, and then boots them from memory.
#[tactic(auto, using(crate::proofs::MakeSteps::writing))]
fn write_and_boot<W: World>(alloc: Global, sets: &Sets, world: &mut W) -> Result<(), Status>
    ensures { Performs (write_and_boot sets.now) result (W.seen world.old) (W.seen world.new) }
{
    match write_files(alloc, sets.items(), world) {
        Ok(()) => boot_made(alloc, sets, world),
        Err(status) => Err(status),
    }
}

/// Performs `make SEED`: makes the files of a seed and writes them, boots them from memory, audits
/// the core, runs the system if the audit passes, and puts the lines of it. An error is the status
/// of the command.
#[tactic(auto, using(crate::proofs::MakeSteps::making))]
pub fn perform_make<W: World>(alloc: Global, seed: u64, world: &mut W) -> Result<(), Status>
    ensures { Performs (make_program seed) result (W.seen world.old) (W.seen world.new) }
{
    match files_of_seed(alloc, seed) {
        Ok(sets) => {
            let answer = write_and_boot(alloc, &sets, world);
            // Dropped by a call, so that the drop is proved once for its type.
            drop(sets);
            answer
        }
        Err(refusal) => Err(refusal.status()),
    }
}
