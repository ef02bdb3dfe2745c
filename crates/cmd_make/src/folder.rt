//! Puts the files into a folder in memory, and boots it.

ghost use Rattle.std.specs.Prelude.{◌≡◌, [], IfOk};
ghost use Rattle.m36_outside.specs.FileList.{file_named};
ghost use Rattle.m36_program.specs.Goes.{Goes};
ghost use Rattle.cmd_folder.specs.BootedSystems.{IsFresh};
ghost use Rattle.cmd_folder.specs.Systems.{folder_result};
ghost use Rattle.cmd_make.specs.Making.{files_in};
ghost use Rattle.cmd_make.specs.Made.{boot_files};

use crate::sets::Sets;
use cmd_folder::booting::BootedFolder;
use cmd_folder::read_system;
use m36_outside::{SureFolder, SureLines, SureSink};
use m36_status::{Set, Status};
use m36_word::NoMemory;
use m36_world::Outside;
use std::alloc::Global;

// A folder in memory with these files and no others. Fails only with `NoMemory`.
#[tactic(auto, using(crate::proofs::Files::folder_in_turn))]
fn folder_of(alloc: Global, sets: &[Set]) -> Result<SureFolder, NoMemory>
    ensures { IfOk result (λ folder. file_named folder.files ≡ files_in sets.now) }
{
    let mut folder = SureFolder::new(alloc)?;
    for set in sets {
        folder.add(set.name.bytes(), set.content.bytes())?;
    }
    Ok(folder)
}

// A world with these files and no others, whose calls do not fail. Its input is empty.
fn world_of(
    alloc: Global,
    sets: &[Set],
) -> Result<Outside<SureFolder, SureLines, SureSink>, NoMemory>
    ensures { IfOk result (λ world. file_named world.folder.files ≡ files_in sets.now) }
{
    let folder = folder_of(alloc, sets)?;
    let lines = SureLines::new(alloc, &[])?;
    Ok(Outside::new(folder, lines, SureSink::new()))
}

/// Boots a folder in memory with these files, as `run` boots a folder, or refuses it. Nothing
/// outside is read. An error is the status of the command.
#[tactic(auto, using(crate::proofs::Files::no_world))]
pub fn boot_in_memory(alloc: Global, sets: &Sets) -> Result<BootedFolder, Status>
    ensures goes { Goes (boot_files sets.now) [] (folder_result result) }
    ensures fresh { IfOk result (λ booted. IsFresh booted.system) }
{
    match world_of(alloc, sets.items()) {
        Ok(mut world) => {
            let given = read_system(alloc, &None, &mut world);
            // Dropped by a call, so that the drop is proved once for its type.
            drop(world);
            given
        }
        Err(NoMemory) => Err(Status::NoMemory),
    }
}
