//! Puts one piece of output, and writes one file.

ghost use Rattle.std.specs.Prelude.{◌≡◌, true};
ghost use Rattle.m36_program.specs.Program.{May};
ghost use Rattle.m36_program.specs.Performs.{Performs};
ghost use Rattle.m36_program.specs.Readers.{put_one, write_one};

use m36_outside::{Put, WriteAnswer};
use m36_status::Status;
use m36_world::World;
use std::alloc::Global;

/// Puts a piece. The only error is WriteFault.
#[tactic(auto, using(crate::proofs::ReadLaws::putting))]
pub fn put_piece<W: World>(piece: &[u8], world: &mut W) -> Result<(), Status>
    ensures { (may : May) → Performs {may = may} (put_one piece.now) result
        (W.seen world.old) (W.seen world.new) }
{
    match world.put(piece) {
        Put::Done => Ok(()),
        Put::Failed => Err(Status::WriteFault),
    }
}

/// Writes a file. The errors are WriteFault and NoMemory.
#[tactic(auto, using(crate::proofs::ReadLaws::writing))]
pub fn write_file<W: World>(
    alloc: Global,
    name: &[u8],
    content: &[u8],
    world: &mut W,
) -> Result<(), Status>
    ensures { (may : May) (allowed : may.writes ≡ true)
        → Performs {may = may} (write_one allowed name.now content.now) result
        (W.seen world.old) (W.seen world.new) }
{
    match world.write(alloc, name, content) {
        WriteAnswer::Written => Ok(()),
        WriteAnswer::Failed => Err(Status::WriteFault),
        WriteAnswer::NoMemory => Err(Status::NoMemory),
    }
}
