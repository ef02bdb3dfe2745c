//! Reads the processes and the schedule of a file.

ghost use Rattle.std.specs.Prelude.{◌≤◌, [], length};
ghost use Rattle.m36_outside.specs.ReadAnswer.{file_limit};
ghost use Rattle.m36_program.specs.Goes.{Goes};
ghost use Rattle.m36_program.specs.Performs.{Performs};
ghost use Rattle.m36_program.specs.Program.{quiet};
ghost use Rattle.cmd_procs.specs.ProcsProgram.{decode, procs_in_file};

use m36_procs::{Procs, ProcsFault};
use m36_program::{read_bytes, refuse};
use m36_status::{Code, Status};
use m36_world::World;
use std::alloc::Global;

/// Decodes the bytes of a file as processes and a schedule. P1 or P2 if they are no such text.
#[tactic(auto, using(crate::proofs::ProcsSteps::decoding))]
fn decode(alloc: Global, name: &[u8], bytes: &[u8]) -> Result<Procs, Status>
    requires { length bytes.now ≤ file_limit }
    ensures { Goes {may = quiet} (decode name.now bytes.now) [] result }
{
    match Procs::read(alloc, bytes) {
        Ok(procs) => Ok(procs),
        Err(ProcsFault::P1(line)) => Err(refuse(alloc, name, Code::P1, line)),
        Err(ProcsFault::P2(line)) => Err(refuse(alloc, name, Code::P2, line)),
        Err(ProcsFault::NoMemory) => Err(Status::NoMemory),
    }
}

/// Reads and decodes a file of processes. An error is the status of the command.
#[tactic(auto, using(crate::proofs::ProcsSteps::reading))]
pub fn read_procs<W: World>(alloc: Global, name: &[u8], world: &mut W) -> Result<Procs, Status>
    ensures { Performs {may = quiet} (procs_in_file name.now) result
        (W.seen world.old) (W.seen world.new) }
{
    match read_bytes(alloc, name, world) {
        Ok(text) => {
            let given = decode(alloc, name, text.bytes());
            // Dropped by a call, so that the drop is proved once for its type.
            drop(text);
            given
        }
        Err(status) => Err(status),
    }
}
