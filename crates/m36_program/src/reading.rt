//! Reads the bytes of a file, with all its refusals.

ghost use Rattle.std.specs.Prelude.{◌≡◌, ◌≤◌, length, IfOk};
ghost use Rattle.m36_outside.specs.ReadAnswer.{file_limit};
ghost use Rattle.m36_program.specs.Program.{May};
ghost use Rattle.m36_program.specs.Performs.{Performs};
ghost use Rattle.m36_program.specs.Readers.{bad_file, bad_file_at, IsRefusal, file_bytes};

use m36_outside::{ReadAnswer, Text};
use m36_status::{Bad, Code, Status};
use m36_world::World;
use std::alloc::Global;

/// The status that refuses a file at a place and a column of it. If memory runs out for its name,
/// the status is NoMemory.
pub fn refuse_at(alloc: Global, name: &[u8], code: Code, at: u32, column: u32) -> Status
    ensures { IsRefusal result (bad_file_at name.now code at column) }
{
    match Text::from_bytes(alloc, name) {
        Ok(name) => Status::BadFile(Bad {
            name,
            code,
            at,
            column,
        }),
        Err(_) => Status::NoMemory,
    }
}

/// As `refuse_at`, with column 0, for a file without columns.
pub fn refuse(alloc: Global, name: &[u8], code: Code, at: u32) -> Status
    ensures { IsRefusal result (bad_file name.now code at) }
{
    refuse_at(alloc, name, code, at, 0)
}

/// Reads the bytes of a file. Refuses it with F1 if it is absent, and with F2 if it has more than
/// 16 MiB.
#[tactic(auto, using(crate::proofs::ReadLaws::reading))]
pub fn read_bytes<W: World>(alloc: Global, name: &[u8], world: &mut W) -> Result<Text, Status>
    ensures performs { (may : May) → Performs {may = may} (file_bytes name.now) result
        (W.seen world.old) (W.seen world.new) }
    ensures limit { IfOk result (λ text. length text ≤ file_limit) }
{
    match world.read(alloc, name) {
        ReadAnswer::Read(text) => Ok(text),
        ReadAnswer::Absent => Err(refuse(alloc, name, Code::F1, 0)),
        ReadAnswer::TooLarge => Err(refuse(alloc, name, Code::F2, 0)),
        ReadAnswer::Failed => Err(Status::ReadFault),
        ReadAnswer::NoMemory => Err(Status::NoMemory),
    }
}
