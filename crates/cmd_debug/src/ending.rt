//! Turns the result of a session into the status of the command.

ghost use Rattle.std.specs.Prelude.{◌≡◌, IfOk};
ghost use Rattle.m36_debug.specs.SessionProgram.{stdin_name, ended_by};

use m36_debug::SessionFault;
use m36_outside::Text;
use m36_status::{Bad, Code, Status};
use m36_word::NoMemory;
use std::alloc::Global;

/// The name of the standard input, `stdin`, under which S1 is reported. Fails only with `NoMemory`.
pub(crate) fn stdin_name(alloc: Global) -> Result<Text, NoMemory>
    ensures { IfOk result (λ name. name ≡ stdin_name) }
{
    let name = Text::from_bytes(alloc, b"stdin")?;
    Ok(name)
}

/// The result of the command by the result of its session. `name` is the name of the standard
/// input; a session with too much input is refused with S1 under this name.
pub(crate) fn ended_by(ended: Result<(), SessionFault>, name: Text) -> Result<(), Status>
    requires { name ≡ stdin_name }
    ensures { result ≡ ended_by ended }
{
    match ended {
        Ok(()) => Ok(()),
        Err(SessionFault::ReadFault) => Err(Status::ReadFault),
        Err(SessionFault::WriteFault) => Err(Status::WriteFault),
        Err(SessionFault::TooLong) => Err(Status::BadFile(Bad {
            name,
            code: Code::S1,
            at: 0,
            column: 0,
        })),
        Err(SessionFault::NoMemory) => Err(Status::NoMemory),
    }
}
