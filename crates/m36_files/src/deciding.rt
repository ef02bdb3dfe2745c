//! Turns the result of a rule into the result of a call.

ghost use Rattle.std.specs.Prelude.{◌≡◌};
ghost use Rattle.m36_files.specs.Deciding.{refusal_to_status};

use m36_status::{Refusal, Status};

/// The result of a rule with its refusal as the status of the command.
pub fn refusal_as_status<T>(given: Result<T, Refusal>) -> Result<T, Status>
    ensures { result ≡ refusal_to_status given }
{
    match given {
        Ok(value) => Ok(value),
        Err(refusal) => Err(refusal.status()),
    }
}
