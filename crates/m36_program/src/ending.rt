//! Converts between the status of a whole command and the result of the call that performs it.

ghost use Rattle.std.specs.Prelude.{◌≡◌};
ghost use Rattle.m36_program.specs.Early.{result_of_status, status_of_result};

use m36_status::Status;

/// The result for a status: Ok for Done; every other status is an error.
pub fn result_of_status(status: Status) -> Result<(), Status>
    ensures { result ≡ result_of_status status }
{
    match status {
        Status::Done => Ok(()),
        other => Err(other),
    }
}

/// The status for a result.
pub fn status_of_result(outcome: Result<(), Status>) -> Status
    ensures { result ≡ status_of_result outcome }
{
    match outcome {
        Ok(()) => Status::Done,
        Err(status) => status,
    }
}
