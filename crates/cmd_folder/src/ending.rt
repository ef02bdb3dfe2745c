//! The end line and the status of a run that finished.

ghost use Rattle.std.specs.Prelude.{◌≡◌, ◌<◌, length, Some};
ghost use Rattle.cmd_folder.specs.RunText.{finish_line, finish_status};

use crate::finish::Finish;
use arrayvec::ArrayString;
use cmd_image::machine::end_status;
use m36_model::Outcome;
use m36_status::Status;
use m36_trace::end_line;
use m36_turns::run_end_line;

/// The end line of a run, without its line feed; `steps` is the count of its steps.
pub fn finish_line(how: Finish, steps: u32) -> ArrayString<160>
    ensures text { result.bytes ≡ finish_line how steps }
    ensures len { length result.bytes < 160 }
{
    match how {
        Finish::Over(end) => run_end_line(end, steps as u64),
        Finish::Limit => end_line(Outcome::Next, steps as u64),
    }
}

/// The status of a run that finished.
pub fn finish_status(how: Finish) -> Status
    ensures { result ≡ finish_status (Some how) }
{
    match how {
        Finish::Over(end) => end_status(end),
        Finish::Limit => Status::Steps,
    }
}
